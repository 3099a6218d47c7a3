//! An id, and the value that it chooses.

use crate::rows::{Row, expect_rows};
use deku::prelude::DekuError;
use deku_symmetry::{Be, Either, Enum, InRange, Kind, Lsb, LsbEnum, MsbEnum, MsbLeEnum, Otherwise};
use deku_testing_values::expecting::MISFIT;
use deku_testing_values::records::expect_both_ways;
use std::test::Fail;

// What follows the type of an Ethernet frame: a number, nothing, or a byte after any other type.
type Frame = MsbEnum<Either<Kind<Be<u16>, 0x0800>, Either<Kind<(), 0x0806>, Otherwise<u8>>>, 16>;

// A byte under the ids 0xF0 to 0xFE, and nothing under 1.
type Private = MsbEnum<Either<InRange<u8, 0xF0, 0xFE>, Kind<(), 1>>, 8>;

// A bit after the id 5, or nine after the id 3.
type Word = LsbEnum<Either<Kind<Lsb<u8, 1>, 5>, Kind<Lsb<u16, 9>, 3>>, 7>;

// A byte after an id of two bytes, the low one first.
type Little = MsbLeEnum<Kind<u8, 0x0102>, 16>;

// Forty kinds.
type Group0 = Either<
    Either<Either<Kind<u8, 0>, Kind<u8, 1>>, Either<Kind<u8, 2>, Kind<u8, 3>>>,
    Either<Either<Kind<u8, 4>, Kind<u8, 5>>, Either<Kind<u8, 6>, Kind<u8, 7>>>,
>;

type Group1 = Either<
    Either<Either<Kind<u8, 8>, Kind<u8, 9>>, Either<Kind<u8, 10>, Kind<u8, 11>>>,
    Either<Either<Kind<u8, 12>, Kind<u8, 13>>, Either<Kind<u8, 14>, Kind<u8, 15>>>,
>;

type Group2 = Either<
    Either<Either<Kind<u8, 16>, Kind<u8, 17>>, Either<Kind<u8, 18>, Kind<u8, 19>>>,
    Either<Either<Kind<u8, 20>, Kind<u8, 21>>, Either<Kind<u8, 22>, Kind<u8, 23>>>,
>;

type Group3 = Either<
    Either<Either<Kind<u8, 24>, Kind<u8, 25>>, Either<Kind<u8, 26>, Kind<u8, 27>>>,
    Either<Either<Kind<u8, 28>, Kind<u8, 29>>, Either<Kind<u8, 30>, Kind<u8, 31>>>,
>;

type Group4 = Either<
    Either<Either<Kind<u8, 32>, Kind<u8, 33>>, Either<Kind<u8, 34>, Kind<u8, 35>>>,
    Either<Either<Kind<u8, 36>, Kind<u8, 37>>, Either<Kind<u8, 38>, Kind<u8, 39>>>,
>;

type Forty = MsbEnum<Either<Group0, Either<Either<Group1, Group2>, Either<Group3, Group4>>>, 8>;

fn other(id: u64, value: u8) -> Frame {
    Enum::new(Either::Other(Either::Other(InRange { id, value })))
}

#[test]
fn each_under_its_id(rt: HostRuntime) -> Result<(), Fail> {
    let refusal = DekuError::Assertion("kind out of step with its id");
    let number = Enum::new(Either::This(Kind(Be(0xBEEF))));
    let nothing = Enum::new(Either::Other(Either::This(Kind(()))));
    expect_rows::<Frame>(
        rt.alloc(),
        &[
            Row::Written(number, 32, &[0x08, 0x00, 0xBE, 0xEF]),
            Row::Written(nothing, 16, &[0x08, 0x06]),
            Row::Written(other(0x86DD, 7), 24, &[0x86, 0xDD, 0x07]),
            Row::Unfit(other(0x0800, 7), refusal),
            Row::Unfit(other(0x0806, 7), refusal),
            Row::Unfit(other(0x10000, 7), MISFIT),
        ],
    )
}

#[test]
fn an_id_of_two_bytes(rt: HostRuntime) -> Result<(), Fail> {
    let little: Little = Enum::new(Kind(7));
    expect_both_ways(rt.alloc(), (), &little, 24, &[0x02, 0x01, 0x07])
}

#[test]
fn ids_of_a_range(rt: HostRuntime) -> Result<(), Fail> {
    let last = Enum::new(Either::This(InRange { id: 0xFE, value: 9 }));
    let beyond = Enum::new(Either::This(InRange { id: 0xFF, value: 9 }));
    let refusal = DekuError::Assertion("kind out of step with its id");
    expect_rows::<Private>(
        rt.alloc(),
        &[
            Row::Written(last, 16, &[0xFE, 0x09]),
            Row::Unfit(beyond, refusal),
            Row::Refused(&[0xFF, 0x09], DekuError::IdVariantNotFound, 8),
            Row::Refused(&[0xEF, 0x09], DekuError::IdVariantNotFound, 8),
        ],
    )
}

// 3 + 0x1FF * 128 is 0xFF83, its low byte first.
#[test]
fn ids_in_low_bits(rt: HostRuntime) -> Result<(), Fail> {
    let one = Enum::new(Either::This(Kind(Lsb(1))));
    let nine = Enum::new(Either::Other(Kind(Lsb(0x1FF))));
    expect_rows::<Word>(
        rt.alloc(),
        &[
            Row::Written(one, 8, &[0x85]),
            Row::Written(nine, 16, &[0x83, 0xFF]),
        ],
    )
}

#[test]
fn forty_kinds(rt: HostRuntime) -> Result<(), Fail> {
    let first = Either::This(Either::This(Either::This(Either::This(Kind(0xAA)))));
    let last = Either::Other(Either::Other(Either::Other(Either::Other(Either::Other(Either::Other(
        Kind(0xBB),
    ))))));
    expect_rows::<Forty>(
        rt.alloc(),
        &[
            Row::Written(Enum::new(first), 16, &[0x00, 0xAA]),
            Row::Written(Enum::new(last), 16, &[0x27, 0xBB]),
            Row::Refused(&[0x28, 0xBB], DekuError::IdVariantNotFound, 8),
        ],
    )
}
