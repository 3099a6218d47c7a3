//! Constants, zeros, checks that take few lines to state, and bits that are kept.

ghost use Rattle.std.specs.Prelude.{[], ◌∷◌};

use crate::rows::{Row, expect_rows};
use deku::prelude::DekuError;
use deku_symmetry::{
    Assert, Be, Between, ByteConstant, Is, Magic, MagicBytes, Msb, ZeroBits, ZeroBytes,
};
use deku_testing_values::records::expect_both_ways;
use std::test::Fail;

// The first bytes of a portable network graphic.
#[derive(Debug, PartialEq, Eq, Drop)]
struct Picture;

impl ByteConstant<8> for Picture {
    ghost bytes = { 0x89 ∷ 0x50 ∷ 0x4E ∷ 0x47 ∷ 0x0D ∷ 0x0A ∷ 0x1A ∷ 0x0A ∷ [] };

    fn bytes() -> [u8; 8] {
        [0x89, 0x50, 0x4E, 0x47, 0x0D, 0x0A, 0x1A, 0x0A]
    }
}

type File = (MagicBytes<Picture, 8>, Be<u16>);

type Header = (
    Magic<Msb<u64, 16>, Is<0x4D5A>>,
    Assert<Msb<u64, 4>, Between<5, 15>>,
    Msb<u8, 4>,
);

type Padded = (Be<u16>, ZeroBytes<9>, Msb<u8, 3>, ZeroBits<5>);

// Three bits of padding that are kept.
type Kept = (Msb<u8, 5>, Msb<u8, 3>);

#[test]
fn strings_of_bytes(rt: HostRuntime) -> Result<(), Fail> {
    let bytes = [0x89, 0x50, 0x4E, 0x47, 0x0D, 0x0A, 0x1A, 0x0A, 0x00, 0x02];
    let other = [0x89, 0x50, 0x4E, 0x47, 0x0D, 0x0A, 0x1A, 0x0B, 0x00, 0x02];
    let why = DekuError::Assertion("magic bytes");
    expect_rows::<File>(
        rt.alloc(),
        &[
            Row::Written((Magic::new(), Be(2)), 80, &bytes),
            Row::Refused(&other, why, 64),
        ],
    )
}

#[test]
fn numbers_and_ranges(rt: HostRuntime) -> Result<(), Fail> {
    let another = DekuError::Assertion("another number");
    let range = DekuError::Assertion("number out of range");
    let five = (Magic::new(), Assert::new(Msb(5)), Msb(9));
    let four = (Magic::new(), Assert::new(Msb(4)), Msb(9));
    expect_rows::<Header>(
        rt.alloc(),
        &[
            Row::Written(five, 24, &[0x4D, 0x5A, 0x59]),
            Row::Refused(&[0x4D, 0x5B, 0x59], another, 16),
            Row::Refused(&[0x4D, 0x5A, 0x49], range, 20),
            Row::Unfit(four, range),
        ],
    )
}

#[test]
fn zeros(rt: HostRuntime) -> Result<(), Fail> {
    let padded = (Be(0x1234), Magic::new(), Msb(5), Magic::new());
    let bytes = [0x12, 0x34, 0, 0, 0, 0, 0, 0, 0, 0, 0, 0xA0];
    let some = [0x12, 0x34, 0, 0, 0, 0, 0, 0, 0, 0, 1, 0xA0];
    let last = [0x12, 0x34, 0, 0, 0, 0, 0, 0, 0, 0, 0, 0xA1];
    expect_rows::<Padded>(
        rt.alloc(),
        &[
            Row::Written(padded, 96, &bytes),
            Row::Refused(&some, DekuError::Assertion("zeros"), 88),
            Row::Refused(&last, DekuError::Assertion("another number"), 96),
        ],
    )
}

#[test]
fn bits_that_are_kept(rt: HostRuntime) -> Result<(), Fail> {
    let kept: Kept = (Msb(17), Msb(5));
    expect_both_ways(rt.alloc(), (), &kept, 8, &[0x8D])
}
