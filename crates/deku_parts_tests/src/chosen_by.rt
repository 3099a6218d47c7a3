//! Values of a kind that the parts before them choose.

use crate::rows::{Row, expect_records, expect_rows};
use deku::prelude::DekuError;
use deku_symmetry::{Be, ChosenBy, Either, IdOf, IdOfLaw, InRange, Kind, Msb, Otherwise};
use std::test::Fail;

// A version, and a protocol.
type Front = (Msb<u8, 4>, Msb<u8, 4>);

// The protocol is the id.
#[derive(Debug, PartialEq, Eq, Drop)]
struct Protocol;

impl IdOf<Front> for Protocol {
    ghost id_of = { λ head. head.1.0 };

    fn id(head: &Front) -> u64 {
        head.1.0 as u64
    }
}

impl IdOfLaw<Front> for Protocol {
    ghost alike = { λ v w e. e.1 };
}

type Known = ChosenBy<Front, Protocol, Either<Kind<Be<u16>, 1>, Kind<(), 2>>>;

type Any = ChosenBy<Front, Protocol, Either<Kind<Be<u16>, 1>, Otherwise<u8>>>;

const REFUSAL: DekuError = DekuError::Assertion("kind out of step with its id");

#[test]
fn each_under_its_id(rt: HostRuntime) -> Result<(), Fail> {
    let alloc = rt.alloc();
    let number: Known = ChosenBy::new((Msb(4), Msb(1)), Either::This(Kind(Be(0xBEEF))));
    let nothing: Known = ChosenBy::new((Msb(4), Msb(2)), Either::Other(Kind(())));
    expect_records(alloc, &[(number, &[0x41, 0xBE, 0xEF]), (nothing, &[0x42])])?;
    let other: Any = ChosenBy::new((Msb(4), Msb(7)), Either::Other(InRange { id: 7, value: 9 }));
    expect_records(alloc, &[(other, &[0x47, 0x09])])
}

#[test]
fn out_of_step(rt: HostRuntime) -> Result<(), Fail> {
    let unknown = DekuError::IdVariantNotFound;
    let number = ChosenBy::new((Msb(4), Msb(2)), Either::This(Kind(Be(0xBEEF))));
    expect_rows::<Known>(
        rt.alloc(),
        &[
            Row::Refused(&[0x43, 0xBE, 0xEF], unknown, 8),
            Row::Unfit(number, REFUSAL),
        ],
    )?;
    let other = ChosenBy::new((Msb(4), Msb(7)), Either::Other(InRange { id: 8, value: 9 }));
    let first = ChosenBy::new((Msb(4), Msb(1)), Either::Other(InRange { id: 1, value: 9 }));
    expect_rows::<Any>(
        rt.alloc(),
        &[Row::Unfit(other, REFUSAL), Row::Unfit(first, REFUSAL)],
    )
}
