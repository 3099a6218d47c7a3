//! Items that are there if the parts before them say so.

use crate::rows::{Row, expect_rows};
use deku::prelude::{DekuError, NeedSize};
use deku_symmetry::{Be, Condition, ConditionLaw, Msb, Optional};
use std::test::Fail;

// A flag, fifteen more bits, and a protocol: the front of a header of generic routing.
type Front = (Msb<bool, 1>, Msb<u16, 15>, Be<u16>);

// The flag brings a checksum and an offset.
#[derive(Debug, PartialEq, Eq, Drop)]
struct HasChecksum;

impl Condition<Front> for HasChecksum {
    ghost shows = { λ head. head.0.0 };

    fn shows(head: &Front) -> bool {
        head.0.0
    }
}

impl ConditionLaw<Front> for HasChecksum {
    ghost alike = { λ v w e. e.0 };
}

type Header = Optional<Front, HasChecksum, Be<u32>>;

fn header(flag: bool, item: Option<Be<u32>>) -> Header {
    Optional::new((Msb(flag), Msb(0), Be(0x0800)), item)
}

#[test]
fn there_or_not(rt: HostRuntime) -> Result<(), Fail> {
    let ended = DekuError::Incomplete(NeedSize::new(32));
    let refusal = DekuError::Assertion("item out of step with its condition");
    let bytes = [0x80, 0x00, 0x08, 0x00, 0x12, 0x34, 0x00, 0x00];
    expect_rows(
        rt.alloc(),
        &[
            Row::Written(header(false, None), 32, &[0x00, 0x00, 0x08, 0x00]),
            Row::Written(header(true, Some(Be(0x1234_0000))), 64, &bytes),
            Row::Refused(&[0x80, 0x00, 0x08, 0x00, 0x12], ended, 32),
            Row::Unfit(header(false, Some(Be(1))), refusal),
            Row::Unfit(header(true, None), refusal),
        ],
    )
}
