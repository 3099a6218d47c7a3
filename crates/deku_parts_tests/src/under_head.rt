//! Values under a context that the parts before them say.

ghost use Rattle.std.specs.Prelude.{nat_eq, if◌then◌else◌, refl};
ghost use Rattle.deku_num.specs.declared.ctx.Endian.TheVariants.{Big, Little};

use crate::rows::{Row, expect_records, expect_rows};
use deku::ctx::{BitSize, Endian};
use deku::prelude::DekuError;
use deku_symmetry::{Be, ContextOf, ContextOfLaw, UnderHead};
use std::test::Fail;

// A byte is the number of bits of a number.
#[derive(Debug, PartialEq, Eq, Drop)]
struct Width;

impl ContextOf<u8, (Endian, BitSize)> for Width {
    ghost context_of = { λ head. (Big, record { 0 = head }) };

    fn context(head: &u8) -> (Endian, BitSize) {
        (Endian::Big, BitSize(*head as usize))
    }
}

impl ContextOfLaw<u8, (Endian, BitSize)> for Width {
    ghost alike = { λ v w e. rw e refl };
}

// Two letters name the endian of a picture file: II for little, MM for big.
#[derive(Debug, PartialEq, Eq, Drop)]
struct ByteOrder;

impl ContextOf<Be<u16>, Endian> for ByteOrder {
    ghost context_of = { λ head. if nat_eq head.0 0x4949 then Little else Big };

    fn context(head: &Be<u16>) -> Endian {
        if head.0 == 0x4949 {
            Endian::Little
        } else {
            Endian::Big
        }
    }
}

impl ContextOfLaw<Be<u16>, Endian> for ByteOrder {
    ghost alike = { λ v w e. rw e refl };
}

type Number = UnderHead<u8, Width, u32, (Endian, BitSize)>;

type Picture = UnderHead<Be<u16>, ByteOrder, u16, Endian>;

#[test]
fn bits_that_the_head_counts(rt: HostRuntime) -> Result<(), Fail> {
    let wide = DekuError::Parse("too much data");
    let refusal = DekuError::InvalidParam("bit size is larger than input");
    expect_rows::<Number>(
        rt.alloc(),
        &[
            Row::Written(UnderHead::new(12, 0xABC), 20, &[0x0C, 0xAB, 0xC0]),
            Row::Written(UnderHead::new(0, 0), 8, &[0x00]),
            Row::Refused(&[0x21, 0, 0, 0, 0, 0], wide, 8),
            Row::Unfit(UnderHead::new(33, 1), refusal),
        ],
    )
}

#[test]
fn an_endian_that_the_head_names(rt: HostRuntime) -> Result<(), Fail> {
    let little: Picture = UnderHead::new(Be(0x4949), 42);
    let big = UnderHead::new(Be(0x4D4D), 42);
    expect_records(
        rt.alloc(),
        &[
            (little, &[0x49, 0x49, 0x2A, 0x00]),
            (big, &[0x4D, 0x4D, 0x00, 0x2A]),
        ],
    )
}
