//! Content of as many bits as the parts before it say.

ghost use Rattle.std.specs.Prelude.{◌*◌, ◌-◌, nat_eq, None, Some, if◌then◌else◌};
ghost use Rattle.std.specs.Prelude.{refl};

use crate::rows::{Row, expect_rows};
use deku::prelude::DekuError;
use deku_symmetry::{Be, Msb, Prefixed, SizeOf, SizeOfLaw, SizedBy, Symmetric};
use deku_testing_values::expecting::same;
use deku_testing_values::records::expect_record;
use std::alloc::Global;
use std::test::Fail;

// A length in bytes.
#[derive(Debug, PartialEq, Eq, Drop)]
struct Length;

impl SizeOf<Be<u16>> for Length {
    ghost size_of = { λ head. Some (head.0 * 8) };

    fn size(head: &Be<u16>) -> Option<usize> {
        Some(head.0 as usize * 8)
    }
}

impl SizeOfLaw<Be<u16>> for Length {
    ghost alike = { λ v w e. rw e refl };
}

// A length in bits, the four of the length included; 0 is none.
#[derive(Debug, PartialEq, Eq, Drop)]
struct AllBits;

impl SizeOf<Msb<u8, 4>> for AllBits {
    ghost size_of = { λ head. if nat_eq head.0 0 then None else Some (head.0 - 4) };

    fn size(head: &Msb<u8, 4>) -> Option<usize> {
        if head.0 == 0 {
            None
        } else {
            Some((head.0 as usize).saturating_sub(4))
        }
    }
}

impl SizeOfLaw<Msb<u8, 4>> for AllBits {
    ghost alike = { λ v w e. rw e refl };
}

type Pair = SizedBy<Be<u16>, Length, (Be<u16>, Be<u16>)>;

type Items = SizedBy<Be<u16>, Length, Prefixed<Msb<u64, 8>, Be<u16>>>;

type Few = SizedBy<Msb<u8, 4>, AllBits, (Msb<u8, 3>, Msb<u8, 5>)>;

const REFUSAL: DekuError = DekuError::Assertion("content out of step with its size");

fn items(alloc: Global, bytes: u16, numbers: &[u16]) -> Result<Items, Fail> {
    let mut parts = std::vec::Vec::new(alloc);
    for number in numbers {
        parts.push(Be(*number))?;
    }
    Ok(SizedBy::new(Be(bytes), Prefixed::new(parts)))
}

#[test]
fn as_long_as_the_head_says(rt: HostRuntime) -> Result<(), Fail> {
    let pair: Pair = SizedBy::new(Be(4), (Be(0x1234), Be(0x5678)));
    expect_record(rt.alloc(), &pair, &[0x00, 0x04, 0x12, 0x34, 0x56, 0x78])
}

// Bytes, numbers, and the bytes of all.
const RECORDS: [(u16, &[u16], &[u8]); 2] = [
    (5, &[6, 9], &[0x00, 0x05, 0x02, 0x00, 0x06, 0x00, 0x09]),
    (1, &[], &[0x00, 0x01, 0x00]),
];

#[test]
fn items_that_the_head_sizes(rt: HostRuntime) -> Result<(), Fail> {
    for (bytes, numbers, record) in RECORDS {
        let items = items(rt.alloc(), bytes, numbers)?;
        expect_record(rt.alloc(), &items, record)?;
    }
    Ok(())
}

#[test]
fn items_of_another_size(rt: HostRuntime) -> Result<(), Fail> {
    for bytes in [4, 6] {
        let items = items(rt.alloc(), bytes, &[6, 9])?;
        same(&bytes, &items.pack(rt.alloc(), ()), &Err(REFUSAL))?;
    }
    Ok(())
}

// 12 is 1100, 5 is 101, and 9 in five bits is 01001: 1100 1010 1001.
#[test]
fn bits_that_the_head_counts(rt: HostRuntime) -> Result<(), Fail> {
    let none = DekuError::Parse("head without a size");
    let missing = DekuError::Assertion("head without a size");
    expect_rows::<Few>(
        rt.alloc(),
        &[
            Row::Written(SizedBy::new(Msb(12), (Msb(5), Msb(9))), 12, &[0xCA, 0x90]),
            Row::Refused(&[0xBA, 0x90], REFUSAL, 12),
            Row::Refused(&[0x0A, 0x90], none, 4),
            Row::Unfit(SizedBy::new(Msb(11), (Msb(5), Msb(9))), REFUSAL),
            Row::Unfit(SizedBy::new(Msb(0), (Msb(5), Msb(9))), missing),
        ],
    )
}

#[test]
fn longer_or_shorter(rt: HostRuntime) -> Result<(), Fail> {
    let short = SizedBy::new(Be(3), (Be(0x1234), Be(0x5678)));
    expect_rows::<Pair>(
        rt.alloc(),
        &[
            Row::Refused(&[0x00, 0x03, 0x12, 0x34, 0x56, 0x78], REFUSAL, 48),
            Row::Refused(&[0x00, 0x05, 0x12, 0x34, 0x56, 0x78, 0x9A], REFUSAL, 48),
            Row::Unfit(short, REFUSAL),
        ],
    )
}
