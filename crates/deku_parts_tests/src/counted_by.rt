//! Items that several parts before them count.

ghost use Rattle.std.specs.Prelude.{◌*◌, ◌-◌, nat_lt, None, Some, if◌then◌else◌};
ghost use Rattle.std.specs.Prelude.{refl};

use crate::rows::{Row, expect_rows};
use deku::prelude::{DekuError, NeedSize};
use deku_symmetry::{Be, CountOf, CountOfLaw, CountedBy, Msb, Symmetric};
use deku_testing_values::expecting::same;
use deku_testing_values::records::expect_both_ways;
use std::alloc::Global;
use std::test::Fail;

// A window, a length in words of four bytes, the header of five words included, and four bits.
type Front = (Be<u16>, Msb<u8, 4>, Msb<u8, 4>);

// Four bytes for each word beyond five.
#[derive(Debug, PartialEq, Eq, Drop)]
struct OptionBytes;

impl CountOf<Front> for OptionBytes {
    ghost count_of = { λ head. if nat_lt head.1.0 5 then None else Some ((head.1.0 - 5) * 4) };

    fn count(head: &Front) -> Option<usize> {
        let words = head.1.0 as usize;
        if words < 5 {
            None
        } else {
            Some((words - 5) * 4)
        }
    }
}

impl CountOfLaw<Front> for OptionBytes {
    ghost alike = { λ v w e. rw e.1.0 refl };
}

type Header = CountedBy<Front, OptionBytes, u8>;

fn header(alloc: Global, words: u8, options: &[u8]) -> Result<Header, Fail> {
    Ok(CountedBy::new((Be(0x0400), Msb(words), Msb(2)), options.to_vec(alloc)?))
}

// Words, options, bits and bytes.
const PACKED: [(u8, &[u8], usize, &[u8]); 2] = [
    (5, &[], 24, &[0x04, 0x00, 0x52]),
    (
        6,
        &[0x02, 0x04, 0x05, 0xB4],
        56,
        &[0x04, 0x00, 0x62, 0x02, 0x04, 0x05, 0xB4],
    ),
];

#[test]
fn as_many_as_the_head_says(rt: HostRuntime) -> Result<(), Fail> {
    for (words, options, bits, bytes) in PACKED {
        let header = header(rt.alloc(), words, options)?;
        expect_both_ways(rt.alloc(), (), &header, bits, bytes)?;
    }
    Ok(())
}

#[test]
fn too_few(rt: HostRuntime) -> Result<(), Fail> {
    let ended = DekuError::Incomplete(NeedSize::new(8));
    let uncounted = DekuError::Parse("head without a count");
    expect_rows::<Header>(
        rt.alloc(),
        &[
            Row::Refused(&[0x04, 0x00, 0x62, 0x02, 0x04], ended, 40),
            Row::Refused(&[0x04, 0x00, 0x42, 0x02], uncounted, 24),
        ],
    )
}

// Words, and options that are more or fewer.
const UNFIT: [(u8, &[u8]); 3] = [(5, &[1, 2, 3, 4]), (6, &[1, 2, 3]), (4, &[])];

#[test]
fn out_of_step(rt: HostRuntime) -> Result<(), Fail> {
    let refusal = DekuError::Assertion("count out of step with items");
    for (words, options) in UNFIT {
        let header = header(rt.alloc(), words, options)?;
        same(&words, &header.pack(rt.alloc(), ()), &Err(refusal))?;
    }
    Ok(())
}
