//! Items that fill as many bits as the parts before them say.

ghost use Rattle.std.specs.Prelude.{◌*◌, Some, refl};

use deku::prelude::{DekuError, NeedSize};
use deku_symmetry::{Be, FilledBy, SizeOf, SizeOfLaw, Symmetric};
use deku_testing_values::expecting::same;
use deku_testing_values::records::{expect_both_ways, expect_refusal};
use std::alloc::Global;
use std::test::Fail;

// A length in bytes.
#[derive(Debug, PartialEq, Eq, Drop)]
struct Length;

impl SizeOf<Be<u16>> for Length {
    ghost size_of = { λ head. Some (head.0 * 8) };

    fn size(head: &Be<u16>) -> Option<usize> {
        Some(head.0 as usize * 8)
    }
}

impl SizeOfLaw<Be<u16>> for Length {
    ghost alike = { λ v w e. rw e refl };
}

type Text = FilledBy<Be<u16>, Length, u8>;

fn text(alloc: Global, bytes: u16, items: &[u8]) -> Result<Text, Fail> {
    Ok(FilledBy::new(Be(bytes), items.to_vec(alloc)?))
}

// Bytes, items, bits and the bytes of all.
const PACKED: [(u16, &[u8], usize, &[u8]); 2] = [
    (2, &[0x68, 0x69], 32, &[0x00, 0x02, 0x68, 0x69]),
    (0, &[], 16, &[0x00, 0x00]),
];

#[test]
fn as_many_bytes_as_the_head_says(rt: HostRuntime) -> Result<(), Fail> {
    for (bytes, items, bits, packed) in PACKED {
        let text = text(rt.alloc(), bytes, items)?;
        expect_both_ways(rt.alloc(), (), &text, bits, packed)?;
    }
    let ended = DekuError::Incomplete(NeedSize::new(8));
    expect_refusal::<Text>(rt.alloc(), &[0x00, 0x03, 0x68, 0x69], ended, 32)
}

#[test]
fn more_or_fewer(rt: HostRuntime) -> Result<(), Fail> {
    let refusal = DekuError::Assertion("content out of step with its size");
    for bytes in [1, 3] {
        let text = text(rt.alloc(), bytes, &[0x68, 0x69])?;
        same(&bytes, &text.pack(rt.alloc(), ()), &Err(refusal))?;
    }
    Ok(())
}
