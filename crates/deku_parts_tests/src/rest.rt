//! Items up to the end of the input.

use deku::prelude::{DekuError, NeedSize};
use deku_symmetry::{Before, Msb, Rest, SymmetricLast};
use deku_testing_values::expecting::same;
use deku_testing_values::records::expect_refusal;
use std::test::Fail;

type Log = Before<(Msb<u8, 4>, Msb<u8, 4>), Rest<u8>>;

#[test]
fn to_the_end(rt: HostRuntime) -> Result<(), Fail> {
    let alloc = rt.alloc();
    let log = Before {
        head: (Msb(6), Msb(9)),
        rest: Rest {
            items: [0xC0u8, 0xFE].to_vec(alloc)?,
        },
    };
    let bytes = log.pack_whole(alloc)?;
    same(&69, &bytes.as_slice(), &[0x69u8, 0xC0, 0xFE].as_slice())?;
    let (bits, read) = Log::unpack_whole(alloc, bytes.as_slice())?;
    same(&bits, &read, &log)?;
    same(&24, &bits, &24)?;
    let (bits, none) = Log::unpack_whole(alloc, &[0x69])?;
    same(&bits, &none.rest.items.len(), &0)
}

#[test]
fn an_end_inside_an_item(rt: HostRuntime) -> Result<(), Fail> {
    let ended = DekuError::Incomplete(NeedSize::new(3));
    expect_refusal::<Rest<Msb<u8, 3>>>(rt.alloc(), &[0x69], ended, 6)
}
