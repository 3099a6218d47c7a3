//! Items that may be absent, on the heap, borrowed or behind a reference.
//!
//! deku's own two tests of `Arc` have no counterpart: it is not read or written.

use super::expecting::{expect_whole, expect_written, same};
use deku::ctx::BitSize;
use deku::ctx::Endian::{Big, Little};
use deku::prelude::{DekuError, NeedSize};
use deku_testing_values::expecting::{next, reader_of};
use std::borrow::Cow;
use std::test::Fail;

// An item is always read; an absent one is written as nothing.
#[test]
fn options(rt: HostRuntime) {
    let alloc = rt.alloc();
    let nothing: Option<u8> = None;
    expect_whole(&rt, alloc, Big, &[0xBE, 0xEF], Some(0xBEEFu16));
    expect_whole(&rt, alloc, Big, &[1, 2, 3], (Some(1u8), Some((2u8, 3u8))));
    expect_written(&rt, alloc, (), &nothing, &[]);
    expect_written(&rt, alloc, (), &(1u8, nothing, 2u8), &[1, 2]);
    let mut reader = reader_of(alloc, &[]);
    let ended = DekuError::Incomplete(NeedSize::new(8));
    let answer = next::<Option<u8>, (), _>(&mut reader, ());
    same(&rt, &"nothing to read", &answer, &Err(ended));
}

#[test]
fn boxes(rt: HostRuntime) -> Result<(), Fail> {
    let alloc = rt.alloc();
    expect_whole(&rt, alloc, (), &[0xEF, 0xBE], Box::new(alloc, 0xBEEFu16)?);
    expect_whole(&rt, alloc, Big, &[0xBE, 0xEF], Box::new(alloc, 0xBEEFu16)?);
    expect_whole(
        &rt,
        alloc,
        BitSize(4),
        &[0x12],
        Box::new(alloc, (1u8, 2u8))?,
    );
    Ok(())
}

// It is read as one that owns its item, and written whether it owns it or not.
#[test]
fn cows(rt: HostRuntime) -> Result<(), Fail> {
    let alloc = rt.alloc();
    let lent = 0xBEEFu16;
    expect_whole(&rt, alloc, (), &[0xEF, 0xBE], Cow::Owned(0xBEEFu16));
    expect_whole(&rt, alloc, Big, &[0xBE, 0xEF], Cow::Owned(0xBEEFu16));
    expect_written(&rt, alloc, Big, &Cow::Borrowed(&lent), &[0xBE, 0xEF]);
    let mut reader = reader_of(alloc, &[0xBE, 0xEF]);
    let value: Cow<u16> = next(&mut reader, Big)?;
    assert!(&rt; matches!(value, Cow::Owned(0xBEEF)));
    Ok(())
}

#[test]
fn references(rt: HostRuntime) {
    let alloc = rt.alloc();
    let number = 0xBEEFu16;
    let lent = &number;
    expect_written(&rt, alloc, Little, &lent, &[0xEF, 0xBE]);
    expect_written(&rt, alloc, Big, &(lent, &lent), &[0xBE, 0xEF, 0xBE, 0xEF]);
}
