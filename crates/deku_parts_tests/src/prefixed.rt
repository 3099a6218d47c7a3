//! Items after their count, which no record keeps.

use crate::rows::expect_records;
use deku::prelude::{DekuError, DekuWriter, NeedSize};
use deku_symmetry::{Be, Lsb, Msb, MsbLe, Prefixed, PrefixedRef, Symmetric};
use deku_testing_values::expecting::{MISFIT, expect_bytes, same, writer_in};
use deku_testing_values::records::{expect_both_ways, expect_record, expect_refusal};
use std::alloc::Global;
use std::marker::PhantomData;
use std::test::Fail;

type Numbers = Prefixed<Msb<u64, 8>, Be<u16>>;

// A count of three bits, and as many bits.
type Flags = Prefixed<Lsb<u64, 3>, Lsb<u8, 1>>;

// A count of two bytes, the low one first.
type Bytes = Prefixed<MsbLe<u64, 16>, u8>;

fn flags(alloc: Global, count: usize) -> Result<Flags, Fail> {
    let mut items = std::vec::Vec::new(alloc);
    for _ in 0..count {
        items.push(Lsb(1))?;
    }
    Ok(Prefixed::new(items))
}

#[test]
fn after_their_count(rt: HostRuntime) -> Result<(), Fail> {
    let alloc = rt.alloc();
    let two = Prefixed::new(vec![in alloc; Be(6), Be(9)]?);
    let none = Prefixed::new(std::vec::Vec::new(alloc));
    expect_records::<Numbers>(
        alloc,
        &[(two, &[0x02, 0x00, 0x06, 0x00, 0x09]), (none, &[0x00])],
    )
}

#[test]
fn lent_items(rt: HostRuntime) -> Result<(), Fail> {
    let items = vec![in rt.alloc(); Be(6u16), Be(9)]?;
    let lent = PrefixedRef::<Msb<u64, 8>, _> {
        items: &items,
        count: PhantomData,
    };
    let mut writer = writer_in(rt.alloc());
    lent.to_writer(&mut writer, ())?;
    expect_bytes(&2, writer, &[0x02, 0x00, 0x06, 0x00, 0x09])
}

#[test]
fn a_count_of_two_bytes(rt: HostRuntime) -> Result<(), Fail> {
    let three: Bytes = Prefixed::new([7u8, 8, 9].to_vec(rt.alloc())?);
    expect_record(rt.alloc(), &three, &[0x03, 0x00, 7, 8, 9])
}

#[test]
fn too_few(rt: HostRuntime) -> Result<(), Fail> {
    let ended = DekuError::Incomplete(NeedSize::new(16));
    expect_refusal::<Numbers>(rt.alloc(), &[0x02, 0x00, 0x06, 0x00], ended, 24)
}

// Seven and seven ones, the low bits first: 11111111 and 11.
#[test]
fn bits_after_their_count(rt: HostRuntime) -> Result<(), Fail> {
    expect_both_ways(rt.alloc(), (), &flags(rt.alloc(), 7)?, 10, &[0xFF, 0x03])
}

#[test]
fn a_count_that_does_not_fit(rt: HostRuntime) -> Result<(), Fail> {
    same(
        &8,
        &flags(rt.alloc(), 8)?.pack(rt.alloc(), ()),
        &Err(MISFIT),
    )
}
