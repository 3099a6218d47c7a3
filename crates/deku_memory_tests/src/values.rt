//! Reads that may run out of memory: each returns its value, or that there is no memory, and then
//! the reader is after what was read.

use crate::expecting::read_first;
use deku::ctx::{BitSize, Limit, ReadExact};
use deku::prelude::{DekuError, NeedSize};
use deku_testing_values::expecting::{NO_MEMORY, next, reader_of, same};
use std::boxed::BoxedSlice;
use std::collections::{HashMap, HashSet};
use std::hash::{BuildHasherDefault, FoldHasher};
use std::test::Fail;

type Hasher = BuildHasherDefault<FoldHasher>;

const BYTES: [u8; 8] = [1, 2, 3, 4, 5, 6, 7, 8];

// The first bytes are read, if they were not refused.
fn expect_bytes(items: Option<Vec<u8>>, wanted: &[u8]) -> Result<(), Fail> {
    match items {
        Some(items) => same(&"items", &items.as_slice(), &wanted),
        None => Ok(()),
    }
}

#[test]
fn vectors_or_no_memory(rt: HostRuntime) -> Result<(), Fail> {
    let alloc = rt.alloc();
    let seven = Limit::new_count(7);
    expect_bytes(read_first(alloc, &BYTES, seven, 1, 7)?, &BYTES[..7])?;
    let six = Limit::new_until(|byte: &u8| *byte == 6);
    expect_bytes(read_first(alloc, &BYTES, six, 1, 6)?, &BYTES[..6])?;
    let five = Limit::new_bit_size(BitSize(40));
    expect_bytes(read_first(alloc, &BYTES, five, 1, 5)?, &BYTES[..5])
}

#[test]
fn boxes_or_no_memory(rt: HostRuntime) -> Result<(), Fail> {
    let three = Limit::new_count(3);
    if let Some(items) = read_first::<BoxedSlice<u16>, _>(rt.alloc(), &BYTES, three, 2, 6)? {
        let wanted: &[u16] = &[0x0201, 0x0403, 0x0605];
        same(&"items", &items.as_slice(), &wanted)?;
    }
    if let Some(item) = read_first::<Box<u16>, _>(rt.alloc(), &BYTES, (), 2, 2)? {
        same(&"item", &*item, &0x0201)?;
    }
    Ok(())
}

#[test]
fn maps_or_no_memory(rt: HostRuntime) -> Result<(), Fail> {
    let three = Limit::new_count(3);
    if let Some(map) = read_first::<HashMap<u8, u8, Hasher>, _>(rt.alloc(), &BYTES, three, 2, 6)? {
        let seen = (map.len(), map.get(&5).copied());
        same(&"pairs", &seen, &(3, Some(6)))?;
    }
    let seven = Limit::new_count(7);
    if let Some(set) = read_first::<HashSet<u8, Hasher>, _>(rt.alloc(), &BYTES, seven, 1, 7)? {
        same(&"items", &set.len(), &7)?;
    }
    Ok(())
}

// Memory for bytes at once is found before any of them is read.
#[test]
fn bytes_or_no_memory(rt: HostRuntime) -> Result<(), Fail> {
    let mut reader = reader_of(rt.alloc(), &BYTES);
    match next::<Vec<u8>, _, _>(&mut reader, ReadExact(7)) {
        Ok(bytes) => same(&"bytes", &bytes.as_slice(), &&BYTES[..7])?,
        Err(refusal) => {
            let read = reader.bits_read();
            let first = next::<u8, _, _>(&mut reader, ());
            same(&"refused", &(refusal, read, first), &(NO_MEMORY, 0, Ok(1)))?;
        }
    }
    let too_many = next::<Vec<u8>, _, _>(&mut reader, ReadExact(1 << 59));
    same(&"too many", &too_many.err(), &Some(NO_MEMORY))
}

// A count takes no memory before its first item is read, whatever size the items have: here
// 256 KiB.
#[test]
fn a_count_takes_no_memory(rt: HostRuntime) -> Result<(), Fail> {
    let alloc = rt.alloc();
    let mut reader = reader_of(alloc, &BYTES);
    let counted = Limit::new_count(1 << 60);
    let refusal = next::<Vec<[u64; 0x8000]>, _, _>(&mut reader, counted).err();
    let ended = DekuError::Incomplete(NeedSize::new(64));
    same(&"items", &(refusal, reader.bits_read()), &(Some(ended), 64))
}

// A list that needs memory for no item takes none.
#[test]
fn nothing_without_memory(rt: HostRuntime) -> Result<(), Fail> {
    let mut reader = reader_of(rt.alloc(), &[]);
    let list: Vec<u8> = next(&mut reader, Limit::end())?;
    let set: HashSet<u8, Hasher> = next(&mut reader, Limit::end())?;
    same(&"nothing", &(list.len(), set.len()), &(0, 0))
}
