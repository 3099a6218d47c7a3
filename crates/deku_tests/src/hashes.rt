//! Maps and sets under limits.
//!
//! Of deku's own tests of maps, `test_hashmap_write` has no counterpart: it pins the order in which
//! another hasher walks.

use super::expecting::Refusal::Until;
use super::expecting::{
    Refusal, expect_refusal, expect_written, next_byte, rest_of, same, written,
};
use deku::ctx::Endian::Little;
use deku::ctx::{BitSize, Limit};
use deku::prelude::{DekuError, Reader};
use deku_testing_values::expecting::{next, reader_of};
use std::alloc::Global;
use std::collections::{HashMap, HashSet};
use std::hash::{BuildHasherDefault, FoldHasher};
use std::io::Cursor;
use std::process::Abort;
use std::test::Fail;

type Hasher = BuildHasherDefault<FoldHasher>;

type Map<K, V> = HashMap<K, V, Hasher>;

type Set<T> = HashSet<T, Hasher>;

// Where a map ends, and under what.
enum Stop {
    // Behind two pairs, each of two numbers of six bits, and of two bytes.
    TwoOfSixBits,
    Two,
    // Behind a pair whose key is 0.
    Zero,
    End,
}

fn read_map(reader: &mut Reader<Cursor<&[u8]>>, stop: &Stop) -> Result<Map<u8, u8>, DekuError> {
    match stop {
        Stop::TwoOfSixBits => read_two_of_six_bits(reader),
        Stop::Two => next(reader, Limit::new_count(2)),
        Stop::Zero => read_to_zero(reader),
        Stop::End => next(reader, Limit::end()),
    }
}

fn read_two_of_six_bits(reader: &mut Reader<Cursor<&[u8]>>) -> Result<Map<u8, u8>, DekuError> {
    next(reader, (Limit::new_count(2), (Little, BitSize(6))))
}

fn read_to_zero(reader: &mut Reader<Cursor<&[u8]>>) -> Result<Map<u8, u8>, DekuError> {
    let zero = Limit::new_until(|pair: &(u8, u8)| pair.0 == 0);
    next(reader, zero)
}

// Bytes, the place where a map ends in them, its pairs or its refusal, and how many bits are read
// then.
type Row = (
    &'static [u8],
    Stop,
    Result<&'static [(u8, u8)], Refusal>,
    usize,
);

const ROWS: [Row; 4] = [
    (
        &[0x04, 0xF0, 0x80],
        Stop::TwoOfSixBits,
        Ok(&[(1, 15), (2, 0)]),
        24,
    ),
    // The limit counts pairs, and the last value of a key stays.
    (
        &[0x01, 0xAA, 0x01, 0xBB, 0x02],
        Stop::Two,
        Ok(&[(1, 0xBB)]),
        32,
    ),
    // A map's predicate is asked about pairs, the key first.
    (
        &[0x01, 0xAA, 0x00, 0xBB, 0x02, 0xCC],
        Stop::Zero,
        Ok(&[(0, 0xBB), (1, 0xAA)]),
        32,
    ),
    // A map that is refused in a pair is refused after what was read of it.
    (&[1, 2, 3], Stop::End, Err(Until(8)), 24),
];

// The map has these pairs, and no others.
fn expect_pairs(rt: &impl Abort, row: &[u8], map: &Map<u8, u8>, pairs: &[(u8, u8)]) {
    same(rt, &row, &map.len(), &pairs.len());
    for (key, value) in pairs {
        same(rt, &(row, key), &map.get(key).copied(), &Some(*value));
    }
}

// The map, or why it is refused.
fn expect_map(
    rt: &impl Abort,
    row: &[u8],
    answer: Result<Map<u8, u8>, DekuError>,
    want: &Result<&[(u8, u8)], Refusal>,
) {
    match (answer, want) {
        (Ok(map), Ok(pairs)) => expect_pairs(rt, row, &map, pairs),
        (Ok(_), Err(_)) => assert!(rt; false, "{row:?} is read"),
        (Err(refusal), want) => expect_refusal(rt, "maps", &row, refusal, want.as_ref().err()),
    }
}

#[test]
fn maps(rt: HostRuntime) -> Result<(), Fail> {
    for (bytes, stop, want, bits) in &ROWS {
        let mut reader = reader_of(rt.alloc(), bytes);
        expect_map(&rt, bytes, read_map(&mut reader, stop), want);
        let seen = (reader.bits_read(), rest_of(&reader)?.len());
        same(&rt, bytes, &seen, &(*bits, 0));
    }
    Ok(())
}

#[test]
fn maps_written(rt: HostRuntime) -> Result<(), Fail> {
    let mut map: Map<u8, u32> = HashMap::with_hasher(rt.alloc(), Hasher::default());
    expect_written(&rt, rt.alloc(), Little, &map, &[]);
    map.insert(100, 0x04030201)?;
    expect_written(
        &rt,
        rt.alloc(),
        Little,
        &map,
        &[0x64, 0x01, 0x02, 0x03, 0x04],
    );
    Ok(())
}

#[test]
fn sets(rt: HostRuntime) -> Result<(), Fail> {
    let mut reader = reader_of(rt.alloc(), &[7, 7, 8, 9]);
    let set: Set<u8> = next(&mut reader, Limit::new_count(3))?;
    let found = (set.len(), set.contains(&7), set.contains(&8));
    same(&rt, &"7, 7 and 8", &found, &(2, true, true));
    same(&rt, &"behind them", &next_byte(&mut reader), &Ok(9));
    Ok(())
}

fn set_of(alloc: Global, items: &[u8]) -> Result<Set<u8>, Fail> {
    let mut set: Set<u8> = HashSet::with_hasher(alloc, Hasher::default());
    for item in items {
        set.insert(*item)?;
    }
    Ok(set)
}

// The items of a set, from the bytes that it was written as: none is left out, and none is there
// twice.
fn expect_each_once(rt: &impl Abort, alloc: Global, want: &[u8]) -> Result<(), Fail> {
    let set = set_of(alloc, want)?;
    let bytes = written(alloc, &set, ())?;
    same(rt, &want, &bytes.len(), &want.len());
    for item in want {
        same(rt, &(want, item), &bytes.as_slice().contains(item), &true);
    }
    Ok(())
}

const SETS: [&[u8]; 3] = [&[], &[7], &[7, 8, 200, 0, 91]];

#[test]
fn sets_written(rt: HostRuntime) -> Result<(), Fail> {
    for items in &SETS {
        expect_each_once(&rt, rt.alloc(), items)?;
    }
    Ok(())
}

fn map_of_three(alloc: Global) -> Result<Map<u8, u16>, Fail> {
    let mut map: Map<u8, u16> = HashMap::with_hasher(alloc, Hasher::default());
    map.insert(3, 0x0303)?;
    map.insert(1, 0x0101)?;
    map.insert(2, 0x0202)?;
    Ok(map)
}

// What was written of a map is read as the same map, whatever the order.
#[test]
fn maps_both_ways(rt: HostRuntime) -> Result<(), Fail> {
    let map = map_of_three(rt.alloc())?;
    let bytes = written(rt.alloc(), &map, Little)?;
    let mut reader = reader_of(rt.alloc(), bytes.as_slice());
    let back: Map<u8, u16> = next(&mut reader, (Limit::end(), Little))?;
    same(&rt, &"bytes and pairs", &(bytes.len(), back.len()), &(9, 3));
    for key in 1..4u8 {
        same(&rt, &key, &back.get(&key).copied(), &map.get(&key).copied());
    }
    Ok(())
}
