//! Lists of bits in whole bytes, against worked examples.

use crate::Row;
use deku_bits::bounded::BoundedBitVec;
use deku_testing::bits::bits_of;
use deku_testing::same::{same, same_bytes};
use std::process::Abort;
use std::test::Fail;

// The bits of a list, and its bytes.
type Shown = (&'static str, [u8; 2]);

// The list has these bits and no more, and these are its bytes.
fn expect(row: Row, bits: &BoundedBitVec<2>, shown: Shown) -> Result<(), Fail> {
    let (want, bytes) = shown;
    let (list, len) = bits_of(want);
    let seen = (bits.len(), bits.is_empty(), bits.is_full(), bits.capacity());
    same(&row, &seen, &(len, want.is_empty(), len == 16, 16))?;
    for at in 0..24 {
        let bit = if at < len { Some(list[at]) } else { None };
        same(&row, &bits.get(at), &bit)?;
    }
    same_bytes(&row, bits.as_raw_slice(), &bytes)
}

// What makes a list, or changes it. The digits are those of the bits.
enum Op {
    New,
    FromBits(&'static str),
    FromArray([u8; 2]),
    Push(bool),
    Extend(&'static str),
    Insert(usize, bool),
    // At this place, if this is after it.
    SplitOff(usize, Shown),
    Clear,
}

// One change.
fn change(rt: &impl Abort, row: Row, bits: &mut BoundedBitVec<2>, op: &Op) -> Result<(), Fail> {
    match op {
        Op::New => *bits = BoundedBitVec::new(),
        Op::FromBits(digits) => {
            let (list, len) = bits_of(digits);
            assert!(rt; len <= 16);
            *bits = BoundedBitVec::from_bits(&list[..len]);
        }
        Op::FromArray(bytes) => *bits = BoundedBitVec::from_array(*bytes),
        Op::Push(bit) => {
            assert!(rt; bits.len() < 16);
            bits.push(*bit);
        }
        Op::Extend(digits) => {
            let (list, len) = bits_of(digits);
            assert!(rt; len <= 16 - bits.len());
            bits.extend(&list[..len]);
        }
        Op::Insert(at, bit) => {
            assert!(rt; *at < bits.len() && bits.len() < 16);
            bits.insert(*at, *bit);
        }
        Op::SplitOff(at, behind) => {
            assert!(rt; *at < bits.len());
            expect(row, &bits.split_off(*at), *behind)?;
        }
        Op::Clear => bits.clear(),
    }
    Ok(())
}

// These changes, one after the other, show what they say.
fn expect_changes(rt: &impl Abort, case: usize, changes: &[(Op, Shown)]) -> Result<(), Fail> {
    let mut bits = BoundedBitVec::new();
    for (at, (op, shown)) in changes.iter().enumerate() {
        change(rt, (case, at), &mut bits, op)?;
        expect((case, at), &bits, *shown)?;
    }
    Ok(())
}

const BEGINS: [(Op, Shown); 5] = [
    (Op::New, ("", [0, 0])),
    (Op::FromBits(""), ("", [0, 0])),
    (Op::FromBits("101"), ("101", [0xA0, 0x00])),
    (Op::FromBits("110100101"), ("110100101", [0xD2, 0x80])),
    (
        Op::FromArray([0xB3, 0x05]),
        ("1011001100000101", [0xB3, 0x05]),
    ),
];

// A list of no bytes is empty and full.
#[test]
fn has_no_bytes(_rt: HostRuntime) -> Result<(), Fail> {
    let mut none: BoundedBitVec<0> = BoundedBitVec::new();
    none.extend(&[]);
    none.clear();
    let shown = (none.is_empty(), none.is_full(), none.capacity());
    same(&(0, 0), &shown, &(true, true, 0))?;
    same(&(0, 1), &none.get(0), &None)?;
    same(&(0, 2), &none.as_raw_slice().is_empty(), &true)
}

const GROWS: [(Op, Shown); 7] = [
    (Op::Push(true), ("1", [0x80, 0x00])),
    (Op::Push(false), ("10", [0x80, 0x00])),
    (Op::Extend(""), ("10", [0x80, 0x00])),
    (Op::Extend("11001"), ("1011001", [0xB2, 0x00])),
    (Op::Extend("101"), ("1011001101", [0xB3, 0x40])),
    (Op::Extend("00011"), ("101100110100011", [0xB3, 0x46])),
    (Op::Push(true), ("1011001101000111", [0xB3, 0x47])),
];

const INSERTS: [(Op, Shown); 8] = [
    (Op::FromBits("101"), ("101", [0xA0, 0x00])),
    (Op::Insert(1, true), ("1101", [0xD0, 0x00])),
    (Op::Insert(0, false), ("01101", [0x68, 0x00])),
    (Op::Insert(4, false), ("011001", [0x64, 0x00])),
    (Op::Extend("11"), ("01100111", [0x67, 0x00])),
    (Op::Insert(3, true), ("011100111", [0x73, 0x80])),
    (Op::Extend("010110"), ("011100111010110", [0x73, 0xAC])),
    (Op::Insert(8, false), ("0111001101010110", [0x73, 0x56])),
];

const SPLITS: [(Op, Shown); 4] = [
    (
        Op::FromArray([0xB3, 0x05]),
        ("1011001100000101", [0xB3, 0x05]),
    ),
    (
        Op::SplitOff(5, ("01100000101", [0x60, 0xA0])),
        ("10110", [0xB0, 0x00]),
    ),
    (Op::SplitOff(4, ("0", [0x00, 0x00])), ("1011", [0xB0, 0x00])),
    (Op::SplitOff(0, ("1011", [0xB0, 0x00])), ("", [0x00, 0x00])),
];

// Bits that were taken away leave zeros.
const CLEARS: [(Op, Shown); 4] = [
    (
        Op::FromArray([0xFF, 0xFF]),
        ("1111111111111111", [0xFF, 0xFF]),
    ),
    (Op::Clear, ("", [0x00, 0x00])),
    (Op::Clear, ("", [0x00, 0x00])),
    (Op::Push(true), ("1", [0x80, 0x00])),
];

const CHANGES: [&[(Op, Shown)]; 5] = [&BEGINS, &GROWS, &INSERTS, &SPLITS, &CLEARS];

#[test]
fn begins_grows_inserts_splits_and_clears(rt: HostRuntime) -> Result<(), Fail> {
    for (case, changes) in CHANGES.iter().enumerate() {
        expect_changes(&rt, case, changes)?;
    }
    Ok(())
}
