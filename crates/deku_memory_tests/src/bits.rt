//! Bits and bytes in vectors of their own: if no memory is found for them nothing has moved, and a
//! buffer takes them.

use crate::expecting::expect_items;
use deku::ctx::Order::{self, Lsb0, Msb0};
use deku::prelude::{Reader, Writer};
use deku_testing_values::expecting::{NO_MEMORY, reader_of, same};
use std::io::Cursor;
use std::test::Fail;

const BYTES: [u8; 3] = [0x6D, 0xBE, 0xEF];

// The most bits that are read at once here.
const MOST: usize = 16;

const I: bool = true;

const O: bool = false;

// What is read one after the other: how, and the bits.
const READS: [(Order, &[bool]); 4] = [
    (Msb0, &[O, I, I, O]),
    (Msb0, &[I, I]),
    (Lsb0, &[I, I, O, O, I]),
    (Msb0, &[I, O, I, I, I, I, I, I, O, I, I, I, I]),
];

// A5 C: twelve bits.
const TWELVE: [bool; 12] = [I, O, I, O, O, I, O, I, I, I, O, O];

// These are the next bits.
fn expect_bits(
    reader: &mut Reader<Cursor<&[u8]>>,
    order: Order,
    wanted: &[bool],
) -> Result<(), Fail> {
    let before = reader.bits_read();
    match reader.read_bits(wanted.len(), order) {
        Ok(bits) => same(&before, &bits.as_slice(), &wanted),
        Err(refusal) => {
            let seen = (refusal, reader.bits_read());
            same(&before, &seen, &(NO_MEMORY, before))?;
            let mut page = [false; MOST];
            let (bits, _) = page.split_at_mut(wanted.len().min(MOST));
            reader.read_bits_into(bits, order)?;
            same(&before, &&*bits, &wanted)
        }
    }
}

#[test]
fn read_or_not_moved(rt: HostRuntime) -> Result<(), Fail> {
    let mut reader = reader_of(rt.alloc(), &BYTES);
    for (order, bits) in &READS {
        expect_bits(&mut reader, *order, bits)?;
    }
    same(&"count", &reader.bits_read(), &24)
}

#[test]
fn left_over_of_what_was_read(rt: HostRuntime) -> Result<(), Fail> {
    let mut reader = reader_of(rt.alloc(), &BYTES);
    let rows: [(usize, &[bool]); 3] = [(0, &[]), (4, &[I, I, O, I]), (7, &[I, I, I, I, O])];
    for (skipped, rest) in rows {
        reader.skip_bits(skipped, Msb0)?;
        expect_items("rest", reader.rest(), rest)?;
    }
    same(&"count", &reader.bits_read(), &11)
}

// Two bytes after half a byte.
#[test]
fn bytes_read_or_not_moved(rt: HostRuntime) -> Result<(), Fail> {
    let mut reader = reader_of(rt.alloc(), &BYTES);
    reader.skip_bits(4, Msb0)?;
    match reader.read_bytes_vec(2, Msb0) {
        Ok(bytes) => same(&"vector", &bytes.as_slice(), &[0xDB, 0xEE].as_slice())?,
        Err(refusal) => {
            let before = reader.bits_read();
            let mut bytes = [0; 2];
            reader.read_bytes_const_into(&mut bytes, Msb0)?;
            let seen = (refusal, before, bytes);
            same(&"buffer", &seen, &(NO_MEMORY, 4, [0xDB, 0xEE]))?;
        }
    }
    same(&"count", &reader.bits_read(), &20)
}

#[test]
fn pending_of_what_was_written(rt: HostRuntime) -> Result<(), Fail> {
    let mut page = [0; 2];
    let mut writer = Writer::new(Cursor::new(page.as_mut_slice()));
    expect_items("none", writer.rest(rt.alloc()), &[])?;
    writer.write_bits(&TWELVE)?;
    expect_items("rest", writer.rest(rt.alloc()), &TWELVE[8..])?;
    let first = writer.bits_written();
    writer.write_bits(&TWELVE[..4])?;
    let seen = (first, writer.bits_written(), page);
    same(&"written", &seen, &(8, 16, [0xA5, 0xCA]))
}
