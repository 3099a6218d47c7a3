//! Arrays and slices: their items, one after the other.

use super::expecting::{expect_bytes, expect_next, expect_whole, expect_written, same};
use deku::ctx::Endian::{Big, Little};
use deku::ctx::{BitSize, Endian, Order};
use deku::prelude::{DekuError, NeedSize, Writer};
use deku_testing_values::expecting::{MISFIT, next, put, reader_of, writer_in};
use std::io::{Cursor, ErrorKind};
use std::test::Fail;

#[test]
fn arrays(rt: HostRuntime) {
    let items = [0xCCDDu16, 0xAABB];
    let mut reader = reader_of(rt.alloc(), &[0xDD, 0xCC, 0xBB, 0xAA]);
    expect_next(&rt, &mut reader, Little, items, 32);
    expect_written(&rt, rt.alloc(), Big, &items, &[0xCC, 0xDD, 0xAA, 0xBB]);
    let rows = [[1u8, 2, 3], [4, 5, 6]];
    expect_whole(&rt, rt.alloc(), BitSize(4), &[0x12, 0x34, 0x56], rows);
}

// The item that is there is read, and the next one is refused.
#[test]
fn half_an_array(rt: HostRuntime) {
    let mut reader = reader_of(rt.alloc(), &[0xDD, 0xCC]);
    let ended = DekuError::Incomplete(NeedSize::new(16));
    let answer = next::<[u16; 2], Endian, _>(&mut reader, Big);
    same(
        &rt,
        &"read",
        &(answer, reader.bits_read()),
        &(Err(ended), 16),
    );
    let mut writer = writer_in(rt.alloc());
    let answer = put(&mut writer, &[5u8, 16, 6], BitSize(4));
    same(&rt, &"written", &answer, &Err(MISFIT));
    expect_bytes(&rt, &"before the misfit", writer, &[0x50]);
}

// An array is among others in a pair, and one of no items reads nothing.
#[test]
fn arrays_in_pairs(rt: HostRuntime) -> Result<(), Fail> {
    let bytes: &[u8] = &[0x01, 0x02, 0x03, 0x04];
    let (pair, none) = (([1u8, 2], 0x0304u16), [0u16; 0]);
    let mut reader = reader_of(rt.alloc(), bytes);
    expect_next(&rt, &mut reader, Big, pair, 32);
    expect_next(&rt, &mut reader, Big, none, 32);
    let mut writer = writer_in(rt.alloc());
    put(&mut writer, &none, Big)?;
    put(&mut writer, &pair, Big)?;
    expect_bytes(&rt, &"none and a pair", writer, bytes);
    Ok(())
}

#[test]
fn slices(rt: HostRuntime) -> Result<(), Fail> {
    let items: &[(u8, u16)] = &[(1, 0x0203), (4, 0x0506)];
    let mut writer = writer_in(rt.alloc());
    put(&mut writer, &items, Big)?;
    put(&mut writer, &&items[..0], Big)?;
    expect_bytes(&rt, &"slices", writer, &[1, 2, 3, 4, 5, 6]);
    Ok(())
}

const BYTES: [u8; 17] = [
    0x01, 0x02, 0x03, 0x04, 0x05, 0x06, 0x07, 0x08, 0x09, 0x0A, 0x0B, 0x0C, 0x0D, 0x0E, 0x0F, 0x10,
    0x11,
];

// A list of bytes that is written: the bits in front of it and their order, how many bytes it has,
// how many there is room for, what the call returns, and what is in the room after the padding.
type Row = (
    &'static [bool],
    Order,
    usize,
    usize,
    Result<(), DekuError>,
    &'static [u8],
);

const FULL: Result<(), DekuError> = Err(DekuError::Io(ErrorKind::WriteZero));

const ROWS: [Row; 7] = [
    (&[], Order::Msb0, 17, 17, Ok(()), &BYTES),
    (
        &[],
        Order::Msb0,
        9,
        12,
        Ok(()),
        &[1, 2, 3, 4, 5, 6, 7, 8, 9, 0],
    ),
    (&[], Order::Msb0, 9, 8, FULL, &[1, 2, 3, 4, 5, 6, 7, 8]),
    (&[], Order::Msb0, 9, 5, FULL, &[1, 2, 3, 4, 5]),
    (&[], Order::Msb0, 0, 0, Ok(()), &[]),
    (
        &[true, false, true, false],
        Order::Msb0,
        9,
        17,
        Ok(()),
        &[
            0xA0, 0x10, 0x20, 0x30, 0x40, 0x50, 0x60, 0x70, 0x80, 0x90, 0,
        ],
    ),
    // The first byte goes above the low bits, and the others after them.
    (
        &[true, false, true],
        Order::Lsb0,
        3,
        17,
        Ok(()),
        &[0x01, 0xA0, 0x40, 0x60, 0],
    ),
];

#[test]
fn bytes_in_a_row(rt: HostRuntime) -> Result<(), Fail> {
    for (front, order, count, room, want, bytes) in ROWS {
        let mut all = [0; 17];
        let mut writer = Writer::new(Cursor::new(&mut all[..room.min(17)]));
        writer.write_bits_order(front, order)?;
        let items = &BYTES[..count.min(17)];
        same(&rt, &room, &put(&mut writer, &items, ()), &want);
        if want.is_ok() {
            writer.finalize()?;
        }
        same(&rt, &room, &&all[..bytes.len().min(17)], &bytes);
    }
    Ok(())
}
