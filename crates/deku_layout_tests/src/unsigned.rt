//! Unsigned numbers.

use super::numbers::{Misfit, Row, expect_one_beyond, expect_rows};
use deku::ctx::Endian::{Big, Little};
use deku::ctx::Order::{Lsb0, Msb0};
use deku::ctx::Size::{Bits, Bytes, Whole};
use std::test::Fail;

// Sixteen bytes, and the same the other way round.
const UP: &str = "000102030405060708090A0B0C0D0E0F";

const DOWN: &str = "0F0E0D0C0B0A09080706050403020100";

const COUNTED: u128 = 0x000102030405060708090A0B0C0D0E0F;

const GREATEST: u128 = 0xFFFFFFFFFFFFFFFFFFFFFFFFF;

const U8_ROWS: [Row<u8>; 17] = [
    (Big, Msb0, Whole, "00", 0),
    (Little, Msb0, Whole, "01", 1),
    (Big, Lsb0, Whole, "FF", 0xFF),
    (Little, Lsb0, Whole, "A5", 0xA5),
    (Big, Msb0, Bits(0), "", 0),
    (Big, Msb0, Bits(3), "00", 0),
    (Big, Msb0, Bits(3), "20", 1),
    (Big, Msb0, Bits(3), "E0", 7),
    (Big, Msb0, Bits(3), "A0", 5),
    (Little, Msb0, Bits(3), "A0", 5),
    (Big, Lsb0, Bits(3), "05", 5),
    (Little, Lsb0, Bits(3), "01", 1),
    (Little, Lsb0, Bits(3), "07", 7),
    (Little, Msb0, Bits(8), "FF", 0xFF),
    (Big, Msb0, Bytes(1), "AB", 0xAB),
    (Big, Lsb0, Bytes(0), "AB", 0xAB),
    (Little, Msb0, Bytes(9), "AB", 0xAB),
];

const U8_MISFITS: [Misfit<u8>; 6] = [
    (Big, Msb0, Bits(0), 1),
    (Big, Msb0, Bits(3), 8),
    (Little, Msb0, Bits(3), 8),
    (Little, Msb0, Bits(4), 16),
    (Big, Lsb0, Bits(3), 8),
    (Little, Lsb0, Bits(3), 0xFF),
];

#[test]
fn of_8_bits(rt: HostRuntime) -> Result<(), Fail> {
    expect_rows(&rt, rt.alloc(), &U8_ROWS, &U8_MISFITS)
}

const U16_ROWS: [Row<u16>; 27] = [
    (Big, Msb0, Whole, "0000", 0),
    (Big, Msb0, Whole, "0001", 1),
    (Big, Msb0, Whole, "BEEF", 0xBEEF),
    (Little, Msb0, Whole, "EFBE", 0xBEEF),
    (Big, Lsb0, Whole, "BEEF", 0xBEEF),
    (Little, Lsb0, Whole, "EFBE", 0xBEEF),
    (Little, Lsb0, Whole, "FFFF", 0xFFFF),
    (Little, Msb0, Bits(10), "0000", 0),
    (Little, Msb0, Bits(10), "0100", 1),
    (Little, Msb0, Bits(10), "ABC0", 0x3AB),
    (Little, Msb0, Bits(10), "FFC0", 0x3FF),
    (Big, Msb0, Bits(10), "0040", 1),
    (Big, Msb0, Bits(10), "EAC0", 0x3AB),
    (Big, Msb0, Bits(10), "FFC0", 0x3FF),
    (Little, Lsb0, Bits(10), "0100", 1),
    (Little, Lsb0, Bits(10), "AB03", 0x3AB),
    (Little, Lsb0, Bits(10), "FF03", 0x3FF),
    (Big, Lsb0, Bits(10), "0001", 1),
    (Big, Lsb0, Bits(10), "EA03", 0xEA03),
    (Big, Lsb0, Bits(10), "FF03", 0xFF03),
    (Big, Lsb0, Bits(13), "1001", 0x1001),
    (Big, Lsb0, Bits(13), "FF1F", 0xFF1F),
    (Big, Msb0, Bits(0), "", 0),
    (Big, Msb0, Bytes(0), "", 0),
    (Little, Msb0, Bytes(0), "", 0),
    (Little, Lsb0, Bytes(1), "CD", 0xCD),
    (Big, Msb0, Bytes(2), "ABCD", 0xABCD),
];

const U16_MISFITS: [Misfit<u16>; 10] = [
    (Big, Msb0, Bits(0), 1),
    (Little, Msb0, Bits(10), 0x400),
    (Big, Msb0, Bits(10), 0x400),
    (Little, Lsb0, Bits(10), 0x400),
    (Big, Lsb0, Bits(10), 0x0004),
    (Big, Lsb0, Bits(10), 0xFF04),
    (Big, Lsb0, Bits(13), 0x1020),
    (Big, Lsb0, Bits(8), 0x100),
    (Little, Msb0, Bytes(0), 1),
    (Big, Lsb0, Bytes(1), 0x100),
];

#[test]
fn of_16_bits(rt: HostRuntime) -> Result<(), Fail> {
    expect_rows(&rt, rt.alloc(), &U16_ROWS, &U16_MISFITS)?;
    expect_one_beyond(rt.alloc(), 0u16, 16)
}

const U32_ROWS: [Row<u32>; 25] = [
    (Big, Msb0, Whole, "00000000", 0),
    (Big, Msb0, Whole, "01020304", 0x01020304),
    (Little, Msb0, Whole, "04030201", 0x01020304),
    (Big, Lsb0, Whole, "01020304", 0x01020304),
    (Little, Lsb0, Whole, "01000000", 1),
    (Little, Lsb0, Whole, "FFFFFFFF", 0xFFFFFFFF),
    (Little, Msb0, Bits(12), "0100", 1),
    (Little, Msb0, Bits(12), "96E0", 0xE96),
    (Little, Msb0, Bits(12), "FFF0", 0xFFF),
    (Big, Msb0, Bits(12), "0010", 1),
    (Big, Msb0, Bits(12), "96E0", 0x96E),
    (Big, Msb0, Bits(12), "FFF0", 0xFFF),
    (Little, Lsb0, Bits(12), "960E", 0xE96),
    (Little, Lsb0, Bits(12), "FF0F", 0xFFF),
    (Big, Lsb0, Bits(12), "960E", 0x960E),
    (Big, Lsb0, Bits(12), "FF0F", 0xFF0F),
    (Big, Lsb0, Bits(12), "1000", 0x1000),
    (Big, Msb0, Bits(25), "D5E6F780", 0x1ABCDEF),
    (Little, Msb0, Bits(25), "EFCDAB80", 0x1ABCDEF),
    (Little, Lsb0, Bits(25), "EFCDAB01", 0x1ABCDEF),
    (Big, Msb0, Bytes(0), "", 0),
    (Little, Msb0, Bytes(2), "ABCD", 0xCDAB),
    (Big, Msb0, Bytes(3), "010203", 0x010203),
    (Little, Lsb0, Bytes(3), "030201", 0x010203),
    (Big, Lsb0, Bytes(4), "01020304", 0x01020304),
];

const U32_MISFITS: [Misfit<u32>; 8] = [
    (Little, Msb0, Bits(12), 0x1000),
    (Big, Msb0, Bits(12), 0x1000),
    (Little, Lsb0, Bits(12), 0x1000),
    (Big, Lsb0, Bits(12), 0x0010),
    (Big, Lsb0, Bits(12), 0xFF10),
    (Big, Lsb0, Bits(12), 0x10000),
    (Big, Msb0, Bytes(2), 0x01020304),
    (Big, Lsb0, Bytes(3), 0x01000000),
];

#[test]
fn of_32_bits(rt: HostRuntime) -> Result<(), Fail> {
    expect_rows(&rt, rt.alloc(), &U32_ROWS, &U32_MISFITS)?;
    expect_one_beyond(rt.alloc(), 0u32, 32)
}

const U64_ROWS: [Row<u64>; 17] = [
    (Big, Msb0, Whole, "0000000000000000", 0),
    (Big, Msb0, Whole, "FFFFFFFFFFFFFFFF", u64::MAX),
    (Big, Msb0, Whole, "0102030405060708", 0x0102030405060708),
    (Little, Msb0, Whole, "0807060504030201", 0x0102030405060708),
    (Big, Lsb0, Whole, "0102030405060708", 0x0102030405060708),
    (Little, Lsb0, Whole, "0807060504030201", 0x0102030405060708),
    (Little, Msb0, Bits(33), "0100000000", 1),
    (Little, Msb0, Bits(33), "FFFFFFFF80", 0x1FFFFFFFF),
    (Big, Msb0, Bits(33), "0000000080", 1),
    (Big, Msb0, Bits(33), "FFFFFFFF80", 0x1FFFFFFFF),
    (Little, Lsb0, Bits(33), "0100000000", 1),
    (Little, Lsb0, Bits(33), "FFFFFFFF01", 0x1FFFFFFFF),
    (Big, Lsb0, Bits(33), "0000000001", 1),
    (Big, Lsb0, Bits(33), "FFFFFFFF01", 0xFFFFFFFF01),
    (Big, Msb0, Bits(0), "", 0),
    (Little, Msb0, Bytes(3), "030201", 0x010203),
    (Big, Lsb0, Bytes(8), "0102030405060708", 0x0102030405060708),
];

const U64_MISFITS: [Misfit<u64>; 7] = [
    (Little, Msb0, Bits(33), 0x200000000),
    (Big, Msb0, Bits(33), 0x200000000),
    (Little, Lsb0, Bits(33), 0x200000000),
    (Big, Lsb0, Bits(33), 0x0000000002),
    (Big, Lsb0, Bits(33), 0xFFFFFFFF02),
    (Big, Lsb0, Bits(33), 0x10000000000),
    (Little, Lsb0, Bytes(7), 0x100000000000000),
];

#[test]
fn of_64_bits(rt: HostRuntime) -> Result<(), Fail> {
    expect_rows(&rt, rt.alloc(), &U64_ROWS, &U64_MISFITS)?;
    expect_one_beyond(rt.alloc(), 0u64, 64)
}

const USIZE_ROWS: [Row<usize>; 11] = [
    (Big, Msb0, Whole, "0000000000000000", 0),
    (Little, Msb0, Whole, "0100000000000000", 1),
    (Big, Lsb0, Whole, "0000000000000001", 1),
    (Little, Lsb0, Whole, "FFFFFFFFFFFFFFFF", usize::MAX),
    (
        Little,
        Msb0,
        Bits(57),
        "EFBE000000000080",
        0x10000000000BEEF,
    ),
    (Big, Msb0, Bits(57), "8000000000000080", 0x100000000000001),
    (
        Little,
        Lsb0,
        Bits(57),
        "EFBE000000000001",
        0x10000000000BEEF,
    ),
    (Big, Lsb0, Bits(57), "BEEF000000000001", 0xBEEF000000000001),
    (Little, Msb0, Bits(0), "", 0),
    (Big, Msb0, Bytes(2), "BEEF", 0xBEEF),
    (Little, Lsb0, Bytes(2), "EFBE", 0xBEEF),
];

const USIZE_MISFITS: [Misfit<usize>; 4] = [
    (Little, Msb0, Bits(57), 0x200000000000000),
    (Big, Msb0, Bits(57), 0x200000000000000),
    (Little, Lsb0, Bits(57), 0x200000000000000),
    (Big, Lsb0, Bits(57), 0xBEEF000000000002),
];

#[test]
fn of_the_size_of_places(rt: HostRuntime) -> Result<(), Fail> {
    expect_rows(&rt, rt.alloc(), &USIZE_ROWS, &USIZE_MISFITS)?;
    expect_one_beyond(rt.alloc(), 0usize, 64)
}

const U128_ROWS: [Row<u128>; 16] = [
    (Big, Msb0, Whole, "00000000000000000000000000000000", 0),
    (
        Big,
        Msb0,
        Whole,
        "FFFFFFFFFFFFFFFFFFFFFFFFFFFFFFFF",
        u128::MAX,
    ),
    (Big, Msb0, Whole, UP, COUNTED),
    (Little, Msb0, Whole, DOWN, COUNTED),
    (Big, Lsb0, Whole, UP, COUNTED),
    (Little, Lsb0, Whole, DOWN, COUNTED),
    (Big, Msb0, Bits(100), "FFFFFFFFFFFFFFFFFFFFFFFFF0", GREATEST),
    (
        Little,
        Msb0,
        Bits(100),
        "FFFFFFFFFFFFFFFFFFFFFFFFF0",
        GREATEST,
    ),
    (
        Little,
        Lsb0,
        Bits(100),
        "FFFFFFFFFFFFFFFFFFFFFFFF0F",
        GREATEST,
    ),
    (
        Big,
        Lsb0,
        Bits(100),
        "FFFFFFFFFFFFFFFFFFFFFFFF0F",
        0xFFFFFFFFFFFFFFFFFFFFFFFF0F,
    ),
    (Big, Msb0, Bits(100), "00000000000000000000000010", 1),
    (Little, Msb0, Bits(100), "01000000000000000000000000", 1),
    (Big, Msb0, Bits(128), UP, COUNTED),
    (Big, Msb0, Bits(0), "", 0),
    (Little, Lsb0, Bytes(2), "EFBE", 0xBEEF),
    (Big, Msb0, Bytes(16), UP, COUNTED),
];

const U128_MISFITS: [Misfit<u128>; 4] = [
    (Little, Msb0, Bits(100), 0x10000000000000000000000000),
    (Big, Msb0, Bits(100), 0x10000000000000000000000000),
    (Little, Lsb0, Bits(100), 0x10000000000000000000000000),
    (Big, Lsb0, Bits(100), 0xFFFFFFFFFFFFFFFFFFFFFFFF10),
];

#[test]
fn of_128_bits(rt: HostRuntime) -> Result<(), Fail> {
    expect_rows(&rt, rt.alloc(), &U128_ROWS, &U128_MISFITS)?;
    expect_one_beyond(rt.alloc(), 0u128, 128)
}
