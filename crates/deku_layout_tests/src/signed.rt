//! Signed numbers.

use super::numbers::{Misfit, Row, expect_beyond, expect_one_beyond, expect_rows};
use deku::ctx::Endian::{Big, Little};
use deku::ctx::Layout;
use deku::ctx::Order::{Lsb0, Msb0};
use deku::ctx::Size::{Bits, Bytes, Whole};
use deku::prelude::DekuError;
use std::test::Fail;

const UNEVEN: DekuError = DekuError::InvalidParam("signed big Lsb0 field of this width");

const LEAST: i128 = -0x8000000000000000000000000;

const GREATEST: i128 = 0x7FFFFFFFFFFFFFFFFFFFFFFFF;

const I8_ROWS: [Row<i8>; 18] = [
    (Big, Msb0, Whole, "00", 0),
    (Little, Msb0, Whole, "01", 1),
    (Big, Lsb0, Whole, "FF", -1),
    (Little, Lsb0, Whole, "7F", 127),
    (Big, Msb0, Whole, "80", -128),
    (Big, Msb0, Bits(3), "A0", -3),
    (Little, Msb0, Bits(3), "A0", -3),
    (Big, Msb0, Bits(3), "60", 3),
    (Little, Msb0, Bits(3), "80", -4),
    (Big, Lsb0, Bits(3), "05", -3),
    (Big, Lsb0, Bits(3), "04", -4),
    (Little, Lsb0, Bits(3), "03", 3),
    (Little, Lsb0, Bits(3), "07", -1),
    (Big, Msb0, Bits(1), "80", -1),
    (Big, Lsb0, Bits(1), "00", 0),
    (Big, Msb0, Bits(0), "", 0),
    (Big, Msb0, Bytes(0), "", 0),
    (Little, Lsb0, Bytes(1), "80", -128),
];

const I8_MISFITS: [Misfit<i8>; 11] = [
    (Big, Msb0, Bits(3), 4),
    (Big, Msb0, Bits(3), -5),
    (Little, Msb0, Bits(3), 4),
    (Big, Lsb0, Bits(3), -5),
    (Little, Lsb0, Bits(3), 4),
    (Little, Lsb0, Bits(3), -5),
    (Big, Msb0, Bits(1), 1),
    (Big, Msb0, Bits(1), -2),
    (Big, Msb0, Bits(0), 1),
    (Big, Msb0, Bits(0), -1),
    (Big, Msb0, Bytes(0), 1),
];

#[test]
fn of_8_bits(rt: HostRuntime) -> Result<(), Fail> {
    expect_rows(&rt, rt.alloc(), &I8_ROWS, &I8_MISFITS)?;
    expect_one_beyond(rt.alloc(), 0i8, 8)
}

const I16_ROWS: [Row<i16>; 21] = [
    (Big, Msb0, Whole, "0001", 1),
    (Big, Msb0, Whole, "8000", -32768),
    (Little, Msb0, Whole, "FF7F", 32767),
    (Big, Lsb0, Whole, "FFFE", -2),
    (Little, Lsb0, Whole, "FEFF", -2),
    (Big, Msb0, Bits(12), "0000", 0),
    (Big, Msb0, Bits(12), "FFE0", -2),
    (Big, Msb0, Bits(12), "7FF0", 2047),
    (Big, Msb0, Bits(12), "8000", -2048),
    (Little, Msb0, Bits(12), "FEF0", -2),
    (Little, Msb0, Bits(12), "FF70", 2047),
    (Little, Msb0, Bits(12), "0080", -2048),
    (Little, Lsb0, Bits(12), "FE0F", -2),
    (Little, Lsb0, Bits(12), "FF07", 2047),
    (Little, Lsb0, Bits(12), "0008", -2048),
    (Big, Lsb0, Bits(8), "80", -128),
    (Big, Lsb0, Bits(5), "10", -16),
    (Big, Lsb0, Bits(16), "8000", -32768),
    (Big, Msb0, Bytes(0), "", 0),
    (Big, Msb0, Bytes(1), "80", -128),
    (Little, Msb0, Bytes(2), "0080", -32768),
];

const I16_MISFITS: [Misfit<i16>; 10] = [
    (Big, Msb0, Bits(12), 2048),
    (Big, Msb0, Bits(12), -2049),
    (Little, Msb0, Bits(12), 2048),
    (Little, Msb0, Bits(12), -2049),
    (Little, Lsb0, Bits(12), 2048),
    (Little, Lsb0, Bits(12), -2049),
    (Big, Lsb0, Bits(8), 128),
    (Big, Lsb0, Bits(8), -129),
    (Little, Msb0, Bytes(1), 300),
    (Little, Msb0, Bytes(1), 200),
];

#[test]
fn of_16_bits(rt: HostRuntime) -> Result<(), Fail> {
    expect_rows(&rt, rt.alloc(), &I16_ROWS, &I16_MISFITS)?;
    expect_one_beyond(rt.alloc(), 0i16, 16)?;
    let uneven = Layout {
        endian: Big,
        order: Lsb0,
        size: Bits(13),
    };
    expect_beyond(rt.alloc(), &0i16, uneven, (UNEVEN, UNEVEN))
}

const I32_ROWS: [Row<i32>; 18] = [
    (Big, Msb0, Whole, "00000001", 1),
    (Big, Msb0, Whole, "80000000", -2147483648),
    (Little, Msb0, Whole, "FFFFFF7F", 2147483647),
    (Big, Lsb0, Whole, "FFFFFFFE", -2),
    (Little, Lsb0, Whole, "FEFFFFFF", -2),
    (Big, Msb0, Bits(17), "800000", -65536),
    (Big, Msb0, Bits(17), "7FFF80", 65535),
    (Big, Msb0, Bits(17), "FFFF80", -1),
    (Little, Msb0, Bits(17), "000080", -65536),
    (Little, Msb0, Bits(17), "FFFF00", 65535),
    (Little, Lsb0, Bits(17), "000001", -65536),
    (Little, Lsb0, Bits(17), "FFFF00", 65535),
    (Big, Lsb0, Bits(24), "800000", -8388608),
    (Big, Lsb0, Bits(24), "7FFFFF", 8388607),
    (Little, Msb0, Bits(0), "", 0),
    (Big, Msb0, Bytes(2), "FFFE", -2),
    (Big, Msb0, Bytes(2), "8000", -32768),
    (Little, Lsb0, Bytes(3), "000080", -8388608),
];

const I32_MISFITS: [Misfit<i32>; 10] = [
    (Big, Msb0, Bits(17), 65536),
    (Big, Msb0, Bits(17), -65537),
    (Little, Msb0, Bits(17), 65536),
    (Little, Msb0, Bits(17), -65537),
    (Little, Lsb0, Bits(17), 65536),
    (Little, Lsb0, Bits(17), -65537),
    (Big, Lsb0, Bits(24), 8388608),
    (Big, Lsb0, Bits(24), -8388609),
    (Big, Msb0, Bytes(2), 32768),
    (Big, Lsb0, Bytes(2), -32769),
];

#[test]
fn of_32_bits(rt: HostRuntime) -> Result<(), Fail> {
    expect_rows(&rt, rt.alloc(), &I32_ROWS, &I32_MISFITS)?;
    expect_one_beyond(rt.alloc(), 0i32, 32)?;
    let uneven = Layout {
        endian: Big,
        order: Lsb0,
        size: Bits(9),
    };
    expect_beyond(rt.alloc(), &0i32, uneven, (UNEVEN, UNEVEN))
}

const I64_ROWS: [Row<i64>; 15] = [
    (Big, Msb0, Whole, "0000000000000001", 1),
    (Big, Msb0, Whole, "8000000000000000", i64::MIN),
    (Little, Msb0, Whole, "0000000000000080", i64::MIN),
    (Big, Lsb0, Whole, "FFFFFFFFFFFFFFFF", -1),
    (Little, Lsb0, Whole, "FEFFFFFFFFFFFF7F", i64::MAX - 1),
    (Big, Msb0, Bits(33), "8000000000", -4294967296),
    (Big, Msb0, Bits(33), "7FFFFFFF80", 4294967295),
    (Little, Msb0, Bits(33), "0000000080", -4294967296),
    (Little, Msb0, Bits(33), "FFFFFFFF00", 4294967295),
    (Little, Lsb0, Bits(33), "0000000001", -4294967296),
    (Little, Lsb0, Bits(33), "FFFFFFFF00", 4294967295),
    (Big, Lsb0, Bits(40), "FFFFFFFFFE", -2),
    (Big, Msb0, Bits(0), "", 0),
    (Big, Msb0, Bytes(2), "FFFE", -2),
    (Little, Lsb0, Bytes(8), "0000000000000080", i64::MIN),
];

const I64_MISFITS: [Misfit<i64>; 7] = [
    (Big, Msb0, Bits(33), 4294967296),
    (Big, Msb0, Bits(33), -4294967297),
    (Little, Msb0, Bits(33), 4294967296),
    (Little, Msb0, Bits(33), -4294967297),
    (Little, Lsb0, Bits(33), 4294967296),
    (Little, Lsb0, Bits(33), -4294967297),
    (Big, Lsb0, Bits(40), 0x8000000000),
];

#[test]
fn of_64_bits(rt: HostRuntime) -> Result<(), Fail> {
    expect_rows(&rt, rt.alloc(), &I64_ROWS, &I64_MISFITS)?;
    expect_one_beyond(rt.alloc(), 0i64, 64)
}

const ISIZE_ROWS: [Row<isize>; 11] = [
    (Big, Msb0, Whole, "0000000000000001", 1),
    (Little, Msb0, Whole, "0000000000000080", isize::MIN),
    (Big, Lsb0, Whole, "7FFFFFFFFFFFFFFF", isize::MAX),
    (Little, Lsb0, Whole, "FFFFFFFFFFFFFFFF", -1),
    (Big, Msb0, Bits(57), "8000000000000000", -0x100000000000000),
    (
        Little,
        Msb0,
        Bits(57),
        "0000000000000080",
        -0x100000000000000,
    ),
    (
        Little,
        Lsb0,
        Bits(57),
        "0000000000000001",
        -0x100000000000000,
    ),
    (Little, Lsb0, Bits(57), "FFFFFFFFFFFFFF00", 0xFFFFFFFFFFFFFF),
    (Big, Lsb0, Bits(16), "FFFE", -2),
    (Little, Msb0, Bits(0), "", 0),
    (Big, Msb0, Bytes(1), "80", -128),
];

const ISIZE_MISFITS: [Misfit<isize>; 4] = [
    (Big, Msb0, Bits(57), 0x100000000000000),
    (Little, Msb0, Bits(57), -0x100000000000001),
    (Little, Lsb0, Bits(57), 0x100000000000000),
    (Big, Lsb0, Bits(16), 32768),
];

#[test]
fn of_the_size_of_places(rt: HostRuntime) -> Result<(), Fail> {
    expect_rows(&rt, rt.alloc(), &ISIZE_ROWS, &ISIZE_MISFITS)?;
    expect_one_beyond(rt.alloc(), 0isize, 64)
}

const I128_ROWS: [Row<i128>; 12] = [
    (
        Big,
        Msb0,
        Whole,
        "80000000000000000000000000000000",
        i128::MIN,
    ),
    (Little, Msb0, Whole, "01000000000000000000000000000000", 1),
    (Big, Lsb0, Whole, "FFFFFFFFFFFFFFFFFFFFFFFFFFFFFFFF", -1),
    (
        Little,
        Lsb0,
        Whole,
        "00000000000000000000000000000080",
        i128::MIN,
    ),
    (Big, Msb0, Bits(100), "80000000000000000000000000", LEAST),
    (Little, Msb0, Bits(100), "00000000000000000000000080", LEAST),
    (Little, Lsb0, Bits(100), "00000000000000000000000008", LEAST),
    (Big, Msb0, Bits(100), "7FFFFFFFFFFFFFFFFFFFFFFFF0", GREATEST),
    (
        Little,
        Lsb0,
        Bits(100),
        "FFFFFFFFFFFFFFFFFFFFFFFF07",
        GREATEST,
    ),
    (Big, Lsb0, Bits(16), "FFFE", -2),
    (Big, Msb0, Bits(0), "", 0),
    (Little, Msb0, Bytes(2), "0080", -32768),
];

const I128_MISFITS: [Misfit<i128>; 4] = [
    (Big, Msb0, Bits(100), 0x8000000000000000000000000),
    (Little, Msb0, Bits(100), -0x8000000000000000000000001),
    (Little, Lsb0, Bits(100), 0x8000000000000000000000000),
    (Big, Lsb0, Bits(16), -32769),
];

#[test]
fn of_128_bits(rt: HostRuntime) -> Result<(), Fail> {
    expect_rows(&rt, rt.alloc(), &I128_ROWS, &I128_MISFITS)?;
    expect_one_beyond(rt.alloc(), 0i128, 128)
}
