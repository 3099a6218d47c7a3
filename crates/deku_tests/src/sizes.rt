//! Sizes of truth values, of tuples and of arrays.

ghost use Rattle.std.specs.Prelude.{Some, ◌-◌, ◌^◌, None};

use super::expecting::same;
use deku::ctx::BitSize;
use deku::prelude::DekuSize;
use deku::size::DekuSizeConst;
use std::process::Abort;

// A type of as many bits as a usize counts.
struct Wide;

impl DekuSize for Wide {
    ghost bits = { Some (2 ^ 64 - 1) };

    fn size_bits() -> Option<usize> {
        Some(usize::MAX)
    }
}

// A type of values of many sizes.
struct Open {}

impl DekuSize for Open {
    ghost bits = { None };

    fn size_bits() -> Option<usize> {
        None
    }
}

// So many bits, and so many bytes if these are whole.
fn expect_size<T: DekuSize>(rt: &impl Abort, row: &str, bits: Option<usize>, bytes: Option<usize>) {
    same(rt, &row, &(T::size_bits(), T::size_bytes()), &(bits, bytes));
    same(rt, &row, &BitSize::of::<T>(), &bits.map(BitSize));
}

#[test]
fn of_truth_values_and_tuples(rt: HostRuntime) {
    same(
        &rt,
        &"bool",
        &(bool::SIZE_BITS, bool::SIZE_BYTES),
        &(8, Some(1)),
    );
    expect_size::<bool>(&rt, "bool", Some(8), Some(1));
    expect_size::<(u8,)>(&rt, "(u8,)", Some(8), Some(1));
    expect_size::<(u8, u16)>(&rt, "(u8, u16)", Some(24), Some(3));
    expect_size::<(u8, (u16, u16))>(&rt, "(u8, (u16, u16))", Some(40), Some(5));
    expect_size::<(u8, [u16; 3])>(&rt, "(u8, [u16; 3])", Some(56), Some(7));
    expect_size::<(bool, u16, u32)>(&rt, "(bool, u16, u32)", Some(56), Some(7));
    expect_size::<(u8, u16, u32, u64)>(&rt, "(u8, u16, u32, u64)", Some(120), Some(15));
    expect_size::<(u8, u8, u8, u8, u128)>(&rt, "(u8, u8, u8, u8, u128)", Some(160), Some(20));
    expect_size::<(i8, i16, i32, i64, i128, isize)>(&rt, "6 signed", Some(312), Some(39));
}

#[test]
fn of_long_tuples(rt: HostRuntime) {
    expect_size::<(u8, u8, u8, u8, u8, u8, u8)>(&rt, "7", Some(56), Some(7));
    expect_size::<(u8, u8, u8, u8, u8, u8, u8, u8)>(&rt, "8", Some(64), Some(8));
    expect_size::<(u8, u8, u8, u8, u8, u8, u8, u8, u8)>(&rt, "9", Some(72), Some(9));
    expect_size::<(u8, u8, u8, u8, u8, u8, u8, u8, u8, u8)>(&rt, "10", Some(80), Some(10));
    expect_size::<(u8, u8, u8, u8, u8, u8, u8, u8, u8, u8, u8)>(&rt, "11", Some(88), Some(11));
}

// What does not fit a usize together has no size.
#[test]
fn of_too_many_bits(rt: HostRuntime) {
    expect_size::<(Wide,)>(&rt, "(Wide,)", Some(usize::MAX), None);
    expect_size::<(Wide, u8)>(&rt, "(Wide, u8)", None, None);
    expect_size::<(u8, Wide)>(&rt, "(u8, Wide)", None, None);
    expect_size::<(u8, (u8, Wide), u8)>(&rt, "(u8, (u8, Wide), u8)", None, None);
}

#[test]
fn of_arrays(rt: HostRuntime) {
    expect_size::<[u16; 3]>(&rt, "[u16; 3]", Some(48), Some(6));
    expect_size::<[[u8; 3]; 2]>(&rt, "[[u8; 3]; 2]", Some(48), Some(6));
    expect_size::<[Wide; 2]>(&rt, "[Wide; 2]", None, None);
    expect_size::<[Wide; 1]>(&rt, "[Wide; 1]", Some(usize::MAX), None);
    expect_size::<[Wide; 0]>(&rt, "[Wide; 0]", Some(0), Some(0));
    expect_size::<[Open; 1]>(&rt, "[Open; 1]", None, None);
    expect_size::<[Open; 0]>(&rt, "[Open; 0]", Some(0), Some(0));
}
