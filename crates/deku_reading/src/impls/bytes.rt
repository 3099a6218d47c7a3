//! Bytes that are in memory, read eight at a time.

ghost use Rattle.std.specs.Prelude.{◌≡◌, ◌≤◌, ◌<◌, ◌+◌, ◌++◌};
ghost use Rattle.std.specs.Prelude.{take, OnOk, OnErr};
ghost use Rattle.std.specs.Vec.{vec_capacity, vec_len};
ghost use Rattle.deku_bits.specs.declared.ctx.Order.TheVariants.{Msb0};
ghost use Rattle.deku_num.specs.declared.ctx.Layout.{Layout as NumberLayout};
ghost use Rattle.deku_num.specs.declared.ctx.Size.TheVariants.{Whole};
ghost use Rattle.deku_num.specs.Numbers.{byte};
ghost use Rattle.deku_num.specs.NumberCalls.{ReadsUnsigned};
ghost use Rattle.deku_reading.specs.Ahead.{ReadsOnto};
ghost use Rattle.deku_reading.specs.Early.{NoReadAhead};

use deku_bits::device::Source;
use deku_bits::reader::Reader;
use deku_num::ctx::{Layout, Order, Size};
use std::alloc::AllocError;

/// Reads the next bytes under a layout, at most `most`, as long as they are in memory, and appends
/// them to the vector. Returns how many they are: none unless the layout is `Msb0` and of the whole
/// size.
pub fn read_bytes_onto<R: Source>(
    reader: &mut Reader<R>,
    bytes: &mut Vec<u8>,
    most: usize,
    layout: Layout,
) -> usize
    ensures few { result ≤ most }
    ensures reads { ReadsOnto R.known (ReadsUnsigned byte layout) result bytes.old.items
        bytes.new.items reader.old reader.new }
    ensures early { NoReadAhead R.known reader.old reader.new }
{
    let (Order::Msb0, Size::Whole) = (layout.order, layout.size) else {
        return 0;
    };
    let mut left = most;
    while left > 0 {
        let count = read_eight_onto(reader, bytes, left);
        if count == 0 {
            return most - left;
        }
        left -= count;
    }
    most
}

// The same of at most eight bytes. It makes room for at most 64 of them. Eight are one number,
// which is read and stored without a loop.
#[inline(always)]
fn read_eight_onto<R: Source>(reader: &mut Reader<R>, bytes: &mut Vec<u8>, most: usize) -> usize
    requires some { 0 < most }
    ensures few { result ≤ most }
    ensures reads { (l : NumberLayout) → l.order ≡ Msb0 → l.size ≡ Whole → ReadsOnto R.known
        (ReadsUnsigned byte l) result bytes.old.items bytes.new.items reader.old reader.new }
    ensures early { NoReadAhead R.known reader.old reader.new }
{
    let Ok(()) = bytes.reserve(most.min(64)) else {
        return 0;
    };
    if most >= 8 {
        read_few_onto(reader, bytes, 8)
    } else {
        read_few_onto(reader, bytes, most)
    }
}

// This many bytes if they are in memory, or none.
#[inline(always)]
fn read_few_onto<R: Source>(reader: &mut Reader<R>, bytes: &mut Vec<u8>, count: usize) -> usize
    requires some { 0 < count }
    requires few { count ≤ 8 }
    requires room { vec_len bytes.old + count ≤ vec_capacity bytes.old }
    ensures few { result ≤ count }
    ensures reads { (l : NumberLayout) → l.order ≡ Msb0 → l.size ≡ Whole → ReadsOnto R.known
        (ReadsUnsigned byte l) result bytes.old.items bytes.new.items reader.old reader.new }
    ensures early { NoReadAhead R.known reader.old reader.new }
{
    let Some(number) = reader.try_read_number(8 * count, Order::Msb0) else {
        return 0;
    };
    let eight = (number << (64 - 8 * count)).to_be_bytes();
    match append_first(bytes, &eight, count) {
        Ok(()) => count,
        Err(_) => unreachable!(),
    }
}

// Appends the first `count` of eight bytes.
#[inline(always)]
fn append_first(bytes: &mut Vec<u8>, eight: &[u8; 8], count: usize) -> Result<(), AllocError>
    requires { count ≤ 8 }
    ensures items { OnOk result (bytes.new.items ≡ bytes.old.items ++ take count eight.now) }
    ensures full { OnErr result (vec_capacity bytes.old < vec_len bytes.old + count) }
{
    if count == 8 {
        bytes.extend_from_slice(eight)
    } else {
        bytes.extend_from_slice(&eight[..count])
    }
}
