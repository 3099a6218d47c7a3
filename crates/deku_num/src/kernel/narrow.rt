//! Words of at most 64 bits and their numbers.

ghost use Rattle.std.specs.Prelude.{◌≡◌, ◌<◌, ◌≤◌, ◌-◌, ◌*◌, ◌/◌};
ghost use Rattle.std.specs.Prelude.{◌^◌, List, Bool, length};
ghost use Rattle.std.specs.Int.{w128, swap_bytes};
ghost use Rattle.deku_bits.specs.Bits.{word_of};
ghost use Rattle.deku_num.specs.Numbers.{number as number_of};

use crate::ctx::{Endian, Order};

/// The number of a field's bits from their word.
#[inline(always)]
pub fn narrow_number(word: u64, width: usize, endian: Endian, order: Order) -> u64
    requires few { width ≤ 64 }
    requires fits { word < 2 ^ width }
    ensures { (bits : List Bool) → length bits ≡ width → word ≡ word_of order bits
        → result ≡ number_of endian order bits }
{
    // A single group is its own number.
    if width <= 8 {
        return word;
    }
    match (endian, order) {
        (Endian::Little, _) => word,
        (Endian::Big, Order::Msb0) => number_of_high(word, width),
        (Endian::Big, Order::Lsb0) => turned(word, width.div_ceil(8)),
    }
}

// The number of the bits, with the high bits first, from their word: the whole bytes are reversed,
// and the bits after them follow.
#[inline(always)]
fn number_of_high(word: u64, width: usize) -> u64
    requires more { 8 < width }
    requires few { width ≤ 64 }
    requires fits { word < 2 ^ width }
    ensures { (bits : List Bool) → length bits ≡ width → word ≡ word_of Order.Msb0 bits
        → result ≡ number_of Endian.Big Order.Msb0 bits }
{
    let count = width / 8;
    let behind = width % 8;
    if behind == 0 {
        return turned(word, count);
    }
    let whole = 8 * count;
    let low = word % (1 << whole);
    (turned(low, count) << behind) + (word >> whole)
}

/// The word of a field's bits from their number.
#[inline(always)]
pub fn narrow_word(number: u64, width: usize, endian: Endian, order: Order) -> u64
    requires few { width ≤ 64 }
    ensures { (bits : List Bool) → length bits ≡ width → number ≡ number_of endian order bits
        → result ≡ word_of order bits }
{
    // A single group is its own number.
    if width <= 8 {
        return number;
    }
    match (endian, order) {
        (Endian::Little, _) => number,
        (Endian::Big, Order::Msb0) => word_of_high(number, width),
        (Endian::Big, Order::Lsb0) => turned(number, width.div_ceil(8)),
    }
}

// The word of the bits, with the high bits first, from their number: the bytes before the last bits
// are reversed, and the last bits follow.
#[inline(always)]
fn word_of_high(number: u64, width: usize) -> u64
    requires more { 8 < width }
    requires few { width ≤ 64 }
    ensures { (bits : List Bool) → length bits ≡ width
        → number ≡ number_of Endian.Big Order.Msb0 bits → result ≡ word_of Order.Msb0 bits }
{
    let count = width / 8;
    let behind = width % 8;
    if behind == 0 {
        return turned(number, count);
    }
    let last = number % (1 << behind);
    turned(number >> behind, count) + (last << (8 * count))
}

/// This many bytes of a number, in reverse order.
#[inline(always)]
pub fn turned(number: u64, count: usize) -> u64
    requires some { 0 < count }
    requires few { count ≤ 8 }
    ensures value { result ≡ swap_bytes w128 number / 2 ^ (128 - 8 * count) }
    ensures bound { result < 2 ^ (8 * count) }
{
    number.swap_bytes() >> (64 - 8 * count)
}
