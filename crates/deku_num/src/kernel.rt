//! Fields as words: their widths, the numbers that words make, and the words of values.

ghost use Rattle.std.specs.Prelude.{◌≡◌, ◌↔◌, ◌<◌, ◌≤◌, ◌-◌, ◌*◌};
ghost use Rattle.std.specs.Prelude.{◌/◌, ◌^◌, ◌%◌, List, Bool, true, false, length};
ghost use Rattle.std.specs.Prelude.{IsTrue, IsOk, IfOk, IfSome, IsNone, Err, ℤ, pos, negsuc};
ghost use Rattle.std.specs.Prelude.{◌-ℤ◌, ◌<ℤ◌};
ghost use Rattle.std.specs.Int.{w128, swap_bytes};
ghost use Rattle.deku_bits.specs.Bits.{word_of};
ghost use Rattle.deku_num.specs.NumberLaws.{Within, residue};
ghost use Rattle.deku_num.specs.Numbers.{IsWordFor, with_sign as signed_worth, width as width_of};
ghost use Rattle.deku_num.specs.Numbers.{sized_width, IsEvenWhere, IsAllowed, number as number_of};
ghost use Rattle.deku_num.specs.Numbers.{IsFieldOf};

pub(crate) mod narrow;

use crate::ctx::{Endian, Layout, Order, Size};
use crate::kernel::narrow::{narrow_number, narrow_word};
use crate::kind::NumberType;

/// Why a layout is rejected for a type of numbers.
#[derive(Debug, Clone, Copy, PartialEq, Eq)]
pub enum Misfit {
    /// The size is beyond the bits of the type.
    TooWide,
    /// The field is signed, big and `Lsb0`, and has more than eight bits that are not whole bytes.
    Uneven,
}

/// The width in bits of a field of the type under the layout: at most the bits of the type.
///
/// It fails with `TooWide` if the size is beyond the type, and otherwise with `Uneven` if the field
/// is signed, big and `Lsb0`, and has more than eight bits that are not whole bytes.
///
/// ```text
/// allowed_width(NumberType::U16, ByteSize(1).parts())                        // Ok(8)
/// ```
#[inline(always)]
pub fn allowed_width(number_type: NumberType, layout: Layout) -> Result<usize, Misfit>
    ensures allowed { IsOk result ↔ IsAllowed number_type layout }
    ensures width { IfOk result (λ n. n ≡ width_of number_type layout) }
    ensures too_wide { (result ≡ Err Misfit.TooWide) ↔
        (number_type.bits < width_of number_type layout) }
    ensures uneven { (result ≡ Err Misfit.Uneven) ↔ ((width_of number_type layout ≤
        number_type.bits) × (¬ IsEvenWhere number_type.signed layout.endian layout.order
        (width_of number_type layout))) }
{
    let Some(width) = width_within(number_type, layout.size) else {
        return Err(Misfit::TooWide);
    };
    if !is_even_where(number_type.signed, layout.endian, layout.order, width) {
        return Err(Misfit::Uneven);
    }
    Ok(width)
}

// The width in bits of a field of the type, if the type has as many bits.
#[inline(always)]
fn width_within(number_type: NumberType, size: Size) -> Option<usize>
    ensures some { IfSome result (λ n. (n ≡ sized_width number_type size)
        × (n ≤ number_type.bits)) }
    ensures none { IsNone result → number_type.bits < sized_width number_type size }
{
    let bits = match size {
        Size::Whole => number_type.bits,
        Size::Bits(bits) => bits,
        Size::Bytes(_) if number_type.one_byte => 8,
        Size::Bytes(bytes) if bytes <= number_type.bits / 8 => 8 * bytes,
        Size::Bytes(_) => return None,
    };
    if bits <= number_type.bits {
        Some(bits)
    } else {
        None
    }
}

// Whether a signed field that is big and `Lsb0` has at most eight bits or whole bytes.
#[inline(always)]
fn is_even_where(signed: bool, endian: Endian, order: Order, width: usize) -> bool
    ensures { IsTrue result ↔ IsEvenWhere signed endian order width }
{
    match (signed, endian, order) {
        (true, Endian::Big, Order::Lsb0) => width <= 8 || width % 8 == 0,
        _ => true,
    }
}

/// The number of a field's bits, without a sign, from their word, as `Reader::read_word` returns
/// it.
///
/// The caller's conditions: there are at most 128 bits, and the word has no more bits than the
/// field.
///
/// ```text
/// number_of_word(0xCAB, 12, Endian::Big, Order::Msb0)             // 0xABC, of the groups AB and C
/// ```
#[inline(always)]
pub fn number_of_word(word: u128, width: usize, endian: Endian, order: Order) -> u128
    requires wide { width ≤ 128 }
    requires fits { word < 2 ^ width }
    ensures { (bits : List Bool) → length bits ≡ width → word ≡ word_of order bits
        → result ≡ number_of endian order bits }
{
    if width <= 64 {
        return narrow_number(word as u64, width, endian, order) as u128;
    }
    match (endian, order) {
        (Endian::Little, _) => word,
        (Endian::Big, Order::Msb0) => number_of_high(word, width),
        (Endian::Big, Order::Lsb0) => turned(word, width.div_ceil(8)),
    }
}

// The number of the bits, with the high bits first, from their word: the whole bytes are reversed,
// and the bits after them follow.
#[inline(always)]
fn number_of_high(word: u128, width: usize) -> u128
    requires wide { width ≤ 128 }
    requires fits { word < 2 ^ width }
    ensures { (bits : List Bool) → length bits ≡ width → word ≡ word_of Order.Msb0 bits
        → result ≡ number_of Endian.Big Order.Msb0 bits }
{
    let count = width / 8;
    let behind = width % 8;
    if behind == 0 {
        return turned(word, count);
    }
    let whole = 8 * count;
    let low = word % (1 << whole);
    (turned(low, count) << behind) + (word >> whole)
}

/// The word of a field's bits, as `Writer::write_word` takes it, from their number without a sign.
/// If no bits of this width have the number, the result is unspecified.
///
/// The caller's condition: there are at most 128 bits.
///
/// ```text
/// word_of_number(0xABC, 12, Endian::Big, Order::Msb0)                        // 0xCAB
/// ```
#[inline(always)]
pub fn word_of_number(number: u128, width: usize, endian: Endian, order: Order) -> u128
    requires wide { width ≤ 128 }
    ensures { (bits : List Bool) → length bits ≡ width → number ≡ number_of endian order bits
        → result ≡ word_of order bits }
{
    if width <= 64 {
        let number = (number % (1 << 64)) as u64;
        return narrow_word(number, width, endian, order) as u128;
    }
    match (endian, order) {
        (Endian::Little, _) => number,
        (Endian::Big, Order::Msb0) => word_of_high(number, width),
        (Endian::Big, Order::Lsb0) => turned(number, width.div_ceil(8)),
    }
}

// The word of the bits, with the high bits first, from their number: the bytes before the last bits
// are reversed, and the last bits follow.
#[inline(always)]
fn word_of_high(number: u128, width: usize) -> u128
    requires { width ≤ 128 }
    ensures { (bits : List Bool) → length bits ≡ width
        → number ≡ number_of Endian.Big Order.Msb0 bits → result ≡ word_of Order.Msb0 bits }
{
    let count = width / 8;
    let behind = width % 8;
    if behind == 0 {
        return turned(number, count);
    }
    let last = number % (1 << behind);
    turned(number >> behind, count) + (last << (8 * count))
}

// This many bytes of a number, in reverse order.
#[inline(always)]
fn turned(number: u128, count: usize) -> u128
    requires { count ≤ 16 }
    ensures value { result ≡ swap_bytes w128 number / 2 ^ (128 - 8 * count) }
    ensures bound { result < 2 ^ (8 * count) }
{
    let swapped = number.swap_bytes();
    if count == 0 {
        return 0;
    }
    swapped >> (128 - 8 * count)
}

/// The value of a number of n bits in two's complement.
///
/// The caller's conditions: there are at most 128 bits, and the number has no more.
///
/// ```text
/// sign_extend(0b101, 3)                                                        // -3
/// ```
#[inline(always)]
pub fn sign_extend(number: u128, n: usize) -> i128
    requires wide { n ≤ 128 }
    requires below { number < 2 ^ n }
    ensures { result ≡ signed_worth true n number }
{
    if n == 0 {
        return 0;
    }
    if n <= 64 {
        return with_sign(number, narrow_power(n - 1));
    }
    with_sign(number, 1 << (n - 1))
}

// The value of a number of n bits in two's complement. `half` is two to the power of n - 1.
#[inline(always)]
fn with_sign(sum: u128, half: u128) -> i128
    requires below { sum < half * 2 }
    requires fits { half ≤ 2 ^ 127 }
    ensures low { sum < half → result ≡ pos sum }
    ensures high { half ≤ sum → result ≡ pos sum -ℤ pos (half * 2) }
{
    if sum < half {
        sum as i128
    } else {
        let below = (half - 1 - (sum - half)) as i128;
        -below - 1
    }
}

/// The word of the bits of an unsigned value, as `Writer::write_word` takes it. `None` if the value
/// does not fit.
///
/// The caller's conditions: the type is unsigned, and has at most 128 bits; `allowed_width` allows
/// the layout, and `width` is its result.
///
/// ```text
/// unsigned_word(16, NumberType::U8, BitSize(4).parts(), 4)               // None: 16 has five bits
/// ```
#[inline(always)]
pub fn unsigned_word(
    value: u128,
    number_type: NumberType,
    layout: Layout,
    width: usize,
) -> Option<u128>
    requires unsigned { number_type.signed ≡ false }
    requires within { number_type.bits ≤ 128 }
    requires allowed { IsAllowed number_type layout }
    requires wide { width ≡ width_of number_type layout }
    ensures word { IfSome result (λ word. IsWordFor number_type layout (pos value) word) }
    ensures none { IsNone result → (s : List Bool) → IsFieldOf number_type layout (pos value) s
        → ⊥ }
{
    if !is_within(value, layout.endian, layout.order, width) {
        return None;
    }
    Some(word_of_number(value, width, layout.endian, layout.order))
}

/// The word of the bits of a signed value, in the form of `unsigned_word`. `None` if the value does
/// not fit.
///
/// The caller's conditions: the type is signed, and has at most 128 bits; `allowed_width` allows
/// the layout, and `width` is its result.
///
/// ```text
/// signed_word(-3, NumberType::I8, BitSize(3).parts(), 3)                     // Some(0b101)
/// ```
#[inline(always)]
pub fn signed_word(
    value: i128,
    number_type: NumberType,
    layout: Layout,
    width: usize,
) -> Option<u128>
    requires signed { number_type.signed ≡ true }
    requires within { number_type.bits ≤ 128 }
    requires allowed { IsAllowed number_type layout }
    requires wide { width ≡ width_of number_type layout }
    ensures word { IfSome result (λ word. IsWordFor number_type layout value word) }
    ensures none { IsNone result → (s : List Bool) → IsFieldOf number_type layout value s → ⊥ }
{
    let wanted = residue_of(value, width);
    if sign_extend(wanted, width) != value {
        return None;
    }
    Some(word_of_number(wanted, width, layout.endian, layout.order))
}

// Whether a number is one that n bits of a field can have.
#[inline(always)]
fn is_within(value: u128, endian: Endian, order: Order, n: usize) -> bool
    requires { n ≤ 128 }
    ensures { IsTrue result ↔ Within endian order n value }
{
    match (endian, order) {
        (Endian::Big, Order::Lsb0) => {
            let groups = n.div_ceil(8);
            is_below(value, 8 * groups) && is_below(value % 256, n - 8 * groups.saturating_sub(1))
        }
        _ => is_below(value, n),
    }
}

/// Whether a number is below two to the power of n, so that it has at most n bits.
///
/// The caller's condition: n is at most 128.
///
/// ```text
/// is_below(16, 4)                                  // false
/// ```
#[inline(always)]
pub fn is_below(value: u128, n: usize) -> bool
    requires { n ≤ 128 }
    ensures { IsTrue result ↔ (value < 2 ^ n) }
{
    if n < 64 {
        return value < narrow_power(n);
    }
    n == 128 || value < 1 << n
}

/// A value modulo two to the power of n.
///
/// The caller's condition: n is at most 128.
///
/// ```text
/// residue_of(-1, 4)                                                          // 15
/// ```
#[inline(always)]
pub fn residue_of(value: i128, n: usize) -> u128
    requires { n ≤ 128 }
    ensures { result ≡ residue value n }
{
    if value >= 0 {
        low_bits(value as u128, n)
    } else {
        low_bits(u128::MAX, n) - low_bits(below_zero(value), n)
    }
}

// How far a value is below minus one.
#[inline(always)]
fn below_zero(value: i128) -> u128
    requires { value <ℤ pos 0 }
    ensures { value ≡ negsuc result }
{
    (-(value + 1)) as u128
}

/// A number modulo two to the power of n: its n lowest bits.
///
/// The caller's condition: n is at most 128.
///
/// ```text
/// low_bits(0x2B, 4)                                                          // 11
/// ```
#[inline(always)]
pub fn low_bits(sum: u128, n: usize) -> u128
    requires { n ≤ 128 }
    ensures { result ≡ sum % 2 ^ n }
{
    if n < 64 {
        let low = (sum % (1 << 64)) as u64;
        return (low % (1 << n)) as u128;
    }
    if n == 128 { sum } else { sum % (1 << n) }
}

// Two to the power of n, if it is a number of 64 bits.
#[inline(always)]
fn narrow_power(n: usize) -> u128
    requires { n < 64 }
    ensures { result ≡ 2 ^ n }
{
    let power: u64 = 1 << n;
    power as u128
}
