//! Numbers that are cut from a word of several fields.

ghost use Rattle.std.specs.Prelude.{◌≡◌, ◌-◌, ◌%◌, ◌^◌, ◌<◌, ◌≤◌, true};
ghost use Rattle.std.specs.Prelude.{false, take, IfSome, pos};
ghost use Rattle.deku_bits.specs.Streams.{flow};
ghost use Rattle.deku_bits.specs.Bits.{bits_of, facing};
ghost use Rattle.deku_num.specs.Cutting.{front, IsCutValue};
ghost use Rattle.deku_num.specs.NumberLaws.{InType};
ghost use Rattle.deku_num.specs.Numbers.{width, number as number_of, IsAllowed};

use crate::ctx::{Endian, Layout, Order};
use crate::kernel::narrow::turned;
use crate::kernel::{allowed_width, low_bits, sign_extend};
use crate::kind::NumberType;

/// The number of an unsigned field that the first bits of a word are, and how many bits these are.
/// The word has `room` bits, of which the first is the highest in `Msb0`, and the lowest in `Lsb0`.
///
/// `None` if the field has more bits or none, if its layout is rejected or in the other order, and
/// if its bytes are reversed but its bits are no whole bytes, and more than eight.
///
/// The caller's conditions: the type is unsigned; the word has at most 64 bits, and is below 2 to
/// the power `room`.
///
/// ```text
/// cut_unsigned(0x69C, 12, Order::Msb0, NumberType::U8, BitSize(4).parts())    // Some((6, 4))
/// ```
#[inline]
pub fn cut_unsigned(
    word: u64,
    room: usize,
    order: Order,
    number_type: NumberType,
    layout: Layout,
) -> Option<(u64, usize)>
    requires unsigned { number_type.signed ≡ false }
    requires few { room ≤ 64 }
    requires below { word < 2 ^ room }
    ensures cut { IfSome result (λ r. IsCutValue number_type layout order word room (pos r.0)
        r.1) }
    ensures in_type { IfSome result (λ r. number_type.bits % 8 ≡ 0 → r.0 < 2 ^ number_type.bits) }
{
    let (first, width) = first_bits(word, room, order, number_type, layout)?;
    let number = number_of_bits(first, width, layout.endian, order)?;
    Some((number, width))
}

/// The number of a signed field that the first bits of a word are, in the form of `cut_unsigned`.
///
/// The caller's conditions: the type is signed; the word has at most 64 bits, and is below 2 to the
/// power `room`.
///
/// ```text
/// cut_signed(0xD9C, 12, Order::Msb0, NumberType::I8, BitSize(4).parts())      // Some((-3, 4))
/// ```
#[inline]
pub fn cut_signed(
    word: u64,
    room: usize,
    order: Order,
    number_type: NumberType,
    layout: Layout,
) -> Option<(i128, usize)>
    requires signed { number_type.signed ≡ true }
    requires few { room ≤ 64 }
    requires below { word < 2 ^ room }
    ensures cut { IfSome result (λ r. IsCutValue number_type layout order word room r.0 r.1) }
    ensures in_type { IfSome result (λ r. number_type.bits % 8 ≡ 0
        → InType true number_type.bits r.0) }
{
    let (first, width) = first_bits(word, room, order, number_type, layout)?;
    let number = number_of_bits(first, width, layout.endian, order)?;
    Some((sign_extend(number as u128, width), width))
}

/// Eight bytes that begin with the bits of a word, the first bit the highest of the word in `Msb0`,
/// and the lowest in `Lsb0`.
///
/// The caller's conditions: there are 1 to 64 bits, and the word has no more.
///
/// ```text
/// word_bytes(0x69C, 12, Order::Msb0)                                   // 69 C0 and six zeros
/// ```
pub fn word_bytes(word: u64, bits: usize, order: Order) -> [u8; 8]
    requires some { 0 < bits }
    requires few { bits ≤ 64 }
    requires below { word < 2 ^ bits }
    ensures { take bits (flow order result) ≡ facing order (bits_of bits word) }
{
    match order {
        Order::Msb0 => (word << (64 - bits)).to_be_bytes(),
        Order::Lsb0 => word.to_le_bytes(),
    }
}

// The number of the first bits of a word, as many as the field has, and how many these are. `None`
// if the word has fewer, if the field has none, or if its layout is rejected or in the other order.
#[inline(always)]
fn first_bits(
    word: u64,
    room: usize,
    order: Order,
    number_type: NumberType,
    layout: Layout,
) -> Option<(u64, usize)>
    requires few { room ≤ 64 }
    requires below { word < 2 ^ room }
    ensures some { IfSome result (λ r. 0 < r.1) }
    ensures within { IfSome result (λ r. r.1 ≤ room) }
    ensures wide { IfSome result (λ r. r.1 ≡ width number_type layout) }
    ensures order { IfSome result (λ r. layout.order ≡ order) }
    ensures ok { IfSome result (λ r. IsAllowed number_type layout) }
    ensures first { IfSome result (λ r. r.0 ≡ front order word r.1 (room - r.1)) }
    ensures below { IfSome result (λ r. r.0 < 2 ^ r.1) }
{
    let Ok(width) = allowed_width(number_type, layout) else {
        return None;
    };
    if width == 0 || room < width {
        return None;
    }
    match (order, layout.order) {
        (Order::Msb0, Order::Msb0) => Some((word >> (room - width), width)),
        (Order::Lsb0, Order::Lsb0) => Some((low_bits(word as u128, width) as u64, width)),
        _ => None,
    }
}

/// The number of a field, without a sign, from that of its bits, of which the first is the highest
/// in `Msb0`, and the lowest in `Lsb0`. It is also the number of the bits from that of the field.
/// `None` if the bytes are reversed but the bits are no whole bytes, and more than eight.
#[inline(always)]
pub fn number_of_bits(bits: u64, width: usize, endian: Endian, order: Order) -> Option<u64>
    requires some { 0 < width }
    requires few { width ≤ 64 }
    requires below { bits < 2 ^ width }
    ensures number { IfSome result (λ n. n ≡ number_of endian order (facing order
        (bits_of width bits))) }
    ensures back { IfSome result (λ n. bits ≡ number_of endian order (facing order
        (bits_of width n))) }
    ensures below { IfSome result (λ n. n < 2 ^ width) }
{
    if width <= 8 {
        return Some(bits);
    }
    match (endian, order) {
        (Endian::Big, Order::Msb0) => Some(bits),
        (Endian::Little, Order::Lsb0) => Some(bits),
        (Endian::Little, Order::Msb0) if width % 8 == 0 => Some(turned(bits, width / 8)),
        (Endian::Big, Order::Lsb0) if width % 8 == 0 => Some(turned(bits, width / 8)),
        _ => None,
    }
}
