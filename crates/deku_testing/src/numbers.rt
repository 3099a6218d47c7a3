//! Numbers as lists of truth values, as they are defined: slow, with nothing of the library's but
//! the names of types and layouts.
//!
//! Values are numbers modulo two to the power of 128, so that those below zero have a place beside
//! those without a sign.

use crate::bits::{group_number, word_of};
use deku_bits::error::DekuError;
use deku_num::ctx::{Endian, Layout, Order, Size};
use deku_num::kind::NumberType;

/// The most bits of a field.
pub const MOST: usize = 128;

/// Two to the power of n.
pub fn two_to(n: usize) -> u128 {
    let mut power: u128 = 1;
    for _ in 0..n {
        power = power.wrapping_add(power);
    }
    power
}

// The last group of eight counts once, each earlier one 256 times as much.
fn big(order: Order, bits: &[bool]) -> u128 {
    let mut number: u128 = 0;
    for group in bits.chunks(8) {
        number = number
            .wrapping_mul(256)
            .wrapping_add(group_number(order, group));
    }
    number
}

/// The number of a list of bits, without a sign.
pub fn number(endian: Endian, order: Order, bits: &[bool]) -> u128 {
    match (endian, order) {
        (Endian::Little, _) => word_of(order, bits),
        (Endian::Big, Order::Msb0) => group_number(Order::Msb0, bits),
        (Endian::Big, Order::Lsb0) => big(Order::Lsb0, bits),
    }
}

/// The value of a list of bits: if there is a sign, its number less two to the width, if it is half
/// of that or more.
pub fn worth(signed: bool, endian: Endian, order: Order, bits: &[bool]) -> u128 {
    let number = number(endian, order, bits);
    if !signed || bits.is_empty() || number < two_to(bits.len() - 1) {
        return number;
    }
    number.wrapping_sub(two_to(bits.len()))
}

/// What each bit of a list of the width counts: the number of the list in which it alone is set.
/// After the width it counts nothing.
pub fn weights(endian: Endian, order: Order, width: usize) -> [u128; MOST] {
    let mut weights = [0; MOST];
    let mut bits = [false; MOST];
    if width > MOST {
        return weights;
    }
    for i in 0..width {
        bits[i] = true;
        weights[i] = number(endian, order, &bits[..width]);
        bits[i] = false;
    }
    weights
}

/// The list in which just those bits are set that count in the number.
pub fn list_of(number: u128, weights: &[u128; MOST]) -> [bool; MOST] {
    let mut bits = [false; MOST];
    for i in 0..MOST {
        bits[i] = number & weights[i] != 0;
    }
    bits
}

/// The bits of the type, the bit size, or eight times the byte size, which is one for a type that
/// takes any byte size as one.
pub fn width(number_type: NumberType, size: Size) -> usize {
    match size {
        Size::Whole => number_type.bits,
        Size::Bits(bits) => bits,
        Size::Bytes(_) if number_type.one_byte => 8,
        Size::Bytes(bytes) => bytes.saturating_mul(8),
    }
}

// A field with a sign, big and in `Lsb0`, of more than eight bits and no whole bytes.
fn is_uneven(number_type: NumberType, layout: Layout) -> bool {
    let width = width(number_type, layout.size);
    number_type.signed
        && layout.endian == Endian::Big
        && layout.order == Order::Lsb0
        && width > 8
        && width % 8 != 0
}

/// Why the layout is refused when a number is read, if it is.
pub fn refused_to_read(number_type: NumberType, layout: Layout) -> Option<DekuError> {
    if width(number_type, layout.size) > number_type.bits {
        return Some(DekuError::Parse("too much data"));
    }
    if is_uneven(number_type, layout) {
        return Some(DekuError::InvalidParam("signed big Lsb0 field of this width"));
    }
    None
}

/// Why the layout is refused when a number is written, if it is.
pub fn refused_to_write(number_type: NumberType, layout: Layout) -> Option<DekuError> {
    if width(number_type, layout.size) > number_type.bits {
        return Some(match layout.size {
            Size::Bytes(_) => DekuError::InvalidParam("byte size is larger than input"),
            _ => DekuError::InvalidParam("bit size is larger than input"),
        });
    }
    refused_to_read(number_type, layout)
}
