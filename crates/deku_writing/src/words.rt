//! Words that the bits of values make.

ghost use Rattle.std.specs.Prelude.{◌≡◌, ◌+◌, ◌++◌, ◌%◌, ◌^◌, ◌<◌};
ghost use Rattle.std.specs.Prelude.{◌≤◌, true, false, pos, IfSome, IsTrue, IsFalse};
ghost use Rattle.deku_bits.specs.Bits.{bits_of, facing};
ghost use Rattle.deku_num.specs.Numbers.{width, IsAllowed};
ghost use Rattle.deku_num.specs.NumberCalls.{WritesNumber};
ghost use Rattle.deku_writing.specs.Words.{IsWord, IsWordOf, IsJoined, WroteOne};

use crate::traits::DekuWriter;
use deku_bits::device::Sink;
use deku_bits::writer::Writer;
use deku_num::ctx::{Layout, Order};
use deku_num::cutting::number_of_bits;
use deku_num::kernel::{allowed_width, sign_extend};
use deku_num::kind::NumberType;

/// Bits as a number: the first of them is its highest in `Msb0`, and its lowest in `Lsb0`.
#[derive(Debug, Clone, Copy, PartialEq, Eq)]
pub struct Word {
    /// The number.
    pub number: u64,
    /// How many bits there are: 1 to 64.
    pub bits: usize,
    /// Whether they are those of the value. They are not if it does not fit.
    pub fits: bool,
}

impl Word {
    /// The word of these bits, and of those of another word after them. `None` if they are more
    /// than 64 together.
    #[inline(always)]
    pub(crate) fn followed_by(self, rest: Word, order: Order) -> Option<Word>
        requires first { IsWord self }
        requires rest { IsWord rest }
        ensures { IfSome result (λ w. IsJoined order self rest w) }
    {
        if self.bits + rest.bits > 64 {
            return None;
        }
        Some(Word {
            number: joined(order, self.number, self.bits, rest.number, rest.bits),
            bits: self.bits + rest.bits,
            fits: self.fits && rest.fits,
        })
    }
}

/// The word of an unsigned field with this value. `None` if the field has no bits or more than 64,
/// if its layout is rejected or in the other order, and if its bytes are reversed but its bits are
/// no whole bytes, and more than eight.
///
/// The caller's condition: the type is unsigned.
#[inline]
pub(crate) fn unsigned_word(
    value: u64,
    order: Order,
    number_type: NumberType,
    layout: Layout,
) -> Option<Word>
    requires unsigned { number_type.signed ≡ false }
    ensures { IfSome result (λ w. IsWordOf (WritesNumber number_type layout (pos value)) order w) }
{
    let width = word_width(order, number_type, layout)?;
    let lowest = low_bits(value, width);
    Some(Word {
        number: number_of_bits(lowest, width, layout.endian, order)?,
        bits: width,
        fits: lowest == value,
    })
}

/// The word of a signed field with this value, in the form of `unsigned_word`.
///
/// The caller's condition: the type is signed.
#[inline]
pub(crate) fn signed_word(
    value: i64,
    order: Order,
    number_type: NumberType,
    layout: Layout,
) -> Option<Word>
    requires signed { number_type.signed ≡ true }
    ensures { IfSome result (λ w. IsWordOf (WritesNumber number_type layout value) order w) }
{
    let width = word_width(order, number_type, layout)?;
    let lowest = low_bits(value.cast_unsigned(), width);
    Some(Word {
        number: number_of_bits(lowest, width, layout.endian, order)?,
        bits: width,
        fits: sign_extend(lowest as u128, width) == value as i128,
    })
}

// The number of the bits of two numbers, one after the other.
#[inline(always)]
fn joined(order: Order, first: u64, a: usize, second: u64, b: usize) -> u64
    requires some { 0 < a }
    requires more { 0 < b }
    requires most { a + b ≤ 64 }
    requires first { first < 2 ^ a }
    requires second { second < 2 ^ b }
    ensures inside { result < 2 ^ (a + b) }
    ensures bits { facing order (bits_of (a + b) result) ≡ facing order (bits_of a first) ++ facing
        order (bits_of b second) }
{
    match order {
        Order::Msb0 => (first << b) + second,
        Order::Lsb0 => first + (second << a),
    }
}

// The n lowest bits of a number.
#[inline(always)]
fn low_bits(number: u64, n: usize) -> u64
    requires some { 0 < n }
    requires few { n ≤ 64 }
    ensures { result ≡ number % 2 ^ n }
{
    (number << (64 - n)) >> (64 - n)
}

// How many bits a field has, if they are 1 to 64 and in this order.
#[inline(always)]
fn word_width(order: Order, number_type: NumberType, layout: Layout) -> Option<usize>
    ensures some { IfSome result (λ n. 0 < n) }
    ensures few { IfSome result (λ n. n ≤ 64) }
    ensures wide { IfSome result (λ n. n ≡ width number_type layout) }
    ensures order { IfSome result (λ n. layout.order ≡ order) }
    ensures ok { IfSome result (λ n. IsAllowed number_type layout) }
{
    let Ok(width) = allowed_width(number_type, layout) else {
        return None;
    };
    if width == 0 || width > 64 {
        return None;
    }
    match (order, layout.order) {
        (Order::Msb0, Order::Msb0) | (Order::Lsb0, Order::Lsb0) => Some(width),
        _ => None,
    }
}

/// Writes one of two words, the first in `Msb0` and the second in `Lsb0`, if there is one, it fits,
/// and the sink has room in memory for it. Returns whether it did; if not, nothing changes.
#[inline(always)]
pub(crate) fn try_write_word<W: Sink>(
    high: Option<Word>,
    low: Option<Word>,
    writer: &mut Writer<W>,
) -> bool
    requires high { IfSome high (λ w. IsWord w) }
    requires low { IfSome low (λ w. IsWord w) }
    ensures writes { IsTrue result → WroteOne W.known high low writer.old writer.new }
    ensures stays { IsFalse result → writer.new ≡ writer.old }
{
    let (word, order) = match (high, low) {
        (Some(word), _) => (word, Order::Msb0),
        (None, Some(word)) => (word, Order::Lsb0),
        (None, None) => return false,
    };
    word.fits && writer.try_write_number(word.number, word.bits, order)
}
