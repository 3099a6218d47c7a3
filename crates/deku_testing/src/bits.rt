//! Lists of truth values as streams and words, by their definition: slow, with nothing of the
//! library's but the names of orders.

ghost use Rattle.std.specs.Prelude.{◌<◌, ◌≤◌, ◌^◌};

use crate::random::Random;
use deku_bits::ctx::Order;
use deku_bits::ctx::Order::{Lsb0, Msb0};
use std::test::Fail;

/// Each number of bits of a byte that may be in front, in both orders.
pub const OFFSETS: [(usize, Order); 16] = [
    (0, Msb0),
    (0, Lsb0),
    (1, Msb0),
    (1, Lsb0),
    (2, Msb0),
    (2, Lsb0),
    (3, Msb0),
    (3, Lsb0),
    (4, Msb0),
    (4, Lsb0),
    (5, Msb0),
    (5, Lsb0),
    (6, Msb0),
    (6, Lsb0),
    (7, Msb0),
    (7, Lsb0),
];

/// The bits of BB CC DD, each byte high bit first.
pub const THREE_BYTES: [bool; 24] = [
    true, false, true, true, true, false, true, true, // BB
    true, true, false, false, true, true, false, false, // CC
    true, true, false, true, true, true, false, true, // DD
];

/// Seventeen bytes: all zeros, all ones, a high and a low bit at the edges, and four that look like
/// chance.
pub fn samples() -> [[u8; 17]; 8] {
    let mut random = Random::new();
    let mut all = [[0; 17]; 8];
    all[1] = [0xFF; 17];
    all[2] = [0x80; 17];
    all[3] = [0x01; 17];
    for bytes in all[4..].iter_mut() {
        fill(bytes, &mut random);
    }
    all
}

// Each byte is the lowest of the next number.
fn fill(bytes: &mut [u8; 17], random: &mut Random) {
    for byte in bytes.iter_mut() {
        *byte = (random.next() % 256) as u8;
    }
}

/// The number of a list whose first bit counts highest in `Msb0`, and whose last one does in
/// `Lsb0`.
pub fn group_number(order: Order, bits: &[bool]) -> u128 {
    let mut number: u128 = 0;
    for i in 0..bits.len() {
        let bit = match order {
            Msb0 => bits[i],
            Lsb0 => bits[bits.len() - 1 - i],
        };
        number = number.wrapping_add(number).wrapping_add(bit as u128);
    }
    number
}

/// The word of a list in the order in which it is met: the first group of eight counts once, each
/// further one 256 times as much.
pub fn word_of(order: Order, bits: &[bool]) -> u128 {
    let mut number: u128 = 0;
    let mut weight: u128 = 1;
    for group in bits.chunks(8) {
        number = number.wrapping_add(group_number(order, group).wrapping_mul(weight));
        weight = weight.wrapping_mul(256);
    }
    number
}

/// Whether the bits are these digits.
pub fn are_digits(bits: &[bool], digits: &str) -> bool {
    let digits = digits.as_bytes();
    if bits.len() != digits.len() {
        return false;
    }
    for i in 0..bits.len() {
        if bits[i] != (digits[i] == b'1') {
            return false;
        }
    }
    true
}

/// The bits of at most 24 digits, and how many there are.
pub fn bits_of(digits: &str) -> ([bool; 24], usize)
    ensures { result.1 ≤ 24 }
{
    let digits = digits.as_bytes();
    let len = digits.len().min(24);
    let mut bits = [false; 24];
    for i in 0..len {
        bits[i] = digits[i] == b'1';
    }
    (bits, len)
}

// Makes a group the bits of a number.
fn put_number(order: Order, number: u128, group: &mut [bool]) {
    let mut rest = number;
    for at in 0..group.len() {
        let place = match order {
            Msb0 => group.len() - 1 - at,
            Lsb0 => at,
        };
        group[place] = rest % 2 == 1;
        rest /= 2;
    }
}

/// Makes a list the bits of a word, in the order in which they are met.
pub fn put_word(order: Order, word: u128, bits: &mut [bool]) {
    let mut rest = word;
    for group in bits.chunks_mut(8) {
        put_number(order, rest % 256, group);
        rest /= 256;
    }
}

/// The word in n bits.
pub fn fitting(word: u128, n: usize) -> u128
    requires { n ≤ 128 }
    ensures { result < 2 ^ n }
{
    if n == 128 { word } else { word % (1 << n) }
}

/// Turns bits that an order met to those that are shown, highest first, and back: whole bytes each
/// by itself, others as one.
pub fn turn(order: Order, bits: &mut [bool]) {
    if order == Msb0 {
        return;
    }
    if bits.len() % 8 != 0 {
        bits.reverse();
        return;
    }
    for group in bits.chunks_mut(8) {
        group.reverse();
    }
}

/// A list of fewer than eight bits as it is shown.
pub fn shown(order: Order, list: &[bool]) -> [bool; 8] {
    let mut bits = [false; 8];
    for i in 0..list.len().min(8) {
        bits[i] = match order {
            Msb0 => list[i],
            Lsb0 => list[list.len() - 1 - i],
        };
    }
    bits
}

/// The bytes of a front and then a list, and of one bit again and again after them. A byte's bits
/// are met from the highest down in `Msb0`, and from the lowest up in `Lsb0`.
pub fn bytes_of(order: Order, front: &[bool], list: &[bool], after: bool) -> [u8; 17] {
    let mut bytes = [0; 17];
    for i in 0..136 {
        let bit = if i < front.len() {
            front[i]
        } else if i - front.len() < list.len() {
            list[i - front.len()]
        } else {
            after
        };
        if bit {
            bytes[i / 8] |= match order {
                Msb0 => 0x80 >> (i % 8),
                Lsb0 => 1 << (i % 8),
            };
        }
    }
    bytes
}

/// A reader that holds the unread bits of a byte, lowest first, and knows the byte that comes next.
#[derive(Drop)]
pub struct Slow<'b> {
    bytes: &'b [u8],
    held: [bool; 8],
    low: usize,
    high: usize,
    at: usize,
}

impl<'b> Slow<'b> {
    /// At the first of the bytes.
    pub fn new(bytes: &'b [u8]) -> Slow<'b> {
        Slow {
            bytes,
            held: [false; 8],
            low: 0,
            high: 0,
            at: 0,
        }
    }

    // Holds the bits of the next byte, if none is unread.
    fn fetch(&mut self) -> Result<(), Fail> {
        if self.low < self.high {
            return Ok(());
        }
        let Some(byte) = self.bytes.get(self.at) else {
            return Err(Fail::new(format_args!("no byte is left")));
        };
        put_number(Lsb0, u128::from(*byte), &mut self.held);
        self.low = 0;
        self.high = 8;
        self.at = self.at.wrapping_add(1);
        Ok(())
    }

    // The next bit: in `Msb0` the highest that is unread, in `Lsb0` the lowest.
    fn next(&mut self, order: Order) -> Result<bool, Fail> {
        self.fetch()?;
        let place = match order {
            Msb0 => {
                self.high = self.high.wrapping_sub(1);
                self.high
            }
            Lsb0 => {
                self.low = self.low.wrapping_add(1);
                self.low.wrapping_sub(1)
            }
        };
        match self.held.get(place) {
            Some(bit) => Ok(*bit),
            None => Err(Fail::new(format_args!("no bit {place} of a byte"))),
        }
    }

    /// Takes the next bits.
    pub fn take(&mut self, order: Order, bits: &mut [bool]) -> Result<(), Fail> {
        for bit in bits.iter_mut() {
            *bit = self.next(order)?;
        }
        Ok(())
    }

    /// Takes the word of the next n bits, at most 128.
    pub fn take_word(&mut self, order: Order, n: usize) -> Result<u128, Fail> {
        let mut bits = [false; 128];
        let met = &mut bits[..n.min(128)];
        self.take(order, met)?;
        Ok(word_of(order, met))
    }
}
