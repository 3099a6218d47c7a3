//! Up to seven bits, packed.

ghost use Rattle.std.specs.Prelude.{◌≡◌, ◌+◌, ◌-◌, ◌/◌, ◌%◌, ◌^◌};
ghost use Rattle.std.specs.Prelude.{◌<◌, ◌≤◌, [], ◌∷◌, ◌++◌, length, take};
ghost use Rattle.deku_stream.specs.declared.ctx.Order.TheVariants.{Msb0};
ghost use Rattle.deku_stream.specs.Bits.{bits_of, byte_bits, facing};
ghost use Rattle.deku_writer.specs.Pushing.{word_bits, Fills, given};

use super::joined::{cut_word, join_number, number_of_word};
use deku_stream::byte::bits_of_byte;
use deku_stream::ctx::Order;
use std::marker::Model;

/// Up to seven bits, packed into their number, with the first bit as the highest.
#[derive(Drop)]
pub struct Held {
    number: u8,
    len: usize,
}

impl Model for Held {
    ghost use Rattle.std.specs.Prelude.{◌<◌, ◌^◌, List, Bool};
    ghost use Rattle.deku_stream.specs.Bits.{bits_of};

    ghost Value = { List Bool };

    ghost view = { λ a. bits_of a.len a.number };

    ghost invariant = { λ a. (a.len < 8) × (a.number < 2 ^ a.len) };
}

impl Held {
    /// No bits.
    #[tactic(auto, unfolding(deku_stream::specs::Bits::bits_of))]
    #[inline(always)]
    pub fn new() -> Held
        ensures { result ≡ [] }
    {
        Held { number: 0, len: 0 }
    }

    /// How many bits there are. The compiler also knows that they are fewer than eight, so it
    /// knows how many bytes a field of whole bytes fills.
    #[tactic(auto, using(deku_stream::proofs::Packed::lengths))]
    #[inline(always)]
    pub fn len(&self) -> usize
        ensures length { result ≡ length self.now }
        ensures most { result < 8 }
    {
        self.len % 8
    }

    /// Returns the same bits.
    #[inline(always)]
    pub fn copy(&self) -> Held
        ensures { result ≡ self.now }
    {
        Held {
            number: self.number,
            len: self.len,
        }
    }

    /// Holds the bits of `next` instead of its own. Their count comes from the caller, who knows it
    /// whichever way they came, so that the compiler knows it too. Each part is set by itself, so
    /// that nothing between the parts in memory is moved.
    ///
    /// The caller's condition: `len` is the count of the bits of `next`.
    #[inline(always)]
    pub fn follow(&mut self, next: Held, len: usize)
        requires { len ≡ length next }
        ensures { self.new ≡ next }
    {
        self.number = next.number;
        self.len = len;
    }

    /// The bits, the high bit first, with zeros after them.
    pub fn bits(&self) -> [bool; 8]
        ensures { take (length self.now) result ≡ self.now }
    {
        bits_of_byte(((self.number as u16) << (8 - self.len)) as u8)
    }

    /// Adds a whole byte after the held bits, in this order. The first eight bits go out as a byte,
    /// and as many are held as before.
    pub fn pass(&mut self, order: Order, byte: u8) -> u8
        ensures fills { Fills order self.old self.new (facing order (byte_bits byte))
            (result ∷ []) }
        ensures len { length self.new ≡ length self.old }
    {
        let joined = join(order, self.number, self.len, byte, 8);
        let (first, behind) = split(order, joined, self.len + 8);
        self.number = behind;
        first
    }

    /// Adds a word of n bits after the held bits. Returns the bytes that fill, as the first of
    /// eight, and how many there are. The bits after them are held.
    ///
    /// The caller's condition: the held bits and the word are at most 64 bits together.
    #[inline(always)]
    pub fn fill(&mut self, order: Order, word: u64, n: usize) -> ([u8; 8], usize)
        requires some { 0 < n }
        requires most { length self.old + n ≤ 64 }
        requires inside { word < 2 ^ n }
        ensures fills { Fills order self.old self.new (word_bits order n word)
            (take result.1 result.0) }
        ensures count { result.1 ≡ (length self.old + n) / 8 }
        ensures rest { length self.new ≡ (length self.old + n) % 8 }
    {
        self.fill_number(order, number_of_word(order, word, n), n)
    }

    /// Adds the bits of a number in this order after the held bits. Returns the bytes that fill, as
    /// the first of eight, and how many there are. The bits after them are held.
    ///
    /// The caller's condition: the held bits and the number are at most 64 bits together.
    #[inline(always)]
    pub fn fill_number(&mut self, order: Order, number: u64, n: usize) -> ([u8; 8], usize)
        requires some { 0 < n }
        requires most { length self.old + n ≤ 64 }
        requires inside { number < 2 ^ n }
        ensures fills { Fills order self.old self.new (facing order (bits_of n number))
            (take result.1 result.0) }
        ensures count { result.1 ≡ (length self.old + n) / 8 }
        ensures rest { length self.new ≡ (length self.old + n) % 8 }
    {
        let before = self.len();
        let all = before + n;
        let joined = join_number(order, self.number, before, number, n);
        let (eight, last) = cut_word(order, joined, all);
        self.number = last;
        self.len = all % 8;
        (eight, all / 8)
    }

    /// Adds a group of at most eight bits after the held bits, in this order. If there are eight
    /// bits then, the first eight go out as a byte.
    pub fn push(&mut self, order: Order, group: u8, n: usize) -> Option<u8>
        requires size { n ≤ 8 }
        requires inside { group < 2 ^ n }
        ensures { Fills order self.old self.new (facing order (bits_of n group)) (given result) }
    {
        let joined = join(order, self.number, self.len, group, n);
        let len = self.len + n;
        if len < 8 {
            self.number = joined as u8;
            self.len = len;
            return None;
        }
        let (byte, behind) = split(order, joined, len);
        self.number = behind;
        self.len = len - 8;
        Some(byte)
    }
}

// The number of two groups of bits, one after the other in this order.
fn join(order: Order, first: u8, a: usize, second: u8, b: usize) -> u16
    requires short { a < 8 }
    requires size { b ≤ 8 }
    requires first { first < 2 ^ a }
    requires second { second < 2 ^ b }
    ensures inside { result < 2 ^ (a + b) }
    ensures bits { facing order (bits_of (a + b) result) ≡ facing order (bits_of a first) ++ facing
        order (bits_of b second) }
{
    match order {
        Order::Msb0 => ((first as u16) << b) + second as u16,
        Order::Lsb0 => first as u16 + ((second as u16) << a),
    }
}

// The first eight bits in this order, and the number of those after them.
fn split(order: Order, joined: u16, n: usize) -> (u8, u8)
    requires whole { 8 ≤ n }
    requires short { n < 16 }
    requires inside { joined < 2 ^ n }
    ensures inside { result.1 < 2 ^ (n - 8) }
    ensures bits { facing order (bits_of n joined) ≡ facing order (byte_bits result.0) ++ facing
        order (bits_of (n - 8) result.1) }
{
    let behind = n - 8;
    match order {
        Order::Msb0 => ((joined >> behind) as u8, (joined % (1 << behind)) as u8),
        Order::Lsb0 => ((joined % 256) as u8, (joined >> 8) as u8),
    }
}
