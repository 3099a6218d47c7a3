//! The unread part of one byte.

ghost use Rattle.std.specs.Prelude.{◌≡◌, ◌+◌, ◌*◌, ◌/◌, ◌%◌, ◌^◌};
ghost use Rattle.std.specs.Prelude.{◌<◌, ◌≤◌, ◌-◌, [], ◌∷◌, ◌++◌, length};
ghost use Rattle.std.specs.Prelude.{take, drop, All};
ghost use Rattle.std.specs.Int.{w64, to_le_bytes};
ghost use Rattle.deku_stream.specs.declared.ctx.Order.{Order as BitOrder};
ghost use Rattle.deku_stream.specs.Bits.{bits_of, byte_bits, facing, groups, word_of};
ghost use Rattle.deku_stream.specs.Moving.{GivesGroup, TakesWord};
ghost use Rattle.deku_stream.specs.Streams.{flow};

use crate::byte::bits_of_byte;
use crate::ctx::Order;
use std::marker::Model;

/// Unread bits of one byte, as a number of `len` bits, of which the first is the highest.
#[derive(Drop)]
pub struct Window {
    bits: u8,
    len: usize,
}

impl Model for Window {
    ghost use Rattle.std.specs.Prelude.{◌≤◌, ◌<◌, ◌^◌, Bool, List};
    ghost use Rattle.deku_stream.specs.Bits.{bits_of};

    ghost Value = { List Bool };

    ghost view = { λ w. bits_of w.len w.bits };

    ghost invariant = { λ w. (w.len ≤ 8) × (w.bits < 2 ^ w.len) };
}

impl Window {
    /// No bits.
    #[tactic(auto, unfolding(crate::specs::Bits::bits_of))]
    pub fn empty() -> Window
        ensures { result ≡ [] }
    {
        Window { bits: 0, len: 0 }
    }

    /// The eight bits of a byte.
    #[tactic(auto, unfolding(crate::specs::Bits::byte_bits, crate::specs::Bits::bits_of))]
    pub fn of_byte(byte: u8) -> Window
        ensures bits { result ≡ byte_bits byte }
        ensures count { length result ≡ 8 }
    {
        Window { bits: byte, len: 8 }
    }

    /// Returns the same bits.
    pub fn copy(&self) -> Window
        ensures { result ≡ self.now }
    {
        Window {
            bits: self.bits,
            len: self.len,
        }
    }

    /// Returns the same bits. The caller says how many there are, so that the compiler knows it
    /// wherever the caller computes it from constants.
    #[inline(always)]
    pub fn counted(self, len: usize) -> Window
        requires { len ≡ length self }
        ensures { result ≡ self }
    {
        Window {
            bits: self.bits,
            len,
        }
    }

    /// How many bits are unread.
    pub fn len(&self) -> usize
        ensures value { result ≡ length self.now }
        ensures bound { result ≤ 8 }
    {
        self.len
    }

    /// Eight bits, of which the last are the unread ones.
    pub fn in_eight(&self) -> [bool; 8]
        ensures { drop (8 - length self.now) result ≡ self.now }
    {
        bits_of_byte(self.bits)
    }

    /// The byte. All its bits have to be unread.
    pub fn byte(&self) -> u8
        requires { length self.now ≡ 8 }
        ensures { byte_bits result ≡ self.now }
    {
        self.bits
    }

    /// Takes the next `count` bits in this order, and returns their number.
    #[inline]
    pub fn take(&mut self, count: usize, order: Order) -> u8
        requires { count ≤ length self.old }
        ensures { GivesGroup order count self.old result self.new }
    {
        match order {
            Order::Msb0 => self.take_high(count),
            Order::Lsb0 => self.take_low(count),
        }
    }

    #[inline(always)]
    fn take_high(&mut self, count: usize) -> u8
        requires { count ≤ length self.old }
        ensures { GivesGroup Order.Msb0 count self.old result self.new }
    {
        let left = self.len - count;
        let (high, low) = split(self.bits as u16, left);
        self.bits = low;
        self.len = left;
        high
    }

    #[inline(always)]
    fn take_low(&mut self, count: usize) -> u8
        requires { count ≤ length self.old }
        ensures { GivesGroup Order.Lsb0 count self.old result self.new }
    {
        let (high, low) = split(self.bits as u16, count);
        self.bits = high;
        self.len -= count;
        low
    }

    /// Takes the next `count` bits in this order, with those of these eight bytes after the unread
    /// ones, and returns their word. The rest of the last byte that they need is then unread.
    #[inline(always)]
    pub fn take_across(&mut self, eight: &[u8; 8], count: usize, order: Order) -> u64
        requires short { length self.old < 8 }
        requires more { length self.old < count }
        requires few { count ≤ 64 }
        ensures { TakesWord order self.old (take (groups (count - length self.old)) eight.now) count
            result self.new }
    {
        match order {
            Order::Msb0 => {
                let number = self.across_high(u64::from_be_bytes(*eight), count);
                word_of_high(number, count)
            }
            Order::Lsb0 => self.across_low(u64::from_le_bytes(*eight), count),
        }
    }

    /// Takes the next `count` bits, the high bits first, with those of these eight bytes after the
    /// unread ones, and returns their number. The rest of the last byte that they need is then
    /// unread.
    #[inline]
    pub fn take_high_across(&mut self, eight: &[u8; 8], count: usize) -> u64
        requires short { length self.old < 8 }
        requires more { length self.old < count }
        requires few { count ≤ 64 }
        ensures below { result < 2 ^ count }
        ensures cut { self.old ++ flow Order.Msb0 (take (groups (count - length self.old))
            eight.now) ≡ bits_of count result ++ self.new }
    {
        let number = u64::from_be_bytes(*eight);
        // Whole bytes leave no bit unread, if none was unread.
        if self.len == 0 && count % 8 == 0 {
            return number >> (64 - count);
        }
        self.across_high(number, count)
    }

    /// Takes the next `count` bits, the low bits first, as `take_high_across` does the high ones.
    #[inline]
    pub fn take_low_across(&mut self, eight: &[u8; 8], count: usize) -> u64
        requires short { length self.old < 8 }
        requires more { length self.old < count }
        requires few { count ≤ 64 }
        ensures below { result < 2 ^ count }
        ensures cut { facing Order.Lsb0 self.old ++ flow Order.Lsb0
            (take (groups (count - length self.old)) eight.now) ≡ facing Order.Lsb0
            (bits_of count result) ++ facing Order.Lsb0 self.new }
    {
        // Whole bytes leave no bit unread, if none was unread.
        if self.len == 0 && count % 8 == 0 {
            return word_of_front(eight, count);
        }
        self.across_low(u64::from_le_bytes(*eight), count)
    }

    // The number of the next bits, with the high bits of `eight` after the unread ones.
    #[inline(always)]
    fn across_high(&mut self, eight: u64, count: usize) -> u64
        requires short { length self.old < 8 }
        requires more { length self.old < count }
        requires few { count ≤ 64 }
        ensures below { result < 2 ^ count }
        ensures cut { self.old ++ bits_of (8 * groups (count - length self.old))
            (eight / 2 ^ (64 - 8 * groups (count - length self.old))) ≡ bits_of count result ++
            self.new }
    {
        let behind = count - self.len;
        let above = 64 - behind;
        let spare = above % 8;
        // If none is unread there is nothing to shift, even by 64.
        let held = (self.bits as u64) << (behind % 64);
        let rest = (eight >> (above - spare)) % (1 << spare);
        self.bits = rest as u8;
        self.len = spare;
        held + (eight >> above)
    }

    // The number of the next bits, with the low bits of `eight` before the unread ones.
    #[inline(always)]
    fn across_low(&mut self, eight: u64, count: usize) -> u64
        requires short { length self.old < 8 }
        requires more { length self.old < count }
        requires few { count ≤ 64 }
        ensures below { result < 2 ^ count }
        ensures cut { bits_of (8 * groups (count - length self.old)) eight ++ self.old ≡ self.new ++
            bits_of count result }
    {
        let behind = count - self.len;
        let above = 64 - behind;
        let spare = above % 8;
        let low = (eight << above) >> above;
        let number = (low << self.len) + self.bits as u64;
        // Of 64 bits none is left, even if the shift does nothing.
        let rest = (eight >> (behind % 64)) % (1 << spare);
        self.bits = rest as u8;
        self.len = spare;
        number
    }

    /// Takes the next bit in this order.
    pub fn pop(&mut self, order: Order) -> bool
        requires { 0 < length self.old }
        ensures { facing order self.old ≡ result ∷ facing order self.new }
    {
        self.take(1, order) == 1
    }

    /// Takes the next eight bits in this order, with those of this byte after the unread ones, as a
    /// byte. The same number of bits is then unread.
    pub fn exchange(&mut self, byte: u8, order: Order) -> u8
        ensures bits { facing order self.old ++ facing order (byte_bits byte) ≡ facing order
            (byte_bits result) ++ facing order self.new }
        ensures len { length self.new ≡ length self.old }
    {
        match order {
            Order::Msb0 => self.exchange_high(byte),
            Order::Lsb0 => self.exchange_low(byte),
        }
    }

    fn exchange_high(&mut self, byte: u8) -> u8
        ensures bits { self.old ++ byte_bits byte ≡ byte_bits result ++ self.new }
        ensures len { length self.new ≡ length self.old }
    {
        let (high, low) = split(joined(self.bits, byte, 8), self.len);
        self.bits = low;
        high
    }

    // The bits that are unread then come from this byte only, so that no byte of a run waits for
    // the one before it.
    fn exchange_low(&mut self, byte: u8) -> u8
        ensures bits { byte_bits byte ++ self.old ≡ self.new ++ byte_bits result }
        ensures len { length self.new ≡ length self.old }
    {
        let (high, low) = split(byte as u16, 8 - self.len);
        let whole = joined(low, self.bits, self.len);
        self.bits = high;
        whole as u8
    }

    /// Takes the next 64 bits in this order, with those of these eight bytes after the unread ones,
    /// as eight bytes. The same number of bits is then unread.
    #[inline(always)]
    pub fn exchange_eight(&mut self, eight: &[u8; 8], order: Order) -> [u8; 8]
        ensures bits { facing order self.old ++ flow order eight.now ≡ flow order result ++ facing
            order self.new }
        ensures bytes { All (λ b. b < 256) result }
        ensures len { length self.new ≡ length self.old }
    {
        // One number for both orders, so that its bytes stay together in a register.
        let word = self.word_through(eight, order);
        word.to_le_bytes()
    }

    // The next 64 bits in this order, with those of these eight bytes after the unread ones, as a
    // number whose low byte is the first.
    #[inline(always)]
    fn word_through(&mut self, eight: &[u8; 8], order: Order) -> u64
        ensures bits { facing order self.old ++ flow order eight.now ≡ flow order
            (to_le_bytes w64 result) ++ facing order self.new }
        ensures len { length self.new ≡ length self.old }
    {
        match order {
            Order::Msb0 => {
                let number = self.through_high(u64::from_be_bytes(*eight));
                number.swap_bytes()
            }
            Order::Lsb0 => self.through_low(u64::from_le_bytes(*eight)),
        }
    }

    // The number of the next 64 bits, with those of this number after the unread ones.
    #[inline(always)]
    fn through_high(&mut self, eight: u64) -> u64
        ensures bits { self.old ++ bits_of 64 eight ≡ bits_of 64 result ++ self.new }
        ensures len { length self.new ≡ length self.old }
    {
        // If none is unread there is nothing to shift, even by 64.
        let held = (self.bits as u64) << ((64 - self.len) % 64);
        let rest = eight % (1 << self.len);
        self.bits = rest as u8;
        held + (eight >> self.len)
    }

    // The number of the next 64 bits, with those of this number before the unread ones.
    #[inline(always)]
    fn through_low(&mut self, eight: u64) -> u64
        ensures bits { bits_of 64 eight ++ self.old ≡ self.new ++ bits_of 64 result }
        ensures len { length self.new ≡ length self.old }
    {
        let number = (eight << self.len) + self.bits as u64;
        // If none is unread none is left, even if the shift does nothing.
        let rest = (eight >> ((64 - self.len) % 64)) % (1 << self.len);
        self.bits = rest as u8;
        number
    }
}

// The number of bits whose last `count` have the number `low`, and whose others have the number
// `high`.
#[tactic(auto, using(crate::proofs::Packed::byte_shifted, crate::proofs::Windows::with_low))]
fn joined(high: u8, low: u8, count: usize) -> u16
    requires few { count ≤ 8 }
    requires below { low < 2 ^ count }
    ensures value { result ≡ high * 2 ^ count + low }
    ensures fits { result < 2 ^ 8 * 2 ^ count }
{
    let above = (high as u16) << count;
    above + low as u16
}

/// The word of whole bytes, the first of these eight, in each order. If no bit is unread, they are
/// the next bits.
#[inline(always)]
pub fn word_of_front(eight: &[u8; 8], count: usize) -> u64
    requires whole { count % 8 ≡ 0 }
    requires some { 0 < count }
    requires few { count ≤ 64 }
    ensures { (order : BitOrder) → TakesWord order [] (take (groups count) eight.now) count result
        [] }
{
    let above = 64 - count;
    (u64::from_le_bytes(*eight) << above) >> above
}

// The word of `count` bits, the high bits first, from their number: the whole bytes are reversed,
// and the bits after them follow.
#[inline(always)]
fn word_of_high(number: u64, count: usize) -> u64
    requires few { count ≤ 64 }
    requires below { number < 2 ^ count }
    ensures { result ≡ word_of Order.Msb0 (bits_of count number) }
{
    if count < 8 {
        return number;
    }
    let behind = count % 8;
    let whole = count - behind;
    let turned = (number >> behind).swap_bytes() >> (64 - whole);
    // After 64 bits there is nothing to shift.
    let last = (number % (1 << behind)) << (whole % 64);
    turned + last
}

// The numbers of the bits before the last `count` ones, and of the last ones.
#[inline(always)]
fn split(bits: u16, count: usize) -> (u8, u8)
    requires few { count ≤ 8 }
    requires below { bits < 2 ^ 8 * 2 ^ count }
    ensures high { result.0 ≡ bits / 2 ^ count }
    ensures low { result.1 ≡ bits % 2 ^ count }
{
    ((bits >> count) as u8, (bits % (1 << count)) as u8)
}
