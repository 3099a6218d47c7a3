//! Words that are given out through held bits.

ghost use Rattle.std.specs.Prelude.{◌≡◌, ◌↔◌, ◌<◌, ◌≤◌, ◌+◌, ◌*◌};
ghost use Rattle.std.specs.Prelude.{◌/◌, ◌%◌, ◌^◌, ◌⊎◌, length, take, IsTrue};
ghost use Rattle.std.specs.Prelude.{IsFalse, OnOk, IfErr};
ghost use Rattle.deku_device.specs.Devices.{Gave};
ghost use Rattle.deku_stream.specs.Bits.{bits_of, facing, shown};
ghost use Rattle.deku_stream.specs.Streams.{flow};
ghost use Rattle.deku_writer.specs.Pushing.{low_bytes, onto_bytes, word_bits, Fills, FillsOnto};
ghost use Rattle.deku_writer.specs.Pushing.{GaveUp, PushedOnto};

use super::held::Held;
use super::pushing::{give_any, give_out, push_onto};
use deku_device::device::Sink;
use deku_stream::byte::bits_of_byte;
use deku_stream::ctx::Order;
use deku_stream::turning::show;
use std::io::{Cursor, ErrorKind};

// Moves seven bytes of a word at a time through held bits, the low byte first: as many bytes go out
// as come in. Returns what is left of the word.
fn shift_word(out: &mut [u8; 16], held: &mut Held, order: Order, word: u128, parts: usize) -> u128
    requires short { length held.old < 8 }
    requires room { parts ≤ 2 }
    ensures fills { Fills order held.old held.new (flow order (low_bytes (7 * parts) word))
        (take (7 * parts) out.new) }
    ensures rest { result ≡ word / 2 ^ (56 * parts) }
{
    let mut rest = word;
    for i in 0..parts {
        let (eight, _) = held.fill(order, (rest % (1 << 56)) as u64, 56);
        out[7 * i..7 * i + 7].copy_from_slice(&eight[..7]);
        rest >>= 56;
    }
    rest
}

// Adds a word of n bits after held bits: gives the bytes that fill.
fn fill_word(out: &mut [u8; 16], held: &mut Held, order: Order, word: u128, n: usize)
    requires some { 0 < n }
    requires short { length held.old < 8 }
    requires most { n ≤ 128 }
    requires inside { word < 2 ^ n }
    ensures fills { Fills order held.old held.new (word_bits order n word)
        (take ((length held.old + n) / 8) out.new) }
{
    let parts = (n - 1) / 56;
    let rest = shift_word(out, held, order, word, parts);
    let (eight, count) = held.fill(order, rest as u64, n - 56 * parts);
    out[7 * parts..7 * parts + count].copy_from_slice(&eight[..count]);
}

// The bits of a group of at most eight, in this order.
fn bits_of_group(order: Order, group: u8, n: usize) -> [bool; 8]
    requires size { n ≤ 8 }
    requires inside { group < 2 ^ n }
    ensures { take n result ≡ facing order (bits_of n group) }
{
    let mut bits = bits_of_byte(((group as u16) << (8 - n)) as u8);
    match order {
        Order::Msb0 => {}
        Order::Lsb0 => bits[..n].reverse(),
    }
    bits
}

// The bits of a word, in this order.
fn bits_of_word(bits: &mut [bool; 128], order: Order, word: u128, n: usize)
    requires most { n ≤ 128 }
    requires inside { word < 2 ^ n }
    ensures { take n bits.new ≡ word_bits order n word }
{
    let whole = n / 8;
    let mut rest = word;
    for i in 0..whole {
        bits[8 * i..8 * i + 8].copy_from_slice(&bits_of_group(order, (rest % 256) as u8, 8));
        rest >>= 8;
    }
    let last = bits_of_group(order, rest as u8, n % 8);
    bits[8 * whole..n].copy_from_slice(&last[..n % 8]);
}

// Whether two orders are the same.
#[inline(always)]
fn is_same(from: Order, to: Order) -> bool
    ensures { IsTrue result ↔ (from ≡ to) }
{
    matches!(
        (from, to),
        (Order::Msb0, Order::Msb0) | (Order::Lsb0, Order::Lsb0)
    )
}

/// Whether bits of an order follow held bits unchanged: there are none, or they are of the same
/// order.
#[inline(always)]
pub fn is_behind(held: &Held, from: Order, to: Order) -> bool
    ensures { IsTrue result ↔ ((length held.now ≡ 0) ⊎ (from ≡ to)) }
{
    held.len() == 0 || is_same(from, to)
}

// Adds a word of n bits to held bits of an order, which may be the other one: gives the bytes that
// fill.
fn fill_other(out: &mut [u8], held: &mut Held, from: Order, to: Order, word: u128, n: usize)
    requires some { 0 < n }
    requires short { length held.old < 8 }
    requires most { n ≤ 128 }
    requires inside { word < 2 ^ n }
    requires room { 16 ≤ length out.old }
    ensures fills { FillsOnto from to held.old held.new (shown to (word_bits to n word))
        (take ((length held.old + n) / 8) out.new) }
    ensures len { length out.new ≡ length out.old }
{
    let mut bits = [false; 128];
    bits_of_word(&mut bits, to, word, n);
    let bits = &mut bits[..n];
    show(bits, to);
    let mut room = Cursor::new(out);
    match push_onto(&mut room, held, from, to, bits) {
        Ok(()) => {}
        Err(_) => unreachable!(),
    }
}

// Adds a word of n bits, of any length, to the held bits of an order. Returns the bytes that fill,
// as the first of sixteen, and the bits that are held then. It takes and returns values only, so
// that the caller's writer stays in registers.
#[cold]
#[inline(never)]
fn fill_long_word(held: Held, from: Order, to: Order, word: u128, n: usize) -> ([u8; 16], Held)
    requires some { 0 < n }
    requires short { length held < 8 }
    requires most { n ≤ 128 }
    requires inside { word < 2 ^ n }
    ensures fills { FillsOnto from to held result.1 (shown to (word_bits to n word))
        (take ((length held + n) / 8) result.0) }
{
    let mut next = held;
    if next.len() == 0 && n % 8 == 0 {
        return (word.to_le_bytes(), next);
    }
    let mut out = [0; 16];
    if is_behind(&next, from, to) {
        fill_word(&mut out, &mut next, to, word, n);
        return (out, next);
    }
    fill_other(&mut out, &mut next, from, to, word, n);
    (out, next)
}

// Adds a word of n bits, of any length, to the held bits of an order, for any sink. It is inlined,
// so that its space for the bytes is cleared only when they are asked for, and the call that asks
// for them is cold.
#[inline(always)]
fn push_long_word<W: Sink>(
    sink: &mut W,
    held: &mut Held,
    from: Order,
    to: Order,
    word: u128,
    n: usize,
) -> Result<(), ErrorKind>
    requires some { 0 < n }
    requires short { length held.old < 8 }
    requires most { n ≤ 128 }
    requires inside { word < 2 ^ n }
    ensures pushed { OnOk result (PushedOnto (W.known sink.old) (W.known sink.new) from to held.old
        held.new (shown to (word_bits to n word))) }
    ensures fault { IfErr result (GaveUp (W.known sink.old) (W.known sink.new)
        (onto_bytes from to held.old (shown to (word_bits to n word)))) }
{
    let filled = (held.len() + n) / 8;
    let behind = (held.len() + n % 8) % 8;
    let (bytes, next) = fill_long_word(held.copy(), from, to, word, n);
    held.follow(next, behind);
    give_any(sink, &bytes[..filled])
}

// Gives out a word of whole bytes at once, the low byte first.
#[inline(always)]
fn give_whole<W: Sink>(sink: &mut W, word: u128, n: usize) -> Result<(), ErrorKind>
    requires some { 0 < n }
    requires whole { n % 8 ≡ 0 }
    requires most { n ≤ 128 }
    ensures gave { OnOk result (Gave (W.known sink.old) (W.known sink.new)
        (low_bytes (n / 8) word)) }
    ensures fault { IfErr result (GaveUp (W.known sink.old) (W.known sink.new)
        (low_bytes (n / 8) word)) }
{
    give_out(sink, &word.to_le_bytes()[..n / 8])
}

// Puts a word of at most eight whole bytes into the sink, the low byte first, if it has room in
// memory for eight bytes. Returns whether it has.
#[inline(always)]
fn lay_whole<W: Sink>(sink: &mut W, word: u64, n: usize) -> bool
    requires whole { n % 8 ≡ 0 }
    requires most { n ≤ 64 }
    ensures gave { IsTrue result → Gave (W.known sink.old) (W.known sink.new)
        (low_bytes (n / 8) word) }
    ensures stays { IsFalse result → sink.new ≡ sink.old }
{
    sink.try_put(word.to_le_bytes(), n / 8)
}

/// Adds a word of n bits to the held bits of an order. If they are at most 64 bits together, and
/// the sink has room in memory for eight bytes, they are put there. Longer words of whole bytes are
/// given as they are, if no bits are held.
#[inline(always)]
pub fn push_word_onto<W: Sink>(
    sink: &mut W,
    held: &mut Held,
    from: Order,
    to: Order,
    word: u128,
    n: usize,
) -> Result<(), ErrorKind>
    requires some { 0 < n }
    requires short { length held.old < 8 }
    requires most { n ≤ 128 }
    requires inside { word < 2 ^ n }
    ensures pushed { OnOk result (PushedOnto (W.known sink.old) (W.known sink.new) from to held.old
        held.new (shown to (word_bits to n word))) }
    ensures fault { IfErr result (GaveUp (W.known sink.old) (W.known sink.new)
        (onto_bytes from to held.old (shown to (word_bits to n word)))) }
{
    if held.len() == 0 && n % 8 == 0 {
        if n > 64 {
            return give_whole(sink, word, n);
        }
        if lay_whole(sink, word as u64, n) {
            return Ok(());
        }
    } else if held.len() + n <= 64 && is_behind(held, from, to) {
        let left = (held.len() + n % 8) % 8;
        let mut next = held.copy();
        let (eight, count) = next.fill(to, word as u64, n);
        if sink.try_put(eight, count) {
            held.follow(next, left);
            return Ok(());
        }
    }
    push_long_word(sink, held, from, to, word, n)
}
