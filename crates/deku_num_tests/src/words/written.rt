//! Words that are written.

use deku_bits::ctx::Order;
use deku_bits::ctx::Order::{Lsb0, Msb0};
use deku_bits::device::Sink;
use deku_bits::error::DekuError;
use deku_bits::writer::Writer;
use deku_testing::bits::{OFFSETS, Slow, fitting, put_word, samples, turn};
use deku_testing::same::same;
use std::io::Cursor;
use std::test::Fail;

// Bits that are written in front of a word.
const FRONT: [bool; 8] = [true, false, true, true, false, false, true, true];

// How a word is written: after so many bits of an order.
#[derive(Clone, Copy)]
struct Start {
    offset: usize,
    order: Order,
}

// Writes bits and then a word, or its bits as they are shown, and what is pending: how many bits
// were counted, and how many were pending.
fn put_behind<W: Sink + Drop>(
    sink: W,
    start: Start,
    word: u128,
    n: usize,
    order: Order,
    shows: bool,
) -> Result<(usize, usize), DekuError> {
    let mut bits = [false; 128];
    let n = n.min(128);
    let mut writer = Writer::new(sink);
    writer.write_bits_order(&FRONT[..start.offset.min(8)], start.order)?;
    if shows {
        let shown = &mut bits[..n];
        put_word(order, word, shown);
        turn(order, shown);
        writer.write_bits_order(shown, order)?;
    } else {
        writer.write_word(fitting(word, n), n, order)?;
    }
    let pending = writer.leftover().0.len();
    writer.finalize()?;
    Ok((writer.bits_written(), pending))
}

// The bytes that a writer makes, how many bits are counted, and how many were pending before the
// last byte was filled.
fn made(
    start: Start,
    word: u128,
    n: usize,
    order: Order,
    shows: bool,
) -> Result<([u8; 18], usize, usize), DekuError> {
    let mut slice = [0; 18];
    let cursor = Cursor::new(slice.as_mut_slice());
    let (count, pending) = put_behind(cursor, start, word, n, order, shows)?;
    Ok((slice, count, pending))
}

// A word of n bits makes what its bits make. In one order throughout, the bits that the order meets
// after the first ones are those of the word.
fn expect_word(start: Start, word: u128, n: usize, order: Order) -> Result<(), Fail> {
    let row = (start.offset, n);
    let word = fitting(word, n.min(128));
    let written = made(start, word, n, order, false)?;
    let shown = made(start, word, n, order, true)?;
    same(&row, &written, &shown)?;
    if order == start.order {
        let mut slow = Slow::new(&written.0);
        slow.take_word(order, start.offset)?;
        same(&row, &slow.take_word(order, n)?, &word)?;
    }
    Ok(())
}

// Words of all widths in both orders, after these bits.
fn expect_words(start: Start, word: u128) -> Result<(), Fail> {
    for n in 0..=128 {
        expect_word(start, word, n, Msb0)?;
        expect_word(start, word, n, Lsb0)?;
    }
    Ok(())
}

// This word, after each offset.
fn expect_sample(word: u128) -> Result<(), Fail> {
    for (offset, order) in OFFSETS {
        expect_words(Start { offset, order }, word)?;
    }
    Ok(())
}

// The word of the first sixteen bytes, the highest first.
fn word_in(bytes: &[u8]) -> u128 {
    let mut word: u128 = 0;
    for byte in bytes.iter().take(16) {
        word = word.wrapping_mul(256).wrapping_add(u128::from(*byte));
    }
    word
}

#[test]
fn writes_words_of_each_width(_rt: HostRuntime) -> Result<(), Fail> {
    for bytes in samples() {
        expect_sample(word_in(&bytes))?;
    }
    Ok(())
}
