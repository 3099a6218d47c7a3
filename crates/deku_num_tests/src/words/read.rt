//! Words that are read.

use deku_bits::ctx::Order;
use deku_bits::ctx::Order::{Lsb0, Msb0};
use deku_bits::device::Source;
use deku_bits::error::DekuError;
use deku_bits::reader::Reader;
use deku_testing::bits::{OFFSETS, Slow, samples, turn, word_of};
use deku_testing::same::same;
use std::alloc::Global;
use std::io::Cursor;
use std::test::Fail;

// How a word is read: after so many bits of an order, or after a look for the end.
#[derive(Clone, Copy)]
struct Start {
    offset: usize,
    order: Order,
    looks: bool,
}

// A reader over the source looks for the end or reads so many bits; then it reads the word, or its
// bits as they are shown: the word, how many bits are read then, and the source.
fn read_from<R: Source + Drop>(
    alloc: Global,
    source: R,
    start: Start,
    n: usize,
    order: Order,
    shows: bool,
) -> Result<(u128, usize, R), DekuError> {
    let mut reader = Reader::new(alloc, source);
    let mut bits = [false; 128];
    if start.looks && reader.end()? {
        return Err(DekuError::Assertion("the end"));
    }
    reader.read_bits_into(&mut bits[..start.offset.min(8)], start.order)?;
    let n = n.min(128);
    let word = if shows {
        let shown = &mut bits[..n];
        reader.read_bits_into(shown, order)?;
        turn(order, shown);
        word_of(order, shown)
    } else {
        reader.read_word(n, order)?
    };
    let count = reader.bits_read();
    Ok((word, count, reader.into_inner()))
}

// The word, how many bits are read then, and the position of the source.
fn read_bytes(
    alloc: Global,
    bytes: &[u8],
    start: Start,
    n: usize,
    order: Order,
    shows: bool,
) -> Result<(u128, usize, u64), DekuError> {
    let source = Cursor::new(bytes);
    let (word, count, source) = read_from(alloc, source, start, n, order, shows)?;
    Ok((word, count, source.position()))
}

// A word of n bits is that of the bits that are met, and of those that a read of as many bits
// shows.
fn expect_word(
    alloc: Global,
    bytes: &[u8],
    start: Start,
    n: usize,
    order: Order,
) -> Result<(), Fail> {
    let mut slow = Slow::new(bytes);
    slow.take_word(start.order, start.offset)?;
    let word = slow.take_word(order, n)?;
    let count = start.offset.wrapping_add(n);
    let place = count.div_ceil(8).max(start.looks as usize) as u64;
    let want = (word, count, place);
    let read = read_bytes(alloc, bytes, start, n, order, false)?;
    let shown = read_bytes(alloc, bytes, start, n, order, true)?;
    same(&(start.offset, n), &(read, shown), &(want, want))
}

// Words of all widths in both orders, after these bits.
fn expect_words(alloc: Global, bytes: &[u8], start: Start) -> Result<(), Fail> {
    for n in 0..=128 {
        expect_word(alloc, bytes, start, n, Msb0)?;
        expect_word(alloc, bytes, start, n, Lsb0)?;
    }
    Ok(())
}

// Words of these bytes, after each offset, and after a look for the end.
fn expect_sample(alloc: Global, bytes: &[u8]) -> Result<(), Fail> {
    let mut start = Start {
        offset: 0,
        order: Msb0,
        looks: true,
    };
    expect_words(alloc, bytes, start)?;
    start.looks = false;
    for (offset, order) in OFFSETS {
        start.offset = offset;
        start.order = order;
        expect_words(alloc, bytes, start)?;
    }
    Ok(())
}

#[test]
fn reads_words_of_each_width(rt: HostRuntime) -> Result<(), Fail> {
    for bytes in samples() {
        expect_sample(rt.alloc(), &bytes)?;
    }
    Ok(())
}
