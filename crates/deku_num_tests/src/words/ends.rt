//! Words near the end of the bytes, with the next eight in memory or not, against a source that has
//! none in memory.

use deku_bits::ctx::Order;
use deku_bits::ctx::Order::{Lsb0, Msb0};
use deku_bits::device::Source;
use deku_bits::error::DekuError;
use deku_bits::probe::{FailAt, Trickle};
use deku_bits::reader::Reader;
use deku_testing::bits::{OFFSETS, Slow, samples};
use deku_testing::refusals::{FAILED, Refusal, wanted};
use deku_testing::same::same;
use std::alloc::Global;
use std::io::Cursor;
use std::test::Fail;

// So many bytes, and how many of them are read first. Of those after them, the first is read in
// part: so words begin at the first byte of eight, and of seven and fewer, and they end at each bit
// up to the last.
const ENDS: [(usize, usize); 7] = [(17, 9), (17, 8), (17, 10), (9, 1), (8, 0), (7, 0), (16, 13)];

// A word that is read after so many bytes and bits of an order.
#[derive(Clone, Copy)]
struct Start {
    bytes: usize,
    offset: usize,
    order: Order,
}

impl Start {
    // How many bits are before the word.
    fn bits(self) -> usize {
        self.bytes.wrapping_mul(8).wrapping_add(self.offset)
    }
}

// What a reader returns: the word of n bits, then that of the rest of the last byte, and the bits
// that are read.
type Words = (u128, u128, usize);

// How many bits of the last byte are left after n bits.
fn spare(start: Start, n: usize) -> usize {
    7 - start.bits().wrapping_add(n).wrapping_add(7) % 8
}

// The words by their definition.
fn slow_words(bytes: &[u8], start: Start, n: usize, order: Order) -> Result<Words, Fail> {
    let mut slow = Slow::new(bytes);
    slow.take_word(start.order, start.bits())?;
    let word = slow.take_word(order, n)?;
    let rest = slow.take_word(order, spare(start, n))?;
    let count = start.bits().wrapping_add(n).wrapping_add(spare(start, n));
    Ok((word, rest, count))
}

// The words as a reader over any source reads them.
fn words_of<R: Source + Drop>(
    alloc: Global,
    source: R,
    start: Start,
    n: usize,
    order: Order,
) -> Result<Words, DekuError> {
    let mut reader = Reader::new(alloc, source);
    reader.read_word(start.bytes.wrapping_mul(8).min(128), start.order)?;
    reader.read_word(start.offset.min(128), start.order)?;
    let word = reader.read_word(n.min(128), order)?;
    let rest = reader.read_word(spare(start, n).min(8), order)?;
    Ok((word, rest, reader.bits_read()))
}

// A cursor, a source that gives one byte at a time and one that gives them by calls yield the same.
fn expect_words(
    alloc: Global,
    bytes: &[u8],
    start: Start,
    n: usize,
    order: Order,
) -> Result<(), Fail> {
    let want = if start.bits().wrapping_add(n) <= bytes.len().wrapping_mul(8) {
        Ok(slow_words(bytes, start, n, order)?)
    } else {
        Err(Refusal::Until(n).error())
    };
    let try_take = words_of(alloc, Cursor::new(bytes), start, n, order);
    let fetched = words_of(alloc, Trickle::new(bytes), start, n, order);
    let never = FailAt::new(Cursor::new(bytes), 0);
    let called = words_of(alloc, never, start, n, order);
    let row = (start.bits(), n);
    same(&row, &(try_take, fetched, called), &(want, want, want))
}

// Words of 1 to 64 bits in both orders, after these bits.
fn expect_widths(alloc: Global, bytes: &[u8], start: Start) -> Result<(), Fail> {
    for n in 1..=64 {
        expect_words(alloc, bytes, start, n, Msb0)?;
        expect_words(alloc, bytes, start, n, Lsb0)?;
    }
    Ok(())
}

// Words after so many bytes, and 0 to 7 bits of the next one.
fn expect_end(alloc: Global, bytes: &[u8], front: usize) -> Result<(), Fail> {
    for (offset, order) in OFFSETS {
        let start = Start {
            bytes: front,
            offset,
            order,
        };
        expect_widths(alloc, bytes, start)?;
    }
    Ok(())
}

// Words near each of the ends of these bytes.
fn expect_sample(alloc: Global, sample: &[u8; 17]) -> Result<(), Fail> {
    for (len, front) in ENDS {
        expect_end(alloc, &sample[..len.min(17)], front)?;
    }
    Ok(())
}

#[test]
fn reads_words_up_to_the_last_bytes(rt: HostRuntime) -> Result<(), Fail> {
    for bytes in samples()[4..6].iter() {
        expect_sample(rt.alloc(), bytes)?;
    }
    Ok(())
}

// The word of sixteen bits over a source.
fn next_word<R: Source + Drop>(alloc: Global, source: R) -> Result<u128, DekuError> {
    Reader::new(alloc, source).read_word(16, Msb0)
}

#[test]
fn sources_with_nothing_at_hand_fail_as_they_fetch(rt: HostRuntime) -> Result<(), Fail> {
    let bytes: &[u8] = &[0xAB; 17];
    for (n, want) in [(1, Err(FAILED)), (2, Err(FAILED)), (3, Ok(0xABAB))] {
        let answer = next_word(rt.alloc(), FailAt::new(Cursor::new(bytes), n));
        same(&(n, 0), &answer, &wanted(&want))?;
    }
    Ok(())
}

// Bits that are read in turn from the highest down, so many of them, and the number that is wanted
// if they are unread or in memory.
const HIGH: [(usize, Option<u64>); 14] = [
    (12, Some(0xABC)),
    (0, Some(0)),
    (4, Some(0xD)),
    (16, Some(0xEF01)),
    (3, Some(1)),
    (5, Some(3)),
    (8, Some(0x45)),
    (20, Some(0x67890)),
    (33, None),
    (32, None),
    (28, Some(0xABCDEF0)),
    (1, None),
    (64, None),
    (0, Some(0)),
];

// Bits are read as the rows say, ninety-six in all, and then none is left.
fn expect_high<R: Source + Drop>(alloc: Global, source: R) -> Result<(), Fail> {
    let mut reader = Reader::new(alloc, source);
    for (n, want) in HIGH {
        same(&(0, n), &reader.try_read_number(n.min(64), Msb0), &want)?;
    }
    let seen = (reader.bits_read(), reader.read_word(8, Msb0));
    same(&(1, 8), &seen, &(96, Err(Refusal::Until(8).error())))
}

#[test]
fn reads_high_bits_at_hand(rt: HostRuntime) -> Result<(), Fail> {
    let bytes: &[u8] = &[
        0xAB, 0xCD, 0xEF, 0x01, 0x23, 0x45, 0x67, 0x89, 0x0A, 0xBC, 0xDE, 0xF0,
    ];
    expect_high(rt.alloc(), Cursor::new(bytes))
}
