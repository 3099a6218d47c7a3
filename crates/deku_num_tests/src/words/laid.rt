//! Words with eight bytes of room left, with fewer, and onto a sink that never puts them at once.

ghost use Rattle.deku_bits.specs.Devices.{unknown_sink};

use deku_bits::ctx::Order;
use deku_bits::device::Sink;
use deku_bits::writer::Writer;
use deku_testing::bits::{OFFSETS, fitting, put_word, turn, word_of};
use deku_testing::same::same;
use std::io;
use std::io::{Cursor, Seek, SeekFrom, Write};
use std::process::Abort;
use std::test::Fail;

// A sink that only gives: it has `try_put` as the trait has it.
#[derive(Drop)]
struct Giving<S> {
    inner: S,
}

impl<S: Write> Write for Giving<S> {
    fn write(&mut self, buf: &[u8]) -> io::Result<usize> {
        self.inner.write(buf)
    }

    fn flush(&mut self) -> io::Result<()> {
        self.inner.flush()
    }
}

impl<S: Seek> Seek for Giving<S> {
    fn seek(&mut self, to: SeekFrom) -> io::Result<u64> {
        self.inner.seek(to)
    }
}

// It says nothing of itself.
impl<S: Sink> Sink for Giving<S> {
    ghost known = { λ _. unknown_sink };

    fn give(&mut self, bytes: &[u8]) -> io::Result<()> {
        self.inner.give(bytes)?;
        Ok(())
    }

    fn seek_to(&mut self, to: SeekFrom) -> io::Result<u64> {
        self.seek(to)
    }
}

// What is in the slice before.
const THERE: u8 = 0xA6;

// Bits that are written in front of a word.
const FRONT: [bool; 7] = [true, false, true, true, false, false, true];

const WORD: u128 = 0x9E37_79B9_7F4A_7C15_F39C_C060_5CED_C834;

// Whether both were written, how many bits were counted, and how many are pending.
type Left = (bool, usize, usize);

// The bytes of the slice, and the rest.
type Made = ([u8; 12], Left);

// So many bits in front of a word of so many, in this order.
#[derive(Clone, Copy)]
struct Row {
    room: usize,
    front: usize,
    n: usize,
    order: Order,
}

// Writes both into what is left of a slice: whether they were written, how many bits were counted,
// and how many are pending.
fn write_both<S: Sink + Drop>(rt: &impl Abort, sink: S, row: Row) -> Left {
    let mut writer = Writer::new(sink);
    let mut front = FRONT;
    assert!(rt; row.front <= 7 && row.n <= 128);
    turn(row.order, &mut front[..row.front]);
    let is_ok = writer
        .write_bits_order(&front[..row.front], row.order)
        .is_ok()
        && writer
            .write_word(fitting(WORD, row.n), row.n, row.order)
            .is_ok();
    (is_ok, writer.bits_written(), writer.leftover().0.len())
}

// By a cursor over the last bytes of a slice.
fn make_laid(rt: &impl Abort, row: Row) -> Made {
    let mut slice = [THERE; 12];
    assert!(rt; row.room <= 12);
    let left = write_both(rt, Cursor::new(&mut slice[12 - row.room..]), row);
    (slice, left)
}

// By a sink that only gives.
fn make_given(rt: &impl Abort, row: Row) -> Made {
    let mut slice = [THERE; 12];
    assert!(rt; row.room <= 12);
    let cursor = Cursor::new(&mut slice[12 - row.room..]);
    let left = write_both(rt, Giving { inner: cursor }, row);
    (slice, left)
}

// The whole bytes of the bits that the order meets, after what is there, and in front of it.
fn make_wanted(rt: &impl Abort, row: Row) -> Made {
    let mut slice = [THERE; 12];
    let mut met = [false; 128];
    assert!(rt; row.front <= 7 && row.n <= 64 && row.room <= 12);
    met[..row.front].copy_from_slice(&FRONT[..row.front]);
    let end = row.front + row.n;
    put_word(row.order, fitting(WORD, row.n), &mut met[row.front..end]);
    let mut rest = word_of(row.order, &met[..end / 8 * 8]);
    for place in slice[12 - row.room..].iter_mut().take(end / 8) {
        *place = (rest % 256) as u8;
        rest /= 256;
    }
    (slice, (true, end / 8 * 8, end % 8))
}

// What both sinks leave is what the slow functions want, or both lack the room.
fn expect_made(rt: &impl Abort, row: Row) -> Result<(), Fail> {
    let laid = make_laid(rt, row);
    let given = make_given(rt, row);
    let at = (row.room, row.n);
    same(&at, &laid, &given)?;
    assert!(rt; row.front <= 7 && row.n <= 64);
    if (row.front + row.n) / 8 > row.room {
        return same(&at, &laid.1, &(false, 0, 0));
    }
    same(&at, &laid, &make_wanted(rt, row))
}

// How many bytes are left: more than eight, the last eight, the last seven, and too few.
const ROOMS: [usize; 6] = [12, 9, 8, 7, 1, 0];

const WIDTHS: [usize; 14] = [1, 5, 7, 8, 9, 10, 13, 16, 24, 31, 32, 57, 63, 64];

// Words after so many bits, into so much room, in this order.
fn expect_widths(rt: &impl Abort, room: usize, front: usize, order: Order) -> Result<(), Fail> {
    for n in WIDTHS {
        let row = Row {
            room,
            front,
            n,
            order,
        };
        expect_made(rt, row)?;
    }
    Ok(())
}

// Words after 0 to 7 bits, into so much room.
fn expect_room(rt: &impl Abort, room: usize) -> Result<(), Fail> {
    for (front, order) in OFFSETS {
        expect_widths(rt, room, front, order)?;
    }
    Ok(())
}

#[test]
fn lays_words_and_no_more(rt: HostRuntime) -> Result<(), Fail> {
    for room in ROOMS {
        expect_room(&rt, room)?;
    }
    Ok(())
}
