//! Steps of a reader, in tables.

ghost use Rattle.std.specs.Prelude.{◌≤◌};

use crate::same::{Row, same, same_bytes, same_digits};
use deku_bits::ctx::Order;
use deku_bits::ctx::Order::{Lsb0, Msb0};
use deku_bits::device::Source;
use deku_bits::error::DekuError;
use deku_bits::reader::{Leftover, Reader};
use deku_testing::refusals::{NO_MEMORY, Refusal, handed, kind_of, refused, wanted};
use std::alloc::Global;
use std::io::{Cursor, ErrorKind, Seek, SeekFrom};
use std::process::Abort;
use std::test::Fail;

/// The bits that are wanted, as digits, or what refuses them.
pub type Digits = Result<&'static str, Refusal>;

/// The bytes that are wanted, or what refuses them.
pub type Bytes = Result<&'static [u8], Refusal>;

/// What is left over of a byte.
#[derive(PartialEq, Debug, Drop)]
pub enum Left {
    Nothing,
    Byte(u8),
    /// So many bits, as the high bits of a byte.
    Bits(usize, u8),
}

/// What is done with a reader, and what it returns. A number in front is how many bits or bytes are
/// asked for.
pub enum Step {
    /// `read_bits`
    Bits(usize, Order, Digits),
    /// `read_bits_into`
    Into(usize, Order, Digits),
    /// `read_bytes`, into the front of four bytes
    Bytes(usize, Order, Bytes),
    /// `read_bytes_vec`
    Vector(usize, Order, Bytes),
    /// `read_bytes_const`, of at most three bytes
    Const(usize, Order, Bytes),
    /// `read_bytes_const_into`, of at most three bytes
    Fill(usize, Order, Bytes),
    /// `read_word`
    Word(usize, Order, Result<u128, Refusal>),
    /// `skip_bits`
    Skip(usize, Order, Result<(), Refusal>),
    End(Result<bool, Refusal>),
    Seek(SeekFrom, Result<u64, ErrorKind>),
    /// `seek_relative`
    By(i64, Result<(), ErrorKind>),
    /// `rewind`
    Rewind(Result<(), ErrorKind>),
    /// `stream_position`
    Place(Result<u64, ErrorKind>),
    /// `admits_bytes`
    Admits(usize, Result<(), Refusal>),
    Rest(&'static str),
    Left(Left),
    /// `bits_read`
    Count(usize),
    /// The reader has stopped with this: so each call returns, no bit is left over, and the count
    /// stays.
    Kept(Refusal),
}

// Bits are these digits, or they are refused so.
fn expect_digits(
    rt: &impl Abort,
    row: Row,
    error: Option<DekuError>,
    bits: &[bool],
    want: &Digits,
) {
    same(rt, row, &error, &refused(want));
    if let Ok(digits) = want {
        same_digits(rt, row, bits, digits);
    }
}

// These are the bytes, or they are refused so.
fn expect_bytes(rt: &impl Abort, row: Row, error: Option<DekuError>, all: &[u8], want: &Bytes) {
    same(rt, row, &error, &refused(want));
    if let Ok(bytes) = want {
        same_bytes(rt, row, all, bytes);
    }
}

// The bits in a buffer, if no more than 24 are asked for.
fn read_into<R: Source>(
    rt: &impl Abort,
    row: Row,
    reader: &mut Reader<R>,
    asked: (usize, Order),
    want: &Digits,
) {
    let mut all = [true; 24];
    assert!(rt; asked.0 <= 24);
    let bits = &mut all[..asked.0];
    let error = reader.read_bits_into(bits, asked.1).err();
    expect_digits(rt, row, error, bits, want);
}

// Whether memory was refused unexpectedly; otherwise the bits are these, or they are refused like
// this.
fn lacks_bits(
    rt: &impl Abort,
    row: Row,
    answer: Result<Vec<bool>, DekuError>,
    want: &Digits,
) -> bool {
    match answer {
        Ok(bits) => expect_digits(rt, row, None, &bits, want),
        Err(error) => {
            if is_lacking(error, refused(want)) {
                return true;
            }
            expect_digits(rt, row, Some(error), &[], want);
        }
    }
    false
}

// Memory was refused, and something else was wanted.
fn is_lacking(error: DekuError, want: Option<DekuError>) -> bool {
    error == NO_MEMORY.error() && want != Some(error)
}

// The bits in a vector. Where its memory is refused nothing has moved, and they are read into a
// buffer; it returns whether.
fn read_vector<R: Source>(
    rt: &impl Abort,
    row: Row,
    reader: &mut Reader<R>,
    asked: (usize, Order),
    want: &Digits,
) -> bool {
    let count = reader.bits_read();
    let answer = reader.read_bits(asked.0, asked.1);
    let lacks = lacks_bits(rt, row, answer, want);
    if lacks {
        same(rt, row, &reader.bits_read(), &count);
        read_into(rt, row, reader, asked, want);
    }
    lacks
}

// The bytes in the front of four; those after them stay.
fn read_front<R: Source>(
    rt: &impl Abort,
    row: Row,
    reader: &mut Reader<R>,
    asked: (usize, Order),
    want: &Bytes,
) {
    let mut all = [0x5A; 4];
    assert!(rt; asked.0 <= 4);
    let error = reader.read_bytes(asked.0, &mut all, asked.1).err();
    let (front, rest) = all.split_at(asked.0);
    expect_bytes(rt, row, error, front, want);
    same_bytes(rt, row, rest, &[0x5A; 4][asked.0..]);
}

fn vector_of<R: Source>(
    reader: &mut Reader<R>,
    amt: usize,
    order: Order,
) -> Result<Vec<u8>, DekuError> {
    reader.read_bytes_vec(amt, order)
}

// Whether memory was refused unexpectedly; otherwise the bytes are these, or they are refused like
// this.
fn lacks_bytes(
    rt: &impl Abort,
    row: Row,
    answer: Result<Vec<u8>, DekuError>,
    want: &Bytes,
) -> bool {
    match answer {
        Ok(all) => expect_bytes(rt, row, None, all.as_slice(), want),
        Err(error) => {
            if is_lacking(error, refused(want)) {
                return true;
            }
            expect_bytes(rt, row, Some(error), &[], want);
        }
    }
    false
}

// The bytes in a vector. Where its memory is refused nothing has moved, and they are read into a
// buffer; it returns whether.
fn read_byte_vector<R: Source>(
    rt: &impl Abort,
    row: Row,
    reader: &mut Reader<R>,
    asked: (usize, Order),
    want: &Bytes,
) -> bool {
    let count = reader.bits_read();
    let answer = vector_of(reader, asked.0, asked.1);
    let lacks = lacks_bytes(rt, row, answer, want);
    if lacks {
        same(rt, row, &reader.bits_read(), &count);
        read_front(rt, row, reader, asked, want);
    }
    lacks
}

// Why an array of bytes is refused, if it is: it is filled, or returned.
fn const_refused<R: Source, const N: usize>(
    reader: &mut Reader<R>,
    all: &mut [u8; N],
    asked: (bool, Order),
) -> Option<DekuError>
    requires { N ≤ 3 }
{
    if asked.0 {
        reader.read_bytes_const_into(all, asked.1).err()
    } else {
        reader.read_bytes_const(all, asked.1).err()
    }
}

// As many bytes as an array has, filled or returned.
fn read_const<R: Source, const N: usize>(
    rt: &impl Abort,
    row: Row,
    reader: &mut Reader<R>,
    asked: (bool, Order),
    want: &Bytes,
)
    requires { N ≤ 3 }
{
    let mut all = [0; N];
    let error = const_refused(reader, &mut all, asked);
    expect_bytes(rt, row, error, &all, want);
}

// The array of as many bytes as are asked for.
fn read_array<R: Source>(
    rt: &impl Abort,
    row: Row,
    reader: &mut Reader<R>,
    amt: usize,
    asked: (bool, Order),
    want: &Bytes,
) {
    match amt {
        1 => read_const::<R, 1>(rt, row, reader, asked, want),
        2 => read_const::<R, 2>(rt, row, reader, asked, want),
        3 => read_const::<R, 3>(rt, row, reader, asked, want),
        _ => same(rt, row, &amt, &3),
    }
}

// The unread bits of the last byte, or their memory is refused; it returns whether.
fn expect_rest<R: Source>(rt: &impl Abort, row: Row, reader: &Reader<R>, want: &str) -> bool {
    match reader.rest() {
        Ok(bits) => {
            same_digits(rt, row, &bits, want);
            false
        }
        Err(error) => {
            same(rt, row, &error, &NO_MEMORY.error());
            true
        }
    }
}

// What is left over.
fn left_of<R: Source>(reader: &Reader<R>) -> Left {
    match reader.leftover() {
        None => Left::Nothing,
        Some(Leftover::Byte(byte)) => Left::Byte(byte),
        Some(Leftover::Bits(bits)) => Left::Bits(bits.len(), bits.as_raw_slice()[0]),
    }
}

// The reader has stopped with this error.
fn expect_kept<R: Source>(
    rt: &impl Abort,
    row: Row,
    reader: &mut Reader<R>,
    error: DekuError,
) -> bool {
    let count = reader.bits_read();
    let seen = [
        kept_by_bits(reader, 0, Msb0),
        kept_by_bits(reader, usize::MAX, Lsb0),
        kept_by_into(reader),
        kept_by_bytes(reader),
        kept_by_vector(reader),
        kept_by_const(reader),
        kept_by_fill(reader),
        kept_by_word(reader),
        kept_by_skip(reader),
        kept_by_end(reader),
    ];
    same(rt, row, &seen, &[Some(error); 10]);
    let left = (left_of(reader), reader.bits_read());
    same(rt, row, &left, &(Left::Nothing, count));
    expect_rest(rt, row, reader, "")
}

// Why a reader that has stopped refuses bits; the functions below say it of the other calls.
fn kept_by_bits<R: Source>(reader: &mut Reader<R>, amt: usize, order: Order) -> Option<DekuError> {
    reader.read_bits(amt, order).err()
}

fn kept_by_into<R: Source>(reader: &mut Reader<R>) -> Option<DekuError> {
    reader.read_bits_into(&mut [], Lsb0).err()
}

fn kept_by_bytes<R: Source>(reader: &mut Reader<R>) -> Option<DekuError> {
    reader.read_bytes(0, &mut [0], Msb0).err()
}

fn kept_by_vector<R: Source>(reader: &mut Reader<R>) -> Option<DekuError> {
    vector_of(reader, 0, Lsb0).err()
}

fn kept_by_const<R: Source>(reader: &mut Reader<R>) -> Option<DekuError> {
    reader.read_bytes_const(&mut [0], Lsb0).err()
}

fn kept_by_fill<R: Source>(reader: &mut Reader<R>) -> Option<DekuError> {
    reader.read_bytes_const_into(&mut [0], Msb0).err()
}

fn kept_by_word<R: Source>(reader: &mut Reader<R>) -> Option<DekuError> {
    reader.read_word(0, Msb0).err()
}

fn kept_by_skip<R: Source>(reader: &mut Reader<R>) -> Option<DekuError> {
    reader.skip_bits(0, Lsb0).err()
}

fn kept_by_end<R: Source>(reader: &mut Reader<R>) -> Option<DekuError> {
    reader.end().err()
}

// One read that takes no memory; `walk_steps` has those that do.
fn take_plain<R: Source>(rt: &impl Abort, row: Row, reader: &mut Reader<R>, step: &Step) {
    match step {
        Step::Into(amt, order, want) => read_into(rt, row, reader, (*amt, *order), want),
        Step::Bytes(amt, order, want) => read_front(rt, row, reader, (*amt, *order), want),
        Step::Const(amt, order, want) => read_array(rt, row, reader, *amt, (false, *order), want),
        Step::Fill(amt, order, want) => read_array(rt, row, reader, *amt, (true, *order), want),
        Step::Word(amt, order, want) => read_number(rt, row, reader, (*amt, *order), want),
        _ => take_place(rt, row, reader, step),
    }
}

// A word.
fn read_number<R: Source>(
    rt: &impl Abort,
    row: Row,
    reader: &mut Reader<R>,
    asked: (usize, Order),
    want: &Result<u128, Refusal>,
) {
    let (amt, order) = asked;
    assert!(rt; amt <= 128);
    same(rt, row, &reader.read_word(amt, order), &wanted(want));
}

// One step that reads nothing.
fn take_place<R: Source>(rt: &impl Abort, row: Row, reader: &mut Reader<R>, step: &Step) {
    match step {
        Step::Skip(amt, order, want) => {
            same(rt, row, &reader.skip_bits(*amt, *order), &wanted(want));
        }
        Step::End(want) => same(rt, row, &reader.end(), &wanted(want)),
        Step::Seek(to, want) => same(rt, row, &kind_of(reader.seek(*to)), want),
        Step::By(offset, want) => same(rt, row, &kind_of(reader.seek_relative(*offset)), want),
        Step::Rewind(want) => same(rt, row, &kind_of(reader.rewind()), want),
        Step::Place(want) => same(rt, row, &kind_of(reader.stream_position()), want),
        Step::Admits(amt, want) => same(rt, row, &reader.admits_bytes(*amt), &wanted(want)),
        Step::Left(want) => same(rt, row, &left_of(reader), want),
        Step::Count(want) => same(rt, row, &reader.bits_read(), want),
        _ => {}
    }
}

/// These steps, one after the other, show what they say. It returns whether memory was refused.
pub fn walk_steps<R: Source>(
    rt: &impl Abort,
    case: usize,
    reader: &mut Reader<R>,
    steps: &[Step],
) -> bool {
    let mut lacking = false;
    for (at, step) in steps.iter().enumerate() {
        let row = (case, at);
        let lacks = match step {
            Step::Bits(amt, order, want) => read_vector(rt, row, reader, (*amt, *order), want),
            Step::Vector(amt, order, want) => {
                read_byte_vector(rt, row, reader, (*amt, *order), want)
            }
            Step::Rest(want) => expect_rest(rt, row, reader, want),
            Step::Kept(refusal) => expect_kept(rt, row, reader, refusal.error()),
            _ => {
                take_plain(rt, row, reader, step);
                false
            }
        };
        lacking = lacking || lacks;
    }
    lacking
}

/// Bytes, the steps of a reader over a cursor on them, and the cursor's position after them.
pub type Case = (&'static [u8], &'static [Step], u64);

/// The steps of a reader over a source show what they say; whether memory was refused, and the
/// source then.
pub fn walk_source<R: Source>(
    rt: &impl Abort,
    alloc: Global,
    case: usize,
    source: R,
    steps: &[Step],
) -> (bool, R) {
    let mut reader = Reader::new(alloc, source);
    let lacks = walk_steps(rt, case, &mut reader, steps);
    (lacks, reader.into_inner())
}

// These cases of the nth table show what they say. It returns whether memory was refused.
fn walk_cases(rt: &impl Abort, alloc: Global, table: usize, cases: &[Case]) -> bool {
    let mut lacking = false;
    for (at, (bytes, steps, place)) in cases.iter().enumerate() {
        let case = table.wrapping_mul(100).wrapping_add(at);
        let (lacks, source) = walk_source(rt, alloc, case, Cursor::new(*bytes), steps);
        same(rt, (case, steps.len()), &source.position(), place);
        lacking = lacks || lacking;
    }
    lacking
}

/// The cases of these tables show what they say.
pub fn take_tables(rt: &impl Abort, alloc: Global, tables: &[&[Case]]) -> Result<(), Fail> {
    let mut lacking = false;
    for (table, cases) in tables.iter().enumerate() {
        lacking = walk_cases(rt, alloc, table, cases) || lacking;
    }
    handed(lacking)
}
