//! Steps of a writer, in tables.

use crate::Row;
use deku_bits::ctx::Order;
use deku_bits::ctx::Order::{Lsb0, Msb0};
use deku_bits::device::Sink;
use deku_bits::error::DekuError;
use deku_bits::writer::Writer;
use deku_testing::bits::{bits_of, fitting};
use deku_testing::refusals::{NO_MEMORY, Refusal, handed, kind_of, refused};
use deku_testing::same::{same, same_bytes, same_digits};
use std::alloc::Global;
use std::io::{Cursor, ErrorKind, Seek, SeekFrom};
use std::process::Abort;
use std::test::Fail;

/// What a write returns.
pub type Answer = Result<(), Refusal>;

/// What is done with a writer, and what it returns.
pub enum Put {
    /// `write_bits`
    Bits(&'static str, Answer),
    /// `write_bits_order`
    Ordered(Order, &'static str, Answer),
    /// `write_bytes`
    Bytes(&'static [u8], Answer),
    /// `write_word` of so many bits
    Word(u128, usize, Order, Answer),
    Finalize(Answer),
    Seek(SeekFrom, Result<u64, ErrorKind>),
    /// `seek_relative`
    By(i64, Result<(), ErrorKind>),
    /// `rewind`
    Rewind(Result<(), ErrorKind>),
    /// `stream_position`
    Place(Result<u64, ErrorKind>),
    Rest(&'static str),
    /// `leftover`: the bits, the same as the high bits of a byte, and their order
    Left(&'static str, u8, Order),
    /// `bits_written`
    Count(usize),
    /// The writer has stopped with this: so each call returns, nothing is pending, and the count
    /// stays.
    Kept(Refusal),
}

/// The bits of these digits are written in this order.
pub fn write_ordered<W: Sink>(
    writer: &mut Writer<W>,
    order: Order,
    digits: &str,
) -> Result<(), DekuError> {
    let (list, len) = bits_of(digits);
    writer.write_bits_order(&list[..len], order)
}

// A write, and what it returns.
fn write_step<W: Sink>(
    rt: &impl Abort,
    writer: &mut Writer<W>,
    step: &Put,
) -> Result<(), DekuError> {
    match step {
        Put::Bits(digits, _) => {
            let (list, len) = bits_of(digits);
            writer.write_bits(&list[..len])
        }
        Put::Ordered(order, digits, _) => write_ordered(writer, *order, digits),
        Put::Bytes(bytes, _) => writer.write_bytes(bytes),
        Put::Word(word, n, order, _) => {
            assert!(rt; *n <= 128);
            let fits = fitting(*word, *n);
            if fits != *word {
                return Err(DekuError::Assertion("a word beyond its bits"));
            }
            writer.write_word(fits, *n, *order)
        }
        _ => writer.finalize(),
    }
}

// A write returns what it should. Memory that was refused is handed on.
fn expect_put<W: Sink>(
    rt: &impl Abort,
    row: Row,
    writer: &mut Writer<W>,
    step: &Put,
    want: &Answer,
) -> Result<(), Fail> {
    let answer = write_step(rt, writer, step).err();
    let want = refused(want);
    if answer != want && answer == Some(NO_MEMORY.error()) {
        return Err(NO_MEMORY.error())?;
    }
    same(&row, &answer, &want)
}

// The pending bits, or their memory is refused; it returns whether.
fn expect_rest<W: Sink>(
    alloc: Global,
    row: Row,
    writer: &Writer<W>,
    want: &str,
) -> Result<bool, Fail> {
    match writer.rest(alloc) {
        Ok(bits) => {
            same_digits(&row, &bits, want)?;
            Ok(false)
        }
        Err(error) => {
            same(&row, &error, &NO_MEMORY.error())?;
            Ok(true)
        }
    }
}

// The pending bits, as the high bits of a byte, and their order.
fn expect_left<W: Sink>(row: Row, writer: &Writer<W>, want: (&str, u8, Order)) -> Result<(), Fail> {
    let (pending, order) = writer.leftover();
    let (digits, byte, wanted) = want;
    let (list, len) = bits_of(digits);
    let seen = (pending.len(), pending.is_empty(), order);
    same(&row, &seen, &(len, digits.is_empty(), wanted))?;
    for (at, bit) in list[..len].iter().enumerate() {
        same(&row, &pending.get(at), &Some(*bit))?;
    }
    same_bytes(&row, pending.as_raw_slice(), &[byte])
}

/// The writer has stopped with this error. It returns whether memory was refused.
pub fn expect_kept<W: Sink>(
    alloc: Global,
    row: Row,
    writer: &mut Writer<W>,
    error: DekuError,
) -> Result<bool, Fail> {
    let count = writer.bits_written();
    let seen = [
        writer.write_bits(&[]),
        writer.write_bits(&[true; 12]),
        writer.write_bits_order(&[], Lsb0),
        writer.write_bits_order(&[true; 5], Lsb0),
        writer.write_bytes(&[]),
        writer.write_bytes(&[0xAA]),
        writer.write_word(0, 0, Msb0),
        writer.finalize(),
    ];
    same(&row, &seen, &[Err(error); 8])?;
    expect_left(row, writer, ("", 0, Msb0))?;
    same(&row, &writer.bits_written(), &count)?;
    expect_rest(alloc, row, writer, "")
}

// One step. Returns whether memory for its result was refused.
fn give_step<W: Sink>(
    rt: &impl Abort,
    alloc: Global,
    row: Row,
    writer: &mut Writer<W>,
    step: &Put,
) -> Result<bool, Fail> {
    match step {
        Put::Bits(_, want)
        | Put::Ordered(_, _, want)
        | Put::Bytes(_, want)
        | Put::Word(_, _, _, want)
        | Put::Finalize(want) => expect_put(rt, row, writer, step, want)?,
        Put::Seek(to, want) => {
            same(&row, &kind_of(writer.seek(*to)), want)?;
        }
        Put::By(offset, want) => same(&row, &kind_of(writer.seek_relative(*offset)), want)?,
        Put::Rewind(want) => same(&row, &kind_of(writer.rewind()), want)?,
        Put::Place(want) => same(&row, &kind_of(writer.stream_position()), want)?,
        Put::Rest(want) => return expect_rest(alloc, row, writer, want),
        Put::Left(digits, byte, order) => expect_left(row, writer, (digits, *byte, *order))?,
        Put::Count(want) => same(&row, &writer.bits_written(), want)?,
        Put::Kept(refusal) => return expect_kept(alloc, row, writer, refusal.error()),
    }
    Ok(false)
}

/// These steps, one after the other, show what they say. Memory that was refused is handed on.
pub fn give_steps<W: Sink>(
    rt: &impl Abort,
    alloc: Global,
    case: usize,
    writer: &mut Writer<W>,
    steps: &[Put],
) -> Result<(), Fail> {
    let mut lacking = false;
    for (at, step) in steps.iter().enumerate() {
        let lacks = give_step(rt, alloc, (case, at), writer, step)?;
        lacking = lacking || lacks;
    }
    handed(lacking)
}

/// The steps of a writer over a sink show what they say; the sink then. Memory that was refused is
/// handed on.
pub fn give_sink<W: Sink + Drop>(
    rt: &impl Abort,
    alloc: Global,
    case: usize,
    sink: W,
    steps: &[Put],
) -> Result<W, Fail> {
    let mut writer = Writer::new(sink);
    give_steps(rt, alloc, case, &mut writer, steps)?;
    Ok(writer.into_inner())
}

/// The steps of a writer over a vector, and the bytes that it has then.
pub type Grown = (&'static [Put], &'static [u8]);

// These cases of the nth table make the bytes that they say.
fn give_grown(rt: &impl Abort, alloc: Global, table: usize, cases: &[Grown]) -> Result<(), Fail> {
    for (at, (steps, want)) in cases.iter().enumerate() {
        let case = table.wrapping_mul(100).wrapping_add(at);
        let vector = Cursor::new(Vec::new(alloc));
        let bytes = give_sink(rt, alloc, case, vector, steps)?.into_inner();
        same_bytes(&(case, steps.len()), bytes.as_slice(), want)?;
    }
    Ok(())
}

/// The cases of these tables make the bytes that they say, in a vector.
pub fn give_tables(rt: &impl Abort, alloc: Global, tables: &[&[Grown]]) -> Result<(), Fail> {
    for (table, cases) in tables.iter().enumerate() {
        give_grown(rt, alloc, table, cases)?;
    }
    Ok(())
}

/// The steps of a writer over the front of a slice of zeros that has room for as many bytes as it
/// has then.
pub fn give_bounded(rt: &impl Abort, alloc: Global, cases: &[Grown]) -> Result<(), Fail> {
    for (case, (steps, want)) in cases.iter().enumerate() {
        let mut slice = [0; 8];
        let room = want.len();
        assert!(rt; room <= 8);
        give_sink(rt, alloc, case, Cursor::new(&mut slice[..room]), steps)?;
        same_bytes(&(case, steps.len()), &slice[..room], want)?;
    }
    Ok(())
}
