//! Records: numbers and pairs, one after the other, each under a context of its own.

use super::numbers::{MISFIT, expect_beyond};
use deku::ctx::Endian::{Big, Little};
use deku::ctx::Order::{Lsb0, Msb0};
use deku::ctx::{BitSize, ByteSize, Endian, Layout, NumberCtx, Order, Size};
use deku::device::{Sink, Source};
use deku::prelude::{DekuError, NeedSize, Reader, Writer};
use deku::probe::FailAt;
use deku_testing::same::same;
use deku_testing_values::expecting::{next, put};
use std::alloc::Global;
use std::io::{Cursor, ErrorKind};
use std::process::Abort;
use std::test::Fail;

// A number of a type.
#[derive(Clone, Copy, Debug, PartialEq)]
enum Number {
    U8(u8),
    U16(u16),
    U32(u32),
    I32(i32),
}

// A context of each type that there is.
#[derive(Clone, Copy)]
enum Under {
    Nothing,
    One(Endian),
    Turned(Order),
    Sized(Size),
    Bytes(usize),
    Bits(usize),
    OneTurned(Endian, Order),
    OneBytes(Endian, usize),
    OneBits(Endian, usize),
    BitsTurned(usize, Order),
    OneBytesTurned(Endian, usize, Order),
    OneBitsTurned(Endian, usize, Order),
    Laid(Layout),
}

type Field = (Number, Under);

// The number of the same type as another that is read under the context.
fn read_number<C: NumberCtx, R: Source>(
    reader: &mut Reader<R>,
    like: Number,
    ctx: C,
) -> Result<Number, DekuError> {
    match like {
        Number::U8(_) => Ok(Number::U8(next(reader, ctx)?)),
        Number::U16(_) => Ok(Number::U16(next(reader, ctx)?)),
        Number::U32(_) => Ok(Number::U32(next(reader, ctx)?)),
        Number::I32(_) => Ok(Number::I32(next(reader, ctx)?)),
    }
}

// The number that is read in the place of a field.
fn read_field<R: Source>(reader: &mut Reader<R>, field: &Field) -> Result<Number, DekuError> {
    let number = field.0;
    match field.1 {
        Under::Nothing => read_number(reader, number, ()),
        Under::One(endian) => read_number(reader, number, endian),
        Under::Turned(order) => read_number(reader, number, order),
        Under::Sized(size) => read_number(reader, number, size),
        Under::Bytes(n) => read_number(reader, number, ByteSize(n)),
        Under::Bits(n) => read_number(reader, number, BitSize(n)),
        Under::OneTurned(endian, order) => read_number(reader, number, (endian, order)),
        Under::OneBytes(endian, n) => read_number(reader, number, (endian, ByteSize(n))),
        Under::OneBits(endian, n) => read_number(reader, number, (endian, BitSize(n))),
        Under::BitsTurned(n, order) => read_number(reader, number, (BitSize(n), order)),
        Under::OneBytesTurned(endian, n, order) => {
            read_number(reader, number, (endian, ByteSize(n), order))
        }
        Under::OneBitsTurned(endian, n, order) => {
            read_number(reader, number, (endian, BitSize(n), order))
        }
        Under::Laid(layout) => read_number(reader, number, layout),
    }
}

// Writes the number under the context.
fn write_number<C: NumberCtx, W: Sink>(
    writer: &mut Writer<W>,
    number: Number,
    ctx: C,
) -> Result<(), DekuError> {
    match number {
        Number::U8(value) => put(writer, &value, ctx),
        Number::U16(value) => put(writer, &value, ctx),
        Number::U32(value) => put(writer, &value, ctx),
        Number::I32(value) => put(writer, &value, ctx),
    }
}

fn write_field<W: Sink>(writer: &mut Writer<W>, field: &Field) -> Result<(), DekuError> {
    let number = field.0;
    match field.1 {
        Under::Nothing => write_number(writer, number, ()),
        Under::One(endian) => write_number(writer, number, endian),
        Under::Turned(order) => write_number(writer, number, order),
        Under::Sized(size) => write_number(writer, number, size),
        Under::Bytes(n) => write_number(writer, number, ByteSize(n)),
        Under::Bits(n) => write_number(writer, number, BitSize(n)),
        Under::OneTurned(endian, order) => write_number(writer, number, (endian, order)),
        Under::OneBytes(endian, n) => write_number(writer, number, (endian, ByteSize(n))),
        Under::OneBits(endian, n) => write_number(writer, number, (endian, BitSize(n))),
        Under::BitsTurned(n, order) => write_number(writer, number, (BitSize(n), order)),
        Under::OneBytesTurned(endian, n, order) => {
            write_number(writer, number, (endian, ByteSize(n), order))
        }
        Under::OneBitsTurned(endian, n, order) => {
            write_number(writer, number, (endian, BitSize(n), order))
        }
        Under::Laid(layout) => write_number(writer, number, layout),
    }
}

// A name, bytes, the fields that they are, how many bits these take, and those left of the last
// byte.
type Record = (
    &'static str,
    &'static [u8],
    &'static [Field],
    usize,
    &'static [bool],
);

// A record is read from a source.
fn expect_read_from<R: Source + Drop>(
    rt: &impl Abort,
    alloc: Global,
    source: R,
    record: &Record,
) -> Result<(), Fail> {
    let (name, _, fields, bits, rest) = record;
    let mut reader = Reader::new(alloc, source);
    for (at, field) in fields.iter().enumerate() {
        let number = read_field(&mut reader, field)?;
        assert!(rt; number == field.0, "{name}, field {at}: {number:?}");
    }
    let left = reader.rest()?;
    let is_same = reader.bits_read() == *bits && left.as_slice() == *rest;
    assert!(rt; is_same, "{name}: {left:?} is left");
    Ok(())
}

// Records that are read.
fn expect_read(rt: &impl Abort, alloc: Global, records: &[Record]) -> Result<(), Fail> {
    for record in records {
        expect_read_from(rt, alloc, Cursor::new(record.1), record)?;
    }
    Ok(())
}

// Writes fields one after the other: how many bits are counted, and the sink after the last byte is
// filled.
fn write_fields<W: Sink + Drop>(sink: W, fields: &[Field]) -> Result<(usize, W), DekuError> {
    let mut writer = Writer::new(sink);
    for field in fields {
        write_field(&mut writer, field)?;
    }
    let count = writer.bits_written();
    writer.finalize()?;
    Ok((count, writer.into_inner()))
}

// Records that are written.
fn expect_records_written(rt: &impl Abort, alloc: Global, records: &[Record]) -> Result<(), Fail> {
    for (name, bytes, fields, bits, _) in records {
        let (count, sink) = write_fields(Cursor::new(Vec::new(alloc)), fields)?;
        let written = sink.into_inner();
        let is_same = count == bits / 8 * 8 && written.as_slice() == *bytes;
        assert!(rt; is_same, "{name}: {written:?}, of {count} bits");
    }
    Ok(())
}

const BEEF: Number = Number::U16(0xBEEF);

const TEN: Number = Number::U16(0x3AB);

// Number of sixteen bits, under a context of each type.
static CONTEXTS: [Record; 13] = [
    ("none", &[0xEF, 0xBE], &[(BEEF, Under::Nothing)], 16, &[]),
    ("endian", &[0xBE, 0xEF], &[(BEEF, Under::One(Big))], 16, &[]),
    (
        "order",
        &[0xEF, 0xBE],
        &[(BEEF, Under::Turned(Lsb0))],
        16,
        &[],
    ),
    (
        "size",
        &[0xAB, 0xC0],
        &[(TEN, Under::Sized(Size::Bits(10)))],
        10,
        &[false; 6],
    ),
    (
        "byte",
        &[0xAB],
        &[(Number::U16(0xAB), Under::Bytes(1))],
        8,
        &[],
    ),
    (
        "bits",
        &[0xAB, 0xC0],
        &[(TEN, Under::Bits(10))],
        10,
        &[false; 6],
    ),
    (
        "endian, order",
        &[0xBE, 0xEF],
        &[(BEEF, Under::OneTurned(Big, Lsb0))],
        16,
        &[],
    ),
    (
        "endian, bytes",
        &[0xBE, 0xEF],
        &[(BEEF, Under::OneBytes(Big, 2))],
        16,
        &[],
    ),
    (
        "endian, bits",
        &[0xEA, 0xC0],
        &[(TEN, Under::OneBits(Big, 10))],
        10,
        &[false; 6],
    ),
    (
        "bits, order",
        &[0xAB, 0x03],
        &[(TEN, Under::BitsTurned(10, Lsb0))],
        10,
        &[false; 6],
    ),
    (
        "endian, bits, order",
        &[0x10, 0x01],
        &[(Number::U16(0x1001), Under::OneBitsTurned(Big, 13, Lsb0))],
        13,
        &[false; 3],
    ),
    (
        "endian, bytes, order",
        &[0xBE, 0xEF],
        &[(BEEF, Under::OneBytesTurned(Big, 2, Lsb0))],
        16,
        &[],
    ),
    (
        "layout",
        &[0xEA, 0xC0],
        &[(
            TEN,
            Under::Laid(Layout {
                endian: Big,
                order: Msb0,
                size: Size::Bits(10),
            }),
        )],
        10,
        &[false; 6],
    ),
];

#[test]
fn under_each_context(rt: HostRuntime) -> Result<(), Fail> {
    let records = &CONTEXTS;
    expect_read(&rt, rt.alloc(), records)?;
    expect_records_written(&rt, rt.alloc(), records)
}

const NIBBLE: Under = Under::OneBits(Big, 4);

const BIT: Under = Under::OneBits(Big, 1);

const LOW: Under = Under::Turned(Lsb0);

static BOTH_WAYS: [Record; 5] = [
    (
        "low bits first",
        &[0x31, 0x12, 0x04, 0x05, 0x06, 0, 0, 0, 0x07, 0, 0, 0],
        &[
            (Number::U8(1), Under::BitsTurned(4, Lsb0)),
            (Number::U16(0x123), Under::BitsTurned(12, Lsb0)),
            (Number::U8(4), LOW),
            (Number::U8(5), LOW),
            (Number::U32(6), LOW),
            (Number::U32(7), LOW),
        ],
        96,
        &[],
    ),
    (
        "a number across bytes",
        &[0xA1, 0x34, 0x12],
        &[
            (Number::U8(1), Under::BitsTurned(5, Lsb0)),
            (Number::U16(0x91A5), LOW),
            (Number::U8(0), Under::BitsTurned(3, Lsb0)),
        ],
        24,
        &[],
    ),
    (
        "both orders",
        &[0x10, 0x81, 0xAB, 0x96],
        &[
            (Number::U16(0x1001), Under::OneBitsTurned(Big, 13, Lsb0)),
            (Number::U8(4), Under::OneBitsTurned(Big, 3, Lsb0)),
            (Number::U8(0xAB), Under::One(Big)),
            (Number::U8(1), BIT),
            (Number::U8(0), BIT),
            (Number::U8(0), BIT),
            (Number::U8(22), Under::OneBits(Big, 5)),
        ],
        32,
        &[],
    ),
    (
        "a field below a field",
        &[0x40, 0x40],
        &[
            (Number::U16(0x40), Under::BitsTurned(13, Lsb0)),
            (Number::U8(2), Under::BitsTurned(3, Lsb0)),
        ],
        16,
        &[],
    ),
    // Fields of no bits are read from nothing.
    (
        "no bits",
        &[],
        &[
            (Number::U8(0), Under::Bits(0)),
            (Number::U16(0), Under::Bytes(0)),
        ],
        0,
        &[],
    ),
];

#[test]
fn both_ways(rt: HostRuntime) -> Result<(), Fail> {
    let records = &BOTH_WAYS;
    expect_read(&rt, rt.alloc(), records)?;
    expect_records_written(&rt, rt.alloc(), records)
}

static READ: [Record; 7] = [
    (
        "nibbles before a number",
        &[0x69, 0xBE, 0xEF],
        &[
            (Number::U8(6), NIBBLE),
            (Number::U8(9), NIBBLE),
            (BEEF, Under::One(Big)),
        ],
        24,
        &[],
    ),
    (
        "bytes of a wider number",
        &[0xAB, 0xCD, 0xFF],
        &[
            (Number::U32(0xCDAB), Under::Bytes(2)),
            (Number::U8(0xFF), Under::Nothing),
        ],
        24,
        &[],
    ),
    // What a field leaves of its last byte is there to be read.
    (
        "three bits left",
        &[0x10, 0x81],
        &[(Number::U32(0x1001), Under::OneBitsTurned(Big, 13, Lsb0))],
        13,
        &[true, false, false],
    ),
    (
        "four bits left, little",
        &[0x96, 0xE0, 0xCC, 0xDD],
        &[(Number::U32(0xE96), Under::OneBits(Little, 12))],
        12,
        &[false, false, false, false],
    ),
    (
        "four bits left, big",
        &[0x96, 0xE0, 0xCC, 0xDD],
        &[(Number::U32(0x96E), Under::OneBits(Big, 12))],
        12,
        &[false, false, false, false],
    ),
    (
        "four bits left behind two fields",
        &[0x69, 0xE9],
        &[
            (Number::U8(0x1A), Under::Bits(6)),
            (Number::U8(0x1E), Under::Bits(6)),
        ],
        12,
        &[true, false, false, true],
    ),
    (
        "two high bits left",
        &[0x0D],
        &[
            (Number::U8(1), Under::BitsTurned(2, Lsb0)),
            (Number::U8(3), Under::BitsTurned(2, Lsb0)),
            (Number::U8(0), Under::BitsTurned(2, Lsb0)),
        ],
        6,
        &[false, false],
    ),
];

#[test]
fn read(rt: HostRuntime) -> Result<(), Fail> {
    expect_read(&rt, rt.alloc(), &READ)
}

static WRITTEN: [Record; 2] = [
    (
        "nibbles before a number",
        &[0x69, 0xC0, 0xFE],
        &[
            (Number::U8(6), NIBBLE),
            (Number::U8(9), NIBBLE),
            (Number::U16(0xC0FE), Under::One(Big)),
        ],
        24,
        &[],
    ),
    (
        "bytes of a wider number",
        &[0xAB, 0xCD, 0x03, 0x04, 0xAB, 0xFF, 0xFE],
        &[
            (Number::U32(0xCDAB), Under::Bytes(2)),
            (Number::U32(0x0304), Under::OneBytes(Big, 2)),
            (Number::U8(0xAB), Under::Bytes(9)),
            (Number::I32(-2), Under::OneBytes(Big, 2)),
        ],
        56,
        &[],
    ),
];

#[test]
fn written(rt: HostRuntime) -> Result<(), Fail> {
    expect_records_written(&rt, rt.alloc(), &WRITTEN)
}

// No field takes more bits than its type has.
#[test]
fn too_many_bits(rt: HostRuntime) -> Result<(), Fail> {
    let read = DekuError::Parse("too much data");
    let written = DekuError::InvalidParam("bit size is larger than input");
    expect_beyond(rt.alloc(), &0u8, BitSize(9).parts(), (read, written))
}

// What calls return, and how many bits are counted then.
type Answer<T> = (Result<T, DekuError>, usize);

// Ten bits, numbers that do not fit in bits and in bytes, and four bits more: what the misfits
// return, and the sink after the last byte is filled.
fn write_misfits<W: Sink + Drop>(sink: W) -> Result<([Answer<()>; 2], W), DekuError> {
    let ten = (Little, BitSize(10));
    let mut writer = Writer::new(sink);
    put(&mut writer, &0x3ABu16, ten)?;
    let bits = put(&mut writer, &0x400u16, ten);
    let bits = (bits, writer.bits_written());
    let bytes = put(&mut writer, &0x01020304u32, (Big, ByteSize(2)));
    let bytes = (bytes, writer.bits_written());
    put(&mut writer, &15u8, BitSize(4))?;
    writer.finalize()?;
    Ok(([bits, bytes], writer.into_inner()))
}

// What does not fit leaves what was pending, and the next field is after that.
#[test]
fn a_misfit_between_fields(rt: HostRuntime) -> Result<(), Fail> {
    let mut page = [0; 2];
    let (answers, sink) = write_misfits(Cursor::new(page.as_mut_slice()))?;
    let end = sink.position();
    let want = ([(Err(MISFIT), 8); 2], 2, [0xAB, 0xFC]);
    same(&"misfits", &(answers, end, page), &want)
}

// The bytes of pairs, and of two bits.
const PAIRS: [u8; 7] = [0x04, 0xF0, 0x80, 0x69, 0xBE, 0xEF, 0x1B];

// Bytes of six bits, one of eight with a number of sixteen, and three of two bits: each with the
// bits that are read then; and the bits that are left.
fn expect_pairs<R: Source + Drop>(alloc: Global, source: R) -> Result<(), Fail> {
    let mut reader = Reader::new(alloc, source);
    let first: (u8, u8) = next(&mut reader, BitSize(6))?;
    same(&"first", &(first, reader.bits_read()), &((1, 15), 12))?;
    let second: (u8, u8) = next(&mut reader, BitSize(6))?;
    same(&"second", &(second, reader.bits_read()), &((2, 0), 24))?;
    let third: (u8, u16) = next(&mut reader, Big)?;
    let want = ((0x69, 0xBEEF), 48);
    same(&"third", &(third, reader.bits_read()), &want)?;
    let last: ((u8, u8), u8) = next(&mut reader, BitSize(2))?;
    let left = reader.rest()?;
    let seen = (last, reader.bits_read(), left.as_slice());
    same(&"last", &seen, &(((0, 1), 2), 54, &[true, true]))
}

fn write_pairs<W: Sink + Drop>(sink: W) -> Result<W, DekuError> {
    let mut writer = Writer::new(sink);
    put(&mut writer, &(1u8, 15u8), BitSize(6))?;
    put(&mut writer, &(2u8, 0u8), BitSize(6))?;
    put(&mut writer, &(0x69u8, 0xBEEFu16), Big)?;
    put(&mut writer, &((0u8, 1u8), (2u8, 3u8)), BitSize(2))?;
    writer.finalize()?;
    Ok(writer.into_inner())
}

// A pair is its first, then its second, under one context.
#[test]
fn pairs(rt: HostRuntime) -> Result<(), Fail> {
    expect_pairs(rt.alloc(), Cursor::new(PAIRS.as_slice()))?;
    let mut page = [0; 7];
    write_pairs(Cursor::new(page.as_mut_slice()))?;
    same(&"pairs", &page, &PAIRS)
}

// Half a pair is read, and then nothing: what the first returns, and how many bits are read and
// left then; and what the second returns.
fn read_half<R: Source + Drop>(
    alloc: Global,
    source: R,
) -> Result<(Answer<(u8, u16)>, usize, Result<u8, DekuError>), DekuError> {
    let mut reader = Reader::new(alloc, source);
    let answer = next(&mut reader, Big);
    let count = reader.bits_read();
    let left = reader.rest()?.len();
    let then = next(&mut reader, BitSize(0));
    Ok(((answer, count), left, then))
}

// A pair whose second does not fit is written: what that returns, and the sink after the last byte
// is filled.
fn write_half<W: Sink + Drop>(sink: W) -> Result<(Result<(), DekuError>, W), DekuError> {
    let mut writer = Writer::new(sink);
    let answer = put(&mut writer, &(5u8, 16u8), BitSize(4));
    writer.finalize()?;
    Ok((answer, writer.into_inner()))
}

// A pair whose second is refused has moved its first.
#[test]
fn half_a_pair(rt: HostRuntime) -> Result<(), Fail> {
    let seen = read_half(rt.alloc(), Cursor::new([0x69].as_slice()))?;
    let ended = DekuError::Incomplete(NeedSize::new(16));
    same(&"read", &seen, &((Err(ended), 8), 0, Err(ended)))?;
    let mut page = [0; 2];
    let (answer, sink) = write_half(Cursor::new(page.as_mut_slice()))?;
    let end = sink.position();
    let want = (Err(MISFIT), 1, [0x50, 0]);
    same(&"written", &(answer, end, page), &want)
}

// A big number of sixteen bits, and how many bits are read then.
fn read_number_of<R: Source + Drop>(alloc: Global, source: R) -> Answer<u16> {
    let mut reader = Reader::new(alloc, source);
    let answer = next(&mut reader, Big);
    (answer, reader.bits_read())
}

// A source that fails at the second byte of a number: that is returned, and no bit is counted.
#[test]
fn fails_inside_a_number(rt: HostRuntime) -> Result<(), Fail> {
    let failing = FailAt::new(Cursor::new([0xBE, 0xEF].as_slice()), 2);
    let seen = read_number_of(rt.alloc(), failing);
    let want = (Err(DekuError::Io(ErrorKind::Other)), 0);
    same(&"failing", &seen, &want)
}
