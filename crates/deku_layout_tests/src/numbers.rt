//! What rows of worked examples expect of numbers.
//!
//! Of deku's own tests of numbers, `test_f32` and `test_f64` have no counterpart: no number with a
//! point is read or written.

ghost use Rattle.std.specs.Prelude.{◌≤◌};

use deku::ctx::{Endian, Layout, Order, Size};
use deku::device::{Sink, Source};
use deku::prelude::{DekuError, DekuReader, DekuWriter, Reader, Writer};
use deku_testing::same::same;
use std::alloc::Global;
use std::fmt::Debug;
use std::io::Cursor;
use std::process::Abort;
use std::test::Fail;

pub const MISFIT: DekuError = DekuError::InvalidParam(
    "bit size of input is larger than requested size",
);

// How a number is laid out, its bytes as digits, and its value.
pub type Row<T> = (Endian, Order, Size, &'static str, T);

// How a number is laid out, and a value that does not fit there.
pub type Misfit<T> = (Endian, Order, Size, T);

// What is in a page before.
const THERE: u8 = 0xA5;

// What a hexadecimal digit counts.
fn digit(code: u8) -> u8
    ensures { result ≤ 15 }
{
    match code {
        b'0'..=b'9' => code - b'0',
        b'A'..=b'F' => code - b'A' + 10,
        _ => 0,
    }
}

// The bytes that pairs of hexadecimal digits name, at most sixteen, in front of what is there; and
// how many they are.
fn bytes_of(digits: &str) -> ([u8; 16], usize)
    ensures { result.1 ≤ 16 }
{
    let mut bytes = [THERE; 16];
    for (byte, pair) in bytes.iter_mut().zip(digits.as_bytes().chunks(2)) {
        if let [high, low] = pair {
            *byte = 16 * digit(*high) + digit(*low);
        }
    }
    (bytes, (digits.len() / 2).min(16))
}

fn layout_of(endian: Endian, order: Order, size: Size) -> Layout {
    Layout {
        endian,
        order,
        size,
    }
}

// Reads the value from a source, and counts the bytes that it touched.
fn read_one<T: DekuReader<Layout>, R: Source + Drop>(
    alloc: Global,
    source: R,
    layout: Layout,
) -> Result<(T, usize), DekuError>
    requires { T.accepts layout }
{
    let mut reader = Reader::new(alloc, source);
    let value = T::from_reader_with_ctx(&mut reader, layout)?;
    Ok((value, reader.bits_read().div_ceil(8)))
}

// Writes the value from nothing, fills the last byte, and gives the sink back.
fn write_one<T: DekuWriter<Layout>, W: Sink + Drop>(
    sink: W,
    value: &T,
    layout: Layout,
) -> Result<W, DekuError>
    requires { T.accepts layout }
{
    let mut writer = Writer::new(sink);
    value.to_writer(&mut writer, layout)?;
    writer.finalize()?;
    Ok(writer.into_inner())
}

// The row's bytes are read as its value, to the last byte, and the value is written as its bytes.
fn expect_row<T: DekuReader<Layout> + DekuWriter<Layout> + PartialEq + Debug>(
    rt: &impl Abort,
    alloc: Global,
    row: &Row<T>,
) -> Result<(), Fail>
    requires reads { (layout : Layout) → T.DekuReader.accepts layout }
    requires writes { (layout : Layout) → T.DekuWriter.accepts layout }
{
    let (endian, order, size, digits, value) = row;
    let layout = layout_of(*endian, *order, *size);
    let (bytes, len) = bytes_of(digits);
    let (read, count) = read_one::<T, _>(alloc, Cursor::new(&bytes[..len]), layout)?;
    let mut page = [THERE; 16];
    let end = write_one(Cursor::new(page.as_mut_slice()), value, layout)?.position();
    let seen = (count, end, page);
    let is_same = read == *value && seen == (len, len as u64, bytes);
    assert!(rt; is_same, "{row:?}: {read:?}, {seen:?}");
    Ok(())
}

// Each row both ways.
fn expect_both_ways<T: DekuReader<Layout> + DekuWriter<Layout> + PartialEq + Debug>(
    rt: &impl Abort,
    alloc: Global,
    rows: &[Row<T>],
) -> Result<(), Fail>
    requires reads { (layout : Layout) → T.DekuReader.accepts layout }
    requires writes { (layout : Layout) → T.DekuWriter.accepts layout }
{
    for row in rows {
        expect_row(rt, alloc, row)?;
    }
    Ok(())
}

// The values do not fit, and nothing is written.
fn expect_misfits<T: DekuWriter<Layout> + Debug>(rows: &[Misfit<T>]) -> Result<(), Fail>
    requires { (layout : Layout) → T.accepts layout }
{
    for (endian, order, size, value) in rows {
        let layout = layout_of(*endian, *order, *size);
        expect_unwritten(value, layout, MISFIT)?;
    }
    Ok(())
}

// Why the layout is refused when it is read; how many bits are read then, the next byte, and the
// source after that.
fn read_refused<T: DekuReader<Layout>, R: Source + Drop>(
    alloc: Global,
    source: R,
    layout: Layout,
) -> Result<(Option<DekuError>, usize, [u8; 1], R), DekuError>
    requires { T.accepts layout }
{
    let mut reader = Reader::new(alloc, source);
    let refusal = T::from_reader_with_ctx(&mut reader, layout).err();
    let read = reader.bits_read();
    let mut byte = [0];
    reader.read_bytes_const_into(&mut byte, Order::Msb0)?;
    Ok((refusal, read, byte, reader.into_inner()))
}

// A layout refuses to be read with this error, and the reader stays where it was.
fn expect_unread<T: DekuReader<Layout> + Debug>(
    alloc: Global,
    layout: Layout,
    error: DekuError,
) -> Result<(), Fail>
    requires { (layout : Layout) → T.accepts layout }
{
    let page = [THERE; 16];
    let source = Cursor::new(page.as_slice());
    let (refusal, read, byte, source) = read_refused::<T, _>(alloc, source, layout)?;
    let seen = (refusal, read, byte, source.position());
    same(&layout, &seen, &(Some(error), 0, [THERE], 1))
}

// Why the value is refused when it is written; and the sink after the last byte is filled.
fn write_refused<T: DekuWriter<Layout>, W: Sink + Drop>(
    sink: W,
    value: &T,
    layout: Layout,
) -> Result<(Option<DekuError>, W), DekuError>
    requires { T.accepts layout }
{
    let mut writer = Writer::new(sink);
    let refusal = value.to_writer(&mut writer, layout).err();
    writer.finalize()?;
    Ok((refusal, writer.into_inner()))
}

// A layout refuses to be written with this error, and nothing is written.
fn expect_unwritten<T: DekuWriter<Layout> + Debug>(
    value: &T,
    layout: Layout,
    error: DekuError,
) -> Result<(), Fail>
    requires { (layout : Layout) → T.accepts layout }
{
    let mut page = [THERE; 16];
    let sink = Cursor::new(page.as_mut_slice());
    let (refusal, sink) = write_refused(sink, value, layout)?;
    let end = sink.position();
    let want = (Some(error), 0, [THERE; 16]);
    same(&(value, layout), &(refusal, end, page), &want)
}

// A layout refuses to be read and to be written with these errors, and nothing moves.
pub fn expect_beyond<T: DekuReader<Layout> + DekuWriter<Layout> + Debug>(
    alloc: Global,
    value: &T,
    layout: Layout,
    errors: (DekuError, DekuError),
) -> Result<(), Fail>
    requires reads { (layout : Layout) → T.DekuReader.accepts layout }
    requires writes { (layout : Layout) → T.DekuWriter.accepts layout }
{
    expect_unread::<T>(alloc, layout, errors.0)?;
    expect_unwritten(value, layout, errors.1)
}

// One bit more than a type has, one byte more, and as many bytes as can be counted are refused.
pub fn expect_one_beyond<T: DekuReader<Layout> + DekuWriter<Layout> + Debug>(
    alloc: Global,
    value: T,
    bits: usize,
) -> Result<(), Fail>
    requires reads { (layout : Layout) → T.DekuReader.accepts layout }
    requires writes { (layout : Layout) → T.DekuWriter.accepts layout }
{
    let read = DekuError::Parse("too much data");
    let (bit, byte) = (
        DekuError::InvalidParam("bit size is larger than input"),
        DekuError::InvalidParam("byte size is larger than input"),
    );
    for (size, written) in [
        (Size::Bits(bits.saturating_add(1)), bit),
        (Size::Bytes(bits / 8 + 1), byte),
        (Size::Bytes(usize::MAX), byte),
    ] {
        let layout = layout_of(Endian::Big, Order::Lsb0, size);
        expect_beyond(alloc, &value, layout, (read, written))?;
    }
    Ok(())
}

// The rows of a type are read and written, and its misfits are refused.
pub fn expect_rows<T: DekuReader<Layout> + DekuWriter<Layout> + PartialEq + Debug>(
    rt: &impl Abort,
    alloc: Global,
    rows: &[Row<T>],
    misfits: &[Misfit<T>],
) -> Result<(), Fail>
    requires reads { (layout : Layout) → T.DekuReader.accepts layout }
    requires writes { (layout : Layout) → T.DekuWriter.accepts layout }
{
    expect_both_ways(rt, alloc, rows)?;
    expect_misfits(misfits)
}
