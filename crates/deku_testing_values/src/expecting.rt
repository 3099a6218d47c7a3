//! What values and their bytes are expected to be to one another.

use deku::device::{Sink, Source};
use deku::prelude::{DekuError, DekuReader, DekuWriter, Reader, Writer};
pub use deku_testing::same::same;
use std::alloc::Global;
use std::fmt::Debug;
use std::io::{Cursor, ErrorKind};
use std::test::Fail;

/// Memory that is refused.
pub const NO_MEMORY: DekuError = DekuError::Io(ErrorKind::OutOfMemory);

/// A number that its field cannot hold.
pub const MISFIT: DekuError = DekuError::InvalidParam(
    "bit size of input is larger than requested size",
);

/// A reader of these bytes.
pub fn reader_of<'b>(alloc: Global, bytes: &'b [u8]) -> Reader<Cursor<&'b [u8]>> {
    Reader::new(alloc, Cursor::new(bytes))
}

/// What is read next, under this context.
pub fn next<T: DekuReader<C>, C, R: Source>(reader: &mut Reader<R>, ctx: C) -> Result<T, DekuError>
    requires { T.accepts ctx }
{
    T::from_reader_with_ctx(reader, ctx)
}

/// A writer into memory.
pub fn writer_in(alloc: Global) -> Writer<Cursor<Vec<u8>>> {
    Writer::new(Cursor::new(Vec::new(alloc)))
}

/// The value is written after what is written, under this context.
pub fn put<T: DekuWriter<C>, C, W: Sink>(
    writer: &mut Writer<W>,
    value: &T,
    ctx: C,
) -> Result<(), DekuError>
    requires { T.accepts ctx }
{
    value.to_writer(writer, ctx)
}

/// What the writer wrote, with the last byte filled, are these bytes.
pub fn expect_bytes(
    row: &impl Debug,
    mut writer: Writer<Cursor<Vec<u8>>>,
    wanted: &[u8],
) -> Result<(), Fail> {
    writer.finalize()?;
    same(row, &writer.into_inner().into_inner().as_slice(), &wanted)
}

/// The value is written as these bytes, with the last one filled.
pub fn expect_written<T: DekuWriter<C> + Debug, C>(
    alloc: Global,
    ctx: C,
    value: &T,
    wanted: &[u8],
) -> Result<(), Fail>
    requires { T.accepts ctx }
{
    let mut writer = writer_in(alloc);
    put(&mut writer, value, ctx)?;
    expect_bytes(value, writer, wanted)
}

/// The next value, under this context, is this one, and then so many bits are read.
pub fn expect_next<T: DekuReader<C> + PartialEq + Debug, C, R: Source>(
    reader: &mut Reader<R>,
    ctx: C,
    wanted: T,
    bits: usize,
) -> Result<(), Fail>
    requires { T.accepts ctx }
{
    let value = next::<T, C, R>(reader, ctx);
    same(&bits, &(value, reader.bits_read()), &(Ok(wanted), bits))
}

/// The bytes are read as the value, to the last byte, and it is written as them.
pub fn expect_whole<T: DekuReader<C> + DekuWriter<C> + PartialEq + Debug, C: Copy>(
    alloc: Global,
    ctx: C,
    bytes: &[u8],
    wanted: T,
) -> Result<(), Fail>
    requires reads { T.DekuReader.accepts ctx }
    requires writes { T.DekuWriter.accepts ctx }
{
    let mut reader = reader_of(alloc, bytes);
    let answer = T::from_reader_with_ctx(&mut reader, ctx);
    let read = reader.bits_read().div_ceil(8);
    expect_written(alloc, ctx, &wanted, bytes)?;
    same(&bytes, &(answer, read), &(Ok(wanted), bytes.len()))
}

/// The bytes are refused so after so many bits, and the next byte is read then.
pub fn expect_denied<T: DekuReader<C> + PartialEq + Debug, C>(
    alloc: Global,
    ctx: C,
    bytes: &[u8],
    wanted: (DekuError, usize, u8),
) -> Result<(), Fail>
    requires { T.accepts ctx }
{
    let mut reader = reader_of(alloc, bytes);
    let answer = T::from_reader_with_ctx(&mut reader, ctx);
    let read = reader.bits_read();
    let next = u8::from_reader_with_ctx(&mut reader, ());
    same(
        &bytes,
        &(answer, read, next),
        &(Err(wanted.0), wanted.1, Ok(wanted.2)),
    )
}
