//! What records and their bytes are expected to be to one another, and what is refused.

use deku::padded_bytes;
use deku::prelude::{
    DekuContainerRead, DekuContainerWrite, DekuError, DekuReader, DekuWriter, Reader,
};
use deku_pieces::read_whole;
use std::alloc::Global;
use std::fmt::Debug;
use std::io::Cursor;
use std::test::Fail;

/// The value is written as these bytes, padded with zeros, and read from them and what follows,
/// with so many bits counted.
pub fn expect_both_ways<T: DekuReader<C> + DekuWriter<C> + PartialEq + Debug + Drop, C: Copy>(
    alloc: Global,
    ctx: C,
    value: &T,
    bits: usize,
    bytes: &[u8],
) -> Result<(), Fail>
    requires reads { T.DekuReader.accepts ctx }
    requires writes { T.DekuWriter.accepts ctx }
{
    let written = padded_bytes(value, alloc, ctx);
    let mut more = bytes.to_vec(alloc)?;
    more.push(0xF2)?;
    let read = read_whole::<C, T>(alloc, more.as_slice(), ctx);
    match (&written, &read) {
        (Ok(written), Ok((count, read)))
            if written.as_slice() == bytes && *count == bits && *read == *value => { Ok(()) }
        _ => Err(Fail::new(format_args!(
            "{value:?}: written as {written:?}, and read as {read:?}, not as {bits} bits"
        ))),
    }
}

/// The record is written as these bytes, whichever call writes it, and read from them and what
/// follows, whichever call reads it: the bytes are whole, and what follows is left.
pub fn expect_record<T: DekuContainerRead + DekuContainerWrite + PartialEq + Debug + Drop>(
    alloc: Global,
    value: &T,
    bytes: &[u8],
) -> Result<(), Fail>
    requires reads { T.DekuReader.accepts tt }
    requires writes { T.DekuWriter.accepts tt }
{
    expect_both_ways(alloc, (), value, bytes.len().saturating_mul(8), bytes)?;
    let whole = value.to_bytes(alloc);
    let mut more = bytes.to_vec(alloc)?;
    more.push(0x99)?;
    let read = T::from_bytes(alloc, (more.as_slice(), 0));
    match (&whole, &read) {
        (Ok(whole), Ok((([0x99], 0), read))) if whole.as_slice() == bytes && *read == *value => {
            Ok(())
        }
        _ => Err(Fail::new(format_args!(
            "{value:?}: written as {whole:?}, and read, with what is left, as {read:?}"
        ))),
    }
}

/// The bytes are refused so, after so many bits of them.
pub fn expect_refusal<T: DekuReader<()> + PartialEq + Debug + Drop>(
    alloc: Global,
    bytes: &[u8],
    refusal: DekuError,
    bits: usize,
) -> Result<(), Fail>
    requires { T.accepts tt }
{
    let mut reader = Reader::new(alloc, Cursor::new(bytes));
    let answer = T::from_reader_with_ctx(&mut reader, ());
    let count = reader.bits_read();
    if answer == Err(refusal) && count == bits {
        return Ok(());
    }
    Err(Fail::new(format_args!(
        "{bytes:?}: {answer:?} after {count} bits, and not {refusal:?} after {bits}"
    )))
}
