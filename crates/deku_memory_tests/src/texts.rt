//! Texts: a byte that no memory is found for was read.

use crate::expecting::expect_items;
use deku::cstring::CString;
use deku::ctx::ByteSize;
use deku::prelude::{DekuError, DekuReader, Reader};
use deku_testing_values::expecting::{NO_MEMORY, next, reader_of, same};
use std::io::Cursor;
use std::test::Fail;

const BYTES: [u8; 7] = [1, 2, 3, 4, 5, 0, 7];

// The first five bytes are read, with the zero after them, or it is out of memory for one of the
// six bytes, which was read; and the next byte is the one after it.
fn expect_five(
    mut reader: Reader<Cursor<&[u8]>>,
    answer: Result<CString, DekuError>,
) -> Result<(), Fail> {
    let read = reader.bits_read() / 8;
    let next = u8::from_reader_with_ctx(&mut reader, ())?;
    let wanted = BYTES.get(read).copied();
    same(&read, &(read > 0, Some(next)), &(true, wanted))?;
    match answer {
        Ok(text) => same(&"text", &(text.as_bytes(), read), &(&BYTES[..5], 6)),
        Err(refusal) => same(&"refused", &refusal, &NO_MEMORY),
    }
}

#[test]
fn read_or_no_memory(rt: HostRuntime) -> Result<(), Fail> {
    let mut reader = reader_of(rt.alloc(), &BYTES);
    let text = next(&mut reader, ());
    expect_five(reader, text)?;
    let mut reader = reader_of(rt.alloc(), &BYTES);
    let text = next(&mut reader, ByteSize(6));
    expect_five(reader, text)
}

#[test]
fn with_the_zero_or_no_memory(rt: HostRuntime) -> Result<(), Fail> {
    let text = CString::new(BYTES[..2].to_vec(rt.alloc())?).ok_or("no text")?;
    let with_zero = text.as_bytes_with_nul(rt.alloc());
    expect_items("with its zero", with_zero, &[1, 2, 0])?;
    same(&"text", &text.as_bytes(), &&BYTES[..2])
}
