//! Logs as bytes, and back.

use crate::log::{read_log, sample_of, write_log};
use crate::sample::Sample;
use deku::prelude::{DekuError, DekuReader, NeedSize, Reader, Writer};
use std::io::Cursor;
use std::test::Fail;

const BYTES: &[u8] = &[0x69, 0xC0, 0xFE, 0x69, 0xC0, 0xFF];

#[test]
fn both_ways(rt: HostRuntime) -> Result<(), Fail> {
    let samples = [sample_of(0xC0FE), sample_of(0xC0FF)];
    let mut writer = Writer::new(Cursor::new(Vec::new(rt.alloc())));
    write_log(&mut writer, &samples)?;
    assert_eq!(rt; writer.into_inner().into_inner().as_slice(), BYTES);
    let read = read_log(&mut Reader::new(rt.alloc(), Cursor::new(BYTES)))?;
    assert_eq!(rt; read.as_slice(), samples.as_slice());
    Ok(())
}

#[test]
fn a_short_sample(rt: HostRuntime) -> Result<(), Fail> {
    let mut reader = Reader::new(rt.alloc(), Cursor::new(&BYTES[..2]));
    let error = DekuError::Incomplete(NeedSize::new(16));
    let read = Sample::from_reader_with_ctx(&mut reader, ());
    assert_eq!(rt; read, Err(error));
    assert_eq!(rt; reader.bits_read(), 8); // where `value` begins
    Ok(())
}
