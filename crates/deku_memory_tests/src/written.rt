//! Values written into memory, which is asked for as it grows.

use deku::ctx::Endian;
use deku::prelude::{DekuWriter, Writer};
use deku_testing_values::expecting::{NO_MEMORY, same, writer_in};
use std::io::Cursor;
use std::test::Fail;

// Writes BE EF up to so many times, until it is out of memory: then the writer has stopped. It
// returns how many times it wrote.
fn write_until_stopped(writer: &mut Writer<Cursor<Vec<u8>>>, times: usize) -> Result<usize, Fail> {
    for written in 0..times {
        if let Err(refusal) = 0xBEEFu16.to_writer(writer, Endian::Big) {
            let kept = writer.write_bits(&[]);
            same(&written, &(refusal, kept), &(NO_MEMORY, Err(NO_MEMORY)))?;
            return Ok(written);
        }
    }
    Ok(times)
}

#[test]
fn grown_or_stopped(rt: HostRuntime) -> Result<(), Fail> {
    let mut writer = writer_in(rt.alloc());
    let written = write_until_stopped(&mut writer, 40)?;
    same(&"count", &(writer.bits_written() / 16), &written)?;
    let bytes = writer.into_inner().into_inner();
    for pair in bytes.as_slice().chunks_exact(2).take(written) {
        same(&written, &pair, &[0xBE, 0xEF].as_slice())?;
    }
    Ok(())
}
