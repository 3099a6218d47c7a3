//! A file that is written, sought in and read through buffers.

use deku::ctx::{BitSize, Endian};
use deku::prelude::{DekuError, DekuReader, DekuWriter, Reader, Writer};
use deku_testing_values::expecting::same;
use std::fs;
use std::fs::File;
use std::io::{BufReader, BufWriter, Seek, SeekFrom, Write};
use std::test::Fail;

// In the folder where the tests run.
const PATH: &str = "halves_and_number.bin";

// Writes 69 C0 FE.
fn write_file(rt: &HostRuntime) -> Result<(), DekuError> {
    let file = BufWriter::new(rt.alloc(), File::create(rt, PATH)?)?;
    let mut writer = Writer::new(file);
    (6u8, 9u8).to_writer(&mut writer, (Endian::Big, BitSize(4)))?;
    0xC0FEu16.to_writer(&mut writer, Endian::Big)?;
    writer.finalize()?;
    writer.into_inner().flush()?; // reports what dropping it would lose
    Ok(())
}

// Reads the number in the last two bytes, and then the first four bits.
fn read_file(rt: &HostRuntime) -> Result<(u16, u8), DekuError> {
    let file = BufReader::new(rt.alloc(), File::open(rt, PATH)?)?;
    let mut reader = Reader::new(rt.alloc(), file);
    reader.seek(SeekFrom::Start(1))?;
    let number = u16::from_reader_with_ctx(&mut reader, Endian::Big)?; // 0xC0FE
    reader.seek(SeekFrom::Start(0))?;
    let half = u8::from_reader_with_ctx(&mut reader, (Endian::Big, BitSize(4)))?; // 6
    Ok((number, half))
}

#[test]
fn writes_seeks_and_reads_in_a_file(rt: HostRuntime) -> Result<(), Fail> {
    same(&"written", &write_file(&rt), &Ok(()))?;
    same(&"read", &read_file(&rt), &Ok((0xC0FE, 6)))?;
    Ok(fs::remove_file(&rt, PATH)?)
}
