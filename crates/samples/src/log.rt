//! A log: samples one after the other.

use crate::sample::Sample;
use deku::ctx::{Endian, Limit};
use deku::device::{Sink, Source};
use deku::prelude::{DekuError, DekuReader, DekuWriter, Reader, Writer};

/// A sample of sensor 6 in state 9.
pub fn sample_of(value: u16) -> Sample {
    Sample {
        sensor: 6,
        state: 9,
        value,
    }
}

/// Writes samples.
pub fn write_log<W: Sink>(writer: &mut Writer<W>, samples: &[Sample]) -> Result<(), DekuError> {
    for sample in samples {
        sample.to_writer(writer, ())?;
    }
    writer.finalize()
}

/// Reads samples to the end of the input.
pub fn read_log<R: Source>(reader: &mut Reader<R>) -> Result<Vec<Sample>, DekuError> {
    Vec::from_reader_with_ctx(reader, (Limit::end(), ()))
}

/// Prints samples to the end of the input. At an error it prints where that is.
pub fn show<R: Source>(rt: &HostRuntime, reader: &mut Reader<R>) -> Result<(), DekuError> {
    for _ in 0..u64::MAX {
        if reader.end()? {
            break;
        }
        let start = reader.bits_read();
        match Sample::from_reader_with_ctx(reader, ()) {
            Ok(sample) => println!(rt; "{sample:?}")?,
            Err(error) => {
                let at = reader.bits_read();
                println!(rt; "sample at bit {start}, error at bit {at}")?;
                return Err(error);
            }
        }
    }
    Ok(())
}

/// The sum of numbers of two bytes, to the end of the input. It takes no memory.
pub fn sum<R: Source>(reader: &mut Reader<R>) -> Result<u64, DekuError> {
    let mut sum = 0u64;
    for _ in 0..u64::MAX {
        if reader.end()? {
            break;
        }
        let number = u16::from_reader_with_ctx(reader, Endian::Big)?;
        sum = sum.wrapping_add(number as u64);
    }
    Ok(sum)
}

#[cfg(test)]
mod tests;
