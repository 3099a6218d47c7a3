//! Writes samples to a file, and prints those of a file or of the standard input.
#![tactic(auto)]

use crate::log::{sample_of, show, sum, write_log};
use deku::noseek::NoSeek;
use deku::prelude::{DekuError, Reader, Writer};
use std::fs::File;
use std::io::{BufReader, BufWriter, Write};
use std::process::ExitCode;
use std::{env, io};

#[cfg(test)]
mod batch;
#[cfg(test)]
mod event;
mod log;
mod sample;
#[cfg(test)]
mod tests;
#[cfg(test)]
mod timed;

fn main(rt: HostRuntime) -> io::Result<ExitCode> {
    let words: Vec<String> = env::args(&rt)?.collect(rt.alloc())?;
    let path = words.get(2).map_or("", |word| word.as_str());
    let ran = match words.get(1).map_or("", |word| word.as_str()) {
        "write" => write(&rt, path),
        "read" => read(&rt, path),
        "sum" => print_sum(&rt, path),
        _ => read_input(&rt),
    };
    match ran {
        Ok(()) => Ok(ExitCode::from(0)),
        Err(error) => {
            eprintln!(rt; "error: {error}")?;
            Ok(ExitCode::from(1))
        }
    }
}

// Writes two samples to a file.
fn write(rt: &HostRuntime, path: &str) -> Result<(), DekuError> {
    let file = BufWriter::new(rt.alloc(), File::create(rt, path)?)?;
    let mut writer = Writer::new(file);
    write_log(&mut writer, &[sample_of(0xC0FE), sample_of(0xC0FF)])?;
    writer.into_inner().flush()?; // reports what dropping it would lose
    Ok(())
}

// Prints the samples of a file.
fn read(rt: &HostRuntime, path: &str) -> Result<(), DekuError> {
    let file = BufReader::new(rt.alloc(), File::open(rt, path)?)?;
    show(rt, &mut Reader::new(rt.alloc(), file))
}

// Prints the samples of the standard input, which cannot seek.
fn read_input(rt: &HostRuntime) -> Result<(), DekuError> {
    let input = BufReader::new(rt.alloc(), NoSeek::new(rt.stdin()))?;
    show(rt, &mut Reader::new(rt.alloc(), input))
}

// Prints the sum of the numbers of a file.
fn print_sum(rt: &HostRuntime, path: &str) -> Result<(), DekuError> {
    let file = BufReader::new(rt.alloc(), File::open(rt, path)?)?;
    let total = sum(&mut Reader::new(rt.alloc(), file))?;
    println!(rt; "{total}")?;
    Ok(())
}
