//! The program: from a capture to a line for each of its packets.

ghost use Rattle.std.specs.Prelude.{◌≡◌, ◌≤◌, OnOk};
ghost use Rattle.std.specs.Io.KnownBytes.{IsAtEnd};
ghost use Rattle.deku_packets_program.specs.Failures.{IsTold};

use crate::capture::{Captured, Format, read_captured, read_format};
use crate::failure::Failure;
use crate::line::add_packet;
use crate::shown::{Shown, Verdict};
use deku_packets::check::first_change;
use deku_packets::packet::read_packet;
use deku_program::give_text;
use std::alloc::{AllocError, Global};
use std::io::{Read, Write};

/// What is printed of each packet.
#[derive(Debug, Clone, Copy, PartialEq, Eq)]
pub struct Wanted {
    /// An object of JSON in place of words.
    pub json: bool,
    /// Whether each packet is written back as it was read.
    pub check: bool,
}

/// Prints each packet of a capture. Returns the status: 0 if the capture is read to its end, and
/// otherwise 1. Then a line on `errors` says what is wrong, in which part of the file, and at which
/// byte that begins.
///
/// A packet that cannot be read has in its line which layer and field cannot, and where in the file
/// that is; the next packet is read. One packet is held in memory at a time.
///
/// ```text
/// run(alloc, wanted, &mut input, &mut output, &mut errors)                  // 0
/// ```
pub fn run<R: Read, W: Write, E: Write>(
    alloc: Global,
    wanted: Wanted,
    input: &mut R,
    output: &mut W,
    errors: &mut E,
) -> u8
    ensures status { result ≤ 1 }
    ensures ended { result ≡ 0 → IsAtEnd (R.remaining input.new) }
    ensures quiet { result ≡ 0 → errors.new ≡ errors.old }
    ensures told { result ≡ 1 → IsTold (E.contents errors.old) (E.contents errors.new) }
{
    match show_all(alloc, wanted, input, output) {
        Ok(()) => 0,
        Err(failure) => {
            let _ = failure.tell(errors);
            1
        }
    }
}

// Prints each packet of a capture.
fn show_all<R: Read, W: Write>(
    alloc: Global,
    wanted: Wanted,
    input: &mut R,
    output: &mut W,
) -> Result<(), Failure>
    ensures { OnOk result (IsAtEnd (R.remaining input.new)) }
{
    let format = read_format(alloc, input)?;
    let mut at = 24u64;
    let mut buffer = Vec::new(alloc);
    let mut text = String::new(alloc);
    for _ in 0..u64::MAX {
        let Some(captured) = read_captured(alloc, input, format, at, &mut buffer)? else {
            return flush(output, at);
        };
        text.clear();
        if add_text(alloc, wanted, &mut text, format, captured, at, &buffer).is_err() {
            return Err(Failure::of_memory("packet", at));
        }
        give(output, &text, at)?;
        at = at.saturating_add(16 + captured.kept as u64);
    }
    Err(Failure::of_memory("file", at))
}

// Writes a text to the output, when this many bytes of the file are read.
fn give<W: Write>(output: &mut W, text: &String, at: u64) -> Result<(), Failure> {
    match give_text(output, text.as_bytes()) {
        Ok(()) => Ok(()),
        Err(error) => Err(Failure::of_kind(error.kind(), "output", at)),
    }
}

// Writes what the output has kept so far.
fn flush<W: Write>(output: &mut W, at: u64) -> Result<(), Failure> {
    match output.flush() {
        Ok(()) => Ok(()),
        Err(error) => Err(Failure::of_kind(error.kind(), "output", at)),
    }
}

// Adds what is printed of a packet, whose header begins at this byte of the file.
fn add_text(
    alloc: Global,
    wanted: Wanted,
    text: &mut String,
    format: Format,
    captured: Captured,
    at: u64,
    bytes: &[u8],
) -> Result<(), AllocError> {
    let packet = read_packet(alloc, bytes, captured.whole as usize, format.network);
    let verdict = if wanted.check {
        Some(match first_change(alloc, bytes, &packet) {
            Ok(None) => Verdict::Same,
            Ok(Some(index)) => Verdict::Differs(index),
            Err(_) => return Err(AllocError),
        })
    } else {
        None
    };
    let shown = Shown {
        format,
        captured,
        at: at.saturating_add(16),
        bytes,
        packet: &packet,
        verdict,
    };
    if wanted.json {
        match serde_json::to_string(alloc, &shown) {
            Ok(object) => text.push_str(object.as_str())?,
            Err(_) => return Err(AllocError),
        }
    } else {
        add_packet(text, &shown)?;
    }
    text.push_str("\n")
}
