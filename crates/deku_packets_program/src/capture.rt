//! A capture file, packet by packet.

ghost use Rattle.std.specs.Prelude.{◌≡◌, ◌<◌, length, vec_len, IfOk, IfNone, IfSome};
ghost use Rattle.std.specs.Io.KnownBytes.{IsAtEnd};

use crate::failure::Failure;
use deku::prelude::{DekuContainerRead, DekuError};
use deku_capture::pcap::{BigFields, BigPacket, LittleFields, LittlePacket, Start};
use std::alloc::Global;
use std::io::{ErrorKind, Read};

/// The most bytes that a capture keeps of a packet.
pub const MOST_KEPT: u32 = 262_144;

/// What the header of a file says of its packets.
#[derive(Debug, Clone, Copy, PartialEq, Eq)]
pub struct Format {
    /// Whether numbers have their high byte first.
    pub is_big: bool,
    /// Whether times are in nanoseconds.
    pub is_nano: bool,
    /// What the packets begin with.
    pub network: u32,
}

/// The header of a packet.
#[derive(Debug, Clone, Copy, PartialEq, Eq)]
pub struct Captured {
    /// Seconds since the beginning of 1970.
    pub seconds: u32,
    /// The rest of the time, in the file's unit.
    pub fraction: u32,
    /// How many bytes follow.
    pub kept: u32,
    /// How many bytes the packet had.
    pub whole: u32,
}

/// Reads the header of a capture file. It fails where the input does, where the input ends, and
/// where it does not begin as a capture.
pub fn read_format<R: Read>(alloc: Global, input: &mut R) -> Result<Format, Failure> {
    let mut bytes = [0u8; 24];
    let count = fill(input, &mut bytes, "file header", 0)?;
    let start = match Start::from_bytes(alloc, (&bytes[..4], 0)) {
        Ok((_, start)) => start,
        Err(_) if count < 4 => return Err(cut("file header", 0)),
        Err(_) => {
            let fault = DekuError::Parse("not a pcap capture");
            return Err(Failure::new(fault, "magic", 0));
        }
    };
    match format_of(alloc, start, &bytes[4..]) {
        Some(format) if count == 24 => Ok(format),
        _ => Err(cut("file header", 0)),
    }
}

// The file ends in this part, which begins at this byte.
fn cut(part: &'static str, at: u64) -> Failure {
    Failure::new(DekuError::Parse("the file ends"), part, at)
}

// What the header of a file says, with this magic number and these bytes after it.
fn format_of(alloc: Global, start: Start, bytes: &[u8]) -> Option<Format> {
    let is_big = matches!(start, Start::Big | Start::BigNano);
    let is_nano = matches!(start, Start::BigNano | Start::LittleNano);
    let network = if is_big {
        let (_, fields) = BigFields::from_bytes(alloc, (bytes, 0)).ok()?;
        fields.network
    } else {
        let (_, fields) = LittleFields::from_bytes(alloc, (bytes, 0)).ok()?;
        fields.network
    };
    Some(Format {
        is_big,
        is_nano,
        network,
    })
}

/// Reads the header of the next packet, which begins at this byte of the file, and then the
/// packet's bytes into the buffer, which holds these alone then. Returns `None` at the end of the
/// file.
///
/// It fails where the input or the memory does, where the input ends in a packet, and where a
/// header says that more bytes follow than any capture keeps.
pub fn read_captured<R: Read>(
    alloc: Global,
    input: &mut R,
    format: Format,
    at: u64,
    buffer: &mut Vec<u8>,
) -> Result<Option<Captured>, Failure>
    ensures ended { IfOk result (λ o. IfNone o (IsAtEnd (R.remaining input.new))) }
    ensures none { IfOk result (λ o. IfNone o (IsAtEnd (R.remaining input.old))) }
    ensures held { IfOk result (λ o. IfSome o (λ c. vec_len buffer.new ≡ c.kept)) }
{
    let mut bytes = [0u8; 16];
    let count = fill(input, &mut bytes, "packet header", at)?;
    if count == 0 {
        return Ok(None);
    }
    let captured = match captured_of(alloc, format, &bytes) {
        Some(captured) if count == 16 => captured,
        _ => return Err(cut("packet header", at)),
    };
    if captured.kept > MOST_KEPT {
        let fault = DekuError::Parse("more bytes than a capture keeps");
        return Err(Failure::new(fault, "kept", at.saturating_add(8)));
    }
    let size = captured.kept as usize;
    if buffer.resize(size, 0).is_err() {
        return Err(Failure::of_memory("packet", at));
    }
    let start = at.saturating_add(16);
    if fill(input, buffer.as_mut_slice(), "packet", start)? < size {
        return Err(cut("packet", start));
    }
    Ok(Some(captured))
}

// The header of a packet in these bytes.
fn captured_of(alloc: Global, format: Format, bytes: &[u8]) -> Option<Captured> {
    if format.is_big {
        let (_, header) = BigPacket::from_bytes(alloc, (bytes, 0)).ok()?;
        Some(Captured {
            seconds: header.seconds,
            fraction: header.fraction,
            kept: header.kept,
            whole: header.whole,
        })
    } else {
        let (_, header) = LittlePacket::from_bytes(alloc, (bytes, 0)).ok()?;
        Some(Captured {
            seconds: header.seconds,
            fraction: header.fraction,
            kept: header.kept,
            whole: header.whole,
        })
    }
}

// Reads bytes until the buffer is full or the input ends. Returns how many were read. An error is
// one of this part of the file, which begins at this byte.
fn fill<R: Read>(
    input: &mut R,
    buffer: &mut [u8],
    part: &'static str,
    at: u64,
) -> Result<usize, Failure>
    ensures ended { IfOk result (λ n. n < length buffer.new → IsAtEnd (R.remaining input.new)) }
    ensures none { IfOk result (λ n. n ≡ 0 → 0 < length buffer.new
        → IsAtEnd (R.remaining input.old)) }
{
    let mut done = 0;
    for _ in 0..u64::MAX {
        if done >= buffer.len() {
            return Ok(done);
        }
        match input.read(&mut buffer[done..]) {
            Ok(0) => return Ok(done),
            Ok(count) => done += count,
            Err(error) if error.kind() == ErrorKind::Interrupted => {}
            Err(error) => return Err(Failure::of_kind(error.kind(), part, at)),
        }
    }
    Err(Failure::of_kind(ErrorKind::TimedOut, part, at))
}
