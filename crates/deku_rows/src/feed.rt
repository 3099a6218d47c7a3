//! The bytes of an input, as many as are held at once.

use hex::decode_to_slice;
use std::alloc::{AllocError, AllocFailed, Global};
use std::io;
use std::io::{ErrorKind, Read};

// How many bytes are asked of the input at once.
const PART: usize = 65536;

/// The bytes of an input that were read and not taken yet.
#[derive(Drop)]
pub(crate) struct Feed {
    // The bytes to take.
    bytes: Vec<u8>,
    // What was read last.
    part: Vec<u8>,
    // Hexadecimal digits without their bytes yet: one at most.
    digits: Vec<u8>,
    // Whether the input is bytes, and not hexadecimal text.
    raw: bool,
}

/// Why there are no more bytes.
#[derive(Debug, Drop)]
pub(crate) enum NoBytes {
    /// The input is not hexadecimal text.
    BadText,
    /// The input failed.
    Input(io::Error),
    /// There is no memory.
    NoMemory,
}

impl From<AllocError> for NoBytes {
    fn from(_error: AllocError) -> Self {
        NoBytes::NoMemory
    }
}

impl<T: Drop> From<AllocFailed<T>> for NoBytes {
    fn from(_failed: AllocFailed<T>) -> Self {
        NoBytes::NoMemory
    }
}

impl From<io::Error> for NoBytes {
    fn from(error: io::Error) -> Self {
        NoBytes::Input(error)
    }
}

impl Feed {
    /// A feed that holds nothing yet.
    pub(crate) fn new(alloc: Global, raw: bool) -> Result<Feed, AllocError> {
        Ok(Feed {
            bytes: Vec::new(alloc),
            part: vec![in alloc; 0; PART]?,
            digits: Vec::new(alloc),
            raw,
        })
    }

    /// The bytes to take.
    pub(crate) fn bytes(&self) -> &[u8] {
        self.bytes.as_slice()
    }

    /// Takes this many bytes, or all if there are fewer.
    pub(crate) fn take(&mut self, count: usize) {
        let rest = self.bytes.len().saturating_sub(count);
        let first = self.bytes.len() - rest;
        self.bytes.as_mut_slice().copy_within(first.., 0);
        self.bytes.truncate(rest);
    }

    /// Reads more bytes. Returns whether there may be others after them.
    pub(crate) fn fill<R: Read>(&mut self, input: &mut R) -> Result<bool, NoBytes> {
        let count = read_part(input, self.part.as_mut_slice())?.min(self.part.len());
        let read = &self.part.as_slice()[..count];
        if self.raw {
            self.bytes.extend_from_slice(read)?;
            return Ok(count > 0);
        }
        for byte in read {
            if !byte.is_ascii_whitespace() {
                self.digits.push(*byte)?;
            }
        }
        self.decode(count == 0)?;
        Ok(count > 0)
    }

    // The bytes of the digits. If no digit follows, the last one has to have its byte too.
    fn decode(&mut self, last: bool) -> Result<(), NoBytes> {
        let count = self.digits.len() / 2;
        if last && 2 * count != self.digits.len() {
            return Err(NoBytes::BadText);
        }
        let held = self.bytes.len();
        self.bytes.resize(held + count, 0)?;
        let digits = self.digits.as_slice();
        let Ok(()) = decode_to_slice(&digits[..2 * count], &mut self.bytes[held..]) else {
            return Err(NoBytes::BadText);
        };
        let odd = digits.last().copied();
        let keep = self.digits.len() % 2 == 1;
        self.digits.clear();
        match odd {
            Some(digit) if keep => Ok(self.digits.push(digit)?),
            _ => Ok(()),
        }
    }
}

// Reads bytes to the front of these. An interrupted read is tried again.
fn read_part<R: Read>(input: &mut R, part: &mut [u8]) -> io::Result<usize> {
    for _ in 0..u64::MAX {
        match input.read(part) {
            Err(error) if error.kind() == ErrorKind::Interrupted => {}
            answer => return answer,
        }
    }
    Err(io::Error::new(ErrorKind::TimedOut, "interrupted too often"))
}
