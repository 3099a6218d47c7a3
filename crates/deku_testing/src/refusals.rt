//! What calls are refused with, in tables.

use deku_bits::error::{DekuError, NeedSize};
use std::io;
use std::io::ErrorKind;
use std::test::Fail;

/// What a call is refused with.
#[derive(Clone, Copy)]
pub enum Refusal {
    /// The input ended before so many bits.
    Until(usize),
    /// The count would be past its type.
    Past,
    /// The device or the memory failed.
    Io(ErrorKind),
}

/// A device that fails.
pub const FAILED: Refusal = Refusal::Io(ErrorKind::Other);

/// No memory is found.
pub const NO_MEMORY: Refusal = Refusal::Io(ErrorKind::OutOfMemory);

impl Refusal {
    /// The error that says so.
    pub fn error(self) -> DekuError {
        match self {
            Refusal::Until(bits) => DekuError::Incomplete(NeedSize::new(bits)),
            Refusal::Past => DekuError::InvalidParam("count past usize"),
            Refusal::Io(kind) => DekuError::Io(kind),
        }
    }
}

/// The refusal that is wanted, if there is one.
pub fn refused<T>(want: &Result<T, Refusal>) -> Option<DekuError> {
    match want {
        Ok(_) => None,
        Err(refusal) => Some(refusal.error()),
    }
}

/// What a call should return.
pub fn wanted<T: Copy>(want: &Result<T, Refusal>) -> Result<T, DekuError> {
    match want {
        Ok(value) => Ok(*value),
        Err(refusal) => Err(refusal.error()),
    }
}

/// What a stream returns, with the kind of its fault.
pub fn kind_of<T>(answer: io::Result<T>) -> Result<T, ErrorKind> {
    match answer {
        Ok(value) => Ok(value),
        Err(error) => Err(error.kind()),
    }
}

/// Memory that was refused is handed on.
pub fn handed(lacking: bool) -> Result<(), Fail> {
    if lacking {
        return Err(NO_MEMORY.error())?;
    }
    Ok(())
}
