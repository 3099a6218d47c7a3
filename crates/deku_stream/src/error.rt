//! The errors of reads and writes.

ghost use Rattle.std.specs.Prelude.{◌≡◌, ◌+◌, ◌/◌, codes};
ghost use Rattle.std.specs.IoError.{error_kind};
ghost use Rattle.std.specs.declared.io.ErrorKind.TheVariants.{OutOfMemory};
ghost use Rattle.deku_stream.specs.Faults.{error_of, kind_of, Tells};
ghost use Rattle.deku_stream.specs.declared.error.DekuError.TheVariants.{Parse, Io};

use std::alloc::{AllocError, AllocFailed};
use std::array::TryFromSliceError;
use std::io;
use std::io::ErrorKind;
use std::num::TryFromIntError;
use thiserror::Error;

/// How many bits were asked for by a read that met the end of the input.
#[derive(Debug, Clone, Copy, PartialEq, Eq)]
pub struct NeedSize {
    bits: usize,
}

impl NeedSize {
    /// This many bits.
    ///
    /// ```text
    /// DekuError::Incomplete(NeedSize::new(12))                // a read of twelve bits met the end
    /// ```
    pub fn new(bits: usize) -> NeedSize
        ensures { result.bits ≡ bits }
    {
        NeedSize { bits }
    }

    /// The bits that were asked for.
    ///
    /// ```text
    /// NeedSize::new(12).bit_size()                               // 12
    /// ```
    pub fn bit_size(&self) -> usize
        ensures { result ≡ self.now.bits }
    {
        self.bits
    }

    /// The number of bytes that these bits need: an eighth of them, rounded up.
    ///
    /// ```text
    /// NeedSize::new(12).byte_size()                              // 2
    /// ```
    pub fn byte_size(&self) -> usize
        ensures { result ≡ (self.now.bits + 7) / 8 }
    {
        self.bits.div_ceil(8)
    }
}

/// Why a read or a write failed.
#[derive(Debug, Clone, Copy, PartialEq, Eq, Error)]
pub enum DekuError {
    /// The input ended before the last of the bits that were asked for.
    #[error("Not enough data, need {} bits (or {} bytes)", .0.bit_size(), .0.byte_size())]
    Incomplete(NeedSize),
    /// What was read is not a value of the type.
    #[error("Parse error: {0}")]
    Parse(&'static str),
    /// A value cannot be written, or a size cannot be asked for.
    #[error("Invalid param error: {0}")]
    InvalidParam(&'static str),
    /// A check of the record itself failed.
    #[error("{0}")]
    Assertion(&'static str),
    /// No variant has the id that was read.
    #[error("Could not resolve `id` for variant")]
    IdVariantNotFound,
    /// The source or the sink failed, or there was no memory.
    #[error("io errorr: {0:?}")]
    Io(ErrorKind),
}

impl DekuError {
    /// The matching kind of io error.
    ///
    /// ```text
    /// DekuError::Incomplete(NeedSize::new(8)).io_kind()  // UnexpectedEof
    /// DekuError::IdVariantNotFound.io_kind()             // NotFound
    /// ```
    pub fn io_kind(&self) -> ErrorKind
        ensures { result ≡ kind_of self.now }
    {
        match *self {
            DekuError::Incomplete(_) => ErrorKind::UnexpectedEof,
            DekuError::Parse(_) | DekuError::Assertion(_) => ErrorKind::InvalidData,
            DekuError::InvalidParam(_) => ErrorKind::InvalidInput,
            DekuError::IdVariantNotFound => ErrorKind::NotFound,
            DekuError::Io(kind) => kind,
        }
    }
}

/// A number that the type cannot hold is `Parse("error parsing int")`.
impl From<TryFromIntError> for DekuError {
    ghost from_gives = { λ _ e. Tells Parse (codes "error parsing int") e };

    fn from(_error: TryFromIntError) -> DekuError {
        DekuError::Parse("error parsing int")
    }
}

/// A slice whose length is not that of the array is `Parse("error parsing from slice")`.
impl From<TryFromSliceError> for DekuError {
    ghost from_gives = { λ _ e. Tells Parse (codes "error parsing from slice") e };

    fn from(_error: TryFromSliceError) -> DekuError {
        DekuError::Parse("error parsing from slice")
    }
}

/// An io error is `Io` of its kind.
impl From<io::Error> for DekuError {
    ghost from_gives = { λ error e. e ≡ Io (error_kind error) };

    fn from(error: io::Error) -> DekuError {
        DekuError::Io(error.kind())
    }
}

/// A vector that found no memory for an item is `Io(OutOfMemory)`. The item is dropped.
impl<T: Drop> From<AllocFailed<T>> for DekuError {
    ghost from_gives = { λ _ e. e ≡ Io OutOfMemory };

    fn from(_failed: AllocFailed<T>) -> DekuError {
        DekuError::Io(ErrorKind::OutOfMemory)
    }
}

/// An allocation that found no memory is `Io(OutOfMemory)`.
impl From<AllocError> for DekuError {
    ghost from_gives = { λ _ e. e ≡ Io OutOfMemory };

    fn from(_error: AllocError) -> DekuError {
        DekuError::Io(ErrorKind::OutOfMemory)
    }
}

/// What stops a reader or a writer: the end of the input, or an error of its device. It is kept,
/// and returned again.
#[derive(Clone, Copy)]
pub enum Fault {
    /// The input ended before the last of the bits that were asked for.
    Incomplete(NeedSize),
    /// The source or the sink failed.
    Io(ErrorKind),
}

impl Fault {
    /// The fault as an error.
    ///
    /// ```text
    /// Fault::Io(ErrorKind::Other).error()                       // DekuError::Io(ErrorKind::Other)
    /// ```
    pub fn error(self) -> DekuError
        ensures { result ≡ error_of self }
    {
        match self {
            Fault::Incomplete(need) => DekuError::Incomplete(need),
            Fault::Io(kind) => DekuError::Io(kind),
        }
    }
}
