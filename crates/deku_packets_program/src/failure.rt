//! Why a run ends before the end of its capture.

ghost use Rattle.std.specs.Prelude.{OnOk};
ghost use Rattle.std.specs.Io.KnownBytes.{Appends};
ghost use Rattle.deku_program.specs.Outputs.{IsBegun};
ghost use Rattle.deku_packets_program.specs.Failures.{message};

use deku::DekuError;
use deku_program::tell_fault;
use itoa::Buffer;
use std::io;
use std::io::{ErrorKind, Write};

/// Why a run ends before the end of its capture, and where.
#[derive(Debug, Clone, Copy, PartialEq, Eq)]
pub struct Failure {
    /// What is wrong.
    pub fault: DekuError,
    /// In which part of the file, or `output`.
    pub part: &'static str,
    /// The index in the file of the byte at which that part begins.
    pub at: u64,
}

impl Failure {
    /// What is wrong with this part of the file, which begins at this byte.
    pub fn new(fault: DekuError, part: &'static str, at: u64) -> Failure {
        Failure { fault, part, at }
    }

    /// The input or the output failed.
    pub fn of_kind(kind: ErrorKind, part: &'static str, at: u64) -> Failure {
        Failure::new(DekuError::Io(kind), part, at)
    }

    /// There is no memory for this part.
    pub fn of_memory(part: &'static str, at: u64) -> Failure {
        Failure::of_kind(ErrorKind::OutOfMemory, part, at)
    }

    /// Prints the failure as a line. If `errors` fails, it has taken a beginning of the line.
    ///
    /// ```text
    /// failure.tell(&mut errors)?;  // error: Parse error: the file ends, in packet, at byte 24
    /// ```
    pub fn tell<E: Write>(&self, errors: &mut E) -> io::Result<()>
        ensures told { OnOk result (Appends (E.contents errors.old) (E.contents errors.new)
            (message self.now)) }
        ensures begun { IsBegun (E.contents errors.old) (E.contents errors.new)
            (message self.now) }
    {
        let mut digits = Buffer::new();
        let at = digits.format(self.at);
        tell_fault(errors, &self.fault, &[", in ", self.part, ", at byte ", at])
    }
}
