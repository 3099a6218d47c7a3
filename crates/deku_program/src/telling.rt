//! The texts of errors.

ghost use Rattle.std.specs.Prelude.{◌≡◌, ◌≢◌, OnOk, IfErr};
ghost use Rattle.std.specs.Io.KnownBytes.{Appends};
ghost use Rattle.std.specs.IoError.{error_kind};
ghost use Rattle.std.specs.declared.io.ErrorKind.TheVariants.{Interrupted};
ghost use Rattle.deku_program.specs.Outputs.{IsBegun};
ghost use Rattle.deku_program.specs.Told.{joined_text, io_kind_name, fault_text, fault_line};

use crate::output::{give_parts, give_text};
use deku::DekuError;
use itoa::Buffer;
use std::io;
use std::io::{ErrorKind, Write};

// The names of the kinds of io errors, in the order of the kinds.
const KIND_NAMES: [&str; 42] = [
    "NotFound",
    "PermissionDenied",
    "ConnectionRefused",
    "ConnectionReset",
    "HostUnreachable",
    "NetworkUnreachable",
    "ConnectionAborted",
    "NotConnected",
    "AddrInUse",
    "AddrNotAvailable",
    "NetworkDown",
    "BrokenPipe",
    "AlreadyExists",
    "WouldBlock",
    "NotADirectory",
    "IsADirectory",
    "DirectoryNotEmpty",
    "ReadOnlyFilesystem",
    "FilesystemLoop",
    "StaleNetworkFileHandle",
    "InvalidInput",
    "InvalidData",
    "TimedOut",
    "WriteZero",
    "StorageFull",
    "NotSeekable",
    "QuotaExceeded",
    "FileTooLarge",
    "ResourceBusy",
    "ExecutableFileBusy",
    "Deadlock",
    "CrossesDevices",
    "TooManyLinks",
    "InvalidFilename",
    "ArgumentListTooLong",
    "Interrupted",
    "Unsupported",
    "UnexpectedEof",
    "OutOfMemory",
    "InProgress",
    "Other",
    "Uncategorized",
];

// The name of a kind of io error.
fn io_kind_name(kind: ErrorKind) -> &'static str
    ensures { result.now ≡ io_kind_name kind }
{
    KIND_NAMES[kind as usize]
}

// Writes the text of an error to an output. If it fails, the output has taken a beginning of it.
fn give_fault<W: Write>(output: &mut W, fault: &DekuError) -> io::Result<()>
    ensures given { OnOk result (Appends (W.contents output.old) (W.contents output.new)
        (fault_text fault.now)) }
    ensures begun { IsBegun (W.contents output.old) (W.contents output.new) (fault_text fault.now) }
    ensures tried { IfErr result (λ e. error_kind e ≢ Interrupted) }
{
    match *fault {
        DekuError::Incomplete(need) => {
            let (mut first, mut second) = (Buffer::new(), Buffer::new());
            let bits = first.format(need.bit_size());
            let bytes = second.format(need.byte_size());
            give_parts(
                output,
                &[
                    "Not enough data, need ",
                    bits,
                    " bits (or ",
                    bytes,
                    " bytes)",
                ],
            )
        }
        DekuError::Parse(text) => give_parts(output, &["Parse error: ", text]),
        DekuError::InvalidParam(text) => give_parts(output, &["Invalid param error: ", text]),
        DekuError::Assertion(text) => give_parts(output, &[text]),
        DekuError::IdVariantNotFound => {
            give_parts(output, &["Could not resolve `id` for variant"])
        }
        DekuError::Io(kind) => give_parts(output, &["io errorr: ", io_kind_name(kind)]),
    }
}

/// Writes the line of an error to an output: `error: `, its text, and more texts after that. It
/// fails as `give_text` does; the output has then taken a beginning of the line.
///
/// ```text
/// tell_fault(&mut errors, &DekuError::Assertion("version"), &[", at bit ", "4"])?;
/// // "error: version, at bit 4" and a newline
/// ```
pub fn tell_fault<W: Write>(output: &mut W, fault: &DekuError, more: &[&str]) -> io::Result<()>
    ensures told { OnOk result (Appends (W.contents output.old) (W.contents output.new)
        (fault_line fault.now (joined_text more.now))) }
    ensures begun { IsBegun (W.contents output.old) (W.contents output.new)
        (fault_line fault.now (joined_text more.now)) }
    ensures tried { IfErr result (λ e. error_kind e ≢ Interrupted) }
{
    give_text(output, b"error: ")?;
    give_fault(output, fault)?;
    give_parts(output, more)?;
    give_text(output, b"\n")
}
