//! The program: from the name of a format and hexadecimal text to the fields of a record, and back
//! to its bytes.

ghost use Rattle.std.specs.Prelude.{◌≡◌, ◌⊎◌, ◌≤◌, Err, IfOk, OnOk, IfErr, OnErr};
ghost use Rattle.std.specs.Prelude.{string_bytes};
ghost use Rattle.std.specs.Io.KnownBytes.{Appends};
ghost use Rattle.std.specs.IoError.{error_kind};
ghost use Rattle.std.specs.declared.io.ErrorKind.TheVariants.{OutOfMemory};
ghost use Rattle.deku_bits.specs.declared.error.DekuError.TheVariants.{Io};
ghost use Rattle.deku_program.specs.Texts.{words_of};
ghost use Rattle.deku_program.specs.Outputs.{IsBegun};
ghost use Rattle.deku_formats_program.specs.declared.words.Format.{Format as KnownFormat};
ghost use Rattle.deku_formats_program.specs.declared.program.Failure.TheVariants.{Fault, Usage};
ghost use Rattle.deku_formats_program.specs.Forms.{AreNoForm};
ghost use Rattle.deku_formats_program.specs.Shown.{GainsVerdict, Telling, TellsOf, of_format};
ghost use Rattle.deku_formats_program.specs.Refusals.{IsRefused, Stopping, StopsOf};
ghost use Rattle.deku_formats_program.specs.Runs.{status_of, message, IsDone, IsUnfinished};
ghost use Rattle.deku_formats_program.specs.Runs.{IsShown, IsRecord, AsksForRecord, TextStops};
ghost use Rattle.deku_formats_program.specs.Runs.{RunEnds, IsStopped};

use crate::compared::first_difference;
use crate::shown::Shown;
use crate::words::{Asked, Format, parse_words};
use deku::prelude::{DekuError, DekuReader, DekuWriter, Reader};
use deku_dns::query::Query;
use deku_elf::Elf;
use deku_formats::can::Chassis;
use deku_formats::ccsds::Telemetry;
use deku_formats::png::Png;
use deku_instructions::riscv::instruction::Instruction;
use deku_network::ipv4::Ipv4;
use deku_program::{give_text, read_hex_text, tell_fault};
use deku_symmetry::{Part, Symmetric};
use deku_transport::udp::Udp;
use itoa::Buffer;
use std::alloc::{AllocError, AllocFailed, Global};
use std::fmt::Write as _;
use std::io;
use std::io::{Cursor, ErrorKind, Read, Write};

/// Why a run ends without doing what was asked for.
#[derive(Drop)]
enum Failure {
    /// The arguments are not of a form that the program knows.
    Usage,
    /// The input is not hexadecimal text.
    BadText,
    /// The input, the output or the memory failed, or the record was not written.
    Fault(DekuError),
    /// Reading the record failed in this field, after this many bits.
    Refused(DekuError, &'static str, usize),
}

impl From<DekuError> for Failure {
    ghost from_gives = { λ fault e. e ≡ Fault fault };

    fn from(fault: DekuError) -> Failure {
        Failure::Fault(fault)
    }
}

impl From<io::Error> for Failure {
    ghost from_gives = { λ error e. e ≡ Fault (Io (error_kind error)) };

    fn from(error: io::Error) -> Failure {
        Failure::Fault(DekuError::Io(error.kind()))
    }
}

impl<T: Drop> From<AllocFailed<T>> for Failure {
    ghost from_gives = { λ _ e. e ≡ Fault (Io OutOfMemory) };

    fn from(_failed: AllocFailed<T>) -> Failure {
        Failure::Fault(DekuError::Io(ErrorKind::OutOfMemory))
    }
}

impl From<AllocError> for Failure {
    ghost from_gives = { λ _ e. e ≡ Fault (Io OutOfMemory) };

    fn from(_error: AllocError) -> Failure {
        Failure::Fault(DekuError::Io(ErrorKind::OutOfMemory))
    }
}

/// What is printed of the records of each format.
pub trait Told {
    // Which text describes the record of this format at the start of the bytes.
    ghost tells: { KnownFormat → Telling };

    // What prevents the record of this format at the start of the bytes from being shown.
    ghost stops: { KnownFormat → Stopping };
}

/// What is printed of a record by itself. The prover finds the traits of all types that an item
/// names within one limit, so the record of most parts has an item of its own.
pub trait ToldRecord {
    // Which text describes the record at the start of the bytes.
    ghost tells: { Telling };

    // What prevents the record at the start of the bytes from being shown.
    ghost stops: { Stopping };
}

impl ToldRecord for Ipv4 {
    ghost tells = { TellsOf (λ v. ⟦<Ipv4 as Part<()>>⟧.pieces v tt) };

    ghost stops = { StopsOf (⟦<Ipv4 as DekuReader<()>>⟧.meaning tt)
        (λ v. ⟦<Ipv4 as Part<()>>⟧.pieces v tt)
        (λ v. ⟦<Ipv4 as DekuWriter<()>>⟧.meaning v tt) };
}

/// The records that the program knows.
pub struct Records;

impl Told for Records {
    ghost tells = { of_format
        (TellsOf (λ v. ⟦<Chassis as Part<()>>⟧.pieces v tt))
        (TellsOf (λ v. ⟦<Telemetry as Part<()>>⟧.pieces v tt))
        (TellsOf (λ v. ⟦<Query as Part<()>>⟧.pieces v tt))
        (TellsOf (λ v. ⟦<Elf as Part<()>>⟧.pieces v tt))
        ⟦<Ipv4 as ToldRecord>⟧.tells
        (TellsOf (λ v. ⟦<Png as Part<()>>⟧.pieces v tt))
        (TellsOf (λ v. ⟦<Instruction as Part<()>>⟧.pieces v tt))
        (TellsOf (λ v. ⟦<Udp as Part<()>>⟧.pieces v tt)) };

    ghost stops = { of_format
        (StopsOf (⟦<Chassis as DekuReader<()>>⟧.meaning tt)
        (λ v. ⟦<Chassis as Part<()>>⟧.pieces v tt)
        (λ v. ⟦<Chassis as DekuWriter<()>>⟧.meaning v tt))
        (StopsOf (⟦<Telemetry as DekuReader<()>>⟧.meaning tt)
        (λ v. ⟦<Telemetry as Part<()>>⟧.pieces v tt)
        (λ v. ⟦<Telemetry as DekuWriter<()>>⟧.meaning v tt))
        (StopsOf (⟦<Query as DekuReader<()>>⟧.meaning tt)
        (λ v. ⟦<Query as Part<()>>⟧.pieces v tt)
        (λ v. ⟦<Query as DekuWriter<()>>⟧.meaning v tt))
        (StopsOf (⟦<Elf as DekuReader<()>>⟧.meaning tt) (λ v. ⟦<Elf as Part<()>>⟧.pieces v tt)
        (λ v. ⟦<Elf as DekuWriter<()>>⟧.meaning v tt))
        ⟦<Ipv4 as ToldRecord>⟧.stops
        (StopsOf (⟦<Png as DekuReader<()>>⟧.meaning tt) (λ v. ⟦<Png as Part<()>>⟧.pieces v tt)
        (λ v. ⟦<Png as DekuWriter<()>>⟧.meaning v tt))
        (StopsOf (⟦<Instruction as DekuReader<()>>⟧.meaning tt)
        (λ v. ⟦<Instruction as Part<()>>⟧.pieces v tt)
        (λ v. ⟦<Instruction as DekuWriter<()>>⟧.meaning v tt))
        (StopsOf (⟦<Udp as DekuReader<()>>⟧.meaning tt) (λ v. ⟦<Udp as Part<()>>⟧.pieces v tt)
        (λ v. ⟦<Udp as DekuWriter<()>>⟧.meaning v tt)) };
}

const NAMES: &str = "can\nccsds\ndns\nelf\nipv4\npng\nriscv\nudp\n";

const HELP: &str = "formats         prints the names of the formats
formats NAME    reads hexadecimal text, prints the fields of the record that it begins with,
                writes them back, and says whether that is what was read
formats --help  prints this
";

/// Runs the program on the arguments after its name. Returns its status: 0 if it succeeds; 1 if the
/// input, the output, the memory or the record prevents it; and 2 if the arguments are not of a
/// form that it knows.
///
/// Without an argument it prints the names of the formats. With a name it reads hexadecimal text,
/// in upper or lower case and without one newline at its end. It prints a line for each field of
/// the record at the start of the bytes, with its name and its value. Then it writes the record,
/// and prints `same` if its bytes are those that were read, or `differs at byte` and the index of
/// the first that differs. Last it prints `left` and how many bytes follow the record.
///
/// A run that does not succeed prints one line to `errors`: the usage with status 2, and with
/// status 1 `error: bad hexadecimal text`, or `error: ` and the text of the error. If reading the
/// record fails, that line has the field and how many bits were read. The arguments are checked
/// before the input is read. Nothing is printed to the output until all of the text is known, so a
/// run that does not succeed prints nothing to it except what a failing output took. An error of
/// `errors` changes nothing.
///
/// ```text
/// udp     // on 9cbbd11f000afe1d prints source 40123, .., same and left 0; status 0
/// udp     // on 9cbbd1 prints error: Not enough data, need 16 bits (or 2 bytes), in destination,
///         // at bit 16; status 1
/// ```
pub fn run<R: Read, W: Write, E: Write>(
    alloc: Global,
    args: &[String],
    input: &mut R,
    output: &mut W,
    errors: &mut E,
) -> u8
    ensures status { result ≤ 2 }
    ensures done { result ≡ 0 → IsDone ⟦<Records as Told>⟧.tells (words_of args.now)
        (R.remaining input.old) (W.contents output.old) (W.contents output.new) }
    ensures quiet { result ≡ 0 → errors.new ≡ errors.old }
    ensures usage { result ≡ 2 → AreNoForm (words_of args.now) × (input.new ≡ input.old)
        × (output.new ≡ output.old) }
    ensures formed { AreNoForm (words_of args.now) → result ≡ 2 }
    ensures told { result ≡ 2 → IsBegun (E.contents errors.old) (E.contents errors.new)
        (message Usage) }
    ensures stopped { result ≡ 1 → IsStopped ⟦<Records as Told>⟧.tells ⟦<Records as Told>⟧.stops
        (words_of args.now) (R.remaining input.old) (W.contents output.old) (W.contents output.new)
        (E.contents errors.old) (E.contents errors.new) }
    ensures kept { result ≡ 1 → (output.new ≡ output.old)
        ⊎ IsUnfinished ⟦<Records as Told>⟧.tells (words_of args.now) (R.remaining input.old)
        (W.contents output.old) (W.contents output.new) }
    ensures unread { AsksForRecord (words_of args.now) ⊎ (input.new ≡ input.old) }
{
    let Err(failure) = command(alloc, args, input, output) else {
        return 0;
    };
    let _ = complain(errors, &failure);
    status_of(&failure)
}

// The status of a run that ends with this failure.
fn status_of(failure: &Failure) -> u8
    ensures { result ≡ status_of failure.now }
{
    match failure {
        Failure::Usage => 2,
        Failure::BadText | Failure::Fault(_) | Failure::Refused(_, _, _) => 1,
    }
}

// Prints a failure as a line. If `errors` fails, it has taken a beginning of the line.
fn complain<E: Write>(errors: &mut E, failure: &Failure) -> io::Result<()>
    ensures told { OnOk result (Appends (E.contents errors.old) (E.contents errors.new)
        (message failure.now)) }
    ensures begun { IsBegun (E.contents errors.old) (E.contents errors.new) (message failure.now) }
{
    match failure {
        Failure::Usage => give_text(errors, b"usage: formats [NAME]\n"),
        Failure::BadText => give_text(errors, b"error: bad hexadecimal text\n"),
        Failure::Fault(fault) => tell_fault(errors, fault, &[]),
        Failure::Refused(fault, field, bit) => {
            let mut digits = Buffer::new();
            let bit = digits.format(*bit);
            tell_fault(errors, fault, &[", in ", *field, ", at bit ", bit])
        }
    }
}

// Writes to the output the text that the words ask for.
fn command<R: Read, W: Write>(
    alloc: Global,
    args: &[String],
    input: &mut R,
    output: &mut W,
) -> Result<(), Failure>
    ensures done { OnOk result (IsDone ⟦<Records as Told>⟧.tells (words_of args.now)
        (R.remaining input.old) (W.contents output.old) (W.contents output.new)) }
    ensures formed { AreNoForm (words_of args.now) → result ≡ Err Usage }
    ensures ends { IfErr result (RunEnds ⟦<Records as Told>⟧.tells ⟦<Records as Told>⟧.stops
        (words_of args.now) (R.remaining input.old) (W.contents output.old)
        (W.contents output.new)) }
    ensures usage { IfErr result (λ e. e ≡ Usage → AreNoForm (words_of args.now)
        × (input.new ≡ input.old) × (output.new ≡ output.old)) }
    ensures kept { OnErr result ((output.new ≡ output.old)
        ⊎ IsUnfinished ⟦<Records as Told>⟧.tells (words_of args.now) (R.remaining input.old)
        (W.contents output.old) (W.contents output.new)) }
    ensures unread { AsksForRecord (words_of args.now) ⊎ (input.new ≡ input.old) }
{
    let Some(form) = parse_words(args) else {
        return Err(Failure::Usage);
    };
    let text = text_of(alloc, form, input)?;
    give_text(output, text.as_bytes())?;
    Ok(())
}

// The text that is asked for.
fn text_of<R: Read>(alloc: Global, form: Asked, input: &mut R) -> Result<String, Failure>
    ensures shown { IfOk result (λ text. IsShown ⟦<Records as Told>⟧.tells form
        (R.remaining input.old) (string_bytes text)) }
    ensures stops { IfErr result (TextStops ⟦<Records as Told>⟧.stops form
        (R.remaining input.old)) }
    ensures usage { IfErr result (λ e. e ≡ Usage → ⊥) }
    ensures unread { IsRecord form ⊎ (input.new ≡ input.old) }
{
    match form {
        Asked::Names => Ok(String::from_str(alloc, NAMES)?),
        Asked::Help => Ok(String::from_str(alloc, HELP)?),
        Asked::Record(format) => {
            let Some(bytes) = read_hex_text(alloc, input)? else {
                return Err(Failure::BadText);
            };
            record_text(alloc, format, bytes.as_slice())
        }
    }
}

// The text of the record of this format at the start of the bytes.
fn record_text(alloc: Global, format: Format, bytes: &[u8]) -> Result<String, Failure>
    ensures told { IfOk result (λ text. ⟦<Records as Told>⟧.tells format bytes.now
        (string_bytes text)) }
    ensures stops { IfErr result (⟦<Records as Told>⟧.stops format bytes.now) }
{
    match format {
        Format::Can => shown::<Chassis>(alloc, bytes),
        Format::Ccsds => shown::<Telemetry>(alloc, bytes),
        Format::Dns => shown::<Query>(alloc, bytes),
        Format::Elf => shown::<Elf>(alloc, bytes),
        Format::Ipv4 => ipv4_text(alloc, bytes),
        Format::Png => shown::<Png>(alloc, bytes),
        Format::Riscv => shown::<Instruction>(alloc, bytes),
        Format::Udp => shown::<Udp>(alloc, bytes),
    }
}

// The text of the header of an IPv4 packet at the start of the bytes.
fn ipv4_text(alloc: Global, bytes: &[u8]) -> Result<String, Failure>
    ensures told { IfOk result (λ text. ⟦<Ipv4 as ToldRecord>⟧.tells bytes.now
        (string_bytes text)) }
    ensures stops { IfErr result (⟦<Ipv4 as ToldRecord>⟧.stops bytes.now) }
{
    shown::<Ipv4>(alloc, bytes)
}

// The fields of the record at the start of the bytes, whether it is written as it was read, and how
// many bytes follow it.
fn shown<T: Symmetric<()> + Shown>(alloc: Global, bytes: &[u8]) -> Result<String, Failure>
    requires reads { T.DekuReader.accepts tt }
    requires writes { T.DekuWriter.accepts tt }
    ensures taken { IfOk result (λ text. TellsOf (λ v. T.Part.pieces v tt) bytes.now
        (string_bytes text)) }
    ensures stops { IfErr result (StopsOf (T.DekuReader.meaning tt) (λ v. T.Part.pieces v tt)
        (λ v. T.DekuWriter.meaning v tt) bytes.now) }
{
    let (bits, record) = match T::unpack(alloc, bytes, ()) {
        Ok(read) => read,
        Err(fault) => return Err(refused::<T>(alloc, bytes, fault)),
    };
    let written = record.pack(alloc, ())?;
    let (read, rest) = bytes.split_at(bits.div_ceil(8).min(bytes.len()));
    let mut text = String::new(alloc);
    record.show(&mut text)?;
    end(&mut text, read, written.as_slice(), rest.len())?;
    Ok(text)
}

// Adds whether the bytes that were read are those that were written, and how many are left.
fn end(text: &mut String, read: &[u8], written: &[u8], left: usize) -> Result<(), AllocError>
    ensures { OnOk result (GainsVerdict read.now written.now left (string_bytes text.old)
        (string_bytes text.new)) }
{
    match first_difference(read, written) {
        None => writeln!(text, "same")?,
        Some(index) => writeln!(text, "differs at byte {index}")?,
    }
    writeln!(text, "left {left}")
}

// The failure for this error of the bytes. They are read once more, to find the field of the error
// and how many bits are read by then. A failed check or an unknown id belongs to the field that was
// read. A head without a count belongs to the field of the count. Any other error comes before its
// field is known. If the error does not occur again, it is printed alone.
fn refused<T: DekuReader<()> + Shown>(alloc: Global, bytes: &[u8], refusal: DekuError) -> Failure
    requires { T.accepts tt }
    ensures { (result ≡ Fault refusal) ⊎ IsRefused (T.meaning tt) bytes.now result }
{
    let mut reader = Reader::new(alloc, Cursor::new(bytes));
    let Err(fault) = T::from_reader_with_ctx(&mut reader, ()) else {
        return Failure::Fault(refusal);
    };
    let bits = reader.bits_read();
    Failure::Refused(fault, field_of::<T>(fault, bits), bits)
}

// The field of an error that occurs after this many bits.
fn field_of<T: Shown>(fault: DekuError, bits: usize) -> &'static str {
    match fault {
        DekuError::Assertion(_) | DekuError::IdVariantNotFound => {
            T::field_at(bits.saturating_sub(1))
        }
        DekuError::Parse(_) => T::counting().unwrap_or(T::field_at(bits)),
        _ => T::field_at(bits),
    }
}
