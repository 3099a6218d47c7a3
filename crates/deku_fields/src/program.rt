//! The program: from words on a command line to bytes and back.

ghost use Rattle.std.specs.Prelude.{◌≡◌, ◌⊎◌, ◌↔◌, ◌≤◌, List, flat_map};
ghost use Rattle.std.specs.Prelude.{Err, IfOk, OnOk, IfErr, OnErr, IsTrue, string_bytes};
ghost use Rattle.std.specs.List.{AllZip};
ghost use Rattle.std.specs.Io.KnownBytes.{Appends};
ghost use Rattle.std.specs.IoError.{error_kind};
ghost use Rattle.std.specs.declared.io.ErrorKind.TheVariants.{OutOfMemory};
ghost use Rattle.deku_bits.specs.declared.error.DekuError.TheVariants.{Io};
ghost use Rattle.deku_fields.specs.declared.program.Failure.TheVariants.{Fault, Usage};
ghost use Rattle.deku_fields.specs.declared.list.Field.{Field as ListField};
ghost use Rattle.deku_fields.specs.Naming.{NamesField};
ghost use Rattle.deku_fields.specs.Runs.{number_text, status_of, message, IsDone, Asks, AsksToRead};
ghost use Rattle.deku_fields.specs.Runs.{AreItems, AreFields, AreForm, AreNoForm, ShowsRead};
ghost use Rattle.deku_fields.specs.Runs.{ShowsWritten, ReadingStops, WritingStops, Stops, RunEnds};
ghost use Rattle.deku_fields.specs.Runs.{IsStopped, IsUnfinished};
ghost use Rattle.deku_program.specs.Texts.{words_of, line};
ghost use Rattle.deku_program.specs.Outputs.{IsBegun};

use crate::list::{Field, Item, Number};
use crate::read::list_from_bytes;
use crate::words::{parse_field, parse_item};
use crate::write::list_to_bytes;
use deku::DekuError;
use deku_program::{give_text, read_hex_text, tell_fault};
use std::alloc::{AllocError, AllocFailed, Global};
use std::fmt::Write as _;
use std::io;
use std::io::{ErrorKind, Read, Write};

/// Why a run ends without doing what was asked for.
#[derive(Drop)]
enum Failure {
    /// The arguments are not of a form that the program knows.
    Usage,
    /// The input is not hexadecimal text.
    BadText,
    /// A read, a write, the input, the output or the memory failed.
    Fault(DekuError),
}

impl From<DekuError> for Failure {
    ghost from_gives = { λ fault e. e ≡ Fault fault };

    fn from(fault: DekuError) -> Failure {
        Failure::Fault(fault)
    }
}

impl From<io::Error> for Failure {
    ghost from_gives = { λ error e. e ≡ Fault (Io (error_kind error)) };

    fn from(error: io::Error) -> Failure {
        Failure::Fault(DekuError::Io(error.kind()))
    }
}

impl<T: Drop> From<AllocFailed<T>> for Failure {
    ghost from_gives = { λ _ e. e ≡ Fault (Io OutOfMemory) };

    fn from(_failed: AllocFailed<T>) -> Failure {
        Failure::Fault(DekuError::Io(ErrorKind::OutOfMemory))
    }
}

impl From<AllocError> for Failure {
    ghost from_gives = { λ _ e. e ≡ Fault (Io OutOfMemory) };

    fn from(_error: AllocError) -> Failure {
        Failure::Fault(DekuError::Io(ErrorKind::OutOfMemory))
    }
}

/// Runs the program on the arguments after its name. Returns its status: 0 if it succeeds; 1 if the
/// input, the output, the memory or a value prevents it; and 2 if the arguments are not of a form
/// that it knows.
///
/// `write SPEC=VALUE..` prints the bytes of the items in hexadecimal. `read SPEC..` reads such
/// text, in upper or lower case and without one newline at its end. It prints the value of each
/// field on a line of its own, and then how many bits were read.
///
/// A run that does not succeed prints one line to `errors`: the usage with status 2, and with
/// status 1 `error: bad hexadecimal text` or `error: ` and the text of the error. The arguments are
/// checked before the input is read and before any memory is taken. Nothing is printed to the
/// output until all of the text is known, so a run that does not succeed prints nothing to it
/// except what a failing output took. An error of `errors` changes nothing.
///
/// ```text
/// write u8,big,bits4=6 u8,big,bits4=9 u16,big=49406   // prints 69c0fe, status 0
/// read u8,lsb,bits5 u16,lsb u8,lsb,bits3     // on a13412 prints 1, 37285, 0 and bits 24, status 0
/// write u9=1                                   // prints usage: fields read|write SPEC.., status 2
/// ```
pub fn run<R: Read, W: Write, E: Write>(
    alloc: Global,
    args: &[String],
    input: &mut R,
    output: &mut W,
    errors: &mut E,
) -> u8
    ensures status { result ≤ 2 }
    ensures done { result ≡ 0 → IsDone (words_of args.now) (R.remaining input.old)
        (W.contents output.old) (W.contents output.new) }
    ensures quiet { result ≡ 0 → errors.new ≡ errors.old }
    ensures usage { result ≡ 2 → AreNoForm (words_of args.now) × (input.new ≡ input.old)
        × (output.new ≡ output.old) }
    ensures formed { AreNoForm (words_of args.now) → result ≡ 2 }
    ensures told { result ≡ 2 → IsBegun (E.contents errors.old) (E.contents errors.new)
        (message Usage) }
    ensures stopped { result ≡ 1 → IsStopped (words_of args.now) (R.remaining input.old)
        (W.contents output.old) (W.contents output.new) (E.contents errors.old)
        (E.contents errors.new) }
    ensures kept { result ≡ 1 → (output.new ≡ output.old)
        ⊎ IsUnfinished (words_of args.now) (R.remaining input.old) (W.contents output.old)
        (W.contents output.new) }
    ensures unread { AsksToRead (words_of args.now) ⊎ (input.new ≡ input.old) }
{
    let Err(failure) = command(alloc, args, input, output) else {
        return 0;
    };
    let _ = complain(errors, &failure);
    status_of(&failure)
}

// The status of a run that ends with this failure.
fn status_of(failure: &Failure) -> u8
    ensures { result ≡ status_of failure.now }
{
    match failure {
        Failure::Usage => 2,
        Failure::BadText | Failure::Fault(_) => 1,
    }
}

// Prints a failure as a line. If `errors` fails, it has taken a beginning of the line.
fn complain<E: Write>(errors: &mut E, failure: &Failure) -> io::Result<()>
    ensures told { OnOk result (Appends (E.contents errors.old) (E.contents errors.new)
        (message failure.now)) }
    ensures begun { IsBegun (E.contents errors.old) (E.contents errors.new) (message failure.now) }
{
    match failure {
        Failure::Usage => give_text(errors, b"usage: fields read|write SPEC..\n"),
        Failure::BadText => give_text(errors, b"error: bad hexadecimal text\n"),
        Failure::Fault(fault) => tell_fault(errors, fault, &[]),
    }
}

// Writes to the output the text that the words ask for.
fn command<R: Read, W: Write>(
    alloc: Global,
    args: &[String],
    input: &mut R,
    output: &mut W,
) -> Result<(), Failure>
    ensures done { OnOk result (IsDone (words_of args.now) (R.remaining input.old)
        (W.contents output.old) (W.contents output.new)) }
    ensures formed { AreNoForm (words_of args.now) → result ≡ Err Usage }
    ensures ends { IfErr result (RunEnds (words_of args.now) (R.remaining input.old)
        (W.contents output.old) (W.contents output.new)) }
    ensures usage { IfErr result (λ e. e ≡ Usage → AreNoForm (words_of args.now)
        × (input.new ≡ input.old) × (output.new ≡ output.old)) }
    ensures kept { OnErr result ((output.new ≡ output.old)
        ⊎ IsUnfinished (words_of args.now) (R.remaining input.old) (W.contents output.old)
        (W.contents output.new)) }
    ensures unread { AsksToRead (words_of args.now) ⊎ (input.new ≡ input.old) }
{
    if !are_form(args) {
        return Err(Failure::Usage);
    }
    let text = asked(alloc, args, input)?;
    give_text(output, text.as_bytes())?;
    Ok(())
}

// Whether the words are of a form that the program knows. This takes no memory, so that words of an
// unknown form are reported as such, however little memory there is.
fn are_form(args: &[String]) -> bool
    ensures { IsTrue result ↔ AreForm (words_of args.now) }
{
    let [name, specs @ ..] = args else {
        return false;
    };
    match name.as_str() {
        "write" => are_items(specs),
        "read" => are_fields(specs),
        _ => false,
    }
}

// Whether each word names an item.
fn are_items(specs: &[String]) -> bool
    ensures { IsTrue result ↔ AreItems (words_of specs.now) }
{
    for word in specs {
        let Some(_) = parse_item(word.as_str()) else {
            return false;
        };
    }
    true
}

// Whether each word names a field.
fn are_fields(specs: &[String]) -> bool
    ensures { IsTrue result ↔ AreFields (words_of specs.now) }
{
    for word in specs {
        let Some(_) = parse_field(word.as_str()) else {
            return false;
        };
    }
    true
}

// The text that the words ask for.
fn asked<R: Read>(alloc: Global, args: &[String], input: &mut R) -> Result<String, Failure>
    ensures known { IfOk result (λ text. Asks (words_of args.now) (R.remaining input.old)
        (string_bytes text)) }
    ensures stops { IfErr result (λ e. Stops (words_of args.now) (R.remaining input.old) e) }
    ensures usage { IfErr result (λ e. e ≡ Usage → AreNoForm (words_of args.now)
        × (input.new ≡ input.old)) }
    ensures unread { AsksToRead (words_of args.now) ⊎ (input.new ≡ input.old) }
{
    let [name, specs @ ..] = args else {
        return Err(Failure::Usage);
    };
    match name.as_str() {
        "write" => written(alloc, specs),
        "read" => read(alloc, specs, input),
        _ => Err(Failure::Usage),
    }
}

// The bytes of the items that the words name, as a line of hexadecimal text.
fn written(alloc: Global, specs: &[String]) -> Result<String, Failure>
    ensures shown { IfOk result (λ text. ShowsWritten (words_of specs.now) (string_bytes text)) }
    ensures stops { IfErr result (λ e. WritingStops (words_of specs.now) e) }
{
    let mut items: Vec<Item> = Vec::new(alloc);
    for word in specs {
        let Some(item) = parse_item(word.as_str()) else {
            return Err(Failure::Usage);
        };
        items.push(item)?;
    }
    let bytes = list_to_bytes(alloc, items.as_slice())?;
    let mut text = hex::encode(alloc, bytes.as_slice())?;
    text.push('\n')?;
    Ok(text)
}

// The values of the fields that the words name, read from the input, and the count of bits, as
// lines of text.
fn read<R: Read>(alloc: Global, specs: &[String], input: &mut R) -> Result<String, Failure>
    ensures shown { IfOk result (λ text. ShowsRead (words_of specs.now) (R.remaining input.old)
        (string_bytes text)) }
    ensures stops { IfErr result (λ e. ReadingStops (words_of specs.now) (R.remaining input.old)
        e) }
    ensures unread { IfErr result (λ e. e ≡ Usage → input.new ≡ input.old) }
{
    let fields = fields_named(alloc, specs)?;
    let Some(bytes) = read_hex_text(alloc, input)? else {
        return Err(Failure::BadText);
    };
    let (bits, numbers) = list_from_bytes(alloc, bytes.as_slice(), fields.as_slice())?;
    let mut text = number_lines(alloc, numbers.as_slice())?;
    writeln!(text, "bits {bits}")?;
    Ok(text)
}

// The fields that the words name.
fn fields_named(alloc: Global, specs: &[String]) -> Result<Vec<Field>, Failure>
    ensures named { IfOk result (λ fields. AllZip NamesField (words_of specs.now) fields.items) }
    ensures usage { IfErr result (λ e. e ≡ Usage → (fields : List ListField)
        → AllZip NamesField (words_of specs.now) fields → ⊥) }
    ensures memory { IfErr result (λ e. (e ≡ Usage) ⊎ (e ≡ Fault (Io OutOfMemory))) }
{
    let mut fields: Vec<Field> = Vec::new(alloc);
    for word in specs {
        let Some(field) = parse_field(word.as_str()) else {
            return Err(Failure::Usage);
        };
        fields.push(field)?;
    }
    Ok(fields)
}

// The numbers in decimal digits, one line each.
fn number_lines(alloc: Global, numbers: &[Number]) -> Result<String, Failure>
    ensures shown { IfOk result (λ text. string_bytes text ≡ flat_map (λ n. line (number_text n))
        numbers.now) }
    ensures memory { IfErr result (λ e. e ≡ Fault (Io OutOfMemory)) }
{
    let mut text = String::new(alloc);
    for number in numbers {
        match number {
            Number::Unsigned(value) => writeln!(text, "{value}")?,
            Number::Signed(value) => writeln!(text, "{value}")?,
        }
    }
    Ok(text)
}
