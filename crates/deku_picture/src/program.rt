//! The program: from words on a command line to a picture.

ghost use Rattle.std.specs.Prelude.{◌≡◌, ◌⊎◌, ◌≤◌, ◌<◌, ℕ, List, [], map};
ghost use Rattle.std.specs.Prelude.{length, IfOk, IfErr, OnOk, OnErr, MatchOption, string_bytes};
ghost use Rattle.std.specs.Result.{IsErrAnd};
ghost use Rattle.std.specs.List.{AllZip};
ghost use Rattle.std.specs.IoError.{error_kind};
ghost use Rattle.std.specs.declared.io.ErrorKind.TheVariants.{OutOfMemory};
ghost use Rattle.deku_bits.specs.declared.error.DekuError.TheVariants.{Io};
ghost use Rattle.deku_fields.specs.declared.list.Field.{Field as ListField};
ghost use Rattle.deku_program.specs.Texts.{words_of};
ghost use Rattle.deku_picture.specs.declared.program.Failure.TheVariants.{Fault};
ghost use Rattle.deku_picture.specs.Names.{Names, HasSpecs, NameFields, AreNoForm, IsUnnamed};
ghost use Rattle.deku_picture.specs.declared.program.Form.TheVariants.{Svg};
ghost use Rattle.deku_picture.specs.Drawn.{status_of, AreDrawn, IsSvg, IsOfForm, IsForm, IsSplit};
ghost use Rattle.deku_picture.specs.Drawn.{IsSample, HasNoValues, HasShown, HasNotShown, IsDone};
ghost use Rattle.deku_picture.specs.Drawn.{IsUnfinished, IsStopped, IsFailure, RunEnds, TellsWord};
ghost use Rattle.deku_picture.specs.Drawn.{IsTold, IsUsageTold};

use crate::cell::rows;
use crate::drawing::{Drawing, Sample};
use crate::svg::svg;
use crate::table::table;
use crate::words::{Named, parse_named};
use deku::DekuError;
use deku_fields::{Field, list_from_bytes, places};
use deku_program::{give_parts, give_text, tell_fault};
use hex::FromHexError;
use std::alloc::{AllocError, AllocFailed, Global};
use std::fmt::Write as _;
use std::io;
use std::io::{ErrorKind, Write};

/// Why a run ends without a picture.
#[derive(Drop)]
enum Failure<'a> {
    /// The arguments are not of a form that the program knows.
    Usage,
    /// This word names no field.
    NoField(&'a str),
    /// The bytes are not hexadecimal text.
    BadText,
    /// The fields, the output or the memory failed.
    Fault(DekuError),
}

impl From<DekuError> for Failure<'_> {
    ghost from_gives = { λ fault e. e ≡ Fault fault };

    fn from(fault: DekuError) -> Self {
        Failure::Fault(fault)
    }
}

impl From<io::Error> for Failure<'_> {
    ghost from_gives = { λ error e. e ≡ Fault (Io (error_kind error)) };

    fn from(error: io::Error) -> Self {
        Failure::Fault(DekuError::Io(error.kind()))
    }
}

impl<T: Drop> From<AllocFailed<T>> for Failure<'_> {
    ghost from_gives = { λ _ e. e ≡ Fault (Io OutOfMemory) };

    fn from(_failed: AllocFailed<T>) -> Self {
        Failure::Fault(DekuError::Io(ErrorKind::OutOfMemory))
    }
}

impl From<AllocError> for Failure<'_> {
    ghost from_gives = { λ _ e. e ≡ Fault (Io OutOfMemory) };

    fn from(_error: AllocError) -> Self {
        Failure::Fault(DekuError::Io(ErrorKind::OutOfMemory))
    }
}

/// What is drawn.
#[derive(Clone, Copy)]
enum Form<'a> {
    /// A table.
    Table,
    /// An SVG.
    Svg,
    /// A table with the bits of bytes, which the text gives in hexadecimal.
    Bytes(&'a str),
}

/// Runs the program on the arguments after its name. Returns its status: 0 if it succeeds; 1 if the
/// fields, the bytes, the output or the memory prevent it; and 2 if the arguments are not of a form
/// that it knows.
///
/// `SPEC..` prints the picture of the fields as a table, `--svg SPEC..` as an SVG, and
/// `--bytes HEX SPEC..` as a table with the bits of these bytes and the values that the fields have
/// in them. Each SPEC may have a name before it, as `name:SPEC`.
///
/// A run that does not succeed prints one line to `errors`. With status 2 it is the usage, and the
/// first word that names no field, if there is one and memory to show it. With status 1 it is
/// `error: bad hexadecimal text`, or `error: ` and the text of the error. The words are checked
/// before the bytes and before any memory is taken. Nothing is printed to the output until all of
/// the picture is known, so a run that does not succeed prints nothing to it except what a failing
/// output took. An error of `errors` changes nothing.
///
/// ```text
/// a:u8,lsb,bits4 b:u16,lsb,bits12  // prints cells `b 3..0`, `a 3..0` and `b 11..4`, status 0
/// u8 u9                            // prints usage: layout .., and "u9" is not a field, status 2
/// u8,big,bits3 u8,lsb,bits3
/// // prints error: Invalid param error: order changes inside a byte, status 1
/// ```
pub fn run<W: Write, E: Write>(alloc: Global, args: &[String], output: &mut W, errors: &mut E) -> u8
    ensures status { result ≤ 2 }
    ensures done { result ≡ 0 → IsDone (words_of args.now) (W.contents output.old)
        (W.contents output.new) }
    ensures quiet { result ≡ 0 → errors.new ≡ errors.old }
    ensures usage { result ≡ 2 → AreNoForm (words_of args.now) × (output.new ≡ output.old) }
    ensures formed { AreNoForm (words_of args.now) → result ≡ 2 }
    ensures told { result ≡ 2 → IsUsageTold (words_of args.now) (E.contents errors.old)
        (E.contents errors.new) }
    ensures stopped { result ≡ 1 → IsStopped (words_of args.now) (W.contents output.old)
        (W.contents output.new) (E.contents errors.old) (E.contents errors.new) }
    ensures kept { result ≡ 1 → (output.new ≡ output.old)
        ⊎ IsUnfinished (words_of args.now) (W.contents output.old) (W.contents output.new) }
{
    let Err(failure) = command(alloc, args, output) else {
        return 0;
    };
    let _ = complain(alloc, errors, &failure);
    status_of(&failure)
}

// The status of a run that ends with this failure.
fn status_of(failure: &Failure) -> u8
    ensures { result ≡ status_of failure.now }
{
    match failure {
        Failure::Usage | Failure::NoField(_) => 2,
        Failure::BadText | Failure::Fault(_) => 1,
    }
}

// Prints a failure as a line. If `errors` fails, it has taken a beginning of the line.
fn complain<E: Write>(alloc: Global, errors: &mut E, failure: &Failure) -> io::Result<()>
    ensures { IsTold failure.now (E.contents errors.old) (E.contents errors.new) }
{
    match failure {
        Failure::Usage => give_text(errors, b"usage: layout [--svg|--bytes HEX] [NAME:]SPEC..\n"),
        Failure::NoField(word) => complain_of(alloc, errors, word),
        Failure::BadText => give_text(errors, b"error: bad hexadecimal text\n"),
        Failure::Fault(fault) => tell_fault(errors, fault, &[]),
    }
}

// Prints a word that names no field, or only the usage if there is no memory to show the word.
fn complain_of<E: Write>(alloc: Global, errors: &mut E, word: &str) -> io::Result<()>
    ensures { TellsWord word.now (E.contents errors.old) (E.contents errors.new) }
{
    match format!(in alloc; "{word:?}") {
        Ok(shown) => give_parts(
            errors,
            &[
                "usage: layout [--svg|--bytes HEX] [NAME:]SPEC.., and ",
                shown.as_str(),
                " is not a field\n",
            ],
        ),
        Err(_) => give_text(errors, b"usage: layout [--svg|--bytes HEX] [NAME:]SPEC..\n"),
    }
}

// Writes to the output the picture that the words ask for.
fn command<'a, W: Write>(
    alloc: Global,
    args: &'a [String],
    output: &mut W,
) -> Result<(), Failure<'a>>
    ensures done { OnOk result (IsDone (words_of args.now) (W.contents output.old)
        (W.contents output.new)) }
    ensures formed { AreNoForm (words_of args.now) → IsErrAnd result (λ e. status_of e ≡ 2) }
    ensures ends { IfErr result (RunEnds (words_of args.now) (W.contents output.old)
        (W.contents output.new)) }
    ensures usage { IfErr result (λ e. status_of e ≡ 2 → output.new ≡ output.old) }
    ensures kept { OnErr result ((output.new ≡ output.old)
        ⊎ IsUnfinished (words_of args.now) (W.contents output.old) (W.contents output.new)) }
{
    let text = drawn(alloc, args)?;
    give_text(output, text.as_bytes())?;
    Ok(())
}

// The picture that the words ask for.
fn drawn(alloc: Global, args: &[String]) -> Result<String, Failure<'_>>
    ensures drawn { OnOk result (AreDrawn (words_of args.now)) }
    ensures form { IfOk result (λ text. IsOfForm (words_of args.now) (string_bytes text)) }
    ensures formed { AreNoForm (words_of args.now) → IsErrAnd result (λ e. status_of e ≡ 2) }
    ensures stops { IfErr result (IsFailure (words_of args.now)) }
{
    let (form, specs) = split_words(args)?;
    let named = fields_named(alloc, specs)?;
    let fields = fields_of(alloc, named.as_slice())?;
    let picture = places(alloc, fields.as_slice())?;
    let rows = rows(alloc, picture.as_slice())?;
    let sample = sample_of(alloc, form, fields.as_slice())?;
    let drawing = Drawing {
        fields: named,
        rows,
        sample,
    };
    let text = text_of(alloc, form, &drawing)?;
    Ok(text)
}

// The drawing in this form.
fn text_of(alloc: Global, form: Form, drawing: &Drawing) -> Result<String, AllocError>
    ensures { IfOk result (λ text. form.entry ≡ Svg → IsSvg (string_bytes text)) }
{
    match form {
        Form::Svg => svg(alloc, drawing),
        Form::Table | Form::Bytes(_) => table(alloc, drawing),
    }
}

// What is drawn, and the words of the fields, each of which names one. This takes no memory, so
// that words of an unknown form are reported as such, however little memory there is.
fn split_words(args: &[String]) -> Result<(Form<'_>, &[String]), Failure<'_>>
    ensures split { IfOk result (λ p. IsSplit (words_of args.now) (words_of p.1.now) p.0) }
    ensures stops { IfErr result (λ e. (status_of e ≡ 2) × IsFailure (words_of args.now) e) }
{
    let Some((form, specs)) = split_form(args) else {
        return Err(Failure::Usage);
    };
    if specs.is_empty() {
        return Err(Failure::Usage);
    }
    match first_unnamed(specs) {
        Some(word) => Err(Failure::NoField(word)),
        None => Ok((form, specs)),
    }
}

// The first word that names no field. `None` if each names one.
fn first_unnamed(specs: &[String]) -> Option<&str>
    ensures { MatchOption result (NameFields (words_of specs.now))
        (λ word. IsUnnamed (words_of specs.now) word.now) }
{
    for word in specs {
        let text = word.as_str();
        let Some(_) = parse_named(text) else {
            return Some(text);
        };
    }
    None
}

// What is drawn, and the words of the fields. `None` if there are no such words.
fn split_form(args: &[String]) -> Option<(Form<'_>, &[String])>
    ensures { MatchOption result ((specs : List (List ℕ)) → HasSpecs (words_of args.now) specs → ⊥)
        (λ p. IsForm (words_of args.now) p.0 × HasSpecs (words_of args.now) (words_of p.1.now)) }
{
    let Some((first, rest)) = args.split_first() else {
        return None;
    };
    match first.as_str() {
        "--svg" => Some((Form::Svg, rest)),
        "--bytes" => match rest.split_first() {
            Some((text, specs)) => Some((Form::Bytes(text.as_str()), specs)),
            None => None,
        },
        _ => Some((Form::Table, args)),
    }
}

// The fields that the words name, with their names.
fn fields_named(alloc: Global, specs: &[String]) -> Result<Vec<Named<'_>>, Failure<'_>>
    ensures named { IfOk result (λ v. AllZip Names (words_of specs.now)
        (map (λ n. n.field) v.items)) }
    ensures stops { IfErr result (λ e. ((status_of e ≡ 2)
        × ((fields : List ListField) → AllZip Names (words_of specs.now) fields → ⊥))
        ⊎ (e ≡ Fault (Io OutOfMemory))) }
{
    let mut fields: Vec<Named> = Vec::new(alloc);
    for word in specs {
        let Some(field) = parse_named(word.as_str()) else {
            return Err(Failure::NoField(word.as_str()));
        };
        fields.push(field)?;
    }
    Ok(fields)
}

// The fields without their names.
fn fields_of(alloc: Global, named: &[Named]) -> Result<Vec<Field>, AllocError>
    ensures { IfOk result (λ v. v.items ≡ map (λ n. n.field) named.now) }
{
    let mut fields: Vec<Field> = Vec::new(alloc);
    for each in named {
        fields.push(each.field)?;
    }
    Ok(fields)
}

// The bytes to be drawn and the values in them, if the form has bytes.
fn sample_of<'a>(alloc: Global, form: Form, fields: &[Field]) -> Result<Option<Sample>, Failure<'a>>
    ensures shown { OnOk result (HasShown form.entry fields.now) }
    ensures stops { IfErr result (HasNotShown form.entry fields.now) }
{
    match form {
        Form::Bytes(text) => {
            let sample = sample(alloc, text, fields)?;
            Ok(Some(sample))
        }
        Form::Table => Ok(None),
        Form::Svg => Ok(None),
    }
}

// The bytes that hexadecimal text gives, and the values that the fields read from them.
fn sample<'a>(alloc: Global, text: &str, fields: &[Field]) -> Result<Sample, Failure<'a>>
    ensures read { IfOk result (λ s. IsSample fields.now text.now s.bytes.items s.values) }
    ensures stops { IfErr result (HasNoValues fields.now text.now) }
{
    let bytes = match hex::decode(alloc, text.as_bytes()) {
        Ok(bytes) => bytes,
        Err(FromHexError::OutOfMemory) => {
            return Err(Failure::Fault(DekuError::Io(ErrorKind::OutOfMemory)));
        }
        Err(_) => return Err(Failure::BadText),
    };
    let (_, values) = list_from_bytes(alloc, bytes.as_slice(), fields)?;
    Ok(Sample { bytes, values })
}
