//! Printing the records of an input.

ghost use Rattle.std.specs.Prelude.{◌≤◌, IfOk, vec_len};

use crate::columns::Columns;
use crate::feed::{Feed, NoBytes};
use crate::line::{Object, push_csv, push_header, push_json};
use deku::DekuError;
use deku_fields::Number;
use deku_program::{give_parts, give_text, tell_fault};
use itoa::Buffer;
use std::alloc::{AllocError, Global};
use std::io;
use std::io::{ErrorKind, Read, Write};

// How many values are held at once, if a group of records has no more.
const VALUES: usize = 4096;

/// How records are read and printed.
#[derive(Debug, Clone, Copy, PartialEq, Eq)]
pub struct Form {
    /// Whether each line is a JSON object, and not CSV.
    pub json: bool,
    /// Whether the input is bytes, and not hexadecimal text.
    pub raw: bool,
}

/// Why not all records are printed.
#[derive(Debug, Drop)]
pub enum Failure {
    /// The input is not hexadecimal text.
    BadText,
    /// The last record is cut short.
    CutShort {
        /// How many records are before it.
        before: u128,
        /// How many of its bits are there.
        bits: usize,
        /// How many bits each record has.
        of: usize,
    },
    /// A read, the output or the memory failed.
    Fault(DekuError),
}

impl From<NoBytes> for Failure {
    fn from(why: NoBytes) -> Failure {
        match why {
            NoBytes::BadText => Failure::BadText,
            NoBytes::Input(error) => Failure::Fault(DekuError::Io(error.kind())),
            NoBytes::NoMemory => Failure::Fault(DekuError::Io(ErrorKind::OutOfMemory)),
        }
    }
}

impl From<AllocError> for Failure {
    fn from(_error: AllocError) -> Failure {
        Failure::Fault(DekuError::Io(ErrorKind::OutOfMemory))
    }
}

impl From<io::Error> for Failure {
    fn from(error: io::Error) -> Failure {
        Failure::Fault(DekuError::Io(error.kind()))
    }
}

impl From<DekuError> for Failure {
    fn from(fault: DekuError) -> Failure {
        Failure::Fault(fault)
    }
}

/// Prints the records of an input, one line each and in the input's order, until the input ends.
/// Returns how many there were.
///
/// Records are in a row, without padding between them; fewer than eight bits after the last one are
/// padding. Lines are CSV, after a first line with the names, or JSON objects. Hexadecimal text may
/// have white space anywhere. What is held at once does not grow with the input.
///
/// It fails if hexadecimal text is wanted and the input is none; if the last record is cut short,
/// after the lines of those before it; as the input and the output fail; and with `OutOfMemory`.
///
/// ```text
/// // of `a:u8,bits4 b:u8,bits4` and the text 69 C0
/// print_rows(alloc, &columns, form, &mut input, &mut output)?;       // a,b and 6,9 and 12,0
/// ```
pub fn print_rows<R: Read, W: Write>(
    alloc: Global,
    columns: &Columns,
    form: Form,
    input: &mut R,
    output: &mut W,
) -> Result<u128, Failure> {
    let mut feed = Feed::new(alloc, form.raw)?;
    let mut printer = Printer::new(alloc, columns, form.json)?;
    printer.print_all(&mut feed, input, output)
}

// What prints records.
#[derive(Drop)]
struct Printer<'c> {
    alloc: Global,
    columns: &'c Columns,
    json: bool,
    // How many records are printed.
    printed: u128,
    // How many groups of eight records are printed at once.
    groups: usize,
    values: Vec<Number>,
    text: String,
}

impl<'c> Printer<'c> {
    fn new(alloc: Global, columns: &'c Columns, json: bool) -> Result<Printer<'c>, AllocError> {
        let size = columns.names().len().max(1);
        let groups = (VALUES / 8 / size).max(1);
        let count = groups.saturating_mul(8).saturating_mul(size);
        Ok(Printer {
            alloc,
            columns,
            json,
            printed: 0,
            groups,
            values: vec![in alloc; Number::Unsigned(0); count]?,
            text: String::new(alloc),
        })
    }

    // Prints the names and the records until the input ends. Returns how many records.
    fn print_all<R: Read, W: Write>(
        &mut self,
        feed: &mut Feed,
        input: &mut R,
        output: &mut W,
    ) -> Result<u128, Failure> {
        self.print_names(output)?;
        let group = self.columns.plan().bits();
        for _ in 0..u64::MAX {
            if !feed.fill(input)? {
                break;
            }
            let bytes = feed.bytes();
            let whole = bytes.len() / group.max(1) * group;
            self.print_groups(&bytes[..whole.min(bytes.len())], output)?;
            feed.take(whole);
        }
        self.print_last(feed.bytes(), output)?;
        Ok(self.printed)
    }

    // Prints the names, if the lines are CSV.
    fn print_names<W: Write>(&mut self, output: &mut W) -> Result<(), Failure> {
        if self.json {
            return Ok(());
        }
        push_header(&mut self.text, self.columns.names())?;
        self.give(output)
    }

    // Prints the records of whole groups: each is of eight records, which fill as many bytes as one
    // of them has bits.
    fn print_groups<W: Write>(&mut self, bytes: &[u8], output: &mut W) -> Result<(), Failure> {
        let part = self.columns.plan().bits().saturating_mul(self.groups);
        if part == 0 {
            return Ok(());
        }
        for chunk in bytes.chunks(part) {
            let groups = chunk.len() / self.columns.plan().bits().max(1);
            self.print_records(chunk, groups.saturating_mul(8), output)?;
        }
        Ok(())
    }

    // Prints the records after the last group, unless one of them is cut short.
    fn print_last<W: Write>(&mut self, bytes: &[u8], output: &mut W) -> Result<(), Failure> {
        let of = self.columns.plan().bits();
        let all = bytes.len().saturating_mul(8);
        let (count, bits) = (all / of.max(1), all % of.max(1));
        self.print_records(bytes, count, output)?;
        if bits < 8 {
            return Ok(());
        }
        Err(Failure::CutShort {
            before: self.printed,
            bits,
            of,
        })
    }

    // Prints this many records from the first bit on.
    fn print_records<W: Write>(
        &mut self,
        bytes: &[u8],
        count: usize,
        output: &mut W,
    ) -> Result<(), Failure> {
        let all = self.read_values(bytes, count)?;
        let size = self.columns.names().len();
        for record in self.values[..all].chunks(size.max(1)) {
            if self.json {
                let names = self.columns.names();
                let object = Object {
                    names,
                    values: record,
                };
                push_json(self.alloc, &mut self.text, &object)?;
            } else {
                push_csv(&mut self.text, record)?;
            }
        }
        self.printed = self.printed.saturating_add(count as u128);
        self.give(output)
    }

    // Reads the values of this many records from the first bit on. Returns how many values.
    fn read_values(&mut self, bytes: &[u8], count: usize) -> Result<usize, Failure>
        ensures { IfOk result (λ n. n ≤ vec_len self.new.values) }
    {
        let plan = self.columns.plan();
        let Some(all) = count.checked_mul(plan.fields().len()) else {
            return Err(Failure::from(AllocError));
        };
        if all > self.values.len() {
            return Err(Failure::from(AllocError));
        }
        plan.read_all(self.alloc, bytes, count, &mut self.values[..all])?;
        Ok(all)
    }

    // Gives the text to the output.
    fn give<W: Write>(&mut self, output: &mut W) -> Result<(), Failure> {
        give_text(output, self.text.as_bytes())?;
        self.text.clear();
        Ok(())
    }
}

/// Prints a failure as a line.
///
/// ```text
/// tell(&mut errors, &Failure::BadText)?; // error: bad hexadecimal text
/// ```
pub fn tell<E: Write>(errors: &mut E, failure: &Failure) -> io::Result<()> {
    match failure {
        Failure::BadText => give_text(errors, b"error: bad hexadecimal text\n"),
        Failure::CutShort { before, bits, of } => tell_cut(errors, *before, *bits, *of),
        Failure::Fault(fault) => tell_fault(errors, fault, &[]),
    }
}

// Prints which record is cut short.
fn tell_cut<E: Write>(errors: &mut E, before: u128, bits: usize, of: usize) -> io::Result<()> {
    let (mut first, mut second, mut third, mut fourth) = (
        Buffer::new(),
        Buffer::new(),
        Buffer::new(),
        Buffer::new(),
    );
    give_parts(
        errors,
        &[
            "error: record ",
            first.format(before.saturating_add(1)),
            " is cut short: ",
            second.format(bits),
            " of its ",
            third.format(of),
            " bits are there, from bit ",
            fourth.format(before.saturating_mul(of as u128)),
            " on\n",
        ],
    )
}
