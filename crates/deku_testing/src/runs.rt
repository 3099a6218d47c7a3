//! Runs of programs: the words, the input, and what comes of them.

use std::alloc::{AllocError, Global};
use std::io;
use std::io::{Cursor, Error, ErrorKind, Read, Write};
use std::test::Fail;

// Room for what a run prints, and for what it complains of.
const OUTPUT: usize = 4096;

const ERRORS: usize = 512;

const NO_MEMORY: &[u8] = b"error: io errorr: OutOfMemory\n";

/// What a program is run on.
#[derive(Drop)]
pub struct Call<'c, R, W, E> {
    pub alloc: Global,
    pub words: &'c [String],
    pub input: &'c mut R,
    pub output: &'c mut W,
    pub errors: &'c mut E,
}

/// A program that is run in memory.
pub trait Program {
    /// Runs it, and returns its status.
    fn run<R: Read, W: Write, E: Write>(&self, call: Call<'_, R, W, E>) -> u8;
}

/// An input or an output that fails.
#[derive(Drop)]
pub struct Broken;

impl Read for Broken {
    fn read(&mut self, _buf: &mut [u8]) -> io::Result<usize> {
        Err(Error::from(ErrorKind::Other))
    }
}

impl Write for Broken {
    fn write(&mut self, _buf: &[u8]) -> io::Result<usize> {
        Err(Error::from(ErrorKind::Other))
    }

    fn flush(&mut self) -> io::Result<()> {
        Ok(())
    }
}

/// A run: its words, each with a slash in front of it, its input, and the status, the output and
/// the complaints that it ends with.
#[derive(Debug, Clone, Copy)]
pub struct Run<'t> {
    pub words: &'t str,
    pub input: &'t str,
    pub status: u8,
    pub output: &'t str,
    pub errors: &'t str,
}

impl Run<'_> {
    /// A run of no input, which prints nothing, and complains so.
    pub fn complaining<'t>(words: &'t str, status: u8, errors: &'t str) -> Run<'t> {
        Run {
            words,
            input: "",
            status,
            output: "",
            errors,
        }
    }

    /// A run of no input, which prints this.
    pub fn printing<'t>(words: &'t str, output: &'t str) -> Run<'t> {
        Run {
            words,
            input: "",
            status: 0,
            output,
            errors: "",
        }
    }

    // The columns of a line, which have bars between them.
    fn of(line: &str) -> Option<Run<'_>> {
        let (words, line) = line.split_once('|')?;
        let (input, line) = line.split_once('|')?;
        let (status, line) = line.split_once('|')?;
        let (output, errors) = line.split_once('|')?;
        Some(Run {
            words,
            input,
            status: status.parse().ok()?,
            output,
            errors,
        })
    }
}

/// The words, each with a slash in front of it, as arguments.
pub fn arguments(alloc: Global, words: &str) -> Result<Vec<String>, AllocError> {
    let mut arguments = Vec::new(alloc);
    for word in words.split('/').skip(1) {
        arguments.push(String::from_str(alloc, word)?)?;
    }
    Ok(arguments)
}

/// The program ends as each line of the text says: the words, the input, the status, the output and
/// the complaints, with bars between them, and a semicolon for each newline.
pub fn expect_lines<P: Program>(alloc: Global, program: &P, text: &str) -> Result<(), Fail> {
    for line in text.lines() {
        let line = line.replace(alloc, ';', "\n")?;
        match Run::of(line.as_str()) {
            Some(run) => expect_run(alloc, program, &run)?,
            None => return Err(Fail::new(format_args!("no run: {line}"))),
        }
    }
    Ok(())
}

/// The program ends as the run says. That it is out of memory, which nobody asked for, is handed
/// on.
pub fn expect_run<P: Program>(alloc: Global, program: &P, run: &Run<'_>) -> Result<(), Fail> {
    let mut page = [0u8; OUTPUT];
    let mut output = Cursor::new(page.as_mut_slice());
    let refused = ended(alloc, program, run, &mut run.input.as_bytes(), &mut output)?;
    let count = output.position();
    let printed = front(&page, count);
    let wanted = if refused { "" } else { run.output };
    if printed != wanted.as_bytes() {
        return Err(Fail::new(format_args!("output of {run:?}: {printed:?}")));
    }
    handed_on(refused)
}

/// The program, over this input and this output, ends with the status and the complaints of the
/// run. That it is out of memory, which nobody asked for, is handed on.
pub fn expect_end<P: Program, R: Read, W: Write>(
    alloc: Global,
    program: &P,
    run: &Run<'_>,
    input: &mut R,
    output: &mut W,
) -> Result<(), Fail> {
    handed_on(ended(alloc, program, run, input, output)?)
}

// Memory that was refused is handed on.
fn handed_on(refused: bool) -> Result<(), Fail> {
    if refused {
        return Err(Fail::from(ErrorKind::OutOfMemory));
    }
    Ok(())
}

// Whether the run ended because it was out of memory, and not with the status and the complaints
// that it has.
fn ended<P: Program, R: Read, W: Write>(
    alloc: Global,
    program: &P,
    run: &Run<'_>,
    input: &mut R,
    output: &mut W,
) -> Result<bool, Fail> {
    let words = arguments(alloc, run.words)?;
    let mut page = [0u8; ERRORS];
    let mut errors = Cursor::new(page.as_mut_slice());
    let status = program.run(Call {
        alloc,
        words: words.as_slice(),
        input,
        output,
        errors: &mut errors,
    });
    let count = errors.position();
    let told = front(&page, count);
    if status == 1 && told == NO_MEMORY {
        return Ok(true);
    }
    if status == run.status && told == run.errors.as_bytes() {
        return Ok(false);
    }
    Err(Fail::new(format_args!("{run:?}: status {status}, errors {told:?}")))
}

// The first bytes of a page.
fn front(page: &[u8], count: u64) -> &[u8] {
    match usize::try_from(count) {
        Ok(count) if count <= page.len() => page.split_at(count).0,
        _ => page,
    }
}
