//! Places in a text, and what is wrong there.

ghost use Rattle.std.specs.Prelude.{◌≡◌, ◌≤◌, ◌↔◌, length, take, IsNone};
ghost use Rattle.deku_tokens.specs.Places.{is_newline, is_start, line_after, last_line_len};
ghost use Rattle.deku_tokens.specs.Places.{column_after};

use std::alloc::{AllocError, Global};
use std::fmt::Write as _;

/// A place in a text, as editors count.
#[derive(Clone, Copy, Debug, PartialEq, Eq)]
pub struct Place {
    /// The line, from 1.
    pub line: usize,
    /// The column in characters, from 1.
    pub column: usize,
}

/// The part of a text between two offsets in bytes.
#[derive(Clone, Copy, Debug, PartialEq, Eq)]
pub struct Span {
    /// The offset of the first byte.
    pub start: usize,
    /// The offset after the last byte.
    pub end: usize,
}

/// What is wrong with a description, and what to write in its place.
#[derive(Clone, Copy, Debug, PartialEq, Eq)]
pub struct Complaint<'a> {
    /// Where it is.
    pub span: Span,
    /// What is wrong, in deku's terms.
    pub message: &'a str,
    /// What to write in its place.
    pub help: &'a str,
}

/// The place of the byte at an offset, or of the end of the text if the offset is not below its
/// length.
///
/// ```text
/// place_of("ab\ncd", 4)    // line 2, column 2
/// ```
pub fn place_of(text: &str, offset: usize) -> Place
    ensures line { result.line ≡ line_after (take offset text.now) }
    ensures column { result.column ≡ column_after (take offset text.now) }
{
    let before = bytes_before(text, offset);
    Place {
        line: line_after(before),
        column: column_after(before),
    }
}

// The bytes before an offset.
fn bytes_before(text: &str, offset: usize) -> &[u8]
    ensures { result.now ≡ take offset text.now }
{
    let bytes = text.as_bytes();
    if offset < bytes.len() {
        &bytes[..offset]
    } else {
        bytes
    }
}

fn is_newline(byte: u8) -> bool
    ensures { result ≡ is_newline byte }
{
    byte == b'\n'
}

fn is_start(byte: u8) -> bool
    ensures { result ≡ is_start byte }
{
    byte < 128 || byte > 191
}

fn line_after(before: &[u8]) -> usize
    ensures { result ≡ line_after before.now }
{
    before.iter().filter(|b| is_newline(**b)).count() + 1
}

fn column_after(before: &[u8]) -> usize
    ensures { result ≡ column_after before.now }
{
    let start = before.len() - last_line_len(before);
    before[start..].iter().filter(|b| is_start(**b)).count() + 1
}

// How many bytes there are after the last newline.
fn last_line_len(before: &[u8]) -> usize
    ensures len { result ≡ last_line_len before.now }
    ensures within { result ≤ length before.now }
{
    before.iter().rev().take_while(|b| !is_newline(**b)).count()
}

// Lines that are longer than this in bytes are not quoted.
const QUOTED: usize = 200;

// How many complaints are shown.
const SHOWN: usize = 100;

/// Complaints as they are printed: for each `FILE:LINE:COLUMN: error: ` with the message, the line
/// with a caret under the place, and a line of help. A line of more than
/// 200 bytes is not quoted, and only the first 100 complaints are shown.
///
/// # Errors
///
/// `AllocError` if there is no memory.
///
/// ```text
/// told(alloc, "ntp.rs", text, &complaints)?
/// // ntp.rs:3:12: error: unknown attribute `bit`
/// //     #[deku(bit = 2)]
/// //            ^
/// // help: write `bits`
/// ```
pub fn told(
    alloc: Global,
    file: &str,
    text: &str,
    complaints: &[Complaint<'_>],
) -> Result<String, AllocError> {
    let mut out = String::new(alloc);
    for complaint in complaints.iter().take(SHOWN) {
        tell(&mut out, file, text, *complaint)?;
    }
    if complaints.len() > SHOWN {
        let more = complaints.len() - SHOWN;
        writeln!(out, "{more} more errors are not shown")?;
    }
    Ok(out)
}

// Appends a complaint.
fn tell(
    out: &mut String,
    file: &str,
    text: &str,
    complaint: Complaint<'_>,
) -> Result<(), AllocError> {
    let place = place_of(text, complaint.span.start);
    let line = place.line;
    let column = place.column;
    let message = complaint.message;
    writeln!(out, "{file}:{line}:{column}: error: {message}")?;
    quote(out, text, complaint.span.start)?;
    let help = complaint.help;
    if !help.is_empty() {
        writeln!(out, "help: {help}")?;
    }
    Ok(())
}

// Appends the line of an offset, and a caret under its character.
fn quote(out: &mut String, text: &str, offset: usize) -> Result<(), AllocError> {
    let (start, end) = line_around(text.as_bytes(), offset);
    let (Some(line), Some(before)) = (text.get(start..end), text.get(start..offset)) else {
        return Ok(());
    };
    if line.len() > QUOTED {
        return Ok(());
    }
    writeln!(out, "{line}")?;
    for c in before.chars() {
        out.push(if c == '\t' { '\t' } else { ' ' })?;
    }
    out.push_str("^\n")
}

// Where the line of an offset begins and ends.
fn line_around(bytes: &[u8], offset: usize) -> (usize, usize) {
    let at = offset.min(bytes.len());
    let start = match bytes[..at].iter().rposition(|b| *b == b'\n') {
        Some(newline) => newline + 1,
        None => 0,
    };
    let end = match bytes[at..].iter().position(|b| *b == b'\n') {
        Some(more) => at + more,
        None => bytes.len(),
    };
    (start, end)
}

/// The first line, from 1, in which two texts differ.
///
/// ```text
/// first_difference("a\nb\n", "a\nc\n")    // Some(2)
/// ```
pub fn first_difference(one: &str, other: &str) -> Option<usize>
    ensures { IsNone result ↔ (one.now ≡ other.now) }
{
    if one == other {
        return None;
    }
    let pairs = one.bytes().zip(other.bytes());
    let same = pairs
        .take_while(|(a, b)| a == b)
        .filter(|(a, _)| *a == b'\n');
    Some(same.count().saturating_add(1))
}
