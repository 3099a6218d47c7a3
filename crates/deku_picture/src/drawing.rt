//! What is drawn: fields with their names, the rows of their cells, and the bytes that they were
//! read from.

use crate::cell::{Cell, PLACES_IN_ROW};
use crate::words::Named;
use deku_fields::Number;
use std::alloc::{AllocError, Global};
use std::fmt::Write as _;

/// Bytes, and the values that the fields read from them.
#[derive(Drop)]
pub struct Sample {
    pub bytes: Vec<u8>,
    pub values: Vec<Number>,
}

/// A picture of fields.
#[derive(Drop)]
pub struct Drawing<'a> {
    pub fields: Vec<Named<'a>>,
    pub rows: Vec<Vec<Cell>>,
    pub sample: Option<Sample>,
}

// How many letters of a name are shown.
const LETTERS: usize = 64;

/// The first 64 letters of the name of a field. If it has no name, `f` and its number, from one on.
pub fn name_of(alloc: Global, fields: &[Named], index: usize) -> Result<String, AllocError> {
    match fields.get(index) {
        Some(field) if !field.name.is_empty() => {
            String::from_str(alloc, field.name.get(..LETTERS).unwrap_or(field.name))
        }
        _ => {
            let number = index.saturating_add(1);
            format!(in alloc; "f{number}")
        }
    }
}

// The longest name of the fields and the longest of their words, in letters.
fn widest(alloc: Global, fields: &[Named]) -> Result<(usize, usize), AllocError> {
    let (mut name, mut spec) = (0, 0);
    for (index, field) in fields.iter().enumerate() {
        name = name_of(alloc, fields, index)?.len().max(name);
        spec = field.spec.len().max(spec);
    }
    Ok((name, spec))
}

/// How many bytes the cells of a row have.
pub fn byte_count(row: &[Cell]) -> usize {
    let mut bits: usize = 0;
    for cell in row {
        bits = bits.saturating_add(cell.width);
    }
    bits.min(PLACES_IN_ROW) / 8
}

/// The number of the n-th byte of a row.
pub fn byte_number(row: usize, n: usize) -> usize {
    row.saturating_mul(PLACES_IN_ROW / 8).saturating_add(n)
}

/// Adds a line for each field: its name, its word and its value if there is one.
pub fn push_fields(
    alloc: Global,
    text: &mut String,
    drawing: &Drawing,
    before: &str,
    behind: &str,
) -> Result<(), AllocError> {
    let fields = drawing.fields.as_slice();
    let (name_width, spec_width) = widest(alloc, fields)?;
    for (index, field) in fields.iter().enumerate() {
        let name = name_of(alloc, fields, index)?;
        text.push_str(before)?;
        push_padded(text, name.as_str(), name_width)?;
        text.push_str(" ")?;
        match value_of(&drawing.sample, index) {
            Some(value) => {
                push_padded(text, field.spec, spec_width)?;
                text.push_str(" ")?;
                push_number(text, value)?;
            }
            None => text.push_str(field.spec)?,
        }
        text.push_str(behind)?;
    }
    Ok(())
}

// The value of a field, if bytes were read.
fn value_of(sample: &Option<Sample>, index: usize) -> Option<Number> {
    match sample {
        Some(sample) => sample.values.get(index).copied(),
        None => None,
    }
}

// Adds a number in decimal digits.
fn push_number(text: &mut String, value: Number) -> Result<(), AllocError> {
    match value {
        Number::Unsigned(value) => write!(text, "{value}"),
        Number::Signed(value) => write!(text, "{value}"),
    }
}

// Adds a text, and spaces after it up to a width.
fn push_padded(text: &mut String, word: &str, width: usize) -> Result<(), AllocError> {
    text.push_str(word)?;
    push_many(text, ' ', width.saturating_sub(word.len()))
}

/// Adds a letter `count` times.
pub fn push_many(text: &mut String, letter: char, count: usize) -> Result<(), AllocError> {
    for _ in 0..count {
        text.push(letter)?;
    }
    Ok(())
}
