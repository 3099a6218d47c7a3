//! Pictures as text.

use crate::cell::Cell;
use crate::drawing::{Drawing, Sample, byte_count, byte_number, push_fields, push_many};
use crate::label::{Label, labels, line_of, lines_of};
use crate::words::Named;
use std::alloc::{AllocError, Global};
use std::fmt::Write as _;

/// A picture as text. It has for each row the numbers of its bytes and of their bits, its cells,
/// and the bits of the bytes if there are some; and then a line for each field. A row is 65 letters
/// wide.
pub fn table(alloc: Global, drawing: &Drawing) -> Result<String, AllocError> {
    let mut text = String::new(alloc);
    for (index, row) in drawing.rows.iter().enumerate() {
        let row = row.as_slice();
        push_numbers(&mut text, index, byte_count(row))?;
        push_bit_numbers(&mut text, byte_count(row))?;
        push_cells(
            alloc,
            &mut text,
            drawing.fields.as_slice(),
            row,
            &bits_of(alloc, &drawing.sample, index, byte_count(row))?,
        )?;
        text.push('\n')?;
    }
    push_fields(alloc, &mut text, drawing, "", "\n")?;
    Ok(text)
}

// The numbers of the bytes of a row.
fn push_numbers(text: &mut String, row: usize, bytes: usize) -> Result<(), AllocError> {
    for n in 0..bytes {
        let number = byte_number(row, n);
        if n + 1 < bytes {
            write!(text, " byte {number:<10}")?;
        } else {
            writeln!(text, " byte {number}")?;
        }
    }
    Ok(())
}

// The numbers of the bits of this many bytes.
fn push_bit_numbers(text: &mut String, bytes: usize) -> Result<(), AllocError> {
    for _ in 0..bytes {
        text.push_str(" 7 6 5 4 3 2 1 0")?;
    }
    text.push('\n')
}

// The cells of a row, with the bits in them if there are some.
fn push_cells(
    alloc: Global,
    text: &mut String,
    fields: &[Named],
    row: &[Cell],
    bits: &String,
) -> Result<(), AllocError> {
    let labels = labels(alloc, fields, row, 2, 1)?;
    let labels = labels.as_slice();
    let lines = lines_of(labels);
    push_border(text, labels)?;
    push_lines(text, labels, lines.names, Part::Name)?;
    push_lines(text, labels, lines.weights, Part::Weights)?;
    if !bits.is_empty() {
        push_bits(text, labels, bits)?;
    }
    push_border(text, labels)
}

// The line above the cells of a row, and below them.
fn push_border(text: &mut String, labels: &[Label]) -> Result<(), AllocError> {
    for label in labels {
        text.push('+')?;
        push_many(text, '-', label.columns)?;
    }
    text.push_str("+\n")
}

// A part of a label.
#[derive(Clone, Copy)]
enum Part {
    Name,
    Weights,
}

// The first `count` lines of that part of all labels.
fn push_lines(
    text: &mut String,
    labels: &[Label],
    count: usize,
    part: Part,
) -> Result<(), AllocError> {
    for n in 0..count {
        push_line(text, labels, n, part)?;
    }
    Ok(())
}

// The n-th line of that part of all labels.
fn push_line(text: &mut String, labels: &[Label], n: usize, part: Part) -> Result<(), AllocError> {
    for label in labels {
        let word = match part {
            Part::Name => &label.name,
            Part::Weights => &label.weights,
        };
        text.push('|')?;
        push_centred(text, line_of(word, label.columns, n), label.columns)?;
    }
    text.push_str("|\n")
}

// Letters in the middle of this many columns.
fn push_centred(text: &mut String, letters: &[u8], columns: usize) -> Result<(), AllocError> {
    let gap = columns.saturating_sub(letters.len());
    push_many(text, ' ', gap / 2)?;
    push_letters(text, letters)?;
    push_many(text, ' ', gap - gap / 2)
}

/// Adds letters, each of them ASCII.
pub fn push_letters(text: &mut String, letters: &[u8]) -> Result<(), AllocError> {
    for letter in letters {
        text.push(char::from(*letter))?;
    }
    Ok(())
}

// The bits of the bytes of a row, as they are printed. Empty if there are no bytes.
fn bits_of(
    alloc: Global,
    sample: &Option<Sample>,
    row: usize,
    bytes: usize,
) -> Result<String, AllocError> {
    let mut bits = String::new(alloc);
    if let Some(sample) = sample {
        for n in 0..bytes {
            let byte = sample.bytes.get(byte_number(row, n)).copied().unwrap_or(0);
            write!(bits, "{byte:08b}")?;
        }
    }
    Ok(bits)
}

// The bits of a row, in its cells.
fn push_bits(text: &mut String, labels: &[Label], bits: &String) -> Result<(), AllocError> {
    let mut rest = bits.as_bytes();
    for label in labels {
        let (here, behind) = rest.split_at(label.width.min(rest.len()));
        push_cell_bits(text, here)?;
        rest = behind;
    }
    text.push_str("|\n")
}

// The bits of a cell, after its left border.
fn push_cell_bits(text: &mut String, bits: &[u8]) -> Result<(), AllocError> {
    let mut mark = '|';
    for bit in bits {
        text.push(mark)?;
        text.push(char::from(*bit))?;
        mark = ' ';
    }
    Ok(())
}
