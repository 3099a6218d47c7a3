//! The text of a cell: a name and the range of its bits, in as many lines as the cell's width
//! needs.

use crate::cell::Cell;
use crate::drawing::name_of;
use crate::words::Named;
use std::alloc::{AllocError, Global};

/// The label of a cell.
#[derive(Drop)]
pub struct Label {
    /// The name of its field, or `-` for padding.
    pub name: String,
    /// Its bits, as `7..4`, or as one number; empty for padding.
    pub weights: String,
    /// The width of the cell in bits.
    pub width: usize,
    /// How many letters a line of the label has.
    pub columns: usize,
}

/// How many lines the labels of a row have: for names, and for bits.
#[derive(Clone, Copy)]
pub struct Lines {
    pub names: usize,
    pub weights: usize,
}

/// The labels of a row's cells, if a bit is `per_bit` letters wide, and `less` letters of a cell
/// are not free.
pub fn labels(
    alloc: Global,
    fields: &[Named],
    row: &[Cell],
    per_bit: usize,
    less: usize,
) -> Result<Vec<Label>, AllocError> {
    let mut labels = Vec::new(alloc);
    for cell in row {
        let columns = cell.width.saturating_mul(per_bit).saturating_sub(less);
        labels.push(label_of(alloc, fields, cell, columns)?)?;
    }
    Ok(labels)
}

// The label of a cell whose lines have this many letters.
fn label_of(
    alloc: Global,
    fields: &[Named],
    cell: &Cell,
    columns: usize,
) -> Result<Label, AllocError> {
    let (name, weights) = match cell.first {
        None => (String::from_str(alloc, "-")?, String::new(alloc)),
        Some(place) => (
            name_of(alloc, fields, place.field)?,
            weights(alloc, place.bit, cell.width)?,
        ),
    };
    Ok(Label {
        name,
        weights,
        width: cell.width,
        columns,
    })
}

// The bits from the highest down.
fn weights(alloc: Global, high: usize, width: usize) -> Result<String, AllocError> {
    let low = high.saturating_sub(width.saturating_sub(1));
    if low == high {
        return format!(in alloc; "{high}");
    }
    format!(in alloc; "{high}..{low}")
}

/// How many lines the labels need.
pub fn lines_of(labels: &[Label]) -> Lines {
    let mut lines = Lines {
        names: 0,
        weights: 0,
    };
    for label in labels {
        lines.names = lines.names.max(line_count(&label.name, label.columns));
        lines.weights = lines.weights.max(line_count(&label.weights, label.columns));
    }
    lines
}

// How many lines a text has that is broken after this many letters.
fn line_count(text: &String, columns: usize) -> usize {
    text.len().div_ceil(columns.max(1))
}

/// The n-th line of a text that is broken after this many letters.
pub fn line_of(text: &String, columns: usize, n: usize) -> &[u8] {
    text.as_bytes().chunks(columns.max(1)).nth(n).unwrap_or(b"")
}
