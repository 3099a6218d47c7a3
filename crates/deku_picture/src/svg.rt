//! Pictures as SVG.

ghost use Rattle.std.specs.Prelude.{IfOk, string_bytes};
ghost use Rattle.deku_picture.specs.Drawn.{IsSvg};

use crate::cell::Cell;
use crate::drawing::{Drawing, byte_count, byte_number, push_fields};
use crate::label::{Label, Lines, labels, line_of, lines_of};
use crate::table::push_letters;
use crate::words::Named;
use std::alloc::{AllocError, Global};
use std::fmt::Write as _;

// The width of a bit, the height of a line of text, and the margin, in pixels.
const BIT: usize = 20;

const LINE: usize = 14;

const MARGIN: usize = 10;

// The width of a picture: 32 bits and the margins.
const WIDTH: usize = 660;

// The colours of fields, one after the other.
const COLOURS: [&str; 6] = [
    "#cfe2f3", "#d9ead3", "#fff2cc", "#f4cccc", "#d9d2e9", "#fce5cd",
];

// A place in a picture, in pixels from its left and its top.
#[derive(Clone, Copy)]
struct Point {
    x: usize,
    y: usize,
}

impl Point {
    // The place this far to the right.
    fn right(self, by: usize) -> Point {
        Point {
            x: self.x.saturating_add(by),
            y: self.y,
        }
    }

    // The place this far down.
    fn down(self, by: usize) -> Point {
        Point {
            x: self.x,
            y: self.y.saturating_add(by),
        }
    }
}

/// A picture as SVG, 660 pixels wide. It has for each row the numbers of its bytes and of their
/// bits, and its cells; and then a line for each field.
pub fn svg(alloc: Global, drawing: &Drawing) -> Result<String, AllocError>
    ensures { IfOk result (λ text. IsSvg (string_bytes text)) }
{
    let mut body = String::new(alloc);
    let mut at = Point {
        x: MARGIN,
        y: MARGIN,
    };
    for (index, row) in drawing.rows.iter().enumerate() {
        push_numbers(&mut body, at, index, byte_count(row.as_slice()))?;
        let below = at.down(2 * LINE);
        let height = push_row(
            alloc,
            &mut body,
            below,
            drawing.fields.as_slice(),
            row.as_slice(),
        )?;
        at = below.down(height).down(MARGIN);
    }
    let end = push_list(alloc, &mut body, at, drawing)?;
    framed(alloc, end.y, &body)
}

// The whole picture, made of a body and its height.
fn framed(alloc: Global, height: usize, body: &String) -> Result<String, AllocError>
    ensures { IfOk result (λ text. IsSvg (string_bytes text)) }
{
    let mut text = String::new(alloc);
    write!(
        text,
        "<svg xmlns=\"http://www.w3.org/2000/svg\" width=\"{WIDTH}\" height=\"{height}\" viewBox=\"0 0 {WIDTH} {height}\""
    )?;
    text.push_str(" font-family=\"monospace\" font-size=\"10\" text-anchor=\"middle\">\n")?;
    writeln!(
        text,
        "<rect width=\"{WIDTH}\" height=\"{height}\" fill=\"white\"/>"
    )?;
    text.push_str(body.as_str())?;
    text.push_str("</svg>\n")?;
    Ok(text)
}

// The numbers of the bytes of a row, and of the bits of each.
fn push_numbers(text: &mut String, at: Point, row: usize, bytes: usize) -> Result<(), AllocError> {
    let mut left = at;
    for n in 0..bytes {
        let number = byte_number(row, n);
        let middle = left.right(4 * BIT).down(MARGIN);
        let Point { x, y } = middle;
        writeln!(text, "<text x=\"{x}\" y=\"{y}\">byte {number}</text>")?;
        push_bit_numbers(text, left.down(LINE))?;
        left = left.right(8 * BIT);
    }
    Ok(())
}

// The numbers of the bits of a byte, from the highest down.
fn push_bit_numbers(text: &mut String, at: Point) -> Result<(), AllocError> {
    let mut middle = at.right(BIT / 2).down(MARGIN);
    for bit in ["7", "6", "5", "4", "3", "2", "1", "0"] {
        let Point { x, y } = middle;
        writeln!(text, "<text x=\"{x}\" y=\"{y}\">{bit}</text>")?;
        middle = middle.right(BIT);
    }
    Ok(())
}

// The cells of a row, and their height.
fn push_row(
    alloc: Global,
    text: &mut String,
    at: Point,
    fields: &[Named],
    row: &[Cell],
) -> Result<usize, AllocError> {
    let labels = labels(alloc, fields, row, 3, 0)?;
    let lines = lines_of(labels.as_slice());
    let height = lines
        .names
        .saturating_add(lines.weights)
        .saturating_mul(LINE)
        .saturating_add(MARGIN);
    let mut left = at;
    for (label, cell) in labels.iter().zip(row) {
        push_cell(text, left, height, label, cell, lines)?;
        left = left.right(label.width.saturating_mul(BIT));
    }
    Ok(height)
}

// A cell: its frame, its name and its bits.
fn push_cell(
    text: &mut String,
    at: Point,
    height: usize,
    label: &Label,
    cell: &Cell,
    lines: Lines,
) -> Result<(), AllocError> {
    let Point { x, y } = at;
    let width = label.width.saturating_mul(BIT);
    let colour = colour_of(cell);
    write!(text, "<rect x=\"{x}\" y=\"{y}\" width=\"{width}\" ")?;
    writeln!(
        text,
        "height=\"{height}\" fill=\"{colour}\" stroke=\"black\"/>"
    )?;
    let names = at.right(width / 2).down(LINE);
    push_lines(text, names, &label.name, label.columns, lines.names)?;
    let weights = names.down(lines.names.saturating_mul(LINE));
    push_lines(text, weights, &label.weights, label.columns, lines.weights)
}

// The colour of a cell: that of its field, or grey for padding.
fn colour_of(cell: &Cell) -> &'static str {
    match cell.first {
        None => "#eeeeee",
        Some(place) => COLOURS[place.field % 6],
    }
}

// The lines of a text, one below the other.
fn push_lines(
    text: &mut String,
    at: Point,
    word: &String,
    columns: usize,
    count: usize,
) -> Result<(), AllocError> {
    let mut at = at;
    for n in 0..count {
        let line = line_of(word, columns, n);
        if !line.is_empty() {
            let Point { x, y } = at;
            write!(text, "<text x=\"{x}\" y=\"{y}\">")?;
            push_letters(text, line)?;
            text.push_str("</text>\n")?;
        }
        at = at.down(LINE);
    }
    Ok(())
}

// A line for each field, from `at` on down. Returns the end of the picture.
fn push_list(
    alloc: Global,
    text: &mut String,
    at: Point,
    drawing: &Drawing,
) -> Result<Point, AllocError> {
    let Point { x, y } = at;
    let height = drawing.fields.len().saturating_mul(LINE);
    write!(text, "<text x=\"{x}\" y=\"{y}\" text-anchor=\"start\" ")?;
    text.push_str("xml:space=\"preserve\">\n")?;
    let line = "</tspan>\n";
    push_fields(alloc, text, drawing, "<tspan x=\"10\" dy=\"14\">", line)?;
    text.push_str("</text>\n")?;
    Ok(at.down(height).down(MARGIN))
}
