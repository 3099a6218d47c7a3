//! Lines of a record: the name of a field, and its value.

use crate::places::Place;
use std::alloc::AllocError;
use std::fmt::Write;

/// Adds a line for each number: the name of its field, a space, and the number in decimal.
///
/// ```text
/// show_numbers(&[("width", 32), ("height", 32)], &[608, 275], &mut text)?;
/// // "width 608\nheight 275\n"
/// ```
pub fn show_numbers(
    fields: &[Place],
    numbers: &[i128],
    text: &mut String,
) -> Result<(), AllocError> {
    for ((name, _), number) in fields.iter().zip(numbers) {
        writeln!(text, "{name} {number}")?;
    }
    Ok(())
}
