//! The text of a record: a line of CSV, or a JSON object.

use deku_fields::Number;
use itoa::Buffer;
use serde::{Described, Serialize, Serializer};
use std::alloc::{AllocError, Global};

/// Appends names as a line of CSV.
pub(crate) fn push_header(text: &mut String, names: &[String]) -> Result<(), AllocError> {
    for (place, name) in names.iter().enumerate() {
        if place > 0 {
            text.push(',')?;
        }
        text.push_str(name.as_str())?;
    }
    text.push('\n')
}

/// Appends values as a line of CSV.
pub(crate) fn push_csv(text: &mut String, values: &[Number]) -> Result<(), AllocError> {
    for (place, value) in values.iter().enumerate() {
        if place > 0 {
            text.push(',')?;
        }
        push_number(text, *value)?;
    }
    text.push('\n')
}

// Appends a number in decimal digits.
fn push_number(text: &mut String, value: Number) -> Result<(), AllocError> {
    let mut buffer = Buffer::new();
    let digits = match value {
        Number::Unsigned(number) if number < 1 << 64 => buffer.format(number as u64),
        Number::Unsigned(number) => buffer.format(number),
        Number::Signed(number) => buffer.format(number),
    };
    text.push_str(digits)
}

/// Appends a record as a JSON object on a line.
pub(crate) fn push_json(
    alloc: Global,
    text: &mut String,
    object: &Object<'_, '_>,
) -> Result<(), AllocError> {
    let Ok(line) = serde_json::to_string(alloc, object) else {
        return Err(AllocError);
    };
    text.push_str(line.as_str())?;
    text.push('\n')
}

/// A record as a JSON object: its names with its values.
#[derive(Clone, Copy)]
pub(crate) struct Object<'n, 'v> {
    pub(crate) names: &'n [String],
    pub(crate) values: &'v [Number],
}

impl<'n, 'v> Described for Object<'n, 'v> {}

impl<'n, 'v> Serialize for Object<'n, 'v> {
    fn serialize<S: Serializer>(&self, out: &mut S) -> Result<(), S::Error> {
        out.begin_map(Some(self.names.len()))?;
        for (name, value) in self.names.iter().zip(self.values) {
            out.key(name.as_str())?;
            match *value {
                Number::Unsigned(number) => number.serialize(out)?,
                Number::Signed(number) => number.serialize(out)?,
            }
        }
        out.end_map()
    }
}
