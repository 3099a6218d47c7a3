//! Fields that an update sets.

use deku_attributes::model::{Attribute, Field};
use deku_attributes::reading::bits_of;
use deku_description::syntax::Type;
use deku_texts::wrapping::number_kind;

/// A field that an update sets to the length of a list.
#[derive(Clone, Copy)]
pub struct Updated<'a> {
    /// The name of the field.
    pub name: &'a str,
    /// Its type.
    pub kind: &'a str,
    /// The bits of its type.
    pub bits: u64,
    /// The name of the list.
    pub list: &'a str,
}

/// Whether an update sets the field.
pub fn is_updated(field: &Field<'_>) -> bool {
    update_of(field).is_some()
}

impl<'a> Updated<'a> {
    /// A field as such: an unsigned number of at most 64 bits, set to the length of a list among
    /// these fields.
    pub fn of(field: &Field<'a>, fields: &[Field<'a>]) -> Option<Updated<'a>> {
        let text = update_of(field)?;
        let list = text.strip_prefix("\"self.")?.strip_suffix(".len()\"")?;
        let kind = number_kind(field)?;
        let bits = bits_of(kind)?;
        let is_there = fields.iter().any(|it| is_list(it, list));
        if !is_there || bits > 64 || !kind.starts_with('u') {
            return None;
        }
        Some(Updated {
            name: field.name?.text,
            kind,
            bits,
            list,
        })
    }
}

// The text of a field's `update`, with quotes.
fn update_of<'a>(field: &Field<'a>) -> Option<&'a str> {
    for attribute in field.attributes {
        if let Attribute::Update(token) = attribute {
            return Some(token.text);
        }
    }
    None
}

// Whether a field is a list of this name.
fn is_list(field: &Field<'_>, name: &str) -> bool {
    let is_named = field.name.is_some_and(|it| it.is_name(name));
    match &field.kind {
        Type::Of(kind, _) => is_named && kind.is_name("Vec"),
        _ => false,
    }
}
