//! Values that records are given: the ids of enums.

use crate::checking::Checker;
use crate::model::{Attribute, Field, Form, IdSource, Record};
use crate::reading::said;
use deku_description::syntax;
use deku_description::syntax::{Head, Type};
use deku_tokens::token::Token;
use std::alloc::AllocError;

/// Why an enum is refused that is given its id, and what to write in its place.
pub type Refusal = (&'static str, &'static str);

/// The type of the id that an enum is given: of the `u8` in `ctx = "kind: u8", id = "kind"`.
///
/// ```text
/// given(Some(context), id)    // Ok("u8")
/// ```
pub fn given<'a>(context: Option<Token<'a>>, id: Token<'a>) -> Result<&'a str, Refusal> {
    let values = match context {
        Some(token) => token.text.trim_matches(['"', ' ']),
        None => "",
    };
    if values.contains(',') {
        return Err((
            "a `ctx` of several values is not supported",
            "write `ctx = \"kind: u8\"`, and the other values in the record that has them",
        ));
    }
    let (name, kind) = values.split_once(':').unwrap_or(("", ""));
    let (name, kind) = (name.trim(), kind.trim());
    if name.is_empty() || id.text.trim_matches(['"', ' ']).trim_start_matches('*') != name {
        return Err((
            "an id that is not the value of `ctx`",
            "write `ctx = \"kind: u8\", id = \"kind\"`",
        ));
    }
    match kind {
        "u8" | "u16" | "u32" | "u64" | "usize" => Ok(kind),
        _ => Err((
            "an id that is no whole number from 0 of at most 64 bits is not supported",
            "write `u8`, `u16`, `u32` or `u64`",
        )),
    }
}

/// Whether a record is an enum that is given its id.
pub fn is_given(record: &Record<'_>) -> bool {
    id_of(record).is_some()
}

/// The type of the id that an enum is given.
pub fn given_kind<'a>(record: &Record<'a>) -> Option<&'a str> {
    given(record.context, id_of(record)?).ok()
}

// The name of the value that is the id of an enum, with its quotes.
fn id_of<'a>(record: &Record<'a>) -> Option<Token<'a>> {
    match &record.form {
        Form::Enum(ids, _) => match ids.source {
            IdSource::Context(id) => Some(id),
            IdSource::Front(_) => None,
        },
        Form::Struct(_, _) => None,
    }
}

/// The name of the enum whose id a field gives it.
pub fn chosen<'a>(field: &Field<'a>) -> Option<&'a str> {
    let is_given = field
        .attributes
        .iter()
        .any(|attribute| matches!(attribute, Attribute::Context(_)));
    match &field.kind {
        Type::Name(name) if is_given => Some(name.text),
        _ => None,
    }
}

/// The name of the field that a context is, as in `ctx = "*kind"`.
pub fn passed<'a>(context: Token<'a>) -> Option<&'a str> {
    let name = context.text.trim_matches(['"', ' ']);
    let name = name.strip_prefix("*").unwrap_or(name);
    let is_name = !name.is_empty()
        && name
            .bytes()
            .all(|byte| byte.is_ascii_alphanumeric() || byte == b'_');
    if is_name { Some(name) } else { None }
}

impl<'a> Checker<'a> {
    /// Complains of what says how an id is laid out that is given.
    pub(crate) fn not_in_front(&mut self, head: &Head<'a>) -> Result<(), AllocError> {
        for name in ["id_type", "id_endian", "bits", "bytes"] {
            if let Some(syntax::Attribute { name, .. }) = said(head, name) {
                let word = name.text;
                let message = self
                    .arena
                    .print(format_args!("`id` and `{word}` together"))?;
                self.complain(name.span, message, "leave one of them out")?;
            }
        }
        Ok(())
    }
}
