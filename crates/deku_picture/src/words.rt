//! Words of a command line: fields, each with or without a name before it.

ghost use Rattle.std.specs.Prelude.{◌≡◌, ◌↔◌, ℕ, List, IsTrue, MatchOption};
ghost use Rattle.deku_fields.specs.declared.list.Field.{Field as ListField};
ghost use Rattle.deku_picture.specs.Names.{IsNameByte, IsName, IsNamed};

use deku_fields::{Field, parse_field};

/// A field, and the name before it.
#[derive(Debug, Clone, Copy, PartialEq, Eq)]
pub struct Named<'a> {
    /// Its name. Empty if it has none.
    pub name: &'a str,
    /// The word of the field, without the name.
    pub spec: &'a str,
    /// The field that this word names.
    pub field: Field,
}

/// Parses the field that a word names, with the name before it: `SPEC`, or `name:SPEC` with a name
/// of letters, digits, `_` and `-`. Returns `None` if it names no field.
///
/// ```text
/// parse_named("kind:u8,big,bits4")  // four bits of a `u8`, named `kind`
/// parse_named("u8,big,bits4")       // the same without a name
/// parse_named(":u8")                // None: a name has at least one letter
/// ```
pub fn parse_named(word: &str) -> Option<Named<'_>>
    ensures { MatchOption result ((name spec : List ℕ) (f : ListField)
        → IsNamed word.now name spec f → ⊥) (λ n. IsNamed word.now n.name.now n.spec.now n.field) }
{
    if let Some(field) = parse_field(word) {
        return Some(Named {
            name: "",
            spec: word,
            field,
        });
    }
    let Some((name, spec)) = word.split_once(':') else {
        return None;
    };
    if !is_name(name) {
        return None;
    }
    match parse_field(spec) {
        Some(field) => Some(Named { name, spec, field }),
        None => None,
    }
}

// Whether a text is a name.
fn is_name(text: &str) -> bool
    ensures { IsTrue result ↔ IsName text.now }
{
    !text.is_empty() && text.as_bytes().iter().all(|byte| is_name_byte(*byte))
}

// Whether a byte is allowed in a name: a letter, a digit, `_` or `-`.
fn is_name_byte(byte: u8) -> bool
    ensures { IsTrue result ↔ IsNameByte byte }
{
    byte.is_ascii_alphanumeric() || byte == b'_' || byte == b'-'
}
