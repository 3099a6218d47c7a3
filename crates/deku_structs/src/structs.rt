//! Structs, as they are printed.

use crate::choosing::there;
use crate::steps::body;
use crate::updates::update;
use deku_attributes::given::chosen;
use deku_attributes::model::{Field, Record};
use deku_dependents::building::field_name;
use deku_dependents::temporary::is_temporary;
use deku_description::syntax::{Shape, Type};
use deku_record_parts::part::{Owner, Part};
use deku_record_parts::whole::Whole;
use deku_texts::document::{Form, Text, joined};
use deku_texts::template::fill;
use deku_texts::words::{quoted, snake};
use deku_texts::wrapping::field_kind;
use deku_tokens::arena::Arena;
use std::alloc::AllocError;
use std::fmt::Write as _;

/// Appends lines of a comment.
pub fn docs(out: &mut String, lines: &[&str], marks: &str) -> Result<(), AllocError> {
    for line in lines {
        writeln!(out, "{marks}{line}")?;
    }
    Ok(())
}

/// Appends the comment of a record, and what it derives. A record for C is laid out as there, and
/// is only copied.
pub fn derives(
    out: &mut String,
    record: &Record<'_>,
    is_copied: bool,
    is_for_c: bool,
) -> Result<(), AllocError> {
    let name = record.name.text;
    out.push('\n')?;
    docs(out, record.docs, "///")?;
    if record.docs.is_empty() {
        writeln!(out, "/// The record `{name}`.")?;
    }
    out.push_str(if is_for_c {
        "#[repr(C)]\n#[derive(Clone, Copy)]\n"
    } else if is_copied {
        "#[derive(Debug, Clone, Copy, PartialEq, Eq)]\n"
    } else {
        "#[derive(Debug, PartialEq, Eq, Drop)]\n"
    })
}

/// Appends a struct.
pub fn declaration<'a>(
    arena: &'a Arena,
    out: &mut String,
    record: &Record<'a>,
    shape: Shape,
    fields: &[Field<'a>],
    is_copied: bool,
    is_for_c: bool,
) -> Result<(), AllocError> {
    derives(out, record, is_copied, is_for_c)?;
    let name = record.name.text;
    if shape == Shape::Tuple {
        tuple_struct(arena, out, name, fields)
    } else {
        named_struct(arena, out, name, fields)
    }
}

fn tuple_struct<'a>(
    arena: &'a Arena,
    out: &mut String,
    name: &str,
    fields: &[Field<'a>],
) -> Result<(), AllocError> {
    let mut kinds = Vec::new(arena.alloc());
    for field in fields {
        let kind = field_kind(arena, field)?;
        kinds.push(Text::of(kind).after(arena, "pub ")?)?;
    }
    let kinds = arena.list(kinds.as_slice())?;
    let open = arena.print(format_args!("pub struct {name}("))?;
    Text::group(Form::Pattern, open, kinds).print(out, 0, 1, false)?;
    out.push_str(";\n")
}

const STRUCT: &str = "\
pub struct $name$ {
$fields$}
";

fn named_struct<'a>(
    arena: &'a Arena,
    out: &mut String,
    name: &'a str,
    fields: &[Field<'a>],
) -> Result<(), AllocError> {
    let mut lines = String::new(arena.alloc());
    for field in fields.iter().filter(|field| !is_temporary(*field)) {
        docs(&mut lines, field.docs, "    ///")?;
        declared(arena, &mut lines, field)?;
    }
    let lines = arena.keep(lines.as_str())?;
    fill(out, STRUCT, &[("name", name), ("fields", lines)])
}

fn declared<'a>(arena: &'a Arena, out: &mut String, field: &Field<'a>) -> Result<(), AllocError> {
    let kind = field_kind(arena, field)?;
    let name = field_name(arena, field, 0)?;
    writeln!(out, "    pub {name}: {kind},")
}

const TO_PARTS: &str = "
impl ToParts for $name$ {
    fn parts(&self) -> Self::Parts {
$parts$
    }
}
";

/// Appends how a struct is read and written.
pub fn implementation<'a>(
    arena: &'a Arena,
    out: &mut String,
    record: &Record<'a>,
    shape: Shape,
    fields: &[Field<'a>],
    owner: Owner,
    whole: Whole<'a>,
    path: Option<&str>,
) -> Result<(), AllocError> {
    let name = record.name.text;
    let part = whole.part;
    named(arena, out, name, part.fields.names)?;
    parts_alias(arena, out, name, "Parts", part.texts.kind)?;
    ghost_parts(out, part.texts.term, record_of(arena, shape, fields, part)?)?;
    from_parts(arena, out, record, shape, fields, part)?;
    there(arena, out, fields, path)?;
    if owner == Owner::Copied {
        return copied(arena, out, name, part.texts.value);
    }
    traits(out, name, body(arena, whole)?, whole.is_open)?;
    update(arena, out, name, fields)
}

// Appends the parts of a struct, and the struct that they make, in ghost text.
fn ghost_parts(out: &mut String, parts: Text<'_>, record: Text<'_>) -> Result<(), AllocError> {
    out.push_str("    ghost parts_of = { λ r. ")?;
    parts.print(out, 4, 3, false)?;
    out.push_str(" };\n\n    ghost record_of = { λ p. ")?;
    record.print(out, 4, 3, false)?;
    out.push_str(" };\n\n")
}

// Appends how a struct is written whose parts are copied out of it.
fn copied<'a>(
    arena: &'a Arena,
    out: &mut String,
    name: &'a str,
    value: Text<'a>,
) -> Result<(), AllocError> {
    let mut parts = String::from_str(arena.alloc(), "        ")?;
    value.print(&mut parts, 8, 0, false)?;
    let parts = arena.keep(parts.as_str())?;
    fill(out, TO_PARTS, &[("name", name), ("parts", parts)])?;
    traits(out, name, "write_record(self, writer, ctx)", false)
}

const PARTS: &str = "
// The $parts$ of $name$, in their order.
$alias$;

impl FromParts for $name$ {
    type Parts = $name$$word$;

";

/// Appends the type of a record's parts, which is called by this word, and what makes the record of
/// them, up to its ghost text.
pub fn parts_alias<'a>(
    arena: &'a Arena,
    out: &mut String,
    name: &'a str,
    word: &'a str,
    kind: Text<'_>,
) -> Result<(), AllocError> {
    let mut alias = format!(in arena.alloc(); "type {name}{word} = ")?;
    kind.print(&mut alias, 0, 1, false)?;
    let words = [
        ("parts", snake(arena, word)?),
        ("name", name),
        ("alias", arena.keep(alias.as_str())?),
        ("word", word),
    ];
    fill(out, PARTS, &words)
}

const TRAITS: &str = "
impl DekuReader<()> for $name$ {
    ghost no_read_ahead = { ⟦<$name$Parts as DekuReader<()>>⟧.no_read_ahead };

    ghost meaning = { λ c. Then (⟦<$name$Parts as DekuReader<()>>⟧.meaning c)
        (Shows ⟦<$name$ as FromParts>⟧.parts_of) };

    #[inline(always)]
    fn from_reader_with_ctx<R: Source>(reader: &mut Reader<R>, ctx: ()) -> Result<Self, DekuError> {
        read_record(reader, ctx)
    }
}

impl DekuWriter<()> for $name$ {
    ghost meaning = { λ v. ⟦<$name$Parts as DekuWriter<()>>⟧.meaning
        (⟦<$name$ as FromParts>⟧.parts_of v) };

    #[inline(always)]
    fn to_writer<W: Sink>(&self, writer: &mut Writer<W>, $ctx$: ()) -> Result<(), DekuError> {
        $body$
    }
}

impl $record$ for $name$ {
    type Layout = $name$Parts;

    ghost reads = { λ $under$b s r u m. m };

    ghost writes = { λ $under$v b s r u m. m };
}
";

/// Appends the traits of deku for a record that is written by this body. It may take the rest of
/// the input.
pub fn traits<'w>(
    out: &mut String,
    name: &'w str,
    body: &'w str,
    is_open: bool,
) -> Result<(), AllocError> {
    let ctx = if body.contains("ctx") { "ctx" } else { "_ctx" };
    let (record, under) = if is_open {
        ("RecordLast", "")
    } else {
        ("Record<()>", "c ")
    };
    let words = [
        ("name", name),
        ("ctx", ctx),
        ("body", body),
        ("record", record),
        ("under", under),
    ];
    fill(out, TRAITS, &words)
}

const NAMES: &str = "
impl $name$ {
    /// The names of its parts, in their order.
$names$;
}
";

// Appends the names of a record's parts.
fn named<'a>(
    arena: &'a Arena,
    out: &mut String,
    name: &'a str,
    names: &[&str],
) -> Result<(), AllocError> {
    let count = names.len();
    let mut literals = Vec::new(arena.alloc());
    for name in names {
        literals.push(Text::of(arena.print(format_args!("\"{name}\""))?))?;
    }
    let literals = arena.list(literals.as_slice())?;
    let mut line = format!(in arena.alloc(); "    pub const FIELDS: [&'static str; {count}] = ")?;
    Text::group(Form::Square, "[", literals).print(&mut line, 4, 1, false)?;
    let line = arena.keep(line.as_str())?;
    fill(out, NAMES, &[("name", name), ("names", line)])
}

// How many lines the function that makes a record of its parts has at most, with patterns.
const LINES: usize = 38;

const FROM_PARTS: &str = "\
$made$
    }

";

// Appends the function that makes a record of its parts: by patterns; or by paths, if it would be
// long and nothing has to be moved out of them.
fn from_parts<'a>(
    arena: &'a Arena,
    out: &mut String,
    record: &Record<'a>,
    shape: Shape,
    fields: &[Field<'a>],
    whole: Part<'a>,
) -> Result<(), AllocError> {
    let mut text = String::from_str(arena.alloc(), "    fn from_parts(")?;
    taken(&mut text, whole.texts.pattern)?;
    made(arena, record, shape, fields, whole, None)?.print(&mut text, 8, 0, false)?;
    if !whole.is_lent() && text.as_str().lines().count() > LINES {
        text = by_paths(arena, record, shape, fields, whole)?;
    }
    fill(out, FROM_PARTS, &[("made", text.as_str())])
}

// The function that makes a record of its parts by paths. Arrays are bound to locals first: the
// borrow checker takes no array straight from a path into a record.
fn by_paths<'a>(
    arena: &'a Arena,
    record: &Record<'a>,
    shape: Shape,
    fields: &[Field<'a>],
    whole: Part<'a>,
) -> Result<String, AllocError> {
    let mut text = String::from_str(
        arena.alloc(),
        "    fn from_parts(parts: Self::Parts) -> Self {\n        ",
    )?;
    for (i, field) in fields.iter().enumerate() {
        if is_array(field) && !is_temporary(field) {
            let name = field_name(arena, field, i)?;
            let value = term_of(arena, whole, name, "parts")?;
            write!(text, "let {name} = {value};\n        ")?;
        }
    }
    made(arena, record, shape, fields, whole, Some("parts"))?.print(&mut text, 8, 0, false)?;
    Ok(text)
}

/// Whether a field is an array.
pub fn is_array(field: &Field<'_>) -> bool {
    matches!(field.kind, Type::Array(_, _))
}

// Appends the parameter of the function that takes parts apart, up to its value.
fn taken(out: &mut String, pattern: Text<'_>) -> Result<(), AllocError> {
    if pattern.is_line(out.as_str(), 25) {
        pattern.line(out)?;
        return out.push_str(": Self::Parts) -> Self {\n        ");
    }
    out.push_str("parts: Self::Parts) -> Self {\n        let ")?;
    let columns = pattern.columns();
    if columns > 79 && pattern.is_line(out.as_str(), 2) {
        pattern.print(out, 8, 2, false)?;
        return out.push_str(" =\n            parts;\n        ");
    }
    pattern.print(out, 8, 9, false)?;
    out.push_str(" = parts;\n        ")
}

// The record that its parts make, in ghost text.
fn record_of<'a>(
    arena: &'a Arena,
    shape: Shape,
    fields: &[Field<'a>],
    whole: Part<'a>,
) -> Result<Text<'a>, AllocError> {
    let mut items = Vec::new(arena.alloc());
    for (i, field) in fields.iter().enumerate() {
        if !is_temporary(field) {
            items.push(bound(arena, shape, field, i, whole)?)?;
        }
    }
    let items = arena.list(items.as_slice())?;
    Ok(Text::group(Form::GhostBrace, "record {", items))
}

// A field of the record that its parts make, in ghost text.
fn bound<'a>(
    arena: &'a Arena,
    shape: Shape,
    field: &Field<'a>,
    place: usize,
    whole: Part<'a>,
) -> Result<Text<'a>, AllocError> {
    let name = field_name(arena, field, place)?;
    let term = term_of(arena, whole, name, "p")?;
    let term = match chosen(field) {
        Some(kind) => arena.print(format_args!("⟦<{kind} as FromParts>⟧.record_of {term}"))?,
        None => term,
    };
    Ok(Text::of(if shape == Shape::Tuple {
        arena.print(format_args!("{place} = {term}"))?
    } else {
        let name = quoted(arena, name)?;
        arena.print(format_args!("{name} = {term}"))?
    }))
}

/// A field, of the parts that this leads to, in ghost text.
pub fn term_of<'a>(
    arena: &'a Arena,
    whole: Part<'a>,
    name: &str,
    parts: &'a str,
) -> Result<&'a str, AllocError> {
    match whole.place(name) {
        Some(place) => joined(arena, parts, place.path),
        None => Ok(parts),
    }
}

/// A field, of the parts that this leads to, or of the local of its name.
pub fn value_of<'a>(
    arena: &'a Arena,
    whole: Part<'a>,
    name: &'a str,
    parts: Option<&'a str>,
) -> Result<&'a str, AllocError> {
    match parts {
        Some(parts) => term_of(arena, whole, name, parts),
        None => Ok(name),
    }
}

// The record made of its fields: of locals of their names, or of parts.
fn made<'a>(
    arena: &'a Arena,
    record: &Record<'a>,
    shape: Shape,
    fields: &[Field<'a>],
    whole: Part<'a>,
    parts: Option<&'a str>,
) -> Result<Text<'a>, AllocError> {
    let mut items = Vec::new(arena.alloc());
    for (i, field) in fields.iter().enumerate() {
        if !is_temporary(field) {
            let name = field_name(arena, field, i)?;
            let value = made_field(arena, field, name, whole, parts)?;
            items.push(Text::of(item(arena, shape, name, value)?))?;
        }
    }
    let items = arena.list(items.as_slice())?;
    let name = record.name.text;
    Ok(if shape == Shape::Tuple {
        Text::group(Form::Round, joined(arena, name, "(")?, items)
    } else {
        Text::group(Form::Brace, joined(arena, name, " {")?, items)
    })
}

// A field of this name, made of the local of its name, or of parts.
fn made_field<'a>(
    arena: &'a Arena,
    field: &Field<'a>,
    name: &'a str,
    whole: Part<'a>,
    parts: Option<&'a str>,
) -> Result<&'a str, AllocError> {
    let parts = if is_array(field) { None } else { parts };
    let value = value_of(arena, whole, name, parts)?;
    match chosen(field) {
        Some(kind) => arena.print(format_args!("{kind}::from_parts({value})")),
        None => Ok(value),
    }
}

/// A field with its value, as a struct of this shape takes it.
pub fn item<'a>(
    arena: &'a Arena,
    shape: Shape,
    name: &'a str,
    value: &'a str,
) -> Result<&'a str, AllocError> {
    if shape == Shape::Tuple || name == value {
        return Ok(value);
    }
    arena.print(format_args!("{name}: {value}"))
}
