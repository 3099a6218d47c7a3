//! Parts, and after them an enum that they choose the kind of.

use crate::part::{Named, Part};
use crate::texts::{Texts, field, headed};
use deku_texts::document::{Form, Text, joined};
use deku_tokens::arena::Arena;
use std::alloc::AllocError;

/// A head, and after it a field of this enum, of the kind that the marker of this name says.
pub fn chosen<'a>(
    arena: &'a Arena,
    head: Part<'a>,
    called: Named<'a>,
    types: (&'a str, &'a str),
) -> Result<Part<'a>, AllocError> {
    Ok(Part {
        texts: printed(arena, head.texts, called, types)?,
        lifetimes: if called.owner.is_lent() {
            head.as_head().saturating_add(1)
        } else {
            0
        },
        cut: None,
        fields: head.fields.followed(arena, called.name, None, ".kind")?,
    })
}

// How they are printed.
fn printed<'a>(
    arena: &'a Arena,
    head: Texts<'a>,
    called: Named<'a>,
    (marker, enumeration): (&'a str, &'a str),
) -> Result<Texts<'a>, AllocError> {
    let is_lent = called.owner.is_lent();
    Ok(Texts {
        kind: type_of(arena, head.kind, marker, enumeration)?,
        lent: lent_of(arena, is_lent, head.lent, marker, enumeration)?,
        pattern: pattern_of(arena, head.pattern, called.name)?,
        value: value_of(arena, head.value, called, marker)?,
        term: term_of(arena, head.term, called.access, enumeration)?,
    })
}

// The type of a head and of the kinds of an enum.
fn type_of<'a>(
    arena: &'a Arena,
    head: Text<'a>,
    marker: &'a str,
    kind: &str,
) -> Result<Text<'a>, AllocError> {
    let kinds = joined(arena, kind, "Kinds")?;
    headed(arena, Form::Angle, "ChosenBy<", head, &[marker, kinds])
}

// The type of what is written for it: the enum is lent, if the record it is in is not copied.
fn lent_of<'a>(
    arena: &'a Arena,
    is_lent: bool,
    head: Text<'a>,
    marker: &'a str,
    kind: &'a str,
) -> Result<Text<'a>, AllocError> {
    if !is_lent {
        return type_of(arena, head, marker, kind);
    }
    let head = head.after(arena, "'a, ")?;
    headed(arena, Form::Angle, "ChosenByRef<", head, &[marker, kind])
}

// The pattern of a head and of the kinds of an enum.
fn pattern_of<'a>(arena: &'a Arena, head: Text<'a>, name: &str) -> Result<Text<'a>, AllocError> {
    let head = head.after(arena, "head: ")?;
    let kind = field(arena, "kind", name)?;
    headed(arena, Form::Brace, "ChosenBy {", head, &[kind, ".."])
}

// A head, and the kinds of an enum.
fn value_of<'a>(
    arena: &'a Arena,
    head: Text<'a>,
    called: Named<'a>,
    marker: &str,
) -> Result<Text<'a>, AllocError> {
    if called.owner.is_lent() {
        let open = arena.print(format_args!("ChosenByRef::<_, {marker}, _> {{"))?;
        let head = head.after(arena, "head: ")?;
        let value = joined(arena, "value: ", called.reference(arena)?)?;
        return headed(arena, Form::Brace, open, head, &[value, "id: PhantomData"]);
    }
    let access = called.access;
    let parts = arena.print(format_args!("self.{access}.parts()"))?;
    headed(arena, Form::Round, "ChosenBy::new(", head, &[parts])
}

// The same in ghost text.
fn term_of<'a>(
    arena: &'a Arena,
    head: Text<'a>,
    access: &str,
    enumeration: &str,
) -> Result<Text<'a>, AllocError> {
    let head = head.after(arena, "head = ")?;
    let kind = arena.print(format_args!(
        "kind = ⟦<{enumeration} as FromParts>⟧.parts_of r.{access}"
    ))?;
    let others = [kind, "id = record {}"];
    headed(arena, Form::GhostBrace, "record {", head, &others)
}
