//! How parts are printed: their types, how they are taken apart, and how they are made.

use crate::following::{Dependent, kind_of, lent_of, pattern_of, term_of, value_of};
use crate::part::{Named, Owner};
use deku_attributes::model::Field;
use deku_texts::document::{Form, Text, joined};
use deku_texts::words;
use deku_texts::wrapping::{Wrapping, part_kind, wrapping_of};
use deku_tokens::arena::Arena;
use std::alloc::AllocError;

/// How a part is printed.
#[derive(Clone, Copy)]
pub struct Texts<'a> {
    /// Its type.
    pub kind: Text<'a>,
    /// The type of what is written for it, where memory is lent for `'a`.
    pub lent: Text<'a>,
    /// The pattern that takes its fields out of it.
    pub pattern: Text<'a>,
    /// What makes it of the fields.
    pub value: Text<'a>,
    /// The same in ghost text.
    pub term: Text<'a>,
}

/// One of the texts of a part.
#[derive(Clone, Copy)]
pub(crate) enum Side {
    /// Its type.
    Kind,
    /// The type of what is written for it.
    Lent,
    /// The pattern that takes its fields out of it.
    Pattern,
    /// What makes it of the fields.
    Value,
    /// The same in ghost text.
    Term,
}

impl<'a> Texts<'a> {
    /// The text of this side.
    pub(crate) fn side(self, side: Side) -> Text<'a> {
        match side {
            Side::Kind => self.kind,
            Side::Lent => self.lent,
            Side::Pattern => self.pattern,
            Side::Value => self.value,
            Side::Term => self.term,
        }
    }

    /// Of no parts.
    pub(crate) fn nothing() -> Texts<'a> {
        let nothing = Text::of("()");
        Texts {
            kind: nothing,
            lent: nothing,
            pattern: nothing,
            value: nothing,
            term: Text::of("tt"),
        }
    }

    /// Of one field, without what is around it.
    pub(crate) fn leaf(
        arena: &'a Arena,
        field: &Field<'_>,
        named: Named<'a>,
        is_lent: bool,
    ) -> Result<Texts<'a>, AllocError> {
        let value = if is_lent {
            named.reference(arena)?
        } else {
            named.value(arena)?
        };
        Ok(Texts {
            kind: Text::of(part_kind(arena, field)?),
            lent: Text::of(lent_kind(arena, field, is_lent)?),
            pattern: Text::of(named.name),
            value: Text::of(value),
            term: Text::of(named.term(arena)?),
        })
    }

    /// Of one field with the part around it.
    pub(crate) fn wrapped(
        self,
        arena: &'a Arena,
        wrapping: Wrapping,
        Named { name, owner, .. }: Named<'a>,
    ) -> Result<Texts<'a>, AllocError> {
        let around = wrapping.around;
        let word = words::part(around);
        let term = self.term.as_word().unwrap_or(name);
        let value = self.value.as_word().unwrap_or(name);
        let value = wrapped_value(arena, wrapping, owner, value)?;
        Ok(Texts {
            pattern: Text::of(arena.print(format_args!("{around}({name})"))?),
            value: Text::of(value),
            term: Text::of(arena.print(format_args!("{word} {term}"))?),
            ..self
        })
    }

    /// Of a head, and of items after it.
    pub(crate) fn following(
        self,
        arena: &'a Arena,
        form: Dependent,
        called: Named<'a>,
        (marker, item): (&'a str, &'a str),
    ) -> Result<Texts<'a>, AllocError> {
        Ok(Texts {
            kind: kind_of(arena, self.kind, form, marker, item)?,
            lent: lent_of(arena, self.lent, form, marker, item)?,
            pattern: pattern_of(arena, self.pattern, form, called.name)?,
            value: value_of(arena, self.value, form, called, marker)?,
            term: term_of(arena, self.term, form, called)?,
        })
    }

    /// Of a head, and of a number under the context that it says.
    pub(crate) fn under(
        self,
        arena: &'a Arena,
        called: Named<'a>,
        types: [&'a str; 3],
    ) -> Result<Texts<'a>, AllocError> {
        let [marker, _, context] = types;
        Ok(Texts {
            kind: headed(arena, Form::Angle, "UnderHead<", self.kind, &types)?,
            lent: headed(arena, Form::Angle, "UnderHead<", self.lent, &types)?,
            pattern: under_pattern(arena, self.pattern, called.name)?,
            value: under_value(arena, self.value, called, (marker, context))?,
            term: under_term(arena, self.term, called)?,
        })
    }

    /// Of a list up to the end of the input.
    pub(crate) fn rest(
        arena: &'a Arena,
        Named { name, access, .. }: Named<'a>,
        item: &str,
    ) -> Result<Texts<'a>, AllocError> {
        let held = Text::of(field(arena, "items", name)?);
        Ok(Texts {
            pattern: Text::one(arena, Form::Brace, "Rest {", held)?,
            kind: Text::of(arena.print(format_args!("Rest<{item}>"))?),
            lent: Text::of(arena.print(format_args!("&'a Vec<{item}>"))?),
            value: Text::of(arena.print(format_args!("&self.{access}"))?),
            term: Text::of(arena.print(format_args!("record {{ items = r.{access} }}"))?),
        })
    }

    /// Of parts, and of what is last after them.
    pub(crate) fn before(self, arena: &'a Arena, last: Texts<'a>) -> Result<Texts<'a>, AllocError> {
        let angle = (Form::Angle, "Before<");
        let brace = (Form::Brace, "Before {");
        let record = (Form::GhostBrace, "record {");
        let equals = ("head = ", "rest = ");
        let colons = ("head: ", "rest: ");
        Ok(Texts {
            kind: pair(arena, angle, ("", ""), self.kind, last.kind)?,
            lent: pair(arena, angle, ("", ""), self.lent, last.lent)?,
            pattern: pair(arena, brace, colons, self.pattern, last.pattern)?,
            value: pair(arena, brace, colons, self.value, last.value)?,
            term: pair(arena, record, equals, self.term, last.term)?,
        })
    }

    /// Of a part that passes a check.
    pub(crate) fn asserted(
        self,
        arena: &'a Arena,
        owner: Owner,
        marker: &'a str,
    ) -> Result<Texts<'a>, AllocError> {
        let brace = (Form::Brace, "Assert {");
        let record = (Form::GhostBrace, "record {");
        Ok(Texts {
            kind: headed(arena, Form::Angle, "Assert<", self.kind, &[marker])?,
            lent: headed(arena, Form::Angle, "Assert<", self.lent, &[marker])?,
            pattern: held(arena, brace, "part: ", self.pattern, "..")?,
            value: asserted_value(arena, owner, self.value, marker)?,
            term: held(arena, record, "part = ", self.term, "check = record {}")?,
        })
    }

    /// Of a constant.
    pub(crate) fn constant(
        arena: &'a Arena,
        owner: Owner,
        kind: &str,
        marker: &str,
    ) -> Result<Texts<'a>, AllocError> {
        let magic = Text::of(arena.print(format_args!("Magic<{kind}, {marker}>"))?);
        Ok(Texts {
            kind: magic,
            lent: magic,
            pattern: Text::of("_"),
            value: constant_value(arena, owner, kind, marker)?,
            term: Text::of("record { part = record {}; constant = record {} }"),
        })
    }
}

// The type of what is written for a field.
fn lent_kind<'a>(
    arena: &'a Arena,
    field: &Field<'_>,
    is_lent: bool,
) -> Result<&'a str, AllocError> {
    let kind = part_kind(arena, field)?;
    if !is_lent {
        return Ok(kind);
    }
    match kind.split_once('<') {
        Some((around, inner)) if !wrapping_of(field).around.is_empty() => {
            arena.print(format_args!("{around}<&'a {inner}"))
        }
        _ => joined(arena, "&'a ", kind),
    }
}

// The value of a field in what is around it.
fn wrapped_value<'a>(
    arena: &'a Arena,
    Wrapping { around, bits }: Wrapping,
    owner: Owner,
    value: &str,
) -> Result<&'a str, AllocError> {
    match bits {
        Some(bits) if owner.is_lent() => {
            arena.print(format_args!("{around}::<_, {bits}>({value})"))
        }
        _ => arena.print(format_args!("{around}({value})")),
    }
}

/// A field of a struct with what it is bound to, or its name alone if that is the same.
pub fn field<'a>(arena: &'a Arena, name: &'a str, value: &str) -> Result<&'a str, AllocError> {
    if name == value {
        return Ok(name);
    }
    arena.print(format_args!("{name}: {value}"))
}

// The pattern of a head and a number.
fn under_pattern<'a>(arena: &'a Arena, head: Text<'a>, name: &str) -> Result<Text<'a>, AllocError> {
    let head = head.after(arena, "head: ")?;
    let value = field(arena, "value", name)?;
    headed(arena, Form::Brace, "UnderHead {", head, &[value, ".."])
}

// A head and a number under the context that it says.
fn under_value<'a>(
    arena: &'a Arena,
    head: Text<'a>,
    called: Named<'a>,
    (marker, context): (&str, &str),
) -> Result<Text<'a>, AllocError> {
    let value = called.value(arena)?;
    if !called.owner.is_lent() {
        return headed(arena, Form::Round, "UnderHead::new(", head, &[value]);
    }
    let open = arena.print(format_args!("UnderHead::<_, {marker}, _, {context}> {{"))?;
    let value = joined(arena, "value: ", value)?;
    let head = head.after(arena, "head: ")?;
    let others = [value, "context: PhantomData"];
    headed(arena, Form::Brace, open, head, &others)
}

// The same in ghost text.
fn under_term<'a>(
    arena: &'a Arena,
    head: Text<'a>,
    called: Named<'a>,
) -> Result<Text<'a>, AllocError> {
    let head = head.after(arena, "head = ")?;
    let value = joined(arena, "value = ", called.term(arena)?)?;
    let others = [value, "context = record {}"];
    headed(arena, Form::GhostBrace, "record {", head, &others)
}

/// A text and words after it, in brackets.
pub(crate) fn headed<'a>(
    arena: &'a Arena,
    form: Form,
    open: &'a str,
    first: Text<'a>,
    others: &[&'a str],
) -> Result<Text<'a>, AllocError> {
    let mut items = Vec::new(arena.alloc());
    items.push(first)?;
    for other in others {
        items.push(Text::of(*other))?;
    }
    Ok(Text::group(form, open, arena.list(items.as_slice())?))
}

// A text after this, and a word, in brackets.
fn held<'a>(
    arena: &'a Arena,
    (form, open): (Form, &'a str),
    front: &str,
    text: Text<'a>,
    other: &'a str,
) -> Result<Text<'a>, AllocError> {
    let text = text.after(arena, front)?;
    headed(arena, form, open, text, &[other])
}

// Two texts, each after its own, in brackets.
fn pair<'a>(
    arena: &'a Arena,
    (form, open): (Form, &'a str),
    (front, back): (&str, &str),
    first: Text<'a>,
    second: Text<'a>,
) -> Result<Text<'a>, AllocError> {
    let items = [first.after(arena, front)?, second.after(arena, back)?];
    Ok(Text::group(form, open, arena.list(&items)?))
}

// A part that passes the check of this name.
fn asserted_value<'a>(
    arena: &'a Arena,
    owner: Owner,
    value: Text<'a>,
    marker: &str,
) -> Result<Text<'a>, AllocError> {
    if !owner.is_lent() {
        return Text::one(arena, Form::Round, "Assert::new(", value);
    }
    let open = arena.print(format_args!("Assert::<_, {marker}> {{"))?;
    held(
        arena,
        (Form::Brace, open),
        "part: ",
        value,
        "check: PhantomData",
    )
}

// A constant of this type and name.
fn constant_value<'a>(
    arena: &'a Arena,
    owner: Owner,
    kind: &str,
    marker: &str,
) -> Result<Text<'a>, AllocError> {
    if !owner.is_lent() {
        return Ok(Text::of("Magic::new()"));
    }
    let open = arena.print(format_args!("Magic::<{kind}, {marker}> {{"))?;
    let part = Text::of("part: PhantomData");
    headed(arena, Form::Brace, open, part, &["constant: PhantomData"])
}
