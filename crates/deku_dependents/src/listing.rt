//! Lists that say by themselves where they end.

use crate::building::{Builder, condition, held_kind};
use deku_attributes::model::Field;
use deku_description::syntax::{Closure, Type};
use deku_markers::computing::Computer;
use deku_markers::marker;
use deku_markers::marker::Marker;
use deku_record_parts::part::{Fields, Named, Part, Place};
use deku_record_parts::texts::{Texts, field};
use deku_texts::document::{Form, Text, joined};
use deku_texts::refusal::Stop;
use deku_texts::words;
use deku_texts::wrapping::number_in;
use deku_tokens::arena::Arena;
use std::alloc::AllocError;

// What the function calls an item that says whether it is the last.
const ITEM: &'static str = "item";

/// What is printed of such a list.
#[derive(Clone, Copy)]
pub(crate) struct Listed<'l> {
    /// The name of its part.
    pub part: &'l str,
    /// The types that the part has.
    pub types: [&'l str; 2],
    /// What is in front of its items, where it is lent.
    pub open: &'l str,
    /// The field of the part that says where it ends.
    pub marker: &'l str,
}

/// The part of such a list.
pub(crate) fn list_part<'a>(
    arena: &'a Arena,
    called: Named<'a>,
    form: Listed<'a>,
) -> Result<Part<'a>, AllocError> {
    Ok(Part {
        texts: list_texts(arena, called, form)?,
        lifetimes: 1,
        cut: None,
        fields: Fields::one(arena, called.name, None, ".items")?,
    })
}

// How it is printed.
fn list_texts<'a>(
    arena: &'a Arena,
    called: Named<'a>,
    form: Listed<'a>,
) -> Result<Texts<'a>, AllocError> {
    let Listed {
        part,
        types: [first, second],
        open,
        marker,
    } = form;
    Ok(Texts {
        kind: list_kind(arena, part, "<", &[first, second])?,
        lent: list_kind(arena, part, "Ref<", &["'a", first, second])?,
        pattern: list_pattern(arena, part, called.name)?,
        value: list_value(arena, called, open, marker)?,
        term: list_term(arena, called, marker)?,
    })
}

// The part of a list up to the item that this type says is the last.
fn until_part<'a>(
    arena: &'a Arena,
    called: Named<'a>,
    last: Marker<'a>,
) -> Result<Part<'a>, AllocError> {
    let named = last.name;
    let form = Listed {
        part: "Until",
        types: [last.parts, named],
        open: arena.print(format_args!("UntilRef::<_, {named}> {{"))?,
        marker: "last",
    };
    list_part(arena, called, form)
}

// Its type.
fn list_kind<'a>(
    arena: &'a Arena,
    part: &str,
    end: &str,
    types: &[&'a str],
) -> Result<Text<'a>, AllocError> {
    let open = joined(arena, part, end)?;
    group(arena, Form::Angle, open, types)
}

// The pattern that takes its items out of it.
fn list_pattern<'a>(arena: &'a Arena, part: &str, name: &str) -> Result<Text<'a>, AllocError> {
    let open = joined(arena, part, " {")?;
    let held = field(arena, "items", name)?;
    group(arena, Form::Brace, open, &[held, ".."])
}

// What makes it of its items.
fn list_value<'a>(
    arena: &'a Arena,
    called: Named<'a>,
    open: &'a str,
    marker: &str,
) -> Result<Text<'a>, AllocError> {
    let items = field(arena, "items", called.reference(arena)?)?;
    let marked = joined(arena, marker, ": PhantomData")?;
    group(arena, Form::Brace, open, &[items, marked])
}

// The same in ghost text.
fn list_term<'a>(
    arena: &'a Arena,
    called: Named<'a>,
    marker: &str,
) -> Result<Text<'a>, AllocError> {
    let items = joined(arena, "items = ", called.term(arena)?)?;
    let marked = joined(arena, marker, " = record {}")?;
    group(arena, Form::GhostBrace, "record {", &[items, marked])
}

fn group<'a>(
    arena: &'a Arena,
    form: Form,
    open: &'a str,
    words: &[&'a str],
) -> Result<Text<'a>, AllocError> {
    let mut items = Vec::new(arena.alloc());
    for word in words {
        items.push(Text::of(*word))?;
    }
    Ok(Text::group(form, open, arena.list(items.as_slice())?))
}

impl<'b, 'a> Builder<'b, 'a> {
    /// A list up to the first item of which the closure is true.
    pub(crate) fn until(
        &mut self,
        field: &Field<'a>,
        called: Named<'a>,
        end: &Closure<'a>,
    ) -> Result<(), Stop<'a>> {
        let name = end.name.text;
        if words::is_local(name) {
            return Stop::wrong(
                end.name.span,
                "an item of a name that the module has already",
                "give it another name",
            );
        }
        let marker = Marker {
            name: words::marker(self.arena, self.front, called.name, "Last")?,
            parts: held_kind(self.arena, field)?,
            lent: None,
            field: called.name,
        };
        self.ends(field, end, marker)?;
        let part = until_part(self.arena, called, marker)?;
        Ok(self.push(part, marker)?)
    }

    // Appends the type that says which item of a list is its last.
    fn ends(
        &mut self,
        field: &Field<'a>,
        end: &Closure<'a>,
        marker: Marker<'a>,
    ) -> Result<(), Stop<'a>> {
        let (places, is_struct) = self.item_places(field, end)?;
        let mut computer = Computer::new(self.arena, places, self.constants);
        computer.from = ITEM;
        if is_struct {
            computer.owner = Some(end.name.text);
        }
        let computed = condition(&mut computer, &end.last, field.span)?;
        marker::last(&mut self.markers, marker, &computer, computed)?;
        Ok(())
    }

    // Where the numbers of an item are: the item by its name, or the fields of a struct by theirs.
    fn item_places(
        &self,
        field: &Field<'a>,
        end: &Closure<'a>,
    ) -> Result<(&'a [Place<'a>], bool), Stop<'a>> {
        let kind = end.kind;
        for (name, places) in &self.structs {
            if kind.is_name(name) {
                return Ok((within_item(self.arena, places)?, true));
            }
        }
        if self.records.has(kind.text) {
            return Stop::wrong(
                kind.span,
                "items that are no numbers and no structs in front of this one",
                "move their struct in front",
            );
        }
        let Type::Of(_, item) = &field.kind else {
            return Ok((&[], false));
        };
        let (number, path) = number_in(item, field);
        let place = Place {
            name: end.name.text,
            number,
            path,
            same: "",
        };
        Ok((self.arena.list(&[place])?, false))
    }
}

// Where the fields of a struct are, from the struct. None has the name of the item that it is.
fn within_item<'a>(arena: &'a Arena, places: &[Place<'a>]) -> Result<&'a [Place<'a>], AllocError> {
    let mut fields = Vec::new(arena.alloc());
    for place in places.iter().filter(|it| it.name != ITEM) {
        let name = place.name;
        let path = arena.print(format_args!(".{name}"))?;
        fields.push(Place { path, ..*place })?;
    }
    arena.list(fields.as_slice())
}
