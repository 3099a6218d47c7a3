//! Parts of records: how they are printed, and where their fields are.

use crate::following::Dependent;
use crate::texts::{Side, Texts};
use deku_attributes::model::Field;
use deku_texts::document::{Form, Text, joined};
use deku_texts::records::Records;
use deku_texts::words::quoted;
use deku_texts::wrapping::{Cut, Wrapping, count_of, cut_of, has_sign, number_kind, wrapping_of};
use deku_tokens::arena::Arena;
use std::alloc::AllocError;

/// How many items a tuple has at most. Of more there are tuples of these.
pub const GROUP: usize = 8;

// How many bits a tuple reads as one word, at most.
const WORD: u64 = 64;

/// A part, or several that are one.
#[derive(Clone, Copy)]
pub struct Part<'a> {
    /// How it is printed.
    pub texts: Texts<'a>,
    /// How many lifetimes the type of what is written for it names. The borrow checker takes no
    /// type argument that names several.
    pub lifetimes: usize,
    /// What a tuple cuts it from, if it can be read with its neighbours as one word.
    pub cut: Option<Cut>,
    /// Its fields.
    pub fields: Fields<'a>,
}

/// The fields of a part.
#[derive(Clone, Copy)]
pub struct Fields<'a> {
    /// Where they are.
    pub places: &'a [Place<'a>],
    /// The name of each of its parts.
    pub names: &'a [&'a str],
}

/// Where a field is in its parts.
#[derive(Clone, Copy)]
pub struct Place<'a> {
    /// The name of the field.
    pub name: &'a str,
    /// The name of its type, if it is a number or a truth value.
    pub number: Option<&'a str>,
    /// The way to it from the parts, such as `.0.head.1.0`.
    pub path: &'a str,
    /// What leads to its equation from the equations of equal parts.
    pub same: &'a str,
}

/// What a field is called, and what it belongs to.
#[derive(Clone, Copy)]
pub struct Named<'n> {
    /// As a local.
    pub name: &'n str,
    /// After its record and a point.
    pub access: &'n str,
    /// What it belongs to.
    pub owner: Owner,
}

/// What the fields of a part belong to.
#[derive(Clone, Copy, PartialEq, Eq)]
pub enum Owner {
    /// A struct that is copied.
    Copied,
    /// A struct that holds memory, which is lent to the parts.
    Lent,
    /// A kind of an enum that is copied.
    Kind,
    /// A kind of an enum that holds memory, which is lent to the parts.
    LentKind,
}

impl Owner {
    /// Whether memory is lent to the parts.
    pub fn is_lent(self) -> bool {
        matches!(self, Owner::Lent | Owner::LentKind)
    }

    /// Whether it is a kind of an enum.
    pub fn is_kind(self) -> bool {
        matches!(self, Owner::Kind | Owner::LentKind)
    }
}

impl<'n> Named<'n> {
    /// A reference to the field.
    pub fn reference(self, arena: &'n Arena) -> Result<&'n str, AllocError> {
        if self.owner.is_kind() {
            return Ok(self.name);
        }
        let access = self.access;
        arena.print(format_args!("&self.{access}"))
    }

    /// The value of the field.
    pub(crate) fn value(self, arena: &'n Arena) -> Result<&'n str, AllocError> {
        let Named {
            name,
            access,
            owner,
        } = self;
        if owner.is_kind() {
            return arena.print(format_args!("*{name}"));
        }
        arena.print(format_args!("self.{access}"))
    }

    /// The field in ghost text.
    pub fn term(self, arena: &'n Arena) -> Result<&'n str, AllocError> {
        if self.owner.is_kind() {
            return quoted(arena, self.name);
        }
        let access = self.access;
        arena.print(format_args!("r.{access}"))
    }
}

impl<'a> Place<'a> {
    // It after what leads to the part that it is in.
    fn after(self, arena: &'a Arena, path: &str, same: &str) -> Result<Place<'a>, AllocError> {
        Ok(Place {
            path: joined(arena, path, self.path)?,
            same: joined(arena, same, self.same)?,
            ..self
        })
    }
}

impl<'a> Fields<'a> {
    // None.
    fn none() -> Fields<'a> {
        Fields {
            places: &[],
            names: &[],
        }
    }

    /// One field, which is alone in its part.
    pub fn one(
        arena: &'a Arena,
        name: &'a str,
        number: Option<&'a str>,
        path: &'a str,
    ) -> Result<Fields<'a>, AllocError> {
        let place = Place {
            name,
            number,
            path,
            same: "",
        };
        Ok(Fields {
            places: arena.list(&[place])?,
            names: arena.list(&[name])?,
        })
    }

    // They and others.
    fn and(self, arena: &'a Arena, others: Fields<'a>) -> Result<Fields<'a>, AllocError> {
        Ok(Fields {
            places: both(arena, self.places, others.places)?,
            names: both(arena, self.names, others.names)?,
        })
    }

    /// They after what leads to the part that they are in.
    pub fn within(
        self,
        arena: &'a Arena,
        path: &str,
        same: &str,
    ) -> Result<Fields<'a>, AllocError> {
        let mut places = Vec::new(arena.alloc());
        for place in self.places {
            places.push(place.after(arena, path, same)?)?;
        }
        Ok(Fields {
            places: arena.list(places.as_slice())?,
            names: self.names,
        })
    }

    // They in the part at this place of a tuple of so many.
    fn nth(self, arena: &'a Arena, place: usize, count: usize) -> Result<Fields<'a>, AllocError> {
        let path = arena.print(format_args!(".{place}"))?;
        let same = equation(arena, place, count)?;
        self.within(arena, path, same)
    }

    // They in a head, and after it a field at this path.
    pub(crate) fn followed(
        self,
        arena: &'a Arena,
        name: &'a str,
        number: Option<&'a str>,
        path: &'a str,
    ) -> Result<Fields<'a>, AllocError> {
        let place = Place {
            name,
            number,
            path,
            same: ".1",
        };
        let field = Fields {
            places: arena.list(&[place])?,
            names: arena.list(&[name])?,
        };
        self.within(arena, ".head", ".0")?.and(arena, field)
    }
}

impl<'a> Part<'a> {
    /// Whether memory is lent.
    pub fn is_lent(&self) -> bool {
        self.lifetimes > 0
    }

    // How many lifetimes it names as a head: the type that says what follows has one for all of it.
    pub(crate) fn as_head(&self) -> usize {
        self.lifetimes.min(1)
    }

    /// Where a field is in it.
    pub fn place(&self, name: &str) -> Option<Place<'a>> {
        let mut places = self.fields.places.iter();
        places.find(|place| place.name == name).copied()
    }
}

// Items and others after them.
fn both<'a, T: Copy>(arena: &'a Arena, items: &[T], others: &[T]) -> Result<&'a [T], AllocError> {
    let mut all = Vec::from_slice(arena.alloc(), items)?;
    all.extend_from_slice(others)?;
    arena.list(all.as_slice())
}

/// The part of one field that depends on no other field.
pub fn leaf<'a>(
    arena: &'a Arena,
    records: &Records<'_, 'a>,
    field: &Field<'a>,
    named: Named<'a>,
) -> Result<Part<'a>, AllocError> {
    // Numbers with a sign are lent too: the prover does not see that a copy is the same number.
    let is_lent = named.owner.is_lent() && (!records.is_copied(field) || has_sign(&field.kind));
    let part = Part {
        texts: Texts::leaf(arena, field, named, is_lent)?,
        lifetimes: if is_lent { 1 } else { 0 },
        cut: cut_of(field),
        fields: leaf_fields(arena, field, named.name)?,
    };
    let wrapping = wrapping_of(field);
    if wrapping.around.is_empty() {
        return Ok(part);
    }
    within_one(arena, part, wrapping, named)
}

// Where the field of a part is, and the names of its parts.
fn leaf_fields<'a>(
    arena: &'a Arena,
    field: &Field<'a>,
    name: &'a str,
) -> Result<Fields<'a>, AllocError> {
    let place = Place {
        name,
        number: number_kind(field),
        path: "",
        same: "",
    };
    let mut names = Vec::new(arena.alloc());
    for _ in 0..count_of(field) {
        names.push(name)?;
    }
    Ok(Fields {
        places: arena.list(&[place])?,
        names: arena.list(names.as_slice())?,
    })
}

// A field with the part around it.
fn within_one<'a>(
    arena: &'a Arena,
    part: Part<'a>,
    wrapping: Wrapping,
    named: Named<'a>,
) -> Result<Part<'a>, AllocError> {
    Ok(Part {
        texts: part.texts.wrapped(arena, wrapping, named)?,
        fields: part.fields.within(arena, ".0", "")?,
        ..part
    })
}

/// Parts as one: a tuple, or the part itself if it is alone.
pub fn tuple<'a>(arena: &'a Arena, parts: &[Part<'a>]) -> Result<Part<'a>, AllocError> {
    let items = items_of(arena, parts)?;
    one_tuple(arena, items.as_slice())
}

/// The items of the tuple that parts are. Beside other parts, numbers in a row in one bit order are
/// a tuple of their own, as long as their bits make one word. Many items are tuples of them, where
/// they name at most one lifetime each.
pub(crate) fn items_of<'a>(
    arena: &'a Arena,
    parts: &[Part<'a>],
) -> Result<Vec<Part<'a>>, AllocError> {
    let rows = in_rows(arena, parts)?;
    if rows.len() == 1 {
        return Vec::from_slice(arena.alloc(), parts);
    }
    if rows.len() <= GROUP {
        return Ok(rows);
    }
    in_groups(arena, rows.as_slice())
}

// The rows, in tuples of as many as one may have. A row that names several lifetimes stays alone.
fn in_groups<'a>(arena: &'a Arena, rows: &[Part<'a>]) -> Result<Vec<Part<'a>>, AllocError> {
    let mut items = Vec::new(arena.alloc());
    let mut group = Vec::new(arena.alloc());
    for row in rows {
        let is_alone = row.lifetimes > 1;
        if is_alone || group.len() == GROUP {
            end_row(arena, &mut items, &mut group)?;
        }
        if is_alone {
            items.push(*row)?;
        } else {
            group.push(*row)?;
        }
    }
    end_row(arena, &mut items, &mut group)?;
    Ok(items)
}

// Adds the tuple of the parts of a row to others, and empties the row. Nothing is added for none.
fn end_row<'a>(
    arena: &'a Arena,
    others: &mut Vec<Part<'a>>,
    row: &mut Vec<Part<'a>>,
) -> Result<(), AllocError> {
    if row.is_empty() {
        return Ok(());
    }
    others.push(one_tuple(arena, row.as_slice())?)?;
    row.clear();
    Ok(())
}

// The parts, with a tuple for numbers in a row.
fn in_rows<'a>(arena: &'a Arena, parts: &[Part<'a>]) -> Result<Vec<Part<'a>>, AllocError> {
    let mut rows = Vec::new(arena.alloc());
    let mut row = Vec::new(arena.alloc());
    for part in parts {
        if !has_room(row.as_slice(), part) {
            end_row(arena, &mut rows, &mut row)?;
        }
        row.push(*part)?;
    }
    end_row(arena, &mut rows, &mut row)?;
    Ok(rows)
}

// Whether a part can be read with those in front of it as one word.
fn has_room(row: &[Part<'_>], part: &Part<'_>) -> bool {
    let Some(cut) = part.cut else {
        return row.is_empty();
    };
    let mut bits = cut.bits;
    for other in row {
        match other.cut {
            Some(before) if before.order == cut.order => bits = bits.saturating_add(before.bits),
            _ => return false,
        }
    }
    let lifetimes = lifetimes_of(row).saturating_add(part.lifetimes);
    row.is_empty() || (bits <= WORD && row.len() < GROUP && lifetimes < 2)
}

// Parts as one tuple.
pub(crate) fn one_tuple<'a>(arena: &'a Arena, parts: &[Part<'a>]) -> Result<Part<'a>, AllocError> {
    match parts {
        [] => Ok(nothing()),
        [part] => Ok(*part),
        _ => several(arena, parts),
    }
}

// Several parts as a tuple.
fn several<'a>(arena: &'a Arena, parts: &[Part<'a>]) -> Result<Part<'a>, AllocError> {
    Ok(Part {
        texts: tupled_texts(arena, parts)?,
        lifetimes: lifetimes_of(parts),
        cut: None,
        fields: tupled_fields(arena, parts)?,
    })
}

/// How many lifetimes the types of several parts name together.
pub fn lifetimes_of(parts: &[Part<'_>]) -> usize {
    let mut count = 0usize;
    for part in parts {
        count = count.saturating_add(part.lifetimes);
    }
    count
}

// How several parts are printed as a tuple.
fn tupled_texts<'a>(arena: &'a Arena, parts: &[Part<'a>]) -> Result<Texts<'a>, AllocError> {
    Ok(Texts {
        kind: group(arena, Form::Round, parts, Side::Kind)?,
        lent: group(arena, Form::Round, parts, Side::Lent)?,
        pattern: group(arena, Form::Pattern, parts, Side::Pattern)?,
        value: group(arena, Form::Round, parts, Side::Value)?,
        term: group(arena, Form::GhostRound, parts, Side::Term)?,
    })
}

// This side of several parts, in parentheses.
fn group<'a>(
    arena: &'a Arena,
    form: Form,
    parts: &[Part<'a>],
    side: Side,
) -> Result<Text<'a>, AllocError> {
    let mut texts = Vec::new(arena.alloc());
    for part in parts {
        texts.push(part.texts.side(side))?;
    }
    Ok(Text::group(form, "(", arena.list(texts.as_slice())?))
}

// Where the fields of several parts are in a tuple.
fn tupled_fields<'a>(arena: &'a Arena, parts: &[Part<'a>]) -> Result<Fields<'a>, AllocError> {
    let mut places = Vec::new(arena.alloc());
    let mut names = Vec::new(arena.alloc());
    for (place, part) in parts.iter().enumerate() {
        let fields = part.fields.nth(arena, place, parts.len())?;
        places.extend_from_slice(fields.places)?;
        names.extend_from_slice(fields.names)?;
    }
    Ok(Fields {
        places: arena.list(places.as_slice())?,
        names: arena.list(names.as_slice())?,
    })
}

// No parts.
fn nothing<'a>() -> Part<'a> {
    Part {
        texts: Texts::nothing(),
        lifetimes: 0,
        cut: None,
        fields: Fields::none(),
    }
}

// The way to the equation of one of several parts.
fn equation<'a>(arena: &'a Arena, place: usize, count: usize) -> Result<&'a str, AllocError> {
    let mut path = String::new(arena.alloc());
    for _ in 0..place {
        path.push_str(".1")?;
    }
    if place.saturating_add(1) < count {
        path.push_str(".0")?;
    }
    arena.keep(path.as_str())
}

/// A head, and after it a field of these items, as the marker of this name says.
pub fn following<'a>(
    arena: &'a Arena,
    head: Part<'a>,
    form: Dependent,
    called: Named<'a>,
    types: (&'a str, &'a str),
) -> Result<Part<'a>, AllocError> {
    let path = joined(arena, ".", form.item())?;
    Ok(Part {
        texts: head.texts.following(arena, form, called, types)?,
        lifetimes: head.as_head().saturating_add(1),
        cut: None,
        fields: head.fields.followed(arena, called.name, None, path)?,
    })
}

/// A head, and after it a number of this type, under the context of this type that the marker of
/// this name says.
pub fn under<'a>(
    arena: &'a Arena,
    head: Part<'a>,
    called: Named<'a>,
    (marker, number, context): (&'a str, &'a str, &'a str),
) -> Result<Part<'a>, AllocError> {
    let fields = head.fields;
    Ok(Part {
        texts: head.texts.under(arena, called, [marker, number, context])?,
        lifetimes: head.as_head(),
        cut: None,
        fields: fields.followed(arena, called.name, Some(number), ".value")?,
    })
}

/// A list up to the end of the input, of these items.
pub fn rest<'a>(arena: &'a Arena, called: Named<'a>, item: &str) -> Result<Part<'a>, AllocError> {
    Ok(Part {
        texts: Texts::rest(arena, called, item)?,
        lifetimes: 1,
        cut: None,
        fields: Fields::one(arena, called.name, None, ".items")?,
    })
}

/// Parts, and after them what is last.
pub(crate) fn before<'a>(
    arena: &'a Arena,
    head: Part<'a>,
    last: Part<'a>,
) -> Result<Part<'a>, AllocError> {
    let fields = head.fields.within(arena, ".head", ".0")?;
    let others = last.fields.within(arena, ".rest", ".1")?;
    Ok(Part {
        texts: head.texts.before(arena, last.texts)?,
        lifetimes: lifetimes_of(&[head, last]),
        cut: None,
        fields: fields.and(arena, others)?,
    })
}

/// A part that passes the check of this name.
pub fn asserted<'a>(
    arena: &'a Arena,
    owner: Owner,
    part: Part<'a>,
    marker: &'a str,
) -> Result<Part<'a>, AllocError> {
    Ok(Part {
        texts: part.texts.asserted(arena, owner, marker)?,
        lifetimes: part.as_head(),
        cut: None,
        fields: part.fields.within(arena, ".part", "")?,
    })
}

/// A part of this type that always has the value of the constant of this name. Messages call it by
/// this word.
pub fn constant<'a>(
    arena: &'a Arena,
    owner: Owner,
    kind: &str,
    marker: &str,
    word: &'a str,
) -> Result<Part<'a>, AllocError> {
    Ok(Part {
        texts: Texts::constant(arena, owner, kind, marker)?,
        lifetimes: 0,
        cut: None,
        fields: Fields {
            places: &[],
            names: arena.list(&[word])?,
        },
    })
}
