//! What comes after a head: a list that it counts or sizes, or an item that it shows.

use crate::part::Named;
use crate::texts::{field, headed};
use deku_texts::document::{Form, Text};
use deku_tokens::arena::Arena;
use std::alloc::AllocError;

/// What comes after a head.
#[derive(Clone, Copy, PartialEq, Eq)]
pub enum Dependent {
    /// A list that the head counts.
    Counted,
    /// A list of as many bits as the head says.
    Filled,
    /// An item that the head shows.
    Optional,
}

impl Dependent {
    // What is in front of the types that its part has.
    fn kind(self) -> &'static str {
        match self {
            Dependent::Counted => "CountedBy<",
            Dependent::Filled => "FilledBy<",
            Dependent::Optional => "Optional<",
        }
    }

    // The same of what is lent.
    fn lent(self) -> &'static str {
        match self {
            Dependent::Counted => "CountedByRef<",
            Dependent::Filled => "SizedBy<",
            Dependent::Optional => "OptionalRef<",
        }
    }

    // What is in front of the fields of its pattern.
    fn pattern(self) -> &'static str {
        match self {
            Dependent::Counted => "CountedBy {",
            Dependent::Filled => "FilledBy {",
            Dependent::Optional => "Optional {",
        }
    }

    // What is in front of the name of its marker, where it is lent.
    fn value(self) -> &'static str {
        match self {
            Dependent::Counted => "CountedByRef::<_, ",
            Dependent::Filled => "SizedBy::<_, ",
            Dependent::Optional => "OptionalRef::<_, ",
        }
    }

    /// The field for what comes after the head.
    pub(crate) fn item(self) -> &'static str {
        match self {
            Dependent::Counted | Dependent::Filled => "items",
            Dependent::Optional => "item",
        }
    }

    // The same of what is lent.
    fn lent_item(self) -> &'static str {
        match self {
            Dependent::Filled => "content",
            Dependent::Counted | Dependent::Optional => self.item(),
        }
    }

    // The field for the marker, as a value and in ghost text.
    fn marker(self) -> (&'static str, &'static str) {
        match self {
            Dependent::Counted => ("count: PhantomData", "count = record {}"),
            Dependent::Filled => ("size: PhantomData", "size = record {}"),
            Dependent::Optional => ("condition: PhantomData", "condition = record {}"),
        }
    }
}

/// The type of a head and what comes after it.
pub(crate) fn kind_of<'a>(
    arena: &'a Arena,
    head: Text<'a>,
    form: Dependent,
    marker: &'a str,
    item: &'a str,
) -> Result<Text<'a>, AllocError> {
    headed(arena, Form::Angle, form.kind(), head, &[marker, item])
}

/// The same where memory is lent.
pub(crate) fn lent_of<'a>(
    arena: &'a Arena,
    head: Text<'a>,
    form: Dependent,
    marker: &'a str,
    item: &'a str,
) -> Result<Text<'a>, AllocError> {
    if form == Dependent::Filled {
        let held = arena.print(format_args!("&'a Vec<{item}>"))?;
        return headed(arena, Form::Angle, form.lent(), head, &[marker, held]);
    }
    let items = [Text::of("'a"), head, Text::of(marker), Text::of(item)];
    Ok(Text::group(Form::Angle, form.lent(), arena.list(&items)?))
}

/// The pattern of a head and what comes after it.
pub(crate) fn pattern_of<'a>(
    arena: &'a Arena,
    head: Text<'a>,
    form: Dependent,
    name: &str,
) -> Result<Text<'a>, AllocError> {
    let head = head.after(arena, "head: ")?;
    let held = field(arena, form.item(), name)?;
    let items = [head, Text::of(held), Text::of("..")];
    Ok(Text::group(Form::Brace, form.pattern(), arena.list(&items)?))
}

/// A head and what comes after it, where memory is lent.
pub(crate) fn value_of<'a>(
    arena: &'a Arena,
    head: Text<'a>,
    form: Dependent,
    called: Named<'a>,
    marker: &str,
) -> Result<Text<'a>, AllocError> {
    let head = head.after(arena, "head: ")?;
    let held = field(arena, form.lent_item(), called.reference(arena)?)?;
    let front = form.value();
    let open = arena.print(format_args!("{front}{marker}, _> {{"))?;
    let items = [head, Text::of(held), Text::of(form.marker().0)];
    Ok(Text::group(Form::Brace, open, arena.list(&items)?))
}

/// The same in ghost text.
pub(crate) fn term_of<'a>(
    arena: &'a Arena,
    head: Text<'a>,
    form: Dependent,
    called: Named<'a>,
) -> Result<Text<'a>, AllocError> {
    let head = head.after(arena, "head = ")?;
    let (item, term) = (form.item(), called.term(arena)?);
    let held = arena.print(format_args!("{item} = {term}"))?;
    let items = [head, Text::of(held), Text::of(form.marker().1)];
    Ok(Text::group(Form::GhostBrace, "record {", arena.list(&items)?))
}
