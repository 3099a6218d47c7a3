//! Enums, as they are printed.

use deku_attributes::model::{Case, Endian, Id, IdSource, Ids, Order, Record};
use deku_dependents::building::field_name;
use deku_description::syntax::Shape;
use deku_record_parts::part::Part;
use deku_record_parts::texts::field;
use deku_structs::steps::goals;
use deku_structs::structs::{
    derives, docs, is_array, item, parts_alias, term_of, traits, value_of,
};
use deku_texts::document::{Form, Text, joined, start};
use deku_texts::template::fill;
use deku_texts::words::{quoted, snake};
use deku_texts::wrapping::field_kind;
use deku_tokens::arena::Arena;
use std::alloc::AllocError;
use std::fmt::Write as _;

/// A kind, and the parts of its fields.
#[derive(Clone, Copy)]
pub(crate) struct Built<'a> {
    pub(crate) case: &'a Case<'a>,
    /// The field that keeps the id, if there is one.
    pub(crate) kept: Option<&'a str>,
    /// The parts of the other fields.
    pub(crate) part: Part<'a>,
    /// Whether the enum holds memory.
    pub(crate) is_lent: bool,
}

// What the kinds of a type hold.
#[derive(Clone, Copy, PartialEq, Eq)]
enum Held {
    // The parts of their fields.
    Parts,
    // Nothing but their ids.
    Nothing,
}

const ENUM: &str = "\
pub enum $name$ {
$kinds$}
";

/// Appends an enum.
pub(crate) fn declaration<'a>(
    arena: &'a Arena,
    out: &mut String,
    record: &Record<'a>,
    kinds: &[Built<'a>],
) -> Result<(), AllocError> {
    let is_lent = kinds.iter().any(|kind| kind.is_lent);
    derives(out, record, !is_lent, false)?;
    let is_split = are_split(arena, kinds)?;
    let mut lines = String::new(arena.alloc());
    for kind in kinds {
        declared(arena, &mut lines, kind, is_split)?;
    }
    let lines = arena.keep(lines.as_str())?;
    fill(out, ENUM, &[("name", record.name.text), ("kinds", lines)])
}

// Appends a kind with its comment. With named fields, it may have a line for each.
fn declared<'a>(
    arena: &'a Arena,
    out: &mut String,
    kind: &Built<'a>,
    is_split: bool,
) -> Result<(), AllocError> {
    let case = kind.case;
    docs(out, case.docs, "    ///")?;
    if case.docs.is_empty() {
        said(out, case.id)?;
    }
    out.push_str("    ")?;
    let text = variant(arena, kind)?;
    text.print(out, 4, 1, is_split && case.shape == Shape::Named)?;
    out.push_str(",\n")
}

// Whether kinds with named fields have a line for each field: if one of them has no room on a line,
// none is on one.
fn are_split<'a>(arena: &'a Arena, kinds: &[Built<'a>]) -> Result<bool, AllocError> {
    for kind in kinds {
        if kind.case.shape == Shape::Named && !variant(arena, kind)?.is_line("    ", 1) {
            return Ok(true);
        }
    }
    Ok(false)
}

// Appends which ids a kind has.
fn said(out: &mut String, id: Id) -> Result<(), AllocError> {
    match id {
        Id::Number(number) => writeln!(out, "    /// Id {number}."),
        Id::Range(low, high) => writeln!(out, "    /// Ids {low} to {high}."),
        Id::Rest => out.push_str("    /// Every other id.\n"),
        Id::Pattern => Ok(()),
    }
}

// A kind and its fields.
fn variant<'a>(arena: &'a Arena, kind: &Built<'a>) -> Result<Text<'a>, AllocError> {
    let (case, is_kept) = (kind.case, kind.kept.is_some());
    let mut items = Vec::new(arena.alloc());
    for (i, field) in case.fields.iter().enumerate() {
        let kind = if i == 0 && is_kept {
            "u64"
        } else {
            field_kind(arena, field)?
        };
        let front = match field.name {
            Some(name) => joined(arena, name.text, ": ")?,
            None => "",
        };
        items.push(Text::of(kind).after(arena, front)?)?;
    }
    let items = arena.list(items.as_slice())?;
    of_shape(arena, case.name.text, case.shape, Form::Variant, items)
}

// A name with items as a kind of this shape has them.
fn of_shape<'a>(
    arena: &'a Arena,
    name: &'a str,
    shape: Shape,
    form: Form,
    items: &'a [Text<'a>],
) -> Result<Text<'a>, AllocError> {
    Ok(match shape {
        Shape::Unit => Text::of(name),
        Shape::Named => Text::group(form, joined(arena, name, " {")?, items),
        Shape::Tuple => Text::group(Form::Pattern, joined(arena, name, "(")?, items),
    })
}

const TO_PARTS: &str = "
impl ToParts for $name$ {
    fn parts(&self) -> Self::Parts {
        match self {$arms$
        }
    }
}
";

/// Appends how an enum is read and written; or its kinds alone, if it is given its id.
pub(crate) fn implementation<'a>(
    arena: &'a Arena,
    out: &mut String,
    record: &Record<'a>,
    ids: Ids<'a>,
    kinds: &[Built<'a>],
) -> Result<(), AllocError> {
    let name = record.name.text;
    let is_given = matches!(ids.source, IdSource::Context(_));
    let held = Held::Parts;
    if is_given {
        let kind = tree(arena, kinds, held)?;
        parts_alias(arena, out, name, "Kinds", kind)?;
    } else {
        let kind = parts_kind(arena, ids, kinds, held)?;
        parts_alias(arena, out, name, "Parts", kind)?;
    }
    there_and_back(arena, out, name, kinds, is_given)?;
    if kinds.iter().any(|kind| kind.is_lent) {
        return lent(arena, out, name, ids, kinds);
    }
    let arms = to_parts_of_each(arena, name, kinds, is_given)?;
    fill(out, TO_PARTS, &[("name", name), ("arms", arms)])?;
    if is_given {
        return Ok(());
    }
    traits(out, name, "write_record(self, writer, ctx)", false)
}

// How each kind makes its parts.
fn to_parts_of_each<'a>(
    arena: &'a Arena,
    name: &str,
    kinds: &[Built<'a>],
    is_given: bool,
) -> Result<&'a str, AllocError> {
    let mut arms = String::new(arena.alloc());
    for (i, kind) in kinds.iter().enumerate() {
        parts(arena, &mut arms, name, kind, (i, kinds.len()), is_given)?;
    }
    arena.keep(arms.as_str())
}

const IDS: &str = "
// The ids of $name$, in their order.
$ids$;
";

// Appends the traits of an enum whose kinds are written where they are, and the type of their ids.
fn lent<'a>(
    arena: &'a Arena,
    out: &mut String,
    name: &'a str,
    ids: Ids<'a>,
    kinds: &[Built<'a>],
) -> Result<(), AllocError> {
    let mut text = format!(in arena.alloc(); "type {name}Ids = ")?;
    parts_kind(arena, ids, kinds, Held::Nothing)?.print(&mut text, 0, 1, false)?;
    let text = arena.keep(text.as_str())?;
    fill(out, IDS, &[("name", name), ("ids", text)])?;
    traits(out, name, written_of_each(arena, name, kinds)?, false)
}

// How each kind is written.
fn written_of_each<'a>(
    arena: &'a Arena,
    name: &str,
    kinds: &[Built<'a>],
) -> Result<&'a str, AllocError> {
    let mut body = String::from_str(arena.alloc(), "match self {")?;
    for (i, kind) in kinds.iter().enumerate() {
        written(arena, &mut body, name, kind, (i, kinds.len()))?;
    }
    body.push_str("\n        }")?;
    arena.keep(body.as_str())
}

const ANSWER: &str = "
pub returns-in-$case$ : goal.returns-in-$case$
returns-in-$case$ g c = search (rules, c.in-$case$.is)
";

/// Appends what proves how an enum that holds memory is written: a line for each kind.
pub(crate) fn answers<'w>(
    out: &mut String,
    path: &'w str,
    name: &'w str,
    kinds: &[Built<'_>],
) -> Result<(), AllocError> {
    goals(out, "std.proofs.Common.{rules}", path, name)?;
    for kind in kinds {
        let of = kind.case;
        fill(out, ANSWER, &[("case", of.name.text)])?;
    }
    Ok(())
}

const WRITTEN: &str = "
$head$ => {$parts$
$id$;
                write_kind(&id, $reference$, writer)
            }";

// Appends how a kind is written.
fn written<'a>(
    arena: &'a Arena,
    out: &mut String,
    name: &str,
    kind: &Built<'a>,
    place: (usize, usize),
) -> Result<(), AllocError> {
    let mut head = String::from_str(arena.alloc(), "            ")?;
    own(arena, name, kind, false)?.print(&mut head, 12, 5, false)?;
    let reference = reference(kind.part);
    let words = [
        ("head", arena.keep(head.as_str())?),
        (
            "parts",
            local_parts(arena, kind.part.texts.value, reference)?,
        ),
        ("id", local_id(arena, name, kind, place)?),
        ("reference", reference),
    ];
    fill(out, WRITTEN, &words)
}

// The local for the parts of a kind, if the reference is to one.
fn local_parts<'a>(
    arena: &'a Arena,
    value: Text<'a>,
    reference: &str,
) -> Result<&'a str, AllocError> {
    if reference != "&parts" {
        return Ok("");
    }
    let mut parts = String::from_str(arena.alloc(), "\n                let parts = ")?;
    value.print(&mut parts, 16, 1, false)?;
    parts.push(';')?;
    arena.keep(parts.as_str())
}

// The local for the id of a kind.
fn local_id<'a>(
    arena: &'a Arena,
    name: &str,
    kind: &Built<'a>,
    place: (usize, usize),
) -> Result<&'a str, AllocError> {
    let mut line = format!(in arena.alloc(); "                let id: {name}Ids = ")?;
    let id = stood(arena, Form::Round, kind, Text::of("()"), place)?;
    let id = id.after(arena, "kind: ")?;
    let items = arena.list(&[id, Text::of("id: PhantomData")])?;
    Text::group(Form::Brace, "Enum {", items).print(&mut line, 16, 1, true)?;
    arena.keep(line.as_str())
}

// A reference to the parts of a kind: the field itself, if it is alone and nothing is around it.
// One of the name of the local `id` is a local of another name.
fn reference<'a>(part: Part<'a>) -> &'a str {
    let field = match part.texts.value.as_word() {
        Some("()") => Some("&()"),
        Some(word) if part.is_lent() && !word.contains('(') => Some(word),
        Some(word) => word.strip_prefix('*'),
        None => None,
    };
    match field {
        Some(field) if field != "id" => field,
        _ => "&parts",
    }
}

const THERE_AND_BACK: &str = "    \
    ghost parts_of = { elim [$parts$
    ] };

    ghost record_of = { λ p. $record$ };

    fn from_parts(parts: Self::Parts) -> Self {
        match parts$held$ {$arms$
        }
    }

    ghost there = { elim [$same$
    ] };
}
";

// Appends the parts of an enum, and the enum that parts make.
fn there_and_back<'a>(
    arena: &'a Arena,
    out: &mut String,
    name: &str,
    kinds: &[Built<'a>],
    is_given: bool,
) -> Result<(), AllocError> {
    let held = if is_given { "" } else { ".kind" };
    let words = [
        ("parts", parts_of_each(arena, name, kinds, is_given)?),
        ("record", record_of(arena, name, kinds, held)?),
        ("held", held),
        ("arms", from_parts_of_each(arena, name, kinds)?),
        ("same", same_of_each(arena, name, kinds)?),
    ];
    fill(out, THERE_AND_BACK, &words)
}

// The parts of each kind.
fn parts_of_each<'a>(
    arena: &'a Arena,
    name: &str,
    kinds: &[Built<'a>],
    is_given: bool,
) -> Result<&'a str, AllocError> {
    let mut out = String::new(arena.alloc());
    for (i, kind) in kinds.iter().enumerate() {
        parts_of(arena, &mut out, name, kind, (i, kinds.len()), is_given)?;
    }
    arena.keep(out.as_str())
}

// The arm of each kind in `from_parts`.
fn from_parts_of_each<'a>(
    arena: &'a Arena,
    name: &str,
    kinds: &[Built<'a>],
) -> Result<&'a str, AllocError> {
    let mut out = String::new(arena.alloc());
    for (i, kind) in kinds.iter().enumerate() {
        from_parts(arena, &mut out, name, kind, (i, kinds.len()))?;
    }
    arena.keep(out.as_str())
}

// That the parts of each kind make it again.
fn same_of_each<'a>(
    arena: &'a Arena,
    name: &str,
    kinds: &[Built<'a>],
) -> Result<&'a str, AllocError> {
    let mut out = String::new(arena.alloc());
    for kind in kinds {
        let kind = constructor(arena, name, kind)?;
        write!(out, "\n      | {kind} ↦ refl")?;
    }
    arena.keep(out.as_str())
}

// The type of the id and the kinds.
fn parts_kind<'a>(
    arena: &'a Arena,
    ids: Ids<'a>,
    kinds: &[Built<'a>],
    held: Held,
) -> Result<Text<'a>, AllocError> {
    let is_little = matches!(ids.layout.endian, Endian::Little | Endian::Unsaid);
    let open = match (ids.layout.order, is_little) {
        (Order::Msb, true) if ids.bits > 8 => "MsbLeEnum<",
        (Order::Msb, _) => "MsbEnum<",
        (Order::Lsb, true) => "LsbEnum<",
        (Order::Lsb, false) => "LsbBeEnum<",
    };
    let bits = ids.bits;
    let tree = tree(arena, kinds, held)?;
    let items = arena.list(&[tree, Text::of(arena.print(format_args!("{bits}"))?)])?;
    Ok(Text::group(Form::Angle, open, items))
}

// The type of kinds, of which each half is one.
fn tree<'a>(arena: &'a Arena, kinds: &[Built<'a>], held: Held) -> Result<Text<'a>, AllocError> {
    let mut texts = kind_types(arena, kinds, held)?;
    // Joins neighbours until one is left.
    for _ in 0..64 {
        if texts.len() < 2 {
            break;
        }
        join(arena, &mut texts)?;
    }
    Ok(texts.pop().unwrap_or(Text::of("()")))
}

// The type of each kind.
fn kind_types<'a>(
    arena: &'a Arena,
    kinds: &[Built<'a>],
    held: Held,
) -> Result<Vec<Text<'a>>, AllocError> {
    let mut texts = Vec::new(arena.alloc());
    for kind in kinds {
        texts.push(kind_type(arena, kind, held)?)?;
    }
    Ok(texts)
}

// Joins neighbours to one kind each; the last one stays alone if their number is odd.
fn join<'a>(arena: &'a Arena, texts: &mut Vec<Text<'a>>) -> Result<(), AllocError> {
    let all = arena.list(texts.as_slice())?;
    texts.clear();
    for pair in all.chunks(2) {
        texts.push(match pair {
            [last] => *last,
            _ => Text::group(Form::Angle, "Either<", pair),
        })?;
    }
    Ok(())
}

// Which side of each choice a kind is on, from the innermost.
fn sides<'a>(arena: &'a Arena, (place, count): (usize, usize)) -> Result<&'a [bool], AllocError> {
    let mut sides = Vec::new(arena.alloc());
    let (mut place, mut count) = (place, count);
    for _ in 0..64 {
        if count < 2 {
            break;
        }
        if place % 2 == 1 {
            sides.push(false)?;
        } else if place < count - 1 {
            sides.push(true)?;
        }
        place /= 2;
        count = count / 2 + count % 2;
    }
    arena.list(sides.as_slice())
}

// A text on the side of each choice that a kind is on; these words say which side it is.
fn on_side<'a>(
    arena: &'a Arena,
    form: Form,
    (this, other): (&'static str, &'static str),
    place: (usize, usize),
    text: Text<'a>,
) -> Result<Text<'a>, AllocError> {
    // Each has the one before it in it.
    let mut texts = Vec::new(arena.alloc());
    for is_this in sides(arena, place)? {
        let open = if *is_this { this } else { other };
        let inner = texts.last().copied().unwrap_or(text);
        texts.push(Text::one(arena, form, open, inner)?)?;
    }
    Ok(texts.pop().unwrap_or(text))
}

fn kind_type<'a>(arena: &'a Arena, kind: &Built<'a>, held: Held) -> Result<Text<'a>, AllocError> {
    let (open, first, last) = match kind.case.id {
        Id::Number(number) => ("Kind<", Some(number), None),
        Id::Range(low, high) => ("InRange<", Some(low), Some(high)),
        Id::Rest | Id::Pattern => ("Otherwise<", None, None),
    };
    let mut items = Vec::new(arena.alloc());
    items.push(match held {
        Held::Parts => kind.part.texts.kind,
        Held::Nothing => Text::of("()"),
    })?;
    for id in [first, last] {
        if let Some(id) = id {
            items.push(Text::of(arena.print(format_args!("{id}"))?))?;
        }
    }
    Ok(Text::group(Form::Angle, open, arena.list(items.as_slice())?))
}

// Appends the parts of a kind, in ghost text, in a line of their own.
fn parts_of<'a>(
    arena: &'a Arena,
    out: &mut String,
    name: &str,
    kind: &Built<'a>,
    place: (usize, usize),
    is_given: bool,
) -> Result<(), AllocError> {
    let case = constructor(arena, name, kind)?;
    write!(out, "\n      | {case} ↦ ")?;
    let words = ("either.This (", "either.Other (");
    let text = on_side(
        arena,
        Form::GhostRound,
        words,
        place,
        held_parts(arena, kind)?,
    )?;
    if is_given {
        return text.print(out, 6, 0, false);
    }
    let kind = text.after(arena, "kind = ")?;
    let items = arena.list(&[kind, Text::of("id = record {}")])?;
    Text::group(Form::GhostBrace, "record {", items).print(out, 6, 0, false)
}

// The parts of a kind with the id that it keeps, in ghost text.
fn held_parts<'a>(arena: &'a Arena, kind: &Built<'a>) -> Result<Text<'a>, AllocError> {
    let term = kind.part.texts.term;
    let items = match kind.kept {
        Some(kept) => {
            let kept = Text::of(quoted(arena, kept)?).after(arena, "id = ")?;
            arena.list(&[kept, term.after(arena, "value = ")?])?
        }
        None => arena.list(&[term.after(arena, "0 = ")?])?,
    };
    Ok(Text::group(Form::GhostBrace, "record {", items))
}

// A kind with its fields as variables, in ghost text.
fn constructor<'a>(arena: &'a Arena, name: &str, kind: &Built<'a>) -> Result<&'a str, AllocError> {
    let kinds = snake(arena, name)?;
    let of = kind.case;
    let case = of.name.text;
    let mut out = format!(in arena.alloc(); "{kinds}_kinds.{case}")?;
    for (i, field) in of.fields.iter().enumerate() {
        let name = quoted(arena, field_name(arena, field, i)?)?;
        write!(out, " {name}")?;
    }
    arena.keep(out.as_str())
}

// The enum that a value of the kinds makes, in ghost text.
fn record_of<'a>(
    arena: &'a Arena,
    name: &str,
    kinds: &[Built<'a>],
    kind: &str,
) -> Result<&'a str, AllocError> {
    let whole = joined(arena, "p", kind)?;
    let held = if kinds.len() == 1 { whole } else { "k" };
    let mut texts = made_of_each(arena, name, kinds, held)?;
    for _ in 0..64 {
        if texts.len() < 2 {
            break;
        }
        choose(arena, &mut texts)?;
    }
    let text = texts.pop().unwrap_or("");
    match text.strip_prefix("elim k [") {
        Some(rest) => {
            let rest = rest.replace(arena.alloc(), "\n", "\n    ")?;
            let rest = rest.as_str();
            arena.print(format_args!("elim {whole} [{rest}"))
        }
        None => Ok(text),
    }
}

// What a value of each kind makes, in ghost text.
fn made_of_each<'a>(
    arena: &'a Arena,
    name: &str,
    kinds: &[Built<'a>],
    held: &'a str,
) -> Result<Vec<&'a str>, AllocError> {
    let mut texts = Vec::new(arena.alloc());
    for kind in kinds {
        texts.push(made_of(arena, name, kind, held)?)?;
    }
    Ok(texts)
}

// Makes one choice of two neighbours each; the last one stays alone if their number is odd.
fn choose<'a>(arena: &'a Arena, texts: &mut Vec<&'a str>) -> Result<(), AllocError> {
    let all = arena.list(texts.as_slice())?;
    texts.clear();
    for pair in all.chunks(2) {
        match pair {
            [one, other] => texts.push(choice(arena, one, other)?)?,
            _ => texts.extend_from_slice(pair)?,
        }
    }
    Ok(())
}

const CHOICE: &str = "\
elim k [
  | either.This k ↦ $one$
  | either.Other k ↦ $other$
]";

// One choice of two kinds, whose further lines begin further in.
fn choice<'a>(arena: &'a Arena, one: &str, other: &str) -> Result<&'a str, AllocError> {
    let one = one.replace(arena.alloc(), "\n", "\n  ")?;
    let other = other.replace(arena.alloc(), "\n", "\n  ")?;
    let mut out = String::new(arena.alloc());
    let words = [("one", one.as_str()), ("other", other.as_str())];
    fill(&mut out, CHOICE, &words)?;
    arena.keep(out.as_str())
}

// A kind made of a value, in ghost text.
fn made_of<'a>(
    arena: &'a Arena,
    name: &str,
    kind: &Built<'a>,
    held: &'a str,
) -> Result<&'a str, AllocError> {
    let kinds = snake(arena, name)?;
    let of = kind.case;
    let case = of.name.text;
    let mut out = format!(in arena.alloc(); "{kinds}_kinds.{case}")?;
    for (i, field) in of.fields.iter().enumerate() {
        let name = field_name(arena, field, i)?;
        let end = match (kind.kept, i) {
            (Some(_), 0) => ".id",
            (Some(_), _) => ".value",
            (None, _) => ".0",
        };
        let term = term_of(arena, kind.part, name, joined(arena, held, end)?)?;
        if term.contains(' ') {
            write!(out, " ({term})")?;
        } else {
            write!(out, " {term}")?;
        }
    }
    arena.keep(out.as_str())
}

// A kind of the enum with its fields as locals, or made of the parts.
fn own<'a>(
    arena: &'a Arena,
    name: &str,
    kind: &Built<'a>,
    is_made: bool,
) -> Result<Text<'a>, AllocError> {
    let mut items = Vec::new(arena.alloc());
    let of = kind.case;
    for (i, field) in of.fields.iter().enumerate() {
        let name = field_name(arena, field, i)?;
        items.push(Text::of(if is_made {
            let parts = match (kind.kept, i) {
                (Some(_), _) if is_taken_apart(kind) => None,
                (Some(_), 0) => Some("kept.id"),
                (Some(_), _) => Some("kept.value"),
                (None, _) => None,
            };
            let value = value_of(arena, kind.part, name, parts)?;
            item(arena, of.shape, name, value)?
        } else {
            name
        }))?;
    }
    let items = arena.list(items.as_slice())?;
    let case = of.name.text;
    let path = arena.print(format_args!("{name}::{case}"))?;
    of_shape(arena, path, of.shape, Form::Brace, items)
}

// Whether a pattern takes a kind apart down to its fields: memory and arrays cannot be moved out of
// it by paths.
fn is_taken_apart(kind: &Built<'_>) -> bool {
    kind.part.is_lent() || kind.case.fields.iter().any(is_array)
}

// The value of the kinds that a kind of the enum stands for, of what its fields are.
fn stood<'a>(
    arena: &'a Arena,
    form: Form,
    kind: &Built<'a>,
    value: Text<'a>,
    place: (usize, usize),
) -> Result<Text<'a>, AllocError> {
    let text = match (kind.kept, form) {
        (None, _) => Text::one(arena, form, "Kind(", value)?,
        (Some(kept), Form::Pattern) if is_taken_apart(kind) => {
            in_range(arena, field(arena, "id", kept)?, value)?
        }
        (Some(_), Form::Pattern) => Text::of("kept"),
        (Some(kept), _) => in_range(arena, joined(arena, "id: *", kept)?, value)?,
    };
    on_side(
        arena,
        form,
        ("Either::This(", "Either::Other("),
        place,
        text,
    )
}

// The value of a kind of several ids, which keeps its id.
fn in_range<'a>(arena: &'a Arena, id: &'a str, value: Text<'a>) -> Result<Text<'a>, AllocError> {
    let value = value.after(arena, "value: ")?;
    let items = arena.list(&[Text::of(id), value])?;
    Ok(Text::group(Form::Brace, "InRange {", items))
}

// Appends a case of a match.
fn arm(out: &mut String, pattern: Text<'_>, body: Text<'_>) -> Result<(), AllocError> {
    start(out, 12)?;
    pattern.print(out, 12, 3, false)?;
    out.push_str(" =>")?;
    if body.is_brace() && !body.has_room(out.as_str()) {
        start(out, 16)?;
        body.print(out, 16, 1, false)?;
        return out.push(',');
    }
    out.push(' ')?;
    if body.is_line(out.as_str(), 1) || body.is_brace() {
        body.print(out, 12, 1, false)?;
        return out.push(',');
    }
    out.push_str("{\n                ")?;
    body.print(out, 16, 0, false)?;
    out.push_str("\n            }")
}

// Appends how parts make a kind.
fn from_parts<'a>(
    arena: &'a Arena,
    out: &mut String,
    name: &str,
    kind: &Built<'a>,
    place: (usize, usize),
) -> Result<(), AllocError> {
    let pattern = stood(arena, Form::Pattern, kind, kind.part.texts.pattern, place)?;
    arm(out, pattern, own(arena, name, kind, true)?)
}

// Appends the parts of a kind.
fn parts<'a>(
    arena: &'a Arena,
    out: &mut String,
    name: &str,
    kind: &Built<'a>,
    place: (usize, usize),
    is_given: bool,
) -> Result<(), AllocError> {
    let value = stood(arena, Form::Round, kind, kind.part.texts.value, place)?;
    let body = if is_given {
        value
    } else {
        Text::one(arena, Form::Round, "Enum::new(", value)?
    };
    arm(out, own(arena, name, kind, false)?, body)
}
