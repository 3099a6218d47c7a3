//! Structs with enums whose id is one of their fields, as they are printed.

use deku_attributes::given::chosen;
use deku_attributes::model::Field;
use deku_texts::document::{Form, Text};
use deku_texts::template::fill;
use deku_texts::words::snake;
use deku_tokens::arena::Arena;
use std::alloc::AllocError;

/// Appends the law that no field is missing from the parts of a struct. It follows from the same
/// law of each enum whose id is a field, which is imported from this module.
pub(crate) fn there<'a>(
    arena: &'a Arena,
    out: &mut String,
    fields: &[Field<'a>],
    path: Option<&str>,
) -> Result<(), AllocError> {
    let laws = laws(arena, out, fields, arena.keep(path.unwrap_or(""))?)?;
    if laws.is_empty() {
        return out.push_str("    ghost there = { λ r. refl };\n}\n");
    }
    out.push_str("\n    ghost there = { λ r. ")?;
    Text::group(Form::GhostRound, "rw (", laws).print(out, 4, 8, false)?;
    out.push_str(" refl };\n}\n")
}

// The laws of the enums whose ids are fields, at each of these. The import of each law is appended.
fn laws<'a>(
    arena: &'a Arena,
    out: &mut String,
    fields: &[Field<'a>],
    path: &'a str,
) -> Result<&'a [Text<'a>], AllocError> {
    let mut laws = Vec::new(arena.alloc());
    for (i, field) in fields.iter().enumerate() {
        let Some(kind) = chosen(field) else {
            continue;
        };
        let law = snake(arena, kind)?;
        if !fields.iter().take(i).any(|it| chosen(it) == Some(kind)) {
            imported(out, kind, law, path)?;
        }
        laws.push(Text::of(law_at(arena, law, field, i)?))?;
    }
    arena.list(laws.as_slice())
}

// The law of an enum at a field.
fn law_at<'a>(
    arena: &'a Arena,
    law: &str,
    field: &Field<'a>,
    place: usize,
) -> Result<&'a str, AllocError> {
    match field.name {
        Some(name) => {
            let name = name.text;
            arena.print(format_args!("{law}_there r.{name}"))
        }
        None => arena.print(format_args!("{law}_there r.{place}")),
    }
}

const LAW: &str = "    \
    ghost use Rattle.$front$.specs.contracts$dot$$rest$.$kind$FromParts.TheImpl.Laws\
    .{there-law as $law$_there};
";

// Appends the import of the law of an enum.
fn imported<'w>(
    out: &mut String,
    kind: &'w str,
    law: &'w str,
    path: &'w str,
) -> Result<(), AllocError> {
    let (front, rest) = path.split_once('.').unwrap_or((path, ""));
    let dot = if rest.is_empty() { "" } else { "." };
    let words = [
        ("front", front),
        ("dot", dot),
        ("rest", rest),
        ("kind", kind),
        ("law", law),
    ];
    fill(out, LAW, &words)
}
