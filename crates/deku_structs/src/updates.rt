//! What sets the fields that follow from lists, as it is printed.

use deku_attributes::model::Field;
use deku_dependents::updating::Updated;
use deku_texts::document::{Form, Text};
use deku_texts::template::fill;
use deku_texts::words::quoted;
use deku_tokens::arena::Arena;
use std::alloc::AllocError;
use std::fmt::Write as _;

const UPDATE: &str = "\
$comment$
/// It fails with `Parse(\"error parsing int\")`, and nothing changes, if a length does not fit.
impl DekuUpdate for $name$ {
    ghost updates = { λ v r w. ($fits$(r ≡ Ok tt)
$changed$))
        ⊎ ($misfits$
        × ((e : Refusal) × (r ≡ Err e) × Tells Parse (codes \"error parsing int\") e) × (w ≡ v)) };

    fn update(&mut self) -> Result<(), DekuError> {
$counts$$sets$        Ok(())
    }
}
";

/// Appends the update of a struct, if it has fields that one sets.
pub(crate) fn update<'a>(
    arena: &'a Arena,
    out: &mut String,
    name: &'a str,
    fields: &[Field<'a>],
) -> Result<(), AllocError> {
    let updated = updated_of(arena, fields)?;
    if updated.is_empty() {
        return Ok(());
    }
    let words = [
        ("comment", comment(arena, updated)?),
        ("name", name),
        ("fits", fits(arena, updated)?),
        ("changed", changed(arena, updated)?),
        ("misfits", misfits(arena, updated)?),
        ("counts", counts(arena, updated)?),
        ("sets", sets(arena, updated)?),
    ];
    fill(out, UPDATE, &words)
}

// The fields that an update sets.
fn updated_of<'a>(arena: &'a Arena, fields: &[Field<'a>]) -> Result<&'a [Updated<'a>], AllocError> {
    let mut updated = Vec::new(arena.alloc());
    for field in fields {
        if let Some(it) = Updated::of(field, fields) {
            updated.push(it)?;
        }
    }
    arena.list(updated.as_slice())
}

// Which fields it sets: a line for each, after the end of another one.
fn comment<'a>(arena: &'a Arena, updated: &[Updated<'a>]) -> Result<&'a str, AllocError> {
    let mut lines = String::new(arena.alloc());
    for (place, it) in updated.iter().enumerate() {
        let front = if place == 0 { "Sets" } else { "and" };
        let end = if place + 1 == updated.len() { "." } else { "," };
        let (name, list) = (it.name, it.list);
        write!(
            lines,
            "\n/// {front} `{name}` to the length of `{list}`{end}"
        )?;
    }
    arena.keep(lines.as_str())
}

// The length of a field's list, in ghost text.
fn length<'a>(arena: &'a Arena, it: Updated<'a>) -> Result<&'a str, AllocError> {
    let list = quoted(arena, it.list)?;
    arena.print(format_args!("length v.{list}.items"))
}

// That each length fits.
fn fits<'a>(arena: &'a Arena, updated: &[Updated<'a>]) -> Result<&'a str, AllocError> {
    let mut text = String::new(arena.alloc());
    for it in updated {
        let (length, bits) = (length(arena, *it)?, it.bits);
        write!(text, "({length} < 2 ^ {bits})\n        × ")?;
    }
    arena.keep(text.as_str())
}

// What is left then.
fn changed<'a>(arena: &'a Arena, updated: &[Updated<'a>]) -> Result<&'a str, AllocError> {
    let mut items = Vec::new(arena.alloc());
    for it in updated {
        let name = quoted(arena, it.name)?;
        let length = length(arena, *it)?;
        items.push(Text::of(arena.print(format_args!("{name} = {length}"))?))?;
    }
    let items = arena.list(items.as_slice())?;
    let mut line = String::from_str(arena.alloc(), "        × (w ≡ ")?;
    Text::group(Form::GhostBrace, "record v {", items).print(&mut line, 8, 2, false)?;
    arena.keep(line.as_str())
}

// That a length does not fit.
fn misfits<'a>(arena: &'a Arena, updated: &[Updated<'a>]) -> Result<&'a str, AllocError> {
    let mut misfits = Vec::new(arena.alloc());
    for it in updated {
        let (length, bits) = (length(arena, *it)?, it.bits);
        misfits.push(arena.print(format_args!("(2 ^ {bits} ≤ {length})"))?)?;
    }
    let one = misfits.as_slice().join(arena.alloc(), "\n        ⊎ ")?;
    let one = one.as_str();
    if updated.len() > 1 {
        arena.print(format_args!("({one})"))
    } else {
        arena.keep(one)
    }
}

// The counts that it sets.
fn counts<'a>(arena: &'a Arena, updated: &[Updated<'a>]) -> Result<&'a str, AllocError> {
    let mut lines = String::new(arena.alloc());
    for it in updated {
        let Updated {
            name,
            kind,
            list,
            ..
        } = *it;
        writeln!(
            lines,
            "        let {name} = {kind}::try_from(self.{list}.len())?;"
        )?;
    }
    arena.keep(lines.as_str())
}

// How it sets them.
fn sets<'a>(arena: &'a Arena, updated: &[Updated<'a>]) -> Result<&'a str, AllocError> {
    let mut lines = String::new(arena.alloc());
    for it in updated {
        let name = it.name;
        writeln!(lines, "        self.{name} = {name};")?;
    }
    arena.keep(lines.as_str())
}
