//! What a module imports: the names that its text has.

use deku_attributes::model::{Form, Module};
use deku_texts::template::fill;
use deku_texts::words::{MADE, snake};
use deku_tokens::arena::Arena;
use std::alloc::AllocError;
use std::fmt::Write as _;

// The names of deku_symmetry, in the order in which `rt fmt` has them.
const PARTS: [&str; 56] = [
    "Assert",
    "Be",
    "Before",
    "Check",
    "CheckLaw",
    "ChosenBy",
    "ChosenByRef",
    "Condition",
    "ConditionLaw",
    "Constant",
    "ConstantLaw",
    "ContextOf",
    "ContextOfLaw",
    "CountOf",
    "CountOfLaw",
    "CountedBy",
    "CountedByRef",
    "Either",
    "Enum",
    "FilledBy",
    "FromParts",
    "IdOf",
    "IdOfLaw",
    "InRange",
    "Kind",
    "Last",
    "LastLaw",
    "Le",
    "Lsb",
    "LsbBe",
    "LsbBeEnum",
    "LsbEnum",
    "Magic",
    "Msb",
    "MsbEnum",
    "MsbLe",
    "MsbLeEnum",
    "Optional",
    "OptionalRef",
    "Otherwise",
    "Prefixed",
    "PrefixedRef",
    "Record",
    "RecordLast",
    "Rest",
    "SizeOf",
    "SizeOfLaw",
    "SizedBy",
    "Symmetric",
    "ToParts",
    "UnderHead",
    "Until",
    "UntilRef",
    "read_record",
    "write_kind",
    "write_record",
];

// The names of contexts.
const CONTEXTS: [&str; 4] = ["BitSize", "ByteSize", "Endian", "Order"];

// The names of deku.
const PRELUDE: [&str; 6] = [
    "DekuError",
    "DekuReader",
    "DekuUpdate",
    "DekuWriter",
    "Reader",
    "Writer",
];

// What a module imports, of its names, in the order in which `rt fmt` has it.
const USED: [(&str, &[&str]); 9] = [
    ("deku::cstring", &["CString"]),
    ("deku::ctx", &CONTEXTS),
    ("deku::device", &["Sink", "Source"]),
    ("deku::prelude", &PRELUDE),
    ("deku_c_records", &["ForC"]),
    ("deku_symmetry", &PARTS),
    ("std::alloc", &["Global"]),
    ("std::marker", &["PhantomData"]),
    ("std::net", &["Ipv4Addr", "Ipv6Addr"]),
];

// Words of ghost text, with what of it is looked for.
const WORDS: [(&str, &str); 24] = [
    ("◌+◌", " + "),
    ("◌-◌", " - "),
    ("◌*◌", " * "),
    ("◌/◌", " / "),
    ("◌%◌", " % "),
    ("◌&&◌", " && "),
    ("◌||◌", " || "),
    ("◌≡◌", " ≡ "),
    ("◌⊎◌", "⊎ "),
    ("◌<◌", " < "),
    ("◌≤◌", " ≤ "),
    ("◌^◌", "2 ^ "),
    ("not", "not "),
    ("nat_eq", "nat_eq "),
    ("nat_lt", "nat_lt "),
    ("nat_le", "nat_le "),
    ("None", "then None "),
    ("Some", "Some "),
    ("if◌then◌else◌", "if "),
    ("length", "(length v."),
    ("Ok", "≡ Ok "),
    ("Err", "≡ Err "),
    ("codes", "codes "),
    ("refl", "refl"),
];

const IMPORTS: &str = "
ghost use Rattle.std.specs.Prelude.{$words$};
ghost use Rattle.deku.specs.Composing.{Then};
ghost use Rattle.deku.specs.Shapes.{Shows};
$refusals$$endians$$orders$$made$$kinds$
";

// The words for the refusals of an update.
const REFUSALS: &str = "\
ghost use Rattle.deku.specs.declared.error.DekuError.{DekuError as Refusal};
ghost use Rattle.deku.specs.declared.error.DekuError.TheVariants.{Parse};
ghost use Rattle.deku.specs.Faults.{Tells};
";

// The words for contexts with an order.
const ORDERS: &str = "\
ghost use Rattle.deku.specs.declared.ctx.Order.TheVariants.{Lsb0};
";

/// Appends what a module imports that goes on with this text.
pub(crate) fn imports(
    arena: &Arena,
    out: &mut String,
    module: &Module<'_>,
    path: Option<&str>,
    text: &str,
) -> Result<(), AllocError> {
    let (term, code) = parted(arena, text)?;
    ghost_uses(arena, out, module, path, term)?;
    own_uses(out, module)?;
    for (from, names) in USED {
        used(arena, out, from, names, code)?;
    }
    Ok(())
}

// Appends what ghost text imports.
fn ghost_uses<'a>(
    arena: &'a Arena,
    out: &mut String,
    module: &Module<'_>,
    path: Option<&str>,
    term: &'a str,
) -> Result<(), AllocError> {
    let words = [
        ("words", words_of(arena, term)?),
        ("refusals", if_has(term, "Tells Parse", REFUSALS)),
        ("endians", endians(arena, term)?),
        ("orders", if_has(term, ", Lsb0) }", ORDERS)),
        ("made", made(arena, term)?),
        ("kinds", kinds(arena, module, path)?),
    ];
    fill(out, IMPORTS, &words)
}

// Imports, if this is in a text.
fn if_has(text: &str, found: &str, imports: &'static str) -> &'static str {
    if text.contains(found) { imports } else { "" }
}

// The words of the standard library that ghost text has.
fn words_of<'a>(arena: &'a Arena, text: &str) -> Result<&'a str, AllocError> {
    let mut words = Vec::new(arena.alloc());
    for (word, found) in &WORDS {
        if text.contains(*found) {
            words.push(*word)?;
        }
    }
    listed(arena, words.as_slice())
}

// Words with commas between them.
fn listed<'a>(arena: &'a Arena, words: &[&str]) -> Result<&'a str, AllocError> {
    let list = words.join(arena.alloc(), ", ")?;
    arena.keep(list.as_str())
}

// Appends what a description uses of its own crate.
fn own_uses(out: &mut String, module: &Module<'_>) -> Result<(), AllocError> {
    for path in module.uses {
        if path.starts_with("super::") || path.starts_with("crate::") {
            writeln!(out, "use {path};")?;
        }
    }
    Ok(())
}

// The import of the endians of contexts that ghost text has.
fn endians<'a>(arena: &'a Arena, text: &str) -> Result<&'a str, AllocError> {
    let mut endians = Vec::new(arena.alloc());
    for (word, found) in [("Big", "λ p. (Big, "), ("Little", "λ p. (Little, ")] {
        if text.contains(found) {
            endians.push(word)?;
        }
    }
    if endians.is_empty() {
        return Ok("");
    }
    let words = listed(arena, endians.as_slice())?;
    arena.print(format_args!(
        "ghost use Rattle.deku.specs.declared.ctx.Endian.TheVariants.{{{words}}};\n"
    ))
}

// The import of the words for parts of one value that ghost text has.
fn made<'a>(arena: &'a Arena, text: &str) -> Result<&'a str, AllocError> {
    let mut words = Vec::new(arena.alloc());
    for (_, word) in &MADE {
        if has_word(text, word) {
            words.push(*word)?;
        }
    }
    if words.is_empty() {
        return Ok("");
    }
    let words = listed(arena, words.as_slice())?;
    arena.print(format_args!("ghost use Rattle.deku_symmetry.specs.Fields.{{{words}}};\n"))
}

const EITHER: &str = "\
ghost use Rattle.deku_pieces.specs.declared.either.Either.TheVariants as either;
";

const KINDS: &str = "\
$either$\
ghost use Rattle.$front$.specs.declared$dot$$rest$.$name$.TheVariants as $kinds$_kinds;
";

// The imports of the kinds of enums that ghost text names.
fn kinds<'a>(
    arena: &'a Arena,
    module: &Module<'_>,
    path: Option<&str>,
) -> Result<&'a str, AllocError> {
    let Some(path) = path else {
        return Ok("");
    };
    let path = arena.keep(path)?;
    let (front, rest) = path.split_once('.').unwrap_or((path, ""));
    let dot = if rest.is_empty() { "" } else { "." };
    let mut lines = String::new(arena.alloc());
    for record in module.records {
        if let Form::Enum(_, _) = &record.form {
            let name = arena.keep(record.name.text)?;
            let words = [
                ("either", if lines.is_empty() { EITHER } else { "" }),
                ("front", front),
                ("dot", dot),
                ("rest", rest),
                ("name", name),
                ("kinds", snake(arena, name)?),
            ];
            fill(&mut lines, KINDS, &words)?;
        }
    }
    arena.keep(lines.as_str())
}

const LINE: &str = "$line$\n";

// The lines of ghost text, and those of code. A clause is both.
fn parted<'a>(arena: &'a Arena, text: &str) -> Result<(&'a str, &'a str), AllocError> {
    let mut term = String::new(arena.alloc());
    let mut code = String::new(arena.alloc());
    // How many braces of ghost text are open.
    let mut open = 0usize;
    for line in text.lines() {
        let trimmed = line.trim_start();
        let is_ghost = open > 0 || trimmed.starts_with("ghost ");
        if is_ghost || trimmed.starts_with("ensures ") {
            fill(&mut term, LINE, &[("line", line)])?;
        }
        if is_ghost {
            open = open.saturating_add(line.matches('{').count());
            open = open.saturating_sub(line.matches('}').count());
        } else if !trimmed.starts_with("//") {
            fill(&mut code, LINE, &[("line", line)])?;
        }
    }
    Ok((arena.keep(term.as_str())?, arena.keep(code.as_str())?))
}

const USE: &str = "\
use $from$::{
$names$
};
";

// Appends the import of those of these names that a text has.
fn used(
    arena: &Arena,
    out: &mut String,
    from: &'static str,
    names: &[&'static str],
    text: &str,
) -> Result<(), AllocError> {
    let mut found = Vec::new(arena.alloc());
    for name in names {
        if has_word(text, name) {
            found.push(*name)?;
        }
    }
    match found.as_slice() {
        [] => Ok(()),
        [name] => writeln!(out, "use {from}::{name};"),
        names => {
            let line = listed(arena, names)?;
            let columns = line.len().saturating_add(from.len()).saturating_add(9);
            if columns < 99 {
                return writeln!(out, "use {from}::{{{line}}};");
            }
            let words = [("from", from), ("names", filled(arena, names)?)];
            fill(out, USE, &words)
        }
    }
}

const NAME: &str = "$space$$name$,";

// Names on as few lines as hold them.
fn filled<'a>(arena: &'a Arena, names: &[&str]) -> Result<&'a str, AllocError> {
    let mut lines = String::new(arena.alloc());
    let mut column = 0usize;
    for name in names {
        let next = column.saturating_add(name.len()).saturating_add(2);
        let (space, end) = if column == 0 {
            ("    ", name.len().saturating_add(5))
        } else if next > 100 {
            ("\n    ", name.len().saturating_add(5))
        } else {
            (" ", next)
        };
        column = end;
        fill(&mut lines, NAME, &[("space", space), ("name", *name)])?;
    }
    arena.keep(lines.as_str())
}

// Whether a text has a name as a whole word.
fn has_word(text: &str, word: &str) -> bool {
    text.split(|c: char| !(c.is_ascii_alphanumeric() || c == '_'))
        .any(|part| part == word)
}
