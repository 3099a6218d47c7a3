//! Names that a module has besides those of its description, and how names are written.

use deku_tokens::arena::Arena;
use std::alloc::AllocError;

// The names that a module imports or that its bounds have.
const IMPORTED: [&str; 73] = [
    "Source",
    "Sink",
    "DekuError",
    "DekuReader",
    "DekuUpdate",
    "DekuWriter",
    "Reader",
    "Writer",
    "FromParts",
    "ToParts",
    "Record",
    "RecordLast",
    "Be",
    "Le",
    "Msb",
    "MsbLe",
    "Lsb",
    "LsbBe",
    "Ipv4Addr",
    "Ipv6Addr",
    "CString",
    "PhantomData",
    "ChosenBy",
    "ChosenByRef",
    "UnderHead",
    "ContextOf",
    "ContextOfLaw",
    "Endian",
    "BitSize",
    "ByteSize",
    "IdOf",
    "IdOfLaw",
    "CountedBy",
    "CountedByRef",
    "CountOf",
    "CountOfLaw",
    "FilledBy",
    "Prefixed",
    "PrefixedRef",
    "Before",
    "Until",
    "UntilRef",
    "Last",
    "LastLaw",
    "Rest",
    "SizedBy",
    "SizeOf",
    "SizeOfLaw",
    "Optional",
    "OptionalRef",
    "Condition",
    "ConditionLaw",
    "Assert",
    "Check",
    "CheckLaw",
    "Magic",
    "Constant",
    "ConstantLaw",
    "Enum",
    "MsbEnum",
    "Either",
    "Kind",
    "InRange",
    "Otherwise",
    "Parts",
    "Result",
    "Option",
    "Debug",
    "Clone",
    "Copy",
    "PartialEq",
    "Eq",
    "W",
];

// The names of a module's locals that are no fields, and the words that are no names.
const LOCAL: [&str; 58] = [
    "parts", "writer", "result", "as", "break", "const", "continue", "crate", "else", "enum",
    "extern", "false", "fn", "for", "if", "impl", "in", "let", "loop", "match", "mod", "move",
    "mut", "pub", "ref", "return", "self", "static", "struct", "super", "trait", "true", "type",
    "unsafe", "use", "where", "while", "async", "await", "dyn", "abstract", "become", "box", "do",
    "final", "macro", "override", "priv", "typeof", "unsized", "virtual", "yield", "try", "gen",
    "ghost", "requires", "ensures", "Vec",
];

// The words that ghost text takes only between « and ».
const QUOTED: [&str; 31] = [
    "data",
    "record",
    "deriving",
    "module",
    "where",
    "use",
    "mod",
    "pub",
    "package",
    "open",
    "as",
    "unfoldable",
    "abbrev",
    "axiom",
    "unfold",
    "unfolding",
    "ruleset",
    "mutual",
    "infix",
    "infixl",
    "infixr",
    "elim",
    "let",
    "in",
    "do",
    "Type",
    "coe",
    "fcoe",
    "tcoe",
    "hcom",
    "com",
];

fn is_one_of(words: &[&str], name: &str) -> bool {
    for word in words {
        if *word == name {
            return true;
        }
    }
    false
}

/// Whether no field has this name.
pub fn is_local(name: &str) -> bool {
    is_one_of(&LOCAL, name)
}

/// Whether no record has this name.
pub fn is_imported(name: &str) -> bool {
    for word in &IMPORTED {
        if word.eq_ignore_ascii_case(name) {
            return true;
        }
    }
    is_one_of(&LOCAL, name) || is_one_of(&QUOTED, name)
}

/// A name as ghost text takes it.
pub fn quoted<'a>(arena: &'a Arena, name: &str) -> Result<&'a str, AllocError> {
    if is_one_of(&QUOTED, name) {
        return arena.print(format_args!("«{name}»"));
    }
    arena.keep(name)
}

/// The name of a type for a field of a record, as `UdpLengthCount` for `length` of `Udp`.
pub fn marker<'a>(
    arena: &'a Arena,
    record: &str,
    field: &str,
    what: &str,
) -> Result<&'a str, AllocError> {
    let mut name = String::from_str(arena.alloc(), record)?;
    for word in field.split('_') {
        let mut letters = word.chars();
        if let Some(first) = letters.next() {
            name.push(first.to_ascii_uppercase())?;
            name.push_str(letters.as_str())?;
        }
    }
    name.push_str(what)?;
    arena.keep(name.as_str())
}

/// A name with small letters, as `ether_type` for `EtherType`.
pub fn snake<'a>(arena: &'a Arena, name: &str) -> Result<&'a str, AllocError> {
    let mut small = String::new(arena.alloc());
    for letter in name.chars() {
        if letter.is_ascii_uppercase() && !small.is_empty() {
            small.push('_')?;
        }
        small.push(letter.to_ascii_lowercase())?;
    }
    arena.keep(small.as_str())
}

/// The parts of one value, and what makes them in ghost text.
pub const MADE: [(&str, &str); 6] = [
    ("Be", "be"),
    ("Le", "le"),
    ("Lsb", "lsb"),
    ("LsbBe", "lsb_be"),
    ("Msb", "msb"),
    ("MsbLe", "msb_le"),
];

/// What makes a part of one value in ghost text.
pub fn part(around: &str) -> &'static str {
    for (name, word) in &MADE {
        if *name == around {
            return word;
        }
    }
    ""
}
