//! Markers: types that say how many items follow the parts, whether an item does, or which values
//! the parts have.

use crate::computing::{Computed, Computer};
use deku_attributes::model::Order;
use deku_record_parts::part::Place;
use deku_texts::template::fill;
use deku_tokens::arena::Arena;
use std::alloc::AllocError;

/// A marker, as it is printed.
#[derive(Clone, Copy)]
pub struct Marker<'m> {
    /// Its name.
    pub name: &'m str,
    /// The type of the parts.
    pub parts: &'m str,
    /// The type of what is written for them, if memory is lent.
    pub lent: Option<&'m str>,
    /// The field that it is for.
    pub field: &'m str,
}

impl<'m> Marker<'m> {
    // It for what is written, if memory is lent.
    fn of_lent(self) -> Option<Marker<'m>> {
        Some(Marker {
            parts: self.lent?,
            lent: None,
            name: self.name,
            field: self.field,
        })
    }

    // The generics of its implementation of this trait, and what is in front of `for`: a space, or
    // a line break where the line has no room.
    fn head(self, what: &str) -> (&'static str, &'static str) {
        let generic = if self.parts.contains("<'a") {
            "<'a>"
        } else {
            ""
        };
        let columns = "impl <> for  {"
            .len()
            .saturating_add(generic.len())
            .saturating_add(what.chars().count())
            .saturating_add(self.parts.chars().count())
            .saturating_add(self.name.chars().count());
        (generic, if columns <= 100 { " " } else { "\n    " })
    }
}

// An implementation of a trait for a marker.
#[derive(Clone, Copy)]
struct Implementation<'i> {
    // The trait.
    what: &'i str,
    template: &'i str,
    // What is computed, in ghost text.
    term: &'i str,
    // The body of the function.
    body: &'i str,
    // What begins the body of a function without arguments, for lent parts: the prover wants its
    // clause there.
    clause: &'i str,
}

impl<'i> Implementation<'i> {
    // Appends it, and that for what is written, if memory is lent.
    fn print(self, out: &mut String, marker: Marker<'_>) -> Result<(), AllocError> {
        self.one(out, marker)?;
        match marker.of_lent() {
            Some(lent) => self.one(out, lent),
            None => Ok(()),
        }
    }

    // Appends it for the parts.
    fn one(self, out: &mut String, marker: Marker<'_>) -> Result<(), AllocError> {
        let (generic, gap) = marker.head(self.what);
        let words = [
            ("generic", generic),
            ("what", self.what),
            ("parts", marker.parts),
            ("gap", gap),
            ("name", marker.name),
            ("field", marker.field),
            ("term", self.term),
            ("body", self.body),
            (
                "clause",
                if generic.is_empty() {
                    " {"
                } else {
                    self.clause
                },
            ),
        ];
        fill(out, self.template, &words)
    }
}

/// What a marker says the number of.
#[derive(Clone, Copy, PartialEq, Eq)]
pub enum Amount {
    /// The items of a field.
    Items,
    /// Its bits.
    Bits,
}

impl Amount {
    // The trait, and that of its law.
    fn traits(self) -> (&'static str, &'static str) {
        match self {
            Amount::Items => ("CountOf", "CountOfLaw"),
            Amount::Bits => ("SizeOf", "SizeOfLaw"),
        }
    }

    // The template of its implementation.
    fn template(self) -> &'static str {
        match self {
            Amount::Items => COUNT,
            Amount::Bits => SIZE,
        }
    }

    // The words of its comment.
    fn words(self) -> (&'static str, &'static str) {
        match self {
            Amount::Items => ("How many", "there are"),
            Amount::Bits => ("How many bits", "takes"),
        }
    }
}

// How many items follow the parts.
const COUNT: &str = "
impl$generic$ CountOf<$parts$>$gap$for $name$ {
    ghost count_of = { λ p. $term$ };

    fn count(parts: &$parts$) -> Option<usize> {
$body$
    }
}
";

// How many bits follow the parts.
const SIZE: &str = "
impl$generic$ SizeOf<$parts$>$gap$for $name$ {
    ghost size_of = { λ p. $term$ };

    fn size(parts: &$parts$) -> Option<usize> {
$body$
    }
}
";

/// Appends the marker of a count or of a size: how many items or bits of a field follow the parts.
pub fn count<'m>(
    out: &mut String,
    amount: Amount,
    marker: Marker<'m>,
    computer: &Computer<'_, '_>,
    computed: Computed<'m>,
) -> Result<(), AllocError> {
    let (what, then) = amount.words();
    declared(out, marker, what, then, computed.code)?;
    let (what, law) = amount.traits();
    let implementation = Implementation {
        what,
        template: amount.template(),
        term: number_term(computer, computed)?,
        body: number_body(computer, computed)?,
        clause: "",
    };
    implementation.print(out, marker)?;
    alike(out, law, marker, computer)
}

// How many there are, in ghost text.
fn number_term<'a>(
    computer: &Computer<'_, 'a>,
    computed: Computed<'_>,
) -> Result<&'a str, AllocError> {
    let mut text = String::new(computer.arena.alloc());
    for (term, _) in &computer.guards {
        fill(&mut text, "if $term$ then None else ", &[("term", *term)])?;
    }
    let some = if computed.term.contains(' ') {
        "Some ($term$)"
    } else {
        "Some $term$"
    };
    fill(&mut text, some, &[("term", computed.term)])?;
    computer.arena.keep(text.as_str())
}

// The body of the function that returns how many there are.
fn number_body<'a>(
    computer: &Computer<'_, 'a>,
    computed: Computed<'_>,
) -> Result<&'a str, AllocError> {
    let code = computed.code;
    let locals = locals(computer, true)?;
    let returns = returns(computer)?;
    computer
        .arena
        .print(format_args!("{locals}{returns}        Some({code})"))
}

// A return where there is no number.
const RETURN: &str = "        if $guard$ {
            return None;
        }
";

// The returns where there is no number.
fn returns<'a>(computer: &Computer<'_, 'a>) -> Result<&'a str, AllocError> {
    let mut text = String::new(computer.arena.alloc());
    for (_, guard) in &computer.guards {
        fill(&mut text, RETURN, &[("guard", *guard)])?;
    }
    computer.arena.keep(text.as_str())
}

// Whether a field follows the parts.
const CONDITION: &str = "
impl$generic$ Condition<$parts$>$gap$for $name$ {
    ghost shows = { λ p. $term$ };

    fn shows(parts: &$parts$) -> bool {
$body$
    }
}
";

/// Appends the marker of a condition: whether a field follows the parts.
pub fn condition<'m>(
    out: &mut String,
    marker: Marker<'m>,
    computer: &Computer<'_, '_>,
    computed: Computed<'m>,
) -> Result<(), AllocError> {
    declared(out, marker, "Whether", "is there", computed.code)?;
    let implementation = Implementation {
        what: "Condition",
        template: CONDITION,
        term: computed.term,
        body: truth(computer, computed)?,
        clause: "",
    };
    implementation.print(out, marker)?;
    alike(out, "ConditionLaw", marker, computer)
}

// Which item of a list is the last.
const LAST: &str = "
impl$generic$ Last<$parts$>$gap$for $name$ {
    ghost last_of = { λ p. $term$ };

    fn is_last(item: &$parts$) -> bool {
$body$
    }
}
";

/// Appends the marker of the end of a list: which item is the last.
pub fn last<'m>(
    out: &mut String,
    marker: Marker<'m>,
    computer: &Computer<'_, '_>,
    computed: Computed<'m>,
) -> Result<(), AllocError> {
    declared(out, marker, "Which item of", "is the last", computed.code)?;
    let implementation = Implementation {
        what: "Last",
        template: LAST,
        term: computed.term,
        body: truth(computer, computed)?,
        clause: "",
    };
    implementation.one(out, marker)?;
    alike(out, "LastLaw", marker, computer)
}

// Which parts pass.
const CHECK: &str = "
impl$generic$ Check<$parts$>$gap$for $name$ {
    ghost passes = { λ p. $term$ };

    ghost text = { codes \"$field$\" };

    fn passes(parts: &$parts$) -> bool {
$body$
    }

    fn text() -> &'static str$clause$
        \"$field$\"
    }
}
";

/// Appends the marker of a check of parts.
pub fn check<'m>(
    out: &mut String,
    marker: Marker<'m>,
    computer: &Computer<'_, '_>,
    computed: Computed<'m>,
) -> Result<(), AllocError> {
    declared(out, marker, "What", "has to be", computed.code)?;
    let implementation = Implementation {
        what: "Check",
        template: CHECK,
        term: computed.term,
        body: truth(computer, computed)?,
        clause: text_clause(computer, marker.field)?,
    };
    implementation.print(out, marker)?;
    alike(out, "CheckLaw", marker, computer)
}

// What begins the body of the text of a check, for lent parts.
fn text_clause<'a>(computer: &Computer<'_, 'a>, field: &str) -> Result<&'a str, AllocError> {
    computer.arena.print(format_args!(
        "\n        ensures {{ result.now ≡ codes \"{field}\" }}\n    {{"
    ))
}

// Which id the parts say.
const ID: &str = "
impl$generic$ IdOf<$parts$>$gap$for $name$ {
    ghost id_of = { λ p. $term$ };

    fn id(parts: &$parts$) -> u64 {
        $body$    }
}
";

/// Appends the marker of an id: which kind a field is, by a number of the parts.
pub fn id<'m>(
    out: &mut String,
    marker: Marker<'m>,
    computer: &Computer<'_, '_>,
    computed: Computed<'m>,
) -> Result<(), AllocError> {
    declared(out, marker, "Which kind", "is", computed.code)?;
    let implementation = Implementation {
        what: "IdOf",
        template: ID,
        term: computed.term,
        body: number_as(computer, "u64", "\n")?,
        clause: "",
    };
    implementation.print(out, marker)?;
    alike(out, "IdOfLaw", marker, computer)
}

/// What the width of a number counts.
#[derive(Clone, Copy, PartialEq, Eq)]
pub enum Unit {
    /// Bits.
    Bits,
    /// Bytes.
    Bytes,
}

/// The context of a number whose width a field says.
#[derive(Clone, Copy)]
pub struct Under {
    /// Whether its high byte is first.
    pub is_big: bool,
    /// Whether its low bits are first.
    pub is_low_first: bool,
    /// What its width counts.
    pub unit: Unit,
}

impl Under {
    /// The type of the context.
    pub fn kind(self) -> &'static str {
        match (self.unit, self.is_low_first) {
            (Unit::Bits, false) => "(Endian, BitSize)",
            (Unit::Bits, true) => "(Endian, BitSize, Order)",
            (Unit::Bytes, false) => "(Endian, ByteSize)",
            (Unit::Bytes, true) => "(Endian, ByteSize, Order)",
        }
    }

    // The name of its endian, of the type of its width, and what ends it in ghost text and in code.
    fn words(self) -> (&'static str, &'static str, [&'static str; 2]) {
        let endian = if self.is_big { "Big" } else { "Little" };
        let size = match self.unit {
            Unit::Bits => "BitSize",
            Unit::Bytes => "ByteSize",
        };
        let end = if self.is_low_first {
            [", Lsb0", ", Order::Lsb0"]
        } else {
            ["", ""]
        };
        (endian, size, end)
    }
}

/// Appends the marker of the context of a number: how wide it is, as a field of the parts says.
pub fn context<'m>(
    out: &mut String,
    under: Under,
    marker: Marker<'m>,
    computer: &Computer<'_, '_>,
    computed: Computed<'m>,
) -> Result<(), AllocError> {
    let what = match under.unit {
        Unit::Bits => "How many bits",
        Unit::Bytes => "How many bytes",
    };
    declared(out, marker, what, "has", computed.code)?;
    context_of(out, under, marker, computer, computed)?;
    if let Some(lent) = marker.of_lent() {
        context_of(out, under, lent, computer, computed)?;
    }
    let types = types_of(computer, marker, under)?;
    let marker = Marker {
        parts: types,
        ..marker
    };
    alike(out, "ContextOfLaw", marker, computer)
}

// The types of the parts and of the context.
fn types_of<'a>(
    computer: &Computer<'_, 'a>,
    marker: Marker<'_>,
    under: Under,
) -> Result<&'a str, AllocError> {
    let (parts, kind) = (marker.parts, under.kind());
    computer.arena.print(format_args!("{parts}, {kind}"))
}

// Which context the parts say.
const CONTEXT: &str = "
impl$generic$ ContextOf<$types$>$gap$for $name$ {
    ghost context_of = { λ p. ($endian$, record { 0 = $term$ }$term_end$) };

    fn context(parts: &$parts$) -> $kind$ {
        (Endian::$endian$, $size$($number$)$code_end$)
    }
}
";

// Appends which context the parts say.
fn context_of<'m>(
    out: &mut String,
    under: Under,
    marker: Marker<'m>,
    computer: &Computer<'_, '_>,
    computed: Computed<'m>,
) -> Result<(), AllocError> {
    let types = types_of(computer, marker, under)?;
    let both = Marker {
        parts: types,
        ..marker
    };
    let (generic, gap) = both.head("ContextOf");
    let (endian, size, [term_end, code_end]) = under.words();
    let number = number_as(computer, "usize", "")?;
    let words = [
        ("generic", generic),
        ("types", types),
        ("gap", gap),
        ("name", marker.name),
        ("endian", endian),
        ("term", computed.term),
        ("term_end", term_end),
        ("parts", marker.parts),
        ("kind", under.kind()),
        ("size", size),
        ("number", number),
        ("code_end", code_end),
    ];
    fill(out, CONTEXT, &words)
}

// A constant, with its law.
const CONSTANT: &str = "
/// The $field$.
#[derive(Debug, PartialEq, Eq, Drop)]
pub struct $name$;

impl$generic$ Constant<$parts$>$gap$for $name$ {
    ghost value = { $front$$value$$back$ };

    ghost text = { codes \"$field$\" };

    fn value() -> $parts$ {
        $constructor$$open$$value$$close$
    }

    fn is_value(part: &$parts$) -> bool {
        $held$ == $value$
    }

    fn text() -> &'static str {
        \"$field$\"
    }
}

impl$generic$ ConstantLaw<$parts$>$law_gap$for $name$ {
    ghost alike = { λ v e. rw e refl };
}
";

/// Appends the marker of a constant: the value of the parts, in its own constructor if it has one.
pub fn constant<'m>(
    out: &mut String,
    marker: Marker<'m>,
    constructor: &'m str,
    value: &'m str,
) -> Result<(), AllocError> {
    let (generic, gap) = marker.head("Constant");
    let ([front, back], [open, close], held) = if constructor.is_empty() {
        (["", ""], ["", ""], "*part")
    } else {
        (["record { 0 = ", " }"], ["(", ")"], "part.0")
    };
    let words = [
        ("field", marker.field),
        ("name", marker.name),
        ("generic", generic),
        ("parts", marker.parts),
        ("gap", gap),
        ("front", front),
        ("value", value),
        ("back", back),
        ("constructor", constructor),
        ("open", open),
        ("close", close),
        ("held", held),
        ("law_gap", marker.head("ConstantLaw").1),
    ];
    fill(out, CONSTANT, &words)
}

// A constant of padding, with its law.
const ZEROS: &str = "
/// Padding.
#[derive(Debug, PartialEq, Eq, Drop)]
pub struct $name$;

impl<const N: usize> Constant<$part$<u64, N>> for $name$ {
    ghost value = { record { 0 = 0 } };

    ghost text = { codes \"padding\" };

    fn value() -> $part$<u64, N> {
        $part$(0)
    }

    fn is_value(part: &$part$<u64, N>) -> bool {
        part.0 == 0
    }

    fn text() -> &'static str {
        \"padding\"
    }
}

impl<const N: usize> ConstantLaw<$part$<u64, N>> for $name$ {
    ghost alike = { λ v e. rw e refl };
}
";

/// The constants of padding with the high bits first, and with the low bits first.
pub fn zeros(out: &mut String, part: &str) -> Result<(), AllocError> {
    let name = if part == "Msb" { "Zeros" } else { "LowZeros" };
    fill(out, ZEROS, &[("name", name), ("part", part)])
}

// The struct, with what it says of the field.
const DECLARED: &str = "
/// $what$ `$field$` $then$$open$$code$$close$.
#[derive(Debug, PartialEq, Eq, Drop)]
pub struct $name$;
";

// Appends the struct, with what it says of the field: also the code, if the line has room for it.
fn declared<'m>(
    out: &mut String,
    marker: Marker<'m>,
    what: &'m str,
    then: &'m str,
    code: &'m str,
) -> Result<(), AllocError> {
    let columns = "///  `` : ``."
        .len()
        .saturating_add(what.chars().count())
        .saturating_add(marker.field.chars().count())
        .saturating_add(then.chars().count())
        .saturating_add(code.chars().count());
    let has_room = columns <= 100;
    let words = [
        ("what", what),
        ("field", marker.field),
        ("then", then),
        ("open", if has_room { ": `" } else { "" }),
        ("code", if has_room { code } else { "" }),
        ("close", if has_room { "`" } else { "" }),
        ("name", marker.name),
    ];
    fill(out, DECLARED, &words)
}

// A local for a field.
const LOCAL: &str = "        let $name$ = $place$$cast$;
";

// A local for each field that is used.
fn locals<'a>(computer: &Computer<'_, 'a>, is_cast: bool) -> Result<&'a str, AllocError> {
    let mut text = String::new(computer.arena.alloc());
    for index in &computer.used {
        if let Some(place) = computer.places.get(*index) {
            let is_number = place.number != Some("bool") && place.number != Some("usize");
            let cast = if is_cast && is_number {
                " as usize"
            } else {
                ""
            };
            let words = [
                ("name", place.name),
                ("place", reached(computer, *place)?),
                ("cast", cast),
            ];
            fill(&mut text, LOCAL, &words)?;
        }
    }
    computer.arena.keep(text.as_str())
}

// The field that is used, as a number of this type, and what ends it.
fn number_as<'a>(
    computer: &Computer<'_, 'a>,
    kind: &'a str,
    end: &'a str,
) -> Result<&'a str, AllocError> {
    let mut text = String::new(computer.arena.alloc());
    for index in &computer.used {
        if let Some(place) = computer.places.get(*index) {
            let is_whole = place.number == Some(kind);
            let words = [
                ("place", reached(computer, *place)?),
                ("as", if is_whole { "" } else { " as " }),
                ("kind", if is_whole { "" } else { kind }),
                ("end", end),
            ];
            fill(&mut text, "$place$$as$$kind$$end$", &words)?;
        }
    }
    computer.arena.keep(text.as_str())
}

// Where a field is in the parts.
fn reached<'a>(computer: &Computer<'_, 'a>, place: Place<'_>) -> Result<&'a str, AllocError> {
    let (from, path) = (computer.from, place.path);
    let star = if path.is_empty() { "*" } else { "" };
    computer.arena.print(format_args!("{star}{from}{path}"))
}

// The body of a function that returns a truth value.
fn truth<'a>(computer: &Computer<'_, 'a>, computed: Computed<'_>) -> Result<&'a str, AllocError> {
    let code = computed.code;
    if let [index] = computer.used.as_slice() {
        if let Some(place) = computer.places.get(*index) {
            if place.name == code {
                let field = reached(computer, *place)?;
                return computer.arena.print(format_args!("        {field}"));
            }
        }
    }
    let locals = locals(computer, computer.is_mixed)?;
    computer.arena.print(format_args!("{locals}        {code}"))
}

// That equal parts give equal results.
const ALIKE: &str = "
impl$generic$ $what$<$parts$>$gap$for $name$ {
    ghost alike = { λ v w e. $term$ };
}
";

// Appends the law that equal parts give equal results.
fn alike(
    out: &mut String,
    what: &str,
    marker: Marker<'_>,
    computer: &Computer<'_, '_>,
) -> Result<(), AllocError> {
    let equations = equations(computer)?;
    let term = match computer.used.len() {
        0 => "refl",
        1 => computer.arena.print(format_args!("rw {equations} refl"))?,
        _ => computer.arena.print(format_args!("rw ({equations}) refl"))?,
    };
    let implementation = Implementation {
        what,
        template: ALIKE,
        term,
        body: "",
        clause: "",
    };
    implementation.one(out, marker)
}

// The equation of each field that is used, from that of the parts.
fn equations<'a>(computer: &Computer<'_, 'a>) -> Result<&'a str, AllocError> {
    let mut text = String::new(computer.arena.alloc());
    for (i, index) in computer.used.iter().enumerate() {
        if let Some(place) = computer.places.get(*index) {
            let comma = if i > 0 { ", " } else { "" };
            let words = [("comma", comma), ("same", place.same)];
            fill(&mut text, "$comma$e$same$", &words)?;
        }
    }
    computer.arena.keep(text.as_str())
}

/// The number of at most eight bytes, the high one first.
pub fn number_of(bytes: &[u8]) -> u64 {
    let mut number = 0u64;
    for byte in bytes {
        number = (number << 8) | u64::from(*byte);
    }
    number
}

/// The constructor and the type of a number of so many bytes.
pub fn magic_kind<'a>(
    arena: &'a Arena,
    count: usize,
    order: Order,
) -> Result<(&'static str, &'a str), AllocError> {
    let bits = count.saturating_mul(8);
    Ok(match (order, count) {
        (Order::Lsb, _) => ("LsbBe", arena.print(format_args!("LsbBe<u64, {bits}>"))?),
        (Order::Msb, 1) => ("", "u8"),
        (Order::Msb, 2 | 4 | 8) => ("Be", arena.print(format_args!("Be<u{bits}>"))?),
        (Order::Msb, _) => ("Msb", arena.print(format_args!("Msb<u64, {bits}>"))?),
    })
}
