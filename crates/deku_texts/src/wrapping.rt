//! How fields are laid out: the parts around their values.

use deku_attributes::model::{Endian, Field, Order};
use deku_attributes::reading::{address_bits, bits_of};
use deku_description::syntax::{Length, Type};
use deku_tokens::arena::Arena;
use std::alloc::AllocError;
use std::fmt::Write as _;

/// How a value is laid out: the part around it, if there is one.
#[derive(Clone, Copy)]
pub struct Wrapping {
    /// The name of the part, or nothing.
    pub around: &'static str,
    /// The bits that it names.
    pub bits: Option<u64>,
}

/// What a tuple cuts from the word that it reads.
#[derive(Clone, Copy)]
pub struct Cut {
    /// How many bits.
    pub bits: u64,
    /// In which order.
    pub order: Order,
}

const BARE: Wrapping = Wrapping {
    around: "",
    bits: None,
};

/// How a field is laid out that depends on no other field.
pub fn wrapping_of(field: &Field<'_>) -> Wrapping {
    if is_of_numbers(&field.kind) {
        let whole = common_bits(&field.kind).unwrap_or(0);
        return number(field.layout.order, field.bits, whole, is_big(field));
    }
    BARE
}

/// Whether the numbers of a field have their high byte first.
pub fn is_big(field: &Field<'_>) -> bool {
    match field.layout.endian {
        Endian::Big => true,
        Endian::Unsaid | Endian::Little | Endian::Named(_) => false,
    }
}

/// How a number of a type of this many bits is laid out.
pub fn number(order: Order, bits: Option<u64>, whole: u64, is_big: bool) -> Wrapping {
    let around = match (order, bits, is_big) {
        (Order::Lsb, _, true) => "LsbBe",
        (Order::Lsb, _, false) => "Lsb",
        (Order::Msb, Some(_), true) => "Msb",
        (Order::Msb, Some(_), false) => "MsbLe",
        (Order::Msb, None, _) if whole == 8 => "",
        (Order::Msb, None, true) => "Be",
        (Order::Msb, None, false) => "Le",
    };
    let bits = match order {
        Order::Lsb => Some(bits.unwrap_or(whole)),
        Order::Msb => bits,
    };
    Wrapping { around, bits }
}

/// How many parts the field is if no other field depends on it. Each item of a tuple is a part.
pub fn count_of(field: &Field<'_>) -> usize {
    if wrapping_of(field).around.is_empty() {
        items_of(&field.kind)
    } else {
        1
    }
}

fn items_of(kind: &Type<'_>) -> usize {
    let Type::Tuple(parts) = kind else {
        return 1;
    };
    let mut count = 0usize;
    for part in *parts {
        count = count.saturating_add(items_of(part));
    }
    count
}

/// Whether a type is made of numbers, truth values and addresses alone.
pub fn is_of_numbers(kind: &Type<'_>) -> bool {
    match kind {
        Type::Name(name) => bits_of(name.text).is_some() || address_bits(name.text).is_some(),
        Type::Array(item, _) => is_of_numbers(item),
        Type::Tuple(parts) => {
            for part in *parts {
                if !is_of_numbers(part) {
                    return false;
                }
            }
            !parts.is_empty()
        }
        Type::Of(_, _) => false,
    }
}

/// Whether a type is made of numbers with a sign, or of some beside others.
pub fn has_sign(kind: &Type<'_>) -> bool {
    match kind {
        Type::Name(name) => name.text.starts_with('i') && bits_of(name.text).is_some(),
        Type::Array(item, _) => has_sign(item),
        Type::Tuple(parts) => {
            for part in *parts {
                if has_sign(part) {
                    return true;
                }
            }
            false
        }
        Type::Of(_, _) => false,
    }
}

/// What a tuple cuts a field from, if it can be read with its neighbours as one word: it is a
/// number, an address, or a truth value of one bit, and its bytes are in the order of its bits, or
/// whole and in reverse.
pub fn cut_of(field: &Field<'_>) -> Option<Cut> {
    let Type::Name(name) = field.kind else {
        return None;
    };
    let Wrapping { around, bits } = wrapping_of(field);
    let bits = match bits {
        Some(bits) => bits,
        None => common_bits(&field.kind)?,
    };
    let is_whole_bool = name.text == "bool" && bits != 1;
    let is_turned = matches!(around, "Le" | "MsbLe" | "LsbBe");
    if bits == 0 || is_whole_bool || (is_turned && bits > 8 && bits % 8 != 0) {
        return None;
    }
    let order = field.layout.order;
    Some(Cut { bits, order })
}

/// The bits of each number that a type is made of, if they are all as many.
pub fn common_bits(kind: &Type<'_>) -> Option<u64> {
    match kind {
        Type::Name(name) => match bits_of(name.text) {
            Some(bits) => Some(bits),
            None => address_bits(name.text),
        },
        Type::Array(item, _) => common_bits(item),
        Type::Tuple(parts) => {
            let mut common = None;
            for part in *parts {
                let bits = common_bits(part)?;
                if common.unwrap_or(bits) != bits {
                    return None;
                }
                common = Some(bits);
            }
            common
        }
        Type::Of(_, _) => None,
    }
}

/// The type of a field's part.
pub fn part_kind<'a>(arena: &'a Arena, field: &Field<'_>) -> Result<&'a str, AllocError> {
    let Wrapping { around, bits } = wrapping_of(field);
    let mut out = String::new(arena.alloc());
    if around.is_empty() {
        item(&mut out, &field.kind, field)?;
        return arena.keep(out.as_str());
    }
    write!(out, "{around}<")?;
    plain(&mut out, &field.kind)?;
    if let Some(bits) = bits {
        write!(out, ", {bits}")?;
    }
    out.push('>')?;
    arena.keep(out.as_str())
}

/// The type of a field as the module has it.
pub fn field_kind<'a>(arena: &'a Arena, field: &Field<'_>) -> Result<&'a str, AllocError> {
    let mut out = String::new(arena.alloc());
    if wrapping_of(field).around.is_empty() {
        item(&mut out, &field.kind, field)?;
    } else {
        plain(&mut out, &field.kind)?;
    }
    arena.keep(out.as_str())
}

/// Appends a type as it is described.
pub fn plain(out: &mut String, kind: &Type<'_>) -> Result<(), AllocError> {
    match kind {
        Type::Name(name) => out.push_str(name.text),
        Type::Of(name, item) => {
            let name = name.text;
            write!(out, "{name}<")?;
            plain(out, item)?;
            out.push('>')
        }
        Type::Array(item, length) => {
            out.push('[')?;
            plain(out, item)?;
            end_of_array(out, *length)
        }
        Type::Tuple(parts) => {
            out.push('(')?;
            for (i, part) in parts.iter().enumerate() {
                if i > 0 {
                    out.push_str(", ")?;
                }
                plain(out, part)?;
            }
            out.push_str(end_of_tuple(parts))
        }
    }
}

/// Appends a type of parts: each number with the part around it.
pub fn item(out: &mut String, kind: &Type<'_>, field: &Field<'_>) -> Result<(), AllocError> {
    match kind {
        Type::Name(name) => named(out, name.text, field),
        Type::Of(name, inner) => {
            let name = name.text;
            write!(out, "{name}<")?;
            item(out, inner, field)?;
            out.push('>')
        }
        Type::Array(inner, length) => {
            out.push('[')?;
            item(out, inner, field)?;
            end_of_array(out, *length)
        }
        Type::Tuple(parts) => {
            out.push('(')?;
            for (i, part) in parts.iter().enumerate() {
                if i > 0 {
                    out.push_str(", ")?;
                }
                item(out, part, field)?;
            }
            out.push_str(end_of_tuple(parts))
        }
    }
}

// Appends a name with the part around it.
fn named(out: &mut String, name: &str, field: &Field<'_>) -> Result<(), AllocError> {
    let whole = match bits_of(name) {
        Some(bits) => Some(bits),
        None => address_bits(name),
    };
    let Some(whole) = whole else {
        return out.push_str(name);
    };
    let Wrapping { around, bits } = number(field.layout.order, field.bits, whole, is_big(field));
    match (around, bits) {
        ("", _) => out.push_str(name),
        (around, None) => write!(out, "{around}<{name}>"),
        (around, Some(bits)) => write!(out, "{around}<{name}, {bits}>"),
    }
}

// What follows the types of a tuple.
fn end_of_tuple(parts: &[Type<'_>]) -> &'static str {
    if parts.len() == 1 { ",)" } else { ")" }
}

fn end_of_array(out: &mut String, length: Length<'_>) -> Result<(), AllocError> {
    match length {
        Length::Number(number) => write!(out, "; {number}]"),
        Length::Name(name) => {
            let name = name.text;
            write!(out, "; {name}]")
        }
    }
}

/// The type of an item of a field and the way to it in its part, if it is one number or one truth
/// value.
pub fn number_in<'a>(item: &Type<'a>, field: &Field<'_>) -> (Option<&'a str>, &'static str) {
    let Type::Name(name) = item else {
        return (None, "");
    };
    let Some(whole) = bits_of(name.text) else {
        return (None, "");
    };
    let around = number(field.layout.order, field.bits, whole, is_big(field)).around;
    (Some(name.text), if around.is_empty() { "" } else { ".0" })
}

/// The type of a field, if it is one number or one truth value.
pub fn number_kind<'a>(field: &Field<'a>) -> Option<&'a str> {
    match &field.kind {
        Type::Name(name) if bits_of(name.text).is_some() => Some(name.text),
        _ => None,
    }
}
