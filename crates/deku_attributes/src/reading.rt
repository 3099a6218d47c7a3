//! What attributes say, and what types are.

use crate::model::Id;
use deku_description::syntax::{Attribute, Constant, Expression, Head, Length, Type, Value};
use deku_tokens::literal::integer;
use deku_tokens::place::Span;
use deku_tokens::token::{Kind, Token};

/// The first attribute of a name.
pub(crate) fn said<'a>(head: &Head<'a>, name: &str) -> Option<Attribute<'a>> {
    for attribute in head.attributes {
        if attribute.name.text == name {
            return Some(*attribute);
        }
    }
    None
}

/// What is between the quotes of a text.
pub(crate) fn text_in<'a>(value: Option<Value<'a>>) -> Option<&'a str> {
    let token = value?.token;
    if token.kind != Kind::Text {
        return None;
    }
    token.text.strip_prefix("\"")?.strip_suffix("\"")
}

/// The whole number that a value is, with or without quotes.
pub(crate) fn number_in(value: Option<Value<'_>>) -> Option<u64> {
    let value = value?;
    if value.is_negative {
        return None;
    }
    match value.token.kind {
        Kind::Integer => integer(value.token.text),
        Kind::Text => integer(text_in(Some(value))?.trim()),
        _ => None,
    }
}

/// The ids of a pattern: `_`, a whole number, or a range of them.
pub(crate) fn pattern_in(text: &str) -> Option<Id> {
    if text.trim() == "_" {
        return Some(Id::Rest);
    }
    if let Some((low, high)) = text.split_once("..=") {
        return range(integer(low.trim())?, integer(high.trim())?);
    }
    if let Some((low, high)) = text.split_once("..") {
        return range(integer(low.trim())?, integer(high.trim())?.checked_sub(1)?);
    }
    Some(Id::Number(integer(text.trim())?))
}

// The ids from one up to another, if there are any.
fn range(low: u64, high: u64) -> Option<Id> {
    if low <= high {
        Some(Id::Range(low, high))
    } else {
        None
    }
}

/// The bits of a number of a type.
///
/// ```text
/// bits_of("u16")    // Some(16)
/// ```
pub fn bits_of(name: &str) -> Option<u64> {
    match name {
        "u8" | "i8" | "bool" => Some(8),
        "u16" | "i16" => Some(16),
        "u32" | "i32" => Some(32),
        "u64" | "i64" | "usize" | "isize" => Some(64),
        "u128" | "i128" => Some(128),
        _ => None,
    }
}

/// The bits of an internet address of a type.
pub fn address_bits(name: &str) -> Option<u64> {
    match name {
        "Ipv4Addr" => Some(32),
        "Ipv6Addr" => Some(128),
        _ => None,
    }
}

/// The bits of the numbers that a type is made of, if it is made of numbers of one type.
pub(crate) fn number_bits(kind: &Type<'_>) -> Option<u64> {
    match kind {
        Type::Name(name) => bits_of(name.text),
        Type::Of(_, item) => number_bits(item),
        Type::Array(item, _) => number_bits(item),
        Type::Tuple(_) => None,
    }
}

/// The bits of a value of a type, if the type alone says it.
pub(crate) fn whole_bits(kind: &Type<'_>, bits: Option<u64>) -> Option<u64> {
    match kind {
        Type::Name(name) => match bits_of(name.text) {
            Some(whole) => Some(bits.unwrap_or(whole)),
            None => address_bits(name.text),
        },
        Type::Array(item, Length::Number(length)) => {
            whole_bits(item, bits)?.checked_mul(*length)
        }
        Type::Array(_, Length::Name(_)) | Type::Of(_, _) | Type::Tuple(_) => None,
    }
}

/// Whether a type is of this generic type of std.
pub(crate) fn is_of(kind: &Type<'_>, name: &str) -> bool {
    match kind {
        Type::Of(outer, _) => outer.is_name(name),
        _ => false,
    }
}

/// Names that an expression may have.
#[derive(Drop)]
pub(crate) struct Scope<'a> {
    /// The fields in front, the values of the context, and constants.
    pub(crate) names: Vec<&'a str>,
    /// Whether it may have any other too.
    pub(crate) is_open: bool,
}

impl<'a> Scope<'a> {
    fn has(&self, name: &str) -> bool {
        self.is_open || self.names.contains(&name)
    }
}

/// The first name in an expression that is not in the scope.
pub(crate) fn foreign_name<'a>(
    expression: &Expression<'a>,
    scope: &Scope<'a>,
) -> Option<Token<'a>> {
    match expression {
        Expression::Number(_, _) | Expression::Truth(_, _) => None,
        Expression::Name(name) | Expression::Part(name, _) => {
            if scope.has(name.text) {
                None
            } else {
                Some(*name)
            }
        }
        Expression::Not(value) | Expression::Cast(value, _) => foreign_name(value, scope),
        Expression::Both(_, left, right) => match foreign_name(left, scope) {
            Some(name) => Some(name),
            None => foreign_name(right, scope),
        },
    }
}

/// Where an expression is, by its last name or number.
pub fn span_of(expression: &Expression<'_>) -> Span {
    match expression {
        Expression::Number(_, span) | Expression::Truth(_, span) => *span,
        Expression::Name(name) | Expression::Part(name, _) => name.span,
        Expression::Not(value) | Expression::Cast(value, _) => span_of(value),
        Expression::Both(_, left, _) => span_of(left),
    }
}

/// The number that an expression is, if it is one or the name of a constant.
pub fn literal(expression: &Expression<'_>, constants: &[Constant<'_>]) -> Option<u64> {
    match expression {
        Expression::Number(number, _) => Some(*number),
        Expression::Name(name) => {
            let constant = constants.iter().find(|it| it.name.text == name.text)?;
            Some(constant.value)
        }
        _ => None,
    }
}

/// Whether an expression names a field.
pub fn names(expression: &Expression<'_>, field: &str) -> bool {
    match expression {
        Expression::Number(_, _) | Expression::Truth(_, _) => false,
        Expression::Name(name) | Expression::Part(name, _) => name.text == field,
        Expression::Not(value) | Expression::Cast(value, _) => names(value, field),
        Expression::Both(_, left, right) => names(left, field) || names(right, field),
    }
}

/// Whether an expression is the name of a field.
pub fn is_name(expression: &Expression<'_>, field: &str) -> bool {
    match expression {
        Expression::Name(name) => name.text == field,
        _ => false,
    }
}
