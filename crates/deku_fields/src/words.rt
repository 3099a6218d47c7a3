//! Words of a command line: fields, and fields with their values.

ghost use Rattle.std.specs.Prelude.{◌≡◌, ◌↔◌, ◌++◌, ◌<◌, ◌^◌, ℕ, List};
ghost use Rattle.std.specs.Prelude.{Some, IsTrue, MatchOption, SomeIff};
ghost use Rattle.std.specs.Str.Parse.{IsNumeral, digits_value};
ghost use Rattle.deku_fields.specs.declared.list.Kind.{Kind as FieldKind};
ghost use Rattle.deku_fields.specs.declared.list.Number.{Number as FieldNumber};
ghost use Rattle.deku_fields.specs.declared.list.Field.{Field as ListField};
ghost use Rattle.deku_fields.specs.declared.list.Item.{Item as ListItem};
ghost use Rattle.deku_num.specs.declared.ctx.Size.{Size as FieldSize};
ghost use Rattle.deku_fields.specs.Naming.{kind_name, BeginsOption, SplitsEndian, SplitsOrder};
ghost use Rattle.deku_fields.specs.Naming.{NamesNumber, NamesSize, NamesField, NamesItem};

use crate::list::{Field, Item, Kind, Number};
use deku::ctx::{Endian, Layout, Order, Size};

/// Parses the field that a word names: `kind[,big|,little][,msb|,lsb][,bitsN|,bytesN]`. Returns
/// `None` if it names no field.
///
/// ```text
/// parse_field("u8,big,bits4")       // four bits of a `u8`, big and `Msb0`
/// parse_field("u8,bits4,big")       // None: the size comes last
/// ```
pub fn parse_field(word: &str) -> Option<Field>
    ensures { (f : ListField) → (result ≡ Some f) ↔ NamesField word.now f }
{
    let (kind, options) = split_kind(word)?;
    let (endian, options) = split_endian(options);
    let (order, size) = split_order(options);
    let size = parse_size(size)?;
    let layout = Layout {
        endian,
        order,
        size,
    };
    Some(Field { kind, layout })
}

/// Parses the item that a word names: a field, `=` and a value in decimal digits, with or without a
/// minus. Returns `None` if it names no item.
///
/// ```text
/// parse_item("u16,big=49406")       // C0 FE
/// parse_item("u16,big=")            // None: no digit
/// ```
pub fn parse_item(word: &str) -> Option<Item>
    ensures { (i : ListItem) → (result ≡ Some i) ↔ NamesItem word.now i }
{
    let (field, value) = word.split_once('=')?;
    let field = parse_field(field)?;
    let value = parse_number(value, field.kind)?;
    Some(Item { field, value })
}

// The kind with this name.
fn parse_kind(name: &str) -> Option<Kind>
    ensures { MatchOption result ((k : FieldKind) → name.now ≡ kind_name k → ⊥)
        (λ k. name.now ≡ kind_name k) }
{
    match name {
        "u8" => Some(Kind::U8),
        "u16" => Some(Kind::U16),
        "u32" => Some(Kind::U32),
        "u64" => Some(Kind::U64),
        "u128" => Some(Kind::U128),
        "usize" => Some(Kind::Usize),
        "i8" => Some(Kind::I8),
        "i16" => Some(Kind::I16),
        "i32" => Some(Kind::I32),
        "i64" => Some(Kind::I64),
        "i128" => Some(Kind::I128),
        "isize" => Some(Kind::Isize),
        _ => None,
    }
}

// The kind before the first comma, and the text from there on.
fn split_kind(word: &str) -> Option<(Kind, &str)>
    ensures { MatchOption result ((k : FieldKind) (rest : List ℕ) → word.now ≡ kind_name k ++ rest
        → BeginsOption rest → ⊥) (λ p. (word.now ≡ kind_name p.0 ++ p.1.now)
        × BeginsOption p.1.now) }
{
    let end = word.find(',').unwrap_or(word.len());
    match parse_kind(&word[..end]) {
        Some(kind) => Some((kind, &word[end..])),
        None => None,
    }
}

// The endian at the start of the text, or little if there is none, and the text after it.
fn split_endian(text: &str) -> (Endian, &str)
    ensures { SplitsEndian text.now result.0 result.1.now }
{
    if let Some(rest) = behind(text, ",big") {
        return (Endian::Big, rest);
    }
    if let Some(rest) = behind(text, ",little") {
        return (Endian::Little, rest);
    }
    (Endian::Little, text)
}

// The order at the start of the text, or `Msb0` if there is none, and the text after it.
fn split_order(text: &str) -> (Order, &str)
    ensures { SplitsOrder text.now result.0 result.1.now }
{
    if let Some(rest) = behind(text, ",lsb") {
        return (Order::Lsb0, rest);
    }
    if let Some(rest) = behind(text, ",msb") {
        return (Order::Msb0, rest);
    }
    (Order::Msb0, text)
}

// The text after `front`, if it begins with that.
fn behind<'a>(text: &'a str, front: &str) -> Option<&'a str>
    ensures { MatchOption result ((rest : List ℕ) → text.now ≡ front.now ++ rest → ⊥)
        (λ rest. text.now ≡ front.now ++ rest.now) }
{
    text.strip_prefix(front)
}

// The size that the end of a field's word names.
fn parse_size(text: &str) -> Option<Size>
    ensures { MatchOption result ((s : FieldSize) → NamesSize text.now s → ⊥)
        (λ s. NamesSize text.now s) }
{
    if text.is_empty() {
        return Some(Size::Whole);
    }
    if let Some(digits) = behind(text, ",bits") {
        return Some(Size::Bits(parse_count(digits)?));
    }
    Some(Size::Bytes(parse_count(behind(text, ",bytes")?)?))
}

// A count, in decimal digits only.
fn parse_count(digits: &str) -> Option<usize>
    ensures { SomeIff result (IsNumeral 10 digits.now × (digits_value 10 digits.now < 2 ^ 64))
        (digits_value 10 digits.now) }
{
    if !is_digits(digits) {
        return None;
    }
    digits.parse().ok()
}

// A number in decimal digits, with or without a minus. Without a minus it is signed for a signed
// kind if it can be.
fn parse_number(text: &str, kind: Kind) -> Option<Number>
    ensures { MatchOption result ((n : FieldNumber) → NamesNumber kind text.now n → ⊥)
        (λ n. NamesNumber kind text.now n) }
{
    if let Some(digits) = behind(text, "-") {
        if !is_digits(digits) {
            return None;
        }
        return match text.parse::<i128>() {
            Ok(value) => Some(Number::Signed(value)),
            Err(_) => None,
        };
    }
    if !is_digits(text) {
        return None;
    }
    if kind.is_signed() {
        if let Ok(value) = text.parse::<i128>() {
            return Some(Number::Signed(value));
        }
    }
    match text.parse::<u128>() {
        Ok(value) => Some(Number::Unsigned(value)),
        Err(_) => None,
    }
}

// Whether a text is decimal digits only, and at least one of them.
fn is_digits(text: &str) -> bool
    ensures { IsTrue result ↔ IsNumeral 10 text.now }
{
    !text.is_empty() && text.as_bytes().iter().all(|byte| byte.is_ascii_digit())
}
