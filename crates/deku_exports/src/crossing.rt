//! Which records C has, and what of them it has not.

use crate::header::noted;
use deku_attributes::model::{Attribute, Field, Form, Module, Record};
use deku_attributes::reading::bits_of;
use deku_description::syntax::{Constant, Length, Shape, Type};
use deku_texts::document::joined;
use deku_texts::refusal::Stop;
use deku_texts::words::snake;
use deku_tokens::arena::Arena;
use deku_tokens::place::Complaint;
use deku_tokens::token::Token;
use std::alloc::AllocError;
use std::fmt::Write as _;

/// A record as C has it.
#[derive(Clone, Copy)]
pub(crate) struct Crossed<'a> {
    pub(crate) record: &'a Record<'a>,
    /// Its fields, each with its comment.
    pub(crate) fields: &'a [&'a str],
    /// How many bytes it is written as.
    pub(crate) bytes: u64,
    // How many bits it has.
    bits: u64,
}

// The keywords of C and of C++ that are no keywords of Rust.
const KEYWORDS: [&str; 77] = [
    "alignas",
    "alignof",
    "and",
    "and_eq",
    "asm",
    "auto",
    "bitand",
    "bitor",
    "bool",
    "case",
    "catch",
    "char",
    "char16_t",
    "char32_t",
    "char8_t",
    "class",
    "co_await",
    "co_return",
    "co_yield",
    "compl",
    "concept",
    "const_cast",
    "consteval",
    "constexpr",
    "constinit",
    "decltype",
    "default",
    "delete",
    "double",
    "dynamic_cast",
    "explicit",
    "export",
    "float",
    "friend",
    "goto",
    "inline",
    "int",
    "long",
    "mutable",
    "namespace",
    "new",
    "noexcept",
    "not",
    "not_eq",
    "nullptr",
    "operator",
    "or",
    "or_eq",
    "private",
    "protected",
    "public",
    "register",
    "reinterpret_cast",
    "requires",
    "restrict",
    "short",
    "signed",
    "sizeof",
    "static_assert",
    "static_cast",
    "switch",
    "template",
    "this",
    "thread_local",
    "throw",
    "typedef",
    "typeid",
    "typename",
    "typeof_unqual",
    "union",
    "unsigned",
    "using",
    "void",
    "volatile",
    "wchar_t",
    "xor",
    "xor_eq",
];

/// The records of a module as C has them, with what C has not.
pub(crate) fn records_of<'a>(
    arena: &'a Arena,
    module: &Module<'a>,
) -> Result<(Vec<Crossed<'a>>, Vec<Complaint<'a>>), AllocError> {
    let mut records = Vec::new(arena.alloc());
    let mut complaints = Vec::new(arena.alloc());
    for record in module.records {
        match crossed_record(arena, module.constants, records.as_slice(), record) {
            Ok(made) => records.push(made)?,
            Err(Stop::Wrong(complaint)) => complaints.push(complaint)?,
            Err(Stop::Memory) => return Err(AllocError),
        };
    }
    Ok((records, complaints))
}

// A record as C has it, of which these are before.
fn crossed_record<'a>(
    arena: &'a Arena,
    constants: &[Constant<'a>],
    before: &[Crossed<'a>],
    record: &'a Record<'a>,
) -> Result<Crossed<'a>, Stop<'a>> {
    let fields = match &record.form {
        Form::Struct(Shape::Named, fields) => *fields,
        _ => {
            return Stop::wrong(
                record.name.span,
                "C gets only structs whose fields have names",
                "write such a struct, or print this one without `--c`",
            );
        }
    };
    check_name(record.name, snake(arena, record.name.text)?)?;
    let mut lines = Vec::new(arena.alloc());
    let mut bits = bits_of_magic(record.magic);
    for field in fields {
        let (made, more) = crossed_field(arena, constants, before, field)?;
        lines.push(made)?;
        bits = bits.saturating_add(more);
    }
    Ok(Crossed {
        record,
        fields: arena.list(lines.as_slice())?,
        bytes: bits.div_ceil(8),
        bits,
    })
}

fn bits_of_magic(magic: Option<&[u8]>) -> u64 {
    match magic {
        Some(bytes) => 8u64.saturating_mul(bytes.len() as u64),
        None => 0,
    }
}

// A field as C has it, and how many bits it has with its padding.
fn crossed_field<'a>(
    arena: &'a Arena,
    constants: &[Constant<'a>],
    before: &[Crossed<'a>],
    field: &Field<'a>,
) -> Result<(&'a str, u64), Stop<'a>> {
    let name = match field.name {
        Some(name) => name,
        None => return Err(Stop::Memory),
    };
    let text = name.text;
    check_name(name, text)?;
    let mut lengths = String::new(arena.alloc());
    let Some((item, count)) = item_of(&field.kind, constants, &mut lengths)? else {
        return lacking(field);
    };
    let Some((kind, bits)) = kind_of(arena, before, item.text, field.bits)? else {
        return lacking(field);
    };
    let (note, lengths) = (noted(arena, field.docs)?, lengths.as_str());
    Ok((
        arena.print(format_args!("{note}    {kind} {text}{lengths};\n"))?,
        bits_around(field).saturating_add(bits.saturating_mul(count)),
    ))
}

// Complains of a name that is this one in C, if that is a keyword there.
fn check_name<'a>(name: Token<'a>, in_c: &str) -> Result<(), Stop<'a>> {
    if !KEYWORDS.contains(&in_c) {
        return Ok(());
    }
    Stop::wrong(
        name.span,
        "a name that is a keyword of C or C++",
        "give it another name",
    )
}

// Complains of a field that C does not have.
fn lacking<'a, T>(field: &Field<'a>) -> Result<T, Stop<'a>> {
    Stop::wrong(
        field.span,
        "C gets only numbers of at most 64 bits, truth values, records before this one, and arrays",
        "write such a field, or print the record without `--c`",
    )
}

// The type of the items of an array, or of a type that is none, and how many they are. The lengths
// are appended as C writes them.
fn item_of<'a>(
    kind: &Type<'a>,
    constants: &[Constant<'a>],
    lengths: &mut String,
) -> Result<Option<(Token<'a>, u64)>, AllocError> {
    match kind {
        Type::Name(name) => Ok(Some((*name, 1))),
        Type::Array(item, length) => {
            let length = length_of(*length, constants);
            write!(lengths, "[{length}]")?;
            match item_of(item, constants, lengths)? {
                Some((name, count)) => Ok(Some((name, count.saturating_mul(length)))),
                None => Ok(None),
            }
        }
        Type::Of(_, _) | Type::Tuple(_) => Ok(None),
    }
}

// The length of an array. Another complaint is about a constant that is not there.
fn length_of(length: Length<'_>, constants: &[Constant<'_>]) -> u64 {
    match length {
        Length::Number(number) => number,
        Length::Name(name) => match constants.iter().find(|it| it.name.text == name.text) {
            Some(constant) => constant.value,
            None => 0,
        },
    }
}

// A type as C has it, and how many bits it has where as many are said.
fn kind_of<'a>(
    arena: &'a Arena,
    before: &[Crossed<'a>],
    name: &str,
    said: Option<u64>,
) -> Result<Option<(&'a str, u64)>, AllocError> {
    if let (Some(kind), Some(bits)) = (number(name), bits_of(name)) {
        return Ok(Some((kind, said.unwrap_or(bits))));
    }
    match before.iter().find(|it| it.record.name.text == name) {
        Some(inner) => {
            let kind = joined(arena, "struct ", snake(arena, name)?)?;
            Ok(Some((kind, inner.bits)))
        }
        None => Ok(None),
    }
}

// What C calls a number, or a truth value.
fn number(name: &str) -> Option<&'static str> {
    match name {
        "u8" => Some("uint8_t"),
        "u16" => Some("uint16_t"),
        "u32" => Some("uint32_t"),
        "u64" | "usize" => Some("uint64_t"),
        "i8" => Some("int8_t"),
        "i16" => Some("int16_t"),
        "i32" => Some("int32_t"),
        "i64" | "isize" => Some("int64_t"),
        "bool" => Some("bool"),
        _ => None,
    }
}

// The bits of the padding around a field, and of the bytes in front of it.
fn bits_around(field: &Field<'_>) -> u64 {
    let mut bits = 0u64;
    for attribute in field.attributes {
        bits = bits.saturating_add(match attribute {
            Attribute::PadBefore(more) | Attribute::PadAfter(more) => *more,
            Attribute::Magic(bytes) => bits_of_magic(Some(*bytes)),
            _ => 0,
        });
    }
    bits
}
