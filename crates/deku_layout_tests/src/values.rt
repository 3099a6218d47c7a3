//! Values of number types, read and written by the traits if the type has them, and otherwise by
//! the calls that those make.

use deku::ctx::Layout;
use deku::device::{Sink, Source};
use deku::prelude::{DekuError, DekuWriter, Reader, Writer};
use deku_num::calls::{read_signed, read_unsigned, write_signed, write_unsigned};
use deku_num::kind::NumberType;
use deku_testing_values::expecting::next;
use std::process::Abort;

/// A type of numbers.
#[derive(Debug, Clone, Copy)]
pub enum Kind {
    U8,
    U16,
    U32,
    U64,
    U128,
    Usize,
    I8,
    I16,
    I32,
    I64,
    I128,
    Isize,
    /// One of so many bits, which no Rust type has.
    Of(NumberType),
}

/// The types that have the traits.
pub const KINDS: [Kind; 12] = [
    Kind::U8,
    Kind::U16,
    Kind::U32,
    Kind::U64,
    Kind::U128,
    Kind::Usize,
    Kind::I8,
    Kind::I16,
    Kind::I32,
    Kind::I64,
    Kind::I128,
    Kind::Isize,
];

impl Kind {
    /// Its bits and its sign.
    pub fn number_type(self) -> NumberType {
        match self {
            Kind::U8 => NumberType::U8,
            Kind::U16 => NumberType::U16,
            Kind::U32 => NumberType::U32,
            Kind::U64 => NumberType::U64,
            Kind::U128 => NumberType::U128,
            Kind::Usize => NumberType::USIZE,
            Kind::I8 => NumberType::I8,
            Kind::I16 => NumberType::I16,
            Kind::I32 => NumberType::I32,
            Kind::I64 => NumberType::I64,
            Kind::I128 => NumberType::I128,
            Kind::Isize => NumberType::ISIZE,
            Kind::Of(number_type) => number_type,
        }
    }
}

/// A value of a type without a sign, or of one with a sign.
#[derive(Debug, Clone, Copy, PartialEq, Eq)]
pub enum Value {
    Unsigned(u128),
    Signed(i128),
}

/// Reads a value of the type.
pub fn read_value<R: Source>(
    rt: &impl Abort,
    reader: &mut Reader<R>,
    kind: Kind,
    layout: Layout,
) -> Result<Value, DekuError> {
    let value = match kind {
        Kind::U8 => Value::Unsigned(u128::from(next::<u8, Layout, R>(reader, layout)?)),
        Kind::U16 => Value::Unsigned(u128::from(next::<u16, Layout, R>(reader, layout)?)),
        Kind::U32 => Value::Unsigned(u128::from(next::<u32, Layout, R>(reader, layout)?)),
        Kind::U64 => Value::Unsigned(u128::from(next::<u64, Layout, R>(reader, layout)?)),
        Kind::U128 => Value::Unsigned(next::<u128, Layout, R>(reader, layout)?),
        Kind::Usize => Value::Unsigned(next::<usize, Layout, R>(reader, layout)? as u128),
        Kind::I8 => Value::Signed(i128::from(next::<i8, Layout, R>(reader, layout)?)),
        Kind::I16 => Value::Signed(i128::from(next::<i16, Layout, R>(reader, layout)?)),
        Kind::I32 => Value::Signed(i128::from(next::<i32, Layout, R>(reader, layout)?)),
        Kind::I64 => Value::Signed(i128::from(next::<i64, Layout, R>(reader, layout)?)),
        Kind::I128 => Value::Signed(next::<i128, Layout, R>(reader, layout)?),
        Kind::Isize => Value::Signed(next::<isize, Layout, R>(reader, layout)? as i128),
        Kind::Of(number_type) => read_other(rt, reader, number_type, layout)?,
    };
    Ok(value)
}

// A value of a type that no Rust type is.
fn read_other<R: Source>(
    rt: &impl Abort,
    reader: &mut Reader<R>,
    number_type: NumberType,
    layout: Layout,
) -> Result<Value, DekuError> {
    assert!(rt; number_type.bits <= 128);
    if number_type.signed {
        Ok(Value::Signed(read_signed(reader, number_type, layout)?))
    } else {
        Ok(Value::Unsigned(read_unsigned(reader, number_type, layout)?))
    }
}

// The value is written, if the type has it.
fn put<T: DekuWriter<Layout> + Drop, E: Drop, W: Sink>(
    writer: &mut Writer<W>,
    value: Result<T, E>,
    layout: Layout,
) -> Option<Result<(), DekuError>>
    requires { (layout : Layout) → T.accepts layout }
{
    match value {
        Ok(value) => Some(value.to_writer(writer, layout)),
        Err(_) => None,
    }
}

/// Writes a value, which has a sign if the type has one.
pub fn write_value<W: Sink>(
    rt: &impl Abort,
    writer: &mut Writer<W>,
    kind: Kind,
    value: Value,
    layout: Layout,
) -> Result<(), DekuError> {
    match value {
        Value::Unsigned(value) => write_without_sign(rt, writer, kind, value, layout),
        Value::Signed(value) => write_with_sign(rt, writer, kind, value, layout),
    }
}

// A number beyond its type is written by the call that takes it.
fn write_without_sign<W: Sink>(
    rt: &impl Abort,
    writer: &mut Writer<W>,
    kind: Kind,
    value: u128,
    layout: Layout,
) -> Result<(), DekuError> {
    let answer = match kind {
        Kind::U8 => put(writer, u8::try_from(value), layout),
        Kind::U16 => put(writer, u16::try_from(value), layout),
        Kind::U32 => put(writer, u32::try_from(value), layout),
        Kind::U64 => put(writer, u64::try_from(value), layout),
        Kind::U128 => Some(value.to_writer(writer, layout)),
        Kind::Usize => put(writer, usize::try_from(value), layout),
        _ => None,
    };
    if let Some(answer) = answer {
        return answer;
    }
    let number_type = kind.number_type();
    assert!(rt; number_type.bits <= 128 && !number_type.signed);
    write_unsigned(writer, value, number_type, layout)
}

fn write_with_sign<W: Sink>(
    rt: &impl Abort,
    writer: &mut Writer<W>,
    kind: Kind,
    value: i128,
    layout: Layout,
) -> Result<(), DekuError> {
    let answer = match kind {
        Kind::I8 => put(writer, i8::try_from(value), layout),
        Kind::I16 => put(writer, i16::try_from(value), layout),
        Kind::I32 => put(writer, i32::try_from(value), layout),
        Kind::I64 => put(writer, i64::try_from(value), layout),
        Kind::I128 => Some(value.to_writer(writer, layout)),
        Kind::Isize => put(writer, isize::try_from(value), layout),
        _ => None,
    };
    if let Some(answer) = answer {
        return answer;
    }
    let number_type = kind.number_type();
    assert!(rt; number_type.bits <= 128 && number_type.signed);
    write_signed(writer, value, number_type, layout)
}
