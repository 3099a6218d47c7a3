//! Lists of fields in three calls, cut between any two items, even inside a byte.

ghost use Rattle.std.specs.Prelude.{◌≡◌, ◌<◌, ◌∷◌, [], ◌++◌, MatchResult};
ghost use Rattle.std.specs.declared.io.ErrorKind.TheVariants.{OutOfMemory};
ghost use Rattle.deku.specs.declared.error.DekuError.TheVariants.{Io};
ghost use Rattle.deku_fields.specs.declared.list.Number.TheVariants.{Unsigned, Signed};
ghost use Rattle.deku_bits.specs.ReaderCalls.{Reads, Ending, items_of};
ghost use Rattle.deku_bits.specs.WriterCalls.{Writes};
ghost use Rattle.deku.specs.Composing.{Then};
ghost use Rattle.deku_fields.specs.ListCalls.{ReadsList, WritesItems};
ghost use Rattle.deku_fields.specs.Promise.{LaidOut};
ghost use Rattle.deku_callers.specs.InThree.{ReadsInThree};

use crate::list::{high, low, signed};
use deku::ctx::Size;
use deku::device::{Sink, Source};
use deku::error::DekuError;
use deku::reader::Reader;
use deku::writer::Writer;
use deku_bits::laws::length_law;
use deku_fields::laws::{layout_law, padded_law, read_back_law, read_parts_law, write_calls_law};
use deku_fields::{Field, Item, Kind, Number, read_list, write_list};
use deku_num::laws::field_law;
use std::alloc::Global;
use std::io::Cursor;

/// Reads the values of fields in three calls, with a check whether the bytes end before the second
/// and the third. If the bytes begin with what items of these fields lay out, they are the items'
/// values, as one call reads them.
///
/// It fails as `read_list` does.
pub fn read_in_three(
    alloc: Global,
    bytes: &[u8],
    first: &[Field],
    second: &[Field],
    third: &[Field],
) -> Result<(Vec<Number>, Vec<Number>, Vec<Number>), DekuError>
    ensures { ReadsInThree (first.now ++ (second.now ++ third.now)) bytes.now result }
{
    read_parts_law();
    read_back_law();
    let mut reader = Reader::new(alloc, Cursor::new(bytes));
    let one = read_list(&mut reader, first)?;
    let two = look_and_read(&mut reader, second)?;
    let three = look_and_read(&mut reader, third)?;
    Ok((one, two, three))
}

// Checks whether the input ends, and reads the fields whatever the result is.
fn look_and_read<R: Source>(
    reader: &mut Reader<R>,
    fields: &[Field],
) -> Result<Vec<Number>, DekuError>
    ensures { Reads R.known (Then Ending (λ _. ReadsList fields.now)) reader.old (items_of result)
        reader.new }
{
    let _at_end = reader.end()?;
    read_list(reader, fields)
}

/// The bytes of items that are written in three calls, and padded once. They are what all these
/// items lay out, as one call lays them out.
///
/// It fails as `write_list` does.
pub fn bytes_in_three(
    alloc: Global,
    first: &[Item],
    second: &[Item],
    third: &[Item],
) -> Result<Vec<u8>, DekuError>
    ensures { LaidOut (first.now ++ (second.now ++ third.now)) result }
{
    layout_law();
    padded_law();
    let mut writer = Writer::new(Cursor::new(Vec::new(alloc)));
    write_in_three(&mut writer, first, second, third)?;
    writer.finalize()?;
    Ok(writer.into_inner().into_inner())
}

/// Writes items in three calls. Over any sink, whatever it does, they are one call that writes all
/// these items.
///
/// It fails as `write_list` does.
pub fn write_in_three<W: Sink>(
    writer: &mut Writer<W>,
    first: &[Item],
    second: &[Item],
    third: &[Item],
) -> Result<(), DekuError>
    ensures { Writes W.known (WritesItems (first.now ++ (second.now ++ third.now))) writer.old
        result writer.new }
{
    write_calls_law();
    write_list(writer, first)?;
    write_list(writer, second)?;
    write_list(writer, third)
}

/// Five values in fields of mixed orders, written in three calls and read in three: four bits and
/// four, high bits first, then thirteen and three, low bits first, and then two signed bytes, high
/// byte first. The result is the same values, or out of memory.
///
/// The caller's conditions: each value has no more bits than its field.
pub fn five_in_three(
    alloc: Global,
    version: u8,
    kind: u8,
    span: u16,
    flags: u8,
    heat: i16,
) -> Result<(Vec<Number>, Vec<Number>, Vec<Number>), DekuError>
    requires version { version < 16 }
    requires kind { kind < 16 }
    requires span { span < 8192 }
    requires flags { flags < 8 }
    ensures { MatchResult result (λ v. v.0.items ++ (v.1.items ++ v.2.items) ≡ Unsigned version ∷
        Unsigned kind ∷ Unsigned span ∷ Unsigned flags ∷ Signed heat ∷ [])
        (λ e. e ≡ Io OutOfMemory) }
{
    field_law();
    length_law();
    let four = high(Kind::U8, Size::Bits(4), Number::Unsigned(version as u128));
    let next = high(Kind::U8, Size::Bits(4), Number::Unsigned(kind as u128));
    let thirteen = low(Kind::U16, Size::Bits(13), Number::Unsigned(span as u128));
    let three = low(Kind::U8, Size::Bits(3), Number::Unsigned(flags as u128));
    let last = high(Kind::I16, Size::Whole, signed(heat));
    let bytes = bytes_in_three(alloc, &[four, next], &[thirteen, three], &[last])?;
    read_in_three(
        alloc,
        bytes.as_slice(),
        &[four.field, next.field],
        &[thirteen.field, three.field],
        &[last.field],
    )
}
