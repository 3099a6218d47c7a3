//! Writing lists of items to the caller's bytes.

ghost use Rattle.std.specs.Prelude.{◌≡◌, ◌<◌, ◌^◌, ◌∷◌, [], length, false};
ghost use Rattle.std.specs.Prelude.{List, Ok, IfSome, IsTrue, IsFalse};
ghost use Rattle.deku_bits.specs.Writers.{Pending, Nothing};
ghost use Rattle.deku_bits.specs.Standings.{Standing, Going};
ghost use Rattle.deku_bits.specs.WriterCalls.{Finalizes, Writes, WritesAt};
ghost use Rattle.deku.specs.Composing.{Both};
ghost use Rattle.deku.specs.Wholes.{WritesOver};
ghost use Rattle.deku_fields.specs.Items.{field_width, IsAllowedField};
ghost use Rattle.deku_fields.specs.ListCalls.{WritesItem, WritesItems};
ghost use Rattle.deku_plan.specs.Plans.{IsHigh};
ghost use Rattle.deku_c.specs.Codes.{field_in, item_in, items_in, whole};
ghost use Rattle.deku_c.specs.Calls.{LaysOver};

use crate::codes::{FieldCode, NumberCode};
use deku::ctx::Order;
use deku::device::Sink;
use deku::error::DekuError;
use deku::writer::Writer;
use deku_fields::laws::{padded_law, write_calls_law};
use deku_fields::write_list;
use deku_num::kernel::is_below;
use std::io::Cursor;

/// Writes the number of each field to the start of the bytes, and fills the last byte with zeros.
/// Returns how many bytes there are. The bytes after them stay as they were. It fails as
/// `write_list` does, and with `Io(WriteZero)` if there are too few bytes.
///
/// The caller's condition: there are as many numbers as fields.
pub fn write_numbers(
    codes: &[FieldCode],
    numbers: &[NumberCode],
    out: &mut [u8],
) -> Result<usize, DekuError>
    requires { length numbers.now ≡ length codes.now }
    ensures meaning { WritesOver (Both (WritesItems (items_in codes.now numbers.now)) Finalizes)
        out.old result out.new }
    ensures laid { LaysOver (items_in codes.now numbers.now) out.old result out.new }
{
    padded_law();
    let mut cursor = Cursor::new(out);
    let written = write_whole(codes, numbers, &mut cursor);
    let count = cursor.position() as usize;
    written?;
    Ok(count)
}

// Writes the numbers with a new writer, and fills the last byte with zeros.
fn write_whole<W: Sink>(
    codes: &[FieldCode],
    numbers: &[NumberCode],
    sink: &mut W,
) -> Result<(), DekuError>
    requires { length numbers.now ≡ length codes.now }
    ensures { (u : Standing Pending) × WritesAt (Both (WritesItems (items_in codes.now numbers.now))
        Finalizes) (W.known sink.old) (Going Nothing 0) result (W.known sink.new) u }
{
    let mut writer = Writer::new(sink);
    write_padded(codes, numbers, &mut writer)
}

// Writes the numbers and fills the last byte with zeros.
fn write_padded<W: Sink>(
    codes: &[FieldCode],
    numbers: &[NumberCode],
    writer: &mut Writer<W>,
) -> Result<(), DekuError>
    requires { length numbers.now ≡ length codes.now }
    ensures { Writes W.known (Both (WritesItems (items_in codes.now numbers.now)) Finalizes)
        writer.old result writer.new }
{
    write_each(codes, numbers, writer)?;
    writer.finalize()
}

// Writes the number of each field, in order.
fn write_each<W: Sink>(
    codes: &[FieldCode],
    numbers: &[NumberCode],
    writer: &mut Writer<W>,
) -> Result<(), DekuError>
    requires { length numbers.now ≡ length codes.now }
    ensures { Writes W.known (WritesItems (items_in codes.now numbers.now)) writer.old result
        writer.new }
{
    write_calls_law();
    for (place, code) in codes.iter().enumerate() {
        write_one(writer, *code, numbers[place])?;
    }
    Ok(())
}

// Writes the number of a field, at once if nothing about it is rejected and there is room.
#[inline(always)]
fn write_one<W: Sink>(
    writer: &mut Writer<W>,
    code: FieldCode,
    number: NumberCode,
) -> Result<(), DekuError>
    ensures { Writes W.known (WritesItems (item_in code number ∷ [])) writer.old result
        writer.new }
{
    if laid_high(writer, code, number) {
        return Ok(());
    }
    write_list(writer, &[code.item(number)])
}

// Writes the number of a field with its high bits first, if the field says so, the number fits, and
// there is room. Returns whether it did. Otherwise nothing changes.
#[inline(always)]
fn laid_high<W: Sink>(writer: &mut Writer<W>, code: FieldCode, number: NumberCode) -> bool
    ensures writes { IsTrue result → Writes W.known (WritesItem (item_in code number)) writer.old
        (Ok tt) writer.new }
    ensures stays { IsFalse result → writer.new ≡ writer.old }
{
    match high_number(code, number) {
        Some((low, width)) => writer.try_write_number(low, width, Order::Msb0),
        None => false,
    }
}

// The number of a field and how many bits it has, if the field is unsigned, big and `Msb0`, these
// are at most 64, and nothing rejects it.
#[inline(always)]
fn high_number(code: FieldCode, number: NumberCode) -> Option<(u64, usize)>
    ensures high { IfSome result (λ r. IsHigh (field_in code)) }
    ensures allowed { IfSome result (λ r. IsAllowedField (field_in code)) }
    ensures wide { IfSome result (λ r. field_width (field_in code) ≡ r.1) }
    ensures same { IfSome result (λ r. r.0 ≡ whole number) }
    ensures below { IfSome result (λ r. r.0 < 2 ^ r.1) }
{
    let width = code.high_width()?;
    if number.high == 0 && is_below(number.low as u128, width) {
        Some((number.low, width))
    } else {
        None
    }
}
