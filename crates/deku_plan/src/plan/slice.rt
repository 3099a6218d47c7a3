//! Records in bytes in memory.

ghost use Rattle.std.specs.Prelude.{◌≡◌, ◌+◌, ◌*◌, ◌<◌, ◌≤◌, ◌^◌, All};
ghost use Rattle.std.specs.Prelude.{length, map, IsTrue};
ghost use Rattle.deku_bits.specs.Pieces.{total};
ghost use Rattle.deku_bits.specs.ReaderCalls.{Reads, filling};
ghost use Rattle.deku_bits.specs.Standings.{Standing, Going};
ghost use Rattle.deku_bits.specs.WriterCalls.{Writes, WritesAt, Finalizes};
ghost use Rattle.deku_bits.specs.Writers.{Pending, Nothing};
ghost use Rattle.deku.specs.Composing.{Both};
ghost use Rattle.deku.specs.Wholes.{WritesOver};
ghost use Rattle.deku_fields.specs.Items.{field_shape};
ghost use Rattle.deku_fields.specs.ListCalls.{ReadsFields, WritesItems};
ghost use Rattle.deku_plan.specs.Laying.{IsShort};
ghost use Rattle.deku_plan.specs.Plans.{AreSteps, IsHigh, items};
ghost use Rattle.deku_plan.specs.Records.{records, IsStraight, AreAt, ReadsAll};

use crate::cut::{number_at, short_at};
use crate::plan::read::read_steps;
use crate::plan::write::write_steps;
use crate::step::Step;
use deku::device::{Sink, Source};
use deku::error::DekuError;
use deku::reader::Reader;
use deku::writer::Writer;
use deku_fields::{Field, Number};
use std::alloc::Global;
use std::io::Cursor;

/// Whether the bytes have the bits of this many records.
pub(crate) fn are_there(bytes: &[u8], count: usize, bits: usize) -> bool
    ensures counted { IsTrue result → count * bits < 2 ^ 64 }
    ensures there { IsTrue result → count * bits ≤ 8 * length bytes.now }
{
    match count.checked_mul(bits) {
        Some(all) => all.div_ceil(8) <= bytes.len(),
        None => false,
    }
}

/// The values of records that the bytes have.
pub(crate) fn cut_records(
    bytes: &[u8],
    count: usize,
    short: bool,
    fields: &[Field],
    steps: &[Step],
    out: &mut [Number],
)
    requires steps { AreSteps fields.now steps.now }
    requires straight { All IsStraight fields.now }
    requires high { IsTrue short → All IsHigh fields.now }
    requires short { IsTrue short → All IsShort steps.now }
    requires places { length out.old ≡ count * length fields.now }
    requires counted { count * total (map field_shape fields.now) < 2 ^ 64 }
    requires there { count * total (map field_shape fields.now) ≤ 8 * length bytes.now }
    ensures { AreAt (records count fields.now) bytes.now 0 out.new }
{
    let (mut bit, mut place) = (0, 0);
    for _ in 0..count {
        let next = place + fields.len();
        bit = cut_either(bytes, bit, short, fields, steps, &mut out[place..next]);
        place = next;
    }
}

// The values of a record that begins at a bit of the bytes. Returns the bit after it.
#[inline(always)]
fn cut_either(
    bytes: &[u8],
    bit: usize,
    short: bool,
    fields: &[Field],
    steps: &[Step],
    out: &mut [Number],
) -> usize
    requires steps { AreSteps fields.now steps.now }
    requires straight { All IsStraight fields.now }
    requires high { IsTrue short → All IsHigh fields.now }
    requires short { IsTrue short → All IsShort steps.now }
    requires places { length out.old ≡ length fields.now }
    requires counted { bit + total (map field_shape fields.now) < 2 ^ 64 }
    requires there { bit + total (map field_shape fields.now) ≤ 8 * length bytes.now }
    ensures values { AreAt fields.now bytes.now bit out.new }
    ensures places { length out.new ≡ length out.old }
    ensures after { result ≡ bit + total (map field_shape fields.now) }
{
    if short && bytes.len() >= 8 {
        cut_short(bytes, bit, fields, steps, out)
    } else {
        cut_record(bytes, bit, fields, steps, out)
    }
}

// The values of a record of any fields in `Msb0`.
#[inline(always)]
fn cut_record(
    bytes: &[u8],
    bit: usize,
    fields: &[Field],
    steps: &[Step],
    out: &mut [Number],
) -> usize
    requires steps { AreSteps fields.now steps.now }
    requires straight { All IsStraight fields.now }
    requires places { length out.old ≡ length fields.now }
    requires counted { bit + total (map field_shape fields.now) < 2 ^ 64 }
    requires there { bit + total (map field_shape fields.now) ≤ 8 * length bytes.now }
    ensures values { AreAt fields.now bytes.now bit out.new }
    ensures places { length out.new ≡ length out.old }
    ensures after { result ≡ bit + total (map field_shape fields.now) }
{
    let mut at = bit;
    for (place, field) in fields.iter().enumerate() {
        let step = steps[place];
        out[place] = number_at(bytes, at, field, step);
        at += step.width;
    }
    at
}

// The values of a record of short fields, of which each is cut at once.
#[inline(always)]
fn cut_short(
    bytes: &[u8],
    bit: usize,
    fields: &[Field],
    steps: &[Step],
    out: &mut [Number],
) -> usize
    requires steps { AreSteps fields.now steps.now }
    requires straight { All IsStraight fields.now }
    requires high { All IsHigh fields.now }
    requires short { All IsShort steps.now }
    requires long { 8 ≤ length bytes.now }
    requires places { length out.old ≡ length fields.now }
    requires counted { bit + total (map field_shape fields.now) < 2 ^ 64 }
    requires there { bit + total (map field_shape fields.now) ≤ 8 * length bytes.now }
    ensures values { AreAt fields.now bytes.now bit out.new }
    ensures places { length out.new ≡ length out.old }
    ensures after { result ≡ bit + total (map field_shape fields.now) }
{
    let mut at = bit;
    for (place, field) in fields.iter().enumerate() {
        let step = steps[place];
        out[place] = short_at(bytes, at, field, step);
        at += step.width;
    }
    at
}

/// Reads the values of records from bytes, the first of them from the first bit on.
pub(crate) fn read_from_first(
    alloc: Global,
    bytes: &[u8],
    count: usize,
    fields: &[Field],
    steps: &[Step],
    out: &mut [Number],
) -> Result<(), DekuError>
    requires steps { AreSteps fields.now steps.now }
    requires places { length out.old ≡ count * length fields.now }
    ensures { ReadsAll (records count fields.now) bytes.now (filling result out.new) }
{
    let mut reader = Reader::new(alloc, Cursor::new(bytes));
    read_records(&mut reader, count, fields, steps, out)
}

// Reads the values of records, one after the other.
fn read_records<R: Source>(
    reader: &mut Reader<R>,
    count: usize,
    fields: &[Field],
    steps: &[Step],
    out: &mut [Number],
) -> Result<(), DekuError>
    requires steps { AreSteps fields.now steps.now }
    requires places { length out.old ≡ count * length fields.now }
    ensures { Reads R.known (ReadsFields (records count fields.now)) reader.old
        (filling result out.new) reader.new }
{
    let mut place = 0;
    for _ in 0..count {
        let next = place + fields.len();
        read_steps(reader, fields, steps, &mut out[place..next])?;
        place = next;
    }
    Ok(())
}

/// Writes the values of records over bytes, and fills the last byte with zeros. Returns how many
/// bytes there are.
pub(crate) fn write_from_first(
    out: &mut [u8],
    count: usize,
    fields: &[Field],
    steps: &[Step],
    values: &[Number],
) -> Result<usize, DekuError>
    requires steps { AreSteps fields.now steps.now }
    requires values { length values.now ≡ count * length fields.now }
    ensures { WritesOver (Both
        (WritesItems (items (records count fields.now) values.now)) Finalizes) out.old result
        out.new }
{
    let mut cursor = Cursor::new(out);
    let written = write_whole(&mut cursor, count, fields, steps, values);
    let taken = cursor.position() as usize;
    written?;
    Ok(taken)
}

// Writes the values of records to a sink, with nothing written before, and fills the last byte
// with zeros.
#[inline(always)]
fn write_whole<W: Sink>(
    sink: &mut W,
    count: usize,
    fields: &[Field],
    steps: &[Step],
    values: &[Number],
) -> Result<(), DekuError>
    requires steps { AreSteps fields.now steps.now }
    requires values { length values.now ≡ count * length fields.now }
    ensures { (u : Standing Pending) × WritesAt
        (Both (WritesItems (items (records count fields.now) values.now)) Finalizes)
        (W.known sink.old) (Going Nothing 0) result (W.known sink.new) u }
{
    let mut writer = Writer::new(sink);
    write_padded(&mut writer, count, fields, steps, values)
}

// Writes the values of records, and fills the last byte with zeros.
#[inline(always)]
fn write_padded<W: Sink>(
    writer: &mut Writer<W>,
    count: usize,
    fields: &[Field],
    steps: &[Step],
    values: &[Number],
) -> Result<(), DekuError>
    requires steps { AreSteps fields.now steps.now }
    requires values { length values.now ≡ count * length fields.now }
    ensures { Writes W.known
        (Both (WritesItems (items (records count fields.now) values.now)) Finalizes) writer.old
        result writer.new }
{
    write_records(writer, count, fields, steps, values)?;
    writer.finalize()
}

// Writes the values of records, one after the other.
#[inline(always)]
fn write_records<W: Sink>(
    writer: &mut Writer<W>,
    count: usize,
    fields: &[Field],
    steps: &[Step],
    values: &[Number],
) -> Result<(), DekuError>
    requires steps { AreSteps fields.now steps.now }
    requires values { length values.now ≡ count * length fields.now }
    ensures { Writes W.known (WritesItems (items (records count fields.now) values.now)) writer.old
        result writer.new }
{
    let mut place = 0;
    for _ in 0..count {
        let next = place + fields.len();
        write_steps(writer, fields, steps, &values[place..next])?;
        place = next;
    }
    Ok(())
}
