//! One field of many records in bytes in memory.

ghost use Rattle.std.specs.Prelude.{◌≡◌, ◌+◌, ◌*◌, ◌<◌, ◌≤◌, ◌^◌, ℕ};
ghost use Rattle.std.specs.Prelude.{length};
ghost use Rattle.deku_bits.specs.ReaderCalls.{Reads, filling};
ghost use Rattle.deku_fields.specs.ListCalls.{ReadsFields};
ghost use Rattle.deku_plan.specs.Plans.{AreSteps, IsHigh, IsStepOf};
ghost use Rattle.deku_plan.specs.Records.{records, IsStraight, AreFirstAt, AreEachAt, HasColumn};
ghost use Rattle.deku_plan.specs.Records.{ReadsColumn};

use crate::cut::{number_at, placed_at, short_at};
use crate::plan::read::read_steps;
use crate::step::Step;
use deku::device::Source;
use deku::error::DekuError;
use deku::reader::Reader;
use deku_fields::{Field, Number};
use std::alloc::Global;
use std::io::{Cursor, ErrorKind};

/// The values of a field in records that the bytes have. It begins at a bit of each record.
pub(crate) fn cut_column(
    bytes: &[u8],
    bits: usize,
    first: usize,
    field: &Field,
    step: Step,
    out: &mut [Number],
)
    requires step { IsStepOf field.now step }
    requires straight { IsStraight field.now }
    requires within { first + step.width ≤ bits }
    requires counted { length out.old * bits < 2 ^ 64 }
    requires there { length out.old * bits ≤ 8 * length bytes.now }
    ensures { AreEachAt field.now bytes.now bits first out.new }
{
    if step.high && step.width <= 57 && bytes.len() >= 8 {
        let done = cut_front(bytes, bits, first, field, step, out);
        cut_short_column(bytes, bits, first, field, step, done, out);
    } else {
        cut_any_column(bytes, bits, first, field, step, out);
    }
}

// The values of a field in `Msb0`.
fn cut_any_column(
    bytes: &[u8],
    bits: usize,
    first: usize,
    field: &Field,
    step: Step,
    out: &mut [Number],
)
    requires step { IsStepOf field.now step }
    requires straight { IsStraight field.now }
    requires within { first + step.width ≤ bits }
    requires counted { length out.old * bits < 2 ^ 64 }
    requires there { length out.old * bits ≤ 8 * length bytes.now }
    ensures { AreEachAt field.now bytes.now bits first out.new }
{
    for place in 0..out.len() {
        out[place] = number_at(bytes, place * bits + first, field, step);
    }
}

// The values of a short field in the records before the last bytes, if records are whole bytes. In
// all of these the value begins at the same bit of a byte. Returns how many there are.
fn cut_front(
    bytes: &[u8],
    bits: usize,
    first: usize,
    field: &Field,
    step: Step,
    out: &mut [Number],
) -> usize
    requires step { IsStepOf field.now step }
    requires high { IsHigh field.now }
    requires straight { IsStraight field.now }
    requires few { step.width ≤ 57 }
    requires long { 8 ≤ length bytes.now }
    requires within { first + step.width ≤ bits }
    requires there { length out.old * bits ≤ 8 * length bytes.now }
    ensures values { AreFirstAt field.now bytes.now bits first result out.new }
    ensures few { result ≤ length out.new }
{
    if bits % 8 != 0 {
        return 0;
    }
    let (size, byte, bit) = (bits / 8, first / 8, first % 8);
    let front = front_of(bytes.len(), out.len(), size, byte);
    for place in 0..front {
        out[place] = placed_at(bytes, place * size + byte, bit, field, step);
    }
    front
}

// How many records have eight bytes from one of their bytes on, if this many records have so many
// bytes each. At most eight at the end have fewer.
#[inline(always)]
fn front_of(bytes: usize, count: usize, size: usize, byte: usize) -> usize
    requires long { 8 ≤ bytes }
    requires inside { byte < size }
    requires there { count * size ≤ bytes }
    ensures few { result ≤ count }
    ensures there { (k : ℕ) → k < result → k * size + byte + 8 ≤ bytes }
{
    if count == 0 {
        return 0;
    }
    let last = (count - 1) * size + byte;
    if last <= bytes - 8 {
        count
    } else if size >= 8 {
        count - 1
    } else {
        count.saturating_sub(8)
    }
}

// The values of a short field after those of some first records, each cut at once.
fn cut_short_column(
    bytes: &[u8],
    bits: usize,
    first: usize,
    field: &Field,
    step: Step,
    done: usize,
    out: &mut [Number],
)
    requires step { IsStepOf field.now step }
    requires high { IsHigh field.now }
    requires straight { IsStraight field.now }
    requires few { step.width ≤ 57 }
    requires long { 8 ≤ length bytes.now }
    requires within { first + step.width ≤ bits }
    requires counted { length out.old * bits < 2 ^ 64 }
    requires there { length out.old * bits ≤ 8 * length bytes.now }
    requires done { done ≤ length out.old }
    requires values { AreFirstAt field.now bytes.now bits first done out.old }
    ensures { AreEachAt field.now bytes.now bits first out.new }
{
    for place in done..out.len() {
        out[place] = short_at(bytes, place * bits + first, field, step);
    }
}

/// Reads the values of a field in records from bytes, the first of them from the first bit on.
pub(crate) fn column_from_first(
    alloc: Global,
    bytes: &[u8],
    fields: &[Field],
    steps: &[Step],
    index: usize,
    out: &mut [Number],
) -> Result<(), DekuError>
    requires steps { AreSteps fields.now steps.now }
    requires field { index < length fields.now }
    ensures { ReadsColumn fields.now (length out.old) index bytes.now (filling result out.new) }
{
    let Ok(mut values) = vec![in alloc; Number::Unsigned(0); fields.len()] else {
        return Err(DekuError::Io(ErrorKind::OutOfMemory));
    };
    let mut reader = Reader::new(alloc, Cursor::new(bytes));
    read_each(
        &mut reader,
        fields,
        steps,
        index,
        values.as_mut_slice(),
        out,
    )
}

// Reads records one after the other, each into the same values, and keeps one value of each.
fn read_each<R: Source>(
    reader: &mut Reader<R>,
    fields: &[Field],
    steps: &[Step],
    index: usize,
    values: &mut [Number],
    out: &mut [Number],
) -> Result<(), DekuError>
    requires steps { AreSteps fields.now steps.now }
    requires field { index < length fields.now }
    requires places { length values.old ≡ length fields.now }
    ensures { HasColumn fields.now index (λ r. Reads R.known
        (ReadsFields (records (length out.old) fields.now)) reader.old r reader.new)
        (filling result out.new) }
{
    for place in 0..out.len() {
        read_steps(reader, fields, steps, values)?;
        out[place] = values[index];
    }
    Ok(())
}
