//! Reading lists of fields into the caller's numbers.

ghost use Rattle.std.specs.Prelude.{◌≡◌, ◌∷◌, [], length, false, List, Ok, IfSome};
ghost use Rattle.deku_bits.specs.ReaderCalls.{Reads, filling};
ghost use Rattle.deku.specs.Lists.{on_value};
ghost use Rattle.deku_fields.specs.Items.{values_of};
ghost use Rattle.deku_fields.specs.ListCalls.{ReadsFields};
ghost use Rattle.deku_c.specs.Codes.{field_in, fields_in, item_in, items_in};
ghost use Rattle.deku_c.specs.Calls.{IsCodeAt, ReadsInto, ReadsBackInto};

use crate::codes::{FieldCode, NumberCode};
use deku::device::Source;
use deku::error::DekuError;
use deku::reader::Reader;
use deku_fields::laws::{read_back_law, read_calls_law};
use deku_fields::read_field;
use deku_plan::{high_at, value_at};
use std::alloc::Global;
use std::io::Cursor;

/// Reads one number for each field from the first byte on, and returns how many bits they took. It
/// fails as `read_list_into` does; the numbers are then unspecified.
///
/// The caller's condition: there are as many numbers as fields.
pub fn read_numbers(
    alloc: Global,
    codes: &[FieldCode],
    bytes: &[u8],
    numbers: &mut [NumberCode],
) -> Result<usize, DekuError>
    requires { length numbers.old ≡ length codes.now }
    ensures meaning { ReadsInto codes.now bytes.now result numbers.new }
    ensures back { ReadsBackInto codes.now bytes.now result numbers.new }
{
    read_back_law();
    if let Some(bits) = cut_each(codes, bytes, numbers) {
        return Ok(bits);
    }
    let mut reader = Reader::new(alloc, Cursor::new(bytes));
    read_each(&mut reader, codes, numbers)?;
    Ok(reader.bits_read())
}

// The number of each field, in order, and how many bits they took, if each can be cut from the
// bytes. Otherwise it returns `None`, and the numbers are unspecified.
fn cut_each(codes: &[FieldCode], bytes: &[u8], numbers: &mut [NumberCode]) -> Option<usize>
    requires { length numbers.old ≡ length codes.now }
    ensures long { length numbers.new ≡ length numbers.old }
    ensures reads { IfSome result (λ n. ReadsInto codes.now bytes.now (Ok n) numbers.new) }
{
    read_calls_law();
    let mut bit = 0;
    for (place, code) in codes.iter().enumerate() {
        if let Some((low, after)) = cut_high(bytes, bit, *code) {
            numbers[place] = NumberCode { low, high: 0 };
            bit = after;
        } else {
            let (number, after) = cut_other(bytes, bit, *code)?;
            numbers[place] = number;
            bit = after;
        }
    }
    Some(bit)
}

// The low bits of the number of a field that begins at a bit of the bytes, and the bit after it, if
// the field is unsigned, big and `Msb0` and the bytes have it. Its high bits are zero.
#[inline(always)]
fn cut_high(bytes: &[u8], bit: usize, code: FieldCode) -> Option<(u64, usize)>
    ensures { IfSome result (λ r. IsCodeAt code bytes.now bit (record { low = r.0; high = 0 })
        r.1) }
{
    let width = code.high_width()?;
    let (low, after) = high_at(bytes, bit, width)?;
    Some((low, after))
}

// The number of a field of any kind, and the bit after it, if it can be cut from the bytes.
#[inline(never)]
fn cut_other(bytes: &[u8], bit: usize, code: FieldCode) -> Option<(NumberCode, usize)>
    ensures { IfSome result (λ r. IsCodeAt code bytes.now bit r.0 r.1) }
{
    let (number, after) = value_at(bytes, bit, &code.field())?;
    Some((NumberCode::of(number), after))
}

// Reads one number for each field, in order.
fn read_each<R: Source>(
    reader: &mut Reader<R>,
    codes: &[FieldCode],
    numbers: &mut [NumberCode],
) -> Result<(), DekuError>
    requires { length numbers.old ≡ length codes.now }
    ensures { Reads R.known (ReadsFields (fields_in codes.now)) reader.old (filling result
        (values_of (items_in codes.now numbers.new))) reader.new }
{
    read_calls_law();
    for (place, code) in codes.iter().enumerate() {
        numbers[place] = read_one(reader, *code)?;
    }
    Ok(())
}

// Reads the number of a field.
#[inline(always)]
fn read_one<R: Source>(reader: &mut Reader<R>, code: FieldCode) -> Result<NumberCode, DekuError>
    ensures { Reads R.known (ReadsFields (field_in code ∷ [])) reader.old
        (on_value (λ v. values_of (item_in code v ∷ [])) result) reader.new }
{
    let number = read_field(reader, &code.field())?;
    Ok(NumberCode::of(number))
}
