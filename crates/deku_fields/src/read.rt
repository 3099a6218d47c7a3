//! Reading lists of fields.

ghost use Rattle.std.specs.Prelude.{◌≡◌, ◌≤◌, ◌*◌, [], false, Ok, length, map};
ghost use Rattle.std.specs.Prelude.{OnOk, IfOk, IfErr, IfSome, IsNone};
ghost use Rattle.std.specs.declared.io.ErrorKind.{ErrorKind as IoKind};
ghost use Rattle.deku_bits.specs.declared.error.DekuError.TheVariants.{Io};
ghost use Rattle.deku_bits.specs.Pieces.{total};
ghost use Rattle.deku_bits.specs.ReaderCalls.{Reads, filling, items_of, source_of, Fetched};
ghost use Rattle.deku_bits.specs.ReaderCalls.{FetchedInTime, KeepsSourceStopped};
ghost use Rattle.deku_bits.specs.Causes.{NoKind, WantsMemory, Caused};
ghost use Rattle.deku_fields.specs.declared.list.Number.TheVariants.{Unsigned};
ghost use Rattle.deku_fields.specs.Items.{number_type, field_shape, field_width, IsAllowedField};
ghost use Rattle.deku_fields.specs.ListCalls.{ListFrom, ReadsField, ReadsFields, ReadsList};
ghost use Rattle.deku_fields.specs.Promise.{FindsAny, FindsIn, LeavesBehind, ReadsBack};
ghost use Rattle.deku_fields.specs.Promise.{ReadsBackVec, ReadsBackFrom, ReadsWhereSound};
ghost use Rattle.deku_fields.specs.Promise.{ReadsWhereTold};

use crate::list::{Field, Number, high_width};
use deku::calls::{read_signed, read_unsigned};
use deku::ctx::Order;
use deku::device::Source;
use deku::error::DekuError;
use deku::reader::Reader;
use std::alloc::Global;
use std::io::{Cursor, ErrorKind};

/// Reads one value for each field, in order, into `out`. It takes no memory.
///
/// The caller's condition: `out` has one place for each field.
///
/// A field fails as its number does: with `Parse("too much data")` if its size is beyond its kind,
/// with `InvalidParam("signed big Lsb0 field of this width")`, and then as `Reader` fails to read
/// its bits. What was read of the fields before it stays read, and the content of `out` is then
/// unspecified. Without fields no call is made on the reader.
///
/// It fetches exactly the bytes of the source that the fields' bits need after the unread ones, and
/// no byte after the last one that a field touches.
///
/// ```text
/// let mut values = [Number::Unsigned(0); 2];
/// read_list_into(&mut reader, &[four, twelve], &mut values)?; // 6 and 0x9C0, of 69 C0
/// ```
pub fn read_list_into<R: Source>(
    reader: &mut Reader<R>,
    fields: &[Field],
    out: &mut [Number],
) -> Result<(), DekuError>
    requires { length out.old ≡ length fields.now }
    ensures meaning { Reads R.known (ReadsFields fields.now) reader.old (filling result out.new)
        reader.new }
    ensures values { ReadsWhereSound R.known (ReadsBack fields.now) reader.old
        (filling result out.new) reader.new }
    ensures found { ReadsWhereTold R.known (FindsAny fields.now) reader.old (filling result out.new)
        reader.new }
    ensures behind { LeavesBehind R.known fields.now reader.old (filling result out.new)
        reader.new }
    ensures fetched { OnOk result (Fetched R.known (total (map field_shape fields.now)) reader.old
        reader.new) }
    ensures early { FetchedInTime reader.old reader.new }
    ensures stopped { KeepsSourceStopped reader.old reader.new }
    ensures none { fields.now ≡ [] → reader.new ≡ reader.old }
    ensures cause { Caused NoKind reader.old.state (R.known (source_of reader.old)).health result
        (R.known (source_of reader.new)).health }
{
    for (place, field) in fields.iter().enumerate() {
        let number = read_field(reader, field)?;
        out[place] = number;
    }
    Ok(())
}

/// Reads the value of one field. It takes no memory.
///
/// It fails as `read_list_into` fails for the field, and then leaves what that leaves.
///
/// ```text
/// read_field(&mut reader, &four)?                            // 6, of the byte 69
/// ```
#[inline(always)]
pub fn read_field<R: Source>(reader: &mut Reader<R>, field: &Field) -> Result<Number, DekuError>
    ensures reads { Reads R.known (ReadsField field.now) reader.old result reader.new }
    ensures fetched { OnOk result (Fetched R.known (field_width field.now) reader.old reader.new) }
    ensures early { FetchedInTime reader.old reader.new }
    ensures stopped { KeepsSourceStopped reader.old reader.new }
{
    match plain_number(reader, field) {
        Some(number) => Ok(Number::Unsigned(number as u128)),
        None => read_checked(reader, field),
    }
}

// The number of a field with its high bits first, if nothing rejects it and the bits are in memory.
// Otherwise it returns `None`, and nothing moves.
#[inline(always)]
fn plain_number<R: Source>(reader: &mut Reader<R>, field: &Field) -> Option<u64>
    ensures reads { IfSome result (λ n. Reads R.known (ReadsField field.now) reader.old
        (Ok (Unsigned n)) reader.new) }
    ensures fetched { IfSome result (λ n. Fetched R.known (field_width field.now) reader.old
        reader.new) }
    ensures early { FetchedInTime reader.old reader.new }
    ensures stays { IsNone result → reader.new ≡ reader.old }
    ensures stopped { KeepsSourceStopped reader.old reader.new }
{
    let width = high_width(field)?;
    let number = reader.try_read_number(width, Order::Msb0)?;
    Some(number)
}

// Reads the value of a field, with all checks.
#[inline(always)]
fn read_checked<R: Source>(reader: &mut Reader<R>, field: &Field) -> Result<Number, DekuError>
    ensures reads { Reads R.known (ReadsField field.now) reader.old result reader.new }
    ensures fetched { OnOk result (Fetched R.known (field_width field.now) reader.old reader.new) }
    ensures early { FetchedInTime reader.old reader.new }
    ensures stopped { KeepsSourceStopped reader.old reader.new }
{
    let number_type = field.kind.number_type();
    if number_type.signed {
        let value = read_signed(reader, number_type, field.layout)?;
        Ok(Number::Signed(value))
    } else {
        let value = read_unsigned(reader, number_type, field.layout)?;
        Ok(Number::Unsigned(value))
    }
}

/// Reads one value for each field, in order. It is `read_list_into` with a new vector, whose memory
/// is allocated first.
///
/// If there is no memory, it fails with `Io(OutOfMemory)`, and nothing moves.
///
/// ```text
/// read_list(&mut reader, &[four, twelve])?                   // 6 and 0x9C0, of the bytes 69 C0
/// ```
pub fn read_list<R: Source>(
    reader: &mut Reader<R>,
    fields: &[Field],
) -> Result<Vec<Number>, DekuError>
    ensures meaning { Reads R.known (ReadsList fields.now) reader.old (items_of result) reader.new }
    ensures values { ReadsWhereSound R.known (ReadsBackVec fields.now) reader.old (items_of result)
        reader.new }
    ensures found { ReadsWhereTold R.known (FindsAny fields.now) reader.old (items_of result)
        reader.new }
    ensures behind { LeavesBehind R.known fields.now reader.old (items_of result) reader.new }
    ensures fetched { OnOk result (Fetched R.known (total (map field_shape fields.now)) reader.old
        reader.new) }
    ensures early { FetchedInTime reader.old reader.new }
    ensures stopped { KeepsSourceStopped reader.old reader.new }
    ensures none { fields.now ≡ [] → reader.new ≡ reader.old }
    ensures cause { Caused WantsMemory reader.old.state (R.known (source_of reader.old)).health
        result (R.known (source_of reader.new)).health }
{
    let Ok(mut numbers) = vec![in reader.alloc(); Number::Unsigned(0); fields.len()] else {
        return Err(DekuError::Io(ErrorKind::OutOfMemory));
    };
    read_list_into(reader, fields, numbers.as_mut_slice())?;
    Ok(numbers)
}

/// Reads fields from the first byte on. Returns how many bits they took, and their values.
///
/// It fails as `read_list` does. `Incomplete` has the bits that were asked for.
///
/// ```text
/// // 4 bits, 4 bits and a `u16`, big and `Msb0`, from 69 C0 FE
/// list_from_bytes(alloc, &bytes, &fields)?           // (24, [6, 9, 49406])
/// ```
pub fn list_from_bytes(
    alloc: Global,
    bytes: &[u8],
    fields: &[Field],
) -> Result<(usize, Vec<Number>), DekuError>
    ensures meaning { ListFrom fields.now bytes.now result }
    ensures values { ReadsBackFrom fields.now bytes.now result }
    ensures found { FindsIn fields.now bytes.now result }
    ensures fetched { IfOk result (λ v. (v.0 ≡ total (map field_shape fields.now))
        × (v.0 ≤ 8 * length bytes.now)) }
    ensures cause { IfErr result (λ e. (k : IoKind) → e ≡ Io k → WantsMemory k) }
{
    let mut reader = Reader::new(alloc, Cursor::new(bytes));
    let numbers = read_list(&mut reader, fields)?;
    Ok((reader.bits_read(), numbers))
}
