//! Reading the fields of a plan.

ghost use Rattle.std.specs.Prelude.{◌≡◌, ◌≤◌, [], length, map, true, Ok, OnOk, IfSome};
ghost use Rattle.std.specs.Prelude.{IsNone};
ghost use Rattle.deku_bits.specs.Pieces.{total};
ghost use Rattle.deku_bits.specs.ReaderCalls.{Reads, filling, source_of, Fetched, FetchedInTime};
ghost use Rattle.deku_bits.specs.ReaderCalls.{KeepsSourceStopped};
ghost use Rattle.deku_bits.specs.Causes.{NoKind, Caused};
ghost use Rattle.deku_fields.specs.declared.list.Number.TheVariants.{Unsigned};
ghost use Rattle.deku_fields.specs.Items.{field_shape, field_width};
ghost use Rattle.deku_fields.specs.ListCalls.{ReadsField, ReadsFields};
ghost use Rattle.deku_fields.specs.Promise.{FindsAny, LeavesBehind, ReadsBack, ReadsWhereSound};
ghost use Rattle.deku_fields.specs.Promise.{ReadsWhereTold};
ghost use Rattle.deku_plan.specs.Plans.{IsStepOf, IsHigh, AreSteps};

use crate::step::Step;
use deku::calls::{read_signed, read_unsigned};
use deku::ctx::Order;
use deku::device::Source;
use deku::error::DekuError;
use deku::reader::Reader;
use deku_fields::{Field, Number};

/// Reads one value for each field into `out`.
#[inline(always)]
pub(crate) fn read_steps<R: Source>(
    reader: &mut Reader<R>,
    fields: &[Field],
    steps: &[Step],
    out: &mut [Number],
) -> Result<(), DekuError>
    requires steps { AreSteps fields.now steps.now }
    requires places { length out.old ≡ length fields.now }
    ensures meaning { Reads R.known (ReadsFields fields.now) reader.old (filling result out.new)
        reader.new }
    ensures values { ReadsWhereSound R.known (ReadsBack fields.now) reader.old
        (filling result out.new) reader.new }
    ensures found { ReadsWhereTold R.known (FindsAny fields.now) reader.old (filling result out.new)
        reader.new }
    ensures behind { LeavesBehind R.known fields.now reader.old (filling result out.new)
        reader.new }
    ensures fetched { OnOk result (Fetched R.known (total (map field_shape fields.now)) reader.old
        reader.new) }
    ensures early { FetchedInTime reader.old reader.new }
    ensures stopped { KeepsSourceStopped reader.old reader.new }
    ensures none { fields.now ≡ [] → reader.new ≡ reader.old }
    ensures cause { Caused NoKind reader.old.state (R.known (source_of reader.old)).health result
        (R.known (source_of reader.new)).health }
{
    for (place, field) in fields.iter().enumerate() {
        let number = read_field(reader, field, steps[place])?;
        out[place] = number;
    }
    Ok(())
}

// Reads the value of a field, at once if its step says how and its bits are in memory.
#[inline(always)]
fn read_field<R: Source>(
    reader: &mut Reader<R>,
    field: &Field,
    step: Step,
) -> Result<Number, DekuError>
    requires { IsStepOf field.now step }
    ensures reads { Reads R.known (ReadsField field.now) reader.old result reader.new }
    ensures fetched { OnOk result (Fetched R.known (field_width field.now) reader.old reader.new) }
    ensures early { FetchedInTime reader.old reader.new }
    ensures stopped { KeepsSourceStopped reader.old reader.new }
{
    match high_number(reader, field, step) {
        Some(number) => Ok(Number::Unsigned(number as u128)),
        None => read_checked(reader, field),
    }
}

// The number of a field with its high bits first, if its step says so and the bits are in memory.
// Otherwise it returns `None`, and nothing moves.
#[inline(always)]
fn high_number<R: Source>(reader: &mut Reader<R>, field: &Field, step: Step) -> Option<u64>
    requires { IsStepOf field.now step }
    ensures reads { IfSome result (λ n. Reads R.known (ReadsField field.now) reader.old
        (Ok (Unsigned n)) reader.new) }
    ensures fetched { IfSome result (λ n. Fetched R.known (field_width field.now) reader.old
        reader.new) }
    ensures early { FetchedInTime reader.old reader.new }
    ensures stays { IsNone result → reader.new ≡ reader.old }
    ensures stopped { KeepsSourceStopped reader.old reader.new }
{
    let width = high_width(field, step)?;
    let number = reader.try_read_number(width, Order::Msb0)?;
    Some(number)
}

// The bits of a field that is unsigned, big and `Msb0`, if they are at most 64.
#[inline(always)]
fn high_width(field: &Field, step: Step) -> Option<usize>
    requires { IsStepOf field.now step }
    ensures high { IfSome result (λ n. IsHigh field.now) }
    ensures wide { IfSome result (λ n. n ≡ field_width field.now) }
    ensures few { IfSome result (λ n. n ≤ 64) }
{
    let _ = field;
    if step.high { Some(step.width) } else { None }
}

// Reads the value of a field, with all checks.
#[inline(always)]
fn read_checked<R: Source>(reader: &mut Reader<R>, field: &Field) -> Result<Number, DekuError>
    ensures reads { Reads R.known (ReadsField field.now) reader.old result reader.new }
    ensures fetched { OnOk result (Fetched R.known (field_width field.now) reader.old reader.new) }
    ensures early { FetchedInTime reader.old reader.new }
    ensures stopped { KeepsSourceStopped reader.old reader.new }
{
    let number_type = field.kind.number_type();
    if number_type.signed {
        let value = read_signed(reader, number_type, field.layout)?;
        Ok(Number::Signed(value))
    } else {
        let value = read_unsigned(reader, number_type, field.layout)?;
        Ok(Number::Unsigned(value))
    }
}
