//! Writing the fields of a plan.

ghost use Rattle.std.specs.Prelude.{◌≡◌, ◌<◌, ◌≤◌, ◌^◌, [], length, Ok, IfSome};
ghost use Rattle.std.specs.Prelude.{IsTrue, IsFalse};
ghost use Rattle.deku_bits.specs.Causes.{WantsPlace, Caused};
ghost use Rattle.deku_bits.specs.WriterCalls.{Writes, sink_of, KeepsSinkStopped};
ghost use Rattle.deku_fields.specs.declared.list.Number.TheVariants.{Unsigned};
ghost use Rattle.deku_fields.specs.ListCalls.{WritesItem, WritesItems};
ghost use Rattle.deku_fields.specs.Promise.{WritesLaid, WritesWhereSound};
ghost use Rattle.deku_plan.specs.Plans.{IsStepOf, AreSteps, items};

use crate::step::Step;
use deku::calls::{write_signed, write_unsigned};
use deku::ctx::Order;
use deku::device::Sink;
use deku::error::DekuError;
use deku::writer::Writer;
use deku_fields::{Field, Item, Number};
use deku_num::kernel::is_below;

/// Writes one value for each field.
#[inline(always)]
pub(crate) fn write_steps<W: Sink>(
    writer: &mut Writer<W>,
    fields: &[Field],
    steps: &[Step],
    values: &[Number],
) -> Result<(), DekuError>
    requires steps { AreSteps fields.now steps.now }
    requires values { length values.now ≡ length fields.now }
    ensures meaning { Writes W.known (WritesItems (items fields.now values.now)) writer.old result
        writer.new }
    ensures laid_out { WritesWhereSound W.known (WritesLaid (items fields.now values.now))
        writer.old result writer.new }
    ensures stopped { KeepsSinkStopped writer.old writer.new }
    ensures none { fields.now ≡ [] → writer.new ≡ writer.old }
    ensures cause { Caused WantsPlace writer.old.state (W.known (sink_of writer.old)).health
        result (W.known (sink_of writer.new)).health }
{
    for (place, field) in fields.iter().enumerate() {
        let item = Item {
            field: *field,
            value: values[place],
        };
        write_item(writer, &item, steps[place])?;
    }
    Ok(())
}

// Writes the value of an item, at once if its step says how and there is room.
#[inline(always)]
fn write_item<W: Sink>(writer: &mut Writer<W>, item: &Item, step: Step) -> Result<(), DekuError>
    requires { IsStepOf item.now.field step }
    ensures writes { Writes W.known (WritesItem item.now) writer.old result writer.new }
    ensures stopped { KeepsSinkStopped writer.old writer.new }
{
    if laid_high(writer, item, step) {
        return Ok(());
    }
    write_checked(writer, item)
}

// Writes the value of an item with its high bits first, if its step says so, the value fits, and
// there is room. Returns whether it did. Otherwise nothing changes.
#[inline(always)]
fn laid_high<W: Sink>(writer: &mut Writer<W>, item: &Item, step: Step) -> bool
    requires { IsStepOf item.now.field step }
    ensures writes { IsTrue result → Writes W.known (WritesItem item.now) writer.old (Ok tt)
        writer.new }
    ensures stays { IsFalse result → writer.new ≡ writer.old }
    ensures stopped { KeepsSinkStopped writer.old writer.new }
{
    match high_number(step, item.value) {
        Some(number) => writer.try_write_number(number, step.width, Order::Msb0),
        None => false,
    }
}

// The number that is written with its high bits first, if the step says so and the value fits.
#[inline(always)]
fn high_number(step: Step, value: Number) -> Option<u64>
    ensures high { IfSome result (λ n. IsTrue step.high) }
    ensures same { IfSome result (λ n. value ≡ Unsigned n) }
    ensures few { IfSome result (λ n. step.width ≤ 64) }
    ensures below { IfSome result (λ n. n < 2 ^ step.width) }
{
    let Number::Unsigned(number) = value else {
        return None;
    };
    if step.high && step.width <= 64 && is_below(number, step.width) {
        Some(number as u64)
    } else {
        None
    }
}

// Writes the value of an item, with all checks. It is inlined, so that no call has the writer by
// reference.
#[inline(always)]
fn write_checked<W: Sink>(writer: &mut Writer<W>, item: &Item) -> Result<(), DekuError>
    ensures writes { Writes W.known (WritesItem item.now) writer.old result writer.new }
    ensures stopped { KeepsSinkStopped writer.old writer.new }
{
    if !item.field.kind.holds(item.value) {
        return Err(DekuError::InvalidParam("value outside type"));
    }
    let number_type = item.field.kind.number_type();
    match item.value {
        Number::Unsigned(value) => write_unsigned(writer, value, number_type, item.field.layout),
        Number::Signed(value) => write_signed(writer, value, number_type, item.field.layout),
    }
}
