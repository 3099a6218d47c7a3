//! Writing lists of items.

ghost use Rattle.std.specs.Prelude.{◌≡◌, ◌<◌, ◌≤◌, ◌^◌, [], false, Ok, IfErr};
ghost use Rattle.std.specs.Prelude.{IfSome, IsTrue, IsFalse};
ghost use Rattle.std.specs.declared.io.ErrorKind.{ErrorKind as IoKind};
ghost use Rattle.deku_bits.specs.declared.error.DekuError.TheVariants.{Io};
ghost use Rattle.deku_bits.specs.Causes.{WantsPlace, Caused};
ghost use Rattle.deku_bits.specs.WriterCalls.{Writes, Finalizes, sink_of, KeepsSinkStopped};
ghost use Rattle.deku.specs.Composing.{Both};
ghost use Rattle.deku_num.specs.Numbers.{IsWordFor};
ghost use Rattle.deku_fields.specs.declared.list.Number.TheVariants.{Unsigned};
ghost use Rattle.deku_fields.specs.Items.{number_type, field_width, IsAllowedField};
ghost use Rattle.deku_fields.specs.ListCalls.{IsOfKind, WritesItem, WritesItems, WritesWhole};
ghost use Rattle.deku_fields.specs.ListCalls.{integer_of};
ghost use Rattle.deku_fields.specs.Promise.{LaidOut, WritesBack, WritesLaid, WritesWhereSound};

use crate::list::{Item, Number, high_width, plain_width};
use deku::calls::{write_signed, write_unsigned};
use deku::ctx::{Endian, Order};
use deku::device::Sink;
use deku::error::DekuError;
use deku::writer::Writer;
use deku::{room_ahead, taken_bytes};
use deku_num::kernel::{is_below, unsigned_word};
use std::alloc::Global;
use std::io::Cursor;

/// Writes the items one after the other, without padding. It takes no memory except what the sink
/// takes.
///
/// An item fails with `InvalidParam("value outside type")` if its value is not of its kind. Then it
/// fails as its number does: if the size is beyond the kind, if a signed big `Lsb0` field has a
/// width that is not allowed, or if the value does not fit. And then it fails as `Writer` fails to
/// write its bits. What was written of the items before it stays written. Without items no call is
/// made on the writer.
///
/// ```text
/// write_list(&mut writer, &[six_in_four, nine_in_four])?;    // the byte 69
/// ```
pub fn write_list<W: Sink>(writer: &mut Writer<W>, items: &[Item]) -> Result<(), DekuError>
    ensures meaning { Writes W.known (WritesItems items.now) writer.old result writer.new }
    ensures laid_out { WritesWhereSound W.known (WritesLaid items.now) writer.old result
        writer.new }
    ensures stopped { KeepsSinkStopped writer.old writer.new }
    ensures none { items.now ≡ [] → writer.new ≡ writer.old }
    ensures cause { Caused WantsPlace writer.old.state (W.known (sink_of writer.old)).health result
        (W.known (sink_of writer.new)).health }
{
    for item in items {
        write_item(writer, item)?;
    }
    Ok(())
}

// Writes the value of an item, at once if nothing about it is rejected.
#[inline(always)]
fn write_item<W: Sink>(writer: &mut Writer<W>, item: &Item) -> Result<(), DekuError>
    ensures writes { Writes W.known (WritesItem item.now) writer.old result writer.new }
    ensures stopped { KeepsSinkStopped writer.old writer.new }
{
    if laid_high(writer, item) {
        return Ok(());
    }
    match plain_word(item) {
        Some((word, width)) => writer.write_word(word, width, item.field.layout.order),
        None => write_checked(writer, item),
    }
}

// Writes the value of an item with its high bits first, if nothing rejects it and the bits can be
// put into the sink's room. Returns whether it did. Otherwise nothing changes.
#[inline(always)]
fn laid_high<W: Sink>(writer: &mut Writer<W>, item: &Item) -> bool
    ensures writes { IsTrue result → Writes W.known (WritesItem item.now) writer.old (Ok tt)
        writer.new }
    ensures stays { IsFalse result → writer.new ≡ writer.old }
    ensures stopped { KeepsSinkStopped writer.old writer.new }
{
    match plain_high(item) {
        Some((number, width)) => writer.try_write_number(number, width, Order::Msb0),
        None => false,
    }
}

// The value of an item and how many bits it has, if its high bits come first, they are at most 64,
// and nothing rejects it.
#[inline(always)]
fn plain_high(item: &Item) -> Option<(u64, usize)>
    ensures value { IfSome result (λ r. item.now.value ≡ Unsigned r.0) }
    ensures unsigned { IfSome result (λ r. (number_type item.now.field.kind).signed ≡ false) }
    ensures big { IfSome result (λ r. item.now.field.layout.endian ≡ Endian.Big) }
    ensures high { IfSome result (λ r. item.now.field.layout.order ≡ Order.Msb0) }
    ensures wide { IfSome result (λ r. r.1 ≡ field_width item.now.field) }
    ensures few { IfSome result (λ r. r.1 ≤ 64) }
    ensures below { IfSome result (λ r. r.0 < 2 ^ r.1) }
    ensures allowed { IfSome result (λ r. IsAllowedField item.now.field) }
{
    let width = high_width(&item.field)?;
    let Number::Unsigned(value) = item.value else {
        return None;
    };
    let number = fitting(value, width)?;
    Some((number, width))
}

// A number, if it has at most this many bits.
#[inline(always)]
fn fitting(value: u128, bits: usize) -> Option<u64>
    requires { bits ≤ 64 }
    ensures same { IfSome result (λ n. n ≡ value) }
    ensures below { IfSome result (λ n. n < 2 ^ bits) }
{
    if is_below(value, bits) {
        Some(value as u64)
    } else {
        None
    }
}

// The word of an item and how many bits it has, if its kind is unsigned, its size is not in bytes,
// and nothing rejects it.
#[inline(always)]
fn plain_word(item: &Item) -> Option<(u128, usize)>
    ensures kind { IfSome result (λ r. IsOfKind item.now.field.kind item.now.value) }
    ensures allowed { IfSome result (λ r. IsAllowedField item.now.field) }
    ensures wide { IfSome result (λ r. r.1 ≡ field_width item.now.field) }
    ensures word { IfSome result (λ r. IsWordFor (number_type item.now.field.kind)
        item.now.field.layout (integer_of item.now.value) r.0) }
{
    let number_type = item.field.kind.number_type();
    let Number::Unsigned(value) = item.value else {
        return None;
    };
    if number_type.signed {
        return None;
    }
    let width = plain_width(number_type, item.field.layout.size)?;
    let word = unsigned_word(value, number_type, item.field.layout, width)?;
    Some((word, width))
}

// Writes the value of an item, with all checks. It is inlined, so that no call has the writer by
// reference.
#[inline(always)]
fn write_checked<W: Sink>(writer: &mut Writer<W>, item: &Item) -> Result<(), DekuError>
    ensures writes { Writes W.known (WritesItem item.now) writer.old result writer.new }
    ensures stopped { KeepsSinkStopped writer.old writer.new }
{
    if !item.field.kind.holds(item.value) {
        return Err(DekuError::InvalidParam("value outside type"));
    }
    let number_type = item.field.kind.number_type();
    match item.value {
        Number::Unsigned(value) => write_unsigned(writer, value, number_type, item.field.layout),
        Number::Signed(value) => write_signed(writer, value, number_type, item.field.layout),
    }
}

/// The bytes of the items, written one after the other from nothing and padded once with zeros. The
/// vector may have capacity to spare.
///
/// It fails as the first item that fails, as `write_list` says, or with `Io(OutOfMemory)` if there
/// is no memory.
///
/// ```text
/// // 4 bits, 4 bits and a `u16`, big and `Msb0`: 6, 9, 49406
/// list_to_bytes(alloc, &items)?                      // [0x69, 0xC0, 0xFE]
/// ```
pub fn list_to_bytes(alloc: Global, items: &[Item]) -> Result<Vec<u8>, DekuError>
    ensures meaning { WritesWhole (Both (WritesItems items.now) Finalizes) result }
    ensures laid_out { LaidOut items.now result }
    ensures back { WritesBack items.now result }
    ensures cause { IfErr result (λ e. (k : IoKind) → e ≡ Io k → WantsPlace k) }
{
    let mut writer = Writer::new(Cursor::new(room_ahead(alloc)));
    write_padded(&mut writer, items)?;
    Ok(taken_bytes(writer.into_inner()))
}

// Writes the items and fills the last byte with zeros.
fn write_padded<W: Sink>(writer: &mut Writer<W>, items: &[Item]) -> Result<(), DekuError>
    ensures { Writes W.known (Both (WritesItems items.now) Finalizes) writer.old result writer.new }
{
    write_list(writer, items)?;
    writer.finalize()
}
