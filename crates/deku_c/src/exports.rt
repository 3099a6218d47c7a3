//! The functions that C calls.

#![tactic(auto, using(crate::proofs::Exporting::unnamed_first, crate::proofs::Exporting::miscounted_next, crate::proofs::Exporting::accepted_ok, crate::proofs::Exporting::accepted_err, crate::proofs::Exporting::counted, crate::proofs::Exporting::uncounted))]

ghost use Rattle.std.specs.Prelude.{◌≡◌, ◌↔◌, ◌<◌, ◌^◌, length, map, All};
ghost use Rattle.deku_bits.specs.Pieces.{total};
ghost use Rattle.deku_fields.specs.Items.{IsAllowedField, field_shape};
ghost use Rattle.deku_c.specs.Codes.{IsNamed, fields_in, items_in};
ghost use Rattle.deku_c.specs.Calls.{Accepts, Counts, ReadsFor, WritesFor};

use crate::codes::{FieldCode, NumberCode, are_named};
use crate::read::read_numbers;
use crate::sizes::total_bits;
use crate::status::{INVALID_PARAM, MISCOUNTED, OK, UNNAMED, status_of};
use crate::write::write_numbers;
use std::alloc::Global;

/// Writes to `bits` how many bits the fields take.
///
/// The status is `UNNAMED` if a field has a number that the header does not name, and
/// `INVALID_PARAM` if a layout is rejected or the bits cannot be counted. Then `bits` stays as it
/// was.
#[unsafe(no_mangle)]
pub extern "C" fn dishkaru_bits(fields: &[FieldCode], bits: &mut u64) -> u32
    ensures unnamed { (result ≡ 1) ↔ (All IsNamed fields.now → ⊥) }
    ensures stays { result ≡ 1 → bits.new ≡ bits.old }
    ensures counts { All IsNamed fields.now → Counts (fields_in fields.now) result bits.old
        bits.new }
{
    if !are_named(fields) {
        return UNNAMED;
    }
    match total_bits(fields) {
        Some(sum) => {
            *bits = sum;
            OK
        }
        None => INVALID_PARAM,
    }
}

/// Reads one number for each field from the first byte on, and writes to `bits` how many bits they
/// took.
///
/// The status is `UNNAMED` if a field has a number that the header does not name, `MISCOUNTED` if
/// there are not as many numbers as fields, and otherwise that of the error of `read_list_into`.
/// Then `bits` stays as it was, and the numbers are unspecified; after the first two they stay too.
#[unsafe(no_mangle)]
pub extern "C" fn dishkaru_read(
    alloc: Global,
    fields: &[FieldCode],
    bytes: &[u8],
    numbers: &mut [NumberCode],
    bits: &mut u64,
) -> u32
    ensures accepts { Accepts fields.now (length numbers.old) result }
    ensures unnamed { result ≡ 1 → (numbers.new ≡ numbers.old) × (bits.new ≡ bits.old) }
    ensures miscounted { result ≡ 2 → (numbers.new ≡ numbers.old) × (bits.new ≡ bits.old) }
    ensures reads { All IsNamed fields.now → length numbers.old ≡ length fields.now
        → ReadsFor fields.now bytes.now result numbers.new bits.old bits.new }
{
    if !are_named(fields) {
        return UNNAMED;
    }
    if numbers.len() != fields.len() {
        return MISCOUNTED;
    }
    match read_numbers(alloc, fields, bytes, numbers) {
        Ok(count) => {
            *bits = count as u64;
            OK
        }
        Err(error) => status_of(error),
    }
}

/// Writes the number of each field to the start of the bytes, fills the last byte with zeros, and
/// writes to `count` how many bytes there are. The bytes after them stay as they were.
///
/// The status is `UNNAMED` if a field has a number that the header does not name, `MISCOUNTED` if
/// there are not as many numbers as fields, and otherwise that of the error of `write_list`, or of
/// `Io(WriteZero)` if there are too few bytes. Then `count` stays as it was.
#[unsafe(no_mangle)]
pub extern "C" fn dishkaru_write(
    fields: &[FieldCode],
    numbers: &[NumberCode],
    bytes: &mut [u8],
    count: &mut u64,
) -> u32
    ensures accepts { Accepts fields.now (length numbers.now) result }
    ensures unnamed { result ≡ 1 → (bytes.new ≡ bytes.old) × (count.new ≡ count.old) }
    ensures miscounted { result ≡ 2 → (bytes.new ≡ bytes.old) × (count.new ≡ count.old) }
    ensures writes { All IsNamed fields.now → length numbers.now ≡ length fields.now
        → WritesFor (items_in fields.now numbers.now) bytes.old result bytes.new count.old
        count.new }
{
    if !are_named(fields) {
        return UNNAMED;
    }
    if numbers.len() != fields.len() {
        return MISCOUNTED;
    }
    match write_numbers(fields, numbers, bytes) {
        Ok(written) => {
            *count = written as u64;
            OK
        }
        Err(error) => status_of(error),
    }
}
