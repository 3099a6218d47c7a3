//! Numbers that are joined to words of whole bytes.

ghost use Rattle.std.specs.Prelude.{◌≡◌, ◌+◌, ◌*◌, ◌<◌, ◌≤◌, ◌++◌};
ghost use Rattle.std.specs.Prelude.{length, take};
ghost use Rattle.deku_bits.specs.Bits.{bits_in};
ghost use Rattle.deku_fields.specs.declared.list.Number.TheVariants.{Unsigned};
ghost use Rattle.deku_plan.specs.Plans.{widths};
ghost use Rattle.deku_plan.specs.Laying.{turns, HasBits, AreFitting, value_bits, row_bits};
ghost use Rattle.deku_plan.specs.Joining.{IsPart, AreParts, held_after, IsJoined, held_bits};
ghost use Rattle.deku_plan.specs.Joining.{joined_count, joined_bits};

use crate::lay::put_first;
use crate::part::Part;
use crate::step::Step;
use deku_fields::Number;

/// How far a row of values is joined to bytes: up to a place among them, and the bits after it are
/// held as the high ones of a word.
#[derive(Clone, Copy)]
pub(crate) struct Joined {
    place: usize,
    word: u64,
    held: usize,
}

/// Lays the values of records that fit, and that fill the bytes, a group of fields at a time.
pub(crate) fn join_records(
    out: &mut [u8],
    count: usize,
    steps: &[Step],
    parts: &[Part],
    values: &[Number],
)
    requires parts { AreParts 0 steps.now parts.now 0 }
    requires values { length values.now ≡ count * length steps.now }
    requires fitting { AreFitting (turns count steps.now) values.now }
    requires whole { 8 * length out.old ≡ count * widths steps.now }
    ensures bits { bits_in out.new ≡ row_bits (turns count steps.now) values.now }
    ensures long { length out.new ≡ length out.old }
{
    let (mut byte, mut place) = (0, 0);
    for _ in 0..count {
        let next = place + steps.len();
        byte = join_record(out, byte, steps, parts, &values[place..next]);
        place = next;
    }
}

// Lays the values of a record from a place on. Returns the place after them.
#[inline(always)]
fn join_record(
    out: &mut [u8],
    from: usize,
    steps: &[Step],
    parts: &[Part],
    values: &[Number],
) -> usize
    requires parts { AreParts 0 steps.now parts.now 0 }
    requires values { length values.now ≡ length steps.now }
    requires fitting { AreFitting steps.now values.now }
    requires room { 8 * from + widths steps.now ≤ 8 * length out.old }
    ensures bits { bits_in (take result out.new) ≡ bits_in (take from out.old) ++ row_bits steps.now
        values.now }
    ensures count { 8 * result ≡ 8 * from + widths steps.now }
    ensures long { length out.new ≡ length out.old }
{
    let mut joined = Joined {
        place: from,
        word: 0,
        held: 0,
    };
    for (place, part) in parts.iter().enumerate() {
        joined = join(out, joined, steps[place], *part, values[place]);
    }
    joined.place
}

// Joins a value that fits, and stores the bytes of the group if it ends with it.
#[inline(always)]
fn join(out: &mut [u8], from: Joined, step: Step, part: Part, value: Number) -> Joined
    requires part { IsPart from.held step part }
    requires fits { HasBits step.width value }
    requires joined { IsJoined from }
    requires room { joined_count from + step.width ≤ 8 * length out.old }
    ensures bits { joined_bits out.new result ≡ joined_bits out.old from ++ value_bits step.width
        value }
    ensures count { joined_count result ≡ joined_count from + step.width }
    ensures held { result.held ≡ held_after part.bytes (from.held + step.width) }
    ensures joined { IsJoined result }
    ensures long { length out.new ≡ length out.old }
{
    let joined = with_value(from, step, part, value);
    if part.bytes == 0 {
        return joined;
    }
    put_first(out, joined.place, joined.word, part.bytes);
    Joined {
        place: joined.place + part.bytes,
        word: 0,
        held: 0,
    }
}

// Holds the bits of a value too.
#[inline(always)]
fn with_value(from: Joined, step: Step, part: Part, value: Number) -> Joined
    requires part { IsPart from.held step part }
    requires fits { HasBits step.width value }
    requires joined { IsJoined from }
    ensures bits { held_bits result ≡ held_bits from ++ value_bits step.width value }
    ensures place { result.place ≡ from.place }
    ensures held { result.held ≡ from.held + step.width }
    ensures joined { IsJoined result }
{
    Joined {
        place: from.place,
        word: from.word + word_of(value, step.width) * part.scale,
        held: from.held + step.width,
    }
}

// The number of a value that fits. No such value is signed: both arms take its low bits, so that
// there is no branch.
#[inline(always)]
fn word_of(value: Number, width: usize) -> u64
    requires few { width ≤ 64 }
    requires fits { HasBits width value }
    ensures { value ≡ Unsigned result }
{
    let _ = width;
    match value {
        Number::Unsigned(number) => number as u64,
        Number::Signed(number) => number as u64,
    }
}
