//! Numbers that are laid into bytes in memory.

ghost use Rattle.std.specs.Prelude.{◌≡◌, ◌+◌, ◌*◌, ◌/◌, ◌%◌, ◌<◌};
ghost use Rattle.std.specs.Prelude.{◌≤◌, ◌^◌, ◌++◌, ℕ};
ghost use Rattle.std.specs.Prelude.{All, length, take, drop, IfSome, IsNone, IsTrue, IsFalse};
ghost use Rattle.std.specs.Int.{w64, to_be_bytes};
ghost use Rattle.deku_bits.specs.Bits.{bits_in};
ghost use Rattle.deku_plan.specs.Plans.{widths};
ghost use Rattle.deku_plan.specs.Joining.{AreParts};
ghost use Rattle.deku_plan.specs.Blocks.{group_sizes};
ghost use Rattle.deku_plan.specs.Laying.{IsShort, turns, HasBits, AreFitting, value_bits, row_bits};
ghost use Rattle.deku_plan.specs.Laying.{IsHeld, laid_count, laid_bits};

use crate::block::{WORDS, laid_at_once};
use crate::join::join_records;
use crate::part::Part;
use crate::step::Step;
use deku_fields::Number;

/// How far a row of values is laid into bytes: up to a place among them, and the bits after it are
/// held as the low ones of a word.
#[derive(Clone, Copy)]
pub(crate) struct Laid {
    place: usize,
    word: u64,
    held: usize,
}

/// Lays the values of records into bytes, one after the other from the first bit on, if the steps
/// are short, the values fit them and fill whole bytes, and there is room. Returns how many bytes
/// they fill. Otherwise it returns `None`, and nothing changes.
pub(crate) fn laid_all(
    out: &mut [u8],
    short: bool,
    count: usize,
    bits: usize,
    steps: &[Step],
    parts: &[Part],
    sizes: &[usize],
    values: &[Number],
) -> Option<usize>
    requires short { IsTrue short → All IsShort steps.now }
    requires parts { length parts.now ≡ length steps.now → AreParts 0 steps.now parts.now 0 }
    requires sizes { sizes.now ≡ group_sizes parts.now }
    requires bits { bits ≡ widths steps.now }
    requires values { length values.now ≡ count * length steps.now }
    ensures short { IfSome result (λ n. IsTrue short) }
    ensures counted { IfSome result (λ n. 8 * n < 2 ^ 64) }
    ensures within { IfSome result (λ n. n ≤ length out.old) }
    ensures long { length out.new ≡ length out.old }
    ensures fitting { IfSome result (λ n. AreFitting (turns count steps.now) values.now) }
    ensures bits { IfSome result (λ n. bits_in (take n out.new) ≡ row_bits (turns count steps.now)
        values.now) }
    ensures rest { IfSome result (λ n. drop n out.new ≡ drop n out.old) }
    ensures stays { IsNone result → out.new ≡ out.old }
    ensures bytes { All (λ b. b < 256) out.new }
{
    if !short {
        return None;
    }
    let bytes = whole_bytes(count, bits, out.len())?;
    if laid_either(&mut out[..bytes], count, steps, parts, sizes, values) {
        Some(bytes)
    } else {
        None
    }
}

// How many bytes records of this many bits fill, if these are whole bytes and there is room.
fn whole_bytes(count: usize, bits: usize, room: usize) -> Option<usize>
    ensures whole { IfSome result (λ n. 8 * n ≡ count * bits) }
    ensures counted { IfSome result (λ n. 8 * n < 2 ^ 64) }
    ensures within { IfSome result (λ n. n ≤ room) }
{
    let all = count.checked_mul(bits)?;
    if all % 8 == 0 && all / 8 <= room {
        Some(all / 8)
    } else {
        None
    }
}

// Whether the values of records fit the steps.
fn are_fitting(count: usize, steps: &[Step], values: &[Number]) -> bool
    requires short { All IsShort steps.now }
    requires values { length values.now ≡ count * length steps.now }
    ensures { IsTrue result → AreFitting (turns count steps.now) values.now }
{
    let mut place = 0;
    for _ in 0..count {
        let next = place + steps.len();
        if !is_fitting(steps, &values[place..next]) {
            return false;
        }
        place = next;
    }
    true
}

// Whether the values of a record fit the steps.
#[inline(always)]
fn is_fitting(steps: &[Step], values: &[Number]) -> bool
    requires short { All IsShort steps.now }
    requires values { length values.now ≡ length steps.now }
    ensures { IsTrue result → AreFitting steps.now values.now }
{
    let mut beyond: u64 = 0;
    for (place, step) in steps.iter().enumerate() {
        beyond |= bits_beyond(values[place], step.mask);
    }
    beyond == 0
}

// Some of the bits of a value that a mask has not, or a bit for a signed one. There is none if the
// value fits. It has no branch, so that many values are looked at together.
#[inline(always)]
fn bits_beyond(value: Number, mask: u64) -> u64
    ensures { result ≡ 0 → (w : ℕ) → w ≤ 57 → mask + 1 ≡ 2 ^ w → HasBits w value }
{
    match value {
        Number::Unsigned(number) => {
            (number >> 64) as u64 | ((number % (1 << 64)) as u64 & !mask)
        }
        Number::Signed(_) => 1,
    }
}

// Lays the values of records into the bytes that they fill, if they fit: a group of fields at a
// time if each step has a part. Returns whether they fit. Nothing changes if they do not.
fn laid_either(
    out: &mut [u8],
    count: usize,
    steps: &[Step],
    parts: &[Part],
    sizes: &[usize],
    values: &[Number],
) -> bool
    requires short { All IsShort steps.now }
    requires parts { length parts.now ≡ length steps.now → AreParts 0 steps.now parts.now 0 }
    requires sizes { sizes.now ≡ group_sizes parts.now }
    requires values { length values.now ≡ count * length steps.now }
    requires whole { 8 * length out.old ≡ count * widths steps.now }
    ensures fitting { IsTrue result → AreFitting (turns count steps.now) values.now }
    ensures bits { IsTrue result → bits_in out.new ≡ row_bits (turns count steps.now)
        values.now }
    ensures stays { IsFalse result → out.new ≡ out.old }
    ensures long { length out.new ≡ length out.old }
{
    let joins = parts.len() == steps.len();
    if joins && are_few(count, sizes.len()) {
        return laid_at_once(out, count, steps, parts, sizes, values);
    }
    if !are_fitting(count, steps, values) {
        return false;
    }
    if joins {
        join_records(out, count, steps, parts, values);
    } else {
        lay_records(out, count, steps, values);
    }
    true
}

// Whether the groups of records have few enough words, and there are some records.
fn are_few(count: usize, groups: usize) -> bool
    ensures some { IsTrue result → 0 < count }
    ensures few { IsTrue result → count * groups ≤ 64 }
{
    match count.checked_mul(groups) {
        Some(words) => count > 0 && words <= WORDS,
        None => false,
    }
}

// Lays the values of records that fit, and that fill the bytes.
fn lay_records(out: &mut [u8], count: usize, steps: &[Step], values: &[Number])
    requires short { All IsShort steps.now }
    requires values { length values.now ≡ count * length steps.now }
    requires fitting { AreFitting (turns count steps.now) values.now }
    requires whole { 8 * length out.old ≡ count * widths steps.now }
    ensures bits { bits_in out.new ≡ row_bits (turns count steps.now) values.now }
    ensures long { length out.new ≡ length out.old }
{
    let mut laid = Laid {
        place: 0,
        word: 0,
        held: 0,
    };
    let mut place = 0;
    for _ in 0..count {
        let next = place + steps.len();
        laid = lay_record(out, laid, steps, &values[place..next]);
        place = next;
    }
    if laid.held > 0 {
        let _all = store(out, laid);
    }
}

// Lays the values of a record that fit. Returns how far they are laid.
#[inline(always)]
fn lay_record(out: &mut [u8], from: Laid, steps: &[Step], values: &[Number]) -> Laid
    requires short { All IsShort steps.now }
    requires values { length values.now ≡ length steps.now }
    requires fitting { AreFitting steps.now values.now }
    requires held { IsHeld from }
    requires room { laid_count from + widths steps.now ≤ 8 * length out.old }
    ensures bits { laid_bits out.new result ≡ laid_bits out.old from ++ row_bits steps.now
        values.now }
    ensures count { laid_count result ≡ laid_count from + widths steps.now }
    ensures held { IsHeld result }
    ensures long { length out.new ≡ length out.old }
{
    let mut laid = from;
    for (place, step) in steps.iter().enumerate() {
        laid = lay_value(out, laid, *step, values[place]);
    }
    laid
}

// Lays a value that fits.
#[inline(always)]
fn lay_value(out: &mut [u8], from: Laid, step: Step, value: Number) -> Laid
    requires short { IsShort step }
    requires fits { HasBits step.width value }
    requires held { IsHeld from }
    requires room { laid_count from + step.width ≤ 8 * length out.old }
    ensures bits { laid_bits out.new result ≡ laid_bits out.old from ++ value_bits step.width
        value }
    ensures count { laid_count result ≡ laid_count from + step.width }
    ensures held { IsHeld result }
    ensures long { length out.new ≡ length out.old }
{
    let laid = with_room(out, from, step.width);
    let Number::Unsigned(number) = value else {
        return laid;
    };
    Laid {
        place: laid.place,
        word: laid.word * (step.mask + 1) + (number % (1 << 64)) as u64,
        held: laid.held + step.width,
    }
}

// Stores the held bits if the word has no room for so many more.
#[inline(always)]
fn with_room(out: &mut [u8], from: Laid, more: usize) -> Laid
    requires few { more ≤ 57 }
    requires held { IsHeld from }
    requires room { laid_count from ≤ 8 * length out.old }
    ensures bits { laid_bits out.new result ≡ laid_bits out.old from }
    ensures count { laid_count result ≡ laid_count from }
    ensures held { IsHeld result }
    ensures room { result.held + more ≤ 64 }
    ensures long { length out.new ≡ length out.old }
{
    if from.held + more > 64 {
        store(out, from)
    } else {
        from
    }
}

// Stores the whole bytes of the held bits.
#[inline(always)]
fn store(out: &mut [u8], from: Laid) -> Laid
    requires some { 0 < from.held }
    requires held { IsHeld from }
    requires room { laid_count from ≤ 8 * length out.old }
    ensures bits { laid_bits out.new result ≡ laid_bits out.old from }
    ensures count { laid_count result ≡ laid_count from }
    ensures held { IsHeld result }
    ensures few { result.held < 8 }
    ensures long { length out.new ≡ length out.old }
{
    put_first(
        out,
        from.place,
        from.word << (64 - from.held),
        from.held / 8,
    );
    let place = from.place + from.held / 8;
    if from.held % 8 == 0 {
        return Laid {
            place,
            word: 0,
            held: 0,
        };
    }
    last_bits(place, from.word, from.held % 8)
}

// Holds the low bits of a word. It is a call, so that a word of whole bytes waits for no other.
#[inline(never)]
fn last_bits(place: usize, word: u64, held: usize) -> Laid
    requires { held < 8 }
    ensures place { result.place ≡ place }
    ensures word { result.word ≡ word % 2 ^ held }
    ensures held { result.held ≡ held }
{
    Laid {
        place,
        word: word % (1 << held),
        held,
    }
}

/// Overwrites those from a place on with the eight bytes of a word, the high one first, of which
/// the first n count, or with these alone if the others do not fit. What follows them is
/// unspecified.
#[inline(always)]
pub(crate) fn put_first(out: &mut [u8], place: usize, word: u64, n: usize)
    requires few { n ≤ 8 }
    requires room { place + n ≤ length out.old }
    ensures front { take (place + n) out.new ≡ take place out.old ++ take n
        (to_be_bytes w64 word) }
    ensures long { length out.new ≡ length out.old }
{
    if out.len() - place >= 8 {
        out[place..place + 8].copy_from_slice(&word.to_be_bytes());
    } else {
        put_last(out, place, word, n);
    }
}

// Overwrites those from a place on with the first n bytes of a word.
#[cold]
#[inline(never)]
fn put_last(out: &mut [u8], place: usize, word: u64, n: usize)
    requires few { n ≤ 8 }
    requires room { place + n ≤ length out.old }
    ensures front { take (place + n) out.new ≡ take place out.old ++ take n
        (to_be_bytes w64 word) }
    ensures long { length out.new ≡ length out.old }
{
    out[place..place + n].copy_from_slice(&word.to_be_bytes()[..n]);
}
