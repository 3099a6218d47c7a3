//! Records that are joined a field at a time.

ghost use Rattle.std.specs.Prelude.{◌≡◌, ◌⊎◌, ◌+◌, ◌*◌, ◌<◌, ◌≤◌};
ghost use Rattle.std.specs.Prelude.{◌^◌, ◌%◌, ◌++◌, ℕ, All};
ghost use Rattle.std.specs.Prelude.{length, take, drop, slice_index_or, IfSome, IsTrue, IsFalse};
ghost use Rattle.deku_bits.specs.Bits.{bits_in};
ghost use Rattle.deku_fields.specs.declared.list.Number.TheVariants.{Unsigned};
ghost use Rattle.deku_plan.specs.Plans.{widths};
ghost use Rattle.deku_plan.specs.Joining.{AreParts};
ghost use Rattle.deku_plan.specs.Laying.{IsShort, HasBits, turns, AreFitting, row_bits};
ghost use Rattle.deku_plan.specs.Blocks.{group_sizes, all_sizes, group_words};
ghost use Rattle.deku_plan.specs.Blocks.{word_bits, words_bits};

use crate::lay::put_first;
use crate::part::Part;
use crate::step::Step;
use deku_fields::Number;

/// The most words that are joined at once.
pub(crate) const WORDS: usize = 64;

/// Lays the values of a few records into the bytes that they fill, if the values fit: a field of
/// all records at a time. Returns whether they fit. Nothing changes if they do not.
pub(crate) fn laid_at_once(
    out: &mut [u8],
    count: usize,
    steps: &[Step],
    parts: &[Part],
    sizes: &[usize],
    values: &[Number],
) -> bool
    requires some { 0 < count }
    requires few { count * length sizes.now ≤ 64 }
    requires short { All IsShort steps.now }
    requires parts { AreParts 0 steps.now parts.now 0 }
    requires sizes { sizes.now ≡ group_sizes parts.now }
    requires values { length values.now ≡ count * length steps.now }
    requires whole { 8 * length out.old ≡ count * widths steps.now }
    ensures fitting { IsTrue result → AreFitting (turns count steps.now) values.now }
    ensures bits { IsTrue result → bits_in out.new ≡ row_bits (turns count steps.now)
        values.now }
    ensures stays { IsFalse result → out.new ≡ out.old }
    ensures long { length out.new ≡ length out.old }
{
    let mut words = [0; WORDS];
    if join_fields(&mut words, count, steps, parts, values) > 0 {
        return false;
    }
    store_records(out, count, sizes, &words);
    true
}

// Adds the values of records to the words of their groups: those of the first group of all
// records, and so on. Returns 0 only if they fit. If they do not, the words are unspecified.
#[inline(always)]
fn join_fields(
    words: &mut [u64],
    count: usize,
    steps: &[Step],
    parts: &[Part],
    values: &[Number],
) -> u64
    requires some { 0 < count }
    requires short { All IsShort steps.now }
    requires parts { AreParts 0 steps.now parts.now 0 }
    requires values { length values.now ≡ count * length steps.now }
    requires room { count * length (group_sizes parts.now) ≤ length words.old }
    requires none { (j : ℕ) → slice_index_or words.old j 0 ≡ 0 }
    ensures fitting { result ≡ 0 → AreFitting (turns count steps.now) values.now }
    ensures words { result ≡ 0 → (r : ℕ) → (k : ℕ) → r < count
        → slice_index_or words.new (k * count + r) 0 ≡ group_words parts.now
        (take (length steps.now) (drop (r * length steps.now) values.now)) k % 2 ^ 64 }
    ensures long { length words.new ≡ length words.old }
{
    let (mut first, mut excess) = (0, 0);
    for (place, part) in parts.iter().enumerate() {
        let step = steps[place];
        let rest = &values[place..];
        excess |= join_field(words, first, count, rest, steps.len(), step, *part);
        if part.bytes > 0 {
            first += count;
        }
    }
    excess
}

// Adds the values of a field, each so many values after the one before, to words in a row. Returns
// 0 only if they fit. If they do not, the words are unspecified.
#[inline(always)]
fn join_field(
    words: &mut [u64],
    first: usize,
    count: usize,
    values: &[Number],
    stride: usize,
    step: Step,
    part: Part,
) -> u64
    requires short { IsShort step }
    requires room { first + count ≤ length words.old }
    requires values { (r : ℕ) → r < count → r * stride < length values.now }
    ensures fitting { result ≡ 0 → (r : ℕ) → r < count → HasBits step.width
        (slice_index_or values.now (r * stride) (Unsigned 0)) }
    ensures words { result ≡ 0 → (r : ℕ) → (n : ℕ) → r < count
        → slice_index_or values.now (r * stride) (Unsigned 0) ≡ Unsigned n
        → slice_index_or words.new (first + r) 0
        ≡ (slice_index_or words.old (first + r) 0 + n * part.scale) % 2 ^ 64 }
    ensures others { (j : ℕ) → (j < first) ⊎ (first + count ≤ j)
        → slice_index_or words.new j 0 ≡ slice_index_or words.old j 0 }
    ensures long { length words.new ≡ length words.old }
{
    let (mut low, mut high) = (0, 0);
    for row in 0..count {
        let Some((word, others)) = low_and_high(values[row * stride]) else {
            return 1;
        };
        let at = first + row;
        words[at] = words[at].wrapping_add(word.wrapping_mul(part.scale));
        low |= word;
        high |= others;
    }
    high | (low & !step.mask)
}

// The low and the high bits of an unsigned value.
#[inline(always)]
fn low_and_high(value: Number) -> Option<(u64, u64)>
    ensures { IfSome result (λ p. p.1 ≡ 0 → value ≡ Unsigned p.0) }
{
    match value {
        Number::Unsigned(number) => Some(((number % (1 << 64)) as u64, (number >> 64) as u64)),
        Number::Signed(_) => None,
    }
}

// Stores the words of records, one record after the other.
#[inline(always)]
fn store_records(out: &mut [u8], count: usize, sizes: &[usize], words: &[u64])
    requires sizes { All (λ n. n ≤ 8) sizes.now }
    requires room { length out.old ≡ count * all_sizes sizes.now }
    requires words { count * length sizes.now ≤ length words.now }
    ensures bits { bits_in out.new ≡ words_bits count sizes.now (λ r k. slice_index_or words.now
        (k * count + r) 0) }
    ensures long { length out.new ≡ length out.old }
{
    let mut place = 0;
    for row in 0..count {
        place = store_record(out, place, count, sizes, words, row);
    }
}

// Stores the words of a record from a place on. Returns the place after them.
#[inline(always)]
fn store_record(
    out: &mut [u8],
    from: usize,
    count: usize,
    sizes: &[usize],
    words: &[u64],
    row: usize,
) -> usize
    requires row { row < count }
    requires sizes { All (λ n. n ≤ 8) sizes.now }
    requires room { from + all_sizes sizes.now ≤ length out.old }
    requires words { count * length sizes.now ≤ length words.now }
    ensures bits { bits_in (take result out.new) ≡ bits_in (take from out.old) ++ word_bits
        sizes.now (λ k. slice_index_or words.now (k * count + row) 0) }
    ensures place { result ≡ from + all_sizes sizes.now }
    ensures long { length out.new ≡ length out.old }
{
    let mut place = from;
    for (group, size) in sizes.iter().enumerate() {
        let word = words[group * count + row];
        put_first(out, place, word, *size);
        place += *size;
    }
    place
}
