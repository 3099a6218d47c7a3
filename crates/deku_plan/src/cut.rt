//! Numbers that are cut from bytes in memory.

ghost use Rattle.std.specs.Prelude.{◌≡◌, All, ◌+◌, ◌-◌, ◌*◌, ◌<◌, ◌≤◌};
ghost use Rattle.std.specs.Prelude.{◌^◌, List, Bool, length, take, drop, false};
ghost use Rattle.deku_bits.specs.declared.ctx.Order.TheVariants.{Msb0};
ghost use Rattle.deku_bits.specs.Bits.{bin};
ghost use Rattle.deku_bits.specs.Streams.{taken, left, fresh};
ghost use Rattle.deku_num.specs.Numbers.{number as number_of};
ghost use Rattle.deku_fields.specs.Items.{field_width, IsWorth};
ghost use Rattle.deku_plan.specs.Plans.{IsHigh, IsStepOf};

use crate::step::Step;
use deku::ctx::{Endian, Order};
use deku_fields::{Field, Number};
use deku_num::kernel::{sign_extend, word_of_number};

/// The value of a field in `Msb0` that begins at a bit of the bytes.
///
/// The caller's conditions: the field has at least one bit and at most 64, and the bytes have them.
#[inline(always)]
pub(crate) fn number_at(bytes: &[u8], bit: usize, field: &Field, step: Step) -> Number
    requires step { IsStepOf field.now step }
    requires high { field.now.layout.order ≡ Order.Msb0 }
    requires some { 0 < step.width }
    requires few { step.width ≤ 64 }
    requires counted { bit + step.width < 2 ^ 64 }
    requires there { bit + step.width ≤ 8 * length bytes.now }
    ensures { IsWorth field.now
        (taken Msb0 (field_width field.now) (left Msb0 bit (fresh bytes.now))) result }
{
    let number = bits_at(bytes, bit, step.width);
    if step.high {
        return Number::Unsigned(number as u128);
    }
    number_of(number, field, step.width)
}

/// The value of a field that begins at a bit of the bytes, and is unsigned, big and `Msb0`. It is
/// cut from the eight bytes that begin with the first of its bits, or from the last eight bytes.
///
/// The caller's conditions: the field has at least one bit and at most 57, and the bytes have them.
/// There are at least eight bytes.
#[inline(always)]
pub(crate) fn short_at(bytes: &[u8], bit: usize, field: &Field, step: Step) -> Number
    requires step { IsStepOf field.now step }
    requires high { IsHigh field.now }
    requires some { 0 < step.width }
    requires few { step.width ≤ 57 }
    requires there { bit + step.width ≤ 8 * length bytes.now }
    requires long { 8 ≤ length bytes.now }
    ensures { IsWorth field.now
        (taken Msb0 (field_width field.now) (left Msb0 bit (fresh bytes.now))) result }
{
    let place = (bit / 8).min(bytes.len() - 8);
    placed_at(bytes, place, bit - 8 * place, field, step)
}

/// The value of a field that begins at a bit after a place in the bytes, and is unsigned, big and
/// `Msb0`.
///
/// The caller's conditions: the field has at least one bit, and the eight bytes from the place on
/// have all of them.
#[inline(always)]
pub(crate) fn placed_at(bytes: &[u8], place: usize, bit: usize, field: &Field, step: Step) -> Number
    requires step { IsStepOf field.now step }
    requires high { IsHigh field.now }
    requires some { 0 < step.width }
    requires few { bit + step.width ≤ 64 }
    requires there { place + 8 ≤ length bytes.now }
    ensures { IsWorth field.now
        (taken Msb0 (field_width field.now) (left Msb0 (8 * place + bit) (fresh bytes.now)))
        result }
{
    let _ = field;
    Number::Unsigned(placed_bits(bytes, place, bit, step) as u128)
}

// The number of the bits that begin at a bit after a place in the bytes, and are among the eight
// bytes from it on.
#[inline(always)]
fn placed_bits(bytes: &[u8], place: usize, bit: usize, step: Step) -> u64
    requires some { 0 < step.width }
    requires few { bit + step.width ≤ 64 }
    requires mask { step.mask + 1 ≡ 2 ^ step.width }
    requires there { place + 8 ≤ length bytes.now }
    ensures { result ≡ bin (taken Msb0 step.width (left Msb0 (8 * place + bit) (fresh bytes.now))) }
{
    let word = u64::from_be_bytes(eight_from(bytes, place));
    (word >> (64 - bit - step.width)) & step.mask
}

// The eight bytes from a place on.
#[inline(always)]
fn eight_from(bytes: &[u8], place: usize) -> [u8; 8]
    requires { place + 8 ≤ length bytes.now }
    ensures same { result ≡ take 8 (drop place bytes.now) }
    ensures bytes { All (λ b. b < 256) result }
{
    let mut eight = [0; 8];
    eight.copy_from_slice(&bytes[place..place + 8]);
    eight
}

// The value of a field in `Msb0`, from the number of its bits.
#[inline(always)]
fn number_of(number: u64, field: &Field, width: usize) -> Number
    requires high { field.now.layout.order ≡ Order.Msb0 }
    requires wide { width ≡ field_width field.now }
    requires few { width ≤ 64 }
    requires below { number < 2 ^ width }
    ensures { (s : List Bool) → length s ≡ width → number ≡ bin s → IsWorth field.now s result }
{
    let number = without_sign(number, width, field.layout.endian);
    if field.kind.is_signed() {
        Number::Signed(sign_extend(number, width))
    } else {
        Number::Unsigned(number)
    }
}

// The number of bits in `Msb0` without a sign, from their number in big.
#[inline(always)]
fn without_sign(number: u64, width: usize, endian: Endian) -> u128
    requires few { width ≤ 64 }
    requires below { number < 2 ^ width }
    ensures number { (s : List Bool) → length s ≡ width → number ≡ bin s
        → result ≡ number_of endian Msb0 s }
    ensures below { result < 2 ^ width }
{
    match endian {
        Endian::Big => number as u128,
        Endian::Little => word_of_number(number as u128, width, Endian::Big, Order::Msb0),
    }
}

/// The number of this many bits, the first of them the highest.
#[inline(always)]
pub(crate) fn bits_at(bytes: &[u8], bit: usize, width: usize) -> u64
    requires some { 0 < width }
    requires few { width ≤ 64 }
    requires counted { bit + width < 2 ^ 64 }
    requires there { bit + width ≤ 8 * length bytes.now }
    ensures number { result ≡ bin (taken Msb0 width (left Msb0 bit (fresh bytes.now))) }
    ensures below { result < 2 ^ width }
{
    if width <= 57 {
        return few_at(bytes, bit, width);
    }
    let high = few_at(bytes, bit, width - 32);
    let low = few_at(bytes, bit + (width - 32), 32);
    (high << 32) + low
}

// The number of at most 57 bits.
#[inline(always)]
fn few_at(bytes: &[u8], bit: usize, width: usize) -> u64
    requires some { 0 < width }
    requires few { width ≤ 57 }
    requires there { bit + width ≤ 8 * length bytes.now }
    ensures number { result ≡ bin (taken Msb0 width (left Msb0 bit (fresh bytes.now))) }
    ensures below { result < 2 ^ width }
{
    let word = u64::from_be_bytes(eight_at(bytes, bit / 8));
    (word >> (64 - bit % 8 - width)) % (1 << width)
}

// The eight bytes from a place on, with zeros after the last one.
#[inline(always)]
fn eight_at(bytes: &[u8], place: usize) -> [u8; 8]
    requires { place ≤ length bytes.now }
    ensures front { take (length bytes.now - place) result ≡ take 8 (drop place bytes.now) }
    ensures bytes { All (λ b. b < 256) result }
{
    if bytes.len() - place >= 8 {
        return eight_from(bytes, place);
    }
    let mut eight = [0; 8];
    let rest = &bytes[place..];
    eight[..rest.len()].copy_from_slice(rest);
    eight
}
