//! Single fields in bytes in memory.

ghost use Rattle.std.specs.Prelude.{◌≡◌, ◌+◌, ◌*◌, ◌<◌, ◌≤◌, ◌^◌};
ghost use Rattle.std.specs.Prelude.{length, IfSome, IsNone};
ghost use Rattle.deku_fields.specs.Items.{field_width, IsAllowedField};
ghost use Rattle.deku_plan.specs.Records.{IsReadAt, IsHighAt, IsStraight};

use crate::cut::{bits_at, number_at};
use crate::step::step_of;
use deku::ctx::Order;
use deku_fields::{Field, Number};

/// The value of a field that begins at a bit of the bytes, and the bit after it. A reader of the
/// bytes reads this value if it has taken the bits before, all in `Msb0`.
///
/// It returns `None` if the layout is rejected or the bytes end before the field does, and for a
/// field in `Lsb0`, of no bits or of more than 64; also if a `usize` cannot count the bits up to
/// the field's end. It takes no memory.
///
/// ```text
/// value_at(&[0x69, 0xC0], 4, &twelve)                        // 0x9C0, and 16
/// ```
pub fn value_at(bytes: &[u8], bit: usize, field: &Field) -> Option<(Number, usize)>
    ensures reads { IfSome result (λ r. IsReadAt field.now bytes.now bit r.0 r.1) }
    ensures straight { IfSome result (λ r. IsStraight field.now) }
    ensures within { IfSome result (λ r. r.1 ≤ 8 * length bytes.now) }
    ensures none { IsNone result → IsAllowedField field.now → IsStraight field.now
        → bit + field_width field.now < 2 ^ 64
        → 8 * length bytes.now < bit + field_width field.now }
{
    let Ok(step) = step_of(field, 0) else {
        return None;
    };
    if !matches!(field.layout.order, Order::Msb0) {
        return None;
    }
    let after = end_of(bytes, bit, step.width)?;
    Some((number_at(bytes, bit, field, step), after))
}

/// The number of an unsigned field, big and `Msb0`, of this many bits, that begins at a bit of the
/// bytes, and the bit after it: what `value_at` returns for such a field.
///
/// It returns `None` if the bytes end before the field does, and for no bits or more than 64, or if
/// a `usize` cannot count the bits up to the field's end. It takes no memory.
///
/// ```text
/// high_at(&[0x69, 0xC0], 4, 12)                              // 0x9C0, and 16
/// ```
#[inline(always)]
pub fn high_at(bytes: &[u8], bit: usize, width: usize) -> Option<(u64, usize)>
    ensures reads { IfSome result (λ r. IsHighAt bytes.now bit width r.0 r.1) }
    ensures some { IfSome result (λ r. 0 < width) }
    ensures few { IfSome result (λ r. width ≤ 64) }
    ensures within { IfSome result (λ r. r.1 ≤ 8 * length bytes.now) }
    ensures none { IsNone result → 0 < width → width ≤ 64 → bit + width < 2 ^ 64
        → 8 * length bytes.now < bit + width }
{
    let after = end_of(bytes, bit, width)?;
    Some((bits_at(bytes, bit, width), after))
}

// The bit after this many that begin at a bit, if they are at least one and at most 64, and the
// bytes have them.
#[inline(always)]
fn end_of(bytes: &[u8], bit: usize, width: usize) -> Option<usize>
    ensures some { IfSome result (λ n. 0 < width) }
    ensures few { IfSome result (λ n. width ≤ 64) }
    ensures after { IfSome result (λ n. n ≡ bit + width) }
    ensures counted { IfSome result (λ n. n < 2 ^ 64) }
    ensures there { IfSome result (λ n. n ≤ 8 * length bytes.now) }
    ensures none { IsNone result → 0 < width → width ≤ 64 → bit + width < 2 ^ 64
        → 8 * length bytes.now < bit + width }
{
    if width == 0 || width > 64 {
        return None;
    }
    let after = bit.checked_add(width)?;
    if after.div_ceil(8) > bytes.len() {
        return None;
    }
    Some(after)
}
