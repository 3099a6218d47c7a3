//! What a plan knows of a field.

ghost use Rattle.std.specs.Prelude.{◌≡◌, ◌+◌, ◌≤◌, ◌^◌, false, IfOk, IfErr};
ghost use Rattle.std.specs.Prelude.{IsTrue};
ghost use Rattle.deku_bits.specs.declared.error.DekuError.TheVariants.{InvalidParam};
ghost use Rattle.deku_num.specs.NumberCalls.{beyond, IsLayoutRefusal};
ghost use Rattle.deku_fields.specs.Items.{number_type, field_width, IsAllowedField};
ghost use Rattle.deku_plan.specs.Plans.{IsStepOf, IsHigh};

use deku::ctx::{Endian, Order, Size};
use deku::error::DekuError;
use deku_fields::Field;
use deku_num::kernel::{Misfit, allowed_width};

/// What a plan knows of a field.
#[derive(Debug, Clone, Copy)]
pub(crate) struct Step {
    /// The bits of the field.
    pub(crate) width: usize,
    /// Whether it is unsigned, big and `Msb0`, and has at most 64 bits.
    pub(crate) high: bool,
    /// The greatest number of its bits, if they are at most 64.
    pub(crate) mask: u64,
    /// How many bits the fields before it have together.
    pub(crate) first: usize,
}

/// What there is to know of a field after so many bits. It fails as writing the field does if its
/// layout is rejected.
pub(crate) fn step_of(field: &Field, first: usize) -> Result<Step, DekuError>
    ensures step { IfOk result (IsStepOf field.now) }
    ensures few { IfOk result (λ s. s.width ≤ 128) }
    ensures first { IfOk result (λ s. s.first ≡ first) }
    ensures rejected { IfErr result (λ e. IsLayoutRefusal InvalidParam
        (beyond field.now.layout.size) (number_type field.now.kind) field.now.layout e) }
{
    let width = width_of(field)?;
    let high = width <= 64 && is_plain(field);
    Ok(Step {
        width,
        high,
        mask: mask_of(width),
        first,
    })
}

// The greatest number of this many bits, if they are at most 64.
fn mask_of(width: usize) -> u64
    ensures { width ≤ 64 → result + 1 ≡ 2 ^ width }
{
    if width < 64 {
        (1 << width) - 1
    } else {
        u64::MAX
    }
}

// Whether a field is unsigned, big and `Msb0`.
fn is_plain(field: &Field) -> bool
    ensures unsigned { IsTrue result → (number_type field.now.kind).signed ≡ false }
    ensures big { IsTrue result → field.now.layout.endian ≡ Endian.Big }
    ensures high { IsTrue result → field.now.layout.order ≡ Order.Msb0 }
{
    !field.kind.is_signed()
        && matches!(
            (field.layout.endian, field.layout.order),
            (Endian::Big, Order::Msb0)
        )
}

// How many bits a field has, or the error with which writing it fails.
fn width_of(field: &Field) -> Result<usize, DekuError>
    ensures width { IfOk result (λ n. n ≡ field_width field.now) }
    ensures few { IfOk result (λ n. n ≤ 128) }
    ensures allowed { IfOk result (λ _. IsAllowedField field.now) }
    ensures rejected { IfErr result (λ e. IsLayoutRefusal InvalidParam
        (beyond field.now.layout.size) (number_type field.now.kind) field.now.layout e) }
{
    match allowed_width(field.kind.number_type(), field.layout) {
        Ok(width) => Ok(width),
        Err(Misfit::Uneven) => Err(DekuError::InvalidParam("signed big Lsb0 field of this width")),
        Err(Misfit::TooWide) => Err(DekuError::InvalidParam(match field.layout.size {
            Size::Bytes(_) => "byte size is larger than input",
            _ => "bit size is larger than input",
        })),
    }
}
