//! Numbers that are truncated to the bytes of their fields.

ghost use Rattle.std.specs.Prelude.{◌≡◌, ◌↔◌, IsSome, IfSome};
ghost use Rattle.deku_fields.specs.Items.{field_width};
ghost use Rattle.deku_fields.specs.Cutting.{AdmitsCut, IsCutTo, cuts};

use crate::list::{Field, Number};
use deku::ctx::Size;
use deku::kind::NumberType;
use deku_num::kernel::{allowed_width, low_bits, residue_of, sign_extend};

/// Truncates a number to a field whose size is in bytes. The result is the only number that fits
/// the field and is equal to the given one modulo two to the power of the field's bits. So items
/// whose values are truncated first are written as the lowest bits of their values.
///
/// If the size is not in bytes, the result is the number itself. The same holds for `u8`, which has
/// eight bits under each size in bytes. It returns `None` if the number is not of the field's kind,
/// or the field's layout is rejected. It takes no memory.
///
/// ```text
/// // a `u32`, big, in two bytes
/// cut_to_bytes(Number::Unsigned(0x01020304), field)      // Some(Number::Unsigned(0x0304))
/// ```
pub fn cut_to_bytes(number: Number, field: Field) -> Option<Number>
    ensures some { IsSome result ↔ AdmitsCut field number }
    ensures cut { IfSome result (λ kept. IsCutTo field number kept) }
{
    if !field.kind.holds(number) {
        return None;
    }
    match allowed_width(field.kind.number_type(), field.layout) {
        Ok(width) => Some(kept(number, field, width)),
        Err(_) => None,
    }
}

// What is left of a number that a field of this width allows.
fn kept(number: Number, field: Field, width: usize) -> Number
    requires admits { AdmitsCut field number }
    requires wide { width ≡ field_width field }
    ensures { IsCutTo field number result }
{
    if !is_cut(field.kind.number_type(), field.layout.size) {
        return number;
    }
    match number {
        Number::Unsigned(value) => Number::Unsigned(low_bits(value, width)),
        Number::Signed(value) => Number::Signed(sign_extend(residue_of(value, width), width)),
    }
}

// Whether numbers of a type are truncated to a size.
fn is_cut(number_type: NumberType, size: Size) -> bool
    ensures { result ≡ cuts number_type size }
{
    match size {
        Size::Bytes(_) => !number_type.one_byte,
        _ => false,
    }
}
