//! How many bits fields take.

ghost use Rattle.std.specs.Prelude.{◌≡◌, ◌≤◌, ◌^◌, All, IfSome, IsNone, map};
ghost use Rattle.deku_bits.specs.Pieces.{total};
ghost use Rattle.deku_fields.specs.Items.{IsAllowedField, field_shape};
ghost use Rattle.deku_c.specs.Codes.{fields_in};

use crate::codes::FieldCode;
use deku_num::kernel::allowed_width;

/// The bits of all fields, if no layout is rejected and the bits can be counted.
pub fn total_bits(codes: &[FieldCode]) -> Option<u64>
    ensures some { IfSome result (λ n. All IsAllowedField (fields_in codes.now)
        × (n ≡ total (map field_shape (fields_in codes.now)))) }
    ensures none { IsNone result → All IsAllowedField (fields_in codes.now)
        → 2 ^ 64 ≤ total (map field_shape (fields_in codes.now)) }
{
    let mut sum = 0u64;
    for code in codes {
        let field = code.field();
        let Ok(width) = allowed_width(field.kind.number_type(), field.layout) else {
            return None;
        };
        match sum.checked_add(width as u64) {
            Some(more) => sum = more,
            None => return None,
        }
    }
    Some(sum)
}
