//! The picture of a layout: which bit of which field is where in the bytes that fields lay out.

ghost use Rattle.std.specs.Prelude.{◌≡◌, ◌⊎◌, ℕ, ◌+◌, ◌*◌, ◌<◌};
ghost use Rattle.std.specs.Prelude.{◌≤◌, All, length, map, slice_index_or, None, IfOk, IfErr};
ghost use Rattle.std.specs.Prelude.{OnOk};
ghost use Rattle.std.specs.declared.io.ErrorKind.TheVariants.{OutOfMemory};
ghost use Rattle.deku_bits.specs.declared.error.DekuError.TheVariants.{InvalidParam, Io};
ghost use Rattle.deku_bits.specs.Bits.{groups};
ghost use Rattle.deku_bits.specs.Pieces.{total};
ghost use Rattle.deku_num.specs.NumberLaws.{place};
ghost use Rattle.deku_num.specs.NumberCalls.{beyond, IsLayoutRefusal};
ghost use Rattle.deku_fields.specs.Items.{number_type, field_shape, field_width, IsAllowedField};
ghost use Rattle.deku_fields.specs.Places.{printed_at, start, IsAt, IsMarked, IsPicture};
ghost use Rattle.deku_fields.specs.Places.{AreDrawable, IsUndrawable};

use crate::list::Field;
use deku::ctx::{Endian, Order, Size};
use deku::error::DekuError;
use deku_num::kernel::{Misfit, allowed_width};
use std::alloc::Global;
use std::io::ErrorKind;

/// One bit of a field in a list.
#[derive(Debug, Clone, Copy, PartialEq, Eq)]
pub struct Place {
    /// The index of the field in its list.
    pub field: usize,
    /// The bit of the field's number. It counts two to the power of this.
    pub bit: usize,
}

/// The picture of the bytes that the fields lay out. For each bit of these bytes it says which bit
/// of which field it is, or that it is padding.
///
/// It has eight places for each byte, as bytes are printed, the high bit of each first. Index `k`
/// is the bit of byte `k / 8` that counts two to the power of `7 - k % 8`. `None` is padding, which
/// is zero. Whatever values the fields have, if they fit, the bytes that they lay out have at each
/// place that bit of that field's value, in two's complement if it is signed.
///
/// It fails for the first field without a picture. If its layout is rejected, it fails with the
/// error of `write_list` for that. If its order changes inside a byte, it fails with
/// `InvalidParam("order changes inside a byte")`; `write_list` writes such a field, but nothing is
/// promised of reading it back. If the fields have a picture and there is no memory for it, it
/// fails with `Io(OutOfMemory)`; no memory is taken before.
///
/// ```text
/// // 4 bits, 4 bits and a `u16`, big and `Msb0`
/// let picture = places(alloc, &fields)?;
/// picture[0]                                     // Some(Place { field: 0, bit: 3 })
/// picture[23]                                    // Some(Place { field: 2, bit: 0 })
/// ```
pub fn places(alloc: Global, fields: &[Field]) -> Result<Vec<Option<Place>>, DekuError>
    ensures size { IfOk result (λ v. length v.items ≡ 8 * groups
        (total (map field_shape fields.now))) }
    ensures places { IfOk result (λ v. (k : ℕ) → k < length v.items
        → IsAt fields.now k (slice_index_or v.items k None)) }
    ensures picture { IfOk result (λ v. IsPicture fields.now v.items) }
    ensures drawable { OnOk result (AreDrawable fields.now) }
    ensures refused { IfErr result (λ e. IsUndrawable fields.now e
        ⊎ ((e ≡ Io OutOfMemory) × AreDrawable fields.now)) }
{
    let count = drawable_places(fields)?;
    let Ok(mut cells) = vec![in alloc; None; count] else {
        return Err(DekuError::Io(ErrorKind::OutOfMemory));
    };
    mark_fields(cells.as_mut_slice(), fields);
    Ok(cells)
}

// How many places the bytes have that the fields lay out, if these have a picture. If a `usize`
// cannot count them, it is out of memory.
fn drawable_places(fields: &[Field]) -> Result<usize, DekuError>
    ensures count { IfOk result (λ n. n ≡ 8 * groups (total (map field_shape fields.now))) }
    ensures drawable { OnOk result (AreDrawable fields.now) }
    ensures refused { IfErr result (λ e. IsUndrawable fields.now e
        ⊎ ((e ≡ Io OutOfMemory) × AreDrawable fields.now)) }
{
    let mut bits: u128 = 0;
    let mut order = Order::Msb0;
    for field in fields {
        let width = drawable_width(field)?;
        if width > 0 {
            if bits % 8 != 0 && field.layout.order != order {
                return Err(DekuError::InvalidParam("order changes inside a byte"));
            }
            order = field.layout.order;
        }
        bits += width as u128;
    }
    match usize::try_from(bits.div_ceil(8) * 8) {
        Ok(count) => Ok(count),
        Err(_) => Err(DekuError::Io(ErrorKind::OutOfMemory)),
    }
}

// How many bits a field has, or the error with which writing it fails.
fn drawable_width(field: &Field) -> Result<usize, DekuError>
    ensures width { IfOk result (λ n. n ≡ field_width field.now) }
    ensures few { IfOk result (λ n. n ≤ 128) }
    ensures allowed { OnOk result (IsAllowedField field.now) }
    ensures refused { IfErr result (λ e. IsLayoutRefusal InvalidParam (beyond field.now.layout.size)
        (number_type field.now.kind) field.now.layout e) }
{
    match allowed_width(field.kind.number_type(), field.layout) {
        Ok(width) => Ok(width),
        Err(Misfit::Uneven) => Err(DekuError::InvalidParam("signed big Lsb0 field of this width")),
        Err(Misfit::TooWide) => Err(DekuError::InvalidParam(match field.layout.size {
            Size::Bytes(_) => "byte size is larger than input",
            _ => "bit size is larger than input",
        })),
    }
}

// Puts each bit of the fields at its place.
fn mark_fields(cells: &mut [Option<Place>], fields: &[Field])
    requires room { length cells.old ≡ 8 * groups (total (map field_shape fields.now)) }
    requires allowed { All IsAllowedField fields.now }
    requires empty { (k : ℕ) → slice_index_or cells.old k None ≡ None }
    ensures { (k : ℕ) → k < length cells.new → IsAt fields.now k (slice_index_or cells.new k None) }
{
    let mut at = 0;
    for index in 0..fields.len() {
        at = mark_field(cells, fields, index, at);
    }
}

// Puts each bit of one field at its place, with its first bit as bit `at` of the list. Returns the
// bit of the list after them.
fn mark_field(cells: &mut [Option<Place>], fields: &[Field], index: usize, at: usize) -> usize
    requires within { index < length fields.now }
    requires room { length cells.old ≡ 8 * groups (total (map field_shape fields.now)) }
    requires allowed { All IsAllowedField fields.now }
    requires met { at ≡ start fields.now index }
    requires before { (k : ℕ) → k < length cells.old → IsMarked fields.now index 0 k
        (slice_index_or cells.old k None) }
    ensures met { result ≡ start fields.now (index + 1) }
    ensures marked { (k : ℕ) → k < length cells.new → IsMarked fields.now (index + 1) 0 k
        (slice_index_or cells.new k None) }
{
    let field = fields[index];
    let layout = field.layout;
    let width = allowed_width(field.kind.number_type(), layout).unwrap_or(0);
    for i in 0..width {
        let bit = bit_place(layout.endian, layout.order, width, i);
        cells[printed_place(layout.order, at + i)] = Some(Place { field: index, bit });
    }
    at + width
}

// Where the n-th bit of an order is printed.
fn printed_place(order: Order, n: usize) -> usize
    ensures { result ≡ printed_at order n }
{
    match order {
        Order::Msb0 => n,
        Order::Lsb0 => n / 8 * 8 + (7 - n % 8),
    }
}

// The bit of a field's number that the field's i-th bit is.
fn bit_place(endian: Endian, order: Order, width: usize, i: usize) -> usize
    requires within { i < width }
    requires few { width ≤ 128 }
    ensures { result ≡ place endian order width i }
{
    match (endian, order) {
        (Endian::Little, Order::Msb0) => i / 8 * 8 + ((width - i / 8 * 8).min(8) - 1 - i % 8),
        (Endian::Little, Order::Lsb0) => i,
        (Endian::Big, Order::Msb0) => width - 1 - i,
        (Endian::Big, Order::Lsb0) => 8 * (width.div_ceil(8) - 1 - i / 8) + i % 8,
    }
}
