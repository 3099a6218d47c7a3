//! Lists of fields, written and read back.

ghost use Rattle.std.specs.Prelude.{◌≡◌, ◌<◌, ◌∷◌, [], length, IfOk, MatchResult};
ghost use Rattle.std.specs.declared.io.ErrorKind.TheVariants.{OutOfMemory};
ghost use Rattle.deku.specs.declared.error.DekuError.TheVariants.{Io};
ghost use Rattle.deku_fields.specs.declared.list.Number.TheVariants.{Unsigned, Signed};
ghost use Rattle.deku_fields.specs.Items.{fields_of as list_fields, values_of as list_values};
ghost use Rattle.deku_callers.specs.Returning.{ComesBack};
ghost use Rattle.deku_callers.specs.Rewriting.{WritesTaken};

use deku::ctx::{Endian, Layout, Order, Size};
use deku::error::DekuError;
use deku_bits::laws::length_law;
use deku_fields::laws::{back_law, layout_law};
use deku_fields::{Field, Item, Kind, Number, list_from_bytes, list_to_bytes};
use deku_num::laws::field_law;
use std::alloc::Global;
use std::io::ErrorKind;

/// Writes the items as bytes, and reads them back with the same fields. Returns how many bits they
/// took, and their values.
///
/// It fails as the first item that fails, written or read, or with `Io(OutOfMemory)` if there is no
/// memory. For fitting items whose order changes only at byte boundaries, the latter is the only
/// error.
///
/// ```text
/// // 6 and 9 in four bits each, big and `Msb0`
/// there_and_back(alloc, &items)?                             // (8, [6, 9])
/// ```
pub fn there_and_back(alloc: Global, items: &[Item]) -> Result<(usize, Vec<Number>), DekuError>
    ensures { ComesBack items.now result }
{
    layout_law();
    length_law();
    let fields = fields_of(alloc, items)?;
    let bytes = list_to_bytes(alloc, items)?;
    list_from_bytes(alloc, bytes.as_slice(), fields.as_slice())
}

// The field of each item.
fn fields_of(alloc: Global, items: &[Item]) -> Result<Vec<Field>, DekuError>
    ensures { MatchResult result (λ v. v.items ≡ list_fields items.now) (λ e. e ≡ Io OutOfMemory) }
{
    let mut fields = Vec::new(alloc);
    for item in items {
        if fields.push(item.field).is_err() {
            return Err(DekuError::Io(ErrorKind::OutOfMemory));
        }
    }
    Ok(fields)
}

/// Writes five values in fields of mixed orders as bytes, and reads them back: four bits and four,
/// high bits first, thirteen and three, low bits first, and two signed bytes, high byte first. The
/// result is the same values and a count of forty bits, or out of memory.
///
/// The caller's conditions: each value has no more bits than its field.
///
/// ```text
/// five_there_and_back(alloc, 6, 9, 0x1001, 4, -2)?           // (40, [6, 9, 0x1001, 4, -2])
/// ```
pub fn five_there_and_back(
    alloc: Global,
    version: u8,
    kind: u8,
    span: u16,
    flags: u8,
    heat: i16,
) -> Result<(usize, Vec<Number>), DekuError>
    requires version { version < 16 }
    requires kind { kind < 16 }
    requires span { span < 8192 }
    requires flags { flags < 8 }
    ensures { MatchResult result (λ v. (v.0 ≡ 40)
        × (v.1.items ≡ Unsigned version ∷ Unsigned kind ∷ Unsigned span ∷ Unsigned flags ∷ Signed
        heat ∷ [])) (λ e. e ≡ Io OutOfMemory) }
{
    field_law();
    let items = [
        high(Kind::U8, Size::Bits(4), Number::Unsigned(version as u128)),
        high(Kind::U8, Size::Bits(4), Number::Unsigned(kind as u128)),
        low(Kind::U16, Size::Bits(13), Number::Unsigned(span as u128)),
        low(Kind::U8, Size::Bits(3), Number::Unsigned(flags as u128)),
        high(Kind::I16, Size::Whole, signed(heat)),
    ];
    there_and_back(alloc, &items)
}

// A signed number.
pub(crate) fn signed(value: i16) -> Number
    ensures { result ≡ Signed value }
{
    Number::Signed(value as i128)
}

// A value in a field with its high bits first.
pub(crate) fn high(kind: Kind, size: Size, value: Number) -> Item
    ensures { result ≡ record {
      field = record {
        kind = kind;
        layout = record { endian = Endian.Big; order = Order.Msb0; size = size };
      };
      value = value;
    } }
{
    let layout = Layout {
        endian: Endian::Big,
        order: Order::Msb0,
        size,
    };
    let field = Field { kind, layout };
    Item { field, value }
}

// A value in a field with its low bits first.
pub(crate) fn low(kind: Kind, size: Size, value: Number) -> Item
    ensures { result ≡ record {
      field = record {
        kind = kind;
        layout = record { endian = Endian.Little; order = Order.Lsb0; size = size };
      };
      value = value;
    } }
{
    let layout = Layout {
        endian: Endian::Little,
        order: Order::Lsb0,
        size,
    };
    let field = Field { kind, layout };
    Item { field, value }
}

/// Reads values of the fields from any bytes, and writes them with the same fields. The result is
/// the bytes that were taken, with the unread bits zero.
///
/// It fails as the first field that fails when it is read, or with `Io(OutOfMemory)` if there is no
/// memory.
///
/// ```text
/// // four bits, big and `Msb0`
/// rewritten(alloc, &[0x6F, 0x99], &fields)?                  // 60
/// ```
pub fn rewritten(alloc: Global, bytes: &[u8], fields: &[Field]) -> Result<Vec<u8>, DekuError>
    ensures { WritesTaken fields.now bytes.now result }
{
    layout_law();
    back_law();
    let (_bits, values) = list_from_bytes(alloc, bytes, fields)?;
    let items = items_of(alloc, fields, values.as_slice())?;
    list_to_bytes(alloc, items.as_slice())
}

// An item of each field and its value.
fn items_of(alloc: Global, fields: &[Field], values: &[Number]) -> Result<Vec<Item>, DekuError>
    ensures { length values.now ≡ length fields.now
        → IfOk result (λ v. (list_fields v.items ≡ fields.now)
        × (list_values v.items ≡ values.now)) }
{
    let mut items = Vec::new(alloc);
    for (place, field) in fields.iter().enumerate() {
        let Some(value) = values.get(place) else {
            return Ok(items);
        };
        let item = Item {
            field: *field,
            value: *value,
        };
        if items.push(item).is_err() {
            return Err(DekuError::Io(ErrorKind::OutOfMemory));
        }
    }
    Ok(items)
}
