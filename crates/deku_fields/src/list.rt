//! Fields of whole numbers, and items: fields with their values.

ghost use Rattle.std.specs.Prelude.{◌≡◌, ◌↔◌, ◌<◌, ◌≤◌, ◌^◌, ◌-◌};
ghost use Rattle.std.specs.Prelude.{IsTrue, pos, neg_ℤ, ◌≤ℤ◌, ◌<ℤ◌, false, IfSome};
ghost use Rattle.deku_num.specs.Numbers.{sized_width};
ghost use Rattle.deku_fields.specs.Items.{number_type, field_width, IsAllowedField};
ghost use Rattle.deku_fields.specs.ListCalls.{IsOfKind};

use deku::ctx::{Endian, Layout, Order, Size};
use deku::kind::NumberType;
use deku_num::kernel::is_below;

/// The type of a whole number.
#[derive(Debug, Clone, Copy, PartialEq, Eq)]
pub enum Kind {
    U8,
    U16,
    U32,
    U64,
    U128,
    Usize,
    I8,
    I16,
    I32,
    I64,
    I128,
    Isize,
}

impl Kind {
    /// The type of this kind.
    ///
    /// ```text
    /// Kind::I16.number_type()                                    // 16 bits, signed
    /// ```
    #[inline(always)]
    pub fn number_type(self) -> NumberType
        ensures { result ≡ number_type self }
    {
        NumberType {
            bits: self.bits(),
            signed: self.is_signed(),
            one_byte: matches!(self, Kind::U8),
        }
    }

    // The bits of its type.
    #[inline(always)]
    fn bits(self) -> usize
        ensures { result ≡ (number_type self).bits }
    {
        match self {
            Kind::U8 | Kind::I8 => 8,
            Kind::U16 | Kind::I16 => 16,
            Kind::U32 | Kind::I32 => 32,
            Kind::U64 | Kind::Usize | Kind::I64 | Kind::Isize => 64,
            Kind::U128 | Kind::I128 => 128,
        }
    }

    // The bits of its type, if that is unsigned and has at most 64.
    #[inline(always)]
    fn narrow_bits(self) -> Option<usize>
        ensures unsigned { IfSome result (λ n. (number_type self).signed ≡ false) }
        ensures bits { IfSome result (λ n. n ≡ (number_type self).bits) }
        ensures few { IfSome result (λ n. n ≤ 64) }
    {
        match self {
            Kind::U8 => Some(8),
            Kind::U16 => Some(16),
            Kind::U32 => Some(32),
            Kind::U64 | Kind::Usize => Some(64),
            Kind::U128 => None,
            Kind::I8 | Kind::I16 | Kind::I32 | Kind::I64 | Kind::I128 | Kind::Isize => None,
        }
    }

    /// Whether a number is of this kind: signed or unsigned as the kind is, and in its range.
    ///
    /// ```text
    /// Kind::U8.holds(Number::Unsigned(256))                      // false
    /// ```
    #[inline(always)]
    pub fn holds(self, number: Number) -> bool
        ensures { IsTrue result ↔ IsOfKind self number }
    {
        let number_type = self.number_type();
        match number {
            Number::Unsigned(value) => !number_type.signed && is_below(value, number_type.bits),
            Number::Signed(value) => number_type.signed && is_within(value, number_type.bits),
        }
    }

    /// Whether its numbers are signed.
    ///
    /// ```text
    /// Kind::I16.is_signed()                                      // true
    /// ```
    #[inline(always)]
    pub fn is_signed(self) -> bool
        ensures { result ≡ (number_type self).signed }
    {
        match self {
            Kind::U8 | Kind::U16 | Kind::U32 | Kind::U64 | Kind::U128 | Kind::Usize => false,
            Kind::I8 | Kind::I16 | Kind::I32 | Kind::I64 | Kind::I128 | Kind::Isize => true,
        }
    }
}

// Whether a number is in the range of two's complement of this many bits.
#[inline(always)]
fn is_within(value: i128, bits: usize) -> bool
    requires some { 0 < bits }
    requires within { bits ≤ 128 }
    ensures { IsTrue result ↔ ((neg_ℤ (pos (2 ^ (bits - 1))) ≤ℤ value)
        × (value <ℤ pos (2 ^ (bits - 1)))) }
{
    if value >= 0 {
        is_below(value as u128, bits - 1)
    } else {
        is_below((-(value + 1)) as u128, bits - 1)
    }
}

/// The bits of a field whose size is not in bytes, if the type has as many.
#[inline(always)]
pub(crate) fn plain_width(number_type: NumberType, size: Size) -> Option<usize>
    ensures wide { IfSome result (λ n. n ≡ sized_width number_type size) }
    ensures within { IfSome result (λ n. n ≤ number_type.bits) }
{
    match size {
        Size::Whole => Some(number_type.bits),
        Size::Bits(bits) if bits <= number_type.bits => Some(bits),
        _ => None,
    }
}

/// The bits of an unsigned field that is big and `Msb0`, if they are at most 64 and its layout is
/// not rejected.
#[inline(always)]
pub(crate) fn high_width(field: &Field) -> Option<usize>
    ensures unsigned { IfSome result (λ n. (number_type field.now.kind).signed ≡ false) }
    ensures big { IfSome result (λ n. field.now.layout.endian ≡ Endian.Big) }
    ensures high { IfSome result (λ n. field.now.layout.order ≡ Order.Msb0) }
    ensures wide { IfSome result (λ n. n ≡ field_width field.now) }
    ensures few { IfSome result (λ n. n ≤ 64) }
    ensures allowed { IfSome result (λ n. IsAllowedField field.now) }
{
    let (Endian::Big, Order::Msb0) = (field.layout.endian, field.layout.order) else {
        return None;
    };
    let bits = field.kind.narrow_bits()?;
    match field.layout.size {
        Size::Whole => Some(bits),
        Size::Bits(width) if width <= bits => Some(width),
        _ => None,
    }
}

/// A whole number, of an unsigned kind or of a signed one.
#[derive(Debug, Clone, Copy, PartialEq, Eq)]
pub enum Number {
    Unsigned(u128),
    Signed(i128),
}

/// A whole number in a list: its kind, and its layout in the stream.
#[derive(Debug, Clone, Copy, PartialEq, Eq)]
pub struct Field {
    pub kind: Kind,
    pub layout: Layout,
}

/// A field with its value.
#[derive(Debug, Clone, Copy, PartialEq, Eq)]
pub struct Item {
    pub field: Field,
    pub value: Number,
}
