//! Fields and numbers as C passes them.

ghost use Rattle.std.specs.Prelude.{◌≡◌, ◌↔◌, ◌<◌, ◌≤◌, ◌+◌, ◌*◌};
ghost use Rattle.std.specs.Prelude.{◌^◌, false, IsTrue, IfSome, All};
ghost use Rattle.deku_fields.specs.Items.{number_type, field_width, IsAllowedField};
ghost use Rattle.deku_fields.specs.ListCalls.{has_sign};
ghost use Rattle.deku_plan.specs.Plans.{IsHigh};
ghost use Rattle.deku_c.specs.Codes.{IsNamed, IsSmall, word_in, number_in, whole};
ghost use Rattle.deku_c.specs.Codes.{endian_in, field_in, item_in, kind_in, order_in, size_in};

use deku::ctx::{Endian, Layout, Order, Size};
use deku_fields::{Field, Item, Kind, Number};
use deku_num::kernel::{residue_of, sign_extend};

/// A field as C passes it. The header names the numbers of `kind`, `endian`, `order` and `unit`;
/// `size` is in that unit.
#[repr(C)]
#[derive(Clone, Copy)]
pub struct FieldCode {
    pub kind: u8,
    pub endian: u8,
    pub order: u8,
    pub unit: u8,
    pub size: u32,
}

/// A number as C passes it: its low and its high 64 bits. A negative one is in two's complement.
#[repr(C)]
#[derive(Clone, Copy)]
pub struct NumberCode {
    pub low: u64,
    pub high: u64,
}

impl FieldCode {
    /// Whether the header names each of its numbers.
    #[inline(always)]
    pub fn is_named(self) -> bool
        ensures { IsTrue result ↔ IsNamed self }
    {
        self.kind < 12 && self.endian < 2 && self.order < 2 && self.unit < 3
    }

    // Its four numbers in a word.
    #[inline(always)]
    fn word(self) -> u32
        ensures word { result ≡ word_in self }
        ensures named { IsSmall result → IsNamed self }
    {
        self.kind as u32
            + self.endian as u32 * 256
            + self.order as u32 * 65_536
            + self.unit as u32 * 16_777_216
    }

    /// The field that it means.
    #[inline(always)]
    pub fn field(self) -> Field
        ensures { result ≡ field_in self }
    {
        let layout = Layout {
            endian: endian_of(self.endian),
            order: order_of(self.order),
            size: size_of(self.unit, self.size),
        };
        Field {
            kind: kind_of(self.kind),
            layout,
        }
    }

    /// The bits of the field that it means, if that is unsigned, big and `Msb0`, its type has at
    /// most 64 bits, its size is not in bytes, and its layout is not rejected.
    #[inline(always)]
    pub fn high_width(self) -> Option<usize>
        ensures high { IfSome result (λ n. IsHigh (field_in self)) }
        ensures allowed { IfSome result (λ n. IsAllowedField (field_in self)) }
        ensures wide { IfSome result (λ n. field_width (field_in self) ≡ n) }
    {
        if self.endian == 0 || self.order != 0 {
            return None;
        }
        let bits = self.high_bits()?;
        match self.unit {
            0 => Some(bits),
            1 if self.size as usize <= bits => Some(self.size as usize),
            _ => None,
        }
    }

    // The bits of its kind, if that is unsigned and has at most 64.
    #[inline(always)]
    fn high_bits(self) -> Option<usize>
        ensures unsigned { IfSome result (λ n. (number_type (kind_in self.kind)).signed ≡ false) }
        ensures bits { IfSome result (λ n. n ≡ (number_type (kind_in self.kind)).bits) }
        ensures few { IfSome result (λ n. n ≤ 64) }
    {
        match self.kind {
            0 => Some(8),
            1 => Some(16),
            2 => Some(32),
            3 | 5 => Some(64),
            _ => None,
        }
    }

    /// The item of the field that it means, and of the number's bits.
    #[inline(always)]
    pub fn item(self, value: NumberCode) -> Item
        ensures { result ≡ item_in self value }
    {
        let field = self.field();
        Item {
            field,
            value: value.number(field.kind.is_signed()),
        }
    }
}

impl NumberCode {
    /// The number, of a signed kind or of an unsigned one.
    #[inline(always)]
    pub fn number(self, signed: bool) -> Number
        ensures { result ≡ number_in signed (whole self) }
    {
        let bits = self.bits();
        if signed {
            Number::Signed(sign_extend(bits, 128))
        } else {
            Number::Unsigned(bits)
        }
    }

    /// The code of a number.
    #[inline(always)]
    pub fn of(number: Number) -> NumberCode
        ensures { number_in (has_sign number) (whole result) ≡ number }
    {
        match number {
            Number::Unsigned(value) => NumberCode::from_bits(value),
            Number::Signed(value) => NumberCode::from_bits(residue_of(value, 128)),
        }
    }

    // Its 128 bits.
    #[inline(always)]
    fn bits(self) -> u128
        ensures { result ≡ whole self }
    {
        self.high as u128 * (1 << 64) + self.low as u128
    }

    // The code of 128 bits.
    #[inline(always)]
    fn from_bits(bits: u128) -> NumberCode
        ensures { whole result ≡ bits }
    {
        NumberCode {
            low: (bits % (1 << 64)) as u64,
            high: (bits >> 64) as u64,
        }
    }
}

/// Whether the header names the numbers of each field. It is a call, so that the loops that read
/// and write have their values in registers.
#[inline(never)]
pub fn are_named(codes: &[FieldCode]) -> bool
    ensures { IsTrue result ↔ All IsNamed codes.now }
{
    is_small(joined(codes)) || are_each_named(codes)
}

// The bits that the numbers of some field have.
#[inline(always)]
fn joined(codes: &[FieldCode]) -> u32
    ensures { IsSmall result → All IsNamed codes.now }
{
    let mut joined = 0;
    for code in codes {
        joined |= code.word();
    }
    joined
}

// Whether four numbers in a word would have names.
#[inline(always)]
fn is_small(word: u32) -> bool
    ensures { IsTrue result ↔ IsSmall word }
{
    word % 256 < 12 && word / 256 % 256 < 2 && word / 65_536 % 256 < 2 && word / 16_777_216 < 3
}

// Whether the numbers of each field have names, looked at one by one.
#[cold]
#[inline(never)]
fn are_each_named(codes: &[FieldCode]) -> bool
    ensures { IsTrue result ↔ All IsNamed codes.now }
{
    codes.iter().all(|code| code.is_named())
}

// The kind with this number.
#[inline(always)]
fn kind_of(number: u8) -> Kind
    ensures { result ≡ kind_in number }
{
    match number {
        0 => Kind::U8,
        1 => Kind::U16,
        2 => Kind::U32,
        3 => Kind::U64,
        4 => Kind::U128,
        5 => Kind::Usize,
        6 => Kind::I8,
        7 => Kind::I16,
        8 => Kind::I32,
        9 => Kind::I64,
        10 => Kind::I128,
        _ => Kind::Isize,
    }
}

// The endian with this number.
#[inline(always)]
fn endian_of(number: u8) -> Endian
    ensures { result ≡ endian_in number }
{
    match number {
        0 => Endian::Little,
        _ => Endian::Big,
    }
}

// The order with this number.
#[inline(always)]
fn order_of(number: u8) -> Order
    ensures { result ≡ order_in number }
{
    match number {
        0 => Order::Msb0,
        _ => Order::Lsb0,
    }
}

// The size in a unit.
#[inline(always)]
fn size_of(unit: u8, size: u32) -> Size
    ensures { result ≡ size_in unit size }
{
    match unit {
        0 => Size::Whole,
        1 => Size::Bits(size as usize),
        _ => Size::Bytes(size as usize),
    }
}
