//! Fields and items of the tests of lists.

use deku::ctx::{Endian, Layout, Order, Size};
use deku_fields::{Field, Item, Kind, Number};

/// The most items of a list here.
pub const MOST: usize = 8;

/// What is in a place that was not written yet.
pub const NONE_YET: Number = Number::Unsigned(7);

// A field with its value.
fn item(kind: Kind, endian: Endian, order: Order, size: Size, value: Number) -> Item {
    let layout = Layout {
        endian,
        order,
        size,
    };
    Item {
        field: Field { kind, layout },
        value,
    }
}

/// A big field in `Msb0` without a sign, with its value.
pub fn big_msb(kind: Kind, size: Size, value: u128) -> Item {
    item(
        kind,
        Endian::Big,
        Order::Msb0,
        size,
        Number::Unsigned(value),
    )
}

// A little field in `Lsb0` without a sign, with its value.
fn little_lsb(kind: Kind, size: Size, value: u128) -> Item {
    item(
        kind,
        Endian::Little,
        Order::Lsb0,
        size,
        Number::Unsigned(value),
    )
}

/// Thirteen bits of a big `u16` in `Lsb0`, with their value.
pub fn thirteen(value: u128) -> Item {
    item(
        Kind::U16,
        Endian::Big,
        Order::Lsb0,
        Size::Bits(13),
        Number::Unsigned(value),
    )
}

/// Two halves of a byte and two bytes: 69 BE EF.
pub fn halves_and_word() -> [Item; 3] {
    [
        big_msb(Kind::U8, Size::Bits(4), 6),
        big_msb(Kind::U8, Size::Bits(4), 9),
        big_msb(Kind::U16, Size::Whole, 0xBEEF),
    ]
}

/// Two bytes between five bits and three: A1 34 12.
pub fn word_inside() -> [Item; 3] {
    [
        little_lsb(Kind::U8, Size::Bits(5), 1),
        little_lsb(Kind::U16, Size::Whole, 0x91A5),
        little_lsb(Kind::U8, Size::Bits(3), 0),
    ]
}

/// Thirteen bits and three, both big in `Lsb0`, a byte, three bits and five: 10 81 AB 96.
pub fn both_orders() -> [Item; 7] {
    [
        thirteen(0x1001),
        item(
            Kind::U8,
            Endian::Big,
            Order::Lsb0,
            Size::Bits(3),
            Number::Unsigned(4),
        ),
        big_msb(Kind::U8, Size::Whole, 0xAB),
        big_msb(Kind::U8, Size::Bits(1), 1),
        big_msb(Kind::U8, Size::Bits(1), 0),
        big_msb(Kind::U8, Size::Bits(1), 0),
        big_msb(Kind::U8, Size::Bits(5), 22),
    ]
}

/// Half a byte, a byte and a half, two bytes and two words, little in `Lsb0`: 31 12 04 05 06 00 00
/// 00 07 00 00 00.
pub fn little_words() -> [Item; 6] {
    [
        little_lsb(Kind::U8, Size::Bits(4), 1),
        little_lsb(Kind::U16, Size::Bits(12), 0x123),
        little_lsb(Kind::U8, Size::Whole, 4),
        little_lsb(Kind::U8, Size::Whole, 5),
        little_lsb(Kind::U32, Size::Whole, 6),
        little_lsb(Kind::U32, Size::Whole, 7),
    ]
}

/// Thirteen bits of a big `u32` in `Lsb0`: 10 01.
pub fn thirteen_of_a_word() -> [Item; 1] {
    [item(
        Kind::U32,
        Endian::Big,
        Order::Lsb0,
        Size::Bits(13),
        Number::Unsigned(0x1001),
    )]
}

/// The fields of items, and then more that have no meaning.
pub fn fields_of(items: &[Item]) -> [Field; MOST] {
    let mut fields = [big_msb(Kind::U8, Size::Whole, 0).field; MOST];
    for (field, item) in fields.iter_mut().zip(items) {
        *field = item.field;
    }
    fields
}

/// The values of items, and then more that have no meaning.
pub fn values_of(items: &[Item]) -> [Number; MOST] {
    let mut values = [NONE_YET; MOST];
    for (value, item) in values.iter_mut().zip(items) {
        *value = item.value;
    }
    values
}
