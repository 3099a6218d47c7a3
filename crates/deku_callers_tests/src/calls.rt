//! Lists of fields in three calls, as tests. Each row says after how many fields the second call
//! begins, and the third.

use crate::same::{same, same_bytes};
use deku::ctx::{Endian, Layout, Order, Size};
use deku_callers::calls::{bytes_in_three, five_in_three, read_in_three};
use deku_fields::{Field, Item, Kind, Number};
use std::test::Fail;

const CUTS: [(usize, usize); 5] = [(2, 4), (1, 3), (0, 5), (3, 3), (5, 5)];

const BYTES: [u8; 5] = [0x49, 0x01, 0xB0, 0xFF, 0xFE];

// The items of these bytes: four bits and four, high bits first, thirteen and three, low bits
// first, and two signed bytes, high byte first.
fn five() -> [Item; 5] {
    [
        high(Kind::U8, Size::Bits(4), Number::Unsigned(4)),
        high(Kind::U8, Size::Bits(4), Number::Unsigned(9)),
        low(Kind::U16, Size::Bits(13), Number::Unsigned(0x1001)),
        low(Kind::U8, Size::Bits(3), Number::Unsigned(5)),
        high(Kind::I16, Size::Whole, Number::Signed(-2)),
    ]
}

// A value in a field with its high bits first.
fn high(kind: Kind, size: Size, value: Number) -> Item {
    let layout = Layout {
        endian: Endian::Big,
        order: Order::Msb0,
        size,
    };
    let field = Field { kind, layout };
    Item { field, value }
}

// A value in a field with its low bits first.
fn low(kind: Kind, size: Size, value: Number) -> Item {
    let layout = Layout {
        endian: Endian::Little,
        order: Order::Lsb0,
        size,
    };
    let field = Field { kind, layout };
    Item { field, value }
}

#[test]
fn reads_five_in_three(rt: HostRuntime) -> Result<(), Fail> {
    let fields = five().map(|item| item.field);
    let values = five().map(|item| item.value);
    for (row, (second, third)) in CUTS.iter().enumerate() {
        if *second <= *third && *third <= 5 {
            let (one, two, three) = read_in_three(
                rt.alloc(),
                &BYTES,
                &fields[..*second],
                &fields[*second..*third],
                &fields[*third..],
            )?;
            let want = (
                &values[..*second],
                &values[*second..*third],
                &values[*third..],
            );
            same(
                &rt,
                row,
                &(one.as_slice(), two.as_slice(), three.as_slice()),
                &want,
            );
        }
    }
    Ok(())
}

#[test]
fn writes_five_in_three(rt: HostRuntime) -> Result<(), Fail> {
    let items = five();
    for (row, (second, third)) in CUTS.iter().enumerate() {
        if *second <= *third && *third <= 5 {
            let bytes = bytes_in_three(
                rt.alloc(),
                &items[..*second],
                &items[*second..*third],
                &items[*third..],
            )?;
            same_bytes(&rt, row, bytes.as_slice(), &BYTES);
        }
    }
    Ok(())
}

#[test]
fn five_values_come_back(rt: HostRuntime) -> Result<(), Fail> {
    let rows: [(u8, u8, u16, u8, i16); 2] = [(4, 9, 0x1001, 5, -2), (15, 0, 0x1FFF, 7, i16::MIN)];
    for (row, (version, kind, span, flags, heat)) in rows.iter().enumerate() {
        if *version < 16 && *kind < 16 && *span < 8192 && *flags < 8 {
            let (one, two, three) = five_in_three(
                rt.alloc(),
                *version,
                *kind,
                *span,
                *flags,
                *heat,
            )?;
            let first = [
                Number::Unsigned(*version as u128),
                Number::Unsigned(*kind as u128),
            ];
            let second = [
                Number::Unsigned(*span as u128),
                Number::Unsigned(*flags as u128),
            ];
            let third = [Number::Signed(*heat as i128)];
            same(
                &rt,
                row,
                &(one.as_slice(), two.as_slice(), three.as_slice()),
                &(first.as_slice(), second.as_slice(), third.as_slice()),
            );
        }
    }
    Ok(())
}
