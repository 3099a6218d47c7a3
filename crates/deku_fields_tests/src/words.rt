//! Words of a command line, and what they name.

use deku::ctx::{Endian, Layout, Order, Size};
use deku_fields::{Field, Item, Kind, Number, parse_field, parse_item};
use std::process::Abort;

// A field.
fn field(kind: Kind, endian: Endian, order: Order, size: Size) -> Field {
    let layout = Layout {
        endian,
        order,
        size,
    };
    Field { kind, layout }
}

#[test]
fn names_fields(rt: HostRuntime) {
    let (little, big) = (Endian::Little, Endian::Big);
    let (msb, lsb) = (Order::Msb0, Order::Lsb0);
    let words = [
        ("u8", field(Kind::U8, little, msb, Size::Whole)),
        ("u16,big", field(Kind::U16, big, msb, Size::Whole)),
        ("u32,lsb", field(Kind::U32, little, lsb, Size::Whole)),
        ("u64,bits07", field(Kind::U64, little, msb, Size::Bits(7))),
        (
            "u128,bytes0",
            field(Kind::U128, little, msb, Size::Bytes(0)),
        ),
        (
            "usize,little,msb",
            field(Kind::Usize, little, msb, Size::Whole),
        ),
        ("i8,big,lsb,bits8", field(Kind::I8, big, lsb, Size::Bits(8))),
        (
            "i16,lsb,bytes1",
            field(Kind::I16, little, lsb, Size::Bytes(1)),
        ),
        ("i32,msb", field(Kind::I32, little, msb, Size::Whole)),
        (
            "i64,little,bytes9",
            field(Kind::I64, little, msb, Size::Bytes(9)),
        ),
        (
            "i128,big,bits18446744073709551615",
            field(Kind::I128, big, msb, Size::Bits(18446744073709551615)),
        ),
        (
            "isize,big,msb,bytes5",
            field(Kind::Isize, big, msb, Size::Bytes(5)),
        ),
    ];
    for (word, named) in words {
        assert_eq!(rt; parse_field(word), Some(named), "{word}");
    }
}

#[test]
fn names_items(rt: HostRuntime) {
    let words = [
        ("u8=5", Kind::U8, Number::Unsigned(5)),
        ("u8=0005", Kind::U8, Number::Unsigned(5)),
        ("u8=-5", Kind::U8, Number::Signed(-5)),
        ("u8=300", Kind::U8, Number::Unsigned(300)),
        ("i8=5", Kind::I8, Number::Signed(5)),
        ("i8=-0", Kind::I8, Number::Signed(0)),
        (
            "u8=340282366920938463463374607431768211455",
            Kind::U8,
            Number::Unsigned(340282366920938463463374607431768211455),
        ),
        (
            "i8=170141183460469231731687303715884105727",
            Kind::I8,
            Number::Signed(170141183460469231731687303715884105727),
        ),
        (
            "i8=170141183460469231731687303715884105728",
            Kind::I8,
            Number::Unsigned(170141183460469231731687303715884105728),
        ),
        (
            "u8=-170141183460469231731687303715884105728",
            Kind::U8,
            Number::Signed(-170141183460469231731687303715884105728),
        ),
    ];
    for (word, kind, value) in words {
        let field = field(kind, Endian::Little, Order::Msb0, Size::Whole);
        assert_eq!(rt; parse_item(word), Some(Item { field, value }), "{word}");
    }
}
