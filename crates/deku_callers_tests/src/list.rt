//! Lists of fields, written and read back, as tests.

use crate::same::{same, same_bytes};
use deku::ctx::{Endian, Layout, Order, Size};
use deku_callers::list::{five_there_and_back, rewritten};
use deku_fields::{Field, Kind, Number};
use std::test::Fail;

// A field, big in `Msb0`.
fn high(kind: Kind, size: Size) -> Field {
    let layout = Layout {
        endian: Endian::Big,
        order: Order::Msb0,
        size,
    };
    Field { kind, layout }
}

// A field in `Lsb0`.
fn low(kind: Kind, endian: Endian, size: Size) -> Field {
    let layout = Layout {
        endian,
        order: Order::Lsb0,
        size,
    };
    Field { kind, layout }
}

#[test]
fn writes_the_bytes_that_it_took(rt: HostRuntime) -> Result<(), Fail> {
    let nibble = high(Kind::U8, Size::Bits(4));
    let halves = [nibble, nibble, high(Kind::U16, Size::Whole)];
    let five = low(Kind::U8, Endian::Little, Size::Bits(5));
    let three = low(Kind::U8, Endian::Little, Size::Bits(3));
    let inside = [five, low(Kind::U16, Endian::Little, Size::Whole), three];
    let thirteen = [low(Kind::U16, Endian::Big, Size::Bits(13))];
    let rows: [(&[Field], &[u8], &[u8]); 6] = [
        (&[], &[0x69], &[]),
        (&halves, &[0x69, 0xBE, 0xEF, 0x01], &[0x69, 0xBE, 0xEF]),
        (&halves[..1], &[0xFF], &[0xF0]),
        (&inside, &[0xA1, 0x34, 0x12, 0xFF], &[0xA1, 0x34, 0x12]),
        (&inside[..1], &[0xFF], &[0x1F]),
        (&thirteen, &[0xFF, 0xFF], &[0xFF, 0x1F]),
    ];
    for (row, (fields, bytes, want)) in rows.iter().enumerate() {
        let written = rewritten(rt.alloc(), bytes, fields)?;
        same_bytes(&rt, row, written.as_slice(), want);
    }
    Ok(())
}

#[test]
fn five_values_come_back(rt: HostRuntime) -> Result<(), Fail> {
    let rows: [(u8, u8, u16, u8, i16); 3] = [
        (0, 0, 0, 0, 0),
        (4, 9, 0x1001, 5, -2),
        (15, 15, 0x1FFF, 7, i16::MIN),
    ];
    for (row, (version, kind, span, flags, heat)) in rows.iter().enumerate() {
        if *version < 16 && *kind < 16 && *span < 8192 && *flags < 8 {
            let (bits, values) = five_there_and_back(
                rt.alloc(),
                *version,
                *kind,
                *span,
                *flags,
                *heat,
            )?;
            let want = [
                Number::Unsigned(*version as u128),
                Number::Unsigned(*kind as u128),
                Number::Unsigned(*span as u128),
                Number::Unsigned(*flags as u128),
                Number::Signed(*heat as i128),
            ];
            same(&rt, row, &(bits, values.as_slice()), &(40, want.as_slice()));
        }
    }
    Ok(())
}
