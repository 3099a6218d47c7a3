//! Numbers that are cut to the bytes of their fields, against worked examples.

use deku::ctx::{Endian, Layout, Order, Size};
use deku::error::DekuError;
use deku_fields::Kind::{I8, I16, I32, I128, U8, U16, U32, U128};
use deku_fields::Number::{Signed, Unsigned};
use deku_fields::{Field, Item, Kind, Number, cut_to_bytes, list_to_bytes};
use deku_testing_values::expecting::{MISFIT, NO_MEMORY};
use std::alloc::Global;
use std::process::Abort;
use std::test::Fail;

// A big field in `Msb0`.
fn big(kind: Kind, size: Size) -> Field {
    Field {
        kind,
        layout: Layout {
            endian: Endian::Big,
            order: Order::Msb0,
            size,
        },
    }
}

// A kind, a size, a number, and what is left of it.
type Row = (Kind, Size, Number, Option<Number>);

fn expect_left(rt: &impl Abort, rows: &[Row]) {
    for (kind, size, number, want) in rows {
        let left = cut_to_bytes(*number, big(*kind, *size));
        assert!(rt;
            left == *want,
            "{kind:?} {size:?} {number:?}: {left:?}, and not {want:?}"
        );
    }
}

#[test]
fn cuts_to_bytes(rt: HostRuntime) {
    let rows: [Row; 8] = [
        (U32, Size::Bytes(2), Unsigned(16909060), Some(Unsigned(772))),
        (I16, Size::Bytes(1), Signed(300), Some(Signed(44))),
        (I16, Size::Bytes(1), Signed(200), Some(Signed(-56))),
        (I16, Size::Bytes(1), Signed(-200), Some(Signed(56))),
        (I32, Size::Bytes(2), Signed(32768), Some(Signed(-32768))),
        (I32, Size::Bytes(2), Signed(-32768), Some(Signed(-32768))),
        (U16, Size::Bytes(0), Unsigned(1), Some(Unsigned(0))),
        (I16, Size::Bytes(0), Signed(-1), Some(Signed(0))),
    ];
    expect_left(&rt, &rows);
}

// What fits stays, and so does what is under a size that is not in bytes, and a byte.
#[test]
fn leaves_numbers(rt: HostRuntime) {
    let (all, least) = (Unsigned(u128::MAX), Signed(i128::MIN));
    let rows: [Row; 7] = [
        (U128, Size::Bytes(16), all, Some(all)),
        (I128, Size::Bytes(16), least, Some(least)),
        (I8, Size::Bytes(1), Signed(-128), Some(Signed(-128))),
        (U8, Size::Bytes(9), Unsigned(0xAB), Some(Unsigned(0xAB))),
        (U8, Size::Bytes(0), Unsigned(0xAB), Some(Unsigned(0xAB))),
        (U8, Size::Bits(4), Unsigned(16), Some(Unsigned(16))),
        (I16, Size::Whole, Signed(-2), Some(Signed(-2))),
    ];
    expect_left(&rt, &rows);
}

// Nothing is left of what is outside the kind, or if the layout is refused.
#[test]
fn leaves_nothing(rt: HostRuntime) {
    let rows: [Row; 6] = [
        (U8, Size::Whole, Unsigned(300), None),
        (U16, Size::Bytes(1), Unsigned(65536), None),
        (U16, Size::Bytes(1), Signed(5), None),
        (I16, Size::Bytes(1), Unsigned(5), None),
        (U16, Size::Bytes(3), Unsigned(1), None),
        (U8, Size::Bits(9), Unsigned(1), None),
    ];
    expect_left(&rt, &rows);
}

// What an item was written as before its size in bytes was strict.
fn cut(item: &mut Item) -> Result<(), DekuError> {
    let Some(kept) = cut_to_bytes(item.value, item.field) else {
        return Err(DekuError::InvalidParam("value outside type"));
    };
    item.value = kept;
    Ok(())
}

// The number is refused in the field, unless it fits, and what is left of it is written as the
// bytes.
fn expect_bytes(
    rt: &impl Abort,
    alloc: Global,
    item: Item,
    fits: bool,
    want: &[u8],
) -> Result<(), Fail> {
    let refusal = list_to_bytes(alloc, &[item]).err();
    if refusal == Some(NO_MEMORY) {
        return Err(Fail::from(NO_MEMORY));
    }
    let refused = if fits { None } else { Some(MISFIT) };
    assert!(rt; refusal == refused, "{item:?}: {refusal:?}");
    let mut item = item;
    cut(&mut item)?;
    let written = list_to_bytes(alloc, &[item])?;
    assert!(rt;
        written.as_slice() == want,
        "{item:?} cut: {written:?}, and not {want:?}"
    );
    Ok(())
}

#[test]
fn writes_what_is_left(rt: HostRuntime) -> Result<(), Fail> {
    let rows: [(Kind, usize, Number, bool, &[u8]); 6] = [
        (U32, 2, Unsigned(16909060), false, &[0x03, 0x04]),
        (I16, 1, Signed(200), false, &[0xC8]),
        (I32, 2, Signed(32768), false, &[0x80, 0x00]),
        (I32, 2, Signed(-32768), true, &[0x80, 0x00]),
        (U16, 0, Unsigned(1), false, &[]),
        (U8, 9, Unsigned(0xAB), true, &[0xAB]),
    ];
    for (kind, bytes, value, fits, want) in rows {
        let field = big(kind, Size::Bytes(bytes));
        expect_bytes(&rt, rt.alloc(), Item { field, value }, fits, want)?;
    }
    Ok(())
}
