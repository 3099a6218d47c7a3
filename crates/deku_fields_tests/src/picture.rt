//! Pictures of layouts, against worked examples and against the bits of what is written.

use deku::error::DekuError;
use deku_fields::{Field, Item, Number, Place, list_to_bytes, parse_field, parse_item, places};
use std::alloc::{AllocError, Global};
use std::fmt::Write as _;
use std::process::Abort;
use std::test::Fail;

// The fields that words name.
fn fields_of(alloc: Global, words: &[&str]) -> Result<Vec<Field>, AllocError> {
    let mut fields = Vec::new(alloc);
    for word in words {
        if let Some(field) = parse_field(word) {
            fields.push(field)?;
        }
    }
    Ok(fields)
}

// A picture as text: a letter for the field and the bit of its number, `--` for padding, and a
// slash between bytes.
fn drawn(alloc: Global, picture: &[Option<Place>]) -> Result<String, AllocError> {
    let mut text = String::new(alloc);
    for (k, cell) in picture.iter().enumerate() {
        if k > 0 {
            text.push_str(if k % 8 == 0 { " / " } else { " " })?;
        }
        match cell {
            Some(place) => {
                let letter = ["a", "b", "c", "d"]
                    .get(place.field)
                    .copied()
                    .unwrap_or("?");
                write!(text, "{letter}{}", place.bit)?;
            }
            None => text.push_str("--")?,
        }
    }
    Ok(text)
}

// The words of fields, and their picture.
type Row<'a> = (&'a [&'a str], &'a str);

fn expect_drawn(rt: &impl Abort, alloc: Global, rows: &[Row]) -> Result<(), Fail> {
    for (words, want) in rows {
        let fields = fields_of(alloc, words)?;
        assert!(rt; fields.len() == words.len(), "{words:?}: no fields");
        let text = drawn(alloc, places(alloc, fields.as_slice())?.as_slice())?;
        assert!(rt; text.as_str() == *want, "{words:?}: {text}, and not {want}");
    }
    Ok(())
}

#[test]
fn draws_layouts(rt: HostRuntime) -> Result<(), Fail> {
    let rows: [Row; 8] = [
        (&[], ""),
        (
            &["u8,big,bits4", "u8,big,bits4", "u16,big"],
            "a3 a2 a1 a0 b3 b2 b1 b0 / c15 c14 c13 c12 c11 c10 c9 c8 / c7 c6 c5 c4 c3 c2 c1 c0",
        ),
        (
            &["u8,lsb,bits4", "u16,lsb,bits12"],
            "b3 b2 b1 b0 a3 a2 a1 a0 / b11 b10 b9 b8 b7 b6 b5 b4",
        ),
        (
            &["u16,big,lsb,bits12"],
            "a15 a14 a13 a12 a11 a10 a9 a8 / -- -- -- -- a3 a2 a1 a0",
        ),
        (
            &["u16,bits12"],
            "a7 a6 a5 a4 a3 a2 a1 a0 / a11 a10 a9 a8 -- -- -- --",
        ),
        (&["i8,big,bits3"], "a2 a1 a0 -- -- -- -- --"),
        (&["i8,lsb,bits3"], "-- -- -- -- -- a2 a1 a0"),
        (
            &["u8,lsb", "u8,big,bits4", "u8,lsb,bits0", "u8,big,bits4"],
            "a7 a6 a5 a4 a3 a2 a1 a0 / b3 b2 b1 b0 d3 d2 d1 d0",
        ),
    ];
    expect_drawn(&rt, rt.alloc(), &rows)
}

#[test]
fn refuses_what_has_no_picture(rt: HostRuntime) -> Result<(), Fail> {
    let turned = "order changes inside a byte";
    let bits = "bit size is larger than input";
    let rows: [(&[&str], &'static str); 6] = [
        (&["u8,big,bits4", "u8,bits9"], bits),
        (&["u16,bytes3"], "byte size is larger than input"),
        (
            &["i16,big,lsb,bits13"],
            "signed big Lsb0 field of this width",
        ),
        (&["u8,big,bits3", "u16,lsb,bits9"], turned),
        (&["u8,big,bits3", "u8,lsb,bits3", "u8,bits9"], turned),
        (&["u8,big,bits3", "u8,bits9", "u8,lsb,bits3"], bits),
    ];
    for (words, text) in rows {
        let fields = fields_of(rt.alloc(), words)?;
        match places(rt.alloc(), fields.as_slice()) {
            Ok(_) => assert!(&rt; false, "{words:?}: drawn"),
            Err(DekuError::Io(kind)) => return Err(Fail::from(DekuError::Io(kind))),
            Err(refusal) => assert!(&rt;
                refusal == DekuError::InvalidParam(text),
                "{words:?}: {refusal:?}"
            ),
        }
    }
    Ok(())
}

// The items that words name, and their fields.
fn items_of(alloc: Global, words: &[&str]) -> Result<(Vec<Item>, Vec<Field>), AllocError> {
    let mut items = Vec::new(alloc);
    let mut fields = Vec::new(alloc);
    for word in words {
        if let Some(item) = parse_item(word) {
            items.push(item)?;
            fields.push(item.field)?;
        }
    }
    Ok((items, fields))
}

// Whether a bit of a number is set, in two's complement if there is a sign.
fn is_set(number: Number, bit: usize) -> bool {
    let Ok(bit) = u32::try_from(bit) else {
        return false;
    };
    match number {
        Number::Unsigned(value) => value.checked_shr(bit).is_some_and(|rest| rest % 2 == 1),
        Number::Signed(value) => value
            .checked_shr(bit)
            .is_some_and(|rest| rest.rem_euclid(2) == 1),
    }
}

// Each bit of the bytes that items are written as is the one that the picture has.
fn expect_shown(rt: &impl Abort, items: &[Item], bytes: &[u8], picture: &[Option<Place>]) {
    for (k, cell) in picture.iter().enumerate() {
        let byte = bytes.get(k / 8).copied().unwrap_or(0);
        let weight = [128u8, 64, 32, 16, 8, 4, 2, 1]
            .get(k % 8)
            .copied()
            .unwrap_or(1);
        let want = match cell {
            Some(place) => items
                .get(place.field)
                .is_some_and(|item| is_set(item.value, place.bit)),
            None => false,
        };
        assert!(rt;
            (byte & weight != 0) == want,
            "bit {k} of {bytes:?}: {cell:?}"
        );
    }
}

#[test]
fn shows_what_is_written(rt: HostRuntime) -> Result<(), Fail> {
    let rows: [&[&str]; 5] = [
        &["u8,big,bits4=6", "u8,big,bits4=9", "u16,big=49406"],
        &[
            "u16,big,lsb,bits13=4097",
            "u8,big,lsb,bits3=4",
            "u8,big=171",
        ],
        &["i16,bits12=-2", "i8,big,bits5=-11"],
        &[
            "u8,lsb,bits3=5",
            "u128,lsb=170141183460469231731687303715884105729",
        ],
        &["i128,big,lsb=-170141183460469231731687303715884105727"],
    ];
    for words in rows {
        let (items, fields) = items_of(rt.alloc(), words)?;
        assert!(&rt; items.len() == words.len(), "{words:?}: no items");
        let bytes = list_to_bytes(rt.alloc(), items.as_slice())?;
        let picture = places(rt.alloc(), fields.as_slice())?;
        assert!(&rt;
            picture.len() == bytes.len().saturating_mul(8),
            "{words:?}: {picture:?}"
        );
        expect_shown(&rt, items.as_slice(), bytes.as_slice(), picture.as_slice());
    }
    Ok(())
}
