//! Lists of fields: memory for the numbers is found before anything is read.

use crate::expecting::expect_items;
use deku::ctx::{Endian, Layout, Order, Size};
use deku::error::DekuError;
use deku_fields::{
    Field, Item, Kind, Number, Place, list_from_bytes, list_to_bytes, places, read_list,
    read_list_into,
};
use deku_testing_values::expecting::{NO_MEMORY, reader_of, same};
use std::test::Fail;

const BYTES: [u8; 3] = [0x69, 0xC0, 0xFE];

const NUMBERS: [Number; 3] = [
    Number::Unsigned(6),
    Number::Unsigned(9),
    Number::Unsigned(49406),
];

// Two halves of a byte and two bytes, big in `Msb0`.
fn fields() -> [Field; 3] {
    let layout = |size| Layout {
        endian: Endian::Big,
        order: Order::Msb0,
        size,
    };
    let half = Field {
        kind: Kind::U8,
        layout: layout(Size::Bits(4)),
    };
    let word = Field {
        kind: Kind::U16,
        layout: layout(Size::Whole),
    };
    [half, half, word]
}

#[test]
fn read_or_not_moved(rt: HostRuntime) -> Result<(), Fail> {
    let mut reader = reader_of(rt.alloc(), &BYTES);
    match read_list(&mut reader, &fields()) {
        Ok(numbers) => same(&"vector", &numbers.as_slice(), &NUMBERS.as_slice())?,
        Err(refusal) => {
            let before = reader.bits_read();
            let mut numbers = [Number::Unsigned(0); 3];
            read_list_into(&mut reader, &fields(), &mut numbers)?;
            let seen = (refusal, before, numbers);
            same(&"buffer", &seen, &(NO_MEMORY, 0, NUMBERS))?;
        }
    }
    same(&"count", &reader.bits_read(), &24)
}

#[test]
fn from_bytes_or_no_memory(rt: HostRuntime) -> Result<(), Fail> {
    match list_from_bytes(rt.alloc(), &BYTES, &fields()) {
        Ok((bits, numbers)) => {
            let seen = (bits, numbers.as_slice());
            same(&"numbers", &seen, &(24, NUMBERS.as_slice()))
        }
        Err(refusal) => same(&"refused", &refusal, &NO_MEMORY),
    }
}

#[test]
fn to_bytes_or_no_memory(rt: HostRuntime) -> Result<(), Fail> {
    let mut items = fields().map(|field| Item {
        field,
        value: Number::Unsigned(0),
    });
    for (item, value) in items.iter_mut().zip(&NUMBERS) {
        item.value = *value;
    }
    expect_items("bytes", list_to_bytes(rt.alloc(), &items), &BYTES)
}

#[test]
fn drawn_or_no_memory(rt: HostRuntime) -> Result<(), Fail> {
    match places(rt.alloc(), &fields()) {
        Ok(picture) => {
            let ends = (picture.first().copied(), picture.last().copied());
            let (first, last) = (Place { field: 0, bit: 3 }, Place { field: 2, bit: 0 });
            let wanted = (24, (Some(Some(first)), Some(Some(last))));
            same(&"places", &(picture.len(), ends), &wanted)
        }
        Err(refusal) => same(&"refused", &refusal, &NO_MEMORY),
    }
}

// What has no picture is rejected before memory is asked for.
#[test]
fn refused_before_memory(rt: HostRuntime) -> Result<(), Fail> {
    let [first, mut turned, _] = fields();
    turned.layout.order = Order::Lsb0;
    let refusal = places(rt.alloc(), &[first, turned]).err();
    let wanted = DekuError::InvalidParam("order changes inside a byte");
    same(&"refused", &refusal, &Some(wanted))
}
