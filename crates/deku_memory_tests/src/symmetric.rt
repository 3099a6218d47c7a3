//! Symmetric values and frames: as bytes and from them, or out of memory.

use crate::expecting::{expect_items, read_first};
use deku::prelude::{DekuContainerRead, DekuContainerWrite};
use deku_fields::frame::Frame;
use deku_symmetry::{Be, Counted, Msb, Symmetric};
use deku_testing_values::expecting::{NO_MEMORY, same};
use std::test::Fail;

type Header = (Msb<u8, 4>, Msb<u8, 4>, Be<u16>);

const HEADER: Header = (Msb(6), Msb(9), Be(0xC0FE));

// Numbers are read from bytes without memory.
#[test]
fn a_header_or_no_memory(rt: HostRuntime) -> Result<(), Fail> {
    let bytes = [0x69, 0xC0, 0xFE];
    expect_items("header", HEADER.pack(rt.alloc(), ()), &bytes)?;
    let read = Header::unpack(rt.alloc(), &bytes, ())?;
    same(&"header", &read, &(24, HEADER))
}

// A byte that counts three, and these.
#[test]
fn counted_items_or_no_memory(rt: HostRuntime) -> Result<(), Fail> {
    let first = read_first::<([u8; 2], Counted<u8, u8>), _>(rt.alloc(), &BYTES, (), 1, 6)?;
    match first {
        Some((_, led)) => expect_items("counted", led.pack(rt.alloc(), ()), &BYTES[2..6]),
        None => Ok(()),
    }
}

const BYTES: [u8; 7] = [1, 2, 3, 4, 5, 6, 7];

#[test]
fn a_frame_or_no_memory(rt: HostRuntime) -> Result<(), Fail> {
    let bytes: &[u8] = &[0x21, 0x02, 0xAA, 0xBB, 0x99];
    match Frame::from_bytes(rt.alloc(), (bytes, 0)) {
        Ok((rest, frame)) => {
            same(&"rest", &rest, &(&bytes[4..], 0))?;
            expect_items("bytes", frame.to_bytes(rt.alloc()), &bytes[..4])
        }
        Err(refusal) => same(&"refused", &refusal, &NO_MEMORY),
    }
}

#[test]
fn bits_or_no_memory(rt: HostRuntime) -> Result<(), Fail> {
    let (i, o) = (true, false);
    let bits = [
        o, o, i, i, o, o, o, i, o, o, i, o, i, o, i, o, i, o, i, o, o, i, i, i,
    ];
    let pair = Frame::pair(5, 0x2A7)?; // 31 2A A7
    expect_items("bits", pair.to_bits(rt.alloc()), &bits)
}
