//! Records both ways: signals and messages as they came over a wire.

use crate::message::Message;
use crate::sample::Sample;
use deku::prelude::{DekuContainerRead, DekuError};
use deku_symmetry::{Be, Le, Lsb, LsbBe, Msb, MsbLe, Symmetric};
use deku_testing_values::expecting::{expect_denied, same};
use deku_testing_values::records::{expect_both_ways, expect_record};
use std::test::Fail;

// Signals of an engine: two of four bits and one of a byte; a byte, two bytes, and a byte; and
// two of four bits and one of a byte again.
type Engine = (
    (Lsb<u8, 4>, Lsb<u8, 4>, Lsb<u8, 8>),
    (Lsb<u8, 8>, Lsb<u16, 16>, Lsb<u8, 8>),
    (Lsb<u8, 4>, Lsb<u8, 4>, Lsb<u8, 8>),
);

// An engine that idles, and one that runs.
const ENGINES: [(Engine, [u8; 8]); 2] = [
    (
        (
            (Lsb(15), Lsb(15), Lsb(255)),
            (Lsb(255), Lsb(0x1368), Lsb(255)),
            (Lsb(15), Lsb(15), Lsb(255)),
        ),
        [0xFF, 0xFF, 0xFF, 0x68, 0x13, 0xFF, 0xFF, 0xFF],
    ),
    (
        (
            (Lsb(1), Lsb(2), Lsb(0x7D)),
            (Lsb(0x8A), Lsb(0x1C20), Lsb(0)),
            (Lsb(3), Lsb(15), Lsb(0x8A)),
        ),
        [0x21, 0x7D, 0x8A, 0x20, 0x1C, 0x00, 0xF3, 0x8A],
    ),
];

#[test]
fn signals_of_an_engine(rt: HostRuntime) -> Result<(), Fail> {
    for (engine, bytes) in &ENGINES {
        expect_both_ways(rt.alloc(), (), engine, 64, bytes)?;
    }
    Ok(())
}

// Fields in each way, and among them a record.
type Report = (
    (Lsb<u8, 3>, Lsb<u16, 13>),
    (Le<u32>, Be<i16>, bool, Sample),
    (Msb<i16, 12>, Msb<i16, 12>),
    (MsbLe<u16, 10>, Msb<u8, 6>),
    (LsbBe<u16, 13>, LsbBe<u8, 3>),
);

// 0x1234 * 8 + 5 is 0x91A5, its low byte first.
#[test]
fn fields_of_all_ways(rt: HostRuntime) -> Result<(), Fail> {
    let sample = Sample {
        sensor: 6,
        state: 9,
        value: 0xC0FE,
    };
    let report: Report = (
        (Lsb(5), Lsb(0x1234)),
        (Le(0x01020304), Be(-2), true, sample),
        (Msb(-1), Msb(0x123)),
        (MsbLe(0x3AB), Msb(0x3F)),
        (LsbBe(0x1001), LsbBe(4)),
    );
    let bytes = [
        0xA5, 0x91, 0x04, 0x03, 0x02, 0x01, 0xFF, 0xFE, 0x01, 0x69, 0xC0, 0xFE, 0xFF, 0xF1, 0x23,
        0xAB, 0xFF, 0x10, 0x81,
    ];
    expect_both_ways(rt.alloc(), (), &report, 152, &bytes)
}

#[test]
fn messages(rt: HostRuntime) -> Result<(), Fail> {
    let place = Message::Move {
        across: -2,
        up: 0x123,
    };
    let rows: [(Message, &[u8]); 3] = [
        (Message::Tone(440), &[0x01, 0x01, 0xB8]),
        (place, &[0x02, 0xFF, 0xE1, 0x23]),
        (Message::Stop, &[0x03]),
    ];
    for (message, bytes) in &rows {
        expect_record(rt.alloc(), message, bytes)?;
    }
    Ok(())
}

// An id that no kind has is refused, and the reader is after it.
#[test]
fn an_unknown_id(rt: HostRuntime) -> Result<(), Fail> {
    let bytes: &[u8] = &[0x09, 0x69];
    let unknown = DekuError::IdVariantNotFound;
    expect_denied::<Message, ()>(rt.alloc(), (), bytes, (unknown, 8, 0x69))?;
    let unpacked = Message::unpack(rt.alloc(), bytes, ()).err();
    let whole = Message::from_bytes(rt.alloc(), (bytes, 0)).err();
    same(&bytes, &(unpacked, whole), &(Some(unknown), Some(unknown)))
}
