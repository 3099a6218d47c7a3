//! Whole bytes that are written, against worked examples.

use crate::given::{Grown, Put, give_bounded, give_tables};
use deku_bits::ctx::Order::{Lsb0, Msb0};
use deku_testing::refusals::Refusal;
use std::io::{ErrorKind, SeekFrom};
use std::test::Fail;

// Bytes among bits.
const AMONG: [Grown; 1] = [(
    &[
        Put::Bytes(&[0xAA], Ok(())),
        Put::Bits("10111011", Ok(())),
        Put::Bits("1111", Ok(())),
        Put::Bits("0001", Ok(())),
        Put::Bytes(&[0xAA], Ok(())),
        Put::Bits("0001", Ok(())),
        Put::Bits("1111", Ok(())),
        Put::Bits("0001", Ok(())),
        Put::Bytes(&[0xAA], Ok(())),
        Put::Bits("1111", Ok(())),
        Put::Count(56),
        Put::Rest(""),
    ],
    &[0xAA, 0xBB, 0xF1, 0xAA, 0x1F, 0x1A, 0xAF],
)];

// Bits in an order, bytes written onto them, what is pending then, and what the sink has been
// given.
const ONTO: [Grown; 4] = [
    (
        &[
            Put::Ordered(Msb0, "1010", Ok(())),
            Put::Bytes(&[0xBB], Ok(())),
            Put::Left("1011", 0xB0, Msb0),
            Put::Count(8),
        ],
        &[0xAB],
    ),
    (
        &[
            Put::Ordered(Lsb0, "101", Ok(())),
            Put::Bytes(&[0xAB, 0xCD], Ok(())),
            Put::Left("101", 0xA0, Msb0),
            Put::Count(16),
        ],
        &[0xCD, 0xAB],
    ),
    (
        &[
            Put::Ordered(Lsb0, "101", Ok(())),
            Put::Bytes(&[], Ok(())),
            Put::Left("101", 0xA0, Lsb0),
            Put::Count(0),
        ],
        &[],
    ),
    (
        &[
            Put::Ordered(Lsb0, "", Ok(())),
            Put::Bytes(&[0xAB, 0xCD], Ok(())),
            Put::Left("", 0, Msb0),
            Put::Count(16),
        ],
        &[0xAB, 0xCD],
    ),
];

// A byte after other bytes is filled.
const BEHIND: [Grown; 1] = [(
    &[
        Put::Ordered(Lsb0, "101", Ok(())),
        Put::Bytes(&[0xAB, 0xCD], Ok(())),
        Put::Left("101", 0xA0, Msb0),
        Put::Finalize(Ok(())),
        Put::Count(24),
    ],
    &[0xCD, 0xAB, 0xA0],
)];

#[test]
fn writes_bytes_among_bits_and_onto_them(rt: HostRuntime) -> Result<(), Fail> {
    give_tables(&rt, rt.alloc(), &[&AMONG, &ONTO, &BEHIND])
}

const FULL: Refusal = Refusal::Io(ErrorKind::WriteZero);

// A sink without room for all bytes stops the writer until a seek succeeds.
const ROOM: [Grown; 1] = [(
    &[
        Put::Bytes(&[0xAA, 0xBB], Err(FULL)),
        Put::Count(0),
        Put::Bytes(&[], Err(FULL)),
        Put::Bytes(&[0xAA], Err(FULL)),
        Put::Bits("", Err(FULL)),
        Put::Ordered(Lsb0, "1111", Err(FULL)),
        Put::Finalize(Err(FULL)),
        Put::Kept(FULL),
        Put::Left("", 0, Msb0),
        Put::Rest(""),
        Put::Count(0),
        Put::Seek(SeekFrom::Start(0), Ok(0)),
        Put::Bytes(&[0xAA], Ok(())),
        Put::Count(8),
    ],
    &[0xAA],
)];

#[test]
fn keeps_the_end_of_room(rt: HostRuntime) -> Result<(), Fail> {
    give_bounded(&rt, rt.alloc(), &ROOM)
}
