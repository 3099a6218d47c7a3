//! Words, by worked rows, and what happens at the end of the room.

use crate::given::{Grown, Put, give_bounded, give_tables};
use deku_bits::ctx::Order::{Lsb0, Msb0};
use deku_testing::refusals::Refusal;
use std::io::{ErrorKind, SeekFrom};
use std::test::Fail;

const WORKED: [Grown; 3] = [
    // Its lowest byte, and what is above it.
    (
        &[
            Put::Word(0x0201, 12, Msb0, Ok(())),
            Put::Count(8),
            Put::Left("0010", 0x20, Msb0),
        ],
        &[0x01],
    ),
    (
        &[
            Put::Word(0xCAB, 12, Msb0, Ok(())),
            Put::Word(0xD, 4, Msb0, Ok(())),
            Put::Count(16),
        ],
        &[0xAB, 0xCD],
    ),
    (
        &[
            Put::Word(0x01, 5, Lsb0, Ok(())),
            Put::Word(0x91A5, 16, Lsb0, Ok(())),
            Put::Word(0x0, 3, Lsb0, Ok(())),
            Put::Count(24),
        ],
        &[0xA1, 0x34, 0x12],
    ),
];

#[test]
fn writes_the_worked_words(rt: HostRuntime) -> Result<(), Fail> {
    give_tables(&rt, rt.alloc(), &[&WORKED])
}

const FULL: Refusal = Refusal::Io(ErrorKind::WriteZero);

// A sink without room for all bytes of a word stops the writer until a seek succeeds.
const ROOM: [Grown; 1] = [(
    &[
        Put::Word(0xBBAA, 16, Msb0, Err(FULL)),
        Put::Word(0, 0, Lsb0, Err(FULL)),
        Put::Word(0xAA, 8, Lsb0, Err(FULL)),
        Put::Kept(FULL),
        Put::Count(0),
        Put::Seek(SeekFrom::Start(0), Ok(0)),
        Put::Word(0xAA, 8, Lsb0, Ok(())),
        Put::Count(8),
    ],
    &[0xAA],
)];

#[test]
fn keeps_the_end_of_room(rt: HostRuntime) -> Result<(), Fail> {
    give_bounded(&rt, rt.alloc(), &ROOM)
}
