//! Seeks of a writer.

use crate::given::{Grown, Put, give_bounded, give_tables};
use deku_bits::ctx::Order::{Lsb0, Msb0};
use deku_testing::refusals::Refusal;
use std::io::{ErrorKind, SeekFrom};
use std::test::Fail;

// A seek drops what is pending, keeps the count, and moves the sink.
const DROPS: [Grown; 2] = [
    (
        &[
            Put::Bits("1010", Ok(())),
            Put::Seek(SeekFrom::Start(0), Ok(0)),
            Put::Left("", 0, Msb0),
            Put::Bytes(&[0xAA], Ok(())),
            Put::Count(8),
            Put::Bytes(&[0xBB, 0xCC], Ok(())),
            Put::Ordered(Lsb0, "1010", Ok(())),
            Put::Seek(SeekFrom::End(-2), Ok(1)),
            Put::Count(24),
            Put::Finalize(Ok(())),
            Put::Bytes(&[0xDD], Ok(())),
            Put::Count(32),
        ],
        &[0xAA, 0xDD, 0xCC],
    ),
    // The other calls that seek do the same as `seek`.
    (
        &[
            Put::Bytes(&[0xAA, 0xBB], Ok(())),
            Put::Bits("1010", Ok(())),
            Put::By(-1, Ok(())),
            Put::Left("", 0, Msb0),
            Put::Count(16),
            Put::Bits("11", Ok(())),
            Put::Place(Ok(1)),
            Put::Left("", 0, Msb0),
            Put::Bytes(&[0xCC], Ok(())),
            Put::Rewind(Ok(())),
            Put::Bytes(&[0xDD], Ok(())),
            Put::Count(32),
        ],
        &[0xDD, 0xCC],
    ),
];

#[test]
fn drops_what_is_pending(rt: HostRuntime) -> Result<(), Fail> {
    give_tables(&rt, rt.alloc(), &[&DROPS])
}

const KEPT: Refusal = Refusal::Io(ErrorKind::InvalidInput);

// The sink's refusal of a seek is kept until a seek succeeds.
const REFUSED: [Grown; 1] = [(
    &[
        Put::Bits("1010", Ok(())),
        Put::Seek(SeekFrom::Current(-1), Err(ErrorKind::InvalidInput)),
        Put::Bits("1010", Err(KEPT)),
        Put::Ordered(Lsb0, "", Err(KEPT)),
        Put::Bytes(&[0xAA], Err(KEPT)),
        Put::Finalize(Err(KEPT)),
        Put::Kept(KEPT),
        Put::Count(0),
        Put::Seek(SeekFrom::Current(1), Ok(1)),
        Put::Bytes(&[0xAA], Ok(())),
        Put::Count(8),
    ],
    &[0x00, 0xAA],
)];

#[test]
fn keeps_a_refused_seek(rt: HostRuntime) -> Result<(), Fail> {
    give_bounded(&rt, rt.alloc(), &REFUSED)
}
