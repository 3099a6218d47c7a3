//! Streams that cannot seek, read.

use crate::streams::{Get, get_steps};
use crate::taken::{Step, walk_source};
use deku_bits::ctx::Order::Msb0;
use deku_bits::noseek::NoSeek;
use deku_testing::refusals::{FAILED, handed};
use std::io::{ErrorKind, SeekFrom};
use std::test::Fail;

static READS: [(&[u8], &[Step]); 2] = [
    // No byte is passed, and none is lost.
    (
        &[0x01, 0x02, 0x03],
        &[
            Step::Skip(16, Msb0, Err(FAILED)),
            Step::Count(0),
            Step::Skip(0, Msb0, Err(FAILED)),
            Step::Seek(SeekFrom::Current(0), Ok(0)),
            Step::Fill(1, Msb0, Ok(&[0x01])),
            Step::Count(8),
            Step::Skip(7, Msb0, Ok(())),
            Step::Count(15),
        ],
    ),
    // A refused seek stops a reader until a seek to its place.
    (
        &[0x01],
        &[
            Step::Seek(SeekFrom::Current(1), Err(ErrorKind::Other)),
            Step::Fill(1, Msb0, Err(FAILED)),
            Step::Count(0),
            Step::Seek(SeekFrom::Current(0), Ok(0)),
            Step::Fill(1, Msb0, Ok(&[0x01])),
            Step::End(Ok(true)),
        ],
    ),
];

#[test]
fn refuses_to_pass_bytes_and_to_seek(rt: HostRuntime) -> Result<(), Fail> {
    for (case, (bytes, steps)) in READS.iter().enumerate() {
        let (lacks, _) = walk_source(&rt, rt.alloc(), case, NoSeek::new(*bytes), steps);
        handed(lacks)?;
    }
    Ok(())
}

// Its place is the count of the bytes that it moved, and only a seek to it succeeds.
static PLACES: [Get; 14] = [
    Get::Place(0),
    Get::Some(2, Ok(&[0x01, 0x02])),
    Get::Seek(SeekFrom::Current(0), Ok(2)),
    Get::Exact(1, Ok(&[0x03])),
    Get::Place(3),
    Get::Seek(SeekFrom::Start(3), Ok(3)),
    Get::Seek(SeekFrom::Start(0), Err(ErrorKind::Other)),
    Get::Seek(SeekFrom::Start(4), Err(ErrorKind::Other)),
    Get::Seek(SeekFrom::Current(1), Err(ErrorKind::Other)),
    Get::Seek(SeekFrom::Current(-1), Err(ErrorKind::Other)),
    Get::Seek(SeekFrom::End(0), Err(ErrorKind::Other)),
    Get::Seek(SeekFrom::End(-1), Err(ErrorKind::Other)),
    Get::Exact(2, Err(ErrorKind::UnexpectedEof)),
    Get::Place(3),
];

#[test]
fn knows_its_place(rt: HostRuntime) {
    let bytes: &[u8] = &[0x01, 0x02, 0x03, 0x04];
    get_steps(&rt, 0, &mut NoSeek::new(bytes), &PLACES);
}
