//! Streams that cannot seek, written.

use crate::given::{Put, give_sink};
use crate::streams::{Set, set_steps};
use deku_bits::noseek::NoSeek;
use deku_testing::refusals::FAILED;
use deku_testing::same::{same, same_bytes};
use std::io::{BufWriter, ErrorKind, SeekFrom};
use std::test::Fail;

const WRITES: [Put; 9] = [
    Put::Bytes(&[0xAA, 0xBB], Ok(())),
    Put::Bits("1010", Ok(())),
    Put::Seek(SeekFrom::Start(2), Ok(2)),
    Put::Seek(SeekFrom::Start(0), Err(ErrorKind::Other)),
    Put::Bytes(&[0xCC], Err(FAILED)),
    Put::Finalize(Err(FAILED)),
    Put::Seek(SeekFrom::Current(0), Ok(2)),
    Put::Bytes(&[0xDD], Ok(())),
    Put::Count(24),
];

// What is moved by the stream inside is not counted.
const MORE: [Set; 5] = [
    Set::Place(3),
    Set::All(&[0xFF], Ok(())),
    Set::Some(&[0x01], Ok(1)),
    Set::Flush(Ok(())),
    Set::Place(5),
];

#[test]
fn writes_without_a_seek(rt: HostRuntime) -> Result<(), Fail> {
    let stream = NoSeek::new(Vec::new(rt.alloc()));
    let mut stream = give_sink(&rt, rt.alloc(), 0, stream, &WRITES)?;
    same_bytes(&(1, 0), stream.get_ref().as_slice(), &[0xAA, 0xBB, 0xDD])?;
    stream.get_mut().push(0xEE)?;
    set_steps(2, &mut stream, &MORE)?;
    let want = [0xAA, 0xBB, 0xDD, 0xEE, 0xFF, 0x01];
    same_bytes(&(3, 0), stream.into_inner().as_slice(), &want)?;
    Ok(())
}

const TWO: [Set; 1] = [Set::All(&[0xAA, 0xBB], Ok(()))];

const FLUSHED: [Set; 2] = [Set::Flush(Ok(())), Set::Place(2)];

// What a stream holds back is passed on when it is flushed.
#[test]
fn flushes_the_stream_inside(rt: HostRuntime) -> Result<(), Fail> {
    let mut bytes = [0; 2];
    let buffered = BufWriter::new(rt.alloc(), bytes.as_mut_slice())?;
    let mut stream = NoSeek::new(buffered);
    set_steps(0, &mut stream, &TWO)?;
    same_bytes(&(1, 0), stream.get_ref().buffer(), &[0xAA, 0xBB])?;
    set_steps(2, &mut stream, &FLUSHED)?;
    same(&(3, 0), &stream.get_ref().buffer().is_empty(), &true)?;
    Ok(())
}

const FAILS: [Set; 2] = [
    Set::All(&[0xAA, 0xBB], Ok(())),
    Set::Flush(Err(ErrorKind::WriteZero)),
];

// A fault of the stream inside is passed on when it is flushed.
#[test]
fn hands_on_a_flush_that_fails(rt: HostRuntime) -> Result<(), Fail> {
    let mut byte = [0; 1];
    let buffered = BufWriter::new(rt.alloc(), byte.as_mut_slice())?;
    set_steps(0, &mut NoSeek::new(buffered), &FAILS)
}
