//! A record that is read from a file, also through a buffer, and the bytes that are in memory.

use crate::taken::{Step, walk_source};
use deku_bits::ctx::Order::{Lsb0, Msb0};
use deku_bits::device::Source;
use deku_bits::noseek::NoSeek;
use deku_testing::refusals::{Refusal, handed, kind_of};
use deku_testing::same::same;
use std::fs::File;
use std::io::{BufReader, Cursor, ErrorKind, SeekFrom, Write};
use std::test::Fail;
use std::{fs, io};

// In the folder where the tests run.
const PATH: &str = "record_read.bin";

static READ: [Step; 17] = [
    Step::Into(4, Msb0, Ok("1010")),
    Step::Into(4, Lsb0, Ok("0101")),
    Step::Into(3, Lsb0, Ok("101")),
    Step::Count(11),
    Step::Skip(13, Lsb0, Ok(())),
    Step::End(Ok(false)),
    Step::Fill(1, Msb0, Ok(&[0xDE])),
    Step::End(Ok(true)),
    Step::Count(32),
    Step::Seek(SeekFrom::Start(2), Ok(2)),
    Step::Count(16),
    Step::Fill(1, Lsb0, Ok(&[0x1C])),
    Step::Into(9, Msb0, Err(Refusal::Until(9))),
    Step::End(Err(Refusal::Until(9))),
    Step::Count(24),
    Step::Seek(SeekFrom::End(-1), Ok(3)),
    Step::Fill(1, Msb0, Ok(&[0xDE])),
];

// A byte half from above and half from below, one of three bits, and two.
#[test]
fn reads_a_record(rt: HostRuntime) -> Result<(), Fail> {
    let mut file = File::create(&rt, PATH)?;
    file.write_all(&[0xA5, 0x05, 0x1C, 0xDE])?;
    let source = File::open(&rt, PATH)?;
    fs::remove_file(&rt, PATH)?;
    let (lacks, _file) = walk_source(&rt, rt.alloc(), 0, source, &READ);
    handed(lacks)
}

// A file of these bytes, which is gone when it is closed.
fn file_of(rt: &HostRuntime, path: &str, bytes: &[u8]) -> io::Result<File> {
    let mut file = File::create(rt, path)?;
    file.write_all(bytes)?;
    let source = File::open(rt, path)?;
    fs::remove_file(rt, path)?;
    Ok(source)
}

// The same record through buffers of one byte, of three and of as many as by default.
#[test]
fn reads_a_record_behind_a_buffer(rt: HostRuntime) -> Result<(), Fail> {
    let mut lacking = false;
    for (case, capacity) in [1, 3, 8192].iter().enumerate() {
        let file = file_of(&rt, "record_buffered.bin", &[0xA5, 0x05, 0x1C, 0xDE])?;
        let source = BufReader::with_capacity(rt.alloc(), *capacity, file)?;
        let (lacks, _file) = walk_source(&rt, rt.alloc(), case, source, &READ);
        lacking = lacks || lacking;
    }
    handed(lacking)
}

// The next byte, by a fetch.
fn fetched<S: Source>(source: &mut S) -> io::Result<u8> {
    let mut byte = [0];
    source.fetch(&mut byte)?;
    Ok(byte[0])
}

// A buffer of sixteen bytes has eight in memory as long as so many are left in it.
#[test]
fn has_bytes_of_a_buffer_at_hand(rt: HostRuntime) -> Result<(), Fail> {
    let mut bytes = [0; 20];
    for (at, byte) in bytes.iter_mut().enumerate() {
        *byte = (at % 256) as u8;
    }
    let file = file_of(&rt, "bytes_buffered.bin", &bytes)?;
    let mut source = BufReader::with_capacity(rt.alloc(), 16, file)?;
    expect_buffered(&mut source)?;
    expect_passed(&mut source)
}

// The first nine bytes, of which eight are in memory after the first.
fn expect_buffered<S: Source>(source: &mut S) -> Result<(), Fail> {
    same(&0, &source.try_take(1), &None)?;
    same(&1, &fetched(source)?, &0)?;
    same(&2, &source.try_take(2), &Some([1, 2, 3, 4, 5, 6, 7, 8]))?;
    same(&3, &source.try_take(6), &Some([3, 4, 5, 6, 7, 8, 9, 10]))?;
    same(&4, &source.try_take(1), &None)?;
    same(&5, &fetched(source)?, &9)
}

// The bytes after them, some of which are passed.
fn expect_passed<S: Source>(source: &mut S) -> Result<(), Fail> {
    source.pass(4)?;
    same(&6, &fetched(source)?, &14)?;
    same(&7, &source.seek_to(SeekFrom::Current(0))?, &15)?;
    same(&8, &fetched(source)?, &15)?;
    source.pass(3)?;
    same(&9, &fetched(source)?, &19)?;
    same(&10, &source.try_take(0), &None)?;
    same(&11, &fetched(source).is_err(), &true)
}

// The same of a stream that cannot seek: it seeks to its own place, and nowhere else.
#[test]
fn has_bytes_of_a_stream_at_hand(rt: HostRuntime) -> Result<(), Fail> {
    let bytes: &[u8] = &[0, 1, 2, 3, 4, 5, 6, 7, 8, 9, 10, 11, 12, 13, 14, 15, 16, 17];
    let mut source = BufReader::with_capacity(rt.alloc(), 16, NoSeek::new(bytes))?;
    expect_stream(&mut source)
}

fn expect_stream<S: Source>(source: &mut S) -> Result<(), Fail> {
    same(&0, &source.try_take(1), &None)?;
    same(&1, &fetched(source)?, &0)?;
    same(&2, &source.try_take(2), &Some([1, 2, 3, 4, 5, 6, 7, 8]))?;
    same(&3, &source.seek_to(SeekFrom::Start(3))?, &3)?;
    same(&4, &source.seek_to(SeekFrom::Current(0))?, &3)?;
    for to in [SeekFrom::Start(16), SeekFrom::Current(1), SeekFrom::End(0)] {
        same(&5, &kind_of(source.seek_to(to)), &Err(ErrorKind::Other))?;
    }
    same(&6, &kind_of(source.pass(0)), &Ok(()))?;
    same(&7, &kind_of(source.pass(1)), &Err(ErrorKind::Other))?;
    same(&8, &source.try_take(8), &Some([3, 4, 5, 6, 7, 8, 9, 10]))?;
    same(&9, &source.try_take(1), &None)?;
    same(&10, &fetched(source)?, &11)
}

// So many bytes are left; then the eight that are in memory.
const LEFT: [(usize, [u8; 8]); 10] = [
    (0, [0, 0, 0, 0, 0, 0, 0, 0]),
    (1, [1, 0, 0, 0, 0, 0, 0, 0]),
    (2, [1, 2, 0, 0, 0, 0, 0, 0]),
    (3, [1, 2, 3, 0, 0, 0, 0, 0]),
    (4, [1, 2, 3, 4, 0, 0, 0, 0]),
    (5, [1, 2, 3, 4, 5, 0, 0, 0]),
    (6, [1, 2, 3, 4, 5, 6, 0, 0]),
    (7, [1, 2, 3, 4, 5, 6, 7, 0]),
    (8, [1, 2, 3, 4, 5, 6, 7, 8]),
    (9, [1, 2, 3, 4, 5, 6, 7, 8]),
];

const BYTES: [u8; 11] = [0xA6, 0xA6, 1, 2, 3, 4, 5, 6, 7, 8, 9];

// The first n of eight bytes of a source.
fn taken_from<S: Source>(source: &mut S, n: usize) -> Option<[u8; 8]> {
    source.try_take(n.min(8))
}

// Eight bytes are in memory if n bytes are left, and n are passed; otherwise nothing moves.
fn expect_at_hand(left: usize, n: usize, eight: [u8; 8]) -> Result<(), Fail> {
    let mut cursor = Cursor::new(&BYTES[..left.min(9) + 2]);
    cursor.set_position(2);
    let want = if n <= left { Some(eight) } else { None };
    let passed = if n <= left { n } else { 0 };
    let lent = taken_from(&mut &mut cursor, n);
    let place = cursor.position();
    cursor.set_position(2);
    let got = taken_from(&mut cursor, n);
    let seen = (got, cursor.position(), lent, place);
    let place = passed.min(8) as u64 + 2;
    same(&(left, n), &seen, &(want, place, want, place))
}

#[test]
fn has_the_last_bytes_at_hand(_rt: HostRuntime) -> Result<(), Fail> {
    for (left, eight) in LEFT {
        for n in 0..=8 {
            expect_at_hand(left, n, eight)?;
        }
    }
    Ok(())
}

// Past the end no byte is in memory, and none may be asked for.
#[test]
fn has_no_bytes_at_hand_past_the_end(_rt: HostRuntime) -> Result<(), Fail> {
    for place in [9, 12, u64::MAX] {
        let mut cursor = Cursor::new(&BYTES[..9]);
        cursor.set_position(place);
        let seen = (cursor.try_take(0), cursor.try_take(1), cursor.position());
        same(&place, &seen, &(Some([0; 8]), None, place))?;
    }
    Ok(())
}
