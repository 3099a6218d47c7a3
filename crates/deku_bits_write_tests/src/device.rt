//! A record that is written to a file, also through a buffer, and vectors that grow.

use crate::given::{Put, give_sink};
use deku_bits::ctx::Order;
use deku_bits::ctx::Order::Lsb0;
use deku_bits::device::Sink;
use deku_bits::error::DekuError;
use deku_bits::writer::Writer;
use deku_testing::refusals::{NO_MEMORY, handed};
use deku_testing::same::{same, same_bytes};
use std::alloc::Global;
use std::fs;
use std::fs::File;
use std::io::{BufWriter, Cursor, Read, SeekFrom, Write};
use std::test::Fail;

// In the folder where the tests run.
const PATH: &str = "record_written.bin";

// A5 05 1C DE: a byte half from above and half from below, one of three bits, and two, of which the
// first is written again.
const WRITTEN: [Put; 10] = [
    Put::Bits("1010", Ok(())),
    Put::Ordered(Lsb0, "0101", Ok(())),
    Put::Ordered(Lsb0, "101", Ok(())),
    Put::Finalize(Ok(())),
    Put::Bytes(&[0xBC, 0xDE], Ok(())),
    Put::Count(32),
    Put::Seek(SeekFrom::Start(2), Ok(2)),
    Put::Bits("0001", Ok(())),
    Put::Bits("1100", Ok(())),
    Put::Count(40),
];

// The file has the record, and no more.
fn expect_record(rt: &HostRuntime, path: &str) -> Result<(), Fail> {
    let mut file = File::open(rt, path)?;
    fs::remove_file(rt, path)?;
    let mut bytes = [0; 4];
    file.read_exact(&mut bytes)?;
    same_bytes(&path, &bytes, &[0xA5, 0x05, 0x1C, 0xDE])?;
    same(&path, &file.read(&mut bytes)?, &0)
}

#[test]
fn writes_a_record(rt: HostRuntime) -> Result<(), Fail> {
    let _file = give_sink(&rt, rt.alloc(), 0, File::create(&rt, PATH)?, &WRITTEN)?;
    expect_record(&rt, PATH)
}

// In the folder where the tests run.
const BUFFERED: &str = "record_buffered.bin";

// The same record through buffers of no byte, of three, of nine and of as many as by default.
#[test]
fn writes_a_record_behind_a_buffer(rt: HostRuntime) -> Result<(), Fail> {
    for (case, capacity) in [0, 3, 9, 8192].iter().enumerate() {
        let file = File::create(&rt, BUFFERED)?;
        let sink = BufWriter::with_capacity(rt.alloc(), *capacity, file)?;
        let mut sink = give_sink(&rt, rt.alloc(), case, sink, &WRITTEN)?;
        sink.flush()?;
        expect_record(&rt, BUFFERED)?;
    }
    Ok(())
}

// A buffer of sixteen bytes has room in memory as long as it has room for more than eight; other
// bytes go through `give`.
#[test]
fn lays_bytes_in_a_buffer(rt: HostRuntime) -> Result<(), Fail> {
    let room = Cursor::new(Vec::new(rt.alloc()));
    let mut sink = BufWriter::with_capacity(rt.alloc(), 16, room)?;
    for (n, want) in [(3, true), (4, true), (0, true), (1, true), (2, false)] {
        same(&n, &sink.try_put(EIGHT, n), &want)?;
    }
    same_bytes(&8, sink.buffer(), &[1, 2, 3, 1, 2, 3, 4, 1])?;
    same(&9, &sink.get_ref().position(), &0)?;
    sink.give(&EIGHT)?;
    sink.give(&[9])?;
    same(&10, &sink.seek_to(SeekFrom::Current(0))?, &17)?;
    let wanted = [1, 2, 3, 1, 2, 3, 4, 1, 1, 2, 3, 4, 5, 6, 7, 8, 9];
    same_bytes(&11, sink.get_ref().get_ref().as_slice(), &wanted)
}

const EIGHT: [u8; 8] = [1, 2, 3, 4, 5, 6, 7, 8];

// What a vector has before.
const THERE: u8 = 0xA6;

// The length of a vector, its capacity and a place; and whether the first of eight bytes are put
// there.
const ROOM: [(usize, usize, u64, bool); 15] = [
    (0, 0, 0, false),
    (0, 7, 0, false),
    (0, 8, 0, true),
    (0, 64, 0, true),
    (3, 3, 3, false),
    (3, 10, 3, false),
    (3, 11, 3, true),
    (3, 64, 4, false),
    (3, 64, 2, false),
    (8, 8, 0, true),
    (9, 9, 1, true),
    (9, 9, 2, false),
    (9, 16, 9, false),
    (9, 17, 9, true),
    (9, 17, u64::MAX, false),
];

// A byte of the vector after the first n of eight bytes were put at a place.
fn laid_byte(at: usize, place: usize, n: usize) -> u8 {
    if place <= at && at - place < n.min(8) {
        return EIGHT[at - place];
    }
    THERE
}

// The first n bytes are put if they should be, and otherwise nothing changes.
fn expect_laid(alloc: Global, row: (usize, usize, u64, bool), n: usize) -> Result<(), Fail> {
    let (length, capacity, place, is_laid) = row;
    let mut vector = Vec::with_capacity(alloc, capacity)?;
    vector.resize(length, THERE)?;
    let mut cursor = Cursor::new(vector);
    cursor.set_position(place);
    let got = cursor.try_put(EIGHT, n.min(8));
    let passed = if is_laid { n.min(8) } else { 0 };
    let end = (place as usize).saturating_add(passed);
    let seen = (got, cursor.position(), cursor.get_ref().len());
    let wanted = if is_laid { length.max(end) } else { length };
    same(&(row, n), &seen, &(is_laid, end as u64, wanted))?;
    for (at, byte) in cursor.get_ref().iter().enumerate() {
        same(&(row, n, at), byte, &laid_byte(at, place as usize, passed))?;
    }
    Ok(())
}

#[test]
fn lays_bytes_where_a_vector_has_room(rt: HostRuntime) -> Result<(), Fail> {
    for row in ROOM {
        for n in 0..=8 {
            expect_laid(rt.alloc(), row, n)?;
        }
    }
    Ok(())
}

// A5 C
const TWELVE: [bool; 12] = [
    true, false, true, false, false, true, false, true, true, true, false, false,
];

// Twelve bits, put if there is room in memory. Returns whether they were.
fn write_twelve<W: Sink>(writer: &mut Writer<W>) -> Result<bool, DekuError> {
    if writer.try_write_number(0xA5C, 12, Order::Msb0) {
        return Ok(true);
    }
    writer.write_bits(&TWELVE)?;
    Ok(false)
}

// Twelve bits eighty times into a vector that has this capacity at first: most times they are put.
// Returns whether memory was refused.
fn expect_grown(alloc: Global, capacity: usize) -> Result<bool, Fail> {
    let mut writer = Writer::new(Cursor::new(Vec::with_capacity(alloc, capacity)?));
    let mut given = 0;
    for calls in 0..80 {
        match write_twelve(&mut writer) {
            Ok(true) => {}
            Ok(false) => given = calls.min(given) + 1,
            Err(error) => {
                same(&(capacity, calls), &error, &NO_MEMORY.error())?;
                return Ok(true);
            }
        }
    }
    same(&(capacity, 81), &(given < 20), &true)?;
    let bytes = writer.into_inner().into_inner();
    same(&(capacity, 80), &bytes.len(), &120)?;
    for (at, byte) in bytes.iter().enumerate() {
        same(&(capacity, at), byte, &[0xA5, 0xCA, 0x5C][at % 3])?;
    }
    Ok(false)
}

#[test]
fn grows_from_each_capacity(rt: HostRuntime) -> Result<(), Fail> {
    let mut lacking = false;
    for capacity in 0..=40 {
        lacking = expect_grown(rt.alloc(), capacity)? || lacking;
    }
    handed(lacking)
}
