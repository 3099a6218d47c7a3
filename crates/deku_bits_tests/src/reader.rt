//! What reads show, against worked examples.

ghost use Rattle.std.specs.Prelude.{[], length, List, Bool};
ghost use Rattle.deku_bits.specs.ReaderCalls.{ReadsAt, ReadsBits, filling};
ghost use Rattle.deku_bits.specs.Standings.{Standing, Going};

mod failing;
mod memory;
mod seek;

use crate::same::{same, same_bytes, same_digits};
use crate::taken::{Case, Left, Step, take_tables, walk_steps};
use deku_bits::ctx::Order;
use deku_bits::ctx::Order::{Lsb0, Msb0};
use deku_bits::device::Source;
use deku_bits::error::DekuError;
use deku_bits::reader::Reader;
use deku_testing::refusals::{Refusal, handed, kind_of};
use std::alloc::Global;
use std::io::{Cursor, ErrorKind, Seek, SeekFrom};
use std::process::Abort;
use std::test::Fail;

// What each order meets.
const SHOWN: [Case; 6] = [
    (
        &[0xA1, 0x34, 0x12],
        &[
            Step::Bits(5, Lsb0, Ok("00001")),
            Step::Bits(16, Lsb0, Ok("1010010110010001")),
            Step::Bits(3, Lsb0, Ok("000")),
            Step::Rest(""),
        ],
        3,
    ),
    (
        &[0x02, 0x64, 0x20],
        &[
            Step::Bits(6, Msb0, Ok("000000")),
            Step::Bits(17, Lsb0, Ok("01000000110010010")),
            Step::Rest("0"),
        ],
        3,
    ),
    (
        &[0x02, 0x64, 0x20],
        &[
            Step::Bits(6, Msb0, Ok("000000")),
            Step::Bits(17, Msb0, Ok("10011001000010000")),
            Step::Rest("0"),
        ],
        3,
    ),
    (
        &[0x6D, 0xBE, 0xEF],
        &[
            Step::Bits(4, Msb0, Ok("0110")),
            Step::Bits(2, Msb0, Ok("11")),
            Step::Rest("01"),
        ],
        1,
    ),
    (
        &[0xAB],
        &[
            Step::Bits(1, Lsb0, Ok("1")),
            Step::Bits(3, Msb0, Ok("101")),
            Step::Bits(4, Msb0, Ok("0101")),
            Step::Rest(""),
        ],
        1,
    ),
    (
        &[0xAB, 0xCD],
        &[
            Step::Bits(4, Lsb0, Ok("1011")),
            Step::Bits(4, Lsb0, Ok("1010")),
            Step::Bits(4, Msb0, Ok("1100")),
            Step::Bits(4, Msb0, Ok("1101")),
            Step::Rest(""),
        ],
        2,
    ),
];

// The end of input is kept.
const ENDS: [Case; 4] = [
    (
        &[],
        &[
            Step::Bits(4, Msb0, Err(Refusal::Until(4))),
            Step::Count(0),
            Step::Kept(Refusal::Until(4)),
        ],
        0,
    ),
    (
        &[0x69],
        &[
            Step::Bits(4, Msb0, Ok("0110")),
            Step::Bits(4, Msb0, Ok("1001")),
            Step::Bits(16, Msb0, Err(Refusal::Until(16))),
            Step::Count(8),
            Step::Kept(Refusal::Until(16)),
        ],
        1,
    ),
    (
        &[0x69, 0xBE],
        &[
            Step::Bits(4, Msb0, Ok("0110")),
            Step::Bits(4, Msb0, Ok("1001")),
            Step::Bits(16, Msb0, Err(Refusal::Until(16))),
            Step::Count(8),
            Step::Kept(Refusal::Until(16)),
        ],
        1,
    ),
    (
        &[0x10, 0x81, 0xAB],
        &[
            Step::Bits(13, Msb0, Ok("0001000010000")),
            Step::Bits(3, Msb0, Ok("001")),
            Step::Bits(8, Msb0, Ok("10101011")),
            Step::Bits(1, Msb0, Err(Refusal::Until(1))),
            Step::Count(24),
            Step::Kept(Refusal::Until(1)),
        ],
        3,
    ),
];

// Bits that fill a whole number of bytes leave nothing, and the source is after the last byte
// touched, also if each read came after a check for the end.
const EARLY: [Case; 6] = [
    (
        &[0xA1, 0x34, 0x12],
        &[Step::Bits(5, Lsb0, Ok("00001")), Step::Count(5)],
        1,
    ),
    (
        &[0xA1, 0x34, 0x12],
        &[
            Step::Bits(5, Lsb0, Ok("00001")),
            Step::Bits(16, Lsb0, Ok("1010010110010001")),
            Step::Count(21),
        ],
        3,
    ),
    (
        &[0xA1, 0x34, 0x12],
        &[
            Step::Bits(5, Lsb0, Ok("00001")),
            Step::Bits(16, Lsb0, Ok("1010010110010001")),
            Step::Bits(3, Lsb0, Ok("000")),
            Step::Count(24),
        ],
        3,
    ),
    (
        &[0xA1, 0x34, 0x12],
        &[
            Step::End(Ok(false)),
            Step::Bits(5, Lsb0, Ok("00001")),
            Step::Count(5),
        ],
        1,
    ),
    (
        &[0xA1, 0x34, 0x12],
        &[
            Step::End(Ok(false)),
            Step::Bits(5, Lsb0, Ok("00001")),
            Step::End(Ok(false)),
            Step::Bits(16, Lsb0, Ok("1010010110010001")),
            Step::Count(21),
        ],
        3,
    ),
    (
        &[0xA1, 0x34, 0x12],
        &[
            Step::End(Ok(false)),
            Step::Bits(5, Lsb0, Ok("00001")),
            Step::End(Ok(false)),
            Step::Bits(16, Lsb0, Ok("1010010110010001")),
            Step::End(Ok(false)),
            Step::Bits(3, Lsb0, Ok("000")),
            Step::Count(24),
            Step::End(Ok(true)),
        ],
        3,
    ),
];

// A byte that was looked at is left over whole.
const LEFT_OVER: [Case; 2] = [
    (
        &[0x10, 0x81],
        &[
            Step::Left(Left::Nothing),
            Step::Bits(13, Lsb0, Ok("0000100010000")),
            Step::Left(Left::Bits(3, 0x80)),
            Step::Bits(3, Lsb0, Ok("100")),
            Step::Left(Left::Nothing),
        ],
        2,
    ),
    (
        &[0xAB, 0xCD],
        &[
            Step::End(Ok(false)),
            Step::Left(Left::Byte(0xAB)),
            Step::Count(0),
        ],
        1,
    ),
];

// Looks for the end, and skips.
const PEEKS: [Case; 5] = [
    (
        &[0xAA, 0xBB],
        &[
            Step::End(Ok(false)),
            Step::Rest("10101010"),
            Step::Bytes(2, Lsb0, Ok(&[0xAA, 0xBB])),
            Step::End(Ok(true)),
            Step::Count(16),
        ],
        2,
    ),
    (
        &[0xAA, 0xBB, 0xCC],
        &[
            Step::End(Ok(false)),
            Step::Skip(8, Msb0, Ok(())),
            Step::Bytes(1, Msb0, Ok(&[0xBB])),
            Step::Count(16),
        ],
        2,
    ),
    (
        &[0xAB, 0xCD, 0xEF],
        &[
            Step::Bits(4, Msb0, Ok("1010")),
            Step::Skip(6, Msb0, Ok(())),
            Step::Bits(6, Msb0, Ok("001101")),
            Step::Count(16),
        ],
        2,
    ),
    (
        &[0xAB, 0xCD, 0xEF],
        &[
            Step::Bits(4, Msb0, Ok("1010")),
            Step::Bytes(2, Lsb0, Ok(&[0xDB, 0xFC])),
            Step::Rest("1110"),
            Step::Bytes(0, Msb0, Ok(&[])),
            Step::Count(20),
        ],
        3,
    ),
    (
        &[0xAB, 0xCD],
        &[
            Step::Bits(4, Msb0, Ok("1010")),
            Step::Skip(6, Lsb0, Ok(())),
            Step::Rest("110011"),
        ],
        2,
    ),
];

// A seek moves the source and drops what is unread.
const SEEKS: [Case; 3] = [
    (
        &[0x01, 0x02, 0x03, 0x04],
        &[
            Step::Bits(4, Msb0, Ok("0000")),
            Step::Seek(SeekFrom::Current(1), Ok(2)),
            Step::Bytes(1, Msb0, Ok(&[0x03])),
            Step::Count(20),
        ],
        3,
    ),
    (
        &[0x01, 0x02, 0x03],
        &[
            Step::Bits(4, Msb0, Ok("0000")),
            Step::Seek(SeekFrom::Start(2), Ok(2)),
            Step::Count(16),
            Step::Bytes(1, Msb0, Ok(&[0x03])),
            Step::Seek(SeekFrom::Start(0), Ok(0)),
            Step::Count(24),
            Step::Bytes(1, Msb0, Ok(&[0x01])),
            Step::Count(32),
        ],
        1,
    ),
    // The other calls that seek do the same as `seek`.
    (
        &[0x01, 0x02, 0x03, 0x04],
        &[
            Step::Fill(1, Msb0, Ok(&[0x01])),
            Step::By(1, Ok(())),
            Step::Count(16),
            Step::Fill(1, Msb0, Ok(&[0x03])),
            Step::Into(4, Msb0, Ok("0000")),
            Step::Place(Ok(4)),
            Step::Count(28),
            Step::Rest(""),
            Step::Rewind(Ok(())),
            Step::Count(28),
            Step::Fill(1, Msb0, Ok(&[0x01])),
        ],
        1,
    ),
];

// A count past `usize` is refused, and nothing changes.
const PAST: [Case; 2] = [
    (
        &[0x01, 0x02],
        &[
            Step::Fill(1, Msb0, Ok(&[0x01])),
            Step::Skip(usize::MAX, Msb0, Err(Refusal::Past)),
            Step::Bits(usize::MAX, Msb0, Err(Refusal::Past)),
            Step::Admits(usize::MAX, Err(Refusal::Past)),
            Step::Admits(2, Ok(())),
            Step::Count(8),
            Step::Fill(1, Msb0, Ok(&[0x02])),
        ],
        2,
    ),
    (
        &[0x01],
        &[
            Step::Seek(SeekFrom::Start(u64::MAX), Err(ErrorKind::InvalidInput)),
            Step::Const(1, Msb0, Ok(&[0x01])),
        ],
        1,
    ),
];

// The source's refusal of a seek is kept until a seek succeeds.
const REFUSED: [Case; 1] = [(
    &[0x01, 0x02, 0x03],
    &[
        Step::Bits(4, Msb0, Ok("0000")),
        Step::Seek(SeekFrom::Current(-2), Err(ErrorKind::InvalidInput)),
        Step::Count(4),
        Step::Kept(Refusal::Io(ErrorKind::InvalidInput)),
        Step::Seek(SeekFrom::End(-1), Ok(2)),
        Step::Fill(1, Msb0, Ok(&[0x03])),
        Step::Count(12),
    ],
    3,
)];

// Bytes in a vector: at a boundary, after bits of a byte in both orders, and after a peek; and more
// than the source has.
const VECTORS: [Case; 4] = [
    (
        &[0x01, 0x02, 0x03],
        &[
            Step::Vector(0, Msb0, Ok(&[])),
            Step::Vector(2, Lsb0, Ok(&[0x01, 0x02])),
            Step::Count(16),
            Step::Vector(1, Msb0, Ok(&[0x03])),
            Step::Vector(0, Lsb0, Ok(&[])),
            Step::Vector(2, Msb0, Err(Refusal::Until(16))),
            Step::Count(24),
        ],
        3,
    ),
    (
        &[0xAB, 0xCD, 0xEF],
        &[
            Step::Into(4, Msb0, Ok("1010")),
            Step::Vector(2, Lsb0, Ok(&[0xDB, 0xFC])),
            Step::Count(20),
            Step::Rest("1110"),
            Step::Vector(1, Msb0, Err(Refusal::Until(8))),
            Step::Kept(Refusal::Until(8)),
        ],
        3,
    ),
    (
        &[0xAB, 0xCD, 0xEF],
        &[
            Step::Into(4, Msb0, Ok("1010")),
            Step::Vector(0, Lsb0, Ok(&[])),
            Step::Vector(1, Msb0, Ok(&[0xBC])),
            Step::Vector(2, Msb0, Err(Refusal::Until(16))),
            Step::Count(12),
        ],
        2,
    ),
    (
        &[0x01, 0x02, 0x03],
        &[
            Step::End(Ok(false)),
            Step::Vector(2, Msb0, Ok(&[0x01, 0x02])),
            Step::Rest(""),
            Step::End(Ok(false)),
            Step::Vector(1, Lsb0, Ok(&[0x03])),
            Step::Count(24),
        ],
        3,
    ),
];

const TABLES: [&[Case]; 9] = [
    &SHOWN, &ENDS, &EARLY, &LEFT_OVER, &PEEKS, &SEEKS, &PAST, &REFUSED, &VECTORS,
];

#[test]
fn shows_what_each_call_meets(rt: HostRuntime) -> Result<(), Fail> {
    take_tables(&rt, rt.alloc(), &TABLES)
}

const BEHIND: [Step; 1] = [Step::Const(1, Msb0, Ok(&[0x03]))];

// What is done to the source through a reader is done to the reader's source. It returns whether
// memory was refused.
fn expect_sought<R: Source + Drop>(rt: &impl Abort, alloc: Global, source: R) -> bool {
    let mut reader = Reader::new(alloc, source);
    let answer = kind_of(reader.as_mut().seek(SeekFrom::Start(2)));
    same(rt, (0, 0), &answer, &Ok(2));
    walk_steps(rt, 1, &mut reader, &BEHIND)
}

#[test]
fn lends_its_source(rt: HostRuntime) -> Result<(), Fail> {
    let bytes: &[u8] = &[0x01, 0x02, 0x03];
    handed(expect_sought(&rt, rt.alloc(), Cursor::new(bytes)))
}

// A reader over a source that is lent gives all of it back.
fn read_lent<R: Source>(alloc: Global, source: &mut R, dst: &mut [bool]) -> Result<(), DekuError>
    ensures { (after : Standing (List Bool)) × ReadsAt (ReadsBits Order.Msb0 (length dst.old))
        (R.known source.old) (Going [] 0) (filling result dst.new) (R.known source.new) after }
{
    let mut reader = Reader::new(alloc, source);
    reader.read_bits_into(dst, Msb0)
}

// A lent source is left after the last byte that was fetched.
#[test]
fn reads_a_lent_vector(rt: HostRuntime) -> Result<(), Fail> {
    let bytes = [0xA5, 0x3C, 0xFF].to_vec(rt.alloc())?;
    let mut cursor = Cursor::new(bytes);
    expect_lent(&rt, rt.alloc(), &mut cursor);
    same(&rt, (0, 2), &cursor.position(), &2);
    let more = end_of(rt.alloc(), cursor)?;
    same_bytes(&rt, (0, 3), more.as_slice(), &[0]);
    Ok(())
}

fn expect_lent<R: Source>(rt: &impl Abort, alloc: Global, source: &mut R) {
    let mut bits = [false; 9];
    let answer = read_lent(alloc, source, &mut bits);
    same(rt, (0, 0), &answer, &Ok(()));
    same_digits(rt, (0, 1), &bits, "101001010");
}

// Whether a reader is at the end, as a number in memory of the reader's own allocator.
fn end_of<R: Source + Drop>(alloc: Global, source: R) -> Result<Vec<u8>, Fail> {
    let mut reader = Reader::new(alloc, source);
    let mut more = Vec::new(reader.alloc());
    more.push(u8::from(reader.end()?))?;
    Ok(more)
}
