//! Reads over a source that fails in the middle, and how often it is asked for bytes and for seeks.

ghost use Rattle.deku_bits.specs.Devices.{unknown_source};

use crate::same::same;
use crate::taken::{Left, Step, walk_source};
use deku_bits::ctx::Order::{Lsb0, Msb0};
use deku_bits::device::Source;
use deku_testing::refusals::{FAILED, handed};
use std::alloc::Global;
use std::io;
use std::io::{Cursor, Error, ErrorKind, Read, Seek, SeekFrom};
use std::process::Abort;
use std::test::Fail;

// A source that gives so many bytes, then fails, and after each fault gives so many more. It passes
// none, and counts the fetches and the seeks that it is asked for.
#[derive(Drop)]
struct Failing<'a> {
    bytes: Cursor<&'a [u8]>,
    good: usize,
    more: usize,
    fetches: usize,
    seeks: usize,
}

impl<'a> Read for Failing<'a> {
    fn read(&mut self, buf: &mut [u8]) -> io::Result<usize> {
        self.bytes.read(buf)
    }
}

impl<'a> Seek for Failing<'a> {
    fn seek(&mut self, to: SeekFrom) -> io::Result<u64> {
        self.seeks = self.seeks.saturating_add(1);
        self.bytes.seek(to)
    }
}

// Nothing is known of it.
impl<'a> Source for Failing<'a> {
    ghost known = { λ _. unknown_source };

    ghost known_by_place = { λ s at all p. Prim.cc };

    fn fetch(&mut self, buf: &mut [u8]) -> io::Result<()> {
        self.fetches = self.fetches.saturating_add(1);
        if buf.len() > self.good {
            self.good = self.more;
            return Err(Error::from(ErrorKind::Other));
        }
        self.good -= buf.len();
        self.bytes.fetch(buf)
    }

    fn pass(&mut self, _n: u64) -> io::Result<()> {
        Err(Error::from(ErrorKind::Other))
    }

    fn seek_to(&mut self, to: SeekFrom) -> io::Result<u64> {
        self.seek(to)
    }
}

// Bytes; how many are given before a fault, and after it; the steps; how many fetches and how many
// seeks were asked for, and the source's position at the end.
type Fault = (
    &'static [u8],
    usize,
    usize,
    &'static [Step],
    usize,
    usize,
    u64,
);

// A case shows what it says. It returns whether memory was refused.
fn expect_fault(rt: &impl Abort, alloc: Global, at: usize, case: &Fault) -> bool {
    let (bytes, good, more, steps, fetches, seeks, place) = case;
    let failing = Failing {
        bytes: Cursor::new(*bytes),
        good: *good,
        more: *more,
        fetches: 0,
        seeks: 0,
    };
    let (lacks, source) = walk_source(rt, alloc, at, failing, steps);
    let seen = (source.fetches, source.seeks, source.bytes.position());
    same(rt, (at, steps.len()), &seen, &(*fetches, *seeks, *place));
    lacks
}

const FAULTS: [Fault; 4] = [
    // A transfer into a vector, which the source makes by a fetch.
    (
        &[0xBE, 0xEF, 0xAD],
        2,
        1,
        &[
            Step::Vector(2, Lsb0, Ok(&[0xBE, 0xEF])),
            Step::Vector(1, Msb0, Err(FAILED)),
            Step::Count(16),
            Step::Vector(0, Msb0, Err(FAILED)),
            Step::Seek(SeekFrom::Start(2), Ok(2)),
            Step::Into(4, Msb0, Ok("1010")),
            Step::Vector(1, Msb0, Err(FAILED)),
        ],
        4,
        1,
        3,
    ),
    // A transfer, until a seek.
    (
        &[0xBE, 0xEF],
        1,
        2,
        &[
            Step::Into(16, Msb0, Err(FAILED)),
            Step::Count(0),
            Step::Left(Left::Nothing),
            Step::Bits(0, Msb0, Err(FAILED)),
            Step::Fill(2, Lsb0, Err(FAILED)),
            Step::End(Err(FAILED)),
            Step::Seek(SeekFrom::Start(0), Ok(0)),
            Step::Fill(2, Lsb0, Ok(&[0xBE, 0xEF])),
            Step::Count(16),
            Step::End(Err(FAILED)),
        ],
        3,
        1,
        2,
    ),
    // A skip, until a seek.
    (
        &[0x01, 0x02, 0x03],
        3,
        3,
        &[
            Step::Skip(16, Msb0, Err(FAILED)),
            Step::Count(0),
            Step::Skip(0, Lsb0, Err(FAILED)),
            Step::Seek(SeekFrom::Current(0), Ok(0)),
            Step::Fill(1, Msb0, Ok(&[0x01])),
            Step::Skip(7, Msb0, Ok(())),
            Step::Count(15),
        ],
        2,
        1,
        2,
    ),
    // A seek asks the source once, and not at all if the count has no room.
    (
        &[0x01, 0x02, 0x03],
        3,
        3,
        &[
            Step::Seek(SeekFrom::Start(2), Ok(2)),
            Step::Seek(SeekFrom::Start(u64::MAX), Err(ErrorKind::InvalidInput)),
            Step::Seek(SeekFrom::Current(-3), Err(ErrorKind::InvalidInput)),
        ],
        0,
        2,
        2,
    ),
];

#[test]
fn keeps_a_fault_until_a_seek(rt: HostRuntime) -> Result<(), Fail> {
    let mut lacking = false;
    for (at, case) in FAULTS.iter().enumerate() {
        lacking = expect_fault(&rt, rt.alloc(), at, case) || lacking;
    }
    handed(lacking)
}

const BYTES: [u8; 17] = [
    0xA1, 0x34, 0x12, 0x7F, 0x05, 0x06, 0x07, 0x08, 0x09, 0x0A, 0x0B, 0x0C, 0x0D, 0x0E, 0x0F, 0x10,
    0x11,
];

// Steps over these bytes, and how many fetches they make.
const FETCHES: [(&[Step], usize); 9] = [
    (&[Step::Vector(3, Msb0, Ok(&[0xA1, 0x34, 0x12]))], 1),
    (&[Step::Bytes(3, Msb0, Ok(&[0xA1, 0x34, 0x12]))], 1),
    (&[Step::Const(3, Lsb0, Ok(&[0xA1, 0x34, 0x12]))], 1),
    (&[Step::Fill(3, Msb0, Ok(&[0xA1, 0x34, 0x12]))], 1),
    (&[Step::Word(32, Msb0, Ok(0x7F1234A1))], 1),
    (&[Step::Word(32, Lsb0, Ok(0x7F1234A1))], 1),
    (
        &[Step::Word(128, Msb0, Ok(0x100F0E0D0C0B0A090807_06057F1234A1))],
        1,
    ),
    // Each further read asks once more, and one of bits that are held not at all.
    (
        &[
            Step::Fill(1, Msb0, Ok(&[0xA1])),
            Step::Bytes(3, Msb0, Ok(&[0x34, 0x12, 0x7F])),
            Step::Word(4, Lsb0, Ok(0x5)),
            Step::Word(4, Lsb0, Ok(0x0)),
            Step::Word(0, Lsb0, Ok(0x0)),
        ],
        3,
    ),
    (
        &[Step::Word(0, Msb0, Ok(0)), Step::Bytes(0, Msb0, Ok(&[]))],
        0,
    ),
];

// The steps show what they say; whether memory was refused, and how many fetches they make.
fn count_fetches(rt: &impl Abort, alloc: Global, case: usize, steps: &[Step]) -> (bool, usize) {
    let counting = Failing {
        bytes: Cursor::new(BYTES.as_slice()),
        good: 17,
        more: 0,
        fetches: 0,
        seeks: 0,
    };
    let (lacks, source) = walk_source(rt, alloc, case, counting, steps);
    (lacks, source.fetches)
}

#[test]
fn fetches_a_run_of_bytes_at_once(rt: HostRuntime) -> Result<(), Fail> {
    let mut lacking = false;
    for (case, (steps, fetches)) in FETCHES.iter().enumerate() {
        let (lacks, seen) = count_fetches(&rt, rt.alloc(), case, steps);
        same(&rt, (case, steps.len()), &seen, fetches);
        lacking = lacks || lacking;
    }
    handed(lacking)
}
