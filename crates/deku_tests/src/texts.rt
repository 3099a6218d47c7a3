//! Texts that end with a zero.

use super::expecting::Refusal::{Said, Until};
use super::expecting::{
    Answer, Refusal, expect_bytes, expect_refusal, expect_written, next_byte, same, same_at,
};
use deku::cstring::CString;
use deku::ctx::Endian::Big;
use deku::ctx::Order::Lsb0;
use deku::ctx::{BitSize, ByteSize, Endian};
use deku::prelude::{DekuError, Reader};
use deku_testing_values::expecting::{next, put, reader_of, writer_in};
use std::alloc::Global;
use std::io::{Cursor, ErrorKind, Seek, SeekFrom};
use std::process::Abort;
use std::test::Fail;

const NO_TEXT: Refusal = Said(DekuError::Parse("Failed to convert Vec to CString"));

// A text, its zero, and a byte more.
const TEST: [u8; 6] = [0x74, 0x65, 0x73, 0x74, 0x00, 0x61];

// The text of bytes without a zero.
fn text(rt: &impl Abort, alloc: Global, bytes: &[u8]) -> Result<CString, Fail> {
    let text = CString::new(bytes.to_vec(alloc)?);
    assert!(rt; text.is_some());
    Ok(text.unwrap())
}

// Bytes, and what they are with a zero after them, if they are a text.
type Bytes = (&'static [u8], Option<&'static [u8]>);

const BYTES: [Bytes; 5] = [
    (b"ab", Some(&[0x61, 0x62, 0x00])),
    (b"a", Some(&[0x61, 0x00])),
    (b"", Some(&[0x00])),
    (&[0x61, 0x00, 0x62], None),
    (&[0x00], None),
];

#[test]
fn of_bytes(rt: HostRuntime) -> Result<(), Fail> {
    let alloc = rt.alloc();
    for (bytes, want) in &BYTES {
        let text = CString::new(bytes.to_vec(alloc)?);
        same(&rt, bytes, &text.is_some(), &want.is_some());
        if let (Some(text), Some(want)) = (&text, want) {
            let whole = text.as_bytes_with_nul(alloc)?;
            let seen = (text.as_bytes(), whole.as_slice());
            same(&rt, bytes, &seen, &(*bytes, *want));
        }
    }
    Ok(())
}

// Two lists of bytes, and whether their texts are the same.
const PAIRS: [(&[u8], &[u8], bool); 2] = [(b"a", b"ab", false), (b"ab", b"ab", true)];

#[test]
fn compared(rt: HostRuntime) -> Result<(), Fail> {
    for (one, other, want) in &PAIRS {
        let seen = text(&rt, rt.alloc(), one)? == text(&rt, rt.alloc(), other)?;
        same(&rt, &(one, other), &seen, want);
    }
    Ok(())
}

// A call on a reader, and what it returns.
enum Step {
    // A text up to a zero, and one of so many bytes.
    UpToZero(Answer<u8>),
    Within(usize, Answer<u8>),
    // A byte, and a number of two bytes.
    Byte(u8),
    Number(Result<u16, Refusal>),
    // How many bits are read, and a byte to go to.
    Read(usize),
    Seek(u64),
}

fn gone_to(reader: &mut Reader<Cursor<&[u8]>>, place: u64) -> Result<u64, ErrorKind> {
    match reader.seek(SeekFrom::Start(place)) {
        Ok(place) => Ok(place),
        Err(error) => Err(error.kind()),
    }
}

// The step of that number.
fn take_step(
    rt: &impl Abort,
    run: &str,
    at: usize,
    step: &Step,
    reader: &mut Reader<Cursor<&[u8]>>,
) {
    match step {
        Step::UpToZero(want) => {
            let answer = next(reader, ());
            expect_text(rt, run, at, answer, want);
        }
        Step::Within(bytes, want) => {
            let answer = next(reader, ByteSize(*bytes));
            expect_text(rt, run, at, answer, want);
        }
        Step::Byte(want) => same_at(rt, run, &at, &next_byte(reader), &Ok(*want)),
        Step::Number(want) => {
            let answer = next::<u16, Endian, _>(reader, Big);
            same_at(rt, run, &at, &answer, &number_wanted(want));
        }
        Step::Read(want) => same_at(rt, run, &at, &reader.bits_read(), want),
        Step::Seek(place) => same_at(rt, run, &at, &gone_to(reader, *place), &Ok(*place)),
    }
}

fn number_wanted(want: &Result<u16, Refusal>) -> Result<u16, DekuError> {
    match want {
        Ok(number) => Ok(*number),
        Err(refusal) => Err(refusal.error()),
    }
}

// The text of these bytes was read, or it is refused so.
fn expect_text(
    rt: &impl Abort,
    run: &str,
    at: usize,
    answer: Result<CString, DekuError>,
    want: &Answer<u8>,
) {
    match (answer, want) {
        (Ok(got), Ok(want)) => same_at(rt, run, &at, &got.as_bytes(), want),
        (Ok(got), Err(_)) => assert!(rt; false, "{run}: {at} answers {got:?}"),
        (Err(refusal), want) => expect_refusal(rt, run, &at, refusal, want.as_ref().err()),
    }
}

const RUNS: [(&str, &[u8], &[Step]); 6] = [
    (
        "up to a zero",
        &TEST,
        &[
            Step::UpToZero(Ok(b"test")),
            Step::Read(40),
            Step::Byte(0x61),
        ],
    ),
    (
        "up to a zero that is not there",
        b"test",
        &[Step::UpToZero(Err(Until(8))), Step::Read(32)],
    ),
    (
        "within five bytes, and none",
        &[0x74, 0x65, 0x73, 0x74, 0x00, 0x00],
        &[
            Step::Within(5, Ok(b"test")),
            Step::Read(40),
            Step::Within(0, Err(NO_TEXT)),
            Step::Read(40),
        ],
    ),
    (
        "within four bytes",
        &[0x74, 0x65, 0x73, 0x74, 0x00, 0x00],
        &[Step::Within(4, Err(NO_TEXT)), Step::Read(32)],
    ),
    (
        "within six bytes",
        &[0x74, 0x65, 0x73, 0x74, 0x00, 0x00],
        &[Step::Within(6, Err(NO_TEXT)), Step::Read(48)],
    ),
    // The end of input is returned again until a seek succeeds.
    (
        "behind the end",
        b"test",
        &[
            Step::Within(5, Err(Until(8))),
            Step::Read(32),
            Step::Number(Err(Until(8))),
            Step::UpToZero(Err(Until(8))),
            Step::Seek(2),
            Step::Number(Ok(0x7374)),
        ],
    ),
];

#[test]
fn from_a_reader(rt: HostRuntime) {
    for (run, bytes, steps) in &RUNS {
        take_steps(&rt, run, &mut reader_of(rt.alloc(), bytes), steps);
    }
}

fn take_steps(rt: &impl Abort, run: &str, reader: &mut Reader<Cursor<&[u8]>>, steps: &[Step]) {
    for (at, step) in steps.iter().enumerate() {
        take_step(rt, run, at, step, reader);
    }
}

#[test]
fn written_behind_bits(rt: HostRuntime) -> Result<(), Fail> {
    let alloc = rt.alloc();
    let ab = text(&rt, alloc, b"ab")?;
    let mut writer = writer_in(alloc);
    put(&mut writer, &5u8, (BitSize(3), Lsb0))?;
    put(&mut writer, &ab, ())?;
    expect_bytes(&rt, &"behind bits", writer, &[0x61, 0xAC, 0x40, 0x00]);
    expect_written(&rt, alloc, (Big, ByteSize(1)), &ab, &[0x61, 0x62, 0x00]);
    Ok(())
}
