//! What refusals print, and what they are made from.

use deku_bits::error::{DekuError, NeedSize};
use deku_testing::same::same;
use std::alloc::Global;
use std::io;
use std::io::ErrorKind;
use std::test::Fail;

// The refusal prints this text, and says the same as this kind of io error.
fn expect_printed(
    alloc: Global,
    case: usize,
    error: DekuError,
    text: &str,
    kind: ErrorKind,
) -> Result<(), Fail> {
    same(&(case, 0), &format!(in alloc; "{error}")?.as_str(), &text)?;
    same(&(case, 1), &error.io_kind(), &kind)
}

const WANTED: [(usize, &str); 3] = [
    (9, "Not enough data, need 9 bits (or 2 bytes)"),
    (8, "Not enough data, need 8 bits (or 1 bytes)"),
    (0, "Not enough data, need 0 bits (or 0 bytes)"),
];

#[test]
fn prints_what_is_wanted(rt: HostRuntime) -> Result<(), Fail> {
    for (case, (bits, text)) in WANTED.iter().enumerate() {
        let error = DekuError::Incomplete(NeedSize::new(*bits));
        expect_printed(rt.alloc(), case, error, text, ErrorKind::UnexpectedEof)?;
    }
    Ok(())
}

// Bits that were asked for, and the bytes that they need.
const NEEDS: [(usize, usize); 4] = [(0, 0), (8, 1), (9, 2), (usize::MAX, 2305843009213693952)];

#[test]
fn counts_the_bytes_that_bits_need(_rt: HostRuntime) -> Result<(), Fail> {
    for (case, (bits, bytes)) in NEEDS.iter().enumerate() {
        let need = NeedSize::new(*bits);
        let seen = (need.bit_size(), need.byte_size());
        same(&(case, 0), &seen, &(*bits, *bytes))?;
    }
    Ok(())
}

const PRINTED: [(DekuError, &str, ErrorKind); 6] = [
    (
        DekuError::Parse("t"),
        "Parse error: t",
        ErrorKind::InvalidData,
    ),
    (
        DekuError::InvalidParam("t"),
        "Invalid param error: t",
        ErrorKind::InvalidInput,
    ),
    (DekuError::Assertion("t"), "t", ErrorKind::InvalidData),
    (
        DekuError::IdVariantNotFound,
        "Could not resolve `id` for variant",
        ErrorKind::NotFound,
    ),
    (
        DekuError::Io(ErrorKind::Other),
        "io errorr: Other",
        ErrorKind::Other,
    ),
    (
        DekuError::Io(ErrorKind::WriteZero),
        "io errorr: WriteZero",
        ErrorKind::WriteZero,
    ),
];

#[test]
fn prints_what_is_wrong_or_failed(rt: HostRuntime) -> Result<(), Fail> {
    for (case, (error, text, kind)) in PRINTED.iter().enumerate() {
        expect_printed(rt.alloc(), case, *error, text, *kind)?;
    }
    Ok(())
}

// A number as a byte.
fn byte_of(number: u32) -> Result<u8, DekuError> {
    Ok(u8::try_from(number)?)
}

// A slice as three bytes.
fn three_of(bytes: &[u8]) -> Result<[u8; 3], DekuError> {
    Ok(bytes.try_into()?)
}

// What io returns.
fn after(answer: io::Result<()>) -> Result<(), DekuError> {
    answer?;
    Ok(())
}

const NUMBERS: [(u32, Result<u8, DekuError>); 2] = [
    (255, Ok(255)),
    (300, Err(DekuError::Parse("error parsing int"))),
];

const SLICES: [(&[u8], Result<[u8; 3], DekuError>); 2] = [
    (&[1, 2, 3], Ok([1, 2, 3])),
    (&[1, 2], Err(DekuError::Parse("error parsing from slice"))),
];

// Each number is a byte, or is refused.
fn expect_bytes() -> Result<(), Fail> {
    for (case, (number, want)) in NUMBERS.iter().enumerate() {
        same(&(0, case), &byte_of(*number), want)?;
    }
    Ok(())
}

// Each slice is three bytes, or is refused.
fn expect_threes() -> Result<(), Fail> {
    for (case, (bytes, want)) in SLICES.iter().enumerate() {
        same(&(1, case), &three_of(bytes), want)?;
    }
    Ok(())
}

#[test]
fn is_made_from_other_errors(_rt: HostRuntime) -> Result<(), Fail> {
    expect_bytes()?;
    expect_threes()?;
    let broken = io::Error::new(ErrorKind::BrokenPipe, "the pipe is gone");
    let want = Err(DekuError::Io(ErrorKind::BrokenPipe));
    same(&(2, 0), &after(Err(broken)), &want)
}
