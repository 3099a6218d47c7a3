//! Whole records from bytes, and as bytes and bits.

use super::examples::{Bytes, Child, LsbField, Node, Parent};
use super::records::{Empty, Head, Low, Nine, Octet, Pair};
use deku::prelude::{DekuContainerRead, DekuContainerWrite, DekuError, NeedSize};
use deku_testing_values::expecting::same;
use std::alloc::Global;
use std::fmt::Debug;
use std::io::{Cursor, ErrorKind};
use std::test::Fail;

// The input ended when so many bits were asked for.
fn incomplete(bits: usize) -> DekuError {
    DekuError::Incomplete(NeedSize::new(bits))
}

// From these bytes, after so many bits, this is read, and the rest is left.
fn expect_rest<T: DekuContainerRead + PartialEq + Debug>(
    alloc: Global,
    input: (&[u8], usize),
    want: T,
    rest: (&[u8], usize),
) -> Result<(), Fail>
    requires { T.accepts tt }
{
    let seen = T::from_bytes(alloc, input)?;
    same(&input, &seen, &(rest, want))
}

// These bytes are refused after so many bits.
fn expect_refused<T: DekuContainerRead>(
    alloc: Global,
    input: (&[u8], usize),
    want: DekuError,
) -> Result<(), Fail>
    requires { T.accepts tt }
{
    match T::from_bytes(alloc, input) {
        Ok(_) => Err(Fail::new(format_args!("{input:?} is read, and not refused"))),
        Err(refusal) => same(&input, &refusal, &want),
    }
}

// The source is read after so many bits: so many were taken, this is read, and the source is at
// this place then.
fn expect_taken<T: DekuContainerRead + PartialEq + Debug>(
    alloc: Global,
    source: &mut Cursor<&[u8]>,
    bits: usize,
    want: (usize, T),
    place: u64,
) -> Result<(), Fail>
    requires { T.accepts tt }
{
    let read = T::from_reader(alloc, (source, bits))?;
    same(&bits, &(read, source.position()), &(want, place))
}

// The value is written as these bytes, in a vector and over a slice, and as these bits.
fn expect_written<T: DekuContainerWrite + Debug>(
    alloc: Global,
    value: &T,
    bytes: &[u8],
    bits: &[bool],
) -> Result<(), Fail>
    requires { T.accepts tt }
{
    let (whole, each) = (value.to_bytes(alloc)?, value.to_bits(alloc)?);
    let seen = (whole.as_slice(), each.as_slice());
    same(value, &seen, &(bytes, bits))?;
    expect_over(value, bytes)
}

// The value is written as these bytes over a slice, and what is after them stays.
fn expect_over<T: DekuContainerWrite + Debug>(value: &T, bytes: &[u8]) -> Result<(), Fail>
    requires { T.accepts tt }
{
    let mut page = [0xA5; 4];
    let answer = value.to_slice(&mut page);
    let (front, after) = page.split_at(bytes.len().min(4));
    let rest = [0xA5u8; 4];
    let (_, kept) = rest.split_at(front.len());
    let want = (Ok(bytes.len()), bytes, kept);
    same(value, &(answer, front, after), &want)
}

// How many bits of 12 34 are left out, the byte after them, and the rest.
type Behind = (usize, u8, (&'static [u8], usize));

const OCTETS: [Behind; 3] = [
    (0, 0x12, (&[0x34], 0)),
    (4, 0x23, (&[0x34], 4)),
    (8, 0x34, (&[], 0)),
];

#[test]
fn reads_from_bytes(rt: HostRuntime) -> Result<(), Fail> {
    let alloc = rt.alloc();
    for (bits, value, rest) in OCTETS {
        expect_rest(alloc, (&[0x12, 0x34], bits), Octet { value }, rest)?;
    }
    expect_rest(
        alloc,
        (&[0xF1, 0x80], 0),
        Nine {
            halves: (15, 1),
            flag: 1,
        },
        (&[0x80], 1),
    )?;
    expect_rest(
        alloc,
        (&[0x69, 0xBE, 0xEF], 0),
        Head {
            halves: (6, 9),
            number: 0xBEEF,
        },
        (&[], 0),
    )?;
    expect_rest(
        alloc,
        (&[0xBE, 0xEF, 1], 0),
        Pair { value: 0xBEEF },
        (&[1], 0),
    )?;
    expect_rest(alloc, (&[0x05], 0), Low { value: 5 }, (&[0x05], 3))?;
    expect_rest(alloc, (&[0x12], 3), Empty {}, (&[0x12], 3))?;
    expect_rest(alloc, (&[0x12], 8), Empty {}, (&[], 0))
}

#[test]
fn refuses_short_bytes(rt: HostRuntime) -> Result<(), Fail> {
    let alloc = rt.alloc();
    for (bits, wanted) in [(12, 4), (16, 8), (1, 8)] {
        expect_refused::<Octet>(alloc, (&[0x12], bits), incomplete(wanted))?;
    }
    expect_refused::<Empty>(alloc, (&[], 8), incomplete(8))?;
    expect_refused::<Pair>(alloc, (&[0xBE], 0), incomplete(16))
}

// The position of the source of 12 34 56, how many bits are left out, how many were taken, the
// byte, and the position of the source then.
type Taken = (u64, usize, usize, u8, u64);

const TAKEN: [Taken; 5] = [
    (0, 0, 8, 0x12, 1),
    (1, 0, 8, 0x34, 2),
    (2, 0, 8, 0x56, 3),
    (0, 4, 12, 0x23, 2),
    (0, 16, 24, 0x56, 3),
];

#[test]
fn reads_from_a_source(rt: HostRuntime) -> Result<(), Fail> {
    let alloc = rt.alloc();
    let mut source = Cursor::new([0x12, 0x34, 0x56].as_slice());
    for (from, bits, count, value, place) in TAKEN {
        if source.position() != from {
            source.set_position(from);
        }
        let want = (count, Octet { value });
        expect_taken(alloc, &mut source, bits, want, place)?;
    }
    source.set_position(0);
    expect_taken(alloc, &mut source, 9, (9, Empty {}), 2)?;
    source.set_position(0);
    let refusal = Octet::from_reader(alloc, (&mut source, 20)).err();
    same(&"after 20 bits", &refusal, &Some(incomplete(8)))
}

#[test]
fn writes_bytes_and_bits(rt: HostRuntime) -> Result<(), Fail> {
    let alloc = rt.alloc();
    let (i, o) = (true, false);
    expect_written(alloc, &Low { value: 5 }, &[0x05], &[i, o, i])?;
    let nine = Nine {
        halves: (15, 1),
        flag: 1,
    };
    expect_written(alloc, &nine, &[0xF1, 0x80], &[i, i, i, i, o, o, o, i, i])?;
    expect_written(
        alloc,
        &Octet { value: 0x12 },
        &[0x12],
        &[o, o, o, i, o, o, i, o],
    )?;
    expect_written(alloc, &Empty {}, &[], &[])?;
    let head = Head {
        halves: (6, 9),
        number: 0xC0FE,
    };
    let bytes = head.to_bytes(alloc)?;
    same(&head, &bytes.as_slice(), &[0x69, 0xC0, 0xFE].as_slice())
}

#[test]
fn writes_over_slices(rt: HostRuntime) {
    let number = Pair { value: 0xBEEF };
    let mut page = [0xA5; 3];
    let full = number.to_slice(&mut page[..1]);
    assert_eq!(rt; full, Err(DekuError::Io(ErrorKind::WriteZero)));
    let answer = number.to_slice(&mut page);
    assert_eq!(rt; (answer, page), (Ok(2), [0xBE, 0xEF, 0xA5]));
}

// The bytes are read as the value, to the last one, and it is written as them.
fn expect_both_ways<T: DekuContainerRead + DekuContainerWrite + PartialEq + Debug>(
    alloc: Global,
    bytes: &[u8],
    want: T,
) -> Result<(), Fail>
    requires reads { T.DekuReader.accepts tt }
    requires writes { T.DekuWriter.accepts tt }
{
    let ((rest, bits), value) = T::from_bytes(alloc, (bytes, 0))?;
    let written = value.to_bytes(alloc)?;
    let seen = (value, rest.len(), bits, written.as_slice());
    same(&bytes, &seen, &(want, 0, 0, bytes))
}

#[test]
fn records_of_the_examples(rt: HostRuntime) -> Result<(), Fail> {
    let alloc = rt.alloc();
    let node = Node {
        kind: 1,
        mode: 0x123,
        owners: (4, 5),
        numbers: (6, 7),
    };
    let bytes: &[u8] = &[0x31, 0x12, 4, 5, 6, 0, 0, 0, 7, 0, 0, 0];
    expect_both_ways(alloc, bytes, node)?;
    let child = Child {
        byte: 0xAB,
        flags: (1, 0, 0),
        five: 22,
    };
    let parent = Parent {
        wide: 0x1001,
        narrow: 4,
        child,
    };
    expect_both_ways(alloc, &[0x10, 0x81, 0xAB, 0x96], parent)?;
    let field = LsbField {
        thirteen: 0x40,
        three: 2,
    };
    expect_both_ways(alloc, &[0x40, 0x40], field)?;
    let bytes = Bytes {
        two: 0xCDAB,
        one: 0xFF,
    };
    expect_both_ways(alloc, &[0xAB, 0xCD, 0xFF], bytes)
}
