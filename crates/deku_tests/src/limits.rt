//! Lists under limits.

use super::expecting::Refusal::{Said, Until};
use super::expecting::{
    Answer, Refusal, expect_answer, expect_bytes, expect_written, next_byte, rest_of, same, same_at,
};
use deku::ctx::Endian::{Big, Little};
use deku::ctx::Order::{Lsb0, Msb0};
use deku::ctx::{BitSize, ByteSize, Limit, Never, ReadExact};
use deku::prelude::{DekuError, Reader};
use deku_testing_values::expecting::{next, put, reader_of, writer_in};
use std::alloc::Global;
use std::boxed::BoxedSlice;
use std::io::Cursor;
use std::process::Abort;
use std::test::Fail;

const NO_WIDTH: Refusal = Said(DekuError::Parse("item without width"));

const PAST_COUNT: Refusal = Said(DekuError::InvalidParam("count past usize"));

// Where a list ends.
#[derive(Clone, Copy)]
enum Stop {
    Count(usize),
    Bytes(usize),
    Bits(usize),
    End,
}

impl Stop {
    fn limit<T>(self) -> Limit<T, Never> {
        match self {
            Stop::Count(count) => Limit::new_count(count),
            Stop::Bytes(count) => Limit::new_byte_size(ByteSize(count)),
            Stop::Bits(count) => Limit::new_bit_size(BitSize(count)),
            Stop::End => Limit::end(),
        }
    }
}

// A call on a reader, and what it returns.
enum Step {
    // Bytes, under the limit alone, and numbers of so many bits, with and without an endian.
    Octets(Stop, Answer<u8>),
    Sized(Stop, usize, Answer<u8>),
    SizedLittle(Stop, usize, Answer<u8>),
    // Numbers of two bytes, under the limit and `Big`.
    Wides(Stop, Answer<u16>),
    // Items without width, of two types.
    Units(Stop, Answer<()>),
    Hollows(Stop, Answer<[u8; 0]>),
    // So many bytes at once.
    AtOnce(usize, Answer<u8>),
    // One byte, and one of so many bits.
    Next(u8),
    NextSized(usize, u8),
    // How many bits are read, and which are left of the last byte.
    Read(usize),
    Rest(&'static [bool]),
}

// The step of that number, on a list.
fn take_list(
    rt: &impl Abort,
    run: &str,
    at: usize,
    step: &Step,
    reader: &mut Reader<Cursor<&[u8]>>,
) {
    match step {
        Step::Octets(stop, want) => {
            let list = next(reader, stop.limit::<u8>());
            expect_answer(rt, run, &at, list, want)
        }
        Step::Sized(stop, bits, want) => {
            let list = next(reader, (stop.limit::<u8>(), BitSize(*bits)));
            expect_answer(rt, run, &at, list, want)
        }
        Step::SizedLittle(stop, bits, want) => {
            let ctx = (stop.limit::<u8>(), (Little, BitSize(*bits)));
            expect_answer(rt, run, &at, next(reader, ctx), want)
        }
        Step::Wides(stop, want) => {
            let list = next(reader, (stop.limit::<u16>(), Big));
            expect_answer(rt, run, &at, list, want)
        }
        Step::Units(stop, want) => {
            let list = next(reader, stop.limit::<()>());
            expect_answer(rt, run, &at, list, want)
        }
        Step::Hollows(stop, want) => {
            let list = next(reader, stop.limit::<[u8; 0]>());
            expect_answer(rt, run, &at, list, want)
        }
        _ => take_place(rt, run, at, step, reader),
    }
}

// So on what is not a list under a limit.
fn take_place(
    rt: &impl Abort,
    run: &str,
    at: usize,
    step: &Step,
    reader: &mut Reader<Cursor<&[u8]>>,
) {
    match step {
        Step::AtOnce(count, want) => {
            let bytes = next::<Vec<u8>, ReadExact, _>(reader, ReadExact(*count));
            expect_answer(rt, run, &at, bytes, want);
        }
        Step::Next(want) => same_at(rt, run, &at, &next_byte(reader), &Ok(*want)),
        Step::NextSized(bits, want) => {
            let byte = next::<u8, BitSize, _>(reader, BitSize(*bits));
            same_at(rt, run, &at, &byte, &Ok(*want));
        }
        Step::Read(want) => same_at(rt, run, &at, &reader.bits_read(), want),
        Step::Rest(want) => expect_rest(rt, run, at, reader, want),
        _ => assert!(rt; false, "{run}: {at} is no step of a place"),
    }
}

// These bits are left of the last byte.
fn expect_rest(
    rt: &impl Abort,
    run: &str,
    at: usize,
    reader: &Reader<Cursor<&[u8]>>,
    want: &[bool],
) {
    match rest_of(reader) {
        Ok(bits) => same_at(rt, run, &at, &bits.as_slice(), &want),
        Err(refusal) => assert!(rt; false, "{run}: {at}: {refusal:?}"),
    }
}

// A name, the bytes of a reader, and what is asked of it, one step after the other.
type Run = (&'static str, &'static [u8], &'static [Step]);

const RUNS: [Run; 10] = [
    (
        "up to a count",
        &[0x69, 0xE9],
        &[
            Step::SizedLittle(Stop::Count(2), 6, Ok(&[0x1A, 0x1E])),
            Step::Rest(&[true, false, false, true]),
        ],
    ),
    (
        "up to a count without bits",
        &[1, 2],
        &[
            Step::Octets(Stop::Count(0), Ok(&[])),
            Step::Next(1),
            Step::Units(Stop::Count(3), Ok(&[(), (), ()])),
            Step::Read(8),
        ],
    ),
    // Memory grows with the items that there are, and not with the count.
    (
        "up to a count that is not there",
        &[1, 2],
        &[
            Step::Octets(Stop::Count(usize::MAX), Err(Until(8))),
            Step::Read(16),
        ],
    ),
    (
        "up to so many bits",
        &[0xAA, 0xBB, 0xCC, 0xDD],
        &[
            Step::Wides(Stop::Bytes(2), Ok(&[0xAABB])),
            Step::Sized(Stop::Bits(12), 4, Ok(&[0x0C, 0x0C, 0x0D])),
            Step::Octets(Stop::Bits(0), Ok(&[])),
            Step::Octets(Stop::Bytes(0), Ok(&[])),
            Step::Read(28),
        ],
    ),
    // Items that step over the size are read on, to the end of the input.
    (
        "over so many bits",
        &[1, 2, 3],
        &[Step::Octets(Stop::Bits(12), Err(Until(8))), Step::Read(24)],
    ),
    (
        "over more bits than can be counted",
        &[1, 2],
        &[
            Step::Octets(Stop::Bytes(2305843009213693952), Err(PAST_COUNT)),
            Step::Read(0),
            Step::Next(1),
        ],
    ),
    (
        "up to the end",
        &[0xF0, 0xF0],
        &[
            Step::Sized(Stop::End, 4, Ok(&[15, 0, 15, 0])),
            Step::Rest(&[]),
            Step::Units(Stop::End, Ok(&[])),
        ],
    ),
    // What raises no count is refused if the list does not end with it.
    (
        "items without width up to an end",
        &[1, 2, 3],
        &[
            Step::Hollows(Stop::Bytes(1), Err(NO_WIDTH)),
            Step::Read(0),
            Step::Next(1),
            Step::Units(Stop::End, Err(NO_WIDTH)),
            Step::Read(8),
            Step::Next(2),
        ],
    ),
    (
        "bytes at once, at a boundary",
        &[1, 2, 3],
        &[
            Step::AtOnce(2, Ok(&[1, 2])),
            Step::AtOnce(0, Ok(&[])),
            Step::AtOnce(2, Err(Until(16))),
            Step::Read(16),
        ],
    ),
    (
        "bytes at once",
        &[0xAB, 0xCD, 0xEF],
        &[
            Step::NextSized(4, 0xA),
            Step::AtOnce(2, Ok(&[0xDB, 0xFC])),
            Step::Rest(&[true, true, true, false]),
            Step::AtOnce(usize::MAX, Err(PAST_COUNT)),
            Step::Read(20),
            Step::AtOnce(2, Err(Until(16))),
            Step::AtOnce(0, Err(Until(16))),
        ],
    ),
];

#[test]
fn up_to_an_end(rt: HostRuntime) {
    for (run, bytes, steps) in &RUNS {
        take_lists(&rt, run, &mut reader_of(rt.alloc(), bytes), steps);
    }
}

fn take_lists(rt: &impl Abort, run: &str, reader: &mut Reader<Cursor<&[u8]>>, steps: &[Step]) {
    for (at, step) in steps.iter().enumerate() {
        take_list(rt, run, at, step, reader);
    }
}

// A predicate with a state of its own is asked about each item once, in order.
#[test]
fn up_to_an_item(rt: HostRuntime) {
    expect_third(&rt, rt.alloc());
    expect_second(&rt, rt.alloc());
}

fn expect_third(rt: &impl Abort, alloc: Global) {
    let mut reader = reader_of(alloc, &[5, 5, 5, 5]);
    let mut calls = 0u8;
    let third = Limit::new_until(|_: &u8| {
        calls = calls.wrapping_add(1);
        calls == 3
    });
    let items: Result<Vec<u8>, DekuError> = next(&mut reader, third);
    expect_answer(rt, "up to an item", &"the third", items, &Ok(&[5, 5, 5]));
    same(rt, &"calls for the third", &calls, &3);
    take_place(rt, "the third", 0, &Step::Next(5), &mut reader);
}

fn expect_second(rt: &impl Abort, alloc: Global) {
    let mut reader = reader_of(alloc, &[1, 2, 3]);
    let mut second = true;
    let turns = Limit::new_until(|_: &u8| {
        second = !second;
        second
    });
    let items: Result<Vec<u8>, DekuError> = next(&mut reader, turns);
    expect_answer(rt, "up to an item", &"each second", items, &Ok(&[1, 2]));
    take_place(rt, "each second", 0, &Step::Next(3), &mut reader);
}

// The bytes of a reader, what they are up to a zero, and the next step.
type Zero = (&'static [u8], Answer<u8>, Step);

const ZEROS: [Zero; 2] = [
    (&[0xAA, 0x00, 0xBB], Ok(&[0xAA, 0x00]), Step::Next(0xBB)),
    (&[1, 2], Err(Until(8)), Step::Read(16)),
];

#[test]
fn up_to_a_zero(rt: HostRuntime) {
    for (at, (bytes, want, behind)) in ZEROS.iter().enumerate() {
        let mut reader = reader_of(rt.alloc(), bytes);
        let zero = Limit::new_until(|byte: &u8| *byte == 0);
        let items: Result<Vec<u8>, DekuError> = next(&mut reader, zero);
        expect_answer(&rt, "up to a zero", bytes, items, want);
        take_place(&rt, "up to a zero", at, behind, &mut reader);
    }
}

#[test]
fn items_without_width_up_to_an_item(rt: HostRuntime) -> Result<(), Fail> {
    let mut reader = reader_of(rt.alloc(), &[1, 2]);
    for (always, want) in [(true, Ok([()].as_slice())), (false, Err(NO_WIDTH))] {
        let limit = Limit::new_until(|_: &()| always);
        let items: Result<Vec<()>, DekuError> = next(&mut reader, limit);
        expect_answer(&rt, "without width", &always, items, &want);
        let at = usize::from(always);
        take_place(&rt, "without width", at, &Step::Read(0), &mut reader);
    }
    take_place(&rt, "without width", 2, &Step::Next(1), &mut reader);
    Ok(())
}

#[test]
fn lists_of_lists(rt: HostRuntime) -> Result<(), Fail> {
    let mut reader = reader_of(rt.alloc(), &[0x12, 0x34]);
    let pairs = (Limit::new_count(2), (Limit::new_count(2), BitSize(4)));
    let rows: Vec<Vec<u8>> = next(&mut reader, pairs)?;
    assert!(rt; rows.len() == 2, "{rows:?}");
    let seen = (rows[0].as_slice(), rows[1].as_slice());
    let want = ([1, 2].as_slice(), [3, 4].as_slice());
    same(&rt, &"rows", &seen, &want);
    expect_written(&rt, rt.alloc(), BitSize(4), &rows, &[0x12, 0x34]);
    Ok(())
}

#[test]
fn boxed_slices(rt: HostRuntime) -> Result<(), Fail> {
    let bytes: &[u8] = &[0xAA, 0xBB, 0xCC, 0xDD];
    let mut reader = reader_of(rt.alloc(), bytes);
    let two = (Limit::new_count(2), Little);
    let items: BoxedSlice<u16> = next(&mut reader, two)?;
    same(&rt, &"two", &items.as_slice(), &[0xBBAA, 0xDDCC].as_slice());
    let mut reader = reader_of(rt.alloc(), bytes);
    let whole: BoxedSlice<u8> = next(&mut reader, Limit::end())?;
    same(&rt, &"all", &whole.as_slice(), &bytes);
    let mut writer = writer_in(rt.alloc());
    put(&mut writer, &items, Little)?;
    put(&mut writer, &whole, ())?;
    expect_bytes(
        &rt,
        &"two and all",
        writer,
        &[0xAA, 0xBB, 0xCC, 0xDD, 0xAA, 0xBB, 0xCC, 0xDD],
    );
    Ok(())
}

// A vector written among bits is its items, one after the other, and not one run of bits.
#[test]
fn vectors_behind_bits(rt: HostRuntime) -> Result<(), Fail> {
    let items = Vec::from_slice(rt.alloc(), &[0x61u8, 0x62])?;
    let mut writer = writer_in(rt.alloc());
    writer.write_bits_order(&[true, false, true], Lsb0)?;
    put(&mut writer, &items, Msb0)?;
    expect_bytes(&rt, &"behind bits", writer, &[0x61, 0xAC, 0x40]);
    Ok(())
}
