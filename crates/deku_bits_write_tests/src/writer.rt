//! What writes make, against worked examples.

ghost use Rattle.std.specs.Prelude.{◌≡◌, ◌/◌, ◌≤◌, ℕ, length, take, Ok, OnOk};
ghost use Rattle.deku_bits.specs.Writers.{Pending, Nothing, append};
ghost use Rattle.deku_bits.specs.Standings.{Standing, Going};
ghost use Rattle.deku_bits.specs.WriterCalls.{WritesAt, WritesBits};

mod bytes;
mod failing;
mod memory;
mod seek;

use crate::given::{Grown, Put, give_bounded, give_tables, write_ordered};
use deku_bits::ctx::Order;
use deku_bits::ctx::Order::{Lsb0, Msb0};
use deku_bits::device::Sink;
use deku_bits::error::DekuError;
use deku_bits::writer::Writer;
use deku_testing::refusals::Refusal;
use deku_testing::same::{same, same_bytes};
use std::alloc::Global;
use std::io::{Cursor, ErrorKind};
use std::process::Abort;
use std::test::Fail;

// Lists of bits, each in its order, and the bytes that they make once the last byte is filled.
type Lists = (&'static [(Order, &'static str)], &'static [u8]);

// Writes the lists and fills the last byte: how many bits were counted, and the sink.
fn write_lists<S: Sink + Drop>(sink: S, lists: &[(Order, &str)]) -> Result<(usize, S), DekuError> {
    let mut writer = Writer::new(sink);
    for (order, digits) in lists {
        write_ordered(&mut writer, *order, digits)?;
    }
    writer.finalize()?;
    let count = writer.bits_written();
    Ok((count, writer.into_inner()))
}

// The lists make these bytes, in a vector and in a slice.
fn expect_lists(rt: &impl Abort, alloc: Global, cases: &[Lists]) -> Result<(), Fail> {
    for (case, (lists, want)) in cases.iter().enumerate() {
        let (count, vector) = write_lists(Cursor::new(Vec::new(alloc)), lists)?;
        same_bytes(&(case, 0), vector.into_inner().as_slice(), want)?;
        same(&(case, 1), &(count / 8), &want.len())?;
        let mut slice = [0; 8];
        write_lists(Cursor::new(slice.as_mut_slice()), lists)?;
        assert!(rt; want.len() <= 8);
        same_bytes(&(case, 2), &slice[..want.len()], want)?;
    }
    Ok(())
}

// Writes a list of bits to a sink that is lent: its caller has all of what was written.
fn write_lent<S: Sink>(sink: &mut S, list: &[bool], order: Order) -> Result<(), DekuError>
    ensures { (u : Standing Pending) × WritesAt (WritesBits order list.now) (S.known sink.old)
        (Going Nothing 0) result (S.known sink.new) u }
{
    let mut writer = Writer::new(sink);
    writer.write_bits_order(list, order)
}

// Writes a list of bits over the start of a slice: if it has room for the bytes, they are there
// then.
fn write_over(all: &mut [u8], list: &[bool], order: Order) -> Result<(), DekuError>
    ensures room { length list.now / 8 ≤ length all.old → result ≡ Ok tt }
    ensures bytes { OnOk result ((n : ℕ) × (take n all.new ≡
        (append order list.now Nothing).bytes)) }
{
    let mut cursor = Cursor::new(all);
    write_lent(&mut cursor, list, order)
}

// In one order, and across orders.
const ORDERS: [Lists; 12] = [
    (&[(Msb0, "101010"), (Msb0, "010101")], &[0xA9, 0x50]),
    (&[(Lsb0, "101010"), (Lsb0, "010101")], &[0x6A, 0x05]),
    (&[(Msb0, "1010"), (Msb0, "0101")], &[0xA5]),
    (&[(Lsb0, "1010"), (Lsb0, "0101")], &[0x5A]),
    (
        &[(Lsb0, "00001"), (Lsb0, "1010010110010001"), (Lsb0, "000")],
        &[0xA1, 0x34, 0x12],
    ),
    (&[(Lsb0, "101010"), (Msb0, "010101")], &[0x56, 0xA0]),
    (&[(Msb0, "101010"), (Lsb0, "010101")], &[0x95, 0x0A]),
    (
        &[(Lsb0, "101"), (Msb0, "1010101111001101")],
        &[0xCD, 0xAB, 0xA0],
    ),
    (&[(Msb0, "101"), (Lsb0, "100000001")], &[0xB0, 0x01]),
    (&[(Msb0, "101"), (Lsb0, "11110101")], &[0xBE, 0x05]),
    (&[(Msb0, "1010"), (Lsb0, "0101")], &[0xA5]),
    (&[(Msb0, "1010"), (Lsb0, ""), (Msb0, "0101")], &[0xA5]),
];

#[test]
fn writes_in_each_order(rt: HostRuntime) -> Result<(), Fail> {
    expect_lists(&rt, rt.alloc(), &ORDERS)
}

const STEPS: [Grown; 2] = [
    // Bytes and halves of them.
    (
        &[
            Put::Bits("10101010", Ok(())),
            Put::Bits("10111011", Ok(())),
            Put::Bits("1111", Ok(())),
            Put::Bits("0001", Ok(())),
            Put::Bits("10101010", Ok(())),
            Put::Bits("0001", Ok(())),
            Put::Bits("1111", Ok(())),
            Put::Bits("0001", Ok(())),
            Put::Bits("10101010", Ok(())),
            Put::Bits("1111", Ok(())),
            Put::Count(56),
        ],
        &[0xAA, 0xBB, 0xF1, 0xAA, 0x1F, 0x1A, 0xAF],
    ),
    // What is pending.
    (
        &[
            Put::Ordered(Lsb0, "101", Ok(())),
            Put::Rest("101"),
            Put::Left("101", 0xA0, Lsb0),
            Put::Finalize(Ok(())),
            Put::Finalize(Ok(())),
            Put::Rest(""),
            Put::Left("", 0, Msb0),
        ],
        &[0x05],
    ),
];

#[test]
fn writes_and_shows_what_is_pending(rt: HostRuntime) -> Result<(), Fail> {
    give_tables(&rt, rt.alloc(), &[&STEPS])
}

const FULL: Refusal = Refusal::Io(ErrorKind::WriteZero);

const FAULT: [Grown; 1] = [(
    &[
        Put::Bits("101010101", Ok(())),
        Put::Bits("101010101", Err(FULL)),
        Put::Count(8),
        Put::Ordered(Lsb0, "", Err(FULL)),
        Put::Finalize(Err(FULL)),
        Put::Count(8),
        Put::Rest(""),
        Put::Kept(FULL),
    ],
    &[0xAA],
)];

#[test]
fn keeps_a_fault(rt: HostRuntime) -> Result<(), Fail> {
    give_bounded(&rt, rt.alloc(), &FAULT)
}

#[test]
fn writes_over_a_slice(_rt: HostRuntime) -> Result<(), Fail> {
    let list = [true, false, true, false, false, true, false, true];
    let mut slice = [1, 2];
    let row = (0, 0);
    let full = Err(FULL.error());
    same(
        &row,
        &write_over(slice.as_mut_slice(), &list, Msb0),
        &Ok(()),
    )?;
    same_bytes(&row, &slice, &[0xA5, 2])?;
    same(&row, &write_over(&mut slice[..0], &list, Msb0), &full)
}
