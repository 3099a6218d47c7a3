//! Runs of bytes after a partly read byte.

use deku_bits::ctx::Order;
use deku_bits::ctx::Order::{Lsb0, Msb0};
use deku_bits::device::Source;
use deku_bits::error::DekuError;
use deku_bits::reader::Reader;
use deku_testing::bits::{Slow, samples};
use deku_testing::same::same;
use std::alloc::Global;
use std::io::Cursor;
use std::test::Fail;

// Around the eight bytes that are turned at a time.
const LENGTHS: [usize; 5] = [7, 8, 9, 16, 17];

// Makes a run the bytes of the bits that are met after so many others of the first order.
fn met_run(
    bytes: &[u8],
    offset: usize,
    first: Order,
    run: &mut [u8],
    order: Order,
) -> Result<(), Fail> {
    let mut slow = Slow::new(bytes);
    slow.take_word(first, offset)?;
    for byte in run.iter_mut() {
        *byte = (slow.take_word(order, 8)? % 256) as u8;
    }
    Ok(())
}

// Makes a run the bytes that a reader reads after so many bits of the first order.
fn read_run<R: Source + Drop>(
    alloc: Global,
    source: R,
    offset: usize,
    first: Order,
    run: &mut [u8],
    order: Order,
) -> Result<(), DekuError> {
    let mut front = [false; 8];
    let mut reader = Reader::new(alloc, source);
    reader.read_bits_into(&mut front[..offset.min(8)], first)?;
    reader.read_bytes(run.len(), run, order)?;
    Ok(())
}

// A run of n bytes is that of the bits that are met.
fn expect_run(
    alloc: Global,
    bytes: &[u8],
    start: (usize, Order),
    n: usize,
    order: Order,
) -> Result<(), Fail> {
    let (offset, first) = start;
    let mut want = [0; 17];
    let mut got = [0; 17];
    let len = n.min(17);
    met_run(bytes, offset, first, &mut want[..len], order)?;
    let source = Cursor::new(bytes);
    read_run(alloc, source, offset, first, &mut got[..len], order)?;
    same(&(offset, n), &got, &want)
}

// Runs of each length in both orders, after these bits.
fn expect_runs(alloc: Global, bytes: &[u8], start: (usize, Order)) -> Result<(), Fail> {
    for n in LENGTHS {
        expect_run(alloc, bytes, start, n, Msb0)?;
        expect_run(alloc, bytes, start, n, Lsb0)?;
    }
    Ok(())
}

// Runs of these bytes and one more, after each offset but none.
fn expect_sample(alloc: Global, sample: &[u8; 17]) -> Result<(), Fail> {
    let mut bytes = [0xA6; 18];
    bytes[..17].copy_from_slice(sample);
    for offset in 1..8 {
        expect_runs(alloc, &bytes, (offset, Msb0))?;
        expect_runs(alloc, &bytes, (offset, Lsb0))?;
    }
    Ok(())
}

#[test]
fn reads_runs_of_bytes_behind_bits(rt: HostRuntime) -> Result<(), Fail> {
    for bytes in samples() {
        expect_sample(rt.alloc(), &bytes)?;
    }
    Ok(())
}
