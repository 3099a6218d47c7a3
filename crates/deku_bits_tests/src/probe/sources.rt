//! Sources that fail once.

use crate::same::{Row, same};
use crate::streams::{Get, get_steps};
use crate::taken::{Left, Step, walk_source, walk_steps};
use deku_bits::ctx::Order;
use deku_bits::ctx::Order::{Lsb0, Msb0};
use deku_bits::device::Source;
use deku_bits::error::DekuError;
use deku_bits::probe::{FailAt, Trickle};
use deku_bits::reader::Reader;
use deku_testing::bits::THREE_BYTES;
use deku_testing::refusals::{FAILED, handed, kind_of};
use std::alloc::Global;
use std::io::{Cursor, ErrorKind, Seek, SeekFrom};
use std::process::Abort;
use std::test::Fail;

// Bytes, the call that fails, the steps of a reader, and the cursor's position after them.
type Fault = (&'static [u8], usize, &'static [Step], u64);

const FAULTS: [Fault; 2] = [
    // In the middle.
    (
        &[0xAA, 0xBB],
        2,
        &[
            Step::Into(16, Msb0, Err(FAILED)),
            Step::Count(0),
            Step::Into(0, Msb0, Err(FAILED)),
            Step::Bits(3, Lsb0, Err(FAILED)),
            Step::Rest(""),
            Step::Left(Left::Nothing),
            Step::Seek(SeekFrom::Start(0), Ok(0)),
            Step::Fill(2, Msb0, Ok(&[0xAA, 0xBB])),
            Step::End(Ok(true)),
        ],
        2,
    ),
    // At the look for the end.
    (
        &[0xAA],
        1,
        &[
            Step::End(Err(FAILED)),
            Step::Fill(1, Msb0, Err(FAILED)),
            Step::End(Err(FAILED)),
            Step::Seek(SeekFrom::Current(0), Ok(0)),
            Step::End(Ok(false)),
            Step::Fill(1, Msb0, Ok(&[0xAA])),
        ],
        1,
    ),
];

#[test]
fn keeps_a_fault(rt: HostRuntime) -> Result<(), Fail> {
    let mut lacking = false;
    for (case, fault) in FAULTS.iter().enumerate() {
        let failing = FailAt::new(Cursor::new(fault.0), fault.1);
        let (lacks, source) = walk_source(&rt, rt.alloc(), case, failing, fault.2);
        let place = source.into_inner().position();
        same(&rt, (case, fault.2.len()), &place, &fault.3);
        lacking = lacks || lacking;
    }
    handed(lacking)
}

// A way to take three bytes.
#[derive(Clone, Copy)]
enum Way {
    Bits(Order),
    Bytes(Order),
    Skip(Order),
    EndThenBytes,
}

// Each way, and how many calls on the source it makes.
const WAYS: [(Way, usize); 7] = [
    (Way::Bits(Msb0), 3),
    (Way::Bits(Lsb0), 3),
    (Way::Bytes(Msb0), 3),
    (Way::Bytes(Lsb0), 3),
    (Way::Skip(Msb0), 1),
    (Way::Skip(Lsb0), 1),
    (Way::EndThenBytes, 3),
];

// Takes BB CC DD in this way.
fn take_three<R: Source>(
    rt: &impl Abort,
    row: Row,
    reader: &mut Reader<R>,
    way: Way,
) -> Result<(), DekuError> {
    match way {
        Way::Bits(order) => take_bits(rt, row, reader, order),
        Way::Bytes(order) => take_bytes(rt, row, reader, order),
        Way::Skip(order) => reader.skip_bits(24, order),
        Way::EndThenBytes => {
            let is_end = reader.end()?;
            same(rt, row, &is_end, &false);
            fill_bytes(rt, row, reader)
        }
    }
}

fn take_bits<R: Source>(
    rt: &impl Abort,
    row: Row,
    reader: &mut Reader<R>,
    order: Order,
) -> Result<(), DekuError> {
    let mut bits = [false; 24];
    let answer = reader.read_bits_into(&mut bits, order);
    if answer.is_ok() {
        same(rt, row, &bits, &THREE_BYTES);
    }
    answer
}

fn take_bytes<R: Source>(
    rt: &impl Abort,
    row: Row,
    reader: &mut Reader<R>,
    order: Order,
) -> Result<(), DekuError> {
    let mut bytes = [0; 3];
    reader.read_bytes(3, &mut bytes, order)?;
    same(rt, row, &bytes, &[0xBB, 0xCC, 0xDD]);
    Ok(())
}

fn fill_bytes<R: Source>(
    rt: &impl Abort,
    row: Row,
    reader: &mut Reader<R>,
) -> Result<(), DekuError> {
    let mut bytes = [0; 3];
    let answer = reader.read_bytes_const_into(&mut bytes, Msb0);
    if answer.is_ok() {
        same(rt, row, &bytes, &[0xBB, 0xCC, 0xDD]);
    }
    answer
}

const AA: [Step; 2] = [Step::Fill(1, Msb0, Ok(&[0xAA])), Step::Count(8)];

// The reader has stopped with the fault: each call returns it, no bit is left over, and the count
// is still eight.
const STOPPED: [Step; 7] = [
    Step::Into(0, Lsb0, Err(FAILED)),
    Step::Skip(0, Msb0, Err(FAILED)),
    Step::End(Err(FAILED)),
    Step::Left(Left::Nothing),
    Step::Rest(""),
    Step::Kept(FAILED),
    Step::Count(8),
];

// Takes three bytes after the first one. The nth call after that one fails, and the fault is
// returned and kept until a seek. Returns whether memory was refused.
fn expect_taken(rt: &impl Abort, alloc: Global, case: (Way, usize), n: usize) -> bool {
    let bytes: &[u8] = &[0xAA, 0xBB, 0xCC, 0xDD];
    let source = FailAt::new(Cursor::new(bytes), n.saturating_add(1));
    expect_taken_from(rt, alloc, source, case, n)
}

fn expect_taken_from<R: Source + Drop>(
    rt: &impl Abort,
    alloc: Global,
    source: R,
    case: (Way, usize),
    n: usize,
) -> bool {
    let (way, calls) = case;
    let row = (calls, n);
    let mut reader = Reader::new(alloc, source);
    let mut lacks = walk_steps(rt, n, &mut reader, &AA);
    if n <= calls {
        lacks = expect_failed(rt, row, &mut reader, way);
    }
    let taken = take_three(rt, row, &mut reader, way);
    same(rt, row, &(taken, reader.bits_read()), &(Ok(()), 32));
    lacks
}

// The reader fails in this way and stops with the fault, at the place after the calls that
// succeeded, until a seek. Returns whether memory was refused.
fn expect_failed<R: Source>(rt: &impl Abort, row: Row, reader: &mut Reader<R>, way: Way) -> bool {
    let failed = Err(FAILED.error());
    let once = take_three(rt, row, reader, way);
    let twice = take_three(rt, row, reader, way);
    same(rt, row, &(once, twice), &(failed, failed));
    let lacks = walk_steps(rt, row.1, reader, &STOPPED);
    let place = gone_to(reader, SeekFrom::Current(0));
    let back = gone_to(reader, SeekFrom::Start(1));
    let seen = (place, back, reader.bits_read());
    same(rt, row, &seen, &(Ok(row.1 as u64), Ok(1), 8));
    lacks
}

fn gone_to<R: Source>(reader: &mut Reader<R>, to: SeekFrom) -> Result<u64, ErrorKind> {
    kind_of(reader.seek(to))
}

// The same in each way. Returns whether memory was refused.
fn expect_each_way(rt: &impl Abort, alloc: Global, n: usize) -> bool {
    let mut lacking = false;
    for case in WAYS {
        let lacks = expect_taken(rt, alloc, case, n);
        lacking = lacking || lacks;
    }
    lacking
}

#[test]
fn keeps_a_fault_at_each_call(rt: HostRuntime) -> Result<(), Fail> {
    let mut lacking = false;
    for n in 1..=5 {
        let lacks = expect_each_way(&rt, rt.alloc(), n);
        lacking = lacking || lacks;
    }
    handed(lacking)
}

// A call that fails moves nothing, and the next ones succeed.
const ONCE: [(usize, &[Get]); 2] = [
    (
        2,
        &[
            Get::Some(3, Ok(&[0xAA])),
            Get::Some(3, Err(ErrorKind::Other)),
            Get::Exact(2, Ok(&[0xBB, 0xCC])),
        ],
    ),
    (
        1,
        &[
            Get::Seek(SeekFrom::Start(2), Err(ErrorKind::Other)),
            Get::Exact(3, Ok(&[0xAA, 0xBB, 0xCC])),
        ],
    ),
];

#[test]
fn fails_once(rt: HostRuntime) {
    let bytes: &[u8] = &[0xAA, 0xBB, 0xCC];
    for (case, (n, steps)) in ONCE.iter().enumerate() {
        assert!(&rt; *n > 0);
        let mut source = FailAt::new(Cursor::new(bytes), *n);
        get_steps(&rt, case, &mut source, steps);
        same(
            &rt,
            (case, steps.len()),
            &source.into_inner().position(),
            &3,
        );
    }
}

const FIRST: [Get; 2] = [
    Get::Some(3, Ok(&[0xA1])),
    Get::Seek(SeekFrom::Start(0), Ok(0)),
];

const THREE: [Step; 3] = [
    Step::Fill(3, Lsb0, Ok(&[0xA1, 0x34, 0x12])),
    Step::End(Ok(true)),
    Step::Count(24),
];

#[test]
fn trickles(rt: HostRuntime) -> Result<(), Fail> {
    let bytes = [0xA1, 0x34, 0x12];
    let mut source = Trickle::new(bytes.as_slice());
    get_steps(&rt, 0, &mut source, &FIRST);
    handed(walk_source(&rt, rt.alloc(), 1, source, &THREE).0)
}
