//! Sinks that fail once.

use crate::Row;
use crate::given::{Put, expect_kept, give_sink, give_steps};
use crate::streams::{Set, set_steps};
use deku_bits::ctx::Order;
use deku_bits::ctx::Order::{Lsb0, Msb0};
use deku_bits::device::Sink;
use deku_bits::error::DekuError;
use deku_bits::probe::FailAt;
use deku_bits::writer::Writer;
use deku_testing::bits::THREE_BYTES;
use deku_testing::refusals::{FAILED, handed, kind_of};
use deku_testing::same::{same, same_bytes};
use std::alloc::Global;
use std::io::{Cursor, ErrorKind, Seek, SeekFrom};
use std::process::Abort;
use std::test::Fail;

// A way to write.
#[derive(Clone, Copy)]
enum Way {
    Bits(Order),
    Bytes,
    // Four bits, which are then padded.
    Padding(Order),
}

// Each way, how many calls on the sink it makes, one for each byte, and what the sink then has
// after its first byte.
const WAYS: [(Way, usize, [u8; 3]); 5] = [
    (Way::Bits(Msb0), 3, [0xBB, 0xCC, 0xDD]),
    (Way::Bits(Lsb0), 3, [0xBB, 0xCC, 0xDD]),
    (Way::Bytes, 3, [0xBB, 0xCC, 0xDD]),
    (Way::Padding(Msb0), 1, [0xB0, 0, 0]),
    (Way::Padding(Lsb0), 1, [0x0B, 0, 0]),
];

// Writes in this way.
fn write<W: Sink>(writer: &mut Writer<W>, way: Way) -> Result<(), DekuError> {
    match way {
        Way::Bits(order) => writer.write_bits_order(&THREE_BYTES, order),
        Way::Bytes => writer.write_bytes(&[0xBB, 0xCC, 0xDD]),
        Way::Padding(order) => {
            writer.write_bits_order(&THREE_BYTES[..4], order)?;
            writer.finalize()
        }
    }
}

// The writer fails in this way and stops with the fault, at the place after the calls that
// succeeded, until a seek. Returns whether memory was refused.
fn expect_failed<W: Sink>(
    alloc: Global,
    row: Row,
    writer: &mut Writer<W>,
    way: Way,
) -> Result<bool, Fail> {
    let failed = Err(FAILED.error());
    let seen = (write(writer, way), write(writer, way));
    same(&row, &seen, &(failed, failed))?;
    let lacks = expect_kept(alloc, row, writer, FAILED.error())?;
    let count = writer.bits_written();
    let place = kind_of(writer.seek(SeekFrom::Current(0)));
    let back = kind_of(writer.seek(SeekFrom::Start(1)));
    let want = (8, Ok(row.1 as u64), Ok(1));
    same(&row, &(count, place, back), &want)?;
    Ok(lacks)
}

const AA: [Put; 2] = [Put::Bytes(&[0xAA], Ok(())), Put::Count(8)];

// Writes after the first byte. The nth of so many calls after that byte fails, and the fault is
// returned and kept until a seek. Returns whether memory was refused.
fn write_failing<W: Sink + Drop>(
    rt: &impl Abort,
    alloc: Global,
    sink: W,
    way: Way,
    row: Row,
) -> Result<bool, Fail> {
    let (calls, n) = row;
    let mut writer = Writer::new(sink);
    give_steps(rt, alloc, n, &mut writer, &AA)?;
    let lacks = n <= calls && expect_failed(alloc, row, &mut writer, way)?;
    let answer = write(&mut writer, way);
    let count = writer.bits_written();
    let want = (Ok(()), calls.saturating_add(1), 0);
    same(&row, &(answer, count / 8, count % 8), &want)?;
    Ok(lacks)
}

// So over a slice that fails once, which holds what it should then.
fn expect_written(
    rt: &impl Abort,
    alloc: Global,
    case: (Way, usize, [u8; 3]),
    n: usize,
) -> Result<bool, Fail> {
    let (way, calls, bytes) = case;
    let row = (calls, n);
    let mut slice = [0; 4];
    let sink = FailAt::new(Cursor::new(slice.as_mut_slice()), n.saturating_add(1));
    let lacks = write_failing(rt, alloc, sink, way, row)?;
    same(&row, &slice[0], &0xAA)?;
    same_bytes(&row, &slice[1..], &bytes)?;
    Ok(lacks)
}

// The same in each way. Returns whether memory was refused.
fn expect_each_way(rt: &impl Abort, alloc: Global, n: usize) -> Result<bool, Fail> {
    let mut lacking = false;
    for case in WAYS {
        let lacks = expect_written(rt, alloc, case, n)?;
        lacking = lacking || lacks;
    }
    Ok(lacking)
}

#[test]
fn keeps_a_fault_at_each_call(rt: HostRuntime) -> Result<(), Fail> {
    let mut lacking = false;
    for n in 1..=5 {
        let lacks = expect_each_way(&rt, rt.alloc(), n)?;
        lacking = lacking || lacks;
    }
    handed(lacking)
}

// Seeks after one byte and four bits, if the nth call after that byte fails.
const AT_THE_SEEK: [Put; 9] = [
    Put::Bytes(&[0xAA], Ok(())),
    Put::Bits("1011", Ok(())),
    Put::Seek(SeekFrom::Start(2), Err(ErrorKind::Other)),
    Put::Bytes(&[0xBB, 0xCC, 0xDD], Err(FAILED)),
    Put::Kept(FAILED),
    Put::Seek(SeekFrom::Start(2), Ok(2)),
    Put::Count(8),
    Put::Bytes(&[0xBB], Ok(())),
    Put::Count(16),
];

const BEHIND_THE_SEEK: [Put; 8] = [
    Put::Bytes(&[0xAA], Ok(())),
    Put::Bits("1011", Ok(())),
    Put::Seek(SeekFrom::Start(2), Ok(2)),
    Put::Count(8),
    Put::Bytes(&[0xBB], Err(FAILED)),
    Put::Seek(SeekFrom::Current(0), Ok(2)),
    Put::Bytes(&[0xBB], Ok(())),
    Put::Count(16),
];

const WITHOUT_A_FAULT: [Put; 6] = [
    Put::Bytes(&[0xAA], Ok(())),
    Put::Bits("1011", Ok(())),
    Put::Seek(SeekFrom::Start(2), Ok(2)),
    Put::Count(8),
    Put::Bytes(&[0xBB], Ok(())),
    Put::Count(16),
];

const SOUGHT: [&[Put]; 5] = [
    &AT_THE_SEEK,
    &BEHIND_THE_SEEK,
    &WITHOUT_A_FAULT,
    &WITHOUT_A_FAULT,
    &WITHOUT_A_FAULT,
];

#[test]
fn keeps_a_refused_seek(rt: HostRuntime) -> Result<(), Fail> {
    for (case, steps) in SOUGHT.iter().enumerate() {
        let mut slice = [0; 3];
        let cursor = Cursor::new(slice.as_mut_slice());
        let failing = FailAt::new(cursor, case.saturating_add(2));
        give_sink(&rt, rt.alloc(), case, failing, steps)?;
        same_bytes(&(case, steps.len()), &slice, &[0xAA, 0x00, 0xBB])?;
    }
    Ok(())
}

// A call that fails moves nothing, and the next ones succeed.
const ONCE: [Set; 5] = [
    Set::Some(&[0xAA, 0xBB], Ok(1)),
    Set::Some(&[0xBB], Err(ErrorKind::Other)),
    Set::All(&[0xCC, 0xDD], Ok(())),
    Set::Flush(Ok(())),
    Set::All(&[0xEE], Err(ErrorKind::WriteZero)),
];

#[test]
fn fails_once(rt: HostRuntime) -> Result<(), Fail> {
    let mut slice = [0; 3];
    let mut sink = FailAt::new(Cursor::new(slice.as_mut_slice()), 2);
    set_steps(0, &mut sink, &ONCE)?;
    same_bytes(&(0, 5), &slice, &[0xAA, 0xCC, 0xDD])?;
    Ok(())
}
