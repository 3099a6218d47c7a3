//! Writes that may run out of memory: to a vector that has to grow, and of the pending bits into a
//! new one.

use crate::given::{Put, expect_kept, give_sink, give_steps};
use deku_bits::ctx::Order::Msb0;
use deku_bits::device::Sink;
use deku_bits::writer::Writer;
use deku_testing::refusals::{NO_MEMORY, handed};
use deku_testing::same::same;
use std::alloc::Global;
use std::io::Cursor;
use std::test::Fail;

// Twelve bits: two of them are the bytes A5 CA 5C.
const TWELVE: [bool; 12] = [
    true, false, true, false, false, true, false, true, true, true, false, false,
];

// The twelve bits are written forty times, or until memory is refused, and then the writer has
// stopped: how many bits are counted, whether memory was refused, and the sink.
fn write_forty<S: Sink + Drop>(alloc: Global, sink: S) -> Result<(usize, bool, S), Fail> {
    let mut writer = Writer::new(sink);
    let mut count = 0;
    let mut lacking = false;
    for calls in 1..=40 {
        let row = (0, calls);
        if let Err(error) = writer.write_bits(&TWELVE) {
            same(&row, &error, &NO_MEMORY.error())?;
            expect_kept(alloc, row, &mut writer, error)?;
            lacking = true;
            break;
        }
        count = calls * 12 / 8 * 8;
        same(&row, &writer.bits_written(), &count)?;
    }
    same(&(1, 0), &writer.bits_written(), &count)?;
    Ok((count, lacking, writer.into_inner()))
}

#[test]
fn grows_its_sink_or_wants_memory(rt: HostRuntime) -> Result<(), Fail> {
    let vector = Cursor::new(Vec::new(rt.alloc()));
    let (count, lacking, sink) = write_forty(rt.alloc(), vector)?;
    let bytes = sink.into_inner();
    assert!(&rt; bytes.len() >= count / 8);
    for (at, byte) in bytes.iter().take(count / 8).enumerate() {
        same(&(2, at), byte, &[0xA5, 0xCA, 0x5C][at % 3])?;
    }
    handed(lacking)
}

const FAR: [Put; 4] = [
    Put::Bits("1010", Ok(())),
    Put::Left("1010", 0xA0, Msb0),
    Put::Bits("101001011100", Err(NO_MEMORY)),
    Put::Kept(NO_MEMORY),
];

// A place far after the bytes of a vector needs more memory than there is.
#[test]
fn refuses_what_memory_cannot_hold(rt: HostRuntime) -> Result<(), Fail> {
    let mut cursor = Cursor::new(Vec::new(rt.alloc()));
    cursor.set_position(1 << 60);
    let mut writer = Writer::new(cursor);
    give_steps(&rt, rt.alloc(), 0, &mut writer, &FAR)?;
    same(&(1, 0), &writer.bits_written(), &0)?;
    Ok(())
}

const TELLS: [Put; 5] = [
    Put::Bits("101001011100", Ok(())),
    Put::Rest("1100"),
    Put::Count(8),
    Put::Bits("1010", Ok(())),
    Put::Count(16),
];

// The pending bits are returned, or memory is refused, and then they are still pending.
#[test]
fn tells_what_is_pending_or_wants_memory(rt: HostRuntime) -> Result<(), Fail> {
    let mut slice = [0; 2];
    let mut writer = Writer::new(Cursor::new(slice.as_mut_slice()));
    let answer = give_steps(&rt, rt.alloc(), 0, &mut writer, &TELLS);
    assert!(rt; slice == [0xA5, 0xCA], "{slice:?}");
    answer
}
