//! Numbers that are written from the highest bit down, with room for eight bytes in memory.

use deku_bits::ctx::Order::{Lsb0, Msb0};
use deku_bits::device::Sink;
use deku_bits::writer::Writer;
use deku_testing::same::same;
use std::io::Cursor;
use std::process::Abort;
use std::test::Fail;

// Bits that are written first, in `Lsb0`; numbers of so many bits, and whether each is written;
// then how many bits are counted, and how many are pending.
type Row = (&'static [bool], &'static [(u64, usize, bool)], usize, usize);

// After forty bits fewer than eight bytes of room are left. No number is written after bits of the
// other order.
const ROWS: [Row; 2] = [
    (
        &[],
        &[
            (0xABC, 12, true),
            (0, 0, false),
            (0xD, 4, true),
            (0xEF01, 16, true),
            (1, 3, true),
            (3, 5, true),
            (0x45, 8, false),
        ],
        40,
        0,
    ),
    (&[true, false], &[(0x45, 8, false)], 0, 2),
];

// A vector has no bytes.
const NO_ROOM: Row = (&[], &[(0xABCD, 16, false)], 0, 0);

// Each number is written if it should be; the sink then.
fn lay_numbers<W: Sink + Drop>(rt: &impl Abort, sink: W, row: &Row) -> Result<W, Fail> {
    let (front, numbers, count, pending) = row;
    let mut writer = Writer::new(sink);
    writer.write_bits_order(front, Lsb0)?;
    for (number, n, is_laid) in *numbers {
        assert!(rt; *n < 64 && *number < 1 << *n);
        same(
            &(front.len(), *n),
            &writer.try_write_number(*number, *n, Msb0),
            is_laid,
        )?;
    }
    let left = (writer.bits_written(), writer.leftover().0.len());
    same(&(front.len(), 64), &left, &(*count, *pending))?;
    Ok(writer.into_inner())
}

const LAID: [u8; 12] = [
    0xAB, 0xCD, 0xEF, 0x01, 0x23, 0xA6, 0xA6, 0xA6, 0xA6, 0xA6, 0xA6, 0xA6,
];

#[test]
fn lays_numbers_at_hand(rt: HostRuntime) -> Result<(), Fail> {
    for (row, (want, place)) in ROWS.iter().zip([(LAID, 5), ([0xA6; 12], 0)]) {
        let mut room = [0xA6; 12];
        let sink = lay_numbers(&rt, Cursor::new(room.as_mut_slice()), row)?;
        let seen = (sink.position(), room);
        same(&(row.0.len(), 65), &seen, &(place, want))?;
    }
    Ok(())
}

#[test]
fn lays_no_number_where_a_vector_has_no_bytes(rt: HostRuntime) -> Result<(), Fail> {
    let sink = lay_numbers(&rt, Cursor::new(Vec::new(rt.alloc())), &NO_ROOM)?;
    same(&(0, 1), &sink.into_inner().len(), &0)
}
