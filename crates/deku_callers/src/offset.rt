//! An offset that is followed.

ghost use Rattle.std.specs.Prelude.{◌≡◌, ◌+◌, ◌*◌, ◌≤◌, Some, length, IfOk};
ghost use Rattle.std.specs.Prelude.{slice_get, slice_index};

use deku_bits::ctx::Order;
use deku_bits::error::DekuError;
use deku_bits::reader::Reader;
use std::alloc::Global;
use std::io::{Cursor, Seek, SeekFrom};

/// The first byte of the record whose offset is in the first two bytes, the high byte first.
///
/// It fails with `Incomplete` if the bytes end before it.
///
/// ```text
/// byte_of_record(alloc, &[0x00, 0x04, 0xAA, 0xBB, 0xCC])?    // 0xCC
/// ```
pub fn byte_of_record(alloc: Global, bytes: &[u8]) -> Result<u8, DekuError>
    ensures { IfOk result (λ b. (2 ≤ length bytes.now) × (slice_get bytes.now
        (256 * slice_index bytes.now 0 + slice_index bytes.now 1) ≡ Some b)) }
{
    let mut reader = Reader::new(alloc, Cursor::new(bytes));
    let mut head = [0; 2];
    reader.read_bytes_const_into(&mut head, Order::Msb0)?;
    let place = 256 * (head[0] as u64) + (head[1] as u64);
    reader.seek(SeekFrom::Start(place))?;
    let mut byte = [0; 1];
    reader.read_bytes_const_into(&mut byte, Order::Msb0)?;
    Ok(byte[0])
}
