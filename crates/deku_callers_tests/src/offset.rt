//! Offsets that are followed, as tests with rows.

use crate::same::same;
use deku_bits::error::{DekuError, NeedSize};
use deku_callers::offset::byte_of_record;

// Bytes, and the byte of the record, or how many bits the input did not have.
const RECORDS: [(&[u8], Result<u8, usize>); 5] = [
    (&[0x00, 0x04, 0xAA, 0xBB, 0xCC], Ok(0xCC)),
    (&[0x00, 0x02, 0xAA, 0xBB, 0xCC], Ok(0xAA)),
    (&[0x00, 0x00], Ok(0x00)),
    (&[0x00, 0x05, 0xAA, 0xBB, 0xCC], Err(8)),
    (&[0x01], Err(16)),
];

#[test]
fn follows_an_offset(rt: HostRuntime) {
    for (row, (bytes, answer)) in RECORDS.iter().enumerate() {
        let want = match answer {
            Ok(byte) => Ok(*byte),
            Err(bits) => Err(DekuError::Incomplete(NeedSize::new(*bits))),
        };
        same(&rt, row, &byte_of_record(rt.alloc(), bytes), &want);
    }
}
