//! Lengths that are filled in later, as tests with rows.

use crate::same::same_bytes;
use deku_callers::length::record_of;
use std::test::Fail;

// A payload of fewer than 256 bytes, and its record.
const RECORDS: [(&[u8], &[u8]); 3] = [
    (&[0xAA, 0xBB, 0xCC], &[0x03, 0xAA, 0xBB, 0xCC]),
    (&[0xAA], &[0x01, 0xAA]),
    (&[], &[0x00]),
];

#[test]
fn patches_a_length(rt: HostRuntime) -> Result<(), Fail> {
    for (row, (payload, record)) in RECORDS.iter().enumerate() {
        if payload.len() < 256 {
            same_bytes(&rt, row, record_of(rt.alloc(), payload)?.as_slice(), record);
        }
    }
    Ok(())
}
