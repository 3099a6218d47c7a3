//! Numbers with a count, and after a byte that counts them, as tests with rows.

use crate::same::{same, same_bytes};
use deku::error::{DekuError, NeedSize};
use deku_callers::counted::{numbers_of, record_of, record_there_and_back, there_and_back};
use std::test::Fail;

// Numbers, and their record.
const RECORDS: [(&[u16], &[u8]); 4] = [
    (&[], &[0x00]),
    (&[0x0102], &[0x01, 0x01, 0x02]),
    (&[0xC0FE, 1], &[0x02, 0xC0, 0xFE, 0x00, 0x01]),
    (&[7, 7, 7], &[0x03, 0x00, 0x07, 0x00, 0x07, 0x00, 0x07]),
];

#[test]
fn numbers_there_and_back(rt: HostRuntime) -> Result<(), Fail> {
    for (row, (numbers, record)) in RECORDS.iter().enumerate() {
        let given = numbers.to_vec(rt.alloc())?;
        if given.len() < 16 {
            let bytes = record_of(rt.alloc(), &given)?;
            same_bytes(&rt, row, bytes.as_slice(), record);
            let read = there_and_back(rt.alloc(), &given)?;
            let again = record_there_and_back(rt.alloc(), &given)?;
            let seen = (read.as_slice(), again.as_slice());
            same(&rt, row, &seen, &(*numbers, *numbers));
        }
    }
    Ok(())
}

// Bytes that end before the last of the numbers, and how many bits were asked for.
const SHORT: [(&[u8], usize); 3] = [(&[], 8), (&[0x01], 16), (&[0x02, 0xC0, 0xFE, 0x00], 16)];

#[test]
fn too_few_numbers(rt: HostRuntime) {
    for (row, (bytes, bits)) in SHORT.iter().enumerate() {
        let want = DekuError::Incomplete(NeedSize::new(*bits));
        let refusal = numbers_of(rt.alloc(), bytes).err();
        same(&rt, row, &refusal, &Some(want));
    }
}
