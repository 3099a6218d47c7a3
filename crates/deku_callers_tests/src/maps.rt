//! Maps and sets with a count, as tests with rows.

use crate::same::same;
use deku_callers::maps::{kept_once, last_of_two, value_at};
use std::test::Fail;

// Three pairs, a key, and the value at it.
const PAIRS: [([(u8, u16); 3], u8, Option<u16>); 5] = [
    ([(1, 0x0101), (2, 0x0303), (1, 0x0202)], 1, Some(0x0202)),
    ([(1, 0x0101), (2, 0x0303), (1, 0x0202)], 2, Some(0x0303)),
    ([(1, 0x0101), (2, 0x0303), (1, 0x0202)], 3, None),
    ([(7, 1), (7, 2), (7, 3)], 7, Some(3)),
    ([(7, 1), (7, 2), (0, 3)], 7, Some(2)),
];

#[test]
fn a_key_has_its_last_value(rt: HostRuntime) -> Result<(), Fail> {
    for (row, (pairs, key, want)) in PAIRS.iter().enumerate() {
        let [first, second, third] = *pairs;
        let value = value_at(rt.alloc(), first, second, third, *key)?;
        same(&rt, row, &value, want);
    }
    let last = last_of_two(rt.alloc(), 5, 0x0505, (6, 0x0606), 0x0707)?;
    same(&rt, 5, &last, &Some(0x0707));
    Ok(())
}

// Bytes, one of them, whether a set has it, and how many it has.
const BYTES: [(&[u8], u8, bool, usize); 5] = [
    (&[], 7, false, 0),
    (&[7], 7, true, 1),
    (&[7, 7], 7, true, 1),
    (&[7, 8, 7], 8, true, 2),
    (&[7, 8, 7], 9, false, 2),
];

#[test]
fn a_byte_is_kept_once(rt: HostRuntime) -> Result<(), Fail> {
    for (row, (items, byte, has, count)) in BYTES.iter().enumerate() {
        let given = items.to_vec(rt.alloc())?;
        if given.len() < 16 {
            let seen = kept_once(rt.alloc(), &given, *byte)?;
            same(&rt, row, &seen, &(*has, *count));
        }
    }
    Ok(())
}
