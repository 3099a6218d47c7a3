//! The result of a row of a table against the expected one.

use std::fmt::Debug;
use std::process::Abort;

// Checks that the result is the expected one.
pub fn same<T: PartialEq + Debug>(rt: &impl Abort, row: usize, got: &T, want: &T) {
    assert!(rt; *got == *want, "{row}: {got:?}, and not {want:?}");
}

// Checks that these are the expected bytes.
pub fn same_bytes(rt: &impl Abort, row: usize, got: &[u8], want: &[u8]) {
    assert!(rt; got == want, "{row}: {got:?}, and not {want:?}");
}
