//! What was returned against what was wanted, in a row of a table.

use deku_testing::bits::are_digits;
use std::fmt::Debug;
use std::process::Abort;

/// A case of a table, and a step of it. A case of several tables has the number of its table in
/// front, times a hundred.
pub type Row = (usize, usize);

/// What was returned is what was wanted.
pub fn same<T: PartialEq + Debug>(rt: &impl Abort, row: Row, got: &T, want: &T) {
    assert!(rt; *got == *want, "{row:?}: {got:?}, and not {want:?}");
}

/// These are the wanted bytes.
pub fn same_bytes(rt: &impl Abort, row: Row, got: &[u8], want: &[u8]) {
    assert!(rt; got == want, "{row:?}: {got:?}, and not {want:?}");
}

/// The bits are these digits. It takes no memory.
pub fn same_digits(rt: &impl Abort, row: Row, bits: &[bool], want: &str) {
    assert!(rt; are_digits(bits, want), "{row:?}: {bits:?}, and not {want}");
}
