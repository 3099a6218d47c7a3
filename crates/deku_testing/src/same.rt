//! What was returned against what was wanted, in a row of a table.

use crate::bits::are_digits;
use std::fmt::Debug;
use std::test::Fail;

/// What was returned is what was wanted, in the row of this name.
pub fn same<T: PartialEq + Debug>(row: &impl Debug, got: &T, want: &T) -> Result<(), Fail> {
    if *got == *want {
        return Ok(());
    }
    Err(Fail::new(format_args!("{row:?}: {got:?}, and not {want:?}")))
}

/// These are the wanted bytes.
pub fn same_bytes(row: &impl Debug, got: &[u8], want: &[u8]) -> Result<(), Fail> {
    if got == want {
        return Ok(());
    }
    Err(Fail::new(format_args!("{row:?}: {got:?}, and not {want:?}")))
}

/// The bits are these digits. It takes no memory.
pub fn same_digits(row: &impl Debug, bits: &[bool], want: &str) -> Result<(), Fail> {
    if are_digits(bits, want) {
        return Ok(());
    }
    Err(Fail::new(format_args!("{row:?}: {bits:?}, and not {want}")))
}
