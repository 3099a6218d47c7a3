//! Bytes as they were read, and as they were written.

ghost use Rattle.std.specs.Prelude.{◌≡◌, MatchOption};
ghost use Rattle.deku_formats_program.specs.Shown.{IsFirstDifference};

/// The index of the first byte in which the two differ, or the length of the shorter one if it is
/// the beginning of the other. `None` if they are the same.
pub fn first_difference(read: &[u8], written: &[u8]) -> Option<usize>
    ensures { MatchOption result (read.now ≡ written.now) (IsFirstDifference read.now written.now) }
{
    let mut index = 0;
    while index < read.len() && index < written.len() {
        if read[index] != written[index] {
            return Some(index);
        }
        index += 1;
    }
    if read.len() == written.len() {
        None
    } else {
        Some(index)
    }
}
