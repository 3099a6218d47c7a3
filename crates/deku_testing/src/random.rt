//! Numbers without a pattern.

/// A row of numbers that looks like chance and is the same in each run. No number of it is 0.
#[derive(Drop)]
pub struct Random(u64);

impl Random {
    /// A row from its beginning.
    pub fn new() -> Random {
        Random(0x9E37_79B9_7F4A_7C15)
    }

    /// The next number.
    pub fn next(&mut self) -> u64 {
        let mut number = self.0;
        number ^= number << 13;
        number ^= number >> 7;
        number ^= number << 17;
        self.0 = number;
        number
    }

    /// The next number of 128 bits.
    pub fn next_wide(&mut self) -> u128 {
        let high = self.next() as u128;
        let low = self.next() as u128;
        (high << 64) | low
    }
}
