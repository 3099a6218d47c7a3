//! Progress of a large input, shown on a terminal.
#![tactic(auto)]

use deku_program::{give_parts, give_text};
use itoa::Buffer;
use std::io;
use std::io::{Read, Write};

/// A reader that prints how much of its input is read, in percent, each time that this changes.
#[derive(Drop)]
pub struct Progress<R, E> {
    inner: R,
    errors: E,
    size: u64,
    read: u64,
}

impl<R: Read, E: Write> Progress<R, E> {
    /// Over an input of this size.
    pub fn new(inner: R, errors: E, size: u64) -> Progress<R, E> {
        Progress {
            inner,
            errors,
            size,
            read: 0,
        }
    }

    // How much is read, in percent.
    fn percent(&self) -> u64 {
        let hundreds = self.read as u128 * 100;
        (hundreds / self.size.max(1) as u128).min(100) as u64
    }
}

impl<R: Read, E: Write> Read for Progress<R, E> {
    ghost remaining = { λ p. R.remaining p.inner };

    fn read(&mut self, buf: &mut [u8]) -> io::Result<usize> {
        let before = self.percent();
        let count = self.inner.read(buf)?;
        self.read = self.read.saturating_add(count as u64);
        let after = self.percent();
        if before != after {
            show_percent(&mut self.errors, after);
        }
        Ok(count)
    }
}

// Prints how much is read, over what was printed before.
fn show_percent<E: Write>(errors: &mut E, percent: u64) {
    let mut digits = Buffer::new();
    let _ = give_parts(errors, &["\r", digits.format(percent), "%"]);
    if percent == 100 {
        let _ = give_text(errors, b"\n");
    }
}
