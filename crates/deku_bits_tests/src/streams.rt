//! Steps of a stream of bytes that is read, in tables.

use crate::same::{Row, same};
use deku_testing::refusals::kind_of;
use std::io::{ErrorKind, Read, Seek, SeekFrom};
use std::process::Abort;

/// What is done with a stream that is read, and what it returns. A number in front is how many
/// bytes are asked for, at most four.
pub enum Get {
    /// `read`
    Some(usize, Result<&'static [u8], ErrorKind>),
    /// `read_exact`
    Exact(usize, Result<&'static [u8], ErrorKind>),
    Seek(SeekFrom, Result<u64, ErrorKind>),
    /// `stream_position`
    Place(u64),
}

// What was read, followed by zeros, or why it was refused.
fn same_front(rt: &impl Abort, row: Row, all: &[u8; 4], want: &Result<&[u8], ErrorKind>) {
    let bytes: &[u8] = match want {
        Ok(bytes) => bytes,
        Err(_) => &[],
    };
    for (at, byte) in all.iter().enumerate() {
        let wanted = if at < bytes.len() { bytes[at] } else { 0 };
        same(rt, row, byte, &wanted);
    }
}

// What a read of some bytes returns.
fn expect_some(
    rt: &impl Abort,
    row: Row,
    answer: Result<usize, ErrorKind>,
    want: &Result<&[u8], ErrorKind>,
) {
    let wanted = match want {
        Ok(bytes) => Ok(bytes.len()),
        Err(kind) => Err(*kind),
    };
    same(rt, row, &answer, &wanted);
}

// One step. The bytes of a whole read that is refused are open.
fn get_step<S: Read + Seek>(rt: &impl Abort, row: Row, stream: &mut S, step: &Get) {
    let mut all = [0; 4];
    match step {
        Get::Some(amt, want) => {
            assert!(rt; *amt <= 4);
            expect_some(rt, row, kind_of(stream.read(&mut all[..*amt])), want);
            same_front(rt, row, &all, want);
        }
        Get::Exact(amt, want) => {
            assert!(rt; *amt <= 4);
            let answer = kind_of(stream.read_exact(&mut all[..*amt]));
            same(rt, row, &answer.err(), &want.err());
            if want.is_ok() {
                same_front(rt, row, &all, want);
            }
        }
        Get::Seek(to, want) => {
            let answer = kind_of(stream.seek(*to));
            same(rt, row, &answer, want);
        }
        Get::Place(want) => {
            let answer = kind_of(stream.stream_position());
            same(rt, row, &answer, &Ok(*want));
        }
    }
}

/// These steps, one after the other, show what they say.
pub fn get_steps<S: Read + Seek>(rt: &impl Abort, case: usize, stream: &mut S, steps: &[Get]) {
    for (at, step) in steps.iter().enumerate() {
        get_step(rt, (case, at), stream, step);
    }
}
