//! Steps of a stream of bytes that is written, in tables.

use crate::Row;
use deku_bits::error::DekuError;
use deku_testing::refusals::kind_of;
use deku_testing::same::same;
use std::fmt::Debug;
use std::io::{ErrorKind, Seek, Write};
use std::test::Fail;

/// What is done with a stream that is written, and what it returns.
pub enum Set {
    /// `write`
    Some(&'static [u8], Result<usize, ErrorKind>),
    /// `write_all`
    All(&'static [u8], Result<(), ErrorKind>),
    Flush(Result<(), ErrorKind>),
    /// `stream_position`
    Place(u64),
}

// What a write of bytes returns. Memory that was refused is passed on.
fn expect_written<T: PartialEq + Debug + Drop>(
    row: Row,
    answer: Result<T, ErrorKind>,
    want: &Result<T, ErrorKind>,
) -> Result<(), Fail> {
    if answer.as_ref().err() == Some(&ErrorKind::OutOfMemory) && want.is_ok() {
        return Err(DekuError::Io(ErrorKind::OutOfMemory))?;
    }
    same(&row, &answer, want)
}

// One step.
fn set_step<S: Write + Seek>(row: Row, stream: &mut S, step: &Set) -> Result<(), Fail> {
    match step {
        Set::Some(bytes, want) => {
            let answer = kind_of(stream.write(bytes));
            expect_written(row, answer, want)
        }
        Set::All(bytes, want) => {
            let answer = kind_of(stream.write_all(bytes));
            expect_written(row, answer, want)
        }
        Set::Flush(want) => {
            let answer = kind_of(stream.flush());
            expect_written(row, answer, want)
        }
        Set::Place(want) => {
            let answer = kind_of(stream.stream_position());
            expect_written(row, answer, &Ok(*want))
        }
    }
}

/// These steps, one after the other, show what they say. Memory that was refused is handed on.
pub fn set_steps<S: Write + Seek>(case: usize, stream: &mut S, steps: &[Set]) -> Result<(), Fail> {
    for (at, step) in steps.iter().enumerate() {
        set_step((case, at), stream, step)?;
    }
    Ok(())
}
