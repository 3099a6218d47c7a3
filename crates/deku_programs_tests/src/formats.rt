//! Runs of `formats`: words, the input, and what it returns, prints and complains.

mod runs;

use deku_testing::runs::{Call, Program, expect_lines};
use runs::RUNS;
use std::io::{Read, Write};
use std::test::Fail;

// The program `formats`.
#[derive(Drop)]
struct Formats;

impl Program for Formats {
    fn run<R: Read, W: Write, E: Write>(&self, call: Call<'_, R, W, E>) -> u8 {
        let Call {
            alloc,
            words,
            input,
            output,
            errors,
        } = call;
        deku_formats_program::run(alloc, words, input, output, errors)
    }
}

#[test]
fn ends_as_it_says(rt: HostRuntime) -> Result<(), Fail> {
    expect_lines(rt.alloc(), &Formats, RUNS)
}
