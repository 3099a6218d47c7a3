//! Runs of `layout`: words, and what it returns, prints and complains.

use deku_testing::runs::{Call, Program, Run, expect_run};
use std::alloc::Global;
use std::io::{Read, Write};
use std::test::Fail;

/// The program `layout`.
#[derive(Drop)]
pub struct Layout;

impl Program for Layout {
    fn run<R: Read, W: Write, E: Write>(&self, call: Call<'_, R, W, E>) -> u8 {
        let Call {
            alloc,
            words,
            output,
            errors,
            ..
        } = call;
        deku_picture::run(alloc, words, output, errors)
    }
}

/// Each of the runs ends so.
pub fn expect_runs(alloc: Global, runs: &[Run<'_>]) -> Result<(), Fail> {
    for run in runs {
        expect_run(alloc, &Layout, run)?;
    }
    Ok(())
}
