//! Runs of `fields`: words, the input, and what it returns, prints and complains.

mod runs;

use deku_testing::runs::{
    Broken, Call, Program, Run, arguments, expect_end, expect_lines, expect_run,
};
use runs::{NO_FIELDS, NO_ITEMS, RUNS};
use std::alloc::Global;
use std::io::{Cursor, Read, Write};
use std::test::Fail;

const USAGE: &str = "usage: fields read|write SPEC..\n";

// The program `fields`.
#[derive(Drop)]
struct Fields;

impl Program for Fields {
    fn run<R: Read, W: Write, E: Write>(&self, call: Call<'_, R, W, E>) -> u8 {
        let Call {
            alloc,
            words,
            input,
            output,
            errors,
        } = call;
        deku_fields::run(alloc, words, input, output, errors)
    }
}

#[test]
fn ends_as_it_says(rt: HostRuntime) -> Result<(), Fail> {
    expect_lines(rt.alloc(), &Fields, RUNS)
}

// After this first word each of the words, a line each, ends a run with the usage.
fn expect_usage(alloc: Global, first: &str, words: &str) -> Result<(), Fail> {
    for word in words.lines() {
        let both = format!(in alloc; "/{first}/{word}")?;
        expect_run(alloc, &Fields, &Run::complaining(both.as_str(), 2, USAGE))?;
    }
    Ok(())
}

#[test]
fn reads_no_other_field(rt: HostRuntime) -> Result<(), Fail> {
    expect_usage(rt.alloc(), "read", NO_FIELDS)
}

#[test]
fn writes_no_other_item(rt: HostRuntime) -> Result<(), Fail> {
    expect_usage(rt.alloc(), "write", NO_ITEMS)
}

#[test]
fn tells_of_failing_streams(rt: HostRuntime) -> Result<(), Fail> {
    let alloc = rt.alloc();
    let fault = "error: io errorr: Other\n";
    let mut output = Cursor::new([0u8; 8]);
    let unread = Run::complaining("/read/u8", 1, fault);
    expect_end(alloc, &Fields, &unread, &mut Broken, &mut output)?;
    let usage = Run::complaining("/read/u9", 2, USAGE);
    expect_end(alloc, &Fields, &usage, &mut Broken, &mut output)?;
    assert_eq!(rt; output.position(), 0);
    let unwritten = Run::complaining("/write/u8=1", 1, fault);
    expect_end(alloc, &Fields, &unwritten, &mut "".as_bytes(), &mut Broken)
}

#[test]
fn ends_though_nobody_listens(rt: HostRuntime) -> Result<(), Fail> {
    let words = arguments(rt.alloc(), "/write/u9=1")?;
    let status = deku_fields::run(
        rt.alloc(),
        words.as_slice(),
        &mut Broken,
        &mut Broken,
        &mut Broken,
    );
    assert_eq!(rt; status, 2);
    Ok(())
}
