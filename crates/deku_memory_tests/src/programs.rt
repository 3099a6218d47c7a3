//! Runs of `fields` and `layout`: if no memory is found a run ends with 1 and says so, and its
//! output is as it was.

use deku_picture::{Cell, rows};
use deku_testing::runs::arguments;
use deku_testing_values::expecting::same;
use std::alloc::Global;
use std::io::Cursor;
use std::process::Abort;
use std::test::Fail;

const NOTHING: &[u8] = &[];

const NO_MEMORY: &[u8] = b"error: io errorr: OutOfMemory\n";

const TWO_HALVES: &str = " byte 0
 7 6 5 4 3 2 1 0
+-------+-------+
|  f1   |  f2   |
| 3..0  | 3..0  |
|0 1 1 0|1 0 0 1|
+-------+-------+

f1 u8,big,bits4 6
f2 u8,big,bits4 9
";

// Room for what a run prints, and for its errors.
const PAGE: usize = 512;

// A run's status, output and complaints: it gave all of the text, or it found no memory, and then
// gave nothing.
fn expect_end(words: &str, seen: (u8, &[u8], &[u8]), text: &str) -> Result<(), Fail> {
    match seen {
        (0, given, told) => same(&words, &(given, told), &(text.as_bytes(), NOTHING)),
        _ => same(&words, &seen, &(1, NOTHING, NO_MEMORY)),
    }
}

// A program that is run.
#[derive(Clone, Copy)]
enum Program {
    // `fields`, over this input.
    Fields(&'static str),
    Layout,
}

impl Program {
    // The status of a run.
    fn run(
        &self,
        alloc: Global,
        args: &[String],
        output: &mut Cursor<&mut [u8]>,
        errors: &mut Cursor<&mut [u8]>,
    ) -> u8 {
        match self {
            Program::Fields(input) => {
                let mut bytes = input.as_bytes();
                deku_fields::run(alloc, args, &mut bytes, output, errors)
            }
            Program::Layout => deku_picture::run(alloc, args, output, errors),
        }
    }
}

// The program, run on words, gives this text, or there was no memory for it.
fn expect_run(
    rt: &impl Abort,
    alloc: Global,
    program: Program,
    words: &str,
    text: &str,
) -> Result<(), Fail> {
    let args = arguments(alloc, words)?;
    let (mut page, mut complaints) = ([0; PAGE], [0; PAGE]);
    let mut output = Cursor::new(page.as_mut_slice());
    let mut errors = Cursor::new(complaints.as_mut_slice());
    let status = program.run(alloc, args.as_slice(), &mut output, &mut errors);
    let (given, told) = (output.position() as usize, errors.position() as usize);
    assert!(rt; given <= PAGE && told <= PAGE);
    let seen = (status, &page[..given], &complaints[..told]);
    expect_end(words, seen, text)
}

#[test]
fn writes_or_no_memory(rt: HostRuntime) -> Result<(), Fail> {
    let words = "/write/u8,big,bits4=6/u8,big,bits4=9/u16,big=49406";
    expect_run(&rt, rt.alloc(), Program::Fields(""), words, "69c0fe\n")
}

#[test]
fn reads_or_no_memory(rt: HostRuntime) -> Result<(), Fail> {
    let fields = Program::Fields("69c0fe\n");
    let words = "/read/u8,big,bits4/u8,big,bits4/u16,big";
    expect_run(&rt, rt.alloc(), fields, words, "6\n9\n49406\nbits 24\n")
}

#[test]
fn draws_or_no_memory(rt: HostRuntime) -> Result<(), Fail> {
    let words = "/--bytes/69/u8,big,bits4/u8,big,bits4";
    expect_run(&rt, rt.alloc(), Program::Layout, words, TWO_HALVES)
}

// A cell of padding.
fn padding(width: usize) -> Cell {
    Cell { first: None, width }
}

// Rows and cells have no other refusal, so it is handed on.
#[test]
fn rows_or_no_memory(rt: HostRuntime) -> Result<(), Fail> {
    let seen = rows(rt.alloc(), &[None; 40])?;
    assert_eq!(rt; seen.len(), 2);
    let (first, second) = ([padding(32)], [padding(8)]);
    let cells = (seen[0].as_slice(), seen[1].as_slice());
    same(&"rows", &cells, &(first.as_slice(), second.as_slice()))
}
