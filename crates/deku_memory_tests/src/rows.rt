//! Plans, and records that are printed a line each: if no memory is found, that is the failure, and
//! what was printed before is a beginning of the lines.

use deku_fields::Number;
use deku_plan::{Plan, WrongWords};
use deku_rows::{Columns, Failure, Form, NoColumns, print_rows};
use deku_testing_values::expecting::{NO_MEMORY, same};
use std::alloc::Global;
use std::io::Cursor;
use std::process::Abort;
use std::test::Fail;

const HALVES: &[&str] = &["kind:u8,big,bits4", "size:u16,big,bits12"];

const CSV: &str = "kind,size\n6,2496\n15,3804\n";

const JSON: &str = "{\"kind\":6,\"size\":2496}\n{\"kind\":15,\"size\":3804}\n";

// Room for the lines.
const PAGE: usize = 128;

// The records of an input are printed as this text, or there was no memory for all of it.
fn expect_lines(
    rt: &impl Abort,
    alloc: Global,
    form: Form,
    input: &[u8],
    text: &str,
) -> Result<(), Fail> {
    let columns = match Columns::parse(alloc, HALVES) {
        Ok(columns) => columns,
        Err(why) => return same(&"columns", &why, &NoColumns::Fault(NO_MEMORY)),
    };
    let mut page = [0; PAGE];
    let mut output = Cursor::new(page.as_mut_slice());
    let answer = print_rows(alloc, &columns, form, &mut Cursor::new(input), &mut output);
    let given = output.position() as usize;
    assert!(rt; given <= PAGE);
    let seen = &page[..given];
    match answer {
        Ok(count) => same(&text, &(count, seen), &(2, text.as_bytes())),
        Err(Failure::Fault(fault)) => {
            let begins = text.as_bytes().starts_with(seen);
            same(&text, &(fault, begins), &(NO_MEMORY, true))
        }
        Err(_) => same(&text, &"another failure", &"OutOfMemory"),
    }
}

#[test]
fn lines_or_no_memory(rt: HostRuntime) -> Result<(), Fail> {
    let csv = Form {
        json: false,
        raw: false,
    };
    expect_lines(&rt, rt.alloc(), csv, b"69c0fedc\n", CSV)
}

#[test]
fn raw_or_no_memory(rt: HostRuntime) -> Result<(), Fail> {
    let raw = Form {
        json: false,
        raw: true,
    };
    expect_lines(&rt, rt.alloc(), raw, &[0x69, 0xC0, 0xFE, 0xDC], CSV)
}

#[test]
fn objects_or_no_memory(rt: HostRuntime) -> Result<(), Fail> {
    let json = Form {
        json: true,
        raw: false,
    };
    expect_lines(&rt, rt.alloc(), json, b"69c0fedc\n", JSON)
}

#[test]
fn plan_or_no_memory(rt: HostRuntime) -> Result<(), Fail> {
    let words = ["u8,big,bits4", "u16,little,bits12"];
    let plan = match Plan::parse(rt.alloc(), &words) {
        Ok(plan) => plan,
        Err(why) => return same(&"plan", &why, &WrongWords::Fault(NO_MEMORY)),
    };
    let mut column = [Number::Unsigned(7); 2];
    if plan.fields().len() != words.len() {
        return same(&"fields", &plan.fields().len(), &words.len());
    }
    let bytes = [0x69, 0xC0, 0xFE];
    match plan.read_column(rt.alloc(), &bytes, 1, &mut column[..1]) {
        Ok(()) => same(
            &"column",
            &column,
            &[Number::Unsigned(0x09C), Number::Unsigned(7)],
        ),
        Err(fault) => same(&"column", &fault, &NO_MEMORY),
    }
}
