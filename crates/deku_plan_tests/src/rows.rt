//! Records, printed a line each.

use crate::table::{Bytes, MOST, five, known, words};
use deku::error::DekuError;
use deku_progress::Progress;
use deku_rows::{Columns, Form, NoColumns, print_rows, tell};
use deku_testing_values::expecting::{NO_MEMORY, same};
use std::alloc::Global;
use std::io::{Cursor, Read};
use std::test::Fail;

const CSV: Form = Form {
    json: false,
    raw: false,
};

const JSON: Form = Form {
    json: true,
    raw: false,
};

const RAW: Form = Form {
    json: false,
    raw: true,
};

// The form of this name.
fn form_of(name: &str) -> Option<Form> {
    match name {
        "csv" => Some(CSV),
        "json" => Some(JSON),
        "raw" => Some(RAW),
        _ => None,
    }
}

// The records of an input are printed as this text, and then this line is told.
fn expect_printed(
    alloc: Global,
    line: &str,
    words: &[&str],
    form: Form,
    input: &[u8],
    wanted: (&str, &str),
) -> Result<(), Fail> {
    let columns = match Columns::parse(alloc, words) {
        Ok(columns) => columns,
        Err(why) => return same(&line, &Some(why), &None),
    };
    let mut output: Vec<u8> = Vec::new(alloc);
    let mut errors: Vec<u8> = Vec::new(alloc);
    let answer = print_rows(alloc, &columns, form, &mut Cursor::new(input), &mut output);
    if let Err(failure) = answer {
        tell(&mut errors, &failure)?;
    }
    let seen = (output.as_slice(), errors.as_slice());
    let (text, told) = wanted;
    same(&line, &seen, &(text.as_bytes(), told.as_bytes()))
}

// Words, a form, the input, what is printed, and the line of the error stream, if there is one. A
// semicolon stands for a newline. The input of the form `raw` is in hexadecimal.
const PRINTED: &str = "\
    kind:u8,big,bits4 size:u16,big,bits12 | csv | 69c0FEDC; | kind,size;6,2496;15,3804; |
    kind:u8,big,bits4 size:u16,big,bits12 | csv | 69 c0;FE DC | kind,size;6,2496;15,3804; |
    kind:u8,big,bits4 size:u16,big,bits12 | json | 69c0FEDC \
        | {\"kind\":6,\"size\":2496};{\"kind\":15,\"size\":3804}; |
    kind:u8,big,bits4 size:u16,big,bits12 | raw | 69 C0 | kind,size;6,2496; |
    kind:u8,big,bits4 size:u16,big,bits12 | csv | | kind,size; |
    kind:u8,big,bits4 size:u16,big,bits12 | csv | 69c0FE | kind,size;6,2496; \
        | error: record 2 is cut short: 8 of its 16 bits are there, from bit 16 on;
    kind:u8,big,bits4 size:u16,big,bits12 | csv | 69c | kind,size; | error: bad hexadecimal text;
    kind:u8,big,bits4 size:u16,big,bits12 | csv | 69xx | kind,size; | error: bad hexadecimal text;
    u8,big,bits4 i8,big,bits8 | csv | 69cfFE | 1,2;6,-100;15,-2; |
    u8 | csv | 01020304050607 | 1;1;2;3;4;5;6;7; |
    wide:u128,big | json | ffffffffffffffffffffffffffffffff \
        | {\"wide\":340282366920938463463374607431768211455}; |";

// Records are printed as a line says.
fn expect_line(alloc: Global, line: &str) -> Result<(), Fail> {
    let (list, name, input, text, told) = known(line, five(line))?;
    let mut places = [""; MOST];
    let words = known(line, words(list, &mut places))?;
    let form = known(line, form_of(name))?;
    if !form.raw {
        return expect_printed(alloc, line, words, form, input.as_bytes(), (text, told));
    }
    let input = known(line, Bytes::parse(input))?;
    expect_printed(alloc, line, words, form, input.as_slice(), (text, told))
}

#[test]
fn prints_rows(rt: HostRuntime) -> Result<(), Fail> {
    for line in PRINTED.lines() {
        let line = line.replace(rt.alloc(), ';', "\n")?;
        expect_line(rt.alloc(), line.as_str())?;
    }
    Ok(())
}

// Why words make no columns, if they make none. If memory runs out, the test fails.
fn refusal<'a>(
    columns: Result<Columns, NoColumns<'a>>,
) -> Result<Option<NoColumns<'a>>, DekuError> {
    match columns {
        Ok(_) => Ok(None),
        Err(NoColumns::Fault(error)) if error == NO_MEMORY => Err(error),
        Err(why) => Ok(Some(why)),
    }
}

#[test]
fn refuses_words(rt: HostRuntime) -> Result<(), Fail> {
    let wide = DekuError::InvalidParam("bit size is larger than input");
    let rows: [(&[&str], NoColumns<'_>); 5] = [
        (&["u9"], NoColumns::NoField("u9")),
        (&["a:u8", "b:u8", "a:u16"], NoColumns::SameName("a:u16")),
        (&["2:u8", "u8"], NoColumns::SameName("u8")),
        (&["u8,bits0"], NoColumns::NoBits),
        (&["u8,bits9"], NoColumns::Fault(wide)),
    ];
    for (words, wanted) in rows {
        let seen = refusal(Columns::parse(rt.alloc(), words))?;
        same(&words, &seen, &Some(wanted))?;
    }
    Ok(())
}

// A text is passed on as it is. If it is a part of an input that is said to have this size, this
// progress is shown.
fn expect_progress(alloc: Global, size: u64, wanted: &str) -> Result<(), Fail> {
    let text: &[u8] = b"01020304050607";
    let mut read = [0; 20];
    let mut errors: Vec<u8> = Vec::new(alloc);
    let count = Progress::new(Cursor::new(text), &mut errors, size).read(&mut read)?;
    same(&size, &read.get(..count), &Some(text))?;
    same(&size, &errors.as_slice(), &wanted.as_bytes())
}

#[test]
fn shows_progress(rt: HostRuntime) -> Result<(), Fail> {
    for (size, wanted) in [(800, "\r1%"), (160, "\r8%"), (4000, "")] {
        expect_progress(rt.alloc(), size, wanted)?;
    }
    Ok(())
}
