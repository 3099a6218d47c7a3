//! Prints consecutive records, one per line, by words that name their fields.
#![tactic(auto)]

use clap::{Arg, ArgAction, ArgMatches, Command};
use deku_program::{give_parts, tell_fault};
use deku_progress::Progress;
use deku_rows::{Columns, Form, NoColumns, print_rows, tell};
use std::alloc::{AllocError, Global};
use std::fs::File;
use std::io::{IsTerminal, Read};
use std::process::ExitCode;
use std::{env, io};

const ABOUT: &str = "Prints consecutive records, one per line, as CSV or JSON";

// From this size on progress is shown on a terminal.
const LARGE: u64 = 64 << 20;

fn main(rt: HostRuntime) -> io::Result<ExitCode> {
    let words: Vec<String> = env::args(&rt)?.collect(rt.alloc())?;
    let Ok(command) = command(rt.alloc()) else {
        return Ok(ExitCode::from(1));
    };
    match command.try_get_matches_from(words.as_slice()) {
        Ok(matches) => Ok(ExitCode::from(run(&rt, &matches)?)),
        Err(error) => {
            error.print(&rt)?;
            Ok(ExitCode::from(if error.use_stderr() { 2 } else { 0 }))
        }
    }
}

fn command<'a>(alloc: Global) -> Result<Command<'a>, AllocError> {
    let command = Command::new(alloc, "rows").about(ABOUT);
    let command = flag(alloc, command, "json", "Prints JSON objects instead of CSV")?;
    let command = flag(alloc, command, "raw", "Reads bytes, not hexadecimal text")?;
    let from = Arg::new(alloc, "from")
        .long("from")
        .value_name("FILE")
        .action(ArgAction::Set)
        .help("Reads this file instead of standard input");
    let command = command.arg(from)?;
    let specs = Arg::new(alloc, "SPEC").required(true).num_args(1..).help(
        "The fields of a record in order, each as SPEC or NAME:SPEC",
    );
    command.arg(specs)
}

// Adds an option without a value.
fn flag<'a>(
    alloc: Global,
    command: Command<'a>,
    name: &'a str,
    help: &'a str,
) -> Result<Command<'a>, AllocError> {
    let option = Arg::new(alloc, name)
        .long(name)
        .action(ArgAction::SetTrue)
        .help(help);
    command.arg(option)
}

// Prints what the words ask for. Returns the status.
fn run(rt: &HostRuntime, matches: &ArgMatches<'_>) -> io::Result<u8> {
    let words = matches.get_strs("SPEC").unwrap_or(&[]);
    let columns = match Columns::parse(rt.alloc(), words) {
        Ok(columns) => columns,
        Err(why) => return refuse(rt, &why),
    };
    let form = Form {
        json: matches.get_flag("json"),
        raw: matches.get_flag("raw"),
    };
    match matches.get_str("from") {
        None => print(rt, &columns, form, &mut rt.stdin()),
        Some(path) => match File::open(rt, path) {
            Ok(file) => print_file(rt, &columns, form, file),
            Err(error) => {
                eprintln!(rt; "error: {path}: {error}")?;
                Ok(1)
            }
        },
    }
}

// Prints the records of a file, and how much of it is read, if it is large. Returns the status.
fn print_file(rt: &HostRuntime, columns: &Columns, form: Form, mut file: File) -> io::Result<u8> {
    let size = file.metadata()?.len();
    if size > LARGE && rt.stderr().is_terminal() {
        let mut input = Progress::new(file, rt.stderr(), size);
        return print(rt, columns, form, &mut input);
    }
    print(rt, columns, form, &mut file)
}

// Prints the records of an input. Returns the status.
fn print<R: Read>(
    rt: &HostRuntime,
    columns: &Columns,
    form: Form,
    input: &mut R,
) -> io::Result<u8> {
    match print_rows(rt.alloc(), columns, form, input, &mut rt.stdout()) {
        Ok(_) => Ok(0),
        Err(failure) => {
            tell(&mut rt.stderr(), &failure)?;
            Ok(1)
        }
    }
}

// Prints why words make no columns. Returns the status.
fn refuse(rt: &HostRuntime, why: &NoColumns<'_>) -> io::Result<u8> {
    match why {
        NoColumns::NoField(word) => eprintln!(rt; "error: {word:?} is not a field")?,
        NoColumns::SameName(word) => eprintln!(rt; "error: {word:?} repeats a field name")?,
        NoColumns::NoBits => eprintln!(rt; "error: a record has no bits")?,
        NoColumns::Fault(fault) => tell_fault(&mut rt.stderr(), fault, &[])?,
    }
    Ok(2)
}
