//! Shows what is in each packet of a capture.
#![tactic(auto)]

use clap::{Arg, ArgAction, ArgMatches, Command};
use deku_packets_program::{Wanted, run};
use deku_progress::Progress;
use std::alloc::{AllocError, Global};
use std::fs::File;
use std::io::{BufReader, BufWriter, IsTerminal, Read};
use std::process::ExitCode;
use std::{env, io};

const ABOUT: &str = "Shows what is in each packet of a pcap capture";

// From this size on progress is shown on a terminal.
const LARGE: u64 = 64 << 20;

fn main(rt: HostRuntime) -> io::Result<ExitCode> {
    let words: Vec<String> = env::args(&rt)?.collect(rt.alloc())?;
    let Ok(command) = command(rt.alloc()) else {
        return Ok(ExitCode::from(1));
    };
    match command.try_get_matches_from(words.as_slice()) {
        Ok(matches) => Ok(ExitCode::from(show(&rt, &matches)?)),
        Err(error) => {
            error.print(&rt)?;
            Ok(ExitCode::from(if error.use_stderr() { 2 } else { 0 }))
        }
    }
}

fn command<'a>(alloc: Global) -> Result<Command<'a>, AllocError> {
    let file = Arg::new(alloc, "FILE")
        .required(true)
        .help("The capture; - is standard input");
    let command = Command::new(alloc, "packets").about(ABOUT).arg(file)?;
    let json = flag(alloc, "json").help("Prints each packet as a JSON object with all fields");
    let command = command.arg(json)?;
    let check = flag(alloc, "check").help(
        "Writes each packet back, and says whether that gives the same bytes",
    );
    command.arg(check)
}

// An option without a value.
fn flag<'a>(alloc: Global, name: &'a str) -> Arg<'a> {
    Arg::new(alloc, name).long(name).action(ArgAction::SetTrue)
}

// Shows the capture that the words name. Returns the status.
fn show(rt: &HostRuntime, matches: &ArgMatches<'_>) -> io::Result<u8> {
    let name = matches.get_str("FILE").unwrap_or("-");
    if name == "-" {
        let mut input = BufReader::new(rt.alloc(), rt.stdin())?;
        return show_input(rt, matches, &mut input);
    }
    let file = match File::open(rt, name) {
        Ok(file) => file,
        Err(error) => {
            eprintln!(rt; "error: {name}: {error}")?;
            return Ok(1);
        }
    };
    let size = file.metadata()?.len();
    if size > LARGE && rt.stderr().is_terminal() {
        let file = Progress::new(file, rt.stderr(), size);
        let mut input = BufReader::new(rt.alloc(), file)?;
        return show_input(rt, matches, &mut input);
    }
    let mut input = BufReader::new(rt.alloc(), file)?;
    show_input(rt, matches, &mut input)
}

// Shows the packets of an input.
fn show_input<R: Read>(
    rt: &HostRuntime,
    matches: &ArgMatches<'_>,
    input: &mut R,
) -> io::Result<u8> {
    let wanted = Wanted {
        json: matches.get_flag("json"),
        check: matches.get_flag("check"),
    };
    let mut output = BufWriter::new(rt.alloc(), rt.stdout())?;
    Ok(run(rt.alloc(), wanted, input, &mut output, &mut rt.stderr()))
}
