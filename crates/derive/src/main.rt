//! Prints a module for a description of records in Rust with deku's attributes, or says all that is
//! wrong with the description.
#![tactic(auto)]

use clap::{Arg, ArgAction, ArgMatches, Command, Error};
use deku_derive::making::{Made, make, make_answers, module_path, proofs_of};
use deku_exports::{Wanted, make_for_c};
use deku_tokens::place::first_difference;
use std::alloc::{AllocError, Global};
use std::process::ExitCode;
use std::{env, fs, io};

const ABOUT: &str = "Prints the module for records described in Rust with deku's attributes";

fn main(rt: HostRuntime) -> io::Result<ExitCode> {
    let words: Vec<String> = env::args(&rt)?.collect(rt.alloc())?;
    let Ok(command) = command(rt.alloc()) else {
        return Ok(ExitCode::from(1));
    };
    let matches = match command.try_get_matches_from(words.as_slice()) {
        Ok(matches) => matches,
        Err(error) => {
            error.print(&rt)?;
            return Ok(ExitCode::from(if error.use_stderr() { 2 } else { 0 }));
        }
    };
    Ok(ExitCode::from(if run(&rt, &matches)? { 0 } else { 1 }))
}

fn command<'a>(alloc: Global) -> Result<Command<'a>, Error> {
    let file = Arg::new(alloc, "FILE")
        .required(true)
        .help("The description; - is standard input");
    let module = Arg::new(alloc, "MODULE")
        .requires_arg("check")?
        .help("With --check, the module to compare");
    let output = Arg::new(alloc, "output")
        .short('o')
        .long("output")
        .value_name("MODULE")
        .action(ArgAction::Set)
        .conflicts_with("check")?
        .help("Writes the module there, and its proof beside src, if it needs one");
    let command = Command::new(alloc, "derive").about(ABOUT);
    options(alloc, command.arg(file)?.arg(module)?.arg(output)?)
}

// The command with the words that do not name files.
fn options<'a>(alloc: Global, command: Command<'a>) -> Result<Command<'a>, Error> {
    let path = Arg::new(alloc, "module")
        .long("module")
        .value_name("NAME::MODULE")
        .action(ArgAction::Set)
        .help("The crate and the module, for enums; -o crates/NAME/src/MODULE.rt gives them too");
    let check = Arg::new(alloc, "check")
        .long("check")
        .action(ArgAction::SetTrue)
        .requires_arg("MODULE")?
        .help("Says whether MODULE is what would be printed");
    let for_c = Arg::new(alloc, "c")
        .long("c")
        .action(ArgAction::SetTrue)
        .conflicts_with("header")?
        .help("Prints the records as C lays them out, with functions that C calls");
    let header = Arg::new(alloc, "header")
        .long("header")
        .action(ArgAction::SetTrue)
        .help("Prints the header of these functions");
    let answers = Arg::new(alloc, "answers")
        .long("answers")
        .action(ArgAction::SetTrue)
        .conflicts_with("c")?
        .conflicts_with("header")?
        .help("Prints the proof that a module needs; its comment says for which file");
    Ok(
        command
            .arg(path)?
            .arg(check)?
            .arg(for_c)?
            .arg(header)?
            .arg(answers)?,
    )
}

// Does what the words ask for. Whether it succeeded; if not, the error is printed.
fn run(rt: &HostRuntime, matches: &ArgMatches<'_>) -> io::Result<bool> {
    let name = matches.get_str("FILE").unwrap_or("-");
    let Some(description) = read(rt, name)? else {
        return Ok(false);
    };
    let named = matches.get_str("module");
    let printed = matches
        .get_str("output")
        .or(matches.get_str("MODULE"))
        .unwrap_or("");
    let path = module_path(rt.alloc(), named, printed)?;
    let made = asked(rt.alloc(), matches, path.as_deref(), description.as_str())?;
    let Some(text) = module(rt, made)? else {
        return Ok(false);
    };
    if matches.get_flag("check") {
        return check(
            rt,
            name,
            matches.get_str("MODULE").unwrap_or("-"),
            text.as_str(),
        );
    }
    let Some(output) = matches.get_str("output") else {
        print!(rt; "{text}")?;
        return Ok(true);
    };
    let is_written = write(rt, output, text.as_str())?;
    match proofs_beside(rt.alloc(), output, text.as_str())? {
        Some(file) if is_written => {
            let made = make_answers(rt.alloc(), name, path.as_deref(), description.as_str())?;
            prove(rt, file.as_str(), made)
        }
        _ => Ok(is_written),
    }
}

// The text that was made. `None` after what is wrong is printed.
fn module(rt: &HostRuntime, made: Made) -> io::Result<Option<String>> {
    match made {
        Made::Module(text) => Ok(Some(text)),
        Made::Wrong(told) => {
            eprint!(rt; "{told}")?;
            Ok(None)
        }
    }
}

// The file of proofs that a module needs, if the module is in a folder `src`.
fn proofs_beside(alloc: Global, output: &str, module: &str) -> Result<Option<String>, AllocError> {
    let Some(file) = proofs_of(module) else {
        return Ok(None);
    };
    if output.starts_with("src/") {
        return Ok(Some(String::from_str(alloc, file)?));
    }
    match output.rsplit_once("/src/") {
        Some((folder, _)) => Ok(Some(format!(in alloc; "{folder}/{file}")?)),
        None => Ok(None),
    }
}

// Writes what proves a module, and makes the folder for it.
fn prove(rt: &HostRuntime, file: &str, made: Made) -> io::Result<bool> {
    let Some(text) = module(rt, made)? else {
        return Ok(false);
    };
    let (folder, _) = file.rsplit_once('/').unwrap_or(("", file));
    match fs::create_dir_all(rt, folder) {
        Ok(()) => write(rt, file, text.as_str()),
        Err(error) => {
            eprintln!(rt; "error: {folder}: {error}")?;
            Ok(false)
        }
    }
}

// What the words ask for of a description.
fn asked(
    alloc: Global,
    matches: &ArgMatches<'_>,
    path: Option<&str>,
    text: &str,
) -> io::Result<Made> {
    let name = matches.get_str("FILE").unwrap_or("-");
    Ok(match wanted(matches) {
        Some(wanted) => make_for_c(alloc, name, path, text, wanted)?,
        None if matches.get_flag("answers") => make_answers(alloc, name, path, text)?,
        None => make(alloc, name, path, text)?,
    })
}

// What is wanted for C, if anything is.
fn wanted(matches: &ArgMatches<'_>) -> Option<Wanted> {
    if matches.get_flag("c") {
        Some(Wanted::Module)
    } else if matches.get_flag("header") {
        Some(Wanted::Header)
    } else {
        None
    }
}

// The text of a file, or of the standard input. `None` after its error is printed.
fn read(rt: &HostRuntime, name: &str) -> io::Result<Option<String>> {
    let text = if name == "-" {
        io::read_to_string(rt.alloc(), rt.stdin())
    } else {
        fs::read_to_string(rt, name)
    };
    match text {
        Ok(text) => Ok(Some(text)),
        Err(error) => {
            eprintln!(rt; "error: {name}: {error}")?;
            Ok(None)
        }
    }
}

// Writes a module to a new file, which then takes the old one's place.
fn write(rt: &HostRuntime, path: &str, text: &str) -> io::Result<bool> {
    let new = format!(in rt.alloc(); "{path}.new")?;
    match replace(rt, new.as_str(), path, text) {
        Ok(()) => Ok(true),
        Err(error) => {
            let _ = fs::remove_file(rt, new.as_str());
            eprintln!(rt; "error: {path}: {error}")?;
            Ok(false)
        }
    }
}

fn replace(rt: &HostRuntime, new: &str, path: &str, text: &str) -> io::Result<()> {
    fs::write(rt, new, text)?;
    fs::rename(rt, new, path)
}

// Whether a file holds this module. If not, the first line that differs is printed.
fn check(rt: &HostRuntime, name: &str, path: &str, text: &str) -> io::Result<bool> {
    let Some(found) = read(rt, path)? else {
        return Ok(false);
    };
    match first_difference(found.as_str(), text) {
        None => Ok(true),
        Some(line) => {
            eprintln!(rt; "{path}:{line}: error: differs from what {name} describes")?;
            Ok(false)
        }
    }
}
