//! Draws the layouts of whole-number fields: which bit of which field is where in their bytes.
#![tactic(auto)]

use std::io::ErrorKind;
use std::process::ExitCode;
use std::{env, io};

fn main(rt: HostRuntime) -> io::Result<ExitCode> {
    let args = arguments(&rt)?;
    let status = deku_picture::run(rt.alloc(), &args, &mut rt.stdout(), &mut rt.stderr());
    Ok(ExitCode::from(status))
}

// The arguments after the program's name. If one of them is not UTF-8 there are none, so they are
// of no form.
fn arguments(rt: &HostRuntime) -> io::Result<Vec<String>> {
    match env::args(rt) {
        Ok(args) => Ok(args.skip(1).collect(rt.alloc())?),
        Err(error) if error.kind() == ErrorKind::InvalidData => Ok(Vec::new(rt.alloc())),
        Err(error) => Err(error),
    }
}
