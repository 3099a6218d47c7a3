//! From the text of a description to the text of a module, or to what is wrong.

use crate::printing::{Asked, Printed, print};
use deku_attributes::check;
use deku_description::parse;
use deku_tokens::arena::Arena;
use deku_tokens::place::{Complaint, told};
use std::alloc::{AllocError, Global};

/// What a run makes of a description.
#[derive(Debug, PartialEq, Eq, Drop)]
pub enum Made {
    /// The module.
    Module(String),
    /// What is wrong with the description, as it is printed.
    Wrong(String),
}

/// The module of a description, or all that is wrong with it. A place is complained of once: what
/// is wrong with the form comes first, then what is wrong with attributes, and then what has no
/// module. The name of the file is what complaints and the module call it by.
///
/// # Errors
///
/// `AllocError` if there is no memory.
///
/// ```text
/// make(alloc, "point.rs", None, "struct Point { x: i16, y: i16 }")?    // a module
/// make(alloc, "point.rs", None, "struct Point { x: i17 }")?    // wrong: point.rs:1:19: error: ..
/// ```
pub fn make<'t>(
    alloc: Global,
    file: &'t str,
    path: Option<&'t str>,
    text: &str,
) -> Result<Made, AllocError> {
    let arena = Arena::new(alloc);
    run(&arena, file, path, text, false)
}

/// What proves how one type of a description is written, an enum that holds memory or a struct that
/// is written part by part: the text of the file that its module names ([`proofs_of`]). It is empty
/// if no type needs it.
///
/// # Errors
///
/// `AllocError` if there is no memory.
///
/// ```text
/// make_answers(alloc, "event.rs", Some("samples.event"), text)?    // use Rattle.std.proofs..
/// ```
pub fn make_answers<'t>(
    alloc: Global,
    file: &'t str,
    path: Option<&'t str>,
    text: &str,
) -> Result<Made, AllocError> {
    let arena = Arena::new(alloc);
    run(&arena, file, path, text, true)
}

// What is in front of the name of a file of proofs, in the comment of a module.
const PROOFS: &str = "//! What `derive --answers` prints is in\n//! `";

/// The file of proofs that a printed module needs, from the folder of its crate.
///
/// ```text
/// proofs_of(module)    // Some("proofs/event/EventDekuWriterUnit/to_writer/Answers.antt")
/// ```
pub fn proofs_of(module: &str) -> Option<&str> {
    let (_, file) = module.split_once(PROOFS)?;
    let (file, _) = file.split_once('`')?;
    Some(file)
}

// The module of a description, or its proof.
fn run<'a>(
    arena: &'a Arena,
    file: &'a str,
    path: Option<&'a str>,
    text: &'a str,
    is_proof: bool,
) -> Result<Made, AllocError> {
    let (parsed, mut complaints) = parse(arena, text)?;
    let (module, found) = check(arena, text, parsed, complaints.is_empty())?;
    add(&mut complaints, found)?;
    let asked = Asked {
        file,
        path,
        exports: None,
    };
    let Printed {
        module: printed,
        answers,
        complaints: found,
    } = print(arena, asked, &module)?;
    add(&mut complaints, found)?;
    if complaints.is_empty() {
        return Ok(Made::Module(if is_proof { answers } else { printed }));
    }
    Ok(Made::Wrong(in_order(arena, file, text, complaints)?))
}

// Complaints as they are printed, in the order of their places.
fn in_order<'a>(
    arena: &'a Arena,
    file: &'a str,
    text: &'a str,
    mut complaints: Vec<Complaint<'a>>,
) -> Result<String, AllocError> {
    complaints.sort_by_key(|complaint| complaint.span.start)?;
    told(arena.alloc(), file, text, complaints.as_slice())
}

/// Adds complaints, except those of places that were complained of before. It fails if there is no
/// memory; those that were added before stay.
pub fn add<'a>(
    complaints: &mut Vec<Complaint<'a>>,
    found: Vec<Complaint<'a>>,
) -> Result<(), AllocError> {
    let before = complaints.len();
    for complaint in found {
        let start = complaint.span.start;
        let is_new = complaints
            .iter()
            .take(before)
            .all(|it| it.span.start != start);
        if is_new {
            complaints.push(complaint)?;
        }
    }
    Ok(())
}

/// The path of a module in ghost text: of `NAME::MODULE`, or else of a file
/// `crates/NAME/src/MODULE.rt`.
///
/// # Errors
///
/// `AllocError` if there is no memory.
///
/// ```text
/// module_path(alloc, None, "crates/samples/src/point.rt")?    // Some("samples.point")
/// ```
pub fn module_path(
    alloc: Global,
    named: Option<&str>,
    file: &str,
) -> Result<Option<String>, AllocError> {
    if let Some(named) = named {
        return Ok(Some(named.replace(alloc, "::", ".")?));
    }
    let Some(file) = file.strip_suffix(".rt") else {
        return Ok(None);
    };
    let Some((front, module)) = file.rsplit_once("/src/") else {
        return Ok(None);
    };
    let name = front.rsplit('/').next().unwrap_or(front);
    let module = module.replace(alloc, "/", ".")?;
    let module = module.as_str();
    if module == "lib" {
        return Ok(Some(String::from_str(alloc, name)?));
    }
    Ok(Some(format!(in alloc; "{name}.{module}")?))
}
