//! From the text of a description to a module for C, or to its header, or to what is wrong.

use crate::crossing::records_of;
use crate::exports::exports;
use crate::header::header;
use deku_attributes::check;
use deku_derive::making::{Made, add};
use deku_derive::printing::{Asked, Printed, print};
use deku_description::parse;
use deku_tokens::arena::Arena;
use deku_tokens::place::told;
use std::alloc::{AllocError, Global};

/// What is made of a description for C.
#[derive(Clone, Copy, PartialEq, Eq)]
pub enum Wanted {
    /// The module of a static library: records as C lays them out, and the functions that C calls.
    Module,
    /// The header of these functions.
    Header,
}

/// The module of a description for C, or its header, or all that is wrong with it: also each field
/// that C does not have. The name of the file is what complaints and the text call it by.
///
/// # Errors
///
/// `AllocError` if there is no memory.
///
/// ```text
/// make_for_c(alloc, "point.rs", None, "struct Point { x: i16, y: i16 }", Wanted::Header)?
/// // a header with `struct point`, `point_read` and `point_write`
/// ```
pub fn make_for_c<'t>(
    alloc: Global,
    file: &'t str,
    path: Option<&'t str>,
    text: &str,
    wanted: Wanted,
) -> Result<Made, AllocError> {
    let arena = Arena::new(alloc);
    run(&arena, file, path, text, wanted)
}

// The module or the header, with what is made of the description in this arena.
fn run<'a>(
    arena: &'a Arena,
    file: &'a str,
    path: Option<&'a str>,
    text: &'a str,
    wanted: Wanted,
) -> Result<Made, AllocError> {
    let (parsed, mut complaints) = parse(arena, text)?;
    let (module, found) = check(arena, text, parsed, complaints.is_empty())?;
    add(&mut complaints, found)?;
    let functions = exports(arena, &module)?;
    let asked = Asked {
        file,
        path,
        exports: Some(functions),
    };
    let Printed {
        module: printed,
        complaints: found,
        ..
    } = print(arena, asked, &module)?;
    add(&mut complaints, found)?;
    let (records, found) = records_of(arena, &module)?;
    add(&mut complaints, found)?;
    if !complaints.is_empty() {
        complaints.sort_by_key(|complaint| complaint.span.start)?;
        let told = told(arena.alloc(), file, text, complaints.as_slice())?;
        return Ok(Made::Wrong(told));
    }
    Ok(Made::Module(match wanted {
        Wanted::Module => printed,
        Wanted::Header => header(arena, file, &module, records.as_slice())?,
    }))
}
