//! The header of the functions that C calls.

use crate::crossing::Crossed;
use crate::exports::WIDTH;
use deku_attributes::model::Module;
use deku_texts::document::joined;
use deku_texts::template::fill;
use deku_texts::words::snake;
use deku_tokens::arena::Arena;
use std::alloc::AllocError;
use std::fmt::Write as _;

const HEADER: &str = "\
/*
$docs$ * Printed by `derive --header` from `$file$`.
 *
 * What every call needs of its caller:
 * - No pointer is null, and each is aligned for its type.
 * - The memory that a call writes overlaps no other argument, and nothing else uses it meanwhile.
 * - A `bool` is 0 or 1.
 *
 * The calls keep nothing, and may run in any number of threads at once. They return 0, or the
 * number of the error, as `enum dishkaru_status` of dishkaru.h names it: 3 if the bytes end, 5 if a
 * value does not fit its field, 6 if a check fails, 8 if there is too little room.
 */
#ifndef $guard$
#define $guard$

#include <stdbool.h>
#include <stddef.h>
#include <stdint.h>

#ifdef __cplusplus
extern \"C\" {
#endif
$records$
#ifdef __cplusplus
}
#endif

#endif
";

/// The header of a module with these records.
pub(crate) fn header<'a>(
    arena: &'a Arena,
    file: &'a str,
    module: &Module<'_>,
    records: &[Crossed<'_>],
) -> Result<String, AllocError> {
    let file = file.rsplit('/').next().unwrap_or(file);
    let mut docs = comment(arena, module.docs, " *")?;
    if !module.docs.is_empty() {
        docs.push_str(" *\n")?;
    }
    let mut declarations = String::new(arena.alloc());
    for record in records {
        declared(arena, &mut declarations, *record)?;
    }
    let words = [
        ("docs", arena.keep(docs.as_str())?),
        ("file", file),
        ("guard", guard_of(arena, file)?),
        ("records", arena.keep(declarations.as_str())?),
    ];
    let mut out = String::new(arena.alloc());
    fill(&mut out, HEADER, &words)?;
    Ok(out)
}

// The macro that keeps a header from being read twice: of `point.rs` `POINT_H`.
fn guard_of<'a>(arena: &'a Arena, file: &str) -> Result<&'a str, AllocError> {
    let mut guard = String::new(arena.alloc());
    for letter in file.strip_suffix(".rs").unwrap_or(file).chars() {
        guard.push(if letter.is_ascii_alphanumeric() {
            letter.to_ascii_uppercase()
        } else {
            '_'
        })?;
    }
    guard.push_str("_H")?;
    arena.keep(guard.as_str())
}

// Lines of a comment, except those that would end it.
fn comment(arena: &Arena, lines: &[&str], marks: &str) -> Result<String, AllocError> {
    let mut text = String::new(arena.alloc());
    for line in lines {
        if !line.contains("*/") {
            writeln!(text, "{marks}{line}")?;
        }
    }
    Ok(text)
}

/// The comment of a field.
pub(crate) fn noted<'a>(arena: &'a Arena, lines: &[&str]) -> Result<&'a str, AllocError> {
    match lines {
        [] => Ok(""),
        [line] if !line.contains("*/") => arena.print(format_args!("    /*{line} */\n")),
        _ => {
            let text = comment(arena, lines, "     *")?;
            let text = text.as_str();
            arena.print(format_args!("    /*\n{text}     */\n"))
        }
    }
}

const RECORD: &str = "
/*
$docs$ */
struct $name$ {
$fields$};

/* How many bytes a struct $name$ is read from, and written as. */
#define $large$_BYTES $bytes$

/*
 * Reads *record from the first of the bytes on; those after it are ignored. After an error *record
 * is as it was.
 */
$read$

/*
 * Writes *record to the start of the bytes; those after it stay as they were. After an error some
 * of the bytes may have been written.
 */
$write$
";

// Appends a struct and its functions.
fn declared(arena: &Arena, out: &mut String, crossed: Crossed<'_>) -> Result<(), AllocError> {
    let (record, bytes) = (crossed.record, crossed.bytes);
    let name = snake(arena, record.name.text)?;
    let mut docs = comment(arena, record.docs, " *")?;
    if record.docs.is_empty() {
        let text = record.name.text;
        writeln!(docs, " * The record `{text}`.")?;
    }
    let fields = crossed.fields.join(arena.alloc(), "")?;
    let words = [
        ("docs", arena.keep(docs.as_str())?),
        ("name", name),
        ("fields", arena.keep(fields.as_str())?),
        ("large", upper(arena, name)?),
        ("bytes", arena.print(format_args!("{bytes}"))?),
        ("read", reading(arena, name)?),
        ("write", writing(arena, name)?),
    ];
    fill(out, RECORD, &words)
}

// What declares the function that reads a struct.
fn reading<'a>(arena: &'a Arena, name: &str) -> Result<&'a str, AllocError> {
    let head = joined(
        arena,
        name,
        "_read(const uint8_t *bytes, size_t byte_count,",
    )?;
    let last = arena.print(format_args!("struct {name} *record);"))?;
    prototype(arena, head, last)
}

// What declares the function that writes a struct.
fn writing<'a>(arena: &'a Arena, name: &str) -> Result<&'a str, AllocError> {
    let head = format_args!("{name}_write(const struct {name} *record, uint8_t *bytes,");
    prototype(arena, arena.print(head)?, "size_t byte_count);")
}

// What declares a function: one line, or two if one does not hold it.
fn prototype<'a>(arena: &'a Arena, head: &str, last: &str) -> Result<&'a str, AllocError> {
    let line = arena.print(format_args!("uint32_t {head} {last}"))?;
    if line.chars().count() <= WIDTH {
        Ok(line)
    } else {
        arena.print(format_args!("uint32_t {head}\n    {last}"))
    }
}

// A name with large letters.
fn upper<'a>(arena: &'a Arena, name: &str) -> Result<&'a str, AllocError> {
    let mut large = String::new(arena.alloc());
    for letter in name.chars() {
        large.push(letter.to_ascii_uppercase())?;
    }
    arena.keep(large.as_str())
}
