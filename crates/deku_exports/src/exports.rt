//! The functions that C calls.

use deku_attributes::model::Module;
use deku_texts::document::joined;
use deku_texts::template::fill;
use deku_texts::words::snake;
use deku_tokens::arena::Arena;
use std::alloc::AllocError;

/// The columns of a line.
pub(crate) const WIDTH: usize = 100;

/// The functions of all records of a module, as they end it.
pub(crate) fn exports<'a>(arena: &'a Arena, module: &Module<'a>) -> Result<&'a str, AllocError> {
    let mut out = String::new(arena.alloc());
    for record in module.records {
        let name = record.name.text;
        let function = snake(arena, name)?;
        reading(arena, &mut out, name, function)?;
        writing(arena, &mut out, name, function)?;
    }
    arena.keep(out.as_str())
}

const READING: &str = "
/// Reads the record from the first byte on. Returns 0, or the number of the error; the record then
/// stays as it was.
#[unsafe(no_mangle)]
$head$
    ensures { ⟦<$name$ as ForC>⟧.reads_for_c bytes.now result place.old place.new }
{
    $name$::read_for_c(alloc, bytes, place)
}
";

// Appends the function that reads a record.
fn reading<'a>(
    arena: &'a Arena,
    out: &mut String,
    name: &'a str,
    function: &str,
) -> Result<(), AllocError> {
    let parameters = joined(arena, "alloc: Global, bytes: &[u8], place: &mut ", name)?;
    let head = signature(arena, function, "read", parameters)?;
    fill(out, READING, &[("head", head), ("name", name)])
}

const WRITING: &str = "
/// Writes the record to the start of the bytes; those after it stay as they were. Returns 0, or the
/// number of the error.
#[unsafe(no_mangle)]
$head$
    ensures { ⟦<$name$ as ForC>⟧.writes_for_c value.now bytes.old result bytes.new }
{
    value.write_for_c(bytes)
}
";

// Appends the function that writes a record.
fn writing<'a>(
    arena: &'a Arena,
    out: &mut String,
    name: &'a str,
    function: &str,
) -> Result<(), AllocError> {
    let parameters = arena.print(format_args!("value: &{name}, bytes: &mut [u8]"))?;
    let head = signature(arena, function, "write", parameters)?;
    fill(out, WRITING, &[("head", head), ("name", name)])
}

// The head of a function, with a line for each parameter if one line does not hold it.
fn signature<'a>(
    arena: &'a Arena,
    function: &str,
    verb: &str,
    parameters: &str,
) -> Result<&'a str, AllocError> {
    let head = format_args!("pub extern \"C\" fn {function}_{verb}({parameters}) -> u32");
    let line = arena.print(head)?;
    if line.chars().count() <= WIDTH {
        return Ok(line);
    }
    let list = parameters.replace(arena.alloc(), ", ", ",\n    ")?;
    let list = list.as_str();
    arena.print(format_args!("pub extern \"C\" fn {function}_{verb}(\n    {list},\n) -> u32"))
}
