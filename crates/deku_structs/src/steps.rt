//! Structs that are written part by part, and what proves it.

use deku_record_parts::whole::Whole;
use deku_texts::document::Text;
use deku_texts::template::fill;
use deku_tokens::arena::Arena;
use std::alloc::AllocError;

/// The body that writes the parts of a struct: all at once, or one after the other.
pub(crate) fn body<'a>(arena: &'a Arena, whole: Whole<'a>) -> Result<&'a str, AllocError> {
    if whole.steps.is_empty() {
        let mut body = String::from_str(arena.alloc(), "let parts = ")?;
        whole.part.texts.value.print(&mut body, 8, 1, false)?;
        body.push_str(";\n        parts.to_writer(writer, ctx)")?;
        return arena.keep(body.as_str());
    }
    let mut body = String::new(arena.alloc());
    for (i, step) in whole.steps.iter().enumerate() {
        if i > 0 {
            body.push_str("?;\n        ")?;
        }
        written(&mut body, *step)?;
    }
    arena.keep(body.as_str())
}

// Appends the call that writes a part.
fn written(out: &mut String, part: Text<'_>) -> Result<(), AllocError> {
    match part.as_word() {
        Some(word) => out.push_str(word.strip_prefix('&').unwrap_or(word))?,
        None => {
            out.push_str("let part = ")?;
            part.print(out, 8, 1, false)?;
            out.push_str(";\n        part")?;
        }
    }
    out.push_str(".to_writer(writer, ctx)")
}

const GOALS: &str = "\
use Rattle.$lemmas$
use Rattle.$front$.proofs$dot$$rest$.$name$DekuWriterUnit.to_writer.Goals as goal
";

/// Appends what a proof of how a type is written imports: these lemmas, and its goals.
pub fn goals<'w>(
    out: &mut String,
    lemmas: &'w str,
    path: &'w str,
    name: &'w str,
) -> Result<(), AllocError> {
    let (front, rest) = path.split_once('.').unwrap_or((path, ""));
    let dot = if rest.is_empty() { "" } else { "." };
    let words = [
        ("lemmas", lemmas),
        ("front", front),
        ("dot", dot),
        ("rest", rest),
        ("name", name),
    ];
    fill(out, GOALS, &words)
}

const LEMMAS: &str = "deku.proofs.Joining.{passed_on, first_refused, then_on}";

const REFUSED: &str = "
pub returns-in_err-$call$ : goal.returns-in_err-$call$
returns-in_err-$call$ g c = passed_on _ c.from_residual$place$.ensures.1 ($proof$)
";

const WRITTEN: &str = "
pub returns : goal.returns
returns g c = $proof$
";

/// Appends what proves how a struct is written part by part: a line for each part that is refused,
/// and one for all of them.
pub fn answers<'a>(
    arena: &'a Arena,
    out: &mut String,
    path: &'a str,
    name: &'a str,
    whole: Whole<'a>,
) -> Result<(), AllocError> {
    goals(out, LEMMAS, path, name)?;
    let count = whole.steps.len();
    for step in 1..count {
        let call = call(arena, step)?;
        let place = if step > 1 {
            arena.print(format_args!("-in_err-{call}"))?
        } else {
            ""
        };
        let proof = refused(arena, step, count, whole.is_open)?;
        fill(
            out,
            REFUSED,
            &[("call", call), ("place", place), ("proof", proof)],
        )?;
    }
    fill(
        out,
        WRITTEN,
        &[("proof", all_written(arena, count, whole.is_open)?)],
    )
}

// The name of the call that writes a part.
fn call<'a>(arena: &'a Arena, step: usize) -> Result<&'a str, AllocError> {
    if step == 1 {
        return Ok("to_writer");
    }
    arena.print(format_args!("to_writer-{step}"))
}

// That all is refused where the part of this number is, of so many. What is in front of a list up
// to the end is one part of all.
fn refused<'a>(
    arena: &'a Arena,
    step: usize,
    count: usize,
    is_open: bool,
) -> Result<&'a str, AllocError> {
    let call = call(arena, step)?;
    let part = arena.print(format_args!("c.in_err-{call}.ensures"))?;
    let is_last = is_open && step.saturating_add(1) == count;
    let part = if is_last {
        part
    } else {
        arena.print(format_args!("first_refused {part}"))?
    };
    let all = after(arena, step, part)?;
    if !is_open {
        return Ok(all);
    }
    arena.print(format_args!("first_refused {}", grouped(arena, all)?))
}

// That all is written, of so many parts.
fn all_written<'a>(arena: &'a Arena, count: usize, is_open: bool) -> Result<&'a str, AllocError> {
    let call = call(arena, count)?;
    let last = arena.print(format_args!("c.{call}.ensures"))?;
    if !is_open {
        return after(arena, count, last);
    }
    let step = count.saturating_sub(1);
    let front = after(arena, step, ok(arena, step)?)?;
    arena.print(format_args!("then_on {} {last}", grouped(arena, front)?))
}

// That a part is written.
fn ok<'a>(arena: &'a Arena, step: usize) -> Result<&'a str, AllocError> {
    let call = call(arena, step)?;
    arena.print(format_args!("c.in_ok-{call}.ensures"))
}

// What is so of the part of this number, after those in front of it are written.
fn after<'a>(arena: &'a Arena, step: usize, part: &'a str) -> Result<&'a str, AllocError> {
    let mut all = String::new(arena.alloc());
    let mut open = 0usize;
    for before in 1..step {
        all.push_str("then_on ")?;
        all.push_str(ok(arena, before)?)?;
        all.push(' ')?;
        if before.saturating_add(1) < step || part.contains(' ') {
            all.push('(')?;
            open = open.saturating_add(1);
        }
    }
    all.push_str(part)?;
    close(&mut all, open)?;
    arena.keep(all.as_str())
}

// Closes so many parentheses.
fn close(out: &mut String, count: usize) -> Result<(), AllocError> {
    for _ in 0..count {
        out.push(')')?;
    }
    Ok(())
}

// A term in parentheses, if it is more than a word.
fn grouped<'a>(arena: &'a Arena, term: &'a str) -> Result<&'a str, AllocError> {
    if term.contains(' ') {
        return arena.print(format_args!("({term})"));
    }
    Ok(term)
}
