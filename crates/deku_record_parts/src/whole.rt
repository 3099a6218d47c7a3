//! All parts of a record as one, and how they are written.

use crate::part::{Part, before, items_of, one_tuple};
use deku_texts::document::Text;
use deku_tokens::arena::Arena;
use std::alloc::AllocError;

/// All parts of a record.
#[derive(Clone, Copy)]
pub struct Whole<'a> {
    /// They as one.
    pub part: Part<'a>,
    /// What is written one after the other, if a call that writes all of it would have a type
    /// argument that names several lifetimes.
    pub steps: &'a [Text<'a>],
    /// Whether what is last is a list up to the end of the input.
    pub is_open: bool,
}

impl<'a> Whole<'a> {
    /// Of parts, and of what is last after them.
    pub fn of(
        arena: &'a Arena,
        parts: &[Part<'a>],
        last: Option<Part<'a>>,
    ) -> Result<Whole<'a>, AllocError> {
        let mut items = items_of(arena, parts)?;
        let front = one_tuple(arena, items.as_slice())?;
        let part = match last {
            Some(last) if parts.is_empty() => last,
            Some(last) => before(arena, front, last)?,
            None => front,
        };
        let is_open = last.is_some();
        let lifetimes = if is_open {
            front.lifetimes
        } else {
            most_lifetimes(items.as_slice())
        };
        if let Some(last) = last {
            items.push(last)?;
        }
        Ok(Whole {
            part,
            steps: steps(arena, items.as_slice(), lifetimes)?,
            is_open,
        })
    }
}

// How many lifetimes the type of one of several parts names, at most.
fn most_lifetimes(parts: &[Part<'_>]) -> usize {
    let mut most = 0;
    for part in parts {
        most = part.lifetimes.max(most);
    }
    most
}

// What makes each of several parts, if one of them names several lifetimes.
fn steps<'a>(
    arena: &'a Arena,
    parts: &[Part<'a>],
    lifetimes: usize,
) -> Result<&'a [Text<'a>], AllocError> {
    let mut values = Vec::new(arena.alloc());
    if parts.len() > 1 && lifetimes > 1 {
        for part in parts {
            values.push(part.texts.value)?;
        }
    }
    arena.list(values.as_slice())
}
