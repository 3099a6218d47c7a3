//! Why a part of a description is not printed.

use deku_tokens::place::{Complaint, Span};
use std::alloc::{AllocError, AllocFailed};

/// Why a part of a description is not printed.
#[derive(Clone, Copy, Debug)]
pub enum Stop<'a> {
    /// What is wrong with it.
    Wrong(Complaint<'a>),
    /// There is no memory.
    Memory,
}

impl<'a> Stop<'a> {
    /// What is wrong, and what to write in its place.
    pub fn wrong<T>(span: Span, message: &'a str, help: &'a str) -> Result<T, Stop<'a>> {
        Err(Stop::Wrong(Complaint {
            span,
            message,
            help,
        }))
    }
}

impl<'a> From<AllocError> for Stop<'a> {
    fn from(_error: AllocError) -> Stop<'a> {
        Stop::Memory
    }
}

impl<'a, T: Drop> From<AllocFailed<T>> for Stop<'a> {
    fn from(_error: AllocFailed<T>) -> Stop<'a> {
        Stop::Memory
    }
}
