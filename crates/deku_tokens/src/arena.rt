//! Where what is made of a description is kept until its module is printed.

use bumpalo::Bump;
use std::alloc::{AllocError, Global};
use std::fmt::Display;

/// Values, texts and lists of them, which are given up together.
#[derive(Drop)]
pub struct Arena {
    bump: Bump<Global>,
    alloc: Global,
}

impl Arena {
    /// An arena with nothing in it.
    pub fn new(alloc: Global) -> Arena {
        Arena {
            bump: Bump::new(alloc),
            alloc,
        }
    }

    /// What allocates a list or a text that grows.
    pub fn alloc(&self) -> Global {
        self.alloc
    }

    /// Keeps a value.
    pub fn one<T: Copy>(&self, value: T) -> Result<&T, AllocError> {
        let value = self.bump.try_alloc(value)?;
        Ok(value)
    }

    /// Keeps a text.
    pub fn keep(&self, text: &str) -> Result<&str, AllocError> {
        self.bump.try_alloc_str(text)
    }

    /// Keeps a text that is put together.
    pub fn print<D: Display + Drop>(&self, text: D) -> Result<&str, AllocError> {
        let out = String::format(self.alloc, text)?;
        self.keep(out.as_str())
    }

    /// Keeps a list.
    pub fn list<T: Copy>(&self, items: &[T]) -> Result<&[T], AllocError> {
        let items = self.bump.try_alloc_slice_copy(items)?;
        Ok(items)
    }
}
