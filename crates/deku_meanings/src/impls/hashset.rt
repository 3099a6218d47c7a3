//! Sets, as collections that keep each item once.

ghost use Rattle.std.specs.Prelude.{◌≡◌, true, false};
ghost use Rattle.std.specs.HashSet.{contains, hasher_of, Updates, IsUnique};
ghost use Rattle.deku_meanings.specs.Collected.{PutsItem};

use crate::impls::gather::Gather;
use deku_bits::error::DekuError;
use std::collections::HashSet;
use std::hash::{BuildHasher, Hash};
use std::io::ErrorKind;

impl<T: Eq + Hash + Drop, S: BuildHasher + Drop> Gather<T> for HashSet<T, S> {
    ghost puts = { λ m x n. Updates T.eq m n x true × IsUnique T.eq n × PutsItem T.eq m x n
        × (hasher_of n ≡ hasher_of m) };

    ghost grows = { λ m x. contains T.eq m x ≡ false };

    fn put(&mut self, item: T) -> Result<(), DekuError> {
        match self.insert(item) {
            Ok(_) => Ok(()),
            Err(_) => Err(DekuError::Io(ErrorKind::OutOfMemory)),
        }
    }
}
