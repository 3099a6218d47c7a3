//! Maps, as collections of pairs of a key and a value.

ghost use Rattle.std.specs.Prelude.{◌≡◌, Some, None};
ghost use Rattle.std.specs.HashMap.{get, hasher_of, Updates, IsUnique};
ghost use Rattle.deku_meanings.specs.Collected.{PutsPair};

use crate::impls::gather::Gather;
use deku_bits::error::DekuError;
use std::collections::HashMap;
use std::hash::{BuildHasher, Hash};
use std::io::ErrorKind;

impl<K: Eq + Hash + Drop, V: Drop, S: BuildHasher + Drop> Gather<(K, V)> for HashMap<K, V, S> {
    ghost puts = { λ m p n. Updates K.eq m n p.0 (Some p.1) × IsUnique K.eq n × PutsPair K.eq m p n
        × (hasher_of n ≡ hasher_of m) };

    ghost grows = { λ m p. get K.eq m p.0 ≡ None };

    fn put(&mut self, item: (K, V)) -> Result<(), DekuError> {
        let (key, value) = item;
        match self.insert(key, value) {
            Ok(_) => Ok(()),
            Err(_) => Err(DekuError::Io(ErrorKind::OutOfMemory)),
        }
    }
}
