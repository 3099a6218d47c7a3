//! Vectors, as collections.

ghost use Rattle.std.specs.Prelude.{◌≡◌, ⊤, [], ◌∷◌, ◌++◌};

use crate::impls::gather::Gather;
use deku_bits::error::DekuError;
use std::io::ErrorKind;

impl<T: Drop> Gather<T> for Vec<T> {
    ghost puts = { λ v x w. w.items ≡ v.items ++ x ∷ [] };

    ghost grows = { λ v x. ⊤ };

    fn put(&mut self, item: T) -> Result<(), DekuError> {
        match self.push(item) {
            Ok(()) => Ok(()),
            Err(_) => Err(DekuError::Io(ErrorKind::OutOfMemory)),
        }
    }
}
