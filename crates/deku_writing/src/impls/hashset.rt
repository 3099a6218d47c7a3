//! Sets: items in the order in which the set is iterated.

ghost use Rattle.deku_writing.specs.Composing.{WritesEach};

use crate::traits::DekuWriter;
use deku_bits::device::Sink;
use deku_bits::error::DekuError;
use deku_bits::writer::Writer;
use std::collections::HashSet;
use std::hash::{BuildHasher, Hash};

/// Each item once, under the items' context. The order is the one in which the set is iterated,
/// which is unspecified but stays the same until the set changes. It fails as the first item that
/// fails, and what was written before stays written. It takes no memory.
impl<Ctx: Copy, T: DekuWriter<Ctx> + Eq + Hash, S: BuildHasher> DekuWriter<Ctx> for HashSet<T, S> {
    ghost accepts = { T.accepts };

    ghost meaning = { λ m c. WritesEach (λ x. T.meaning x c) m.keys };

    fn to_writer<W: Sink>(&self, writer: &mut Writer<W>, ctx: Ctx) -> Result<(), DekuError> {
        for item in self {
            item.to_writer(writer, ctx)?;
        }
        Ok(())
    }
}
