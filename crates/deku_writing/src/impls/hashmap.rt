//! Maps: pairs of a key and a value, in the order in which the map is iterated.

ghost use Rattle.deku_bits.specs.WriterCalls.{Writes};
ghost use Rattle.deku_meanings.specs.Composing.{Both};
ghost use Rattle.deku_writing.specs.Composing.{WritesEach};

use crate::traits::DekuWriter;
use deku_bits::device::Sink;
use deku_bits::error::DekuError;
use deku_bits::writer::Writer;
use std::collections::HashMap;
use std::hash::{BuildHasher, Hash};

/// Each entry once, a key and then its value, under the items' context. The order is the one in
/// which the map is iterated, which is unspecified but stays the same until the map changes. It
/// fails as the first item that fails, and what was written before stays written. It takes no
/// memory.
impl<Ctx: Copy, K: DekuWriter<Ctx> + Eq + Hash, V: DekuWriter<Ctx>, S: BuildHasher> DekuWriter<Ctx>
    for HashMap<K, V, S> {
    ghost accepts = { λ c. K.accepts c × V.accepts c };

    ghost meaning = { λ m c. WritesEach (λ p. Both (K.meaning p.0 c) (V.meaning p.1 c)) m.entries };

    fn to_writer<W: Sink>(&self, writer: &mut Writer<W>, ctx: Ctx) -> Result<(), DekuError> {
        for (key, value) in self {
            write_entry(key, value, writer, ctx)?;
        }
        Ok(())
    }
}

// Writes a key, and then its value.
fn write_entry<Ctx: Copy, K: DekuWriter<Ctx>, V: DekuWriter<Ctx>, W: Sink>(
    key: &K,
    value: &V,
    writer: &mut Writer<W>,
    ctx: Ctx,
) -> Result<(), DekuError>
    requires { K.accepts ctx × V.accepts ctx }
    ensures { Writes W.known (Both (K.meaning key.now ctx) (V.meaning value.now ctx)) writer.old
        result writer.new }
{
    key.to_writer(writer, ctx)?;
    value.to_writer(writer, ctx)
}
