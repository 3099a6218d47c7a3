//! Vectors: their items in order.

ghost use Rattle.deku_writing.specs.Composing.{WritesEach};

use crate::traits::DekuWriter;
use deku_bits::device::Sink;
use deku_bits::error::DekuError;
use deku_bits::writer::Writer;

/// The items in order, under the items' context. It fails as the first item that fails, and what
/// was written before stays written. It takes no memory.
impl<Ctx: Copy, T: DekuWriter<Ctx>> DekuWriter<Ctx> for Vec<T> {
    ghost accepts = { T.accepts };

    ghost meaning = { λ v c. WritesEach (λ x. T.meaning x c) v.items };

    fn to_writer<W: Sink>(&self, writer: &mut Writer<W>, ctx: Ctx) -> Result<(), DekuError> {
        self.as_slice().to_writer(writer, ctx)
    }
}
