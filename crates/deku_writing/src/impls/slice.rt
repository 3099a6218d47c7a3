//! Slices: their items in order.

ghost use Rattle.deku_writing.specs.Composing.{WritesEach};

use crate::traits::DekuWriter;
use deku_bits::device::Sink;
use deku_bits::error::DekuError;
use deku_bits::writer::Writer;

/// The items in order, under the items' context. It fails as the first item that fails, and what
/// was written before stays written. Without items no call is made on the writer.
impl<Ctx: Copy, T: DekuWriter<Ctx>> DekuWriter<Ctx> for &[T] {
    ghost accepts = { T.accepts };

    ghost meaning = { λ v c. WritesEach (λ x. T.meaning x c) v.now };

    fn to_writer<W: Sink>(&self, writer: &mut Writer<W>, ctx: Ctx) -> Result<(), DekuError> {
        let mut written = 0;
        while written < self.len() {
            written += T::try_write_first(writer, &self[written..], &ctx);
            if written < self.len() {
                self[written].to_writer(writer, ctx)?;
                written += 1;
            }
        }
        Ok(())
    }
}
