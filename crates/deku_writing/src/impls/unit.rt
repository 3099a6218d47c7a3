//! The unit type.

ghost use Rattle.deku_meanings.specs.Composing.{Answer};

use crate::traits::DekuWriter;
use deku_bits::device::Sink;
use deku_bits::error::DekuError;
use deku_bits::writer::Writer;

/// Nothing is written, even if the writer has stopped.
impl<Ctx: Copy> DekuWriter<Ctx> for () {
    ghost meaning = { λ _ _. Answer tt };

    fn to_writer<W: Sink>(&self, _writer: &mut Writer<W>, _ctx: Ctx) -> Result<(), DekuError> {
        Ok(())
    }
}
