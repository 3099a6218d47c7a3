//! Items that can be absent.

ghost use Rattle.deku_meanings.specs.Shapes.{IfHeld};

use crate::traits::DekuWriter;
use deku_bits::device::Sink;
use deku_bits::error::DekuError;
use deku_bits::writer::Writer;

/// An absent item is written as nothing.
impl<Ctx: Copy, T: DekuWriter<Ctx>> DekuWriter<Ctx> for Option<T> {
    ghost accepts = { T.accepts };

    ghost meaning = { λ v c. IfHeld (λ x. T.meaning x c) v };

    fn to_writer<W: Sink>(&self, writer: &mut Writer<W>, ctx: Ctx) -> Result<(), DekuError> {
        match self {
            Some(value) => value.to_writer(writer, ctx),
            None => Ok(()),
        }
    }
}
