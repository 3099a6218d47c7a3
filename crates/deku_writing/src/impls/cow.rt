//! Items that are borrowed until they have to be owned.

ghost use Rattle.std.specs.Cow.{cow_value};

use crate::traits::DekuWriter;
use deku_bits::device::Sink;
use deku_bits::error::DekuError;
use deku_bits::writer::Writer;
use std::borrow::Cow;

/// The item is written, whether it is borrowed or owned.
impl<Ctx: Copy, T: Clone + DekuWriter<Ctx>> DekuWriter<Ctx> for Cow<'_, T> {
    ghost accepts = { T.accepts };

    ghost meaning = { λ v c. T.meaning (cow_value v) c };

    fn to_writer<W: Sink>(&self, writer: &mut Writer<W>, ctx: Ctx) -> Result<(), DekuError> {
        (**self).to_writer(writer, ctx)
    }
}
