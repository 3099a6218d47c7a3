//! References to items.

use crate::traits::DekuWriter;
use crate::words::Word;
use deku_bits::ctx::Order;
use deku_bits::device::Sink;
use deku_bits::error::DekuError;
use deku_bits::writer::Writer;

/// The item is written.
impl<Ctx: Copy, T: DekuWriter<Ctx>> DekuWriter<Ctx> for &T {
    ghost accepts = { T.accepts };

    ghost meaning = { λ v c. T.meaning v.now c };

    #[inline(always)]
    fn to_writer<W: Sink>(&self, writer: &mut Writer<W>, ctx: Ctx) -> Result<(), DekuError> {
        (**self).to_writer(writer, ctx)
    }

    #[inline]
    fn to_word(&self, order: Order, ctx: &Ctx) -> Option<Word> {
        (**self).to_word(order, ctx)
    }
}
