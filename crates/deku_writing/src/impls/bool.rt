//! Truth values, as numbers of a byte.

ghost use Rattle.std.specs.Prelude.{pos};
ghost use Rattle.deku_num.specs.Numbers.{byte};
ghost use Rattle.deku_num.specs.NumberCalls.{WritesNumber};
ghost use Rattle.deku_meanings.specs.Shapes.{numeral};

use crate::traits::DekuWriter;
use crate::words::Word;
use deku_bits::ctx::Order;
use deku_bits::device::Sink;
use deku_bits::error::DekuError;
use deku_bits::writer::Writer;
use deku_num::ctx::NumberCtx;

/// Written as the `u8` 0 or 1. It fails as that does: in no bits, true does not fit.
impl<C: NumberCtx> DekuWriter<C> for bool {
    ghost meaning = { λ v c. WritesNumber byte (C.layout_of c) (pos (numeral v)) };

    #[inline(always)]
    fn to_writer<W: Sink>(&self, writer: &mut Writer<W>, ctx: C) -> Result<(), DekuError> {
        (*self as u8).to_writer(writer, ctx)
    }

    #[inline]
    fn to_word(&self, order: Order, ctx: &C) -> Option<Word> {
        (*self as u8).to_word(order, ctx)
    }
}
