//! Arrays: a fixed number of items, in order. They are written as one word if their items have one.

ghost use Rattle.std.specs.Prelude.{IfSome};
ghost use Rattle.deku_writing.specs.Composing.{WritesEach};
ghost use Rattle.deku_writing.specs.Words.{IsWordOf};

use crate::traits::DekuWriter;
use crate::words::{Word, try_write_word};
use deku_bits::ctx::Order;
use deku_bits::device::Sink;
use deku_bits::error::DekuError;
use deku_bits::writer::Writer;

/// The items in order, under the items' context. It fails as the first item that fails, and what
/// was written before stays written.
impl<Ctx: Copy, T: DekuWriter<Ctx>, const N: usize> DekuWriter<Ctx> for [T; N] {
    ghost accepts = { T.accepts };

    ghost meaning = { λ v c. WritesEach (λ x. T.meaning x c) v };

    #[inline(always)]
    fn to_writer<W: Sink>(&self, writer: &mut Writer<W>, ctx: Ctx) -> Result<(), DekuError> {
        let high = self.to_word(Order::Msb0, &ctx);
        let low = self.to_word(Order::Lsb0, &ctx);
        if try_write_word(high, low, writer) {
            return Ok(());
        }
        self.as_slice().to_writer(writer, ctx)
    }

    #[inline]
    fn to_word(&self, order: Order, ctx: &Ctx) -> Option<Word> {
        word_of_items(self.as_slice(), order, ctx)
    }
}

// The word of items in a row. `None` if there is none, or more than 16: to look at all of them
// would take longer than to write them one by one.
#[inline]
fn word_of_items<Ctx: Copy, T: DekuWriter<Ctx>>(
    items: &[T],
    order: Order,
    ctx: &Ctx,
) -> Option<Word>
    ensures { IfSome result (λ w. IsWordOf (WritesEach (λ x. T.meaning x ctx.now) items.now) order
        w) }
{
    let count = items.len();
    if count == 0 || count > 16 {
        return None;
    }
    let mut word = items[0].to_word(order, ctx)?;
    if word.bits > 64 / count {
        return None;
    }
    for place in 1..count {
        let next = items[place].to_word(order, ctx)?;
        word = word.followed_by(next, order)?;
    }
    Some(word)
}
