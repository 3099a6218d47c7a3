//! Truth values, as numbers of a byte.

ghost use Rattle.std.specs.Prelude.{◌<◌, codes};
ghost use Rattle.deku_num.specs.Numbers.{byte};
ghost use Rattle.deku_num.specs.NumberCalls.{ReadsUnsigned};
ghost use Rattle.deku_meanings.specs.Composing.{Then};
ghost use Rattle.deku_meanings.specs.Shapes.{ShowsUnless, numeral};

use crate::traits::DekuReader;
use deku_bits::device::Source;
use deku_bits::error::DekuError;
use deku_bits::reader::Reader;
use deku_num::ctx::{NumberCtx, Order};
use deku_num::cutting::cut_unsigned;
use deku_num::kind::NumberType;

/// Read as a `u8`, and fails as that does: 0 is false and 1 is true. Any other number fails with
/// `Parse("cannot parse bool value")`, and its bits are consumed.
impl<C: NumberCtx> DekuReader<C> for bool {
    ghost meaning = { λ c. Then (ReadsUnsigned byte (C.layout_of c))
        (ShowsUnless (λ n. 1 < n) (codes "cannot parse bool value") numeral) };

    #[inline(always)]
    fn from_reader_with_ctx<R: Source>(reader: &mut Reader<R>, ctx: C) -> Result<Self, DekuError> {
        let number = u8::from_reader_with_ctx(reader, ctx)?;
        match number {
            0 => Ok(false),
            1 => Ok(true),
            _ => Err(DekuError::Parse("cannot parse bool value")),
        }
    }

    #[inline]
    fn from_word(word: u64, room: usize, order: Order, ctx: &C) -> Option<(Self, usize)> {
        let (value, bits) = cut_unsigned(word, room, order, NumberType::U8, ctx.parts())?;
        if bits > 1 {
            return None;
        }
        Some((value == 1, bits))
    }
}
