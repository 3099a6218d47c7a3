//! Items that can be absent.

ghost use Rattle.std.specs.Prelude.{Some};
ghost use Rattle.deku_bits.specs.Outcomes.{Mapped};

use crate::traits::DekuReader;
use deku_bits::device::Source;
use deku_bits::error::DekuError;
use deku_bits::reader::Reader;

/// The item is always read.
impl<Ctx: Copy, T: DekuReader<Ctx>> DekuReader<Ctx> for Option<T> {
    ghost accepts = { T.accepts };

    ghost no_read_ahead = { T.no_read_ahead };

    ghost meaning = { λ c. Mapped Some (T.meaning c) };

    fn from_reader_with_ctx<R: Source>(
        reader: &mut Reader<R>,
        ctx: Ctx,
    ) -> Result<Self, DekuError> {
        let value = T::from_reader_with_ctx(reader, ctx)?;
        Ok(Some(value))
    }
}
