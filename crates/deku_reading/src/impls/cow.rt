//! Items that are borrowed until they have to be owned.

ghost use Rattle.std.specs.declared.borrow.Cow.TheVariants.{Owned};
ghost use Rattle.deku_bits.specs.Outcomes.{Mapped};

use crate::traits::DekuReader;
use deku_bits::device::Source;
use deku_bits::error::DekuError;
use deku_bits::reader::Reader;
use std::borrow::Cow;

/// The item is read, and owned.
impl<Ctx: Copy, T: Clone + DekuReader<Ctx>> DekuReader<Ctx> for Cow<'_, T> {
    ghost accepts = { T.accepts };

    ghost no_read_ahead = { T.no_read_ahead };

    ghost meaning = { λ c. Mapped Owned (T.meaning c) };

    fn from_reader_with_ctx<R: Source>(
        reader: &mut Reader<R>,
        ctx: Ctx,
    ) -> Result<Self, DekuError> {
        let value = T::from_reader_with_ctx(reader, ctx)?;
        Ok(Cow::Owned(value))
    }
}
