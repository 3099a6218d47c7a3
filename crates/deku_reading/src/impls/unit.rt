//! The unit type.

ghost use Rattle.deku_meanings.specs.Composing.{Answer};

use crate::traits::DekuReader;
use deku_bits::device::Source;
use deku_bits::error::DekuError;
use deku_bits::reader::Reader;

/// Nothing is read, even if the reader has stopped.
impl<Ctx: Copy> DekuReader<Ctx> for () {
    ghost meaning = { λ _. Answer tt };

    fn from_reader_with_ctx<R: Source>(
        _reader: &mut Reader<R>,
        _ctx: Ctx,
    ) -> Result<Self, DekuError> {
        Ok(())
    }
}
