//! Whole values under a context, from the start of some bytes.

ghost use Rattle.deku_pieces.specs.Packs.{Unpacks};

use deku::reader::Reader;
use deku::{DekuError, DekuReader};
use std::alloc::Global;
use std::io::Cursor;

/// Reads a value from the first byte on. Returns the number of bits that this takes, and the value.
///
/// The caller's condition: the type may be read under the context. It fails as the type does.
///
/// ```text
/// read_whole::<BitSize, u8>(alloc, &[0x5F], BitSize(4))?      // (4, 5)
/// ```
#[inline(always)]
pub fn read_whole<Ctx, T: DekuReader<Ctx>>(
    alloc: Global,
    bytes: &[u8],
    ctx: Ctx,
) -> Result<(usize, T), DekuError>
    requires { T.accepts ctx }
    ensures { Unpacks (T.meaning ctx) bytes.now result }
{
    let mut reader = Reader::new(alloc, Cursor::new(bytes));
    let value = T::from_reader_with_ctx(&mut reader, ctx)?;
    Ok((reader.bits_read(), value))
}
