//! Records from bytes, with errors that name a field.

ghost use Rattle.std.specs.Prelude.{◌≡◌, length, IfErr};
ghost use Rattle.deku.specs.Composing.{Then};
ghost use Rattle.deku.specs.Shapes.{Shows};
ghost use Rattle.deku_pieces.specs.Packs.{Unpacks, UnpacksBack, TakesIts};
ghost use Rattle.deku_located.specs.Locating.{IsLocated, unplaced};

use crate::steps::{Place, Steps};
use deku::DekuError;
use deku::reader::Reader;
use deku_symmetry::{FromParts, Symmetric};
use std::alloc::Global;
use std::io::Cursor;
use thiserror::Error;

/// Why a record was refused, and where.
#[derive(Debug, Clone, Copy, PartialEq, Eq, Error)]
#[error("{error}, in {field}, at bit {bit}")]
pub struct Located {
    /// The error.
    pub error: DekuError,
    /// The name of the part that was refused.
    pub field: &'static str,
    /// The bit where that part begins.
    pub bit: usize,
}

/// Reads parts from the first byte on. Returns the number of bits read, and the parts. An error has
/// the name of the part that was refused, and the bit where it begins.
///
/// The caller's conditions: the parts may be read, and there are as many names as parts.
///
/// ```text
/// unpack_steps::<(u8, Be<u16>)>(alloc, &[0x69, 0xC0], &["kind", "value"])?
/// // Not enough data, need 16 bits (or 2 bytes), in value, at bit 8
/// ```
pub fn unpack_steps<P: Steps>(
    alloc: Global,
    bytes: &[u8],
    names: &[&'static str],
) -> Result<(usize, P), Located>
    requires accepted { P.DekuReader.accepts tt }
    requires named { length names.now ≡ P.steps }
    ensures meaning { Unpacks (P.DekuReader.meaning tt) bytes.now (unplaced result) }
    ensures located { IfErr result (IsLocated P.placed names.now bytes.now) }
{
    let mut reader = Reader::new(alloc, Cursor::new(bytes));
    let mut place = Place { parts: 0, bit: 0 };
    match P::read_steps(&mut reader, &mut place) {
        Ok(parts) => Ok((reader.bits_read(), parts)),
        Err(error) => Err(Located {
            error,
            field: names[place.parts],
            bit: place.bit,
        }),
    }
}

/// Reads a record from the first byte on, as `unpack` does. Returns the number of bits read, and
/// the record. An error has the name of the part that was refused, and the bit where it begins.
///
/// The names are those of all parts in their order, such as the constant `FIELDS` that `derive`
/// prints. A field that is one part has one name.
///
/// The caller's conditions: the parts may be read, and there are as many names as parts.
///
/// ```text
/// unpack_located::<Sample>(alloc, &[0x69, 0xC0], &Sample::FIELDS)?
/// // Not enough data, need 16 bits (or 2 bytes), in value, at bit 8
/// ```
pub fn unpack_located<E: FromParts>(
    alloc: Global,
    bytes: &[u8],
    names: &[&'static str],
) -> Result<(usize, E), Located>
where
    E::Parts: Steps + Symmetric<()>,
    requires accepted { E.Parts.DekuReader.accepts tt }
    requires named { length names.now ≡ E.Parts.Steps.steps }
    ensures meaning { Unpacks (Then (E.Parts.DekuReader.meaning tt) (Shows E.parts_of))
        bytes.now (unplaced result) }
    ensures back { UnpacksBack (λ v. E.Parts.Part.pieces (E.parts_of v) tt)
        (λ v w. E.Parts.Part.same (E.parts_of v) (E.parts_of w)) bytes.now (unplaced result) }
    ensures taken { TakesIts (λ v. E.Parts.Part.pieces (E.parts_of v) tt) bytes.now
        (unplaced result) }
    ensures located { IfErr result (IsLocated E.Parts.Steps.placed names.now bytes.now) }
{
    let (bits, parts) = unpack_steps::<E::Parts>(alloc, bytes, names)?;
    Ok((bits, E::from_parts(parts)))
}
