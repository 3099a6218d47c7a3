//! Records that state their parts, and nothing else.
#![tactic(auto)]

ghost use Rattle.deku.specs.Composing.{Then};
ghost use Rattle.deku.specs.Shapes.{Shows};
ghost use Rattle.deku_pieces.proofs.Turned.{shown_symmetric};

use deku::device::{Sink, Source};
use deku::reader::Reader;
use deku::writer::Writer;
use deku::{DekuError, DekuReader, DekuWriter};
use deku_symmetry::{FromParts, Part, Symmetric, ToParts};

/// A record that is read and written as its parts. It has `pack`, `unpack`, `to_bytes` and
/// `from_bytes`, and can be a part of other records.
///
/// The record itself implements `FromParts` and `ToParts` alone.
///
/// ```text
/// let bytes = Coded(sample).to_bytes(alloc)?;
/// let (bits, again) = Coded::<Sample>::unpack(alloc, bytes.as_slice(), ())?;
/// ```
#[derive(Debug, Clone, Copy, PartialEq, Eq, Drop)]
pub struct Coded<E>(pub E);

impl<E: FromParts> DekuReader<()> for Coded<E>
where
    E::Parts: DekuReader<()>,
{
    ghost accepts = { λ c. E.Parts.DekuReader.accepts c };

    ghost no_read_ahead = { λ c. E.Parts.DekuReader.no_read_ahead c };

    ghost meaning = { λ c. Then (E.Parts.DekuReader.meaning c) (Shows (λ w. E.parts_of w.0)) };

    #[inline(always)]
    fn from_reader_with_ctx<R: Source>(reader: &mut Reader<R>, ctx: ()) -> Result<Self, DekuError> {
        let parts = E::Parts::from_reader_with_ctx(reader, ctx)?;
        Ok(Coded(E::from_parts(parts)))
    }
}

impl<E: ToParts> DekuWriter<()> for Coded<E>
where
    E::Parts: DekuWriter<()>,
{
    ghost accepts = { λ c. E.Parts.DekuWriter.accepts c };

    ghost meaning = { λ v c. E.Parts.DekuWriter.meaning (E.FromParts.parts_of v.0) c };

    #[inline(always)]
    fn to_writer<W: Sink>(&self, writer: &mut Writer<W>, ctx: ()) -> Result<(), DekuError> {
        self.0.parts().to_writer(writer, ctx)
    }
}

/// The pieces of the parts.
impl<E: FromParts> Part<()> for Coded<E>
where
    E::Parts: Part<()>,
{
    ghost pieces = { λ v c. E.Parts.pieces (E.parts_of v.0) c };

    ghost same = { λ v w. E.Parts.same (E.parts_of v.0) (E.parts_of w.0) };

    ghost reads = { λ c. Then (E.Parts.reads c) (Shows (λ w. E.parts_of w.0)) };

    ghost writes = { λ v c. E.Parts.writes (E.parts_of v.0) c };

    ghost law = { λ c. shown_symmetric (λ v. E.parts_of v.0) _ _ _ _ (E.Parts.law c) };
}

impl<E: ToParts> Symmetric<()> for Coded<E>
where
    E::Parts: Symmetric<()>,
{
    ghost symmetric = { λ c. shown_symmetric (λ v. E.FromParts.parts_of v.0) _ _ _ _
        (E.Parts.symmetric c) };
}
