//! Records and other types that are read and written as their parts.

ghost use Rattle.std.specs.Prelude.{◌≡◌, Bool, List, Option, Result, OnOk};
ghost use Rattle.deku_bits.specs.declared.error.DekuError.{DekuError as Refusal};
ghost use Rattle.deku_bits.specs.Streams.{Stream};
ghost use Rattle.deku_bits.specs.Standings.{Standing, Output};
ghost use Rattle.deku_bits.specs.ReaderCalls.{Reads};
ghost use Rattle.deku_bits.specs.WriterCalls.{Writes};
ghost use Rattle.deku.specs.Composing.{Then};
ghost use Rattle.deku.specs.Early.{NoReadAhead};
ghost use Rattle.deku.specs.Shapes.{Shows};
ghost use Rattle.deku_pieces.proofs.Turned.{record_symmetric, record_last};

use crate::last::{PartLast, SymmetricLast};
use crate::traits::{Part, Symmetric};
use deku::ctx::Endian;
use deku::device::{Sink, Source};
use deku::reader::Reader;
use deku::writer::Writer;
use deku::{DekuError, DekuReader, DekuWriter};

/// A record, an enum or another type that can be made of its parts. Its law `there` makes sure that
/// no field is missing from the parts.
///
/// ```text
/// type Parts = (Msb<u8, 4>, Msb<u8, 4>, Be<u16>);             // of a record of three fields
/// ```
pub trait FromParts: Drop {
    /// The parts, in the order of their layout.
    type Parts: Drop;

    // The parts of a value.
    ghost parts_of: { Self → Self.Parts };

    // A value that parts make.
    ghost record_of: { Self.Parts → Self };

    /// The value that these parts make.
    fn from_parts(parts: Self::Parts) -> Self
    where
        Self: Sized,
        ensures { parts_of result ≡ parts };

    // The parts of a value make this value again: no field is missing from them.
    ghost there: { (v : Self) → record_of (parts_of v) ≡ v };
}

/// A record whose parts can be copied out of it.
///
/// ```text
/// fn parts(&self) -> Self::Parts {
///     (Msb(self.sensor), Msb(self.state), Be(self.value))
/// }
/// ```
pub trait ToParts: FromParts {
    /// The parts of the record.
    fn parts(&self) -> Self::Parts
        ensures { result ≡ Self.FromParts.parts_of self.now };
}

/// A record that is read and written as its parts, under this context. If that is `()` or `Endian`,
/// it is `Symmetric`. The page `docs/RECORDS.md` shows one.
///
/// ```text
/// impl Record<()> for Sample {
///     type Layout = SampleParts;
///
///     ghost reads = { λ c b s r u m. m };
///
///     ghost writes = { λ c v b s r u m. m };
/// }
/// ```
pub trait Record<Ctx>: FromParts<Parts = Self::Layout> + DekuReader<Ctx> + DekuWriter<Ctx> {
    /// The parts once more, with their law.
    type Layout: Part<Ctx>;

    // Nothing is read except the parts.
    ghost reads: { (c : Ctx) (b : Bool) (s : Standing (Option Stream)) (r : Result Self Refusal)
        (u : Standing (Option Stream))
        → Self.DekuReader.meaning c b s r u
        → Then (Self.Layout.reads c) (Shows Self.parts_of) b s r u };

    // Nothing is written except the parts.
    ghost writes: { (c : Ctx) (v : Self) (b : Bool) (s : Standing Output)
        (r : Result (Unit {0}) Refusal) (u : Standing Output)
        → Self.DekuWriter.meaning v c b s r u
        → Self.Layout.writes (Self.parts_of v) c b s r u };
}

/// A record that is read and written as its parts, the last of which is read up to the end of the
/// input. It is `SymmetricLast`.
///
/// ```text
/// impl RecordLast for Log {
///     type Layout = LogParts;
///
///     ghost reads = { λ b s r u m. m };
///
///     ghost writes = { λ v b s r u m. m };
/// }
/// ```
pub trait RecordLast: FromParts<Parts = Self::Layout> + DekuReader<()> + DekuWriter<()> {
    /// The parts once more, with their law.
    type Layout: PartLast;

    // Nothing is read except the parts.
    ghost reads: { (b : Bool) (s : Standing (Option Stream)) (r : Result Self Refusal)
        (u : Standing (Option Stream))
        → Self.DekuReader.meaning tt b s r u
        → Then Self.Layout.reads (Shows Self.parts_of) b s r u };

    // Nothing is written except the parts.
    ghost writes: { (v : Self) (b : Bool) (s : Standing Output) (r : Result (Unit {0}) Refusal)
        (u : Standing Output)
        → Self.DekuWriter.meaning v tt b s r u
        → Self.Layout.writes (Self.parts_of v) b s r u };
}

/// Reads the parts and makes the record of them: the body of a record's `from_reader_with_ctx`.
///
/// The caller's condition: the parts may be read under the context. It fails as they do, and what
/// was read before is consumed.
///
/// ```text
/// read_record(reader, ())
/// ```
#[inline(always)]
pub fn read_record<Ctx, T: FromParts, R: Source>(
    reader: &mut Reader<R>,
    ctx: Ctx,
) -> Result<T, DekuError>
where
    T::Parts: DekuReader<Ctx>,
    requires { T.Parts.DekuReader.accepts ctx }
    ensures reads { Reads R.known (Then (T.Parts.DekuReader.meaning ctx) (Shows T.parts_of))
        reader.old result reader.new }
    ensures early { OnOk result (T.Parts.DekuReader.no_read_ahead ctx
        → NoReadAhead R.known reader.old reader.new) }
{
    let parts = T::Parts::from_reader_with_ctx(reader, ctx)?;
    Ok(T::from_parts(parts))
}

/// Writes the parts of the record: the body of a record's `to_writer`. A record that owns memory
/// writes its parts where they are instead, for example with `write_counted`.
///
/// The caller's condition: the parts may be written under the context. It fails as they do, and
/// what was written before stays written.
///
/// ```text
/// write_record(self, writer, ())
/// ```
#[inline(always)]
pub fn write_record<Ctx, T: ToParts, W: Sink>(
    value: &T,
    writer: &mut Writer<W>,
    ctx: Ctx,
) -> Result<(), DekuError>
where
    T::Parts: DekuWriter<Ctx>,
    requires { T.Parts.DekuWriter.accepts ctx }
    ensures { Writes W.known (T.Parts.DekuWriter.meaning (T.FromParts.parts_of value.now) ctx)
        writer.old result writer.new }
{
    value.parts().to_writer(writer, ctx)
}

/// The pieces of the parts.
impl<R: Record<()>> Part<()> for R {
    ghost pieces = { λ v c. R.Layout.pieces (R.parts_of v) c };

    ghost same = { λ v w. R.Layout.same (R.parts_of v) (R.parts_of w) };

    ghost reads = { R.DekuReader.meaning };

    ghost writes = { R.DekuWriter.meaning };

    ghost law = { λ c. record_symmetric R.parts_of (R.Layout.law c) (R.Record.writes c)
        (R.Record.reads c) };
}

impl<R: Record<()>> Symmetric<()> for R {
    ghost symmetric = { λ c. record_symmetric R.parts_of (R.Layout.law c) (R.Record.writes c)
        (R.Record.reads c) };
}

/// The pieces of the parts, under the endian.
impl<R: Record<Endian>> Part<Endian> for R {
    ghost pieces = { λ v c. R.Layout.pieces (R.parts_of v) c };

    ghost same = { λ v w. R.Layout.same (R.parts_of v) (R.parts_of w) };

    ghost reads = { R.DekuReader.meaning };

    ghost writes = { R.DekuWriter.meaning };

    ghost law = { λ c. record_symmetric R.parts_of (R.Layout.law c) (R.Record.writes c)
        (R.Record.reads c) };
}

impl<R: Record<Endian>> Symmetric<Endian> for R {
    ghost symmetric = { λ c. record_symmetric R.parts_of (R.Layout.law c) (R.Record.writes c)
        (R.Record.reads c) };
}

/// The pieces of the parts, if nothing follows them.
impl<R: RecordLast> PartLast for R {
    ghost pieces = { λ v. R.Layout.pieces (R.parts_of v) };

    ghost same = { λ v w. R.Layout.same (R.parts_of v) (R.parts_of w) };

    ghost reads = { R.DekuReader.meaning tt };

    ghost writes = { λ v. R.DekuWriter.meaning v tt };

    ghost law = { record_last R.parts_of R.Layout.law R.RecordLast.writes R.RecordLast.reads };
}

impl<R: RecordLast> SymmetricLast for R {
    ghost symmetric = { record_last R.parts_of R.Layout.law R.RecordLast.writes
        R.RecordLast.reads };
}
