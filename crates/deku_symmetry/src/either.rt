//! Kinds of values that an id chooses: the parts of enums.

ghost use Rattle.std.specs.Prelude.{◌≡◌, ℕ, nat_eq, Bool, true, ◌||◌, List, Option};
ghost use Rattle.std.specs.Prelude.{OnOk, refl};
ghost use Rattle.deku_bits.specs.Pieces.{Piece};
ghost use Rattle.deku_bits.specs.Streams.{Stream};
ghost use Rattle.deku_bits.specs.Standings.{Output};
ghost use Rattle.deku_bits.specs.Outcomes.{Meaning, Mapped};
ghost use Rattle.deku_bits.specs.ReaderCalls.{Reads};
ghost use Rattle.deku_bits.specs.WriterCalls.{Writes};
ghost use Rattle.deku.specs.Early.{NoReadAhead};
ghost use Rattle.deku_pieces.specs.Symmetric.{IsSymmetric};
ghost use Rattle.deku_pieces.specs.Ids.{in_range, id_of_either, is_own, UnderOwn, OfEither};
ghost use Rattle.deku_pieces.specs.Ids.{SameEither, IfKnown, ReadsEither, WritesEither};
ghost use Rattle.deku_pieces.proofs.Ids.{one_symmetric, one_knows, range_symmetric};
ghost use Rattle.deku_pieces.proofs.Ids.{either_symmetric, either_knows};

use crate::traits::{Part, Symmetric};
use deku::device::{Sink, Source};
use deku::reader::Reader;
use deku::writer::Writer;
use deku::{DekuError, DekuReader, DekuWriter};
use deku_pieces::{Either, InRange, Kind};

/// The ids of values of one or several kinds.
pub trait KindIds {
    // Which ids choose a value of these kinds.
    ghost knows: { ℕ → Bool };

    // The id of a value.
    ghost id_of: { Self → ℕ };

    // Whether the id of a value chooses its kind.
    ghost own: { Self → Bool };
}

/// Values of one or several kinds, each of which has an id. They are read under an id that was read
/// before them, and written after it.
///
/// ```text
/// type Kinds = Either<Kind<Be<u16>, 1>, Kind<(), 2>>;         // these are kinds of values
/// ```
pub trait Kinds: KindIds + Drop {
    // Whether the values may be read, and written, and that no byte is fetched too early.
    ghost readable: { Type 0 };

    ghost writable: { Type 0 };

    ghost no_read_ahead: { Type 0 };

    // What reading under an id, and writing, return and leave.
    ghost reads: { ℕ → Meaning (Option Stream) Self };

    ghost writes: { Self → Meaning Output (Unit {0}) };

    /// Whether the id chooses a value of these kinds.
    fn knows(id: u64) -> bool
        ensures { result ≡ Self.KindIds.knows id };

    /// Returns the id of the value.
    fn id(&self) -> u64
        ensures { result ≡ Self.KindIds.id_of self.now };

    /// Whether the id of the value chooses its kind. It does not if a kind before it has the id.
    fn is_own(&self) -> bool
        ensures { result ≡ Self.KindIds.own self.now };

    /// Reads a value under an id. If no kind has the id, it fails with `IdVariantNotFound`, and
    /// nothing moves. Otherwise it fails as the value does.
    ///
    /// The caller's condition: the values may be read.
    fn read_kind<R: Source>(reader: &mut Reader<R>, id: u64) -> Result<Self, DekuError>
    where
        Self: Sized,
        requires { readable }
        ensures reads { Reads R.known (reads id) reader.old result reader.new }
        ensures early { OnOk result (no_read_ahead → NoReadAhead R.known reader.old reader.new) };

    /// Writes the value, without its id. It fails as the value does.
    ///
    /// The caller's condition: the values may be written.
    fn write_kind<W: Sink>(&self, writer: &mut Writer<W>) -> Result<(), DekuError>
        requires { writable }
        ensures { Writes W.known (writes self.now) writer.old result writer.new };
}

/// The law of kinds: that of `Part`, for the values whose id is this one.
pub trait KindsLaw: KindIds {
    // The pieces of a value, without its id; and when two values are the same.
    ghost pieces: { Self → List Piece → Type 0 };

    ghost same: { Self → Self → Type 0 };

    // What reading under an id, and writing, return and leave.
    ghost reads: { ℕ → Meaning (Option Stream) Self };

    ghost writes: { Self → Meaning Output (Unit {0}) };

    // The id of a value is one of those that choose these kinds.
    ghost known: { (v : Self) → Self.KindIds.own v ≡ true
        → Self.KindIds.knows (Self.KindIds.id_of v) ≡ true };

    // The law.
    ghost law: { (id : ℕ) → IsSymmetric
        (UnderOwn Self.KindIds.id_of Self.KindIds.own pieces id) same writes (reads id) };
}

/// Kinds whose values are read as they are written: their law holds for how `Kinds` reads and
/// writes them.
pub trait SymmetricKinds: Kinds + KindsLaw {
    // The law, for this reading and writing.
    ghost symmetric: { (id : ℕ) → IsSymmetric
        (UnderOwn Self.KindIds.id_of Self.KindIds.own Self.KindsLaw.pieces id) Self.KindsLaw.same
        Self.Kinds.writes (Self.Kinds.reads id) };
}

impl<A, const ID: u64> KindIds for Kind<A, ID> {
    ghost knows = { λ id. nat_eq id ID };

    ghost id_of = { λ _. ID };

    ghost own = { λ _. true };
}

/// A value under its id only.
impl<A: DekuReader<()> + DekuWriter<()>, const ID: u64> Kinds for Kind<A, ID> {
    ghost readable = { A.DekuReader.accepts tt };

    ghost writable = { A.DekuWriter.accepts tt };

    ghost no_read_ahead = { A.DekuReader.no_read_ahead tt };

    ghost reads = { λ id. IfKnown (nat_eq id ID)
        (Mapped (λ a. record { 0 = a }) (A.DekuReader.meaning tt)) };

    ghost writes = { λ v. A.DekuWriter.meaning v.0 tt };

    fn knows(id: u64) -> bool {
        id == ID
    }

    fn id(&self) -> u64 {
        ID
    }

    fn is_own(&self) -> bool {
        true
    }

    #[inline(always)]
    fn read_kind<R: Source>(reader: &mut Reader<R>, id: u64) -> Result<Self, DekuError> {
        if id != ID {
            return Err(DekuError::IdVariantNotFound);
        }
        let value = A::from_reader_with_ctx(reader, ())?;
        Ok(Kind(value))
    }

    #[inline(always)]
    fn write_kind<W: Sink>(&self, writer: &mut Writer<W>) -> Result<(), DekuError> {
        self.0.to_writer(writer, ())
    }
}

/// The pieces of the value.
impl<A: Part<()>, const ID: u64> KindsLaw for Kind<A, ID> {
    ghost pieces = { λ v. A.pieces v.0 tt };

    ghost same = { λ v w. A.same v.0 w.0 };

    ghost reads = { λ id. IfKnown (nat_eq id ID) (Mapped (λ a. record { 0 = a }) (A.reads tt)) };

    ghost writes = { λ v. A.writes v.0 tt };

    ghost known = { λ v own. one_knows ID };

    ghost law = { λ id. one_symmetric (λ a. record { 0 = a }) (λ v. v.0) (λ a. refl) ID id
        (A.law tt) };
}

impl<A: Symmetric<()>, const ID: u64> SymmetricKinds for Kind<A, ID> {
    ghost symmetric = { λ id. one_symmetric (λ a. record { 0 = a }) (λ v. v.0) (λ a. refl) ID id
        (A.symmetric tt) };
}

impl<A, const LOW: u64, const HIGH: u64> KindIds for InRange<A, LOW, HIGH> {
    ghost knows = { in_range LOW HIGH };

    ghost id_of = { λ v. v.id };

    ghost own = { λ v. in_range LOW HIGH v.id };
}

/// A value under the id that it keeps, if that is in the range.
impl<A: DekuReader<()> + DekuWriter<()>, const LOW: u64, const HIGH: u64> Kinds
    for InRange<A, LOW, HIGH> {
    ghost readable = { A.DekuReader.accepts tt };

    ghost writable = { A.DekuWriter.accepts tt };

    ghost no_read_ahead = { A.DekuReader.no_read_ahead tt };

    ghost reads = { λ id. IfKnown (in_range LOW HIGH id)
        (Mapped (λ a. record { id = id; value = a }) (A.DekuReader.meaning tt)) };

    ghost writes = { λ v. A.DekuWriter.meaning v.value tt };

    fn knows(id: u64) -> bool {
        LOW <= id && id <= HIGH
    }

    fn id(&self) -> u64 {
        self.id
    }

    fn is_own(&self) -> bool {
        LOW <= self.id && self.id <= HIGH
    }

    #[inline(always)]
    fn read_kind<R: Source>(reader: &mut Reader<R>, id: u64) -> Result<Self, DekuError> {
        if !Self::knows(id) {
            return Err(DekuError::IdVariantNotFound);
        }
        let value = A::from_reader_with_ctx(reader, ())?;
        Ok(InRange { id, value })
    }

    #[inline(always)]
    fn write_kind<W: Sink>(&self, writer: &mut Writer<W>) -> Result<(), DekuError> {
        self.value.to_writer(writer, ())
    }
}

/// The pieces of the value.
impl<A: Part<()>, const LOW: u64, const HIGH: u64> KindsLaw for InRange<A, LOW, HIGH> {
    ghost pieces = { λ v. A.pieces v.value tt };

    ghost same = { λ v w. (v.id ≡ w.id) × A.same v.value w.value };

    ghost reads = { λ id. IfKnown (in_range LOW HIGH id)
        (Mapped (λ a. record { id = id; value = a }) (A.reads tt)) };

    ghost writes = { λ v. A.writes v.value tt };

    ghost known = { λ v own. own };

    ghost law = { λ id. range_symmetric (λ i a. record { id = i; value = a }) (λ v. v.id)
        (λ v. v.value) (λ i a. refl) (λ i a. refl) LOW HIGH id (A.law tt) };
}

impl<A: Symmetric<()>, const LOW: u64, const HIGH: u64> SymmetricKinds for InRange<A, LOW, HIGH> {
    ghost symmetric = { λ id. range_symmetric (λ i a. record { id = i; value = a }) (λ v. v.id)
        (λ v. v.value) (λ i a. refl) (λ i a. refl) LOW HIGH id (A.symmetric tt) };
}

impl<A: KindIds, B: KindIds> KindIds for Either<A, B> {
    ghost knows = { λ id. A.knows id || B.knows id };

    ghost id_of = { id_of_either A.id_of B.id_of };

    ghost own = { is_own A.knows A.own B.own B.id_of };
}

/// A value of the first kinds that its id chooses.
impl<A: Kinds, B: Kinds> Kinds for Either<A, B> {
    ghost readable = { A.readable × B.readable };

    ghost writable = { A.writable × B.writable };

    ghost no_read_ahead = { A.no_read_ahead × B.no_read_ahead };

    ghost reads = { λ id. ReadsEither (A.KindIds.knows id) (A.Kinds.reads id) (B.Kinds.reads id) };

    ghost writes = { WritesEither A.Kinds.writes B.Kinds.writes };

    fn knows(id: u64) -> bool {
        A::knows(id) || B::knows(id)
    }

    fn id(&self) -> u64 {
        match self {
            Either::This(value) => value.id(),
            Either::Other(other) => other.id(),
        }
    }

    fn is_own(&self) -> bool {
        match self {
            Either::This(value) => value.is_own(),
            Either::Other(other) => other.is_own() && !A::knows(other.id()),
        }
    }

    #[inline(always)]
    fn read_kind<R: Source>(reader: &mut Reader<R>, id: u64) -> Result<Self, DekuError> {
        if A::knows(id) {
            let value = A::read_kind(reader, id)?;
            return Ok(Either::This(value));
        }
        let other = B::read_kind(reader, id)?;
        Ok(Either::Other(other))
    }

    #[inline(always)]
    fn write_kind<W: Sink>(&self, writer: &mut Writer<W>) -> Result<(), DekuError> {
        match self {
            Either::This(value) => value.write_kind(writer),
            Either::Other(other) => other.write_kind(writer),
        }
    }
}

/// The pieces of the value.
impl<A: KindsLaw, B: KindsLaw> KindsLaw for Either<A, B> {
    ghost pieces = { OfEither A.pieces B.pieces };

    ghost same = { SameEither A.same B.same };

    ghost reads = { λ id. ReadsEither (A.KindIds.knows id) (A.reads id) (B.reads id) };

    ghost writes = { WritesEither A.writes B.writes };

    ghost known = { either_knows A.KindIds.knows B.KindIds.knows A.KindIds.id_of B.KindIds.id_of
        A.KindIds.own B.KindIds.own A.known B.known };

    ghost law = { λ id. either_symmetric A.KindIds.knows A.KindIds.id_of B.KindIds.id_of
        A.KindIds.own B.KindIds.own id A.known (A.law id) (B.law id) };
}

impl<A: SymmetricKinds, B: SymmetricKinds> SymmetricKinds for Either<A, B> {
    ghost symmetric = { λ id. either_symmetric A.KindIds.knows A.KindIds.id_of B.KindIds.id_of
        A.KindIds.own B.KindIds.own id A.known (A.symmetric id) (B.symmetric id) };
}
