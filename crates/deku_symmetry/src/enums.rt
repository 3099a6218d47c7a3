//! An id, and the value that it chooses: enums.

ghost use Rattle.std.specs.Prelude.{◌≡◌, ℕ, refl};
ghost use Rattle.std.proofs.Common.{ap};
ghost use Rattle.deku_bits.specs.WriterCalls.{Writes};
ghost use Rattle.deku_pieces.specs.Ids.{OfEnum, ReadsEnum, WritesEnum};
ghost use Rattle.deku_pieces.proofs.Ids.{enum_symmetric};

use crate::either::{Kinds, KindsLaw, SymmetricKinds};
use crate::fields::{Lsb, LsbBe, Msb, MsbLe};
use crate::traits::{Part, Symmetric};
use deku::device::{Sink, Source};
use deku::reader::Reader;
use deku::writer::Writer;
use deku::{DekuError, DekuReader, DekuWriter, read_item};
use std::marker::PhantomData;

/// How an id is laid out: a part that is one number without a sign.
///
/// ```text
/// <Msb<u64, 16> as Id>::of_number(0x0800)                     // two bytes, 08 00
/// ```
pub trait Id: Part<()> + Drop {
    // The number, and the part of a number.
    ghost number_of: { Self → ℕ };

    ghost part_of: { ℕ → Self };

    /// The number.
    fn number(&self) -> u64
        ensures { result ≡ number_of self.now };

    /// The part of a number. Writing it fails if the number does not fit.
    fn of_number(number: u64) -> Self
    where
        Self: Sized,
        ensures { result ≡ part_of number };

    // A part is its number, and parts that are the same are equal.
    ghost round: { (n : ℕ) → number_of (part_of n) ≡ n };

    ghost again: { (v : Self) → part_of (number_of v) ≡ v };

    ghost alike: { (v w : Self) → Self.Part.same v w → v ≡ w };
}

impl<const N: usize> Id for Msb<u64, N> {
    ghost number_of = { λ v. v.0 };

    ghost part_of = { λ n. record { 0 = n } };

    fn number(&self) -> u64 {
        self.0
    }

    fn of_number(number: u64) -> Self {
        Msb(number)
    }

    ghost round = { λ n. refl };

    ghost again = { λ v. refl };

    ghost alike = { λ v w e. ap (λ n. record { 0 = n }) e };
}

impl<const N: usize> Id for Lsb<u64, N> {
    ghost number_of = { λ v. v.0 };

    ghost part_of = { λ n. record { 0 = n } };

    fn number(&self) -> u64 {
        self.0
    }

    fn of_number(number: u64) -> Self {
        Lsb(number)
    }

    ghost round = { λ n. refl };

    ghost again = { λ v. refl };

    ghost alike = { λ v w e. ap (λ n. record { 0 = n }) e };
}

impl<const N: usize> Id for MsbLe<u64, N> {
    ghost number_of = { λ v. v.0 };

    ghost part_of = { λ n. record { 0 = n } };

    fn number(&self) -> u64 {
        self.0
    }

    fn of_number(number: u64) -> Self {
        MsbLe(number)
    }

    ghost round = { λ n. refl };

    ghost again = { λ v. refl };

    ghost alike = { λ v w e. ap (λ n. record { 0 = n }) e };
}

impl<const N: usize> Id for LsbBe<u64, N> {
    ghost number_of = { λ v. v.0 };

    ghost part_of = { λ n. record { 0 = n } };

    fn number(&self) -> u64 {
        self.0
    }

    fn of_number(number: u64) -> Self {
        LsbBe(number)
    }

    ghost round = { λ n. refl };

    ghost again = { λ v. refl };

    ghost alike = { λ v w e. ap (λ n. record { 0 = n }) e };
}

/// An id that is laid out as `I`, and after it a value of the kinds `K` that the id chooses.
///
/// Reading fails as the id does, and then as the chosen value does. If no kind has the id that was
/// read, it fails with `IdVariantNotFound`, and the reader is after the id. Writing fails with
/// `Assertion("kind out of step with its id")` if the id would choose another kind; then nothing
/// moves. Otherwise it fails as the id does, for example if it does not fit, and then as the
/// value does.
///
/// ```text
/// type Parts = MsbEnum<Either<Kind<Be<u16>, 1>, Kind<(), 2>>, 8>; // 01 BE EF, or 02
/// ```
#[derive(Debug, PartialEq, Eq, Drop)]
pub struct Enum<I, K> {
    /// The value.
    pub kind: K,
    /// How its id is laid out.
    pub id: PhantomData<I>,
}

/// An id of `N` bits with its high bits first, and the value that it chooses.
pub type MsbEnum<K, const N: usize> = Enum<Msb<u64, N>, K>;

/// An id of `N` bits with its low bits first, and the value that it chooses.
pub type LsbEnum<K, const N: usize> = Enum<Lsb<u64, N>, K>;

/// An id of `N` bits in `Msb0` with its low byte first, and the value that it chooses.
pub type MsbLeEnum<K, const N: usize> = Enum<MsbLe<u64, N>, K>;

/// An id of `N` bits in `Lsb0` with its high byte first, and the value that it chooses.
pub type LsbBeEnum<K, const N: usize> = Enum<LsbBe<u64, N>, K>;

impl<I, K> Enum<I, K> {
    /// Wraps a value of one of the kinds.
    ///
    /// ```text
    /// Enum::new(Either::This(Kind(Be(0xBEEF))))             // of the kinds above
    /// ```
    pub fn new(kind: K) -> Enum<I, K>
        ensures { result ≡ record { kind = kind; id = record {} } }
    {
        Enum {
            kind,
            id: PhantomData,
        }
    }
}

impl<I: Id + DekuReader<()>, K: Kinds> DekuReader<()> for Enum<I, K> {
    ghost accepts = { λ _. I.DekuReader.accepts tt × K.readable };

    ghost no_read_ahead = { λ _. I.DekuReader.no_read_ahead tt × K.no_read_ahead };

    ghost meaning = { λ _. ReadsEnum (λ k. record { kind = k; id = record {} }) I.Id.number_of
        (I.DekuReader.meaning tt) K.reads };

    #[inline(always)]
    fn from_reader_with_ctx<R: Source>(reader: &mut Reader<R>, c: ()) -> Result<Self, DekuError> {
        let id: I = read_item(reader, c)?;
        let kind = K::read_kind(reader, id.number())?;
        Ok(Enum::new(kind))
    }
}

impl<I: Id + DekuWriter<()>, K: Kinds> DekuWriter<()> for Enum<I, K> {
    ghost accepts = { λ _. I.DekuWriter.accepts tt × K.writable };

    ghost meaning = { λ v _. WritesEnum (λ n. I.DekuWriter.meaning (I.Id.part_of n) tt) K.id_of
        K.own K.writes v.kind };

    #[inline(always)]
    fn to_writer<W: Sink>(&self, writer: &mut Writer<W>, _ctx: ()) -> Result<(), DekuError> {
        if !self.kind.is_own() {
            return Err(DekuError::Assertion("kind out of step with its id"));
        }
        let id = I::of_number(self.kind.id());
        id.to_writer(writer, ())?;
        self.kind.write_kind(writer)
    }
}

/// Writes the id of a kind, and then parts in place of its own value: the body of an arm of an
/// enum's `to_writer`, if the enum holds memory and its parts are written where they are.
///
/// The caller's condition: the id and the parts may be written. It fails with `Assertion("kind out
/// of step with its id")` if the id chooses another kind; then nothing moves. Otherwise it fails as
/// the id does, and then as the parts do.
///
/// ```text
/// type Ids = MsbEnum<Either<Kind<(), 1>, Otherwise<()>>, 8>;
///
/// let id: Ids = Enum::new(Either::Other(InRange { id: 7, value: () }));
/// write_kind(&id, &bytes, writer)                             // 07, and then the bytes
/// ```
#[inline(always)]
pub fn write_kind<I: Id + DekuWriter<()>, K: Kinds, A: DekuWriter<()>, W: Sink>(
    id: &Enum<I, K>,
    parts: &A,
    writer: &mut Writer<W>,
) -> Result<(), DekuError>
    requires id { I.DekuWriter.accepts tt }
    requires parts { A.accepts tt }
    ensures { Writes W.known (WritesEnum (λ n. I.DekuWriter.meaning (I.Id.part_of n) tt) K.id_of
        K.own (λ _. A.meaning parts.now tt) id.now.kind) writer.old result writer.new }
{
    if !id.kind.is_own() {
        return Err(DekuError::Assertion("kind out of step with its id"));
    }
    let number = I::of_number(id.kind.id());
    number.to_writer(writer, ())?;
    parts.to_writer(writer, ())
}

/// The pieces of the id, and then those of the value that it chooses.
impl<I: Id, K: KindsLaw> Part<()> for Enum<I, K> {
    ghost pieces = { λ v _. OfEnum (λ n. I.Part.pieces (I.Id.part_of n) tt) K.KindIds.id_of
        K.KindIds.own K.pieces v.kind };

    ghost same = { λ v w. K.same v.kind w.kind };

    ghost reads = { λ _. ReadsEnum (λ k. record { kind = k; id = record {} }) I.Id.number_of
        (I.Part.reads tt) K.reads };

    ghost writes = { λ v _. WritesEnum (λ n. I.Part.writes (I.Id.part_of n) tt) K.KindIds.id_of
        K.KindIds.own K.writes v.kind };

    ghost law = { λ _. enum_symmetric (λ k. record { kind = k; id = record {} }) (λ v. v.kind)
        (λ k. refl) I.Id.number_of I.Id.part_of I.Id.round I.Id.again I.Id.alike K.KindIds.id_of
        K.KindIds.own K.pieces (I.Part.law tt) K.law };
}

impl<I: Id + Symmetric<()>, K: SymmetricKinds> Symmetric<()> for Enum<I, K> {
    ghost symmetric = { λ _. enum_symmetric (λ k. record { kind = k; id = record {} }) (λ v. v.kind)
        (λ k. refl) I.Id.number_of I.Id.part_of I.Id.round I.Id.again I.Id.alike K.KindIds.id_of
        K.KindIds.own K.KindsLaw.pieces (I.Symmetric.symmetric tt) K.symmetric };
}
