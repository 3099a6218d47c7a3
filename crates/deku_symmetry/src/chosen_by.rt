//! Values of a kind that the parts before them choose.

ghost use Rattle.std.specs.Prelude.{◌≡◌, ℕ, MatchBool, refl};
ghost use Rattle.deku_bits.specs.WriterCalls.{Writes};
ghost use Rattle.deku_pieces.specs.Following.{ReadsUnderHead, IsOfId, OfChosen, WritesChosenBy};
ghost use Rattle.deku_pieces.proofs.Following.{chosen_by_symmetric};

use crate::either::{Kinds, KindsLaw, SymmetricKinds};
use crate::record::ToParts;
use crate::traits::{Part, Symmetric};
use deku::device::{Sink, Source};
use deku::reader::Reader;
use deku::writer::Writer;
use deku::{DekuError, DekuReader, DekuWriter};
use std::marker::PhantomData;

/// The id that some parts say.
///
/// ```text
/// impl IdOf<Front> for Protocol {                            // of a version and a protocol
///     ghost id_of = { λ head. head.1.0 };
///
///     fn id(head: &Front) -> u64 {
///         head.1.0 as u64
///     }
/// }
/// ```
pub trait IdOf<P>: Drop {
    // The id.
    ghost id_of: { P → ℕ };

    /// Returns the id.
    fn id(head: &P) -> u64
        ensures { result ≡ id_of head.now };
}

/// Heads that are the same give the same id.
///
/// ```text
/// impl IdOfLaw<Front> for Protocol {
///     ghost alike = { λ v w e. e.1 };
/// }
/// ```
pub trait IdOfLaw<P: Part<()>>: IdOf<P> {
    // Heads that are the same give the same id.
    ghost alike: { (v w : P) → P.same v w → Self.IdOf.id_of v ≡ Self.IdOf.id_of w };
}

/// Parts, and after them a value of the kinds `K`: of the kind that `C` says of the parts.
///
/// Reading fails as the head does, and then as the chosen value does. If no kind has the id, it
/// fails with `IdVariantNotFound`, and the head is consumed. Writing fails with `Assertion("kind
/// out of step with its id")` if the head chooses another kind than that of the value; then nothing
/// moves. Otherwise it fails as the head does, and then as the value does.
///
/// ```text
/// type Front = (Msb<u8, 4>, Msb<u8, 4>);
/// // 41 BE EF, or 42
/// type Parts = ChosenBy<Front, Protocol, Either<Kind<Be<u16>, 1>, Kind<(), 2>>>;
/// ```
#[derive(Debug, PartialEq, Eq, Drop)]
pub struct ChosenBy<P, C, K> {
    /// The parts before the value.
    pub head: P,
    /// The value.
    pub kind: K,
    /// The id.
    pub id: PhantomData<C>,
}

impl<P, C, K> ChosenBy<P, C, K> {
    /// Parts and the value after them. Writing checks that they agree.
    ///
    /// ```text
    /// ChosenBy::<_, Protocol, _>::new((Msb(4), Msb(1)), Either::This(Kind(Be(0xBEEF))))
    /// ```
    pub fn new(head: P, kind: K) -> ChosenBy<P, C, K>
        ensures { result ≡ record { head = head; kind = kind; id = record {} } }
    {
        ChosenBy {
            head,
            kind,
            id: PhantomData,
        }
    }
}

impl<P: DekuReader<()>, C: IdOf<P>, K: Kinds> DekuReader<()> for ChosenBy<P, C, K> {
    ghost accepts = { λ _. P.accepts tt × K.readable };

    ghost no_read_ahead = { λ _. P.no_read_ahead tt × K.no_read_ahead };

    ghost meaning = { λ _. ReadsUnderHead (λ h k. record { head = h; kind = k; id = record {} })
        C.id_of (P.meaning tt) K.reads };

    #[inline(always)]
    fn from_reader_with_ctx<R: Source>(reader: &mut Reader<R>, c: ()) -> Result<Self, DekuError> {
        let head = P::from_reader_with_ctx(reader, c)?;
        let kind = K::read_kind(reader, C::id(&head))?;
        Ok(ChosenBy::new(head, kind))
    }
}

// Whether the id chooses the kind of the value.
#[inline(always)]
fn is_of_id<K: Kinds>(id: u64, kind: &K) -> bool
    ensures { MatchBool result (IsOfId K.id_of K.own id kind.now)
        (IsOfId K.id_of K.own id kind.now → ⊥) }
{
    id == kind.id() && kind.is_own()
}

impl<P: DekuWriter<()>, C: IdOf<P>, K: Kinds> DekuWriter<()> for ChosenBy<P, C, K> {
    ghost accepts = { λ _. P.accepts tt × K.writable };

    ghost meaning = { λ v _. WritesChosenBy C.id_of K.id_of K.own (λ h. P.meaning h tt) K.writes
        v.head v.kind };

    #[inline(always)]
    fn to_writer<W: Sink>(&self, writer: &mut Writer<W>, _ctx: ()) -> Result<(), DekuError> {
        write_chosen::<P, C, K, W>(&self.head, &self.kind, writer)
    }
}

// Writes a head and a value, as a `ChosenBy` of both is written.
#[inline(always)]
fn write_chosen<P: DekuWriter<()>, C: IdOf<P>, K: Kinds, W: Sink>(
    head: &P,
    kind: &K,
    writer: &mut Writer<W>,
) -> Result<(), DekuError>
    requires head { P.accepts tt }
    requires kind { K.writable }
    ensures { Writes W.known (WritesChosenBy C.id_of K.id_of K.own (λ h. P.meaning h tt) K.writes
        head.now kind.now) writer.old result writer.new }
{
    if !is_of_id(C::id(head), kind) {
        return Err(DekuError::Assertion("kind out of step with its id"));
    }
    head.to_writer(writer, ())?;
    kind.write_kind(writer)
}

/// The pieces of the head, and then those of the value. There are no pieces if the head chooses
/// another kind.
impl<P: Part<()>, C: IdOfLaw<P>, K: KindsLaw> Part<()> for ChosenBy<P, C, K> {
    ghost pieces = { λ v _. OfChosen C.IdOf.id_of K.KindIds.id_of K.KindIds.own (λ h. P.pieces h tt)
        K.pieces v.head v.kind };

    ghost same = { λ v w. P.same v.head w.head × K.same v.kind w.kind };

    ghost reads = { λ _. ReadsUnderHead (λ h k. record { head = h; kind = k; id = record {} })
        C.IdOf.id_of (P.reads tt) K.reads };

    ghost writes = { λ v _. WritesChosenBy C.IdOf.id_of K.KindIds.id_of K.KindIds.own
        (λ h. P.writes h tt) K.writes v.head v.kind };

    ghost law = { λ _. chosen_by_symmetric (λ h k. record { head = h; kind = k; id = record {} })
        (λ v. v.head) (λ v. v.kind) (λ h k. refl) (λ h k. refl) C.IdOf.id_of C.IdOfLaw.alike
        K.KindIds.id_of K.KindIds.own (P.law tt) K.law };
}

impl<P: Symmetric<()>, C: IdOfLaw<P>, K: SymmetricKinds> Symmetric<()> for ChosenBy<P, C, K> {
    ghost symmetric = { λ _. chosen_by_symmetric
        (λ h k. record { head = h; kind = k; id = record {} })
        (λ v. v.head) (λ v. v.kind) (λ h k. refl) (λ h k. refl) C.IdOf.id_of C.IdOfLaw.alike
        K.KindIds.id_of K.KindIds.own (P.symmetric tt) K.symmetric };
}

/// Parts, and a record that is elsewhere in memory: it is written as `ChosenBy` of the parts and of
/// the kinds that the record is made of.
///
/// ```text
/// ChosenByRef::<_, Protocol, _> {
///     head: (Msb(4), Msb(self.protocol)),
///     value: &self.body,
///     id: PhantomData,
/// }
/// .to_writer(writer, ())
/// ```
#[derive(Drop)]
pub struct ChosenByRef<'a, P, C, T> {
    /// The parts before the record.
    pub head: P,
    /// The record.
    pub value: &'a T,
    /// The id.
    pub id: PhantomData<C>,
}

impl<'a, P: DekuWriter<()>, C: IdOf<P>, T: ToParts> DekuWriter<()> for ChosenByRef<'a, P, C, T>
where
    T::Parts: Kinds,
{
    ghost accepts = { λ _. P.accepts tt × T.Parts.Kinds.writable };

    ghost meaning = { λ v _. WritesChosenBy C.id_of T.Parts.KindIds.id_of T.Parts.KindIds.own
        (λ h. P.meaning h tt) T.Parts.Kinds.writes v.head (T.FromParts.parts_of v.value.now) };

    #[inline(always)]
    fn to_writer<W: Sink>(&self, writer: &mut Writer<W>, _ctx: ()) -> Result<(), DekuError> {
        let kind = self.value.parts();
        write_chosen::<P, C, T::Parts, W>(&self.head, &kind, writer)
    }
}
