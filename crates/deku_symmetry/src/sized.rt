//! The laws of parts that decide how much follows them, and how it is laid out.

ghost use Rattle.std.specs.Prelude.{◌≡◌, refl};
ghost use Rattle.deku_pieces.specs.Pieces.{InTurn, OfEachBroad, SameEach};
ghost use Rattle.deku.specs.Composing.{Both, WritesEach};
ghost use Rattle.deku_pieces.specs.Sizes.{OfSizes, ReadsSizes, ReadsFilled, WritesSizes};
ghost use Rattle.deku_pieces.specs.Following.{ReadsUnderHead};
ghost use Rattle.deku_pieces.proofs.Sizes.{sizes_symmetric};
ghost use Rattle.deku_pieces.proofs.Filling.{filled_by_symmetric};
ghost use Rattle.deku_pieces.proofs.Following.{under_symmetric};

use crate::traits::{Part, Symmetric};
use deku_pieces::filled_by::FilledBy;
use deku_pieces::sized_by::{SizeOf, SizedBy};
use deku_pieces::under_head::{ContextOf, UnderHead};

/// Heads that are the same give the same size.
///
/// ```text
/// impl SizeOfLaw<Be<u16>> for Length {
///     ghost alike = { λ v w e. rw e refl };
/// }
/// ```
pub trait SizeOfLaw<P: Part<()>>: SizeOf<P> {
    // Heads that are the same give the same size.
    ghost alike: { (v w : P) → P.same v w
        → Self.SizeOf.size_of v ≡ Self.SizeOf.size_of w };
}

/// The pieces of the head, and then those of its content. There are no pieces if the content does
/// not have as many bits as the head says.
impl<P: Part<()>, C: SizeOfLaw<P>, T: Part<()>> Part<()> for SizedBy<P, C, T> {
    ghost pieces = { λ v _. OfSizes C.SizeOf.size_of (λ h. P.pieces h tt) (λ x. T.pieces x tt)
        v.head v.content };

    ghost same = { λ v w. P.same v.head w.head × T.same v.content w.content };

    ghost reads = { λ _. ReadsSizes (λ h x. record { head = h; content = x; size = record {} })
        C.SizeOf.size_of (P.reads tt) (T.reads tt) };

    ghost writes = { λ v _. WritesSizes C.SizeOf.size_of (λ h. P.writes h tt) (λ x. T.writes x tt)
        v.head v.content };

    ghost law = { λ _. sizes_symmetric (λ h x. record { head = h; content = x; size = record {} })
        (λ v. v.head) (λ v. v.content) (λ h x. refl) (λ h x. refl) C.SizeOf.size_of
        C.SizeOfLaw.alike (P.law tt) (T.law tt) };
}

impl<P: Symmetric<()>, C: SizeOfLaw<P>, T: Symmetric<()>> Symmetric<()> for SizedBy<P, C, T> {
    ghost symmetric = { λ _. sizes_symmetric
        (λ h x. record { head = h; content = x; size = record {} })
        (λ v. v.head) (λ v. v.content) (λ h x. refl) (λ h x. refl) C.SizeOf.size_of
        C.SizeOfLaw.alike (P.symmetric tt) (T.symmetric tt) };
}

/// The pieces of the head, and then those of its items. There are no pieces if an item has no bits,
/// or if all do not have as many as the head says.
impl<P: Part<()>, C: SizeOfLaw<P>, T: Part<()>> Part<()> for FilledBy<P, C, T> {
    ghost pieces = { λ v _. OfSizes C.SizeOf.size_of (λ h. P.pieces h tt)
        (λ xs. OfEachBroad (λ x. T.pieces x tt) xs.items) v.head v.items };

    ghost same = { λ v w. P.same v.head w.head × SameEach T.same v.items.items w.items.items };

    ghost reads = { λ _. ReadsFilled (λ h xs. record { head = h; items = xs; size = record {} })
        C.SizeOf.size_of (P.reads tt) (T.reads tt) };

    ghost writes = { λ v _. WritesSizes C.SizeOf.size_of (λ h. P.writes h tt)
        (λ xs. WritesEach (λ x. T.writes x tt) xs.items) v.head v.items };

    ghost law = { λ _. filled_by_symmetric
        (λ h xs. record { head = h; items = xs; size = record {} })
        (λ v. v.head) (λ v. v.items) (λ h xs. refl) (λ h xs. refl) C.SizeOf.size_of
        C.SizeOfLaw.alike (P.law tt) (T.law tt) };
}

impl<P: Symmetric<()>, C: SizeOfLaw<P>, T: Symmetric<()>> Symmetric<()> for FilledBy<P, C, T> {
    ghost symmetric = { λ _. filled_by_symmetric
        (λ h xs. record { head = h; items = xs; size = record {} })
        (λ v. v.head) (λ v. v.items) (λ h xs. refl) (λ h xs. refl) C.SizeOf.size_of
        C.SizeOfLaw.alike (P.symmetric tt) (T.symmetric tt) };
}

/// Heads that are the same give the same context.
///
/// ```text
/// impl ContextOfLaw<u8, (Endian, BitSize)> for Width {
///     ghost alike = { λ v w e. rw e refl };
/// }
/// ```
pub trait ContextOfLaw<P: Part<()>, I>: ContextOf<P, I> {
    // Heads that are the same give the same context.
    ghost alike: { (v w : P) → P.same v w
        → Self.ContextOf.context_of v ≡ Self.ContextOf.context_of w };
}

/// The pieces of the head, and then those of the value under the context that the head says.
impl<P: Part<()>, C: ContextOfLaw<P, I>, T: Part<I>, I: Drop> Part<()> for UnderHead<P, C, T, I> {
    ghost pieces = { λ v _. InTurn (P.pieces v.head tt)
        (T.pieces v.value (C.ContextOf.context_of v.head)) };

    ghost same = { λ v w. P.same v.head w.head × T.same v.value w.value };

    ghost reads = { λ _. ReadsUnderHead
        (λ h x. record { head = h; value = x; context = record {} }) C.ContextOf.context_of
        (P.reads tt) T.reads };

    ghost writes = { λ v _. Both (P.writes v.head tt)
        (T.writes v.value (C.ContextOf.context_of v.head)) };

    ghost law = { λ _. under_symmetric
        (λ h x. record { head = h; value = x; context = record {} })
        (λ v. v.head) (λ v. v.value) (λ h x. refl) (λ h x. refl) C.ContextOf.context_of
        C.ContextOfLaw.alike (P.law tt) T.law };
}

impl<P: Symmetric<()>, C: ContextOfLaw<P, I>, T: Symmetric<I>, I: Drop> Symmetric<()>
    for UnderHead<P, C, T, I> {
    ghost symmetric = { λ _. under_symmetric
        (λ h x. record { head = h; value = x; context = record {} })
        (λ v. v.head) (λ v. v.value) (λ h x. refl) (λ h x. refl) C.ContextOf.context_of
        C.ContextOfLaw.alike (P.symmetric tt) T.symmetric };
}
