//! Parts on which other parts depend.

ghost use Rattle.std.specs.Prelude.{◌≡◌, ◌<◌, List, refl, ⊤};
ghost use Rattle.deku_bits.specs.Pieces.{Piece};
ghost use Rattle.deku_pieces.specs.Symmetric.{breadth};
ghost use Rattle.deku_bits.specs.Outcomes.{Mapped};
ghost use Rattle.deku.specs.Limits.{MappedBy};
ghost use Rattle.deku_pieces.specs.Leading.{OfCountedBy, SameCountedBy, ReadsCountedBy};
ghost use Rattle.deku_pieces.specs.Leading.{WritesCountedBy};
ghost use Rattle.deku_pieces.proofs.Heads.{counted_by_symmetric};
ghost use Rattle.deku_pieces.specs.Pieces.{SameEach};
ghost use Rattle.deku_pieces.specs.Ending.{OfEnded, ReadsEnded, WritesEnded};
ghost use Rattle.deku_pieces.proofs.Ending.{ended_symmetric};
ghost use Rattle.deku_pieces.specs.Asserting.{OfPassing, ReadsAsserted, WritesAsserted, ReadsMagic};
ghost use Rattle.deku_pieces.proofs.Passing.{asserted_symmetric, magic_symmetric};

use crate::traits::{Part, Symmetric};
use deku_pieces::assertion::{Assert, Check};
use deku_pieces::counted::{Counted, ItemCount};
use deku_pieces::magic::{Constant, Magic};
use deku_pieces::until::{Last, Until};

/// A head that says how many items follow it. Heads that are the same give the same count.
pub trait ItemCountLaw: ItemCount + Part<()> {
    // Heads that are the same give the same count.
    ghost alike: { (v w : Self) → Self.Part.same v w
        → Self.ItemCount.count_of v ≡ Self.ItemCount.count_of w };
}

impl ItemCountLaw for u8 {
    ghost alike = { λ v w e. rw e refl };
}

/// The pieces of the head, and then those of its items. There are no pieces if the number of items
/// is not the one that the head gives.
impl<H: ItemCountLaw, T: Part<()>> Part<()> for Counted<H, T> {
    ghost pieces = { λ v _. OfCountedBy H.ItemCount.count_of (λ h. H.Part.pieces h tt)
        (λ x. T.pieces x tt) v };

    ghost same = { SameCountedBy H.Part.same T.same };

    ghost reads = { λ _. ReadsCountedBy H.ItemCount.count_of (H.Part.reads tt) (T.reads tt) };

    ghost writes = { λ v _. WritesCountedBy H.ItemCount.count_of (λ h. H.Part.writes h tt)
        (λ x. T.writes x tt) v };

    ghost law = { λ _. counted_by_symmetric H.ItemCount.count_of H.ItemCountLaw.alike
        (H.Part.law tt) (T.law tt) };
}

impl<H: ItemCountLaw + Symmetric<()>, T: Symmetric<()>> Symmetric<()> for Counted<H, T> {
    ghost symmetric = { λ _. counted_by_symmetric H.ItemCount.count_of H.ItemCountLaw.alike
        (H.Symmetric.symmetric tt) (T.symmetric tt) };
}

/// Items that are the same all end their lists, or none of them does.
pub trait LastLaw<T: Part<()>>: Last<T> {
    // Items that are the same all end their lists, or none of them does.
    ghost alike: { (v w : T) → T.same v w → Self.Last.last_of v ≡ Self.Last.last_of w };
}

/// The pieces of the items. The first item that ends them has to be the last one, and each one
/// before it has at least one bit.
impl<T: Part<()>, C: LastLaw<T>> Part<()> for Until<T, C> {
    ghost pieces = { λ v _. OfEnded C.Last.last_of (λ x. T.pieces x tt) v.items.items };

    ghost same = { λ v w. SameEach T.same v.items.items w.items.items };

    ghost reads = { λ _. Mapped (λ v. record { items = v; last = record {} })
        (MappedBy (λ xs v. v.items ≡ xs) (ReadsEnded C C.Last.last_of (T.reads tt))) };

    ghost writes = { λ v _. WritesEnded C.Last.last_of (λ x. T.writes x tt) v.items.items };

    ghost law = { λ _. ended_symmetric C C.Last.last_of C.LastLaw.alike (T.law tt) };
}

impl<T: Symmetric<()>, C: LastLaw<T>> Symmetric<()> for Until<T, C> {
    ghost symmetric = { λ _. ended_symmetric C C.Last.last_of C.LastLaw.alike (T.symmetric tt) };
}

/// A check that gives the same result for parts that are the same.
pub trait CheckLaw<P: Part<()>>: Check<P> {
    // Parts that are the same all pass, or none of them does.
    ghost alike: { (v w : P) → P.same v w → Self.Check.passes v ≡ Self.Check.passes w };
}

/// The pieces of the part, if it passes the check.
impl<P: Part<()>, C: CheckLaw<P>> Part<()> for Assert<P, C> {
    ghost pieces = { λ v _. OfPassing C.Check.passes (λ p. P.pieces p tt) v };

    ghost same = { λ v w. P.same v.part w.part };

    ghost reads = { λ _. ReadsAsserted C.Check.passes C.Check.text (P.reads tt) };

    ghost writes = { λ v _. WritesAsserted C.Check.passes C.Check.text (λ p. P.writes p tt) v };

    ghost law = { λ _. asserted_symmetric C.Check.passes C.Check.text C.CheckLaw.alike
        (P.law tt) };
}

impl<P: Symmetric<()>, C: CheckLaw<P>> Symmetric<()> for Assert<P, C> {
    ghost symmetric = { λ _. asserted_symmetric C.Check.passes C.Check.text C.CheckLaw.alike
        (P.symmetric tt) };
}

/// A constant whose value is the same only as itself: each part that is the same as the value is
/// equal to it.
pub trait ConstantLaw<P: Part<()>>: Constant<P> {
    // A part that is the same as the value is equal to the value.
    ghost alike: { (v : P) → P.same Self.Constant.value v → v ≡ Self.Constant.value };
}

/// The pieces of the value.
impl<P: Part<()>, C: ConstantLaw<P>> Part<()> for Magic<P, C> {
    ghost pieces = { λ _ _. P.pieces C.Constant.value tt };

    ghost same = { λ v w. ⊤ };

    ghost reads = { λ _. ReadsMagic C.Constant.value C.Constant.text (P.reads tt) };

    ghost writes = { λ _ _. P.writes C.Constant.value tt };

    ghost law = { λ _. magic_symmetric C.Constant.value C.Constant.text C.ConstantLaw.alike
        (P.law tt) };
}

impl<P: Symmetric<()>, C: ConstantLaw<P>> Symmetric<()> for Magic<P, C> {
    ghost symmetric = { λ _. magic_symmetric C.Constant.value C.Constant.text C.ConstantLaw.alike
        (P.symmetric tt) };
}
