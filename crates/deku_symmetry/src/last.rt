//! Types that are read as they are written if nothing follows: the last parts of whole values.

ghost use Rattle.std.specs.Prelude.{◌≡◌, List, Option, refl};
ghost use Rattle.deku_bits.specs.Pieces.{Piece};
ghost use Rattle.deku_bits.specs.Streams.{Stream};
ghost use Rattle.deku_bits.specs.Standings.{Output};
ghost use Rattle.deku_bits.specs.Outcomes.{Meaning, Mapped};
ghost use Rattle.deku_bits.specs.WriterCalls.{Finalizes};
ghost use Rattle.deku.specs.Composing.{Both, Then, WritesEach};
ghost use Rattle.deku.specs.Wholes.{WritesOnce};
ghost use Rattle.deku_pieces.specs.Pieces.{InTurn, OfEachBroad, SameEach};
ghost use Rattle.deku_pieces.specs.Packs.{PacksLaid, Unpacks, TakesIts};
ghost use Rattle.deku_pieces.specs.ToEnd.{IsSymmetricLast, ReadsRest, UnpacksWhole};
ghost use Rattle.deku_pieces.proofs.ToEnd.{rest_symmetric, before_symmetric};

use crate::traits::{Part, Symmetric};
use deku::{DekuError, DekuReader, DekuWriter, padded_bytes};
use deku_pieces::read_whole;
use deku_pieces::rest::{Before, Rest};
use std::alloc::Global;

/// A type that a record may have as its last part, read up to the end of the input: what lays out
/// its values.
///
/// The law is that of `Part`, except that reading from pieces returns the same value only if the
/// stream ends after them.
pub trait PartLast {
    // The pieces that a value has.
    ghost pieces: { Self → List Piece → Type 0 };

    // Whether two values are the same: equal, except for where they are in memory.
    ghost same: { Self → Self → Type 0 };

    // What reading and writing a value return and leave.
    ghost reads: { Meaning (Option Stream) Self };

    ghost writes: { Self → Meaning Output (Unit {0}) };

    /// Does nothing. A member below a function is a law, which may use the laws of its bounds.
    fn has_law(&self) {}

    // The law.
    ghost law: { IsSymmetricLast pieces same writes reads };
}

/// A type whose values are read as they are written if nothing follows them: the law of `PartLast`
/// holds for its `DekuReader` and its `DekuWriter`. It is the last part of a whole value, which
/// `pack_whole` and `unpack_whole` write and read.
pub trait SymmetricLast: PartLast + DekuReader<()> + DekuWriter<()> {
    /// The bytes of the value, written from the start and padded once with zeros.
    ///
    /// The caller's condition: the type may be written. It fails as the type does, or with
    /// `Io(OutOfMemory)` if there is no memory for the bytes.
    ///
    /// ```text
    /// Before { head: Be(1u16), rest: Rest { items } }.pack_whole(alloc)?
    /// ```
    final fn pack_whole(&self, alloc: Global) -> Result<Vec<u8>, DekuError>
        requires { Self.DekuWriter.accepts tt }
        ensures meaning { WritesOnce (Both (Self.DekuWriter.meaning self.now tt) Finalizes) result }
        ensures laid_out { PacksLaid (Self.PartLast.pieces self.now) result }
    {
        padded_bytes(self, alloc, ())
    }

    /// Reads a value that takes all the bytes. Returns the number of bits read, and the value.
    ///
    /// The caller's condition: the type may be read. It fails as the type does.
    ///
    /// ```text
    /// Before::<Be<u16>, Rest<u8>>::unpack_whole(alloc, &[0x00, 0x01, 0x68, 0x69])?
    /// ```
    final fn unpack_whole(alloc: Global, bytes: &[u8]) -> Result<(usize, Self), DekuError>
    where
        Self: Sized,
        requires { Self.DekuReader.accepts tt }
        ensures meaning { Unpacks (Self.DekuReader.meaning tt) bytes.now result }
        ensures back { UnpacksWhole Self.PartLast.pieces Self.PartLast.same bytes.now result }
        ensures taken { TakesIts Self.PartLast.pieces bytes.now result }
    {
        read_whole(alloc, bytes, ())
    }

    // The law, for the reader and the writer.
    ghost symmetric: { IsSymmetricLast Self.PartLast.pieces Self.PartLast.same
        (λ v. Self.DekuWriter.meaning v tt) (Self.DekuReader.meaning tt) };
}

/// The pieces of the items, one after the other. There are none if an item has no bits.
impl<T: Part<()>> PartLast for Rest<T> {
    ghost pieces = { λ v. OfEachBroad (λ x. T.pieces x tt) v.items.items };

    ghost same = { λ v w. SameEach T.same v.items.items w.items.items };

    ghost reads = { ReadsRest (λ xs. record { items = xs }) (T.reads tt) };

    ghost writes = { λ v. WritesEach (λ x. T.writes x tt) v.items.items };

    ghost law = { rest_symmetric (T.law tt) (λ xs. record { items = xs }) (λ v. v.items)
        (λ xs. refl) };
}

impl<T: Symmetric<()>> SymmetricLast for Rest<T> {
    ghost symmetric = { rest_symmetric (T.symmetric tt) (λ xs. record { items = xs }) (λ v. v.items)
        (λ xs. refl) };
}

/// The pieces of the parts, and then those of what is last.
impl<P: Part<()>, L: PartLast> PartLast for Before<P, L> {
    ghost pieces = { λ v. InTurn (P.pieces v.head tt) (L.pieces v.rest) };

    ghost same = { λ v w. P.same v.head w.head × L.same v.rest w.rest };

    ghost reads = { Then (P.reads tt) (λ h. Mapped (λ x. record { head = h; rest = x }) L.reads) };

    ghost writes = { λ v. Both (P.writes v.head tt) (L.writes v.rest) };

    ghost law = { before_symmetric (λ h x. record { head = h; rest = x }) (λ v. v.head)
        (λ v. v.rest) (λ h x. refl) (λ h x. refl) (P.law tt) L.law };
}

impl<P: Symmetric<()>, L: SymmetricLast> SymmetricLast for Before<P, L> {
    ghost symmetric = { before_symmetric (λ h x. record { head = h; rest = x }) (λ v. v.head)
        (λ v. v.rest) (λ h x. refl) (λ h x. refl) (P.symmetric tt) L.symmetric };
}
