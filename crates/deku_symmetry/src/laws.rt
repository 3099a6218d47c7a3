//! Laws of symmetric types. Each law is the postcondition of an empty function.

ghost use Rattle.std.specs.Prelude.{ℕ};
ghost use Rattle.deku.specs.declared.ctx.Limit.TheVariants.{Count};
ghost use Rattle.deku_pieces.specs.Pieces.{OfTimes, SameEach};
ghost use Rattle.deku_pieces.specs.Packs.{ToBytesLaw, FromBytesLaw, FoundLaw, WholeBytesLaw};
ghost use Rattle.deku_symmetry.specs.Counting.{UnpackLaw, CountedLaw, EachToBytesLaw};
ghost use Rattle.deku_symmetry.specs.Counting.{CountedUnpackLaw};

use crate::traits::Symmetric;
use deku::DekuReader;
use deku::ctx::{Limit, Never};

/// `to_bytes` of a value with aligned pieces, whose bits can be counted, gives what the pieces lay
/// out. The only other result is that memory runs out.
pub fn to_bytes_law<T: Symmetric<()>>()
    ensures { ToBytesLaw (λ v. T.Part.pieces v tt) (λ v. T.DekuWriter.meaning v tt) }
{}

/// `from_bytes`, at bit 0, reads a value back from bytes that begin with what its aligned pieces
/// lay out, whatever follows. It returns that value and the rest of the bytes after its pieces. The
/// only other result is that memory runs out. Every value that it returns has pieces that were
/// taken from the bytes, one after the other.
pub fn from_bytes_law<T: Symmetric<()>>()
    ensures back { FromBytesLaw (λ v. T.Part.pieces v tt) T.Part.same (T.DekuReader.meaning tt) }
    ensures found { FoundLaw (λ v. T.Part.pieces v tt) (T.DekuReader.meaning tt) }
{}

/// Aligned pieces of whole bytes, taken one after the other from the first byte on, lay out these
/// bytes again. So what was read as whole bytes is written as the same bytes.
pub fn whole_bytes_law()
    ensures { WholeBytesLaw }
{}

/// Items of a symmetric type, written as a slice or a vector and read back with their number as the
/// count, are symmetric together.
///
/// `padded_bytes` of them gives what their aligned pieces lay out. A read with this count, from
/// bytes that begin with that, gives the same items. The only other result of both is that memory
/// runs out.
///
/// The clauses `items`, `there` and `back` are about the list of items, which maps and sets are
/// made of too. The clause `vector` is about `read_whole` of a vector.
pub fn counted_law<Ctx: Copy, T: Symmetric<Ctx>>()
    ensures items { (c : Ctx) → CountedLaw (λ x. T.Part.pieces x c) T.Part.same
        (λ x. T.DekuWriter.meaning x c) (T.DekuReader.meaning c) }
    ensures there { (c : Ctx) → EachToBytesLaw (λ x. T.Part.pieces x c)
        (λ x. T.DekuWriter.meaning x c) }
    ensures back { (c : Ctx) → CountedUnpackLaw (λ x. T.Part.pieces x c) T.Part.same
        (T.DekuReader.meaning c) }
    ensures vector { (c : Ctx) (n : ℕ) → UnpackLaw (λ v. OfTimes n (λ x. T.Part.pieces x c) v.items)
        (λ v w. SameEach T.Part.same v.items w.items)
        (⟦<Vec<T> as DekuReader<(Limit<T, Never>, Ctx)>>⟧.meaning (Count n, c)) }
{}
