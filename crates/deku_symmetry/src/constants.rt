//! Constants and checks that take no line to state, and the laws of strings of bytes.

ghost use Rattle.std.specs.Prelude.{◌≡◌, codes, replicate, refl};
ghost use Rattle.std.proofs.Common.{sym};
ghost use Rattle.deku_pieces.specs.Ids.{in_range};
ghost use Rattle.deku_pieces.proofs.SameItems.{same_items};

use crate::enums::Id;
use crate::fields::Msb;
use crate::made::{CheckLaw, ConstantLaw};
use deku_pieces::assertion::{Assert, Check};
use deku_pieces::constants::{ByteConstant, Bytes, Zeros};
use deku_pieces::magic::{Constant, Magic};

impl<C: ByteConstant<N>, const N: usize> ConstantLaw<[u8; N]> for Bytes<C> {
    ghost alike = { λ v e. same_items C.bytes v e };
}

impl<const N: usize> ConstantLaw<[u8; N]> for Zeros {
    ghost alike = { λ v e. same_items (replicate N 0) v e };
}

/// The constant of a number, for `Magic`. Reading another number fails with `Assertion("another
/// number")`.
///
/// ```text
/// type Parts = (Magic<Msb<u64, 16>, Is<0x4D5A>>, Be<u16>);   // 4D 5A, and two bytes
/// ```
#[derive(Debug, PartialEq, Eq, Drop)]
pub struct Is<const VALUE: u64>;

/// `N` zero bits, at most 64. Reading others fails with `Assertion("another number")`; they are
/// consumed. For more, write `(ZeroBytes<N>, ZeroBits<M>)`.
///
/// ```text
/// type Parts = (Msb<u8, 3>, ZeroBits<5>);                    // three bits, and five zeros
/// ```
pub type ZeroBits<const N: usize> = Magic<Msb<u64, N>, Is<0>>;

impl<I: Id, const VALUE: u64> Constant<I> for Is<VALUE> {
    ghost value = { I.Id.part_of VALUE };

    ghost text = { codes "another number" };

    fn value() -> I {
        I::of_number(VALUE)
    }

    #[tactic(auto, using(deku_pieces::proofs::SameItems::is_part))]
    fn is_value(part: &I) -> bool {
        part.number() == VALUE
    }

    fn text() -> &'static str {
        "another number"
    }
}

impl<I: Id, const VALUE: u64> ConstantLaw<I> for Is<VALUE> {
    ghost alike = { λ v e. sym (I.Id.alike (I.Id.part_of VALUE) v e) };
}

/// The check of numbers from `LOW` to `HIGH`, for `Assert`. Others fail with `Assertion("number out
/// of range")`.
///
/// ```text
/// type Parts = Assert<Msb<u64, 4>, Between<5, 15>>;          // a length of at least five words
/// ```
#[derive(Debug, PartialEq, Eq, Drop)]
pub struct Between<const LOW: u64, const HIGH: u64>;

impl<I: Id, const LOW: u64, const HIGH: u64> Check<I> for Between<LOW, HIGH> {
    ghost passes = { λ part. in_range LOW HIGH (I.Id.number_of part) };

    ghost text = { codes "number out of range" };

    fn passes(part: &I) -> bool {
        let number = part.number();
        LOW <= number && number <= HIGH
    }

    fn text() -> &'static str {
        "number out of range"
    }
}

impl<I: Id, const LOW: u64, const HIGH: u64> CheckLaw<I> for Between<LOW, HIGH> {
    ghost alike = { λ v w e. rw (I.Id.alike v w e) refl };
}
