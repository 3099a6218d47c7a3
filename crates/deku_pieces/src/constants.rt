//! Constants of `Magic` that take few lines to state: strings of bytes, and zeros.

ghost use Rattle.std.specs.Prelude.{◌≡◌, ℕ, List, replicate, codes};

use crate::magic::{Constant, Magic};
use std::marker::PhantomData;

/// A string of `N` bytes that is always the same.
///
/// ```text
/// impl ByteConstant<4> for Elf {
///     ghost bytes = { 0x7F ∷ 0x45 ∷ 0x4C ∷ 0x46 ∷ [] };
///
///     fn bytes() -> [u8; 4] {
///         [0x7F, 0x45, 0x4C, 0x46]
///     }
/// }
/// ```
pub trait ByteConstant<const N: usize>: Drop {
    // The bytes.
    ghost bytes: { List ℕ };

    /// Returns the bytes.
    fn bytes() -> [u8; N]
        ensures { result ≡ bytes };
}

/// The constant of a string of bytes, for `Magic`.
#[derive(Debug, PartialEq, Eq, Drop)]
pub struct Bytes<C>(PhantomData<C>);

/// Exactly the bytes of `C`. Reading others fails with `Assertion("magic bytes")`; as many bytes
/// stay read.
///
/// ```text
/// type Parts = (MagicBytes<Elf, 4>, Be<u16>);                // 7F 45 4C 46, and two bytes
/// ```
pub type MagicBytes<C, const N: usize> = Magic<[u8; N], Bytes<C>>;

/// The bytes of `C`.
impl<C: ByteConstant<N>, const N: usize> Constant<[u8; N]> for Bytes<C> {
    ghost value = { C.bytes };

    ghost text = { codes "magic bytes" };

    fn value() -> [u8; N] {
        C::bytes()
    }

    fn is_value(part: &[u8; N]) -> bool {
        *part == C::bytes()
    }

    fn text() -> &'static str {
        "magic bytes"
    }
}

/// The constant of zeros, for `Magic`.
#[derive(Debug, PartialEq, Eq, Drop)]
pub struct Zeros;

/// `N` bytes that are zero. Reading another byte there fails with `Assertion("zeros")`; all `N`
/// stay read.
///
/// ```text
/// type Parts = (Be<u16>, ZeroBytes<6>, Be<u16>);             // two bytes, six zeros, two bytes
/// ```
pub type ZeroBytes<const N: usize> = Magic<[u8; N], Zeros>;

/// As many zeros.
impl<const N: usize> Constant<[u8; N]> for Zeros {
    ghost value = { replicate N 0 };

    ghost text = { codes "zeros" };

    fn value() -> [u8; N] {
        [0; N]
    }

    fn is_value(part: &[u8; N]) -> bool {
        *part == [0; N]
    }

    fn text() -> &'static str {
        "zeros"
    }
}
