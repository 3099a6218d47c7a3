//! Sizes of `bool` and of tuples.

ghost use Rattle.std.specs.Prelude.{◌≡◌, Some, refl};
ghost use Rattle.deku_num.specs.Sizes.{within_usize, both};

use crate::size::{DekuSize, DekuSizeConst};

// The bits of both, if these are known and their sum fits a `usize`.
fn sum(first: Option<usize>, second: Option<usize>) -> Option<usize>
    ensures { result ≡ within_usize (both first second) }
{
    match (first, second) {
        (Some(bits), Some(more)) => bits.checked_add(more),
        _ => None,
    }
}

impl DekuSize for bool {
    ghost bits = { Some 8 };

    fn size_bits() -> Option<usize> {
        Some(8)
    }
}

impl DekuSizeConst for bool {
    ghost SIZE_BITS = { 8 };

    ghost SIZE_BYTES = { Some 1 };

    ghost bits_known = { refl };

    ghost bytes_known = { refl };

    const SIZE_BITS: usize = 8;

    const SIZE_BYTES: Option<usize> = Some(1);
}

/// The bits of its one item.
impl<A: DekuSize> DekuSize for (A,) {
    ghost bits = { A.bits };

    fn size_bits() -> Option<usize> {
        <A as DekuSize>::size_bits()
    }
}

/// The bits of all items together. `None` if one is not known or the sum does not fit a `usize`.
/// The same holds for each tuple below.
impl<A: DekuSize, B: DekuSize> DekuSize for (A, B) {
    ghost bits = { both A.bits B.bits };

    fn size_bits() -> Option<usize> {
        sum(A::size_bits(), B::size_bits())
    }
}

impl<A: DekuSize, B: DekuSize, C: DekuSize> DekuSize for (A, B, C) {
    ghost bits = { both A.bits ⟦<(B, C) as DekuSize>⟧.bits };

    fn size_bits() -> Option<usize> {
        sum(A::size_bits(), <(B, C)>::size_bits())
    }
}

impl<A: DekuSize, B: DekuSize, C: DekuSize, D: DekuSize> DekuSize for (A, B, C, D) {
    ghost bits = { both A.bits ⟦<(B, C, D) as DekuSize>⟧.bits };

    fn size_bits() -> Option<usize> {
        sum(A::size_bits(), <(B, C, D)>::size_bits())
    }
}

impl<A: DekuSize, B: DekuSize, C: DekuSize, D: DekuSize, E: DekuSize> DekuSize for (A, B, C, D, E) {
    ghost bits = { both A.bits ⟦<(B, C, D, E) as DekuSize>⟧.bits };

    fn size_bits() -> Option<usize> {
        sum(A::size_bits(), <(B, C, D, E)>::size_bits())
    }
}

impl<A: DekuSize, B: DekuSize, C: DekuSize, D: DekuSize, E: DekuSize, F: DekuSize> DekuSize
    for (A, B, C, D, E, F) {
    ghost bits = { both A.bits ⟦<(B, C, D, E, F) as DekuSize>⟧.bits };

    fn size_bits() -> Option<usize> {
        sum(A::size_bits(), <(B, C, D, E, F)>::size_bits())
    }
}

impl<
    A: DekuSize,
    B: DekuSize,
    C: DekuSize,
    D: DekuSize,
    E: DekuSize,
    F: DekuSize,
    G: DekuSize,
> DekuSize for (A, B, C, D, E, F, G) {
    ghost bits = { both A.bits ⟦<(B, C, D, E, F, G) as DekuSize>⟧.bits };

    fn size_bits() -> Option<usize> {
        sum(A::size_bits(), <(B, C, D, E, F, G)>::size_bits())
    }
}

impl<
    A: DekuSize,
    B: DekuSize,
    C: DekuSize,
    D: DekuSize,
    E: DekuSize,
    F: DekuSize,
    G: DekuSize,
    H: DekuSize,
> DekuSize for (A, B, C, D, E, F, G, H) {
    ghost bits = { both A.bits ⟦<(B, C, D, E, F, G, H) as DekuSize>⟧.bits };

    fn size_bits() -> Option<usize> {
        sum(A::size_bits(), <(B, C, D, E, F, G, H)>::size_bits())
    }
}

impl<
    A: DekuSize,
    B: DekuSize,
    C: DekuSize,
    D: DekuSize,
    E: DekuSize,
    F: DekuSize,
    G: DekuSize,
    H: DekuSize,
    I: DekuSize,
> DekuSize for (A, B, C, D, E, F, G, H, I) {
    ghost bits = { both A.bits ⟦<(B, C, D, E, F, G, H, I) as DekuSize>⟧.bits };

    fn size_bits() -> Option<usize> {
        sum(A::size_bits(), <(B, C, D, E, F, G, H, I)>::size_bits())
    }
}

impl<
    A: DekuSize,
    B: DekuSize,
    C: DekuSize,
    D: DekuSize,
    E: DekuSize,
    F: DekuSize,
    G: DekuSize,
    H: DekuSize,
    I: DekuSize,
    J: DekuSize,
> DekuSize for (A, B, C, D, E, F, G, H, I, J) {
    ghost bits = { both A.bits ⟦<(B, C, D, E, F, G, H, I, J) as DekuSize>⟧.bits };

    fn size_bits() -> Option<usize> {
        sum(A::size_bits(), <(B, C, D, E, F, G, H, I, J)>::size_bits())
    }
}

impl<
    A: DekuSize,
    B: DekuSize,
    C: DekuSize,
    D: DekuSize,
    E: DekuSize,
    F: DekuSize,
    G: DekuSize,
    H: DekuSize,
    I: DekuSize,
    J: DekuSize,
    K: DekuSize,
> DekuSize for (A, B, C, D, E, F, G, H, I, J, K) {
    ghost bits = { both A.bits ⟦<(B, C, D, E, F, G, H, I, J, K) as DekuSize>⟧.bits };

    fn size_bits() -> Option<usize> {
        sum(
            A::size_bits(),
            <(B, C, D, E, F, G, H, I, J, K)>::size_bits(),
        )
    }
}
