//! Tuples: their items in order. A tuple of three or more items is read as its first item and the
//! tuple of the rest.

ghost use Rattle.std.specs.Prelude.{◌+◌};
ghost use Rattle.deku_located.specs.Placed.{Joined};

use crate::steps::{Place, Steps};
use deku::DekuError;
use deku::device::Source;
use deku::reader::Reader;

/// The items, one after the other.
impl<A: Steps, B: Steps> Steps for (A, B) {
    ghost steps = { A.steps + B.steps };

    ghost placed = { Joined (λ a b. (a, b)) A.placed (λ _. B.placed) };

    #[inline(always)]
    fn read_steps<R: Source>(reader: &mut Reader<R>, place: &mut Place) -> Result<Self, DekuError> {
        let a = A::read_steps(reader, place)?;
        let b = B::read_steps(reader, place)?;
        Ok((a, b))
    }
}

impl<A: Steps, B: Steps, C: Steps> Steps for (A, B, C) {
    ghost steps = { A.steps + ⟦<(B, C) as Steps>⟧.steps };

    ghost placed = { Joined (λ a rest. (a, rest.0, rest.1))
        A.placed (λ _. ⟦<(B, C) as Steps>⟧.placed) };

    #[inline(always)]
    fn read_steps<R: Source>(reader: &mut Reader<R>, place: &mut Place) -> Result<Self, DekuError> {
        let a = A::read_steps(reader, place)?;
        let (b, c) = <(B, C)>::read_steps(reader, place)?;
        Ok((a, b, c))
    }
}

impl<A: Steps, B: Steps, C: Steps, D: Steps> Steps for (A, B, C, D) {
    ghost steps = { A.steps + ⟦<(B, C, D) as Steps>⟧.steps };

    ghost placed = { Joined (λ a rest. (a, rest.0, rest.1, rest.2))
        A.placed (λ _. ⟦<(B, C, D) as Steps>⟧.placed) };

    #[inline(always)]
    fn read_steps<R: Source>(reader: &mut Reader<R>, place: &mut Place) -> Result<Self, DekuError> {
        let a = A::read_steps(reader, place)?;
        let (b, c, d) = <(B, C, D)>::read_steps(reader, place)?;
        Ok((a, b, c, d))
    }
}

impl<A: Steps, B: Steps, C: Steps, D: Steps, E: Steps> Steps for (A, B, C, D, E) {
    ghost steps = { A.steps + ⟦<(B, C, D, E) as Steps>⟧.steps };

    ghost placed = { Joined (λ a rest. (a, rest.0, rest.1, rest.2, rest.3))
        A.placed (λ _. ⟦<(B, C, D, E) as Steps>⟧.placed) };

    #[inline(always)]
    fn read_steps<R: Source>(reader: &mut Reader<R>, place: &mut Place) -> Result<Self, DekuError> {
        let a = A::read_steps(reader, place)?;
        let (b, c, d, e) = <(B, C, D, E)>::read_steps(reader, place)?;
        Ok((a, b, c, d, e))
    }
}

impl<A: Steps, B: Steps, C: Steps, D: Steps, E: Steps, F: Steps> Steps for (A, B, C, D, E, F) {
    ghost steps = { A.steps + ⟦<(B, C, D, E, F) as Steps>⟧.steps };

    ghost placed = { Joined (λ a rest. (a, rest.0, rest.1, rest.2, rest.3, rest.4))
        A.placed (λ _. ⟦<(B, C, D, E, F) as Steps>⟧.placed) };

    #[inline(always)]
    fn read_steps<R: Source>(reader: &mut Reader<R>, place: &mut Place) -> Result<Self, DekuError> {
        let a = A::read_steps(reader, place)?;
        let (b, c, d, e, f) = <(B, C, D, E, F)>::read_steps(reader, place)?;
        Ok((a, b, c, d, e, f))
    }
}

impl<A: Steps, B: Steps, C: Steps, D: Steps, E: Steps, F: Steps, G: Steps> Steps
    for (A, B, C, D, E, F, G) {
    ghost steps = { A.steps + ⟦<(B, C, D, E, F, G) as Steps>⟧.steps };

    ghost placed = { Joined (λ a rest. (a, rest.0, rest.1, rest.2, rest.3, rest.4, rest.5))
        A.placed (λ _. ⟦<(B, C, D, E, F, G) as Steps>⟧.placed) };

    #[inline(always)]
    fn read_steps<R: Source>(reader: &mut Reader<R>, place: &mut Place) -> Result<Self, DekuError> {
        let a = A::read_steps(reader, place)?;
        let (b, c, d, e, f, g) = <(B, C, D, E, F, G)>::read_steps(reader, place)?;
        Ok((a, b, c, d, e, f, g))
    }
}

impl<A: Steps, B: Steps, C: Steps, D: Steps, E: Steps, F: Steps, G: Steps, H: Steps> Steps
    for (A, B, C, D, E, F, G, H) {
    ghost steps = { A.steps + ⟦<(B, C, D, E, F, G, H) as Steps>⟧.steps };

    ghost placed = { Joined (λ a rest. (a, rest.0, rest.1, rest.2, rest.3, rest.4, rest.5, rest.6))
        A.placed (λ _. ⟦<(B, C, D, E, F, G, H) as Steps>⟧.placed) };

    #[inline(always)]
    fn read_steps<R: Source>(reader: &mut Reader<R>, place: &mut Place) -> Result<Self, DekuError> {
        let a = A::read_steps(reader, place)?;
        let (b, c, d, e, f, g, h) = <(B, C, D, E, F, G, H)>::read_steps(reader, place)?;
        Ok((a, b, c, d, e, f, g, h))
    }
}

impl<A: Steps, B: Steps, C: Steps, D: Steps, E: Steps, F: Steps, G: Steps, H: Steps, I: Steps> Steps
    for (A, B, C, D, E, F, G, H, I) {
    ghost steps = { A.steps + ⟦<(B, C, D, E, F, G, H, I) as Steps>⟧.steps };

    ghost placed = { Joined
        (λ a rest. (a, rest.0, rest.1, rest.2, rest.3, rest.4, rest.5, rest.6, rest.7))
        A.placed (λ _. ⟦<(B, C, D, E, F, G, H, I) as Steps>⟧.placed) };

    #[inline(always)]
    fn read_steps<R: Source>(reader: &mut Reader<R>, place: &mut Place) -> Result<Self, DekuError> {
        let a = A::read_steps(reader, place)?;
        let (b, c, d, e, f, g, h, i) = <(B, C, D, E, F, G, H, I)>::read_steps(reader, place)?;
        Ok((a, b, c, d, e, f, g, h, i))
    }
}

impl<
    A: Steps,
    B: Steps,
    C: Steps,
    D: Steps,
    E: Steps,
    F: Steps,
    G: Steps,
    H: Steps,
    I: Steps,
    J: Steps,
> Steps for (A, B, C, D, E, F, G, H, I, J) {
    ghost steps = { A.steps + ⟦<(B, C, D, E, F, G, H, I, J) as Steps>⟧.steps };

    ghost placed = { Joined
        (λ a rest. (a, rest.0, rest.1, rest.2, rest.3, rest.4, rest.5, rest.6, rest.7, rest.8))
        A.placed (λ _. ⟦<(B, C, D, E, F, G, H, I, J) as Steps>⟧.placed) };

    #[inline(always)]
    fn read_steps<R: Source>(reader: &mut Reader<R>, place: &mut Place) -> Result<Self, DekuError> {
        let a = A::read_steps(reader, place)?;
        let (b, c, d, e, f, g, h, i, j) = <(B, C, D, E, F, G, H, I, J)>::read_steps(reader, place)?;
        Ok((a, b, c, d, e, f, g, h, i, j))
    }
}

impl<
    A: Steps,
    B: Steps,
    C: Steps,
    D: Steps,
    E: Steps,
    F: Steps,
    G: Steps,
    H: Steps,
    I: Steps,
    J: Steps,
    K: Steps,
> Steps for (A, B, C, D, E, F, G, H, I, J, K) {
    ghost steps = { A.steps + ⟦<(B, C, D, E, F, G, H, I, J, K) as Steps>⟧.steps };

    ghost placed = { Joined
        (λ a rest. (
          a,
          rest.0,
          rest.1,
          rest.2,
          rest.3,
          rest.4,
          rest.5,
          rest.6,
          rest.7,
          rest.8,
          rest.9,
        ))
        A.placed (λ _. ⟦<(B, C, D, E, F, G, H, I, J, K) as Steps>⟧.placed) };

    #[inline(always)]
    fn read_steps<R: Source>(reader: &mut Reader<R>, place: &mut Place) -> Result<Self, DekuError> {
        let a = A::read_steps(reader, place)?;
        let (b, c, d, e, f, g, h, i, j, k) = <(B, C, D, E, F, G, H, I, J, K)>::read_steps(
            reader, place,
        )?;
        Ok((a, b, c, d, e, f, g, h, i, j, k))
    }
}
