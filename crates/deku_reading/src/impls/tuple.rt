//! Tuples: their items in order. A tuple of three or more items is read as its first item and the
//! tuple of the rest. If all items are numbers, and their bits are in memory, they are cut from one
//! number.

ghost use Rattle.std.specs.Prelude.{OnOk};
ghost use Rattle.deku_bits.specs.Outcomes.{Mapped};
ghost use Rattle.deku_bits.specs.ReaderCalls.{Reads};
ghost use Rattle.deku_meanings.specs.Composing.{PairOf, JoinedBy};
ghost use Rattle.deku_reading.specs.Early.{NoReadAhead};

use crate::items::{Chain, Last, try_items};
use crate::traits::DekuReader;
use deku_bits::device::Source;
use deku_bits::error::DekuError;
use deku_bits::reader::Reader;

/// The one item, under the item's context.
impl<Ctx: Copy, A: DekuReader<Ctx>> DekuReader<Ctx> for (A,) {
    ghost accepts = { A.accepts };

    ghost no_read_ahead = { A.no_read_ahead };

    ghost meaning = { λ c. Mapped (λ a. record { 0 = a }) (A.meaning c) };

    #[inline(always)]
    fn from_reader_with_ctx<R: Source>(
        reader: &mut Reader<R>,
        ctx: Ctx,
    ) -> Result<Self, DekuError> {
        let a = A::from_reader_with_ctx(reader, ctx)?;
        Ok((a,))
    }
}

/// The items in order, all under one context. It fails as the first item that fails, and what was
/// read before is consumed. The same holds for each tuple below.
impl<Ctx: Copy, A: DekuReader<Ctx>, B: DekuReader<Ctx>> DekuReader<Ctx> for (A, B) {
    ghost accepts = { λ c. A.accepts c × B.accepts c };

    ghost no_read_ahead = { λ c. A.no_read_ahead c × B.no_read_ahead c };

    ghost meaning = { λ c. PairOf (A.meaning c) (B.meaning c) };

    #[inline(always)]
    fn from_reader_with_ctx<R: Source>(
        reader: &mut Reader<R>,
        ctx: Ctx,
    ) -> Result<Self, DekuError> {
        if let Some(items) = try_items(reader, ctx) {
            let Chain(a, Last(b)) = items?;
            return Ok((a, b));
        }
        read_pair(reader, ctx)
    }
}

impl<Ctx: Copy, A: DekuReader<Ctx>, B: DekuReader<Ctx>, C: DekuReader<Ctx>> DekuReader<Ctx>
    for (A, B, C) {
    ghost accepts = { λ c. A.accepts c × ⟦<(B, C) as DekuReader<Ctx>>⟧.accepts c };

    ghost no_read_ahead = { λ c. A.no_read_ahead c × ⟦<(B, C) as DekuReader<Ctx>>⟧.no_read_ahead
        c };

    ghost meaning = { λ c. JoinedBy (λ a rest. (a, rest.0, rest.1)) (A.meaning c)
        (⟦<(B, C) as DekuReader<Ctx>>⟧.meaning c) };

    #[inline(always)]
    fn from_reader_with_ctx<R: Source>(
        reader: &mut Reader<R>,
        ctx: Ctx,
    ) -> Result<Self, DekuError> {
        if let Some(items) = try_items(reader, ctx) {
            let Chain(a, Chain(b, Last(c))) = items?;
            return Ok((a, b, c));
        }
        read_three(reader, ctx)
    }
}

impl<
    Ctx: Copy,
    A: DekuReader<Ctx>,
    B: DekuReader<Ctx>,
    C: DekuReader<Ctx>,
    D: DekuReader<Ctx>,
> DekuReader<Ctx> for (A, B, C, D) {
    ghost accepts = { λ c. A.accepts c × ⟦<(B, C, D) as DekuReader<Ctx>>⟧.accepts c };

    ghost no_read_ahead = { λ c. A.no_read_ahead c × ⟦<(B, C, D) as DekuReader<Ctx>>⟧.no_read_ahead
        c };

    ghost meaning = { λ c. JoinedBy (λ a rest. (a, rest.0, rest.1, rest.2)) (A.meaning c)
        (⟦<(B, C, D) as DekuReader<Ctx>>⟧.meaning c) };

    #[inline(always)]
    fn from_reader_with_ctx<R: Source>(
        reader: &mut Reader<R>,
        ctx: Ctx,
    ) -> Result<Self, DekuError> {
        if let Some(items) = try_items(reader, ctx) {
            let Chain(a, Chain(b, Chain(c, Last(d)))) = items?;
            return Ok((a, b, c, d));
        }
        read_four(reader, ctx)
    }
}

impl<
    Ctx: Copy,
    A: DekuReader<Ctx>,
    B: DekuReader<Ctx>,
    C: DekuReader<Ctx>,
    D: DekuReader<Ctx>,
    E: DekuReader<Ctx>,
> DekuReader<Ctx> for (A, B, C, D, E) {
    ghost accepts = { λ c. A.accepts c × ⟦<(B, C, D, E) as DekuReader<Ctx>>⟧.accepts c };

    ghost no_read_ahead = { λ c. A.no_read_ahead c
        × ⟦<(B, C, D, E) as DekuReader<Ctx>>⟧.no_read_ahead c };

    ghost meaning = { λ c. JoinedBy (λ a rest. (a, rest.0, rest.1, rest.2, rest.3)) (A.meaning c)
        (⟦<(B, C, D, E) as DekuReader<Ctx>>⟧.meaning c) };

    #[inline(always)]
    fn from_reader_with_ctx<R: Source>(
        reader: &mut Reader<R>,
        ctx: Ctx,
    ) -> Result<Self, DekuError> {
        if let Some(items) = try_items(reader, ctx) {
            let Chain(a, Chain(b, Chain(c, Chain(d, Last(e))))) = items?;
            return Ok((a, b, c, d, e));
        }
        read_five(reader, ctx)
    }
}

impl<
    Ctx: Copy,
    A: DekuReader<Ctx>,
    B: DekuReader<Ctx>,
    C: DekuReader<Ctx>,
    D: DekuReader<Ctx>,
    E: DekuReader<Ctx>,
    F: DekuReader<Ctx>,
> DekuReader<Ctx> for (A, B, C, D, E, F) {
    ghost accepts = { λ c. A.accepts c × ⟦<(B, C, D, E, F) as DekuReader<Ctx>>⟧.accepts c };

    ghost no_read_ahead = { λ c. A.no_read_ahead c
        × ⟦<(B, C, D, E, F) as DekuReader<Ctx>>⟧.no_read_ahead c };

    ghost meaning = { λ c. JoinedBy (λ a rest. (a, rest.0, rest.1, rest.2, rest.3, rest.4))
        (A.meaning c) (⟦<(B, C, D, E, F) as DekuReader<Ctx>>⟧.meaning c) };

    #[inline(always)]
    fn from_reader_with_ctx<R: Source>(
        reader: &mut Reader<R>,
        ctx: Ctx,
    ) -> Result<Self, DekuError> {
        if let Some(items) = try_items(reader, ctx) {
            let Chain(a, Chain(b, Chain(c, Chain(d, Chain(e, Last(f)))))) = items?;
            return Ok((a, b, c, d, e, f));
        }
        read_six(reader, ctx)
    }
}

impl<
    Ctx: Copy,
    A: DekuReader<Ctx>,
    B: DekuReader<Ctx>,
    C: DekuReader<Ctx>,
    D: DekuReader<Ctx>,
    E: DekuReader<Ctx>,
    F: DekuReader<Ctx>,
    G: DekuReader<Ctx>,
> DekuReader<Ctx> for (A, B, C, D, E, F, G) {
    ghost accepts = { λ c. A.accepts c × ⟦<(B, C, D, E, F, G) as DekuReader<Ctx>>⟧.accepts c };

    ghost no_read_ahead = { λ c. A.no_read_ahead c
        × ⟦<(B, C, D, E, F, G) as DekuReader<Ctx>>⟧.no_read_ahead c };

    ghost meaning = { λ c. JoinedBy (λ a rest. (a, rest.0, rest.1, rest.2, rest.3, rest.4, rest.5))
        (A.meaning c) (⟦<(B, C, D, E, F, G) as DekuReader<Ctx>>⟧.meaning c) };

    #[inline(always)]
    fn from_reader_with_ctx<R: Source>(
        reader: &mut Reader<R>,
        ctx: Ctx,
    ) -> Result<Self, DekuError> {
        if let Some(items) = try_items(reader, ctx) {
            let Chain(a, Chain(b, Chain(c, Chain(d, Chain(e, Chain(f, Last(g))))))) = items?;
            return Ok((a, b, c, d, e, f, g));
        }
        read_seven(reader, ctx)
    }
}

impl<
    Ctx: Copy,
    A: DekuReader<Ctx>,
    B: DekuReader<Ctx>,
    C: DekuReader<Ctx>,
    D: DekuReader<Ctx>,
    E: DekuReader<Ctx>,
    F: DekuReader<Ctx>,
    G: DekuReader<Ctx>,
    H: DekuReader<Ctx>,
> DekuReader<Ctx> for (A, B, C, D, E, F, G, H) {
    ghost accepts = { λ c. A.accepts c × ⟦<(B, C, D, E, F, G, H) as DekuReader<Ctx>>⟧.accepts c };

    ghost no_read_ahead = { λ c. A.no_read_ahead c
        × ⟦<(B, C, D, E, F, G, H) as DekuReader<Ctx>>⟧.no_read_ahead c };

    ghost meaning = { λ c. JoinedBy (λ a rest. (
      a,
      rest.0,
      rest.1,
      rest.2,
      rest.3,
      rest.4,
      rest.5,
      rest.6,
    )) (A.meaning c) (⟦<(B, C, D, E, F, G, H) as DekuReader<Ctx>>⟧.meaning c) };

    #[inline(always)]
    fn from_reader_with_ctx<R: Source>(
        reader: &mut Reader<R>,
        ctx: Ctx,
    ) -> Result<Self, DekuError> {
        if let Some(items) = try_items(reader, ctx) {
            let Chain(a, Chain(b, Chain(c, Chain(d, Chain(e, Chain(f, Chain(g, Last(h)))))))) =
                items?;
            return Ok((a, b, c, d, e, f, g, h));
        }
        read_eight(reader, ctx)
    }
}

impl<
    Ctx: Copy,
    A: DekuReader<Ctx>,
    B: DekuReader<Ctx>,
    C: DekuReader<Ctx>,
    D: DekuReader<Ctx>,
    E: DekuReader<Ctx>,
    F: DekuReader<Ctx>,
    G: DekuReader<Ctx>,
    H: DekuReader<Ctx>,
    I: DekuReader<Ctx>,
> DekuReader<Ctx> for (A, B, C, D, E, F, G, H, I) {
    ghost accepts = { λ c. A.accepts c × ⟦<(B, C, D, E, F, G, H, I) as DekuReader<Ctx>>⟧.accepts
        c };

    ghost no_read_ahead = { λ c. A.no_read_ahead c
        × ⟦<(B, C, D, E, F, G, H, I) as DekuReader<Ctx>>⟧.no_read_ahead c };

    ghost meaning = { λ c. JoinedBy (λ a rest. (
      a,
      rest.0,
      rest.1,
      rest.2,
      rest.3,
      rest.4,
      rest.5,
      rest.6,
      rest.7,
    )) (A.meaning c) (⟦<(B, C, D, E, F, G, H, I) as DekuReader<Ctx>>⟧.meaning
        c) };

    #[inline(always)]
    fn from_reader_with_ctx<R: Source>(
        reader: &mut Reader<R>,
        ctx: Ctx,
    ) -> Result<Self, DekuError> {
        if let Some(items) = try_items(reader, ctx) {
            let Chain(
                a,
                Chain(b, Chain(c, Chain(d, Chain(e, Chain(f, Chain(g, Chain(h, Last(i)))))))),
            ) = items?;
            return Ok((a, b, c, d, e, f, g, h, i));
        }
        read_nine(reader, ctx)
    }
}

impl<
    Ctx: Copy,
    A: DekuReader<Ctx>,
    B: DekuReader<Ctx>,
    C: DekuReader<Ctx>,
    D: DekuReader<Ctx>,
    E: DekuReader<Ctx>,
    F: DekuReader<Ctx>,
    G: DekuReader<Ctx>,
    H: DekuReader<Ctx>,
    I: DekuReader<Ctx>,
    J: DekuReader<Ctx>,
> DekuReader<Ctx> for (A, B, C, D, E, F, G, H, I, J) {
    ghost accepts = { λ c. A.accepts c × ⟦<(B, C, D, E, F, G, H, I, J) as DekuReader<Ctx>>⟧.accepts
        c };

    ghost no_read_ahead = { λ c. A.no_read_ahead c
        × ⟦<(B, C, D, E, F, G, H, I, J) as DekuReader<Ctx>>⟧.no_read_ahead c };

    ghost meaning = { λ c. JoinedBy (λ a rest. (
      a,
      rest.0,
      rest.1,
      rest.2,
      rest.3,
      rest.4,
      rest.5,
      rest.6,
      rest.7,
      rest.8,
    )) (A.meaning c)
        (⟦<(B, C, D, E, F, G, H, I, J) as DekuReader<Ctx>>⟧.meaning c) };

    #[inline(always)]
    fn from_reader_with_ctx<R: Source>(
        reader: &mut Reader<R>,
        ctx: Ctx,
    ) -> Result<Self, DekuError> {
        if let Some(items) = try_items(reader, ctx) {
            let Chain(
                a,
                Chain(
                    b,
                    Chain(c, Chain(d, Chain(e, Chain(f, Chain(g, Chain(h, Chain(i, Last(j)))))))),
                ),
            ) = items?;
            return Ok((a, b, c, d, e, f, g, h, i, j));
        }
        read_ten(reader, ctx)
    }
}

impl<
    Ctx: Copy,
    A: DekuReader<Ctx>,
    B: DekuReader<Ctx>,
    C: DekuReader<Ctx>,
    D: DekuReader<Ctx>,
    E: DekuReader<Ctx>,
    F: DekuReader<Ctx>,
    G: DekuReader<Ctx>,
    H: DekuReader<Ctx>,
    I: DekuReader<Ctx>,
    J: DekuReader<Ctx>,
    K: DekuReader<Ctx>,
> DekuReader<Ctx> for (A, B, C, D, E, F, G, H, I, J, K) {
    ghost accepts = { λ c. A.accepts c
        × ⟦<(B, C, D, E, F, G, H, I, J, K) as DekuReader<Ctx>>⟧.accepts c };

    ghost no_read_ahead = { λ c. A.no_read_ahead c
        × ⟦<(B, C, D, E, F, G, H, I, J, K) as DekuReader<Ctx>>⟧.no_read_ahead c };

    ghost meaning = { λ c. JoinedBy (λ a rest. (
      a,
      rest.0,
      rest.1,
      rest.2,
      rest.3,
      rest.4,
      rest.5,
      rest.6,
      rest.7,
      rest.8,
      rest.9,
    )) (A.meaning c)
        (⟦<(B, C, D, E, F, G, H, I, J, K) as DekuReader<Ctx>>⟧.meaning c) };

    #[inline(always)]
    fn from_reader_with_ctx<R: Source>(
        reader: &mut Reader<R>,
        ctx: Ctx,
    ) -> Result<Self, DekuError> {
        if let Some(items) = try_items(reader, ctx) {
            let Chain(
                a,
                Chain(
                    b,
                    Chain(
                        c,
                        Chain(
                            d,
                            Chain(e, Chain(f, Chain(g, Chain(h, Chain(i, Chain(j, Last(k))))))),
                        ),
                    ),
                ),
            ) = items?;
            return Ok((a, b, c, d, e, f, g, h, i, j, k));
        }
        let a = A::from_reader_with_ctx(reader, ctx)?;
        let (b, c, d, e, f, g, h, i, j, k) = read_ten(reader, ctx)?;
        Ok((a, b, c, d, e, f, g, h, i, j, k))
    }
}

// The items of a tuple, one after the other. The same holds for each function below. They are not
// part of the tuple's read, so that it is inlined even if they are too long to be.
#[inline(always)]
fn read_pair<Ctx: Copy, A: DekuReader<Ctx>, B: DekuReader<Ctx>, R: Source>(
    reader: &mut Reader<R>,
    ctx: Ctx,
) -> Result<(A, B), DekuError>
    requires { ⟦<(A, B) as DekuReader<Ctx>>⟧.accepts ctx }
    ensures reads { Reads R.known (⟦<(A, B) as DekuReader<Ctx>>⟧.meaning ctx) reader.old result
        reader.new }
    ensures early { OnOk result (⟦<(A, B) as DekuReader<Ctx>>⟧.no_read_ahead ctx → NoReadAhead
        R.known reader.old reader.new) }
{
    let a = A::from_reader_with_ctx(reader, ctx)?;
    let b = B::from_reader_with_ctx(reader, ctx)?;
    Ok((a, b))
}

#[inline(always)]
fn read_three<Ctx: Copy, A: DekuReader<Ctx>, B: DekuReader<Ctx>, C: DekuReader<Ctx>, R: Source>(
    reader: &mut Reader<R>,
    ctx: Ctx,
) -> Result<(A, B, C), DekuError>
    requires { ⟦<(A, B, C) as DekuReader<Ctx>>⟧.accepts ctx }
    ensures reads { Reads R.known (⟦<(A, B, C) as DekuReader<Ctx>>⟧.meaning ctx) reader.old
        result reader.new }
    ensures early { OnOk result (⟦<(A, B, C) as DekuReader<Ctx>>⟧.no_read_ahead ctx →
        NoReadAhead R.known reader.old reader.new) }
{
    let a = A::from_reader_with_ctx(reader, ctx)?;
    let (b, c) = read_pair(reader, ctx)?;
    Ok((a, b, c))
}

#[inline(always)]
fn read_four<
    Ctx: Copy,
    A: DekuReader<Ctx>,
    B: DekuReader<Ctx>,
    C: DekuReader<Ctx>,
    D: DekuReader<Ctx>,
    R: Source,
>(reader: &mut Reader<R>, ctx: Ctx) -> Result<(A, B, C, D), DekuError>
    requires { ⟦<(A, B, C, D) as DekuReader<Ctx>>⟧.accepts ctx }
    ensures reads { Reads R.known (⟦<(A, B, C, D) as DekuReader<Ctx>>⟧.meaning ctx) reader.old
        result reader.new }
    ensures early { OnOk result (⟦<(A, B, C, D) as DekuReader<Ctx>>⟧.no_read_ahead ctx →
        NoReadAhead R.known reader.old reader.new) }
{
    let a = A::from_reader_with_ctx(reader, ctx)?;
    let (b, c, d) = read_three(reader, ctx)?;
    Ok((a, b, c, d))
}

#[inline(always)]
fn read_five<
    Ctx: Copy,
    A: DekuReader<Ctx>,
    B: DekuReader<Ctx>,
    C: DekuReader<Ctx>,
    D: DekuReader<Ctx>,
    E: DekuReader<Ctx>,
    R: Source,
>(reader: &mut Reader<R>, ctx: Ctx) -> Result<(A, B, C, D, E), DekuError>
    requires { ⟦<(A, B, C, D, E) as DekuReader<Ctx>>⟧.accepts ctx }
    ensures reads { Reads R.known (⟦<(A, B, C, D, E) as DekuReader<Ctx>>⟧.meaning ctx)
        reader.old result reader.new }
    ensures early { OnOk result (⟦<(A, B, C, D, E) as DekuReader<Ctx>>⟧.no_read_ahead ctx →
        NoReadAhead R.known reader.old reader.new) }
{
    let a = A::from_reader_with_ctx(reader, ctx)?;
    let (b, c, d, e) = read_four(reader, ctx)?;
    Ok((a, b, c, d, e))
}

#[inline(always)]
fn read_six<
    Ctx: Copy,
    A: DekuReader<Ctx>,
    B: DekuReader<Ctx>,
    C: DekuReader<Ctx>,
    D: DekuReader<Ctx>,
    E: DekuReader<Ctx>,
    F: DekuReader<Ctx>,
    R: Source,
>(reader: &mut Reader<R>, ctx: Ctx) -> Result<(A, B, C, D, E, F), DekuError>
    requires { ⟦<(A, B, C, D, E, F) as DekuReader<Ctx>>⟧.accepts ctx }
    ensures reads { Reads R.known (⟦<(A, B, C, D, E, F) as DekuReader<Ctx>>⟧.meaning ctx)
        reader.old result reader.new }
    ensures early { OnOk result (⟦<(A, B, C, D, E, F) as DekuReader<Ctx>>⟧.no_read_ahead ctx →
        NoReadAhead R.known reader.old reader.new) }
{
    let a = A::from_reader_with_ctx(reader, ctx)?;
    let (b, c, d, e, f) = read_five(reader, ctx)?;
    Ok((a, b, c, d, e, f))
}

#[inline(always)]
fn read_seven<
    Ctx: Copy,
    A: DekuReader<Ctx>,
    B: DekuReader<Ctx>,
    C: DekuReader<Ctx>,
    D: DekuReader<Ctx>,
    E: DekuReader<Ctx>,
    F: DekuReader<Ctx>,
    G: DekuReader<Ctx>,
    R: Source,
>(reader: &mut Reader<R>, ctx: Ctx) -> Result<(A, B, C, D, E, F, G), DekuError>
    requires { ⟦<(A, B, C, D, E, F, G) as DekuReader<Ctx>>⟧.accepts ctx }
    ensures reads { Reads R.known (⟦<(A, B, C, D, E, F, G) as DekuReader<Ctx>>⟧.meaning ctx)
        reader.old result reader.new }
    ensures early { OnOk result (⟦<(A, B, C, D, E, F, G) as DekuReader<Ctx>>⟧.no_read_ahead ctx
        → NoReadAhead R.known reader.old reader.new) }
{
    let a = A::from_reader_with_ctx(reader, ctx)?;
    let (b, c, d, e, f, g) = read_six(reader, ctx)?;
    Ok((a, b, c, d, e, f, g))
}

#[inline(always)]
fn read_eight<
    Ctx: Copy,
    A: DekuReader<Ctx>,
    B: DekuReader<Ctx>,
    C: DekuReader<Ctx>,
    D: DekuReader<Ctx>,
    E: DekuReader<Ctx>,
    F: DekuReader<Ctx>,
    G: DekuReader<Ctx>,
    H: DekuReader<Ctx>,
    R: Source,
>(reader: &mut Reader<R>, ctx: Ctx) -> Result<(A, B, C, D, E, F, G, H), DekuError>
    requires { ⟦<(A, B, C, D, E, F, G, H) as DekuReader<Ctx>>⟧.accepts ctx }
    ensures reads { Reads R.known (⟦<(A, B, C, D, E, F, G, H) as DekuReader<Ctx>>⟧.meaning ctx)
        reader.old result reader.new }
    ensures early { OnOk result (⟦<(A, B, C, D, E, F, G, H) as DekuReader<Ctx>>⟧.no_read_ahead
        ctx → NoReadAhead R.known reader.old reader.new) }
{
    let a = A::from_reader_with_ctx(reader, ctx)?;
    let (b, c, d, e, f, g, h) = read_seven(reader, ctx)?;
    Ok((a, b, c, d, e, f, g, h))
}

#[inline(always)]
fn read_nine<
    Ctx: Copy,
    A: DekuReader<Ctx>,
    B: DekuReader<Ctx>,
    C: DekuReader<Ctx>,
    D: DekuReader<Ctx>,
    E: DekuReader<Ctx>,
    F: DekuReader<Ctx>,
    G: DekuReader<Ctx>,
    H: DekuReader<Ctx>,
    I: DekuReader<Ctx>,
    R: Source,
>(reader: &mut Reader<R>, ctx: Ctx) -> Result<(A, B, C, D, E, F, G, H, I), DekuError>
    requires { ⟦<(A, B, C, D, E, F, G, H, I) as DekuReader<Ctx>>⟧.accepts ctx }
    ensures reads { Reads R.known (⟦<(A, B, C, D, E, F, G, H, I) as DekuReader<Ctx>>⟧.meaning
        ctx) reader.old result reader.new }
    ensures early { OnOk result
        (⟦<(A, B, C, D, E, F, G, H, I) as DekuReader<Ctx>>⟧.no_read_ahead ctx → NoReadAhead
        R.known reader.old reader.new) }
{
    let a = A::from_reader_with_ctx(reader, ctx)?;
    let (b, c, d, e, f, g, h, i) = read_eight(reader, ctx)?;
    Ok((a, b, c, d, e, f, g, h, i))
}

#[inline(always)]
fn read_ten<
    Ctx: Copy,
    A: DekuReader<Ctx>,
    B: DekuReader<Ctx>,
    C: DekuReader<Ctx>,
    D: DekuReader<Ctx>,
    E: DekuReader<Ctx>,
    F: DekuReader<Ctx>,
    G: DekuReader<Ctx>,
    H: DekuReader<Ctx>,
    I: DekuReader<Ctx>,
    J: DekuReader<Ctx>,
    R: Source,
>(reader: &mut Reader<R>, ctx: Ctx) -> Result<(A, B, C, D, E, F, G, H, I, J), DekuError>
    requires { ⟦<(A, B, C, D, E, F, G, H, I, J) as DekuReader<Ctx>>⟧.accepts ctx }
    ensures reads { Reads R.known (⟦<(A, B, C, D, E, F, G, H, I, J) as DekuReader<Ctx>>⟧.meaning
        ctx) reader.old result reader.new }
    ensures early { OnOk result
        (⟦<(A, B, C, D, E, F, G, H, I, J) as DekuReader<Ctx>>⟧.no_read_ahead ctx → NoReadAhead
        R.known reader.old reader.new) }
{
    let a = A::from_reader_with_ctx(reader, ctx)?;
    let (b, c, d, e, f, g, h, i, j) = read_nine(reader, ctx)?;
    Ok((a, b, c, d, e, f, g, h, i, j))
}
