//! Tuples: their items in order. A tuple of three or more items is written as its first item and
//! the tuple of the rest.

ghost use Rattle.deku_bits.specs.WriterCalls.{Writes};
ghost use Rattle.deku_meanings.specs.Composing.{Both};

use crate::traits::DekuWriter;
use crate::words::{Word, try_write_word};
use deku_bits::ctx::Order;
use deku_bits::device::Sink;
use deku_bits::error::DekuError;
use deku_bits::writer::Writer;

/// The one item, under the item's context.
impl<Ctx: Copy, A: DekuWriter<Ctx>> DekuWriter<Ctx> for (A,) {
    ghost accepts = { A.accepts };

    ghost meaning = { λ v c. A.meaning v.0 c };

    #[inline(always)]
    fn to_writer<W: Sink>(&self, writer: &mut Writer<W>, ctx: Ctx) -> Result<(), DekuError> {
        self.0.to_writer(writer, ctx)
    }
}

/// The items in order, all under one context. It fails as the first item that fails, and what was
/// written before stays written. The same holds for each tuple below.
impl<Ctx: Copy, A: DekuWriter<Ctx>, B: DekuWriter<Ctx>> DekuWriter<Ctx> for (A, B) {
    ghost accepts = { λ c. A.accepts c × B.accepts c };

    ghost meaning = { λ v c. Both (A.meaning v.0 c) (B.meaning v.1 c) };

    #[inline(always)]
    fn to_writer<W: Sink>(&self, writer: &mut Writer<W>, ctx: Ctx) -> Result<(), DekuError> {
        let high = self.to_word(Order::Msb0, &ctx);
        let low = self.to_word(Order::Lsb0, &ctx);
        if try_write_word(high, low, writer) {
            return Ok(());
        }
        let (a, b) = self;
        write_two(a, b, writer, ctx)
    }

    #[inline]
    fn to_word(&self, order: Order, ctx: &Ctx) -> Option<Word> {
        let (a, b) = self;
        let item = a.to_word(order, ctx)?;
        let rest = b.to_word(order, ctx)?;
        item.followed_by(rest, order)
    }
}

impl<Ctx: Copy, A: DekuWriter<Ctx>, B: DekuWriter<Ctx>, C: DekuWriter<Ctx>> DekuWriter<Ctx>
    for (A, B, C) {
    ghost accepts = { λ c. A.accepts c × B.accepts c × C.accepts c };

    ghost meaning = { λ v c. Both (A.meaning v.0 c) (Both (B.meaning v.1 c) (C.meaning v.2 c)) };

    #[inline(always)]
    fn to_writer<W: Sink>(&self, writer: &mut Writer<W>, ctx: Ctx) -> Result<(), DekuError> {
        let high = self.to_word(Order::Msb0, &ctx);
        let low = self.to_word(Order::Lsb0, &ctx);
        if try_write_word(high, low, writer) {
            return Ok(());
        }
        let (a, b, c) = self;
        write_three(a, b, c, writer, ctx)
    }

    #[inline]
    fn to_word(&self, order: Order, ctx: &Ctx) -> Option<Word> {
        let (a, b, c) = self;
        let item = a.to_word(order, ctx)?;
        let rest = (b, c).to_word(order, ctx)?;
        item.followed_by(rest, order)
    }
}

impl<
    Ctx: Copy,
    A: DekuWriter<Ctx>,
    B: DekuWriter<Ctx>,
    C: DekuWriter<Ctx>,
    D: DekuWriter<Ctx>,
> DekuWriter<Ctx> for (A, B, C, D) {
    ghost accepts = { λ c. A.accepts c × B.accepts c × C.accepts c × D.accepts c };

    ghost meaning = { λ v c. Both (A.meaning v.0 c) (Both (B.meaning v.1 c)
        (Both (C.meaning v.2 c) (D.meaning v.3 c))) };

    #[inline(always)]
    fn to_writer<W: Sink>(&self, writer: &mut Writer<W>, ctx: Ctx) -> Result<(), DekuError> {
        let high = self.to_word(Order::Msb0, &ctx);
        let low = self.to_word(Order::Lsb0, &ctx);
        if try_write_word(high, low, writer) {
            return Ok(());
        }
        let (a, b, c, d) = self;
        write_four(a, b, c, d, writer, ctx)
    }

    #[inline]
    fn to_word(&self, order: Order, ctx: &Ctx) -> Option<Word> {
        let (a, b, c, d) = self;
        let item = a.to_word(order, ctx)?;
        let rest = (b, c, d).to_word(order, ctx)?;
        item.followed_by(rest, order)
    }
}

impl<
    Ctx: Copy,
    A: DekuWriter<Ctx>,
    B: DekuWriter<Ctx>,
    C: DekuWriter<Ctx>,
    D: DekuWriter<Ctx>,
    E: DekuWriter<Ctx>,
> DekuWriter<Ctx> for (A, B, C, D, E) {
    ghost accepts = { λ c. A.accepts c × B.accepts c × C.accepts c × D.accepts c × E.accepts c };

    ghost meaning = { λ v c. Both (A.meaning v.0 c) (Both (B.meaning v.1 c)
        (Both (C.meaning v.2 c) (Both (D.meaning v.3 c) (E.meaning v.4 c)))) };

    #[inline(always)]
    fn to_writer<W: Sink>(&self, writer: &mut Writer<W>, ctx: Ctx) -> Result<(), DekuError> {
        let high = self.to_word(Order::Msb0, &ctx);
        let low = self.to_word(Order::Lsb0, &ctx);
        if try_write_word(high, low, writer) {
            return Ok(());
        }
        let (a, b, c, d, e) = self;
        write_five(a, b, c, d, e, writer, ctx)
    }

    #[inline]
    fn to_word(&self, order: Order, ctx: &Ctx) -> Option<Word> {
        let (a, b, c, d, e) = self;
        let item = a.to_word(order, ctx)?;
        let rest = (b, c, d, e).to_word(order, ctx)?;
        item.followed_by(rest, order)
    }
}

impl<
    Ctx: Copy,
    A: DekuWriter<Ctx>,
    B: DekuWriter<Ctx>,
    C: DekuWriter<Ctx>,
    D: DekuWriter<Ctx>,
    E: DekuWriter<Ctx>,
    F: DekuWriter<Ctx>,
> DekuWriter<Ctx> for (A, B, C, D, E, F) {
    ghost accepts = { λ c. A.accepts c × B.accepts c × C.accepts c × D.accepts c × E.accepts c
        × F.accepts c };

    ghost meaning = { λ v c. Both (A.meaning v.0 c) (Both (B.meaning v.1 c)
        (Both (C.meaning v.2 c) (Both (D.meaning v.3 c)
        (Both (E.meaning v.4 c) (F.meaning v.5 c))))) };

    #[inline(always)]
    fn to_writer<W: Sink>(&self, writer: &mut Writer<W>, ctx: Ctx) -> Result<(), DekuError> {
        let high = self.to_word(Order::Msb0, &ctx);
        let low = self.to_word(Order::Lsb0, &ctx);
        if try_write_word(high, low, writer) {
            return Ok(());
        }
        let (a, b, c, d, e, f) = self;
        write_six(a, b, c, d, e, f, writer, ctx)
    }

    #[inline]
    fn to_word(&self, order: Order, ctx: &Ctx) -> Option<Word> {
        let (a, b, c, d, e, f) = self;
        let item = a.to_word(order, ctx)?;
        let rest = (b, c, d, e, f).to_word(order, ctx)?;
        item.followed_by(rest, order)
    }
}

impl<
    Ctx: Copy,
    A: DekuWriter<Ctx>,
    B: DekuWriter<Ctx>,
    C: DekuWriter<Ctx>,
    D: DekuWriter<Ctx>,
    E: DekuWriter<Ctx>,
    F: DekuWriter<Ctx>,
    G: DekuWriter<Ctx>,
> DekuWriter<Ctx> for (A, B, C, D, E, F, G) {
    ghost accepts = { λ c. A.accepts c × B.accepts c × C.accepts c × D.accepts c × E.accepts c
        × F.accepts c × G.accepts c };

    ghost meaning = { λ v c. Both (A.meaning v.0 c) (Both (B.meaning v.1 c)
        (Both (C.meaning v.2 c) (Both (D.meaning v.3 c)
        (Both (E.meaning v.4 c) (Both (F.meaning v.5 c) (G.meaning v.6 c)))))) };

    #[inline(always)]
    fn to_writer<W: Sink>(&self, writer: &mut Writer<W>, ctx: Ctx) -> Result<(), DekuError> {
        let high = self.to_word(Order::Msb0, &ctx);
        let low = self.to_word(Order::Lsb0, &ctx);
        if try_write_word(high, low, writer) {
            return Ok(());
        }
        let (a, b, c, d, e, f, g) = self;
        write_seven(a, b, c, d, e, f, g, writer, ctx)
    }

    #[inline]
    fn to_word(&self, order: Order, ctx: &Ctx) -> Option<Word> {
        let (a, b, c, d, e, f, g) = self;
        let item = a.to_word(order, ctx)?;
        let rest = (b, c, d, e, f, g).to_word(order, ctx)?;
        item.followed_by(rest, order)
    }
}

impl<
    Ctx: Copy,
    A: DekuWriter<Ctx>,
    B: DekuWriter<Ctx>,
    C: DekuWriter<Ctx>,
    D: DekuWriter<Ctx>,
    E: DekuWriter<Ctx>,
    F: DekuWriter<Ctx>,
    G: DekuWriter<Ctx>,
    H: DekuWriter<Ctx>,
> DekuWriter<Ctx> for (A, B, C, D, E, F, G, H) {
    ghost accepts = { λ c. A.accepts c × B.accepts c × C.accepts c × D.accepts c × E.accepts c
        × F.accepts c × G.accepts c × H.accepts c };

    ghost meaning = { λ v c. Both (A.meaning v.0 c) (Both (B.meaning v.1 c)
        (Both (C.meaning v.2 c) (Both (D.meaning v.3 c)
        (Both (E.meaning v.4 c) (Both (F.meaning v.5 c)
        (Both (G.meaning v.6 c) (H.meaning v.7 c))))))) };

    #[inline(always)]
    fn to_writer<W: Sink>(&self, writer: &mut Writer<W>, ctx: Ctx) -> Result<(), DekuError> {
        let high = self.to_word(Order::Msb0, &ctx);
        let low = self.to_word(Order::Lsb0, &ctx);
        if try_write_word(high, low, writer) {
            return Ok(());
        }
        let (a, b, c, d, e, f, g, h) = self;
        write_eight(a, b, c, d, e, f, g, h, writer, ctx)
    }

    #[inline]
    fn to_word(&self, order: Order, ctx: &Ctx) -> Option<Word> {
        let (a, b, c, d, e, f, g, h) = self;
        let item = a.to_word(order, ctx)?;
        let rest = (b, c, d, e, f, g, h).to_word(order, ctx)?;
        item.followed_by(rest, order)
    }
}

impl<
    Ctx: Copy,
    A: DekuWriter<Ctx>,
    B: DekuWriter<Ctx>,
    C: DekuWriter<Ctx>,
    D: DekuWriter<Ctx>,
    E: DekuWriter<Ctx>,
    F: DekuWriter<Ctx>,
    G: DekuWriter<Ctx>,
    H: DekuWriter<Ctx>,
    I: DekuWriter<Ctx>,
> DekuWriter<Ctx> for (A, B, C, D, E, F, G, H, I) {
    ghost accepts = { λ c. A.accepts c × B.accepts c × C.accepts c × D.accepts c × E.accepts c
        × F.accepts c × G.accepts c × H.accepts c × I.accepts c };

    ghost meaning = { λ v c. Both (A.meaning v.0 c) (Both (B.meaning v.1 c)
        (Both (C.meaning v.2 c) (Both (D.meaning v.3 c)
        (Both (E.meaning v.4 c) (Both (F.meaning v.5 c)
        (Both (G.meaning v.6 c) (Both (H.meaning v.7 c) (I.meaning v.8 c)))))))) };

    #[inline(always)]
    fn to_writer<W: Sink>(&self, writer: &mut Writer<W>, ctx: Ctx) -> Result<(), DekuError> {
        let high = self.to_word(Order::Msb0, &ctx);
        let low = self.to_word(Order::Lsb0, &ctx);
        if try_write_word(high, low, writer) {
            return Ok(());
        }
        let (a, b, c, d, e, f, g, h, i) = self;
        write_nine(a, b, c, d, e, f, g, h, i, writer, ctx)
    }

    #[inline]
    fn to_word(&self, order: Order, ctx: &Ctx) -> Option<Word> {
        let (a, b, c, d, e, f, g, h, i) = self;
        let item = a.to_word(order, ctx)?;
        let rest = (b, c, d, e, f, g, h, i).to_word(order, ctx)?;
        item.followed_by(rest, order)
    }
}

impl<
    Ctx: Copy,
    A: DekuWriter<Ctx>,
    B: DekuWriter<Ctx>,
    C: DekuWriter<Ctx>,
    D: DekuWriter<Ctx>,
    E: DekuWriter<Ctx>,
    F: DekuWriter<Ctx>,
    G: DekuWriter<Ctx>,
    H: DekuWriter<Ctx>,
    I: DekuWriter<Ctx>,
    J: DekuWriter<Ctx>,
> DekuWriter<Ctx> for (A, B, C, D, E, F, G, H, I, J) {
    ghost accepts = { λ c. A.accepts c × B.accepts c × C.accepts c × D.accepts c × E.accepts c
        × F.accepts c × G.accepts c × H.accepts c × I.accepts c × J.accepts c };

    ghost meaning = { λ v c. Both (A.meaning v.0 c) (Both (B.meaning v.1 c)
        (Both (C.meaning v.2 c) (Both (D.meaning v.3 c)
        (Both (E.meaning v.4 c) (Both (F.meaning v.5 c)
        (Both (G.meaning v.6 c) (Both (H.meaning v.7 c)
        (Both (I.meaning v.8 c) (J.meaning v.9 c))))))))) };

    #[inline(always)]
    fn to_writer<W: Sink>(&self, writer: &mut Writer<W>, ctx: Ctx) -> Result<(), DekuError> {
        let high = self.to_word(Order::Msb0, &ctx);
        let low = self.to_word(Order::Lsb0, &ctx);
        if try_write_word(high, low, writer) {
            return Ok(());
        }
        let (a, b, c, d, e, f, g, h, i, j) = self;
        write_ten(a, b, c, d, e, f, g, h, i, j, writer, ctx)
    }

    #[inline]
    fn to_word(&self, order: Order, ctx: &Ctx) -> Option<Word> {
        let (a, b, c, d, e, f, g, h, i, j) = self;
        let item = a.to_word(order, ctx)?;
        let rest = (b, c, d, e, f, g, h, i, j).to_word(order, ctx)?;
        item.followed_by(rest, order)
    }
}

impl<
    Ctx: Copy,
    A: DekuWriter<Ctx>,
    B: DekuWriter<Ctx>,
    C: DekuWriter<Ctx>,
    D: DekuWriter<Ctx>,
    E: DekuWriter<Ctx>,
    F: DekuWriter<Ctx>,
    G: DekuWriter<Ctx>,
    H: DekuWriter<Ctx>,
    I: DekuWriter<Ctx>,
    J: DekuWriter<Ctx>,
    K: DekuWriter<Ctx>,
> DekuWriter<Ctx> for (A, B, C, D, E, F, G, H, I, J, K) {
    ghost accepts = { λ c. A.accepts c × B.accepts c × C.accepts c × D.accepts c × E.accepts c
        × F.accepts c × G.accepts c × H.accepts c × I.accepts c × J.accepts c × K.accepts c };

    ghost meaning = { λ v c. Both (A.meaning v.0 c) (Both (B.meaning v.1 c)
        (Both (C.meaning v.2 c) (Both (D.meaning v.3 c)
        (Both (E.meaning v.4 c) (Both (F.meaning v.5 c)
        (Both (G.meaning v.6 c) (Both (H.meaning v.7 c)
        (Both (I.meaning v.8 c) (Both (J.meaning v.9 c) (K.meaning v.10 c)))))))))) };

    #[inline(always)]
    fn to_writer<W: Sink>(&self, writer: &mut Writer<W>, ctx: Ctx) -> Result<(), DekuError> {
        let high = self.to_word(Order::Msb0, &ctx);
        let low = self.to_word(Order::Lsb0, &ctx);
        if try_write_word(high, low, writer) {
            return Ok(());
        }
        let (a, b, c, d, e, f, g, h, i, j, k) = self;
        write_eleven(a, b, c, d, e, f, g, h, i, j, k, writer, ctx)
    }

    #[inline]
    fn to_word(&self, order: Order, ctx: &Ctx) -> Option<Word> {
        let (a, b, c, d, e, f, g, h, i, j, k) = self;
        let item = a.to_word(order, ctx)?;
        let rest = (b, c, d, e, f, g, h, i, j, k).to_word(order, ctx)?;
        item.followed_by(rest, order)
    }
}

// The items of a tuple, one after the other. The same holds for each function below.
#[inline(always)]
fn write_two<Ctx: Copy, A: DekuWriter<Ctx>, B: DekuWriter<Ctx>, W: Sink>(
    a: &A,
    b: &B,
    writer: &mut Writer<W>,
    ctx: Ctx,
) -> Result<(), DekuError>
    requires { ⟦<(A, B) as DekuWriter<Ctx>>⟧.accepts ctx }
    ensures { Writes W.known (⟦<(A, B) as DekuWriter<Ctx>>⟧.meaning
        (a.now, b.now) ctx) writer.old result writer.new }
{
    a.to_writer(writer, ctx)?;
    b.to_writer(writer, ctx)
}

#[inline(always)]
fn write_three<Ctx: Copy, A: DekuWriter<Ctx>, B: DekuWriter<Ctx>, C: DekuWriter<Ctx>, W: Sink>(
    a: &A,
    b: &B,
    c: &C,
    writer: &mut Writer<W>,
    ctx: Ctx,
) -> Result<(), DekuError>
    requires { ⟦<(A, B, C) as DekuWriter<Ctx>>⟧.accepts ctx }
    ensures { Writes W.known (⟦<(A, B, C) as DekuWriter<Ctx>>⟧.meaning
        (a.now, b.now, c.now) ctx) writer.old result writer.new }
{
    a.to_writer(writer, ctx)?;
    write_two(b, c, writer, ctx)
}

#[inline(always)]
fn write_four<
    Ctx: Copy,
    A: DekuWriter<Ctx>,
    B: DekuWriter<Ctx>,
    C: DekuWriter<Ctx>,
    D: DekuWriter<Ctx>,
    W: Sink,
>(a: &A, b: &B, c: &C, d: &D, writer: &mut Writer<W>, ctx: Ctx) -> Result<(), DekuError>
    requires { ⟦<(A, B, C, D) as DekuWriter<Ctx>>⟧.accepts ctx }
    ensures { Writes W.known (⟦<(A, B, C, D) as DekuWriter<Ctx>>⟧.meaning
        (a.now, b.now, c.now, d.now) ctx) writer.old result writer.new }
{
    a.to_writer(writer, ctx)?;
    write_three(b, c, d, writer, ctx)
}

#[inline(always)]
fn write_five<
    Ctx: Copy,
    A: DekuWriter<Ctx>,
    B: DekuWriter<Ctx>,
    C: DekuWriter<Ctx>,
    D: DekuWriter<Ctx>,
    E: DekuWriter<Ctx>,
    W: Sink,
>(a: &A, b: &B, c: &C, d: &D, e: &E, writer: &mut Writer<W>, ctx: Ctx) -> Result<(), DekuError>
    requires { ⟦<(A, B, C, D, E) as DekuWriter<Ctx>>⟧.accepts ctx }
    ensures { Writes W.known (⟦<(A, B, C, D, E) as DekuWriter<Ctx>>⟧.meaning
        (a.now, b.now, c.now, d.now, e.now) ctx) writer.old result writer.new }
{
    a.to_writer(writer, ctx)?;
    write_four(b, c, d, e, writer, ctx)
}

#[inline(always)]
fn write_six<
    Ctx: Copy,
    A: DekuWriter<Ctx>,
    B: DekuWriter<Ctx>,
    C: DekuWriter<Ctx>,
    D: DekuWriter<Ctx>,
    E: DekuWriter<Ctx>,
    F: DekuWriter<Ctx>,
    W: Sink,
>(
    a: &A,
    b: &B,
    c: &C,
    d: &D,
    e: &E,
    f: &F,
    writer: &mut Writer<W>,
    ctx: Ctx,
) -> Result<(), DekuError>
    requires { ⟦<(A, B, C, D, E, F) as DekuWriter<Ctx>>⟧.accepts ctx }
    ensures { Writes W.known (⟦<(A, B, C, D, E, F) as DekuWriter<Ctx>>⟧.meaning
        (a.now, b.now, c.now, d.now, e.now, f.now) ctx) writer.old result writer.new }
{
    a.to_writer(writer, ctx)?;
    write_five(b, c, d, e, f, writer, ctx)
}

#[inline(always)]
fn write_seven<
    Ctx: Copy,
    A: DekuWriter<Ctx>,
    B: DekuWriter<Ctx>,
    C: DekuWriter<Ctx>,
    D: DekuWriter<Ctx>,
    E: DekuWriter<Ctx>,
    F: DekuWriter<Ctx>,
    G: DekuWriter<Ctx>,
    W: Sink,
>(
    a: &A,
    b: &B,
    c: &C,
    d: &D,
    e: &E,
    f: &F,
    g: &G,
    writer: &mut Writer<W>,
    ctx: Ctx,
) -> Result<(), DekuError>
    requires { ⟦<(A, B, C, D, E, F, G) as DekuWriter<Ctx>>⟧.accepts ctx }
    ensures { Writes W.known (⟦<(A, B, C, D, E, F, G) as DekuWriter<Ctx>>⟧.meaning
        (a.now, b.now, c.now, d.now, e.now, f.now, g.now) ctx) writer.old result writer.new }
{
    a.to_writer(writer, ctx)?;
    write_six(b, c, d, e, f, g, writer, ctx)
}

#[inline(always)]
fn write_eight<
    Ctx: Copy,
    A: DekuWriter<Ctx>,
    B: DekuWriter<Ctx>,
    C: DekuWriter<Ctx>,
    D: DekuWriter<Ctx>,
    E: DekuWriter<Ctx>,
    F: DekuWriter<Ctx>,
    G: DekuWriter<Ctx>,
    H: DekuWriter<Ctx>,
    W: Sink,
>(
    a: &A,
    b: &B,
    c: &C,
    d: &D,
    e: &E,
    f: &F,
    g: &G,
    h: &H,
    writer: &mut Writer<W>,
    ctx: Ctx,
) -> Result<(), DekuError>
    requires { ⟦<(A, B, C, D, E, F, G, H) as DekuWriter<Ctx>>⟧.accepts ctx }
    ensures { Writes W.known (⟦<(A, B, C, D, E, F, G, H) as DekuWriter<Ctx>>⟧.meaning
        (a.now, b.now, c.now, d.now, e.now, f.now, g.now, h.now) ctx) writer.old result writer.new }
{
    a.to_writer(writer, ctx)?;
    write_seven(b, c, d, e, f, g, h, writer, ctx)
}

#[inline(always)]
fn write_nine<
    Ctx: Copy,
    A: DekuWriter<Ctx>,
    B: DekuWriter<Ctx>,
    C: DekuWriter<Ctx>,
    D: DekuWriter<Ctx>,
    E: DekuWriter<Ctx>,
    F: DekuWriter<Ctx>,
    G: DekuWriter<Ctx>,
    H: DekuWriter<Ctx>,
    I: DekuWriter<Ctx>,
    W: Sink,
>(
    a: &A,
    b: &B,
    c: &C,
    d: &D,
    e: &E,
    f: &F,
    g: &G,
    h: &H,
    i: &I,
    writer: &mut Writer<W>,
    ctx: Ctx,
) -> Result<(), DekuError>
    requires { ⟦<(A, B, C, D, E, F, G, H, I) as DekuWriter<Ctx>>⟧.accepts ctx }
    ensures { Writes W.known (⟦<(A, B, C, D, E, F, G, H, I) as DekuWriter<Ctx>>⟧.meaning
        (a.now, b.now, c.now, d.now, e.now, f.now, g.now, h.now, i.now) ctx)
        writer.old result writer.new }
{
    a.to_writer(writer, ctx)?;
    write_eight(b, c, d, e, f, g, h, i, writer, ctx)
}

#[inline(always)]
fn write_ten<
    Ctx: Copy,
    A: DekuWriter<Ctx>,
    B: DekuWriter<Ctx>,
    C: DekuWriter<Ctx>,
    D: DekuWriter<Ctx>,
    E: DekuWriter<Ctx>,
    F: DekuWriter<Ctx>,
    G: DekuWriter<Ctx>,
    H: DekuWriter<Ctx>,
    I: DekuWriter<Ctx>,
    J: DekuWriter<Ctx>,
    W: Sink,
>(
    a: &A,
    b: &B,
    c: &C,
    d: &D,
    e: &E,
    f: &F,
    g: &G,
    h: &H,
    i: &I,
    j: &J,
    writer: &mut Writer<W>,
    ctx: Ctx,
) -> Result<(), DekuError>
    requires { ⟦<(A, B, C, D, E, F, G, H, I, J) as DekuWriter<Ctx>>⟧.accepts ctx }
    ensures { Writes W.known (⟦<(A, B, C, D, E, F, G, H, I, J) as DekuWriter<Ctx>>⟧.meaning
        (a.now, b.now, c.now, d.now, e.now, f.now, g.now, h.now, i.now, j.now) ctx)
        writer.old result writer.new }
{
    a.to_writer(writer, ctx)?;
    write_nine(b, c, d, e, f, g, h, i, j, writer, ctx)
}

#[inline(always)]
fn write_eleven<
    Ctx: Copy,
    A: DekuWriter<Ctx>,
    B: DekuWriter<Ctx>,
    C: DekuWriter<Ctx>,
    D: DekuWriter<Ctx>,
    E: DekuWriter<Ctx>,
    F: DekuWriter<Ctx>,
    G: DekuWriter<Ctx>,
    H: DekuWriter<Ctx>,
    I: DekuWriter<Ctx>,
    J: DekuWriter<Ctx>,
    K: DekuWriter<Ctx>,
    W: Sink,
>(
    a: &A,
    b: &B,
    c: &C,
    d: &D,
    e: &E,
    f: &F,
    g: &G,
    h: &H,
    i: &I,
    j: &J,
    k: &K,
    writer: &mut Writer<W>,
    ctx: Ctx,
) -> Result<(), DekuError>
    requires { ⟦<(A, B, C, D, E, F, G, H, I, J, K) as DekuWriter<Ctx>>⟧.accepts ctx }
    ensures { Writes W.known (⟦<(A, B, C, D, E, F, G, H, I, J, K) as DekuWriter<Ctx>>⟧.meaning
        (a.now, b.now, c.now, d.now, e.now, f.now, g.now, h.now, i.now, j.now, k.now) ctx)
        writer.old result writer.new }
{
    a.to_writer(writer, ctx)?;
    write_ten(b, c, d, e, f, g, h, i, j, k, writer, ctx)
}
