//! Items up to the end of the input, and parts before them.

ghost use Rattle.std.specs.Prelude.{◌≡◌};
ghost use Rattle.deku_bits.specs.Outcomes.{Mapped};
ghost use Rattle.deku.specs.Composing.{Then, Both, WritesEach};
ghost use Rattle.deku_pieces.specs.ToEnd.{ReadsRest};

use deku::ctx::Limit;
use deku::device::{Sink, Source};
use deku::reader::Reader;
use deku::writer::Writer;
use deku::{DekuError, DekuReader, DekuWriter};

/// Items up to the end of the input. What follows them would be read as more of them, so they are
/// `SymmetricLast` and not `Symmetric`: the last part of a whole value.
///
/// Reading fails as the first item that fails, also at an end inside an item, with
/// `Parse("item without width")` if an item has no bits, or with `Io(OutOfMemory)` if there is no
/// memory for an item. Writing fails as the first item that fails.
///
/// ```text
/// type Log = Before<Be<u16>, Rest<Be<u16>>>;                 // a number, and all after it
/// ```
#[derive(Debug, PartialEq, Eq, Drop)]
pub struct Rest<T> {
    /// The items.
    pub items: Vec<T>,
}

impl<T: DekuReader<()>> DekuReader<()> for Rest<T> {
    ghost accepts = { λ _. T.accepts tt };

    ghost no_read_ahead = { λ _. ⊥ };

    ghost meaning = { λ _. ReadsRest (λ xs. record { items = xs }) (T.meaning tt) };

    fn from_reader_with_ctx<R: Source>(reader: &mut Reader<R>, c: ()) -> Result<Self, DekuError> {
        let items = Vec::from_reader_with_ctx(reader, (Limit::end(), c))?;
        Ok(Rest { items })
    }
}

impl<T: DekuWriter<()>> DekuWriter<()> for Rest<T> {
    ghost accepts = { λ _. T.accepts tt };

    ghost meaning = { λ v _. WritesEach (λ x. T.meaning x tt) v.items.items };

    fn to_writer<W: Sink>(&self, writer: &mut Writer<W>, ctx: ()) -> Result<(), DekuError> {
        self.items.to_writer(writer, ctx)
    }
}

/// Parts, and after them what is last.
///
/// Reading and writing fail as the parts do, and then as what is last does.
///
/// ```text
/// let log = Before { head: Be(1u16), rest: Rest { items } };
/// log.pack_whole(alloc)?                                     // 00 01, and two bytes an item
/// ```
#[derive(Debug, PartialEq, Eq, Drop)]
pub struct Before<P, R> {
    /// The parts.
    pub head: P,
    /// What is last.
    pub rest: R,
}

impl<P: DekuReader<()>, L: DekuReader<()>> DekuReader<()> for Before<P, L> {
    ghost accepts = { λ _. P.accepts tt × L.accepts tt };

    ghost no_read_ahead = { λ _. P.no_read_ahead tt × L.no_read_ahead tt };

    ghost meaning = { λ _. Then (P.meaning tt)
        (λ h. Mapped (λ x. record { head = h; rest = x }) (L.meaning tt)) };

    #[inline(always)]
    fn from_reader_with_ctx<R: Source>(reader: &mut Reader<R>, c: ()) -> Result<Self, DekuError> {
        let head = P::from_reader_with_ctx(reader, c)?;
        let rest = L::from_reader_with_ctx(reader, c)?;
        Ok(Before { head, rest })
    }
}

impl<P: DekuWriter<()>, L: DekuWriter<()>> DekuWriter<()> for Before<P, L> {
    ghost accepts = { λ _. P.accepts tt × L.accepts tt };

    ghost meaning = { λ v _. Both (P.meaning v.head tt) (L.meaning v.rest tt) };

    #[inline(always)]
    fn to_writer<W: Sink>(&self, writer: &mut Writer<W>, ctx: ()) -> Result<(), DekuError> {
        self.head.to_writer(writer, ctx)?;
        self.rest.to_writer(writer, ctx)
    }
}
