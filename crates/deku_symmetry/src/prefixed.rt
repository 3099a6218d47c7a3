//! Items after their count, which no record keeps.

ghost use Rattle.std.specs.Prelude.{◌≡◌, length, refl};
ghost use Rattle.deku_bits.specs.WriterCalls.{Writes};
ghost use Rattle.deku.specs.Composing.{Both, WritesEach};
ghost use Rattle.deku_pieces.specs.Pieces.{InTurn, OfEach, SameEach};
ghost use Rattle.deku_pieces.specs.Leading.{ReadsPrefixed};
ghost use Rattle.deku_pieces.proofs.Prefixed.{prefixed_symmetric};

use crate::enums::Id;
use crate::traits::{Part, Symmetric};
use deku::ctx::Limit;
use deku::device::{Sink, Source};
use deku::reader::Reader;
use deku::writer::Writer;
use deku::{DekuError, DekuReader, DekuWriter, read_item};
use std::marker::PhantomData;

/// A count that is laid out as `I`, and after it as many items. The items are counted when they are
/// written, so a record has no field for it.
///
/// Reading fails as the count does, and then as the first item that fails, or with
/// `Io(OutOfMemory)` if there is no memory for an item. Writing fails as the count does, for
/// example if it does not fit; then nothing moves. Otherwise it fails as the first item that fails.
///
/// ```text
/// type Parts = Prefixed<Msb<u64, 8>, Be<u16>>;               // 02 00 06 00 09
/// ```
#[derive(Debug, PartialEq, Eq, Drop)]
pub struct Prefixed<I, T> {
    /// The items.
    pub items: Vec<T>,
    /// How their count is laid out.
    pub count: PhantomData<I>,
}

impl<I, T> Prefixed<I, T> {
    /// Wraps the items.
    ///
    /// ```text
    /// Prefixed::<Msb<u64, 8>, _>::new(numbers)
    /// ```
    pub fn new(items: Vec<T>) -> Prefixed<I, T>
        ensures { result ≡ record { items = items; count = record {} } }
    {
        Prefixed {
            items,
            count: PhantomData,
        }
    }
}

impl<I: Id + DekuReader<()>, T: DekuReader<()>> DekuReader<()> for Prefixed<I, T> {
    ghost accepts = { λ _. I.DekuReader.accepts tt × T.accepts tt };

    ghost no_read_ahead = { λ _. I.DekuReader.no_read_ahead tt × T.no_read_ahead tt };

    ghost meaning = { λ _. ReadsPrefixed (λ xs. record { items = xs; count = record {} })
        I.Id.number_of (I.DekuReader.meaning tt) (T.meaning tt) };

    #[inline(always)]
    fn from_reader_with_ctx<R: Source>(reader: &mut Reader<R>, c: ()) -> Result<Self, DekuError> {
        let count: I = read_item(reader, c)?;
        let limit = Limit::new_count(count.number() as usize);
        let items = Vec::from_reader_with_ctx(reader, (limit, ()))?;
        Ok(Prefixed::new(items))
    }
}

impl<I: Id + DekuWriter<()>, T: DekuWriter<()>> DekuWriter<()> for Prefixed<I, T> {
    ghost accepts = { λ _. I.DekuWriter.accepts tt × T.accepts tt };

    ghost meaning = { λ v _. Both
        (I.DekuWriter.meaning (I.Id.part_of (length v.items.items)) tt)
        (WritesEach (λ x. T.meaning x tt) v.items.items) };

    #[inline(always)]
    fn to_writer<W: Sink>(&self, writer: &mut Writer<W>, _ctx: ()) -> Result<(), DekuError> {
        write_prefixed::<I, T, W>(&self.items, writer)
    }
}

// Writes the count of the items, and then the items.
#[inline(always)]
fn write_prefixed<I: Id + DekuWriter<()>, T: DekuWriter<()>, W: Sink>(
    items: &Vec<T>,
    writer: &mut Writer<W>,
) -> Result<(), DekuError>
    requires count { I.DekuWriter.accepts tt }
    requires items { T.accepts tt }
    ensures { Writes W.known (Both (I.DekuWriter.meaning (I.Id.part_of (length items.now.items)) tt)
        (WritesEach (λ x. T.meaning x tt) items.now.items)) writer.old result writer.new }
{
    let count = I::of_number(items.len() as u64);
    count.to_writer(writer, ())?;
    items.to_writer(writer, ())
}

/// The pieces of the count of the items, and then those of the items.
impl<I: Id, T: Part<()>> Part<()> for Prefixed<I, T> {
    ghost pieces = { λ v _. InTurn (I.Part.pieces (I.Id.part_of (length v.items.items)) tt)
        (OfEach (λ x. T.pieces x tt) v.items.items) };

    ghost same = { λ v w. SameEach T.same v.items.items w.items.items };

    ghost reads = { λ _. ReadsPrefixed (λ xs. record { items = xs; count = record {} })
        I.Id.number_of (I.Part.reads tt) (T.reads tt) };

    ghost writes = { λ v _. Both (I.Part.writes (I.Id.part_of (length v.items.items)) tt)
        (WritesEach (λ x. T.writes x tt) v.items.items) };

    ghost law = { λ _. prefixed_symmetric (λ xs. record { items = xs; count = record {} })
        (λ v. v.items) (λ xs. refl) I.Id.number_of I.Id.part_of I.Id.round I.Id.again I.Id.alike
        (I.Part.law tt) (T.law tt) };
}

impl<I: Id + Symmetric<()>, T: Symmetric<()>> Symmetric<()> for Prefixed<I, T> {
    ghost symmetric = { λ _. prefixed_symmetric (λ xs. record { items = xs; count = record {} })
        (λ v. v.items) (λ xs. refl) I.Id.number_of I.Id.part_of I.Id.round I.Id.again I.Id.alike
        (I.Symmetric.symmetric tt) (T.symmetric tt) };
}

/// Items that are elsewhere in memory, after their count: written as `Prefixed` of them.
///
/// ```text
/// PrefixedRef::<Msb<u64, 8>, _> {
///     items: &self.numbers,
///     count: PhantomData,
/// }
/// .to_writer(writer, ())
/// ```
#[derive(Drop)]
pub struct PrefixedRef<'a, I, T> {
    /// The items.
    pub items: &'a Vec<T>,
    /// How their count is laid out.
    pub count: PhantomData<I>,
}

impl<'a, I: Id + DekuWriter<()>, T: DekuWriter<()>> DekuWriter<()> for PrefixedRef<'a, I, T> {
    ghost accepts = { λ _. I.DekuWriter.accepts tt × T.accepts tt };

    ghost meaning = { λ v _. Both
        (I.DekuWriter.meaning (I.Id.part_of (length v.items.now.items)) tt)
        (WritesEach (λ x. T.meaning x tt) v.items.now.items) };

    #[inline(always)]
    fn to_writer<W: Sink>(&self, writer: &mut Writer<W>, _ctx: ()) -> Result<(), DekuError> {
        write_prefixed::<I, T, W>(self.items, writer)
    }
}
