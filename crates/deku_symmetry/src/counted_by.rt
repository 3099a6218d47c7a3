//! Items that the parts before them count.

ghost use Rattle.std.specs.Prelude.{◌≡◌, ℕ, Option, refl};
ghost use Rattle.deku_bits.specs.WriterCalls.{Writes};
ghost use Rattle.deku_bits.specs.Outcomes.{Mapped};
ghost use Rattle.deku.specs.Composing.{Then};
ghost use Rattle.deku_pieces.specs.Pieces.{SameEach};
ghost use Rattle.deku_pieces.specs.Leading.{OfCounts, ReadsCounted, WritesCounts};
ghost use Rattle.deku_pieces.proofs.Heads.{counts_symmetric};

use crate::traits::{Part, Symmetric};
use deku::device::{Sink, Source};
use deku::reader::Reader;
use deku::writer::Writer;
use deku::{DekuError, DekuReader, DekuWriter};
use deku_pieces::counted::{is_counted, read_counted};
use std::marker::PhantomData;

/// How many items follow the parts that are before them.
///
/// ```text
/// impl CountOf<Front> for OptionBytes { // of a length in words of four bytes, the header included
///     ghost count_of = { λ head. if nat_lt head.1.0 5 then None else Some ((head.1.0 - 5) * 4) };
///
///     fn count(head: &Front) -> Option<usize> {
///         Some((head.1.0 as usize).checked_sub(5)? * 4)
///     }
/// }
/// ```
pub trait CountOf<P>: Drop {
    // How many items follow, if the head names a count.
    ghost count_of: { P → Option ℕ };

    /// Returns how many items follow, or `None` if the head names no count.
    fn count(head: &P) -> Option<usize>
        ensures { result ≡ count_of head.now };
}

/// Heads that are the same give the same count.
///
/// ```text
/// impl CountOfLaw<Front> for OptionBytes {
///     ghost alike = { λ v w e. rw e.1.0 refl };
/// }
/// ```
pub trait CountOfLaw<P: Part<()>>: CountOf<P> {
    // Heads that are the same give the same count.
    ghost alike: { (v w : P) → P.same v w
        → Self.CountOf.count_of v ≡ Self.CountOf.count_of w };
}

/// Parts, and after them as many items as `C` says of them.
///
/// Reading fails with `Parse("head without a count")` if the head names no count; the head is
/// consumed. Writing fails with `Assertion("count out of step with items")` if the head names no
/// count, or another count than that of the items; then nothing moves. Otherwise both fail as the
/// head does, and then as the first item that fails. Reading fails with `Io(OutOfMemory)` if there
/// is no memory for an item.
///
/// ```text
/// type Front = (Be<u16>, Msb<u8, 4>, Msb<u8, 4>);
/// type Parts = CountedBy<Front, OptionBytes, u8>; // two bytes, a byte, and four bytes a word
/// ```
#[derive(Debug, PartialEq, Eq, Drop)]
pub struct CountedBy<P, C, T> {
    /// The parts before the items.
    pub head: P,
    /// The items.
    pub items: Vec<T>,
    /// The count.
    pub count: PhantomData<C>,
}

impl<P, C, T> CountedBy<P, C, T> {
    /// Parts and their items. Writing checks that they agree.
    ///
    /// ```text
    /// CountedBy::<_, OptionBytes, _>::new((Be(80), Msb(6), Msb(0)), options)
    /// ```
    pub fn new(head: P, items: Vec<T>) -> CountedBy<P, C, T>
        ensures { result ≡ record { head = head; items = items; count = record {} } }
    {
        CountedBy {
            head,
            items,
            count: PhantomData,
        }
    }
}

impl<P: DekuReader<()>, C: CountOf<P>, T: DekuReader<()>> DekuReader<()> for CountedBy<P, C, T> {
    ghost accepts = { λ _. P.accepts tt × T.accepts tt };

    ghost no_read_ahead = { λ _. P.no_read_ahead tt × T.no_read_ahead tt };

    ghost meaning = { λ _. Then (P.meaning tt) (λ h.
        Mapped (λ xs. record { head = h; items = xs; count = record {} })
        (ReadsCounted (C.count_of h) (T.meaning tt))) };

    #[inline(always)]
    fn from_reader_with_ctx<R: Source>(reader: &mut Reader<R>, c: ()) -> Result<Self, DekuError> {
        let head = P::from_reader_with_ctx(reader, c)?;
        read_counted(reader, C::count(&head)).map(|items| CountedBy::new(head, items))
    }
}

impl<P: DekuWriter<()>, C: CountOf<P>, T: DekuWriter<()>> DekuWriter<()> for CountedBy<P, C, T> {
    ghost accepts = { λ _. P.accepts tt × T.accepts tt };

    ghost meaning = { λ v _. WritesCounts C.count_of (λ h. P.meaning h tt)
        (λ x. T.meaning x tt) v.head v.items };

    #[inline(always)]
    fn to_writer<W: Sink>(&self, writer: &mut Writer<W>, _ctx: ()) -> Result<(), DekuError> {
        write_counts::<P, C, T, W>(&self.head, &self.items, writer)
    }
}

// Writes a head and its items, as a `CountedBy` of both is written.
#[inline(always)]
fn write_counts<P: DekuWriter<()>, C: CountOf<P>, T: DekuWriter<()>, W: Sink>(
    head: &P,
    items: &Vec<T>,
    writer: &mut Writer<W>,
) -> Result<(), DekuError>
    requires head { P.accepts tt }
    requires items { T.accepts tt }
    ensures { Writes W.known (WritesCounts C.count_of (λ h. P.meaning h tt)
        (λ x. T.meaning x tt) head.now items.now) writer.old result writer.new }
{
    if !is_counted(C::count(head), items) {
        return Err(DekuError::Assertion("count out of step with items"));
    }
    head.to_writer(writer, ())?;
    items.to_writer(writer, ())
}

/// The pieces of the head, and then those of its items. There are no pieces if the number of items
/// is not the one that the head gives.
impl<P: Part<()>, C: CountOfLaw<P>, T: Part<()>> Part<()> for CountedBy<P, C, T> {
    ghost pieces = { λ v _. OfCounts C.CountOf.count_of (λ h. P.pieces h tt) (λ x. T.pieces x tt)
        v.head v.items };

    ghost same = { λ v w. P.same v.head w.head × SameEach T.same v.items.items w.items.items };

    ghost reads = { λ _. Then (P.reads tt) (λ h.
        Mapped (λ xs. record { head = h; items = xs; count = record {} })
        (ReadsCounted (C.CountOf.count_of h) (T.reads tt))) };

    ghost writes = { λ v _. WritesCounts C.CountOf.count_of (λ h. P.writes h tt)
        (λ x. T.writes x tt) v.head v.items };

    ghost law = { λ _. counts_symmetric (λ h xs. record { head = h; items = xs; count = record {} })
        (λ v. v.head) (λ v. v.items) (λ h xs. refl) (λ h xs. refl) C.CountOf.count_of
        C.CountOfLaw.alike (P.law tt) (T.law tt) };
}

impl<P: Symmetric<()>, C: CountOfLaw<P>, T: Symmetric<()>> Symmetric<()> for CountedBy<P, C, T> {
    ghost symmetric = { λ _. counts_symmetric
        (λ h xs. record { head = h; items = xs; count = record {} })
        (λ v. v.head) (λ v. v.items) (λ h xs. refl) (λ h xs. refl) C.CountOf.count_of
        C.CountOfLaw.alike (P.symmetric tt) (T.symmetric tt) };
}

/// Parts, and items that are elsewhere in memory: it is written as `CountedBy` of both.
///
/// ```text
/// CountedByRef::<_, OptionBytes, _> {
///     head: (Be(self.window), Msb(self.words), Msb(0)),
///     items: &self.options,
///     count: PhantomData,
/// }
/// .to_writer(writer, ())
/// ```
#[derive(Drop)]
pub struct CountedByRef<'a, P, C, T> {
    /// The parts before the items.
    pub head: P,
    /// The items.
    pub items: &'a Vec<T>,
    /// The count.
    pub count: PhantomData<C>,
}

impl<'a, P: DekuWriter<()>, C: CountOf<P>, T: DekuWriter<()>> DekuWriter<()>
    for CountedByRef<'a, P, C, T> {
    ghost accepts = { λ _. P.accepts tt × T.accepts tt };

    ghost meaning = { λ v _. WritesCounts C.count_of (λ h. P.meaning h tt)
        (λ x. T.meaning x tt) v.head v.items.now };

    #[inline(always)]
    fn to_writer<W: Sink>(&self, writer: &mut Writer<W>, _ctx: ()) -> Result<(), DekuError> {
        write_counts::<P, C, T, W>(&self.head, self.items, writer)
    }
}
