//! Items that are there if the parts before them say so.

ghost use Rattle.std.specs.Prelude.{◌≡◌, Bool, MatchBool, is_some, Option, OnOk, refl};
ghost use Rattle.deku_bits.specs.ReaderCalls.{Reads};
ghost use Rattle.deku_bits.specs.WriterCalls.{Writes};
ghost use Rattle.deku.specs.Early.{NoReadAhead};
ghost use Rattle.deku_pieces.specs.Pieces.{SameHeld};
ghost use Rattle.deku_pieces.specs.Whether.{OfShown, ReadsWhether, ReadsShown, WritesShown};
ghost use Rattle.deku_pieces.proofs.Whether.{shown_item_symmetric};

use crate::traits::{Part, Symmetric};
use deku::device::{Sink, Source};
use deku::reader::Reader;
use deku::writer::Writer;
use deku::{DekuError, DekuReader, DekuWriter};
use std::marker::PhantomData;

/// Whether an item follows the parts that are before it.
///
/// ```text
/// impl Condition<(Msb<bool, 1>, Msb<u8, 7>)> for HasChecksum {
///     ghost shows = { λ head. head.0.0 };
///
///     fn shows(head: &(Msb<bool, 1>, Msb<u8, 7>)) -> bool {
///         head.0.0
///     }
/// }
/// ```
pub trait Condition<P>: Drop {
    // Whether an item follows.
    ghost shows: { P → Bool };

    /// Whether an item follows.
    fn shows(head: &P) -> bool
        ensures { result ≡ shows head.now };
}

/// Heads that are the same both show an item, or both show none.
///
/// ```text
/// impl ConditionLaw<(Msb<bool, 1>, Msb<u8, 7>)> for HasChecksum {
///     ghost alike = { λ v w e. e.0 };
/// }
/// ```
pub trait ConditionLaw<P: Part<()>>: Condition<P> {
    // Heads that are the same show the same.
    ghost alike: { (v w : P) → P.same v w
        → Self.Condition.shows v ≡ Self.Condition.shows w };
}

/// Parts, and after them an item if `C` says so of them.
///
/// Reading takes the item if the head shows one. Writing fails with
/// `Assertion("item out of step with its condition")` if there is an item and the head shows none,
/// or the other way round; then nothing moves. Otherwise both fail as the head does, and then as
/// the item does.
///
/// ```text
/// type Front = (Msb<bool, 1>, Msb<u8, 7>);
/// type Parts = Optional<Front, HasChecksum, Be<u16>>;         // 00, or 80 and two bytes
/// ```
#[derive(Debug, PartialEq, Eq, Drop)]
pub struct Optional<P, C, T> {
    /// The parts before the item.
    pub head: P,
    /// The item, if there is one.
    pub item: Option<T>,
    /// The condition.
    pub condition: PhantomData<C>,
}

impl<P, C, T> Optional<P, C, T> {
    /// Parts and their item. Writing checks that they agree.
    ///
    /// ```text
    /// Optional::<_, HasChecksum, _>::new((Msb(true), Msb(0)), Some(Be(0xBEEF)))
    /// ```
    pub fn new(head: P, item: Option<T>) -> Optional<P, C, T>
        ensures { result ≡ record { head = head; item = item; condition = record {} } }
    {
        Optional {
            head,
            item,
            condition: PhantomData,
        }
    }
}

// Reads an item if there has to be one.
#[inline(always)]
fn read_whether<T: DekuReader<()>, R: Source>(
    reader: &mut Reader<R>,
    there: bool,
) -> Result<Option<T>, DekuError>
    requires { T.accepts tt }
    ensures reads { Reads R.known (ReadsWhether there (T.meaning tt)) reader.old result reader.new }
    ensures early { OnOk result (T.no_read_ahead tt → NoReadAhead R.known reader.old reader.new) }
{
    if there {
        Option::from_reader_with_ctx(reader, ())
    } else {
        Ok(None)
    }
}

impl<P: DekuReader<()>, C: Condition<P>, T: DekuReader<()>> DekuReader<()> for Optional<P, C, T> {
    ghost accepts = { λ _. P.accepts tt × T.accepts tt };

    ghost no_read_ahead = { λ _. P.no_read_ahead tt × T.no_read_ahead tt };

    ghost meaning = { λ _. ReadsShown (λ h x. record { head = h; item = x; condition = record {} })
        C.shows (P.meaning tt) (T.meaning tt) };

    #[inline(always)]
    fn from_reader_with_ctx<R: Source>(reader: &mut Reader<R>, c: ()) -> Result<Self, DekuError> {
        let head = P::from_reader_with_ctx(reader, c)?;
        let item = read_whether::<T, R>(reader, C::shows(&head))?;
        Ok(Optional::new(head, item))
    }
}

impl<P: DekuWriter<()>, C: Condition<P>, T: DekuWriter<()>> DekuWriter<()> for Optional<P, C, T> {
    ghost accepts = { λ _. P.accepts tt × T.accepts tt };

    ghost meaning = { λ v _. WritesShown C.shows (λ h. P.meaning h tt)
        (λ x. T.meaning x tt) v.head v.item };

    #[inline(always)]
    fn to_writer<W: Sink>(&self, writer: &mut Writer<W>, _ctx: ()) -> Result<(), DekuError> {
        write_shown::<P, C, T, W>(&self.head, &self.item, writer)
    }
}

// Writes a head and its item, as an `Optional` of both is written.
#[inline(always)]
fn write_shown<P: DekuWriter<()>, C: Condition<P>, T: DekuWriter<()>, W: Sink>(
    head: &P,
    item: &Option<T>,
    writer: &mut Writer<W>,
) -> Result<(), DekuError>
    requires head { P.accepts tt }
    requires item { T.accepts tt }
    ensures { Writes W.known (WritesShown C.shows (λ h. P.meaning h tt)
        (λ x. T.meaning x tt) head.now item.now) writer.old result writer.new }
{
    if !in_step::<P, C, T>(head, item) {
        return Err(DekuError::Assertion("item out of step with its condition"));
    }
    head.to_writer(writer, ())?;
    item.to_writer(writer, ())
}

// Whether there is an item if the head shows one, and none otherwise.
#[inline(always)]
fn in_step<P, C: Condition<P>, T>(head: &P, item: &Option<T>) -> bool
    ensures { MatchBool result (is_some item.now ≡ C.shows head.now)
        (is_some item.now ≡ C.shows head.now → ⊥) }
{
    match item {
        Some(_) => C::shows(head),
        None => !C::shows(head),
    }
}

/// The pieces of the head, and then those of its item. There are no pieces if the item is out of
/// step with its head.
impl<P: Part<()>, C: ConditionLaw<P>, T: Part<()>> Part<()> for Optional<P, C, T> {
    ghost pieces = { λ v _. OfShown C.Condition.shows (λ h. P.pieces h tt) (λ x. T.pieces x tt)
        v.head v.item };

    ghost same = { λ v w. P.same v.head w.head × SameHeld T.same v.item w.item };

    ghost reads = { λ _. ReadsShown (λ h x. record { head = h; item = x; condition = record {} })
        C.Condition.shows (P.reads tt) (T.reads tt) };

    ghost writes = { λ v _. WritesShown C.Condition.shows (λ h. P.writes h tt)
        (λ x. T.writes x tt) v.head v.item };

    ghost law = { λ _. shown_item_symmetric
        (λ h x. record { head = h; item = x; condition = record {} })
        (λ v. v.head) (λ v. v.item) (λ h x. refl) (λ h x. refl) C.Condition.shows
        C.ConditionLaw.alike (P.law tt) (T.law tt) };
}

impl<P: Symmetric<()>, C: ConditionLaw<P>, T: Symmetric<()>> Symmetric<()> for Optional<P, C, T> {
    ghost symmetric = { λ _. shown_item_symmetric
        (λ h x. record { head = h; item = x; condition = record {} })
        (λ v. v.head) (λ v. v.item) (λ h x. refl) (λ h x. refl) C.Condition.shows
        C.ConditionLaw.alike (P.symmetric tt) (T.symmetric tt) };
}

/// Parts, and an item that is elsewhere in memory: it is written as `Optional` of both.
///
/// ```text
/// OptionalRef::<_, HasName, _> {
///     head: Msb(self.has_name),
///     item: &self.name,
///     condition: PhantomData,
/// }
/// .to_writer(writer, ())
/// ```
#[derive(Drop)]
pub struct OptionalRef<'a, P, C, T> {
    /// The parts before the item.
    pub head: P,
    /// The item, if there is one.
    pub item: &'a Option<T>,
    /// The condition.
    pub condition: PhantomData<C>,
}

impl<'a, P: DekuWriter<()>, C: Condition<P>, T: DekuWriter<()>> DekuWriter<()>
    for OptionalRef<'a, P, C, T> {
    ghost accepts = { λ _. P.accepts tt × T.accepts tt };

    ghost meaning = { λ v _. WritesShown C.shows (λ h. P.meaning h tt)
        (λ x. T.meaning x tt) v.head v.item.now };

    #[inline(always)]
    fn to_writer<W: Sink>(&self, writer: &mut Writer<W>, _ctx: ()) -> Result<(), DekuError> {
        write_shown::<P, C, T, W>(&self.head, self.item, writer)
    }
}
