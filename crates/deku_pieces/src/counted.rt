//! Heads that say how many items follow them.

ghost use Rattle.std.specs.Prelude.{◌≡◌, ℕ, Option, length, OnOk, MatchBool, Some};
ghost use Rattle.deku_bits.specs.ReaderCalls.{Reads};
ghost use Rattle.deku_bits.specs.WriterCalls.{Writes};
ghost use Rattle.deku.specs.Early.{NoReadAhead};
ghost use Rattle.deku_pieces.specs.Leading.{ReadsCounted, IsCounted, WritesCountedBy};
ghost use Rattle.deku_pieces.specs.Leading.{ReadsCountedBy};

use deku::ctx::Limit;
use deku::device::{Sink, Source};
use deku::reader::Reader;
use deku::writer::Writer;
use deku::{DekuError, DekuReader, DekuWriter};

/// A head that says how many items follow it.
///
/// ```text
/// fn count(&self) -> Option<usize> {         // a length in words that includes the header
///     (self.words as usize).checked_sub(5)
/// }
/// ```
pub trait ItemCount {
    // How many items follow, if the head names a count.
    ghost count_of: { Self → Option ℕ };

    /// Returns how many items follow, or `None` if the head names no count.
    fn count(&self) -> Option<usize>
        ensures { result ≡ count_of self.now };
}

/// A head, and after it as many items as it says.
///
/// Reading fails with `Parse("head without a count")` if the head names no count; the head is
/// consumed. Writing fails with `Assertion("count out of step with items")` if the head names no
/// count, or another count than that of the items; then nothing moves. Otherwise it fails as its
/// head does, and then as the first item that fails. Reading fails with `Io(OutOfMemory)` if there
/// is no memory for an item.
///
/// ```text
/// type Text = Counted<u8, u8>; // 02 68 69: a byte that counts those after it
/// ```
#[derive(Debug, PartialEq, Eq, Drop)]
pub struct Counted<H, T> {
    /// The head, which says how many items there are.
    pub head: H,
    /// The items.
    pub items: Vec<T>,
}

/// A byte is the count of the items after it.
impl ItemCount for u8 {
    ghost count_of = { λ n. Some n };

    fn count(&self) -> Option<usize> {
        Some(*self as usize)
    }
}

impl<H: ItemCount + DekuReader<()>, T: DekuReader<()>> DekuReader<()> for Counted<H, T> {
    ghost accepts = { λ _. H.DekuReader.accepts tt × T.accepts tt };

    ghost no_read_ahead = { λ _. H.DekuReader.no_read_ahead tt × T.no_read_ahead tt };

    ghost meaning = { λ _. ReadsCountedBy H.ItemCount.count_of (H.DekuReader.meaning tt)
        (T.meaning tt) };

    #[inline(always)]
    fn from_reader_with_ctx<R: Source>(
        reader: &mut Reader<R>,
        _ctx: (),
    ) -> Result<Self, DekuError> {
        let head = H::from_reader_with_ctx(reader, ())?;
        let items = read_counted::<T, R>(reader, head.count())?;
        Ok(Counted { head, items })
    }
}

/// Reads as many items as the count says.
///
/// The caller's condition: the items may be read.
///
/// It fails with `Parse("head without a count")` if there is no count, and nothing moves. Otherwise
/// it fails as the first item that fails, or with `Io(OutOfMemory)` if there is no memory for an
/// item.
///
/// ```text
/// let items = read_counted::<u8, R>(reader, Some(2))?;       // two bytes
/// ```
#[inline(always)]
pub fn read_counted<T: DekuReader<()>, R: Source>(
    reader: &mut Reader<R>,
    count: Option<usize>,
) -> Result<Vec<T>, DekuError>
    requires { T.accepts tt }
    ensures reads { Reads R.known (ReadsCounted count (T.meaning tt)) reader.old result reader.new }
    ensures early { OnOk result (T.no_read_ahead tt → NoReadAhead R.known reader.old reader.new) }
{
    match count {
        Some(0) => Ok(Vec::new(reader.alloc())), // without a call
        Some(count) => Vec::from_reader_with_ctx(reader, (Limit::new_count(count), ())),
        None => Err(DekuError::Parse("head without a count")),
    }
}

impl<H: ItemCount + DekuWriter<()>, T: DekuWriter<()>> DekuWriter<()> for Counted<H, T> {
    ghost accepts = { λ _. H.DekuWriter.accepts tt × T.accepts tt };

    ghost meaning = { λ v _. WritesCountedBy H.ItemCount.count_of (λ h. H.DekuWriter.meaning h tt)
        (λ x. T.meaning x tt) v };

    #[inline(always)]
    fn to_writer<W: Sink>(&self, writer: &mut Writer<W>, _ctx: ()) -> Result<(), DekuError> {
        write_counted(&self.head, &self.items, writer)
    }
}

/// Writes a head and the items after it, as a `Counted` of both is written.
///
/// The caller's condition: both may be written.
///
/// It fails with `Assertion("count out of step with items")` if the head names no count, or another
/// count than that of the items; then nothing moves. Otherwise it fails as the head does, and then
/// as the first item that fails.
///
/// ```text
/// write_counted(&2u8, &items, writer)? // 02 68 69, of the items 68 and 69
/// ```
#[inline(always)]
pub fn write_counted<H: ItemCount + DekuWriter<()>, T: DekuWriter<()>, W: Sink>(
    head: &H,
    items: &Vec<T>,
    writer: &mut Writer<W>,
) -> Result<(), DekuError>
    requires head { H.DekuWriter.accepts tt }
    requires items { T.accepts tt }
    ensures { Writes W.known (WritesCountedBy H.ItemCount.count_of (λ h. H.DekuWriter.meaning h tt)
        (λ x. T.meaning x tt) (record { head = head.now; items = items.now })) writer.old result
        writer.new }
{
    if !is_counted(head.count(), items) {
        return Err(DekuError::Assertion("count out of step with items"));
    }
    head.to_writer(writer, ())?;
    items.to_writer(writer, ())
}

/// Whether there are as many items as the count says. There are not if there is no count.
///
/// ```text
/// is_counted(Some(2), &items)                                // true of the items 68 and 69
/// ```
#[inline(always)]
pub fn is_counted<T>(count: Option<usize>, items: &Vec<T>) -> bool
    ensures { MatchBool result (IsCounted count (length items.now.items))
        (IsCounted count (length items.now.items) → ⊥) }
{
    match count {
        Some(count) => items.len() == count,
        None => false,
    }
}
