//! Items that fill as many bits as the parts before them say.

ghost use Rattle.std.specs.Prelude.{◌≡◌, OnOk};
ghost use Rattle.deku_bits.specs.ReaderCalls.{Reads};
ghost use Rattle.deku_bits.specs.declared.error.DekuError.TheVariants.{Parse};
ghost use Rattle.deku.specs.Composing.{WritesEach};
ghost use Rattle.deku.specs.Early.{NoReadAhead};
ghost use Rattle.deku.specs.Limits.{ReadsBitsOf, MappedBy};
ghost use Rattle.deku_pieces.specs.Sizes.{IfSized, ReadsFilled, WritesSizes};

use crate::sized_by::{SizeOf, write_sized};
use deku::ctx::{BitSize, Limit};
use deku::device::{Sink, Source};
use deku::reader::Reader;
use deku::writer::Writer;
use deku::{DekuError, DekuReader, DekuWriter};
use std::marker::PhantomData;

/// Parts, and after them items that fill exactly as many bits as `C` says of the parts.
///
/// Reading takes items up to the one with which as many bits are read. It fails with `Parse("head
/// without a size")` if the head says no size; the head is consumed. If an item goes past the size,
/// reading continues, and fails at the end of the input at the latest. It fails with `Parse("item
/// without width")` at an item without bits, and with `Io(OutOfMemory)` if there is no memory for
/// an item. Writing fails with `Assertion("head without a size")` if the head says no size; then
/// nothing moves. It fails with `Assertion("content out of step with its size")` if the items were
/// written as another number of bits, which stay written. Otherwise both fail as the head does, and
/// then as the first item that fails.
///
/// ```text
/// type Parts = FilledBy<Be<u16>, Length, Be<u16>>;           // 00 04, and two numbers
/// ```
#[derive(Debug, PartialEq, Eq, Drop)]
pub struct FilledBy<P, C, T> {
    /// The parts before the items.
    pub head: P,
    /// The items.
    pub items: Vec<T>,
    /// The size.
    pub size: PhantomData<C>,
}

impl<P, C, T> FilledBy<P, C, T> {
    /// Parts and their items. Writing checks that they agree.
    ///
    /// ```text
    /// FilledBy::<_, Length, _>::new(Be(4), numbers)
    /// ```
    pub fn new(head: P, items: Vec<T>) -> FilledBy<P, C, T>
        ensures { result ≡ record { head = head; items = items; size = record {} } }
    {
        FilledBy {
            head,
            items,
            size: PhantomData,
        }
    }
}

/// Reads items that fill as many bits as the size says.
///
/// The caller's condition: the items may be read.
///
/// It fails with `Parse("head without a size")` if there is no size, and nothing moves. Otherwise
/// it fails as `FilledBy` does.
///
/// ```text
/// let items = read_filled::<u8, R>(reader, Some(16))?;       // two bytes
/// ```
#[inline(always)]
pub fn read_filled<T: DekuReader<()>, R: Source>(
    reader: &mut Reader<R>,
    size: Option<usize>,
) -> Result<Vec<T>, DekuError>
    requires { T.accepts tt }
    ensures reads { Reads R.known (IfSized Parse size
        (λ n. MappedBy (λ xs v. v.items ≡ xs) (ReadsBitsOf n (T.meaning tt)))) reader.old result
        reader.new }
    ensures early { OnOk result (T.no_read_ahead tt → NoReadAhead R.known reader.old reader.new) }
{
    match size {
        Some(bits) => Vec::from_reader_with_ctx(reader, (Limit::new_bit_size(BitSize(bits)), ())),
        None => Err(DekuError::Parse("head without a size")),
    }
}

impl<P: DekuReader<()>, C: SizeOf<P>, T: DekuReader<()>> DekuReader<()> for FilledBy<P, C, T> {
    ghost accepts = { λ _. P.accepts tt × T.accepts tt };

    ghost no_read_ahead = { λ _. P.no_read_ahead tt × T.no_read_ahead tt };

    ghost meaning = { λ _. ReadsFilled (λ h xs. record { head = h; items = xs; size = record {} })
        C.size_of (P.meaning tt) (T.meaning tt) };

    #[inline(always)]
    fn from_reader_with_ctx<R: Source>(reader: &mut Reader<R>, c: ()) -> Result<Self, DekuError> {
        let head = P::from_reader_with_ctx(reader, c)?;
        let items = read_filled::<T, R>(reader, C::size(&head))?;
        Ok(FilledBy::new(head, items))
    }
}

impl<P: DekuWriter<()>, C: SizeOf<P>, T: DekuWriter<()>> DekuWriter<()> for FilledBy<P, C, T> {
    ghost accepts = { λ _. P.accepts tt × T.accepts tt };

    ghost meaning = { λ v _. WritesSizes C.size_of (λ h. P.meaning h tt)
        (λ xs. WritesEach (λ x. T.meaning x tt) xs.items) v.head v.items };

    #[inline(always)]
    fn to_writer<W: Sink>(&self, writer: &mut Writer<W>, _ctx: ()) -> Result<(), DekuError> {
        write_sized::<P, C, Vec<T>, W>(&self.head, &self.items, writer)
    }
}
