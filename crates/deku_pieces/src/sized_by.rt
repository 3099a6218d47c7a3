//! Content of as many bits as the parts before it say.

ghost use Rattle.std.specs.Prelude.{◌≡◌, ◌+◌, ◌<◌, ◌^◌, ℕ, length, Option};
ghost use Rattle.std.specs.Prelude.{OnOk};
ghost use Rattle.deku_bits.specs.ReaderCalls.{Reads};
ghost use Rattle.deku_bits.specs.WriterCalls.{Writes, written_count, pending_state};
ghost use Rattle.deku_bits.specs.Writers.{pending_bits};
ghost use Rattle.deku_bits.specs.declared.error.DekuError.TheVariants.{Parse};
ghost use Rattle.deku.specs.Early.{NoReadAhead};
ghost use Rattle.deku_pieces.specs.Sizes.{IfSized, ReadsExactly, ReadsSizes, WritesExactly};
ghost use Rattle.deku_pieces.specs.Sizes.{WritesSizes};

use deku::device::{Sink, Source};
use deku::reader::Reader;
use deku::writer::Writer;
use deku::{DekuError, DekuReader, DekuWriter};
use std::marker::PhantomData;

/// How many bits the content has that is after some parts.
///
/// ```text
/// impl SizeOf<Msb<u16, 16>> for Length {                     // a length in bytes
///     ghost size_of = { λ head. Some (head.0 * 8) };
///
///     fn size(head: &Msb<u16, 16>) -> Option<usize> {
///         Some(head.0 as usize * 8)
///     }
/// }
/// ```
pub trait SizeOf<P>: Drop {
    // How many bits the content has, if the head says a size.
    ghost size_of: { P → Option ℕ };

    /// Returns how many bits the content has, or `None` if the head says no size.
    fn size(head: &P) -> Option<usize>
        ensures { result ≡ size_of head.now };
}

/// Parts, and after them content of exactly as many bits as `C` says of the parts.
///
/// Reading fails with `Parse("head without a size")` if the head says no size; the head is
/// consumed. It fails with `Assertion("content out of step with its size")` if the content leaves
/// some of its bits, or takes more; the content is consumed. Writing fails with `Assertion("head
/// without a size")` if the head says no size; then nothing moves. It fails with
/// `Assertion("content out of step with its size")` if the content was written as another number of
/// bits, which stay written. Otherwise both fail as the head does, and then as the content does.
///
/// ```text
/// type Parts = SizedBy<Be<u16>, Length, Record>;             // 00 04, and four bytes of a record
/// ```
#[derive(Debug, PartialEq, Eq, Drop)]
pub struct SizedBy<P, C, T> {
    /// The parts before the content.
    pub head: P,
    /// The content.
    pub content: T,
    /// The size.
    pub size: PhantomData<C>,
}

impl<P, C, T> SizedBy<P, C, T> {
    /// Parts and their content. Writing checks that they agree.
    ///
    /// ```text
    /// SizedBy::<_, Length, _>::new(Be(4), record)
    /// ```
    pub fn new(head: P, content: T) -> SizedBy<P, C, T>
        ensures { result ≡ record { head = head; content = content; size = record {} } }
    {
        SizedBy {
            head,
            content,
            size: PhantomData,
        }
    }
}

// Reads content of exactly so many bits.
#[inline(always)]
fn read_exactly<T: DekuReader<()>, R: Source>(
    reader: &mut Reader<R>,
    bits: usize,
) -> Result<T, DekuError>
    requires { T.accepts tt }
    ensures reads { Reads R.known (ReadsExactly bits (T.meaning tt)) reader.old result reader.new }
    ensures early { OnOk result (T.no_read_ahead tt → NoReadAhead R.known reader.old reader.new) }
{
    let before = reader.bits_read() as u128;
    let content = T::from_reader_with_ctx(reader, ())?;
    let exact = reader.bits_read() as u128 == before + bits as u128;
    if !exact {
        return Err(DekuError::Assertion("content out of step with its size"));
    }
    Ok(content)
}

// Reads content of the size, if there is one.
#[inline(always)]
fn read_sized<T: DekuReader<()>, R: Source>(
    reader: &mut Reader<R>,
    size: Option<usize>,
) -> Result<T, DekuError>
    requires { T.accepts tt }
    ensures reads { Reads R.known (IfSized Parse size (λ n. ReadsExactly n (T.meaning tt)))
        reader.old result reader.new }
    ensures early { OnOk result (T.no_read_ahead tt → NoReadAhead R.known reader.old reader.new) }
{
    match size {
        Some(bits) => read_exactly(reader, bits),
        None => Err(DekuError::Parse("head without a size")),
    }
}

impl<P: DekuReader<()>, C: SizeOf<P>, T: DekuReader<()>> DekuReader<()> for SizedBy<P, C, T> {
    ghost accepts = { λ _. P.accepts tt × T.accepts tt };

    ghost no_read_ahead = { λ _. P.no_read_ahead tt × T.no_read_ahead tt };

    ghost meaning = { λ _. ReadsSizes (λ h x. record { head = h; content = x; size = record {} })
        C.size_of (P.meaning tt) (T.meaning tt) };

    #[inline(always)]
    fn from_reader_with_ctx<R: Source>(reader: &mut Reader<R>, c: ()) -> Result<Self, DekuError> {
        let head = P::from_reader_with_ctx(reader, c)?;
        let content = read_sized::<T, R>(reader, C::size(&head))?;
        Ok(SizedBy::new(head, content))
    }
}

// How many bits were given to a writer: those of its sink, and the pending ones.
#[inline(always)]
fn bits_given<W: Sink>(writer: &Writer<W>) -> u128
    ensures bits { result ≡ written_count writer.now
        + length (pending_bits (pending_state writer.now)) }
    ensures few { length (pending_bits (pending_state writer.now)) < 8 }
    ensures small { result < 2 ^ 65 }
{
    writer.bits_written() as u128 + writer.leftover().0.len() as u128
}

// Writes content, and checks that it was exactly so many bits.
#[inline(always)]
fn write_exactly<T: DekuWriter<()>, W: Sink>(
    content: &T,
    bits: usize,
    writer: &mut Writer<W>,
) -> Result<(), DekuError>
    requires { T.accepts tt }
    ensures { Writes W.known (WritesExactly bits (T.meaning content.now tt)) writer.old result
        writer.new }
{
    let before = bits_given(writer);
    content.to_writer(writer, ())?;
    let exact = bits_given(writer) == before + bits as u128;
    if !exact {
        return Err(DekuError::Assertion("content out of step with its size"));
    }
    Ok(())
}

impl<P: DekuWriter<()>, C: SizeOf<P>, T: DekuWriter<()>> DekuWriter<()> for SizedBy<P, C, T> {
    ghost accepts = { λ _. P.accepts tt × T.accepts tt };

    ghost meaning = { λ v _. WritesSizes C.size_of (λ h. P.meaning h tt) (λ x. T.meaning x tt)
        v.head v.content };

    #[inline(always)]
    fn to_writer<W: Sink>(&self, writer: &mut Writer<W>, _ctx: ()) -> Result<(), DekuError> {
        write_sized::<P, C, T, W>(&self.head, &self.content, writer)
    }
}

// Writes a head and its content, as a `SizedBy` of both is written.
#[inline(always)]
pub(crate) fn write_sized<P: DekuWriter<()>, C: SizeOf<P>, T: DekuWriter<()>, W: Sink>(
    head: &P,
    content: &T,
    writer: &mut Writer<W>,
) -> Result<(), DekuError>
    requires head { P.accepts tt }
    requires content { T.accepts tt }
    ensures { Writes W.known (WritesSizes C.size_of (λ h. P.meaning h tt) (λ x. T.meaning x tt)
        head.now content.now) writer.old result writer.new }
{
    match C::size(head) {
        Some(bits) => {
            head.to_writer(writer, ())?;
            write_exactly(content, bits, writer)
        }
        None => Err(DekuError::Assertion("head without a size")),
    }
}
