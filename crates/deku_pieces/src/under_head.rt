//! Values under a context that the parts before them say.

ghost use Rattle.std.specs.Prelude.{◌≡◌};
ghost use Rattle.deku.specs.Composing.{Both};
ghost use Rattle.deku_pieces.specs.Following.{ReadsUnderHead};

use deku::device::{Sink, Source};
use deku::reader::Reader;
use deku::writer::Writer;
use deku::{DekuError, DekuReader, DekuWriter};
use std::marker::PhantomData;

/// The context of the value that is after some parts: the number of its bits, its endian, or a
/// context of your own.
///
/// ```text
/// impl ContextOf<u8, (Endian, BitSize)> for Width {          // a byte is the number of bits
///     ghost context_of = { λ head. (Big, record { 0 = head }) };
///
///     fn context(head: &u8) -> (Endian, BitSize) {
///         (Endian::Big, BitSize(*head as usize))
///     }
/// }
/// ```
pub trait ContextOf<P, I>: Drop {
    // The context.
    ghost context_of: { P → I };

    /// Returns the context.
    fn context(head: &P) -> I
        ensures { result ≡ context_of head.now };
}

/// Parts, and after them a value under the context that `C` says of the parts.
///
/// Reading and writing fail as the head does, and then as the value does under that context: a
/// number with `Parse("too much data")` when read, and with `InvalidParam("bit size is larger than
/// input")` when written, if it is to have more bits than its type. What was moved before stays
/// moved.
///
/// ```text
/// type Parts = UnderHead<u8, Width, u32, (Endian, BitSize)>; // 0C AB C: twelve bits of a number
/// ```
#[derive(Debug, PartialEq, Eq, Drop)]
pub struct UnderHead<P, C, T, I> {
    /// The parts before the value.
    pub head: P,
    /// The value.
    pub value: T,
    /// The context.
    pub context: PhantomData<(C, I)>,
}

impl<P, C, T, I> UnderHead<P, C, T, I> {
    /// Parts and the value after them.
    ///
    /// ```text
    /// UnderHead::<_, Width, _, (Endian, BitSize)>::new(12, 0xABC)
    /// ```
    pub fn new(head: P, value: T) -> UnderHead<P, C, T, I>
        ensures { result ≡ record { head = head; value = value; context = record {} } }
    {
        UnderHead {
            head,
            value,
            context: PhantomData,
        }
    }
}

impl<P: DekuReader<()>, C: ContextOf<P, I>, T: DekuReader<I>, I: Drop> DekuReader<()>
    for UnderHead<P, C, T, I> {
    ghost accepts = { λ _. P.accepts tt × ((i : I) → T.accepts i) };

    ghost no_read_ahead = { λ _. P.no_read_ahead tt × ((i : I) → T.no_read_ahead i) };

    ghost meaning = { λ _. ReadsUnderHead
        (λ h x. record { head = h; value = x; context = record {} }) C.context_of (P.meaning tt)
        T.meaning };

    #[inline(always)]
    fn from_reader_with_ctx<R: Source>(reader: &mut Reader<R>, c: ()) -> Result<Self, DekuError> {
        let head = P::from_reader_with_ctx(reader, c)?;
        let value = T::from_reader_with_ctx(reader, C::context(&head))?;
        Ok(UnderHead::new(head, value))
    }
}

impl<P: DekuWriter<()>, C: ContextOf<P, I>, T: DekuWriter<I>, I: Drop> DekuWriter<()>
    for UnderHead<P, C, T, I> {
    ghost accepts = { λ _. P.accepts tt × ((i : I) → T.accepts i) };

    ghost meaning = { λ v _. Both (P.meaning v.head tt) (T.meaning v.value (C.context_of v.head)) };

    #[inline(always)]
    fn to_writer<W: Sink>(&self, writer: &mut Writer<W>, _ctx: ()) -> Result<(), DekuError> {
        self.head.to_writer(writer, ())?;
        self.value.to_writer(writer, C::context(&self.head))
    }
}
