//! Parts that always have the same value: signatures, versions, lengths that a format fixes.

ghost use Rattle.std.specs.Prelude.{◌≡◌, ℕ, List, MatchBool};
ghost use Rattle.deku_pieces.specs.Asserting.{ReadsMagic};

use deku::ctx::Order;
use deku::device::{Sink, Source};
use deku::reader::Reader;
use deku::writer::Writer;
use deku::{DekuError, DekuReader, DekuWriter, Word, read_item};
use std::marker::PhantomData;

/// The only value of a part, and the text of the error for another value.
///
/// ```text
/// impl Constant<Be<u32>> for Signature {
///     ghost value = { record { 0 = 0x7F454C46 } };
///
///     ghost text = { codes "ELF magic" };
///
///     fn value() -> Be<u32> {
///         Be(0x7F454C46)
///     }
///
///     fn is_value(part: &Be<u32>) -> bool {
///         part.0 == 0x7F454C46
///     }
///
///     fn text() -> &'static str {
///         "ELF magic"
///     }
/// }
/// ```
pub trait Constant<P> {
    // The value.
    ghost value: { P };

    // The text for another value.
    ghost text: { List ℕ };

    /// Returns the value.
    fn value() -> P
        ensures { result ≡ value };

    /// Whether the part is the value.
    fn is_value(part: &P) -> bool
        ensures { MatchBool result (part.now ≡ value) (part.now ≡ value → ⊥) };

    /// The text of the error for another value: usually the name of the field.
    fn text() -> &'static str
        ensures { result.now ≡ text };
}

/// A part that always has the value of `C`, and so stores none itself.
///
/// Reading another value fails with `Assertion` and the text of the constant; the value is
/// consumed. Otherwise reading and writing fail as the part does.
///
/// ```text
/// type Parts = (Magic<Be<u32>, Signature>, Be<u16>);              // 7F 45 4C 46, and two bytes
/// ```
#[derive(Debug, PartialEq, Eq, Drop)]
pub struct Magic<P, C> {
    /// The type of the value.
    pub part: PhantomData<P>,
    /// The value.
    pub constant: PhantomData<C>,
}

impl<P, C> Magic<P, C> {
    /// Makes the part.
    ///
    /// ```text
    /// (Magic::new(), Be(2u16))                                    // of the parts above
    /// ```
    pub fn new() -> Magic<P, C>
        ensures { result ≡ record { part = record {}; constant = record {} } }
    {
        Magic {
            part: PhantomData,
            constant: PhantomData,
        }
    }
}

impl<P: DekuReader<()>, C: Constant<P>> DekuReader<()> for Magic<P, C> {
    ghost accepts = { λ _. P.accepts tt };

    ghost no_read_ahead = { λ _. P.no_read_ahead tt };

    ghost meaning = { λ _. ReadsMagic C.value C.text (P.meaning tt) };

    #[inline(always)]
    fn from_reader_with_ctx<R: Source>(
        reader: &mut Reader<R>,
        _ctx: (),
    ) -> Result<Self, DekuError> {
        let part: P = read_item(reader, ())?;
        if !C::is_value(&part) {
            return Err(DekuError::Assertion(C::text()));
        }
        Ok(Magic::new())
    }
}

impl<P: DekuReader<()> + DekuWriter<()>, C: Constant<P>> DekuWriter<()> for Magic<P, C> {
    ghost accepts = { λ _. P.DekuWriter.accepts tt };

    ghost meaning = { λ _ _. P.DekuWriter.meaning C.value tt };

    #[inline(always)]
    fn to_writer<W: Sink>(&self, writer: &mut Writer<W>, _ctx: ()) -> Result<(), DekuError> {
        C::value().to_writer(writer, ())
    }

    #[inline]
    fn to_word(&self, order: Order, _ctx: &()) -> Option<Word> {
        C::value().to_word(order, &())
    }
}
