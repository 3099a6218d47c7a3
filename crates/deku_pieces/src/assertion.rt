//! Parts that are checked after they are read, and before they are written.

ghost use Rattle.std.specs.Prelude.{◌≡◌, ℕ, Bool, List};
ghost use Rattle.deku_pieces.specs.Asserting.{ReadsAsserted, WritesAsserted};

use deku::device::{Sink, Source};
use deku::reader::Reader;
use deku::writer::Writer;
use deku::{DekuError, DekuReader, DekuWriter, read_item};
use std::marker::PhantomData;

/// A check of a part: which parts pass, and the text of the error for all others.
///
/// ```text
/// impl Check<Msb<u8, 4>> for Version {
///     ghost passes = { λ part. part.0 ≡ᵇ 4 };
///
///     ghost text = { codes "version" };
///
///     fn passes(part: &Msb<u8, 4>) -> bool {
///         part.0 == 4
///     }
///
///     fn text() -> &'static str {
///         "version"
///     }
/// }
/// ```
pub trait Check<P> {
    // Which parts pass.
    ghost passes: { P → Bool };

    // The text for a part that does not pass.
    ghost text: { List ℕ };

    /// Whether the part passes.
    fn passes(part: &P) -> bool
        ensures { result ≡ passes part.now };

    /// The text of the error for a part that does not pass: usually the name of its field.
    fn text() -> &'static str
        ensures { result.now ≡ text };
}

/// A part that passes a check.
///
/// Reading a part that does not pass fails with `Assertion` and the text of the check; the part is
/// consumed. Writing such a part fails in the same way before anything moves. Otherwise both fail
/// as the part does.
///
/// ```text
/// type Parts = (Assert<Msb<u8, 4>, Version>, Msb<u8, 4>); // 45; 65 fails: Assertion("version")
/// ```
#[derive(Debug, PartialEq, Eq, Drop)]
pub struct Assert<P, C> {
    /// The part.
    pub part: P,
    /// The check.
    pub check: PhantomData<C>,
}

impl<P, C> Assert<P, C> {
    /// Wraps a part. The check is made when the part is written.
    ///
    /// ```text
    /// Assert::<_, Version>::new(Msb(4))
    /// ```
    pub fn new(part: P) -> Assert<P, C>
        ensures { result ≡ record { part = part; check = record {} } }
    {
        Assert {
            part,
            check: PhantomData,
        }
    }
}

impl<P: DekuReader<()>, C: Check<P>> DekuReader<()> for Assert<P, C> {
    ghost accepts = { λ _. P.accepts tt };

    ghost no_read_ahead = { λ _. P.no_read_ahead tt };

    ghost meaning = { λ _. ReadsAsserted C.passes C.text (P.meaning tt) };

    #[inline(always)]
    fn from_reader_with_ctx<R: Source>(
        reader: &mut Reader<R>,
        _ctx: (),
    ) -> Result<Self, DekuError> {
        let part: P = read_item(reader, ())?;
        if !C::passes(&part) {
            return Err(DekuError::Assertion(C::text()));
        }
        Ok(Assert::new(part))
    }
}

impl<P: DekuWriter<()>, C: Check<P>> DekuWriter<()> for Assert<P, C> {
    ghost accepts = { λ _. P.accepts tt };

    ghost meaning = { λ v _. WritesAsserted C.passes C.text (λ p. P.meaning p tt) v };

    #[inline(always)]
    fn to_writer<W: Sink>(&self, writer: &mut Writer<W>, _ctx: ()) -> Result<(), DekuError> {
        if !C::passes(&self.part) {
            return Err(DekuError::Assertion(C::text()));
        }
        self.part.to_writer(writer, ())
    }
}
