//! The trait of types that can be written.

ghost use Rattle.std.specs.Prelude.{◌≤◌, Result, Ok, ⊤, length, take, IfSome};
ghost use Rattle.deku_bits.specs.Outcomes.{Meaning};
ghost use Rattle.deku_bits.specs.Standings.{Output};
ghost use Rattle.deku_bits.specs.WriterCalls.{Writes};
ghost use Rattle.deku_writing.specs.Composing.{WritesEach};
ghost use Rattle.deku_writing.specs.Words.{IsWordOf};

use crate::words::Word;
use deku_bits::ctx::Order;
use deku_bits::device::Sink;
use deku_bits::error::DekuError;
use deku_bits::writer::Writer;

/// A type that is written as bits, under a context.
///
/// An implementation states the meaning of writing a value: a relation between the state of the
/// writer before, the result and the state after. The law is that each call gives an outcome of
/// that meaning, or a failure of the device that the meaning allows. Such a failure is returned and
/// kept, with the count that the meaning states.
pub trait DekuWriter<Ctx> {
    // The contexts under which the type may be written: all of them, unless an implementation says
    // otherwise.
    ghost accepts: { Ctx → Type 0 } = { λ _. ⊤ };

    // What writing a value returns and leaves. The flag is `true` if the device fails during the
    // write.
    ghost meaning: { Self → Ctx → Meaning Output (Unit {0}) };

    /// Writes the value. The type states its errors. What was written before an error stays
    /// written.
    ///
    /// The caller's condition: the type may be written under the context.
    ///
    /// ```text
    /// 0xC0FEu16.to_writer(&mut writer, Endian::Big)?          // C0 FE
    /// ```
    fn to_writer<W: Sink>(&self, writer: &mut Writer<W>, ctx: Ctx) -> Result<(), DekuError>
        requires { accepts ctx }
        ensures { Writes W.known (meaning self.now ctx) writer.old result writer.new };

    /// The word that the bits of the value are in this order. It has the same bits, and is one, for
    /// every value of a type under a context.
    ///
    /// `None`, as by default, if values of the type are written otherwise under the context.
    ///
    /// ```text
    /// 6u8.to_word(Order::Msb0, &BitSize(4))                   // the number 6, of four bits
    /// ```
    #[inline]
    fn to_word(&self, order: Order, ctx: &Ctx) -> Option<Word>
        ensures { IfSome result (λ w. IsWordOf (meaning self.now ctx.now) order w) }
    {
        let _order = order;
        let _ctx = ctx;
        None
    }

    /// Writes the first of the values, as long as the sink has room for them in memory. Returns how
    /// many they are.
    ///
    /// The caller's condition: the type may be written under the context.
    ///
    /// They are written as by as many writes under the context, of which none fails. It never
    /// fails: it stops before a value that has no such room, and may do so before any value, as the
    /// default body does before the first.
    ///
    /// ```text
    /// u8::try_write_first(&mut writer, &[0xAA, 0xBB], &()) // 2, with room: AA BB
    /// ```
    fn try_write_first<W: Sink>(writer: &mut Writer<W>, items: &[Self], ctx: &Ctx) -> usize
    where
        Self: Sized,
        requires { accepts ctx.now }
        ensures few { result ≤ length items.now }
        ensures writes { Writes W.known (WritesEach (λ x. meaning x ctx.now) (take result
            items.now)) writer.old (Ok tt) writer.new }
    {
        let _unwritten = items;
        0
    }
}
