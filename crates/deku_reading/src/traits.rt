//! The trait of types that can be read.

ghost use Rattle.std.specs.Prelude.{◌<◌, ◌≤◌, ◌^◌, Option, Result, OnOk, IfSome, ⊤};
ghost use Rattle.deku_bits.specs.Streams.{Stream};
ghost use Rattle.deku_bits.specs.Outcomes.{Meaning};
ghost use Rattle.deku_bits.specs.ReaderCalls.{Reads};
ghost use Rattle.deku_reading.specs.Ahead.{ReadsOnto};
ghost use Rattle.deku_reading.specs.Cutting.{IsCutFrom};
ghost use Rattle.deku_reading.specs.Early.{NoReadAhead};

use deku_bits::ctx::Order;
use deku_bits::device::Source;
use deku_bits::error::DekuError;
use deku_bits::reader::Reader;

/// A type that is read from bits, under a context.
///
/// An implementation states the meaning of reading: a relation between the state of the reader
/// before, the result and the state after. The law is that each call gives an outcome of that
/// meaning, or a failure of the device that the meaning allows. Such a failure is returned and
/// kept, with the count that the meaning states.
pub trait DekuReader<Ctx>: Drop {
    // The contexts under which the type may be read: all of them, unless an implementation says
    // otherwise.
    ghost accepts: { Ctx → Type 0 } = { λ _. ⊤ };

    // The contexts under which the type fetches no byte too early: all of them, unless an
    // implementation says otherwise.
    ghost no_read_ahead: { Ctx → Type 0 } = { λ _. ⊤ };

    // What reading returns and leaves. The flag is `true` if the device fails during the read.
    ghost meaning: { Ctx → Meaning (Option Stream) Self };

    /// Reads a value. The type states its errors. What was read before an error is consumed.
    ///
    /// The caller's condition: the type may be read under the context.
    ///
    /// ```text
    /// u16::from_reader_with_ctx(&mut reader, Endian::Big)?    // 0xC0FE from C0 FE
    /// ```
    fn from_reader_with_ctx<R: Source>(reader: &mut Reader<R>, ctx: Ctx) -> Result<Self, DekuError>
    where
        Self: Sized,
        requires { accepts ctx }
        ensures reads { Reads R.known (meaning ctx) reader.old result reader.new }
        ensures early { OnOk result (no_read_ahead ctx → NoReadAhead R.known reader.old
            reader.new) };

    /// Reads the next values, at most `most`, as long as they are in memory, and appends them to
    /// the vector. Returns how many they are.
    ///
    /// The caller's condition: the type may be read under the context.
    ///
    /// They are what as many reads under the context return, and leave. It never fails: it stops
    /// before a value that is not in memory or that there is no memory for, and may do so before
    /// any value, as the default body does before the first. It makes room for at most 64 values
    /// ahead.
    ///
    /// ```text
    /// u8::try_read_onto(&mut reader, &mut bytes, 2, &()) // 2, from AA BB CC; then CC is next
    /// ```
    fn try_read_onto<R: Source>(
        reader: &mut Reader<R>,
        items: &mut Vec<Self>,
        most: usize,
        ctx: &Ctx,
    ) -> usize
    where
        Self: Sized,
        requires { accepts ctx.now }
        ensures few { result ≤ most }
        ensures reads { ReadsOnto R.known (meaning ctx.now) result items.old.items items.new.items
            reader.old reader.new }
        ensures early { no_read_ahead ctx.now → NoReadAhead R.known reader.old reader.new }
    {
        let _unread = most;
        0
    }

    /// The value that the first bits of a word make, and how many these bits are. The word has
    /// `room` bits, of which the first is the highest in `Msb0`, and the lowest in `Lsb0`. `None`
    /// if the bits are more, or if values of the type are not made so in this order and under this
    /// context; the default body says that none are.
    ///
    /// A tuple whose items are all made so is read as one word if its bits are in memory, which is
    /// faster than a read of each item.
    ///
    /// The caller's conditions: the word has at most 64 bits, and is below 2 to the power `room`.
    ///
    /// ```text
    /// u8::from_word(0x69C, 12, Order::Msb0, &BitSize(4))          // Some((6, 4))
    /// ```
    fn from_word(word: u64, room: usize, order: Order, ctx: &Ctx) -> Option<(Self, usize)>
    where
        Self: Sized,
        requires few { room ≤ 64 }
        requires below { word < 2 ^ room }
        ensures { IfSome result (λ r. IsCutFrom (meaning ctx.now) order word room r.0 r.1) }
    {
        let _word = (word, room, order);
        let _context = ctx;
        None
    }
}
