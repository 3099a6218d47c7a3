//! Writing bits to a sink, one call at a time.

#![tactic(auto, using(deku_device::proofs::Wholes::onward_same))]

ghost use Rattle.std.specs.Prelude.{◌≡◌, ◌+◌, ◌/◌, ◌*◌, ◌^◌, ◌<◌};
ghost use Rattle.std.specs.Prelude.{◌≤◌, Ok, length, IfOk, IfErr, IsTrue, IsFalse};
ghost use Rattle.std.specs.declared.io.ErrorKind.TheVariants.{OutOfMemory};
ghost use Rattle.deku_stream.specs.declared.ctx.Order.TheVariants.{Msb0};
ghost use Rattle.deku_stream.specs.declared.error.DekuError.TheVariants.{Io};
ghost use Rattle.deku_stream.specs.Bits.{bits_in, bits_of, facing, shown};
ghost use Rattle.deku_stream.specs.Writers.{Nothing, Meets, pending_bits};
ghost use Rattle.deku_stream.specs.Standings.{Going, Stopped, Untouched, count_of};
ghost use Rattle.deku_writer.specs.WriterCalls.{Writes, WritesAt, WritesBits, WritesWord};
ghost use Rattle.deku_writer.specs.WriterCalls.{Finalizes, pending_of, order_of, written_count};
ghost use Rattle.deku_writer.specs.WriterCalls.{WritesOn, KeepsSinkStopped, pending_state};

mod bytes;
mod held;
mod joined;
mod numbers;
mod pushing;
mod seek;
mod way;
mod words;

use self::bytes::push_bytes_onto;
use self::held::Held;
use self::numbers::lay_number;
use self::pushing::push_onto;
use self::words::push_word_onto;
use deku_device::device::Sink;
use deku_stream::bounded::BoundedBitVec;
use deku_stream::ctx::Order;
use deku_stream::error::{DekuError, Fault};
use std::alloc::Global;
use std::io::ErrorKind;
use std::marker::Model;

/// Gives whole bytes to a sink, and keeps the bits that do not fill one: at most seven, of one
/// order.
///
/// Bits in `Msb0` fill a byte from its high bit down, and bits in `Lsb0` from its low bit up. An
/// error of the sink stops the writer: the error is kept, nothing is pending, and each later write
/// returns the error again, even for no bits, until a seek succeeds. The sink took a beginning of
/// the bytes of the failed call; how many is unspecified.
///
/// ```text
/// let mut writer = Writer::new(Cursor::new(Vec::new(alloc)));
/// writer.write_bits(&[true, false, true])?;          // 1, 0, 1 are pending
/// writer.finalize()?;                                // the byte 0xA0 is given to the sink
/// writer.bits_written()                              // 8
/// writer.into_inner().into_inner()                   // [0xA0]
/// ```
#[derive(Drop)]
pub struct Writer<W> {
    pub(crate) sink: W,
    pub(crate) state: WriterState,
}

/// The state of a writer.
#[derive(Drop)]
pub struct WriterState {
    held: Held,
    order: Order,
    bits_written: usize,
    fault: Option<Fault>,
}

impl Model for WriterState {
    ghost use Rattle.std.specs.Prelude.{◌<◌, length};
    ghost use Rattle.deku_stream.specs.Writers.{Pending, held as pending_in};
    ghost use Rattle.deku_stream.specs.Standings.{Standing};
    ghost use Rattle.deku_stream.specs.Kept.{standing_of};

    ghost Value = { Standing Pending };

    ghost view = { λ a. standing_of (pending_in a.order a.held) a.fault a.bits_written };

    ghost invariant = { λ a. length a.held < 8 };
}

impl<W: Sink> Writer<W> {
    /// Makes a writer to this sink, with nothing pending and no bit written. Nothing is given to
    /// the sink.
    ///
    /// ```text
    /// let mut writer = Writer::new(Cursor::new(Vec::new(alloc))); // writes into a vector
    /// ```
    #[inline(always)]
    pub fn new(inner: W) -> Writer<W>
        ensures sink { result.sink ≡ inner }
        ensures state { WritesOn result 0 }
    {
        Writer {
            sink: inner,
            state: WriterState::going(0),
        }
    }

    /// The sink, with the bytes that it was given. Pending bits are lost: call `finalize` first.
    ///
    /// ```text
    /// writer.finalize()?;
    /// let bytes = writer.into_inner().into_inner();              // the vector
    /// ```
    #[inline(always)]
    pub fn into_inner(self) -> W
        ensures { result ≡ self.sink }
    {
        self.sink
    }

    /// How many bits were given to the sink: eight for each byte. Pending bits are not counted, and
    /// neither are those of a write that failed.
    ///
    /// ```text
    /// writer.bits_written()                   // 8, after a write of 12 bits; 16 when it is padded
    /// ```
    #[inline(always)]
    pub fn bits_written(&self) -> usize
        ensures { result ≡ written_count self.now }
    {
        self.state.bits_written()
    }

    /// The pending bits, the high bit first, and their order. They are at most seven; if nothing is
    /// pending or the writer has stopped, there are none, in `Msb0`.
    ///
    /// ```text
    /// writer.write_bits_order(&[true, true, false], Order::Lsb0)?;
    /// writer.leftover()                                  // 1, 1, 0 in `Lsb0`
    /// ```
    pub fn leftover(&self) -> (BoundedBitVec<1>, Order)
        ensures bits { result.0 ≡ pending_bits (pending_state self.now) }
        ensures order { result.1 ≡ order_of (pending_state self.now) }
        ensures few { length (pending_bits (pending_state self.now)) < 8 }
        ensures nothing { length result.0 ≡ 0 → pending_state self.now ≡ Nothing }
    {
        let bits = self.state.pending();
        (
            BoundedBitVec::from_bits(&bits.bits()[..bits.len()]),
            self.state.pending_order(),
        )
    }

    /// The pending bits, the high bit first: at most seven, and none if the writer has stopped.
    ///
    /// It fails with `Io(OutOfMemory)` if there is no memory for them.
    ///
    /// ```text
    /// writer.write_bits_order(&[true, true, false], Order::Lsb0)?;
    /// writer.rest(alloc)?                                // [true, true, false]
    /// ```
    pub fn rest(&self, alloc: Global) -> Result<Vec<bool>, DekuError>
        ensures bits { IfOk result (λ v. v.items ≡ pending_bits (pending_state self.now)) }
        ensures memory { IfErr result (λ e. e ≡ Io OutOfMemory) }
    {
        let pending = self.state.pending();
        match Vec::from_slice(alloc, &pending.bits()[..pending.len()]) {
            Ok(bits) => Ok(bits),
            Err(_) => Err(DekuError::Io(ErrorKind::OutOfMemory)),
        }
    }

    /// Writes bits, the high bit first, in an order. Each byte that is filled is given to the sink,
    /// and counts eight bits.
    ///
    /// In `Msb0` the bits follow the pending bits. In `Lsb0` they go above the pending bits, the
    /// last bit first; or, if the list is whole bytes, byte by byte, the last bit of each first.
    /// `Lsb0` bits go into pending `Msb0` bits, and `Msb0` bits above pending `Lsb0` bits. No bits
    /// change nothing.
    ///
    /// It takes no memory except what the sink takes. It fails, in this order,
    ///
    /// - with the error that stopped the writer, if one did;
    /// - with `InvalidParam("count past usize")` if the count would not fit a `usize`; nothing
    ///   changes;
    /// - with `Io` of the sink's error: `WriteZero` if the sink has no room, and `OutOfMemory` if
    ///   there is no memory for a vector. This error is kept, nothing is pending then, and the
    ///   count stays.
    ///
    /// ```text
    /// writer.write_bits_order(&[true, false, true], Order::Lsb0)?;
    /// writer.finalize()?;                                // the byte 0x05
    /// ```
    pub fn write_bits_order(&mut self, bits: &[bool], order: Order) -> Result<(), DekuError>
        ensures writes { Writes W.known (WritesBits order bits.now) self.old result self.new }
        ensures stopped { KeepsSinkStopped self.old self.new }
        // No bits change nothing, and neither do bits that cannot be counted.
        ensures none { length bits.now ≡ 0 → self.new ≡ self.old }
        ensures full { 2 ^ 64 ≤ written_count self.old + 8 * ((length (pending_bits
            (pending_state self.old)) + length bits.now) / 8) → self.new ≡ self.old }
    {
        self.state.write(&mut self.sink, bits, order)
    }

    /// Writes bits in `Msb0`, as `write_bits_order` does. It fails as that does.
    ///
    /// ```text
    /// writer.write_bits(&[true, false, true])?;
    /// writer.finalize()?;                                        // the byte 0xA0
    /// ```
    pub fn write_bits(&mut self, bits: &[bool]) -> Result<(), DekuError>
        ensures writes { Writes W.known (WritesBits Msb0 bits.now) self.old result self.new }
        ensures stopped { KeepsSinkStopped self.old self.new }
        ensures none { length bits.now ≡ 0 → self.new ≡ self.old }
    {
        self.write_bits_order(bits, Order::Msb0)
    }

    /// Writes the bits of bytes in `Msb0`, each byte with its high bit first, as one `write_bits`
    /// of all of them does. If nothing is pending, the sink is given the bytes at once. It takes no
    /// memory except what the sink takes, and fails as `write_bits_order` does.
    ///
    /// ```text
    /// writer.write_bits(&[true, false, true, false])?;   // 1, 0, 1, 0 are pending
    /// writer.write_bytes(&[0xBB])?;                      // the byte 0xAB; 1, 0, 1, 1 are pending
    /// ```
    pub fn write_bytes(&mut self, buf: &[u8]) -> Result<(), DekuError>
        ensures writes { Writes W.known (WritesBits Msb0 (bits_in buf.now)) self.old result
            self.new }
        ensures stopped { KeepsSinkStopped self.old self.new }
        ensures none { length buf.now ≡ 0 → self.new ≡ self.old }
    {
        self.state.write_bytes(&mut self.sink, buf)
    }

    /// Writes a word of at most 128 bits in an order, as one `write_bits_order` of its bits does:
    /// eight bits for each byte of the word, the low byte first, and the bits above the whole bytes
    /// last. The sink is given the bytes at once. It takes no memory except what the sink takes,
    /// and fails as `write_bits_order` does.
    ///
    /// The caller's conditions: `n` is at most 128, and the word has no more bits.
    ///
    /// ```text
    /// writer.write_word(0x0201, 12, Order::Msb0)?;       // the byte 0x01; 0, 0, 1, 0 are pending
    /// ```
    #[inline(always)]
    pub fn write_word(&mut self, word: u128, n: usize, order: Order) -> Result<(), DekuError>
        requires most { n ≤ 128 }
        requires inside { word < 2 ^ n }
        ensures writes { Writes W.known (WritesWord order n word) self.old result self.new }
        ensures stopped { KeepsSinkStopped self.old self.new }
        ensures none { n ≡ 0 → self.new ≡ self.old }
    {
        self.state.write_word(&mut self.sink, word, n, order)
    }

    /// Writes the bits of a number in an order, the first of them the highest in `Msb0` and the
    /// lowest in `Lsb0`, if no call on the sink that can fail is needed. Returns whether it did. It
    /// needs that nothing rejects the write, that the pending bits, if there are any, are in this
    /// order, that they and the new ones are at most 64 together, and that the sink has room in
    /// memory as `Sink::try_put` says.
    ///
    /// The caller's conditions: `n` is at most 64, and the number has no more bits.
    ///
    /// It is a write of as many bits in the order. It returns `false` if there are no bits or if
    /// that write fails, and may also do so if it does not. Then nothing changes.
    ///
    /// ```text
    /// writer.try_write_number(0xABC, 12, Order::Msb0) // true, with room: AB; 1, 1, 0, 0 pending
    /// ```
    #[inline(always)]
    pub fn try_write_number(&mut self, number: u64, n: usize, order: Order) -> bool
        requires most { n ≤ 64 }
        requires inside { number < 2 ^ n }
        ensures writes { IsTrue result → Writes W.known (WritesBits order (shown order
            (facing order (bits_of n number)))) self.old (Ok tt) self.new }
        ensures stays { IsFalse result → self.new ≡ self.old }
        ensures order { IsTrue result → Meets order (pending_state self.old) }
        ensures stopped { KeepsSinkStopped self.old self.new }
    {
        self.state
            .try_write_number(&mut self.sink, number, n, order)
    }

    /// Fills pending bits with zeros to a byte, after `Msb0` bits and above `Lsb0` bits, and gives
    /// it to the sink. It counts eight bits. If nothing is pending, it changes nothing.
    ///
    /// It fails as `write_bits_order` does, and leaves the same.
    ///
    /// ```text
    /// writer.write_bits(&[true, true])?;
    /// writer.finalize()?;                                 // the byte 0xC0, and 8 bits are counted
    /// ```
    #[inline(always)]
    pub fn finalize(&mut self) -> Result<(), DekuError>
        ensures writes { Writes W.known Finalizes self.old result self.new }
        ensures stopped { KeepsSinkStopped self.old self.new }
        ensures none { pending_state self.old ≡ Nothing → self.new ≡ self.old }
    {
        self.state.finalize(&mut self.sink)
    }
}

impl WriterState {
    // This many bits are written, and nothing is pending.
    #[inline(always)]
    fn going(bits_written: usize) -> WriterState
        ensures { result ≡ Going Nothing bits_written }
    {
        WriterState {
            held: Held::new(),
            order: Order::Msb0,
            bits_written,
            fault: None,
        }
    }

    // Stopped by this error of the sink, with this count. Nothing is pending.
    #[inline(always)]
    fn stopped(kind: ErrorKind, count: usize) -> WriterState
        ensures { result ≡ Stopped Nothing (Io kind) count }
    {
        WriterState {
            held: Held::new(),
            order: Order::Msb0,
            bits_written: count,
            fault: Some(Fault::Io(kind)),
        }
    }

    #[inline(always)]
    fn bits_written(&self) -> usize
        ensures { result ≡ count_of self.now }
    {
        self.bits_written
    }

    // The pending bits, the high bit first.
    fn pending(&self) -> Held
        ensures bits { result ≡ pending_bits (pending_of self.now) }
        ensures few { length result < 8 }
        ensures nothing { length result ≡ 0 → pending_of self.now ≡ Nothing }
    {
        if self.fault.is_some() {
            return Held::new();
        }
        self.held.copy()
    }

    // The order of the pending bits.
    fn pending_order(&self) -> Order
        ensures { result ≡ order_of (pending_of self.now) }
    {
        if self.fault.is_some() || self.held.len() == 0 {
            return Order::Msb0;
        }
        self.order
    }

    // Writes the bits to this sink.
    fn write<W: Sink>(&mut self, sink: &mut W, bits: &[bool], order: Order) -> Result<(), DekuError>
        ensures writes { WritesAt (WritesBits order bits.now) (W.known sink.old) self.old result
            (W.known sink.new) self.new }
        ensures stopped { Untouched self.old sink.old sink.new }
        ensures none { length bits.now ≡ 0 → (self.new ≡ self.old) × (sink.new ≡ sink.old) }
        ensures full { 2 ^ 64 ≤ count_of self.old + 8 * ((length (pending_bits (pending_of
            self.old)) + length bits.now) / 8) → (self.new ≡ self.old) × (sink.new ≡ sink.old) }
    {
        if let Some(fault) = self.fault {
            return Err(fault.error());
        }
        if bits.is_empty() {
            return Ok(());
        }
        let bytes = whole_bytes(self.held.len(), bits.len());
        if bytes > (usize::MAX - self.bits_written) / 8 {
            return Err(DekuError::InvalidParam("count past usize"));
        }
        match push_onto(sink, &mut self.held, self.order, order, bits) {
            Ok(()) => {
                self.order = order;
                self.bits_written += 8 * bytes;
                Ok(())
            }
            Err(kind) => {
                *self = WriterState::stopped(kind, self.bits_written);
                Err(DekuError::Io(kind))
            }
        }
    }

    // Writes the bytes in `Msb0` to this sink.
    fn write_bytes<W: Sink>(&mut self, sink: &mut W, bytes: &[u8]) -> Result<(), DekuError>
        ensures writes { WritesAt (WritesBits Msb0 (bits_in bytes.now)) (W.known sink.old) self.old
            result (W.known sink.new) self.new }
        ensures stopped { Untouched self.old sink.old sink.new }
        ensures none { length bytes.now ≡ 0 → (self.new ≡ self.old) × (sink.new ≡ sink.old) }
    {
        if let Some(kept) = self.fault {
            return Err(kept.error());
        }
        if bytes.is_empty() {
            return Ok(());
        }
        if bytes.len() > (usize::MAX - self.bits_written) / 8 {
            return Err(DekuError::InvalidParam("count past usize"));
        }
        match push_bytes_onto(sink, &mut self.held, self.order, bytes) {
            Ok(()) => {
                self.order = Order::Msb0;
                self.bits_written += 8 * bytes.len();
                Ok(())
            }
            Err(kind) => {
                *self = WriterState::stopped(kind, self.bits_written);
                Err(DekuError::Io(kind))
            }
        }
    }

    // Writes a word of n bits to this sink.
    #[inline(always)]
    fn write_word<W: Sink>(
        &mut self,
        sink: &mut W,
        word: u128,
        n: usize,
        order: Order,
    ) -> Result<(), DekuError>
        requires most { n ≤ 128 }
        requires inside { word < 2 ^ n }
        ensures writes { WritesAt (WritesWord order n word) (W.known sink.old) self.old result
            (W.known sink.new) self.new }
        ensures stopped { Untouched self.old sink.old sink.new }
        ensures none { n ≡ 0 → (self.new ≡ self.old) × (sink.new ≡ sink.old) }
    {
        if let Some(reason) = self.fault {
            return Err(reason.error());
        }
        if n == 0 {
            return Ok(());
        }
        let filled = whole_bytes(self.held.len(), n);
        if filled > (usize::MAX - self.bits_written) / 8 {
            return Err(DekuError::InvalidParam("count past usize"));
        }
        match push_word_onto(sink, &mut self.held, self.order, order, word, n) {
            Ok(()) => {
                self.order = order;
                self.bits_written += 8 * filled;
                Ok(())
            }
            Err(kind) => {
                *self = WriterState::stopped(kind, self.bits_written);
                Err(DekuError::Io(kind))
            }
        }
    }

    // Writes the bits of a number to this sink, if nothing rejects them and they can be put into
    // its room. Returns whether it did.
    #[inline(always)]
    fn try_write_number<W: Sink>(
        &mut self,
        sink: &mut W,
        number: u64,
        n: usize,
        order: Order,
    ) -> bool
        requires most { n ≤ 64 }
        requires inside { number < 2 ^ n }
        ensures writes { IsTrue result → WritesAt (WritesBits order (shown order (facing order
            (bits_of n number)))) (W.known sink.old) self.old (Ok tt) (W.known sink.new) self.new }
        ensures stays { IsFalse result → (self.new ≡ self.old) × (sink.new ≡ sink.old) }
        ensures order { IsTrue result → Meets order (pending_of self.old) }
        ensures stopped { Untouched self.old sink.old sink.new }
    {
        if let Some(_) = self.fault {
            return false;
        }
        if n == 0 {
            return false;
        }
        let made = whole_bytes(self.held.len(), n);
        if made > (usize::MAX - self.bits_written) / 8 {
            return false;
        }
        let laid = lay_number(sink, &mut self.held, self.order, order, number, n);
        if laid {
            self.order = order;
            self.bits_written += 8 * made;
        }
        laid
    }

    // Writes as many zeros as the pending bits need to be a byte.
    #[inline(always)]
    fn finalize<W: Sink>(&mut self, sink: &mut W) -> Result<(), DekuError>
        ensures writes { WritesAt Finalizes (W.known sink.old) self.old result (W.known sink.new)
            self.new }
        ensures stopped { Untouched self.old sink.old sink.new }
        ensures none { pending_of self.old ≡ Nothing → (self.new ≡ self.old)
            × (sink.new ≡ sink.old) }
    {
        let lacking = (8 - self.held.len()) % 8;
        let order = self.order;
        self.write_word(sink, 0, lacking, order)
    }
}

// How many whole bytes this many held bits and more bits make.
#[inline(always)]
fn whole_bytes(held: usize, more: usize) -> usize
    requires { held ≤ 8 }
    ensures { result ≡ (held + more) / 8 }
{
    more / 8 + (held + more % 8) / 8
}
