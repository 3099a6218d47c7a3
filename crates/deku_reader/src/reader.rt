//! Reading bits.

ghost use Rattle.std.specs.Prelude.{◌≡◌, ◌+◌, ◌*◌, ◌^◌, ◌≤◌, ◌<◌};
ghost use Rattle.std.specs.Prelude.{false, Ok, [], length, take, drop, OnOk, IfOk, IfErr, IfSome};
ghost use Rattle.std.specs.Prelude.{IsNone};
ghost use Rattle.std.specs.Borrow.{Lends, sem};
ghost use Rattle.deku_stream.specs.Bits.{bits_of, facing};
ghost use Rattle.deku_stream.specs.Standings.{Going};
ghost use Rattle.deku_reader.specs.ReaderCalls.{Reads, TakesBits, Ending, Skips, ReadsBits};
ghost use Rattle.deku_reader.specs.ReaderCalls.{ReadsVec, ReadsBytes, ReadsByteVec, ReadsWord};
ghost use Rattle.deku_reader.specs.ReaderCalls.{IsLeftover, filling, items_of, source_of};
ghost use Rattle.deku_reader.specs.ReaderCalls.{unread_of, read_count, ReadsOn, AdmitsRead};
ghost use Rattle.deku_reader.specs.ReaderCalls.{Fetched, FetchedAhead, FetchedInTime};
ghost use Rattle.deku_reader.specs.ReaderCalls.{KeepsSourceFor, KeepsSourceStopped, NamesRestOf};
ghost use Rattle.deku_reader.specs.contracts.reader.Reader.{the_row as reader-row};

mod progress;
mod seek;

use crate::reader::progress::ReaderState;
use deku_device::device::Source;
use deku_stream::bounded::BoundedBitVec;
use deku_stream::ctx::Order;
use deku_stream::error::DekuError;
use deku_stream::turning::show;
use std::alloc::Global;
use std::io::ErrorKind;

/// The unread bits of the byte that a reader fetched last.
#[derive(Debug, Clone, Drop)]
pub enum Leftover {
    /// All eight bits.
    Byte(u8),
    /// One to seven bits, the high bit first.
    Bits(BoundedBitVec<1>),
}

/// What a read of bytes has put into its buffer.
#[derive(Drop)]
pub enum ReaderRet {
    /// Whole bytes.
    Bytes,
}

/// Reads bits from a source of bytes.
///
/// A read takes the unread bits first, and then fetches the bytes that it needs, all at once. It
/// fetches no byte after the last bit that was asked for. The bits of that byte that are not read
/// yet are kept. In `Msb0` the next bit is the highest of them, in `Lsb0` the lowest; the order may
/// change at any bit.
///
/// Each read fails, in this order,
///
/// - with the error that stopped the reader, if one did;
/// - with `InvalidParam("count past usize")` if the count of bits read would not fit a `usize`;
///   nothing changes;
/// - with `Io(OutOfMemory)` if it needs memory and there is none; nothing changes;
/// - with `Incomplete` of the bits that were asked for, if the input ends before the last of them;
/// - with `Io` of the failure's kind, if the source fails.
///
/// The last two stop the reader. It then returns the same error from each further read, skip and
/// check for the end, even for no bits. It has no bits left over, and the count of bits read stays
/// what it was before the read that failed. After a seek that succeeds it continues.
///
/// ```text
/// let mut reader = Reader::new(alloc, Cursor::new(bytes)); // 6D BE EF
/// reader.read_bits(4, Order::Msb0)?;                       // 0, 1, 1, 0
/// reader.read_bits(2, Order::Msb0)?;                       // 1, 1
/// reader.rest()?;                                          // 0, 1
/// reader.bits_read();                                      // 6
/// reader.read_bits(19, Order::Msb0);                       // Incomplete of 19 bits
/// reader.read_bits(0, Order::Msb0);                        // the same
/// ```
#[derive(Drop)]
pub struct Reader<R: Source> {
    source: R,
    state: ReaderState,
    alloc: Global,
}

impl<R: Source> Reader<R> {
    /// Makes a reader that begins at the source's next byte, with no bits read. The vectors that it
    /// returns are made with `alloc`.
    ///
    /// ```text
    /// let mut reader = Reader::new(alloc, Cursor::new(bytes));   // nothing is fetched yet
    /// ```
    pub fn new(alloc: Global, inner: R) -> Reader<R>
        ensures source { result.source ≡ inner }
        ensures alloc { result.alloc ≡ alloc }
        ensures state { ReadsOn result 0 }
    {
        Reader {
            source: inner,
            state: ReaderState::start(),
            alloc,
        }
    }

    /// The allocator that the reader was made with.
    ///
    /// ```text
    /// let vector: Vec<u8> = Vec::new(reader.alloc());        // like those that the reader returns
    /// ```
    pub fn alloc(&self) -> Global
        ensures { result ≡ self.now.alloc }
    {
        self.alloc
    }

    /// The source, after the last byte that was fetched. Bits of that byte that were not read yet
    /// are lost.
    ///
    /// ```text
    /// reader.into_inner().position()                             // 2, if nine bits were read
    /// ```
    pub fn into_inner(self) -> R
        ensures { result ≡ self.source }
    {
        self.source
    }

    /// The source, after the last byte that was fetched. Changes to it are changes to the reader's
    /// source: the next bits are the unread ones of the last byte, and then those of the bytes that
    /// the source gives.
    ///
    /// ```text
    /// let mut reader = Reader::new(alloc, Cursor::new(bytes)); // 01 02 03
    /// reader.as_mut().set_position(2);
    /// reader.read_bits(8, Order::Msb0)?;                       // 0, 0, 0, 0, 0, 0, 1, 1
    /// ```
    pub fn as_mut(&mut self) -> &mut R
        ensures value { result.now ≡ source_of self.old }
        ensures* writes_back { sem 𝓛 (Lends (reader-row R.row) R.row self.entry result
            (λ x. record self.old { source = x })) }
    {
        &mut self.source
    }

    /// The unread bits of the byte that was fetched last, if there are any. `None` after an error.
    ///
    /// ```text
    /// reader.leftover()   // Some(Leftover::Bits(0, 1)), if the last two bits of a byte are unread
    /// ```
    pub fn leftover(&self) -> Option<Leftover>
        ensures { IsLeftover (unread_of self.now) result }
    {
        let count = self.state.unread_len();
        if count == 0 {
            return None;
        }
        let eight = self.state.unread_in_eight();
        let bits: BoundedBitVec<1> = BoundedBitVec::from_bits(&eight[8 - count..]);
        if bits.is_full() {
            return Some(Leftover::Byte(bits.as_raw_slice()[0]));
        }
        Some(Leftover::Bits(bits))
    }

    /// How many bits were read or skipped by calls that succeeded. A seek sets the count, as
    /// described there.
    ///
    /// ```text
    /// reader.bits_read()                                     // 12, after reads of 8 and of 4 bits
    /// ```
    pub fn bits_read(&self) -> usize
        ensures { result ≡ read_count self.now }
    {
        self.state.bits_read()
    }

    /// The unread bits of the byte that was fetched last, the high bit first: at most eight, and
    /// none after an error.
    ///
    /// Its only error is `Io(OutOfMemory)`, if there is no memory, even if the reader has stopped.
    /// Nothing changes.
    ///
    /// ```text
    /// reader.read_bits(13, Order::Lsb0)?; // from 10 81
    /// reader.rest()?;                     // 1, 0, 0
    /// ```
    pub fn rest(&self) -> Result<Vec<bool>, DekuError>
        ensures ok { IfOk result (λ v. v.items ≡ unread_of self.now) }
        ensures err { IfErr result (λ e. e ≡ DekuError.Io ErrorKind.OutOfMemory) }
    {
        let eight = self.state.unread_in_eight();
        match eight[8 - self.state.unread_len()..].to_vec(self.alloc) {
            Ok(bits) => Ok(bits),
            Err(_) => Err(DekuError::Io(ErrorKind::OutOfMemory)),
        }
    }

    /// Whether the end of the input is reached.
    ///
    /// If bits of the byte that was fetched last are unread, it returns `false` and does not call
    /// the source. Otherwise it fetches one byte, all of which is then unread: the next reads and
    /// skips are the same as without this call, and the count stays. It returns `true` if the
    /// source has no byte.
    ///
    /// It fails with the error that stopped the reader, if one did, and with `Io` of the failure's
    /// kind if the source fails. That stops the reader.
    ///
    /// ```text
    /// reader.end()?;                      // from AA: false
    /// reader.rest()?;                     // 1, 0, 1, 0, 1, 0, 1, 0
    /// reader.bits_read();                 // 0
    /// reader.read_bits(8, Order::Lsb0)?;  // 1, 0, 1, 0, 1, 0, 1, 0
    /// reader.end()?;                      // true
    /// ```
    pub fn end(&mut self) -> Result<bool, DekuError>
        ensures reads { Reads R.known Ending self.old result self.new }
        ensures fetched { OnOk result (FetchedAhead R.known self.old self.new) }
        ensures held { OnOk result (length (unread_of self.new) ≤ 8) }
        // If bits are unread, it moves nothing, whatever the source reports.
        ensures unread { 0 < length (unread_of self.old) → (result ≡ Ok false)
            × (self.new ≡ self.old) }
        ensures stopped { KeepsSourceStopped self.old self.new }
        ensures alloc { self.new.alloc ≡ self.old.alloc }
    {
        self.state.end(&mut self.source)
    }

    /// Skips the next `amt` bits.
    ///
    /// They are the bits that a read of as many bits in this order takes: the unread bits of the
    /// byte that was fetched last, then whole bytes, which the source skips without fetching them,
    /// and then fewer than eight bits of one more byte. The count of bits read rises by `amt`.
    ///
    /// It takes no memory. Errors, and what is left after them, are described at `Reader`, with two
    /// differences. `Incomplete` is of the bits after the whole bytes, which are fewer than eight.
    /// And a source may skip past its end without an error, as one over memory does. Then no byte
    /// is left, and the call succeeds if no bit is needed after the whole bytes.
    ///
    /// ```text
    /// reader.read_bits(4, Order::Msb0)?; // from AB CD EF: 1, 0, 1, 0
    /// reader.skip_bits(6, Order::Msb0)?;
    /// reader.read_bits(6, Order::Msb0)?; // 0, 0, 1, 1, 0, 1
    /// reader.skip_bits(80, Order::Msb0)?;
    /// reader.end()?;                     // true
    /// reader.bits_read();                // 96
    /// ```
    pub fn skip_bits(&mut self, amt: usize, order: Order) -> Result<(), DekuError>
        ensures skips { Reads R.known (Skips order amt) self.old result self.new }
        ensures early { FetchedInTime self.old self.new }
        ensures still { KeepsSourceFor amt self.old self.new }
        ensures named { NamesRestOf amt self.old result }
        ensures stopped { KeepsSourceStopped self.old self.new }
        ensures alloc { self.new.alloc ≡ self.old.alloc }
    {
        self.state.skip_bits(&mut self.source, amt, order)
    }

    /// Fails as a read of `amt` bytes does before it takes memory or moves anything: with the error
    /// that stopped the reader, or with `InvalidParam("count past usize")`. A call that takes
    /// memory for what it reads calls this first.
    ///
    /// ```text
    /// reader.admits_bytes(usize::MAX)                  // InvalidParam("count past usize")
    /// ```
    pub fn admits_bytes(&self, amt: usize) -> Result<(), DekuError>
        ensures { AdmitsRead (8 * amt) self.now result }
    {
        self.state.admits_bytes(amt)
    }

    /// Takes as many bits as the buffer is long, in this order.
    pub(crate) fn take_bits(&mut self, dst: &mut [bool], order: Order) -> Result<(), DekuError>
        ensures takes { Reads R.known (TakesBits order (length dst.old)) self.old
            (filling result dst.new) self.new }
        ensures fetched { OnOk result (Fetched R.known (length dst.old) self.old self.new) }
        ensures early { FetchedInTime self.old self.new }
        ensures still { KeepsSourceFor (length dst.old) self.old self.new }
        ensures stopped { KeepsSourceStopped self.old self.new }
        ensures alloc { self.new.alloc ≡ self.old.alloc }
    {
        self.state.take_bits(&mut self.source, dst, order)
    }

    /// Fills the buffer with the next bits, as many as it is long.
    ///
    /// In `Msb0` they are in the order in which they are read. In `Lsb0` they are reversed, so that
    /// the high bit is first: whole bytes each by itself, and any other number of bits as one.
    /// Errors, and what is left after them, are described at `Reader`. After an error the content
    /// of the buffer is unspecified.
    ///
    /// ```text
    /// let mut bits = [false; 5];
    /// reader.read_bits_into(&mut bits, Order::Lsb0)?; // from A1: 0, 0, 0, 0, 1
    /// ```
    pub fn read_bits_into(&mut self, dst: &mut [bool], order: Order) -> Result<(), DekuError>
        ensures reads { Reads R.known (ReadsBits order (length dst.old)) self.old
            (filling result dst.new) self.new }
        ensures fetched { OnOk result (Fetched R.known (length dst.old) self.old self.new) }
        ensures early { FetchedInTime self.old self.new }
        ensures still { KeepsSourceFor (length dst.old) self.old self.new }
        ensures stopped { KeepsSourceStopped self.old self.new }
        ensures alloc { self.new.alloc ≡ self.old.alloc }
    {
        self.take_bits(dst, order)?;
        show(dst, order);
        Ok(())
    }

    /// The next `amt` bits, in a new vector, in the order of `read_bits_into`.
    ///
    /// The memory is allocated before any bit is taken. Errors, and what is left after them, are
    /// described at `Reader`.
    ///
    /// ```text
    /// reader.read_bits(4, Order::Lsb0)?; // from AB CD: 1, 0, 1, 1
    /// reader.read_bits(4, Order::Lsb0)?; // 1, 0, 1, 0
    /// reader.read_bits(4, Order::Msb0)?; // 1, 1, 0, 0
    /// ```
    pub fn read_bits(&mut self, amt: usize, order: Order) -> Result<Vec<bool>, DekuError>
        ensures reads { Reads R.known (ReadsVec order amt) self.old (items_of result) self.new }
        ensures fetched { OnOk result (Fetched R.known amt self.old self.new) }
        ensures early { FetchedInTime self.old self.new }
        ensures still { KeepsSourceFor amt self.old self.new }
        ensures stopped { KeepsSourceStopped self.old self.new }
        ensures alloc { self.new.alloc ≡ self.old.alloc }
    {
        self.state.admits(amt)?;
        let Ok(mut bits) = vec![in self.alloc; false; amt] else {
            return Err(DekuError::Io(ErrorKind::OutOfMemory));
        };
        self.read_bits_into(bits.as_mut_slice(), order)?;
        Ok(bits)
    }

    /// Reads the next `amt` bits as their word.
    ///
    /// The caller's condition: they are at most 128.
    ///
    /// The bits that the order takes are divided into groups of eight, from the first on; the last
    /// group may be shorter. The first bit of a group is the highest of its number in `Msb0`, and
    /// the lowest in `Lsb0`. In the word the number of the first group has the weight 1, and that
    /// of each further group 256 times the weight of the one before it.
    ///
    /// It takes no memory. Errors, and what is left after them, are described at `Reader`.
    ///
    /// ```text
    /// reader.read_word(12, Order::Msb0)?; // from AB CD: 0xCAB
    /// ```
    #[inline(always)]
    pub fn read_word(&mut self, amt: usize, order: Order) -> Result<u128, DekuError>
        requires { amt ≤ 128 }
        ensures reads { Reads R.known (ReadsWord order amt) self.old result self.new }
        ensures fetched { OnOk result (Fetched R.known amt self.old self.new) }
        ensures early { FetchedInTime self.old self.new }
        ensures still { KeepsSourceFor amt self.old self.new }
        ensures stopped { KeepsSourceStopped self.old self.new }
        ensures alloc { self.new.alloc ≡ self.old.alloc }
    {
        self.state.take_word(&mut self.source, amt, order)
    }

    /// Reads the next `amt` bits as their word, as `read_word` does, but in less code: for a call
    /// that is inlined in many places.
    ///
    /// The caller's condition: they are at most 64.
    ///
    /// ```text
    /// reader.read_short_word(12, Order::Msb0)?; // from AB CD: 0xCAB
    /// ```
    #[inline(always)]
    pub fn read_short_word(&mut self, amt: usize, order: Order) -> Result<u128, DekuError>
        requires { amt ≤ 64 }
        ensures reads { Reads R.known (ReadsWord order amt) self.old result self.new }
        ensures fetched { OnOk result (Fetched R.known amt self.old self.new) }
        ensures early { FetchedInTime self.old self.new }
        ensures still { KeepsSourceFor amt self.old self.new }
        ensures stopped { KeepsSourceStopped self.old self.new }
        ensures alloc { self.new.alloc ≡ self.old.alloc }
    {
        self.state.take_short_word(&mut self.source, amt, order)
    }

    /// Reads the next `amt` bits as a number. Their first bit is its highest in `Msb0`, and its
    /// lowest in `Lsb0`. It does so only if no call on the source that can fail is needed: the bits
    /// are unread, or in memory as `Source::try_take` says.
    ///
    /// The caller's condition: they are at most 64.
    ///
    /// It is a read of as many bits, and raises the count. It returns `None` if `read_word` of as
    /// many bits fails, and may also do so if it does not. Then nothing moves.
    ///
    /// ```text
    /// reader.try_read_number(12, Order::Msb0); // from AB CD EF 01 23 45 67 89: Some of 0xABC
    /// ```
    #[inline(always)]
    pub fn try_read_number(&mut self, amt: usize, order: Order) -> Option<u64>
        requires { amt ≤ 64 }
        ensures takes { IfSome result (λ number. Reads R.known (TakesBits order amt) self.old
            (Ok (facing order (bits_of amt number))) self.new) }
        ensures below { IfSome result (λ number. number < 2 ^ amt) }
        ensures held { IfSome result (λ number. length (unread_of self.old) ≤ 8) }
        ensures fetched { IfSome result (λ number. Fetched R.known amt self.old self.new) }
        ensures early { FetchedInTime self.old self.new }
        ensures still { KeepsSourceFor amt self.old self.new }
        ensures stays { IsNone result → self.new ≡ self.old }
        ensures stopped { KeepsSourceStopped self.old self.new }
        ensures alloc { self.new.alloc ≡ self.old.alloc }
    {
        self.state.try_read_number(&mut self.source, amt, order)
    }

    /// Reads `amt` bytes into the start of the buffer. The bytes after them stay as they were.
    ///
    /// The caller's condition: the buffer is at least `amt` bytes long.
    ///
    /// The bytes are what a read of eight times as many bits in this order gives, each byte with
    /// its high bit first. They need not start at the start of a byte of the source. A read of no
    /// bytes reads nothing. It takes no memory.
    ///
    /// Errors, and what is left after them, are described at `Reader`: `Incomplete` is of the bits,
    /// eight times `amt`. After an error the content of the bytes asked for is unspecified.
    ///
    /// ```text
    /// let mut bytes = [0; 4];
    /// reader.read_bits(4, Order::Msb0)?;               // from AB CD EF: 1, 0, 1, 0
    /// reader.read_bytes(2, &mut bytes, Order::Lsb0)?;  // DB FC 00 00
    /// ```
    #[inline(always)]
    pub fn read_bytes(
        &mut self,
        amt: usize,
        buf: &mut [u8],
        order: Order,
    ) -> Result<ReaderRet, DekuError>
        requires { amt ≤ length buf.old }
        ensures front { Reads R.known (ReadsBytes order amt) self.old
            (filling result (take amt buf.new)) self.new }
        ensures behind { drop amt buf.new ≡ drop amt buf.old }
        ensures fetched { OnOk result (Fetched R.known (8 * amt) self.old self.new) }
        ensures early { FetchedInTime self.old self.new }
        ensures still { KeepsSourceFor (8 * amt) self.old self.new }
        ensures stopped { KeepsSourceStopped self.old self.new }
        ensures alloc { self.new.alloc ≡ self.old.alloc }
    {
        self.state
            .take_bytes(&mut self.source, &mut buf[..amt], order)?;
        Ok(ReaderRet::Bytes)
    }

    /// The next `amt` bytes, in a new vector, as `read_bytes` reads them.
    ///
    /// The memory is allocated before any byte is taken. Errors, and what is left after them, are
    /// described at `Reader`: `Incomplete` is of the bits, eight times `amt`.
    ///
    /// ```text
    /// reader.read_bits(4, Order::Msb0)?;        // from AB CD EF: 1, 0, 1, 0
    /// reader.read_bytes_vec(2, Order::Lsb0)?;   // DB FC
    /// ```
    pub fn read_bytes_vec(&mut self, amt: usize, order: Order) -> Result<Vec<u8>, DekuError>
        ensures reads { Reads R.known (ReadsByteVec order amt) self.old (items_of result) self.new }
        ensures fetched { OnOk result (Fetched R.known (8 * amt) self.old self.new) }
        ensures early { FetchedInTime self.old self.new }
        ensures still { KeepsSourceFor (8 * amt) self.old self.new }
        ensures stopped { KeepsSourceStopped self.old self.new }
        ensures alloc { self.new.alloc ≡ self.old.alloc }
    {
        self.admits_bytes(amt)?;
        match Vec::with_capacity(self.alloc, amt) {
            Ok(mut bytes) => {
                self.state
                    .take_bytes_onto(&mut self.source, &mut bytes, amt, order)?;
                Ok(bytes)
            }
            Err(_) => Err(DekuError::Io(ErrorKind::OutOfMemory)),
        }
    }

    /// Fills the buffer with bytes, as `read_bytes` of as many bytes does. It fails as that does.
    ///
    /// ```text
    /// let mut bytes = [0; 2];
    /// reader.read_bytes_const(&mut bytes, Order::Msb0)?; // from AA BB: AA BB
    /// ```
    pub fn read_bytes_const<const N: usize>(
        &mut self,
        buf: &mut [u8; N],
        order: Order,
    ) -> Result<ReaderRet, DekuError>
        ensures reads { Reads R.known (ReadsBytes order N) self.old (filling result buf.new)
            self.new }
        ensures fetched { OnOk result (Fetched R.known (8 * N) self.old self.new) }
        ensures early { FetchedInTime self.old self.new }
        ensures still { KeepsSourceFor (8 * N) self.old self.new }
        ensures stopped { KeepsSourceStopped self.old self.new }
        ensures alloc { self.new.alloc ≡ self.old.alloc }
    {
        self.read_bytes_const_into(buf, order)?;
        Ok(ReaderRet::Bytes)
    }

    /// Fills the buffer with bytes, as `read_bytes` of as many bytes does. It fails as that does.
    ///
    /// ```text
    /// let mut byte = [0; 1];
    /// reader.read_bytes_const_into(&mut byte, Order::Msb0)?; // from AA BB: AA
    /// ```
    pub fn read_bytes_const_into<const N: usize>(
        &mut self,
        buf: &mut [u8; N],
        order: Order,
    ) -> Result<(), DekuError>
        ensures reads { Reads R.known (ReadsBytes order N) self.old (filling result buf.new)
            self.new }
        ensures fetched { OnOk result (Fetched R.known (8 * N) self.old self.new) }
        ensures early { FetchedInTime self.old self.new }
        ensures still { KeepsSourceFor (8 * N) self.old self.new }
        ensures stopped { KeepsSourceStopped self.old self.new }
        ensures alloc { self.new.alloc ≡ self.old.alloc }
    {
        self.state.take_bytes(&mut self.source, buf, order)
    }
}
