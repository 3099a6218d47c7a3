//! What a reader keeps besides its source, and how it takes bits.

#![tactic(auto, using(deku_device::proofs::Wholes::onward_same))]

ghost use Rattle.std.specs.Prelude.{◌≡◌, ◌≢◌, ℕ, ◌*◌, ◌^◌, ◌<◌};
ghost use Rattle.std.specs.Prelude.{◌≤◌, ◌⊎◌, ◌-◌, false, Ok, [], ◌∷◌};
ghost use Rattle.std.specs.Prelude.{length, drop, IfOk, OnOk, IfErr, IfSome, IsNone};
ghost use Rattle.std.specs.Io.KnownBytes.{Consumes};
ghost use Rattle.std.specs.IoError.{error_kind};
ghost use Rattle.std.specs.Vec.{vec_len, vec_capacity};
ghost use Rattle.deku_stream.specs.declared.ctx.Order.{Order as BitOrder};
ghost use Rattle.deku_stream.specs.Bits.{bits_of, facing};
ghost use Rattle.deku_device.specs.Devices.{DeviceKept, DeviceFailed, FewerThan, StaysEmpty};
ghost use Rattle.deku_stream.specs.Kept.{Admits};
ghost use Rattle.deku_stream.specs.Moving.{Moves, FewerBits};
ghost use Rattle.deku_stream.specs.Faults.{error_of};
ghost use Rattle.deku_reader.specs.ReaderCalls.{ReadsAt, TakesBits, Ending, Skips, ReadsBytes};
ghost use Rattle.deku_reader.specs.ReaderCalls.{ReadsWord, FetchesFor, FetchesAhead, NoneEarly};
ghost use Rattle.deku_reader.specs.ReaderCalls.{NeedsNone, NamesRest, filling, window_of};
ghost use Rattle.deku_stream.specs.Standings.{Going, Stopped, Untouched, count_of};

mod bits;
mod bytes;
mod fetching;
mod skips;
mod tally;
mod words;

use crate::reader::progress::bits::bits_into;
use crate::reader::progress::bytes::{bytes_into, bytes_onto};
use crate::reader::progress::skips::{drop_bits, pass_bytes, pop_bits};
use crate::reader::progress::tally::Tally;
use crate::reader::progress::words::{short_word_from, try_read_number, word_from};
use deku_device::device::Source;
use deku_stream::ctx::Order;
use deku_stream::error::{DekuError, Fault, NeedSize};
use deku_stream::window::Window;
use std::io;
use std::io::ErrorKind;
use std::marker::Model;

/// The unread bits of a byte, the error that stopped the reader, if any, and how many bits were
/// read.
#[derive(Drop)]
pub struct ReaderState {
    window: Window,
    tally: Tally,
}

impl Model for ReaderState {
    ghost use Rattle.std.specs.Prelude.{◌≤◌, Bool, List, length};
    ghost use Rattle.deku_stream.specs.Standings.{Standing};
    ghost use Rattle.deku_stream.specs.Kept.{standing_of};

    ghost Value = { Standing (List Bool) };

    ghost view = { λ p. standing_of p.window p.tally.fault p.tally.count };

    ghost invariant = { λ p. length p.window ≤ 8 };
}

impl ReaderState {
    /// Nothing is read.
    pub fn start() -> ReaderState
        ensures { result ≡ Going [] 0 }
    {
        ReaderState::going(0)
    }

    /// This many bits are read, and no bits of a byte are unread.
    pub fn going(bits_read: usize) -> ReaderState
        ensures { result ≡ Going [] bits_read }
    {
        ReaderState {
            window: Window::empty(),
            tally: Tally::going(bits_read),
        }
    }

    /// This many bits are read, and this error is kept.
    pub fn stopped(fault: Fault, bits_read: usize) -> ReaderState
        ensures { result ≡ Stopped [] (error_of fault) bits_read }
    {
        ReaderState {
            window: Window::empty(),
            tally: Tally::stopped(fault, bits_read),
        }
    }

    /// How many bits were read.
    pub fn bits_read(&self) -> usize
        ensures { result ≡ count_of self.now }
    {
        self.tally.count()
    }

    /// How many bits of a byte are unread; 0 if the reader has stopped.
    pub fn unread_len(&self) -> usize
        ensures value { result ≡ length (window_of self.now) }
        ensures bound { result ≤ 8 }
    {
        match self.tally.fault() {
            None => self.window.len(),
            Some(_) => 0,
        }
    }

    /// Eight bits, of which the last are the unread ones.
    pub fn unread_in_eight(&self) -> [bool; 8]
        ensures { drop (8 - length (window_of self.now)) result ≡ window_of self.now }
    {
        match self.tally.fault() {
            None => self.window.in_eight(),
            Some(_) => [false; 8],
        }
    }

    /// Fails as a reader does before it moves anything: with its kept error, or because the count
    /// would not fit.
    #[inline(always)]
    pub fn admits(&self, amt: usize) -> Result<(), DekuError>
        ensures { Admits amt self.now result }
    {
        self.tally.admits(amt)
    }

    /// Fails as a read of `amt` bytes does before it moves anything.
    #[inline(always)]
    pub fn admits_bytes(&self, amt: usize) -> Result<(), DekuError>
        ensures answer { Admits (8 * amt) self.now result }
        ensures fits { OnOk result (8 * amt < 2 ^ 64) }
    {
        self.admits(0)?;
        if amt > usize::MAX / 8 {
            return Err(DekuError::InvalidParam("count past usize"));
        }
        self.admits(8 * amt)
    }

    /// Takes bits in this order, one after the other, and stops if that fails.
    pub fn take_bits<R: Source>(
        &mut self,
        source: &mut R,
        dst: &mut [bool],
        order: Order,
    ) -> Result<(), DekuError>
        ensures takes { ReadsAt (TakesBits order (length dst.old)) (R.known source.old) self.old
            (filling result dst.new) (R.known source.new) self.new }
        ensures fetched { OnOk result (FetchesFor (length dst.old) self.old (R.known source.old)
            (R.known source.new)) }
        ensures early { NoneEarly self.old self.new }
        ensures still { NeedsNone (length dst.old) self.old → source.new ≡ source.old }
        ensures stopped { Untouched self.old source.old source.new }
    {
        self.admits(dst.len())?;
        match bits_into(source, &mut self.window, dst, order) {
            Ok(()) => {
                self.tally.add(dst.len());
                Ok(())
            }
            Err(error) => {
                let fault = fault_of(&error, dst.len());
                *self = ReaderState::stopped(fault, self.tally.count());
                Err(fault.error())
            }
        }
    }

    /// Takes at most 128 bits in this order, as their word, and stops if that fails.
    #[inline(always)]
    pub fn take_word<R: Source>(
        &mut self,
        source: &mut R,
        amt: usize,
        order: Order,
    ) -> Result<u128, DekuError>
        requires { amt ≤ 128 }
        ensures reads { ReadsAt (ReadsWord order amt) (R.known source.old) self.old result
            (R.known source.new) self.new }
        ensures fetched { OnOk result (FetchesFor amt self.old (R.known source.old)
            (R.known source.new)) }
        ensures early { NoneEarly self.old self.new }
        ensures still { NeedsNone amt self.old → source.new ≡ source.old }
        ensures stopped { Untouched self.old source.old source.new }
    {
        self.admits(amt)?;
        match word_from(source, &mut self.window, amt, order) {
            Ok(word) => {
                self.tally.add(amt);
                Ok(word)
            }
            Err(kind) => {
                let fault = fault_of_kind(kind, amt);
                *self = ReaderState::stopped(fault, self.tally.count());
                Err(fault.error())
            }
        }
    }

    /// Takes at most 64 bits as `take_word` does.
    #[inline(always)]
    pub fn take_short_word<R: Source>(
        &mut self,
        source: &mut R,
        amt: usize,
        order: Order,
    ) -> Result<u128, DekuError>
        requires { amt ≤ 64 }
        ensures reads { ReadsAt (ReadsWord order amt) (R.known source.old) self.old result
            (R.known source.new) self.new }
        ensures fetched { OnOk result (FetchesFor amt self.old (R.known source.old)
            (R.known source.new)) }
        ensures early { NoneEarly self.old self.new }
        ensures still { NeedsNone amt self.old → source.new ≡ source.old }
        ensures stopped { Untouched self.old source.old source.new }
    {
        self.admits(amt)?;
        match short_word_from(source, &mut self.window, amt, order) {
            Ok(word) => {
                self.tally.add(amt);
                Ok(word)
            }
            Err(kind) => {
                let fault = fault_of_kind(kind, amt);
                *self = ReaderState::stopped(fault, self.tally.count());
                Err(fault.error())
            }
        }
    }

    /// Takes at most 64 bits in this order, as their number. This needs that nothing rejects the
    /// read and that the bits are unread or in memory. Otherwise it returns `None`, and nothing
    /// moves.
    #[inline(always)]
    pub fn try_read_number<R: Source>(
        &mut self,
        source: &mut R,
        amt: usize,
        order: Order,
    ) -> Option<u64>
        requires { amt ≤ 64 }
        ensures takes { IfSome result (λ number. ReadsAt (TakesBits order amt) (R.known source.old)
            self.old (Ok (facing order (bits_of amt number))) (R.known source.new) self.new) }
        ensures below { IfSome result (λ number. number < 2 ^ amt) }
        ensures held { IfSome result (λ number. length (window_of self.old) ≤ 8) }
        ensures fetched { IfSome result (λ number. FetchesFor amt self.old (R.known source.old)
            (R.known source.new)) }
        ensures early { NoneEarly self.old self.new }
        ensures still { NeedsNone amt self.old → source.new ≡ source.old }
        ensures stays { IsNone result → (self.new ≡ self.old) × (source.new ≡ source.old) }
        ensures stopped { Untouched self.old source.old source.new }
    {
        let Ok(()) = self.admits(amt) else {
            return None;
        };
        let number = try_read_number(source, &mut self.window, amt, order)?;
        self.tally.add(amt);
        Some(number)
    }

    /// Takes bytes in this order, one after the other, and stops if that fails.
    #[inline(always)]
    pub fn take_bytes<R: Source>(
        &mut self,
        source: &mut R,
        dst: &mut [u8],
        order: Order,
    ) -> Result<(), DekuError>
        ensures reads { ReadsAt (ReadsBytes order (length dst.old)) (R.known source.old) self.old
            (filling result dst.new) (R.known source.new) self.new }
        ensures fetched { OnOk result (FetchesFor (8 * length dst.old) self.old (R.known source.old)
            (R.known source.new)) }
        ensures early { NoneEarly self.old self.new }
        ensures still { NeedsNone (8 * length dst.old) self.old → source.new ≡ source.old }
        ensures stopped { Untouched self.old source.old source.new }
    {
        self.admits_bytes(dst.len())?;
        let bits = 8 * dst.len();
        match bytes_into(source, &mut self.window, dst, order) {
            Ok(()) => {
                self.tally.add(bits);
                Ok(())
            }
            Err(kind) => {
                let fault = fault_of_kind(kind, bits);
                *self = ReaderState::stopped(fault, self.tally.count());
                Err(fault.error())
            }
        }
    }

    /// Puts `amt` bytes, in this order, into an empty vector that has room for them, and stops if
    /// that fails.
    #[inline(always)]
    pub fn take_bytes_onto<R: Source>(
        &mut self,
        source: &mut R,
        bytes: &mut Vec<u8>,
        amt: usize,
        order: Order,
    ) -> Result<(), DekuError>
        requires empty { vec_len bytes.old ≡ 0 }
        requires room { amt ≤ vec_capacity bytes.old }
        ensures reads { ReadsAt (ReadsBytes order amt) (R.known source.old) self.old
            (filling result bytes.new.items) (R.known source.new) self.new }
        ensures fetched { OnOk result (FetchesFor (8 * amt) self.old (R.known source.old)
            (R.known source.new)) }
        ensures early { NoneEarly self.old self.new }
        ensures still { NeedsNone (8 * amt) self.old → source.new ≡ source.old }
        ensures stopped { Untouched self.old source.old source.new }
    {
        self.admits_bytes(amt)?;
        match bytes_onto(source, &mut self.window, bytes, amt, order) {
            Ok(()) => {
                self.tally.add(8 * amt);
                Ok(())
            }
            Err(kind) => {
                let fault = fault_of_kind(kind, 8 * amt);
                *self = ReaderState::stopped(fault, self.tally.count());
                Err(fault.error())
            }
        }
    }

    /// Whether the end of the input is reached. If no bit is unread, it fetches a byte and does not
    /// count it.
    pub fn end<R: Source>(&mut self, source: &mut R) -> Result<bool, DekuError>
        ensures reads { ReadsAt Ending (R.known source.old) self.old result (R.known source.new)
            self.new }
        ensures fetched { OnOk result (FetchesAhead self.old self.new (R.known source.old)
            (R.known source.new)) }
        ensures held { OnOk result (length (window_of self.new) ≤ 8) }
        ensures unread { 0 < length (window_of self.old) → (result ≡ Ok false)
            × (self.new ≡ self.old) × (source.new ≡ source.old) }
        ensures stopped { Untouched self.old source.old source.new }
    {
        if let Some(kept) = self.tally.fault() {
            return Err(kept.error());
        }
        if self.window.len() > 0 {
            return Ok(false);
        }
        match fetch_byte(source) {
            Ok(byte) => {
                self.window = Window::of_byte(byte);
                Ok(false)
            }
            Err(error) => match fault_of(&error, 8) {
                Fault::Incomplete(_) => Ok(true),
                fault => {
                    *self = ReaderState::stopped(fault, self.tally.count());
                    Err(fault.error())
                }
            },
        }
    }

    /// Skips bits: those of the window in this order, then whole bytes, then fewer than eight bits
    /// in this order.
    pub fn skip_bits<R: Source>(
        &mut self,
        source: &mut R,
        amt: usize,
        order: Order,
    ) -> Result<(), DekuError>
        ensures skips { ReadsAt (Skips order amt) (R.known source.old) self.old result
            (R.known source.new) self.new }
        ensures early { NoneEarly self.old self.new }
        ensures still { NeedsNone amt self.old → source.new ≡ source.old }
        ensures named { NamesRest amt self.old result }
        ensures stopped { Untouched self.old source.old source.new }
    {
        self.admits(amt)?;
        let inside = amt.min(self.window.len());
        let behind = amt - inside;
        pop_bits(&mut self.window, inside, order);
        if let Err(error) = pass_bytes(source, behind / 8) {
            let fault = Fault::Io(error.kind());
            *self = ReaderState::stopped(fault, self.tally.count());
            return Err(fault.error());
        }
        match drop_bits(source, &mut self.window, behind % 8, order) {
            Ok(()) => {
                self.tally.add(amt);
                Ok(())
            }
            Err(error) => {
                let missing = fault_of(&error, behind % 8);
                *self = ReaderState::stopped(missing, self.tally.count());
                Err(missing.error())
            }
        }
    }
}

// Fetches one byte.
fn fetch_byte<R: Source>(source: &mut R) -> io::Result<u8>
    ensures bytes { IfOk result (λ b. Consumes (R.known source.old).remaining
        (R.known source.new).remaining (b ∷ [])) }
    ensures short { IfErr result (λ e. error_kind e ≡ ErrorKind.UnexpectedEof
        → FewerThan 1 (R.known source.old).remaining) }
    ensures ended { IfErr result (λ e. error_kind e ≡ ErrorKind.UnexpectedEof
        → StaysEmpty (R.known source.old).remaining (R.known source.new).remaining) }
    ensures failed { IfErr result (λ e. error_kind e ≢ ErrorKind.UnexpectedEof
        → DeviceFailed (R.known source.old).health (R.known source.new).health) }
    ensures kept { DeviceKept (R.known source.old).health (R.known source.new).health }
{
    let mut buf = [0u8; 1];
    source.fetch(&mut buf)?;
    Ok(buf[0])
}

// The error that stops a reader that wanted this many bits: the end of the input, or the kind of
// the failure.
fn fault_of(error: &io::Error, bits: usize) -> Fault
    ensures { ((error_kind error.now ≡ ErrorKind.UnexpectedEof)
        × (result ≡ Fault.Incomplete (record { bits = bits })))
        ⊎ ((error_kind error.now ≢ ErrorKind.UnexpectedEof)
        × (result ≡ Fault.Io (error_kind error.now))) }
{
    fault_of_kind(error.kind(), bits)
}

// The same, from the kind of the failure.
fn fault_of_kind(kind: ErrorKind, bits: usize) -> Fault
    ensures { ((kind ≡ ErrorKind.UnexpectedEof)
        × (result ≡ Fault.Incomplete (record { bits = bits })))
        ⊎ ((kind ≢ ErrorKind.UnexpectedEof) × (result ≡ Fault.Io kind)) }
{
    if kind == ErrorKind::UnexpectedEof {
        Fault::Incomplete(NeedSize::new(bits))
    } else {
        Fault::Io(kind)
    }
}
