//! Devices for tests of codecs: a source that gives one byte at a time, and a source and sink that
//! fails once.

#![tactic(auto, using(deku_device::proofs::Wholes::onward_same, deku_device::proofs::Wholes::read_onward, deku_device::proofs::Wholes::nowhere))]

ghost use Rattle.std.specs.Prelude.{◌≡◌, ◌≢◌, ◌<◌, ◌≤◌, ◌+◌, ◌-◌};
ghost use Rattle.std.specs.Prelude.{◌^◌, ◌↔◌, min, [], ◌∷◌, Some, None, length};
ghost use Rattle.std.specs.Prelude.{take, OnOk, OnErr, IfOk, IfErr, IfSome, IsOk};
ghost use Rattle.std.specs.Io.{ReadsAtMost, WritesAtMost};
ghost use Rattle.std.specs.Io.Cursor.{cursor_position, cursor_inner, cursor_remaining};
ghost use Rattle.std.specs.Io.Cursor.{IsSeekResult, IsSeekFromEnd};
ghost use Rattle.std.specs.Io.KnownBytes.{Appends, Consumes, Keeps, ReadConsumes, WriteAppends};
ghost use Rattle.std.specs.Io.Seek.{SeekMoves};
ghost use Rattle.std.specs.IoError.{error_kind};
ghost use Rattle.deku_device.specs.Cursors.{cursor_known};
ghost use Rattle.deku_probe.specs.Probes.{failing_source, failing_sink};
ghost use Rattle.deku_device.specs.Seeking.{place_on, Seeks, RefusedSeek, ComesFrom, StandsAt};
ghost use Rattle.deku_device.specs.Devices.{DeviceKept, DeviceFailed, FewerThan, Passes};
ghost use Rattle.deku_device.specs.Devices.{StaysEmpty, Gave, Declined};

mod trickle;

use deku_device::device::{Sink, Source};
use std::io;
use std::io::{AsBytes, Cursor, Error, ErrorKind, Read, Seek, SeekFrom, Write};
pub use trickle::Trickle;

/// A cursor that moves one byte at a time and fails once, with kind `Other`, at its nth read, write
/// or seek, counted from 1. That call moves nothing. Its bytes are known, and whether a call
/// failed.
///
/// ```text
/// let mut reader = Reader::new(alloc, FailAt::new(Cursor::new(bytes), 2)); // 01 02
/// reader.read_bits(16, Order::Msb0);                                       // Io(Other)
/// reader.bits_read();                                                      // 0
/// ```
#[derive(Drop)]
pub struct FailAt<B> {
    inner: Cursor<B>,
    // How many calls are left, including the one that fails; 0 after it.
    left: usize,
}

impl<B> FailAt<B> {
    /// It fails at the nth call, counted from 1. For 0 it never fails, and a call counts as failed,
    /// as after a failure.
    ///
    /// ```text
    /// let source = FailAt::new(Cursor::new(bytes), 2); // its second call fails with Other
    /// ```
    pub fn new(inner: Cursor<B>, n: usize) -> FailAt<B>
        ensures inner { result.inner ≡ inner }
        ensures left { result.left ≡ n }
    {
        FailAt { inner, left: n }
    }

    /// The cursor inside.
    ///
    /// ```text
    /// sink.into_inner().position()                               // how far it came
    /// ```
    pub fn into_inner(self) -> Cursor<B>
        ensures { result ≡ self.inner }
    {
        self.inner
    }

    // One more call, which may be the one that fails.
    fn call(&mut self) -> io::Result<()>
        ensures inner { self.new.inner ≡ self.old.inner }
        ensures left { self.new.left ≡ self.old.left - 1 }
        ensures ok { OnOk result (self.old.left ≢ 1) }
        ensures err { IfErr result (λ e. (self.old.left ≡ 1) × (error_kind e ≡ ErrorKind.Other)) }
    {
        if self.left == 0 {
            return Ok(());
        }
        self.left -= 1;
        if self.left == 0 {
            return Err(Error::from(ErrorKind::Other));
        }
        Ok(())
    }
}

impl<B: AsBytes> Read for FailAt<B> {
    ghost remaining = { λ s. cursor_remaining B.bytes s.inner };

    fn read(&mut self, buf: &mut [u8]) -> io::Result<usize>
        ensures bound { ReadsAtMost result buf.new }
        ensures bytes { ReadConsumes (cursor_remaining B.bytes self.old.inner)
            (cursor_remaining B.bytes self.new.inner) result buf.new }
        ensures one { IfOk result (λ n. n ≤ 1) }
        ensures counted { self.new.left ≡ self.old.left - 1 }
        ensures fails { OnOk result (self.old.left ≢ 1) }
        ensures failed { IfErr result (λ e. (self.old.left ≡ 1)
            × (error_kind e ≡ ErrorKind.Other)) }
        ensures still { OnErr result (self.new.inner ≡ self.old.inner) }
    {
        self.call()?;
        let most = buf.len().min(1);
        self.inner.read(&mut buf[..most])
    }
}

impl<B: AsBytes> Seek for FailAt<B> {
    ghost stream_position = { λ s. Some (cursor_position s.inner) };

    ghost stream_bytes = { λ s. B.bytes (cursor_inner s.inner) };

    fn seek(&mut self, to: SeekFrom) -> io::Result<u64>
        ensures moves { SeekMoves (Some (cursor_position self.old.inner))
            (Some (cursor_position self.new.inner)) (B.bytes (cursor_inner self.old.inner)) to
            result }
        ensures bytes { Keeps (B.bytes (cursor_inner self.old.inner))
            (B.bytes (cursor_inner self.new.inner)) }
        ensures counted { self.new.left ≡ self.old.left - 1 }
        ensures fails { OnOk result (self.old.left ≢ 1) }
        ensures failed { IfErr result (λ e. (error_kind e ≡ ErrorKind.Other)
            ↔ (self.old.left ≡ 1)) }
        ensures still { OnErr result (self.new.inner ≡ self.old.inner) }
        // Each other call returns what the cursor does.
        ensures target { self.old.left ≢ 1 → IsSeekResult to (cursor_position self.old.inner)
            result }
        ensures from_end { self.old.left ≢ 1 → IfSome (B.bytes (cursor_inner self.old.inner))
            (λ xs. IsSeekFromEnd to (length xs) result) }
        ensures inner { cursor_inner self.new.inner ≡ cursor_inner self.old.inner }
    {
        self.call()?;
        self.inner.seek(to)
    }
}

// Fetches one byte, by one call.
fn fetch_byte<B: AsBytes>(source: &mut FailAt<B>) -> io::Result<u8>
    ensures bytes { IfOk result (λ b. Consumes (failing_source B.bytes source.old).remaining
        (failing_source B.bytes source.new).remaining (b ∷ [])) }
    ensures short { IfErr result (λ e. error_kind e ≡ ErrorKind.UnexpectedEof
        → FewerThan 1 (failing_source B.bytes source.old).remaining) }
    ensures ended { IfErr result (λ e. error_kind e ≡ ErrorKind.UnexpectedEof
        → StaysEmpty (failing_source B.bytes source.old).remaining
        (failing_source B.bytes source.new).remaining) }
    ensures failed { IfErr result (λ e. error_kind e ≢ ErrorKind.UnexpectedEof
        → DeviceFailed (failing_source B.bytes source.old).health
        (failing_source B.bytes source.new).health) }
    ensures kept { DeviceKept (failing_source B.bytes source.old).health
        (failing_source B.bytes source.new).health }
    ensures counted { source.new.left ≡ source.old.left - 1 }
    ensures fails { OnOk result (source.old.left ≢ 1) }
    ensures kind { IfErr result (λ e. source.old.left ≡ 1 → error_kind e ≡ ErrorKind.Other) }
    ensures still { OnErr result (source.new.inner ≡ source.old.inner) }
    ensures which { IfErr result (λ e. error_kind e ≡ ErrorKind.Other → source.old.left ≡ 1) }
    ensures place { OnOk result (cursor_position source.new.inner ≡ cursor_position source.old.inner
        + 1) }
    ensures inner { cursor_inner source.new.inner ≡ cursor_inner source.old.inner }
{
    source.call()?;
    let mut byte = [0];
    source.inner.fetch(&mut byte)?;
    Ok(byte[0])
}

impl<B: AsBytes> Source for FailAt<B> {
    ghost known = { λ s. failing_source B.bytes s };

    ghost known_by_place = { λ s at all. cursor_known B.bytes s.inner at all };

    fn fetch(&mut self, buf: &mut [u8]) -> io::Result<()>
        ensures bytes { OnOk result (Consumes (failing_source B.bytes self.old).remaining
            (failing_source B.bytes self.new).remaining buf.new) }
        ensures short { IfErr result (λ e. error_kind e ≡ ErrorKind.UnexpectedEof
            → FewerThan (length buf.old) (failing_source B.bytes self.old).remaining) }
        ensures ended { IfErr result (λ e. error_kind e ≡ ErrorKind.UnexpectedEof
            → StaysEmpty (failing_source B.bytes self.old).remaining
            (failing_source B.bytes self.new).remaining) }
        ensures failed { IfErr result (λ e. error_kind e ≢ ErrorKind.UnexpectedEof
            → DeviceFailed (failing_source B.bytes self.old).health
            (failing_source B.bytes self.new).health) }
        ensures kept { DeviceKept (failing_source B.bytes self.old).health
            (failing_source B.bytes self.new).health }
        // One call for each byte. The calls before the one that fails move a byte each, and that
        // one moves none.
        ensures counted { OnOk result (self.new.left ≡ self.old.left - length buf.new) }
        ensures fails { OnOk result (0 < self.old.left → length buf.new < self.old.left) }
        ensures kind { IfErr result (λ e. error_kind e ≢ ErrorKind.UnexpectedEof
            → error_kind e ≡ ErrorKind.Other) }
        ensures still { IfErr result (λ e. error_kind e ≡ ErrorKind.Other
            → Passes (self.old.left - 1) (failing_source B.bytes self.old).remaining
            (failing_source B.bytes self.new).remaining) }
        // Its place is after the bytes that were fetched: up to the call that fails, or all if the
        // input ends.
        ensures place { OnOk result (cursor_position self.new.inner ≡ cursor_position self.old.inner
            + length buf.new) }
        ensures failed_place { IfErr result (λ e. error_kind e ≡ ErrorKind.Other
            → cursor_position self.new.inner ≡ cursor_position self.old.inner +
            (self.old.left - 1)) }
        ensures end_place { IfErr result (λ e. error_kind e ≡ ErrorKind.UnexpectedEof
            → IfSome (B.bytes (cursor_inner self.old.inner))
            (λ all. cursor_position self.new.inner ≡ cursor_position self.old.inner +
            (length all - cursor_position self.old.inner))) }
        ensures inner { cursor_inner self.new.inner ≡ cursor_inner self.old.inner }
        // If the input ends, the call that fails is still to come.
        ensures waits { IfErr result (λ e. error_kind e ≡ ErrorKind.UnexpectedEof
            → 0 < self.old.left → (0 < self.new.left) × (self.new.left < self.old.left)) }
    {
        for place in buf.iter_mut() {
            *place = fetch_byte(self)?;
        }
        Ok(())
    }

    fn pass(&mut self, n: u64) -> io::Result<()>
        requires { n < 2 ^ 63 }
        ensures bytes { OnOk result (Passes n (failing_source B.bytes self.old).remaining
            (failing_source B.bytes self.new).remaining) }
        ensures failed { IfErr result (λ e. DeviceFailed (failing_source B.bytes self.old).health
            (failing_source B.bytes self.new).health) }
        ensures kept { DeviceKept (failing_source B.bytes self.old).health
            (failing_source B.bytes self.new).health }
        ensures counted { self.new.left ≡ self.old.left - 1 }
        ensures fails { OnOk result (self.old.left ≢ 1) }
        ensures kind { IfErr result (λ e. error_kind e ≡ ErrorKind.Other) }
        ensures still { OnErr result (self.new.inner ≡ self.old.inner) }
        // It may skip past the end, as a seek does.
        ensures place { OnOk result (cursor_position self.new.inner ≡ place_on
            (cursor_position self.old.inner) n) }
        ensures inner { cursor_inner self.new.inner ≡ cursor_inner self.old.inner }
    {
        self.call()?;
        self.inner.pass(n)
    }

    fn seek_to(&mut self, to: SeekFrom) -> io::Result<u64>
        ensures moves { SeekMoves (Some (cursor_position self.old.inner))
            (Some (cursor_position self.new.inner)) (B.bytes (cursor_inner self.old.inner)) to
            result }
        ensures all { Keeps (B.bytes (cursor_inner self.old.inner))
            (B.bytes (cursor_inner self.new.inner)) }
        ensures sought { Seeks (failing_source B.bytes self.old).health
            (failing_source B.bytes self.new).health to result }
        ensures refused { RefusedSeek (failing_source B.bytes self.old).health
            (failing_source B.bytes self.new).health to result }
        ensures remaining { ComesFrom (failing_source B.bytes self.old).health.whole result
            (failing_source B.bytes self.new) }
        ensures counted { self.new.left ≡ self.old.left - 1 }
        ensures still { OnErr result (self.new.inner ≡ self.old.inner) }
        ensures inner { cursor_inner self.new.inner ≡ cursor_inner self.old.inner }
    {
        self.seek(to)
    }
}

impl Write for FailAt<&mut [u8]> {
    fn write(&mut self, buf: &[u8]) -> io::Result<usize>
        ensures bound { WritesAtMost result buf.now }
        ensures bytes { WriteAppends None None result buf.now }
        ensures one { IfOk result (λ n. n ≡ min (min (length buf.now) 1)
            (length (cursor_inner self.old.inner).now - cursor_position self.old.inner)) }
        ensures counted { self.new.left ≡ self.old.left - 1 }
        ensures fails { OnOk result (self.old.left ≢ 1) }
        ensures failed { IfErr result (λ e. (self.old.left ≡ 1)
            × (error_kind e ≡ ErrorKind.Other)) }
        ensures still { OnErr result (self.new.inner ≡ self.old.inner) }
    {
        self.call()?;
        let most = buf.len().min(1);
        self.inner.write(&buf[..most])
    }

    fn flush(&mut self) -> io::Result<()>
        ensures bytes { Keeps None None }
        ensures ok { IsOk result }
        ensures stays { self.new ≡ self.old }
    {
        Ok(())
    }
}

// Gives one byte, by one call.
fn give_byte(sink: &mut FailAt<&mut [u8]>, byte: u8) -> io::Result<()>
    ensures ok { OnOk result (Gave (failing_sink sink.old) (failing_sink sink.new) (byte ∷ [])) }
    ensures err { IfErr result (λ e. Declined (failing_sink sink.old) (failing_sink sink.new)
        (byte ∷ []) (error_kind e)) }
    ensures counted { sink.new.left ≡ sink.old.left - 1 }
    ensures fails { OnOk result (sink.old.left ≢ 1) }
    ensures kind { IfErr result (λ e. sink.old.left ≡ 1 → error_kind e ≡ ErrorKind.Other) }
    ensures still { sink.old.left ≡ 1 → sink.new.inner ≡ sink.old.inner }
    ensures which { IfErr result (λ e. error_kind e ≡ ErrorKind.Other → sink.old.left ≡ 1) }
    ensures place { OnOk result (cursor_position sink.new.inner ≡ cursor_position sink.old.inner +
        1) }
    ensures stays { OnErr result (cursor_position sink.new.inner ≡ cursor_position sink.old.inner) }
    ensures holds { OnErr result ((cursor_inner sink.new.inner).now ≡
        (cursor_inner sink.old.inner).now) }
{
    sink.call()?;
    sink.inner.give(&[byte])
}

impl Sink for FailAt<&mut [u8]> {
    ghost known = { λ s. failing_sink s };

    fn give(&mut self, bytes: &[u8]) -> io::Result<()>
        ensures ok { OnOk result (Gave (failing_sink self.old) (failing_sink self.new) bytes.now) }
        ensures err { IfErr result (λ e. Declined (failing_sink self.old) (failing_sink self.new)
            bytes.now (error_kind e)) }
        // One call for each byte. The calls before the one that fails give a byte each, and that
        // one gives none.
        ensures counted { OnOk result (self.new.left ≡ self.old.left - length bytes.now) }
        ensures fails { OnOk result (0 < self.old.left → length bytes.now < self.old.left) }
        ensures kind { IfErr result (λ e. error_kind e ≢ ErrorKind.WriteZero
            → error_kind e ≡ ErrorKind.Other) }
        ensures still { IfErr result (λ e. error_kind e ≡ ErrorKind.Other
            → Appends (failing_sink self.old).taken (failing_sink self.new).taken
            (take (self.old.left - 1) bytes.now)) }
        // Its place is after the bytes that were given: up to the call that fails, or as many as
        // fit if there is not enough room.
        ensures place { OnOk result (cursor_position self.new.inner ≡ cursor_position self.old.inner
            + length bytes.now) }
        ensures failed_place { IfErr result (λ e. error_kind e ≡ ErrorKind.Other
            → cursor_position self.new.inner ≡ cursor_position self.old.inner +
            (self.old.left - 1)) }
        ensures full_place { IfErr result (λ e. error_kind e ≡ ErrorKind.WriteZero
            → cursor_position self.new.inner ≡ cursor_position self.old.inner +
            (length (cursor_inner self.old.inner).now - cursor_position self.old.inner)) }
        ensures full { IfErr result (λ e. error_kind e ≡ ErrorKind.WriteZero
            → Appends (failing_sink self.old).taken (failing_sink self.new).taken
            (take (length (cursor_inner self.old.inner).now - cursor_position self.old.inner)
            bytes.now)) }
        // If there is not enough room, the call that fails is still to come.
        ensures waits { IfErr result (λ e. error_kind e ≡ ErrorKind.WriteZero → 0 < self.old.left
            → (0 < self.new.left) × (self.new.left < self.old.left)) }
    {
        for byte in bytes {
            give_byte(self, *byte)?;
        }
        Ok(())
    }

    fn seek_to(&mut self, to: SeekFrom) -> io::Result<u64>
        ensures moves { SeekMoves (Some (cursor_position self.old.inner))
            (Some (cursor_position self.new.inner)) (Some (cursor_inner self.old.inner).now) to
            result }
        ensures all { Keeps (Some (cursor_inner self.old.inner).now)
            (Some (cursor_inner self.new.inner).now) }
        ensures sought { Seeks (failing_sink self.old).health (failing_sink self.new).health to
            result }
        ensures refused { RefusedSeek (failing_sink self.old).health (failing_sink self.new).health
            to result }
        ensures stands { StandsAt (failing_sink self.old).health.whole result
            (failing_sink self.new) }
        ensures counted { self.new.left ≡ self.old.left - 1 }
        ensures still { OnErr result (self.new.inner ≡ self.old.inner) }
        ensures inner { cursor_inner self.new.inner ≡ cursor_inner self.old.inner }
    {
        self.seek(to)
    }
}
