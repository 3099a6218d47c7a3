//! A source that gives one byte at a time.

#![tactic(auto, using(deku_device::proofs::Wholes::onward_same, deku_device::proofs::Wholes::read_onward, deku_device::proofs::Wholes::nowhere))]

ghost use Rattle.std.specs.Prelude.{◌≡◌, ◌≢◌, ◌<◌, ◌≤◌, ◌^◌, ◌∷◌};
ghost use Rattle.std.specs.Prelude.{[], length, Some, OnOk, OnErr, IfOk, IfErr, IsOk};
ghost use Rattle.std.specs.Io.{ReadsAtMost};
ghost use Rattle.std.specs.Io.Cursor.{cursor_position, cursor_inner, IsSeekResult, IsSeekFromEnd};
ghost use Rattle.std.specs.Io.KnownBytes.{Consumes, Keeps, ReadConsumes};
ghost use Rattle.std.specs.Io.Seek.{SeekMoves};
ghost use Rattle.std.specs.IoError.{error_kind};
ghost use Rattle.deku_device.specs.Cursors.{cursor_known};
ghost use Rattle.deku_probe.specs.Probes.{trickling};
ghost use Rattle.deku_device.specs.Seeking.{place_on, Seeks, RefusedSeek, ComesFrom};
ghost use Rattle.deku_device.specs.Devices.{DeviceKept, DeviceFailed, FewerThan, Passes};
ghost use Rattle.deku_device.specs.Devices.{StaysEmpty};

use deku_device::device::Source;
use std::io;
use std::io::{Cursor, ErrorKind, Read, Seek, SeekFrom};

/// A source over bytes in memory that gives one byte at a time. Its bytes are known, and it does
/// not fail.
///
/// ```text
/// let mut reader = Reader::new(alloc, Trickle::new(bytes)); // 01 02
/// reader.read_bits(16, Order::Msb0)?;                       // the bits of 01 02
/// ```
#[derive(Drop)]
pub struct Trickle<'a> {
    inner: Cursor<&'a [u8]>,
}

impl<'a> Trickle<'a> {
    /// Makes a source that begins at the first byte.
    ///
    /// ```text
    /// let mut reader = Reader::new(alloc, Trickle::new(bytes));  // each read gives one byte
    /// ```
    pub fn new(bytes: &'a [u8]) -> Trickle<'a>
        ensures bytes { cursor_inner result.inner ≡ bytes.entry }
        ensures place { cursor_position result.inner ≡ 0 }
    {
        Trickle {
            inner: Cursor::new(bytes),
        }
    }
}

impl<'a> Read for Trickle<'a> {
    ghost remaining = { λ s. (trickling s).remaining };

    fn read(&mut self, buf: &mut [u8]) -> io::Result<usize>
        ensures bound { ReadsAtMost result buf.new }
        ensures bytes { ReadConsumes (trickling self.old).remaining (trickling self.new).remaining
            result buf.new }
        ensures one { IfOk result (λ n. n ≤ 1) }
        ensures ok { IsOk result }
    {
        let most = buf.len().min(1);
        self.inner.read(&mut buf[..most])
    }
}

impl<'a> Seek for Trickle<'a> {
    ghost stream_position = { λ s. Some (cursor_position s.inner) };

    ghost stream_bytes = { λ s. Some (cursor_inner s.inner).now };

    fn seek(&mut self, to: SeekFrom) -> io::Result<u64>
        ensures moves { SeekMoves (Some (cursor_position self.old.inner))
            (Some (cursor_position self.new.inner)) (Some (cursor_inner self.old.inner).now) to
            result }
        ensures bytes { Keeps (Some (cursor_inner self.old.inner).now)
            (Some (cursor_inner self.new.inner).now) }
        ensures target { IsSeekResult to (cursor_position self.old.inner) result }
        ensures from_end { IsSeekFromEnd to (length (cursor_inner self.old.inner).now) result }
        ensures inner { cursor_inner self.new.inner ≡ cursor_inner self.old.inner }
    {
        self.inner.seek(to)
    }
}

// Fetches one byte of the cursor.
fn trickled_byte(source: &mut Trickle<'_>) -> io::Result<u8>
    ensures bytes { IfOk result (λ b. Consumes (trickling source.old).remaining
        (trickling source.new).remaining (b ∷ [])) }
    ensures err { IfErr result (λ e. (error_kind e ≡ ErrorKind.UnexpectedEof)
        × FewerThan 1 (trickling source.old).remaining
        × StaysEmpty (trickling source.old).remaining (trickling source.new).remaining) }
    ensures kept { DeviceKept (trickling source.old).health (trickling source.new).health }
    ensures inner { cursor_inner source.new.inner ≡ cursor_inner source.old.inner }
{
    let mut byte = [0];
    source.inner.fetch(&mut byte)?;
    Ok(byte[0])
}

impl<'a> Source for Trickle<'a> {
    ghost known = { λ s. trickling s };

    ghost known_by_place = { λ s at all. cursor_known (λ b. Some b.now) s.inner at all };

    fn fetch(&mut self, buf: &mut [u8]) -> io::Result<()>
        ensures bytes { OnOk result (Consumes (trickling self.old).remaining
            (trickling self.new).remaining buf.new) }
        ensures short { IfErr result (λ e. error_kind e ≡ ErrorKind.UnexpectedEof
            → FewerThan (length buf.old) (trickling self.old).remaining) }
        ensures ended { IfErr result (λ e. error_kind e ≡ ErrorKind.UnexpectedEof
            → StaysEmpty (trickling self.old).remaining (trickling self.new).remaining) }
        ensures failed { IfErr result (λ e. error_kind e ≢ ErrorKind.UnexpectedEof
            → DeviceFailed (trickling self.old).health (trickling self.new).health) }
        ensures kept { DeviceKept (trickling self.old).health (trickling self.new).health }
        // If it fails, each byte was given.
        ensures spent { OnErr result ((trickling self.new).remaining ≡ Some []) }
    {
        for place in buf.iter_mut() {
            *place = trickled_byte(self)?;
        }
        Ok(())
    }

    fn pass(&mut self, n: u64) -> io::Result<()>
        requires { n < 2 ^ 63 }
        ensures bytes { OnOk result (Passes n (trickling self.old).remaining
            (trickling self.new).remaining) }
        ensures failed { IfErr result (λ e. DeviceFailed (trickling self.old).health
            (trickling self.new).health) }
        ensures kept { DeviceKept (trickling self.old).health (trickling self.new).health }
        ensures ok { IsOk result }
        // It may skip past the end, as a seek does.
        ensures place { cursor_position self.new.inner ≡ place_on (cursor_position self.old.inner)
            n }
        ensures inner { cursor_inner self.new.inner ≡ cursor_inner self.old.inner }
    {
        self.inner.pass(n)
    }

    fn seek_to(&mut self, to: SeekFrom) -> io::Result<u64>
        ensures moves { SeekMoves (Some (cursor_position self.old.inner))
            (Some (cursor_position self.new.inner)) (Some (cursor_inner self.old.inner).now) to
            result }
        ensures all { Keeps (Some (cursor_inner self.old.inner).now)
            (Some (cursor_inner self.new.inner).now) }
        ensures sought { Seeks (trickling self.old).health (trickling self.new).health to result }
        ensures refused { RefusedSeek (trickling self.old).health (trickling self.new).health to
            result }
        ensures remaining { ComesFrom (trickling self.old).health.whole result
            (trickling self.new) }
        ensures inner { cursor_inner self.new.inner ≡ cursor_inner self.old.inner }
    {
        self.seek(to)
    }
}
