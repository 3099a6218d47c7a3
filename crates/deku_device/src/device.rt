//! What a reader takes its bytes from, and what a writer gives them to.

ghost use Rattle.std.specs.Prelude.{◌≡◌, ◌≢◌, ℕ, ◌^◌, ◌<◌, ◌≤◌};
ghost use Rattle.std.specs.Prelude.{◌+◌, ◌-◌, ◌∷◌, List, length, take, drop, Option};
ghost use Rattle.std.specs.Prelude.{Some, None, OnOk, IfErr, IfSome, IsNone, IsTrue, IsFalse};
ghost use Rattle.std.specs.Io.KnownBytes.{Consumes, Keeps};
ghost use Rattle.std.specs.IoError.{error_kind};
ghost use Rattle.std.specs.Vec.{vec_len, vec_capacity};
ghost use Rattle.std.specs.Io.Seek.{SeekMoves};
ghost use Rattle.deku_device.specs.Devices.{KnownSource, KnownSink, DeviceKept, DeviceFailed};
ghost use Rattle.deku_device.specs.Devices.{FewerThan, Passes, StaysEmpty, BeginsThenZeros, Gave};
ghost use Rattle.deku_device.specs.Devices.{Declined};
ghost use Rattle.deku_device.specs.Seeking.{Seeks, RefusedSeek, ComesFrom, StandsAt};

mod buffered;
mod cursor;
mod file;
mod slice;
mod vector;

use std::io;
use std::io::{ErrorKind, Read, Seek, SeekFrom, Write};

/// A reader that can seek. Its next bytes and its count of failures may be known.
///
/// `fetch` is `read_exact` and `pass` is `seek(SeekFrom::Current(n))`, under laws: what is known
/// stays true, and a call fails only if a known count of failures rises, except at the end of the
/// input. `try_take` looks at eight bytes that are in memory and passes some of them. A source that
/// has no bytes in memory is read by `fetch` only.
pub trait Source: Read + Seek {
    // What is known: the bytes left, the count of failures, the references on the way.
    ghost known: { Self → KnownSource };

    /// Fills the buffer with the next bytes.
    ///
    /// It fails with `UnexpectedEof` only if fewer bytes are left, and otherwise only if the device
    /// fails. Then the content of the buffer, and how many bytes are left, are unspecified.
    ///
    /// ```text
    /// let mut buf = [0; 2];
    /// source.fetch(&mut buf)?;             // from 01 02 03: 01 02; the next byte is 03
    /// ```
    fn fetch(&mut self, buf: &mut [u8]) -> io::Result<()>
        ensures bytes { OnOk result (Consumes (known self.old).remaining (known self.new).remaining
            buf.new) }
        ensures short { IfErr result (λ e. error_kind e ≡ ErrorKind.UnexpectedEof
            → FewerThan (length buf.old) (known self.old).remaining) }
        ensures ended { IfErr result (λ e. error_kind e ≡ ErrorKind.UnexpectedEof
            → StaysEmpty (known self.old).remaining (known self.new).remaining) }
        ensures failed { IfErr result (λ e. error_kind e ≢ ErrorKind.UnexpectedEof
            → DeviceFailed (known self.old).health (known self.new).health) }
        ensures kept { DeviceKept (known self.old).health (known self.new).health };

    /// Skips the next `n` bytes, or all if fewer are left.
    ///
    /// The caller's condition: `n` is at most `i64::MAX`, since it is a seek.
    ///
    /// It fails only if the device fails.
    ///
    /// ```text
    /// source.pass(2)?;                     // from 01 02 03; the next byte is 03
    /// ```
    fn pass(&mut self, n: u64) -> io::Result<()>
        requires { n < 2 ^ 63 }
        ensures bytes { OnOk result (Passes n (known self.old).remaining
            (known self.new).remaining) }
        ensures failed { IfErr result (λ e. DeviceFailed (known self.old).health
            (known self.new).health) }
        ensures kept { DeviceKept (known self.old).health (known self.new).health };

    /// Returns the next eight bytes if they are in memory, and takes the first `n` of them.
    ///
    /// The caller's condition: `n` is at most 8.
    ///
    /// The bytes after the first `n` are not taken. If fewer than eight bytes are left, zeros
    /// follow the last of them. It returns `None` if fewer than `n` bytes are left, and may do so
    /// at any time, as the default body always does. Then nothing moves.
    ///
    /// ```text
    /// let mut source = Cursor::new(bytes); // 01 02 03 04 05 06 07 08 09
    /// source.try_take(2);                  // Some of 01 02 03 04 05 06 07 08; the next byte is 03
    /// source.try_take(5);                  // Some of 03 04 05 06 07 08 09 00; the next byte is 08
    /// source.try_take(3);                  // None: 08 and 09 are left
    /// ```
    fn try_take(&mut self, n: usize) -> Option<[u8; 8]>
        requires { n ≤ 8 }
        ensures bytes { IfSome result (λ eight. Consumes (known self.old).remaining
            (known self.new).remaining (take n eight)) }
        ensures ahead { IfSome result (λ eight. BeginsThenZeros (drop n eight)
            (known self.new).remaining) }
        ensures none { IsNone result → self.new ≡ self.old }
        ensures kept { DeviceKept (known self.old).health (known self.new).health }
    {
        let _passed = n;
        None
    }

    /// Appends the next `n` bytes to the vector.
    ///
    /// The caller's condition: the vector has capacity for them, so no memory is needed.
    ///
    /// It fails as `fetch` does for `n` bytes. Then the content of the vector is unspecified.
    ///
    /// ```text
    /// let mut bytes = Vec::with_capacity(alloc, 4)?;
    /// let mut source = Cursor::new(input);               // 01 02 03 04 05
    /// source.fetch_onto(&mut bytes, 3)?;                 // 01 02 03; the next byte is 04
    /// ```
    fn fetch_onto(&mut self, bytes: &mut Vec<u8>, n: usize) -> io::Result<()>
        requires { vec_len bytes.old + n ≤ vec_capacity bytes.old }
        ensures bytes { OnOk result (Consumes (known self.old).remaining (known self.new).remaining
            (drop (vec_len bytes.old) bytes.new.items)) }
        ensures held { OnOk result (take (vec_len bytes.old) bytes.new.items ≡ bytes.old.items) }
        ensures count { OnOk result (vec_len bytes.new ≡ vec_len bytes.old + n) }
        ensures short { IfErr result (λ e. error_kind e ≡ ErrorKind.UnexpectedEof
            → FewerThan n (known self.old).remaining) }
        ensures ended { IfErr result (λ e. error_kind e ≡ ErrorKind.UnexpectedEof
            → StaysEmpty (known self.old).remaining (known self.new).remaining) }
        ensures failed { IfErr result (λ e. error_kind e ≢ ErrorKind.UnexpectedEof
            → DeviceFailed (known self.old).health (known self.new).health) }
        ensures kept { DeviceKept (known self.old).health (known self.new).health }
    {
        let held = bytes.len();
        match bytes.resize(held + n, 0) {
            Ok(()) => self.fetch(&mut bytes[held..]),
            Err(_) => unreachable!(),
        }
    }

    /// Seeks, as `seek` does.
    ///
    /// If all bytes are known, it leads to its target, and fails only if there is none or the
    /// device fails. The bytes from the target on are then the next.
    ///
    /// ```text
    /// source.seek_to(SeekFrom::Start(2))?;      // from 01 02 03: 2; the next byte is 03
    /// ```
    fn seek_to(&mut self, to: SeekFrom) -> io::Result<u64>
        ensures moves { SeekMoves (Self.stream_position self.old) (Self.stream_position self.new)
            (Self.stream_bytes self.old) to result }
        ensures all { Keeps (Self.stream_bytes self.old) (Self.stream_bytes self.new) }
        ensures sought { Seeks (known self.old).health (known self.new).health to result }
        ensures refused { RefusedSeek (known self.old).health (known self.new).health to result }
        ensures remaining { ComesFrom (known self.old).health.whole result (known self.new) };

    // If all its bytes and its place among them are known, those from that place on are left.
    ghost known_by_place: { (s : Self) (at : ℕ) (all : List ℕ) → Self.stream_position s ≡ Some at
        → Self.stream_bytes s ≡ Some all → (known s).remaining ≡ Some (drop at all) };
}

/// A writer that can seek. The bytes that it took, its room and its count of failures may be known.
///
/// `give` is `write_all`, under laws: what is known stays true. A call fails only if a known count
/// of failures rises, if the known room is too small, or, if no room is known, if there is no
/// memory. `try_put` gives at most eight bytes in one step if there is room for eight in memory,
/// and never fails: a sink without such room, or without memory, stays as it is.
pub trait Sink: Write + Seek {
    // What is known: the bytes taken, those in the room that is left, the count of failures, the
    // references on the way.
    ghost known: { Self → KnownSink };

    /// Gives all the bytes.
    ///
    /// It fails with `WriteZero` if the known room is too small, with `OutOfMemory` if no room is
    /// known and there is no memory, and otherwise only if the device fails. Then it took a
    /// beginning of the bytes; how many is unspecified.
    ///
    /// ```text
    /// sink.give(&[1, 2])?;                // fails with WriteZero on a slice with one byte of room
    /// ```
    fn give(&mut self, bytes: &[u8]) -> io::Result<()>
        ensures ok { OnOk result (Gave (known self.old) (known self.new) bytes.now) }
        ensures err { IfErr result (λ e. Declined (known self.old) (known self.new) bytes.now
            (error_kind e)) };

    /// Gives the first `n` of eight bytes if there is room for eight in memory, and returns whether
    /// it did.
    ///
    /// The caller's condition: `n` is at most 8.
    ///
    /// The bytes after the first `n` change nothing. It may return `false` at any time, as the
    /// default body always does. Then nothing is given and nothing changes; `give` reports why.
    ///
    /// ```text
    /// let mut sink = Cursor::new(&mut room[..]);   // nine bytes of room
    /// sink.try_put([1, 2, 3, 4, 5, 6, 7, 8], 2)   // true: 1 and 2 are given, seven bytes are left
    /// sink.try_put([3, 4, 5, 6, 7, 8, 9, 10], 2)  // false: nothing is given
    /// ```
    fn try_put(&mut self, eight: [u8; 8], n: usize) -> bool
        requires { n ≤ 8 }
        ensures gave { IsTrue result → Gave (known self.old) (known self.new) (take n eight) }
        ensures stays { IsFalse result → self.new ≡ self.old }
    {
        let _unused = (eight, n);
        false
    }

    /// Seeks, as `seek` does.
    ///
    /// If all bytes are known, it leads to its target, and fails only if there is none or the
    /// device fails. The bytes before the target are then taken, and those from it on are the room.
    ///
    /// ```text
    /// sink.seek_to(SeekFrom::Start(0))?;        // 0; the next bytes overwrite the first
    /// ```
    fn seek_to(&mut self, to: SeekFrom) -> io::Result<u64>
        ensures moves { SeekMoves (Self.stream_position self.old) (Self.stream_position self.new)
            (Self.stream_bytes self.old) to result }
        ensures all { Keeps (Self.stream_bytes self.old) (Self.stream_bytes self.new) }
        ensures sought { Seeks (known self.old).health (known self.new).health to result }
        ensures refused { RefusedSeek (known self.old).health (known self.new).health to result }
        ensures stands { StandsAt (known self.old).health.whole result (known self.new) };
}

impl<S: Source> Source for &mut S {
    ghost known = { λ s. record {
      remaining = (S.known s.now).remaining;
      health = record {
        failures = (S.known s.now).health.failures;
        lenders = s.ghost_name ∷
            (S.known s.now).health.lenders;
        whole = (S.known s.now).health.whole;
      };
    } };

    ghost known_by_place = { λ s. S.known_by_place s.now };

    #[inline(always)]
    fn fetch(&mut self, buf: &mut [u8]) -> io::Result<()> {
        Source::fetch(&mut **self, buf)
    }

    fn pass(&mut self, n: u64) -> io::Result<()> {
        Source::pass(&mut **self, n)
    }

    #[inline(always)]
    fn try_take(&mut self, n: usize) -> Option<[u8; 8]> {
        Source::try_take(&mut **self, n)
    }

    #[inline(always)]
    fn fetch_onto(&mut self, bytes: &mut Vec<u8>, n: usize) -> io::Result<()> {
        Source::fetch_onto(&mut **self, bytes, n)
    }

    fn seek_to(&mut self, to: SeekFrom) -> io::Result<u64> {
        Source::seek_to(&mut **self, to)
    }
}

impl<S: Sink> Sink for &mut S {
    ghost known = { λ s. record {
      taken = (S.known s.now).taken;
      room = (S.known s.now).room;
      health = record {
        failures = (S.known s.now).health.failures;
        lenders = s.ghost_name ∷
            (S.known s.now).health.lenders;
        whole = (S.known s.now).health.whole;
      };
    } };

    #[inline(always)]
    fn give(&mut self, bytes: &[u8]) -> io::Result<()> {
        Sink::give(&mut **self, bytes)
    }

    #[inline(always)]
    fn try_put(&mut self, eight: [u8; 8], n: usize) -> bool {
        Sink::try_put(&mut **self, eight, n)
    }

    fn seek_to(&mut self, to: SeekFrom) -> io::Result<u64> {
        Sink::seek_to(&mut **self, to)
    }
}
