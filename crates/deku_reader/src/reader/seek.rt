//! Seeking.

ghost use Rattle.std.specs.Prelude.{◌≡◌, ◌^◌, ◌<◌, ◌≤◌, ℕ, pos, [], None};
ghost use Rattle.std.specs.Prelude.{OnOk, IfErr, IfSome, IfNone, IsErrAnd};
ghost use Rattle.std.specs.Io.KnownBytes.{Keeps};
ghost use Rattle.std.specs.Io.Seek.{SeekMoves, MovesTo, MovesBy, StaysAt};
ghost use Rattle.std.specs.IoError.{error_kind};
ghost use Rattle.std.specs.declared.io.SeekFrom.TheVariants.{Start, Current};
ghost use Rattle.deku_stream.specs.declared.error.DekuError.{DekuError};
ghost use Rattle.deku_device.specs.Seeking.{count_after, Seeks, RefusedSeek, ComesFrom, toward};
ghost use Rattle.deku_stream.specs.Standings.{Going, Stopped};
ghost use Rattle.deku_reader.specs.ReaderCalls.{source_of, read_count, ReadsOn, StopsReading};

use crate::reader::Reader;
use crate::reader::progress::ReaderState;
use deku_device::device::Source;
use deku_stream::error::Fault;
use std::io;
use std::io::{ErrorKind, Seek, SeekFrom};

/// Seeks the source. After the call no bit of the byte that was fetched last is unread, even if
/// that byte was fetched by `end`.
///
/// A reader that an error had stopped continues after a seek that succeeds. For `Start` of a place
/// other than 0 the count of bits read is then that of the bytes before the place. For `Current`
/// forward it is raised by the bits of the bytes that are skipped. It stays for `Start(0)`, for
/// `End`, and for `Current` backward.
///
/// It fails
///
/// - with an error of kind `InvalidInput` if the count would not fit a `usize`; nothing changes,
///   and the source is not called;
/// - with the source's error, if its seek fails. That stops the reader with `Io` of the error's
///   kind, and the count stays.
///
/// ```text
/// reader.read_bits(4, Order::Msb0)?;   // from 01 02 03
/// reader.seek(SeekFrom::Start(2))?;
/// reader.bits_read();                  // 16
/// reader.read_bits(8, Order::Msb0)?;   // 0, 0, 0, 0, 0, 0, 1, 1
/// ```
impl<R: Source> Seek for Reader<R> {
    fn seek(&mut self, to: SeekFrom) -> io::Result<u64>
        ensures ok { OnOk result (ReadsOn self.new (count_after to (read_count self.old))) }
        ensures refused { 2 ^ 64 ≤ count_after to (read_count self.old)
            → IsErrAnd result (λ e. error_kind e ≡ ErrorKind.InvalidInput) × (self.new ≡ self.old) }
        ensures err { count_after to (read_count self.old) < 2 ^ 64
            → IfErr result (λ e. StopsReading self.new (DekuError.Io (error_kind e))
            (read_count self.old)) }
        // If the source knows its place and its bytes, its place is the one where its own seek
        // leaves it.
        ensures place { SeekMoves (R.stream_position (source_of self.old))
            (R.stream_position (source_of self.new)) (R.stream_bytes (source_of self.old)) to
            result }
        ensures source_bytes { Keeps (R.stream_bytes (source_of self.old))
            (R.stream_bytes (source_of self.new)) }
        // If all bytes of the source are known, those from the new place on come next.
        ensures sought { Seeks (R.known (source_of self.old)).health
            (R.known (source_of self.new)).health to result }
        ensures remaining { ComesFrom (R.known (source_of self.old)).health.whole result
            (R.known (source_of self.new)) }
        ensures nowhere { count_after to (read_count self.old) < 2 ^ 64
            → RefusedSeek (R.known (source_of self.old)).health
            (R.known (source_of self.new)).health to result }
        ensures alloc { self.new.alloc ≡ self.old.alloc }
        // What the trait requires of a stream whose own place is not known.
        ensures moves { SeekMoves None None None to result }
        ensures bytes { Keeps None None }
    {
        let Some(count) = count_for(to, self.state.bits_read()) else {
            return Err(io::Error::new(ErrorKind::InvalidInput, "count past usize"));
        };
        match Source::seek_to(&mut self.source, to) {
            Ok(place) => {
                self.state = ReaderState::going(count);
                Ok(place)
            }
            Err(error) => {
                let fault = Fault::Io(error.kind());
                self.state = ReaderState::stopped(fault, self.state.bits_read());
                Err(error)
            }
        }
    }

    /// Seeks to the start, as `seek(SeekFrom::Start(0))` does.
    fn rewind(&mut self) -> io::Result<()>
        ensures ok { OnOk result (ReadsOn self.new (read_count self.old)) }
        ensures err { IfErr result (λ e. StopsReading self.new (DekuError.Io (error_kind e))
            (read_count self.old)) }
        ensures place { MovesTo (R.stream_position (source_of self.old))
            (R.stream_position (source_of self.new)) 0 result }
        ensures source_bytes { Keeps (R.stream_bytes (source_of self.old))
            (R.stream_bytes (source_of self.new)) }
        ensures sought { Seeks (R.known (source_of self.old)).health
            (R.known (source_of self.new)).health (Start 0) (toward 0 result) }
        ensures remaining { ComesFrom (R.known (source_of self.old)).health.whole (toward 0 result)
            (R.known (source_of self.new)) }
        ensures nowhere { RefusedSeek (R.known (source_of self.old)).health
            (R.known (source_of self.new)).health (Start 0) (toward 0 result) }
        ensures alloc { self.new.alloc ≡ self.old.alloc }
        ensures moves { MovesTo None None 0 result }
        ensures bytes { Keeps None None }
    {
        let _count = self.state.bits_read();
        self.seek(SeekFrom::Start(0))?;
        Ok(())
    }

    /// The place of the source, as `seek(SeekFrom::Current(0))` returns it. So no bit is unread
    /// after it.
    fn stream_position(&mut self) -> io::Result<u64>
        ensures ok { OnOk result (ReadsOn self.new (read_count self.old)) }
        ensures err { IfErr result (λ e. StopsReading self.new (DekuError.Io (error_kind e))
            (read_count self.old)) }
        ensures place { SeekMoves (R.stream_position (source_of self.old))
            (R.stream_position (source_of self.new)) (R.stream_bytes (source_of self.old))
            (Current (pos 0)) result }
        ensures source_bytes { Keeps (R.stream_bytes (source_of self.old))
            (R.stream_bytes (source_of self.new)) }
        ensures sought { Seeks (R.known (source_of self.old)).health
            (R.known (source_of self.new)).health (Current (pos 0)) result }
        ensures remaining { ComesFrom (R.known (source_of self.old)).health.whole result
            (R.known (source_of self.new)) }
        ensures nowhere { RefusedSeek (R.known (source_of self.old)).health
            (R.known (source_of self.new)).health (Current (pos 0)) result }
        ensures alloc { self.new.alloc ≡ self.old.alloc }
        ensures stays { StaysAt None None }
        ensures bytes { Keeps None None }
    {
        let _count = self.state.bits_read();
        self.seek(SeekFrom::Current(0))
    }

    /// Seeks from the current place, as `seek(SeekFrom::Current(offset))` does.
    fn seek_relative(&mut self, offset: i64) -> io::Result<()>
        ensures ok { OnOk result (ReadsOn self.new (count_after (Current offset)
            (read_count self.old))) }
        ensures refused { 2 ^ 64 ≤ count_after (Current offset) (read_count self.old)
            → IsErrAnd result (λ e. error_kind e ≡ ErrorKind.InvalidInput) × (self.new ≡ self.old) }
        ensures err { count_after (Current offset) (read_count self.old) < 2 ^ 64
            → IfErr result (λ e. StopsReading self.new (DekuError.Io (error_kind e))
            (read_count self.old)) }
        ensures place { MovesBy (R.stream_position (source_of self.old))
            (R.stream_position (source_of self.new)) offset result }
        ensures source_bytes { Keeps (R.stream_bytes (source_of self.old))
            (R.stream_bytes (source_of self.new)) }
        ensures sought { (n : ℕ) × Seeks (R.known (source_of self.old)).health
            (R.known (source_of self.new)).health (Current offset) (toward n result)
            × ComesFrom (R.known (source_of self.old)).health.whole (toward n result)
            (R.known (source_of self.new)) }
        ensures nowhere { count_after (Current offset) (read_count self.old) < 2 ^ 64
            → RefusedSeek (R.known (source_of self.old)).health
            (R.known (source_of self.new)).health (Current offset) (toward 0 result) }
        ensures alloc { self.new.alloc ≡ self.old.alloc }
        ensures moves { MovesBy None None offset result }
        ensures bytes { Keeps None None }
    {
        self.seek(SeekFrom::Current(offset))?;
        Ok(())
    }
}

// The count after a seek that succeeds, if it fits a `usize`.
fn count_for(to: SeekFrom, count: usize) -> Option<usize>
    ensures some { IfSome result (λ n. n ≡ count_after to count) }
    ensures none { IfNone result (2 ^ 64 ≤ count_after to count) }
{
    match to {
        SeekFrom::Start(0) | SeekFrom::End(_) => Some(count),
        SeekFrom::Start(place) => (place as usize).checked_mul(8),
        SeekFrom::Current(offset) => {
            if offset <= 0 {
                return Some(count);
            }
            let more = (offset as usize).checked_mul(8)?;
            count.checked_add(more)
        }
    }
}
