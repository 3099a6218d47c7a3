//! Seeking.

ghost use Rattle.std.specs.Prelude.{◌≡◌, ℕ, pos, None, OnOk, IfErr};
ghost use Rattle.std.specs.Io.KnownBytes.{Keeps};
ghost use Rattle.std.specs.Io.Seek.{SeekMoves, MovesTo, MovesBy, StaysAt};
ghost use Rattle.std.specs.IoError.{error_kind};
ghost use Rattle.std.specs.declared.io.SeekFrom.TheVariants.{Start, Current};
ghost use Rattle.deku_stream.specs.declared.error.DekuError.{DekuError};
ghost use Rattle.deku_device.specs.Seeking.{Seeks, RefusedSeek, StandsAt, toward};
ghost use Rattle.deku_stream.specs.Standings.{Going, Stopped};
ghost use Rattle.deku_stream.specs.Writers.{Nothing};
ghost use Rattle.deku_writer.specs.WriterCalls.{sink_of, written_count, WritesOn, StopsWriting};

use crate::writer::{Writer, WriterState};
use deku_device::device::Sink;
use std::io;
use std::io::{Seek, SeekFrom};

/// Seeks the sink. Pending bits are lost: call `finalize` first. The count of bits written stays.
///
/// A writer that an error had stopped continues after a seek that succeeds. It fails with the
/// sink's error, if its seek fails: the writer stops with `Io` of the error's kind.
///
/// ```text
/// writer.write_bits(&[true, false, true, false])?;   // onto a vector: nothing is given to it yet
/// writer.seek(SeekFrom::Start(0))?;
/// writer.write_bytes(&[0xAA])?;                      // the vector is AA
/// writer.bits_written()                              // 8
/// ```
impl<W: Sink> Seek for Writer<W> {
    fn seek(&mut self, to: SeekFrom) -> io::Result<u64>
        ensures ok { OnOk result (WritesOn self.new (written_count self.old)) }
        ensures err { IfErr result (λ e. StopsWriting self.new (DekuError.Io (error_kind e))
            (written_count self.old)) }
        // If the sink knows its place and its bytes, its place is the one where its own seek leaves
        // it.
        ensures place { SeekMoves (W.stream_position (sink_of self.old))
            (W.stream_position (sink_of self.new)) (W.stream_bytes (sink_of self.old)) to result }
        ensures sink_bytes { Keeps (W.stream_bytes (sink_of self.old))
            (W.stream_bytes (sink_of self.new)) }
        // If all bytes of the sink are known, it continues among them from the new place.
        ensures sought { Seeks (W.known (sink_of self.old)).health
            (W.known (sink_of self.new)).health to result }
        ensures stands { StandsAt (W.known (sink_of self.old)).health.whole result
            (W.known (sink_of self.new)) }
        ensures nowhere { RefusedSeek (W.known (sink_of self.old)).health
            (W.known (sink_of self.new)).health to result }
        // What the trait asks of a stream whose own place is not known.
        ensures moves { SeekMoves None None None to result }
        ensures bytes { Keeps None None }
    {
        match Sink::seek_to(&mut self.sink, to) {
            Ok(place) => {
                self.state = WriterState::going(self.state.bits_written());
                Ok(place)
            }
            Err(error) => {
                self.state = WriterState::stopped(error.kind(), self.state.bits_written());
                Err(error)
            }
        }
    }

    /// Seeks to the start, as `seek(SeekFrom::Start(0))` does.
    fn rewind(&mut self) -> io::Result<()>
        ensures ok { OnOk result (WritesOn self.new (written_count self.old)) }
        ensures err { IfErr result (λ e. StopsWriting self.new (DekuError.Io (error_kind e))
            (written_count self.old)) }
        ensures place { MovesTo (W.stream_position (sink_of self.old))
            (W.stream_position (sink_of self.new)) 0 result }
        ensures sink_bytes { Keeps (W.stream_bytes (sink_of self.old))
            (W.stream_bytes (sink_of self.new)) }
        ensures sought { Seeks (W.known (sink_of self.old)).health
            (W.known (sink_of self.new)).health (Start 0) (toward 0 result) }
        ensures stands { StandsAt (W.known (sink_of self.old)).health.whole (toward 0 result)
            (W.known (sink_of self.new)) }
        ensures nowhere { RefusedSeek (W.known (sink_of self.old)).health
            (W.known (sink_of self.new)).health (Start 0) (toward 0 result) }
        ensures moves { MovesTo None None 0 result }
        ensures bytes { Keeps None None }
    {
        self.seek(SeekFrom::Start(0))?;
        Ok(())
    }

    /// The place of the sink, as `seek(SeekFrom::Current(0))` returns it. So it drops pending bits.
    fn stream_position(&mut self) -> io::Result<u64>
        ensures ok { OnOk result (WritesOn self.new (written_count self.old)) }
        ensures err { IfErr result (λ e. StopsWriting self.new (DekuError.Io (error_kind e))
            (written_count self.old)) }
        ensures place { SeekMoves (W.stream_position (sink_of self.old))
            (W.stream_position (sink_of self.new)) (W.stream_bytes (sink_of self.old))
            (Current (pos 0)) result }
        ensures sink_bytes { Keeps (W.stream_bytes (sink_of self.old))
            (W.stream_bytes (sink_of self.new)) }
        ensures sought { Seeks (W.known (sink_of self.old)).health
            (W.known (sink_of self.new)).health (Current (pos 0)) result }
        ensures stands { StandsAt (W.known (sink_of self.old)).health.whole result
            (W.known (sink_of self.new)) }
        ensures nowhere { RefusedSeek (W.known (sink_of self.old)).health
            (W.known (sink_of self.new)).health (Current (pos 0)) result }
        ensures stays { StaysAt None None }
        ensures bytes { Keeps None None }
    {
        self.seek(SeekFrom::Current(0))
    }

    /// Seeks from the current place, as `seek(SeekFrom::Current(offset))` does.
    fn seek_relative(&mut self, offset: i64) -> io::Result<()>
        ensures ok { OnOk result (WritesOn self.new (written_count self.old)) }
        ensures err { IfErr result (λ e. StopsWriting self.new (DekuError.Io (error_kind e))
            (written_count self.old)) }
        ensures place { MovesBy (W.stream_position (sink_of self.old))
            (W.stream_position (sink_of self.new)) offset result }
        ensures sink_bytes { Keeps (W.stream_bytes (sink_of self.old))
            (W.stream_bytes (sink_of self.new)) }
        ensures sought { (n : ℕ) × Seeks (W.known (sink_of self.old)).health
            (W.known (sink_of self.new)).health (Current offset) (toward n result)
            × StandsAt (W.known (sink_of self.old)).health.whole (toward n result)
            (W.known (sink_of self.new)) }
        ensures nowhere { RefusedSeek (W.known (sink_of self.old)).health
            (W.known (sink_of self.new)).health (Current offset) (toward 0 result) }
        ensures moves { MovesBy None None offset result }
        ensures bytes { Keeps None None }
    {
        self.seek(SeekFrom::Current(offset))?;
        Ok(())
    }
}
