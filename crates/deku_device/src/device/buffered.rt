//! Buffered files and streams as sources, and buffered writers as sinks.

ghost use Rattle.std.specs.Prelude.{◌≡◌, ◌<◌, ◌≤◌, ◌↔◌, length, take, drop};
ghost use Rattle.std.specs.Prelude.{IfSome, IsNone};
ghost use Rattle.std.specs.Io.Buffered.{reader_buffer};
ghost use Rattle.deku_device.specs.Devices.{unknown_source, unknown_sink};

use crate::device::{Sink, Source};
use crate::noseek::NoSeek;
use std::fs::File;
use std::io;
use std::io::{BufRead, BufReader, BufWriter, Error, ErrorKind, Read, Seek, SeekFrom, Write};

// Nothing is known of it, as of a file. Eight bytes are in memory if the buffer has as many; a
// fetch fills the buffer.
impl Source for BufReader<File> {
    ghost known = { λ _. unknown_source };

    ghost known_by_place = { λ s at all p. Prim.cc };

    fn fetch(&mut self, buf: &mut [u8]) -> io::Result<()> {
        self.read_exact(buf)
    }

    fn pass(&mut self, n: u64) -> io::Result<()> {
        BufReader::seek_relative(self, n as i64)
    }

    #[inline(always)]
    fn try_take(&mut self, n: usize) -> Option<[u8; 8]> {
        held_eight(self, n)
    }

    fn seek_to(&mut self, to: SeekFrom) -> io::Result<u64> {
        self.seek(to)
    }
}

// A buffered stream that cannot seek. It seeks and passes as `NoSeek` does: to its own position,
// which is before the bytes in the buffer, and nowhere else.
impl<T: Read> Source for BufReader<NoSeek<T>> {
    ghost known = { λ _. unknown_source };

    ghost known_by_place = { λ s at all p q. Prim.cc };

    fn fetch(&mut self, buf: &mut [u8]) -> io::Result<()> {
        Read::read_exact(self, buf)
    }

    fn pass(&mut self, n: u64) -> io::Result<()> {
        if n > 0 {
            return Err(Error::from(ErrorKind::Other));
        }
        Ok(())
    }

    #[inline(always)]
    fn try_take(&mut self, n: usize) -> Option<[u8; 8]> {
        held_eight(self, n)
    }

    fn seek_to(&mut self, to: SeekFrom) -> io::Result<u64> {
        let at = self.stream_position()?;
        let is_here = match to {
            SeekFrom::Start(place) => place == at,
            SeekFrom::Current(offset) => offset == 0,
            SeekFrom::End(_) => false,
        };
        if is_here {
            Ok(at)
        } else {
            Err(Error::from(ErrorKind::Other))
        }
    }
}

// The first eight bytes of the buffer, if it has as many. The first n are consumed.
#[inline(always)]
fn held_eight<R: Read>(reader: &mut BufReader<R>, n: usize) -> Option<[u8; 8]>
    requires { n ≤ 8 }
    ensures none { IsNone result → reader.new ≡ reader.old }
    ensures eight { IfSome result (λ eight. eight ≡ take 8 (reader_buffer reader.old)) }
    ensures consumed { IfSome result (λ eight. reader_buffer reader.new ≡ drop n
        (reader_buffer reader.old)) }
    ensures few { IsNone result ↔ (length (reader_buffer reader.old) < 8) }
{
    let eight = *reader.buffer().first_chunk::<8>()?;
    reader.consume(n);
    Some(eight)
}

// Nothing is known of it. If the buffer has room for more than eight bytes, they go there, and
// nothing is written to what it wraps. `flush` writes what is in the buffer, and reports errors.
impl<W: Write + Seek + Drop> Sink for BufWriter<W> {
    ghost known = { λ _. unknown_sink };

    fn give(&mut self, bytes: &[u8]) -> io::Result<()> {
        self.write_all(bytes)
    }

    #[inline(always)]
    fn try_put(&mut self, eight: [u8; 8], n: usize) -> bool {
        if self.capacity().saturating_sub(self.buffer().len()) <= 8 {
            return false;
        }
        // The buffer has room for them, so this does not fail.
        let _kept = match n {
            1 => self.write_all(&eight[..1]),
            2 => self.write_all(&eight[..2]),
            3 => self.write_all(&eight[..3]),
            4 => self.write_all(&eight[..4]),
            5 => self.write_all(&eight[..5]),
            6 => self.write_all(&eight[..6]),
            7 => self.write_all(&eight[..7]),
            8 => self.write_all(&eight),
            _ => Ok(()),
        };
        true
    }

    fn seek_to(&mut self, to: SeekFrom) -> io::Result<u64> {
        self.seek(to)
    }
}
