//! Streams that cannot seek, as streams whose seeks lead nowhere.

ghost use Rattle.std.specs.Prelude.{◌≡◌, ◌<◌, ◌^◌, Some, None, length, IfOk, OnOk};
ghost use Rattle.std.specs.Prelude.{OnErr, IfErr, IsOk};
ghost use Rattle.std.specs.Io.{ReadsAtMost, WritesAtMost};
ghost use Rattle.std.specs.Io.KnownBytes.{Appends, Consumes, Keeps, ReadConsumes, WriteAppends};
ghost use Rattle.std.specs.Io.Seek.{SeekMoves, StaysAt};
ghost use Rattle.std.specs.IoError.{error_kind};
ghost use Rattle.std.specs.Borrow.{Lends, sem};
ghost use Rattle.deku_device.specs.Devices.{unknown_source, unknown_sink};
ghost use Rattle.deku_device.specs.Seeking.{IsHere, place_on};
ghost use Rattle.deku_device.specs.contracts.noseek.NoSeek.{the_row as stream-row};

use crate::device::{Sink, Source};
use std::io;
use std::io::{Error, ErrorKind, Read, Seek, SeekFrom, Write};

/// A reader or a writer that cannot seek, such as a pipe or a socket, with the count of the bytes
/// that it moved.
///
/// The count is its position. A seek to it, by `Start` of it or `Current(0)`, returns it and moves
/// nothing; any other seek fails with kind `Other`. Each transfer that succeeds raises the count by
/// its bytes, up to `u64::MAX`.
///
/// ```text
/// let mut reader = Reader::new(alloc, NoSeek::new(stdin));
/// reader.read_bits(8, Order::Msb0)?;
/// ```
#[derive(Drop)]
pub struct NoSeek<T> {
    inner: T,
    position: u64,
}

impl<T> NoSeek<T> {
    /// Wraps a stream, at position 0.
    ///
    /// ```text
    /// let source = NoSeek::new(stream);                    // reads from a stream that cannot seek
    /// ```
    pub fn new(inner: T) -> NoSeek<T>
        ensures inner { result.inner ≡ inner }
        ensures position { result.position ≡ 0 }
    {
        NoSeek { inner, position: 0 }
    }

    /// The stream inside. What is moved through it is not counted.
    ///
    /// ```text
    /// source.get_ref().is_terminal()                             // asks the stream inside
    /// ```
    pub fn get_ref(&self) -> &T
        ensures { result.now ≡ self.now.inner }
    {
        &self.inner
    }

    /// The stream inside, to be changed. What is moved through it is not counted.
    ///
    /// ```text
    /// sink.get_mut().flush()?;                                   // flushes the stream inside
    /// ```
    pub fn get_mut(&mut self) -> &mut T
        ensures value { result.now ≡ self.old.inner }
        ensures* writes_back { sem 𝓛 (Lends (stream-row T.row) T.row self.entry result
            (λ x. record self.old { inner = x })) }
    {
        &mut self.inner
    }

    /// Returns the stream inside.
    ///
    /// ```text
    /// let stream = source.into_inner();                          // after what was read
    /// ```
    pub fn into_inner(self) -> T
        ensures { result ≡ self.inner }
    {
        self.inner
    }
}

impl<T: Read> Read for NoSeek<T> {
    ghost remaining = { λ s. T.remaining s.inner };

    fn read(&mut self, buf: &mut [u8]) -> io::Result<usize>
        ensures bound { ReadsAtMost result buf.new }
        ensures bytes { ReadConsumes (T.remaining self.old.inner) (T.remaining self.new.inner)
            result buf.new }
        ensures counts { IfOk result (λ n. self.new.position ≡ place_on self.old.position n) }
        ensures stays { OnErr result (self.new.position ≡ self.old.position) }
    {
        let n = self.inner.read(buf)?;
        self.position = self.position.saturating_add(n as u64);
        Ok(n)
    }

    fn read_exact(&mut self, buf: &mut [u8]) -> io::Result<()>
        ensures bytes { OnOk result (Consumes (T.remaining self.old.inner)
            (T.remaining self.new.inner) buf.new) }
        ensures counts { OnOk result (self.new.position ≡ place_on self.old.position
            (length buf.new)) }
        ensures stays { OnErr result (self.new.position ≡ self.old.position) }
    {
        self.inner.read_exact(buf)?;
        self.position = self.position.saturating_add(buf.len() as u64);
        Ok(())
    }
}

impl<T: Write> Write for NoSeek<T> {
    ghost contents = { λ s. T.contents s.inner };

    fn write(&mut self, buf: &[u8]) -> io::Result<usize>
        ensures bound { WritesAtMost result buf.now }
        ensures bytes { WriteAppends (T.contents self.old.inner) (T.contents self.new.inner) result
            buf.now }
        ensures counts { IfOk result (λ n. self.new.position ≡ place_on self.old.position n) }
        ensures stays { OnErr result (self.new.position ≡ self.old.position) }
    {
        let n = self.inner.write(buf)?;
        self.position = self.position.saturating_add(n as u64);
        Ok(n)
    }

    fn flush(&mut self) -> io::Result<()>
        ensures bytes { Keeps (T.contents self.old.inner) (T.contents self.new.inner) }
        ensures stays { self.new.position ≡ self.old.position }
    {
        self.inner.flush()
    }

    fn write_all(&mut self, buf: &[u8]) -> io::Result<()>
        ensures bytes { OnOk result (Appends (T.contents self.old.inner) (T.contents self.new.inner)
            buf.now) }
        ensures counts { OnOk result (self.new.position ≡ place_on self.old.position
            (length buf.now)) }
        ensures stays { OnErr result (self.new.position ≡ self.old.position) }
    {
        self.inner.write_all(buf)?;
        self.position = self.position.saturating_add(buf.len() as u64);
        Ok(())
    }
}

impl<T> Seek for NoSeek<T> {
    ghost stream_position = { λ s. Some s.position };

    fn seek(&mut self, to: SeekFrom) -> io::Result<u64>
        ensures here { IfOk result (λ n. (n ≡ self.old.position) × IsHere self.old.position to) }
        ensures refused { IfErr result (λ e. (error_kind e ≡ ErrorKind.Other)
            × (IsHere self.old.position to → ⊥)) }
        ensures stays { self.new ≡ self.old }
        // What the trait requires of a stream whose place is known and whose bytes are not.
        ensures moves { SeekMoves (Some self.old.position) (Some self.new.position) None to result }
        ensures bytes { Keeps None None }
    {
        let is_here = match to {
            SeekFrom::Start(place) => place == self.position,
            SeekFrom::Current(offset) => offset == 0,
            SeekFrom::End(_) => false,
        };
        if is_here {
            Ok(self.position)
        } else {
            Err(Error::from(ErrorKind::Other))
        }
    }

    fn stream_position(&mut self) -> io::Result<u64>
        ensures ok { IsOk result }
        ensures value { IfOk result (λ n. n ≡ self.old.position) }
        ensures unchanged { self.new ≡ self.old }
        ensures stays { StaysAt (Some self.old.position) (Some self.new.position) }
        ensures bytes { Keeps None None }
    {
        Ok(self.position)
    }
}

// Nothing is known of it: a reader inside may return the end of the input and continue.
impl<T: Read> Source for NoSeek<T> {
    ghost known = { λ _. unknown_source };

    ghost known_by_place = { λ s at all p q. Prim.cc };

    fn fetch(&mut self, buf: &mut [u8]) -> io::Result<()>
        ensures bytes { OnOk result (Consumes (T.remaining self.old.inner)
            (T.remaining self.new.inner) buf.new) }
        ensures counts { OnOk result (self.new.position ≡ place_on self.old.position
            (length buf.new)) }
        ensures stays { OnErr result (self.new.position ≡ self.old.position) }
    {
        self.read_exact(buf)
    }

    fn pass(&mut self, n: u64) -> io::Result<()>
        requires { n < 2 ^ 63 }
        ensures none { OnOk result (n ≡ 0) }
        ensures refused { IfErr result (λ e. (error_kind e ≡ ErrorKind.Other) × (0 < n)) }
        ensures stays { self.new ≡ self.old }
    {
        self.seek(SeekFrom::Current(n as i64))?;
        Ok(())
    }

    fn seek_to(&mut self, to: SeekFrom) -> io::Result<u64>
        ensures here { IfOk result (λ n. (n ≡ self.old.position) × IsHere self.old.position to) }
        ensures refused { IfErr result (λ e. (error_kind e ≡ ErrorKind.Other)
            × (IsHere self.old.position to → ⊥)) }
        ensures stays { self.new ≡ self.old }
        ensures moves { SeekMoves (Some self.old.position) (Some self.new.position) None to result }
        ensures all { Keeps None None }
    {
        self.seek(to)
    }
}

impl<T: Write> Sink for NoSeek<T> {
    ghost known = { λ _. unknown_sink };

    fn give(&mut self, bytes: &[u8]) -> io::Result<()>
        ensures bytes { OnOk result (Appends (T.contents self.old.inner) (T.contents self.new.inner)
            bytes.now) }
        ensures counts { OnOk result (self.new.position ≡ place_on self.old.position
            (length bytes.now)) }
        ensures stays { OnErr result (self.new.position ≡ self.old.position) }
    {
        self.write_all(bytes)
    }

    fn seek_to(&mut self, to: SeekFrom) -> io::Result<u64>
        ensures here { IfOk result (λ n. (n ≡ self.old.position) × IsHere self.old.position to) }
        ensures refused { IfErr result (λ e. (error_kind e ≡ ErrorKind.Other)
            × (IsHere self.old.position to → ⊥)) }
        ensures stays { self.new ≡ self.old }
        ensures moves { SeekMoves (Some self.old.position) (Some self.new.position) None to result }
        ensures all { Keeps None None }
    {
        Seek::seek(self, to)
    }
}
