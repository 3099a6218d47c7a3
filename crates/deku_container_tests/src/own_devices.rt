//! A source and a sink that a user writes, and what is read and written through them.

ghost use Rattle.deku.specs.Devices.{unknown_source};

use deku::ctx::BitSize;
use deku::device::{Sink, Source};
use deku::prelude::{Reader, Writer};
use deku_testing_values::expecting::{next, put, same};
use std::alloc::Global;
use std::io;
use std::io::{BufReader, Cursor, Read, Seek, SeekFrom, Write};
use std::test::Fail;

// A buffered reader. Nothing is known of its bytes, as of a file.
#[derive(Drop)]
struct Buffered<R> {
    inner: BufReader<R>,
}

impl<R: Read> Read for Buffered<R> {
    fn read(&mut self, buf: &mut [u8]) -> io::Result<usize> {
        self.inner.read(buf)
    }
}

impl<R: Seek> Seek for Buffered<R> {
    fn seek(&mut self, to: SeekFrom) -> io::Result<u64> {
        self.inner.seek(to)
    }
}

impl<R: Read + Seek> Source for Buffered<R> {
    ghost known = { λ _. unknown_source };

    ghost known_by_place = { λ s at all p. Prim.cc };

    fn fetch(&mut self, buf: &mut [u8]) -> io::Result<()> {
        self.inner.read_exact(buf)
    }

    fn pass(&mut self, n: u64) -> io::Result<()> {
        self.inner.seek(SeekFrom::Current(n as i64))?;
        Ok(())
    }

    fn seek_to(&mut self, to: SeekFrom) -> io::Result<u64> {
        self.seek(to)
    }
}

// A sink that counts the bytes that go through it, and knows what the sink inside knows.
#[derive(Drop)]
struct Counted<W> {
    inner: W,
    bytes: u64,
}

impl<W: Write> Write for Counted<W> {
    ghost contents = { λ s. W.contents s.inner };

    fn write(&mut self, buf: &[u8]) -> io::Result<usize> {
        let count = self.inner.write(buf)?;
        self.bytes = self.bytes.wrapping_add(count as u64);
        Ok(count)
    }

    fn flush(&mut self) -> io::Result<()> {
        self.inner.flush()
    }
}

impl<W: Seek> Seek for Counted<W> {
    ghost stream_position = { λ s. W.stream_position s.inner };

    ghost stream_bytes = { λ s. W.stream_bytes s.inner };

    fn seek(&mut self, to: SeekFrom) -> io::Result<u64> {
        self.inner.seek(to)
    }
}

impl<W: Sink> Sink for Counted<W> {
    ghost known = { λ s. W.known s.inner };

    fn give(&mut self, bytes: &[u8]) -> io::Result<()> {
        self.bytes = self.bytes.wrapping_add(bytes.len() as u64);
        self.inner.give(bytes)
    }

    fn seek_to(&mut self, to: SeekFrom) -> io::Result<u64> {
        self.inner.seek_to(to)
    }
}

// The halves of a byte, and the byte after it.
type Row = ((u8, u8), u8, [u8; 2]);

const ROWS: [Row; 2] = [((6, 9), 0xBE, [0x69, 0xBE]), ((0, 15), 1, [0x0F, 0x01])];

// They are written.
fn expect_written(alloc: Global, row: &Row) -> Result<(), Fail> {
    let (halves, number, bytes) = row;
    let own = Counted {
        inner: Cursor::new(Vec::new(alloc)),
        bytes: 0,
    };
    let mut writer = Writer::new(own);
    put(&mut writer, halves, BitSize(4))?;
    put(&mut writer, number, ())?;
    let own = writer.into_inner();
    let seen = (own.bytes, own.inner.get_ref().as_slice());
    same(row, &seen, &(2, bytes.as_slice()))
}

// They are read.
fn expect_read(alloc: Global, row: &Row) -> Result<(), Fail> {
    let (halves, number, bytes) = row;
    let inner = BufReader::new(alloc, Cursor::new(bytes.as_slice()))?;
    let mut reader = Reader::new(alloc, Buffered { inner });
    let read = next::<(u8, u8), BitSize, Buffered<_>>(&mut reader, BitSize(4))?;
    let behind = next::<u8, (), Buffered<_>>(&mut reader, ())?;
    let seen = (read, behind, reader.end()?);
    same(row, &seen, &(*halves, *number, true))
}

#[test]
fn through_own_devices(rt: HostRuntime) -> Result<(), Fail> {
    for row in &ROWS {
        expect_written(rt.alloc(), row)?;
        expect_read(rt.alloc(), row)?;
    }
    Ok(())
}
