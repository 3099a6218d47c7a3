//! Files as sources and sinks.

ghost use Rattle.std.specs.Prelude.{◌<◌, ◌-◌};
ghost use Rattle.deku_device.specs.Devices.{unknown_source, unknown_sink};

use crate::device::{Sink, Source};
use std::fs::File;
use std::io;
use std::io::{Read, Seek, SeekFrom, Write};

// Nothing is known of a file.
impl Source for File {
    ghost known = { λ _. unknown_source };

    ghost known_by_place = { λ s at all p. Prim.cc };

    fn fetch(&mut self, buf: &mut [u8]) -> io::Result<()> {
        self.read_exact(buf)
    }

    fn pass(&mut self, n: u64) -> io::Result<()> {
        self.seek(SeekFrom::Current(n as i64))?;
        Ok(())
    }

    fn seek_to(&mut self, to: SeekFrom) -> io::Result<u64> {
        self.seek(to)
    }
}

impl Sink for File {
    ghost known = { λ _. unknown_sink };

    fn give(&mut self, bytes: &[u8]) -> io::Result<()> {
        self.write_all(bytes)
    }

    fn seek_to(&mut self, to: SeekFrom) -> io::Result<u64> {
        self.seek(to)
    }
}
