//! Program headers.

ghost use Rattle.std.specs.Prelude.{refl};
ghost use Rattle.deku.specs.Composing.{Then};
ghost use Rattle.deku.specs.Shapes.{Shows};

use deku::ctx::Endian;
use deku::device::{Sink, Source};
use deku::prelude::{DekuError, DekuReader, DekuWriter, Reader, Writer};
use deku_symmetry::{FromParts, Record, ToParts, read_record, write_record};

/// A program header: which part of the file is loaded, and where.
#[derive(Debug, Clone, Copy, PartialEq, Eq)]
pub struct Segment {
    /// 1 load, 2 dynamic, 3 interpreter, 6 this table.
    pub kind: u32,
    /// 1 execute, 2 write, 4 read.
    pub flags: u32,
    /// The place in the file, in bytes.
    pub offset: u64,
    /// The address where it is loaded.
    pub address: u64,
    /// The physical address, on machines that use it.
    pub physical: u64,
    /// The number of bytes in the file.
    pub file_size: u64,
    /// The number of bytes in memory.
    pub memory_size: u64,
    /// The alignment: a power of two, or 0.
    pub alignment: u64,
}

// The fields, in order.
type Parts = ((u32, u32), (u64, u64, u64), (u64, u64, u64));

impl FromParts for Segment {
    type Parts = Parts;

    ghost parts_of = { λ r. (
      (r.kind, r.flags),
      (r.offset, r.address, r.physical),
      (r.file_size, r.memory_size, r.alignment),
    ) };

    ghost record_of = { λ p. record {
      kind = p.0.0;
      flags = p.0.1;
      offset = p.1.0;
      address = p.1.1;
      physical = p.1.2;
      file_size = p.2.0;
      memory_size = p.2.1;
      alignment = p.2.2;
    } };

    fn from_parts(parts: Self::Parts) -> Self {
        let (first, second, third) = parts;
        let (kind, flags) = first;
        let (offset, address, physical) = second;
        let (file_size, memory_size, alignment) = third;
        Segment {
            kind,
            flags,
            offset,
            address,
            physical,
            file_size,
            memory_size,
            alignment,
        }
    }

    ghost there = { λ r. refl };
}

impl ToParts for Segment {
    fn parts(&self) -> Self::Parts {
        (
            (self.kind, self.flags),
            (self.offset, self.address, self.physical),
            (self.file_size, self.memory_size, self.alignment),
        )
    }
}

impl Record<Endian> for Segment {
    type Layout = Parts;

    ghost reads = { λ c b s r u m. m };

    ghost writes = { λ c v b s r u m. m };
}

impl DekuReader<Endian> for Segment {
    ghost no_read_ahead = { ⟦<Parts as DekuReader<Endian>>⟧.no_read_ahead };

    ghost meaning = { λ c. Then (⟦<Parts as DekuReader<Endian>>⟧.meaning c)
        (Shows ⟦<Segment as FromParts>⟧.parts_of) };

    fn from_reader_with_ctx<R: Source>(
        reader: &mut Reader<R>,
        ctx: Endian,
    ) -> Result<Self, DekuError> {
        read_record(reader, ctx)
    }
}

impl DekuWriter<Endian> for Segment {
    ghost meaning = { λ v c. ⟦<Parts as DekuWriter<Endian>>⟧.meaning
        (⟦<Segment as FromParts>⟧.parts_of v) c };

    fn to_writer<W: Sink>(&self, writer: &mut Writer<W>, ctx: Endian) -> Result<(), DekuError> {
        write_record(self, writer, ctx)
    }
}
