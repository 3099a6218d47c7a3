//! The fields of the file header, under the endian that the file names.

ghost use Rattle.std.specs.Prelude.{refl};
ghost use Rattle.deku.specs.Composing.{Then};
ghost use Rattle.deku.specs.Shapes.{Shows};

use deku::ctx::Endian;
use deku::device::{Sink, Source};
use deku::prelude::{DekuError, DekuReader, DekuWriter, Reader, Writer};
use deku_symmetry::{FromParts, Record, ToParts, read_record, write_record};

/// The fields of the file header after the byte of the endian.
#[derive(Debug, Clone, Copy, PartialEq, Eq)]
pub struct Fields {
    /// The version of the identification, 1; the operating system, 0 System V, 3 Linux; its
    /// version; and seven bytes without a meaning.
    pub identification: [u8; 10],
    /// 1 relocatable, 2 executable, 3 shared.
    pub kind: u16,
    /// 62 x86-64, 183 AArch64, 243 RISC-V.
    pub machine: u16,
    /// The version of the object: 1.
    pub version: u32,
    /// The address where it starts.
    pub entry: u64,
    /// The place of the program headers in the file, in bytes.
    pub segments_at: u64,
    /// The place of the section headers in the file, in bytes.
    pub sections_at: u64,
    /// Flags for the processor.
    pub flags: u32,
    /// The sizes in bytes of this header, 64, and of a program header, 56.
    pub sizes: [u16; 2],
    /// How many program headers there are.
    pub segment_count: u16,
    /// The size in bytes of a section header, 64; how many section headers there are; and the
    /// section with the names of the others.
    pub sections: [u16; 3],
}

// The fields, in order.
type Parts = (
    [u8; 10],
    u16,
    u16,
    u32,
    u64,
    u64,
    u64,
    u32,
    [u16; 2],
    u16,
    [u16; 3],
);

impl FromParts for Fields {
    type Parts = Parts;

    ghost parts_of = { λ r. (
      r.identification,
      r.kind,
      r.machine,
      r.version,
      r.entry,
      r.segments_at,
      r.sections_at,
      r.flags,
      r.sizes,
      r.segment_count,
      r.sections,
    ) };

    ghost record_of = { λ p. record {
      identification = p.0;
      kind = p.1;
      machine = p.2;
      version = p.3;
      entry = p.4;
      segments_at = p.5;
      sections_at = p.6;
      flags = p.7;
      sizes = p.8;
      segment_count = p.9;
      sections = p.10;
    } };

    fn from_parts(parts: Self::Parts) -> Self {
        let (
            identification,
            kind,
            machine,
            version,
            entry,
            segments_at,
            sections_at,
            flags,
            sizes,
            segment_count,
            sections,
        ) = parts;
        Fields {
            identification,
            kind,
            machine,
            version,
            entry,
            segments_at,
            sections_at,
            flags,
            sizes,
            segment_count,
            sections,
        }
    }

    ghost there = { λ r. refl };
}

impl ToParts for Fields {
    fn parts(&self) -> Self::Parts {
        (
            self.identification,
            self.kind,
            self.machine,
            self.version,
            self.entry,
            self.segments_at,
            self.sections_at,
            self.flags,
            self.sizes,
            self.segment_count,
            self.sections,
        )
    }
}

impl Record<Endian> for Fields {
    type Layout = Parts;

    ghost reads = { λ c b s r u m. m };

    ghost writes = { λ c v b s r u m. m };
}

impl DekuReader<Endian> for Fields {
    ghost no_read_ahead = { ⟦<Parts as DekuReader<Endian>>⟧.no_read_ahead };

    ghost meaning = { λ c. Then (⟦<Parts as DekuReader<Endian>>⟧.meaning c)
        (Shows ⟦<Fields as FromParts>⟧.parts_of) };

    fn from_reader_with_ctx<R: Source>(
        reader: &mut Reader<R>,
        ctx: Endian,
    ) -> Result<Self, DekuError> {
        read_record(reader, ctx)
    }
}

impl DekuWriter<Endian> for Fields {
    ghost meaning = { λ v c. ⟦<Parts as DekuWriter<Endian>>⟧.meaning
        (⟦<Fields as FromParts>⟧.parts_of v) c };

    fn to_writer<W: Sink>(&self, writer: &mut Writer<W>, ctx: Endian) -> Result<(), DekuError> {
        write_record(self, writer, ctx)
    }
}
