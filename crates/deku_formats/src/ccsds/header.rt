//! The primary header of a packet.

ghost use Rattle.std.specs.Prelude.{refl};
ghost use Rattle.deku_formats.specs.Ccsds.{samples_behind};
ghost use Rattle.deku.specs.Composing.{Then};
ghost use Rattle.deku.specs.Shapes.{Shows};

use deku::device::{Sink, Source};
use deku::prelude::{DekuError, DekuReader, DekuWriter, Reader, Writer};
use deku_symmetry::{
    FromParts, ItemCount, ItemCountLaw, Msb, Record, ToParts, read_record, write_record,
};

/// The primary header.
#[derive(Debug, PartialEq, Eq, Drop)]
pub struct Header {
    /// The version of the packet, 3 bits.
    pub version: u8,
    /// Telemetry or a command, 1 bit.
    pub kind: u8,
    /// Whether a secondary header follows, 1 bit.
    pub secondary: u8,
    /// The application process identifier, 11 bits.
    pub application: u16,
    /// The place of the packet in a group, 2 bits.
    pub grouping: u8,
    /// The sequence count, 14 bits.
    pub count: u16,
    /// The number of bytes after the header, minus one.
    pub length: u16,
}

// The fields, in order.
type Parts = (
    (Msb<u8, 3>, Msb<u8, 1>, Msb<u8, 1>, Msb<u16, 11>),
    (Msb<u8, 2>, Msb<u16, 14>),
    Msb<u16, 16>,
);

impl FromParts for Header {
    type Parts = Parts;

    ghost parts_of = { λ r. (
      (
        record { 0 = r.version },
        record { 0 = r.kind },
        record { 0 = r.secondary },
        record { 0 = r.application },
      ),
      (record { 0 = r.grouping }, record { 0 = r.count }),
      record { 0 = r.length },
    ) };

    ghost record_of = { λ p. record {
      version = p.0.0.0;
      kind = p.0.1.0;
      secondary = p.0.2.0;
      application = p.0.3.0;
      grouping = p.1.0.0;
      count = p.1.1.0;
      length = p.2.0;
    } };

    fn from_parts(parts: Self::Parts) -> Self {
        let (identification, (Msb(grouping), Msb(count)), Msb(length)) = parts;
        let (Msb(version), Msb(kind), Msb(secondary), Msb(application)) = identification;
        Header {
            version,
            kind,
            secondary,
            application,
            grouping,
            count,
            length,
        }
    }

    ghost there = { λ r. refl };
}

impl ToParts for Header {
    fn parts(&self) -> Self::Parts {
        (
            (
                Msb(self.version),
                Msb(self.kind),
                Msb(self.secondary),
                Msb(self.application),
            ),
            (Msb(self.grouping), Msb(self.count)),
            Msb(self.length),
        )
    }
}

/// Four samples for each eleven bytes. Other numbers of bytes name no count.
impl ItemCount for Header {
    ghost count_of = { λ h. samples_behind h.length };

    #[tactic(auto, unfolding(crate::specs::Ccsds::samples_behind))]
    fn count(&self) -> Option<usize> {
        let bytes = self.length as usize + 1;
        if bytes % 11 == 0 {
            Some(bytes / 11 * 4)
        } else {
            None
        }
    }
}

impl ItemCountLaw for Header {
    ghost alike = { λ v w e. rw e.1.1 refl };
}

impl Record<()> for Header {
    type Layout = Parts;

    ghost reads = { λ c b s r u m. m };

    ghost writes = { λ c v b s r u m. m };
}

impl DekuReader<()> for Header {
    ghost no_read_ahead = { ⟦<Parts as DekuReader<()>>⟧.no_read_ahead };

    ghost meaning = { λ _. Then (⟦<Parts as DekuReader<()>>⟧.meaning tt)
        (Shows ⟦<Header as FromParts>⟧.parts_of) };

    fn from_reader_with_ctx<R: Source>(
        reader: &mut Reader<R>,
        _ctx: (),
    ) -> Result<Self, DekuError> {
        read_record(reader, ())
    }
}

impl DekuWriter<()> for Header {
    ghost meaning = { λ v _. ⟦<Parts as DekuWriter<()>>⟧.meaning
        (⟦<Header as FromParts>⟧.parts_of v) tt };

    fn to_writer<W: Sink>(&self, writer: &mut Writer<W>, _ctx: ()) -> Result<(), DekuError> {
        write_record(self, writer, ())
    }
}
