//! A CCSDS space packet with telemetry: the primary header of CCSDS 133.0-B-2, section 4.1.3, and
//! samples of 10 and 12 bits after it.
//!
//! ```text
//! version      3 bits     0
//! kind         1 bit      0: telemetry, 1: command
//! secondary    1 bit      whether a secondary header follows
//! application 11 bits     the application process identifier
//! grouping     2 bits     3: a packet of its own
//! count       14 bits     the sequence count
//! length      16 bits     the number of bytes after the header, minus one
//! samples     22 bits each: a voltage of 10 bits and a current of 12, the high bits first;
//!                         four of them fill eleven bytes
//! ```

ghost use Rattle.std.specs.Prelude.{refl};
ghost use Rattle.deku.specs.Composing.{Then};
ghost use Rattle.deku.specs.Shapes.{Shows};

pub mod header;
pub mod sample;

use deku::device::{Sink, Source};
use deku::prelude::{DekuError, DekuReader, DekuWriter, Reader, Writer};
use deku_symmetry::{Counted, FromParts, Record, read_record, write_counted};
use header::Header;
use sample::Sample;

/// A packet of samples.
#[derive(Debug, PartialEq, Eq, Drop)]
pub struct Telemetry {
    /// The primary header, whose length says how many samples there are.
    pub header: Header,
    /// The samples, four for each eleven bytes.
    pub samples: Vec<Sample>,
}

// The header, and as many samples as it says.
type Parts = Counted<Header, Sample>;

impl FromParts for Telemetry {
    type Parts = Parts;

    ghost parts_of = { λ r. record { head = r.header; items = r.samples } };

    ghost record_of = { λ p. record { header = p.head; samples = p.items } };

    fn from_parts(parts: Self::Parts) -> Self {
        Telemetry {
            header: parts.head,
            samples: parts.items,
        }
    }

    ghost there = { λ r. refl };
}

impl Record<()> for Telemetry {
    type Layout = Parts;

    ghost reads = { λ c b s r u m. m };

    ghost writes = { λ c v b s r u m. m };
}

impl DekuReader<()> for Telemetry {
    ghost no_read_ahead = { ⟦<Parts as DekuReader<()>>⟧.no_read_ahead };

    ghost meaning = { λ _. Then (⟦<Parts as DekuReader<()>>⟧.meaning tt)
        (Shows ⟦<Telemetry as FromParts>⟧.parts_of) };

    fn from_reader_with_ctx<R: Source>(
        reader: &mut Reader<R>,
        _ctx: (),
    ) -> Result<Self, DekuError> {
        read_record(reader, ())
    }
}

impl DekuWriter<()> for Telemetry {
    ghost meaning = { λ v _. ⟦<Parts as DekuWriter<()>>⟧.meaning
        (⟦<Telemetry as FromParts>⟧.parts_of v) tt };

    fn to_writer<W: Sink>(&self, writer: &mut Writer<W>, _ctx: ()) -> Result<(), DekuError> {
        write_counted(&self.header, &self.samples, writer)
    }
}
