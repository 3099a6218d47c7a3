//! A sample of telemetry.

ghost use Rattle.std.specs.Prelude.{refl};
ghost use Rattle.deku.specs.Composing.{Then};
ghost use Rattle.deku.specs.Shapes.{Shows};

use deku::device::{Sink, Source};
use deku::prelude::{DekuError, DekuReader, DekuWriter, Reader, Writer};
use deku_symmetry::{FromParts, Msb, Record, ToParts, read_record, write_record};

/// A voltage and a current.
#[derive(Debug, PartialEq, Eq, Drop)]
pub struct Sample {
    /// 10 bits.
    pub voltage: u16,
    /// 12 bits.
    pub current: u16,
}

// The fields, in order.
type Parts = (Msb<u16, 10>, Msb<u16, 12>);

impl FromParts for Sample {
    type Parts = Parts;

    ghost parts_of = { λ r. (record { 0 = r.voltage }, record { 0 = r.current }) };

    ghost record_of = { λ p. record { voltage = p.0.0; current = p.1.0 } };

    fn from_parts(parts: Self::Parts) -> Self {
        let (Msb(voltage), Msb(current)) = parts;
        Sample { voltage, current }
    }

    ghost there = { λ r. refl };
}

impl ToParts for Sample {
    fn parts(&self) -> Self::Parts {
        (Msb(self.voltage), Msb(self.current))
    }
}

impl Record<()> for Sample {
    type Layout = Parts;

    ghost reads = { λ c b s r u m. m };

    ghost writes = { λ c v b s r u m. m };
}

impl DekuReader<()> for Sample {
    ghost no_read_ahead = { ⟦<Parts as DekuReader<()>>⟧.no_read_ahead };

    ghost meaning = { λ _. Then (⟦<Parts as DekuReader<()>>⟧.meaning tt)
        (Shows ⟦<Sample as FromParts>⟧.parts_of) };

    fn from_reader_with_ctx<R: Source>(
        reader: &mut Reader<R>,
        _ctx: (),
    ) -> Result<Self, DekuError> {
        read_record(reader, ())
    }
}

impl DekuWriter<()> for Sample {
    ghost meaning = { λ v _. ⟦<Parts as DekuWriter<()>>⟧.meaning
        (⟦<Sample as FromParts>⟧.parts_of v) tt };

    fn to_writer<W: Sink>(&self, writer: &mut Writer<W>, _ctx: ()) -> Result<(), DekuError> {
        write_record(self, writer, ())
    }
}
