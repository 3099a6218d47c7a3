//! One sample.

ghost use Rattle.std.specs.Prelude.{refl};
ghost use Rattle.deku.specs.Composing.{Then};
ghost use Rattle.deku.specs.Shapes.{Shows};

use deku::device::{Sink, Source};
use deku::prelude::{DekuError, DekuReader, DekuWriter, Reader, Writer};
use deku_symmetry::{Be, FromParts, Msb, Record, ToParts, read_record, write_record};

/// Four bits of a sensor's number, four of its state, and two bytes of a value, all with their high
/// bits first.
#[derive(Debug, PartialEq, Eq, Drop)]
pub struct Sample {
    pub sensor: u8,
    pub state: u8,
    pub value: u16,
}

// The fields as they are laid out.
type Parts = (Msb<u8, 4>, Msb<u8, 4>, Be<u16>);

impl FromParts for Sample {
    type Parts = Parts;

    ghost parts_of = { λ s. (
      record { 0 = s.sensor },
      record { 0 = s.state },
      record { 0 = s.value },
    ) };

    ghost record_of = { λ p. record { sensor = p.0.0; state = p.1.0; value = p.2.0 } };

    fn from_parts(parts: Self::Parts) -> Self {
        let (Msb(sensor), Msb(state), Be(value)) = parts;
        Sample {
            sensor,
            state,
            value,
        }
    }

    ghost there = { λ s. refl };
}

impl ToParts for Sample {
    fn parts(&self) -> Self::Parts {
        (Msb(self.sensor), Msb(self.state), Be(self.value))
    }
}

impl Record<()> for Sample {
    type Layout = Parts;

    ghost reads = { λ c b s r u m. m };

    ghost writes = { λ c v b s r u m. m };
}

impl DekuReader<()> for Sample {
    ghost no_read_ahead = { ⟦<Parts as DekuReader<()>>⟧.no_read_ahead };

    ghost meaning = { λ _. Then (⟦<Parts as DekuReader<()>>⟧.meaning tt)
        (Shows ⟦<Sample as FromParts>⟧.parts_of) };

    fn from_reader_with_ctx<R: Source>(
        reader: &mut Reader<R>,
        _ctx: (),
    ) -> Result<Self, DekuError> {
        read_record(reader, ())
    }
}

impl DekuWriter<()> for Sample {
    ghost meaning = { λ v _. ⟦<Parts as DekuWriter<()>>⟧.meaning
        (⟦<Sample as FromParts>⟧.parts_of v) tt };

    fn to_writer<W: Sink>(&self, writer: &mut Writer<W>, _ctx: ()) -> Result<(), DekuError> {
        write_record(self, writer, ())
    }
}

#[cfg(test)]
mod tests;
