//! One sample.

ghost use Rattle.deku.specs.Composing.{JoinedBy, Both};
ghost use Rattle.deku.specs.declared.ctx.Endian.TheVariants.{Big};

use deku::ctx::Endian::Big;
use deku::ctx::{BitSize, Endian};
use deku::device::{Sink, Source};
use deku::prelude::{DekuError, DekuReader, DekuWriter, Reader, Writer};

/// Four bits of a sensor's number, four of its state, and two bytes of a value, all with their high
/// bits first.
#[derive(Debug, PartialEq, Eq, Drop)]
pub struct Sample {
    pub sensor: u8,
    pub state: u8,
    pub value: u16,
}

impl DekuReader<()> for Sample {
    ghost meaning = { λ _. JoinedBy (λ halves value.
        record { sensor = halves.0; state = halves.1; value = value })
        (⟦<(u8, u8) as DekuReader<(Endian, BitSize)>>⟧.meaning (Big, record { 0 = 4 }))
        (⟦<u16 as DekuReader<Endian>>⟧.meaning Big) };

    fn from_reader_with_ctx<R: Source>(
        reader: &mut Reader<R>,
        _ctx: (),
    ) -> Result<Self, DekuError> {
        let (sensor, state) = <(u8, u8)>::from_reader_with_ctx(reader, (Big, BitSize(4)))?;
        let value = u16::from_reader_with_ctx(reader, Big)?;
        Ok(Sample {
            sensor,
            state,
            value,
        })
    }
}

impl DekuWriter<()> for Sample {
    ghost meaning = { λ sample _. Both
        (⟦<(u8, u8) as DekuWriter<(Endian, BitSize)>>⟧.meaning (sample.sensor, sample.state)
        (Big, record { 0 = 4 }))
        (⟦<u16 as DekuWriter<Endian>>⟧.meaning sample.value Big) };

    fn to_writer<W: Sink>(&self, writer: &mut Writer<W>, _ctx: ()) -> Result<(), DekuError> {
        (self.sensor, self.state).to_writer(writer, (Big, BitSize(4)))?;
        self.value.to_writer(writer, Big)
    }
}

#[cfg(test)]
mod tests;
