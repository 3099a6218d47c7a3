//! A sample of a sensor.
//!
//! Printed by `derive --c` from `sample.rs`.

ghost use Rattle.std.specs.Prelude.{refl};
ghost use Rattle.deku.specs.Composing.{Then};
ghost use Rattle.deku.specs.Shapes.{Shows};
ghost use Rattle.deku_symmetry.specs.Fields.{be, msb};

use deku::device::{Sink, Source};
use deku::prelude::{DekuError, DekuReader, DekuWriter, Reader, Writer};
use deku_c_records::ForC;
use deku_symmetry::{Be, FromParts, Msb, Record, ToParts, read_record, write_record};
use std::alloc::Global;

/// The record `Sample`.
#[repr(C)]
#[derive(Clone, Copy)]
pub struct Sample {
    pub sensor: u8,
    pub state: u8,
    pub value: u16,
}

impl Sample {
    /// The names of its parts, in their order.
    pub const FIELDS: [&'static str; 3] = ["sensor", "state", "value"];
}

// The parts of Sample, in their order.
type SampleParts = (Msb<u8, 4>, Msb<u8, 4>, Be<u16>);

impl FromParts for Sample {
    type Parts = SampleParts;

    ghost parts_of = { λ r. (msb r.sensor, msb r.state, be r.value) };

    ghost record_of = { λ p. record { sensor = p.0.0; state = p.1.0; value = p.2.0 } };

    fn from_parts((Msb(sensor), Msb(state), Be(value)): Self::Parts) -> Self {
        Sample {
            sensor,
            state,
            value,
        }
    }

    ghost there = { λ r. refl };
}

impl ToParts for Sample {
    fn parts(&self) -> Self::Parts {
        (Msb(self.sensor), Msb(self.state), Be(self.value))
    }
}

impl DekuReader<()> for Sample {
    ghost no_read_ahead = { ⟦<SampleParts as DekuReader<()>>⟧.no_read_ahead };

    ghost meaning = { λ c. Then (⟦<SampleParts as DekuReader<()>>⟧.meaning c)
        (Shows ⟦<Sample as FromParts>⟧.parts_of) };

    #[inline(always)]
    fn from_reader_with_ctx<R: Source>(reader: &mut Reader<R>, ctx: ()) -> Result<Self, DekuError> {
        read_record(reader, ctx)
    }
}

impl DekuWriter<()> for Sample {
    ghost meaning = { λ v. ⟦<SampleParts as DekuWriter<()>>⟧.meaning
        (⟦<Sample as FromParts>⟧.parts_of v) };

    #[inline(always)]
    fn to_writer<W: Sink>(&self, writer: &mut Writer<W>, ctx: ()) -> Result<(), DekuError> {
        write_record(self, writer, ctx)
    }
}

impl Record<()> for Sample {
    type Layout = SampleParts;

    ghost reads = { λ c b s r u m. m };

    ghost writes = { λ c v b s r u m. m };
}

/// Reads the record from the first byte on. Returns 0, or the number of the error; the record then
/// stays as it was.
#[unsafe(no_mangle)]
pub extern "C" fn sample_read(alloc: Global, bytes: &[u8], place: &mut Sample) -> u32
    ensures { ⟦<Sample as ForC>⟧.reads_for_c bytes.now result place.old place.new }
{
    Sample::read_for_c(alloc, bytes, place)
}

/// Writes the record to the start of the bytes; those after it stay as they were. Returns 0, or the
/// number of the error.
#[unsafe(no_mangle)]
pub extern "C" fn sample_write(value: &Sample, bytes: &mut [u8]) -> u32
    ensures { ⟦<Sample as ForC>⟧.writes_for_c value.now bytes.old result bytes.new }
{
    value.write_for_c(bytes)
}
