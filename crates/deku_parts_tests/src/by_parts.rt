//! Records that are stated by their parts.

ghost use Rattle.std.specs.Prelude.{refl};
ghost use Rattle.deku.specs.Composing.{Then};
ghost use Rattle.deku.specs.Shapes.{Shows};
ghost use Rattle.deku_symmetry.specs.Fields.{be};

use deku::device::{Sink, Source};
use deku::prelude::{DekuError, DekuReader, DekuWriter, NeedSize, Reader, Writer};
use deku_coded::Coded;
use deku_symmetry::{Be, FromParts, Msb, Record, Symmetric, ToParts, read_record};
use deku_testing_values::expecting::{MISFIT, expect_bytes, expect_written, same, writer_in};
use deku_testing_values::records::{expect_both_ways, expect_record, expect_refusal};
use std::test::Fail;

/// The header of a datagram.
#[derive(Debug, Clone, Copy, PartialEq, Eq)]
pub struct Datagram {
    pub source: u16,
    pub destination: u16,
    pub length: u16,
    pub checksum: u16,
}

impl FromParts for Datagram {
    type Parts = (Be<u16>, Be<u16>, Be<u16>, Be<u16>);

    ghost parts_of = { λ r. (be r.source, be r.destination, be r.length, be r.checksum) };

    ghost record_of = { λ p. record {
      source = p.0.0;
      destination = p.1.0;
      length = p.2.0;
      checksum = p.3.0;
    } };

    fn from_parts((Be(source), Be(destination), Be(length), Be(checksum)): Self::Parts) -> Self {
        Datagram {
            source,
            destination,
            length,
            checksum,
        }
    }

    ghost there = { λ r. refl };
}

impl ToParts for Datagram {
    fn parts(&self) -> Self::Parts {
        (
            Be(self.source),
            Be(self.destination),
            Be(self.length),
            Be(self.checksum),
        )
    }
}

// A year since 1900, in seven bits.
#[derive(Debug, PartialEq, Eq, Drop)]
struct Year {
    since: u8,
}

// The parts of Year, in their order.
type YearParts = Msb<u8, 7>;

impl FromParts for Year {
    type Parts = YearParts;

    ghost parts_of = { λ y. record { 0 = y.since } };

    ghost record_of = { λ p. record { since = p.0 } };

    fn from_parts(Msb(since): Self::Parts) -> Self {
        Year { since }
    }

    ghost there = { λ y. refl };
}

impl DekuReader<()> for Year {
    ghost no_read_ahead = { ⟦<YearParts as DekuReader<()>>⟧.no_read_ahead };

    ghost meaning = { λ c. Then (⟦<YearParts as DekuReader<()>>⟧.meaning c)
        (Shows ⟦<Year as FromParts>⟧.parts_of) };

    #[inline(always)]
    fn from_reader_with_ctx<R: Source>(reader: &mut Reader<R>, ctx: ()) -> Result<Self, DekuError> {
        read_record(reader, ctx)
    }
}

impl DekuWriter<()> for Year {
    ghost meaning = { λ v. ⟦<YearParts as DekuWriter<()>>⟧.meaning
        (⟦<Year as FromParts>⟧.parts_of v) };

    #[inline(always)]
    fn to_writer<W: Sink>(&self, writer: &mut Writer<W>, ctx: ()) -> Result<(), DekuError> {
        Msb::<u8, 7>(self.since).to_writer(writer, ctx)
    }
}

impl Record<()> for Year {
    type Layout = YearParts;

    ghost reads = { λ c b s r u m. m };

    ghost writes = { λ c v b s r u m. m };
}

const QUESTION: Datagram = Datagram {
    source: 1024,
    destination: 53,
    length: 8,
    checksum: 0xBEEF,
};

#[test]
fn a_record(rt: HostRuntime) -> Result<(), Fail> {
    let bytes = [0x04, 0x00, 0x00, 0x35, 0x00, 0x08, 0xBE, 0xEF];
    expect_record(rt.alloc(), &Coded(QUESTION), &bytes)?;
    let ended = DekuError::Incomplete(NeedSize::new(16));
    expect_refusal::<Coded<Datagram>>(rt.alloc(), &[0x04, 0x00, 0x00], ended, 16)
}

#[test]
fn records_in_a_row(rt: HostRuntime) -> Result<(), Fail> {
    let row = (Coded(QUESTION), Year { since: 126 }, Msb::<u8, 1>(1));
    let bytes = [0x04, 0x00, 0x00, 0x35, 0x00, 0x08, 0xBE, 0xEF, 0xFD];
    expect_both_ways(rt.alloc(), (), &row, 72, &bytes)
}

#[test]
fn a_late_year(rt: HostRuntime) -> Result<(), Fail> {
    let late = (Year { since: 128 }, Msb::<u8, 1>(1));
    same(&128, &late.pack(rt.alloc(), ()), &Err(MISFIT))
}

#[test]
fn a_record_that_is_lent(rt: HostRuntime) -> Result<(), Fail> {
    let (lent, kept) = (
        Coded(QUESTION),
        [0x04, 0x00, 0x00, 0x35, 0x00, 0x08, 0xBE, 0xEF],
    );
    let mut writer = writer_in(rt.alloc());
    (&lent).to_writer(&mut writer, ())?;
    expect_bytes(&lent, writer, &kept)?;
    expect_written(rt.alloc(), (), &lent, &kept)
}
