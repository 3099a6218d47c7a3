//! The headers of a capture file, as libpcap writes them: one at the start of the file, and one
//! before each packet. (draft-ietf-opsawg-pcap, "PCAP Capture File Format".)
//!
//! ```text
//! magic        32 bits   A1B2C3D4 for microseconds, A1B23C4D for nanoseconds
//! major        16 bits   2
//! minor        16 bits   4
//! zone         32 bits   of the times, in seconds: always 0
//! figures      32 bits   of the times: always 0
//! longest      32 bits   no more bytes of a packet are kept
//! network      32 bits   what the packets begin with: 1 for Ethernet, 101 for IP
//!
//! seconds      32 bits   since the beginning of 1970
//! fraction     32 bits   micro- or nanoseconds
//! kept         32 bits   how many bytes of the packet follow
//! whole        32 bits   how many bytes the packet had
//! ```
//!
//! The machine that captured gives the order of the bytes in all numbers, and the magic number
//! shows which it was.
//!
//! Printed by `derive` from `pcap.rs`.

ghost use Rattle.std.specs.Prelude.{refl};
ghost use Rattle.deku.specs.Composing.{Then};
ghost use Rattle.deku.specs.Shapes.{Shows};
ghost use Rattle.deku_symmetry.specs.Fields.{be, le};
ghost use Rattle.deku_pieces.specs.declared.either.Either.TheVariants as either;
ghost use Rattle.deku_capture.specs.declared.pcap.Start.TheVariants as start_kinds;

use deku::device::{Sink, Source};
use deku::prelude::{DekuError, DekuReader, DekuWriter, Reader, Writer};
use deku_symmetry::{
    Be, Either, Enum, FromParts, Kind, Le, MsbEnum, Record, ToParts, read_record, write_record,
};

/// The magic number, with which a file starts.
#[derive(Debug, Clone, Copy, PartialEq, Eq)]
pub enum Start {
    /// High bytes first, times in microseconds.
    Big,
    /// High bytes first, times in nanoseconds.
    BigNano,
    /// Low bytes first, times in microseconds.
    Little,
    /// Low bytes first, times in nanoseconds.
    LittleNano,
}

// The parts of Start, in their order.
type StartParts = MsbEnum<
    Either<
        Either<Kind<(), 2712847316>, Kind<(), 2712812621>>,
        Either<Kind<(), 3569595041>, Kind<(), 1295823521>>,
    >,
    32,
>;

impl FromParts for Start {
    type Parts = StartParts;

    ghost parts_of = { elim [
      | start_kinds.Big ↦ record {
        kind = either.This (either.This (record { 0 = tt }));
        id = record {};
      }
      | start_kinds.BigNano ↦ record {
        kind = either.This (either.Other (record { 0 = tt }));
        id = record {};
      }
      | start_kinds.Little ↦ record {
        kind = either.Other (either.This (record { 0 = tt }));
        id = record {};
      }
      | start_kinds.LittleNano ↦ record {
        kind = either.Other (either.Other (record { 0 = tt }));
        id = record {};
      }
    ] };

    ghost record_of = { λ p. elim p.kind [
      | either.This k ↦ elim k [
        | either.This k ↦ start_kinds.Big
        | either.Other k ↦ start_kinds.BigNano
      ]
      | either.Other k ↦ elim k [
        | either.This k ↦ start_kinds.Little
        | either.Other k ↦ start_kinds.LittleNano
      ]
    ] };

    fn from_parts(parts: Self::Parts) -> Self {
        match parts.kind {
            Either::This(Either::This(Kind(()))) => Start::Big,
            Either::This(Either::Other(Kind(()))) => Start::BigNano,
            Either::Other(Either::This(Kind(()))) => Start::Little,
            Either::Other(Either::Other(Kind(()))) => Start::LittleNano,
        }
    }

    ghost there = { elim [
      | start_kinds.Big ↦ refl
      | start_kinds.BigNano ↦ refl
      | start_kinds.Little ↦ refl
      | start_kinds.LittleNano ↦ refl
    ] };
}

impl ToParts for Start {
    fn parts(&self) -> Self::Parts {
        match self {
            Start::Big => Enum::new(Either::This(Either::This(Kind(())))),
            Start::BigNano => Enum::new(Either::This(Either::Other(Kind(())))),
            Start::Little => Enum::new(Either::Other(Either::This(Kind(())))),
            Start::LittleNano => Enum::new(Either::Other(Either::Other(Kind(())))),
        }
    }
}

impl DekuReader<()> for Start {
    ghost no_read_ahead = { ⟦<StartParts as DekuReader<()>>⟧.no_read_ahead };

    ghost meaning = { λ c. Then (⟦<StartParts as DekuReader<()>>⟧.meaning c)
        (Shows ⟦<Start as FromParts>⟧.parts_of) };

    #[inline(always)]
    fn from_reader_with_ctx<R: Source>(reader: &mut Reader<R>, ctx: ()) -> Result<Self, DekuError> {
        read_record(reader, ctx)
    }
}

impl DekuWriter<()> for Start {
    ghost meaning = { λ v. ⟦<StartParts as DekuWriter<()>>⟧.meaning
        (⟦<Start as FromParts>⟧.parts_of v) };

    #[inline(always)]
    fn to_writer<W: Sink>(&self, writer: &mut Writer<W>, ctx: ()) -> Result<(), DekuError> {
        write_record(self, writer, ctx)
    }
}

impl Record<()> for Start {
    type Layout = StartParts;

    ghost reads = { λ c b s r u m. m };

    ghost writes = { λ c v b s r u m. m };
}

/// The header of a file after its magic number, high bytes first.
#[derive(Debug, Clone, Copy, PartialEq, Eq)]
pub struct BigFields {
    /// The version of the format, which is 2.
    pub major: u16,
    /// The version within it, which is 4.
    pub minor: u16,
    /// The time zone of the times, in seconds: always 0.
    pub zone: i32,
    /// How exact the times are: always 0.
    pub figures: u32,
    /// No more bytes of a packet are kept.
    pub longest: u32,
    /// What the packets begin with, in the low 16 bits: 1 for Ethernet, 101 for IP.
    pub network: u32,
}

impl BigFields {
    /// The names of its parts, in their order.
    pub const FIELDS: [&'static str; 6] = [
        "major", "minor", "zone", "figures", "longest", "network",
    ];
}

// The parts of BigFields, in their order.
type BigFieldsParts = ((Be<u16>, Be<u16>, Be<i32>), (Be<u32>, Be<u32>), Be<u32>);

impl FromParts for BigFields {
    type Parts = BigFieldsParts;

    ghost parts_of = { λ r. (
      (be r.major, be r.minor, be r.zone),
      (be r.figures, be r.longest),
      be r.network,
    ) };

    ghost record_of = { λ p. record {
      major = p.0.0.0;
      minor = p.0.1.0;
      zone = p.0.2.0;
      figures = p.1.0.0;
      longest = p.1.1.0;
      network = p.2.0;
    } };

    fn from_parts(parts: Self::Parts) -> Self {
        let ((Be(major), Be(minor), Be(zone)), (Be(figures), Be(longest)), Be(network)) = parts;
        BigFields {
            major,
            minor,
            zone,
            figures,
            longest,
            network,
        }
    }

    ghost there = { λ r. refl };
}

impl ToParts for BigFields {
    fn parts(&self) -> Self::Parts {
        (
            (Be(self.major), Be(self.minor), Be(self.zone)),
            (Be(self.figures), Be(self.longest)),
            Be(self.network),
        )
    }
}

impl DekuReader<()> for BigFields {
    ghost no_read_ahead = { ⟦<BigFieldsParts as DekuReader<()>>⟧.no_read_ahead };

    ghost meaning = { λ c. Then (⟦<BigFieldsParts as DekuReader<()>>⟧.meaning c)
        (Shows ⟦<BigFields as FromParts>⟧.parts_of) };

    #[inline(always)]
    fn from_reader_with_ctx<R: Source>(reader: &mut Reader<R>, ctx: ()) -> Result<Self, DekuError> {
        read_record(reader, ctx)
    }
}

impl DekuWriter<()> for BigFields {
    ghost meaning = { λ v. ⟦<BigFieldsParts as DekuWriter<()>>⟧.meaning
        (⟦<BigFields as FromParts>⟧.parts_of v) };

    #[inline(always)]
    fn to_writer<W: Sink>(&self, writer: &mut Writer<W>, ctx: ()) -> Result<(), DekuError> {
        write_record(self, writer, ctx)
    }
}

impl Record<()> for BigFields {
    type Layout = BigFieldsParts;

    ghost reads = { λ c b s r u m. m };

    ghost writes = { λ c v b s r u m. m };
}

/// The header of a file after its magic number, low bytes first.
#[derive(Debug, Clone, Copy, PartialEq, Eq)]
pub struct LittleFields {
    /// The version of the format, which is 2.
    pub major: u16,
    /// The version within it, which is 4.
    pub minor: u16,
    /// The time zone of the times, in seconds: always 0.
    pub zone: i32,
    /// How exact the times are: always 0.
    pub figures: u32,
    /// No more bytes of a packet are kept.
    pub longest: u32,
    /// What the packets begin with, in the low 16 bits: 1 for Ethernet, 101 for IP.
    pub network: u32,
}

impl LittleFields {
    /// The names of its parts, in their order.
    pub const FIELDS: [&'static str; 6] = [
        "major", "minor", "zone", "figures", "longest", "network",
    ];
}

// The parts of LittleFields, in their order.
type LittleFieldsParts = ((Le<u16>, Le<u16>, Le<i32>), (Le<u32>, Le<u32>), Le<u32>);

impl FromParts for LittleFields {
    type Parts = LittleFieldsParts;

    ghost parts_of = { λ r. (
      (le r.major, le r.minor, le r.zone),
      (le r.figures, le r.longest),
      le r.network,
    ) };

    ghost record_of = { λ p. record {
      major = p.0.0.0;
      minor = p.0.1.0;
      zone = p.0.2.0;
      figures = p.1.0.0;
      longest = p.1.1.0;
      network = p.2.0;
    } };

    fn from_parts(parts: Self::Parts) -> Self {
        let ((Le(major), Le(minor), Le(zone)), (Le(figures), Le(longest)), Le(network)) = parts;
        LittleFields {
            major,
            minor,
            zone,
            figures,
            longest,
            network,
        }
    }

    ghost there = { λ r. refl };
}

impl ToParts for LittleFields {
    fn parts(&self) -> Self::Parts {
        (
            (Le(self.major), Le(self.minor), Le(self.zone)),
            (Le(self.figures), Le(self.longest)),
            Le(self.network),
        )
    }
}

impl DekuReader<()> for LittleFields {
    ghost no_read_ahead = { ⟦<LittleFieldsParts as DekuReader<()>>⟧.no_read_ahead };

    ghost meaning = { λ c. Then (⟦<LittleFieldsParts as DekuReader<()>>⟧.meaning c)
        (Shows ⟦<LittleFields as FromParts>⟧.parts_of) };

    #[inline(always)]
    fn from_reader_with_ctx<R: Source>(reader: &mut Reader<R>, ctx: ()) -> Result<Self, DekuError> {
        read_record(reader, ctx)
    }
}

impl DekuWriter<()> for LittleFields {
    ghost meaning = { λ v. ⟦<LittleFieldsParts as DekuWriter<()>>⟧.meaning
        (⟦<LittleFields as FromParts>⟧.parts_of v) };

    #[inline(always)]
    fn to_writer<W: Sink>(&self, writer: &mut Writer<W>, ctx: ()) -> Result<(), DekuError> {
        write_record(self, writer, ctx)
    }
}

impl Record<()> for LittleFields {
    type Layout = LittleFieldsParts;

    ghost reads = { λ c b s r u m. m };

    ghost writes = { λ c v b s r u m. m };
}

/// The header of a packet, high bytes first.
#[derive(Debug, Clone, Copy, PartialEq, Eq)]
pub struct BigPacket {
    /// When it was captured, in seconds since the beginning of 1970.
    pub seconds: u32,
    /// The rest of that time, in micro- or nanoseconds.
    pub fraction: u32,
    /// How many bytes of the packet follow.
    pub kept: u32,
    /// How many bytes the packet had.
    pub whole: u32,
}

impl BigPacket {
    /// The names of its parts, in their order.
    pub const FIELDS: [&'static str; 4] = ["seconds", "fraction", "kept", "whole"];
}

// The parts of BigPacket, in their order.
type BigPacketParts = ((Be<u32>, Be<u32>), (Be<u32>, Be<u32>));

impl FromParts for BigPacket {
    type Parts = BigPacketParts;

    ghost parts_of = { λ r. ((be r.seconds, be r.fraction), (be r.kept, be r.whole)) };

    ghost record_of = { λ p. record {
      seconds = p.0.0.0;
      fraction = p.0.1.0;
      kept = p.1.0.0;
      whole = p.1.1.0;
    } };

    fn from_parts(((Be(seconds), Be(fraction)), (Be(kept), Be(whole))): Self::Parts) -> Self {
        BigPacket {
            seconds,
            fraction,
            kept,
            whole,
        }
    }

    ghost there = { λ r. refl };
}

impl ToParts for BigPacket {
    fn parts(&self) -> Self::Parts {
        (
            (Be(self.seconds), Be(self.fraction)),
            (Be(self.kept), Be(self.whole)),
        )
    }
}

impl DekuReader<()> for BigPacket {
    ghost no_read_ahead = { ⟦<BigPacketParts as DekuReader<()>>⟧.no_read_ahead };

    ghost meaning = { λ c. Then (⟦<BigPacketParts as DekuReader<()>>⟧.meaning c)
        (Shows ⟦<BigPacket as FromParts>⟧.parts_of) };

    #[inline(always)]
    fn from_reader_with_ctx<R: Source>(reader: &mut Reader<R>, ctx: ()) -> Result<Self, DekuError> {
        read_record(reader, ctx)
    }
}

impl DekuWriter<()> for BigPacket {
    ghost meaning = { λ v. ⟦<BigPacketParts as DekuWriter<()>>⟧.meaning
        (⟦<BigPacket as FromParts>⟧.parts_of v) };

    #[inline(always)]
    fn to_writer<W: Sink>(&self, writer: &mut Writer<W>, ctx: ()) -> Result<(), DekuError> {
        write_record(self, writer, ctx)
    }
}

impl Record<()> for BigPacket {
    type Layout = BigPacketParts;

    ghost reads = { λ c b s r u m. m };

    ghost writes = { λ c v b s r u m. m };
}

/// The header of a packet, low bytes first.
#[derive(Debug, Clone, Copy, PartialEq, Eq)]
pub struct LittlePacket {
    /// When it was captured, in seconds since the beginning of 1970.
    pub seconds: u32,
    /// The rest of that time, in micro- or nanoseconds.
    pub fraction: u32,
    /// How many bytes of the packet follow.
    pub kept: u32,
    /// How many bytes the packet had.
    pub whole: u32,
}

impl LittlePacket {
    /// The names of its parts, in their order.
    pub const FIELDS: [&'static str; 4] = ["seconds", "fraction", "kept", "whole"];
}

// The parts of LittlePacket, in their order.
type LittlePacketParts = ((Le<u32>, Le<u32>), (Le<u32>, Le<u32>));

impl FromParts for LittlePacket {
    type Parts = LittlePacketParts;

    ghost parts_of = { λ r. ((le r.seconds, le r.fraction), (le r.kept, le r.whole)) };

    ghost record_of = { λ p. record {
      seconds = p.0.0.0;
      fraction = p.0.1.0;
      kept = p.1.0.0;
      whole = p.1.1.0;
    } };

    fn from_parts(((Le(seconds), Le(fraction)), (Le(kept), Le(whole))): Self::Parts) -> Self {
        LittlePacket {
            seconds,
            fraction,
            kept,
            whole,
        }
    }

    ghost there = { λ r. refl };
}

impl ToParts for LittlePacket {
    fn parts(&self) -> Self::Parts {
        (
            (Le(self.seconds), Le(self.fraction)),
            (Le(self.kept), Le(self.whole)),
        )
    }
}

impl DekuReader<()> for LittlePacket {
    ghost no_read_ahead = { ⟦<LittlePacketParts as DekuReader<()>>⟧.no_read_ahead };

    ghost meaning = { λ c. Then (⟦<LittlePacketParts as DekuReader<()>>⟧.meaning c)
        (Shows ⟦<LittlePacket as FromParts>⟧.parts_of) };

    #[inline(always)]
    fn from_reader_with_ctx<R: Source>(reader: &mut Reader<R>, ctx: ()) -> Result<Self, DekuError> {
        read_record(reader, ctx)
    }
}

impl DekuWriter<()> for LittlePacket {
    ghost meaning = { λ v. ⟦<LittlePacketParts as DekuWriter<()>>⟧.meaning
        (⟦<LittlePacket as FromParts>⟧.parts_of v) };

    #[inline(always)]
    fn to_writer<W: Sink>(&self, writer: &mut Writer<W>, ctx: ()) -> Result<(), DekuError> {
        write_record(self, writer, ctx)
    }
}

impl Record<()> for LittlePacket {
    type Layout = LittlePacketParts;

    ghost reads = { λ c b s r u m. m };

    ghost writes = { λ c v b s r u m. m };
}
