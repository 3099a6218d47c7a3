//! The header of a packet of network time, RFC 5905.
//!
//! ```text
//! leap              2 bits   1 and 2: the day has a second more, or less; 3: no time is known
//! version           3 bits
//! mode              3 bits   3 a client, 4 a server
//! stratum           8 bits   how far from a clock
//! poll              8 bits   how often, as a power of two in seconds
//! precision         8 bits   of the clock, as a power of two in seconds
//! root_delay       32 bits   in seconds, 16 bits after the point
//! root_dispersion  32 bits   the same
//! reference_id     32 bits
//! reference        64 bits   times: seconds since 1900, 32 bits after the point
//! origin           64 bits
//! receive          64 bits
//! transmit         64 bits
//! ```
//!
//! Printed by `derive` from `ntp.rs`.

ghost use Rattle.std.specs.Prelude.{refl};
ghost use Rattle.deku.specs.Composing.{Then};
ghost use Rattle.deku.specs.Shapes.{Shows};
ghost use Rattle.deku_symmetry.specs.Fields.{be, msb};

use deku::device::{Sink, Source};
use deku::prelude::{DekuError, DekuReader, DekuWriter, Reader, Writer};
use deku_symmetry::{Be, FromParts, Msb, Record, ToParts, read_record, write_record};

/// The header of a packet.
#[derive(Debug, Clone, Copy, PartialEq, Eq)]
pub struct Ntp {
    /// Whether a second is added or left out, 2 bits.
    pub leap: u8,
    /// The version of the protocol, 3 bits.
    pub version: u8,
    /// Who speaks: 3 a client, 4 a server, 3 bits.
    pub mode: u8,
    /// How many servers there are from here to a clock.
    pub stratum: u8,
    /// How often packets are sent, as a power of two in seconds.
    pub poll: i8,
    /// The precision of the clock, as a power of two in seconds.
    pub precision: i8,
    /// The time to the clock and back, in units of 1/65536 s.
    pub root_delay: u32,
    /// How wrong the time may be, in the same units.
    pub root_dispersion: u32,
    /// Which clock or server the time comes from.
    pub reference_id: [u8; 4],
    /// When the clock was last set, in units of 2 to the power of -32 s since 1900.
    pub reference: u64,
    /// When the client sent its packet.
    pub origin: u64,
    /// When the server received it.
    pub receive: u64,
    /// When this packet was sent.
    pub transmit: u64,
}

impl Ntp {
    /// The names of its parts, in their order.
    pub const FIELDS: [&'static str; 13] = [
        "leap",
        "version",
        "mode",
        "stratum",
        "poll",
        "precision",
        "root_delay",
        "root_dispersion",
        "reference_id",
        "reference",
        "origin",
        "receive",
        "transmit",
    ];
}

// The parts of Ntp, in their order.
type NtpParts = (
    (Msb<u8, 2>, Msb<u8, 3>, Msb<u8, 3>, u8, i8, i8, Be<u32>),
    Be<u32>,
    [u8; 4],
    Be<u64>,
    Be<u64>,
    Be<u64>,
    Be<u64>,
);

impl FromParts for Ntp {
    type Parts = NtpParts;

    ghost parts_of = { λ r. (
      (msb r.leap, msb r.version, msb r.mode, r.stratum, r.poll, r.precision, be r.root_delay),
      be r.root_dispersion,
      r.reference_id,
      be r.reference,
      be r.origin,
      be r.receive,
      be r.transmit,
    ) };

    ghost record_of = { λ p. record {
      leap = p.0.0.0;
      version = p.0.1.0;
      mode = p.0.2.0;
      stratum = p.0.3;
      poll = p.0.4;
      precision = p.0.5;
      root_delay = p.0.6.0;
      root_dispersion = p.1.0;
      reference_id = p.2;
      reference = p.3.0;
      origin = p.4.0;
      receive = p.5.0;
      transmit = p.6.0;
    } };

    fn from_parts(parts: Self::Parts) -> Self {
        let (
            (Msb(leap), Msb(version), Msb(mode), stratum, poll, precision, Be(root_delay)),
            Be(root_dispersion),
            reference_id,
            Be(reference),
            Be(origin),
            Be(receive),
            Be(transmit),
        ) = parts;
        Ntp {
            leap,
            version,
            mode,
            stratum,
            poll,
            precision,
            root_delay,
            root_dispersion,
            reference_id,
            reference,
            origin,
            receive,
            transmit,
        }
    }

    ghost there = { λ r. refl };
}

impl ToParts for Ntp {
    fn parts(&self) -> Self::Parts {
        (
            (
                Msb(self.leap),
                Msb(self.version),
                Msb(self.mode),
                self.stratum,
                self.poll,
                self.precision,
                Be(self.root_delay),
            ),
            Be(self.root_dispersion),
            self.reference_id,
            Be(self.reference),
            Be(self.origin),
            Be(self.receive),
            Be(self.transmit),
        )
    }
}

impl DekuReader<()> for Ntp {
    ghost no_read_ahead = { ⟦<NtpParts as DekuReader<()>>⟧.no_read_ahead };

    ghost meaning = { λ c. Then (⟦<NtpParts as DekuReader<()>>⟧.meaning c)
        (Shows ⟦<Ntp as FromParts>⟧.parts_of) };

    #[inline(always)]
    fn from_reader_with_ctx<R: Source>(reader: &mut Reader<R>, ctx: ()) -> Result<Self, DekuError> {
        read_record(reader, ctx)
    }
}

impl DekuWriter<()> for Ntp {
    ghost meaning = { λ v. ⟦<NtpParts as DekuWriter<()>>⟧.meaning
        (⟦<Ntp as FromParts>⟧.parts_of v) };

    #[inline(always)]
    fn to_writer<W: Sink>(&self, writer: &mut Writer<W>, ctx: ()) -> Result<(), DekuError> {
        write_record(self, writer, ctx)
    }
}

impl Record<()> for Ntp {
    type Layout = NtpParts;

    ghost reads = { λ c b s r u m. m };

    ghost writes = { λ c v b s r u m. m };
}
