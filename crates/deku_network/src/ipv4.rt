//! The header of an IPv4 packet with its options, RFC 791. The byte after the length of the header
//! is that of RFC 2474 and RFC 3168.
//!
//! ```text
//!  0       4       8              14  16                           31
//! +-------+-------+--------------+---+------------------------------+
//! |   4   | words |   service    |con|            total             |
//! +-------+-------+--------------+---+-+-+-+------------------------+
//! |          identification          |r|k|m|         offset         |
//! +---------------+------------------+-+-+-+------------------------+
//! |     hops      |     protocol     |           checksum           |
//! +---------------+------------------+------------------------------+
//! |                              source                             |
//! |                           destination                           |
//! |          options, four bytes for each word after the fifth      |
//! +-----------------------------------------------------------------+
//! ```
//!
//! Printed by `derive` from `ipv4.rs`.

ghost use Rattle.std.specs.Prelude.{◌-◌, ◌*◌, nat_eq, nat_lt, None, Some, if◌then◌else◌, codes, refl};
ghost use Rattle.deku.specs.Composing.{Then};
ghost use Rattle.deku.specs.Shapes.{Shows};
ghost use Rattle.deku_symmetry.specs.Fields.{be, msb};

use deku::device::{Sink, Source};
use deku::prelude::{DekuError, DekuReader, DekuWriter, Reader, Writer};
use deku_symmetry::{
    Assert, Be, Check, CheckLaw, CountOf, CountOfLaw, CountedBy, CountedByRef, FromParts, Msb,
    Record, read_record,
};
use std::marker::PhantomData;
use std::net::Ipv4Addr;

/// The header of a packet.
#[derive(Debug, PartialEq, Eq, Drop)]
pub struct Ipv4 {
    /// 4, of 4 bits.
    pub version: u8,
    /// How many words of four bytes the header has: at least 5, 4 bits.
    pub words: u8,
    /// The kind of service, 6 bits.
    pub service: u8,
    /// Whether the network is congested, 2 bits.
    pub congestion: u8,
    /// The bytes of the header and what follows it.
    pub total: u16,
    /// Of all fragments of a packet the same.
    pub identification: u16,
    /// Reserved.
    pub reserved: bool,
    /// Whether the packet may not be cut into fragments.
    pub keep_whole: bool,
    /// Whether more fragments follow this one.
    pub more: bool,
    /// Where this fragment begins, in units of eight bytes, 13 bits.
    pub offset: u16,
    /// How many routers may still pass it on.
    pub hops: u8,
    /// What follows: 1 ICMP, 6 TCP, 17 UDP.
    pub protocol: u8,
    /// The checksum of the header.
    pub checksum: u16,
    /// Who sent it.
    pub source: Ipv4Addr,
    /// Whom it is for.
    pub destination: Ipv4Addr,
    /// The options, as whole words.
    pub options: Vec<u8>,
}

/// What `version` has to be: `version == 4`.
#[derive(Debug, PartialEq, Eq, Drop)]
pub struct Ipv4VersionValue;

impl Check<Msb<u8, 4>> for Ipv4VersionValue {
    ghost passes = { λ p. nat_eq p.0 4 };

    ghost text = { codes "version" };

    fn passes(parts: &Msb<u8, 4>) -> bool {
        let version = parts.0;
        version == 4
    }

    fn text() -> &'static str {
        "version"
    }
}

impl CheckLaw<Msb<u8, 4>> for Ipv4VersionValue {
    ghost alike = { λ v w e. rw e refl };
}

type Ipv4OptionsHead = (
    (
        Msb<u8, 4>,
        Msb<u8, 6>,
        Msb<u8, 2>,
        Be<u16>,
        Be<u16>,
        Msb<bool, 1>,
        Msb<bool, 1>,
        Msb<bool, 1>,
    ),
    (Msb<u16, 13>, u8, u8, Be<u16>),
    (Be<Ipv4Addr>, Be<Ipv4Addr>),
);

/// How many `options` there are: `(words - 5) * 4`.
#[derive(Debug, PartialEq, Eq, Drop)]
pub struct Ipv4OptionsCount;

impl CountOf<Ipv4OptionsHead> for Ipv4OptionsCount {
    ghost count_of = { λ p. if nat_lt p.0.0.0 5 then None else Some ((p.0.0.0 - 5) * 4) };

    fn count(parts: &Ipv4OptionsHead) -> Option<usize> {
        let words = parts.0.0.0 as usize;
        if words < 5 {
            return None;
        }
        Some((words - 5) * 4)
    }
}

impl CountOfLaw<Ipv4OptionsHead> for Ipv4OptionsCount {
    ghost alike = { λ v w e. rw e.0.0 refl };
}

impl Ipv4 {
    /// The names of its parts, in their order.
    pub const FIELDS: [&'static str; 16] = [
        "version",
        "words",
        "service",
        "congestion",
        "total",
        "identification",
        "reserved",
        "keep_whole",
        "more",
        "offset",
        "hops",
        "protocol",
        "checksum",
        "source",
        "destination",
        "options",
    ];
}

// The parts of Ipv4, in their order.
type Ipv4Parts = (
    Assert<Msb<u8, 4>, Ipv4VersionValue>,
    CountedBy<Ipv4OptionsHead, Ipv4OptionsCount, u8>,
);

impl FromParts for Ipv4 {
    type Parts = Ipv4Parts;

    ghost parts_of = { λ r. (
      record { part = msb r.version; check = record {} },
      record {
        head = (
          (
            msb r.words,
            msb r.service,
            msb r.congestion,
            be r.total,
            be r.identification,
            msb r.reserved,
            msb r.keep_whole,
            msb r.more,
          ),
          (msb r.offset, r.hops, r.protocol, be r.checksum),
          (be r.source, be r.destination),
        );
        items = r.options;
        count = record {};
      },
    ) };

    ghost record_of = { λ p. record {
      version = p.0.part.0;
      words = p.1.head.0.0.0;
      service = p.1.head.0.1.0;
      congestion = p.1.head.0.2.0;
      total = p.1.head.0.3.0;
      identification = p.1.head.0.4.0;
      reserved = p.1.head.0.5.0;
      keep_whole = p.1.head.0.6.0;
      more = p.1.head.0.7.0;
      offset = p.1.head.1.0.0;
      hops = p.1.head.1.1;
      protocol = p.1.head.1.2;
      checksum = p.1.head.1.3.0;
      source = p.1.head.2.0.0;
      destination = p.1.head.2.1.0;
      options = p.1.items;
    } };

    fn from_parts(parts: Self::Parts) -> Self {
        let (
            Assert {
                part: Msb(version),
                ..
            },
            CountedBy {
                head: (
                    (
                        Msb(words),
                        Msb(service),
                        Msb(congestion),
                        Be(total),
                        Be(identification),
                        Msb(reserved),
                        Msb(keep_whole),
                        Msb(more),
                    ),
                    (Msb(offset), hops, protocol, Be(checksum)),
                    (Be(source), Be(destination)),
                ),
                items: options,
                ..
            },
        ) = parts;
        Ipv4 {
            version,
            words,
            service,
            congestion,
            total,
            identification,
            reserved,
            keep_whole,
            more,
            offset,
            hops,
            protocol,
            checksum,
            source,
            destination,
            options,
        }
    }

    ghost there = { λ r. refl };
}

impl DekuReader<()> for Ipv4 {
    ghost no_read_ahead = { ⟦<Ipv4Parts as DekuReader<()>>⟧.no_read_ahead };

    ghost meaning = { λ c. Then (⟦<Ipv4Parts as DekuReader<()>>⟧.meaning c)
        (Shows ⟦<Ipv4 as FromParts>⟧.parts_of) };

    #[inline(always)]
    fn from_reader_with_ctx<R: Source>(reader: &mut Reader<R>, ctx: ()) -> Result<Self, DekuError> {
        read_record(reader, ctx)
    }
}

impl DekuWriter<()> for Ipv4 {
    ghost meaning = { λ v. ⟦<Ipv4Parts as DekuWriter<()>>⟧.meaning
        (⟦<Ipv4 as FromParts>⟧.parts_of v) };

    #[inline(always)]
    fn to_writer<W: Sink>(&self, writer: &mut Writer<W>, ctx: ()) -> Result<(), DekuError> {
        let parts = (
            Assert::<_, Ipv4VersionValue> {
                part: Msb::<_, 4>(self.version),
                check: PhantomData,
            },
            CountedByRef::<_, Ipv4OptionsCount, _> {
                head: (
                    (
                        Msb::<_, 4>(self.words),
                        Msb::<_, 6>(self.service),
                        Msb::<_, 2>(self.congestion),
                        Be(self.total),
                        Be(self.identification),
                        Msb::<_, 1>(self.reserved),
                        Msb::<_, 1>(self.keep_whole),
                        Msb::<_, 1>(self.more),
                    ),
                    (
                        Msb::<_, 13>(self.offset),
                        self.hops,
                        self.protocol,
                        Be(self.checksum),
                    ),
                    (Be(self.source), Be(self.destination)),
                ),
                items: &self.options,
                count: PhantomData,
            },
        );
        parts.to_writer(writer, ctx)
    }
}

impl Record<()> for Ipv4 {
    type Layout = Ipv4Parts;

    ghost reads = { λ c b s r u m. m };

    ghost writes = { λ c v b s r u m. m };
}
