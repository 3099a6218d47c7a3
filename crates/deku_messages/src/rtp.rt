//! The header of a packet of RTP with its sources, RFC 3550.
//!
//! ```text
//! version        2 bits   2
//! padding        1 bit    the last byte says how many bytes at the end do not count
//! extension      1 bit    a header extension follows
//! source_count   4 bits
//! marker         1 bit
//! payload_type   7 bits
//! sequence      16 bits
//! timestamp     32 bits
//! source        32 bits
//! contributing  32 bits each
//! ```
//!
//! Printed by `derive` from `rtp.rs`.

ghost use Rattle.std.specs.Prelude.{nat_eq, Some, codes, refl};
ghost use Rattle.deku.specs.Composing.{Then};
ghost use Rattle.deku.specs.Shapes.{Shows};
ghost use Rattle.deku_symmetry.specs.Fields.{be, msb};

use deku::device::{Sink, Source};
use deku::prelude::{DekuError, DekuReader, DekuWriter, Reader, Writer};
use deku_symmetry::{
    Assert, Be, Check, CheckLaw, CountOf, CountOfLaw, CountedBy, CountedByRef, FromParts, Msb,
    Record, read_record,
};
use std::marker::PhantomData;

/// The header of a packet.
#[derive(Debug, PartialEq, Eq, Drop)]
pub struct Rtp {
    /// 2, of 2 bits.
    pub version: u8,
    /// Whether bytes at the end do not count.
    pub padding: bool,
    /// Whether a header extension follows.
    pub extension: bool,
    /// How many sources contribute, 4 bits.
    pub source_count: u8,
    /// What the profile says, as the end of a picture.
    pub marker: bool,
    /// What the payload is, 7 bits.
    pub payload_type: u8,
    /// One more for each packet.
    pub sequence: u16,
    /// When the payload was sampled.
    pub timestamp: u32,
    /// Who sends.
    pub source: u32,
    /// Whose samples are mixed into it.
    pub contributing: Vec<Be<u32>>,
}

/// What `version` has to be: `version == 2`.
#[derive(Debug, PartialEq, Eq, Drop)]
pub struct RtpVersionValue;

impl Check<Msb<u8, 2>> for RtpVersionValue {
    ghost passes = { λ p. nat_eq p.0 2 };

    ghost text = { codes "version" };

    fn passes(parts: &Msb<u8, 2>) -> bool {
        let version = parts.0;
        version == 2
    }

    fn text() -> &'static str {
        "version"
    }
}

impl CheckLaw<Msb<u8, 2>> for RtpVersionValue {
    ghost alike = { λ v w e. rw e refl };
}

type RtpContributingHead = (
    (Msb<u8, 4>, Msb<bool, 1>, Msb<u8, 7>, Be<u16>, Be<u32>),
    Be<u32>,
);

/// How many `contributing` there are: `source_count`.
#[derive(Debug, PartialEq, Eq, Drop)]
pub struct RtpContributingCount;

impl CountOf<RtpContributingHead> for RtpContributingCount {
    ghost count_of = { λ p. Some p.0.0.0 };

    fn count(parts: &RtpContributingHead) -> Option<usize> {
        let source_count = parts.0.0.0 as usize;
        Some(source_count)
    }
}

impl CountOfLaw<RtpContributingHead> for RtpContributingCount {
    ghost alike = { λ v w e. rw e.0.0 refl };
}

impl Rtp {
    /// The names of its parts, in their order.
    pub const FIELDS: [&'static str; 10] = [
        "version",
        "padding",
        "extension",
        "source_count",
        "marker",
        "payload_type",
        "sequence",
        "timestamp",
        "source",
        "contributing",
    ];
}

// The parts of Rtp, in their order.
type RtpParts = (
    Assert<Msb<u8, 2>, RtpVersionValue>,
    (Msb<bool, 1>, Msb<bool, 1>),
    CountedBy<RtpContributingHead, RtpContributingCount, Be<u32>>,
);

impl FromParts for Rtp {
    type Parts = RtpParts;

    ghost parts_of = { λ r. (
      record { part = msb r.version; check = record {} },
      (msb r.padding, msb r.extension),
      record {
        head = (
          (msb r.source_count, msb r.marker, msb r.payload_type, be r.sequence, be r.timestamp),
          be r.source,
        );
        items = r.contributing;
        count = record {};
      },
    ) };

    ghost record_of = { λ p. record {
      version = p.0.part.0;
      padding = p.1.0.0;
      extension = p.1.1.0;
      source_count = p.2.head.0.0.0;
      marker = p.2.head.0.1.0;
      payload_type = p.2.head.0.2.0;
      sequence = p.2.head.0.3.0;
      timestamp = p.2.head.0.4.0;
      source = p.2.head.1.0;
      contributing = p.2.items;
    } };

    fn from_parts(parts: Self::Parts) -> Self {
        let (
            Assert {
                part: Msb(version),
                ..
            },
            (Msb(padding), Msb(extension)),
            CountedBy {
                head: (
                    (
                        Msb(source_count),
                        Msb(marker),
                        Msb(payload_type),
                        Be(sequence),
                        Be(timestamp),
                    ),
                    Be(source),
                ),
                items: contributing,
                ..
            },
        ) = parts;
        Rtp {
            version,
            padding,
            extension,
            source_count,
            marker,
            payload_type,
            sequence,
            timestamp,
            source,
            contributing,
        }
    }

    ghost there = { λ r. refl };
}

impl DekuReader<()> for Rtp {
    ghost no_read_ahead = { ⟦<RtpParts as DekuReader<()>>⟧.no_read_ahead };

    ghost meaning = { λ c. Then (⟦<RtpParts as DekuReader<()>>⟧.meaning c)
        (Shows ⟦<Rtp as FromParts>⟧.parts_of) };

    #[inline(always)]
    fn from_reader_with_ctx<R: Source>(reader: &mut Reader<R>, ctx: ()) -> Result<Self, DekuError> {
        read_record(reader, ctx)
    }
}

impl DekuWriter<()> for Rtp {
    ghost meaning = { λ v. ⟦<RtpParts as DekuWriter<()>>⟧.meaning
        (⟦<Rtp as FromParts>⟧.parts_of v) };

    #[inline(always)]
    fn to_writer<W: Sink>(&self, writer: &mut Writer<W>, ctx: ()) -> Result<(), DekuError> {
        let parts = (
            Assert::<_, RtpVersionValue> {
                part: Msb::<_, 2>(self.version),
                check: PhantomData,
            },
            (Msb::<_, 1>(self.padding), Msb::<_, 1>(self.extension)),
            CountedByRef::<_, RtpContributingCount, _> {
                head: (
                    (
                        Msb::<_, 4>(self.source_count),
                        Msb::<_, 1>(self.marker),
                        Msb::<_, 7>(self.payload_type),
                        Be(self.sequence),
                        Be(self.timestamp),
                    ),
                    Be(self.source),
                ),
                items: &self.contributing,
                count: PhantomData,
            },
        );
        parts.to_writer(writer, ctx)
    }
}

impl Record<()> for Rtp {
    type Layout = RtpParts;

    ghost reads = { λ c b s r u m. m };

    ghost writes = { λ c v b s r u m. m };
}
