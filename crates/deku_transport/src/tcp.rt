//! The header of a TCP segment with its options, RFC 9293.
//!
//! ```text
//!  0       4       8                16                             31
//! +---------------------------------+-------------------------------+
//! |              source             |          destination          |
//! |                             sequence                            |
//! |                          acknowledgment                         |
//! +-------+--------+----------------+-------------------------------+
//! | words |reserved|CEUAPRSF (flags)|            window             |
//! +-------+--------+----------------+-------------------------------+
//! |             checksum            |            urgent             |
//! |          options, four bytes for each word after the fifth      |
//! +-----------------------------------------------------------------+
//! ```
//!
//! Printed by `derive` from `tcp.rs`.

ghost use Rattle.std.specs.Prelude.{◌-◌, ◌*◌, nat_lt, None, Some, if◌then◌else◌, refl};
ghost use Rattle.deku.specs.Composing.{Then};
ghost use Rattle.deku.specs.Shapes.{Shows};
ghost use Rattle.deku_symmetry.specs.Fields.{be, msb};

use deku::device::{Sink, Source};
use deku::prelude::{DekuError, DekuReader, DekuWriter, Reader, Writer};
use deku_symmetry::{
    Be, CountOf, CountOfLaw, CountedBy, CountedByRef, FromParts, Msb, Record, read_record,
};
use std::marker::PhantomData;

/// The header of a segment.
#[derive(Debug, PartialEq, Eq, Drop)]
pub struct Tcp {
    /// The port of the sender.
    pub source: u16,
    /// The port of the receiver.
    pub destination: u16,
    /// The number of the first byte that follows.
    pub sequence: u32,
    /// The number of the byte that is expected next, if `ack` is set.
    pub acknowledgment: u32,
    /// How many words of four bytes the header has: at least 5, 4 bits.
    pub words: u8,
    /// Reserved, 4 bits.
    pub reserved: u8,
    /// The sender sends less, since the network is congested.
    pub cwr: bool,
    /// The network is congested.
    pub ece: bool,
    /// `urgent` counts.
    pub urg: bool,
    /// `acknowledgment` counts.
    pub ack: bool,
    /// The receiver is to hand on what it has.
    pub psh: bool,
    /// The connection is broken off.
    pub rst: bool,
    /// The connection begins.
    pub syn: bool,
    /// The sender sends no more.
    pub fin: bool,
    /// How many bytes the sender can take.
    pub window: u16,
    /// The checksum of the segment and of the addresses.
    pub checksum: u16,
    /// Where urgent bytes end.
    pub urgent: u16,
    /// The options, as whole words.
    pub options: Vec<u8>,
}

type TcpOptionsHead = (
    (
        Msb<u8, 4>,
        Msb<u8, 4>,
        Msb<bool, 1>,
        Msb<bool, 1>,
        Msb<bool, 1>,
        Msb<bool, 1>,
        Msb<bool, 1>,
        Msb<bool, 1>,
    ),
    (Msb<bool, 1>, Msb<bool, 1>, Be<u16>, Be<u16>, Be<u16>),
);

/// How many `options` there are: `(words - 5) * 4`.
#[derive(Debug, PartialEq, Eq, Drop)]
pub struct TcpOptionsCount;

impl CountOf<TcpOptionsHead> for TcpOptionsCount {
    ghost count_of = { λ p. if nat_lt p.0.0.0 5 then None else Some ((p.0.0.0 - 5) * 4) };

    fn count(parts: &TcpOptionsHead) -> Option<usize> {
        let words = parts.0.0.0 as usize;
        if words < 5 {
            return None;
        }
        Some((words - 5) * 4)
    }
}

impl CountOfLaw<TcpOptionsHead> for TcpOptionsCount {
    ghost alike = { λ v w e. rw e.0.0 refl };
}

impl Tcp {
    /// The names of its parts, in their order.
    pub const FIELDS: [&'static str; 18] = [
        "source",
        "destination",
        "sequence",
        "acknowledgment",
        "words",
        "reserved",
        "cwr",
        "ece",
        "urg",
        "ack",
        "psh",
        "rst",
        "syn",
        "fin",
        "window",
        "checksum",
        "urgent",
        "options",
    ];
}

// The parts of Tcp, in their order.
type TcpParts = (
    (Be<u16>, Be<u16>, Be<u32>),
    Be<u32>,
    CountedBy<TcpOptionsHead, TcpOptionsCount, u8>,
);

impl FromParts for Tcp {
    type Parts = TcpParts;

    ghost parts_of = { λ r. (
      (be r.source, be r.destination, be r.sequence),
      be r.acknowledgment,
      record {
        head = (
          (
            msb r.words,
            msb r.reserved,
            msb r.cwr,
            msb r.ece,
            msb r.urg,
            msb r.ack,
            msb r.psh,
            msb r.rst,
          ),
          (msb r.syn, msb r.fin, be r.window, be r.checksum, be r.urgent),
        );
        items = r.options;
        count = record {};
      },
    ) };

    ghost record_of = { λ p. record {
      source = p.0.0.0;
      destination = p.0.1.0;
      sequence = p.0.2.0;
      acknowledgment = p.1.0;
      words = p.2.head.0.0.0;
      reserved = p.2.head.0.1.0;
      cwr = p.2.head.0.2.0;
      ece = p.2.head.0.3.0;
      urg = p.2.head.0.4.0;
      ack = p.2.head.0.5.0;
      psh = p.2.head.0.6.0;
      rst = p.2.head.0.7.0;
      syn = p.2.head.1.0.0;
      fin = p.2.head.1.1.0;
      window = p.2.head.1.2.0;
      checksum = p.2.head.1.3.0;
      urgent = p.2.head.1.4.0;
      options = p.2.items;
    } };

    fn from_parts(parts: Self::Parts) -> Self {
        let (
            (Be(source), Be(destination), Be(sequence)),
            Be(acknowledgment),
            CountedBy {
                head: (
                    (
                        Msb(words),
                        Msb(reserved),
                        Msb(cwr),
                        Msb(ece),
                        Msb(urg),
                        Msb(ack),
                        Msb(psh),
                        Msb(rst),
                    ),
                    (Msb(syn), Msb(fin), Be(window), Be(checksum), Be(urgent)),
                ),
                items: options,
                ..
            },
        ) = parts;
        Tcp {
            source,
            destination,
            sequence,
            acknowledgment,
            words,
            reserved,
            cwr,
            ece,
            urg,
            ack,
            psh,
            rst,
            syn,
            fin,
            window,
            checksum,
            urgent,
            options,
        }
    }

    ghost there = { λ r. refl };
}

impl DekuReader<()> for Tcp {
    ghost no_read_ahead = { ⟦<TcpParts as DekuReader<()>>⟧.no_read_ahead };

    ghost meaning = { λ c. Then (⟦<TcpParts as DekuReader<()>>⟧.meaning c)
        (Shows ⟦<Tcp as FromParts>⟧.parts_of) };

    #[inline(always)]
    fn from_reader_with_ctx<R: Source>(reader: &mut Reader<R>, ctx: ()) -> Result<Self, DekuError> {
        read_record(reader, ctx)
    }
}

impl DekuWriter<()> for Tcp {
    ghost meaning = { λ v. ⟦<TcpParts as DekuWriter<()>>⟧.meaning
        (⟦<Tcp as FromParts>⟧.parts_of v) };

    #[inline(always)]
    fn to_writer<W: Sink>(&self, writer: &mut Writer<W>, ctx: ()) -> Result<(), DekuError> {
        let parts = (
            (Be(self.source), Be(self.destination), Be(self.sequence)),
            Be(self.acknowledgment),
            CountedByRef::<_, TcpOptionsCount, _> {
                head: (
                    (
                        Msb::<_, 4>(self.words),
                        Msb::<_, 4>(self.reserved),
                        Msb::<_, 1>(self.cwr),
                        Msb::<_, 1>(self.ece),
                        Msb::<_, 1>(self.urg),
                        Msb::<_, 1>(self.ack),
                        Msb::<_, 1>(self.psh),
                        Msb::<_, 1>(self.rst),
                    ),
                    (
                        Msb::<_, 1>(self.syn),
                        Msb::<_, 1>(self.fin),
                        Be(self.window),
                        Be(self.checksum),
                        Be(self.urgent),
                    ),
                ),
                items: &self.options,
                count: PhantomData,
            },
        );
        parts.to_writer(writer, ctx)
    }
}

impl Record<()> for Tcp {
    type Layout = TcpParts;

    ghost reads = { λ c b s r u m. m };

    ghost writes = { λ c v b s r u m. m };
}
