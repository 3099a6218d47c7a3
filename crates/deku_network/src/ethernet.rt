//! The header of an Ethernet frame and the tag of a virtual network, IEEE 802.3 and 802.1Q.
//!
//! ```text
//! destination  48 bits
//! source       48 bits
//! kind         16 bits   what follows: 0800 IPv4, 0806 ARP, 86DD IPv6, 8100 and 88A8 a tag;
//!                        less than 1536: how many bytes follow
//!
//! priority      3 bits
//! may_drop      1 bit
//! network      12 bits
//! kind         16 bits   what follows the tag
//! ```
//!
//! Printed by `derive` from `ethernet.rs`.

ghost use Rattle.std.specs.Prelude.{refl};
ghost use Rattle.deku.specs.Composing.{Then};
ghost use Rattle.deku.specs.Shapes.{Shows};
ghost use Rattle.deku_symmetry.specs.Fields.{be, msb};

use deku::device::{Sink, Source};
use deku::prelude::{DekuError, DekuReader, DekuWriter, Reader, Writer};
use deku_symmetry::{Be, FromParts, Msb, Record, ToParts, read_record, write_record};

/// The header of a frame.
#[derive(Debug, Clone, Copy, PartialEq, Eq)]
pub struct Ethernet {
    /// The address of the receiver.
    pub destination: [u8; 6],
    /// The address of the sender.
    pub source: [u8; 6],
    /// What follows, or how many bytes if it is less than 1536.
    pub kind: u16,
}

impl Ethernet {
    /// The names of its parts, in their order.
    pub const FIELDS: [&'static str; 3] = ["destination", "source", "kind"];
}

// The parts of Ethernet, in their order.
type EthernetParts = ([u8; 6], [u8; 6], Be<u16>);

impl FromParts for Ethernet {
    type Parts = EthernetParts;

    ghost parts_of = { λ r. (r.destination, r.source, be r.kind) };

    ghost record_of = { λ p. record { destination = p.0; source = p.1; kind = p.2.0 } };

    fn from_parts((destination, source, Be(kind)): Self::Parts) -> Self {
        Ethernet {
            destination,
            source,
            kind,
        }
    }

    ghost there = { λ r. refl };
}

impl ToParts for Ethernet {
    fn parts(&self) -> Self::Parts {
        (self.destination, self.source, Be(self.kind))
    }
}

impl DekuReader<()> for Ethernet {
    ghost no_read_ahead = { ⟦<EthernetParts as DekuReader<()>>⟧.no_read_ahead };

    ghost meaning = { λ c. Then (⟦<EthernetParts as DekuReader<()>>⟧.meaning c)
        (Shows ⟦<Ethernet as FromParts>⟧.parts_of) };

    #[inline(always)]
    fn from_reader_with_ctx<R: Source>(reader: &mut Reader<R>, ctx: ()) -> Result<Self, DekuError> {
        read_record(reader, ctx)
    }
}

impl DekuWriter<()> for Ethernet {
    ghost meaning = { λ v. ⟦<EthernetParts as DekuWriter<()>>⟧.meaning
        (⟦<Ethernet as FromParts>⟧.parts_of v) };

    #[inline(always)]
    fn to_writer<W: Sink>(&self, writer: &mut Writer<W>, ctx: ()) -> Result<(), DekuError> {
        write_record(self, writer, ctx)
    }
}

impl Record<()> for Ethernet {
    type Layout = EthernetParts;

    ghost reads = { λ c b s r u m. m };

    ghost writes = { λ c v b s r u m. m };
}

/// The tag of a virtual network.
#[derive(Debug, Clone, Copy, PartialEq, Eq)]
pub struct Tag {
    /// How urgent the frame is, 3 bits.
    pub priority: u8,
    /// Whether the frame may be dropped before others.
    pub may_drop: bool,
    /// The number of the network, 12 bits.
    pub network: u16,
    /// What follows the tag.
    pub kind: u16,
}

impl Tag {
    /// The names of its parts, in their order.
    pub const FIELDS: [&'static str; 4] = ["priority", "may_drop", "network", "kind"];
}

// The parts of Tag, in their order.
type TagParts = (Msb<u8, 3>, Msb<bool, 1>, Msb<u16, 12>, Be<u16>);

impl FromParts for Tag {
    type Parts = TagParts;

    ghost parts_of = { λ r. (msb r.priority, msb r.may_drop, msb r.network, be r.kind) };

    ghost record_of = { λ p. record {
      priority = p.0.0;
      may_drop = p.1.0;
      network = p.2.0;
      kind = p.3.0;
    } };

    fn from_parts((Msb(priority), Msb(may_drop), Msb(network), Be(kind)): Self::Parts) -> Self {
        Tag {
            priority,
            may_drop,
            network,
            kind,
        }
    }

    ghost there = { λ r. refl };
}

impl ToParts for Tag {
    fn parts(&self) -> Self::Parts {
        (
            Msb(self.priority),
            Msb(self.may_drop),
            Msb(self.network),
            Be(self.kind),
        )
    }
}

impl DekuReader<()> for Tag {
    ghost no_read_ahead = { ⟦<TagParts as DekuReader<()>>⟧.no_read_ahead };

    ghost meaning = { λ c. Then (⟦<TagParts as DekuReader<()>>⟧.meaning c)
        (Shows ⟦<Tag as FromParts>⟧.parts_of) };

    #[inline(always)]
    fn from_reader_with_ctx<R: Source>(reader: &mut Reader<R>, ctx: ()) -> Result<Self, DekuError> {
        read_record(reader, ctx)
    }
}

impl DekuWriter<()> for Tag {
    ghost meaning = { λ v. ⟦<TagParts as DekuWriter<()>>⟧.meaning
        (⟦<Tag as FromParts>⟧.parts_of v) };

    #[inline(always)]
    fn to_writer<W: Sink>(&self, writer: &mut Writer<W>, ctx: ()) -> Result<(), DekuError> {
        write_record(self, writer, ctx)
    }
}

impl Record<()> for Tag {
    type Layout = TagParts;

    ghost reads = { λ c b s r u m. m };

    ghost writes = { λ c v b s r u m. m };
}
