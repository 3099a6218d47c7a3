//! The header of an IPv6 packet and its extension headers, RFC 8200.
//!
//! ```text
//! version       4 bits   6
//! class         8 bits
//! flow         20 bits
//! length       16 bits   the bytes after this header
//! next          8 bits   what follows: 0, 43, 44 and 60 an extension header, 6 TCP, 17 UDP,
//!                        58 ICMPv6, 59 nothing
//! hops          8 bits
//! source      128 bits
//! destination 128 bits
//! ```
//!
//! Printed by `derive` from `ipv6.rs`.

ghost use Rattle.std.specs.Prelude.{◌+◌, ◌*◌, nat_eq, Some, codes, refl};
ghost use Rattle.deku.specs.Composing.{Then};
ghost use Rattle.deku.specs.Shapes.{Shows};
ghost use Rattle.deku_symmetry.specs.Fields.{be, msb};

use deku::device::{Sink, Source};
use deku::prelude::{DekuError, DekuReader, DekuWriter, Reader, Writer};
use deku_symmetry::{
    Assert, Be, Check, CheckLaw, CountOf, CountOfLaw, CountedBy, CountedByRef, FromParts, Msb,
    Record, ToParts, read_record, write_record,
};
use std::marker::PhantomData;
use std::net::Ipv6Addr;

/// The header of a packet.
#[derive(Debug, Clone, Copy, PartialEq, Eq)]
pub struct Ipv6 {
    /// 6, of 4 bits.
    pub version: u8,
    /// The kind of traffic.
    pub class: u8,
    /// Packets of one flow have the same number, 20 bits.
    pub flow: u32,
    /// How many bytes follow.
    pub length: u16,
    /// What follows.
    pub next: u8,
    /// How many routers may still pass it on.
    pub hops: u8,
    /// Who sent it.
    pub source: Ipv6Addr,
    /// Whom it is for.
    pub destination: Ipv6Addr,
}

/// What `version` has to be: `version == 6`.
#[derive(Debug, PartialEq, Eq, Drop)]
pub struct Ipv6VersionValue;

impl Check<Msb<u8, 4>> for Ipv6VersionValue {
    ghost passes = { λ p. nat_eq p.0 6 };

    ghost text = { codes "version" };

    fn passes(parts: &Msb<u8, 4>) -> bool {
        let version = parts.0;
        version == 6
    }

    fn text() -> &'static str {
        "version"
    }
}

impl CheckLaw<Msb<u8, 4>> for Ipv6VersionValue {
    ghost alike = { λ v w e. rw e refl };
}

impl Ipv6 {
    /// The names of its parts, in their order.
    pub const FIELDS: [&'static str; 8] = [
        "version",
        "class",
        "flow",
        "length",
        "next",
        "hops",
        "source",
        "destination",
    ];
}

// The parts of Ipv6, in their order.
type Ipv6Parts = (
    Assert<Msb<u8, 4>, Ipv6VersionValue>,
    (u8, Msb<u32, 20>, Be<u16>, u8, u8),
    Be<Ipv6Addr>,
    Be<Ipv6Addr>,
);

impl FromParts for Ipv6 {
    type Parts = Ipv6Parts;

    ghost parts_of = { λ r. (
      record { part = msb r.version; check = record {} },
      (r.class, msb r.flow, be r.length, r.next, r.hops),
      be r.source,
      be r.destination,
    ) };

    ghost record_of = { λ p. record {
      version = p.0.part.0;
      class = p.1.0;
      flow = p.1.1.0;
      length = p.1.2.0;
      next = p.1.3;
      hops = p.1.4;
      source = p.2.0;
      destination = p.3.0;
    } };

    fn from_parts(parts: Self::Parts) -> Self {
        let (
            Assert {
                part: Msb(version),
                ..
            },
            (class, Msb(flow), Be(length), next, hops),
            Be(source),
            Be(destination),
        ) = parts;
        Ipv6 {
            version,
            class,
            flow,
            length,
            next,
            hops,
            source,
            destination,
        }
    }

    ghost there = { λ r. refl };
}

impl ToParts for Ipv6 {
    fn parts(&self) -> Self::Parts {
        (
            Assert::new(Msb(self.version)),
            (
                self.class,
                Msb(self.flow),
                Be(self.length),
                self.next,
                self.hops,
            ),
            Be(self.source),
            Be(self.destination),
        )
    }
}

impl DekuReader<()> for Ipv6 {
    ghost no_read_ahead = { ⟦<Ipv6Parts as DekuReader<()>>⟧.no_read_ahead };

    ghost meaning = { λ c. Then (⟦<Ipv6Parts as DekuReader<()>>⟧.meaning c)
        (Shows ⟦<Ipv6 as FromParts>⟧.parts_of) };

    #[inline(always)]
    fn from_reader_with_ctx<R: Source>(reader: &mut Reader<R>, ctx: ()) -> Result<Self, DekuError> {
        read_record(reader, ctx)
    }
}

impl DekuWriter<()> for Ipv6 {
    ghost meaning = { λ v. ⟦<Ipv6Parts as DekuWriter<()>>⟧.meaning
        (⟦<Ipv6 as FromParts>⟧.parts_of v) };

    #[inline(always)]
    fn to_writer<W: Sink>(&self, writer: &mut Writer<W>, ctx: ()) -> Result<(), DekuError> {
        write_record(self, writer, ctx)
    }
}

impl Record<()> for Ipv6 {
    type Layout = Ipv6Parts;

    ghost reads = { λ c b s r u m. m };

    ghost writes = { λ c v b s r u m. m };
}

/// The extension headers hop-by-hop (0) and destination (60): options for the routers on the way,
/// and for the receiver.
#[derive(Debug, PartialEq, Eq, Drop)]
pub struct Options {
    /// What follows.
    pub next: u8,
    /// The units of eight bytes after the first.
    pub length: u8,
    /// The options, each a kind, a length and as many bytes, or the byte 0.
    pub options: Vec<u8>,
}

/// How many `options` there are: `length * 8 + 6`.
#[derive(Debug, PartialEq, Eq, Drop)]
pub struct OptionsOptionsCount;

impl CountOf<u8> for OptionsOptionsCount {
    ghost count_of = { λ p. Some (p * 8 + 6) };

    fn count(parts: &u8) -> Option<usize> {
        let length = *parts as usize;
        Some(length * 8 + 6)
    }
}

impl CountOfLaw<u8> for OptionsOptionsCount {
    ghost alike = { λ v w e. rw e refl };
}

impl Options {
    /// The names of its parts, in their order.
    pub const FIELDS: [&'static str; 3] = ["next", "length", "options"];
}

// The parts of Options, in their order.
type OptionsParts = (u8, CountedBy<u8, OptionsOptionsCount, u8>);

impl FromParts for Options {
    type Parts = OptionsParts;

    ghost parts_of = { λ r. (
      r.next,
      record { head = r.length; items = r.options; count = record {} },
    ) };

    ghost record_of = { λ p. record { next = p.0; length = p.1.head; options = p.1.items } };

    fn from_parts(parts: Self::Parts) -> Self {
        let (
            next,
            CountedBy {
                head: length,
                items: options,
                ..
            },
        ) = parts;
        Options {
            next,
            length,
            options,
        }
    }

    ghost there = { λ r. refl };
}

impl DekuReader<()> for Options {
    ghost no_read_ahead = { ⟦<OptionsParts as DekuReader<()>>⟧.no_read_ahead };

    ghost meaning = { λ c. Then (⟦<OptionsParts as DekuReader<()>>⟧.meaning c)
        (Shows ⟦<Options as FromParts>⟧.parts_of) };

    #[inline(always)]
    fn from_reader_with_ctx<R: Source>(reader: &mut Reader<R>, ctx: ()) -> Result<Self, DekuError> {
        read_record(reader, ctx)
    }
}

impl DekuWriter<()> for Options {
    ghost meaning = { λ v. ⟦<OptionsParts as DekuWriter<()>>⟧.meaning
        (⟦<Options as FromParts>⟧.parts_of v) };

    #[inline(always)]
    fn to_writer<W: Sink>(&self, writer: &mut Writer<W>, ctx: ()) -> Result<(), DekuError> {
        let parts = (
            self.next,
            CountedByRef::<_, OptionsOptionsCount, _> {
                head: self.length,
                items: &self.options,
                count: PhantomData,
            },
        );
        parts.to_writer(writer, ctx)
    }
}

impl Record<()> for Options {
    type Layout = OptionsParts;

    ghost reads = { λ c b s r u m. m };

    ghost writes = { λ c v b s r u m. m };
}

/// The extension header that lists routers to pass (43).
#[derive(Debug, PartialEq, Eq, Drop)]
pub struct Routing {
    /// What follows.
    pub next: u8,
    /// The units of eight bytes after the first.
    pub length: u8,
    /// The kind of routing.
    pub kind: u8,
    /// How many routers are still to pass.
    pub left: u8,
    /// What the kind says.
    pub route: Vec<u8>,
}

type RoutingRouteHead = (u8, u8, u8);

/// How many `route` there are: `length * 8 + 4`.
#[derive(Debug, PartialEq, Eq, Drop)]
pub struct RoutingRouteCount;

impl CountOf<RoutingRouteHead> for RoutingRouteCount {
    ghost count_of = { λ p. Some (p.0 * 8 + 4) };

    fn count(parts: &RoutingRouteHead) -> Option<usize> {
        let length = parts.0 as usize;
        Some(length * 8 + 4)
    }
}

impl CountOfLaw<RoutingRouteHead> for RoutingRouteCount {
    ghost alike = { λ v w e. rw e.0 refl };
}

impl Routing {
    /// The names of its parts, in their order.
    pub const FIELDS: [&'static str; 5] = ["next", "length", "kind", "left", "route"];
}

// The parts of Routing, in their order.
type RoutingParts = (u8, CountedBy<RoutingRouteHead, RoutingRouteCount, u8>);

impl FromParts for Routing {
    type Parts = RoutingParts;

    ghost parts_of = { λ r. (
      r.next,
      record { head = (r.length, r.kind, r.left); items = r.route; count = record {} },
    ) };

    ghost record_of = { λ p. record {
      next = p.0;
      length = p.1.head.0;
      kind = p.1.head.1;
      left = p.1.head.2;
      route = p.1.items;
    } };

    fn from_parts(parts: Self::Parts) -> Self {
        let (
            next,
            CountedBy {
                head: (length, kind, left),
                items: route,
                ..
            },
        ) = parts;
        Routing {
            next,
            length,
            kind,
            left,
            route,
        }
    }

    ghost there = { λ r. refl };
}

impl DekuReader<()> for Routing {
    ghost no_read_ahead = { ⟦<RoutingParts as DekuReader<()>>⟧.no_read_ahead };

    ghost meaning = { λ c. Then (⟦<RoutingParts as DekuReader<()>>⟧.meaning c)
        (Shows ⟦<Routing as FromParts>⟧.parts_of) };

    #[inline(always)]
    fn from_reader_with_ctx<R: Source>(reader: &mut Reader<R>, ctx: ()) -> Result<Self, DekuError> {
        read_record(reader, ctx)
    }
}

impl DekuWriter<()> for Routing {
    ghost meaning = { λ v. ⟦<RoutingParts as DekuWriter<()>>⟧.meaning
        (⟦<Routing as FromParts>⟧.parts_of v) };

    #[inline(always)]
    fn to_writer<W: Sink>(&self, writer: &mut Writer<W>, ctx: ()) -> Result<(), DekuError> {
        let parts = (
            self.next,
            CountedByRef::<_, RoutingRouteCount, _> {
                head: (self.length, self.kind, self.left),
                items: &self.route,
                count: PhantomData,
            },
        );
        parts.to_writer(writer, ctx)
    }
}

impl Record<()> for Routing {
    type Layout = RoutingParts;

    ghost reads = { λ c b s r u m. m };

    ghost writes = { λ c v b s r u m. m };
}

/// The extension header of a packet that was cut (44).
#[derive(Debug, Clone, Copy, PartialEq, Eq)]
pub struct Fragment {
    /// What follows.
    pub next: u8,
    /// Reserved.
    pub reserved: u8,
    /// Where this fragment begins, in units of eight bytes, 13 bits.
    pub offset: u16,
    /// Reserved, 2 bits.
    pub unused: u8,
    /// Whether more fragments follow this one.
    pub more: bool,
    /// Of all fragments of a packet the same.
    pub identification: u32,
}

impl Fragment {
    /// The names of its parts, in their order.
    pub const FIELDS: [&'static str; 6] = [
        "next",
        "reserved",
        "offset",
        "unused",
        "more",
        "identification",
    ];
}

// The parts of Fragment, in their order.
type FragmentParts = (u8, u8, Msb<u16, 13>, Msb<u8, 2>, Msb<bool, 1>, Be<u32>);

impl FromParts for Fragment {
    type Parts = FragmentParts;

    ghost parts_of = { λ r. (
      r.next,
      r.reserved,
      msb r.offset,
      msb r.unused,
      msb r.more,
      be r.identification,
    ) };

    ghost record_of = { λ p. record {
      next = p.0;
      reserved = p.1;
      offset = p.2.0;
      unused = p.3.0;
      more = p.4.0;
      identification = p.5.0;
    } };

    fn from_parts(parts: Self::Parts) -> Self {
        let (next, reserved, Msb(offset), Msb(unused), Msb(more), Be(identification)) = parts;
        Fragment {
            next,
            reserved,
            offset,
            unused,
            more,
            identification,
        }
    }

    ghost there = { λ r. refl };
}

impl ToParts for Fragment {
    fn parts(&self) -> Self::Parts {
        (
            self.next,
            self.reserved,
            Msb(self.offset),
            Msb(self.unused),
            Msb(self.more),
            Be(self.identification),
        )
    }
}

impl DekuReader<()> for Fragment {
    ghost no_read_ahead = { ⟦<FragmentParts as DekuReader<()>>⟧.no_read_ahead };

    ghost meaning = { λ c. Then (⟦<FragmentParts as DekuReader<()>>⟧.meaning c)
        (Shows ⟦<Fragment as FromParts>⟧.parts_of) };

    #[inline(always)]
    fn from_reader_with_ctx<R: Source>(reader: &mut Reader<R>, ctx: ()) -> Result<Self, DekuError> {
        read_record(reader, ctx)
    }
}

impl DekuWriter<()> for Fragment {
    ghost meaning = { λ v. ⟦<FragmentParts as DekuWriter<()>>⟧.meaning
        (⟦<Fragment as FromParts>⟧.parts_of v) };

    #[inline(always)]
    fn to_writer<W: Sink>(&self, writer: &mut Writer<W>, ctx: ()) -> Result<(), DekuError> {
        write_record(self, writer, ctx)
    }
}

impl Record<()> for Fragment {
    type Layout = FragmentParts;

    ghost reads = { λ c b s r u m. m };

    ghost writes = { λ c v b s r u m. m };
}
