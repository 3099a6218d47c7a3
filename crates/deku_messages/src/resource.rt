//! A resource of a message of the domain name system, RFC 1035, section 3.2.1, and what the data of
//! the known kinds hold.
//!
//! ```text
//! name             labels, up to an empty one or a pointer
//! kind   16 bits   1 A, 2 NS, 5 CNAME, 6 SOA, 12 PTR, 15 MX, 16 TXT, 28 AAAA
//! class  16 bits   1 for the internet
//! life   32 bits   how long it may be kept, in seconds
//! length 16 bits   the bytes of the data
//! bytes            as many bytes
//! ```
//!
//! Printed by `derive` from `resource.rs`.

ghost use Rattle.std.specs.Prelude.{Some, refl};
ghost use Rattle.deku.specs.Composing.{Then};
ghost use Rattle.deku.specs.Shapes.{Shows};
ghost use Rattle.deku_symmetry.specs.Fields.{be};

use crate::name::Name;
use deku::device::{Sink, Source};
use deku::prelude::{DekuError, DekuReader, DekuWriter, Reader, Writer};
use deku_symmetry::{
    Be, CountOf, CountOfLaw, CountedBy, CountedByRef, FromParts, Record, read_record,
};
use std::marker::PhantomData;

/// A resource: what is known about a name.
#[derive(Debug, PartialEq, Eq, Drop)]
pub struct Resource {
    /// The name.
    pub name: Name,
    /// The kind of the data.
    pub kind: u16,
    /// The class of the name.
    pub class: u16,
    /// How long it may be kept, in seconds.
    pub life: u32,
    /// How many bytes the data has.
    pub length: u16,
    /// The data.
    pub bytes: Vec<u8>,
}

/// How many `bytes` there are: `length`.
#[derive(Debug, PartialEq, Eq, Drop)]
pub struct ResourceBytesCount;

impl CountOf<Be<u16>> for ResourceBytesCount {
    ghost count_of = { λ p. Some p.0 };

    fn count(parts: &Be<u16>) -> Option<usize> {
        let length = parts.0 as usize;
        Some(length)
    }
}

impl CountOfLaw<Be<u16>> for ResourceBytesCount {
    ghost alike = { λ v w e. rw e refl };
}

impl Resource {
    /// The names of its parts, in their order.
    pub const FIELDS: [&'static str; 6] = ["name", "kind", "class", "life", "length", "bytes"];
}

// The parts of Resource, in their order.
type ResourceParts = (
    Name,
    (Be<u16>, Be<u16>, Be<u32>),
    CountedBy<Be<u16>, ResourceBytesCount, u8>,
);

impl FromParts for Resource {
    type Parts = ResourceParts;

    ghost parts_of = { λ r. (
      r.name,
      (be r.kind, be r.class, be r.life),
      record { head = be r.length; items = r.bytes; count = record {} },
    ) };

    ghost record_of = { λ p. record {
      name = p.0;
      kind = p.1.0.0;
      class = p.1.1.0;
      life = p.1.2.0;
      length = p.2.head.0;
      bytes = p.2.items;
    } };

    fn from_parts(parts: Self::Parts) -> Self {
        let (
            name,
            (Be(kind), Be(class), Be(life)),
            CountedBy {
                head: Be(length),
                items: bytes,
                ..
            },
        ) = parts;
        Resource {
            name,
            kind,
            class,
            life,
            length,
            bytes,
        }
    }

    ghost there = { λ r. refl };
}

impl DekuReader<()> for Resource {
    ghost no_read_ahead = { ⟦<ResourceParts as DekuReader<()>>⟧.no_read_ahead };

    ghost meaning = { λ c. Then (⟦<ResourceParts as DekuReader<()>>⟧.meaning c)
        (Shows ⟦<Resource as FromParts>⟧.parts_of) };

    #[inline(always)]
    fn from_reader_with_ctx<R: Source>(reader: &mut Reader<R>, ctx: ()) -> Result<Self, DekuError> {
        read_record(reader, ctx)
    }
}

impl DekuWriter<()> for Resource {
    ghost meaning = { λ v. ⟦<ResourceParts as DekuWriter<()>>⟧.meaning
        (⟦<Resource as FromParts>⟧.parts_of v) };

    #[inline(always)]
    fn to_writer<W: Sink>(&self, writer: &mut Writer<W>, ctx: ()) -> Result<(), DekuError> {
        let parts = (
            &self.name,
            (Be(self.kind), Be(self.class), Be(self.life)),
            CountedByRef::<_, ResourceBytesCount, _> {
                head: Be(self.length),
                items: &self.bytes,
                count: PhantomData,
            },
        );
        parts.to_writer(writer, ctx)
    }
}

impl Record<()> for Resource {
    type Layout = ResourceParts;

    ghost reads = { λ c b s r u m. m };

    ghost writes = { λ c v b s r u m. m };
}

/// The data of kind 15: a server that takes mail.
#[derive(Debug, PartialEq, Eq, Drop)]
pub struct MailServer {
    /// The server with the lowest number is tried first.
    pub preference: u16,
    /// Its name.
    pub name: Name,
}

impl MailServer {
    /// The names of its parts, in their order.
    pub const FIELDS: [&'static str; 2] = ["preference", "name"];
}

// The parts of MailServer, in their order.
type MailServerParts = (Be<u16>, Name);

impl FromParts for MailServer {
    type Parts = MailServerParts;

    ghost parts_of = { λ r. (be r.preference, r.name) };

    ghost record_of = { λ p. record { preference = p.0.0; name = p.1 } };

    fn from_parts((Be(preference), name): Self::Parts) -> Self {
        MailServer { preference, name }
    }

    ghost there = { λ r. refl };
}

impl DekuReader<()> for MailServer {
    ghost no_read_ahead = { ⟦<MailServerParts as DekuReader<()>>⟧.no_read_ahead };

    ghost meaning = { λ c. Then (⟦<MailServerParts as DekuReader<()>>⟧.meaning c)
        (Shows ⟦<MailServer as FromParts>⟧.parts_of) };

    #[inline(always)]
    fn from_reader_with_ctx<R: Source>(reader: &mut Reader<R>, ctx: ()) -> Result<Self, DekuError> {
        read_record(reader, ctx)
    }
}

impl DekuWriter<()> for MailServer {
    ghost meaning = { λ v. ⟦<MailServerParts as DekuWriter<()>>⟧.meaning
        (⟦<MailServer as FromParts>⟧.parts_of v) };

    #[inline(always)]
    fn to_writer<W: Sink>(&self, writer: &mut Writer<W>, ctx: ()) -> Result<(), DekuError> {
        let parts = (Be(self.preference), &self.name);
        parts.to_writer(writer, ctx)
    }
}

impl Record<()> for MailServer {
    type Layout = MailServerParts;

    ghost reads = { λ c b s r u m. m };

    ghost writes = { λ c v b s r u m. m };
}

/// The data of kind 6: who is in charge of a part of the names.
#[derive(Debug, PartialEq, Eq, Drop)]
pub struct Authority {
    /// The server that has the original.
    pub server: Name,
    /// Who is in charge, as a name: the first label is that of the mail box.
    pub mailbox: Name,
    /// The version of the data.
    pub serial: u32,
    /// When other servers ask again, in seconds.
    pub refresh: u32,
    /// When they ask again if there was no answer, in seconds.
    pub retry: u32,
    /// When they forget what they know, in seconds.
    pub expire: u32,
    /// How long it may be kept that there is no such name, in seconds.
    pub minimum: u32,
}

impl Authority {
    /// The names of its parts, in their order.
    pub const FIELDS: [&'static str; 7] = [
        "server", "mailbox", "serial", "refresh", "retry", "expire", "minimum",
    ];
}

// The parts of Authority, in their order.
type AuthorityParts = (Name, Name, (Be<u32>, Be<u32>), (Be<u32>, Be<u32>), Be<u32>);

impl FromParts for Authority {
    type Parts = AuthorityParts;

    ghost parts_of = { λ r. (
      r.server,
      r.mailbox,
      (be r.serial, be r.refresh),
      (be r.retry, be r.expire),
      be r.minimum,
    ) };

    ghost record_of = { λ p. record {
      server = p.0;
      mailbox = p.1;
      serial = p.2.0.0;
      refresh = p.2.1.0;
      retry = p.3.0.0;
      expire = p.3.1.0;
      minimum = p.4.0;
    } };

    fn from_parts(parts: Self::Parts) -> Self {
        let (server, mailbox, (Be(serial), Be(refresh)), (Be(retry), Be(expire)), Be(minimum)) =
            parts;
        Authority {
            server,
            mailbox,
            serial,
            refresh,
            retry,
            expire,
            minimum,
        }
    }

    ghost there = { λ r. refl };
}

impl DekuReader<()> for Authority {
    ghost no_read_ahead = { ⟦<AuthorityParts as DekuReader<()>>⟧.no_read_ahead };

    ghost meaning = { λ c. Then (⟦<AuthorityParts as DekuReader<()>>⟧.meaning c)
        (Shows ⟦<Authority as FromParts>⟧.parts_of) };

    #[inline(always)]
    fn from_reader_with_ctx<R: Source>(reader: &mut Reader<R>, ctx: ()) -> Result<Self, DekuError> {
        read_record(reader, ctx)
    }
}

impl DekuWriter<()> for Authority {
    ghost meaning = { λ v. ⟦<AuthorityParts as DekuWriter<()>>⟧.meaning
        (⟦<Authority as FromParts>⟧.parts_of v) };

    #[inline(always)]
    fn to_writer<W: Sink>(&self, writer: &mut Writer<W>, ctx: ()) -> Result<(), DekuError> {
        let parts = (
            &self.server,
            &self.mailbox,
            (Be(self.serial), Be(self.refresh)),
            (Be(self.retry), Be(self.expire)),
            Be(self.minimum),
        );
        parts.to_writer(writer, ctx)
    }
}

impl Record<()> for Authority {
    type Layout = AuthorityParts;

    ghost reads = { λ c b s r u m. m };

    ghost writes = { λ c v b s r u m. m };
}

/// The data of the kinds 2 (NS), 5 (CNAME) and 12 (PTR): one name.
#[derive(Debug, PartialEq, Eq, Drop)]
pub struct Target {
    /// The name.
    pub name: Name,
}

impl Target {
    /// The names of its parts, in their order.
    pub const FIELDS: [&'static str; 1] = ["name"];
}

// The parts of Target, in their order.
type TargetParts = Name;

impl FromParts for Target {
    type Parts = TargetParts;

    ghost parts_of = { λ r. r.name };

    ghost record_of = { λ p. record { name = p } };

    fn from_parts(name: Self::Parts) -> Self {
        Target { name }
    }

    ghost there = { λ r. refl };
}

impl DekuReader<()> for Target {
    ghost no_read_ahead = { ⟦<TargetParts as DekuReader<()>>⟧.no_read_ahead };

    ghost meaning = { λ c. Then (⟦<TargetParts as DekuReader<()>>⟧.meaning c)
        (Shows ⟦<Target as FromParts>⟧.parts_of) };

    #[inline(always)]
    fn from_reader_with_ctx<R: Source>(reader: &mut Reader<R>, ctx: ()) -> Result<Self, DekuError> {
        read_record(reader, ctx)
    }
}

impl DekuWriter<()> for Target {
    ghost meaning = { λ v. ⟦<TargetParts as DekuWriter<()>>⟧.meaning
        (⟦<Target as FromParts>⟧.parts_of v) };

    #[inline(always)]
    fn to_writer<W: Sink>(&self, writer: &mut Writer<W>, ctx: ()) -> Result<(), DekuError> {
        let parts = &self.name;
        parts.to_writer(writer, ctx)
    }
}

impl Record<()> for Target {
    type Layout = TargetParts;

    ghost reads = { λ c b s r u m. m };

    ghost writes = { λ c v b s r u m. m };
}
