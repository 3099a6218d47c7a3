//! The header of a record of TLS, RFC 8446.
//!
//! ```text
//! content   8 bits   20 a change of cipher, 21 an alert, 22 a handshake, 23 data
//! version  16 bits   0301 to 0304
//! length   16 bits   how many bytes follow
//! ```
//!
//! Printed by `derive` from `tls.rs`.

ghost use Rattle.std.specs.Prelude.{refl};
ghost use Rattle.deku.specs.Composing.{Then};
ghost use Rattle.deku.specs.Shapes.{Shows};
ghost use Rattle.deku_symmetry.specs.Fields.{be};

use deku::device::{Sink, Source};
use deku::prelude::{DekuError, DekuReader, DekuWriter, Reader, Writer};
use deku_symmetry::{Be, FromParts, Record, ToParts, read_record, write_record};

/// The header of a record.
#[derive(Debug, Clone, Copy, PartialEq, Eq)]
pub struct Tls {
    /// What follows: 20 a change of cipher, 21 an alert, 22 a handshake, 23 data.
    pub content: u8,
    /// The version of the protocol.
    pub version: u16,
    /// How many bytes follow.
    pub length: u16,
}

impl Tls {
    /// The names of its parts, in their order.
    pub const FIELDS: [&'static str; 3] = ["content", "version", "length"];
}

// The parts of Tls, in their order.
type TlsParts = (u8, Be<u16>, Be<u16>);

impl FromParts for Tls {
    type Parts = TlsParts;

    ghost parts_of = { λ r. (r.content, be r.version, be r.length) };

    ghost record_of = { λ p. record { content = p.0; version = p.1.0; length = p.2.0 } };

    fn from_parts((content, Be(version), Be(length)): Self::Parts) -> Self {
        Tls {
            content,
            version,
            length,
        }
    }

    ghost there = { λ r. refl };
}

impl ToParts for Tls {
    fn parts(&self) -> Self::Parts {
        (self.content, Be(self.version), Be(self.length))
    }
}

impl DekuReader<()> for Tls {
    ghost no_read_ahead = { ⟦<TlsParts as DekuReader<()>>⟧.no_read_ahead };

    ghost meaning = { λ c. Then (⟦<TlsParts as DekuReader<()>>⟧.meaning c)
        (Shows ⟦<Tls as FromParts>⟧.parts_of) };

    #[inline(always)]
    fn from_reader_with_ctx<R: Source>(reader: &mut Reader<R>, ctx: ()) -> Result<Self, DekuError> {
        read_record(reader, ctx)
    }
}

impl DekuWriter<()> for Tls {
    ghost meaning = { λ v. ⟦<TlsParts as DekuWriter<()>>⟧.meaning
        (⟦<Tls as FromParts>⟧.parts_of v) };

    #[inline(always)]
    fn to_writer<W: Sink>(&self, writer: &mut Writer<W>, ctx: ()) -> Result<(), DekuError> {
        write_record(self, writer, ctx)
    }
}

impl Record<()> for Tls {
    type Layout = TlsParts;

    ghost reads = { λ c b s r u m. m };

    ghost writes = { λ c v b s r u m. m };
}
