//! A message that asks one question.
//!
//! Printed by `derive` from `query.rs`.

ghost use Rattle.std.specs.Prelude.{refl};
ghost use Rattle.deku.specs.Composing.{Then};
ghost use Rattle.deku.specs.Shapes.{Shows};

use crate::header::Header;
use crate::question::Question;
use deku::device::{Sink, Source};
use deku::prelude::{DekuError, DekuReader, DekuWriter, Reader, Writer};
use deku_symmetry::{FromParts, Record, read_record};

/// A header, and a question after it.
#[derive(Debug, PartialEq, Eq, Drop)]
pub struct Query {
    /// The header.
    pub header: Header,
    /// The question.
    pub question: Question,
}

impl Query {
    /// The names of its parts, in their order.
    pub const FIELDS: [&'static str; 2] = ["header", "question"];
}

// The parts of Query, in their order.
type QueryParts = (Header, Question);

impl FromParts for Query {
    type Parts = QueryParts;

    ghost parts_of = { λ r. (r.header, r.question) };

    ghost record_of = { λ p. record { header = p.0; question = p.1 } };

    fn from_parts((header, question): Self::Parts) -> Self {
        Query { header, question }
    }

    ghost there = { λ r. refl };
}

impl DekuReader<()> for Query {
    ghost no_read_ahead = { ⟦<QueryParts as DekuReader<()>>⟧.no_read_ahead };

    ghost meaning = { λ c. Then (⟦<QueryParts as DekuReader<()>>⟧.meaning c)
        (Shows ⟦<Query as FromParts>⟧.parts_of) };

    #[inline(always)]
    fn from_reader_with_ctx<R: Source>(reader: &mut Reader<R>, ctx: ()) -> Result<Self, DekuError> {
        read_record(reader, ctx)
    }
}

impl DekuWriter<()> for Query {
    ghost meaning = { λ v. ⟦<QueryParts as DekuWriter<()>>⟧.meaning
        (⟦<Query as FromParts>⟧.parts_of v) };

    #[inline(always)]
    fn to_writer<W: Sink>(&self, writer: &mut Writer<W>, ctx: ()) -> Result<(), DekuError> {
        let parts = (&self.header, &self.question);
        parts.to_writer(writer, ctx)
    }
}

impl Record<()> for Query {
    type Layout = QueryParts;

    ghost reads = { λ c b s r u m. m };

    ghost writes = { λ c v b s r u m. m };
}
