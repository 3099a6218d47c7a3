//! A question of a message of the domain name system, RFC 1035, section 4.1.2.
//!
//! ```text
//! name             labels, up to an empty one or a pointer
//! kind   16 bits   what is asked about the name, as the kind of a resource
//! class  16 bits   1 for the internet
//! ```
//!
//! Printed by `derive` from `question.rs`.

ghost use Rattle.std.specs.Prelude.{refl};
ghost use Rattle.deku.specs.Composing.{Then};
ghost use Rattle.deku.specs.Shapes.{Shows};
ghost use Rattle.deku_symmetry.specs.Fields.{be};

use crate::name::Name;
use deku::device::{Sink, Source};
use deku::prelude::{DekuError, DekuReader, DekuWriter, Reader, Writer};
use deku_symmetry::{Be, FromParts, Record, read_record};

/// A question.
#[derive(Debug, PartialEq, Eq, Drop)]
pub struct Question {
    /// The name that is asked about.
    pub name: Name,
    /// What is asked about it.
    pub kind: u16,
    /// The class of the name.
    pub class: u16,
}

impl Question {
    /// The names of its parts, in their order.
    pub const FIELDS: [&'static str; 3] = ["name", "kind", "class"];
}

// The parts of Question, in their order.
type QuestionParts = (Name, (Be<u16>, Be<u16>));

impl FromParts for Question {
    type Parts = QuestionParts;

    ghost parts_of = { λ r. (r.name, (be r.kind, be r.class)) };

    ghost record_of = { λ p. record { name = p.0; kind = p.1.0.0; class = p.1.1.0 } };

    fn from_parts((name, (Be(kind), Be(class))): Self::Parts) -> Self {
        Question { name, kind, class }
    }

    ghost there = { λ r. refl };
}

impl DekuReader<()> for Question {
    ghost no_read_ahead = { ⟦<QuestionParts as DekuReader<()>>⟧.no_read_ahead };

    ghost meaning = { λ c. Then (⟦<QuestionParts as DekuReader<()>>⟧.meaning c)
        (Shows ⟦<Question as FromParts>⟧.parts_of) };

    #[inline(always)]
    fn from_reader_with_ctx<R: Source>(reader: &mut Reader<R>, ctx: ()) -> Result<Self, DekuError> {
        read_record(reader, ctx)
    }
}

impl DekuWriter<()> for Question {
    ghost meaning = { λ v. ⟦<QuestionParts as DekuWriter<()>>⟧.meaning
        (⟦<Question as FromParts>⟧.parts_of v) };

    #[inline(always)]
    fn to_writer<W: Sink>(&self, writer: &mut Writer<W>, ctx: ()) -> Result<(), DekuError> {
        let parts = (&self.name, (Be(self.kind), Be(self.class)));
        parts.to_writer(writer, ctx)
    }
}

impl Record<()> for Question {
    type Layout = QuestionParts;

    ghost reads = { λ c b s r u m. m };

    ghost writes = { λ c v b s r u m. m };
}
