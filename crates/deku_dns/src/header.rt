//! The header of a message, as in RFC 1035, section 4.1.1.
//!
//! ```text
//!  0  1           4  5  6  7  8  9          11 12          15
//! +--+-----------+--+--+--+--+-----------+-------------+
//! |                    identification                   |
//! |QR|  opcode   |AA|TC|RD|RA|  reserved | response code|
//! |                      questions                      |
//! |                       answers                       |
//! |                     authorities                     |
//! |                     additionals                     |
//! +-----------------------------------------------------+
//! ```
//!
//! Printed by `derive` from `header.rs`.

ghost use Rattle.std.specs.Prelude.{refl};
ghost use Rattle.deku.specs.Composing.{Then};
ghost use Rattle.deku.specs.Shapes.{Shows};
ghost use Rattle.deku_symmetry.specs.Fields.{be, msb};

use deku::device::{Sink, Source};
use deku::prelude::{DekuError, DekuReader, DekuWriter, Reader, Writer};
use deku_symmetry::{Be, FromParts, Msb, Record, ToParts, read_record, write_record};

/// The header of a message.
#[derive(Debug, Clone, Copy, PartialEq, Eq)]
pub struct Header {
    /// The identification, which the answer to a question repeats.
    pub identification: u16,
    /// 0 for a question, 1 for an answer, 1 bit.
    pub response: u8,
    /// The kind of the question, 4 bits; 0 is the usual one.
    pub opcode: u8,
    /// Whether the answer is authoritative, 1 bit.
    pub authoritative: u8,
    /// Whether the message was truncated, 1 bit.
    pub truncated: u8,
    /// Whether recursion is wanted, 1 bit.
    pub recursion_desired: u8,
    /// Whether recursion is available, 1 bit.
    pub recursion_available: u8,
    /// Reserved for later use, 3 bits.
    pub reserved: u8,
    /// The result of the question, 4 bits; 0 is no error.
    pub response_code: u8,
    /// How many questions follow.
    pub questions: u16,
    /// How many answers follow.
    pub answers: u16,
    /// How many authority records follow.
    pub authorities: u16,
    /// How many additional records follow.
    pub additionals: u16,
}

impl Header {
    /// The names of its parts, in their order.
    pub const FIELDS: [&'static str; 13] = [
        "identification",
        "response",
        "opcode",
        "authoritative",
        "truncated",
        "recursion_desired",
        "recursion_available",
        "reserved",
        "response_code",
        "questions",
        "answers",
        "authorities",
        "additionals",
    ];
}

// The parts of Header, in their order.
type HeaderParts = (
    (
        Be<u16>,
        Msb<u8, 1>,
        Msb<u8, 4>,
        Msb<u8, 1>,
        Msb<u8, 1>,
        Msb<u8, 1>,
        Msb<u8, 1>,
        Msb<u8, 3>,
    ),
    (Msb<u8, 4>, Be<u16>, Be<u16>, Be<u16>),
    Be<u16>,
);

impl FromParts for Header {
    type Parts = HeaderParts;

    ghost parts_of = { λ r. (
      (
        be r.identification,
        msb r.response,
        msb r.opcode,
        msb r.authoritative,
        msb r.truncated,
        msb r.recursion_desired,
        msb r.recursion_available,
        msb r.reserved,
      ),
      (msb r.response_code, be r.questions, be r.answers, be r.authorities),
      be r.additionals,
    ) };

    ghost record_of = { λ p. record {
      identification = p.0.0.0;
      response = p.0.1.0;
      opcode = p.0.2.0;
      authoritative = p.0.3.0;
      truncated = p.0.4.0;
      recursion_desired = p.0.5.0;
      recursion_available = p.0.6.0;
      reserved = p.0.7.0;
      response_code = p.1.0.0;
      questions = p.1.1.0;
      answers = p.1.2.0;
      authorities = p.1.3.0;
      additionals = p.2.0;
    } };

    fn from_parts(parts: Self::Parts) -> Self {
        let (
            (
                Be(identification),
                Msb(response),
                Msb(opcode),
                Msb(authoritative),
                Msb(truncated),
                Msb(recursion_desired),
                Msb(recursion_available),
                Msb(reserved),
            ),
            (Msb(response_code), Be(questions), Be(answers), Be(authorities)),
            Be(additionals),
        ) = parts;
        Header {
            identification,
            response,
            opcode,
            authoritative,
            truncated,
            recursion_desired,
            recursion_available,
            reserved,
            response_code,
            questions,
            answers,
            authorities,
            additionals,
        }
    }

    ghost there = { λ r. refl };
}

impl ToParts for Header {
    fn parts(&self) -> Self::Parts {
        (
            (
                Be(self.identification),
                Msb(self.response),
                Msb(self.opcode),
                Msb(self.authoritative),
                Msb(self.truncated),
                Msb(self.recursion_desired),
                Msb(self.recursion_available),
                Msb(self.reserved),
            ),
            (
                Msb(self.response_code),
                Be(self.questions),
                Be(self.answers),
                Be(self.authorities),
            ),
            Be(self.additionals),
        )
    }
}

impl DekuReader<()> for Header {
    ghost no_read_ahead = { ⟦<HeaderParts as DekuReader<()>>⟧.no_read_ahead };

    ghost meaning = { λ c. Then (⟦<HeaderParts as DekuReader<()>>⟧.meaning c)
        (Shows ⟦<Header as FromParts>⟧.parts_of) };

    #[inline(always)]
    fn from_reader_with_ctx<R: Source>(reader: &mut Reader<R>, ctx: ()) -> Result<Self, DekuError> {
        read_record(reader, ctx)
    }
}

impl DekuWriter<()> for Header {
    ghost meaning = { λ v. ⟦<HeaderParts as DekuWriter<()>>⟧.meaning
        (⟦<Header as FromParts>⟧.parts_of v) };

    #[inline(always)]
    fn to_writer<W: Sink>(&self, writer: &mut Writer<W>, ctx: ()) -> Result<(), DekuError> {
        write_record(self, writer, ctx)
    }
}

impl Record<()> for Header {
    type Layout = HeaderParts;

    ghost reads = { λ c b s r u m. m };

    ghost writes = { λ c v b s r u m. m };
}
