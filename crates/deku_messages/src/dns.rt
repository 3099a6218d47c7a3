//! The header of a message of the domain name system, RFC 1035, with the bits of RFC 4035.
//!
//! ```text
//! id                   16 bits
//! is_answer             1 bit
//! opcode                4 bits   0: the usual question
//! is_authoritative      1 bit
//! is_cut                1 bit
//! wants_recursion       1 bit
//! has_recursion         1 bit
//! reserved              1 bit
//! is_checked            1 bit
//! may_be_unchecked      1 bit
//! outcome               4 bits   0: no error, 3: there is no such name
//! questions            16 bits   and then as many of each
//! answers              16 bits
//! authorities          16 bits
//! additionals          16 bits
//! ```
//!
//! Printed by `derive` from `dns.rs`.

ghost use Rattle.std.specs.Prelude.{Some, refl};
ghost use Rattle.deku.specs.Composing.{Then};
ghost use Rattle.deku.specs.Shapes.{Shows};
ghost use Rattle.deku_symmetry.specs.Fields.{be, msb};

use deku::device::{Sink, Source};
use deku::prelude::{DekuError, DekuReader, DekuWriter, Reader, Writer};
use deku_symmetry::{
    Be, CountOf, CountOfLaw, CountedBy, CountedByRef, FromParts, Msb, Record, ToParts, read_record,
    write_record,
};
use std::marker::PhantomData;

/// The header of a message.
#[derive(Debug, Clone, Copy, PartialEq, Eq)]
pub struct Header {
    /// What an answer repeats.
    pub id: u16,
    /// Whether it is an answer.
    pub is_answer: bool,
    /// The kind of the question, 4 bits.
    pub opcode: u8,
    /// Whether the server is in charge of the name.
    pub is_authoritative: bool,
    /// Whether the message was too long, and is cut.
    pub is_cut: bool,
    /// Whether the server is to ask others.
    pub wants_recursion: bool,
    /// Whether the server asks others.
    pub has_recursion: bool,
    /// Reserved.
    pub reserved: bool,
    /// Whether the server has checked the signatures.
    pub is_checked: bool,
    /// Whether unchecked data are wanted.
    pub may_be_unchecked: bool,
    /// The result, 4 bits.
    pub outcome: u8,
    /// How many questions follow.
    pub questions: u16,
    /// How many answers follow these.
    pub answers: u16,
    /// How many records of name servers follow these.
    pub authorities: u16,
    /// How many more records follow these.
    pub additionals: u16,
}

impl Header {
    /// The names of its parts, in their order.
    pub const FIELDS: [&'static str; 15] = [
        "id",
        "is_answer",
        "opcode",
        "is_authoritative",
        "is_cut",
        "wants_recursion",
        "has_recursion",
        "reserved",
        "is_checked",
        "may_be_unchecked",
        "outcome",
        "questions",
        "answers",
        "authorities",
        "additionals",
    ];
}

// The parts of Header, in their order.
type HeaderParts = (
    (
        Be<u16>,
        Msb<bool, 1>,
        Msb<u8, 4>,
        Msb<bool, 1>,
        Msb<bool, 1>,
        Msb<bool, 1>,
        Msb<bool, 1>,
        Msb<bool, 1>,
    ),
    (
        Msb<bool, 1>,
        Msb<bool, 1>,
        Msb<u8, 4>,
        Be<u16>,
        Be<u16>,
        Be<u16>,
    ),
    Be<u16>,
);

impl FromParts for Header {
    type Parts = HeaderParts;

    ghost parts_of = { λ r. (
      (
        be r.id,
        msb r.is_answer,
        msb r.opcode,
        msb r.is_authoritative,
        msb r.is_cut,
        msb r.wants_recursion,
        msb r.has_recursion,
        msb r.reserved,
      ),
      (
        msb r.is_checked,
        msb r.may_be_unchecked,
        msb r.outcome,
        be r.questions,
        be r.answers,
        be r.authorities,
      ),
      be r.additionals,
    ) };

    ghost record_of = { λ p. record {
      id = p.0.0.0;
      is_answer = p.0.1.0;
      opcode = p.0.2.0;
      is_authoritative = p.0.3.0;
      is_cut = p.0.4.0;
      wants_recursion = p.0.5.0;
      has_recursion = p.0.6.0;
      reserved = p.0.7.0;
      is_checked = p.1.0.0;
      may_be_unchecked = p.1.1.0;
      outcome = p.1.2.0;
      questions = p.1.3.0;
      answers = p.1.4.0;
      authorities = p.1.5.0;
      additionals = p.2.0;
    } };

    fn from_parts(parts: Self::Parts) -> Self {
        Header {
            id: parts.0.0.0,
            is_answer: parts.0.1.0,
            opcode: parts.0.2.0,
            is_authoritative: parts.0.3.0,
            is_cut: parts.0.4.0,
            wants_recursion: parts.0.5.0,
            has_recursion: parts.0.6.0,
            reserved: parts.0.7.0,
            is_checked: parts.1.0.0,
            may_be_unchecked: parts.1.1.0,
            outcome: parts.1.2.0,
            questions: parts.1.3.0,
            answers: parts.1.4.0,
            authorities: parts.1.5.0,
            additionals: parts.2.0,
        }
    }

    ghost there = { λ r. refl };
}

impl ToParts for Header {
    fn parts(&self) -> Self::Parts {
        (
            (
                Be(self.id),
                Msb(self.is_answer),
                Msb(self.opcode),
                Msb(self.is_authoritative),
                Msb(self.is_cut),
                Msb(self.wants_recursion),
                Msb(self.has_recursion),
                Msb(self.reserved),
            ),
            (
                Msb(self.is_checked),
                Msb(self.may_be_unchecked),
                Msb(self.outcome),
                Be(self.questions),
                Be(self.answers),
                Be(self.authorities),
            ),
            Be(self.additionals),
        )
    }
}

impl DekuReader<()> for Header {
    ghost no_read_ahead = { ⟦<HeaderParts as DekuReader<()>>⟧.no_read_ahead };

    ghost meaning = { λ c. Then (⟦<HeaderParts as DekuReader<()>>⟧.meaning c)
        (Shows ⟦<Header as FromParts>⟧.parts_of) };

    #[inline(always)]
    fn from_reader_with_ctx<R: Source>(reader: &mut Reader<R>, ctx: ()) -> Result<Self, DekuError> {
        read_record(reader, ctx)
    }
}

impl DekuWriter<()> for Header {
    ghost meaning = { λ v. ⟦<HeaderParts as DekuWriter<()>>⟧.meaning
        (⟦<Header as FromParts>⟧.parts_of v) };

    #[inline(always)]
    fn to_writer<W: Sink>(&self, writer: &mut Writer<W>, ctx: ()) -> Result<(), DekuError> {
        write_record(self, writer, ctx)
    }
}

impl Record<()> for Header {
    type Layout = HeaderParts;

    ghost reads = { λ c b s r u m. m };

    ghost writes = { λ c v b s r u m. m };
}

/// One text of the data of kind 16.
#[derive(Debug, PartialEq, Eq, Drop)]
pub struct Text {
    /// How many bytes it has.
    pub length: u8,
    /// The bytes.
    pub bytes: Vec<u8>,
}

/// How many `bytes` there are: `length`.
#[derive(Debug, PartialEq, Eq, Drop)]
pub struct TextBytesCount;

impl CountOf<u8> for TextBytesCount {
    ghost count_of = { λ p. Some p };

    fn count(parts: &u8) -> Option<usize> {
        let length = *parts as usize;
        Some(length)
    }
}

impl CountOfLaw<u8> for TextBytesCount {
    ghost alike = { λ v w e. rw e refl };
}

impl Text {
    /// The names of its parts, in their order.
    pub const FIELDS: [&'static str; 2] = ["length", "bytes"];
}

// The parts of Text, in their order.
type TextParts = CountedBy<u8, TextBytesCount, u8>;

impl FromParts for Text {
    type Parts = TextParts;

    ghost parts_of = { λ r. record { head = r.length; items = r.bytes; count = record {} } };

    ghost record_of = { λ p. record { length = p.head; bytes = p.items } };

    fn from_parts(parts: Self::Parts) -> Self {
        let CountedBy {
            head: length,
            items: bytes,
            ..
        } = parts;
        Text { length, bytes }
    }

    ghost there = { λ r. refl };
}

impl DekuReader<()> for Text {
    ghost no_read_ahead = { ⟦<TextParts as DekuReader<()>>⟧.no_read_ahead };

    ghost meaning = { λ c. Then (⟦<TextParts as DekuReader<()>>⟧.meaning c)
        (Shows ⟦<Text as FromParts>⟧.parts_of) };

    #[inline(always)]
    fn from_reader_with_ctx<R: Source>(reader: &mut Reader<R>, ctx: ()) -> Result<Self, DekuError> {
        read_record(reader, ctx)
    }
}

impl DekuWriter<()> for Text {
    ghost meaning = { λ v. ⟦<TextParts as DekuWriter<()>>⟧.meaning
        (⟦<Text as FromParts>⟧.parts_of v) };

    #[inline(always)]
    fn to_writer<W: Sink>(&self, writer: &mut Writer<W>, ctx: ()) -> Result<(), DekuError> {
        let parts = CountedByRef::<_, TextBytesCount, _> {
            head: self.length,
            items: &self.bytes,
            count: PhantomData,
        };
        parts.to_writer(writer, ctx)
    }
}

impl Record<()> for Text {
    type Layout = TextParts;

    ghost reads = { λ c b s r u m. m };

    ghost writes = { λ c v b s r u m. m };
}
