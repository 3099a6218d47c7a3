//! An enum that a field chooses, between lists.
//!
//! Printed by `derive` from `between.rs`.

ghost use Rattle.std.specs.Prelude.{Some, refl};
ghost use Rattle.deku.specs.Composing.{Then};
ghost use Rattle.deku.specs.Shapes.{Shows};
ghost use Rattle.deku_symmetry.specs.Fields.{be};
ghost use Rattle.deku_pieces.specs.declared.either.Either.TheVariants as either;
ghost use Rattle.deku_derived_tests.specs.declared.between.Body.TheVariants as body_kinds;

use deku::device::{Sink, Source};
use deku::prelude::{DekuError, DekuReader, DekuWriter, Reader, Writer};
use deku_symmetry::{
    Be, ChosenBy, ChosenByRef, CountOf, CountOfLaw, CountedBy, CountedByRef, Either, FromParts,
    IdOf, IdOfLaw, Kind, Record, ToParts, read_record,
};
use std::marker::PhantomData;

/// Kinds under an id that is elsewhere.
#[derive(Debug, Clone, Copy, PartialEq, Eq)]
pub enum Body {
    /// Id 1.
    Number(u16),
    /// Id 2.
    Nothing,
}

// The kinds of Body, in their order.
type BodyKinds = Either<Kind<Be<u16>, 1>, Kind<(), 2>>;

impl FromParts for Body {
    type Parts = BodyKinds;

    ghost parts_of = { elim [
      | body_kinds.Number field_0 ↦ either.This (record { 0 = be field_0 })
      | body_kinds.Nothing ↦ either.Other (record { 0 = tt })
    ] };

    ghost record_of = { λ p. elim p [
      | either.This k ↦ body_kinds.Number k.0.0
      | either.Other k ↦ body_kinds.Nothing
    ] };

    fn from_parts(parts: Self::Parts) -> Self {
        match parts {
            Either::This(Kind(Be(field_0))) => Body::Number(field_0),
            Either::Other(Kind(())) => Body::Nothing,
        }
    }

    ghost there = { elim [
      | body_kinds.Number field_0 ↦ refl
      | body_kinds.Nothing ↦ refl
    ] };
}

impl ToParts for Body {
    fn parts(&self) -> Self::Parts {
        match self {
            Body::Number(field_0) => Either::This(Kind(Be(*field_0))),
            Body::Nothing => Either::Other(Kind(())),
        }
    }
}

/// A list, the enum, and a list.
#[derive(Debug, PartialEq, Eq, Drop)]
pub struct Between {
    pub length: u8,
    pub marks: Vec<u8>,
    pub kind: u8,
    pub body: Body,
    pub count: u8,
    pub rest: Vec<u8>,
}

/// How many `marks` there are: `length`.
#[derive(Debug, PartialEq, Eq, Drop)]
pub struct BetweenMarksCount;

impl CountOf<u8> for BetweenMarksCount {
    ghost count_of = { λ p. Some p };

    fn count(parts: &u8) -> Option<usize> {
        let length = *parts as usize;
        Some(length)
    }
}

impl CountOfLaw<u8> for BetweenMarksCount {
    ghost alike = { λ v w e. rw e refl };
}

/// Which kind `body` is: `kind`.
#[derive(Debug, PartialEq, Eq, Drop)]
pub struct BetweenBodyId;

impl IdOf<u8> for BetweenBodyId {
    ghost id_of = { λ p. p };

    fn id(parts: &u8) -> u64 {
        *parts as u64
    }
}

impl IdOfLaw<u8> for BetweenBodyId {
    ghost alike = { λ v w e. rw e refl };
}

/// How many `rest` there are: `count`.
#[derive(Debug, PartialEq, Eq, Drop)]
pub struct BetweenRestCount;

impl CountOf<u8> for BetweenRestCount {
    ghost count_of = { λ p. Some p };

    fn count(parts: &u8) -> Option<usize> {
        let count = *parts as usize;
        Some(count)
    }
}

impl CountOfLaw<u8> for BetweenRestCount {
    ghost alike = { λ v w e. rw e refl };
}

impl Between {
    /// The names of its parts, in their order.
    pub const FIELDS: [&'static str; 6] = ["length", "marks", "kind", "body", "count", "rest"];
}

// The parts of Between, in their order.
type BetweenParts = (
    CountedBy<u8, BetweenMarksCount, u8>,
    ChosenBy<u8, BetweenBodyId, BodyKinds>,
    CountedBy<u8, BetweenRestCount, u8>,
);

impl FromParts for Between {
    type Parts = BetweenParts;

    ghost parts_of = { λ r. (
      record { head = r.length; items = r.marks; count = record {} },
      record { head = r.kind; kind = ⟦<Body as FromParts>⟧.parts_of r.body; id = record {} },
      record { head = r.count; items = r.rest; count = record {} },
    ) };

    ghost record_of = { λ p. record {
      length = p.0.head;
      marks = p.0.items;
      kind = p.1.head;
      body = ⟦<Body as FromParts>⟧.record_of p.1.kind;
      count = p.2.head;
      rest = p.2.items;
    } };

    fn from_parts(parts: Self::Parts) -> Self {
        let (
            CountedBy {
                head: length,
                items: marks,
                ..
            },
            ChosenBy {
                head: kind,
                kind: body,
                ..
            },
            CountedBy {
                head: count,
                items: rest,
                ..
            },
        ) = parts;
        Between {
            length,
            marks,
            kind,
            body: Body::from_parts(body),
            count,
            rest,
        }
    }

    ghost use Rattle.deku_derived_tests.specs.contracts.between.BodyFromParts.TheImpl.Laws.{there-law as body_there};

    ghost there = { λ r. rw (body_there r.body) refl };
}

impl DekuReader<()> for Between {
    ghost no_read_ahead = { ⟦<BetweenParts as DekuReader<()>>⟧.no_read_ahead };

    ghost meaning = { λ c. Then (⟦<BetweenParts as DekuReader<()>>⟧.meaning c)
        (Shows ⟦<Between as FromParts>⟧.parts_of) };

    #[inline(always)]
    fn from_reader_with_ctx<R: Source>(reader: &mut Reader<R>, ctx: ()) -> Result<Self, DekuError> {
        read_record(reader, ctx)
    }
}

impl DekuWriter<()> for Between {
    ghost meaning = { λ v. ⟦<BetweenParts as DekuWriter<()>>⟧.meaning
        (⟦<Between as FromParts>⟧.parts_of v) };

    #[inline(always)]
    fn to_writer<W: Sink>(&self, writer: &mut Writer<W>, ctx: ()) -> Result<(), DekuError> {
        let parts = (
            CountedByRef::<_, BetweenMarksCount, _> {
                head: self.length,
                items: &self.marks,
                count: PhantomData,
            },
            ChosenByRef::<_, BetweenBodyId, _> {
                head: self.kind,
                value: &self.body,
                id: PhantomData,
            },
            CountedByRef::<_, BetweenRestCount, _> {
                head: self.count,
                items: &self.rest,
                count: PhantomData,
            },
        );
        parts.to_writer(writer, ctx)
    }
}

impl Record<()> for Between {
    type Layout = BetweenParts;

    ghost reads = { λ c b s r u m. m };

    ghost writes = { λ c v b s r u m. m };
}
