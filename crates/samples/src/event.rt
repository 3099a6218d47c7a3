//! What a station reports.
//!
//! Printed by `derive` from `event.rs`.

ghost use Rattle.std.specs.Prelude.{refl};
ghost use Rattle.deku.specs.Composing.{Then};
ghost use Rattle.deku.specs.Shapes.{Shows};
ghost use Rattle.deku_symmetry.specs.Fields.{be};
ghost use Rattle.deku_pieces.specs.declared.either.Either.TheVariants as either;
ghost use Rattle.samples.specs.declared.event.Event.TheVariants as event_kinds;

use deku::device::{Sink, Source};
use deku::prelude::{DekuError, DekuReader, DekuWriter, Reader, Writer};
use deku_symmetry::{
    Be, Either, Enum, FromParts, InRange, Kind, MsbEnum, Otherwise, Record, ToParts, read_record,
    write_record,
};

/// The record `Event`.
#[derive(Debug, Clone, Copy, PartialEq, Eq)]
pub enum Event {
    /// Id 1.
    Started,
    /// Id 2.
    Passed { sensor: u8, limit: u16 },
    /// Every other id.
    Other(u64, u16),
}

// The parts of Event, in their order.
type EventParts = MsbEnum<
    Either<Either<Kind<(), 1>, Kind<(u8, Be<u16>), 2>>, Otherwise<Be<u16>>>,
    8,
>;

impl FromParts for Event {
    type Parts = EventParts;

    ghost parts_of = { elim [
      | event_kinds.Started ↦ record {
        kind = either.This (either.This (record { 0 = tt }));
        id = record {};
      }
      | event_kinds.Passed sensor limit ↦ record {
        kind = either.This (either.Other (record { 0 = (sensor, be limit) }));
        id = record {};
      }
      | event_kinds.Other field_0 field_1 ↦ record {
        kind = either.Other (record { id = field_0; value = be field_1 });
        id = record {};
      }
    ] };

    ghost record_of = { λ p. elim p.kind [
      | either.This k ↦ elim k [
        | either.This k ↦ event_kinds.Started
        | either.Other k ↦ event_kinds.Passed k.0.0 k.0.1.0
      ]
      | either.Other k ↦ event_kinds.Other k.id k.value.0
    ] };

    fn from_parts(parts: Self::Parts) -> Self {
        match parts.kind {
            Either::This(Either::This(Kind(()))) => Event::Started,
            Either::This(Either::Other(Kind((sensor, Be(limit))))) => Event::Passed {
                sensor,
                limit,
            },
            Either::Other(kept) => Event::Other(kept.id, kept.value.0),
        }
    }

    ghost there = { elim [
      | event_kinds.Started ↦ refl
      | event_kinds.Passed sensor limit ↦ refl
      | event_kinds.Other field_0 field_1 ↦ refl
    ] };
}

impl ToParts for Event {
    fn parts(&self) -> Self::Parts {
        match self {
            Event::Started => Enum::new(Either::This(Either::This(Kind(())))),
            Event::Passed { sensor, limit } => {
                Enum::new(Either::This(Either::Other(Kind((*sensor, Be(*limit))))))
            }
            Event::Other(field_0, field_1) => {
                Enum::new(Either::Other(InRange {
                    id: *field_0,
                    value: Be(*field_1),
                }))
            }
        }
    }
}

impl DekuReader<()> for Event {
    ghost no_read_ahead = { ⟦<EventParts as DekuReader<()>>⟧.no_read_ahead };

    ghost meaning = { λ c. Then (⟦<EventParts as DekuReader<()>>⟧.meaning c)
        (Shows ⟦<Event as FromParts>⟧.parts_of) };

    #[inline(always)]
    fn from_reader_with_ctx<R: Source>(reader: &mut Reader<R>, ctx: ()) -> Result<Self, DekuError> {
        read_record(reader, ctx)
    }
}

impl DekuWriter<()> for Event {
    ghost meaning = { λ v. ⟦<EventParts as DekuWriter<()>>⟧.meaning
        (⟦<Event as FromParts>⟧.parts_of v) };

    #[inline(always)]
    fn to_writer<W: Sink>(&self, writer: &mut Writer<W>, ctx: ()) -> Result<(), DekuError> {
        write_record(self, writer, ctx)
    }
}

impl Record<()> for Event {
    type Layout = EventParts;

    ghost reads = { λ c b s r u m. m };

    ghost writes = { λ c v b s r u m. m };
}
