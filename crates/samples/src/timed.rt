//! A sample that may have a time.
//!
//! Printed by `derive` from `timed.rs`.

ghost use Rattle.std.specs.Prelude.{refl};
ghost use Rattle.deku.specs.Composing.{Then};
ghost use Rattle.deku.specs.Shapes.{Shows};
ghost use Rattle.deku_symmetry.specs.Fields.{be, msb};

use deku::device::{Sink, Source};
use deku::prelude::{DekuError, DekuReader, DekuWriter, Reader, Writer};
use deku_symmetry::{
    Be, Condition, ConditionLaw, FromParts, Msb, Optional, OptionalRef, Record, read_record,
};
use std::marker::PhantomData;

/// The record `Timed`.
#[derive(Debug, PartialEq, Eq, Drop)]
pub struct Timed {
    pub sensor: u8,
    pub has_time: bool,
    pub value: u16,
    pub time: Option<Be<u32>>,
}

type TimedTimeHead = (Msb<bool, 1>, Be<u16>);

/// Whether `time` is there: `has_time`.
#[derive(Debug, PartialEq, Eq, Drop)]
pub struct TimedTimeCondition;

impl Condition<TimedTimeHead> for TimedTimeCondition {
    ghost shows = { λ p. p.0.0 };

    fn shows(parts: &TimedTimeHead) -> bool {
        parts.0.0
    }
}

impl ConditionLaw<TimedTimeHead> for TimedTimeCondition {
    ghost alike = { λ v w e. rw e.0 refl };
}

impl Timed {
    /// The names of its parts, in their order.
    pub const FIELDS: [&'static str; 4] = ["sensor", "has_time", "value", "time"];
}

// The parts of Timed, in their order.
type TimedParts = (
    Msb<u8, 7>,
    Optional<TimedTimeHead, TimedTimeCondition, Be<u32>>,
);

impl FromParts for Timed {
    type Parts = TimedParts;

    ghost parts_of = { λ r. (
      msb r.sensor,
      record { head = (msb r.has_time, be r.value); item = r.time; condition = record {} },
    ) };

    ghost record_of = { λ p. record {
      sensor = p.0.0;
      has_time = p.1.head.0.0;
      value = p.1.head.1.0;
      time = p.1.item;
    } };

    fn from_parts(parts: Self::Parts) -> Self {
        let (
            Msb(sensor),
            Optional {
                head: (Msb(has_time), Be(value)),
                item: time,
                ..
            },
        ) = parts;
        Timed {
            sensor,
            has_time,
            value,
            time,
        }
    }

    ghost there = { λ r. refl };
}

impl DekuReader<()> for Timed {
    ghost no_read_ahead = { ⟦<TimedParts as DekuReader<()>>⟧.no_read_ahead };

    ghost meaning = { λ c. Then (⟦<TimedParts as DekuReader<()>>⟧.meaning c)
        (Shows ⟦<Timed as FromParts>⟧.parts_of) };

    #[inline(always)]
    fn from_reader_with_ctx<R: Source>(reader: &mut Reader<R>, ctx: ()) -> Result<Self, DekuError> {
        read_record(reader, ctx)
    }
}

impl DekuWriter<()> for Timed {
    ghost meaning = { λ v. ⟦<TimedParts as DekuWriter<()>>⟧.meaning
        (⟦<Timed as FromParts>⟧.parts_of v) };

    #[inline(always)]
    fn to_writer<W: Sink>(&self, writer: &mut Writer<W>, ctx: ()) -> Result<(), DekuError> {
        let parts = (
            Msb::<_, 7>(self.sensor),
            OptionalRef::<_, TimedTimeCondition, _> {
                head: (Msb::<_, 1>(self.has_time), Be(self.value)),
                item: &self.time,
                condition: PhantomData,
            },
        );
        parts.to_writer(writer, ctx)
    }
}

impl Record<()> for Timed {
    type Layout = TimedParts;

    ghost reads = { λ c b s r u m. m };

    ghost writes = { λ c v b s r u m. m };
}
