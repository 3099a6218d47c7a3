//! Values of a sensor, and how many there are.
//!
//! Printed by `derive` from `batch.rs`.

ghost use Rattle.std.specs.Prelude.{◌≡◌, ◌⊎◌, ◌<◌, ◌≤◌, ◌^◌, Some, length, Ok, Err, codes, refl};
ghost use Rattle.deku.specs.Composing.{Then};
ghost use Rattle.deku.specs.Shapes.{Shows};
ghost use Rattle.deku.specs.declared.error.DekuError.{DekuError as Refusal};
ghost use Rattle.deku.specs.declared.error.DekuError.TheVariants.{Parse};
ghost use Rattle.deku.specs.Faults.{Tells};

use deku::device::{Sink, Source};
use deku::prelude::{DekuError, DekuReader, DekuUpdate, DekuWriter, Reader, Writer};
use deku_symmetry::{
    Be, CountOf, CountOfLaw, CountedBy, CountedByRef, FromParts, Record, read_record,
};
use std::marker::PhantomData;

/// The record `Batch`.
#[derive(Debug, PartialEq, Eq, Drop)]
pub struct Batch {
    pub count: u8,
    pub values: Vec<Be<i16>>,
}

/// How many `values` there are: `count`.
#[derive(Debug, PartialEq, Eq, Drop)]
pub struct BatchValuesCount;

impl CountOf<u8> for BatchValuesCount {
    ghost count_of = { λ p. Some p };

    fn count(parts: &u8) -> Option<usize> {
        let count = *parts as usize;
        Some(count)
    }
}

impl CountOfLaw<u8> for BatchValuesCount {
    ghost alike = { λ v w e. rw e refl };
}

impl Batch {
    /// The names of its parts, in their order.
    pub const FIELDS: [&'static str; 2] = ["count", "values"];
}

// The parts of Batch, in their order.
type BatchParts = CountedBy<u8, BatchValuesCount, Be<i16>>;

impl FromParts for Batch {
    type Parts = BatchParts;

    ghost parts_of = { λ r. record { head = r.count; items = r.values; count = record {} } };

    ghost record_of = { λ p. record { count = p.head; values = p.items } };

    fn from_parts(parts: Self::Parts) -> Self {
        let CountedBy {
            head: count,
            items: values,
            ..
        } = parts;
        Batch { count, values }
    }

    ghost there = { λ r. refl };
}

impl DekuReader<()> for Batch {
    ghost no_read_ahead = { ⟦<BatchParts as DekuReader<()>>⟧.no_read_ahead };

    ghost meaning = { λ c. Then (⟦<BatchParts as DekuReader<()>>⟧.meaning c)
        (Shows ⟦<Batch as FromParts>⟧.parts_of) };

    #[inline(always)]
    fn from_reader_with_ctx<R: Source>(reader: &mut Reader<R>, ctx: ()) -> Result<Self, DekuError> {
        read_record(reader, ctx)
    }
}

impl DekuWriter<()> for Batch {
    ghost meaning = { λ v. ⟦<BatchParts as DekuWriter<()>>⟧.meaning
        (⟦<Batch as FromParts>⟧.parts_of v) };

    #[inline(always)]
    fn to_writer<W: Sink>(&self, writer: &mut Writer<W>, ctx: ()) -> Result<(), DekuError> {
        let parts = CountedByRef::<_, BatchValuesCount, _> {
            head: self.count,
            items: &self.values,
            count: PhantomData,
        };
        parts.to_writer(writer, ctx)
    }
}

impl Record<()> for Batch {
    type Layout = BatchParts;

    ghost reads = { λ c b s r u m. m };

    ghost writes = { λ c v b s r u m. m };
}

/// Sets `count` to the length of `values`.
/// It fails with `Parse("error parsing int")`, and nothing changes, if a length does not fit.
impl DekuUpdate for Batch {
    ghost updates = { λ v r w. ((length v.values.items < 2 ^ 8)
        × (r ≡ Ok tt)
        × (w ≡ record v { count = length v.values.items }))
        ⊎ ((2 ^ 8 ≤ length v.values.items)
        × ((e : Refusal) × (r ≡ Err e) × Tells Parse (codes "error parsing int") e) × (w ≡ v)) };

    fn update(&mut self) -> Result<(), DekuError> {
        let count = u8::try_from(self.values.len())?;
        self.count = count;
        Ok(())
    }
}
