//! An enum with ids and payloads.
//!
//! Printed by `derive` from `shape.rs`.

ghost use Rattle.std.specs.Prelude.{refl};
ghost use Rattle.deku.specs.Composing.{Then};
ghost use Rattle.deku.specs.Shapes.{Shows};
ghost use Rattle.deku_symmetry.specs.Fields.{be, msb};
ghost use Rattle.deku_pieces.specs.declared.either.Either.TheVariants as either;
ghost use Rattle.deku_derived_tests.specs.declared.shape.Shape.TheVariants as shape_kinds;

use deku::device::{Sink, Source};
use deku::prelude::{DekuError, DekuReader, DekuWriter, Reader, Writer};
use deku_symmetry::{
    Be, Either, Enum, FromParts, InRange, Kind, Msb, MsbEnum, Otherwise, Record, ToParts,
    read_record, write_record,
};

/// The record `Shape`.
#[derive(Debug, Clone, Copy, PartialEq, Eq)]
pub enum Shape {
    /// Id 1.
    Circle(u16),
    /// Id 2.
    Rectangle { flags: u8, width: u16, height: u16 },
    /// Id 3.
    Empty(u8),
    /// Every other id.
    Unknown(u64, u8),
}

// The parts of Shape, in their order.
type ShapeParts = MsbEnum<
    Either<
        Either<Kind<Msb<u16, 12>, 1>, Kind<(Msb<u8, 4>, Be<u16>, Be<u16>), 2>>,
        Either<Kind<Msb<u8, 4>, 3>, Otherwise<Msb<u8, 4>>>,
    >,
    4,
>;

impl FromParts for Shape {
    type Parts = ShapeParts;

    ghost parts_of = { elim [
      | shape_kinds.Circle field_0 ↦ record {
        kind = either.This (either.This (record { 0 = msb field_0 }));
        id = record {};
      }
      | shape_kinds.Rectangle flags width height ↦ record {
        kind = either.This (either.Other (record { 0 = (msb flags, be width, be height) }));
        id = record {};
      }
      | shape_kinds.Empty field_0 ↦ record {
        kind = either.Other (either.This (record { 0 = msb field_0 }));
        id = record {};
      }
      | shape_kinds.Unknown field_0 field_1 ↦ record {
        kind = either.Other (either.Other (record { id = field_0; value = msb field_1 }));
        id = record {};
      }
    ] };

    ghost record_of = { λ p. elim p.kind [
      | either.This k ↦ elim k [
        | either.This k ↦ shape_kinds.Circle k.0.0
        | either.Other k ↦ shape_kinds.Rectangle k.0.0.0 k.0.1.0 k.0.2.0
      ]
      | either.Other k ↦ elim k [
        | either.This k ↦ shape_kinds.Empty k.0.0
        | either.Other k ↦ shape_kinds.Unknown k.id k.value.0
      ]
    ] };

    fn from_parts(parts: Self::Parts) -> Self {
        match parts.kind {
            Either::This(Either::This(Kind(Msb(field_0)))) => Shape::Circle(field_0),
            Either::This(Either::Other(Kind((Msb(flags), Be(width), Be(height))))) =>
                Shape::Rectangle {
                    flags,
                    width,
                    height,
                },
            Either::Other(Either::This(Kind(Msb(field_0)))) => Shape::Empty(field_0),
            Either::Other(Either::Other(kept)) => Shape::Unknown(kept.id, kept.value.0),
        }
    }

    ghost there = { elim [
      | shape_kinds.Circle field_0 ↦ refl
      | shape_kinds.Rectangle flags width height ↦ refl
      | shape_kinds.Empty field_0 ↦ refl
      | shape_kinds.Unknown field_0 field_1 ↦ refl
    ] };
}

impl ToParts for Shape {
    fn parts(&self) -> Self::Parts {
        match self {
            Shape::Circle(field_0) => Enum::new(Either::This(Either::This(Kind(Msb(*field_0))))),
            Shape::Rectangle {
                flags,
                width,
                height,
            } => {
                Enum::new(Either::This(Either::Other(Kind((Msb(*flags), Be(*width), Be(*height))))))
            }
            Shape::Empty(field_0) => Enum::new(Either::Other(Either::This(Kind(Msb(*field_0))))),
            Shape::Unknown(field_0, field_1) => {
                Enum::new(Either::Other(Either::Other(InRange {
                    id: *field_0,
                    value: Msb(*field_1),
                })))
            }
        }
    }
}

impl DekuReader<()> for Shape {
    ghost no_read_ahead = { ⟦<ShapeParts as DekuReader<()>>⟧.no_read_ahead };

    ghost meaning = { λ c. Then (⟦<ShapeParts as DekuReader<()>>⟧.meaning c)
        (Shows ⟦<Shape as FromParts>⟧.parts_of) };

    #[inline(always)]
    fn from_reader_with_ctx<R: Source>(reader: &mut Reader<R>, ctx: ()) -> Result<Self, DekuError> {
        read_record(reader, ctx)
    }
}

impl DekuWriter<()> for Shape {
    ghost meaning = { λ v. ⟦<ShapeParts as DekuWriter<()>>⟧.meaning
        (⟦<Shape as FromParts>⟧.parts_of v) };

    #[inline(always)]
    fn to_writer<W: Sink>(&self, writer: &mut Writer<W>, ctx: ()) -> Result<(), DekuError> {
        write_record(self, writer, ctx)
    }
}

impl Record<()> for Shape {
    type Layout = ShapeParts;

    ghost reads = { λ c b s r u m. m };

    ghost writes = { λ c v b s r u m. m };
}
