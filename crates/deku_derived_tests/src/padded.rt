//! Padding on each side of a field, and an id in an endian of its own.
//!
//! Printed by `derive` from `padded.rs`.

ghost use Rattle.std.specs.Prelude.{codes, refl};
ghost use Rattle.deku.specs.Composing.{Then};
ghost use Rattle.deku.specs.Shapes.{Shows};
ghost use Rattle.deku_symmetry.specs.Fields.{be, le, msb_le};
ghost use Rattle.deku_pieces.specs.declared.either.Either.TheVariants as either;
ghost use Rattle.deku_derived_tests.specs.declared.padded.EndianOfId.TheVariants as endian_of_id_kinds;

use deku::device::{Sink, Source};
use deku::prelude::{DekuError, DekuReader, DekuWriter, Reader, Writer};
use deku_symmetry::{
    Be, Constant, ConstantLaw, Either, Enum, FromParts, Kind, Le, Magic, Msb, MsbEnum, MsbLe,
    Record, ToParts, read_record, write_record,
};

/// Padding.
#[derive(Debug, PartialEq, Eq, Drop)]
pub struct Zeros;

impl<const N: usize> Constant<Msb<u64, N>> for Zeros {
    ghost value = { record { 0 = 0 } };

    ghost text = { codes "padding" };

    fn value() -> Msb<u64, N> {
        Msb(0)
    }

    fn is_value(part: &Msb<u64, N>) -> bool {
        part.0 == 0
    }

    fn text() -> &'static str {
        "padding"
    }
}

impl<const N: usize> ConstantLaw<Msb<u64, N>> for Zeros {
    ghost alike = { λ v e. rw e refl };
}

/// A byte in the middle of three, and two numbers in one.
#[derive(Debug, Clone, Copy, PartialEq, Eq)]
pub struct Padded {
    pub byte: u8,
    pub first: u8,
    pub second: u8,
}

impl Padded {
    /// The names of its parts, in their order.
    pub const FIELDS: [&'static str; 6] = [
        "padding", "byte", "padding", "first", "padding", "second",
    ];
}

// The parts of Padded, in their order.
type PaddedParts = (
    Magic<Msb<u64, 8>, Zeros>,
    u8,
    Magic<Msb<u64, 8>, Zeros>,
    MsbLe<u8, 2>,
    Magic<Msb<u64, 2>, Zeros>,
    MsbLe<u8, 4>,
);

impl FromParts for Padded {
    type Parts = PaddedParts;

    ghost parts_of = { λ r. (
      record { part = record {}; constant = record {} },
      r.byte,
      record { part = record {}; constant = record {} },
      msb_le r.first,
      record { part = record {}; constant = record {} },
      msb_le r.second,
    ) };

    ghost record_of = { λ p. record { byte = p.1; first = p.3.0; second = p.5.0 } };

    fn from_parts((_, byte, _, MsbLe(first), _, MsbLe(second)): Self::Parts) -> Self {
        Padded {
            byte,
            first,
            second,
        }
    }

    ghost there = { λ r. refl };
}

impl ToParts for Padded {
    fn parts(&self) -> Self::Parts {
        (
            Magic::new(),
            self.byte,
            Magic::new(),
            MsbLe(self.first),
            Magic::new(),
            MsbLe(self.second),
        )
    }
}

impl DekuReader<()> for Padded {
    ghost no_read_ahead = { ⟦<PaddedParts as DekuReader<()>>⟧.no_read_ahead };

    ghost meaning = { λ c. Then (⟦<PaddedParts as DekuReader<()>>⟧.meaning c)
        (Shows ⟦<Padded as FromParts>⟧.parts_of) };

    #[inline(always)]
    fn from_reader_with_ctx<R: Source>(reader: &mut Reader<R>, ctx: ()) -> Result<Self, DekuError> {
        read_record(reader, ctx)
    }
}

impl DekuWriter<()> for Padded {
    ghost meaning = { λ v. ⟦<PaddedParts as DekuWriter<()>>⟧.meaning
        (⟦<Padded as FromParts>⟧.parts_of v) };

    #[inline(always)]
    fn to_writer<W: Sink>(&self, writer: &mut Writer<W>, ctx: ()) -> Result<(), DekuError> {
        write_record(self, writer, ctx)
    }
}

impl Record<()> for Padded {
    type Layout = PaddedParts;

    ghost reads = { λ c b s r u m. m };

    ghost writes = { λ c v b s r u m. m };
}

/// Ids of one endian, and fields of another.
#[derive(Debug, Clone, Copy, PartialEq, Eq)]
pub enum EndianOfId {
    /// Id 1.
    Little(u16),
    /// Id 2.
    Big { x: u16 },
}

// The parts of EndianOfId, in their order.
type EndianOfIdParts = MsbEnum<Either<Kind<Le<u16>, 1>, Kind<Be<u16>, 2>>, 16>;

impl FromParts for EndianOfId {
    type Parts = EndianOfIdParts;

    ghost parts_of = { elim [
      | endian_of_id_kinds.Little field_0 ↦ record {
        kind = either.This (record { 0 = le field_0 });
        id = record {};
      }
      | endian_of_id_kinds.Big x ↦ record {
        kind = either.Other (record { 0 = be x });
        id = record {};
      }
    ] };

    ghost record_of = { λ p. elim p.kind [
      | either.This k ↦ endian_of_id_kinds.Little k.0.0
      | either.Other k ↦ endian_of_id_kinds.Big k.0.0
    ] };

    fn from_parts(parts: Self::Parts) -> Self {
        match parts.kind {
            Either::This(Kind(Le(field_0))) => EndianOfId::Little(field_0),
            Either::Other(Kind(Be(x))) => EndianOfId::Big { x },
        }
    }

    ghost there = { elim [
      | endian_of_id_kinds.Little field_0 ↦ refl
      | endian_of_id_kinds.Big x ↦ refl
    ] };
}

impl ToParts for EndianOfId {
    fn parts(&self) -> Self::Parts {
        match self {
            EndianOfId::Little(field_0) => Enum::new(Either::This(Kind(Le(*field_0)))),
            EndianOfId::Big { x } => Enum::new(Either::Other(Kind(Be(*x)))),
        }
    }
}

impl DekuReader<()> for EndianOfId {
    ghost no_read_ahead = { ⟦<EndianOfIdParts as DekuReader<()>>⟧.no_read_ahead };

    ghost meaning = { λ c. Then (⟦<EndianOfIdParts as DekuReader<()>>⟧.meaning c)
        (Shows ⟦<EndianOfId as FromParts>⟧.parts_of) };

    #[inline(always)]
    fn from_reader_with_ctx<R: Source>(reader: &mut Reader<R>, ctx: ()) -> Result<Self, DekuError> {
        read_record(reader, ctx)
    }
}

impl DekuWriter<()> for EndianOfId {
    ghost meaning = { λ v. ⟦<EndianOfIdParts as DekuWriter<()>>⟧.meaning
        (⟦<EndianOfId as FromParts>⟧.parts_of v) };

    #[inline(always)]
    fn to_writer<W: Sink>(&self, writer: &mut Writer<W>, ctx: ()) -> Result<(), DekuError> {
        write_record(self, writer, ctx)
    }
}

impl Record<()> for EndianOfId {
    type Layout = EndianOfIdParts;

    ghost reads = { λ c b s r u m. m };

    ghost writes = { λ c v b s r u m. m };
}
