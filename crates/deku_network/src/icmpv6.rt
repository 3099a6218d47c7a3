//! Messages of ICMPv6, RFC 4443.
//!
//! ```text
//! kind          8 bits   1 unreachable, 3 time exceeded, 128 an echo, 129 its answer
//! code          8 bits
//! checksum     16 bits
//! identifier   16 bits   of an echo and its answer; then data
//! sequence     16 bits
//! unused       32 bits   of the others; then the beginning of the packet
//! ```
//!
//! Printed by `derive` from `icmpv6.rs`.

ghost use Rattle.std.specs.Prelude.{refl};
ghost use Rattle.deku.specs.Composing.{Then};
ghost use Rattle.deku.specs.Shapes.{Shows};
ghost use Rattle.deku_symmetry.specs.Fields.{be};
ghost use Rattle.deku_pieces.specs.declared.either.Either.TheVariants as either;
ghost use Rattle.deku_network.specs.declared.icmpv6.Icmpv6.TheVariants as icmpv6_kinds;

use deku::device::{Sink, Source};
use deku::prelude::{DekuError, DekuReader, DekuWriter, Reader, Writer};
use deku_symmetry::{
    Be, Either, Enum, FromParts, InRange, Kind, MsbEnum, Otherwise, Record, ToParts, read_record,
    write_record,
};

/// The beginning of a message, by its kind.
#[derive(Debug, Clone, Copy, PartialEq, Eq)]
pub enum Icmpv6 {
    /// The packet did not reach its destination.
    Unreachable {
        code: u8,
        checksum: u16,
        unused: u32,
    },
    /// The packet was too long on its way.
    TimeExceeded {
        code: u8,
        checksum: u16,
        unused: u32,
    },
    /// An echo is asked for.
    Echo {
        code: u8,
        checksum: u16,
        identifier: u16,
        sequence: u16,
    },
    /// The answer to an echo.
    EchoReply {
        code: u8,
        checksum: u16,
        identifier: u16,
        sequence: u16,
    },
    /// Another message: its kind, its code and its checksum.
    Other(u64, u8, u16),
}

// The parts of Icmpv6, in their order.
type Icmpv6Parts = MsbEnum<
    Either<
        Either<
            Either<Kind<(u8, Be<u16>, Be<u32>), 1>, Kind<(u8, Be<u16>, Be<u32>), 3>>,
            Either<
                Kind<(u8, Be<u16>, Be<u16>, Be<u16>), 128>,
                Kind<(u8, Be<u16>, Be<u16>, Be<u16>), 129>,
            >,
        >,
        Otherwise<(u8, Be<u16>)>,
    >,
    8,
>;

impl FromParts for Icmpv6 {
    type Parts = Icmpv6Parts;

    ghost parts_of = { elim [
      | icmpv6_kinds.Unreachable code checksum unused ↦ record {
        kind = either.This (either.This (either.This (record {
          0 = (code, be checksum, be unused);
        })));
        id = record {};
      }
      | icmpv6_kinds.TimeExceeded code checksum unused ↦ record {
        kind = either.This (either.This (either.Other (record {
          0 = (code, be checksum, be unused);
        })));
        id = record {};
      }
      | icmpv6_kinds.Echo code checksum identifier sequence ↦ record {
        kind = either.This (either.Other (either.This (record {
          0 = (code, be checksum, be identifier, be sequence);
        })));
        id = record {};
      }
      | icmpv6_kinds.EchoReply code checksum identifier sequence ↦ record {
        kind = either.This (either.Other (either.Other (record {
          0 = (code, be checksum, be identifier, be sequence);
        })));
        id = record {};
      }
      | icmpv6_kinds.Other field_0 field_1 field_2 ↦ record {
        kind = either.Other (record { id = field_0; value = (field_1, be field_2) });
        id = record {};
      }
    ] };

    ghost record_of = { λ p. elim p.kind [
      | either.This k ↦ elim k [
        | either.This k ↦ elim k [
          | either.This k ↦ icmpv6_kinds.Unreachable k.0.0 k.0.1.0 k.0.2.0
          | either.Other k ↦ icmpv6_kinds.TimeExceeded k.0.0 k.0.1.0 k.0.2.0
        ]
        | either.Other k ↦ elim k [
          | either.This k ↦ icmpv6_kinds.Echo k.0.0 k.0.1.0 k.0.2.0 k.0.3.0
          | either.Other k ↦ icmpv6_kinds.EchoReply k.0.0 k.0.1.0 k.0.2.0 k.0.3.0
        ]
      ]
      | either.Other k ↦ icmpv6_kinds.Other k.id k.value.0 k.value.1.0
    ] };

    fn from_parts(parts: Self::Parts) -> Self {
        match parts.kind {
            Either::This(Either::This(Either::This(Kind((code, Be(checksum), Be(unused)))))) =>
                Icmpv6::Unreachable {
                    code,
                    checksum,
                    unused,
                },
            Either::This(Either::This(Either::Other(Kind((code, Be(checksum), Be(unused)))))) =>
                Icmpv6::TimeExceeded {
                    code,
                    checksum,
                    unused,
                },
            Either::This(
                Either::Other(
                    Either::This(Kind((code, Be(checksum), Be(identifier), Be(sequence)))),
                ),
            ) => Icmpv6::Echo {
                code,
                checksum,
                identifier,
                sequence,
            },
            Either::This(
                Either::Other(
                    Either::Other(Kind((code, Be(checksum), Be(identifier), Be(sequence)))),
                ),
            ) => Icmpv6::EchoReply {
                code,
                checksum,
                identifier,
                sequence,
            },
            Either::Other(kept) => Icmpv6::Other(kept.id, kept.value.0, kept.value.1.0),
        }
    }

    ghost there = { elim [
      | icmpv6_kinds.Unreachable code checksum unused ↦ refl
      | icmpv6_kinds.TimeExceeded code checksum unused ↦ refl
      | icmpv6_kinds.Echo code checksum identifier sequence ↦ refl
      | icmpv6_kinds.EchoReply code checksum identifier sequence ↦ refl
      | icmpv6_kinds.Other field_0 field_1 field_2 ↦ refl
    ] };
}

impl ToParts for Icmpv6 {
    fn parts(&self) -> Self::Parts {
        match self {
            Icmpv6::Unreachable {
                code,
                checksum,
                unused,
            } => {
                Enum::new(Either::This(Either::This(Either::This(Kind((
                    *code,
                    Be(*checksum),
                    Be(*unused),
                ))))))
            }
            Icmpv6::TimeExceeded {
                code,
                checksum,
                unused,
            } => {
                Enum::new(Either::This(Either::This(Either::Other(Kind((
                    *code,
                    Be(*checksum),
                    Be(*unused),
                ))))))
            }
            Icmpv6::Echo {
                code,
                checksum,
                identifier,
                sequence,
            } => {
                Enum::new(Either::This(Either::Other(Either::This(Kind((
                    *code,
                    Be(*checksum),
                    Be(*identifier),
                    Be(*sequence),
                ))))))
            }
            Icmpv6::EchoReply {
                code,
                checksum,
                identifier,
                sequence,
            } => {
                Enum::new(Either::This(Either::Other(Either::Other(Kind((
                    *code,
                    Be(*checksum),
                    Be(*identifier),
                    Be(*sequence),
                ))))))
            }
            Icmpv6::Other(field_0, field_1, field_2) => {
                Enum::new(Either::Other(InRange {
                    id: *field_0,
                    value: (*field_1, Be(*field_2)),
                }))
            }
        }
    }
}

impl DekuReader<()> for Icmpv6 {
    ghost no_read_ahead = { ⟦<Icmpv6Parts as DekuReader<()>>⟧.no_read_ahead };

    ghost meaning = { λ c. Then (⟦<Icmpv6Parts as DekuReader<()>>⟧.meaning c)
        (Shows ⟦<Icmpv6 as FromParts>⟧.parts_of) };

    #[inline(always)]
    fn from_reader_with_ctx<R: Source>(reader: &mut Reader<R>, ctx: ()) -> Result<Self, DekuError> {
        read_record(reader, ctx)
    }
}

impl DekuWriter<()> for Icmpv6 {
    ghost meaning = { λ v. ⟦<Icmpv6Parts as DekuWriter<()>>⟧.meaning
        (⟦<Icmpv6 as FromParts>⟧.parts_of v) };

    #[inline(always)]
    fn to_writer<W: Sink>(&self, writer: &mut Writer<W>, ctx: ()) -> Result<(), DekuError> {
        write_record(self, writer, ctx)
    }
}

impl Record<()> for Icmpv6 {
    type Layout = Icmpv6Parts;

    ghost reads = { λ c b s r u m. m };

    ghost writes = { λ c v b s r u m. m };
}
