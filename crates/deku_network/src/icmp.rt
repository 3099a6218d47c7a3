//! Messages of ICMP, RFC 792.
//!
//! ```text
//! kind          8 bits   0 the answer to an echo, 3 unreachable, 8 an echo, 11 time exceeded
//! code          8 bits
//! checksum     16 bits
//! identifier   16 bits   of an echo and its answer; then data
//! sequence     16 bits
//! unused       16 bits   of unreachable; then the beginning of the packet
//! next_mtu     16 bits   (RFC 1191)
//! unused       32 bits   of time exceeded; then the beginning of the packet
//! ```
//!
//! Printed by `derive` from `icmp.rs`.

ghost use Rattle.std.specs.Prelude.{refl};
ghost use Rattle.deku.specs.Composing.{Then};
ghost use Rattle.deku.specs.Shapes.{Shows};
ghost use Rattle.deku_symmetry.specs.Fields.{be};
ghost use Rattle.deku_pieces.specs.declared.either.Either.TheVariants as either;
ghost use Rattle.deku_network.specs.declared.icmp.Icmp.TheVariants as icmp_kinds;

use deku::device::{Sink, Source};
use deku::prelude::{DekuError, DekuReader, DekuWriter, Reader, Writer};
use deku_symmetry::{
    Be, Either, Enum, FromParts, InRange, Kind, MsbEnum, Otherwise, Record, ToParts, read_record,
    write_record,
};

/// The beginning of a message, by its kind.
#[derive(Debug, Clone, Copy, PartialEq, Eq)]
pub enum Icmp {
    /// The answer to an echo.
    EchoReply {
        code: u8,
        checksum: u16,
        identifier: u16,
        sequence: u16,
    },
    /// The packet did not reach its destination.
    Unreachable {
        code: u8,
        checksum: u16,
        unused: u16,
        next_mtu: u16,
    },
    /// An echo is asked for.
    Echo {
        code: u8,
        checksum: u16,
        identifier: u16,
        sequence: u16,
    },
    /// The packet was too long on its way.
    TimeExceeded {
        code: u8,
        checksum: u16,
        unused: u32,
    },
    /// Another message: its kind, its code and its checksum.
    Other(u64, u8, u16),
}

// The parts of Icmp, in their order.
type IcmpParts = MsbEnum<
    Either<
        Either<
            Either<
                Kind<(u8, Be<u16>, Be<u16>, Be<u16>), 0>,
                Kind<(u8, Be<u16>, Be<u16>, Be<u16>), 3>,
            >,
            Either<Kind<(u8, Be<u16>, Be<u16>, Be<u16>), 8>, Kind<(u8, Be<u16>, Be<u32>), 11>>,
        >,
        Otherwise<(u8, Be<u16>)>,
    >,
    8,
>;

impl FromParts for Icmp {
    type Parts = IcmpParts;

    ghost parts_of = { elim [
      | icmp_kinds.EchoReply code checksum identifier sequence ↦ record {
        kind = either.This (either.This (either.This (record {
          0 = (code, be checksum, be identifier, be sequence);
        })));
        id = record {};
      }
      | icmp_kinds.Unreachable code checksum unused next_mtu ↦ record {
        kind = either.This (either.This (either.Other (record {
          0 = (code, be checksum, be unused, be next_mtu);
        })));
        id = record {};
      }
      | icmp_kinds.Echo code checksum identifier sequence ↦ record {
        kind = either.This (either.Other (either.This (record {
          0 = (code, be checksum, be identifier, be sequence);
        })));
        id = record {};
      }
      | icmp_kinds.TimeExceeded code checksum unused ↦ record {
        kind = either.This (either.Other (either.Other (record {
          0 = (code, be checksum, be unused);
        })));
        id = record {};
      }
      | icmp_kinds.Other field_0 field_1 field_2 ↦ record {
        kind = either.Other (record { id = field_0; value = (field_1, be field_2) });
        id = record {};
      }
    ] };

    ghost record_of = { λ p. elim p.kind [
      | either.This k ↦ elim k [
        | either.This k ↦ elim k [
          | either.This k ↦ icmp_kinds.EchoReply k.0.0 k.0.1.0 k.0.2.0 k.0.3.0
          | either.Other k ↦ icmp_kinds.Unreachable k.0.0 k.0.1.0 k.0.2.0 k.0.3.0
        ]
        | either.Other k ↦ elim k [
          | either.This k ↦ icmp_kinds.Echo k.0.0 k.0.1.0 k.0.2.0 k.0.3.0
          | either.Other k ↦ icmp_kinds.TimeExceeded k.0.0 k.0.1.0 k.0.2.0
        ]
      ]
      | either.Other k ↦ icmp_kinds.Other k.id k.value.0 k.value.1.0
    ] };

    fn from_parts(parts: Self::Parts) -> Self {
        match parts.kind {
            Either::This(
                Either::This(
                    Either::This(Kind((code, Be(checksum), Be(identifier), Be(sequence)))),
                ),
            ) => Icmp::EchoReply {
                code,
                checksum,
                identifier,
                sequence,
            },
            Either::This(
                Either::This(Either::Other(Kind((code, Be(checksum), Be(unused), Be(next_mtu))))),
            ) => Icmp::Unreachable {
                code,
                checksum,
                unused,
                next_mtu,
            },
            Either::This(
                Either::Other(
                    Either::This(Kind((code, Be(checksum), Be(identifier), Be(sequence)))),
                ),
            ) => Icmp::Echo {
                code,
                checksum,
                identifier,
                sequence,
            },
            Either::This(Either::Other(Either::Other(Kind((code, Be(checksum), Be(unused)))))) =>
                Icmp::TimeExceeded {
                    code,
                    checksum,
                    unused,
                },
            Either::Other(kept) => Icmp::Other(kept.id, kept.value.0, kept.value.1.0),
        }
    }

    ghost there = { elim [
      | icmp_kinds.EchoReply code checksum identifier sequence ↦ refl
      | icmp_kinds.Unreachable code checksum unused next_mtu ↦ refl
      | icmp_kinds.Echo code checksum identifier sequence ↦ refl
      | icmp_kinds.TimeExceeded code checksum unused ↦ refl
      | icmp_kinds.Other field_0 field_1 field_2 ↦ refl
    ] };
}

impl ToParts for Icmp {
    fn parts(&self) -> Self::Parts {
        match self {
            Icmp::EchoReply {
                code,
                checksum,
                identifier,
                sequence,
            } => {
                Enum::new(Either::This(Either::This(Either::This(Kind((
                    *code,
                    Be(*checksum),
                    Be(*identifier),
                    Be(*sequence),
                ))))))
            }
            Icmp::Unreachable {
                code,
                checksum,
                unused,
                next_mtu,
            } => {
                Enum::new(Either::This(Either::This(Either::Other(Kind((
                    *code,
                    Be(*checksum),
                    Be(*unused),
                    Be(*next_mtu),
                ))))))
            }
            Icmp::Echo {
                code,
                checksum,
                identifier,
                sequence,
            } => {
                Enum::new(Either::This(Either::Other(Either::This(Kind((
                    *code,
                    Be(*checksum),
                    Be(*identifier),
                    Be(*sequence),
                ))))))
            }
            Icmp::TimeExceeded {
                code,
                checksum,
                unused,
            } => {
                Enum::new(Either::This(Either::Other(Either::Other(Kind((
                    *code,
                    Be(*checksum),
                    Be(*unused),
                ))))))
            }
            Icmp::Other(field_0, field_1, field_2) => {
                Enum::new(Either::Other(InRange {
                    id: *field_0,
                    value: (*field_1, Be(*field_2)),
                }))
            }
        }
    }
}

impl DekuReader<()> for Icmp {
    ghost no_read_ahead = { ⟦<IcmpParts as DekuReader<()>>⟧.no_read_ahead };

    ghost meaning = { λ c. Then (⟦<IcmpParts as DekuReader<()>>⟧.meaning c)
        (Shows ⟦<Icmp as FromParts>⟧.parts_of) };

    #[inline(always)]
    fn from_reader_with_ctx<R: Source>(reader: &mut Reader<R>, ctx: ()) -> Result<Self, DekuError> {
        read_record(reader, ctx)
    }
}

impl DekuWriter<()> for Icmp {
    ghost meaning = { λ v. ⟦<IcmpParts as DekuWriter<()>>⟧.meaning
        (⟦<Icmp as FromParts>⟧.parts_of v) };

    #[inline(always)]
    fn to_writer<W: Sink>(&self, writer: &mut Writer<W>, ctx: ()) -> Result<(), DekuError> {
        write_record(self, writer, ctx)
    }
}

impl Record<()> for Icmp {
    type Layout = IcmpParts;

    ghost reads = { λ c b s r u m. m };

    ghost writes = { λ c v b s r u m. m };
}
