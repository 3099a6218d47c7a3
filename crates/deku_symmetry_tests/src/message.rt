//! Messages: an id of a byte, and what it chooses.

ghost use Rattle.std.specs.Prelude.{refl};
ghost use Rattle.deku.specs.Composing.{Then};
ghost use Rattle.deku.specs.Shapes.{Shows};
ghost use Rattle.deku_symmetry_tests.specs.declared.message.Message.TheVariants.{Tone, Move, Stop};
ghost use Rattle.deku_pieces.specs.declared.either.Either.TheVariants as either;
ghost use Rattle.deku_symmetry.specs.Fields.{be, msb};

use deku::device::{Sink, Source};
use deku::prelude::{DekuError, DekuReader, DekuWriter, Reader, Writer};
use deku_symmetry::{
    Be, Either, Enum, FromParts, Kind, Msb, MsbEnum, Record, ToParts, read_record, write_record,
};

/// A message.
#[derive(Debug, Clone, Copy, PartialEq, Eq)]
pub enum Message {
    /// Id 1: how high a tone is.
    Tone(u16),
    /// Id 2: where to move to, twelve bits each.
    Move { across: i16, up: i16 },
    /// Id 3: nothing more.
    Stop,
}

// Where to move to.
type Place = (Msb<i16, 12>, Msb<i16, 12>);

// The parts of Message, in their order.
type MessageParts = MsbEnum<Either<Kind<Be<u16>, 1>, Either<Kind<Place, 2>, Kind<(), 3>>>, 8>;

impl FromParts for Message {
    type Parts = MessageParts;

    ghost parts_of = { elim [
      | Tone height ↦ record { kind = either.This (record { 0 = be height }); id = record {} }
      | Move across up ↦ record {
        kind = either.Other (either.This (record { 0 = (msb across, msb up) }));
        id = record {};
      }
      | Stop ↦ record { kind = either.Other (either.Other (record { 0 = tt })); id = record {} }
    ] };

    ghost record_of = { λ p. elim p.kind [
      | either.This k ↦ Tone k.0.0
      | either.Other k ↦ elim k [
        | either.This k ↦ Move k.0.0.0 k.0.1.0
        | either.Other k ↦ Stop
      ]
    ] };

    fn from_parts(parts: Self::Parts) -> Self {
        match parts.kind {
            Either::This(Kind(Be(height))) => Message::Tone(height),
            Either::Other(Either::This(Kind((Msb(across), Msb(up))))) => {
                Message::Move { across, up }
            }
            Either::Other(Either::Other(Kind(()))) => Message::Stop,
        }
    }

    ghost there = { elim [ Tone height ↦ refl | Move across up ↦ refl | Stop ↦ refl ] };
}

impl ToParts for Message {
    fn parts(&self) -> Self::Parts {
        match self {
            Message::Tone(height) => Enum::new(Either::This(Kind(Be(*height)))),
            Message::Move { across, up } => {
                Enum::new(Either::Other(Either::This(Kind((Msb(*across), Msb(*up))))))
            }
            Message::Stop => Enum::new(Either::Other(Either::Other(Kind(())))),
        }
    }
}

impl DekuReader<()> for Message {
    ghost no_read_ahead = { ⟦<MessageParts as DekuReader<()>>⟧.no_read_ahead };

    ghost meaning = { λ c. Then (⟦<MessageParts as DekuReader<()>>⟧.meaning c)
        (Shows ⟦<Message as FromParts>⟧.parts_of) };

    #[inline(always)]
    fn from_reader_with_ctx<R: Source>(reader: &mut Reader<R>, ctx: ()) -> Result<Self, DekuError> {
        read_record(reader, ctx)
    }
}

impl DekuWriter<()> for Message {
    ghost meaning = { λ v. ⟦<MessageParts as DekuWriter<()>>⟧.meaning
        (⟦<Message as FromParts>⟧.parts_of v) };

    #[inline(always)]
    fn to_writer<W: Sink>(&self, writer: &mut Writer<W>, ctx: ()) -> Result<(), DekuError> {
        write_record(self, writer, ctx)
    }
}

impl Record<()> for Message {
    type Layout = MessageParts;

    ghost reads = { λ c b s r u m. m };

    ghost writes = { λ c v b s r u m. m };
}
