//! Words of a source register and a number.

ghost use Rattle.std.specs.Prelude.{refl};
ghost use Rattle.deku.specs.Composing.{Then};
ghost use Rattle.deku.specs.Shapes.{Shows};

use deku::device::{Sink, Source};
use deku::prelude::{DekuError, DekuReader, DekuWriter, Reader, Writer};
use deku_symmetry::{FromParts, Lsb, Record, ToParts, read_record, write_record};

/// The operands of an operation on a register and a number (I).
#[derive(Debug, Clone, Copy, PartialEq, Eq)]
pub struct Immediate {
    /// The register that is written, 5 bits.
    pub target: u8,
    /// The operation, 3 bits.
    pub function: u8,
    /// The register that is read, 5 bits.
    pub base: u8,
    /// The number, 12 bits including its sign.
    pub value: i16,
}

// The fields, in order.
type Parts = (Lsb<u8, 5>, Lsb<u8, 3>, Lsb<u8, 5>, Lsb<i16, 12>);

impl FromParts for Immediate {
    type Parts = Parts;

    ghost parts_of = { λ r. (
      record { 0 = r.target },
      record { 0 = r.function },
      record { 0 = r.base },
      record { 0 = r.value },
    ) };

    ghost record_of = { λ p. record {
      target = p.0.0;
      function = p.1.0;
      base = p.2.0;
      value = p.3.0;
    } };

    fn from_parts(parts: Self::Parts) -> Self {
        let (Lsb(target), Lsb(function), Lsb(base), Lsb(value)) = parts;
        Immediate {
            target,
            function,
            base,
            value,
        }
    }

    ghost there = { λ r. refl };
}

impl ToParts for Immediate {
    fn parts(&self) -> Self::Parts {
        (
            Lsb(self.target),
            Lsb(self.function),
            Lsb(self.base),
            Lsb(self.value),
        )
    }
}

impl DekuReader<()> for Immediate {
    ghost no_read_ahead = { ⟦<Parts as DekuReader<()>>⟧.no_read_ahead };

    ghost meaning = { λ _. Then (⟦<Parts as DekuReader<()>>⟧.meaning tt)
        (Shows ⟦<Immediate as FromParts>⟧.parts_of) };

    fn from_reader_with_ctx<R: Source>(
        reader: &mut Reader<R>,
        _ctx: (),
    ) -> Result<Self, DekuError> {
        read_record(reader, ())
    }
}

impl DekuWriter<()> for Immediate {
    ghost meaning = { λ v _. ⟦<Parts as DekuWriter<()>>⟧.meaning
        (⟦<Immediate as FromParts>⟧.parts_of v) tt };

    fn to_writer<W: Sink>(&self, writer: &mut Writer<W>, _ctx: ()) -> Result<(), DekuError> {
        write_record(self, writer, ())
    }
}

impl Record<()> for Immediate {
    type Layout = Parts;

    ghost reads = { λ c b s r u m. m };

    ghost writes = { λ c v b s r u m. m };
}
