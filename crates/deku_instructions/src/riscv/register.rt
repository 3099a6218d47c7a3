//! Words of two source registers.

ghost use Rattle.std.specs.Prelude.{refl};
ghost use Rattle.deku.specs.Composing.{Then};
ghost use Rattle.deku.specs.Shapes.{Shows};

use deku::device::{Sink, Source};
use deku::prelude::{DekuError, DekuReader, DekuWriter, Reader, Writer};
use deku_symmetry::{FromParts, Lsb, Record, ToParts, read_record, write_record};

/// The operands of an operation on two registers (R).
#[derive(Debug, Clone, Copy, PartialEq, Eq)]
pub struct Register {
    /// The register that is written, 5 bits.
    pub target: u8,
    /// The operation, 3 bits.
    pub function: u8,
    /// The first register that is read, 5 bits.
    pub first: u8,
    /// The second register that is read, 5 bits.
    pub second: u8,
    /// The variant of the operation, 7 bits.
    pub variant: u8,
}

// The fields, in order.
type Parts = (Lsb<u8, 5>, Lsb<u8, 3>, Lsb<u8, 5>, Lsb<u8, 5>, Lsb<u8, 7>);

impl FromParts for Register {
    type Parts = Parts;

    ghost parts_of = { λ r. (
      record { 0 = r.target },
      record { 0 = r.function },
      record { 0 = r.first },
      record { 0 = r.second },
      record { 0 = r.variant },
    ) };

    ghost record_of = { λ p. record {
      target = p.0.0;
      function = p.1.0;
      first = p.2.0;
      second =
          p.3.0;
      variant = p.4.0;
    } };

    fn from_parts(parts: Self::Parts) -> Self {
        let (Lsb(target), Lsb(function), Lsb(first), Lsb(second), Lsb(variant)) = parts;
        Register {
            target,
            function,
            first,
            second,
            variant,
        }
    }

    ghost there = { λ r. refl };
}

impl ToParts for Register {
    fn parts(&self) -> Self::Parts {
        (
            Lsb(self.target),
            Lsb(self.function),
            Lsb(self.first),
            Lsb(self.second),
            Lsb(self.variant),
        )
    }
}

impl DekuReader<()> for Register {
    ghost no_read_ahead = { ⟦<Parts as DekuReader<()>>⟧.no_read_ahead };

    ghost meaning = { λ _. Then (⟦<Parts as DekuReader<()>>⟧.meaning tt)
        (Shows ⟦<Register as FromParts>⟧.parts_of) };

    fn from_reader_with_ctx<R: Source>(
        reader: &mut Reader<R>,
        _ctx: (),
    ) -> Result<Self, DekuError> {
        read_record(reader, ())
    }
}

impl DekuWriter<()> for Register {
    ghost meaning = { λ v _. ⟦<Parts as DekuWriter<()>>⟧.meaning
        (⟦<Register as FromParts>⟧.parts_of v) tt };

    fn to_writer<W: Sink>(&self, writer: &mut Writer<W>, _ctx: ()) -> Result<(), DekuError> {
        write_record(self, writer, ())
    }
}

impl Record<()> for Register {
    type Layout = Parts;

    ghost reads = { λ c b s r u m. m };

    ghost writes = { λ c v b s r u m. m };
}
