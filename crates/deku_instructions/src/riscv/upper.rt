//! Words of the high bits of a number.

ghost use Rattle.std.specs.Prelude.{refl};
ghost use Rattle.deku.specs.Composing.{Then};
ghost use Rattle.deku.specs.Shapes.{Shows};

use deku::device::{Sink, Source};
use deku::prelude::{DekuError, DekuReader, DekuWriter, Reader, Writer};
use deku_symmetry::{FromParts, Lsb, Record, ToParts, read_record, write_record};

/// The operands of a load of the high bits of a register (U).
#[derive(Debug, Clone, Copy, PartialEq, Eq)]
pub struct Upper {
    /// The register that is written, 5 bits.
    pub target: u8,
    /// The high 20 bits of the number, including its sign: the number is 4096 times this.
    pub value: i32,
}

// The fields, in order.
type Parts = (Lsb<u8, 5>, Lsb<i32, 20>);

impl FromParts for Upper {
    type Parts = Parts;

    ghost parts_of = { λ r. (record { 0 = r.target }, record { 0 = r.value }) };

    ghost record_of = { λ p. record { target = p.0.0; value = p.1.0 } };

    fn from_parts(parts: Self::Parts) -> Self {
        let (Lsb(target), Lsb(value)) = parts;
        Upper { target, value }
    }

    ghost there = { λ r. refl };
}

impl ToParts for Upper {
    fn parts(&self) -> Self::Parts {
        (Lsb(self.target), Lsb(self.value))
    }
}

impl DekuReader<()> for Upper {
    ghost no_read_ahead = { ⟦<Parts as DekuReader<()>>⟧.no_read_ahead };

    ghost meaning = { λ _. Then (⟦<Parts as DekuReader<()>>⟧.meaning tt)
        (Shows ⟦<Upper as FromParts>⟧.parts_of) };

    fn from_reader_with_ctx<R: Source>(
        reader: &mut Reader<R>,
        _ctx: (),
    ) -> Result<Self, DekuError> {
        read_record(reader, ())
    }
}

impl DekuWriter<()> for Upper {
    ghost meaning = { λ v _. ⟦<Parts as DekuWriter<()>>⟧.meaning
        (⟦<Upper as FromParts>⟧.parts_of v) tt };

    fn to_writer<W: Sink>(&self, writer: &mut Writer<W>, _ctx: ()) -> Result<(), DekuError> {
        write_record(self, writer, ())
    }
}

impl Record<()> for Upper {
    type Layout = Parts;

    ghost reads = { λ c b s r u m. m };

    ghost writes = { λ c v b s r u m. m };
}
