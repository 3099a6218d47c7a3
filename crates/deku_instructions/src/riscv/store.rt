//! Words that store a register.

ghost use Rattle.std.specs.Prelude.{◌≡◌, ◌<◌, ◌^◌, refl};
ghost use Rattle.deku_instructions.specs.Riscv.{offset_of};
ghost use Rattle.deku_pieces.specs.Scattered.{low_of, high_of};
ghost use Rattle.deku.specs.Composing.{Then};
ghost use Rattle.deku.specs.Shapes.{Shows};

use deku::device::{Sink, Source};
use deku::prelude::{DekuError, DekuReader, DekuWriter, Reader, Writer};
use deku_symmetry::scattered::{high_bits, low_bits};
use deku_symmetry::{FromParts, Lsb, Record, ToParts, read_record, write_record};

/// The operands of a store (S). Its offset is stored in two places: `offset` joins them.
#[derive(Debug, Clone, Copy, PartialEq, Eq)]
pub struct Store {
    /// The low bits of the offset, 5 bits.
    pub low: u32,
    /// The number of bytes, 3 bits.
    pub function: u8,
    /// The register of the base address, 5 bits.
    pub base: u8,
    /// The register that is stored, 5 bits.
    pub source: u8,
    /// The high bits of the offset, 7 bits including its sign.
    pub high: i32,
}

impl Store {
    /// A store at `offset` bytes after the address in a register. Writing it fails if the offset
    /// has more than 12 bits, including its sign.
    ///
    /// ```text
    /// Store::new(2, 8, 1, -20)                                    // sw ra, -20(s0)
    /// ```
    #[tactic(auto, using(deku_pieces::proofs::Scattering::joined_again))]
    pub fn new(function: u8, base: u8, source: u8, offset: i32) -> Store
        ensures low { result.low ≡ low_of 5 offset }
        ensures high { result.high ≡ high_of 5 offset }
        ensures offset { offset_of result ≡ offset }
        ensures function { result.function ≡ function }
        ensures base { result.base ≡ base }
        ensures source { result.source ≡ source }
    {
        Store {
            low: low_bits(offset, 5),
            function,
            base,
            source,
            high: high_bits(offset, 5),
        }
    }

    /// The offset in bytes from the address in its register, if the low bits fit.
    ///
    /// ```text
    /// store.offset()                                              // -20 for sw ra, -20(s0)
    /// ```
    #[tactic(auto, using(crate::proofs::Joined::on_five))]
    pub fn offset(&self) -> i64
        ensures { self.now.low < 2 ^ 5 → result ≡ offset_of self.now }
    {
        self.high as i64 * 32 + self.low as i64
    }
}

// The fields, in order.
type Parts = (Lsb<u32, 5>, Lsb<u8, 3>, Lsb<u8, 5>, Lsb<u8, 5>, Lsb<i32, 7>);

impl FromParts for Store {
    type Parts = Parts;

    ghost parts_of = { λ r. (
      record { 0 = r.low },
      record { 0 = r.function },
      record { 0 = r.base },
      record { 0 = r.source },
      record { 0 = r.high },
    ) };

    ghost record_of = { λ p. record {
      low = p.0.0;
      function = p.1.0;
      base = p.2.0;
      source = p.3.0;
      high = p.4.0;
    } };

    fn from_parts(parts: Self::Parts) -> Self {
        let (Lsb(low), Lsb(function), Lsb(base), Lsb(source), Lsb(high)) = parts;
        Store {
            low,
            function,
            base,
            source,
            high,
        }
    }

    ghost there = { λ r. refl };
}

impl ToParts for Store {
    fn parts(&self) -> Self::Parts {
        (
            Lsb(self.low),
            Lsb(self.function),
            Lsb(self.base),
            Lsb(self.source),
            Lsb(self.high),
        )
    }
}

impl DekuReader<()> for Store {
    ghost no_read_ahead = { ⟦<Parts as DekuReader<()>>⟧.no_read_ahead };

    ghost meaning = { λ _. Then (⟦<Parts as DekuReader<()>>⟧.meaning tt)
        (Shows ⟦<Store as FromParts>⟧.parts_of) };

    fn from_reader_with_ctx<R: Source>(
        reader: &mut Reader<R>,
        _ctx: (),
    ) -> Result<Self, DekuError> {
        read_record(reader, ())
    }
}

impl DekuWriter<()> for Store {
    ghost meaning = { λ v _. ⟦<Parts as DekuWriter<()>>⟧.meaning
        (⟦<Store as FromParts>⟧.parts_of v) tt };

    fn to_writer<W: Sink>(&self, writer: &mut Writer<W>, _ctx: ()) -> Result<(), DekuError> {
        write_record(self, writer, ())
    }
}

impl Record<()> for Store {
    type Layout = Parts;

    ghost reads = { λ c b s r u m. m };

    ghost writes = { λ c v b s r u m. m };
}
