//! Words of branches.

ghost use Rattle.std.specs.Prelude.{◌≡◌, ◌<◌, ◌/◌, ◌%◌, ◌^◌, refl};
ghost use Rattle.deku_instructions.specs.Riscv.{bits_below, halves_of};
ghost use Rattle.deku_pieces.specs.Scattered.{low_of, high_of};
ghost use Rattle.deku.specs.Composing.{Then};
ghost use Rattle.deku.specs.Shapes.{Shows};

use deku::device::{Sink, Source};
use deku::prelude::{DekuError, DekuReader, DekuWriter, Reader, Writer};
use deku_symmetry::scattered::{high_bits, low_bits};
use deku_symmetry::{FromParts, Lsb, Record, ToParts, read_record, write_record};

/// The operands of a branch (B). Its offset is stored in four places: `halves` joins them.
#[derive(Debug, Clone, Copy, PartialEq, Eq)]
pub struct Branch {
    /// Bit 10 of the offset.
    pub top: u32,
    /// The lowest bits of the offset, 4 bits.
    pub low: u32,
    /// The condition, 3 bits.
    pub function: u8,
    /// The first register that is compared, 5 bits.
    pub first: u8,
    /// The second register that is compared, 5 bits.
    pub second: u8,
    /// The bits of the offset above the lowest four, 6 bits.
    pub middle: u32,
    /// The highest bit of the offset, its sign.
    pub sign: i32,
}

impl Branch {
    /// A branch by `halves` units of two bytes. Writing it fails if the offset has more than 12
    /// bits, including its sign.
    ///
    /// ```text
    /// Branch::new(1, 5, 0, -4)                                    // bnez t0, eight bytes back
    /// ```
    #[tactic(auto, using(deku_pieces::proofs::Scattering::joined_again))]
    pub fn new(function: u8, first: u8, second: u8, halves: i32) -> Branch
        ensures top { result.top ≡ low_of 11 halves / 1024 }
        ensures middle { result.middle ≡ low_of 11 halves / 16 % 64 }
        ensures low { result.low ≡ low_of 11 halves % 16 }
        ensures sign { result.sign ≡ high_of 11 halves }
        ensures halves { halves_of result ≡ halves }
        ensures function { result.function ≡ function }
        ensures first { result.first ≡ first }
        ensures second { result.second ≡ second }
    {
        let rest = low_bits(halves, 11);
        Branch {
            top: rest / 1024,
            low: rest % 16,
            function,
            first,
            second,
            middle: rest / 16 % 64,
            sign: high_bits(halves, 11),
        }
    }

    /// The offset in units of two bytes, if the bits below its sign fit.
    ///
    /// ```text
    /// branch.halves()                                          // -4 for bnez t0, eight bytes back
    /// ```
    #[tactic(auto, using(crate::proofs::Joined::on_eleven))]
    pub fn halves(&self) -> i64
        ensures { bits_below self.now < 2 ^ 11 → result ≡ halves_of self.now }
    {
        let below = self.top as u64 * 1024 + self.middle as u64 * 16 + self.low as u64;
        self.sign as i64 * 2048 + below as i64
    }
}

// The fields, in order.
type Parts = (
    Lsb<u32, 1>,
    Lsb<u32, 4>,
    Lsb<u8, 3>,
    Lsb<u8, 5>,
    Lsb<u8, 5>,
    Lsb<u32, 6>,
    Lsb<i32, 1>,
);

impl FromParts for Branch {
    type Parts = Parts;

    ghost parts_of = { λ r. (
      record { 0 = r.top },
      record { 0 = r.low },
      record { 0 = r.function },
      record { 0 = r.first },
      record { 0 = r.second },
      record { 0 = r.middle },
      record { 0 = r.sign },
    ) };

    ghost record_of = { λ p. record {
      top = p.0.0;
      low = p.1.0;
      function = p.2.0;
      first = p.3.0;
      second = p.4.0;
      middle = p.5.0;
      sign = p.6.0;
    } };

    fn from_parts(parts: Self::Parts) -> Self {
        let (Lsb(top), Lsb(low), Lsb(function), Lsb(first), Lsb(second), Lsb(middle), Lsb(sign)) =
            parts;
        Branch {
            top,
            low,
            function,
            first,
            second,
            middle,
            sign,
        }
    }

    ghost there = { λ r. refl };
}

impl ToParts for Branch {
    fn parts(&self) -> Self::Parts {
        (
            Lsb(self.top),
            Lsb(self.low),
            Lsb(self.function),
            Lsb(self.first),
            Lsb(self.second),
            Lsb(self.middle),
            Lsb(self.sign),
        )
    }
}

impl DekuReader<()> for Branch {
    ghost no_read_ahead = { ⟦<Parts as DekuReader<()>>⟧.no_read_ahead };

    ghost meaning = { λ _. Then (⟦<Parts as DekuReader<()>>⟧.meaning tt)
        (Shows ⟦<Branch as FromParts>⟧.parts_of) };

    fn from_reader_with_ctx<R: Source>(
        reader: &mut Reader<R>,
        _ctx: (),
    ) -> Result<Self, DekuError> {
        read_record(reader, ())
    }
}

impl DekuWriter<()> for Branch {
    ghost meaning = { λ v _. ⟦<Parts as DekuWriter<()>>⟧.meaning
        (⟦<Branch as FromParts>⟧.parts_of v) tt };

    fn to_writer<W: Sink>(&self, writer: &mut Writer<W>, _ctx: ()) -> Result<(), DekuError> {
        write_record(self, writer, ())
    }
}

impl Record<()> for Branch {
    type Layout = Parts;

    ghost reads = { λ c b s r u m. m };

    ghost writes = { λ c v b s r u m. m };
}
