//! Words of jumps.

ghost use Rattle.std.specs.Prelude.{◌≡◌, ◌<◌, ◌/◌, ◌%◌, ◌^◌, refl};
ghost use Rattle.deku_instructions.specs.Riscv.{jump_bits_below, jump_of};
ghost use Rattle.deku_pieces.specs.Scattered.{low_of, high_of};
ghost use Rattle.deku.specs.Composing.{Then};
ghost use Rattle.deku.specs.Shapes.{Shows};

use deku::device::{Sink, Source};
use deku::prelude::{DekuError, DekuReader, DekuWriter, Reader, Writer};
use deku_symmetry::scattered::{high_bits, low_bits};
use deku_symmetry::{FromParts, Lsb, Record, ToParts, read_record, write_record};

/// The operands of a jump (J). Its offset is stored in four places: `halves` joins them.
#[derive(Debug, Clone, Copy, PartialEq, Eq)]
pub struct Jump {
    /// The register to which the address after the jump is written, 5 bits.
    pub target: u8,
    /// The bits of the offset above the lowest eleven, 8 bits.
    pub high: u32,
    /// Bit 10 of the offset.
    pub middle: u32,
    /// The lowest bits of the offset, 10 bits.
    pub low: u32,
    /// The highest bit of the offset, its sign.
    pub sign: i32,
}

impl Jump {
    /// A jump by `halves` units of two bytes. Writing it fails if the offset has more than 20 bits,
    /// including its sign.
    ///
    /// ```text
    /// Jump::new(1, 0x400)                                         // jal ra, 0x800 bytes on
    /// ```
    #[tactic(auto, using(deku_pieces::proofs::Scattering::joined_again))]
    pub fn new(target: u8, halves: i32) -> Jump
        ensures high { result.high ≡ low_of 19 halves / 2048 }
        ensures middle { result.middle ≡ low_of 19 halves / 1024 % 2 }
        ensures low { result.low ≡ low_of 19 halves % 1024 }
        ensures sign { result.sign ≡ high_of 19 halves }
        ensures halves { jump_of result ≡ halves }
        ensures target { result.target ≡ target }
    {
        let rest = low_bits(halves, 19);
        Jump {
            target,
            high: rest / 2048,
            middle: rest / 1024 % 2,
            low: rest % 1024,
            sign: high_bits(halves, 19),
        }
    }

    /// The offset in units of two bytes, if the bits below its sign fit.
    ///
    /// ```text
    /// jump.halves()                                            // 0x400 for jal ra, 0x800 bytes on
    /// ```
    #[tactic(auto, using(crate::proofs::Joined::on_nineteen))]
    pub fn halves(&self) -> i64
        ensures { jump_bits_below self.now < 2 ^ 19 → result ≡ jump_of self.now }
    {
        let below = self.high as u64 * 2048 + self.middle as u64 * 1024 + self.low as u64;
        self.sign as i64 * 0x80000 + below as i64
    }
}

// The fields, in order.
type Parts = (
    Lsb<u8, 5>,
    Lsb<u32, 8>,
    Lsb<u32, 1>,
    Lsb<u32, 10>,
    Lsb<i32, 1>,
);

impl FromParts for Jump {
    type Parts = Parts;

    ghost parts_of = { λ r. (
      record { 0 = r.target },
      record { 0 = r.high },
      record { 0 = r.middle },
      record { 0 = r.low },
      record { 0 = r.sign },
    ) };

    ghost record_of = { λ p. record {
      target = p.0.0;
      high = p.1.0;
      middle = p.2.0;
      low = p.3.0;
      sign = p.4.0;
    } };

    fn from_parts(parts: Self::Parts) -> Self {
        let (Lsb(target), Lsb(high), Lsb(middle), Lsb(low), Lsb(sign)) = parts;
        Jump {
            target,
            high,
            middle,
            low,
            sign,
        }
    }

    ghost there = { λ r. refl };
}

impl ToParts for Jump {
    fn parts(&self) -> Self::Parts {
        (
            Lsb(self.target),
            Lsb(self.high),
            Lsb(self.middle),
            Lsb(self.low),
            Lsb(self.sign),
        )
    }
}

impl DekuReader<()> for Jump {
    ghost no_read_ahead = { ⟦<Parts as DekuReader<()>>⟧.no_read_ahead };

    ghost meaning = { λ _. Then (⟦<Parts as DekuReader<()>>⟧.meaning tt)
        (Shows ⟦<Jump as FromParts>⟧.parts_of) };

    fn from_reader_with_ctx<R: Source>(
        reader: &mut Reader<R>,
        _ctx: (),
    ) -> Result<Self, DekuError> {
        read_record(reader, ())
    }
}

impl DekuWriter<()> for Jump {
    ghost meaning = { λ v _. ⟦<Parts as DekuWriter<()>>⟧.meaning
        (⟦<Jump as FromParts>⟧.parts_of v) tt };

    fn to_writer<W: Sink>(&self, writer: &mut Writer<W>, _ctx: ()) -> Result<(), DekuError> {
        write_record(self, writer, ())
    }
}

impl Record<()> for Jump {
    type Layout = Parts;

    ghost reads = { λ c b s r u m. m };

    ghost writes = { λ c v b s r u m. m };
}
