//! Parts that are always one value, records that hold memory or are read under an endian, and
//! numbers whose bits are split.

ghost use Rattle.std.specs.Prelude.{codes, refl};
ghost use Rattle.deku.specs.Composing.{Then};
ghost use Rattle.deku.specs.Shapes.{Shows};

use deku::ctx::Endian;
use deku::device::{Sink, Source};
use deku::prelude::{DekuError, DekuReader, DekuWriter, Reader, Writer};
use deku_symmetry::scattered::{high_bits, low_bits};
use deku_symmetry::{
    Be, Constant, ConstantLaw, Counted, FromParts, Le, Magic, Record, ToParts, read_record,
    write_counted, write_record,
};
use deku_testing_values::records::{expect_both_ways, expect_refusal};
use std::test::Fail;

// Two bytes that are always the same.
#[derive(Debug, PartialEq, Eq, Drop)]
struct Signature;

impl Constant<Be<u16>> for Signature {
    ghost value = { record { 0 = 0x4D5A } };

    ghost text = { codes "magic" };

    fn value() -> Be<u16> {
        Be(0x4D5A)
    }

    fn is_value(part: &Be<u16>) -> bool {
        part.0 == 0x4D5A
    }

    fn text() -> &'static str {
        "magic"
    }
}

impl ConstantLaw<Be<u16>> for Signature {
    ghost alike = { λ v e. rw e refl };
}

#[test]
fn one_value(rt: HostRuntime) -> Result<(), Fail> {
    let alloc = rt.alloc();
    let start: (Magic<Be<u16>, Signature>, u8) = (Magic::new(), 7);
    expect_both_ways(alloc, (), &start, 24, &[0x4D, 0x5A, 0x07])?;
    let bytes: &[u8] = &[0x4D, 0x5B, 0x07];
    let refusal = DekuError::Assertion("magic");
    expect_refusal::<Magic<Be<u16>, Signature>>(alloc, bytes, refusal, 16)
}

// A record that holds memory: a text, and in front of it how many bytes it has.
#[derive(Debug, PartialEq, Eq, Drop)]
struct Text {
    length: u8,
    bytes: Vec<u8>,
}

impl FromParts for Text {
    type Parts = Counted<u8, u8>;

    ghost parts_of = { λ t. record { head = t.length; items = t.bytes } };

    ghost record_of = { λ p. record { length = p.head; bytes = p.items } };

    fn from_parts(parts: Self::Parts) -> Self {
        Text {
            length: parts.head,
            bytes: parts.items,
        }
    }

    ghost there = { λ t. refl };
}

impl Record<()> for Text {
    type Layout = Counted<u8, u8>;

    ghost reads = { λ c b s r u m. m };

    ghost writes = { λ c v b s r u m. m };
}

impl DekuReader<()> for Text {
    ghost no_read_ahead = { ⟦<Counted<u8, u8> as DekuReader<()>>⟧.no_read_ahead };

    ghost meaning = { λ _. Then (⟦<Counted<u8, u8> as DekuReader<()>>⟧.meaning tt)
        (Shows ⟦<Text as FromParts>⟧.parts_of) };

    fn from_reader_with_ctx<R: Source>(
        reader: &mut Reader<R>,
        _ctx: (),
    ) -> Result<Self, DekuError> {
        read_record(reader, ())
    }
}

impl DekuWriter<()> for Text {
    ghost meaning = { λ v _. ⟦<Counted<u8, u8> as DekuWriter<()>>⟧.meaning
        (⟦<Text as FromParts>⟧.parts_of v) tt };

    fn to_writer<W: Sink>(&self, writer: &mut Writer<W>, _ctx: ()) -> Result<(), DekuError> {
        write_counted(&self.length, &self.bytes, writer)
    }
}

#[test]
fn a_record_that_holds_memory(rt: HostRuntime) -> Result<(), Fail> {
    let alloc = rt.alloc();
    let text = Text {
        length: 2,
        bytes: [0x68u8, 0x69].to_vec(alloc)?,
    };
    expect_both_ways(alloc, (), &text, 24, &[0x02, 0x68, 0x69])
}

// A record whose endian comes from outside.
#[derive(Debug, Clone, Copy, PartialEq, Eq)]
struct Pair {
    first: u16,
    second: u32,
}

// Its fields as they are laid out.
type PairParts = (u16, u32);

impl FromParts for Pair {
    type Parts = PairParts;

    ghost parts_of = { λ p. (p.first, p.second) };

    ghost record_of = { λ p. record { first = p.0; second = p.1 } };

    fn from_parts(parts: Self::Parts) -> Self {
        let (first, second) = parts;
        Pair { first, second }
    }

    ghost there = { λ p. refl };
}

impl ToParts for Pair {
    fn parts(&self) -> Self::Parts {
        (self.first, self.second)
    }
}

impl Record<Endian> for Pair {
    type Layout = PairParts;

    ghost reads = { λ c b s r u m. m };

    ghost writes = { λ c v b s r u m. m };
}

impl DekuReader<Endian> for Pair {
    ghost no_read_ahead = { ⟦<PairParts as DekuReader<Endian>>⟧.no_read_ahead };

    ghost meaning = { λ c. Then (⟦<PairParts as DekuReader<Endian>>⟧.meaning c)
        (Shows ⟦<Pair as FromParts>⟧.parts_of) };

    fn from_reader_with_ctx<R: Source>(
        reader: &mut Reader<R>,
        ctx: Endian,
    ) -> Result<Self, DekuError> {
        read_record(reader, ctx)
    }
}

impl DekuWriter<Endian> for Pair {
    ghost meaning = { λ v c. ⟦<PairParts as DekuWriter<Endian>>⟧.meaning
        (⟦<Pair as FromParts>⟧.parts_of v) c };

    fn to_writer<W: Sink>(&self, writer: &mut Writer<W>, ctx: Endian) -> Result<(), DekuError> {
        write_record(self, writer, ctx)
    }
}

#[test]
fn a_record_under_an_endian(rt: HostRuntime) -> Result<(), Fail> {
    let alloc = rt.alloc();
    let pair = Pair {
        first: 0x0102,
        second: 0x03040506,
    };
    let high = [0x01, 0x02, 0x03, 0x04, 0x05, 0x06];
    let low = [0x02, 0x01, 0x06, 0x05, 0x04, 0x03];
    for (endian, bytes) in [(Endian::Big, high), (Endian::Little, low)] {
        expect_both_ways(alloc, endian, &pair, 48, &bytes)?;
    }
    expect_both_ways(alloc, (), &Le(pair), 48, &low)
}

// A number, how many bits are low ones, these, and the high ones.
const PARTED: [(i32, u32, u32, i32); 6] = [
    (-2, 5, 30, -1),
    (2047, 5, 31, 63),
    (-2048, 5, 0, -64),
    (-1, 11, 2047, -1),
    (i32::MIN, 30, 0, -2),
    (i32::MAX, 30, 0x3FFF_FFFF, 1),
];

#[test]
fn bits_that_lie_apart(rt: HostRuntime) {
    for (value, bits, low, high) in PARTED {
        assert!(rt; bits <= 30);
        let parted = (low_bits(value, bits), high_bits(value, bits));
        assert!(rt; parted == (low, high), "{value}: {parted:?}");
    }
}
