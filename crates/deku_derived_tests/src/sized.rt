//! Lists whose size is not kept, or is in bytes, or that end with an item or with the input.
//!
//! Printed by `derive` from `sized.rs`.

ghost use Rattle.std.specs.Prelude.{◌*◌, nat_eq, Some, refl};
ghost use Rattle.deku.specs.Composing.{Then};
ghost use Rattle.deku.specs.Shapes.{Shows};
ghost use Rattle.deku_symmetry.specs.Fields.{be};

use deku::device::{Sink, Source};
use deku::prelude::{DekuError, DekuReader, DekuWriter, Reader, Writer};
use deku_symmetry::{
    Be, FilledBy, FromParts, Last, LastLaw, Msb, Prefixed, PrefixedRef, Record, RecordLast, Rest,
    SizeOf, SizeOfLaw, SizedBy, ToParts, Until, UntilRef, read_record, write_record,
};
use std::marker::PhantomData;

pub const END: u8 = 0;

/// Items after their number, which the record does not keep.
#[derive(Debug, PartialEq, Eq, Drop)]
pub struct Alone {
    pub items: Vec<Be<u16>>,
}

impl Alone {
    /// The names of its parts, in their order.
    pub const FIELDS: [&'static str; 1] = ["items"];
}

// The parts of Alone, in their order.
type AloneParts = Prefixed<Msb<u64, 8>, Be<u16>>;

impl FromParts for Alone {
    type Parts = AloneParts;

    ghost parts_of = { λ r. record { items = r.items; count = record {} } };

    ghost record_of = { λ p. record { items = p.items } };

    fn from_parts(Prefixed { items, .. }: Self::Parts) -> Self {
        Alone { items }
    }

    ghost there = { λ r. refl };
}

impl DekuReader<()> for Alone {
    ghost no_read_ahead = { ⟦<AloneParts as DekuReader<()>>⟧.no_read_ahead };

    ghost meaning = { λ c. Then (⟦<AloneParts as DekuReader<()>>⟧.meaning c)
        (Shows ⟦<Alone as FromParts>⟧.parts_of) };

    #[inline(always)]
    fn from_reader_with_ctx<R: Source>(reader: &mut Reader<R>, ctx: ()) -> Result<Self, DekuError> {
        read_record(reader, ctx)
    }
}

impl DekuWriter<()> for Alone {
    ghost meaning = { λ v. ⟦<AloneParts as DekuWriter<()>>⟧.meaning
        (⟦<Alone as FromParts>⟧.parts_of v) };

    #[inline(always)]
    fn to_writer<W: Sink>(&self, writer: &mut Writer<W>, ctx: ()) -> Result<(), DekuError> {
        let parts = PrefixedRef::<Msb<u64, 8>, _> {
            items: &self.items,
            count: PhantomData,
        };
        parts.to_writer(writer, ctx)
    }
}

impl Record<()> for Alone {
    type Layout = AloneParts;

    ghost reads = { λ c b s r u m. m };

    ghost writes = { λ c v b s r u m. m };
}

/// Two bytes.
#[derive(Debug, Clone, Copy, PartialEq, Eq)]
pub struct Two {
    pub first: u8,
    pub second: u8,
}

impl Two {
    /// The names of its parts, in their order.
    pub const FIELDS: [&'static str; 2] = ["first", "second"];
}

// The parts of Two, in their order.
type TwoParts = (u8, u8);

impl FromParts for Two {
    type Parts = TwoParts;

    ghost parts_of = { λ r. (r.first, r.second) };

    ghost record_of = { λ p. record { first = p.0; second = p.1 } };

    fn from_parts((first, second): Self::Parts) -> Self {
        Two { first, second }
    }

    ghost there = { λ r. refl };
}

impl ToParts for Two {
    fn parts(&self) -> Self::Parts {
        (self.first, self.second)
    }
}

impl DekuReader<()> for Two {
    ghost no_read_ahead = { ⟦<TwoParts as DekuReader<()>>⟧.no_read_ahead };

    ghost meaning = { λ c. Then (⟦<TwoParts as DekuReader<()>>⟧.meaning c)
        (Shows ⟦<Two as FromParts>⟧.parts_of) };

    #[inline(always)]
    fn from_reader_with_ctx<R: Source>(reader: &mut Reader<R>, ctx: ()) -> Result<Self, DekuError> {
        read_record(reader, ctx)
    }
}

impl DekuWriter<()> for Two {
    ghost meaning = { λ v. ⟦<TwoParts as DekuWriter<()>>⟧.meaning
        (⟦<Two as FromParts>⟧.parts_of v) };

    #[inline(always)]
    fn to_writer<W: Sink>(&self, writer: &mut Writer<W>, ctx: ()) -> Result<(), DekuError> {
        write_record(self, writer, ctx)
    }
}

impl Record<()> for Two {
    type Layout = TwoParts;

    ghost reads = { λ c b s r u m. m };

    ghost writes = { λ c v b s r u m. m };
}

/// Items of as many bytes as a field says.
#[derive(Debug, PartialEq, Eq, Drop)]
pub struct Sizing {
    pub bytes: u8,
    pub items: Vec<Two>,
}

/// How many bits `items` takes: `bytes * 8`.
#[derive(Debug, PartialEq, Eq, Drop)]
pub struct SizingItemsSize;

impl SizeOf<u8> for SizingItemsSize {
    ghost size_of = { λ p. Some (p * 8) };

    fn size(parts: &u8) -> Option<usize> {
        let bytes = *parts as usize;
        Some(bytes * 8)
    }
}

impl SizeOfLaw<u8> for SizingItemsSize {
    ghost alike = { λ v w e. rw e refl };
}

impl Sizing {
    /// The names of its parts, in their order.
    pub const FIELDS: [&'static str; 2] = ["bytes", "items"];
}

// The parts of Sizing, in their order.
type SizingParts = FilledBy<u8, SizingItemsSize, Two>;

impl FromParts for Sizing {
    type Parts = SizingParts;

    ghost parts_of = { λ r. record { head = r.bytes; items = r.items; size = record {} } };

    ghost record_of = { λ p. record { bytes = p.head; items = p.items } };

    fn from_parts(parts: Self::Parts) -> Self {
        let FilledBy {
            head: bytes,
            items,
            ..
        } = parts;
        Sizing { bytes, items }
    }

    ghost there = { λ r. refl };
}

impl DekuReader<()> for Sizing {
    ghost no_read_ahead = { ⟦<SizingParts as DekuReader<()>>⟧.no_read_ahead };

    ghost meaning = { λ c. Then (⟦<SizingParts as DekuReader<()>>⟧.meaning c)
        (Shows ⟦<Sizing as FromParts>⟧.parts_of) };

    #[inline(always)]
    fn from_reader_with_ctx<R: Source>(reader: &mut Reader<R>, ctx: ()) -> Result<Self, DekuError> {
        read_record(reader, ctx)
    }
}

impl DekuWriter<()> for Sizing {
    ghost meaning = { λ v. ⟦<SizingParts as DekuWriter<()>>⟧.meaning
        (⟦<Sizing as FromParts>⟧.parts_of v) };

    #[inline(always)]
    fn to_writer<W: Sink>(&self, writer: &mut Writer<W>, ctx: ()) -> Result<(), DekuError> {
        let parts = SizedBy::<_, SizingItemsSize, _> {
            head: self.bytes,
            content: &self.items,
            size: PhantomData,
        };
        parts.to_writer(writer, ctx)
    }
}

impl Record<()> for Sizing {
    type Layout = SizingParts;

    ghost reads = { λ c b s r u m. m };

    ghost writes = { λ c v b s r u m. m };
}

/// Items up to the end.
#[derive(Debug, PartialEq, Eq, Drop)]
pub struct ToEnd {
    pub items: Vec<Two>,
}

impl ToEnd {
    /// The names of its parts, in their order.
    pub const FIELDS: [&'static str; 1] = ["items"];
}

// The parts of ToEnd, in their order.
type ToEndParts = Rest<Two>;

impl FromParts for ToEnd {
    type Parts = ToEndParts;

    ghost parts_of = { λ r. record { items = r.items } };

    ghost record_of = { λ p. record { items = p.items } };

    fn from_parts(Rest { items }: Self::Parts) -> Self {
        ToEnd { items }
    }

    ghost there = { λ r. refl };
}

impl DekuReader<()> for ToEnd {
    ghost no_read_ahead = { ⟦<ToEndParts as DekuReader<()>>⟧.no_read_ahead };

    ghost meaning = { λ c. Then (⟦<ToEndParts as DekuReader<()>>⟧.meaning c)
        (Shows ⟦<ToEnd as FromParts>⟧.parts_of) };

    #[inline(always)]
    fn from_reader_with_ctx<R: Source>(reader: &mut Reader<R>, ctx: ()) -> Result<Self, DekuError> {
        read_record(reader, ctx)
    }
}

impl DekuWriter<()> for ToEnd {
    ghost meaning = { λ v. ⟦<ToEndParts as DekuWriter<()>>⟧.meaning
        (⟦<ToEnd as FromParts>⟧.parts_of v) };

    #[inline(always)]
    fn to_writer<W: Sink>(&self, writer: &mut Writer<W>, ctx: ()) -> Result<(), DekuError> {
        let parts = &self.items;
        parts.to_writer(writer, ctx)
    }
}

impl RecordLast for ToEnd {
    type Layout = ToEndParts;

    ghost reads = { λ b s r u m. m };

    ghost writes = { λ v b s r u m. m };
}

/// A text of C between two numbers.
#[derive(Debug, PartialEq, Eq, Drop)]
pub struct Text {
    pub first: u16,
    /// The bytes, with the zero that ends them.
    pub bytes: Vec<u8>,
    pub last: u16,
}

/// Which item of `bytes` is the last: `byte == 0`.
#[derive(Debug, PartialEq, Eq, Drop)]
pub struct TextBytesLast;

impl Last<u8> for TextBytesLast {
    ghost last_of = { λ p. nat_eq p 0 };

    fn is_last(item: &u8) -> bool {
        let byte = *item;
        byte == 0
    }
}

impl LastLaw<u8> for TextBytesLast {
    ghost alike = { λ v w e. rw e refl };
}

impl Text {
    /// The names of its parts, in their order.
    pub const FIELDS: [&'static str; 3] = ["first", "bytes", "last"];
}

// The parts of Text, in their order.
type TextParts = (Be<u16>, Until<u8, TextBytesLast>, Be<u16>);

impl FromParts for Text {
    type Parts = TextParts;

    ghost parts_of = { λ r. (be r.first, record { items = r.bytes; last = record {} }, be r.last) };

    ghost record_of = { λ p. record { first = p.0.0; bytes = p.1.items; last = p.2.0 } };

    fn from_parts((Be(first), Until { items: bytes, .. }, Be(last)): Self::Parts) -> Self {
        Text { first, bytes, last }
    }

    ghost there = { λ r. refl };
}

impl DekuReader<()> for Text {
    ghost no_read_ahead = { ⟦<TextParts as DekuReader<()>>⟧.no_read_ahead };

    ghost meaning = { λ c. Then (⟦<TextParts as DekuReader<()>>⟧.meaning c)
        (Shows ⟦<Text as FromParts>⟧.parts_of) };

    #[inline(always)]
    fn from_reader_with_ctx<R: Source>(reader: &mut Reader<R>, ctx: ()) -> Result<Self, DekuError> {
        read_record(reader, ctx)
    }
}

impl DekuWriter<()> for Text {
    ghost meaning = { λ v. ⟦<TextParts as DekuWriter<()>>⟧.meaning
        (⟦<Text as FromParts>⟧.parts_of v) };

    #[inline(always)]
    fn to_writer<W: Sink>(&self, writer: &mut Writer<W>, ctx: ()) -> Result<(), DekuError> {
        let parts = (
            Be(self.first),
            UntilRef::<_, TextBytesLast> {
                items: &self.bytes,
                last: PhantomData,
            },
            Be(self.last),
        );
        parts.to_writer(writer, ctx)
    }
}

impl Record<()> for Text {
    type Layout = TextParts;

    ghost reads = { λ c b s r u m. m };

    ghost writes = { λ c v b s r u m. m };
}
