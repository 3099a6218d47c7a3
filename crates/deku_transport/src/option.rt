//! An option of a TCP segment, RFC 9293, and what the known kinds hold: RFC 7323 and RFC 2018.
//!
//! ```text
//! kind      8 bits   0 ends the options, 1 does nothing: these are single bytes;
//!                    2 the largest segment, 3 the scale of the window, 4 selective
//!                    acknowledgments are permitted, 5 such ones, 8 times
//! length    8 bits   the bytes of the option, with the kind and the length
//! data      as many bytes as are left
//! ```
//!
//! Printed by `derive` from `option.rs`.

ghost use Rattle.std.specs.Prelude.{◌-◌, nat_lt, None, Some, if◌then◌else◌, refl};
ghost use Rattle.deku.specs.Composing.{Then};
ghost use Rattle.deku.specs.Shapes.{Shows};
ghost use Rattle.deku_symmetry.specs.Fields.{be};

use deku::device::{Sink, Source};
use deku::prelude::{DekuError, DekuReader, DekuWriter, Reader, Writer};
use deku_symmetry::{
    Be, Condition, ConditionLaw, CountOf, CountOfLaw, CountedBy, CountedByRef, FromParts, Optional,
    OptionalRef, Record, ToParts, read_record, write_record,
};
use std::marker::PhantomData;

/// An option of any kind.
#[derive(Debug, PartialEq, Eq, Drop)]
pub struct TcpOption {
    /// What it says. 0 and 1 are single bytes.
    pub kind: u8,
    /// What follows the kind.
    pub tail: Option<Tail>,
}

/// Whether `tail` is there: `kind > 1`.
#[derive(Debug, PartialEq, Eq, Drop)]
pub struct TcpOptionTailCondition;

impl Condition<u8> for TcpOptionTailCondition {
    ghost shows = { λ p. nat_lt 1 p };

    fn shows(parts: &u8) -> bool {
        let kind = *parts;
        kind > 1
    }
}

impl ConditionLaw<u8> for TcpOptionTailCondition {
    ghost alike = { λ v w e. rw e refl };
}

impl TcpOption {
    /// The names of its parts, in their order.
    pub const FIELDS: [&'static str; 2] = ["kind", "tail"];
}

// The parts of TcpOption, in their order.
type TcpOptionParts = Optional<u8, TcpOptionTailCondition, Tail>;

impl FromParts for TcpOption {
    type Parts = TcpOptionParts;

    ghost parts_of = { λ r. record { head = r.kind; item = r.tail; condition = record {} } };

    ghost record_of = { λ p. record { kind = p.head; tail = p.item } };

    fn from_parts(parts: Self::Parts) -> Self {
        let Optional {
            head: kind,
            item: tail,
            ..
        } = parts;
        TcpOption { kind, tail }
    }

    ghost there = { λ r. refl };
}

impl DekuReader<()> for TcpOption {
    ghost no_read_ahead = { ⟦<TcpOptionParts as DekuReader<()>>⟧.no_read_ahead };

    ghost meaning = { λ c. Then (⟦<TcpOptionParts as DekuReader<()>>⟧.meaning c)
        (Shows ⟦<TcpOption as FromParts>⟧.parts_of) };

    #[inline(always)]
    fn from_reader_with_ctx<R: Source>(reader: &mut Reader<R>, ctx: ()) -> Result<Self, DekuError> {
        read_record(reader, ctx)
    }
}

impl DekuWriter<()> for TcpOption {
    ghost meaning = { λ v. ⟦<TcpOptionParts as DekuWriter<()>>⟧.meaning
        (⟦<TcpOption as FromParts>⟧.parts_of v) };

    #[inline(always)]
    fn to_writer<W: Sink>(&self, writer: &mut Writer<W>, ctx: ()) -> Result<(), DekuError> {
        let parts = OptionalRef::<_, TcpOptionTailCondition, _> {
            head: self.kind,
            item: &self.tail,
            condition: PhantomData,
        };
        parts.to_writer(writer, ctx)
    }
}

impl Record<()> for TcpOption {
    type Layout = TcpOptionParts;

    ghost reads = { λ c b s r u m. m };

    ghost writes = { λ c v b s r u m. m };
}

/// The length of an option, and its data.
#[derive(Debug, PartialEq, Eq, Drop)]
pub struct Tail {
    /// The bytes of the option: two more than its data has.
    pub length: u8,
    /// What the kind says.
    pub bytes: Vec<u8>,
}

/// How many `bytes` there are: `length - 2`.
#[derive(Debug, PartialEq, Eq, Drop)]
pub struct TailBytesCount;

impl CountOf<u8> for TailBytesCount {
    ghost count_of = { λ p. if nat_lt p 2 then None else Some (p - 2) };

    fn count(parts: &u8) -> Option<usize> {
        let length = *parts as usize;
        if length < 2 {
            return None;
        }
        Some(length - 2)
    }
}

impl CountOfLaw<u8> for TailBytesCount {
    ghost alike = { λ v w e. rw e refl };
}

impl Tail {
    /// The names of its parts, in their order.
    pub const FIELDS: [&'static str; 2] = ["length", "bytes"];
}

// The parts of Tail, in their order.
type TailParts = CountedBy<u8, TailBytesCount, u8>;

impl FromParts for Tail {
    type Parts = TailParts;

    ghost parts_of = { λ r. record { head = r.length; items = r.bytes; count = record {} } };

    ghost record_of = { λ p. record { length = p.head; bytes = p.items } };

    fn from_parts(parts: Self::Parts) -> Self {
        let CountedBy {
            head: length,
            items: bytes,
            ..
        } = parts;
        Tail { length, bytes }
    }

    ghost there = { λ r. refl };
}

impl DekuReader<()> for Tail {
    ghost no_read_ahead = { ⟦<TailParts as DekuReader<()>>⟧.no_read_ahead };

    ghost meaning = { λ c. Then (⟦<TailParts as DekuReader<()>>⟧.meaning c)
        (Shows ⟦<Tail as FromParts>⟧.parts_of) };

    #[inline(always)]
    fn from_reader_with_ctx<R: Source>(reader: &mut Reader<R>, ctx: ()) -> Result<Self, DekuError> {
        read_record(reader, ctx)
    }
}

impl DekuWriter<()> for Tail {
    ghost meaning = { λ v. ⟦<TailParts as DekuWriter<()>>⟧.meaning
        (⟦<Tail as FromParts>⟧.parts_of v) };

    #[inline(always)]
    fn to_writer<W: Sink>(&self, writer: &mut Writer<W>, ctx: ()) -> Result<(), DekuError> {
        let parts = CountedByRef::<_, TailBytesCount, _> {
            head: self.length,
            items: &self.bytes,
            count: PhantomData,
        };
        parts.to_writer(writer, ctx)
    }
}

impl Record<()> for Tail {
    type Layout = TailParts;

    ghost reads = { λ c b s r u m. m };

    ghost writes = { λ c v b s r u m. m };
}

/// The data of kind 2.
#[derive(Debug, Clone, Copy, PartialEq, Eq)]
pub struct LargestSegment {
    /// The most bytes of a segment that the sender can take.
    pub size: u16,
}

impl LargestSegment {
    /// The names of its parts, in their order.
    pub const FIELDS: [&'static str; 1] = ["size"];
}

// The parts of LargestSegment, in their order.
type LargestSegmentParts = Be<u16>;

impl FromParts for LargestSegment {
    type Parts = LargestSegmentParts;

    ghost parts_of = { λ r. be r.size };

    ghost record_of = { λ p. record { size = p.0 } };

    fn from_parts(Be(size): Self::Parts) -> Self {
        LargestSegment { size }
    }

    ghost there = { λ r. refl };
}

impl ToParts for LargestSegment {
    fn parts(&self) -> Self::Parts {
        Be(self.size)
    }
}

impl DekuReader<()> for LargestSegment {
    ghost no_read_ahead = { ⟦<LargestSegmentParts as DekuReader<()>>⟧.no_read_ahead };

    ghost meaning = { λ c. Then (⟦<LargestSegmentParts as DekuReader<()>>⟧.meaning c)
        (Shows ⟦<LargestSegment as FromParts>⟧.parts_of) };

    #[inline(always)]
    fn from_reader_with_ctx<R: Source>(reader: &mut Reader<R>, ctx: ()) -> Result<Self, DekuError> {
        read_record(reader, ctx)
    }
}

impl DekuWriter<()> for LargestSegment {
    ghost meaning = { λ v. ⟦<LargestSegmentParts as DekuWriter<()>>⟧.meaning
        (⟦<LargestSegment as FromParts>⟧.parts_of v) };

    #[inline(always)]
    fn to_writer<W: Sink>(&self, writer: &mut Writer<W>, ctx: ()) -> Result<(), DekuError> {
        write_record(self, writer, ctx)
    }
}

impl Record<()> for LargestSegment {
    type Layout = LargestSegmentParts;

    ghost reads = { λ c b s r u m. m };

    ghost writes = { λ c v b s r u m. m };
}

/// The data of kind 3.
#[derive(Debug, Clone, Copy, PartialEq, Eq)]
pub struct WindowScale {
    /// By how many bits the window is shifted to the left.
    pub shift: u8,
}

impl WindowScale {
    /// The names of its parts, in their order.
    pub const FIELDS: [&'static str; 1] = ["shift"];
}

// The parts of WindowScale, in their order.
type WindowScaleParts = u8;

impl FromParts for WindowScale {
    type Parts = WindowScaleParts;

    ghost parts_of = { λ r. r.shift };

    ghost record_of = { λ p. record { shift = p } };

    fn from_parts(shift: Self::Parts) -> Self {
        WindowScale { shift }
    }

    ghost there = { λ r. refl };
}

impl ToParts for WindowScale {
    fn parts(&self) -> Self::Parts {
        self.shift
    }
}

impl DekuReader<()> for WindowScale {
    ghost no_read_ahead = { ⟦<WindowScaleParts as DekuReader<()>>⟧.no_read_ahead };

    ghost meaning = { λ c. Then (⟦<WindowScaleParts as DekuReader<()>>⟧.meaning c)
        (Shows ⟦<WindowScale as FromParts>⟧.parts_of) };

    #[inline(always)]
    fn from_reader_with_ctx<R: Source>(reader: &mut Reader<R>, ctx: ()) -> Result<Self, DekuError> {
        read_record(reader, ctx)
    }
}

impl DekuWriter<()> for WindowScale {
    ghost meaning = { λ v. ⟦<WindowScaleParts as DekuWriter<()>>⟧.meaning
        (⟦<WindowScale as FromParts>⟧.parts_of v) };

    #[inline(always)]
    fn to_writer<W: Sink>(&self, writer: &mut Writer<W>, ctx: ()) -> Result<(), DekuError> {
        write_record(self, writer, ctx)
    }
}

impl Record<()> for WindowScale {
    type Layout = WindowScaleParts;

    ghost reads = { λ c b s r u m. m };

    ghost writes = { λ c v b s r u m. m };
}

/// One block of kind 5: bytes that came out of order.
#[derive(Debug, Clone, Copy, PartialEq, Eq)]
pub struct Block {
    /// The number of the first byte.
    pub left: u32,
    /// The number after that of the last byte.
    pub right: u32,
}

impl Block {
    /// The names of its parts, in their order.
    pub const FIELDS: [&'static str; 2] = ["left", "right"];
}

// The parts of Block, in their order.
type BlockParts = (Be<u32>, Be<u32>);

impl FromParts for Block {
    type Parts = BlockParts;

    ghost parts_of = { λ r. (be r.left, be r.right) };

    ghost record_of = { λ p. record { left = p.0.0; right = p.1.0 } };

    fn from_parts((Be(left), Be(right)): Self::Parts) -> Self {
        Block { left, right }
    }

    ghost there = { λ r. refl };
}

impl ToParts for Block {
    fn parts(&self) -> Self::Parts {
        (Be(self.left), Be(self.right))
    }
}

impl DekuReader<()> for Block {
    ghost no_read_ahead = { ⟦<BlockParts as DekuReader<()>>⟧.no_read_ahead };

    ghost meaning = { λ c. Then (⟦<BlockParts as DekuReader<()>>⟧.meaning c)
        (Shows ⟦<Block as FromParts>⟧.parts_of) };

    #[inline(always)]
    fn from_reader_with_ctx<R: Source>(reader: &mut Reader<R>, ctx: ()) -> Result<Self, DekuError> {
        read_record(reader, ctx)
    }
}

impl DekuWriter<()> for Block {
    ghost meaning = { λ v. ⟦<BlockParts as DekuWriter<()>>⟧.meaning
        (⟦<Block as FromParts>⟧.parts_of v) };

    #[inline(always)]
    fn to_writer<W: Sink>(&self, writer: &mut Writer<W>, ctx: ()) -> Result<(), DekuError> {
        write_record(self, writer, ctx)
    }
}

impl Record<()> for Block {
    type Layout = BlockParts;

    ghost reads = { λ c b s r u m. m };

    ghost writes = { λ c v b s r u m. m };
}

/// The data of kind 8.
#[derive(Debug, Clone, Copy, PartialEq, Eq)]
pub struct Times {
    /// The clock of the sender.
    pub value: u32,
    /// The newest clock that came from the other side.
    pub echo: u32,
}

impl Times {
    /// The names of its parts, in their order.
    pub const FIELDS: [&'static str; 2] = ["value", "echo"];
}

// The parts of Times, in their order.
type TimesParts = (Be<u32>, Be<u32>);

impl FromParts for Times {
    type Parts = TimesParts;

    ghost parts_of = { λ r. (be r.value, be r.echo) };

    ghost record_of = { λ p. record { value = p.0.0; echo = p.1.0 } };

    fn from_parts((Be(value), Be(echo)): Self::Parts) -> Self {
        Times { value, echo }
    }

    ghost there = { λ r. refl };
}

impl ToParts for Times {
    fn parts(&self) -> Self::Parts {
        (Be(self.value), Be(self.echo))
    }
}

impl DekuReader<()> for Times {
    ghost no_read_ahead = { ⟦<TimesParts as DekuReader<()>>⟧.no_read_ahead };

    ghost meaning = { λ c. Then (⟦<TimesParts as DekuReader<()>>⟧.meaning c)
        (Shows ⟦<Times as FromParts>⟧.parts_of) };

    #[inline(always)]
    fn from_reader_with_ctx<R: Source>(reader: &mut Reader<R>, ctx: ()) -> Result<Self, DekuError> {
        read_record(reader, ctx)
    }
}

impl DekuWriter<()> for Times {
    ghost meaning = { λ v. ⟦<TimesParts as DekuWriter<()>>⟧.meaning
        (⟦<Times as FromParts>⟧.parts_of v) };

    #[inline(always)]
    fn to_writer<W: Sink>(&self, writer: &mut Writer<W>, ctx: ()) -> Result<(), DekuError> {
        write_record(self, writer, ctx)
    }
}

impl Record<()> for Times {
    type Layout = TimesParts;

    ghost reads = { λ c b s r u m. m };

    ghost writes = { λ c v b s r u m. m };
}
