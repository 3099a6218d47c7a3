//! The records of deku's own examples, written by hand.

ghost use Rattle.deku.specs.declared.ctx.Order.TheVariants.{Lsb0};
ghost use Rattle.deku.specs.Composing.{Answer, Then, Both, JoinedBy};
ghost use Rattle.deku.specs.declared.ctx.Endian.TheVariants.{Big};

use deku::ctx::Endian::Big;
use deku::ctx::Order::Lsb0;
use deku::ctx::{BitSize, ByteSize, Endian, Order};
use deku::device::{Sink, Source};
use deku::prelude::{DekuError, DekuReader, DekuWriter, Reader, Writer};

// The head of a file system's node: all fields with their low bits first.
#[derive(Debug, PartialEq, Eq, Drop)]
pub struct Node {
    pub kind: u8,
    pub mode: u16,
    pub owners: (u8, u8),
    pub numbers: (u32, u32),
}

impl DekuReader<()> for Node {
    ghost meaning = { λ _.
        Then (⟦<u8 as DekuReader<(BitSize, Order)>>⟧.meaning (record { 0 = 4 }, Lsb0)) (λ kind.
        Then (⟦<u16 as DekuReader<(BitSize, Order)>>⟧.meaning (record { 0 = 12 }, Lsb0)) (λ mode.
        Then (⟦<(u8, u8) as DekuReader<Order>>⟧.meaning Lsb0) (λ owners.
        Then (⟦<(u32, u32) as DekuReader<Order>>⟧.meaning Lsb0) (λ numbers.
        Answer (record { kind = kind; mode = mode; owners = owners; numbers = numbers }))))) };

    fn from_reader_with_ctx<R: Source>(
        reader: &mut Reader<R>,
        _ctx: (),
    ) -> Result<Self, DekuError> {
        let kind = u8::from_reader_with_ctx(reader, (BitSize(4), Lsb0))?;
        let mode = u16::from_reader_with_ctx(reader, (BitSize(12), Lsb0))?;
        let owners = <(u8, u8)>::from_reader_with_ctx(reader, Lsb0)?;
        let numbers = <(u32, u32)>::from_reader_with_ctx(reader, Lsb0)?;
        Ok(Node {
            kind,
            mode,
            owners,
            numbers,
        })
    }
}

impl DekuWriter<()> for Node {
    ghost meaning = { λ v _.
        Both (⟦<u8 as DekuWriter<(BitSize, Order)>>⟧.meaning v.kind (record { 0 = 4 }, Lsb0))
        (Both (⟦<u16 as DekuWriter<(BitSize, Order)>>⟧.meaning v.mode (record { 0 = 12 }, Lsb0))
        (Both (⟦<(u8, u8) as DekuWriter<Order>>⟧.meaning v.owners Lsb0)
        (⟦<(u32, u32) as DekuWriter<Order>>⟧.meaning v.numbers Lsb0))) };

    fn to_writer<W: Sink>(&self, writer: &mut Writer<W>, _ctx: ()) -> Result<(), DekuError> {
        self.kind.to_writer(writer, (BitSize(4), Lsb0))?;
        self.mode.to_writer(writer, (BitSize(12), Lsb0))?;
        self.owners.to_writer(writer, Lsb0)?;
        self.numbers.to_writer(writer, Lsb0)
    }
}

// A record inside a record: a byte, three flags and five bits, the high bits first.
#[derive(Debug, PartialEq, Eq, Drop)]
pub struct Child {
    pub byte: u8,
    pub flags: (u8, u8, u8),
    pub five: u8,
}

// Its endian is that of the record around it.
impl DekuReader<Endian> for Child {
    ghost meaning = { λ endian.
        Then (⟦<u8 as DekuReader<Endian>>⟧.meaning endian) (λ byte.
        Then (⟦<(u8, u8, u8) as DekuReader<(Endian, BitSize)>>⟧.meaning (endian, record { 0 = 1 }))
        (λ flags.
        Then (⟦<u8 as DekuReader<(Endian, BitSize)>>⟧.meaning (endian, record { 0 = 5 })) (λ five.
        Answer (record { byte = byte; flags = flags; five = five })))) };

    fn from_reader_with_ctx<R: Source>(
        reader: &mut Reader<R>,
        ctx: Endian,
    ) -> Result<Self, DekuError> {
        let byte = u8::from_reader_with_ctx(reader, ctx)?;
        let flags = <(u8, u8, u8)>::from_reader_with_ctx(reader, (ctx, BitSize(1)))?;
        let five = u8::from_reader_with_ctx(reader, (ctx, BitSize(5)))?;
        Ok(Child { byte, flags, five })
    }
}

impl DekuWriter<Endian> for Child {
    ghost meaning = { λ v endian.
        Both (⟦<u8 as DekuWriter<Endian>>⟧.meaning v.byte endian)
        (Both (⟦<(u8, u8, u8) as DekuWriter<(Endian, BitSize)>>⟧.meaning v.flags
        (endian, record { 0 = 1 }))
        (⟦<u8 as DekuWriter<(Endian, BitSize)>>⟧.meaning v.five (endian, record { 0 = 5 }))) };

    fn to_writer<W: Sink>(&self, writer: &mut Writer<W>, ctx: Endian) -> Result<(), DekuError> {
        self.byte.to_writer(writer, ctx)?;
        self.flags.to_writer(writer, (ctx, BitSize(1)))?;
        self.five.to_writer(writer, (ctx, BitSize(5)))
    }
}

// Two fields with their low bits first and their high groups first, and a child.
#[derive(Debug, PartialEq, Eq, Drop)]
pub struct Parent {
    pub wide: u16,
    pub narrow: u8,
    pub child: Child,
}

impl DekuReader<()> for Parent {
    ghost meaning = { λ _.
        Then (⟦<u16 as DekuReader<(Endian, BitSize, Order)>>⟧.meaning
        (Big, record { 0 = 13 }, Lsb0)) (λ wide.
        Then (⟦<u8 as DekuReader<(Endian, BitSize, Order)>>⟧.meaning (Big, record { 0 = 3 }, Lsb0))
        (λ narrow.
        Then (⟦<Child as DekuReader<Endian>>⟧.meaning Big) (λ child.
        Answer (record { wide = wide; narrow = narrow; child = child })))) };

    fn from_reader_with_ctx<R: Source>(
        reader: &mut Reader<R>,
        _ctx: (),
    ) -> Result<Self, DekuError> {
        let wide = u16::from_reader_with_ctx(reader, (Big, BitSize(13), Lsb0))?;
        let narrow = u8::from_reader_with_ctx(reader, (Big, BitSize(3), Lsb0))?;
        let child = Child::from_reader_with_ctx(reader, Big)?;
        Ok(Parent {
            wide,
            narrow,
            child,
        })
    }
}

impl DekuWriter<()> for Parent {
    ghost meaning = { λ v _.
        Both (⟦<u16 as DekuWriter<(Endian, BitSize, Order)>>⟧.meaning v.wide
        (Big, record { 0 = 13 }, Lsb0))
        (Both (⟦<u8 as DekuWriter<(Endian, BitSize, Order)>>⟧.meaning v.narrow
        (Big, record { 0 = 3 }, Lsb0))
        (⟦<Child as DekuWriter<Endian>>⟧.meaning v.child Big)) };

    fn to_writer<W: Sink>(&self, writer: &mut Writer<W>, _ctx: ()) -> Result<(), DekuError> {
        self.wide.to_writer(writer, (Big, BitSize(13), Lsb0))?;
        self.narrow.to_writer(writer, (Big, BitSize(3), Lsb0))?;
        self.child.to_writer(writer, Big)
    }
}

// Thirteen low bits, and the three above them.
#[derive(Debug, PartialEq, Eq, Drop)]
pub struct LsbField {
    pub thirteen: u16,
    pub three: u8,
}

impl DekuReader<()> for LsbField {
    ghost meaning = { λ _. JoinedBy (λ a b. record { thirteen = a; three = b })
        (⟦<u16 as DekuReader<(BitSize, Order)>>⟧.meaning (record { 0 = 13 }, Lsb0))
        (⟦<u8 as DekuReader<(BitSize, Order)>>⟧.meaning (record { 0 = 3 }, Lsb0)) };

    fn from_reader_with_ctx<R: Source>(
        reader: &mut Reader<R>,
        _ctx: (),
    ) -> Result<Self, DekuError> {
        let thirteen = u16::from_reader_with_ctx(reader, (BitSize(13), Lsb0))?;
        let three = u8::from_reader_with_ctx(reader, (BitSize(3), Lsb0))?;
        Ok(LsbField { thirteen, three })
    }
}

impl DekuWriter<()> for LsbField {
    ghost meaning = { λ v _. Both (⟦<u16 as DekuWriter<(BitSize, Order)>>⟧.meaning v.thirteen
        (record { 0 = 13 }, Lsb0))
        (⟦<u8 as DekuWriter<(BitSize, Order)>>⟧.meaning v.three (record { 0 = 3 }, Lsb0)) };

    fn to_writer<W: Sink>(&self, writer: &mut Writer<W>, _ctx: ()) -> Result<(), DekuError> {
        self.thirteen.to_writer(writer, (BitSize(13), Lsb0))?;
        self.three.to_writer(writer, (BitSize(3), Lsb0))
    }
}

// Two bytes of a wider number, and one byte.
#[derive(Debug, PartialEq, Eq, Drop)]
pub struct Bytes {
    pub two: u32,
    pub one: u8,
}

impl DekuReader<()> for Bytes {
    ghost meaning = { λ _. JoinedBy (λ a b. record { two = a; one = b })
        (⟦<u32 as DekuReader<ByteSize>>⟧.meaning (record { 0 = 2 }))
        (⟦<u8 as DekuReader<()>>⟧.meaning tt) };

    fn from_reader_with_ctx<R: Source>(
        reader: &mut Reader<R>,
        _ctx: (),
    ) -> Result<Self, DekuError> {
        let two = u32::from_reader_with_ctx(reader, ByteSize(2))?;
        let one = u8::from_reader_with_ctx(reader, ())?;
        Ok(Bytes { two, one })
    }
}

impl DekuWriter<()> for Bytes {
    ghost meaning = { λ v _. Both (⟦<u32 as DekuWriter<ByteSize>>⟧.meaning v.two (record { 0 = 2 }))
        (⟦<u8 as DekuWriter<()>>⟧.meaning v.one tt) };

    fn to_writer<W: Sink>(&self, writer: &mut Writer<W>, _ctx: ()) -> Result<(), DekuError> {
        self.two.to_writer(writer, ByteSize(2))?;
        self.one.to_writer(writer, ())
    }
}
