//! Records as a user writes them, by hand, with what reading and writing them means.

ghost use Rattle.std.specs.Prelude.{pos};
ghost use Rattle.deku.specs.Outcomes.{Mapped};
ghost use Rattle.deku.specs.declared.ctx.Endian.TheVariants.{Big, Little};
ghost use Rattle.deku.specs.declared.ctx.Order.TheVariants.{Lsb0};
ghost use Rattle.deku.specs.Numbers.{byte};
ghost use Rattle.deku.specs.NumberCalls.{ReadsUnsigned, WritesNumber};
ghost use Rattle.deku.specs.declared.ctx.Size.TheVariants.{Bits};
ghost use Rattle.deku.specs.Composing.{JoinedBy, Both, Answer};

use deku::ctx::Endian::Big;
use deku::ctx::Order::Lsb0;
use deku::ctx::{BitSize, Endian};
use deku::device::{Sink, Source};
use deku::prelude::{DekuError, DekuReader, DekuWriter, Reader, Writer};

// One byte.
#[derive(Debug, PartialEq, Eq, Drop)]
pub struct Octet {
    pub value: u8,
}

impl DekuReader<()> for Octet {
    ghost meaning = { λ _. Mapped (λ v. record { value = v })
        (⟦<u8 as DekuReader<()>>⟧.meaning tt) };

    fn from_reader_with_ctx<R: Source>(
        reader: &mut Reader<R>,
        _ctx: (),
    ) -> Result<Self, DekuError> {
        let value = u8::from_reader_with_ctx(reader, ())?;
        Ok(Octet { value })
    }
}

impl DekuWriter<()> for Octet {
    ghost meaning = { λ v _. ⟦<u8 as DekuWriter<()>>⟧.meaning v.value tt };

    fn to_writer<W: Sink>(&self, writer: &mut Writer<W>, _ctx: ()) -> Result<(), DekuError> {
        self.value.to_writer(writer, ())
    }
}

// Two bytes, the high one first.
#[derive(Debug, PartialEq, Eq, Drop)]
pub struct Pair {
    pub value: u16,
}

impl DekuReader<()> for Pair {
    ghost meaning = { λ _. Mapped (λ v. record { value = v })
        (⟦<u16 as DekuReader<Endian>>⟧.meaning Big) };

    fn from_reader_with_ctx<R: Source>(
        reader: &mut Reader<R>,
        _ctx: (),
    ) -> Result<Self, DekuError> {
        let value = u16::from_reader_with_ctx(reader, Big)?;
        Ok(Pair { value })
    }
}

impl DekuWriter<()> for Pair {
    ghost meaning = { λ v _. ⟦<u16 as DekuWriter<Endian>>⟧.meaning v.value Big };

    fn to_writer<W: Sink>(&self, writer: &mut Writer<W>, _ctx: ()) -> Result<(), DekuError> {
        self.value.to_writer(writer, Big)
    }
}

// Three low bits.
#[derive(Debug, PartialEq, Eq, Drop)]
pub struct Low {
    pub value: u8,
}

impl DekuReader<()> for Low {
    ghost meaning = { λ _. Mapped (λ v. record { value = v })
        (ReadsUnsigned byte (record { endian = Little; order = Lsb0; size = Bits 3 })) };

    fn from_reader_with_ctx<R: Source>(
        reader: &mut Reader<R>,
        _ctx: (),
    ) -> Result<Self, DekuError> {
        let value = u8::from_reader_with_ctx(reader, (BitSize(3), Lsb0))?;
        Ok(Low { value })
    }
}

impl DekuWriter<()> for Low {
    ghost meaning = { λ v _. WritesNumber byte (record {
      endian = Little;
      order = Lsb0;
      size = Bits
          3;
    }) (pos v.value) };

    fn to_writer<W: Sink>(&self, writer: &mut Writer<W>, _ctx: ()) -> Result<(), DekuError> {
        self.value.to_writer(writer, (BitSize(3), Lsb0))
    }
}

// Four bits, four bits and one bit.
#[derive(Debug, PartialEq, Eq, Drop)]
pub struct Nine {
    pub halves: (u8, u8),
    pub flag: u8,
}

impl DekuReader<()> for Nine {
    ghost meaning = { λ _. JoinedBy (λ a b. record { halves = a; flag = b })
        (⟦<(u8, u8) as DekuReader<BitSize>>⟧.meaning (record { 0 = 4 }))
        (⟦<u8 as DekuReader<BitSize>>⟧.meaning (record { 0 = 1 })) };

    fn from_reader_with_ctx<R: Source>(
        reader: &mut Reader<R>,
        _ctx: (),
    ) -> Result<Self, DekuError> {
        let halves = <(u8, u8)>::from_reader_with_ctx(reader, BitSize(4))?;
        let flag = u8::from_reader_with_ctx(reader, BitSize(1))?;
        Ok(Nine { halves, flag })
    }
}

impl DekuWriter<()> for Nine {
    ghost meaning = { λ v _. Both (⟦<(u8, u8) as DekuWriter<BitSize>>⟧.meaning v.halves
        (record { 0 = 4 })) (⟦<u8 as DekuWriter<BitSize>>⟧.meaning v.flag (record { 0 = 1 })) };

    fn to_writer<W: Sink>(&self, writer: &mut Writer<W>, _ctx: ()) -> Result<(), DekuError> {
        self.halves.to_writer(writer, BitSize(4))?;
        self.flag.to_writer(writer, BitSize(1))
    }
}

// Two halves of a byte, and two bytes, all with their high bits first.
#[derive(Debug, PartialEq, Eq, Drop)]
pub struct Head {
    pub halves: (u8, u8),
    pub number: u16,
}

impl DekuReader<()> for Head {
    ghost meaning = { λ _. JoinedBy (λ a b. record { halves = a; number = b })
        (⟦<(u8, u8) as DekuReader<(Endian, BitSize)>>⟧.meaning (Big, record { 0 = 4 }))
        (⟦<u16 as DekuReader<Endian>>⟧.meaning Big) };

    fn from_reader_with_ctx<R: Source>(
        reader: &mut Reader<R>,
        _ctx: (),
    ) -> Result<Self, DekuError> {
        let halves = <(u8, u8)>::from_reader_with_ctx(reader, (Big, BitSize(4)))?;
        let number = u16::from_reader_with_ctx(reader, Big)?;
        Ok(Head { halves, number })
    }
}

impl DekuWriter<()> for Head {
    ghost meaning = { λ v _. Both (⟦<(u8, u8) as DekuWriter<(Endian, BitSize)>>⟧.meaning v.halves
        (Big, record { 0 = 4 })) (⟦<u16 as DekuWriter<Endian>>⟧.meaning v.number Big) };

    fn to_writer<W: Sink>(&self, writer: &mut Writer<W>, _ctx: ()) -> Result<(), DekuError> {
        self.halves.to_writer(writer, (Big, BitSize(4)))?;
        self.number.to_writer(writer, Big)
    }
}

// No fields.
#[derive(Debug, PartialEq, Eq, Drop)]
pub struct Empty {}

impl DekuReader<()> for Empty {
    ghost meaning = { λ _. Answer (record {}) };

    fn from_reader_with_ctx<R: Source>(
        _reader: &mut Reader<R>,
        _ctx: (),
    ) -> Result<Self, DekuError> {
        Ok(Empty {})
    }
}

impl DekuWriter<()> for Empty {
    ghost meaning = { λ _ _. Answer tt };

    fn to_writer<W: Sink>(&self, _writer: &mut Writer<W>, _ctx: ()) -> Result<(), DekuError> {
        Ok(())
    }
}
