//! Whole numbers, under every context that names a layout.
//!
//! Reading a number fails, in this order, with
//!
//! - `Parse("too much data")` if the size is beyond the type's bits, even if the reader has
//!   stopped;
//! - `InvalidParam("signed big Lsb0 field of this width")` if the type is signed, of more than
//!   eight bits, and the field is big and `Lsb0` and has more than eight bits that are not whole
//!   bytes;
//! - the error that the reader kept, if it has stopped;
//! - `InvalidParam("count past usize")` if a `usize` cannot count the bits;
//! - `Incomplete` if the input ends before the last of the bits, or `Io` if the source fails.
//!
//! The last of these stops the reader, and its count stays as it was. In all earlier cases nothing
//! changes.

ghost use Rattle.std.specs.Prelude.{OnOk};
ghost use Rattle.deku_bits.specs.ReaderCalls.{Reads, Fetched, KeepsSourceStopped};
ghost use Rattle.deku_num.specs.Numbers.{width, byte, unsigned, signed};
ghost use Rattle.deku_reading.specs.Early.{NoReadAhead};
ghost use Rattle.deku_num.specs.NumberCalls.{ReadsUnsigned, ReadsNumber};

use crate::impls::bytes::read_bytes_onto;
use crate::traits::DekuReader;
use deku_bits::device::Source;
use deku_bits::error::DekuError;
use deku_bits::reader::Reader;
use deku_num::calls::{read_signed, read_unsigned};
use deku_num::ctx::{NumberCtx, Order};
use deku_num::cutting::{cut_signed, cut_unsigned};
use deku_num::kind::NumberType;

/// Reads a `u8` as its context says: the whole eight bits, or as many as a `BitSize` says; under a
/// `ByteSize` they are eight.
///
/// ```text
/// u8::from_reader_with_ctx(&mut reader, BitSize(4))?                          // 6 from 69
/// ```
impl<C: NumberCtx> DekuReader<C> for u8 {
    ghost meaning = { λ c. ReadsUnsigned byte (C.layout_of c) };

    #[inline(always)]
    fn from_reader_with_ctx<R: Source>(reader: &mut Reader<R>, ctx: C) -> Result<Self, DekuError>
        ensures reads { Reads R.known (ReadsUnsigned byte (C.layout_of ctx)) reader.old result
            reader.new }
        ensures fetched { OnOk result (Fetched R.known (width byte (C.layout_of ctx)) reader.old
            reader.new) }
        ensures early { OnOk result (NoReadAhead R.known reader.old reader.new) }
        ensures stopped { KeepsSourceStopped reader.old reader.new }
    {
        let value = read_unsigned(reader, NumberType::U8, ctx.parts())?;
        Ok(value as u8)
    }

    fn try_read_onto<R: Source>(
        reader: &mut Reader<R>,
        items: &mut Vec<u8>,
        most: usize,
        ctx: &C,
    ) -> usize {
        read_bytes_onto(reader, items, most, ctx.parts())
    }

    #[inline]
    fn from_word(word: u64, room: usize, order: Order, ctx: &C) -> Option<(Self, usize)> {
        let (value, bits) = cut_unsigned(word, room, order, NumberType::U8, ctx.parts())?;
        Some((value as u8, bits))
    }
}

/// Reads a `u16` as its context says: the whole 16 bits, or as many bits or bytes as a size says.
///
/// ```text
/// u16::from_reader_with_ctx(&mut reader, Endian::Big)?                        // 0xC0FE from C0 FE
/// ```
impl<C: NumberCtx> DekuReader<C> for u16 {
    ghost meaning = { λ c. ReadsUnsigned (unsigned 16) (C.layout_of c) };

    #[inline(always)]
    fn from_reader_with_ctx<R: Source>(reader: &mut Reader<R>, ctx: C) -> Result<Self, DekuError>
        ensures reads { Reads R.known (ReadsUnsigned (unsigned 16) (C.layout_of ctx)) reader.old
            result reader.new }
        ensures fetched { OnOk result (Fetched R.known (width (unsigned 16) (C.layout_of ctx))
            reader.old reader.new) }
        ensures early { OnOk result (NoReadAhead R.known reader.old reader.new) }
        ensures stopped { KeepsSourceStopped reader.old reader.new }
    {
        let value = read_unsigned(reader, NumberType::U16, ctx.parts())?;
        Ok(value as u16)
    }

    #[inline]
    fn from_word(word: u64, room: usize, order: Order, ctx: &C) -> Option<(Self, usize)> {
        let (value, bits) = cut_unsigned(word, room, order, NumberType::U16, ctx.parts())?;
        Some((value as u16, bits))
    }
}

/// Reads a `u32` as its context says: the whole 32 bits, or as many bits or bytes as a size says.
///
/// ```text
/// u32::from_reader_with_ctx(&mut reader, ByteSize(3))?                   // 0x030201 from 01 02 03
/// ```
impl<C: NumberCtx> DekuReader<C> for u32 {
    ghost meaning = { λ c. ReadsUnsigned (unsigned 32) (C.layout_of c) };

    #[inline(always)]
    fn from_reader_with_ctx<R: Source>(reader: &mut Reader<R>, ctx: C) -> Result<Self, DekuError>
        ensures reads { Reads R.known (ReadsUnsigned (unsigned 32) (C.layout_of ctx)) reader.old
            result reader.new }
        ensures fetched { OnOk result (Fetched R.known (width (unsigned 32) (C.layout_of ctx))
            reader.old reader.new) }
        ensures early { OnOk result (NoReadAhead R.known reader.old reader.new) }
        ensures stopped { KeepsSourceStopped reader.old reader.new }
    {
        let value = read_unsigned(reader, NumberType::U32, ctx.parts())?;
        Ok(value as u32)
    }

    #[inline]
    fn from_word(word: u64, room: usize, order: Order, ctx: &C) -> Option<(Self, usize)> {
        let (value, bits) = cut_unsigned(word, room, order, NumberType::U32, ctx.parts())?;
        Some((value as u32, bits))
    }
}

/// Reads a `u64` as its context says: the whole 64 bits, or as many bits or bytes as a size says.
///
/// ```text
/// u64::from_reader_with_ctx(&mut reader, (Endian::Big, ByteSize(5)))?     // 1 from 00 00 00 00 01
/// ```
impl<C: NumberCtx> DekuReader<C> for u64 {
    ghost meaning = { λ c. ReadsUnsigned (unsigned 64) (C.layout_of c) };

    #[inline(always)]
    fn from_reader_with_ctx<R: Source>(reader: &mut Reader<R>, ctx: C) -> Result<Self, DekuError>
        ensures reads { Reads R.known (ReadsUnsigned (unsigned 64) (C.layout_of ctx)) reader.old
            result reader.new }
        ensures fetched { OnOk result (Fetched R.known (width (unsigned 64) (C.layout_of ctx))
            reader.old reader.new) }
        ensures early { OnOk result (NoReadAhead R.known reader.old reader.new) }
        ensures stopped { KeepsSourceStopped reader.old reader.new }
    {
        let value = read_unsigned(reader, NumberType::U64, ctx.parts())?;
        Ok(value as u64)
    }

    #[inline]
    fn from_word(word: u64, room: usize, order: Order, ctx: &C) -> Option<(Self, usize)> {
        let (value, bits) = cut_unsigned(word, room, order, NumberType::U64, ctx.parts())?;
        Some((value, bits))
    }
}

/// Reads a `u128` as its context says: the whole 128 bits, or as many bits or bytes as a size says.
///
/// ```text
/// u128::from_reader_with_ctx(&mut reader, (Endian::Little, ByteSize(9)))? // 2 from 02 and 8 zeros
/// ```
impl<C: NumberCtx> DekuReader<C> for u128 {
    ghost meaning = { λ c. ReadsUnsigned (unsigned 128) (C.layout_of c) };

    #[inline(always)]
    fn from_reader_with_ctx<R: Source>(reader: &mut Reader<R>, ctx: C) -> Result<Self, DekuError>
        ensures reads { Reads R.known (ReadsUnsigned (unsigned 128) (C.layout_of ctx)) reader.old
            result reader.new }
        ensures fetched { OnOk result (Fetched R.known (width (unsigned 128) (C.layout_of ctx))
            reader.old reader.new) }
        ensures early { OnOk result (NoReadAhead R.known reader.old reader.new) }
        ensures stopped { KeepsSourceStopped reader.old reader.new }
    {
        let value = read_unsigned(reader, NumberType::U128, ctx.parts())?;
        Ok(value)
    }
}

/// Reads a `usize` as its context says: the whole 64 bits, or as many bits or bytes as a size says.
///
/// ```text
/// usize::from_reader_with_ctx(&mut reader, (Endian::Big, BitSize(16)))?       // 258 from 01 02
/// ```
impl<C: NumberCtx> DekuReader<C> for usize {
    ghost meaning = { λ c. ReadsUnsigned (unsigned 64) (C.layout_of c) };

    #[inline(always)]
    fn from_reader_with_ctx<R: Source>(reader: &mut Reader<R>, ctx: C) -> Result<Self, DekuError>
        ensures reads { Reads R.known (ReadsUnsigned (unsigned 64) (C.layout_of ctx)) reader.old
            result reader.new }
        ensures fetched { OnOk result (Fetched R.known (width (unsigned 64) (C.layout_of ctx))
            reader.old reader.new) }
        ensures early { OnOk result (NoReadAhead R.known reader.old reader.new) }
        ensures stopped { KeepsSourceStopped reader.old reader.new }
    {
        let value = read_unsigned(reader, NumberType::USIZE, ctx.parts())?;
        Ok(value as usize)
    }
}

/// Reads an `i8` as its context says: the whole eight bits, or as many bits or bytes as a size
/// says; in two's complement.
///
/// ```text
/// i8::from_reader_with_ctx(&mut reader, Endian::Little)?                      // -1 from FF
/// ```
impl<C: NumberCtx> DekuReader<C> for i8 {
    ghost meaning = { λ c. ReadsNumber (signed 8) (C.layout_of c) };

    #[inline(always)]
    fn from_reader_with_ctx<R: Source>(reader: &mut Reader<R>, ctx: C) -> Result<Self, DekuError>
        ensures reads { Reads R.known (ReadsNumber (signed 8) (C.layout_of ctx)) reader.old result
            reader.new }
        ensures fetched { OnOk result (Fetched R.known (width (signed 8) (C.layout_of ctx))
            reader.old reader.new) }
        ensures early { OnOk result (NoReadAhead R.known reader.old reader.new) }
        ensures stopped { KeepsSourceStopped reader.old reader.new }
    {
        let value = read_signed(reader, NumberType::I8, ctx.parts())?;
        Ok(value as i8)
    }

    #[inline]
    fn from_word(word: u64, room: usize, order: Order, ctx: &C) -> Option<(Self, usize)> {
        let (value, bits) = cut_signed(word, room, order, NumberType::I8, ctx.parts())?;
        Some((value as i8, bits))
    }
}

/// Reads an `i16` as its context says: the whole 16 bits, or as many bits or bytes as a size says;
/// in two's complement.
///
/// ```text
/// i16::from_reader_with_ctx(&mut reader, Endian::Big)?                        // -2 from FF FE
/// ```
impl<C: NumberCtx> DekuReader<C> for i16 {
    ghost meaning = { λ c. ReadsNumber (signed 16) (C.layout_of c) };

    #[inline(always)]
    fn from_reader_with_ctx<R: Source>(reader: &mut Reader<R>, ctx: C) -> Result<Self, DekuError>
        ensures reads { Reads R.known (ReadsNumber (signed 16) (C.layout_of ctx)) reader.old result
            reader.new }
        ensures fetched { OnOk result (Fetched R.known (width (signed 16) (C.layout_of ctx))
            reader.old reader.new) }
        ensures early { OnOk result (NoReadAhead R.known reader.old reader.new) }
        ensures stopped { KeepsSourceStopped reader.old reader.new }
    {
        let value = read_signed(reader, NumberType::I16, ctx.parts())?;
        Ok(value as i16)
    }

    #[inline]
    fn from_word(word: u64, room: usize, order: Order, ctx: &C) -> Option<(Self, usize)> {
        let (value, bits) = cut_signed(word, room, order, NumberType::I16, ctx.parts())?;
        Some((value as i16, bits))
    }
}

/// Reads an `i32` as its context says: the whole 32 bits, or as many bits or bytes as a size says;
/// in two's complement.
///
/// ```text
/// i32::from_reader_with_ctx(&mut reader, (Endian::Big, ByteSize(2)))?         // -2 from FF FE
/// ```
impl<C: NumberCtx> DekuReader<C> for i32 {
    ghost meaning = { λ c. ReadsNumber (signed 32) (C.layout_of c) };

    #[inline(always)]
    fn from_reader_with_ctx<R: Source>(reader: &mut Reader<R>, ctx: C) -> Result<Self, DekuError>
        ensures reads { Reads R.known (ReadsNumber (signed 32) (C.layout_of ctx)) reader.old result
            reader.new }
        ensures fetched { OnOk result (Fetched R.known (width (signed 32) (C.layout_of ctx))
            reader.old reader.new) }
        ensures early { OnOk result (NoReadAhead R.known reader.old reader.new) }
        ensures stopped { KeepsSourceStopped reader.old reader.new }
    {
        let value = read_signed(reader, NumberType::I32, ctx.parts())?;
        Ok(value as i32)
    }

    #[inline]
    fn from_word(word: u64, room: usize, order: Order, ctx: &C) -> Option<(Self, usize)> {
        let (value, bits) = cut_signed(word, room, order, NumberType::I32, ctx.parts())?;
        Some((value as i32, bits))
    }
}

/// Reads an `i64` as its context says: the whole 64 bits, or as many bits or bytes as a size says;
/// in two's complement.
///
/// ```text
/// i64::from_reader_with_ctx(&mut reader, (Endian::Little, ByteSize(2)))?      // -2 from FE FF
/// ```
impl<C: NumberCtx> DekuReader<C> for i64 {
    ghost meaning = { λ c. ReadsNumber (signed 64) (C.layout_of c) };

    #[inline(always)]
    fn from_reader_with_ctx<R: Source>(reader: &mut Reader<R>, ctx: C) -> Result<Self, DekuError>
        ensures reads { Reads R.known (ReadsNumber (signed 64) (C.layout_of ctx)) reader.old result
            reader.new }
        ensures fetched { OnOk result (Fetched R.known (width (signed 64) (C.layout_of ctx))
            reader.old reader.new) }
        ensures early { OnOk result (NoReadAhead R.known reader.old reader.new) }
        ensures stopped { KeepsSourceStopped reader.old reader.new }
    {
        let value = read_signed(reader, NumberType::I64, ctx.parts())?;
        Ok(value as i64)
    }

    #[inline]
    fn from_word(word: u64, room: usize, order: Order, ctx: &C) -> Option<(Self, usize)> {
        let (value, bits) = cut_signed(word, room, order, NumberType::I64, ctx.parts())?;
        Some((value as i64, bits))
    }
}

/// Reads an `i128` as its context says: the whole 128 bits, or as many bits or bytes as a size
/// says; in two's complement.
///
/// ```text
/// i128::from_reader_with_ctx(&mut reader, (Endian::Big, BitSize(12)))?        // -1 from FF F0
/// ```
impl<C: NumberCtx> DekuReader<C> for i128 {
    ghost meaning = { λ c. ReadsNumber (signed 128) (C.layout_of c) };

    #[inline(always)]
    fn from_reader_with_ctx<R: Source>(reader: &mut Reader<R>, ctx: C) -> Result<Self, DekuError>
        ensures reads { Reads R.known (ReadsNumber (signed 128) (C.layout_of ctx)) reader.old result
            reader.new }
        ensures fetched { OnOk result (Fetched R.known (width (signed 128) (C.layout_of ctx))
            reader.old reader.new) }
        ensures early { OnOk result (NoReadAhead R.known reader.old reader.new) }
        ensures stopped { KeepsSourceStopped reader.old reader.new }
    {
        let value = read_signed(reader, NumberType::I128, ctx.parts())?;
        Ok(value)
    }
}

/// Reads an `isize` as its context says: the whole 64 bits, or as many bits or bytes as a size
/// says; in two's complement.
///
/// ```text
/// isize::from_reader_with_ctx(&mut reader, (Endian::Big, BitSize(16)))?       // 258 from 01 02
/// ```
impl<C: NumberCtx> DekuReader<C> for isize {
    ghost meaning = { λ c. ReadsNumber (signed 64) (C.layout_of c) };

    #[inline(always)]
    fn from_reader_with_ctx<R: Source>(reader: &mut Reader<R>, ctx: C) -> Result<Self, DekuError>
        ensures reads { Reads R.known (ReadsNumber (signed 64) (C.layout_of ctx)) reader.old result
            reader.new }
        ensures fetched { OnOk result (Fetched R.known (width (signed 64) (C.layout_of ctx))
            reader.old reader.new) }
        ensures early { OnOk result (NoReadAhead R.known reader.old reader.new) }
        ensures stopped { KeepsSourceStopped reader.old reader.new }
    {
        let value = read_signed(reader, NumberType::ISIZE, ctx.parts())?;
        Ok(value as isize)
    }
}
