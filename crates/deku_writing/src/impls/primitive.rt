//! Whole numbers, under every context that names a layout.
//!
//! Writing a number fails, in this order, with
//!
//! - `InvalidParam("bit size is larger than input")`, or `"byte size is larger than input"`, if the
//!   size is beyond the type's bits, even if the writer has stopped;
//! - `InvalidParam("signed big Lsb0 field of this width")` if the type is signed, of more than
//!   eight bits, and the field is big and `Lsb0` and has more than eight bits that are not whole
//!   bytes;
//! - `InvalidParam("bit size of input is larger than requested size")` if the value does not fit;
//! - the error that the writer kept, if it has stopped;
//! - `InvalidParam("count past usize")` if a `usize` cannot count the bits;
//! - `Io` if the sink fails, or has no room or no memory for the bytes.
//!
//! The last of these stops the writer, and its count stays as it was. In all earlier cases nothing
//! changes.

ghost use Rattle.std.specs.Prelude.{pos};
ghost use Rattle.deku_num.specs.Numbers.{byte, unsigned, signed};
ghost use Rattle.deku_num.specs.NumberCalls.{WritesNumber};

use crate::impls::bytes::write_first_bytes;
use crate::traits::DekuWriter;
use crate::words::{Word, signed_word, unsigned_word};
use deku_bits::device::Sink;
use deku_bits::error::DekuError;
use deku_bits::writer::Writer;
use deku_num::calls::{write_signed, write_unsigned};
use deku_num::ctx::{NumberCtx, Order};
use deku_num::kind::NumberType;

/// Writes a `u8` as its context says: the whole eight bits, or as many as a `BitSize` says; under a
/// `ByteSize` they are eight.
///
/// ```text
/// 6u8.to_writer(&mut writer, BitSize(4))?                                    // the four bits 0110
/// ```
impl<C: NumberCtx> DekuWriter<C> for u8 {
    ghost meaning = { λ v c. WritesNumber byte (C.layout_of c) (pos v) };

    #[inline(always)]
    fn to_writer<W: Sink>(&self, writer: &mut Writer<W>, ctx: C) -> Result<(), DekuError> {
        write_unsigned(writer, *self as u128, NumberType::U8, ctx.parts())
    }

    #[inline]
    fn to_word(&self, order: Order, ctx: &C) -> Option<Word> {
        unsigned_word(*self as u64, order, NumberType::U8, ctx.parts())
    }

    fn try_write_first<W: Sink>(writer: &mut Writer<W>, items: &[u8], ctx: &C) -> usize {
        write_first_bytes(writer, items, ctx.parts())
    }
}

/// Writes a `u16` as its context says: the whole 16 bits, or as many bits or bytes as a size says.
///
/// ```text
/// 0xC0FEu16.to_writer(&mut writer, Endian::Big)?                             // C0 FE
/// ```
impl<C: NumberCtx> DekuWriter<C> for u16 {
    ghost meaning = { λ v c. WritesNumber (unsigned 16) (C.layout_of c) (pos v) };

    #[inline(always)]
    fn to_writer<W: Sink>(&self, writer: &mut Writer<W>, ctx: C) -> Result<(), DekuError> {
        write_unsigned(writer, *self as u128, NumberType::U16, ctx.parts())
    }

    #[inline]
    fn to_word(&self, order: Order, ctx: &C) -> Option<Word> {
        unsigned_word(*self as u64, order, NumberType::U16, ctx.parts())
    }
}

/// Writes a `u32` as its context says: the whole 32 bits, or as many bits or bytes as a size says.
///
/// ```text
/// 0x030201u32.to_writer(&mut writer, ByteSize(3))?                           // 01 02 03
/// ```
impl<C: NumberCtx> DekuWriter<C> for u32 {
    ghost meaning = { λ v c. WritesNumber (unsigned 32) (C.layout_of c) (pos v) };

    #[inline(always)]
    fn to_writer<W: Sink>(&self, writer: &mut Writer<W>, ctx: C) -> Result<(), DekuError> {
        write_unsigned(writer, *self as u128, NumberType::U32, ctx.parts())
    }

    #[inline]
    fn to_word(&self, order: Order, ctx: &C) -> Option<Word> {
        unsigned_word(*self as u64, order, NumberType::U32, ctx.parts())
    }
}

/// Writes a `u64` as its context says: the whole 64 bits, or as many bits or bytes as a size says.
///
/// ```text
/// 1u64.to_writer(&mut writer, (Endian::Big, ByteSize(5)))?                   // 00 00 00 00 01
/// ```
impl<C: NumberCtx> DekuWriter<C> for u64 {
    ghost meaning = { λ v c. WritesNumber (unsigned 64) (C.layout_of c) (pos v) };

    #[inline(always)]
    fn to_writer<W: Sink>(&self, writer: &mut Writer<W>, ctx: C) -> Result<(), DekuError> {
        write_unsigned(writer, *self as u128, NumberType::U64, ctx.parts())
    }

    #[inline]
    fn to_word(&self, order: Order, ctx: &C) -> Option<Word> {
        unsigned_word(*self, order, NumberType::U64, ctx.parts())
    }
}

/// Writes a `u128` as its context says: the whole 128 bits, or as many bits or bytes as a size
/// says.
///
/// ```text
/// 2u128.to_writer(&mut writer, (Endian::Little, ByteSize(9)))?      // 02 and eight bytes of zeros
/// ```
impl<C: NumberCtx> DekuWriter<C> for u128 {
    ghost meaning = { λ v c. WritesNumber (unsigned 128) (C.layout_of c) (pos v) };

    #[inline(always)]
    fn to_writer<W: Sink>(&self, writer: &mut Writer<W>, ctx: C) -> Result<(), DekuError> {
        write_unsigned(writer, *self, NumberType::U128, ctx.parts())
    }
}

/// Writes a `usize` as its context says: the whole 64 bits, or as many bits or bytes as a size
/// says.
///
/// ```text
/// 258usize.to_writer(&mut writer, (Endian::Big, BitSize(16)))?               // 01 02
/// ```
impl<C: NumberCtx> DekuWriter<C> for usize {
    ghost meaning = { λ v c. WritesNumber (unsigned 64) (C.layout_of c) (pos v) };

    #[inline(always)]
    fn to_writer<W: Sink>(&self, writer: &mut Writer<W>, ctx: C) -> Result<(), DekuError> {
        write_unsigned(writer, *self as u128, NumberType::USIZE, ctx.parts())
    }
}

/// Writes an `i8` as its context says: the whole eight bits, or as many bits or bytes as a size
/// says; in two's complement.
///
/// ```text
/// (-1i8).to_writer(&mut writer, Endian::Little)?                             // FF
/// ```
impl<C: NumberCtx> DekuWriter<C> for i8 {
    ghost meaning = { λ v c. WritesNumber (signed 8) (C.layout_of c) v };

    #[inline(always)]
    fn to_writer<W: Sink>(&self, writer: &mut Writer<W>, ctx: C) -> Result<(), DekuError> {
        write_signed(writer, *self as i128, NumberType::I8, ctx.parts())
    }

    #[inline]
    fn to_word(&self, order: Order, ctx: &C) -> Option<Word> {
        signed_word(*self as i64, order, NumberType::I8, ctx.parts())
    }
}

/// Writes an `i16` as its context says: the whole 16 bits, or as many bits or bytes as a size says;
/// in two's complement.
///
/// ```text
/// (-2i16).to_writer(&mut writer, Endian::Big)?                               // FF FE
/// ```
impl<C: NumberCtx> DekuWriter<C> for i16 {
    ghost meaning = { λ v c. WritesNumber (signed 16) (C.layout_of c) v };

    #[inline(always)]
    fn to_writer<W: Sink>(&self, writer: &mut Writer<W>, ctx: C) -> Result<(), DekuError> {
        write_signed(writer, *self as i128, NumberType::I16, ctx.parts())
    }

    #[inline]
    fn to_word(&self, order: Order, ctx: &C) -> Option<Word> {
        signed_word(*self as i64, order, NumberType::I16, ctx.parts())
    }
}

/// Writes an `i32` as its context says: the whole 32 bits, or as many bits or bytes as a size says;
/// in two's complement.
///
/// ```text
/// (-2i32).to_writer(&mut writer, (Endian::Big, ByteSize(2)))?                // FF FE
/// ```
impl<C: NumberCtx> DekuWriter<C> for i32 {
    ghost meaning = { λ v c. WritesNumber (signed 32) (C.layout_of c) v };

    #[inline(always)]
    fn to_writer<W: Sink>(&self, writer: &mut Writer<W>, ctx: C) -> Result<(), DekuError> {
        write_signed(writer, *self as i128, NumberType::I32, ctx.parts())
    }

    #[inline]
    fn to_word(&self, order: Order, ctx: &C) -> Option<Word> {
        signed_word(*self as i64, order, NumberType::I32, ctx.parts())
    }
}

/// Writes an `i64` as its context says: the whole 64 bits, or as many bits or bytes as a size says;
/// in two's complement.
///
/// ```text
/// (-2i64).to_writer(&mut writer, (Endian::Little, ByteSize(2)))?             // FE FF
/// ```
impl<C: NumberCtx> DekuWriter<C> for i64 {
    ghost meaning = { λ v c. WritesNumber (signed 64) (C.layout_of c) v };

    #[inline(always)]
    fn to_writer<W: Sink>(&self, writer: &mut Writer<W>, ctx: C) -> Result<(), DekuError> {
        write_signed(writer, *self as i128, NumberType::I64, ctx.parts())
    }

    #[inline]
    fn to_word(&self, order: Order, ctx: &C) -> Option<Word> {
        signed_word(*self, order, NumberType::I64, ctx.parts())
    }
}

/// Writes an `i128` as its context says: the whole 128 bits, or as many bits or bytes as a size
/// says; in two's complement.
///
/// ```text
/// (-1i128).to_writer(&mut writer, (Endian::Big, BitSize(12)))?         // twelve bits that are set
/// ```
impl<C: NumberCtx> DekuWriter<C> for i128 {
    ghost meaning = { λ v c. WritesNumber (signed 128) (C.layout_of c) v };

    #[inline(always)]
    fn to_writer<W: Sink>(&self, writer: &mut Writer<W>, ctx: C) -> Result<(), DekuError> {
        write_signed(writer, *self, NumberType::I128, ctx.parts())
    }
}

/// Writes an `isize` as its context says: the whole 64 bits, or as many bits or bytes as a size
/// says; in two's complement.
///
/// ```text
/// 258isize.to_writer(&mut writer, (Endian::Big, BitSize(16)))?               // 01 02
/// ```
impl<C: NumberCtx> DekuWriter<C> for isize {
    ghost meaning = { λ v c. WritesNumber (signed 64) (C.layout_of c) v };

    #[inline(always)]
    fn to_writer<W: Sink>(&self, writer: &mut Writer<W>, ctx: C) -> Result<(), DekuError> {
        write_signed(writer, *self as i128, NumberType::ISIZE, ctx.parts())
    }
}
