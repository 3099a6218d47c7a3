//! Numbers other than 0.

ghost use Rattle.std.specs.Prelude.{pos};
ghost use Rattle.std.specs.Int.NonZero.{non_zero_u8_get, non_zero_u16_get, non_zero_u32_get};
ghost use Rattle.std.specs.Int.NonZero.{non_zero_u64_get, non_zero_u128_get, non_zero_usize_get};
ghost use Rattle.std.specs.Int.NonZero.{non_zero_i8_get, non_zero_i16_get, non_zero_i32_get};
ghost use Rattle.std.specs.Int.NonZero.{non_zero_i64_get, non_zero_i128_get, non_zero_isize_get};
ghost use Rattle.deku_num.specs.Numbers.{byte, unsigned, signed};
ghost use Rattle.deku_num.specs.NumberCalls.{WritesNumber};

use crate::traits::DekuWriter;
use deku_bits::device::Sink;
use deku_bits::error::DekuError;
use deku_bits::writer::Writer;
use deku_num::ctx::NumberCtx;
use std::num::{
    NonZeroI8, NonZeroI16, NonZeroI32, NonZeroI64, NonZeroI128, NonZeroIsize, NonZeroU8,
    NonZeroU16, NonZeroU32, NonZeroU64, NonZeroU128, NonZeroUsize,
};

/// Written as its number. It fails as that does. The same holds for each type below.
impl<C: NumberCtx> DekuWriter<C> for NonZeroU8 {
    ghost meaning = { λ v c. WritesNumber byte (C.layout_of c) (pos (non_zero_u8_get v)) };

    #[inline(always)]
    fn to_writer<W: Sink>(&self, writer: &mut Writer<W>, ctx: C) -> Result<(), DekuError> {
        let number: u8 = self.get();
        number.to_writer(writer, ctx)
    }
}

impl<C: NumberCtx> DekuWriter<C> for NonZeroU16 {
    ghost meaning = { λ v c. WritesNumber (unsigned 16) (C.layout_of c)
        (pos (non_zero_u16_get v)) };

    #[inline(always)]
    fn to_writer<W: Sink>(&self, writer: &mut Writer<W>, ctx: C) -> Result<(), DekuError> {
        let number: u16 = self.get();
        number.to_writer(writer, ctx)
    }
}

impl<C: NumberCtx> DekuWriter<C> for NonZeroU32 {
    ghost meaning = { λ v c. WritesNumber (unsigned 32) (C.layout_of c)
        (pos (non_zero_u32_get v)) };

    #[inline(always)]
    fn to_writer<W: Sink>(&self, writer: &mut Writer<W>, ctx: C) -> Result<(), DekuError> {
        let number: u32 = self.get();
        number.to_writer(writer, ctx)
    }
}

impl<C: NumberCtx> DekuWriter<C> for NonZeroU64 {
    ghost meaning = { λ v c. WritesNumber (unsigned 64) (C.layout_of c)
        (pos (non_zero_u64_get v)) };

    #[inline(always)]
    fn to_writer<W: Sink>(&self, writer: &mut Writer<W>, ctx: C) -> Result<(), DekuError> {
        let number: u64 = self.get();
        number.to_writer(writer, ctx)
    }
}

impl<C: NumberCtx> DekuWriter<C> for NonZeroU128 {
    ghost meaning = { λ v c. WritesNumber (unsigned 128) (C.layout_of c)
        (pos (non_zero_u128_get v)) };

    #[inline(always)]
    fn to_writer<W: Sink>(&self, writer: &mut Writer<W>, ctx: C) -> Result<(), DekuError> {
        let number: u128 = self.get();
        number.to_writer(writer, ctx)
    }
}

impl<C: NumberCtx> DekuWriter<C> for NonZeroUsize {
    ghost meaning = { λ v c. WritesNumber (unsigned 64) (C.layout_of c)
        (pos (non_zero_usize_get v)) };

    #[inline(always)]
    fn to_writer<W: Sink>(&self, writer: &mut Writer<W>, ctx: C) -> Result<(), DekuError> {
        let number: usize = self.get();
        number.to_writer(writer, ctx)
    }
}

impl<C: NumberCtx> DekuWriter<C> for NonZeroI8 {
    ghost meaning = { λ v c. WritesNumber (signed 8) (C.layout_of c) (non_zero_i8_get v) };

    #[inline(always)]
    fn to_writer<W: Sink>(&self, writer: &mut Writer<W>, ctx: C) -> Result<(), DekuError> {
        let number: i8 = self.get();
        number.to_writer(writer, ctx)
    }
}

impl<C: NumberCtx> DekuWriter<C> for NonZeroI16 {
    ghost meaning = { λ v c. WritesNumber (signed 16) (C.layout_of c) (non_zero_i16_get v) };

    #[inline(always)]
    fn to_writer<W: Sink>(&self, writer: &mut Writer<W>, ctx: C) -> Result<(), DekuError> {
        let number: i16 = self.get();
        number.to_writer(writer, ctx)
    }
}

impl<C: NumberCtx> DekuWriter<C> for NonZeroI32 {
    ghost meaning = { λ v c. WritesNumber (signed 32) (C.layout_of c) (non_zero_i32_get v) };

    #[inline(always)]
    fn to_writer<W: Sink>(&self, writer: &mut Writer<W>, ctx: C) -> Result<(), DekuError> {
        let number: i32 = self.get();
        number.to_writer(writer, ctx)
    }
}

impl<C: NumberCtx> DekuWriter<C> for NonZeroI64 {
    ghost meaning = { λ v c. WritesNumber (signed 64) (C.layout_of c) (non_zero_i64_get v) };

    #[inline(always)]
    fn to_writer<W: Sink>(&self, writer: &mut Writer<W>, ctx: C) -> Result<(), DekuError> {
        let number: i64 = self.get();
        number.to_writer(writer, ctx)
    }
}

impl<C: NumberCtx> DekuWriter<C> for NonZeroI128 {
    ghost meaning = { λ v c. WritesNumber (signed 128) (C.layout_of c) (non_zero_i128_get v) };

    #[inline(always)]
    fn to_writer<W: Sink>(&self, writer: &mut Writer<W>, ctx: C) -> Result<(), DekuError> {
        let number: i128 = self.get();
        number.to_writer(writer, ctx)
    }
}

impl<C: NumberCtx> DekuWriter<C> for NonZeroIsize {
    ghost meaning = { λ v c. WritesNumber (signed 64) (C.layout_of c) (non_zero_isize_get v) };

    #[inline(always)]
    fn to_writer<W: Sink>(&self, writer: &mut Writer<W>, ctx: C) -> Result<(), DekuError> {
        let number: isize = self.get();
        number.to_writer(writer, ctx)
    }
}
