//! Numbers other than 0.

ghost use Rattle.std.specs.Prelude.{◌≡◌, codes, pos};
ghost use Rattle.std.specs.Int.NonZero.{non_zero_u8_get, non_zero_u16_get, non_zero_u32_get};
ghost use Rattle.std.specs.Int.NonZero.{non_zero_u64_get, non_zero_u128_get, non_zero_usize_get};
ghost use Rattle.std.specs.Int.NonZero.{non_zero_i8_get, non_zero_i16_get, non_zero_i32_get};
ghost use Rattle.std.specs.Int.NonZero.{non_zero_i64_get, non_zero_i128_get, non_zero_isize_get};
ghost use Rattle.deku_num.specs.Numbers.{byte, unsigned, signed};
ghost use Rattle.deku_num.specs.NumberCalls.{ReadsUnsigned, ReadsNumber};
ghost use Rattle.deku_meanings.specs.Composing.{Then};
ghost use Rattle.deku_meanings.specs.Shapes.{ShowsUnless};

use crate::traits::DekuReader;
use deku_bits::device::Source;
use deku_bits::error::DekuError;
use deku_bits::reader::Reader;
use deku_num::ctx::NumberCtx;
use std::num::{
    NonZeroI8, NonZeroI16, NonZeroI32, NonZeroI64, NonZeroI128, NonZeroIsize, NonZeroU8,
    NonZeroU16, NonZeroU32, NonZeroU64, NonZeroU128, NonZeroUsize,
};

/// Read as its number. It fails as that does, or with `Parse("NonZero assertion")` if the number is
/// 0, whose bits are consumed. The same holds for each type below.
impl<C: NumberCtx> DekuReader<C> for NonZeroU8 {
    ghost meaning = { λ c. Then (ReadsUnsigned byte (C.layout_of c))
        (ShowsUnless (λ n. n ≡ 0) (codes "NonZero assertion") non_zero_u8_get) };

    #[inline(always)]
    fn from_reader_with_ctx<R: Source>(reader: &mut Reader<R>, ctx: C) -> Result<Self, DekuError> {
        let number = u8::from_reader_with_ctx(reader, ctx)?;
        match NonZeroU8::new(number) {
            Some(value) => Ok(value),
            None => Err(DekuError::Parse("NonZero assertion")),
        }
    }
}

impl<C: NumberCtx> DekuReader<C> for NonZeroU16 {
    ghost meaning = { λ c. Then (ReadsUnsigned (unsigned 16) (C.layout_of c))
        (ShowsUnless (λ n. n ≡ 0) (codes "NonZero assertion") non_zero_u16_get) };

    #[inline(always)]
    fn from_reader_with_ctx<R: Source>(reader: &mut Reader<R>, ctx: C) -> Result<Self, DekuError> {
        let number = u16::from_reader_with_ctx(reader, ctx)?;
        match NonZeroU16::new(number) {
            Some(value) => Ok(value),
            None => Err(DekuError::Parse("NonZero assertion")),
        }
    }
}

impl<C: NumberCtx> DekuReader<C> for NonZeroU32 {
    ghost meaning = { λ c. Then (ReadsUnsigned (unsigned 32) (C.layout_of c))
        (ShowsUnless (λ n. n ≡ 0) (codes "NonZero assertion") non_zero_u32_get) };

    #[inline(always)]
    fn from_reader_with_ctx<R: Source>(reader: &mut Reader<R>, ctx: C) -> Result<Self, DekuError> {
        let number = u32::from_reader_with_ctx(reader, ctx)?;
        match NonZeroU32::new(number) {
            Some(value) => Ok(value),
            None => Err(DekuError::Parse("NonZero assertion")),
        }
    }
}

impl<C: NumberCtx> DekuReader<C> for NonZeroU64 {
    ghost meaning = { λ c. Then (ReadsUnsigned (unsigned 64) (C.layout_of c))
        (ShowsUnless (λ n. n ≡ 0) (codes "NonZero assertion") non_zero_u64_get) };

    #[inline(always)]
    fn from_reader_with_ctx<R: Source>(reader: &mut Reader<R>, ctx: C) -> Result<Self, DekuError> {
        let number = u64::from_reader_with_ctx(reader, ctx)?;
        match NonZeroU64::new(number) {
            Some(value) => Ok(value),
            None => Err(DekuError::Parse("NonZero assertion")),
        }
    }
}

impl<C: NumberCtx> DekuReader<C> for NonZeroU128 {
    ghost meaning = { λ c. Then (ReadsUnsigned (unsigned 128) (C.layout_of c))
        (ShowsUnless (λ n. n ≡ 0) (codes "NonZero assertion") non_zero_u128_get) };

    #[inline(always)]
    fn from_reader_with_ctx<R: Source>(reader: &mut Reader<R>, ctx: C) -> Result<Self, DekuError> {
        let number = u128::from_reader_with_ctx(reader, ctx)?;
        match NonZeroU128::new(number) {
            Some(value) => Ok(value),
            None => Err(DekuError::Parse("NonZero assertion")),
        }
    }
}

impl<C: NumberCtx> DekuReader<C> for NonZeroUsize {
    ghost meaning = { λ c. Then (ReadsUnsigned (unsigned 64) (C.layout_of c))
        (ShowsUnless (λ n. n ≡ 0) (codes "NonZero assertion") non_zero_usize_get) };

    #[inline(always)]
    fn from_reader_with_ctx<R: Source>(reader: &mut Reader<R>, ctx: C) -> Result<Self, DekuError> {
        let number = usize::from_reader_with_ctx(reader, ctx)?;
        match NonZeroUsize::new(number) {
            Some(value) => Ok(value),
            None => Err(DekuError::Parse("NonZero assertion")),
        }
    }
}

impl<C: NumberCtx> DekuReader<C> for NonZeroI8 {
    ghost meaning = { λ c. Then (ReadsNumber (signed 8) (C.layout_of c))
        (ShowsUnless (λ n. n ≡ pos 0) (codes "NonZero assertion") non_zero_i8_get) };

    #[inline(always)]
    fn from_reader_with_ctx<R: Source>(reader: &mut Reader<R>, ctx: C) -> Result<Self, DekuError> {
        let number = i8::from_reader_with_ctx(reader, ctx)?;
        match NonZeroI8::new(number) {
            Some(value) => Ok(value),
            None => Err(DekuError::Parse("NonZero assertion")),
        }
    }
}

impl<C: NumberCtx> DekuReader<C> for NonZeroI16 {
    ghost meaning = { λ c. Then (ReadsNumber (signed 16) (C.layout_of c))
        (ShowsUnless (λ n. n ≡ pos 0) (codes "NonZero assertion") non_zero_i16_get) };

    #[inline(always)]
    fn from_reader_with_ctx<R: Source>(reader: &mut Reader<R>, ctx: C) -> Result<Self, DekuError> {
        let number = i16::from_reader_with_ctx(reader, ctx)?;
        match NonZeroI16::new(number) {
            Some(value) => Ok(value),
            None => Err(DekuError::Parse("NonZero assertion")),
        }
    }
}

impl<C: NumberCtx> DekuReader<C> for NonZeroI32 {
    ghost meaning = { λ c. Then (ReadsNumber (signed 32) (C.layout_of c))
        (ShowsUnless (λ n. n ≡ pos 0) (codes "NonZero assertion") non_zero_i32_get) };

    #[inline(always)]
    fn from_reader_with_ctx<R: Source>(reader: &mut Reader<R>, ctx: C) -> Result<Self, DekuError> {
        let number = i32::from_reader_with_ctx(reader, ctx)?;
        match NonZeroI32::new(number) {
            Some(value) => Ok(value),
            None => Err(DekuError::Parse("NonZero assertion")),
        }
    }
}

impl<C: NumberCtx> DekuReader<C> for NonZeroI64 {
    ghost meaning = { λ c. Then (ReadsNumber (signed 64) (C.layout_of c))
        (ShowsUnless (λ n. n ≡ pos 0) (codes "NonZero assertion") non_zero_i64_get) };

    #[inline(always)]
    fn from_reader_with_ctx<R: Source>(reader: &mut Reader<R>, ctx: C) -> Result<Self, DekuError> {
        let number = i64::from_reader_with_ctx(reader, ctx)?;
        match NonZeroI64::new(number) {
            Some(value) => Ok(value),
            None => Err(DekuError::Parse("NonZero assertion")),
        }
    }
}

impl<C: NumberCtx> DekuReader<C> for NonZeroI128 {
    ghost meaning = { λ c. Then (ReadsNumber (signed 128) (C.layout_of c))
        (ShowsUnless (λ n. n ≡ pos 0) (codes "NonZero assertion") non_zero_i128_get) };

    #[inline(always)]
    fn from_reader_with_ctx<R: Source>(reader: &mut Reader<R>, ctx: C) -> Result<Self, DekuError> {
        let number = i128::from_reader_with_ctx(reader, ctx)?;
        match NonZeroI128::new(number) {
            Some(value) => Ok(value),
            None => Err(DekuError::Parse("NonZero assertion")),
        }
    }
}

impl<C: NumberCtx> DekuReader<C> for NonZeroIsize {
    ghost meaning = { λ c. Then (ReadsNumber (signed 64) (C.layout_of c))
        (ShowsUnless (λ n. n ≡ pos 0) (codes "NonZero assertion") non_zero_isize_get) };

    #[inline(always)]
    fn from_reader_with_ctx<R: Source>(reader: &mut Reader<R>, ctx: C) -> Result<Self, DekuError> {
        let number = isize::from_reader_with_ctx(reader, ctx)?;
        match NonZeroIsize::new(number) {
            Some(value) => Ok(value),
            None => Err(DekuError::Parse("NonZero assertion")),
        }
    }
}
