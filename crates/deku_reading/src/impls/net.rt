//! Network addresses, as the numbers that their octets make.

ghost use Rattle.std.specs.Net.Addr.{ipv4_bits, ipv6_bits};
ghost use Rattle.deku_num.specs.Numbers.{unsigned};
ghost use Rattle.deku_num.specs.NumberCalls.{ReadsUnsigned};
ghost use Rattle.deku_meanings.specs.Composing.{Then};
ghost use Rattle.deku_meanings.specs.Shapes.{Shows};

use crate::traits::DekuReader;
use deku_bits::device::Source;
use deku_bits::error::DekuError;
use deku_bits::reader::Reader;
use deku_num::ctx::{NumberCtx, Order};
use deku_num::cutting::cut_unsigned;
use deku_num::kind::NumberType;
use std::net::{Ipv4Addr, Ipv6Addr};

/// Read as a `u32` whose highest byte is the first octet. It fails as that does.
impl<C: NumberCtx> DekuReader<C> for Ipv4Addr {
    ghost meaning = { λ c. Then (ReadsUnsigned (unsigned 32) (C.layout_of c)) (Shows ipv4_bits) };

    #[inline(always)]
    fn from_reader_with_ctx<R: Source>(reader: &mut Reader<R>, ctx: C) -> Result<Self, DekuError> {
        let number = u32::from_reader_with_ctx(reader, ctx)?;
        Ok(Ipv4Addr::from_bits(number))
    }

    #[inline]
    fn from_word(word: u64, room: usize, order: Order, ctx: &C) -> Option<(Self, usize)> {
        let (value, bits) = cut_unsigned(word, room, order, NumberType::U32, ctx.parts())?;
        Some((Ipv4Addr::from_bits(value as u32), bits))
    }
}

/// Read as a `u128` whose highest byte is the first octet. It fails as that does.
impl<C: NumberCtx> DekuReader<C> for Ipv6Addr {
    ghost meaning = { λ c. Then (ReadsUnsigned (unsigned 128) (C.layout_of c)) (Shows ipv6_bits) };

    #[inline(always)]
    fn from_reader_with_ctx<R: Source>(reader: &mut Reader<R>, ctx: C) -> Result<Self, DekuError> {
        let number = u128::from_reader_with_ctx(reader, ctx)?;
        Ok(Ipv6Addr::from_bits(number))
    }
}
