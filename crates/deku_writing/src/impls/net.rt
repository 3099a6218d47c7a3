//! Network addresses, as the numbers that their octets make.

ghost use Rattle.std.specs.Prelude.{pos};
ghost use Rattle.std.specs.Net.Addr.{ipv4_bits, ipv6_bits};
ghost use Rattle.deku_num.specs.Numbers.{unsigned};
ghost use Rattle.deku_num.specs.NumberCalls.{WritesNumber};
ghost use Rattle.deku_meanings.specs.Shapes.{WritesAddress};

use crate::traits::DekuWriter;
use crate::words::Word;
use deku_bits::ctx::Order;
use deku_bits::device::Sink;
use deku_bits::error::DekuError;
use deku_bits::writer::Writer;
use deku_num::ctx::NumberCtx;
use std::net::{IpAddr, Ipv4Addr, Ipv6Addr};

/// Written as the `u32` that it is read from. It fails as that does.
impl<C: NumberCtx> DekuWriter<C> for Ipv4Addr {
    ghost meaning = { λ v c. WritesNumber (unsigned 32) (C.layout_of c) (pos (ipv4_bits v)) };

    #[inline(always)]
    fn to_writer<W: Sink>(&self, writer: &mut Writer<W>, ctx: C) -> Result<(), DekuError> {
        let number: u32 = self.to_bits();
        number.to_writer(writer, ctx)
    }

    #[inline]
    fn to_word(&self, order: Order, ctx: &C) -> Option<Word> {
        self.to_bits().to_word(order, ctx)
    }
}

/// Written as the `u128` that it is read from. It fails as that does.
impl<C: NumberCtx> DekuWriter<C> for Ipv6Addr {
    ghost meaning = { λ v c. WritesNumber (unsigned 128) (C.layout_of c) (pos (ipv6_bits v)) };

    #[inline(always)]
    fn to_writer<W: Sink>(&self, writer: &mut Writer<W>, ctx: C) -> Result<(), DekuError> {
        let number: u128 = self.to_bits();
        number.to_writer(writer, ctx)
    }
}

/// Written as the address that it holds. No byte says of which family it is.
impl<C: NumberCtx> DekuWriter<C> for IpAddr {
    ghost meaning = { λ v c. WritesAddress (C.layout_of c) v };

    #[inline(always)]
    fn to_writer<W: Sink>(&self, writer: &mut Writer<W>, ctx: C) -> Result<(), DekuError> {
        match self {
            IpAddr::V4(address) => address.to_writer(writer, ctx),
            IpAddr::V6(address) => address.to_writer(writer, ctx),
        }
    }
}
