//! Bits that are always the same: padding and magic.

use crate::building::Builder;
use deku_attributes::model::{Field, Order};
use deku_markers::marker;
use deku_markers::marker::{Marker, magic_kind, number_of};
use deku_record_parts::part::constant;
use deku_texts::refusal::Stop;
use deku_texts::words;
use deku_tokens::place::Span;
use std::alloc::AllocError;

// How many bits of padding there are at most.
const PADDING: u64 = 1024;

impl<'b, 'a> Builder<'b, 'a> {
    /// Zeros of so many bits, before or after a field.
    pub(crate) fn padding(&mut self, bits: u64, field: &Field<'a>) -> Result<(), Stop<'a>> {
        if bits > PADDING {
            return Stop::wrong(
                field.span,
                "a padding of more than 1024 bits",
                "write an array of bytes, which is kept",
            );
        }
        let order = field.layout.order;
        let mut left = bits;
        for _ in 0..(PADDING / 64 + 1) {
            if left == 0 {
                break;
            }
            let width = left.min(64);
            left = left.saturating_sub(width);
            self.zeros(width, order)?;
        }
        Ok(())
    }

    // At most 64 zeros.
    fn zeros(&mut self, width: u64, order: Order) -> Result<(), AllocError> {
        let (name, marker) = match order {
            Order::Msb => ("Msb", "Zeros"),
            Order::Lsb => ("Lsb", "LowZeros"),
        };
        let kind = self.arena.print(format_args!("{name}<u64, {width}>"))?;
        let part = constant(self.arena, self.owner, kind, marker, "padding")?;
        self.items.push(part)?;
        Ok(())
    }

    /// Bytes that are always the same, as one number.
    pub fn magic(
        &mut self,
        bytes: &[u8],
        name: &'a str,
        what: &'a str,
        order: Order,
        span: Span,
    ) -> Result<(), Stop<'a>> {
        if bytes.is_empty() || bytes.len() > 8 {
            return Stop::wrong(
                span,
                "a magic of no bytes, or of more than 8",
                "write the first 8 of them, and an array of `u8` with `assert` after them",
            );
        }
        Ok(self.bytes(bytes, name, what, order)?)
    }

    // At most eight bytes.
    fn bytes(
        &mut self,
        bytes: &[u8],
        name: &'a str,
        what: &'a str,
        order: Order,
    ) -> Result<(), AllocError> {
        let (constructor, kind) = magic_kind(self.arena, bytes.len(), order)?;
        let marker = Marker {
            name,
            parts: kind,
            lent: None,
            field: what,
        };
        let number = number_of(bytes);
        let value = self.arena.print(format_args!("0x{number:X}"))?;
        marker::constant(&mut self.markers, marker, constructor, value)?;
        let part = constant(self.arena, self.owner, kind, name, "magic")?;
        self.push(part, marker)
    }
}
