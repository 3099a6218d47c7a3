//! Counts that a record does not keep.

use crate::listing::{Listed, list_part};
use deku_attributes::model::{Attribute, Endian, Field, Order};
use deku_attributes::reading::bits_of;
use deku_record_parts::part::{Named, Part};
use deku_texts::wrapping::number_kind;
use deku_tokens::arena::Arena;
use std::alloc::AllocError;

/// The count of the list after it, which the record does not keep.
#[derive(Clone, Copy)]
pub struct Temporary<'a> {
    /// The name of the field.
    pub name: &'a str,
    /// Its type.
    kind: &'a str,
    /// The text of its `temp_value`, with quotes.
    value: &'a str,
    /// Whether its high byte is first.
    is_big: bool,
    /// Its bit order.
    order: Order,
    /// Its bits.
    bits: u64,
}

/// Whether a record does not keep a field.
pub fn is_temporary(field: &Field<'_>) -> bool {
    field.attributes.iter().any(|it| matches!(it, Attribute::Temp | Attribute::TempValue(_)))
}

impl<'a> Temporary<'a> {
    /// A field as such a count: an unsigned number of at most 64 bits with `temp` and `temp_value`,
    /// and with no other attributes.
    pub fn of(field: &Field<'a>) -> Option<Temporary<'a>> {
        let mut value = None;
        let mut is_temporary = false;
        for attribute in field.attributes {
            match attribute {
                Attribute::Temp => is_temporary = true,
                Attribute::TempValue(token) => value = Some(token.text),
                _ => return None,
            }
        }
        let value = value?;
        let kind = number_kind(field)?;
        if !is_temporary || !kind.starts_with('u') {
            return None;
        }
        let bits = field.bits.unwrap_or(bits_of(kind)?);
        if bits > 64 {
            return None;
        }
        Some(Temporary {
            name: field.name?.text,
            kind,
            value,
            is_big: matches!(field.layout.endian, Endian::Big),
            order: field.layout.order,
            bits,
        })
    }

    /// Whether its `temp_value` is the length of the list of this name.
    pub fn counts(&self, arena: &'a Arena, list: &str) -> Result<bool, AllocError> {
        let kind = self.kind;
        let count = arena.print(format_args!("\"{list}.len() as {kind}\""))?;
        let own = arena.print(format_args!("\"self.{list}.len() as {kind}\""))?;
        Ok(self.value == count || self.value == own)
    }

    // The name of the type that says how it is laid out.
    fn part(&self) -> &'static str {
        match (self.order, self.is_big) {
            (Order::Msb, false) if self.bits > 8 => "MsbLe",
            (Order::Msb, _) => "Msb",
            (Order::Lsb, false) => "Lsb",
            (Order::Lsb, true) => "LsbBe",
        }
    }

    /// The part of the list of this name, with items of this type.
    pub fn before(
        &self,
        arena: &'a Arena,
        called: Named<'a>,
        item: &'a str,
    ) -> Result<Part<'a>, AllocError> {
        let bits = self.bits;
        let part = self.part();
        let count = arena.print(format_args!("{part}<u64, {bits}>"))?;
        let form = Listed {
            part: "Prefixed",
            types: [count, item],
            open: arena.print(format_args!("PrefixedRef::<{count}, _> {{"))?,
            marker: "count",
        };
        list_part(arena, called, form)
    }
}
