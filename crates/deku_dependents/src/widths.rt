//! Numbers whose width a field in front says.

use crate::building::Builder;
use deku_attributes::model::{Field, Order};
use deku_description::syntax::Expression;
use deku_markers::computing::{Computed, Computer};
use deku_markers::marker;
use deku_markers::marker::{Marker, Under, Unit};
use deku_record_parts::part::{Named, Place, under};
use deku_texts::refusal::Stop;
use deku_texts::wrapping::{is_big, number_kind};
use deku_tokens::place::Span;

impl<'b, 'a> Builder<'b, 'a> {
    /// A number of as many bits or bytes as a field in front says.
    pub(crate) fn wide(
        &mut self,
        field: &Field<'a>,
        called: Named<'a>,
        width: &Expression<'a>,
        unit: Unit,
    ) -> Result<(), Stop<'a>> {
        if self.items.is_empty() {
            return Stop::wrong(
                field.span,
                "a width with no field in front",
                "write a number",
            );
        }
        let form = Under {
            is_big: is_big(field),
            is_low_first: field.layout.order == Order::Lsb,
            unit,
        };
        self.under(field, called, width, form)
    }

    // A number in this form, of the width that a field in front says.
    fn under(
        &mut self,
        field: &Field<'a>,
        called: Named<'a>,
        width: &Expression<'a>,
        form: Under,
    ) -> Result<(), Stop<'a>> {
        let mut head = self.head(width, false)?;
        let marker = self.marked(&mut head, called.name, "Width")?;
        self.measures(head.fields.places, marker, width, form, field.span)?;
        let number = number_kind(field).unwrap_or("u8");
        let types = (marker.name, number, form.kind());
        let part = under(self.arena, head, called, types)?;
        Ok(self.push(part, marker)?)
    }

    // Appends the type of the context of a number whose width is one of the fields of these parts.
    fn measures(
        &mut self,
        places: &'a [Place<'a>],
        marker: Marker<'a>,
        width: &Expression<'a>,
        form: Under,
        span: Span,
    ) -> Result<(), Stop<'a>> {
        let mut computer = Computer::new(self.arena, places, self.constants);
        let computed = measured(&mut computer, width, span)?;
        marker::context(&mut self.markers, form, marker, &computer, computed)?;
        Ok(())
    }
}

// What a width computes, which is a field.
fn measured<'a>(
    computer: &mut Computer<'_, 'a>,
    width: &Expression<'a>,
    span: Span,
) -> Result<Computed<'a>, Stop<'a>> {
    let computed = computer.value(width)?;
    if computed.is_number() && computer.guards.is_empty() && computer.used.len() == 1 {
        return Ok(computed);
    }
    Stop::wrong(
        span,
        "a width that is not one field",
        "write `bits = \"*FIELD\"`, with the field in front that says it",
    )
}
