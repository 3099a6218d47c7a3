//! Enums whose id is a field in front of them.

use crate::building::Builder;
use deku_attributes::given::{given_kind, is_given, passed};
use deku_attributes::model::Field;
use deku_description::syntax::{Expression, Type};
use deku_markers::computing::Computer;
use deku_markers::marker;
use deku_markers::marker::Marker;
use deku_record_parts::chosen::chosen;
use deku_record_parts::part::{Named, Place};
use deku_texts::records::Records;
use deku_texts::refusal::Stop;
use deku_tokens::token::{Kind, Token};

impl<'b, 'a> Builder<'b, 'a> {
    /// Complains of an enum without the id that it is given, and of values that are given to
    /// another type.
    pub(crate) fn gives(
        &self,
        field: &Field<'a>,
        context: Option<Token<'a>>,
    ) -> Result<(), Stop<'a>> {
        let is_alone = matches!(&field.kind, Type::Name(_));
        let is_given = has_given(self.records, &field.kind);
        let (message, help) = match (is_given, context.is_some()) {
            (false, false) => return Ok(()),
            (false, true) => (
                "`ctx` is not supported: values that are given to a field",
                "move the fields that need them into this record",
            ),
            (true, _) if self.owner.is_kind() => (
                "an enum whose id comes from a field, in a kind of an enum, is not supported",
                "write a struct of it and of the field with its id, in place of it",
            ),
            (true, _) if !is_alone => (
                "an enum whose id comes from a field, in another type, is not supported",
                "write a struct of it and of the field with its id, in place of it",
            ),
            (true, true) => return Ok(()),
            (true, false) => (
                "an enum whose id comes from a field, and no field that says it",
                "write `ctx = \"*FIELD\"`, with the field in front that has the id",
            ),
        };
        Stop::wrong(field.span, message, help)
    }

    /// An enum, of the kind that a field in front says.
    pub(crate) fn choice(
        &mut self,
        field: &Field<'a>,
        called: Named<'a>,
        context: Token<'a>,
    ) -> Result<(), Stop<'a>> {
        let Type::Name(kind) = &field.kind else {
            return Ok(());
        };
        let record = self.records.record(kind.text);
        let Some(wanted) = record.and_then(|record| given_kind(record)) else {
            // What is wrong with the enum is said there.
            self.leaf(field, called)?;
            return Ok(());
        };
        let id = self.id_of(context, wanted)?;
        self.chosen(id, called, kind.text)
    }

    // An enum of this type, of the kind that the field of this name says.
    fn chosen(&mut self, id: Token<'a>, called: Named<'a>, kind: &'a str) -> Result<(), Stop<'a>> {
        let mut head = self.head(&Expression::Name(id), false)?;
        let marker = self.marked(&mut head, called.name, "Id")?;
        self.says(head.fields.places, marker, id)?;
        let part = chosen(self.arena, head, called, (marker.name, kind))?;
        Ok(self.push(part, marker)?)
    }

    // Appends the type of an id that a field of this name says.
    fn says(
        &mut self,
        places: &'a [Place<'a>],
        marker: Marker<'a>,
        id: Token<'a>,
    ) -> Result<(), Stop<'a>> {
        let mut computer = Computer::new(self.arena, places, self.constants);
        let computed = computer.name(id.text, id.span)?;
        marker::id(&mut self.markers, marker, &computer, computed)?;
        Ok(())
    }

    // The field with an id of this type.
    fn id_of(&self, context: Token<'a>, wanted: &str) -> Result<Token<'a>, Stop<'a>> {
        let span = context.span;
        let Some(name) = passed(context) else {
            return Stop::wrong(
                span,
                "a `ctx` that is not one field is not supported",
                "write `ctx = \"*FIELD\"`, with the field in front that has the id",
            );
        };
        let mut parts = self.items.iter();
        let Some(place) = parts.find_map(|part| part.place(name)) else {
            return Stop::wrong(
                span,
                "a name that is no field in front of this one",
                "move the field in front, and into this record",
            );
        };
        if place.number != Some(wanted) {
            let message = self.arena.print(format_args!(
                "an id that is no `{wanted}`, as its enum says"
            ))?;
            return Stop::wrong(span, message, "write the same type in both places");
        }
        let kind = Kind::Name;
        let text = name;
        Ok(Token { kind, text, span })
    }
}

// Whether a type has an enum that is given its id.
fn has_given<'a>(records: &Records<'_, 'a>, kind: &Type<'a>) -> bool {
    match kind {
        Type::Name(name) => records
            .record(name.text)
            .is_some_and(|record| is_given(record)),
        Type::Of(_, item) | Type::Array(item, _) => has_given(records, item),
        Type::Tuple(parts) => {
            for part in *parts {
                if has_given(records, part) {
                    return true;
                }
            }
            false
        }
    }
}
