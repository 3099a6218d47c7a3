//! Enums checked.

use crate::checking::{Checker, LIMIT};
use crate::given::given;
use crate::model::{Case, Endian, Id, IdSource, Ids, Layout};
use crate::reading::{bits_of, number_in, pattern_in, said, text_in};
use crate::table::Owner;
use deku_description::syntax::{Head, Value, Variant};
use deku_tokens::token::Token;
use std::alloc::AllocError;

impl<'a> Checker<'a> {
    /// How the id of an enum is laid out.
    pub(crate) fn ids(
        &mut self,
        head: &Head<'a>,
        layout: Layout<'a>,
        name: Token<'a>,
    ) -> Result<Ids<'a>, AllocError> {
        let mut layout = layout;
        if let Some(attribute) = said(head, "id_endian") {
            layout.endian = self.endian(attribute)?;
        }
        if let Some(value) = said(head, "id").and_then(|it| it.value) {
            self.not_in_front(head)?;
            return Ok(given_ids(head, layout, value.token));
        }
        let (kind, whole) = self.id_type(head, name)?;
        let bits = self.id_bits(head, whole)?;
        Ok(Ids {
            source: IdSource::Front(kind),
            layout,
            bits,
        })
    }

    // The type of an id, and its bits.
    fn id_type(&mut self, head: &Head<'a>, name: Token<'a>) -> Result<(&'a str, u64), AllocError> {
        let Some(attribute) = said(head, "id_type") else {
            self.complain(
                name.span,
                "an enum that does not say its id",
                "write `#[deku(id_type = \"u8\")]`",
            )?;
            return Ok(("u8", 64));
        };
        let kind = text_in(attribute.value).unwrap_or("");
        match bits_of(kind) {
            Some(bits) if kind != "bool" => Ok((kind, bits)),
            _ => {
                self.complain(
                    attribute.name.span,
                    "an id that is no whole number",
                    "write `id_type = \"u8\"`",
                )?;
                Ok(("u8", 64))
            }
        }
    }

    // The width of an id.
    fn id_bits(&mut self, head: &Head<'a>, whole: u64) -> Result<u64, AllocError> {
        let Some((attribute, bits)) = self.width(head)? else {
            return Ok(whole);
        };
        match bits {
            Some(bits) if 0 < bits && bits <= whole => Ok(bits),
            _ => {
                let help = self
                    .arena
                    .print(format_args!("write a width from 1 to {whole} bits"))?;
                self.complain(
                    attribute.name.span,
                    "a width that the type of the id does not hold",
                    help,
                )?;
                Ok(whole)
            }
        }
    }

    /// The kinds of an enum.
    pub(crate) fn cases(
        &mut self,
        kinds: &[Variant<'a>],
        layout: Layout<'a>,
        ids: Ids<'a>,
        context: Option<Token<'a>>,
    ) -> Result<&'a [Case<'a>], AllocError> {
        let mut cases = Vec::new(self.arena.alloc());
        let mut next = 0;
        for variant in kinds {
            if cases.len() == LIMIT {
                self.complain(
                    variant.name.span,
                    "more than 256 kinds",
                    "put some of them into an enum of their own",
                )?;
                break;
            }
            let number = self.discriminant(variant.discriminant, next)?;
            next = number.wrapping_add(1);
            let case = self.case(*variant, layout, number, context)?;
            self.id_fits(&case, cases.as_slice(), ids)?;
            cases.push(case)?;
        }
        self.arena.list(cases.as_slice())
    }

    // The number that a kind has in Rust.
    fn discriminant(&mut self, value: Option<Value<'a>>, next: u64) -> Result<u64, AllocError> {
        let Some(value) = value else {
            return Ok(next);
        };
        if let Some(number) = number_in(Some(value)) {
            return Ok(number);
        }
        self.complain(
            value.token.span,
            "a number of a kind that is no whole number from 0",
            "write it as a literal",
        )?;
        Ok(next)
    }

    fn case(
        &mut self,
        variant: Variant<'a>,
        layout: Layout<'a>,
        number: u64,
        context: Option<Token<'a>>,
    ) -> Result<Case<'a>, AllocError> {
        let Variant {
            head,
            name,
            fields,
            ..
        } = variant;
        self.head(&head, Owner::Kind)?;
        let id = self.id(&head, number)?;
        let shape = fields.shape;
        let scope = self.scope(context)?;
        let fields = self.fields(fields, layout, scope)?;
        Ok(Case {
            name,
            docs: head.docs,
            id,
            shape,
            fields,
        })
    }

    // The ids of a kind: those that its attributes say, or its number in Rust.
    fn id(&mut self, head: &Head<'a>, number: u64) -> Result<Id, AllocError> {
        if let Some(attribute) = said(head, "id_pat") {
            if let Some(id) = pattern_in(text_in(attribute.value).unwrap_or("")) {
                return Ok(id);
            }
            self.complain(
                attribute.name.span,
                "a pattern of ids that is not supported",
                "write a range such as `1..=9`, or `_` for the rest, or a kind for each id",
            )?;
            return Ok(Id::Pattern);
        }
        let Some(attribute) = said(head, "id") else {
            return Ok(Id::Number(number));
        };
        match number_in(attribute.value) {
            Some(number) => Ok(Id::Number(number)),
            None => {
                self.complain(
                    attribute.name.span,
                    "an id that is no whole number from 0",
                    "write it as a literal, `id = 1`",
                )?;
                Ok(Id::Number(number))
            }
        }
    }

    // Complains of an id that does not fit, that is there already, or that follows one for the
    // rest.
    fn id_fits(
        &mut self,
        case: &Case<'a>,
        before: &[Case<'a>],
        ids: Ids<'a>,
    ) -> Result<(), AllocError> {
        let span = case.name.span;
        if let Id::Number(id) | Id::Range(_, id) = case.id {
            if ids.bits < 64 && id >> ids.bits.min(63) != 0 {
                let bits = ids.bits;
                let message = self
                    .arena
                    .print(format_args!("the id {id} does not fit {bits} bits"))?;
                self.complain(span, message, "write a wider `id_type`, or another id")?;
            }
        }
        for earlier in before {
            if earlier.id == Id::Rest {
                self.complain(
                    span,
                    "a kind after the one for all other ids",
                    "move the kind with `id_pat` to the end",
                )?;
                return Ok(());
            }
            if has_all(earlier.id, case.id) {
                let message = "an id that another kind has";
                self.complain(span, message, "write another `id`")?;
                return Ok(());
            }
        }
        Ok(())
    }
}

// How an id that a value of the context gives is laid out.
fn given_ids<'a>(head: &Head<'a>, layout: Layout<'a>, id: Token<'a>) -> Ids<'a> {
    let context = said(head, "ctx").and_then(|it| it.value);
    let kind = given(context.map(|it| it.token), id).unwrap_or("u64");
    Ids {
        source: IdSource::Context(id),
        layout,
        bits: bits_of(kind).unwrap_or(64),
    }
}

// Whether all ids of a kind are those of one before it.
fn has_all(earlier: Id, later: Id) -> bool {
    match (earlier, later) {
        (Id::Number(one), Id::Number(other)) => one == other,
        (Id::Range(low, high), Id::Number(id)) => low <= id && id <= high,
        (Id::Range(low, high), Id::Range(first, last)) => low <= first && last <= high,
        _ => false,
    }
}
