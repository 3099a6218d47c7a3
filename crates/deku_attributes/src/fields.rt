//! Fields checked.

use crate::checking::{Checker, LIMIT};
use crate::model::{Attribute, Field, Layout, Order};
use crate::reading::{
    Scope, address_bits, bits_of, foreign_name, is_of, number_bits, number_in, said, text_in,
    whole_bits,
};
use crate::table::Owner;
use deku_description::formula::{closure, formula};
use deku_description::syntax;
use deku_description::syntax::{Closure, Expression, Fields, Head, Shape, Type};
use deku_tokens::place::{Complaint, Span};
use deku_tokens::token::Token;
use std::alloc::AllocError;

// The attributes of which a list has exactly one.
const LENGTHS: [&str; 5] = ["count", "until", "bits_read", "bytes_read", "read_all"];

impl<'a> Checker<'a> {
    /// The fields of a struct or of a kind. Each may use those in front of it.
    pub(crate) fn fields(
        &mut self,
        fields: Fields<'a>,
        layout: Layout<'a>,
        mut scope: Scope<'a>,
    ) -> Result<&'a [Field<'a>], AllocError> {
        let mut checked = Vec::new(self.arena.alloc());
        let mut at = Some((0, layout.order));
        scope.is_open = fields.shape == Shape::Tuple;
        for field in fields.list {
            if checked.len() == LIMIT {
                self.complain(
                    field.span,
                    "more than 256 fields",
                    "put some of them into a record of their own",
                )?;
                break;
            }
            let field = self.field(*field, layout, &mut scope)?;
            at = self.ordered(at, &field)?;
            checked.push(field)?;
        }
        self.arena.list(checked.as_slice())
    }

    fn field(
        &mut self,
        field: syntax::Field<'a>,
        outer: Layout<'a>,
        scope: &mut Scope<'a>,
    ) -> Result<Field<'a>, AllocError> {
        let syntax::Field {
            head,
            name,
            kind,
            span,
        } = field;
        let before = self.complaints.len();
        self.head(&head, Owner::Field)?;
        let layout = self.layout(&head, outer)?;
        let bits = self.bits(&head, &kind)?;
        self.suits(&head, &kind, span)?;
        let attributes = self.attributes(&head, name, &kind, scope)?;
        self.once(name, scope)?;
        Ok(Field {
            name,
            docs: head.docs,
            kind,
            span,
            layout,
            bits,
            attributes,
            is_sound: self.complaints.len() == before,
        })
    }

    // Complains of a type that has no part, and of attributes that do not go with it.
    fn suits(&mut self, head: &Head<'a>, kind: &Type<'a>, span: Span) -> Result<(), AllocError> {
        self.known(kind)?;
        self.needs_length(head, kind, span)?;
        self.needs_condition(head, kind, span)
    }

    // Adds a field's name, if it has one, to those that may be used, and complains if it is there.
    fn once(&mut self, name: Option<Token<'a>>, scope: &mut Scope<'a>) -> Result<(), AllocError> {
        let Some(name) = name else {
            return Ok(());
        };
        if scope.names.contains(&name.text) {
            self.complain(
                name.span,
                "a second field, constant or value of this name",
                "give it another name",
            )?;
        }
        scope.names.push(name.text)?;
        Ok(())
    }

    // The place within a byte after a field, and the bit order there; `None` if the place is not
    // known. Complains if the order changes inside a byte.
    fn ordered(
        &mut self,
        at: Option<(u64, Order)>,
        field: &Field<'a>,
    ) -> Result<Option<(u64, Order)>, AllocError> {
        let order = field.layout.order;
        if let Some((place, last)) = at {
            if place % 8 != 0 && last != order {
                self.complain(
                    field.span,
                    "a bit order that changes inside a byte",
                    "end the byte in the order in which it begins, by fields or by padding",
                )?;
            }
            if let Some(bits) = bits_with_padding(field) {
                return Ok(Some((place.wrapping_add(bits) % 8, order)));
            }
        }
        Ok(None)
    }

    // The width in bits that attributes say as a number.
    fn bits(&mut self, head: &Head<'a>, kind: &Type<'a>) -> Result<Option<u64>, AllocError> {
        let Some((attribute, bits)) = self.width(head)? else {
            return Ok(None);
        };
        match (number_bits(kind), bits) {
            (None, _) => self.complain(
                attribute.name.span,
                "a width of a type that is no number",
                "leave it out: a record says its own width",
            )?,
            (Some(whole), Some(bits)) if bits == 0 || bits > whole => {
                self.complain_of_width(attribute.name.span, bits, whole)?;
            }
            _ => {}
        }
        Ok(bits)
    }

    // Complains of a width that a type of numbers does not hold.
    fn complain_of_width(&mut self, span: Span, bits: u64, whole: u64) -> Result<(), AllocError> {
        let message = self.arena.print(format_args!(
            "a width of {bits} bits for a type of {whole}"
        ))?;
        let help = self
            .arena
            .print(format_args!("write a width from 1 to {whole} bits"))?;
        self.complain(span, message, help)
    }

    /// The attribute that says a width, and its bits, if it says a number.
    pub(crate) fn width(
        &mut self,
        head: &Head<'a>,
    ) -> Result<Option<(syntax::Attribute<'a>, Option<u64>)>, AllocError> {
        match (said(head, "bits"), said(head, "bytes")) {
            (Some(_), Some(bytes)) => {
                self.complain(
                    bytes.name.span,
                    "`bits` and `bytes` together",
                    "leave one of them out",
                )?;
                Ok(None)
            }
            (Some(bits), None) => Ok(Some((bits, number_in(bits.value)))),
            (None, Some(bytes)) => {
                let number = number_in(bytes.value);
                Ok(Some((bytes, number.map(|n| n.saturating_mul(8)))))
            }
            (None, None) => Ok(None),
        }
    }

    // Complains of a type that has no part.
    fn known(&mut self, kind: &Type<'a>) -> Result<(), AllocError> {
        let Some(name) = self.foreign_type(kind) else {
            return Ok(());
        };
        let (message, help) = match name.text {
            "f32" | "f64" => (
                "a floating-point number is not supported",
                "read its bits as `u32` or `u64`",
            ),
            "String" | "str" => (
                "a text without its end is not supported",
                "write `CString`, or `Vec<u8>` with `count`",
            ),
            "char" => ("a character is not supported", "write `u32` or `u8`"),
            _ => {
                return self.complain_of_name(
                    name.span,
                    "a type that is neither in this file nor in its `use` lines",
                    "write it in this file, or a `use` line for it",
                );
            }
        };
        self.complain(name.span, message, help)
    }

    // The first name in a type that has no part.
    fn foreign_type(&self, kind: &Type<'a>) -> Option<Token<'a>> {
        match kind {
            Type::Name(name) => {
                let text = name.text;
                let is_known = bits_of(text).is_some()
                    || address_bits(text).is_some()
                    || text == "CString"
                    || self.is_type(text);
                if is_known { None } else { Some(*name) }
            }
            Type::Of(_, item) => self.foreign_type(item),
            Type::Array(item, _) => self.foreign_type(item),
            Type::Tuple(parts) => {
                for part in *parts {
                    if let Some(name) = self.foreign_type(part) {
                        return Some(name);
                    }
                }
                None
            }
        }
    }

    // Complains of a list without its length, and of a length of something else.
    fn needs_length(
        &mut self,
        head: &Head<'a>,
        kind: &Type<'a>,
        span: Span,
    ) -> Result<(), AllocError> {
        let mut lengths = 0usize;
        for name in &LENGTHS {
            if said(head, name).is_some() {
                lengths = lengths.saturating_add(1);
            }
        }
        let (message, help) = match (is_of(kind, "Vec"), lengths) {
            (true, 1) | (false, 0) => return Ok(()),
            (true, 0) => (
                "a `Vec` that does not say where it ends",
                "write `count`, `until`, `bits_read`, `bytes_read` or `read_all`",
            ),
            (true, _) => ("a `Vec` that says twice where it ends", "leave one out"),
            (false, _) => ("a length of a type that is no `Vec`", "write `Vec<..>`"),
        };
        self.complain(span, message, help)
    }

    // Complains of an option without its condition, and of a condition of something else.
    fn needs_condition(
        &mut self,
        head: &Head<'a>,
        kind: &Type<'a>,
        span: Span,
    ) -> Result<(), AllocError> {
        let (message, help) = match (is_of(kind, "Option"), said(head, "cond").is_some()) {
            (true, true) | (false, false) => return Ok(()),
            (true, false) => ("an `Option` without its condition", "write `cond = \"..\"`"),
            (false, true) => (
                "a condition of a type that is no `Option`",
                "write `Option<..>`",
            ),
        };
        self.complain(span, message, help)
    }

    // What else is said of a field.
    fn attributes(
        &mut self,
        head: &Head<'a>,
        name: Option<Token<'a>>,
        kind: &Type<'a>,
        scope: &Scope<'a>,
    ) -> Result<&'a [Attribute<'a>], AllocError> {
        let mut attributes = Vec::new(self.arena.alloc());
        for attribute in head.attributes.iter().take(LIMIT) {
            if let Some(checked) = self.attribute(*attribute, head, name, kind, scope)? {
                attributes.push(checked)?;
            }
        }
        self.arena.list(attributes.as_slice())
    }

    // What an attribute says besides the endian, the bit order and a width that is a number.
    fn attribute(
        &mut self,
        attribute: syntax::Attribute<'a>,
        head: &Head<'a>,
        name: Option<Token<'a>>,
        kind: &Type<'a>,
        scope: &Scope<'a>,
    ) -> Result<Option<Attribute<'a>>, AllocError> {
        match attribute.name.text {
            "magic" => Ok(self.magic(head)?.map(Attribute::Magic)),
            "assert" | "assert_eq" => self.checked(attribute, name, scope),
            "pad_bits_before" | "pad_bytes_before" | "pad_bits_after" | "pad_bytes_after" => {
                self.padding(attribute)
            }
            "ctx" | "temp_value" | "update" | "read_all" | "temp" => Ok(plain(attribute)),
            "until" => self.until(attribute, kind),
            _ if is_computed(attribute) => self.computed(attribute, scope),
            _ => Ok(None),
        }
    }

    // An attribute that checks the field, which it may name.
    fn checked(
        &mut self,
        attribute: syntax::Attribute<'a>,
        name: Option<Token<'a>>,
        scope: &Scope<'a>,
    ) -> Result<Option<Attribute<'a>>, AllocError> {
        let mut names = Vec::new(self.arena.alloc());
        names.extend_from_slice(scope.names.as_slice())?;
        if let Some(name) = name {
            names.push(name.text)?;
        }
        let is_open = scope.is_open;
        self.computed(attribute, &Scope { names, is_open })
    }

    // An attribute that computes something.
    fn computed(
        &mut self,
        attribute: syntax::Attribute<'a>,
        scope: &Scope<'a>,
    ) -> Result<Option<Attribute<'a>>, AllocError> {
        let formula = self.formula(attribute, scope)?;
        Ok(formula.map(|it| of_formula(attribute.name.text, it)))
    }

    // What an attribute computes. Complains of names that are not known there.
    fn formula(
        &mut self,
        attribute: syntax::Attribute<'a>,
        scope: &Scope<'a>,
    ) -> Result<Option<Expression<'a>>, AllocError> {
        let Some(value) = attribute.value else {
            return Ok(None);
        };
        let parsed = formula(self.arena, self.text, value.token)?;
        let Some(expression) = self.noted(parsed)? else {
            return Ok(None);
        };
        if let Some(name) = foreign_name(&expression, scope) {
            self.complain_of_name(
                name.span,
                "a name that is no field in front of this one, and no constant",
                "move the field in front, or write its number",
            )?;
        }
        Ok(Some(expression))
    }

    // The closure that says which item of a list is its last.
    fn until(
        &mut self,
        attribute: syntax::Attribute<'a>,
        list: &Type<'a>,
    ) -> Result<Option<Attribute<'a>>, AllocError> {
        let Some(value) = attribute.value else {
            return Ok(None);
        };
        let parsed = closure(self.arena, self.text, value.token)?;
        let Some(closure) = self.noted(parsed)? else {
            return Ok(None);
        };
        self.closes(&closure, list)?;
        Ok(Some(Attribute::Until(closure)))
    }

    // What was parsed, if nothing is wrong with it; notes what is wrong.
    fn noted<T: Copy>(
        &mut self,
        parsed: Result<T, Complaint<'a>>,
    ) -> Result<Option<T>, AllocError> {
        match parsed {
            Ok(it) => Ok(Some(it)),
            Err(complaint) => {
                self.note(complaint)?;
                Ok(None)
            }
        }
    }

    // Complains of a closure that is not of an item of the list, or not of it alone.
    fn closes(&mut self, closure: &Closure<'a>, list: &Type<'a>) -> Result<(), AllocError> {
        let is_item = match list {
            Type::Of(outer, item) if outer.is_name("Vec") => match item {
                Type::Name(name) => name.is_name(closure.kind.text),
                _ => false,
            },
            _ => true,
        };
        if !is_item {
            self.complain(
                closure.kind.span,
                "a type that is not that of the items",
                "write the type of the items",
            )?;
        }
        let mut scope = self.scope(None)?;
        if scope.names.contains(&closure.name.text) {
            self.complain(
                closure.name.span,
                "an item of the name of a constant",
                "give it another name",
            )?;
        }
        scope.names.push(closure.name.text)?;
        if let Some(name) = foreign_name(&closure.last, &scope) {
            self.complain(
                name.span,
                "a name that is neither the item nor a constant",
                "compare the item with a number",
            )?;
        }
        Ok(())
    }

    // How many bits are skipped before or after a field.
    fn padding(
        &mut self,
        attribute: syntax::Attribute<'a>,
    ) -> Result<Option<Attribute<'a>>, AllocError> {
        let Some(number) = number_in(attribute.value) else {
            self.complain(
                attribute.name.span,
                "a padding that is no number",
                "write how many: a padding that depends on a field is not supported",
            )?;
            return Ok(None);
        };
        let bytes = number.saturating_mul(8);
        Ok(Some(match attribute.name.text {
            "pad_bits_before" => Attribute::PadBefore(number),
            "pad_bytes_before" => Attribute::PadBefore(bytes),
            "pad_bits_after" => Attribute::PadAfter(number),
            _ => Attribute::PadAfter(bytes),
        }))
    }
}

// Whether an attribute computes something.
fn is_computed(attribute: syntax::Attribute<'_>) -> bool {
    match attribute.name.text {
        "bits" | "bytes" => number_in(attribute.value).is_none(),
        "count" | "bits_read" | "bytes_read" | "cond" => true,
        _ => false,
    }
}

// The attribute of a name that computes something.
fn of_formula<'a>(name: &str, formula: Expression<'a>) -> Attribute<'a> {
    match name {
        "assert" => Attribute::Assert(formula),
        "assert_eq" => Attribute::AssertEq(formula),
        "bits" => Attribute::Bits(formula),
        "bytes" => Attribute::Bytes(formula),
        "count" => Attribute::Count(formula),
        "bits_read" => Attribute::BitsRead(formula),
        "bytes_read" => Attribute::BytesRead(formula),
        _ => Attribute::Cond(formula),
    }
}

// An attribute that is taken as it is.
fn plain<'a>(attribute: syntax::Attribute<'a>) -> Option<Attribute<'a>> {
    match (attribute.name.text, attribute.value) {
        ("read_all", _) => Some(Attribute::ReadAll),
        ("temp", _) => Some(Attribute::Temp),
        ("ctx", Some(value)) => Some(Attribute::Context(value.token)),
        ("temp_value", Some(value)) => Some(Attribute::TempValue(value.token)),
        ("update", Some(value)) => Some(Attribute::Update(value.token)),
        _ => None,
    }
}

// The bits of a field with its padding and magic, if the description says them.
fn bits_with_padding(field: &Field<'_>) -> Option<u64> {
    let mut bits = whole_bits(&field.kind, field.bits)?;
    for attribute in field.attributes {
        match attribute {
            Attribute::PadBefore(more) | Attribute::PadAfter(more) => {
                bits = bits.checked_add(*more)?;
            }
            Attribute::Bits(_) | Attribute::Bytes(_) => return None,
            _ => {}
        }
    }
    Some(bits)
}
