//! The parts of the fields of a record, in their order.

use crate::refusing::partless;
use crate::said::Said;
use crate::temporary::{Temporary, is_temporary};
use crate::updating::{Updated, is_updated};
use deku_attributes::model::{Attribute, Endian, Field};
use deku_attributes::reading::{bits_of, is_name, literal, names};
use deku_description::syntax::{Closure, Constant, Expression, Operator, Type};
use deku_markers::computing::{Computed, Computer};
use deku_markers::marker;
use deku_markers::marker::{Amount, Marker};
use deku_record_parts::following::Dependent;
use deku_record_parts::part::{
    Named, Owner, Part, Place, asserted, following, leaf, lifetimes_of, rest, tuple,
};
use deku_record_parts::whole::Whole;
use deku_texts::document::Text;
use deku_texts::records::Records;
use deku_texts::refusal::Stop;
use deku_texts::template::fill;
use deku_texts::words;
use deku_texts::wrapping::{item, number_kind};
use deku_tokens::arena::Arena;
use deku_tokens::place::{Complaint, Span};
use deku_tokens::token::Token;
use std::alloc::AllocError;

/// The parts of a record while they are made.
#[derive(Drop)]
pub struct Builder<'b, 'a> {
    pub arena: &'a Arena,
    pub records: &'b Records<'b, 'a>,
    pub constants: &'b [Constant<'a>],
    /// What the names of its types begin with.
    pub front: &'a str,
    pub owner: Owner,
    /// The parts so far.
    pub items: Vec<Part<'a>>,
    /// The markers, as they are printed.
    pub markers: String,
    /// Their names.
    pub names: Vec<&'a str>,
    pub complaints: Vec<Complaint<'a>>,
    /// The structs in front of the record, and where their fields are in their parts.
    pub structs: Vec<(&'a str, &'a [Place<'a>])>,
    // The list up to the end of the input, which is its last part.
    last: Option<Part<'a>>,
    // The count that the record does not keep, if the last field was one.
    temporary: Option<Temporary<'a>>,
}

// What the name of the type of a dependent part ends with.
fn word_of(form: Dependent) -> &'static str {
    match form {
        Dependent::Counted => "Count",
        Dependent::Filled => "Size",
        Dependent::Optional => "Condition",
    }
}

impl<'b, 'a> Builder<'b, 'a> {
    pub fn new(
        arena: &'a Arena,
        records: &'b Records<'b, 'a>,
        constants: &'b [Constant<'a>],
        front: &'a str,
        owner: Owner,
    ) -> Builder<'b, 'a> {
        let alloc = arena.alloc();
        Builder {
            arena,
            records,
            constants,
            front,
            owner,
            items: Vec::new(alloc),
            markers: String::new(alloc),
            names: Vec::new(alloc),
            complaints: Vec::new(alloc),
            structs: Vec::new(alloc),
            last: None,
            temporary: None,
        }
    }

    /// Notes what is wrong.
    pub fn noted(&mut self, built: Result<(), Stop<'a>>) -> Result<(), AllocError> {
        match built {
            Ok(()) => Ok(()),
            Err(Stop::Wrong(complaint)) => {
                self.complaints.push(complaint)?;
                Ok(())
            }
            Err(Stop::Memory) => Err(AllocError),
        }
    }

    /// The parts of fields, without this many in front.
    pub fn fields(&mut self, fields: &[Field<'a>], skipped: usize) -> Result<(), AllocError> {
        self.updates(fields)?;
        for (i, field) in fields.iter().enumerate().skip(skipped) {
            let named = self.called(field, i)?;
            let is_built = field.is_sound && self.tried(field, named)?;
            if !is_built {
                self.leaf(field, named)?;
            }
        }
        match fields.last() {
            Some(last) => self.ended(last),
            None => Ok(()),
        }
    }

    // What the field at this place is called.
    fn called(&self, field: &Field<'a>, place: usize) -> Result<Named<'a>, AllocError> {
        let name = field_name(self.arena, field, place)?;
        let access = match field.name {
            Some(_) => name,
            None => self.arena.print(format_args!("{place}"))?,
        };
        Ok(Named {
            name,
            access,
            owner: self.owner,
        })
    }

    // Complains of what is wrong after the last field.
    fn ended(&mut self, last: &Field<'a>) -> Result<(), AllocError> {
        if self.temporary.take().is_some() {
            let wrong = no_count(last);
            self.noted(wrong)?;
        }
        if self.owner == Owner::LentKind && lifetimes_of(self.items.as_slice()) > 1 {
            let wrong = Stop::wrong(
                last.span,
                "a kind with two lists or options, or one of them and a number with a sign",
                "make a record of its fields, which the kind then has",
            );
            self.noted(wrong)?;
        }
        Ok(())
    }

    // Complains of updates that are not the length of a list.
    fn updates(&mut self, fields: &[Field<'a>]) -> Result<(), AllocError> {
        for field in fields {
            let is_length = !self.owner.is_kind() && Updated::of(field, fields).is_some();
            if is_updated(field) && !is_length {
                let wrong = Stop::wrong(
                    field.span,
                    "an update that is not the length of a list of the struct",
                    "write `update = \"self.LIST.len()\"`, or set the field before it is written",
                );
                self.noted(wrong)?;
            }
        }
        Ok(())
    }

    // Whether a field has a part. If not, what is wrong with it is noted.
    fn tried(&mut self, field: &Field<'a>, named: Named<'a>) -> Result<bool, AllocError> {
        let built = self.field(field, named);
        let is_built = built.is_ok();
        self.noted(built)?;
        Ok(is_built)
    }

    /// All parts as one.
    pub fn whole(&mut self) -> Result<Whole<'a>, AllocError> {
        let items = std::mem::replace(&mut self.items, Vec::new(self.arena.alloc()));
        Whole::of(self.arena, items.as_slice(), self.last)
    }

    /// The part of a field alone.
    pub(crate) fn leaf(&mut self, field: &Field<'a>, named: Named<'a>) -> Result<(), AllocError> {
        let part = leaf(self.arena, self.records, field, named)?;
        self.items.push(part)?;
        Ok(())
    }

    fn field(&mut self, field: &Field<'a>, called: Named<'a>) -> Result<(), Stop<'a>> {
        self.named(field, called.name)?;
        if self.last.is_some() {
            return Stop::wrong(
                field.span,
                "a field after a list up to the end of the input",
                "write the list last",
            );
        }
        if let Some(count) = self.temporary.take() {
            return self.counted(count, field, called);
        }
        if is_temporary(field) {
            return self.count(field);
        }
        self.kept(field, called)
    }

    // A field that the record keeps.
    fn kept(&mut self, field: &Field<'a>, called: Named<'a>) -> Result<(), Stop<'a>> {
        let name = called.name;
        let said = Said::of(field);
        self.fits(field, &said)?;
        self.padding(said.before, field)?;
        self.magic_of(field, name, said.magic)?;
        self.part(field, called, &said)?;
        self.check_field(field, name, &said)?;
        self.padding_after(said.after, field)
    }

    // The bytes in front of a field that are always the same.
    fn magic_of(
        &mut self,
        field: &Field<'a>,
        name: &str,
        magic: Option<&[u8]>,
    ) -> Result<(), Stop<'a>> {
        let Some(bytes) = magic else {
            return Ok(());
        };
        let what = self.arena.print(format_args!("magic of {name}"))?;
        let named = words::marker(self.arena, self.front, name, "Magic")?;
        self.magic(bytes, named, what, field.layout.order, field.span)
    }

    // The padding after a field.
    fn padding_after(&mut self, bits: u64, field: &Field<'a>) -> Result<(), Stop<'a>> {
        if self.last.is_some() && bits > 0 {
            return Stop::wrong(
                field.span,
                "padding after a list up to the end of the input",
                "leave it out",
            );
        }
        self.padding(bits, field)
    }

    // The part of a field without its magic, its padding and its checks.
    fn part(
        &mut self,
        field: &Field<'a>,
        called: Named<'a>,
        said: &Said<'_, 'a>,
    ) -> Result<(), Stop<'a>> {
        if let Some(count) = said.count {
            return self.after_head(field, called, count, Dependent::Counted, 1);
        }
        if let Some((size, unit)) = said.size {
            return self.after_head(field, called, size, Dependent::Filled, unit);
        }
        if let Some(cond) = said.cond {
            return self.after_head(field, called, cond, Dependent::Optional, 1);
        }
        if said.is_rest {
            return self.rest(field, called);
        }
        match (said.end, said.context, said.width) {
            (Some(end), _, _) => self.until(field, called, end),
            (None, Some(context), _) => self.choice(field, called, context),
            (None, None, Some((width, unit))) => self.wide(field, called, width, unit),
            (None, None, None) => Ok(self.leaf(field, called)?),
        }
    }

    // A count that the record does not keep.
    fn count(&mut self, field: &Field<'a>) -> Result<(), Stop<'a>> {
        self.temporary = Temporary::of(field);
        match self.temporary {
            Some(_) => Ok(()),
            None => no_count(field),
        }
    }

    // The list after a count that the record does not keep.
    fn counted(
        &mut self,
        count: Temporary<'a>,
        field: &Field<'a>,
        called: Named<'a>,
    ) -> Result<(), Stop<'a>> {
        let mut is_alone = false;
        for attribute in field.attributes {
            match attribute {
                Attribute::Count(expression) => is_alone = is_name(expression, count.name),
                _ => return no_count(field),
            }
        }
        if !is_alone || !count.counts(self.arena, called.name)? {
            return no_count(field);
        }
        let said = Said::of(field);
        self.fits(field, &said)?;
        let held = held_kind(self.arena, field)?;
        let part = count.before(self.arena, called, held)?;
        self.items.push(part)?;
        Ok(())
    }

    // The checks of a field.
    fn check_field(
        &mut self,
        field: &Field<'a>,
        name: &'a str,
        said: &Said<'_, 'a>,
    ) -> Result<(), Stop<'a>> {
        if let Some(expression) = said.assert {
            self.assert(field, name, expression, false)?;
        }
        if let Some(expression) = said.equal {
            self.assert(field, name, expression, true)?;
        }
        Ok(())
    }

    // Complains of a name that the module has already.
    fn named(&self, field: &Field<'a>, name: &str) -> Result<(), Stop<'a>> {
        let mut is_taken = words::is_local(name);
        for part in &self.items {
            for place in part.fields.places {
                is_taken = is_taken || place.name.eq_ignore_ascii_case(name);
            }
        }
        if is_taken {
            let span = match field.name {
                Some(token) => token.span,
                None => field.span,
            };
            let message = self.arena.print(format_args!(
                "a field of the name `{name}`, which the module has already"
            ))?;
            return Stop::wrong(span, message, "give it another name");
        }
        Ok(())
    }

    // Complains of a type or an endian that has no part.
    fn fits(&self, field: &Field<'a>, said: &Said<'_, 'a>) -> Result<(), Stop<'a>> {
        self.gives(field, said.context)?;
        if let Endian::Named(_) = field.layout.endian {
            return Stop::wrong(
                field.span,
                "an endian given by another value is not supported",
                "write a record for each endian",
            );
        }
        let is_dependent = said.is_dependent();
        if is_dependent && said.is_checked() {
            return Stop::wrong(
                field.span,
                "a check of a list or an option is not supported",
                "check the fields that say whether it is there",
            );
        }
        let is_number = number_kind(field).is_some();
        if said.width.is_some() && (is_dependent || !is_number) {
            return Stop::wrong(
                field.span,
                "a width given by a field is supported only for one number",
                "write a record of the number and its width",
            );
        }
        let held = match (&field.kind, is_dependent) {
            (Type::Of(_, item), true) => item,
            (kind, _) => kind,
        };
        if self.owner.is_kind() {
            self.fits_kind(field, said.is_rest, is_dependent)?;
        }
        self.has_part(field, held)
    }

    // Complains of memory that a kind of an enum cannot have.
    fn fits_kind(
        &self,
        field: &Field<'a>,
        is_rest: bool,
        is_dependent: bool,
    ) -> Result<(), Stop<'a>> {
        let message = if is_rest {
            "a list up to the end of the input, in a kind of an enum, is not supported"
        } else if self.owner == Owner::LentKind {
            return Ok(());
        } else if is_dependent || !self.records.is_copied(field) {
            "memory in a kind of an enum whose id is a field is not supported"
        } else {
            return Ok(());
        };
        Stop::wrong(
            field.span,
            message,
            "put it into the struct that has the enum, after it",
        )
    }

    // A list up to the end of the input.
    fn rest(&mut self, field: &Field<'a>, called: Named<'a>) -> Result<(), Stop<'a>> {
        let held = held_kind(self.arena, field)?;
        self.last = Some(rest(self.arena, called, held)?);
        Ok(())
    }

    // Complains of a type that has no part.
    fn has_part(&self, field: &Field<'a>, kind: &Type<'a>) -> Result<(), Stop<'a>> {
        if let Some(word) = partless(kind, field) {
            let message = self.arena.print(format_args!("{word} is not supported"))?;
            return Stop::wrong(field.span, message, "write a record of its own for it");
        }
        if self.is_open(kind) {
            return Stop::wrong(
                field.span,
                "a record up to the end of the input in another one is not supported",
                "move its fields into this record",
            );
        }
        Ok(())
    }

    // Whether a type has a record that takes the rest of the input.
    fn is_open(&self, kind: &Type<'a>) -> bool {
        match kind {
            Type::Name(name) => self.records.is_open(name.text),
            Type::Of(_, item) | Type::Array(item, _) => self.is_open(item),
            Type::Tuple(parts) => {
                for part in *parts {
                    if self.is_open(part) {
                        return true;
                    }
                }
                false
            }
        }
    }

    /// The parts that hold the fields an expression names, as one; all parts, if several of them
    /// lend memory, or if one does and more is added to it than a check. Then there is one part.
    pub(crate) fn head(
        &mut self,
        expression: &Expression<'a>,
        is_checked: bool,
    ) -> Result<Part<'a>, AllocError> {
        let mut first = self.first_named(expression);
        let lent = self.lent_from(first);
        if lent > 1 || (lent == 1 && !is_checked) {
            first = 0;
        }
        let mut taken = Vec::new(self.arena.alloc());
        for part in self.items.iter().skip(first) {
            taken.push(*part)?;
        }
        self.items.truncate(first);
        tuple(self.arena, taken.as_slice())
    }

    // Which part is the first that has a field of an expression; the last one, if none has.
    fn first_named(&self, expression: &Expression<'a>) -> usize {
        let is_named = |part: &Part<'_>| {
            part.fields
                .places
                .iter()
                .any(|place| names(expression, place.name))
        };
        match self.items.iter().position(is_named) {
            Some(first) => first,
            None => self.items.len().saturating_sub(1),
        }
    }

    // How many parts lend memory, from this one on.
    fn lent_from(&self, first: usize) -> usize {
        let parts = self.items.iter().skip(first);
        parts.filter(|it| it.is_lent()).count()
    }

    // The name of the type of parts. It is an alias if they are several.
    fn alias(&mut self, kind: Text<'a>, field: &str, word: &str) -> Result<&'a str, AllocError> {
        if let Some(name) = kind.as_word() {
            return Ok(name);
        }
        let name = words::marker(self.arena, self.front, field, word)?;
        self.names.push(name)?;
        if word != "Lent" {
            self.declare(name, kind)?;
            return Ok(name);
        }
        let lent = self.arena.print(format_args!("{name}<'a>"))?;
        self.declare(lent, kind)?;
        Ok(lent)
    }

    // Appends an alias.
    fn declare(&mut self, name: &str, kind: Text<'a>) -> Result<(), AllocError> {
        fill(&mut self.markers, "\ntype $name$ = ", &[("name", name)])?;
        kind.print(&mut self.markers, 0, 1, false)?;
        self.markers.push_str(";\n")
    }

    /// The names of the types of a head and of what is written for it.
    pub(crate) fn aliases(
        &mut self,
        part: &mut Part<'a>,
        field: &str,
    ) -> Result<(&'a str, Option<&'a str>), AllocError> {
        let name = self.alias(part.texts.kind, field, "Head")?;
        part.texts.kind = Text::of(name);
        if !part.is_lent() {
            part.texts.lent = Text::of(name);
            return Ok((name, None));
        }
        let lent = self.alias(part.texts.lent, field, "Lent")?;
        part.texts.lent = Text::of(lent);
        Ok((name, Some(lent)))
    }

    // The head of a list or an option.
    fn head_of(
        &mut self,
        field: &Field<'a>,
        expression: &Expression<'a>,
    ) -> Result<Part<'a>, Stop<'a>> {
        if self.items.is_empty() {
            return Stop::wrong(
                field.span,
                "a list or an option with no field in front",
                "write an array, or the type itself",
            );
        }
        Ok(self.head(expression, false)?)
    }

    // A list that the fields in front count, or say the size of, in units of so many bits; or an
    // item that they show.
    fn after_head(
        &mut self,
        field: &Field<'a>,
        called: Named<'a>,
        expression: &Expression<'a>,
        form: Dependent,
        unit: u64,
    ) -> Result<(), Stop<'a>> {
        let mut head = self.head_of(field, expression)?;
        let marker = self.marked(&mut head, called.name, word_of(form))?;
        let places = head.fields.places;
        match form {
            Dependent::Optional => self.shows(places, marker, expression, field.span)?,
            Dependent::Counted | Dependent::Filled => {
                self.counts(places, marker, expression, field.span, (form, unit))?;
            }
        }
        let types = (marker.name, held_kind(self.arena, field)?);
        let part = following(self.arena, head, form, called, types)?;
        Ok(self.push(part, marker)?)
    }

    // Appends the type of a count, or of a size in units of so many bits.
    fn counts(
        &mut self,
        places: &'a [Place<'a>],
        marker: Marker<'a>,
        expression: &Expression<'a>,
        span: Span,
        (form, unit): (Dependent, u64),
    ) -> Result<(), Stop<'a>> {
        let mut computer = Computer::new(self.arena, places, self.constants);
        let computed = counted(&mut computer, expression, unit, span)?;
        let amount = match form {
            Dependent::Filled => Amount::Bits,
            Dependent::Counted | Dependent::Optional => Amount::Items,
        };
        marker::count(&mut self.markers, amount, marker, &computer, computed)?;
        Ok(())
    }

    // Appends the type of a condition.
    fn shows(
        &mut self,
        places: &'a [Place<'a>],
        marker: Marker<'a>,
        expression: &Expression<'a>,
        span: Span,
    ) -> Result<(), Stop<'a>> {
        let mut computer = Computer::new(self.arena, places, self.constants);
        let computed = condition(&mut computer, expression, span)?;
        marker::condition(&mut self.markers, marker, &computer, computed)?;
        Ok(())
    }

    // Appends the type of a check, that a field of this name is what is computed or that this is
    // so.
    fn checks(
        &mut self,
        places: &'a [Place<'a>],
        marker: Marker<'a>,
        expression: &Expression<'a>,
        span: Span,
        is_equal: bool,
    ) -> Result<(), Stop<'a>> {
        let mut computer = Computer::new(self.arena, places, self.constants);
        let computed = if is_equal {
            equal(&mut computer, marker.field, expression, span)?
        } else {
            condition(&mut computer, expression, span)?
        };
        marker::check(&mut self.markers, marker, &computer, computed)?;
        Ok(())
    }

    // Complains of a number that the field is too narrow for.
    fn may_equal(&self, field: &Field<'a>, expression: &Expression<'a>) -> Result<(), Stop<'a>> {
        let bits = match (field.bits, number_kind(field)) {
            (None, Some(kind)) => bits_of(kind),
            (bits, _) => bits,
        };
        let (Some(bits), Some(number)) = (bits, literal(expression, self.constants)) else {
            return Ok(());
        };
        if bits >= 64 || number >> bits == 0 {
            return Ok(());
        }
        let message = self.arena.print(format_args!(
            "{number} does not fit a field of {bits} bits"
        ))?;
        Stop::wrong(field.span, message, "write a smaller number, or more bits")
    }

    // A check of the last part, and of those in front that it names.
    fn assert(
        &mut self,
        field: &Field<'a>,
        name: &'a str,
        expression: &Expression<'a>,
        is_equal: bool,
    ) -> Result<(), Stop<'a>> {
        if is_equal {
            self.may_equal(field, expression)?;
        }
        let word = if is_equal { "Value" } else { "Check" };
        let mut head = self.head(expression, true)?;
        let marker = self.marked(&mut head, name, word)?;
        let places = head.fields.places;
        self.checks(places, marker, expression, field.span, is_equal)?;
        let part = asserted(self.arena, self.owner, head, marker.name)?;
        Ok(self.push(part, marker)?)
    }
}

// Complains of a field that the record does not keep, or of the one after it.
fn no_count<'a, T>(field: &Field<'a>) -> Result<T, Stop<'a>> {
    Stop::wrong(
        field.span,
        "a field that the record does not keep, and that does not count the list after it",
        "write `temp, temp_value = \"LIST.len() as u8\"`, and then the list with this `count`",
    )
}

// What a count computes, or a size in units of so many bits.
fn counted<'a>(
    computer: &mut Computer<'_, 'a>,
    expression: &Expression<'a>,
    unit: u64,
    span: Span,
) -> Result<Computed<'a>, Stop<'a>> {
    let computed = computer.value(expression)?;
    if !computed.is_number() {
        return Stop::wrong(span, "a count that is no number", "write a number");
    }
    if unit <= 1 {
        return Ok(computed);
    }
    let unit = computer.number(unit)?;
    computer.both(Operator::Times, computed, unit, span)
}

/// What a condition computes.
pub(crate) fn condition<'a>(
    computer: &mut Computer<'_, 'a>,
    expression: &Expression<'a>,
    span: Span,
) -> Result<Computed<'a>, Stop<'a>> {
    let computed = computer.value(expression)?;
    truth(computer, computed, span)
}

// What the condition computes that a field of this name is what is computed.
fn equal<'a>(
    computer: &mut Computer<'_, 'a>,
    field: &str,
    expression: &Expression<'a>,
    span: Span,
) -> Result<Computed<'a>, Stop<'a>> {
    let left = computer.name(field, span)?;
    let right = computer.value(expression)?;
    let computed = computer.both(Operator::Equal, left, right, span)?;
    truth(computer, computed, span)
}

// Complains of a condition that is a number, or that may have no value.
fn truth<'a>(
    computer: &Computer<'_, 'a>,
    computed: Computed<'a>,
    span: Span,
) -> Result<Computed<'a>, Stop<'a>> {
    if computed.is_number() {
        return Stop::wrong(
            span,
            "a condition that is a number",
            "compare it with another number",
        );
    }
    if computer.guards.is_empty() {
        return Ok(computed);
    }
    Stop::wrong(
        span,
        "a difference, or a quotient by a field, in a condition",
        "write it as a sum or a product on the other side",
    )
}

/// The type of what a list or an option holds.
pub(crate) fn held_kind<'a>(arena: &'a Arena, field: &Field<'_>) -> Result<&'a str, AllocError> {
    let mut held = String::new(arena.alloc());
    if let Type::Of(_, inner) = &field.kind {
        item(&mut held, inner, field)?;
    }
    arena.keep(held.as_str())
}

/// The name of a field. That of a tuple is called by its place.
pub fn field_name<'a>(
    arena: &'a Arena,
    field: &Field<'a>,
    place: usize,
) -> Result<&'a str, AllocError> {
    match field.name {
        Some(name) => Ok(name.text),
        None => arena.print(format_args!("field_{place}")),
    }
}
