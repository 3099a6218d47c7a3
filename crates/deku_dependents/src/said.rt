//! What the attributes of one field say.

use deku_attributes::model::{Attribute, Field};
use deku_description::syntax::{Closure, Expression};
use deku_markers::marker::Unit;
use deku_tokens::token::Token;

/// What the attributes of one field say.
#[derive(Drop)]
pub(crate) struct Said<'f, 'a> {
    pub(crate) magic: Option<&'a [u8]>,
    pub(crate) count: Option<&'f Expression<'a>>,
    /// How much the field takes, and how many bits each of it is.
    pub(crate) size: Option<(&'f Expression<'a>, u64)>,
    /// How many bits or bytes a number has.
    pub(crate) width: Option<(&'f Expression<'a>, Unit)>,
    pub(crate) end: Option<&'f Closure<'a>>,
    pub(crate) is_rest: bool,
    pub(crate) cond: Option<&'f Expression<'a>>,
    pub(crate) context: Option<Token<'a>>,
    pub(crate) assert: Option<&'f Expression<'a>>,
    pub(crate) equal: Option<&'f Expression<'a>>,
    pub(crate) before: u64,
    pub(crate) after: u64,
}

impl<'f, 'a> Said<'f, 'a> {
    /// What is said of a field.
    pub(crate) fn of(field: &'f Field<'a>) -> Said<'f, 'a> {
        let mut said = Said::nothing();
        for attribute in field.attributes {
            said.hears(attribute);
        }
        said
    }

    // What no attributes say.
    fn nothing() -> Said<'f, 'a> {
        Said {
            magic: None,
            count: None,
            size: None,
            width: None,
            end: None,
            is_rest: false,
            cond: None,
            context: None,
            assert: None,
            equal: None,
            before: 0,
            after: 0,
        }
    }

    // Notes what an attribute says. `temp` is looked at before.
    fn hears(&mut self, attribute: &'f Attribute<'a>) {
        match attribute {
            Attribute::Magic(bytes) => self.magic = Some(*bytes),
            Attribute::Count(expression) => self.count = Some(expression),
            Attribute::BitsRead(expression) => self.size = Some((expression, 1)),
            Attribute::BytesRead(expression) => self.size = Some((expression, 8)),
            Attribute::Until(closure) => self.end = Some(closure),
            Attribute::ReadAll => self.is_rest = true,
            Attribute::Cond(expression) => self.cond = Some(expression),
            Attribute::Context(token) => self.context = Some(*token),
            Attribute::Assert(expression) => self.assert = Some(expression),
            Attribute::AssertEq(expression) => self.equal = Some(expression),
            Attribute::PadBefore(bits) => self.before = *bits,
            Attribute::PadAfter(bits) => self.after = *bits,
            Attribute::Bits(expression) => self.width = Some((expression, Unit::Bits)),
            Attribute::Bytes(expression) => self.width = Some((expression, Unit::Bytes)),
            Attribute::Update(_) | Attribute::Temp | Attribute::TempValue(_) => {}
        }
    }

    /// Whether the field depends on those in front, or ends by itself: a list or an option.
    pub(crate) fn is_dependent(&self) -> bool {
        self.count.is_some()
            || self.size.is_some()
            || self.cond.is_some()
            || self.end.is_some()
            || self.is_rest
    }

    /// Whether the field is checked.
    pub(crate) fn is_checked(&self) -> bool {
        self.assert.is_some() || self.equal.is_some()
    }
}
