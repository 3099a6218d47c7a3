//! Descriptions checked: what their attributes say together, and what is wrong with it.

use crate::model::{Endian, Form, Layout, Module, Order, Record};
use crate::reading::{Scope, said, text_in};
use crate::table::{Owner, Verdict, judge};
use deku_description::syntax;
use deku_description::syntax::{Attribute, Body, File, Head};
use deku_tokens::arena::Arena;
use deku_tokens::place::{Complaint, Span};
use deku_tokens::token::Token;
use std::alloc::AllocError;
use std::collections::BTreeSet;

/// How many fields, kinds or words of attributes one thing may have.
pub(crate) const LIMIT: usize = 256;

/// The records of a description, with what is wrong with what they say. A part that is wrong is
/// left out, or taken as if it were not said. If something is wrong with the form of the
/// description, names that are not in it are not complained of.
///
/// # Errors
///
/// `AllocError` if there is no memory.
///
/// ```text
/// let (file, complaints) = parse(&arena, "struct Point { #[deku(bits = 9)] x: u8 }")?;
/// check(&arena, text, file, true)?    // one complaint: `u8` has 8 bits
/// ```
pub fn check<'a>(
    arena: &'a Arena,
    text: &'a str,
    file: File<'a>,
    is_whole: bool,
) -> Result<(Module<'a>, Vec<Complaint<'a>>), AllocError> {
    let mut checker = Checker::new(arena, text, file, is_whole)?;
    checker.declare(file.records)?;
    let module = Module {
        docs: file.docs,
        uses: file.uses,
        constants: file.constants,
        records: checker.records(file.records)?,
    };
    let Checker { complaints, .. } = checker;
    Ok((module, complaints))
}

/// What is known of a file while its records are checked.
#[derive(Drop)]
pub(crate) struct Checker<'a> {
    pub(crate) arena: &'a Arena,
    pub(crate) text: &'a str,
    // Whether nothing is wrong with its form.
    is_whole: bool,
    types: BTreeSet<&'a str>,
    uses: &'a [&'a str],
    constants: Vec<&'a str>,
    pub(crate) complaints: Vec<Complaint<'a>>,
}

impl<'a> Checker<'a> {
    fn new(
        arena: &'a Arena,
        text: &'a str,
        file: File<'a>,
        is_whole: bool,
    ) -> Result<Checker<'a>, AllocError> {
        let alloc = arena.alloc();
        let mut constants = Vec::new(alloc);
        for constant in file.constants {
            constants.push(constant.name.text)?;
        }
        Ok(Checker {
            arena,
            text,
            is_whole,
            types: BTreeSet::new(alloc),
            uses: file.uses,
            constants,
            complaints: Vec::new(alloc),
        })
    }

    /// Notes what is wrong.
    pub(crate) fn complain(
        &mut self,
        span: Span,
        message: &'a str,
        help: &'a str,
    ) -> Result<(), AllocError> {
        self.note(Complaint {
            span,
            message,
            help,
        })
    }

    /// Notes a name that is not known, unless it may be one that was left out.
    pub(crate) fn complain_of_name(
        &mut self,
        span: Span,
        message: &'a str,
        help: &'a str,
    ) -> Result<(), AllocError> {
        if self.is_whole {
            self.complain(span, message, help)
        } else {
            Ok(())
        }
    }

    /// Notes what was wrong elsewhere.
    pub(crate) fn note(&mut self, complaint: Complaint<'a>) -> Result<(), AllocError> {
        self.complaints.push(complaint)?;
        Ok(())
    }

    // Notes the names of all records, and complains of those that are there already.
    fn declare(&mut self, records: &[syntax::Record<'a>]) -> Result<(), AllocError> {
        for record in records {
            if !self.types.insert(record.name.text)? {
                self.complain(
                    record.name.span,
                    "a second type of this name",
                    "give it another name",
                )?;
            }
        }
        Ok(())
    }

    fn records(&mut self, records: &[syntax::Record<'a>]) -> Result<&'a [Record<'a>], AllocError> {
        let mut checked = Vec::new(self.arena.alloc());
        for record in records {
            checked.push(self.record(*record)?)?;
        }
        self.arena.list(checked.as_slice())
    }

    fn record(&mut self, record: syntax::Record<'a>) -> Result<Record<'a>, AllocError> {
        let syntax::Record {
            head,
            name,
            body,
            is_whole,
        } = record;
        let owner = match body {
            Body::Fields(_) => Owner::Struct,
            Body::Kinds(_) => Owner::Enum,
        };
        self.head(&head, owner)?;
        let unsaid = Layout {
            endian: Endian::Unsaid,
            order: Order::Msb,
        };
        let layout = self.layout(&head, unsaid)?;
        let magic = self.magic(&head)?;
        let context = self.context(&head)?;
        let form = self.form(&record, layout, context)?;
        Ok(Record {
            name,
            docs: head.docs,
            layout,
            magic,
            context,
            form,
            is_whole,
        })
    }

    // What a record holds.
    fn form(
        &mut self,
        record: &syntax::Record<'a>,
        layout: Layout<'a>,
        context: Option<Token<'a>>,
    ) -> Result<Form<'a>, AllocError> {
        match record.body {
            Body::Fields(fields) => {
                let shape = fields.shape;
                let scope = self.scope(context)?;
                Ok(Form::Struct(shape, self.fields(fields, layout, scope)?))
            }
            Body::Kinds(kinds) => {
                let ids = self.ids(&record.head, layout, record.name)?;
                Ok(Form::Enum(ids, self.cases(kinds, layout, ids, context)?))
            }
        }
    }

    /// Complains of attributes that are not taken there, or said twice.
    pub(crate) fn head(&mut self, head: &Head<'a>, owner: Owner) -> Result<(), AllocError> {
        for (i, attribute) in head.attributes.iter().enumerate() {
            if i == LIMIT {
                return self.complain(
                    attribute.name.span,
                    "more than 256 attributes",
                    "leave some out",
                );
            }
            if is_among(head.attributes, i, *attribute) {
                self.complain(
                    attribute.name.span,
                    "an attribute that is said twice",
                    "leave one of them out",
                )?;
            }
            self.word(*attribute, owner)?;
        }
        Ok(())
    }

    // Complains of an attribute that is not taken there.
    fn word(&mut self, attribute: Attribute<'a>, owner: Owner) -> Result<(), AllocError> {
        let name = attribute.name.text;
        let span = attribute.name.span;
        match judge(name, owner) {
            Verdict::Taken => self.valued(attribute),
            Verdict::Refused(reason, instead) => {
                let message = self
                    .arena
                    .print(format_args!("`{name}` is not supported: {reason}"))?;
                self.complain(span, message, instead)
            }
            Verdict::Unknown(nearest) => {
                let message = self
                    .arena
                    .print(format_args!("unknown attribute `{name}`"))?;
                let help = self.arena.print(format_args!("write `{nearest}`"))?;
                self.complain(span, message, help)
            }
        }
    }

    // Complains of an attribute that needs a value and has none, or has one and needs none.
    fn valued(&mut self, attribute: Attribute<'a>) -> Result<(), AllocError> {
        let name = attribute.name.text;
        let is_flag = name == "read_all" || name == "temp";
        if is_flag && attribute.value.is_some() {
            return self.complain(
                attribute.name.span,
                "an attribute that takes no value",
                "leave the `=` and what follows it out",
            );
        }
        if !is_flag && attribute.value.is_none() {
            let help = self.arena.print(format_args!("write `{name} = ..`"))?;
            return self.complain(attribute.name.span, "an attribute without its value", help);
        }
        Ok(())
    }

    /// The endian and the bit order that attributes say, or else those around them.
    pub(crate) fn layout(
        &mut self,
        head: &Head<'a>,
        outer: Layout<'a>,
    ) -> Result<Layout<'a>, AllocError> {
        let endian = match said(head, "endian") {
            Some(attribute) => self.endian(attribute)?,
            None => outer.endian,
        };
        let order = match said(head, "bit_order") {
            Some(attribute) => self.order(attribute)?,
            None => outer.order,
        };
        Ok(Layout { endian, order })
    }

    /// The endian that an attribute says.
    pub(crate) fn endian(&mut self, attribute: Attribute<'a>) -> Result<Endian<'a>, AllocError> {
        match (attribute.value, text_in(attribute.value)) {
            (_, Some("little")) => return Ok(Endian::Little),
            (_, Some("big")) => return Ok(Endian::Big),
            (Some(value), Some(name)) if is_path(name) => return Ok(Endian::Named(value.token)),
            _ => {}
        }
        self.complain(
            attribute.name.span,
            "an endian that is neither `little` nor `big`, nor a name",
            "write `endian = \"big\"`",
        )?;
        Ok(Endian::Unsaid)
    }

    fn order(&mut self, attribute: Attribute<'a>) -> Result<Order, AllocError> {
        match text_in(attribute.value) {
            Some("msb") => return Ok(Order::Msb),
            Some("lsb") => return Ok(Order::Lsb),
            _ => {}
        }
        self.complain(
            attribute.name.span,
            "a bit order that is neither `msb` nor `lsb`",
            "write `bit_order = \"lsb\"`",
        )?;
        Ok(Order::Msb)
    }

    /// The bytes that attributes say are in front.
    pub(crate) fn magic(&mut self, head: &Head<'a>) -> Result<Option<&'a [u8]>, AllocError> {
        let Some(attribute) = said(head, "magic") else {
            return Ok(None);
        };
        if let Some(value) = attribute.value {
            let alloc = self.arena.alloc();
            if let Some(bytes) = deku_tokens::literal::bytes(alloc, value.token.text)? {
                return Ok(Some(self.arena.list(bytes.as_slice())?));
            }
        }
        self.complain(
            attribute.name.span,
            "a magic that is no literal of bytes",
            "write `magic = b\"..\"`",
        )?;
        Ok(None)
    }

    /// The text of the context that attributes say, with its quotes.
    pub(crate) fn context(&mut self, head: &Head<'a>) -> Result<Option<Token<'a>>, AllocError> {
        let Some(attribute) = said(head, "ctx") else {
            return Ok(None);
        };
        match (attribute.value, text_in(attribute.value)) {
            (Some(value), Some(_)) => Ok(Some(value.token)),
            _ => {
                self.complain(
                    attribute.name.span,
                    "a context that is no text",
                    "write `ctx = \"..\"`",
                )?;
                Ok(None)
            }
        }
    }

    /// The constants, and the values of a context.
    pub(crate) fn scope(&self, context: Option<Token<'a>>) -> Result<Scope<'a>, AllocError> {
        let mut names = Vec::new(self.arena.alloc());
        names.extend_from_slice(self.constants.as_slice())?;
        let text = match context {
            Some(token) => token.text,
            None => "",
        };
        for part in text.split(',') {
            if let Some((name, _)) = part.split_once(':') {
                names.push(name.trim_matches(['"', ' ']))?;
            }
        }
        Ok(Scope {
            names,
            is_open: false,
        })
    }

    /// Whether a type is in the file or in its `use` lines.
    pub(crate) fn is_type(&self, name: &'a str) -> bool {
        self.types.contains(&name) || self.uses.iter().any(|path| path.contains(name))
    }
}

// Whether one of the first attributes has the name of this one.
fn is_among(attributes: &[Attribute<'_>], count: usize, attribute: Attribute<'_>) -> bool {
    for earlier in attributes.iter().take(count) {
        if earlier.name.text == attribute.name.text {
            return true;
        }
    }
    false
}

// Whether a text is a name, or names with `::` between them.
fn is_path(text: &str) -> bool {
    !text.is_empty()
        && text.bytes().all(|byte| byte.is_ascii_alphanumeric()
            || byte == b'_'
            || byte == b':'
            || byte == b'*')
}
