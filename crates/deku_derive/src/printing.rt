//! Modules, as they are printed.

use crate::enums;
use crate::enums::Built;
use crate::imports::imports;
use deku_attributes::given::{given, is_given};
use deku_attributes::model::{Case, Field, Form, Id, IdSource, Ids, Module, Record};
use deku_dependents::building::{Builder, field_name};
use deku_description::syntax::{Constant, Shape, Type};
use deku_markers::marker::zeros;
use deku_record_parts::part::{Owner, Place};
use deku_record_parts::whole::Whole;
use deku_structs::structs::docs;
use deku_structs::{steps, structs};
use deku_texts::document::joined;
use deku_texts::records::Records;
use deku_texts::template::fill;
use deku_texts::words;
use deku_tokens::arena::Arena;
use deku_tokens::place::Complaint;
use deku_tokens::token::Token;
use std::alloc::AllocError;
use std::fmt::Write as _;

/// A module while it is printed.
#[derive(Drop)]
struct Printer<'b, 'a> {
    arena: &'a Arena,
    records: &'b Records<'b, 'a>,
    constants: &'b [Constant<'a>],
    out: String,
    // What proves how one of its types is written, and the name of that type.
    answers: String,
    proved: &'a str,
    // The names of its types.
    names: Vec<&'a str>,
    complaints: Vec<Complaint<'a>>,
    // The structs in front, and where their fields are in their parts.
    structs: Vec<(&'a str, &'a [Place<'a>])>,
    is_for_c: bool,
}

/// What is asked for besides the records.
#[derive(Clone, Copy)]
pub struct Asked<'t> {
    /// The name of the description, for the comment of the module.
    pub file: &'t str,
    /// The path of the module, by which it names the kinds of an enum.
    pub path: Option<&'t str>,
    /// The functions that C calls, which end the module.
    pub exports: Option<&'t str>,
}

/// What is printed of a description.
#[derive(Drop)]
pub struct Printed<'a> {
    /// The module.
    pub module: String,
    /// What proves how one of its types is written. It is empty if none needs it.
    pub answers: String,
    /// What prevents it.
    pub complaints: Vec<Complaint<'a>>,
}

/// The module of checked records, with what prevents it.
///
/// # Errors
///
/// `AllocError` if there is no memory.
///
/// ```text
/// print(&arena, asked, &module)?    // //! Printed by `derive` from ..
/// ```
pub fn print<'a>(
    arena: &'a Arena,
    asked: Asked<'_>,
    module: &Module<'a>,
) -> Result<Printed<'a>, AllocError> {
    let records = Records::new(arena.alloc(), module.records)?;
    let mut printer = Printer::new(arena, &records, module.constants);
    printer.is_for_c = asked.exports.is_some();
    for record in module.records {
        printer.record(record, asked.path)?;
    }
    let Printer {
        mut out,
        answers,
        proved,
        complaints,
        ..
    } = printer;
    out.push_str(asked.exports.unwrap_or(""))?;
    let module = text_of(arena, asked, module, proved, out.as_str())?;
    Ok(Printed {
        module,
        answers,
        complaints,
    })
}

// The text of a module of these records.
fn text_of<'a>(
    arena: &'a Arena,
    asked: Asked<'_>,
    module: &Module<'_>,
    proved: &'a str,
    records: &str,
) -> Result<String, AllocError> {
    let mut text = String::new(arena.alloc());
    docs(&mut text, module.docs, "//!")?;
    if !module.docs.is_empty() {
        text.push_str("//!\n")?;
    }
    origin(arena, &mut text, asked, proved)?;
    items(arena, &mut text, asked.path, module, records)?;
    Ok(text)
}

// What to write where the name of the module is needed.
const NAMING: &'static str =
    "print it with `-o crates/NAME/src/MODULE.rt`, or with `--module NAME::MODULE`";

const ANSWERS: &str = "\
//! What `derive --answers` prints is in
//! `proofs/$module$$slash$$name$DekuWriterUnit/to_writer/Answers.antt`.
";

// Appends where a module comes from, and where the proof is of the type that needs one.
fn origin<'a>(
    arena: &'a Arena,
    text: &mut String,
    asked: Asked<'_>,
    proved: &'a str,
) -> Result<(), AllocError> {
    let name = asked.file.rsplit('/').next().unwrap_or(asked.file);
    let flag = if asked.exports.is_some() { " --c" } else { "" };
    writeln!(text, "//! Printed by `derive{flag}` from `{name}`.")?;
    if proved.is_empty() {
        return Ok(());
    }
    let path = asked.path.unwrap_or("");
    let path = arena.keep(path)?;
    let (_, module) = path.split_once('.').unwrap_or((path, ""));
    let module = module.replace(arena.alloc(), ".", "/")?;
    let module = arena.keep(module.as_str())?;
    let slash = if module.is_empty() { "" } else { "/" };
    let words = [("module", module), ("slash", slash), ("name", proved)];
    fill(text, ANSWERS, &words)
}

// Appends the imports and the items of a module, of which these are the records.
fn items(
    arena: &Arena,
    text: &mut String,
    path: Option<&str>,
    module: &Module<'_>,
    records: &str,
) -> Result<(), AllocError> {
    let mut body = String::new(arena.alloc());
    constants(&mut body, module.constants)?;
    if records.contains(", Zeros>") {
        zeros(&mut body, "Msb")?;
    }
    if records.contains("LowZeros>") {
        zeros(&mut body, "Lsb")?;
    }
    body.push_str(records)?;
    imports(arena, text, module, path, body.as_str())?;
    text.push_str(body.as_str())
}

fn constants(out: &mut String, constants: &[Constant<'_>]) -> Result<(), AllocError> {
    for constant in constants {
        let name = constant.name.text;
        let kind = constant.kind.text;
        let value = constant.value;
        writeln!(out, "\npub const {name}: {kind} = {value};")?;
    }
    Ok(())
}

// Whether a record may use a value that it is given: one whose name does not begin with `_`.
fn is_used(context: Token<'_>) -> bool {
    let values = context.text.trim_matches(['"', ' ']);
    !values.split(',').all(|value| value.trim().starts_with('_'))
}

impl<'b, 'a> Printer<'b, 'a> {
    // Of these records and constants, with nothing printed.
    fn new(
        arena: &'a Arena,
        records: &'b Records<'b, 'a>,
        constants: &'b [Constant<'a>],
    ) -> Printer<'b, 'a> {
        let alloc = arena.alloc();
        Printer {
            arena,
            records,
            constants,
            out: String::new(alloc),
            answers: String::new(alloc),
            proved: "",
            names: Vec::new(alloc),
            complaints: Vec::new(alloc),
            structs: Vec::new(alloc),
            is_for_c: false,
        }
    }

    // Notes what is wrong.
    fn complain(
        &mut self,
        name: Token<'a>,
        message: &'a str,
        help: &'a str,
    ) -> Result<(), AllocError> {
        self.complaints.push(Complaint {
            span: name.span,
            message,
            help,
        })?;
        Ok(())
    }

    // The parts of a struct.
    fn builder(
        &mut self,
        record: &Record<'a>,
        fields: &[Field<'a>],
    ) -> Result<Builder<'b, 'a>, AllocError> {
        let name = record.name.text;
        let owner = if self.records.is_copied_record(name) {
            Owner::Copied
        } else {
            Owner::Lent
        };
        let mut builder = Builder::new(self.arena, self.records, self.constants, name, owner);
        let alloc = self.arena.alloc();
        builder.structs = std::mem::replace(&mut self.structs, Vec::new(alloc));
        if let Some(bytes) = record.magic {
            let named = words::marker(self.arena, name, "", "Magic")?;
            let what = joined(self.arena, "magic of ", name)?;
            let order = record.layout.order;
            let added = builder.magic(bytes, named, what, order, record.name.span);
            builder.noted(added)?;
        }
        builder.fields(fields, 0)?;
        self.structs = std::mem::replace(&mut builder.structs, Vec::new(alloc));
        Ok(builder)
    }

    fn record(&mut self, record: &'a Record<'a>, path: Option<&str>) -> Result<(), AllocError> {
        let word = if is_given(record) { "Kinds" } else { "Parts" };
        self.declare(record.name, word)?;
        if !record.is_whole {
            return Ok(());
        }
        if record.context.is_some_and(is_used) && !is_given(record) {
            self.complain(
                record.name,
                "a record that is given values is not supported",
                "move the fields that need them into the record that has the values",
            )?;
        }
        if !self.records.is_founded(record.name.text) {
            self.complain(
                record.name,
                "a record that holds itself is not supported",
                "write its traits by hand",
            )?;
        }
        match &record.form {
            Form::Struct(shape, fields) if fields.is_empty() => {
                let _ = shape;
                self.complain(
                    record.name,
                    "a struct without fields has no bits",
                    "leave it out, or write `()` in its place",
                )
            }
            Form::Struct(_, _) => self.structure(record, path),
            Form::Enum(ids, cases) => self.enumeration(record, *ids, cases, path),
        }
    }

    // Notes the names of a record and of its parts, and complains of one that the module has
    // already.
    fn declare(&mut self, name: Token<'a>, word: &str) -> Result<(), AllocError> {
        let parts = words::marker(self.arena, name.text, "", word)?;
        let is_taken = self.has_name(name.text) || self.has_name(parts);
        if is_taken || words::is_imported(name.text) {
            self.complain(
                name,
                "a name that the module has already",
                "give it another name",
            )?;
        }
        self.names.push(name.text)?;
        self.names.push(parts)?;
        Ok(())
    }

    fn has_name(&self, name: &str) -> bool {
        self.names
            .iter()
            .any(|taken| taken.eq_ignore_ascii_case(name))
    }

    // Notes what a builder made.
    fn built(&mut self, record: &Record<'a>, builder: Builder<'b, 'a>) -> Result<(), AllocError> {
        let Builder {
            names,
            complaints,
            ..
        } = builder;
        for name in names {
            if self.has_name(name) {
                self.complain(
                    record.name,
                    "a record with a field whose type has the name of another one",
                    "give the field another name",
                )?;
            }
            self.names.push(name)?;
        }
        self.note(complaints)
    }

    // Notes complaints.
    fn note(&mut self, complaints: Vec<Complaint<'a>>) -> Result<(), AllocError> {
        for complaint in complaints {
            self.complaints.push(complaint)?;
        }
        Ok(())
    }

    fn structure(&mut self, record: &Record<'a>, path: Option<&str>) -> Result<(), AllocError> {
        let Form::Struct(shape, fields) = &record.form else {
            return Ok(());
        };
        let mut builder = self.builder(record, fields)?;
        structs::declaration(
            self.arena,
            &mut self.out,
            record,
            *shape,
            fields,
            builder.owner == Owner::Copied,
            self.is_for_c,
        )?;
        self.out.push_str(builder.markers.as_str())?;
        let whole = builder.whole()?;
        self.implementation(record, *shape, fields, builder.owner, whole, path)?;
        self.built(record, builder)
    }

    // Appends how a struct is read and written, and notes where its fields are in its parts.
    fn implementation(
        &mut self,
        record: &Record<'a>,
        shape: Shape,
        fields: &[Field<'a>],
        owner: Owner,
        whole: Whole<'a>,
        path: Option<&str>,
    ) -> Result<(), AllocError> {
        self.stepped(record, whole, path)?;
        structs::implementation(
            self.arena,
            &mut self.out,
            record,
            shape,
            fields,
            owner,
            whole,
            path,
        )?;
        if shape == Shape::Named {
            let places = whole.part.fields.places;
            self.structs.push((record.name.text, places))?;
        }
        Ok(())
    }

    // Notes what proves how a struct is written, if it is written part by part.
    fn stepped(
        &mut self,
        record: &Record<'a>,
        whole: Whole<'a>,
        path: Option<&str>,
    ) -> Result<(), AllocError> {
        if whole.steps.is_empty() {
            return Ok(());
        }
        self.has_proof(record)?;
        let Some(path) = path else {
            return self.complain(
                record.name,
                "a struct that is written part by part needs the name of its module",
                NAMING,
            );
        };
        let path = self.arena.keep(path)?;
        let name = record.name.text;
        steps::answers(self.arena, &mut self.answers, path, name, whole)
    }

    // Notes a type whose writing needs a proof. A module has one.
    fn has_proof(&mut self, record: &Record<'a>) -> Result<(), AllocError> {
        if !self.proved.is_empty() {
            self.complain(
                record.name,
                "a second type that needs a file of proofs",
                "write it in a file of its own",
            )?;
        }
        self.proved = record.name.text;
        Ok(())
    }

    fn enumeration(
        &mut self,
        record: &'a Record<'a>,
        ids: Ids<'a>,
        cases: &'a [Case<'a>],
        path: Option<&str>,
    ) -> Result<(), AllocError> {
        self.may_be_enum(record, ids, cases, path)?;
        let owner = self.kind_owner(record)?;
        let (kinds, markers) = self.kinds(record, ids, cases, owner)?;
        enums::declaration(self.arena, &mut self.out, record, kinds)?;
        self.out.push_str(markers)?;
        if let (true, Some(path)) = (owner.is_lent(), path) {
            enums::answers(&mut self.answers, path, record.name.text, kinds)?;
        }
        enums::implementation(self.arena, &mut self.out, record, ids, kinds)
    }

    // The kinds of an enum, and the markers of their fields.
    fn kinds(
        &mut self,
        record: &Record<'a>,
        ids: Ids<'a>,
        cases: &'a [Case<'a>],
        owner: Owner,
    ) -> Result<(&'a [Built<'a>], &'a str), AllocError> {
        let mut kinds = Vec::new(self.arena.alloc());
        let mut markers = String::new(self.arena.alloc());
        for case in cases {
            kinds.push(self.kind(record, ids, case, owner, &mut markers)?)?;
        }
        let arena = self.arena;
        Ok((arena.list(kinds.as_slice())?, arena.keep(markers.as_str())?))
    }

    // A kind of an enum. The markers of its fields are appended.
    fn kind(
        &mut self,
        record: &Record<'a>,
        ids: Ids<'a>,
        case: &'a Case<'a>,
        owner: Owner,
        markers: &mut String,
    ) -> Result<Built<'a>, AllocError> {
        let kept = self.kept(case, ids)?;
        let front = words::marker(self.arena, record.name.text, case.name.text, "")?;
        let mut builder = Builder::new(self.arena, self.records, self.constants, front, owner);
        builder.fields(case.fields, if kept.is_some() { 1 } else { 0 })?;
        let part = builder.whole()?.part;
        markers.push_str(builder.markers.as_str())?;
        self.built(record, builder)?;
        Ok(Built {
            case,
            kept,
            part,
            is_lent: owner.is_lent(),
        })
    }

    // What the fields of the kinds of an enum belong to. The type of the ids of kinds that hold
    // memory is noted.
    fn kind_owner(&mut self, record: &Record<'a>) -> Result<Owner, AllocError> {
        let name = record.name.text;
        if is_given(record) || self.records.is_copied_record(name) {
            return Ok(Owner::Kind);
        }
        let ids = words::marker(self.arena, name, "", "Ids")?;
        if self.has_name(ids) {
            self.complain(
                record.name,
                "an enum whose ids have the name of another type",
                "give it another name",
            )?;
        }
        self.has_proof(record)?;
        self.names.push(ids)?;
        Ok(Owner::LentKind)
    }

    // Complains of an enum that has no part.
    fn may_be_enum(
        &mut self,
        record: &Record<'a>,
        ids: Ids<'a>,
        cases: &[Case<'a>],
        path: Option<&str>,
    ) -> Result<(), AllocError> {
        let refused = match ids.source {
            IdSource::Context(id) => given(record.context, id).err(),
            IdSource::Front(_) => None,
        };
        let (message, help) = match refused {
            Some(refusal) => refusal,
            None if ids.bits > 64 => (
                "an id of more than 64 bits is not supported",
                "write an id of at most 64 bits",
            ),
            None if record.magic.is_some() => (
                "a magic in front of an enum is not supported",
                "write the magic on the field that holds the enum",
            ),
            None if cases.is_empty() => ("an enum without kinds has no values", "write a kind"),
            None if path.is_none() => ("an enum needs the name of its module", NAMING),
            None => return Ok(()),
        };
        self.complain(record.name, message, help)
    }

    // The field of a kind of several ids that keeps its id.
    fn kept(&mut self, case: &Case<'a>, ids: Ids<'a>) -> Result<Option<&'a str>, AllocError> {
        if matches!(case.id, Id::Number(_) | Id::Pattern) {
            return Ok(None);
        }
        if let (Some(field), IdSource::Front(kind)) = (case.fields.first(), ids.source) {
            let is_plain = field.bits.is_none() && field.attributes.is_empty();
            let is_id = match &field.kind {
                Type::Name(name) => name.is_name(kind),
                _ => false,
            };
            if is_plain && is_id {
                return Ok(Some(field_name(self.arena, field, 0)?));
            }
        }
        let (message, help) = match ids.source {
            IdSource::Front(_) => (
                "a kind of several ids that does not keep its id",
                "write a first field of the type of the id, without attributes",
            ),
            IdSource::Context(_) => (
                "a kind with several ids is not supported if a field has the id",
                "write a kind for each id",
            ),
        };
        self.complain(case.name, message, help)?;
        Ok(None)
    }
}
