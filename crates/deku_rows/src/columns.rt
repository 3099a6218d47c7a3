//! The fields of a record, each with its name.

use deku::DekuError;
use deku_fields::Field;
use deku_picture::parse_named;
use deku_plan::Plan;
use std::alloc::{AllocError, AllocFailed, Global};
use std::io::ErrorKind;

/// The fields of a record, each with its name. A field without a name is named by its number, from
/// 1 on.
#[derive(Drop)]
pub struct Columns {
    names: Vec<String>,
    plan: Plan,
}

/// Why words make no columns.
#[derive(Debug, Drop, PartialEq)]
pub enum NoColumns<'a> {
    /// This word names no field.
    NoField(&'a str),
    /// This word has the name of one before it.
    SameName(&'a str),
    /// The fields have no bits, so that no record would be the last.
    NoBits,
    /// A field's layout is rejected, a `usize` cannot count the bits, or there is no memory.
    Fault(DekuError),
}

impl<'a> From<DekuError> for NoColumns<'a> {
    fn from(fault: DekuError) -> Self {
        NoColumns::Fault(fault)
    }
}

impl<'a> From<AllocError> for NoColumns<'a> {
    fn from(_error: AllocError) -> Self {
        NoColumns::Fault(DekuError::Io(ErrorKind::OutOfMemory))
    }
}

impl<'a, T: Drop> From<AllocFailed<T>> for NoColumns<'a> {
    fn from(_error: AllocFailed<T>) -> Self {
        NoColumns::Fault(DekuError::Io(ErrorKind::OutOfMemory))
    }
}

impl Columns {
    /// The columns that words name, each `SPEC` or `NAME:SPEC`.
    ///
    /// It fails for the first word that names no field or has the name of one before it; if all
    /// fields together have no bits; and as `Plan::new` fails.
    ///
    /// ```text
    /// Columns::parse(alloc, &["kind:u8", "size:u16,big"])?
    /// ```
    pub fn parse<'a>(alloc: Global, words: &[&'a str]) -> Result<Columns, NoColumns<'a>> {
        let mut names: Vec<String> = Vec::new(alloc);
        let mut fields: Vec<Field> = Vec::new(alloc);
        for word in words {
            let Some(named) = parse_named(word) else {
                return Err(NoColumns::NoField(word));
            };
            let name = column_name(alloc, named.name, names.len())?;
            if is_among(names.as_slice(), name.as_str()) {
                return Err(NoColumns::SameName(word));
            }
            names.push(name)?;
            fields.push(named.field)?;
        }
        let plan = Plan::new(alloc, fields.as_slice())?;
        if plan.bits() == 0 {
            return Err(NoColumns::NoBits);
        }
        Ok(Columns { names, plan })
    }

    /// The names, in order.
    pub fn names(&self) -> &[String] {
        self.names.as_slice()
    }

    /// The plan of the fields.
    pub fn plan(&self) -> &Plan {
        &self.plan
    }
}

// The name of a column: its own, or its number.
fn column_name(alloc: Global, name: &str, before: usize) -> Result<String, AllocError> {
    if name.is_empty() {
        format!(in alloc; "{}", before as u128 + 1)
    } else {
        String::from_str(alloc, name)
    }
}

// Whether a name is one of these.
fn is_among(names: &[String], name: &str) -> bool {
    names.iter().any(|each| each.as_str() == name)
}
