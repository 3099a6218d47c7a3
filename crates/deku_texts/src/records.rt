//! The records of a file: which of them are copied, and which contain themselves.

use crate::wrapping::wrapping_of;
use deku_attributes::model::{Attribute, Field, Form, Record};
use deku_attributes::reading::{address_bits, bits_of};
use deku_description::syntax::Type;
use std::alloc::{AllocError, Global};

/// The records of a file, and what is known of each.
#[derive(Drop)]
pub struct Records<'b, 'a> {
    list: &'b [Record<'a>],
    known: Vec<Known>,
}

// What is known of a record.
#[derive(Clone, Copy)]
struct Known {
    // Whether it owns no memory, so that it can be copied.
    is_copied: bool,
    // Whether no record that it is made of contains it.
    is_founded: bool,
}

impl<'b, 'a> Records<'b, 'a> {
    pub fn new(alloc: Global, list: &'b [Record<'a>]) -> Result<Self, AllocError> {
        let mut known = Vec::new(alloc);
        for _ in list {
            known.push(Known {
                is_copied: true,
                is_founded: false,
            })?;
        }
        let mut records = Records { list, known };
        for _ in list {
            records.known = records.again(alloc)?;
        }
        Ok(records)
    }

    // What is known of each record, from what was known of all.
    fn again(&self, alloc: Global) -> Result<Vec<Known>, AllocError> {
        let mut known = Vec::new(alloc);
        for record in self.list {
            known.push(match &record.form {
                Form::Struct(_, fields) => self.of_fields(fields),
                Form::Enum(_, cases) => {
                    let mut all = Known {
                        is_copied: true,
                        is_founded: true,
                    };
                    for case in *cases {
                        all = both(all, self.of_fields(case.fields));
                    }
                    all
                }
            })?;
        }
        Ok(known)
    }

    fn of_fields(&self, fields: &[Field<'a>]) -> Known {
        let mut all = Known {
            is_copied: true,
            is_founded: true,
        };
        for field in fields {
            let of_kind = self.of_kind(&field.kind, field);
            all = both(
                all,
                Known {
                    is_copied: self.is_copied(field),
                    is_founded: of_kind.is_founded,
                },
            );
        }
        all
    }

    // What is known of an item of this type in a field.
    fn of_kind(&self, kind: &Type<'a>, field: &Field<'a>) -> Known {
        match kind {
            Type::Name(name) => self.of_name(name.text, field),
            Type::Of(_, item) => Known {
                is_copied: false,
                is_founded: self.of_kind(item, field).is_founded,
            },
            Type::Array(item, _) => self.of_kind(item, field),
            Type::Tuple(parts) => {
                let mut all = Known {
                    is_copied: true,
                    is_founded: true,
                };
                for part in *parts {
                    all = both(all, self.of_kind(part, field));
                }
                all
            }
        }
    }

    fn of_name(&self, name: &str, field: &Field<'a>) -> Known {
        let whole = match bits_of(name) {
            Some(bits) => Some(bits),
            None => address_bits(name),
        };
        if let Some(whole) = whole {
            let is_bare = crate::wrapping::number(field.layout.order, field.bits, whole, true)
                .around
                .is_empty();
            return Known {
                is_copied: is_bare,
                is_founded: true,
            };
        }
        match self.place(name) {
            Some(place) => match self.known.get(place) {
                Some(known) => *known,
                None => UNKNOWN,
            },
            None => UNKNOWN,
        }
    }

    // Which of the records has a name.
    fn place(&self, name: &str) -> Option<usize> {
        self.list.iter().position(|record| record.name.text == name)
    }

    /// Whether a field owns no memory.
    pub fn is_copied(&self, field: &Field<'a>) -> bool {
        !wrapping_of(field).around.is_empty() || self.of_kind(&field.kind, field).is_copied
    }

    /// Whether a record owns no memory.
    pub fn is_copied_record(&self, name: &str) -> bool {
        self.of_record(name).is_copied
    }

    /// Whether a record is made of records of the file, none of which contains it.
    pub fn is_founded(&self, name: &str) -> bool {
        self.of_record(name).is_founded
    }

    fn of_record(&self, name: &str) -> Known {
        match self.place(name) {
            Some(place) => match self.known.get(place) {
                Some(known) => *known,
                None => UNKNOWN,
            },
            None => UNKNOWN,
        }
    }

    /// Whether a record takes the rest of the input.
    pub fn is_open(&self, name: &str) -> bool {
        let Some(record) = self.record(name) else {
            return false;
        };
        match &record.form {
            Form::Struct(_, fields) => fields.iter().any(takes_rest),
            Form::Enum(_, _) => false,
        }
    }

    /// The record of a name.
    pub fn record(&self, name: &str) -> Option<&'b Record<'a>> {
        self.list.get(self.place(name)?)
    }

    /// Whether the file has a record of this name.
    pub fn has(&self, name: &str) -> bool {
        self.place(name).is_some()
    }
}

// Whether a field takes the rest of the input.
fn takes_rest(field: &Field<'_>) -> bool {
    field
        .attributes
        .iter()
        .any(|attribute| matches!(attribute, Attribute::ReadAll))
}

// What is known of a text, which holds memory.
const UNKNOWN: Known = Known {
    is_copied: false,
    is_founded: true,
};

fn both(one: Known, other: Known) -> Known {
    Known {
        is_copied: one.is_copied && other.is_copied,
        is_founded: one.is_founded && other.is_founded,
    }
}
