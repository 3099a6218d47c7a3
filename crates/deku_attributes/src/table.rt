//! Which attributes deku has, and which of them have a part here.

/// What an attribute is in front of.
#[derive(Clone, Copy, PartialEq, Eq)]
pub enum Owner {
    /// A struct.
    Struct,
    /// An enum.
    Enum,
    /// A field.
    Field,
    /// A kind of an enum.
    Kind,
}

/// What is done with an attribute.
#[derive(Clone, Copy)]
pub enum Verdict {
    /// It is printed as a part.
    Taken,
    /// It has no part: why, and what to write instead.
    Refused(&'static str, &'static str),
    /// deku has no such attribute there: the most similar one that it has.
    Unknown(&'static str),
}

// The attributes that have a part, and where deku takes them: structs, enums, fields, kinds.
const TAKEN: [(&str, &str); 25] = [
    ("endian", "sef"),
    ("bit_order", "sef"),
    ("magic", "sef"),
    ("ctx", "sef"),
    ("id_type", "e"),
    ("id_endian", "e"),
    ("id", "ek"),
    ("id_pat", "k"),
    ("bits", "ef"),
    ("bytes", "ef"),
    ("assert", "f"),
    ("assert_eq", "f"),
    ("count", "f"),
    ("bits_read", "f"),
    ("bytes_read", "f"),
    ("until", "f"),
    ("read_all", "f"),
    ("cond", "f"),
    ("pad_bits_before", "f"),
    ("pad_bits_after", "f"),
    ("pad_bytes_before", "f"),
    ("pad_bytes_after", "f"),
    ("temp", "f"),
    ("temp_value", "f"),
    ("update", "f"),
];

// The attributes that have no part: where deku takes them, why, and what to write instead.
const REFUSED: [(&str, &str, &str, &str); 12] = [
    (
        "ctx_default",
        "se",
        "a record with a context has no bytes without one",
        "give the context where the record is a field",
    ),
    (
        "reader",
        "fk",
        "what a function of yours reads is not known here",
        "write the type of the field as a record, or its traits by hand",
    ),
    (
        "writer",
        "fk",
        "what a function of yours writes is not known here",
        "write the type of the field as a record, or its traits by hand",
    ),
    (
        "map",
        "f",
        "a function that turns one value into another may not be undone when it is written",
        "keep the field as it is read, and convert it in a method",
    ),
    (
        "skip",
        "f",
        "a field without bits is not read back as it was written",
        "leave the field out, and compute it in a method",
    ),
    (
        "default",
        "fk",
        "a value that is not read is not read back as it was written",
        "use `Option` with `cond`, which is `None` where the condition fails",
    ),
    (
        "seek_from_current",
        "sef",
        "a seek leaves the bits that follow",
        "use `pad_bytes_before`, or seek between two records",
    ),
    (
        "seek_from_end",
        "sef",
        "a seek leaves the bits that follow",
        "seek between two records",
    ),
    (
        "seek_from_start",
        "sef",
        "a seek leaves the bits that follow",
        "seek between two records",
    ),
    (
        "seek_rewind",
        "sef",
        "a seek leaves the bits that follow",
        "seek between two records",
    ),
    (
        "read_post_processing",
        "se",
        "what follows a read is not part of the record",
        "call it after the record is read",
    ),
    (
        "bound",
        "se",
        "a record takes no types of its own",
        "write a record for each type",
    ),
];

/// What is done with an attribute of this name there.
///
/// ```text
/// judge("count", Owner::Field)    // taken
/// judge("cuont", Owner::Field)    // unknown; `count` is most similar
/// ```
pub fn judge(name: &str, owner: Owner) -> Verdict {
    if is_taken(name, owner) {
        return Verdict::Taken;
    }
    for (word, owners, reason, instead) in &REFUSED {
        if *word == name && is_on(owners, owner) {
            return Verdict::Refused(reason, instead);
        }
    }
    Verdict::Unknown(nearest(name, owner))
}

fn is_taken(name: &str, owner: Owner) -> bool {
    TAKEN
        .iter()
        .any(|(word, owners)| *word == name && is_on(owners, owner))
}

fn is_on(owners: &str, owner: Owner) -> bool {
    owners.contains(match owner {
        Owner::Struct => 's',
        Owner::Enum => 'e',
        Owner::Field => 'f',
        Owner::Kind => 'k',
    })
}

// The attribute that is taken and has most in common with a name.
fn nearest(name: &str, owner: Owner) -> &'static str {
    let mut best = ("", 0);
    for (word, owners) in &TAKEN {
        let common = common(word.as_bytes(), name.as_bytes());
        if is_on(owners, owner) && common > best.1 {
            best = (*word, common);
        }
    }
    best.0
}

// How much two words have in common: twice the bytes at both ends that are the same, less the
// difference of their lengths, from 100.
fn common(a: &[u8], b: &[u8]) -> usize {
    let front = a.iter().zip(b.iter()).take_while(|(x, y)| x == y).count();
    let back = a
        .iter()
        .rev()
        .zip(b.iter().rev())
        .take_while(|(x, y)| x == y)
        .count();
    let same = front.saturating_add(back).saturating_mul(2);
    same.saturating_add(100)
        .saturating_sub(a.len().abs_diff(b.len()))
}
