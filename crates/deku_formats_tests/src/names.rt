//! A question about a name, as glibc's resolver sent it to a server on the loopback device.

use deku::prelude::{DekuError, NeedSize};
use deku_dns::header::Header;
use deku_dns::label::{Label, NameLast};
use deku_dns::query::Query;
use deku_dns::question::Question;
use deku_symmetry::{Symmetric, Until};
use deku_testing_values::records::{expect_record, expect_refusal};
use std::alloc::Global;
use std::test::Fail;

// Of `getent ahostsv4 www.example.com`: what is asked for is known, and glibc chose the
// identification.
const QUERY: [u8; 33] = [
    0x50, 0x65, 0x01, 0x00, 0x00, 0x01, 0x00, 0x00, 0x00, 0x00, 0x00, 0x00, 0x03, b'w', b'w', b'w',
    0x07, b'e', b'x', b'a', b'm', b'p', b'l', b'e', 0x03, b'c', b'o', b'm', 0x00, 0x00, 0x01, 0x00,
    0x01,
];

// What its header says: one question, and recursion is wanted.
fn header() -> Header {
    Header {
        identification: 0x5065,
        response: 0,
        opcode: 0,
        authoritative: 0,
        truncated: 0,
        recursion_desired: 1,
        recursion_available: 0,
        reserved: 0,
        response_code: 0,
        questions: 1,
        answers: 0,
        authorities: 0,
        additionals: 0,
    }
}

// A name of these labels, and no other.
fn name(alloc: Global, labels: &[&[u8]]) -> Result<Until<Label, NameLast>, Fail> {
    let mut items = Vec::new(alloc);
    for bytes in labels {
        let label = Label {
            length: bytes.len().min(63) as u8,
            bytes: bytes.to_vec(alloc)?,
        };
        items.push(label)?;
    }
    Ok(Until::new(items))
}

#[test]
fn a_question(rt: HostRuntime) -> Result<(), Fail> {
    let query = Query {
        header: header(),
        question: Question {
            name: name(rt.alloc(), &[b"www", b"example", b"com", b""])?,
            kind: 1,
            class: 1,
        },
    };
    expect_record(rt.alloc(), &query, &QUERY)
}

// A pointer in the place of a label, a length of 64, a name without its end, and one without its
// class; and what refuses them after how many bits.
#[test]
fn names_refused(rt: HostRuntime) -> Result<(), Fail> {
    let no_label = DekuError::Parse("head without a count");
    let rows: [(&[u8], DekuError, usize); 4] = [
        (&[0x01, b'a', 0xC0, 0x0C], no_label, 24),
        (&[0x40, b'a'], no_label, 8),
        (&[0x01, b'a'], DekuError::Incomplete(NeedSize::new(8)), 16),
        (
            &[0x00, 0x00, 0x01, 0x00],
            DekuError::Incomplete(NeedSize::new(16)),
            24,
        ),
    ];
    for (bytes, refusal, bits) in rows {
        expect_refusal::<Question>(rt.alloc(), bytes, refusal, bits)?;
    }
    Ok(())
}

// Labels that make no name: none, none that is empty, and an empty one before the last.
const NO_NAMES: [&[&[u8]]; 3] = [&[], &[b"com"], &[b"", b"com", b""]];

#[test]
fn no_names(rt: HostRuntime) -> Result<(), Fail> {
    for labels in NO_NAMES {
        let answer = name(rt.alloc(), labels)?.pack(rt.alloc(), ());
        assert!(&rt;
            answer == Err(DekuError::Assertion("items out of step with their end")),
            "{answer:?}"
        );
    }
    Ok(())
}
