//! Which attributes are taken, and the word that is nearest to one that is unknown.

use deku_attributes::table::{Owner, Verdict, judge};
use std::test::Fail;

const NEAREST: [(&str, &str); 5] = [
    ("cuont", "count"),
    ("bit", "bits"),
    ("byte_read", "bytes_read"),
    ("endianess", "endian"),
    ("pad_bit_before", "pad_bits_before"),
];

#[test]
fn unknown_words_have_a_nearest_one(rt: HostRuntime) -> Result<(), Fail> {
    for (name, wanted) in &NEAREST {
        match judge(name, Owner::Field) {
            Verdict::Unknown(nearest) => assert_eq!(rt; nearest, *wanted, "of {name}"),
            _ => assert!(rt; false, "{name} is known"),
        }
    }
    Ok(())
}

#[test]
fn words_are_taken_where_deku_has_them(rt: HostRuntime) -> Result<(), Fail> {
    assert!(rt; matches!(judge("count", Owner::Field), Verdict::Taken));
    assert!(rt; matches!(judge("count", Owner::Struct), Verdict::Unknown(_)));
    assert!(rt; matches!(judge("id_type", Owner::Enum), Verdict::Taken));
    assert!(rt; matches!(judge("map", Owner::Field), Verdict::Refused(_, _)));
    Ok(())
}
