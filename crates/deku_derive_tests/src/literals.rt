//! What literals are worth.

use deku_tokens::literal::{bytes, integer};
use std::test::Fail;

const INTEGERS: [(&str, Option<u64>); 14] = [
    ("0", Some(0)),
    ("42", Some(42)),
    ("1_000", Some(1000)),
    ("0x08_00u16", Some(2048)),
    ("0xFFu8", Some(255)),
    ("0b1001", Some(9)),
    ("0o17", Some(15)),
    ("7usize", Some(7)),
    ("18446744073709551615", Some(18446744073709551615)),
    ("18446744073709551616", None),
    ("0b2", None),
    ("0x", None),
    ("1u9", None),
    ("12z", None),
];

#[test]
fn integers_are_worth(rt: HostRuntime) -> Result<(), Fail> {
    for (text, worth) in &INTEGERS {
        assert_eq!(rt; integer(text), *worth, "of {text}");
    }
    Ok(())
}

const PNG: &str = r#"b"\x89PNG\r\n\x1a\n""#;

#[test]
fn bytes_have_escapes(rt: HostRuntime) -> Result<(), Fail> {
    let png = bytes(rt.alloc(), PNG)?.ok_or("no bytes")?;
    let wanted = [0x89, 0x50, 0x4E, 0x47, 0x0D, 0x0A, 0x1A, 0x0A];
    assert_eq!(rt; png.as_slice(), wanted.as_slice());
    let one = bytes(rt.alloc(), "b'\\''")?.ok_or("no byte")?;
    assert_eq!(rt; one.as_slice(), [0x27].as_slice());
    assert!(rt; bytes(rt.alloc(), "b\"\\q\"")?.is_none());
    assert!(rt; bytes(rt.alloc(), "\"text\"")?.is_none());
    Ok(())
}
