//! Descriptions that are taken.

use deku_attributes::check;
use deku_description::parse;
use deku_tokens::arena::Arena;
use deku_tokens::place::{first_difference, told};
use std::alloc::{AllocError, Global};
use std::test::Fail;

const TAKEN: [(&str, &str); 11] = [
    (
        "numbers of every width",
        "struct A { a: u8, b: i16, c: u32, d: i64, e: u128, f: bool, g: usize }",
    ),
    (
        "attributes that say how bits lie",
        "#[deku(endian = \"big\", magic = b\"AB\")] struct A {
            #[deku(bits = 4)] a: u8, #[deku(bits = \"4\", endian = \"little\")] b: u8,
            #[deku(bytes = 3)] c: u32, #[deku(pad_bits_before = \"2\", bits = 6)] d: u8 }",
    ),
    (
        "lists, options and checks",
        "struct A { n: u8, #[deku(count = \"*n as usize * 2\")] items: Vec<u16>,
            #[deku(cond = \"*n > 3 && (n & 1) == 0\")] more: Option<u32>,
            #[deku(assert = \"*last <= 9 || !(*n == 1)\")] last: u8 }",
    ),
    (
        "kinds under an id",
        "#[derive(Debug)] #[deku(id_type = \"u8\", bits = 4)] enum E {
            #[deku(id = 1)] A(#[deku(bits = 4)] u8), #[deku(id = \"0x2\")] B { x: u16, },
            C = 3, #[deku(id_pat = \"_\")] D(u8) }",
    ),
    (
        "records in records, with comments",
        "//! Of points.\n/// A point.
         pub struct Point { /// across\n pub x: i16, pub(crate) y: i16 }
         /* and /* lines */ of them */ struct Line(Point, [Point; 2], (u8, Ipv4Addr));",
    ),
    (
        "what is not deku's is passed over",
        "#![allow(unused)] #[derive(Clone, DekuRead)] #[serde(rename = \"x\")] struct Unit;",
    ),
    (
        "functions and other items are passed over",
        "extern crate alloc; struct A { x: u8 } impl A { fn x(&self) -> [u8; 1] { [self.x] } }
         type B = A; mod c { fn d() {} } fn main() { let a = vec![1; 2]; assert_eq!(a, a); }
         let e = [0x01]; assert_eq!(e, [1]); macro_rules! f { () => {} }",
    ),
    (
        "constants and other files",
        "use super::point::Point; use std::ffi::CString; const N: usize = 0x4;
         struct A { at: Point, all: [u8; N],
         #[deku(count = \"N - 1\")] some: Vec<u8>, n: CString }",
    ),
    (
        "raw names",
        "struct A { r#type: u8, #[deku(count = \"type\")] x: Vec<u8> }",
    ),
    (
        "an endian from the context",
        "#[deku(endian = \"endian\", ctx = \"endian: deku::ctx::Endian, n: u8\")]
         struct A { a: u16, #[deku(count = \"n\")] b: Vec<u8> }",
    ),
    (
        "an id from the context",
        "#[deku(ctx = \"kind: u8, version: u8\", id = \"kind\")]
         enum E { #[deku(id = 1)] A(u8), #[deku(id_pat = \"_\")] B }
         struct A { kind: u8, #[deku(ctx = \"*kind, 4\")] e: E }",
    ),
];

#[test]
fn descriptions_are_taken(rt: HostRuntime) -> Result<(), Fail> {
    for (name, text) in &TAKEN {
        let said = said_of(rt.alloc(), text)?;
        assert_eq!(rt; said.as_str(), "", "{name}");
    }
    Ok(())
}

// What is said of the form and of the attributes of a description.
fn said_of(alloc: Global, text: &str) -> Result<String, AllocError> {
    let arena = Arena::new(alloc);
    let (file, complaints) = parse(&arena, text)?;
    if !complaints.is_empty() {
        return told(alloc, "a.rs", text, complaints.as_slice());
    }
    let (_, complaints) = check(&arena, text, file, true)?;
    told(alloc, "a.rs", text, complaints.as_slice())
}

#[test]
fn texts_differ_in_a_line(rt: HostRuntime) {
    assert_eq!(rt; first_difference("a\nb\n", "a\nb\n"), None);
    assert_eq!(rt; first_difference("a\nb\n", "a\nc\n"), Some(2));
    assert_eq!(rt; first_difference("", "a\n"), Some(1));
    assert_eq!(rt; first_difference("a\n", "a\nb\n"), Some(2));
}
