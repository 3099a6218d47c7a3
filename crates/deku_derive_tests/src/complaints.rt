//! Descriptions that are not taken, and what is said of them.

use deku_derive::making::{Made, make};
use std::alloc::{AllocError, Global};
use std::test::Fail;

// A description, and the lines that begin with the name of its file.
const ROWS: [(&str, &str); 37] = [
    ("struct A { a: u8", "1:17 expected `}`, found the end"),
    ("struct A { a u8 }", "1:14 expected `:`, found `u8`"),
    ("struct A { a: u8 b: u8 }", "1:18 expected `}`, found `b`"),
    (
        "struct A { a: , b: u8, 3: u8 }\nstrct A {}\nenum B { #[deku(id 1)] X }",
        "1:15 expected a type, found `,`
1:24 expected the name of a field, found `3`
2:1 expected `use`, `const`, `struct` or `enum`, found `strct`
3:6 an enum that does not say its id
3:20 expected `)`, found `1`",
    ),
    (
        "struct A { a: , #[deku(bits = 9)] b: u8, c: D, #[deku(count = \"a\")] d: Vec<u8> }
struct B { #[deku(temp, temp_value = \"1\")] a: u8 }",
        "1:15 expected a type, found `,`
1:24 a width of 9 bits for a type of 8
2:47 a field that the record does not keep, and that does not count the list after it",
    ),
    (
        "struct A<T> { a: T }",
        "1:9 a record with types or lifetimes of its own",
    ),
    (
        "struct A { a: HashMap<u8, u8> }",
        "1:15 a type of other types that is not supported",
    ),
    ("struct A { a: [u8] }", "1:18 a list that borrows its items"),
    (
        "struct A { a: u8 } /* no end",
        "1:20 a text or a comment that has no end",
    ),
    (
        "struct Ä { a: u8 }",
        "1:8 a character that is no part of a description",
    ),
    (
        "struct A { é: u8, ü: u8 }",
        "1:12 a character that is no part of a description
1:19 a character that is no part of a description",
    ),
    (
        "struct A { #[deku(cuont = 2)] a: u8 }",
        "1:19 unknown attribute `cuont`",
    ),
    (
        "struct A { #[deku(skip)] a: u8 }",
        "1:19 `skip` is not supported: a field without bits is not read back as it was written",
    ),
    (
        "struct A { #[deku(bits = 9)] a: u8 }",
        "1:19 a width of 9 bits for a type of 8",
    ),
    (
        "struct A { #[deku(bits = 9)] a: u8, #[deku(skip)] b: Vec<u8>, #[deku(bits = \"a\")] c: u8 }",
        "1:19 a width of 9 bits for a type of 8
1:44 `skip` is not supported: a field without bits is not read back as it was written
1:54 a `Vec` that does not say where it ends",
    ),
    (
        "struct A { #[deku(bits = 4, bytes = 1)] a: u8 }",
        "1:29 `bits` and `bytes` together",
    ),
    (
        "struct A { #[deku(bits = 4, bits = 5)] a: u8 }",
        "1:29 an attribute that is said twice",
    ),
    (
        "#[deku(endian = \"middle \")] struct A { a: u8 }",
        "1:8 an endian that is neither `little` nor `big`, nor a name",
    ),
    (
        "struct A { #[deku(bit_order = \"low\")] a: u8 }",
        "1:19 a bit order that is neither `msb` nor `lsb`",
    ),
    (
        "struct A { #[deku(bits = 4)] a: u8, #[deku(bit_order = \"lsb\", bits = 4)] b: u8 }",
        "1:77 a bit order that changes inside a byte",
    ),
    (
        "struct A { #[deku(count = \"n\")] a: Vec<u8>, n: u8 }",
        "1:28 a name that is no field in front of this one, and no constant",
    ),
    (
        "struct A { a: Vec<u8> }",
        "1:15 a `Vec` that does not say where it ends",
    ),
    (
        "struct A { a: Option<u8> }",
        "1:15 an `Option` without its condition",
    ),
    (
        "struct A { #[deku(count = 3)] a: u8 }",
        "1:34 a length of a type that is no `Vec`",
    ),
    (
        "struct A { a: f32, b: Other }",
        "1:15 a floating-point number is not supported
1:23 a type that is neither in this file nor in its `use` lines",
    ),
    (
        "struct A; struct A;",
        "1:8 a struct without fields has no bits
1:18 a second type of this name",
    ),
    (
        "struct A { a: u8, a: u8 }",
        "1:19 a second field, constant or value of this name",
    ),
    ("enum E { A }", "1:6 an enum that does not say its id"),
    (
        "#[deku(id_type = \"u8\")] enum E { #[deku(id = 1)] A, #[deku(id = 1)] B }",
        "1:69 an id that another kind has",
    ),
    (
        "#[deku(id_type = \"u8\", bits = 2)] enum E { #[deku(id = 4)] A }",
        "1:60 the id 4 does not fit 2 bits",
    ),
    (
        "#[deku(id_type = \"u8\")] enum E { #[deku(id_pat = \"_\")] A(u8), #[deku(id = 1)] B }",
        "1:79 a kind after the one for all other ids",
    ),
    (
        "#[deku(id_type = \"u8\")] enum E { #[deku(id_pat = \"1 | 2\")] A(u8) }",
        "1:41 a pattern of ids that is not supported",
    ),
    (
        "#[deku(id_type = \"u8\")] enum E { #[deku(id_pat = \"2..=6\")] A(u8), #[deku(id = 3)] B }",
        "1:83 an id that another kind has",
    ),
    (
        "struct A { #[deku(until = \"is_end\")] v: Vec<u8>, #[deku(until = 3)] w: Vec<u8>,
#[deku(until = \"|v: &u8, w: &u8| *v == *w\")] x: Vec<u8>, #[deku(until = \"|v| true\")] y: Vec<u8>,
#[deku(until = \"|v: &[u8; 2]| true\")] z: Vec<[u8; 2]> }",
        "1:27 an end that is no closure of one item
1:65 an end that is no closure of one item
2:16 an end that is no closure of one item
2:73 an end that is no closure of one item
3:16 an end that is no closure of one item",
    ),
    (
        "const C: u8 = 3; struct A { n: u8, #[deku(until = \"|v: &u16| *v == 0\")] v: Vec<u8>,
#[deku(until = \"|v: &u8| *v == n\")] w: Vec<u8>, #[deku(until = \"|C: &u8| C == 0\")] x: Vec<u8>,
#[deku(until = \"|v: &u8| *v ==\")] y: Vec<u8> }",
        "1:57 a type that is not that of the items
2:32 a name that is neither the item nor a constant
2:66 an item of the name of a constant
3:31 expected a field, a constant or a number, found the end",
    ),
    (
        "struct A { n: u8, #[deku(until = \"|v: &u8| *v == 0\", count = \"n\")] v: Vec<u8>,
#[deku(until = \"|v: &u8| *v == 0\", read_all)] w: Vec<u8>,
#[deku(until = \"|v: &u8| *v == 0\", bytes_read = \"3\")] x: Vec<u8>,
#[deku(until = \"|v: &u8| *v == 0\", cond = \"n == 1\")] y: Option<Vec<u8>>,
#[deku(until = \"|v: &u8| *v == 0\")] z: u8 }",
        "1:71 a `Vec` that says twice where it ends
2:50 a `Vec` that says twice where it ends
3:58 a `Vec` that says twice where it ends
4:57 a length of a type that is no `Vec`
5:40 a length of a type that is no `Vec`",
    ),
    (
        "struct A { n: u8,\n\t#[deku(count = \"*n +\")] a: Vec<u8> }",
        "2:22 expected a field, a constant or a number, found the end",
    ),
];

// Descriptions that deku takes and that have no module.
const UNPRINTED: [(&str, &str); 49] = [
    (
        "#[deku(id_type = \"u8\")] enum E {
         #[deku(id_pat = \"2..=6\")] A, #[deku(id_pat = \"_\")] B }",
        "2:36 a kind of several ids that does not keep its id
2:61 a kind of several ids that does not keep its id",
    ),
    ("struct A;", "1:8 a struct without fields has no bits"),
    (
        "const C: u8 = 16; struct A { #[deku(bits = 4, assert_eq = \"17\")] a: u8,
         #[deku(assert_eq = \"256\")] b: u8, #[deku(bits = 4, assert_eq = \"C\")] c: u8,
         #[deku(bits = 4, assert_eq = \"15\")] d: u8 }",
        "1:69 17 does not fit a field of 4 bits
2:40 256 does not fit a field of 8 bits
2:82 16 does not fit a field of 4 bits",
    ),
    (
        "struct A { #[deku(endian = \"other\")] a: u16 }",
        "1:41 an endian given by another value is not supported",
    ),
    (
        "#[deku(ctx = \"n: u8\")] struct A { a: u8 }",
        "1:31 a record that is given values is not supported",
    ),
    (
        "struct A { next: Box<A> }",
        "1:8 a record that holds itself is not supported",
    ),
    (
        "#[deku(id_type = \"u8\", magic = b\"A\")] enum E { #[deku(id = 1)] A }",
        "1:44 a magic in front of an enum is not supported",
    ),
    (
        "#[deku(id_type = \"u8\")] enum E {
         #[deku(id = 1)] A { n: u8, #[deku(read_all)] v: Vec<u8> } }",
        "2:58 a list up to the end of the input, in a kind of an enum, is not supported",
    ),
    (
        "struct A { #[deku(count = \"3\")] v: Vec<u8> }",
        "1:36 a list or an option with no field in front",
    ),
    (
        "struct A { n: u8, #[deku(count = \"n & 3\")] v: Vec<u8> }",
        "1:39 an operator on the bits of a number is not supported",
    ),
    (
        "struct A { n: u64, #[deku(count = \"n * 2\")] v: Vec<u8> }",
        "1:40 a number that may be larger than 64 bits hold, or none",
    ),
    (
        "struct A { n: i8, #[deku(count = \"n\")] v: Vec<u8> }",
        "1:35 a field in an expression that is no number from 0 and no truth value",
    ),
    (
        "struct A { n: u8, #[deku(count = \"n == 1\")] v: Vec<u8> }",
        "1:48 a count that is no number",
    ),
    (
        "struct A { n: u8, #[deku(cond = \"n\")] v: Option<u8> }",
        "1:42 a condition that is a number",
    ),
    (
        "struct A { n: u8, #[deku(cond = \"n - 1 == 2\")] v: Option<u8> }",
        "1:51 a difference, or a quotient by a field, in a condition",
    ),
    (
        "struct A { n: u16, #[deku(count = \"n as u8\")] v: Vec<u8> }",
        "1:41 a type that does not hold the number",
    ),
    (
        "struct A { n: u8, #[deku(bytes_read = \"n == 1\")] v: Vec<u8> }",
        "1:53 a count that is no number",
    ),
    (
        "struct A { #[deku(until = \"|v: &u8| *v\")] v: Vec<u8> }",
        "1:46 a condition that is a number",
    ),
    (
        "struct A { #[deku(until = \"|v: &u8| 5 - *v == 0\")] v: Vec<u8> }",
        "1:55 a difference, or a quotient by a field, in a condition",
    ),
    (
        "struct A { #[deku(until = \"|v: &i8| *v == 0\")] v: Vec<i8> }",
        "1:38 a field in an expression that is no number from 0 and no truth value",
    ),
    (
        "struct A { a: u8, item: u8, b: i8 } struct M(u8); struct B { a: u8,
#[deku(until = \"|v: &A| *v == 0\")] v: Vec<A>, #[deku(until = \"|v: &A| v.b == 0\")] w: Vec<A>,
#[deku(until = \"|v: &A| v.item == 0\")] x: Vec<A>, #[deku(until = \"|a: &A| a == 0\")] y: Vec<A>,
#[deku(until = \"|v: &C| v.a == 0\")] z: Vec<C>, #[deku(until = \"|v: &M| true\")] n: Vec<M>,
#[deku(until = \"|v: &u8| v.a == 0\")] m: Vec<u8> } struct C { a: u8 }",
        "2:26 a record in an expression
2:73 a field in an expression that is no number from 0 and no truth value
3:27 a name that is no field in front of this one
3:75 a record in an expression
4:22 items that are no numbers and no structs in front of this one
4:69 items that are no numbers and no structs in front of this one
5:26 a field of a field in an expression",
    ),
    (
        "struct A { #[deku(until = \"|parts: &u8| *parts == 0\")] v: Vec<u8> }",
        "1:29 an item of a name that the module has already",
    ),
    (
        "struct A { #[deku(until = \"|v: &u8| *v == 0\", assert = \"true\")] v: Vec<u8> }",
        "1:68 a check of a list or an option is not supported",
    ),
    (
        "struct A { #[deku(until = \"|v: &u8| *v == 0\", temp)] v: Vec<u8>, n: u8 }",
        "1:57 a field that the record does not keep, and that does not count the list after it",
    ),
    (
        "#[deku(id_type = \"u8\")]
enum A { #[deku(id = 1)] B { f: bool, n: u8, #[deku(count = \"n\")] v: Vec<u8>,
#[deku(cond = \"f\")] o: Option<u8>, z: u8 } }",
        "3:39 a kind with two lists or options, or one of them and a number with a sign",
    ),
    (
        "#[deku(id_type = \"u8\")]
enum A { #[deku(id = 1)] B { n: u8, #[deku(count = \"n\")] v: Vec<u8>, s: i8 } }",
        "2:73 a kind with two lists or options, or one of them and a number with a sign",
    ),
    (
        "struct A { n: u8, #[deku(count = \"n\")] v: Vec<u8>, #[deku(count = \"n\")] w: Vec<u8>, z: u8 }
struct B { n: u8, #[deku(count = \"n\")] v: Vec<u8>, #[deku(count = \"n\")] w: Vec<u8>, z: u8 }",
        "2:8 a second type that needs a file of proofs",
    ),
    (
        "struct A { #[deku(read_all)] v: Vec<u8>, w: u8 }",
        "1:45 a field after a list up to the end of the input",
    ),
    (
        "struct A { #[deku(temp, temp_value = \"1\")] n: u8 }",
        "1:47 a field that the record does not keep, and that does not count the list after it",
    ),
    (
        "struct A { #[deku(temp, temp_value = \"v.len() as u8\")] n: u8, a: u8 }",
        "1:66 a field that the record does not keep, and that does not count the list after it",
    ),
    (
        "struct A { #[deku(temp, temp_value = \"v.len() as u16\")] n: u8,
#[deku(count = \"n\")] v: Vec<u8> }",
        "2:25 a field that the record does not keep, and that does not count the list after it",
    ),
    (
        "struct A { #[deku(temp, temp_value = \"v.len() as u128\")] n: u128 }",
        "1:61 a field that the record does not keep, and that does not count the list after it",
    ),
    (
        "struct A { #[deku(pad_bytes_before = \"200\")] n: u8 }",
        "1:49 a padding of more than 1024 bits",
    ),
    (
        "struct A { #[deku(temp)] n: u8, #[deku(count = \"n\")] v: Vec<u8> }",
        "1:29 a field that the record does not keep, and that does not count the list after it",
    ),
    (
        "struct A { #[deku(temp, temp_value = \"v.len() as u8\")] n: u8, a: u8,
#[deku(count = \"n\")] v: Vec<u8> }",
        "1:66 a field that the record does not keep, and that does not count the list after it
2:17 a name that is no field in front of this one",
    ),
    (
        "struct A {
#[deku(update = \"self.v.len() + 1\")] n: u8, #[deku(count = \"n\")] v: Vec<u8> }",
        "2:41 an update that is not the length of a list of the struct",
    ),
    (
        "struct A {
#[deku(update = \"self.w.len()\")] n: u8, #[deku(count = \"n\")] v: Vec<u8> }",
        "2:37 an update that is not the length of a list of the struct",
    ),
    (
        "struct A { #[deku(update = \"self.v.len()\")] n: i8, v: u8 }",
        "1:48 an update that is not the length of a list of the struct",
    ),
    (
        "struct A { #[deku(update = \"self.v.len()\")] n: u8, v: [u8; 2] }",
        "1:48 an update that is not the length of a list of the struct",
    ),
    (
        "#[deku(id_type = \"u8\")]
enum A { #[deku(id = 1)] B { #[deku(update = \"self.v.len()\")] n: u8 } }",
        "2:66 an update that is not the length of a list of the struct",
    ),
    (
        "struct A { n: u8, #[deku(bits = \"n\")] v: [u8; 2] }",
        "1:42 a width given by a field is supported only for one number",
    ),
    (
        "struct A { n: u8, #[deku(bits = \"n - 1\")] v: u8 }",
        "1:46 a width that is not one field",
    ),
    (
        "struct A { n: u8, m: u8, #[deku(bytes = \"n * m\")] v: u16 }",
        "1:54 a width that is not one field",
    ),
    (
        "const C: u8 = 4; struct A { #[deku(bits = \"C * 1\")] v: u8 }",
        "1:56 a width with no field in front",
    ),
    (
        "#[deku(magic = b\"123456789\")] struct A { n: u8 }",
        "1:38 a magic of no bytes, or of more than 8",
    ),
    (
        "struct A { #[deku(read_all)] v: Vec<u8> } struct B { a: A }",
        "1:57 a record up to the end of the input in another one is not supported",
    ),
    (
        "struct A { v: [Option<u8>; 2] }",
        "1:15 an option in another type is not supported",
    ),
    (
        "struct A { parts: u8, a: u16, A: u8 }",
        "1:12 a field of the name `parts`, which the module has already
1:31 a field of the name `A`, which the module has already",
    ),
    (
        "struct Be { a: u8 } struct A { n: u8, #[deku(count = \"n\")] v: Vec<u8> }
         struct AVCount { a: u8 } struct AParts { a: u8 }",
        "1:8 a name that the module has already
2:17 a name that the module has already
2:42 a name that the module has already",
    ),
];

// A struct that is written part by part.
const TWO_STEPS: &str =
    "struct A { n: u8, #[deku(count = \"n\")] v: Vec<u8>, #[deku(count = \"n\")] w: Vec<u8>, z: u8 }";

#[test]
fn complaints_have_places(rt: HostRuntime) -> Result<(), Fail> {
    for (text, wanted) in &ROWS {
        let said = said_of(rt.alloc(), text)?;
        assert_eq!(rt; said.as_str(), *wanted, "of {text}");
    }
    Ok(())
}

#[test]
fn descriptions_without_a_module(rt: HostRuntime) -> Result<(), Fail> {
    for (text, wanted) in &UNPRINTED {
        let said = said_of(rt.alloc(), text)?;
        assert_eq!(rt; said.as_str(), *wanted, "of {text}");
    }
    let said = said_of_unplaced(rt.alloc(), "#[deku(id_type = \"u8\")] enum E { A }")?;
    assert_eq!(rt; said.as_str(), "1:30 an enum needs the name of its module");
    let said = said_of_unplaced(rt.alloc(), TWO_STEPS)?;
    let wanted = "1:8 a struct that is written part by part needs the name of its module";
    assert_eq!(rt; said.as_str(), wanted);
    Ok(())
}

/// The places and messages of what is said of a description, a line each.
pub(crate) fn said_of(alloc: Global, text: &str) -> Result<String, AllocError> {
    told_of(alloc, make(alloc, "a.rs", Some("samples.a"), text)?)
}

// The same if the module has no place.
fn said_of_unplaced(alloc: Global, text: &str) -> Result<String, AllocError> {
    told_of(alloc, make(alloc, "a.rs", None, text)?)
}

fn told_of(alloc: Global, made: Made) -> Result<String, AllocError> {
    let mut said = String::new(alloc);
    let Made::Wrong(told) = made else {
        return Ok(said);
    };
    for line in told.as_str().lines() {
        if let Some((place, message)) = line.split_once(": error: ") {
            if !said.is_empty() {
                said.push('\n')?;
            }
            said.push_str(place.strip_prefix("a.rs:").unwrap_or(place))?;
            said.push(' ')?;
            said.push_str(message)?;
        }
    }
    Ok(said)
}

#[test]
fn complaints_quote_the_line(rt: HostRuntime) -> Result<(), Fail> {
    let text = "struct A {\n    #[deku(bit = 2)]\n    a: u8,\n}\n";
    let wanted = "a.rs:2:12: error: unknown attribute `bit`
    #[deku(bit = 2)]
           ^
help: write `bits`
";
    match make(rt.alloc(), "a.rs", None, text)? {
        Made::Wrong(told) => assert_eq!(rt; told.as_str(), wanted),
        Made::Module(_) => assert!(rt; false, "it is taken"),
    }
    Ok(())
}
