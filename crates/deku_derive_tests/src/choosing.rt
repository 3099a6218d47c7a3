//! Enums whose id is a field of the record that holds them.

use crate::complaints::said_of;
use deku_derive::making::{Made, make};
use std::test::Fail;

// What is said of descriptions that have no module.
const REFUSED: [(&str, &str); 21] = [
    (
        "#[deku(ctx = \"k: u8\", id = \"k\", id_type = \"u8\", bits = 4)]
enum E { #[deku(id = 1)] A }",
        "1:33 `id` and `id_type` together
1:49 `id` and `bits` together",
    ),
    (
        "#[deku(ctx = \"k: u8\", id = \"k\")] enum E { #[deku(id = 256)] A }",
        "1:61 the id 256 does not fit 8 bits",
    ),
    (
        "#[deku(ctx = \"k: u8, n: u8\", id = \"k\")] enum E { #[deku(id = 1)] A }",
        "1:46 a `ctx` of several values is not supported",
    ),
    (
        "#[deku(ctx = \"u8\", id = \"k\")] enum E { #[deku(id = 1)] A }",
        "1:36 an id that is not the value of `ctx`",
    ),
    (
        "#[deku(id = \"k\")] enum E { #[deku(id = 1)] A }",
        "1:24 an id that is not the value of `ctx`",
    ),
    (
        "#[deku(ctx = \"k: u8\", id = \"n\")] enum E { #[deku(id = 1)] A }
struct S { k: u8, #[deku(ctx = \"*k\")] e: E }",
        "1:39 an id that is not the value of `ctx`",
    ),
    (
        "#[deku(ctx = \"k: i8\", id = \"k\")] enum E { #[deku(id = 1)] A }
#[deku(ctx = \"k: u128\", id = \"k\")] enum F { #[deku(id = 1)] A }",
        "1:39 an id that is no whole number from 0 of at most 64 bits is not supported
2:41 an id that is no whole number from 0 of at most 64 bits is not supported",
    ),
    (
        "#[deku(ctx = \"k: u8\", id_type = \"u8\")] enum E { #[deku(id = 1)] A }",
        "1:45 a record that is given values is not supported",
    ),
    (
        "#[deku(ctx = \"k: u8\", id = \"k\", magic = b\"A\")] enum E { #[deku(id = 1)] A }",
        "1:53 a magic in front of an enum is not supported",
    ),
    (
        "#[deku(ctx = \"k: u8\", id = \"k\")] enum E { #[deku(id = 1)] A,
#[deku(id_pat = \"2..=4\")] B(u8), #[deku(id_pat = \"_\")] C(u8) }",
        "2:27 a kind with several ids is not supported if a field has the id
2:56 a kind with several ids is not supported if a field has the id",
    ),
    (
        "#[deku(ctx = \"k: u8\", id = \"k\")]
enum E { #[deku(id = 1)] A { n: u8, #[deku(count = \"n\")] v: Vec<u8> } }",
        "2:61 memory in a kind of an enum whose id is a field is not supported",
    ),
    (
        "#[deku(ctx = \"k: u8\", id = \"k\")] enum E { #[deku(id = 1)] A(u8), #[deku(id = 2)] B }
struct S { k: u8, e: E }",
        "2:22 an enum whose id comes from a field, and no field that says it",
    ),
    (
        "#[deku(ctx = \"k: u8\", id = \"k\")] enum E { #[deku(id = 1)] A(u8), #[deku(id = 2)] B }
struct S { #[deku(ctx = \"*k\")] e: E, k: u8 }",
        "2:25 a name that is no field in front of this one",
    ),
    (
        "#[deku(ctx = \"k: u8\", id = \"k\")] enum E { #[deku(id = 1)] A(u8), #[deku(id = 2)] B }
const C: u8 = 1; struct S { k: u8, #[deku(ctx = \"*C\")] e: E, #[deku(ctx = \"*n\")] f: E }",
        "2:49 a name that is no field in front of this one
2:75 a name that is no field in front of this one",
    ),
    (
        "#[deku(ctx = \"k: u8\", id = \"k\")] enum E { #[deku(id = 1)] A(u8), #[deku(id = 2)] B }
struct S { k: u16, l: i8, #[deku(ctx = \"*k\")] e: E, #[deku(ctx = \"l\")] f: E }",
        "2:40 an id that is no `u8`, as its enum says
2:66 an id that is no `u8`, as its enum says",
    ),
    (
        "#[deku(ctx = \"k: u8\", id = \"k\")] enum E { #[deku(id = 1)] A(u8), #[deku(id = 2)] B }
struct S { k: u8, l: u8, #[deku(ctx = \"*k, *l\")] e: E, #[deku(ctx = \"*k + 1\")] f: E }",
        "2:39 a `ctx` that is not one field is not supported
2:69 a `ctx` that is not one field is not supported",
    ),
    (
        "#[deku(ctx = \"k: u8\", id = \"k\")] enum E { #[deku(id = 1)] A(u8), #[deku(id = 2)] B }
struct S { k: u8, #[deku(count = \"k\")] v: Vec<E>,
#[deku(ctx = \"*k\", cond = \"*k == 1\")] o: Option<E>,
#[deku(ctx = \"*k\")] a: [E; 2], t: (u8, E), b: Box<E> }",
        "2:43 an enum whose id comes from a field, in another type, is not supported
3:42 an enum whose id comes from a field, in another type, is not supported
4:24 an enum whose id comes from a field, in another type, is not supported
4:35 an enum whose id comes from a field, in another type, is not supported
4:47 an enum whose id comes from a field, in another type, is not supported",
    ),
    (
        "#[deku(ctx = \"k: u8\", id = \"k\")] enum E { #[deku(id = 1)] A(u8), #[deku(id = 2)] B }
#[deku(id_type = \"u8\")] enum F { #[deku(id = 1)] A { k: u8, #[deku(ctx = \"*k\")] e: E } }",
        "2:84 an enum whose id comes from a field, in a kind of an enum, is not supported",
    ),
    (
        "struct P { n: u8 }
struct S { k: u8, #[deku(ctx = \"*k\")] p: P }",
        "2:42 `ctx` is not supported: values that are given to a field",
    ),
    (
        "#[deku(ctx = \"k: u8\", id = \"k\")] enum E { #[deku(id = 1)] A(u8), #[deku(id = 2)] B }
struct EKinds { n: u8 } struct SEId { n: u8 } struct ChosenBy { n: u8 }
struct S { k: u8, #[deku(ctx = \"*k\")] e: E }",
        "2:8 a name that the module has already
2:54 a name that the module has already
3:8 a record with a field whose type has the name of another one",
    ),
    (
        "#[deku(ctx = \"k: u8\", id = \"k\")] enum E { #[deku(id = 1)] A(u8), #[deku(id = 2)] B }
struct S { k: u8, #[deku(ctx = \"*k\")] e: E, #[deku(count = \"e\")] v: Vec<u8> }",
        "2:61 a field in an expression that is no number from 0 and no truth value",
    ),
];

#[test]
fn choices_without_a_module(rt: HostRuntime) -> Result<(), Fail> {
    for (text, wanted) in &REFUSED {
        let said = said_of(rt.alloc(), text)?;
        assert_eq!(rt; said.as_str(), *wanted, "of {text}");
    }
    Ok(())
}

// Two kinds under an id that is elsewhere, in front of each description below.
const KINDS: &str = "#[deku(ctx = \"id: u16\", id = \"id\", endian = \"big\")]
enum E { #[deku(id = 1)] A { from: u8, to: u16 }, #[deku(id = 0x202)] B }
";

// Descriptions, and texts that their modules have.
const PRINTED: [(&str, &str); 6] = [
    (
        "",
        "
// The kinds of E, in their order.
type EKinds = Either<Kind<(u8, Be<u16>), 1>, Kind<(), 514>>;

impl FromParts for E {
    type Parts = EKinds;

    ghost parts_of = { elim [
      | e_kinds.A from to ↦ either.This (record { 0 = (from, be to) })
      | e_kinds.B ↦ either.Other (record { 0 = tt })
    ] };

    ghost record_of = { λ p. elim p [
      | either.This k ↦ e_kinds.A k.0.0 k.0.1.0
      | either.Other k ↦ e_kinds.B
    ] };

    fn from_parts(parts: Self::Parts) -> Self {
        match parts {
            Either::This(Kind((from, Be(to)))) => E::A { from, to },
            Either::Other(Kind(())) => E::B,
        }
    }

    ghost there = { elim [
      | e_kinds.A from to ↦ refl
      | e_kinds.B ↦ refl
    ] };
}

impl ToParts for E {
    fn parts(&self) -> Self::Parts {
        match self {
            E::A { from, to } => Either::This(Kind((*from, Be(*to)))),
            E::B => Either::Other(Kind(())),
        }
    }
}
",
    ),
    (
        "struct S { version: u8, k: u16, #[deku(ctx = \"*k\")] e: E }",
        "
/// Which kind `e` is: `k`.
#[derive(Debug, PartialEq, Eq, Drop)]
pub struct SEId;

impl IdOf<Le<u16>> for SEId {
    ghost id_of = { λ p. p.0 };

    fn id(parts: &Le<u16>) -> u64 {
        parts.0 as u64
    }
}

impl IdOfLaw<Le<u16>> for SEId {
    ghost alike = { λ v w e. rw e refl };
}
",
    ),
    (
        "struct S { version: u8, k: u16, #[deku(ctx = \"*k\")] e: E }",
        "
type SParts = (u8, ChosenBy<Le<u16>, SEId, EKinds>);

impl FromParts for S {
    type Parts = SParts;

    ghost parts_of = { λ r. (
      r.version,
      record { head = le r.k; kind = ⟦<E as FromParts>⟧.parts_of r.e; id = record {} },
    ) };

    ghost record_of = { λ p. record {
      version = p.0;
      k = p.1.head.0;
      e = ⟦<E as FromParts>⟧.record_of p.1.kind;
    } };
",
    ),
    (
        "struct S { version: u8, k: u16, #[deku(ctx = \"*k\")] e: E }",
        "
            e: E::from_parts(e),
        }
    }

    ghost use Rattle.samples.specs.contracts.a.EFromParts.TheImpl.Laws.{there-law as e_there};

    ghost there = { λ r. rw (e_there r.e) refl };
}

impl ToParts for S {
    fn parts(&self) -> Self::Parts {
        (self.version, ChosenBy::new(Le(self.k), self.e.parts()))
    }
}
",
    ),
    (
        "struct S(u16, u64, #[deku(ctx = \"field_0\")] E, #[deku(ctx = \"*field_0\")] E);",
        "
type SParts = ChosenBy<SField3Head, SField3Id, EKinds>;
",
    ),
    (
        "struct S(u16, u64, #[deku(ctx = \"field_0\")] E, #[deku(ctx = \"*field_0\")] E);",
        "
        S(
            field_0,
            field_1,
            E::from_parts(field_2),
            E::from_parts(field_3),
        )
    }

    ghost use Rattle.samples.specs.contracts.a.EFromParts.TheImpl.Laws.{there-law as e_there};

    ghost there = { λ r. rw (e_there r.2, e_there r.3) refl };
",
    ),
];

#[test]
fn choices_are_printed(rt: HostRuntime) -> Result<(), Fail> {
    let alloc = rt.alloc();
    for (rest, part) in &PRINTED {
        let text = format!(in alloc; "{KINDS}{rest}")?;
        match make(alloc, "a.rs", Some("samples.a"), text.as_str())? {
            Made::Module(printed) => assert!(rt; printed.as_str().contains(*part), "of {rest}"),
            Made::Wrong(told) => assert_eq!(rt; told.as_str(), "", "of {rest}"),
        }
    }
    Ok(())
}
