//! Kinds of whole numbers, and which numbers are their own.

use deku_fields::Kind;
use deku_fields::Number::{self, Signed, Unsigned};

// A kind, a number, and whether it is one of its own.
const NUMBERS: [(Kind, Number, bool); 11] = [
    (Kind::U8, Unsigned(255), true),
    (Kind::U8, Unsigned(256), false),
    (Kind::U8, Signed(5), false),
    (Kind::Usize, Unsigned(1 << 64), false),
    (Kind::U128, Unsigned(u128::MAX), true),
    (Kind::I8, Signed(-128), true),
    (Kind::I8, Signed(-129), false),
    (Kind::I8, Signed(127), true),
    (Kind::I8, Signed(128), false),
    (Kind::I8, Unsigned(5), false),
    (Kind::I128, Signed(i128::MIN), true),
];

#[test]
fn hold_their_own_numbers(rt: HostRuntime) {
    for (kind, number, want) in &NUMBERS {
        assert!(rt; kind.holds(*number) == *want, "{kind:?} {number:?}");
    }
}

// A kind, its bits, and whether it has a sign.
const TYPES: [(Kind, usize, bool); 12] = [
    (Kind::U8, 8, false),
    (Kind::U16, 16, false),
    (Kind::U32, 32, false),
    (Kind::U64, 64, false),
    (Kind::U128, 128, false),
    (Kind::Usize, 64, false),
    (Kind::I8, 8, true),
    (Kind::I16, 16, true),
    (Kind::I32, 32, true),
    (Kind::I64, 64, true),
    (Kind::I128, 128, true),
    (Kind::Isize, 64, true),
];

#[test]
fn are_types_of_numbers(rt: HostRuntime) {
    for (kind, bits, signed) in &TYPES {
        let number_type = kind.number_type();
        let seen = (number_type.bits, number_type.signed, kind.is_signed());
        assert!(rt; seen == (*bits, *signed, *signed), "{kind:?}: {seen:?}");
    }
}
