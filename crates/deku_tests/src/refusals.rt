//! Refusals by their names.

use super::expecting::same;
use deku::{DekuError, deku_error};

// A call adds to the count.
fn called(calls: &mut u8, by: u8) -> u8 {
    *calls = calls.saturating_add(by);
    *calls
}

#[test]
fn names_a_refusal(rt: HostRuntime) {
    let mut calls: u8 = 0;
    let failed = DekuError::Assertion("Field failed assertion");
    let rows = [
        (
            deku_error!(DekuError::IdVariantNotFound),
            DekuError::IdVariantNotFound,
        ),
        (
            deku_error!(DekuError::Parse, "no such version"),
            DekuError::Parse("no such version"),
        ),
        (
            deku_error!(
                DekuError::Assertion,
                "Field failed assertion",
                "no argument"
            ),
            failed,
        ),
        (
            deku_error!(
                DekuError::Assertion,
                "Field failed assertion",
                "version {} of {}",
                called(&mut calls, 1),
                called(&mut calls, 10),
            ),
            failed,
        ),
    ];
    for (named, want) in &rows {
        same(&rt, want, named, want);
    }
    same(&rt, &"each argument once", &calls, &11);
}
