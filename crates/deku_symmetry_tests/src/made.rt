//! Parts that other parts depend on: counted items and checks.

ghost use Rattle.std.specs.Prelude.{nat_eq, codes, refl, None};

use crate::sample::Sample;
use deku::prelude::{DekuError, NeedSize};
use deku_symmetry::{Assert, Check, CheckLaw, Counted, ItemCount, Msb, Symmetric};
use deku_testing_values::expecting::same;
use deku_testing_values::records::{expect_both_ways, expect_refusal};
use std::test::Fail;

// The version is 4.
#[derive(Debug, PartialEq, Eq, Drop)]
struct Version;

impl Check<Msb<u8, 4>> for Version {
    ghost passes = { λ part. nat_eq part.0 4 };

    ghost text = { codes "version" };

    fn passes(part: &Msb<u8, 4>) -> bool {
        part.0 == 4
    }

    fn text() -> &'static str {
        "version"
    }
}

impl CheckLaw<Msb<u8, 4>> for Version {
    ghost alike = { λ v w e. rw e refl };
}

// A sample counts nothing.
impl ItemCount for Sample {
    ghost count_of = { λ _. None };

    fn count(&self) -> Option<usize> {
        None
    }
}

// A version of four bits, and a length.
type Front = (Assert<Msb<u8, 4>, Version>, Msb<u8, 4>);

#[test]
fn counted_items(rt: HostRuntime) -> Result<(), Fail> {
    let alloc = rt.alloc();
    let two = Counted {
        head: 2u8,
        items: [0x68u8, 0x69].to_vec(alloc)?,
    };
    expect_both_ways(alloc, (), &two, 24, &[0x02, 0x68, 0x69])
}

#[test]
fn too_few_items(rt: HostRuntime) -> Result<(), Fail> {
    let short: &[u8] = &[0x03, 0x68];
    let ended = DekuError::Incomplete(NeedSize::new(8));
    same(
        &short,
        &Counted::<u8, u8>::unpack(rt.alloc(), short, ()),
        &Err(ended),
    )
}

#[test]
fn a_head_of_another_count(rt: HostRuntime) -> Result<(), Fail> {
    let alloc = rt.alloc();
    let out_of_step = Counted {
        head: 3u8,
        items: [1u8].to_vec(alloc)?,
    };
    let refusal = DekuError::Assertion("count out of step with items");
    same(&3, &out_of_step.pack(alloc, ()), &Err(refusal))
}

#[test]
fn a_head_without_a_count(rt: HostRuntime) -> Result<(), Fail> {
    let bytes: &[u8] = &[0xFF, 0xF1, 0x23, 0x69];
    let refusal = DekuError::Parse("head without a count");
    expect_refusal::<Counted<Sample, u8>>(rt.alloc(), bytes, refusal, 24)
}

#[test]
fn what_passes(rt: HostRuntime) -> Result<(), Fail> {
    let alloc = rt.alloc();
    let four: Front = (Assert::new(Msb(4)), Msb(5));
    expect_both_ways(alloc, (), &four, 8, &[0x45])
}

#[test]
fn what_does_not_pass(rt: HostRuntime) -> Result<(), Fail> {
    let six: Front = (Assert::new(Msb(6)), Msb(5));
    let refusal = DekuError::Assertion("version");
    same(&6, &six.pack(rt.alloc(), ()), &Err(refusal))?;
    expect_refusal::<Front>(rt.alloc(), &[0x65], refusal, 4)
}
