//! A sample from bytes, and back.

use super::Sample;
use deku_testing_values::records::expect_record;
use std::test::Fail;

#[test]
fn both_ways(rt: HostRuntime) -> Result<(), Fail> {
    let sample = Sample {
        sensor: 6,
        state: 9,
        value: 0xC0FE,
    };
    expect_record(rt.alloc(), &sample, &[0x69, 0xC0, 0xFE])
}
