//! Signals of buses and of telemetry.

use deku::prelude::{DekuError, NeedSize};
use deku_formats::can::Chassis;
use deku_formats::ccsds::Telemetry;
use deku_formats::ccsds::header::Header;
use deku_formats::ccsds::sample::Sample;
use deku_testing_values::records::{expect_record, expect_refusal};
use std::test::Fail;

// As the Python package cantools 37.2 encodes it, from the DBC text that is in the module.
#[test]
fn a_frame(rt: HostRuntime) -> Result<(), Fail> {
    let chassis = Chassis {
        wheel: -700,
        gear: 5,
        torque: -1234,
        flags: 5,
        padding: 0,
        yaw: -100000,
    };
    let bytes = [0x44, 0x5D, 0xFB, 0x2E, 0x05, 0xFE, 0x79, 0x60];
    expect_record(rt.alloc(), &chassis, &bytes)
}

// Four samples: eleven bytes, so the length is 10. Worked out by hand from the tables of the
// standard.
#[test]
fn a_packet_of_samples(rt: HostRuntime) -> Result<(), Fail> {
    let header = Header {
        version: 0,
        kind: 0,
        secondary: 0,
        application: 0x123,
        grouping: 3,
        count: 42,
        length: 10,
    };
    let samples = [(1, 2), (0x3FF, 0xFFF), (0x200, 0x800), (0, 0)];
    let mut packet = Telemetry {
        header,
        samples: Vec::new(rt.alloc()),
    };
    for (voltage, current) in samples {
        packet.samples.push(Sample { voltage, current })?;
    }
    let bytes = [
        0x01, 0x23, 0xC0, 0x2A, 0x00, 0x0A, 0x00, 0x40, 0x0B, 0xFF, 0xFF, 0xF8, 0x02, 0x00, 0x00,
        0x00, 0x00,
    ];
    expect_record(rt.alloc(), &packet, &bytes)
}

#[test]
fn refusals(rt: HostRuntime) -> Result<(), Fail> {
    let short = DekuError::Incomplete(NeedSize::new(24));
    expect_refusal::<Chassis>(rt.alloc(), &[0x44, 0x5D, 0xFB, 0x2E, 0x05, 0xFE], short, 40)?;
    let bytes = [0x01, 0x23, 0xC0, 0x2A, 0x00, 0x0B, 0x00];
    let length = DekuError::Parse("head without a count");
    expect_refusal::<Telemetry>(rt.alloc(), &bytes, length, 48)
}
