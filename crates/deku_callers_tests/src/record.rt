//! Headers, written and read back, as tests.

use crate::same::{same, same_bytes};
use deku_callers::record::{rewritten, there_and_back};
use deku_transport::udp::Udp;
use std::test::Fail;

#[test]
fn a_header_there_and_back(rt: HostRuntime) -> Result<(), Fail> {
    let header = Udp {
        source: 1161,
        destination: 53,
        length: 44,
        checksum: 0xABB4,
    };
    let read = there_and_back(rt.alloc(), header)?;
    let ports = (read.source, read.destination);
    same(
        &rt,
        0,
        &(ports, read.length, read.checksum),
        &((1161, 53), 44, 0xABB4),
    );
    Ok(())
}

#[test]
fn a_header_rewritten(rt: HostRuntime) -> Result<(), Fail> {
    let bytes: &[u8] = &[0x04, 0x89, 0x00, 0x35, 0x00, 0x2C, 0xAB, 0xB4, 0xFF];
    let written = rewritten(rt.alloc(), bytes)?;
    same_bytes(&rt, 0, written.as_slice(), &bytes[..8]);
    Ok(())
}
