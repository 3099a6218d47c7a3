//! A sample from bytes, and back.

use super::Sample;
use deku::prelude::{DekuContainerRead, DekuContainerWrite};
use std::test::Fail;

#[test]
fn both_ways(rt: HostRuntime) -> Result<(), Fail> {
    let bytes: &[u8] = &[0x69, 0xC0, 0xFE, 0x01];
    let ((rest, bits), sample) = Sample::from_bytes(rt.alloc(), (bytes, 0))?;
    assert_eq!(rt; (sample.sensor, sample.state, sample.value), (6, 9, 0xC0FE));
    assert_eq!(rt; rest, [0x01].as_slice());
    assert_eq!(rt; bits, 0);
    assert_eq!(rt; sample.to_bytes(rt.alloc())?.as_slice(), &bytes[..3]);
    Ok(())
}
