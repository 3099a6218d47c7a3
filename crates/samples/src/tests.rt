//! Values of each record, packed and unpacked.

use crate::batch::Batch;
use crate::event::Event;
use crate::log::sample_of;
use crate::sample::Sample;
use crate::timed::Timed;
use deku::prelude::DekuUpdate;
use deku_symmetry::{Be, Symmetric};
use std::test::Fail;

#[test]
fn a_sample(rt: HostRuntime) -> Result<(), Fail> {
    let (alloc, sample) = (rt.alloc(), sample_of(0xC0FE));
    let bytes = sample.pack(alloc, ())?; // 69 C0 FE
    let (bits, again) = Sample::unpack(alloc, bytes.as_slice(), ())?; // 24, and the sample
    assert_eq!(rt; bytes.as_slice(), [0x69, 0xC0, 0xFE].as_slice());
    assert_eq!(rt; (bits, again), (24, sample));
    Ok(())
}

#[test]
fn a_time_that_is_there(rt: HostRuntime) -> Result<(), Fail> {
    let timed = Timed {
        sensor: 3,
        has_time: true,
        value: 0xC0FE,
        time: Some(Be(60)),
    };
    let bytes = [0x07, 0xC0, 0xFE, 0, 0, 0, 60].as_slice();
    assert_eq!(rt; timed.pack(rt.alloc(), ())?.as_slice(), bytes);
    assert_eq!(rt; Timed::unpack(rt.alloc(), bytes, ())?, (56, timed));
    Ok(())
}

#[test]
fn a_batch(rt: HostRuntime) -> Result<(), Fail> {
    let values = vec![in rt.alloc(); Be(-2), Be(5)]?;
    let mut batch = Batch { count: 0, values };
    batch.update()?; // `count` is 2
    let bytes = [2, 0xFF, 0xFE, 0, 5].as_slice();
    assert_eq!(rt; batch.pack(rt.alloc(), ())?.as_slice(), bytes);
    assert_eq!(rt; Batch::unpack(rt.alloc(), bytes, ())?, (40, batch));
    Ok(())
}

#[test]
fn another_event(rt: HostRuntime) -> Result<(), Fail> {
    let event = Event::Other(9, 0x1234);
    let bytes = [9, 0x12, 0x34].as_slice();
    assert_eq!(rt; event.pack(rt.alloc(), ())?.as_slice(), bytes);
    assert_eq!(rt; Event::unpack(rt.alloc(), bytes, ())?, (24, event));
    Ok(())
}
