//! Frames, written and read back, as tests.

use crate::same::{same, same_bytes};
use deku_callers::frame::{pair_there_and_back, rewritten};
use deku_fields::frame::Frame;
use std::test::Fail;

#[test]
fn a_pair_there_and_back(rt: HostRuntime) -> Result<(), Fail> {
    let frame = pair_there_and_back(rt.alloc(), 5, 0x2A7)?;
    let want = Frame::Pair {
        left: 5,
        right: 0x2A7,
    };
    same(&rt, 0, &frame, &want);
    Ok(())
}

#[test]
fn a_frame_rewritten(rt: HostRuntime) -> Result<(), Fail> {
    let bytes: &[u8] = &[0x21, 0x02, 0xAA, 0xBB, 0x99];
    let again = rewritten(rt.alloc(), bytes)?;
    same_bytes(&rt, 0, again.as_slice(), &bytes[..4]);
    Ok(())
}
