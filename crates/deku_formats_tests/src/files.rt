//! The first bytes of files.

use deku::prelude::DekuError;
use deku_formats::png::Png;
use deku_testing_values::records::{expect_record, expect_refusal};
use std::test::Fail;

// The signature and the first chunk of `collapsed-trait-impls.png` in the documentation of Rust
// 1.95; `file` prints 608 x 275, 8-bit/color RGB, non-interlaced.
#[test]
fn a_picture(rt: HostRuntime) -> Result<(), Fail> {
    let png = Png {
        width: 608,
        height: 275,
        depth: 8,
        colour: 2,
        compression: 0,
        filter: 0,
        interlace: 0,
        crc: 0x1E572D75,
    };
    let bytes = [
        0x89, 0x50, 0x4E, 0x47, 0x0D, 0x0A, 0x1A, 0x0A, 0x00, 0x00, 0x00, 0x0D, 0x49, 0x48, 0x44,
        0x52, 0x00, 0x00, 0x02, 0x60, 0x00, 0x00, 0x01, 0x13, 0x08, 0x02, 0x00, 0x00, 0x00, 0x1E,
        0x57, 0x2D, 0x75,
    ];
    expect_record(rt.alloc(), &png, &bytes)
}

#[test]
fn refusals(rt: HostRuntime) -> Result<(), Fail> {
    let signature = DekuError::Assertion("signature");
    expect_refusal::<Png>(rt.alloc(), b"\x89PNG\n\x1A\n\0", signature, 64)
}
