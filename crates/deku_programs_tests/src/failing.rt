//! Outputs that fail.

use crate::runs::Layout;
use deku_testing::runs::{Broken, Run, arguments, expect_end};
use std::io::Cursor;
use std::test::Fail;

#[test]
fn tells_of_a_failing_output(rt: HostRuntime) -> Result<(), Fail> {
    let alloc = rt.alloc();
    let mut none = "".as_bytes();
    let fault = Run::complaining("/u8", 1, "error: io errorr: Other\n");
    expect_end(alloc, &Layout, &fault, &mut none, &mut Broken)?;
    let mut page = [0u8; 8];
    let mut output = Cursor::new(page.as_mut_slice());
    let full = Run::complaining("/u8", 1, "error: io errorr: WriteZero\n");
    expect_end(alloc, &Layout, &full, &mut none, &mut output)?;
    assert_eq!(rt; &page, b" byte 0\n");
    Ok(())
}

#[test]
fn ends_though_nobody_listens(rt: HostRuntime) -> Result<(), Fail> {
    let words = arguments(rt.alloc(), "/u9")?;
    let status = deku_picture::run(rt.alloc(), words.as_slice(), &mut Broken, &mut Broken);
    assert_eq!(rt; status, 2);
    Ok(())
}
