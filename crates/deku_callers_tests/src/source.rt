//! What a source has left after a header, as a test.

use crate::same::{same, same_bytes};
use deku_callers::source::header_of;
use std::io::Cursor;
use std::test::Fail;

#[test]
fn leaves_what_the_header_carries(rt: HostRuntime) -> Result<(), Fail> {
    let bytes: &[u8] = &[0x04, 0x89, 0x00, 0x35, 0x00, 0x0A, 0xAB, 0xB4, 0x68, 0x69];
    let mut source = Cursor::new(bytes);
    let (bits, header) = header_of(rt.alloc(), &mut source)?;
    same(
        &rt,
        0,
        &(bits, header.destination, header.length),
        &(64, 53, 10),
    );
    same(&rt, 1, &source.position(), &8);
    same_bytes(&rt, 2, *source.get_ref(), bytes);
    Ok(())
}
