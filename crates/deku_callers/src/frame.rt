//! Frames, written and read back.

ghost use Rattle.std.specs.Prelude.{IfOk};
ghost use Rattle.deku_callers.specs.Rewriting.{IsFrameOf};
ghost use Rattle.deku_fields.specs.Frames.{SameFrame};

use deku::prelude::{DekuContainerRead, DekuContainerWrite, DekuError};
use deku_fields::frame::Frame;
use deku_fields::frame::laws::{read_law, rewrite_law, write_law};
use std::alloc::Global;

/// Writes a frame of two numbers as bytes, and reads it back. The result is that frame.
///
/// It fails as `Frame::pair` does, or with `Io(OutOfMemory)` if there is no memory for the bytes.
///
/// ```text
/// pair_there_and_back(alloc, 5, 0x2A7)?                   // Frame::Pair { left: 5, right: 0x2A7 }
/// ```
pub fn pair_there_and_back(alloc: Global, left: u8, right: u16) -> Result<Frame, DekuError>
    ensures { IfOk result (λ f. SameFrame (Frame.Pair left right) f) }
{
    write_law();
    read_law();
    let frame = Frame::pair(left, right)?;
    let bytes = frame.to_bytes(alloc)?;
    let (_rest, read) = Frame::from_bytes(alloc, (bytes.as_slice(), 0))?;
    Ok(read)
}

/// Reads a frame from any bytes, and writes it as bytes again. These are what the pieces of the
/// frame lay out, and the given bytes begin with them.
///
/// It fails as reading the frame does, or with `Io(OutOfMemory)` if there is no memory for the
/// bytes.
///
/// ```text
/// rewritten(alloc, &[0x31, 0x2A, 0xA7, 0x99])?               // 31 2A A7
/// ```
pub fn rewritten(alloc: Global, bytes: &[u8]) -> Result<Vec<u8>, DekuError>
    ensures { IfOk result (λ v. IsFrameOf bytes.now v.items) }
{
    write_law();
    rewrite_law();
    let (_rest, frame) = Frame::from_bytes(alloc, (bytes, 0))?;
    frame.to_bytes(alloc)
}
