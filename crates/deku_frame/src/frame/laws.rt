//! The laws of frames. Each law is the postcondition of an empty function.

ghost use Rattle.deku_pieces.specs.Symmetric.{IsSymmetric};
ghost use Rattle.deku_frame.specs.Frames.{OfFrame, SameFrame, WritesFrame, ReadsFrame};
ghost use Rattle.deku_frame.specs.FramePromise.{WriteLaw, ReadLaw, RewriteLaw, UpdateLaw};

/// A frame whose length is that of its payload, and whose fields fit, is the pieces of its id, its
/// version and its fields. It is written as them, and read back from them as the same frame. A
/// frame that is read has pieces: those that were taken.
pub fn frame_law()
    ensures { IsSymmetric OfFrame SameFrame WritesFrame ReadsFrame }
{}

/// `to_bytes` of a frame that has pieces gives what they lay out, or memory runs out.
pub fn write_law()
    ensures { WriteLaw }
{}

/// `from_bytes`, at bit 0, of bytes that begin with what the pieces of a frame lay out, whatever
/// follows, gives that frame, and the bytes that follow at bit 0; or memory runs out.
pub fn read_law()
    ensures { ReadLaw }
{}

/// Bytes from which `from_bytes` reads a frame at bit 0 begin with what its pieces lay out, which
/// is what `to_bytes` gives. The rest is what follows.
pub fn rewrite_law()
    ensures { RewriteLaw }
{}

/// A frame of bytes for which `update` succeeded has pieces, so it can be written.
pub fn update_law()
    ensures { UpdateLaw }
{}
