//! Laws of the definitions that contracts use. Each law is the postcondition of an empty function.

ghost use Rattle.deku_stream.specs.Bits.{JoinLaw, PackLaw};
ghost use Rattle.deku_stream.specs.Streams.{PeekLaw, CutLaw, SkipLaw, PeekSkipLaw, EndLaw};
ghost use Rattle.deku_reader.specs.ReaderCalls.{FetchLaw, SkipReadLaw, BytesLaw};
ghost use Rattle.deku_stream.specs.Pieces.{LengthLaw};
ghost use Rattle.deku_stream.specs.Writers.{AppendLaw, CountLaw};
ghost use Rattle.deku_stream.specs.Symmetry.{WriteLaw, ReadLaw, RewriteLaw, CallsLaw};
ghost use Rattle.deku_device.specs.Devices.{TryTakeLaw};
ghost use Rattle.deku_bits.specs.Wholes.{WholeLaw, PlainLaw};
ghost use Rattle.deku_bits.specs.Causes.{CauseLaw};
ghost use Rattle.deku_bits.specs.Rows.{ReadRows, SkipRows, ShortRows, WriteRows};

/// If `n` bytes are left, the `n` bytes that `try_take` returns are these, without zeros.
pub fn try_take_law()
    ensures { TryTakeLaw }
{}

/// A read of a stream is a read of its normal form, in which a peeked byte is put back.
pub fn peek_law()
    ensures { PeekLaw }
{}

/// Two reads in one order are one read.
pub fn cut_law()
    ensures { CutLaw }
{}

/// A skip of no more bits than there are leaves what a read of as many leaves.
pub fn skip_law()
    ensures { SkipLaw }
{}

/// A skip of a stream is a skip of its normal form, in which a peeked byte is put back.
pub fn peek_skip_law()
    ensures { PeekSkipLaw }
{}

/// A check whether the end is reached changes no later read and no later skip.
pub fn end_law()
    ensures { EndLaw }
{}

/// A skip of no more bits than there are succeeds, and leaves the same stream and count as a read
/// of as many bits that succeeds.
pub fn skip_read_law()
    ensures { SkipReadLaw }
{}

/// A read of bytes is a read of eight times as many bits, except that it takes no memory.
pub fn bytes_law()
    ensures { BytesLaw }
{}

/// Two writes in one order are one write.
pub fn append_law()
    ensures { AppendLaw }
{}

/// On a new reader, reads that succeed fetch the bytes that the bits read fill. A check for the end
/// fetches at most one more byte.
pub fn fetch_law()
    ensures { FetchLaw }
{}

/// After a write as many bits are given out and pending as were pending and written. The padding
/// adds fewer than eight, and a second one adds none.
pub fn count_law()
    ensures { CountLaw }
{}

/// Pieces may be written in two calls.
pub fn calls_law()
    ensures { CallsLaw }
{}

/// Aligned pieces, written one after the other and padded once, are the bytes that they lay out.
pub fn write_law()
    ensures { WriteLaw }
{}

/// From bytes that begin with what aligned pieces lay out, the pieces are taken, and the bytes
/// after them are left.
pub fn read_law()
    ensures { ReadLaw }
{}

/// Aligned pieces that were taken from bytes lay out the bytes that were taken, with the unread
/// bits zero.
pub fn rewrite_law()
    ensures { RewriteLaw }
{}

/// Aligned pieces lay out as many bytes as their width divided by eight, rounded up.
pub fn length_law()
    ensures { LengthLaw }
{}

/// The number of a group, from the numbers of two parts of it.
pub fn join_law()
    ensures { JoinLaw }
{}

/// The first bits of a byte and those after them, as numbers.
pub fn pack_law()
    ensures { PackLaw }
{}

/// Worked examples of reading bits.
pub fn read_rows()
    ensures { ReadRows }
{}

/// Worked examples of peeks and skips.
pub fn skip_rows()
    ensures { SkipRows }
{}

/// Worked examples of reads that have too few bits, or just enough.
pub fn short_rows()
    ensures { ShortRows }
{}

/// Worked examples of writing bits.
pub fn write_rows()
    ensures { WriteRows }
{}

/// After transfers, a device all of whose bytes are known holds what it took, and after that what
/// it held before.
pub fn whole_law()
    ensures { WholeLaw }
{}

/// Bytes are written unchanged if nothing is pending, and read unchanged from a byte boundary.
pub fn plain_law()
    ensures { PlainLaw }
{}

/// If no device fails, an `Io` error comes only from being out of memory, from being out of room
/// when bits are written, or from an error that was kept.
pub fn cause_law()
    ensures { CauseLaw }
{}
