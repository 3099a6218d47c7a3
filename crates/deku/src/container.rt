//! Whole values: from the bytes of an input, and as bytes or bits.

ghost use Rattle.std.specs.Prelude.{◌≡◌, ◌++◌, ◌<◌, [], length, take, OnOk, IfOk};
ghost use Rattle.std.specs.Prelude.{IfErr};
ghost use Rattle.std.specs.Io.Cursor.{cursor_position, cursor_inner};
ghost use Rattle.std.specs.declared.io.ErrorKind.TheVariants.{OutOfMemory};
ghost use Rattle.deku_bits.specs.declared.error.DekuError.TheVariants.{Io};
ghost use Rattle.deku_bits.specs.Bits.{bits_in};
ghost use Rattle.deku_bits.specs.ReaderCalls.{Reads, unread_of};
ghost use Rattle.deku_bits.specs.Writers.{Pending, Nothing};
ghost use Rattle.deku_bits.specs.Standings.{Standing, Going};
ghost use Rattle.deku_bits.specs.WriterCalls.{Writes, WritesAt, Finalizes};
ghost use Rattle.deku_meanings.specs.Composing.{Both};
ghost use Rattle.deku_reading.specs.Early.{NoReadAhead};
ghost use Rattle.deku.specs.Wholes.{Behind, ReadsOnce, TellsBehind, ReadsBytesOnce, WritesOnce};
ghost use Rattle.deku.specs.Wholes.{WritesOver, WritesBare};

use deku_bits::bounded::BoundedBitVec;
use deku_bits::ctx::Order;
use deku_bits::device::{Sink, Source};
use deku_bits::error::{DekuError, NeedSize};
use deku_bits::reader::Reader;
use deku_bits::writer::Writer;
use deku_reading::DekuReader;
use deku_writing::DekuWriter;
use std::alloc::Global;
use std::io::{Cursor, ErrorKind};

/// A type whose values are read from the start of an input, with a new reader for each: every type
/// that is read under `()`.
pub trait DekuContainerRead: DekuReader<()> {
    /// Skips this many bits of a source and reads the value after them. Returns the count of bits
    /// that this took, including the skipped ones, and the value.
    ///
    /// The source is left after the last byte that was fetched. Bits of that byte that were not
    /// read are lost, so the next call begins with the byte after it. If the type fetches no byte
    /// too early, that is the byte after those that the counted bits fill. What is read takes its
    /// memory from `alloc`.
    ///
    /// The caller's condition: the type may be read under `()`. It fails as `Reader::skip_bits` in
    /// `Msb0` does, and then as the type does. The source is then left after what was read.
    ///
    /// ```text
    /// let mut input = Cursor::new(bytes);                     // 12 34 56
    /// let (count, record) = Record::from_reader(alloc, (&mut input, 4))?;
    /// // a record of one byte: 12 and 0x23; the input is at 56
    /// ```
    final fn from_reader<R: Source>(
        alloc: Global,
        input: (&mut R, usize),
    ) -> Result<(usize, Self), DekuError>
    where
        Self: Sized,
        requires { Self.accepts tt }
        ensures reads { ReadsOnce R.known (Behind input.entry.1 (Self.meaning tt)) input.entry.0.now
            result input.exit.0.now }
        ensures behind { IfOk result (λ p. Self.no_read_ahead tt
            → TellsBehind p.0 (R.known input.entry.0.now) (R.known input.exit.0.now)) }
    {
        let bits = input.1;
        let mut reader = Reader::new(alloc, &mut *input.0);
        let answer = read_behind::<Self, &mut R>(&mut reader, bits);
        let count = reader.bits_read();
        let _source = reader.into_inner();
        Ok((count, answer?))
    }

    /// Skips this many bits of some bytes and reads the value after them. Returns the bytes from
    /// that of the first unread bit on, with the number of bits of that byte that are already read,
    /// and the value.
    ///
    /// The caller's condition: the type may be read under `()`. It fails as `Reader::skip_bits` in
    /// `Msb0` does, and then as the type does. Bits after the last byte can be skipped: if the
    /// whole bytes that were skipped or read are more than there are, it fails with `Incomplete` of
    /// all those bits.
    ///
    /// ```text
    /// let ((rest, bits), record) = Record::from_bytes(alloc, (&[0x12, 0x34], 4))?;
    /// // a record of one byte: 0x23; the rest is 34, of which 4 bits are read
    /// ```
    final fn from_bytes(
        alloc: Global,
        input: (&[u8], usize),
    ) -> Result<((&[u8], usize), Self), DekuError>
    where
        Self: Sized,
        requires { Self.accepts tt }
        ensures { ReadsBytesOnce (Behind input.entry.1 (Self.meaning tt)) input.entry.0.now result }
    {
        let (bytes, bits) = input;
        let mut reader = Reader::new(alloc, Cursor::new(bytes));
        let value = read_behind::<Self, Cursor<&[u8]>>(&mut reader, bits)?;
        let count = reader.bits_read();
        if count / 8 > bytes.len() {
            return Err(DekuError::Incomplete(NeedSize::new(count)));
        }
        Ok(((&bytes[count / 8..], count % 8), value))
    }
}

impl<T: DekuReader<()>> DekuContainerRead for T {}

// Skips this many bits in `Msb0`, and reads a value.
fn read_behind<T: DekuReader<()>, R: Source>(
    reader: &mut Reader<R>,
    bits: usize,
) -> Result<T, DekuError>
    requires { T.accepts tt }
    ensures reads { Reads R.known (Behind bits (T.meaning tt)) reader.old result reader.new }
    ensures early { OnOk result (T.no_read_ahead tt → length (unread_of reader.old) < 8
        → NoReadAhead R.known reader.old reader.new) }
{
    reader.skip_bits(bits, Order::Msb0)?;
    T::from_reader_with_ctx(reader, ())
}

/// A type whose values are written as bytes or bits, with a new writer for each: every type that is
/// written under `()`.
pub trait DekuContainerWrite: DekuWriter<()> {
    /// The bytes of the value, the last one filled with zeros. The vector may have capacity to
    /// spare.
    ///
    /// The caller's condition: the type may be written under `()`. It fails as the type does, or
    /// with `Io(OutOfMemory)` if there is no memory for the bytes.
    ///
    /// ```text
    /// record.to_bytes(alloc)?                                 // of 4, 4 and 1 bits: F1 80
    /// ```
    final fn to_bytes(&self, alloc: Global) -> Result<Vec<u8>, DekuError>
        requires { Self.accepts tt }
        ensures { WritesOnce (Both (Self.meaning self.now tt) Finalizes) result }
    {
        padded_bytes(self, alloc, ())
    }

    /// Writes the bytes of the value to the start of a slice, the last one filled with zeros.
    /// Returns how many bytes there are. The bytes of the slice after them stay as they were. It
    /// takes no memory.
    ///
    /// The caller's condition: the type may be written under `()`. It fails as the type does, or
    /// with `Io(WriteZero)` if the slice is too short. Then the slice holds a beginning of the
    /// bytes, followed by what it held before.
    ///
    /// ```text
    /// let mut out = [0; 3];
    /// record.to_slice(&mut out)?                   // of 4, 4 and 1 bits: 2, and `out` is F1 80 00
    /// ```
    final fn to_slice(&self, out: &mut [u8]) -> Result<usize, DekuError>
        requires { Self.accepts tt }
        ensures { WritesOver (Both (Self.meaning self.now tt) Finalizes) out.old result out.new }
    {
        let mut cursor = Cursor::new(out);
        let written = write_whole(self, &mut cursor, ());
        let count = cursor.position() as usize;
        written?;
        Ok(count)
    }

    /// The bits of the value, without padding: those of the bytes that it fills, each with its high
    /// bit first, and then the pending bits, also with the high bit first.
    ///
    /// The caller's condition: the type may be written under `()`. It fails as the type does, or
    /// with `Io(OutOfMemory)` if there is no memory for the bits. It also fails with an error that
    /// stopped the writer and that the type did not return.
    ///
    /// ```text
    /// record.to_bits(alloc)?                      // of 4, 4 and 1 bits: 1, 1, 1, 1, 0, 0, 0, 1, 1
    /// ```
    final fn to_bits(&self, alloc: Global) -> Result<Vec<bool>, DekuError>
        requires { Self.accepts tt }
        ensures { WritesBare (Self.meaning self.now tt) result }
    {
        let mut writer = Writer::new(Cursor::new(room_ahead(alloc)));
        self.to_writer(&mut writer, ())?;
        // The count fits a `usize`, so the proof knows that the write of no bits below does not
        // exceed it.
        let _count = writer.bits_written();
        writer.write_bits(&[])?;
        let (pending, _order) = writer.leftover();
        let bytes = taken_bytes(writer.into_inner());
        joined_bits(alloc, bytes.as_slice(), &pending)
    }
}

impl<T: DekuWriter<()>> DekuContainerWrite for T {}

/// The bytes of a value under a context, with the last one filled with zeros. The vector may have
/// capacity to spare.
///
/// The caller's condition: the type may be written under the context. It fails as the type does, or
/// with `Io(OutOfMemory)` if there is no memory for the bytes.
///
/// ```text
/// padded_bytes(&5u8, alloc, BitSize(4))?                      // 50
/// ```
pub fn padded_bytes<Ctx, T: DekuWriter<Ctx>>(
    value: &T,
    alloc: Global,
    ctx: Ctx,
) -> Result<Vec<u8>, DekuError>
    requires { T.accepts ctx }
    ensures { WritesOnce (Both (T.meaning value.now ctx) Finalizes) result }
{
    let mut cursor = Cursor::new(room_ahead(alloc));
    write_whole(value, &mut cursor, ctx)?;
    Ok(taken_bytes(cursor))
}

/// An empty vector with room for 64 bytes, for a writer of small values. If there is no memory for
/// them, it has no room.
///
/// ```text
/// let mut writer = Writer::new(Cursor::new(room_ahead(alloc)));
/// writer.write_bytes(&[0xA5])?;                        // takes no more memory
/// ```
pub fn room_ahead(alloc: Global) -> Vec<u8>
    ensures { result.items ≡ [] }
{
    match Vec::with_capacity(alloc, 64) {
        Ok(vector) => vector,
        Err(_) => Vec::new(alloc),
    }
}

// Writes a value with a new writer, and fills the last byte with zeros.
fn write_whole<Ctx, T: DekuWriter<Ctx>, W: Sink>(
    value: &T,
    sink: &mut W,
    ctx: Ctx,
) -> Result<(), DekuError>
    requires { T.accepts ctx }
    ensures { (u : Standing Pending) × WritesAt (Both (T.meaning value.now ctx) Finalizes)
        (W.known sink.old) (Going Nothing 0) result (W.known sink.new) u }
{
    let mut writer = Writer::new(sink);
    write_padded(value, &mut writer, ctx)
}

// Writes a value and fills the last byte with zeros.
fn write_padded<Ctx, T: DekuWriter<Ctx>, W: Sink>(
    value: &T,
    writer: &mut Writer<W>,
    ctx: Ctx,
) -> Result<(), DekuError>
    requires { T.accepts ctx }
    ensures { Writes W.known (Both (T.meaning value.now ctx) Finalizes) writer.old result
        writer.new }
{
    value.to_writer(writer, ctx)?;
    writer.finalize()
}

/// The bytes before a cursor's place, such as those that a writer gave to a cursor over a vector.
/// The bytes after it are dropped. It has no errors.
///
/// ```text
/// writer.finalize()?;
/// taken_bytes(writer.into_inner())                            // of 6 and 9 in four bits each: 69
/// ```
pub fn taken_bytes(cursor: Cursor<Vec<u8>>) -> Vec<u8>
    ensures { result.items ≡ take (cursor_position cursor) (cursor_inner cursor).items }
{
    let end = cursor.position();
    let mut bytes = cursor.into_inner();
    bytes.truncate(end as usize);
    bytes
}

// The bits of the bytes, each with its high bit first, and then these bits.
fn joined_bits(alloc: Global, bytes: &[u8], last: &BoundedBitVec<1>) -> Result<Vec<bool>, DekuError>
    ensures bits { IfOk result (λ v. v.items ≡ bits_in bytes.now ++ last.now) }
    ensures memory { IfErr result (λ e. e ≡ Io OutOfMemory) }
{
    let mut bits: Vec<bool> = Vec::new(alloc);
    for byte in bytes {
        push_bits(&mut bits, &BoundedBitVec::from_array([*byte]))?;
    }
    push_bits(&mut bits, last)?;
    Ok(bits)
}

// Appends bits to others.
fn push_bits(bits: &mut Vec<bool>, more: &BoundedBitVec<1>) -> Result<(), DekuError>
    ensures bits { OnOk result (bits.new.items ≡ bits.old.items ++ more.now) }
    ensures memory { IfErr result (λ e. e ≡ Io OutOfMemory) }
{
    for place in 0..more.len() {
        let Some(bit) = more.get(place) else {
            continue;
        };
        if bits.push(bit).is_err() {
            return Err(DekuError::Io(ErrorKind::OutOfMemory));
        }
    }
    Ok(())
}
