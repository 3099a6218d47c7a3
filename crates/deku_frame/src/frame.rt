//! The frame.

ghost use Rattle.std.specs.Prelude.{◌≡◌, ◌≤◌, ◌<◌, ◌^◌, List, length as count};
ghost use Rattle.std.specs.Prelude.{codes, IfOk, IfErr, OnOk, MatchBool, Ok};
ghost use Rattle.std.specs.List.{All};
ghost use Rattle.deku_bits.specs.declared.error.DekuError.TheVariants.{Parse, InvalidParam};
ghost use Rattle.deku_bits.specs.Faults.{Tells};
ghost use Rattle.deku_bits.specs.Pieces.{Piece};
ghost use Rattle.deku_bits.specs.ReaderCalls.{Reads};
ghost use Rattle.deku_bits.specs.WriterCalls.{Writes};
ghost use Rattle.deku.specs.Early.{NoReadAhead};
ghost use Rattle.deku_frame.specs.Frames.{OfFrame, ReadsPing, ReadsSized, ReadsData, ReadsHalves};
ghost use Rattle.deku_frame.specs.Frames.{ReadsPair, ReadsBody, WritesBody, IsInStep, id_of};
ghost use Rattle.deku_frame.specs.Frames.{ReadsFrame, WritesFrame, SameFrame, Updates};
ghost use Rattle.deku_frame.specs.FrameLaws.{frame_symmetric};

use deku::ctx::Endian::Big;
use deku::ctx::{BitSize, Limit};
use deku::device::{Sink, Source};
use deku::prelude::{DekuEnumExt, DekuError, DekuReader, DekuUpdate, DekuWriter, Reader, Writer};
use deku_symmetry::{Part, Symmetric};

pub mod laws;

/// A frame: four bits of an id, four of a version, which is 1, and the fields of that id. All are
/// big, with their high bits first.
///
/// The clauses of `to_bytes` and `from_bytes` are those of their traits. What they mean for a frame
/// is stated by [`laws`]. The bytes of a frame are what its pieces lay out. From these bytes,
/// whatever follows, the frame is read again. Bytes that are read as a frame begin with the frame's
/// own.
///
/// ```text
/// let frame = Frame::pair(5, 0x2A7)?;
/// frame.to_bytes(alloc)? // 31 2A A7
/// let ((rest, bits), again) = Frame::from_bytes(alloc, (&[0x31, 0x2A, 0xA7, 0x99], 0))?;
/// // the frame; 99 is left, at bit 0
/// ```
#[derive(Debug, PartialEq, Eq, Drop)]
pub enum Frame {
    /// Id 1: sixteen bits.
    Ping { token: u16 },
    /// Id 2: a byte that counts the bytes after it.
    Data { length: u8, payload: Vec<u8> },
    /// Id 3: five bits and eleven.
    Pair { left: u8, right: u16 },
}

impl Frame {
    /// A frame of a token. It has pieces, as each frame that a constructor returns.
    ///
    /// ```text
    /// Frame::ping(0xBEEF).to_bytes(alloc)?                        // 11 BE EF
    /// ```
    pub fn ping(token: u16) -> Frame
        ensures is { result ≡ Frame.Ping token }
        ensures lies { (ps : List Piece) × OfFrame result ps }
    {
        Frame::Ping { token }
    }

    /// A frame of these bytes, with their count. More than 255 bytes fail with
    /// `Parse("error parsing int")`.
    ///
    /// ```text
    /// Frame::data([0xAA, 0xBB].to_vec(alloc)?)?.to_bytes(alloc)?  // 21 02 AA BB
    /// ```
    pub fn data(payload: Vec<u8>) -> Result<Frame, DekuError>
        ensures ok { IfOk result (λ f. (count payload.items < 2 ^ 8)
            × (f ≡ Frame.Data (count payload.items) payload)) }
        ensures lies { IfOk result (λ f. (ps : List Piece) × OfFrame f ps) }
        ensures err { IfErr result (λ e. (2 ^ 8 ≤ count payload.items)
            × Tells Parse (codes "error parsing int") e) }
    {
        let length = length_of(payload.as_slice())?;
        Ok(Frame::Data { length, payload })
    }

    /// A frame of two numbers. If `left` is 32 or more, or `right` is 2048 or more, it fails with
    /// `InvalidParam("bit size of input is larger than requested size")`.
    ///
    /// ```text
    /// Frame::pair(5, 0x2A7)?.to_bytes(alloc)?                     // 31 2A A7
    /// ```
    pub fn pair(left: u8, right: u16) -> Result<Frame, DekuError>
        ensures ok { IfOk result (λ f. (left < 2 ^ 5) × (right < 2 ^ 11)
            × (f ≡ Frame.Pair left right)) }
        ensures lies { IfOk result (λ f. (ps : List Piece) × OfFrame f ps) }
        ensures err { IfErr result (λ e. ((left < 2 ^ 5) × (right < 2 ^ 11) → ⊥)
            × Tells InvalidParam (codes "bit size of input is larger than requested size") e) }
    {
        if left < 32 && right < 2048 {
            Ok(Frame::Pair { left, right })
        } else {
            Err(DekuError::InvalidParam("bit size of input is larger than requested size"))
        }
    }

    // The id of the variant.
    fn id(&self) -> u8
        ensures { result ≡ id_of self.now }
    {
        match self {
            Frame::Ping { .. } => 1,
            Frame::Data { .. } => 2,
            Frame::Pair { .. } => 3,
        }
    }
}

// How many bytes there are. More than 255 fail. Each byte is below 256.
fn length_of(bytes: &[u8]) -> Result<u8, DekuError>
    ensures ok { IfOk result (λ n. (count bytes.now < 2 ^ 8) × (n ≡ count bytes.now)) }
    ensures err { IfErr result (λ e. (2 ^ 8 ≤ count bytes.now)
        × Tells Parse (codes "error parsing int") e) }
    ensures octets { All (λ b. b < 256) bytes.now }
{
    let length = u8::try_from(bytes.len())?;
    Ok(length)
}

// Reads a token.
fn read_ping<R: Source>(reader: &mut Reader<R>) -> Result<Frame, DekuError>
    ensures reads { Reads R.known ReadsPing reader.old result reader.new }
    ensures early { OnOk result (NoReadAhead R.known reader.old reader.new) }
{
    let token = u16::from_reader_with_ctx(reader, Big)?;
    Ok(Frame::Ping { token })
}

// Reads a length and this many bytes.
fn read_sized<R: Source>(reader: &mut Reader<R>) -> Result<(u8, Vec<u8>), DekuError>
    ensures reads { Reads R.known ReadsSized reader.old result reader.new }
    ensures early { OnOk result (NoReadAhead R.known reader.old reader.new) }
{
    let length = u8::from_reader_with_ctx(reader, Big)?;
    let payload = Vec::<u8>::from_reader_with_ctx(
        reader,
        (Limit::new_count(length as usize), Big),
    )?;
    Ok((length, payload))
}

// Reads a length and this many bytes, as a frame.
fn read_data<R: Source>(reader: &mut Reader<R>) -> Result<Frame, DekuError>
    ensures reads { Reads R.known ReadsData reader.old result reader.new }
    ensures early { OnOk result (NoReadAhead R.known reader.old reader.new) }
{
    let (length, payload) = read_sized(reader)?;
    Ok(Frame::Data { length, payload })
}

// Reads two numbers.
fn read_halves<R: Source>(reader: &mut Reader<R>) -> Result<(u8, u16), DekuError>
    ensures reads { Reads R.known ReadsHalves reader.old result reader.new }
    ensures early { OnOk result (NoReadAhead R.known reader.old reader.new) }
{
    let left = u8::from_reader_with_ctx(reader, (Big, BitSize(5)))?;
    let right = u16::from_reader_with_ctx(reader, (Big, BitSize(11)))?;
    Ok((left, right))
}

// Reads two numbers, as a frame.
fn read_pair<R: Source>(reader: &mut Reader<R>) -> Result<Frame, DekuError>
    ensures reads { Reads R.known ReadsPair reader.old result reader.new }
    ensures early { OnOk result (NoReadAhead R.known reader.old reader.new) }
{
    let (left, right) = read_halves(reader)?;
    Ok(Frame::Pair { left, right })
}

// Reads the fields after an id and a version.
fn read_body<R: Source>(reader: &mut Reader<R>, id: u8, version: u8) -> Result<Frame, DekuError>
    ensures reads { Reads R.known (ReadsBody (id, version)) reader.old result reader.new }
    ensures early { OnOk result (NoReadAhead R.known reader.old reader.new) }
{
    if version != 1 {
        return Err(DekuError::Assertion("Field failed assertion"));
    }
    match id {
        1 => read_ping(reader),
        2 => read_data(reader),
        3 => read_pair(reader),
        _ => Err(DekuError::IdVariantNotFound),
    }
}

// Writes the fields after the id and the version.
fn write_body<W: Sink>(frame: &Frame, writer: &mut Writer<W>) -> Result<(), DekuError>
    ensures { Writes W.known (WritesBody frame.now) writer.old result writer.new }
{
    match frame {
        Frame::Ping { token } => token.to_writer(writer, Big),
        Frame::Data { length, payload } => {
            length.to_writer(writer, Big)?;
            payload.to_writer(writer, Big)
        }
        Frame::Pair { left, right } => {
            left.to_writer(writer, (Big, BitSize(5)))?;
            right.to_writer(writer, (Big, BitSize(11)))
        }
    }
}

/// Reads the id and the version, and then the fields of the id.
///
/// A version other than 1 fails with `Assertion("Field failed assertion")`, and then an id other
/// than 1, 2 and 3 with `IdVariantNotFound`; the reader is then after the eight bits. Otherwise it
/// fails as the first field that fails.
impl DekuReader<()> for Frame {
    ghost meaning = { λ _. ReadsFrame };

    fn from_reader_with_ctx<R: Source>(
        reader: &mut Reader<R>,
        _ctx: (),
    ) -> Result<Self, DekuError> {
        let (id, version) = <(u8, u8)>::from_reader_with_ctx(reader, (Big, BitSize(4)))?;
        read_body(reader, id, version)
    }
}

/// Writes the id, the version and the fields.
///
/// A length that is not that of the payload fails with `Assertion("Field failed assertion")`, and
/// nothing moves. Otherwise it fails as the first field that fails, and what was written before
/// stays written.
impl DekuWriter<()> for Frame {
    ghost meaning = { λ f _. WritesFrame f };

    fn to_writer<W: Sink>(&self, writer: &mut Writer<W>, _ctx: ()) -> Result<(), DekuError> {
        if !in_step(self) {
            return Err(DekuError::Assertion("Field failed assertion"));
        }
        (self.id(), 1u8).to_writer(writer, (Big, BitSize(4)))?;
        write_body(self, writer)
    }
}

// Whether the length is that of the payload, if there is one.
fn in_step(frame: &Frame) -> bool
    ensures { MatchBool result (IsInStep frame.now) (IsInStep frame.now → ⊥) }
{
    match frame {
        Frame::Data { length, payload } => payload.len() == *length as usize,
        _ => true,
    }
}

/// The pieces of the id, the version and the fields. A frame has none if its length is not that of
/// the payload.
impl Part<()> for Frame {
    ghost pieces = { λ f _. OfFrame f };

    ghost same = { SameFrame };

    ghost reads = { λ _. ReadsFrame };

    ghost writes = { λ f _. WritesFrame f };

    ghost law = { λ _. frame_symmetric };
}

impl Symmetric<()> for Frame {
    ghost symmetric = { λ _. frame_symmetric };
}

/// Sets the length to that of the payload. It fails with `Parse("error parsing int")` if a byte
/// cannot count that many bytes, and nothing changes. Frames without a payload stay as they are.
impl DekuUpdate for Frame {
    ghost updates = { Updates };

    fn update(&mut self) -> Result<(), DekuError> {
        if let Frame::Data { length, payload } = self {
            *length = u8::try_from(payload.len())?;
        }
        Ok(())
    }
}

/// 1 for a ping, 2 for data, 3 for a pair.
impl DekuEnumExt<u8> for Frame {
    ghost has_id = { λ f r. r ≡ Ok (id_of f) };

    fn deku_id(&self) -> Result<u8, DekuError> {
        Ok(self.id())
    }
}
