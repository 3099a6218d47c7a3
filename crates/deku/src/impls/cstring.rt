//! Texts that end with a zero.

ghost use Rattle.std.specs.Prelude.{◌≡◌, ◌<◌, ℕ, List, [], ◌∷◌, ◌++◌, length};
ghost use Rattle.std.specs.Prelude.{codes, pos, OnOk, IfOk, IfErr, MatchOption};
ghost use Rattle.std.specs.List.{Contains};
ghost use Rattle.deku_bits.specs.declared.error.DekuError.TheVariants.{Parse};
ghost use Rattle.deku_bits.specs.ReaderCalls.{Reads, read_count};
ghost use Rattle.deku_bits.specs.Faults.{Tells};
ghost use Rattle.deku_num.specs.Numbers.{byte};
ghost use Rattle.deku_num.specs.NumberCalls.{WritesNumber};
ghost use Rattle.deku_meanings.specs.Composing.{Both};
ghost use Rattle.deku_reading.specs.Early.{NoReadAhead};
ghost use Rattle.deku_reading.specs.Lists.{Runs, on_value};
ghost use Rattle.deku_writing.specs.Composing.{WritesEach};
ghost use Rattle.deku.specs.Texts.{NoZeros, IsTerminated, ReadsByte, ReadsTerminated};
ghost use Rattle.deku.specs.Texts.{ReadsWithin};

use deku_bits::device::{Sink, Source};
use deku_bits::error::DekuError;
use deku_bits::reader::Reader;
use deku_bits::writer::Writer;
use deku_num::ctx::{ByteSize, NumberCtx};
use deku_reading::DekuReader;
use deku_writing::DekuWriter;
use std::alloc::Global;
use std::io::ErrorKind;
use std::marker::Model;

/// Bytes without a zero, which are followed by a zero when they are read and written.
#[derive(Debug, Drop)]
pub struct CString {
    bytes: Vec<u8>,
}

impl Model for CString {
    ghost use Rattle.std.specs.Prelude.{ℕ, List};
    ghost use Rattle.deku.specs.Texts.{NoZeros};

    ghost Value = { List ℕ };

    ghost view = { λ text. text.bytes.items };

    ghost invariant = { λ text. NoZeros text.bytes.items };
}

impl PartialEq for CString {
    ghost use Rattle.std.specs.Prelude.{nat_eq};
    ghost use Rattle.std.specs.Cmp.{partial_equiv_from_equiv};
    ghost use Rattle.std.specs.Cmp.Lexicographic.{pointwise, nat_list_eq_equiv};

    ghost eq = { pointwise nat_eq };

    ghost laws = { partial_equiv_from_equiv nat_list_eq_equiv };

    fn eq(&self, other: &CString) -> bool {
        self.as_bytes() == other.as_bytes()
    }
}

impl Eq for CString {
    ghost use Rattle.std.specs.Cmp.Lexicographic.{nat_list_eq_equiv};

    ghost laws = { nat_list_eq_equiv };
}

impl CString {
    /// Makes a text of these bytes. Returns `None` if a zero is among them.
    ///
    /// ```text
    /// CString::new(bytes)                          // None for 61 00 62: a zero is among them
    /// ```
    pub fn new(bytes: Vec<u8>) -> Option<CString>
        ensures { MatchOption result (Contains bytes.items 0)
            (λ text. (text ≡ bytes.items) × NoZeros bytes.items) }
    {
        if bytes.as_slice().contains(&0) {
            None
        } else {
            Some(CString { bytes })
        }
    }

    /// The bytes, without the zero.
    ///
    /// ```text
    /// text.as_bytes()                                            // 61 62, of ab
    /// ```
    pub fn as_bytes(&self) -> &[u8]
        ensures value { result.now ≡ self.now }
        ensures no_zeros { NoZeros self.now }
    {
        self.bytes.as_slice()
    }

    /// The bytes and a zero after them, in memory of `alloc`. Its only error is `Io(OutOfMemory)`,
    /// if there is no memory for them.
    ///
    /// ```text
    /// text.as_bytes_with_nul(alloc)?                             // 61 62 00, of ab
    /// ```
    pub fn as_bytes_with_nul(&self, alloc: Global) -> Result<Vec<u8>, DekuError>
        ensures ok { IfOk result (λ v. v.items ≡ self.now ++ 0 ∷ []) }
        ensures err { IfErr result (λ e. e ≡ DekuError.Io ErrorKind.OutOfMemory) }
    {
        let Ok(mut bytes) = self.bytes.as_slice().to_vec(alloc) else {
            return Err(DekuError::Io(ErrorKind::OutOfMemory));
        };
        match bytes.push(0) {
            Ok(()) => Ok(bytes),
            Err(_) => Err(DekuError::Io(ErrorKind::OutOfMemory)),
        }
    }
}

// Reads a byte, and appends it to those that were read.
fn read_byte<R: Source>(reader: &mut Reader<R>, bytes: &mut Vec<u8>) -> Result<u8, DekuError>
    ensures reads { Reads R.known ReadsByte reader.old result reader.new }
    ensures put { IfOk result (λ b. bytes.new.items ≡ bytes.old.items ++ b ∷ []) }
    ensures early { OnOk result (NoReadAhead R.known reader.old reader.new) }
{
    let byte = u8::from_reader_with_ctx(reader, ())?;
    match bytes.push(byte) {
        Ok(()) => Ok(byte),
        Err(_) => Err(DekuError::Io(ErrorKind::OutOfMemory)),
    }
}

// Reads bytes up to and including the first zero.
fn read_to_zero<R: Source>(reader: &mut Reader<R>) -> Result<Vec<u8>, DekuError>
    ensures reads { Reads R.known (Runs NoZeros (λ bytes. (text : List ℕ) × IsTerminated text bytes)
        ReadsByte) reader.old (on_value (λ v. v.items) result) reader.new }
    ensures early { OnOk result (NoReadAhead R.known reader.old reader.new) }
{
    let mut bytes = Vec::new(reader.alloc());
    loop {
        let byte = read_byte(reader, &mut bytes)?;
        if byte == 0 {
            return Ok(bytes);
        }
    }
}

// Reads this many bytes.
fn read_count<R: Source>(reader: &mut Reader<R>, count: usize) -> Result<Vec<u8>, DekuError>
    ensures reads { Reads R.known (Runs (λ bytes. length bytes < count)
        (λ bytes. length bytes ≡ count) ReadsByte) reader.old (on_value (λ v. v.items) result)
        reader.new }
    ensures early { OnOk result (NoReadAhead R.known reader.old reader.new) }
{
    let mut bytes = Vec::new(reader.alloc());
    for _ in 0..count {
        read_byte(reader, &mut bytes)?;
    }
    Ok(bytes)
}

// The text before the zero at the end of the bytes, if there is no other zero.
fn unended(bytes: Vec<u8>) -> Result<CString, DekuError>
    ensures ok { IfOk result (λ text. IsTerminated text bytes.items) }
    ensures err { IfErr result (λ e. ((text : List ℕ) → IsTerminated text bytes.items → ⊥)
        × Tells Parse (codes "Failed to convert Vec to CString") e) }
{
    let mut text = bytes;
    if let Some(0) = text.pop() {
        if let Some(text) = CString::new(text) {
            return Ok(text);
        }
    }
    Err(DekuError::Parse("Failed to convert Vec to CString"))
}

/// Bytes up to the first zero, which is read too. Each is read as a `u8` under `()`.
///
/// It fails as one of these reads does, or with `Io(OutOfMemory)` if there is no memory for a byte
/// that was read; the reader is then after that byte.
impl DekuReader<()> for CString {
    ghost meaning = { λ _. ReadsTerminated };

    fn from_reader_with_ctx<R: Source>(reader: &mut Reader<R>, ctx: ()) -> Result<Self, DekuError> {
        let bytes = read_to_zero(reader)?;
        unended(bytes)
    }
}

/// This many bytes, of which the last is a zero and no other one is. Each is read as a `u8` under
/// `()`.
///
/// It fails as one of these reads does, or with `Io(OutOfMemory)` if there is no memory for a byte
/// that was read; the reader is then after that byte. If the last byte is not a zero, an earlier
/// byte is one, or there are no bytes, it fails with `Parse("Failed to convert Vec to CString")`,
/// after all of them.
impl DekuReader<ByteSize> for CString {
    ghost meaning = { λ c. ReadsWithin c.0 };

    fn from_reader_with_ctx<R: Source>(
        reader: &mut Reader<R>,
        ctx: ByteSize,
    ) -> Result<Self, DekuError> {
        let bytes = read_count(reader, ctx.0)?;
        unended(bytes)
    }
}

/// The bytes and a zero, each written as a `u8` under the context, one after the other. It takes no
/// memory. It fails as the first byte that fails, and what was written before stays written.
impl<C: NumberCtx> DekuWriter<C> for CString {
    ghost meaning = { λ text c. Both (WritesEach (λ b. WritesNumber byte (C.layout_of c) (pos b))
        text) (WritesNumber byte (C.layout_of c) (pos 0)) };

    fn to_writer<W: Sink>(&self, writer: &mut Writer<W>, ctx: C) -> Result<(), DekuError> {
        self.as_bytes().to_writer(writer, ctx)?;
        0u8.to_writer(writer, ctx)
    }
}
