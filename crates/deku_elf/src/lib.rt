//! The file header of an ELF64 file and its program headers, as in the chapters on object files of
//! the System V ABI.
//!
//! ```text
//! magic         32 bits     7F 45 4C 46
//! class          8 bits     2: 64 bits
//! endian         8 bits     1: the low byte of each number first; 2: the high one
//! version        8 bits     1
//! abi            8 bits     0 System V, 3 Linux
//! abi version    8 bits
//! padding       56 bits
//! kind, machine                   16 bits each
//! version                         32 bits
//! entry, segments, sections       64 bits each: an address, and two places in the file
//! flags                           32 bits
//! six sizes and counts            16 bits each
//! ```
//!
//! The program headers are at `segments_at`, 56 bytes each.

#![tactic(auto)]

ghost use Rattle.std.specs.Prelude.{◌≡◌, ◌≤◌, ◌<◌, ◌^◌, Err, codes, refl};
ghost use Rattle.std.specs.declared.io.ErrorKind.TheVariants.{InvalidInput};
ghost use Rattle.std.proofs.Common.{ap, sym};
ghost use Rattle.deku_bits.specs.declared.error.DekuError.TheVariants.{Io};
ghost use Rattle.deku_elf.specs.Elf.{endian_of, fields_of, segments_at, in_file, elf_of, file_back};
ghost use Rattle.deku_elf.specs.Following.{ReadsFrom, ReadsSegments, bits_before};
ghost use Rattle.deku_elf.specs.declared.Elf.TheVariants.{Little, Big};
ghost use Rattle.deku.specs.Composing.{Then};
ghost use Rattle.deku.specs.Shapes.{Shows};

pub mod fields;
pub mod segment;

use crate::fields::Fields;
use crate::segment::Segment;
use deku::ctx::{Endian, Limit};
use deku::device::{Sink, Source};
use deku::prelude::{DekuError, DekuReader, DekuWriter, Reader, Writer};
use deku_symmetry::{
    Be, Constant, ConstantLaw, Either, Enum, FromParts, Kind, Le, Magic, Msb, MsbEnum, Record,
    ToParts, read_record, write_record,
};
use std::io::{Seek, SeekFrom};

/// The file header: its fields, under one endian or the other.
#[derive(Debug, Clone, Copy, PartialEq, Eq)]
pub enum Elf {
    /// The byte of the endian is 1: the low byte of each number first.
    Little(Fields),
    /// The byte of the endian is 2: the high byte of each number first.
    Big(Fields),
}

impl Elf {
    /// The endian that the file names.
    ///
    /// ```text
    /// elf.endian()                                                     // Endian::Little on x86-64
    /// ```
    pub fn endian(&self) -> Endian
        ensures { result ≡ endian_of self.now }
    {
        match self {
            Elf::Little(_) => Endian::Little,
            Elf::Big(_) => Endian::Big,
        }
    }

    /// The fields.
    ///
    /// ```text
    /// elf.fields().machine                                             // 62 on x86-64
    /// ```
    pub fn fields(&self) -> &Fields
        ensures { result.now ≡ fields_of self.now }
    {
        match self {
            Elf::Little(fields) => fields,
            Elf::Big(fields) => fields,
        }
    }
}

/// Reads the program headers of a file whose header was read, from the place that it names.
///
/// It fails with `Io(InvalidInput)`, and nothing changes, if a `usize` cannot count the bits before
/// this place. Then it fails if the source fails to seek, which stops the reader. Then it fails as
/// the first program header that fails, or with `Io(OutOfMemory)` if there is no memory for one;
/// the reader is then after the program headers before it. It is not checked that a program header
/// has 56 bytes.
///
/// ```text
/// let elf = Elf::from_reader_with_ctx(&mut reader, ())?;
/// let segments = segments(&mut reader, &elf)?;
/// ```
pub fn segments<R: Source>(reader: &mut Reader<R>, elf: &Elf) -> Result<Vec<Segment>, DekuError>
    // The count of bits does not reach this place.
    ensures past { 2 ^ 64 ≤ bits_before elf.now reader.old → (result ≡ Err (Io InvalidInput))
        × (reader.new ≡ reader.old) }
    // Otherwise as many as the header says, from the place that it names, under its endian.
    ensures reads { bits_before elf.now reader.old < 2 ^ 64
        → ReadsFrom R.known (segments_at elf.now)
        (ReadsSegments elf.now ⟦<Segment as DekuReader<Endian>>⟧.meaning) reader.old result
        reader.new }
{
    let fields = elf.fields();
    reader.seek(SeekFrom::Start(fields.segments_at))?;
    let limit = Limit::new_count(fields.segment_count as usize);
    Vec::from_reader_with_ctx(reader, (limit, elf.endian()))
}

/// The first four bytes of each ELF file.
#[derive(Debug, PartialEq, Eq, Drop)]
pub struct Signature;

impl Constant<Be<u32>> for Signature {
    ghost value = { record { 0 = 0x7F454C46 } };

    ghost text = { codes "magic" };

    fn value() -> Be<u32> {
        Be(0x7F454C46)
    }

    fn is_value(part: &Be<u32>) -> bool {
        part.0 == 0x7F454C46
    }

    fn text() -> &'static str {
        "magic"
    }
}

impl ConstantLaw<Be<u32>> for Signature {
    ghost alike = { λ v e. rw e refl };
}

/// The class of the file: addresses of 64 bits.
#[derive(Debug, PartialEq, Eq, Drop)]
pub struct Class;

impl Constant<Msb<u8, 8>> for Class {
    ghost value = { record { 0 = 2 } };

    ghost text = { codes "class" };

    fn value() -> Msb<u8, 8> {
        Msb(2)
    }

    fn is_value(part: &Msb<u8, 8>) -> bool {
        part.0 == 2
    }

    fn text() -> &'static str {
        "class"
    }
}

impl ConstantLaw<Msb<u8, 8>> for Class {
    ghost alike = { λ v e. ap (λ n. record { 0 = n }) (sym e) };
}

// The parts that are the same in each file, the byte of the endian, and the fields under it.
type Parts = (
    Magic<Be<u32>, Signature>,
    Magic<Msb<u8, 8>, Class>,
    MsbEnum<Either<Kind<Le<Fields>, 1>, Kind<Be<Fields>, 2>>, 8>,
);

impl FromParts for Elf {
    type Parts = Parts;

    ghost parts_of = { λ r. (
      record { part = record {}; constant = record {} },
      record { part = record {}; constant = record {} },
      in_file r,
    ) };

    ghost record_of = { λ p. elf_of p.2 };

    fn from_parts(parts: Self::Parts) -> Self {
        let (_, _, fields) = parts;
        match fields.kind {
            Either::This(Kind(Le(fields))) => Elf::Little(fields),
            Either::Other(Kind(Be(fields))) => Elf::Big(fields),
        }
    }

    ghost there = { elim [ Little f ↦ refl | Big f ↦ refl ] };
}

impl ToParts for Elf {
    fn parts(&self) -> Self::Parts {
        let kind = match self {
            Elf::Little(fields) => Either::This(Kind(Le(*fields))),
            Elf::Big(fields) => Either::Other(Kind(Be(*fields))),
        };
        (Magic::new(), Magic::new(), Enum::new(kind))
    }
}

impl Record<()> for Elf {
    type Layout = Parts;

    ghost reads = { λ c b s r u m. m };

    ghost writes = { λ c v b s r u m. m };
}

impl DekuReader<()> for Elf {
    ghost no_read_ahead = { ⟦<Parts as DekuReader<()>>⟧.no_read_ahead };

    ghost meaning = { λ _. Then (⟦<Parts as DekuReader<()>>⟧.meaning tt)
        (Shows ⟦<Elf as FromParts>⟧.parts_of) };

    fn from_reader_with_ctx<R: Source>(
        reader: &mut Reader<R>,
        _ctx: (),
    ) -> Result<Self, DekuError> {
        read_record(reader, ())
    }
}

impl DekuWriter<()> for Elf {
    ghost meaning = { λ v _. ⟦<Parts as DekuWriter<()>>⟧.meaning
        (⟦<Elf as FromParts>⟧.parts_of v) tt };

    fn to_writer<W: Sink>(&self, writer: &mut Writer<W>, _ctx: ()) -> Result<(), DekuError> {
        write_record(self, writer, ())
    }
}
