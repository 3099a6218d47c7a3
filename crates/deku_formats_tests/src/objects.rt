//! The file header and the program headers of two files, both ways, and what is refused.

use deku::prelude::{DekuError, DekuReader, NeedSize, Reader};
use deku_elf::fields::Fields;
use deku_elf::segment::Segment;
use deku_elf::{Elf, segments};
use deku_testing_values::records::{expect_record, expect_refusal};
use std::io::Cursor;
use std::test::Fail;

// The first 176 bytes of `/bin/true` of coreutils 9.1, as Debian 12 has it for x86-64. The values
// below are those that `readelf -hlW` prints.
const TRUE: [u8; 176] = [
    0x7F, 0x45, 0x4C, 0x46, 0x02, 0x01, 0x01, 0x00, 0x00, 0x00, 0x00, 0x00, 0x00, 0x00, 0x00, 0x00,
    0x03, 0x00, 0x3E, 0x00, 0x01, 0x00, 0x00, 0x00, 0xD0, 0x23, 0x00, 0x00, 0x00, 0x00, 0x00, 0x00,
    0x40, 0x00, 0x00, 0x00, 0x00, 0x00, 0x00, 0x00, 0x90, 0x83, 0x00, 0x00, 0x00, 0x00, 0x00, 0x00,
    0x00, 0x00, 0x00, 0x00, 0x40, 0x00, 0x38, 0x00, 0x0D, 0x00, 0x40, 0x00, 0x1F, 0x00, 0x1E, 0x00,
    0x06, 0x00, 0x00, 0x00, 0x04, 0x00, 0x00, 0x00, 0x40, 0x00, 0x00, 0x00, 0x00, 0x00, 0x00, 0x00,
    0x40, 0x00, 0x00, 0x00, 0x00, 0x00, 0x00, 0x00, 0x40, 0x00, 0x00, 0x00, 0x00, 0x00, 0x00, 0x00,
    0xD8, 0x02, 0x00, 0x00, 0x00, 0x00, 0x00, 0x00, 0xD8, 0x02, 0x00, 0x00, 0x00, 0x00, 0x00, 0x00,
    0x08, 0x00, 0x00, 0x00, 0x00, 0x00, 0x00, 0x00, 0x03, 0x00, 0x00, 0x00, 0x04, 0x00, 0x00, 0x00,
    0x18, 0x03, 0x00, 0x00, 0x00, 0x00, 0x00, 0x00, 0x18, 0x03, 0x00, 0x00, 0x00, 0x00, 0x00, 0x00,
    0x18, 0x03, 0x00, 0x00, 0x00, 0x00, 0x00, 0x00, 0x1C, 0x00, 0x00, 0x00, 0x00, 0x00, 0x00, 0x00,
    0x1C, 0x00, 0x00, 0x00, 0x00, 0x00, 0x00, 0x00, 0x01, 0x00, 0x00, 0x00, 0x00, 0x00, 0x00, 0x00,
];

// Its header.
const TRUE_FIELDS: Fields = Fields {
    identification: [1, 0, 0, 0, 0, 0, 0, 0, 0, 0],
    kind: 3,
    machine: 62,
    version: 1,
    entry: 0x23D0,
    segments_at: 64,
    sections_at: 33680,
    flags: 0,
    sizes: [64, 56],
    segment_count: 13,
    sections: [64, 31, 30],
};

// Its first two program headers: that of the table itself, and that of the interpreter's name.
const TRUE_SEGMENTS: [Segment; 2] = [
    Segment {
        kind: 6,
        flags: 4,
        offset: 0x40,
        address: 0x40,
        physical: 0x40,
        file_size: 0x2D8,
        memory_size: 0x2D8,
        alignment: 8,
    },
    Segment {
        kind: 3,
        flags: 4,
        offset: 0x318,
        address: 0x318,
        physical: 0x318,
        file_size: 0x1C,
        memory_size: 0x1C,
        alignment: 1,
    },
];

// The header of an object that GNU as 2.40 for powerpc64 makes of one `nop`: the high byte of each
// number first. The values below are those that `readelf -hW` prints.
const OBJECT: [u8; 64] = [
    0x7F, 0x45, 0x4C, 0x46, 0x02, 0x02, 0x01, 0x00, 0x00, 0x00, 0x00, 0x00, 0x00, 0x00, 0x00, 0x00,
    0x00, 0x01, 0x00, 0x15, 0x00, 0x00, 0x00, 0x01, 0x00, 0x00, 0x00, 0x00, 0x00, 0x00, 0x00, 0x00,
    0x00, 0x00, 0x00, 0x00, 0x00, 0x00, 0x00, 0x00, 0x00, 0x00, 0x00, 0x00, 0x00, 0x00, 0x00, 0xF8,
    0x00, 0x00, 0x00, 0x00, 0x00, 0x40, 0x00, 0x00, 0x00, 0x00, 0x00, 0x40, 0x00, 0x07, 0x00, 0x06,
];

// Its fields: relocatable, for machine 21, PowerPC64.
const OBJECT_FIELDS: Fields = Fields {
    identification: [1, 0, 0, 0, 0, 0, 0, 0, 0, 0],
    kind: 1,
    machine: 21,
    version: 1,
    entry: 0,
    segments_at: 0,
    sections_at: 248,
    flags: 0,
    sizes: [64, 0],
    segment_count: 0,
    sections: [64, 7, 6],
};

#[test]
fn file_headers(rt: HostRuntime) -> Result<(), Fail> {
    let rows: [(Elf, &[u8]); 2] = [
        (Elf::Little(TRUE_FIELDS), &TRUE[..64]),
        (Elf::Big(OBJECT_FIELDS), &OBJECT),
    ];
    for (elf, bytes) in rows {
        expect_record(rt.alloc(), &elf, bytes)?;
    }
    Ok(())
}

// The program headers are where the header says, also if it was read last: the first two of them,
// since the bytes have no more.
#[test]
fn program_headers(rt: HostRuntime) -> Result<(), Fail> {
    let mut fields = TRUE_FIELDS;
    fields.segment_count = 2;
    let mut reader = Reader::new(rt.alloc(), Cursor::new(TRUE.as_slice()));
    let found = segments(&mut reader, &Elf::Little(fields))?;
    assert!(rt; found.as_slice() == TRUE_SEGMENTS.as_slice(), "{found:?}");
    assert!(rt; reader.bits_read() == 1408, "{} bits", reader.bits_read());
    Ok(())
}

// The header names thirteen headers, and the bytes have two of them: the third is refused after
// those.
#[test]
fn too_few_program_headers(rt: HostRuntime) -> Result<(), Fail> {
    let mut reader = Reader::new(rt.alloc(), Cursor::new(TRUE.as_slice()));
    let elf = Elf::from_reader_with_ctx(&mut reader, ())?;
    let answer = segments(&mut reader, &elf);
    let ended = DekuError::Incomplete(NeedSize::new(32));
    assert!(rt; answer == Err(ended), "{answer:?}");
    assert!(rt; reader.bits_read() == 1408, "{} bits", reader.bits_read());
    Ok(())
}

#[test]
fn refusals(rt: HostRuntime) -> Result<(), Fail> {
    let magic = DekuError::Assertion("magic");
    expect_refusal::<Elf>(rt.alloc(), b"\x7FELD", magic, 32)?;
    let class = DekuError::Assertion("class");
    expect_refusal::<Elf>(rt.alloc(), b"\x7FELF\x01\x01", class, 40)?;
    let endian = DekuError::IdVariantNotFound;
    expect_refusal::<Elf>(rt.alloc(), b"\x7FELF\x02\x03", endian, 48)
}
