//! Plans, made, read and written, against worked examples.

use crate::table::{Bytes, MOST, Numbers, ROOM, done, four, known, result, three, two};
use deku::error::{DekuError, NeedSize};
use deku_fields::{Field, Number, parse_field};
use deku_plan::{Plan, WrongWords, high_at, value_at};
use deku_testing_values::expecting::{NO_MEMORY, expect_bytes, reader_of, same, writer_in};
use std::alloc::Global;
use std::test::Fail;

const NONE_YET: Number = Number::Unsigned(7);

// A plan of the fields that words name.
fn plan_of(alloc: Global, words: &str) -> Result<Plan, DekuError> {
    let mut fields: Vec<Field> = Vec::new(alloc);
    for word in words.split_whitespace() {
        match parse_field(word) {
            Some(field) => push(&mut fields, field)?,
            None => return Err(DekuError::Assertion("a word names no field")),
        }
    }
    Plan::new(alloc, fields.as_slice())
}

// One field more.
fn push(fields: &mut Vec<Field>, field: Field) -> Result<(), DekuError> {
    match fields.push(field) {
        Ok(()) => Ok(()),
        Err(_) => Err(NO_MEMORY),
    }
}

// A number without a sign.
fn plain(value: u128) -> Number {
    Number::Unsigned(value)
}

// The plan reads the values from the bytes, with a reader.
fn expect_read(
    alloc: Global,
    line: &str,
    plan: &Plan,
    bytes: &[u8],
    values: &[Number],
) -> Result<(), Fail> {
    let count = plan.fields().len();
    let mut out = [NONE_YET; MOST];
    if count > MOST {
        return known(line, None);
    }
    let mut reader = reader_of(alloc, bytes);
    let read = plan.read(&mut reader, &mut out[..count]);
    same(
        &line,
        &(read, &out[..count], reader.bits_read()),
        &(Ok(()), values, plan.bits()),
    )
}

// The plan reads the values of as many records from the bytes.
fn expect_all(
    alloc: Global,
    line: &str,
    plan: &Plan,
    bytes: &[u8],
    values: &[Number],
) -> Result<(), Fail> {
    let fields = plan.fields().len();
    let count = values.len().checked_div(fields).unwrap_or(0);
    let mut out = [NONE_YET; MOST];
    if count.checked_mul(fields) != Some(values.len()) || values.len() > MOST {
        return known(line, None);
    }
    let read = plan.read_all(alloc, bytes, count, &mut out[..values.len()]);
    same(&line, &(read, &out[..values.len()]), &(Ok(()), values))
}

// The plan writes the values as the bytes, with a writer.
fn expect_written(
    alloc: Global,
    line: &str,
    plan: &Plan,
    bytes: &[u8],
    values: &[Number],
) -> Result<(), Fail> {
    if plan.fields().len() != values.len() {
        return known(line, None);
    }
    let mut writer = writer_in(alloc);
    done(line, plan.write(&mut writer, values))?;
    expect_bytes(&line, writer, bytes)
}

// Words, and values that are read from these bytes, by each of the calls, and written as them.
const BOTH: &str = "\
    | |
    u8,big,bits4 u8,big,bits4 u16,big | 6 9 BEEF | 69 BE EF
    u8,lsb,bits5 u16,lsb u8,lsb,bits3 | 1 91A5 0 | A1 34 12
    u16,little,bits12 u8,bits4 | CAB D | AB CD
    i16,big,bits12 i8,big,bits4 i16 | s-11 s7 s-2 | FE F7 FE FF
    u8,bits4 u64,big,bits60 | 0 0123456789ABCDEF | 01 23 45 67 89 AB CD EF
    u8,bits4 u64,big u8,bits4 | 1 0123456789ABCDEF A | 10 12 34 56 78 9A BC DE FA
    u8,bits4 u128,big,bits68 | 1 8123456789ABCDEFA | 18 12 34 56 78 9A BC DE FA
    u8,bits0 u8 | 0 2A | 2A";

fn both(line: &str) -> Option<(&str, Numbers, Bytes)> {
    let (words, values, octets) = three(line)?;
    Some((words, Numbers::parse(values)?, Bytes::parse(octets)?))
}

fn expect_both(alloc: Global, line: &str) -> Result<(), Fail> {
    let (words, values, octets) = known(line, both(line))?;
    let (values, octets) = (values.as_slice(), octets.as_slice());
    let plan = done(line, plan_of(alloc, words))?;
    expect_read(alloc, line, &plan, octets, values)?;
    expect_all(alloc, line, &plan, octets, values)?;
    expect_written(alloc, line, &plan, octets, values)
}

#[test]
fn reads_and_writes_plans(rt: HostRuntime) -> Result<(), Fail> {
    for line in BOTH.lines() {
        expect_both(rt.alloc(), line)?;
    }
    Ok(())
}

// Words, their bits and bytes, and whether the order changes only at byte boundaries.
const SIZES: [(&str, (usize, usize, bool)); 6] = [
    ("", (0, 0, true)),
    ("u8,bits3 u16,big,bits13", (16, 2, true)),
    ("u8,bits3 u8,bits2", (5, 1, true)),
    ("u8,bits3 u8,lsb,bits5", (8, 1, false)),
    ("u8,lsb u8,bits3 u8,big,bits0", (11, 2, true)),
    ("u8,bits3 u8,lsb,bits0 u8,bits5", (8, 1, true)),
];

#[test]
fn says_sizes(rt: HostRuntime) -> Result<(), Fail> {
    for (words, wanted) in SIZES {
        let plan = plan_of(rt.alloc(), words)?;
        same(
            &words,
            &(plan.bits(), plan.bytes(), plan.is_aligned()),
            &wanted,
        )?;
    }
    Ok(())
}

// Why a plan is refused, if it is. If memory runs out, the test fails.
fn refusal(plan: Result<Plan, DekuError>) -> Result<Option<DekuError>, DekuError> {
    match plan {
        Ok(_) => Ok(None),
        Err(error) if error == NO_MEMORY => Err(error),
        Err(error) => Ok(Some(error)),
    }
}

// Words, and why they are refused.
const REFUSED: &str = "\
    u8 u8,bits9 u16,bytes3 | bit size is larger than input
    u16,bytes3 | byte size is larger than input
    i16,big,lsb,bits12 | signed big Lsb0 field of this width
    u8,bits9 i16,big,lsb,bits12 | bit size is larger than input";

#[test]
fn refuses_layouts(rt: HostRuntime) -> Result<(), Fail> {
    for line in REFUSED.lines() {
        let (words, why) = known(line, two(line))?;
        let seen = refusal(plan_of(rt.alloc(), words))?;
        same(&line, &seen, &Some(DekuError::InvalidParam(why)))?;
    }
    Ok(())
}

// Words of one field, the bit that it begins at, bytes, and its value and the bit after it; or
// nothing, if it cannot be cut from them.
const PLACED: &str = "\
    u8,big,bits4 | 0 | 69 | 6 4
    u16,big,bits12 | 4 | 69 C0 | 9C0 10
    u16,big | 8 | 00 BE EF | BEEF 18
    u64,big,bits57 | 7 | 00 23 45 67 89 AB CD EF | 23456789ABCDEF 40
    u64,big | 4 | 10 12 34 56 78 9A BC DE FA | 0123456789ABCDEF 44
    u16,little,bits12 | 0 | AB CD | CAB C
    i8,big,bits4 | 4 | 0F | s-1 8
    u8,big | 1 | 69 |
    u8,big,bits0 | 0 | 69 |
    u8,lsb | 0 | 69 |
    u8,bits9 | 0 | 69 BE |
    u128,big | 0 | 00 00 00 00 00 00 00 00 00 00 00 00 00 00 00 00 |";

fn placed(line: &str) -> Option<(Field, usize, Bytes, Numbers)> {
    let (word, bit, octets, wanted) = four(line)?;
    let (field, bit) = (parse_field(word)?, bit.parse().ok()?);
    Some((field, bit, Bytes::parse(octets)?, Numbers::parse(wanted)?))
}

fn expect_placed(line: &str) -> Result<(), Fail> {
    let (field, bit, octets, wanted) = known(line, placed(line))?;
    let wanted = wanted.as_slice();
    match value_at(octets.as_slice(), bit, &field) {
        Some((value, after)) => same(&line, &[value, plain(after as u128)].as_slice(), &wanted),
        None => same(&line, &wanted.len(), &0),
    }
}

#[test]
fn cuts_single_fields() -> Result<(), Fail> {
    for line in PLACED.lines() {
        expect_placed(line)?;
    }
    Ok(())
}

#[test]
fn cuts_single_numbers() -> Result<(), Fail> {
    let bytes = [0x10, 0x12, 0x34, 0x56, 0x78, 0x9A, 0xBC, 0xDE, 0xFA];
    let rows: [(usize, usize, Option<(u64, usize)>); 5] = [
        (4, 64, Some((0x0123_4567_89AB_CDEF, 68))),
        (12, 8, Some((0x23, 20))),
        (0, 0, None),
        (0, 65, None),
        (65, 8, None),
    ];
    for (bit, width, wanted) in rows {
        same(&(bit, width), &high_at(&bytes, bit, width), &wanted)?;
    }
    Ok(())
}

// Words, the index of a field, bytes, and the values of that field in the records of the bytes.
const COLUMNS: &str = "\
    u8,big,bits4 u16,big,bits8 | 1 | 69 C0 FE DC BA | 9C FE CB
    u16,big,bits12 u8,big,bits4 | 0 | 12 34 56 78 9A BC DE F0 1F | 123 567 9AB DEF
    u16,big,bits12 u8,big,bits4 | 1 | 12 34 56 78 9A BC DE F0 | 4 8 C 0
    u64,big,bits56 u16,big | 0 | 01 12 23 34 45 56 67 78 89 9A AB BC CD DE EF F0 0F 1E \
        | 01122334455667 9AABBCCDDEEFF0
    u64,big,bits56 u16,big | 1 | 01 12 23 34 45 56 67 78 89 9A AB BC CD DE EF F0 0F 1E | 7889 0F1E
    u8,big,bits3 u16,big,bits13 | 1 | 01 12 23 34 45 56 67 78 89 9A AB BC CD DE EF F0 0F 1E \
        | 112 334 556 778 99A BBC DDE FF0 F1E
    u8,big,bits3 u8,big,bits5 | 0 | 01 12 23 34 45 56 67 78 89 9A AB BC CD DE EF F0 0F 1E \
        | 0 0 1 1 2 2 3 3 4 4";

// The plan reads these values of one field from as many records.
fn expect_column(
    alloc: Global,
    line: &str,
    plan: &Plan,
    index: usize,
    bytes: &[u8],
    values: &[Number],
) -> Result<(), Fail> {
    let mut column = [NONE_YET; MOST];
    if index >= plan.fields().len() || values.len() > MOST {
        return known(line, None);
    }
    let answer = plan.read_column(alloc, bytes, index, &mut column[..values.len()]);
    done(line, answer)?;
    same(&line, &&column[..values.len()], &values)
}

fn indexed(line: &str) -> Option<(&str, usize, Bytes, Numbers)> {
    let (words, index, octets, values) = four(line)?;
    let index = index.parse().ok()?;
    Some((words, index, Bytes::parse(octets)?, Numbers::parse(values)?))
}

fn expect_index(alloc: Global, line: &str) -> Result<(), Fail> {
    let (words, index, octets, values) = known(line, indexed(line))?;
    let plan = done(line, plan_of(alloc, words))?;
    expect_column(
        alloc,
        line,
        &plan,
        index,
        octets.as_slice(),
        values.as_slice(),
    )
}

#[test]
fn reads_columns(rt: HostRuntime) -> Result<(), Fail> {
    for line in COLUMNS.lines() {
        expect_index(rt.alloc(), line)?;
    }
    Ok(())
}

#[test]
fn misses_bits(rt: HostRuntime) -> Result<(), Fail> {
    let plan = plan_of(rt.alloc(), "u8,big,bits4 u16,big")?;
    if plan.fields().len() != 2 {
        return same(&"fields", &plan.fields().len(), &2);
    }
    let mut out = [NONE_YET; 6];
    let mut reader = reader_of(rt.alloc(), &[0x69, 0xC0]);
    let read = plan.read(&mut reader, &mut out[..2]);
    let short = DekuError::Incomplete(NeedSize::new(16));
    same(&"read", &(read, reader.bits_read()), &(Err(short), 4))?;
    let seen = plan.read_all(rt.alloc(), &[0x69, 0xC0, 0xFE], 3, &mut out);
    same(&"the second cut short", &seen, &Err(short))
}

// Words, values that they cannot hold, and why. Nothing is written then.
const UNWRITTEN: &str = "\
    u8,big,bits4 u16,big | 10 0 | bit size of input is larger than requested size
    u8,big,bits4 u16,big | F 10000 | value outside type
    u8,big,bits4 u16,big | F s1 | value outside type";

fn unwritten(line: &str) -> Option<(&str, Numbers, &str)> {
    let (words, values, why) = three(line)?;
    Some((words, Numbers::parse(values)?, why))
}

fn expect_unwritten(alloc: Global, line: &'static str) -> Result<(), Fail> {
    let (words, values, why) = known(line, unwritten(line))?;
    let plan = done(line, plan_of(alloc, words))?;
    let values = values.as_slice();
    if plan.fields().len() != values.len() {
        return known(line, None);
    }
    let mut writer = writer_in(alloc);
    let seen = plan.write(&mut writer, values);
    same(
        &line,
        &(seen, writer.bits_written()),
        &(Err(DekuError::InvalidParam(why)), 0),
    )
}

#[test]
fn refuses_as_lists(rt: HostRuntime) -> Result<(), Fail> {
    for line in UNWRITTEN.lines() {
        expect_unwritten(rt.alloc(), line)?;
    }
    Ok(())
}

#[test]
fn parses_words(rt: HostRuntime) -> Result<(), Fail> {
    let wide = DekuError::InvalidParam("bit size is larger than input");
    // The words, and what is wrong, or the bits of the plan.
    let rows: [(&[&str], Result<usize, WrongWords>); 4] = [
        (&["u8,big,bits4", "u16,big,bits12"], Ok(16)),
        (&["u8", "u9", "u8,bits9"], Err(WrongWords::NoField(1))),
        (
            &["u8", "u8,bits9", "u9"],
            Err(WrongWords::Rejected(1, wide)),
        ),
        (&[""], Err(WrongWords::NoField(0))),
    ];
    for (words, wanted) in rows {
        let bits = Plan::parse(rt.alloc(), words).map(|plan| plan.bits());
        same(&words, &bits, &wanted)?;
    }
    Ok(())
}

// Words, the values of records, the result, and the bytes of the output after it. They were all AA.
const LAID: &str = "\
    u8,big,bits4 u8,big,bits4 u8,big u16,big u16,big u8,big,bits3 u16,big,bits13 u8,big u8,big \
        u16,big u32,big u32,big | 4 5 0 73 0 2 0 40 11 B861 C0A80001 C0A800C7 | 20 \
        | 45 00 00 73 00 00 40 00 40 11 B8 61 C0 A8 00 01 C0 A8 00 C7 AA AA AA
    u16,big,bits11 u64,big,bits57 u8,big,bits4 \
        | 5A5 0123456789ABCDEF 9 3 01FEDCBA98765432 6 | 18 \
        | B4 B2 34 56 78 9A BC DE F9 00 7F ED CB A9 87 65 43 26
    u16,big,bits10 | 3FF 1 155 2AA | 5 | FF C0 15 56 AA
    u16,big,bits10 | 3FF 1 155 | 4 | FF C0 15 54 AA
    u64,big,bits58 u8,big,bits6 | 03FEDCBA98765432 2A | 8 | FF B7 2E A6 1D 95 0C AA AA
    u8,big,bits0 u64,big,bits57 u8,big,bits7 | 0 01FFFFFFFFFFFFFF 0 | 8 | FF FF FF FF FF FF FF 80
    u64,big,bits48 u16,big,bits12 u16,big,bits12 | 0123456789AB CDE F01 | 9 \
        | 01 23 45 67 89 AB CD EF 01 AA
    u8,big,bits4 u8,big,bits0 u16,big,bits12 | 6 0 9C0 F 0 EDC | 4 | 69 C0 FE DC AA
    u8,big,bits4 u16,big,bits12 | | 0 | AA
    u8,big,bits4 u16,big,bits12 | 6 9C0 F 1000 | bit size of input is larger than requested size \
        | 69 C0 AA AA AA AA AA AA AA AA
    u8,big,bits4 u16,big,bits12 | 6 9C0 F 10000 | value outside type | 69 C0 AA AA
    u8,big,bits4 u16,big,bits12 | 6 9C0 s1 0 | value outside type | 69 C0 AA AA
    u64,big,bits56 | 10000000000000000 | value outside type | AA AA AA AA AA AA AA
    u8,big,bits4 u16,big,bits12 | 6 9C0 F EDC | full | 69 C0
    u8,big,bits4 u16,big,bits12 | 6 9C0 F EDC | 4 | 69 C0 FE DC
    u8,big,bits4 u16,big,bits8 | 6 9C 0 FE | 3 | 69 C0 FE AA
    u8,big,bits4 u16,big,bits8 | 6 9C 0 FE D CB | 5 | 69 C0 FE DC B0
    u8,big,bits4 u16,big,bits8 | 6 9C 0 FE | full | 69 C0";

// The plan writes the values of records over bytes that are all AA, with this result.
fn expect_laid(
    line: &str,
    plan: &Plan,
    values: &[Number],
    wanted: Result<usize, DekuError>,
    bytes: &[u8],
) -> Result<(), Fail> {
    let fields = plan.fields().len();
    let count = values.len().checked_div(fields).unwrap_or(0);
    let mut out = [0xAA; ROOM];
    if count.checked_mul(fields) != Some(values.len()) || bytes.len() > ROOM {
        return known(line, None);
    }
    let seen = plan.write_all(count, values, &mut out[..bytes.len()]);
    same(&line, &(seen, &out[..bytes.len()]), &(wanted, bytes))
}

// The records are written so. If there is no error, they are read back.
fn laid(line: &str) -> Option<(&str, Numbers, &str, Bytes)> {
    let (words, values, wanted, octets) = four(line)?;
    Some((
        words,
        Numbers::parse(values)?,
        wanted,
        Bytes::parse(octets)?,
    ))
}

fn expect_records(alloc: Global, line: &'static str) -> Result<(), Fail> {
    let (words, values, wanted, octets) = known(line, laid(line))?;
    let (values, octets) = (values.as_slice(), octets.as_slice());
    let plan = done(line, plan_of(alloc, words))?;
    expect_laid(line, &plan, values, result(wanted), octets)?;
    match result(wanted) {
        Ok(_) => expect_all(alloc, line, &plan, octets, values),
        Err(_) => Ok(()),
    }
}

#[test]
fn lays_records(rt: HostRuntime) -> Result<(), Fail> {
    for line in LAID.lines() {
        expect_records(rt.alloc(), line)?;
    }
    Ok(())
}

// Writes this many records of 4 and 12 bits. The second value of the one at `wrong`, if there is
// one, has a bit too many, so that only the records before it are written.
fn expect_many(plan: &Plan, count: usize, wrong: usize) -> Result<(), Fail> {
    let count = count.min(130);
    let mut values = [Number::Unsigned(0); 260];
    let mut bytes = [0xAA; 260];
    let places = values
        .as_chunks_mut::<2>()
        .0
        .iter_mut()
        .zip(bytes.as_chunks_mut::<2>().0);
    for (row, (numbers, two)) in places.enumerate().take(count) {
        let (first, second) = (row % 16, row % 100 * 41);
        let more = if row == wrong { 4096 } else { 0 };
        *numbers = [plain(first as u128), plain((second + more) as u128)];
        if row < wrong {
            *two = ((first * 4096 + second) as u16).to_be_bytes();
        }
    }
    let wanted = if wrong < count {
        Err(DekuError::InvalidParam("bit size of input is larger than requested size"))
    } else {
        Ok(2 * count)
    };
    if count.checked_mul(plan.fields().len()) != Some(2 * count) {
        return known("fields", None);
    }
    let mut out = [0xAA; 260];
    let seen = plan.write_all(count, &values[..2 * count], &mut out);
    same(&(count, wrong), &(seen, &out[..]), &(wanted, &bytes[..]))
}

// At most 64 groups of fields are written at once, and more in two passes.
#[test]
fn lays_many_records(rt: HostRuntime) -> Result<(), Fail> {
    let words = "u8,big,bits4 u16,big,bits12";
    let plan = done(words, plan_of(rt.alloc(), words))?;
    for count in [1, 2, 63, 64, 65, 130] {
        for wrong in [0, count / 2, count - 1, count] {
            expect_many(&plan, count, wrong)?;
        }
    }
    Ok(())
}
