//! Lists of fields, read and written, against worked examples.

ghost use Rattle.std.specs.Prelude.{◌≡◌, ◌<◌, ◌≤◌, ◌*◌, ◌^◌, List, ℕ, Ok};
ghost use Rattle.std.specs.Prelude.{length, map, All};
ghost use Rattle.deku_bits.specs.Pieces.{total};
ghost use Rattle.deku_fields.specs.declared.list.Item.{Item as ListItem};
ghost use Rattle.deku_fields.specs.Items.{field_shape, values_of as list_values};
ghost use Rattle.deku_fields.specs.Items.{fields_of as list_fields, IsFitting, AlignedFields};
ghost use Rattle.deku_fields.specs.Items.{LaysOut};
ghost use Rattle.deku_fields.specs.Promise.{Begins};

use crate::items::{
    MOST, NONE_YET, big_msb, both_orders, fields_of, halves_and_word, thirteen, values_of,
    word_inside,
};
use deku::ctx::Size;
use deku::error::{DekuError, NeedSize};
use deku::reader::Reader;
use deku::writer::Writer;
use deku_fields::{
    Field, Item, Kind, Number, list_from_bytes, list_to_bytes, read_list, read_list_into,
    write_list,
};
use deku_testing_values::expecting::{MISFIT, NO_MEMORY, reader_of, same};
use std::alloc::Global;
use std::io::{Cursor, ErrorKind};
use std::process::Abort;
use std::test::Fail;

const TOO_WIDE: DekuError = DekuError::InvalidParam("bit size is larger than input");

const OUTSIDE: DekuError = DekuError::InvalidParam("value outside type");

// Items, the bytes that they lay out, and the bits of these.
#[derive(Clone, Copy)]
struct Sample<'n, 'i, 'b> {
    name: &'n str,
    items: &'i [Item],
    bytes: &'b [u8],
    bits: usize,
}

// ---- single calls
// Whether the end is reached.
fn ends(reader: &mut Reader<Cursor<&[u8]>>) -> Result<bool, DekuError> {
    reader.end()
}

// The fields are read into as many places.
fn read_into(
    rt: &impl Abort,
    reader: &mut Reader<Cursor<&[u8]>>,
    fields: &[Field],
    out: &mut [Number],
) -> Result<(), DekuError> {
    assert!(rt; fields.len() == out.len());
    read_list_into(reader, fields, out)
}

// A writer over a slice.
fn writer_over<'p>(page: &'p mut [u8]) -> Writer<Cursor<&'p mut [u8]>> {
    Writer::new(Cursor::new(page))
}

// The items are written after what was written before.
fn write_next(writer: &mut Writer<Cursor<&mut [u8]>>, items: &[Item]) -> Result<(), DekuError> {
    write_list(writer, items)
}

// The last byte is filled.
fn filled(writer: &mut Writer<Cursor<&mut [u8]>>) -> Result<(), DekuError> {
    writer.finalize()
}

// From bytes that begin with what aligned fitting items lay out, the fields read the items' values.
// It takes no memory and is not refused.
fn read_from(
    alloc: Global,
    bytes: &[u8],
    fields: &[Field],
    out: &mut [Number],
) -> Result<(), DekuError>
    requires { length out.old ≡ length fields.now }
    ensures { (items : List ListItem) (after : List ℕ) → Begins fields.now items bytes.now after
        → total (map field_shape fields.now) < 2 ^ 64
        → (result ≡ Ok tt) × (out.new ≡ list_values items) }
{
    let mut reader = Reader::new(alloc, Cursor::new(bytes));
    read_list_into(&mut reader, fields, out)
}

// Aligned fitting items are written over a slice that has room for what they lay out: that is not
// refused.
fn write_over(items: &[Item], all: &mut [u8]) -> Result<(), DekuError>
    ensures { (bytes : List ℕ) → All IsFitting items.now → AlignedFields (list_fields items.now)
        → LaysOut items.now bytes → length bytes ≤ length all.old
        → 8 * length bytes < 2 ^ 64 → result ≡ Ok tt }
{
    let mut writer = Writer::new(Cursor::new(all));
    write_list(&mut writer, items)?;
    writer.finalize()
}

// ---- lists that are read and written
// The items are written as the bytes, by each of the calls.
fn expect_written(alloc: Global, sample: &Sample) -> Result<(), Fail> {
    let written = list_to_bytes(alloc, sample.items)?;
    let mut page = [0u8; MOST];
    let (over, _) = page.split_at_mut(sample.bytes.len().min(MOST));
    let answer = write_over(sample.items, over);
    let seen = (written.as_slice(), answer, &*over);
    same(&sample.name, &seen, &(sample.bytes, Ok(()), sample.bytes))
}

// Their fields read their values from the bytes, by each of the calls.
fn expect_read(rt: &impl Abort, alloc: Global, sample: &Sample) -> Result<(), Fail> {
    let (name, count) = (sample.name, sample.items.len());
    assert!(rt; count <= MOST);
    let (all_fields, all_values) = (fields_of(sample.items), values_of(sample.items));
    let (fields, values) = (&all_fields[..count], &all_values[..count]);
    let (bits, whole) = list_from_bytes(alloc, sample.bytes, fields)?;
    let mut reader = reader_of(alloc, sample.bytes);
    let list = read_list(&mut reader, fields)?;
    let mut out = [NONE_YET; MOST];
    read_from(alloc, sample.bytes, fields, &mut out[..count])?;
    let seen = (whole.as_slice(), bits, list.as_slice(), reader.bits_read());
    let wanted = (values, sample.bits, values, sample.bits);
    let wanted = (wanted, all_values.as_slice());
    same(&name, &(seen, out.as_slice()), &wanted)
}

// A field is read, after a check for the end.
fn expect_item(rt: &impl Abort, name: &str, reader: &mut Reader<Cursor<&[u8]>>, item: &Item) {
    let mut out = [NONE_YET];
    let end = ends(reader);
    let seen = (end, read_into(rt, reader, &[item.field], &mut out), out);
    let want = (Ok(false), Ok(()), [item.value]);
    assert!(rt; seen == want, "{name} at {item:?}: {seen:?}");
}

// The fields are read one by one.
fn expect_each(rt: &impl Abort, alloc: Global, sample: &Sample) -> Result<(), Fail> {
    let mut reader = reader_of(alloc, sample.bytes);
    for item in sample.items {
        expect_item(rt, sample.name, &mut reader, item);
    }
    let seen = (ends(&mut reader), reader.bits_read());
    same(&sample.name, &seen, &(Ok(true), sample.bits))
}

// The items are written in two calls as in one.
fn expect_cut_written(rt: &impl Abort, sample: &Sample, cut: usize) {
    let name = sample.name;
    let mut page = [0u8; MOST];
    assert!(rt; sample.bytes.len() <= page.len());
    let (over, _) = page.split_at_mut(sample.bytes.len());
    let seen = write_cut(rt, over, sample.items, cut);
    let want = (Ok(()), Ok(()), Ok(()), sample.bits);
    assert!(rt; seen == want, "{name} cut at {cut}: {seen:?}");
    assert!(rt; page.starts_with(sample.bytes), "{name} cut at {cut}");
}

// What two calls return, and the last byte's filling, and the bits written.
type CutWritten = (
    Result<(), DekuError>,
    Result<(), DekuError>,
    Result<(), DekuError>,
    usize,
);

fn write_cut(rt: &impl Abort, page: &mut [u8], items: &[Item], cut: usize) -> CutWritten {
    assert!(rt; cut <= items.len());
    let (front, back) = items.split_at(cut);
    let mut writer = writer_over(page);
    let first = write_next(&mut writer, front);
    let second = write_next(&mut writer, back);
    (first, second, filled(&mut writer), writer.bits_written())
}

// The fields are read in two calls, with looks whether the end is reached.
fn expect_cut_read(rt: &impl Abort, alloc: Global, sample: &Sample, cut: usize) {
    let (name, count) = (sample.name, sample.items.len());
    assert!(rt; count <= MOST);
    let fields = fields_of(sample.items);
    let mut out = [NONE_YET; MOST];
    let seen = read_cut(
        rt,
        alloc,
        sample.bytes,
        &fields[..count],
        &mut out[..count],
        cut,
    );
    let between = Ok(cut == count);
    let looks = (Ok(false), between, between, Ok(true));
    let want = (looks, Ok(()), Ok(()), sample.bits);
    assert!(rt; seen == want, "{name} cut at {cut}: {seen:?}");
    assert!(rt;
        out == values_of(sample.items),
        "{name} cut at {cut}: {out:?}"
    );
}

// Whether the end is reached before the first call, between the two, again, and after them; what
// they return, and the bits read.
type CutRead = (
    (
        Result<bool, DekuError>,
        Result<bool, DekuError>,
        Result<bool, DekuError>,
        Result<bool, DekuError>,
    ),
    Result<(), DekuError>,
    Result<(), DekuError>,
    usize,
);

fn read_cut(
    rt: &impl Abort,
    alloc: Global,
    bytes: &[u8],
    fields: &[Field],
    out: &mut [Number],
    cut: usize,
) -> CutRead {
    assert!(rt; cut <= fields.len() && fields.len() == out.len());
    let (front, back) = fields.split_at(cut);
    let (first, second) = out.split_at_mut(cut);
    let mut reader = reader_of(alloc, bytes);
    let begin = ends(&mut reader);
    let front_read = read_into(rt, &mut reader, front, first);
    let (between, again) = (ends(&mut reader), ends(&mut reader));
    let back_read = read_into(rt, &mut reader, back, second);
    let looks = (begin, between, again, ends(&mut reader));
    (looks, front_read, back_read, reader.bits_read())
}

// A list in each of these ways, cut between any two items.
fn expect_all(rt: &impl Abort, alloc: Global, sample: &Sample) -> Result<(), Fail> {
    expect_written(alloc, sample)?;
    expect_read(rt, alloc, sample)?;
    expect_each(rt, alloc, sample)?;
    for cut in 0..=sample.items.len() {
        expect_cut_written(rt, sample, cut);
        expect_cut_read(rt, alloc, sample, cut);
    }
    Ok(())
}

#[test]
fn reads_and_writes_lists(rt: HostRuntime) -> Result<(), Fail> {
    let (halves, word, both) = (halves_and_word(), word_inside(), both_orders());
    let rows: [(&str, &[Item], &[u8], usize); 3] = [
        ("halves and a word", &halves, &[0x69, 0xBE, 0xEF], 24),
        ("a word inside", &word, &[0xA1, 0x34, 0x12], 24),
        ("both orders", &both, &[0x10, 0x81, 0xAB, 0x96], 32),
    ];
    for (name, items, bytes, bits) in rows {
        let sample = Sample {
            name,
            items,
            bytes,
            bits,
        };
        expect_all(&rt, rt.alloc(), &sample)?;
    }
    Ok(())
}

// ---- refusals A list of one item is written as these bytes, or refused so. Want of memory, which
// nobody asked for, is handed on.
fn expect_bytes(
    rt: &impl Abort,
    alloc: Global,
    item: Item,
    want: Result<&[u8], DekuError>,
) -> Result<(), Fail> {
    let written = list_to_bytes(alloc, &[item]);
    let seen = match &written {
        Ok(bytes) => Ok(bytes.as_slice()),
        Err(refusal) if *refusal == NO_MEMORY => return Err(Fail::from(NO_MEMORY)),
        Err(refusal) => Err(*refusal),
    };
    assert!(rt; seen == want, "{item:?}: {seen:?}, and not {want:?}");
    Ok(())
}

#[test]
fn writes_one_item(rt: HostRuntime) -> Result<(), Fail> {
    let rows: [(Item, Result<&[u8], DekuError>); 5] = [
        (thirteen(0x1001), Ok(&[0x10, 0x01])),
        (thirteen(0xFF1F), Ok(&[0xFF, 0x1F])),
        (thirteen(0x1020), Err(MISFIT)),
        (big_msb(Kind::U8, Size::Bits(9), 0), Err(TOO_WIDE)),
        (big_msb(Kind::U8, Size::Whole, 300), Err(OUTSIDE)),
    ];
    for (item, want) in rows {
        expect_bytes(&rt, rt.alloc(), item, want)?;
    }
    Ok(())
}

// Why a call was refused, if it was. Want of memory, which nobody asked for, is handed on.
fn refusal<T: Drop>(answer: Result<T, DekuError>) -> Result<Option<DekuError>, DekuError> {
    match answer {
        Ok(_) => Ok(None),
        Err(error) if error == NO_MEMORY => Err(error),
        Err(error) => Ok(Some(error)),
    }
}

// From these bytes the fields are refused so, by each of the calls, when so many bits were read.
fn expect_refused(
    rt: &impl Abort,
    alloc: Global,
    bytes: &[u8],
    fields: &[Field],
    want: DekuError,
    bits: usize,
) -> Result<(), Fail> {
    let mut reader = reader_of(alloc, bytes);
    let from_bytes = refusal(list_from_bytes(alloc, bytes, fields))?;
    let from_reader = refusal(read_list(&mut reader, fields))?;
    let seen = (from_bytes, from_reader, reader.bits_read());
    let want = (Some(want), Some(want), bits);
    assert!(rt; seen == want, "{fields:?} from {bytes:?}: {seen:?}");
    Ok(())
}

#[test]
fn refuses_lists(rt: HostRuntime) -> Result<(), Fail> {
    let wide = [big_msb(Kind::U8, Size::Bits(9), 0).field];
    let fields = fields_of(&halves_and_word());
    let three = &fields[..3];
    let rows: [(&[u8], &[Field], DekuError, usize); 4] = [
        (&[0, 0], &wide, DekuError::Parse("too much data"), 0),
        (&[], three, DekuError::Incomplete(NeedSize::new(4)), 0),
        (&[0x69], three, DekuError::Incomplete(NeedSize::new(16)), 8),
        (
            &[0x69, 0xBE],
            three,
            DekuError::Incomplete(NeedSize::new(16)),
            8,
        ),
    ];
    for (bytes, fields, want, bits) in rows {
        expect_refused(&rt, rt.alloc(), bytes, fields, want, bits)?;
    }
    Ok(())
}

#[test]
fn fills_a_slice(_rt: HostRuntime) -> Result<(), Fail> {
    let full = Err(DekuError::Io(ErrorKind::WriteZero));
    let mut page = [0u8; 1];
    let mut writer = writer_over(page.as_mut_slice());
    let written = write_next(&mut writer, &halves_and_word());
    let bits = writer.bits_written();
    let ended = filled(&mut writer);
    let seen = (written, bits, ended, writer.bits_written(), page);
    same(&"a full slice", &seen, &(full, 8, full, 8, [0x69]))
}

// What the first of two calls that is refused returns, the bits written, and the last byte's
// filling.
fn write_until_refused(
    page: &mut [u8],
    items: &[Item; 2],
    cut: usize,
) -> (Result<(), DekuError>, usize, Result<(), DekuError>) {
    let (front, back) = items.split_at(cut.min(2));
    let mut writer = writer_over(page);
    let both = write_next(&mut writer, front).and_then(|()| write_next(&mut writer, back));
    (both, writer.bits_written(), filled(&mut writer))
}

#[test]
fn refuses_cut_lists(rt: HostRuntime) {
    let items = [
        big_msb(Kind::U8, Size::Bits(4), 6),
        big_msb(Kind::U8, Size::Bits(4), 16),
    ];
    for cut in [0, 1, 2] {
        let mut page = [0u8; 1];
        let (both, bits, end) = write_until_refused(&mut page, &items, cut);
        let seen = (both, bits, end, page);
        let want = (Err(MISFIT), 0, Ok(()), [0x60]);
        assert!(rt; seen == want, "cut at {cut}: {seen:?}");
    }
}
