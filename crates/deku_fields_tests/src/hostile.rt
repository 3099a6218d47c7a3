//! Lists over devices that end, trickle or fail: what is refused and kept, and how the stream
//! continues after a seek.

use crate::items::{
    MOST, NONE_YET, both_orders, fields_of, halves_and_word, little_words, thirteen_of_a_word,
    values_of, word_inside,
};
use deku::ctx::Order;
use deku::device::{Sink, Source};
use deku::error::{DekuError, NeedSize};
use deku::probe::{FailAt, Trickle};
use deku::reader::Reader;
use deku::writer::Writer;
use deku_fields::{Item, read_list_into, write_list};
use std::alloc::Global;
use std::fmt::Debug;
use std::io::{Cursor, ErrorKind, Seek, SeekFrom};
use std::process::Abort;
use std::test::Fail;

const FAILED: DekuError = DekuError::Io(ErrorKind::Other);

const FULL: DekuError = DekuError::Io(ErrorKind::WriteZero);

// The most bytes of a list here.
const BYTES: usize = 12;

// A list, the bits of each field, the bytes that it is read from, and those that it is written as.
#[derive(Clone, Copy)]
struct Sample<'i> {
    name: &'static str,
    items: &'i [Item],
    widths: &'static [usize],
    bytes: &'static [u8],
    written: &'static [u8],
}

// What was seen is what was wanted, in the row of that name at that byte.
fn same<T: PartialEq + Debug>(rt: &impl Abort, row: (&str, usize), seen: &T, want: &T) {
    assert_eq!(rt; *seen, *want, "{} at {}", row.0, row.1);
}

// How many of the first fields end within so many bits, the bits of these, and the bits of the next
// field.
fn within(widths: &[usize], room: usize) -> (usize, usize, usize) {
    let (mut count, mut bits) = (0usize, 0usize);
    for width in widths {
        let behind = bits.saturating_add(*width);
        if behind > room {
            return (count, bits, *width);
        }
        count = count.saturating_add(1);
        bits = behind;
    }
    (count, bits, 0)
}

// Reads the first fields, which gives their values.
fn expect_values<S: Source>(
    rt: &impl Abort,
    row: (&str, usize),
    reader: &mut Reader<S>,
    items: &[Item],
) {
    assert!(rt; items.len() <= MOST);
    let mut out = [NONE_YET; MOST];
    let fields = fields_of(items);
    let read = read_list_into(reader, &fields[..items.len()], &mut out[..items.len()]);
    same(rt, row, &read, &Ok(()));
    same(rt, row, &out, &values_of(items));
}

// The reader has stopped with this: a read of no bits returns it again, no bit is left over, and
// the count stays.
fn expect_kept<S: Source>(
    rt: &impl Abort,
    row: (&str, usize),
    reader: &mut Reader<S>,
    fault: DekuError,
    bits: usize,
) -> Result<(), Fail> {
    let again = reader.read_bits_into(&mut [], Order::Msb0);
    same(rt, row, &again, &Err(fault));
    same(rt, row, &reader.rest()?.len(), &0);
    same(rt, row, &reader.bits_read(), &bits);
    Ok(())
}

// The list is read from a source whose byte at that place is not to be had: the fields in front of
// it are read, and the one that needs it is refused so, or for the end of input. Behind a seek to
// the start as many fields as the source has then are read again.
fn expect_stop<S: Source>(
    rt: &impl Abort,
    sample: &Sample,
    at: usize,
    reader: &mut Reader<S>,
    fails: bool,
) -> Result<(), Fail> {
    let row = (sample.name, at);
    let (count, bits, width) = within(sample.widths, at.saturating_mul(8));
    let fault = if fails {
        FAILED
    } else {
        DekuError::Incomplete(NeedSize::new(width))
    };
    assert!(rt; sample.items.len() <= MOST && count <= sample.items.len());
    let mut out = [NONE_YET; MOST];
    let fields = fields_of(sample.items);
    let length = sample.items.len();
    let read = read_list_into(reader, &fields[..length], &mut out[..length]);
    same(rt, row, &read, &Err(fault));
    expect_kept(rt, row, reader, fault, bits)?;
    same(rt, row, &reader.seek(SeekFrom::Start(0))?, &0);
    let there = if fails { length } else { count };
    expect_values(rt, row, reader, &sample.items[..there]);
    let more = if fails {
        within(sample.widths, usize::MAX).1
    } else {
        bits
    };
    same(rt, row, &reader.bits_read(), &bits.saturating_add(more));
    Ok(())
}

// The items of the five lists.
#[derive(Drop)]
struct Lists {
    halves: [Item; 3],
    words: [Item; 6],
    both: [Item; 7],
    thirteen: [Item; 1],
    inside: [Item; 3],
}

impl Lists {
    fn new() -> Lists {
        Lists {
            halves: halves_and_word(),
            words: little_words(),
            both: both_orders(),
            thirteen: thirteen_of_a_word(),
            inside: word_inside(),
        }
    }

    fn halves(&self) -> Sample<'_> {
        Sample {
            name: "halves and a word",
            items: &self.halves,
            widths: &[4, 4, 16],
            bytes: &[0x69, 0xBE, 0xEF],
            written: &[0x69, 0xBE, 0xEF],
        }
    }

    fn words(&self) -> Sample<'_> {
        Sample {
            name: "little words",
            items: &self.words,
            widths: &[4, 12, 8, 8, 32, 32],
            bytes: &[0x31, 0x12, 4, 5, 6, 0, 0, 0, 7, 0, 0, 0],
            written: &[0x31, 0x12, 4, 5, 6, 0, 0, 0, 7, 0, 0, 0],
        }
    }

    fn both(&self) -> Sample<'_> {
        Sample {
            name: "both orders",
            items: &self.both,
            widths: &[13, 3, 8, 1, 1, 1, 5],
            bytes: &[0x10, 0x81, 0xAB, 0x96],
            written: &[0x10, 0x81, 0xAB, 0x96],
        }
    }

    fn thirteen(&self) -> Sample<'_> {
        Sample {
            name: "thirteen bits",
            items: &self.thirteen,
            widths: &[13],
            bytes: &[0x10, 0x81],
            written: &[0x10, 0x01],
        }
    }

    fn inside(&self) -> Sample<'_> {
        Sample {
            name: "a word inside",
            items: &self.inside,
            widths: &[5, 16, 3],
            bytes: &[0xA1, 0x34, 0x12],
            written: &[0xA1, 0x34, 0x12],
        }
    }

    fn samples(&self) -> [Sample<'_>; 5] {
        [
            self.halves(),
            self.words(),
            self.both(),
            self.thirteen(),
            self.inside(),
        ]
    }
}

// The list is read from each of its beginnings: from a slice, byte after byte, and from a source
// whose next call fails.
fn expect_stops(rt: &impl Abort, alloc: Global, sample: &Sample) -> Result<(), Fail> {
    for (at, _) in sample.bytes.iter().enumerate() {
        let bytes = &sample.bytes[..at];
        let mut slice = Reader::new(alloc, Cursor::new(bytes));
        expect_stop(rt, sample, at, &mut slice, false)?;
        let mut slow = Reader::new(alloc, Trickle::new(bytes));
        expect_stop(rt, sample, at, &mut slow, false)?;
        let failing = FailAt::new(Cursor::new(sample.bytes), at.saturating_add(1));
        let mut broken = Reader::new(alloc, failing);
        expect_stop(rt, sample, at, &mut broken, true)?;
    }
    Ok(())
}

#[test]
fn reads_from_every_beginning(rt: HostRuntime) -> Result<(), Fail> {
    for sample in Lists::new().samples() {
        expect_stops(&rt, rt.alloc(), &sample)?;
    }
    Ok(())
}

// A list that is there whole is read, however its bytes come.
#[test]
fn reads_what_is_there(rt: HostRuntime) {
    for sample in Lists::new().samples() {
        let row = (sample.name, sample.bytes.len());
        let mut slow = Reader::new(rt.alloc(), Trickle::new(sample.bytes));
        expect_values(&rt, row, &mut slow, sample.items);
        let failing = FailAt::new(
            Cursor::new(sample.bytes),
            sample.bytes.len().saturating_add(1),
        );
        let mut reader = Reader::new(rt.alloc(), failing);
        expect_values(&rt, row, &mut reader, sample.items);
        same(
            &rt,
            row,
            &reader.read_bits_into(&mut [false; 8], Order::Msb0),
            &Err(FAILED),
        );
    }
}

// The bits of the bytes that these fill.
fn whole_bytes(bits: usize) -> usize {
    (bits / 8).saturating_mul(8)
}

// The list is written to a sink that doesn't take its byte at that place: the item that fills this
// byte is refused with this, or the padding. The writer has then stopped, and has written the whole
// bytes of the items before.
fn expect_full<W: Sink>(
    rt: &impl Abort,
    sample: &Sample,
    at: usize,
    writer: &mut Writer<W>,
    fault: DekuError,
) -> usize {
    let row = (sample.name, at);
    let room = at.saturating_mul(8).saturating_add(7);
    let (_, bits, width) = within(sample.widths, room);
    let count = whole_bytes(bits);
    let written = write_list(writer, sample.items);
    let want = if width == 0 { Ok(()) } else { Err(fault) };
    same(rt, row, &(written, writer.bits_written()), &(want, count));
    same(rt, row, &writer.finalize(), &Err(fault));
    let again = writer.write_bits_order(&[], Order::Msb0);
    same(
        rt,
        row,
        &(again, writer.bits_written()),
        &(Err(fault), count),
    );
    count
}

// The list is written to each slice that is shorter than it: after a seek to the start a byte is
// written if the slice has one.
fn expect_full_slices(rt: &impl Abort, sample: &Sample) -> Result<(), Fail> {
    for (at, _) in sample.written.iter().enumerate() {
        let mut page = [0u8; BYTES];
        assert!(rt; at <= page.len());
        let (over, _) = page.split_at_mut(at);
        let mut writer = Writer::new(Cursor::new(over));
        let bits = expect_full(rt, sample, at, &mut writer, FULL);
        let row = (sample.name, at);
        same(rt, row, &writer.seek(SeekFrom::Start(0))?, &0);
        let (want, more) = if at == 0 { (Err(FULL), 0) } else { (Ok(()), 8) };
        same(rt, row, &writer.write_bytes(&[0xAA]), &want);
        same(rt, row, &writer.bits_written(), &bits.saturating_add(more));
    }
    Ok(())
}

#[test]
fn writes_to_every_shorter_slice(rt: HostRuntime) -> Result<(), Fail> {
    for sample in Lists::new().samples() {
        expect_full_slices(&rt, &sample)?;
    }
    Ok(())
}

// The list is written to a sink that fails at each of its bytes in turn, and after a seek to the
// start it is written whole.
fn expect_written_again(rt: &impl Abort, sample: &Sample) -> Result<(), Fail> {
    for (at, _) in sample.written.iter().enumerate() {
        let mut page = [0u8; BYTES];
        let n = at.saturating_add(1);
        let mut writer = Writer::new(FailAt::new(Cursor::new(page.as_mut_slice()), n));
        let bits = expect_full(rt, sample, at, &mut writer, FAILED);
        let row = (sample.name, at);
        same(rt, row, &writer.seek(SeekFrom::Start(0))?, &0);
        let written = write_list(&mut writer, sample.items);
        same(rt, row, &(written, writer.finalize()), &(Ok(()), Ok(())));
        let all = sample.written.len().saturating_mul(8);
        same(rt, row, &writer.bits_written(), &bits.saturating_add(all));
        assert!(rt; page.starts_with(sample.written), "{} at {at}", sample.name);
    }
    Ok(())
}

#[test]
fn writes_behind_each_failure(rt: HostRuntime) -> Result<(), Fail> {
    for sample in Lists::new().samples() {
        expect_written_again(&rt, &sample)?;
    }
    Ok(())
}
