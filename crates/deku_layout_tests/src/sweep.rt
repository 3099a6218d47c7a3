//! Numbers of each type and each width, in both endians and orders, from each bit of a byte on,
//! against the slow ones.

use super::numbers::MISFIT;
use super::values::{KINDS, Kind, Value, read_value, write_value};
use deku::ctx::{Endian, Layout, Order, Size};
use deku::device::{Sink, Source};
use deku::prelude::{DekuError, Reader, Writer};
use deku_num::kind::NumberType;
use deku_testing::bits::{bytes_of, shown};
use deku_testing::numbers::{
    MOST, list_of, refused_to_read, refused_to_write, two_to, weights, width, worth,
};
use deku_testing::random::Random;
use std::alloc::Global;
use std::io::Cursor;
use std::process::Abort;

// The whole type, and sizes far beyond each type: eight times one of them is past 64 bits.
const OTHER_SIZES: [Size; 5] = [
    Size::Whole,
    Size::Bits(usize::MAX),
    Size::Bytes(usize::MAX),
    Size::Bytes(0x2000_0000_0000_0000),
    Size::Bytes(0x2000_0000_0000_0001),
];

// Ones and zeros in turn, the lowest bit being one.
const IN_TURN: u128 = 0x5555_5555_5555_5555_5555_5555_5555_5555;

// The bytes that a field takes at most, with those bits of its first byte that are before it.
const PAGE: usize = 17;

// A field, a value to be written, and what the slow ones say: the bits of the field, what they are
// worth or why that is not read, and why the value is not written.
#[derive(Debug, Clone, Copy)]
struct Row {
    kind: Kind,
    layout: Layout,
    value: Value,
    read: Result<Value, DekuError>,
    written: Result<(), DekuError>,
}

// What is seen of a read: the bits before it as they are shown, what the number's read returns, the
// bits counted and the bytes fetched.
#[derive(Debug, Clone, Copy, PartialEq, Eq)]
struct Reading {
    front: [bool; 8],
    answer: Result<Value, DekuError>,
    bits_read: usize,
    fetched: u64,
}

// What is seen of a write: what the number's write returns, the bits counted and the bytes.
#[derive(Debug, Clone, Copy, PartialEq, Eq)]
struct Writing {
    answer: Result<(), DekuError>,
    bits_written: usize,
    page: [u8; PAGE],
}

#[test]
fn little_msb0(rt: HostRuntime) {
    sweep(&rt, rt.alloc(), Endian::Little, Order::Msb0);
}

#[test]
fn little_lsb0(rt: HostRuntime) {
    sweep(&rt, rt.alloc(), Endian::Little, Order::Lsb0);
}

#[test]
fn big_msb0(rt: HostRuntime) {
    sweep(&rt, rt.alloc(), Endian::Big, Order::Msb0);
}

#[test]
fn big_lsb0(rt: HostRuntime) {
    sweep(&rt, rt.alloc(), Endian::Big, Order::Lsb0);
}

fn sweep(rt: &impl Abort, alloc: Global, endian: Endian, order: Order) {
    let mut random = Random::new();
    sweep_kinds(rt, alloc, endian, order, &mut random);
    sweep_widths(rt, alloc, endian, order, &mut random);
}

// Each type that has the traits.
fn sweep_kinds(rt: &impl Abort, alloc: Global, endian: Endian, order: Order, random: &mut Random) {
    for kind in KINDS {
        sweep_sizes(rt, alloc, kind, endian, order, random);
    }
}

// Types of each width up to 128 bits, without a sign and with one.
fn sweep_widths(rt: &impl Abort, alloc: Global, endian: Endian, order: Order, random: &mut Random) {
    for n in 0..258 {
        let number_type = NumberType {
            bits: n / 2,
            signed: n % 2 == 1,
            one_byte: false,
        };
        sweep_whole(rt, alloc, number_type, endian, order, random);
    }
}

// The sizes of up to 130 bits, of up to 18 bytes, and the others.
fn size_at(n: usize) -> Size {
    if n < 131 {
        Size::Bits(n)
    } else if n < 150 {
        Size::Bytes(n - 131)
    } else {
        OTHER_SIZES[(n - 150) % 5]
    }
}

// A type under each of these sizes: under those in bits that it has in each place, except for the
// types that are as wide as `u64` and `i64`.
fn sweep_sizes(
    rt: &impl Abort,
    alloc: Global,
    kind: Kind,
    endian: Endian,
    order: Order,
    random: &mut Random,
) {
    for n in 0..155 {
        let layout = Layout {
            endian,
            order,
            size: size_at(n),
        };
        let in_type = n <= kind.number_type().bits;
        let everywhere = in_type && !matches!(kind, Kind::Usize | Kind::Isize);
        sweep_field(rt, alloc, kind, layout, random, everywhere);
    }
}

// A type whole, with all its bits, and with one more.
fn sweep_whole(
    rt: &impl Abort,
    alloc: Global,
    number_type: NumberType,
    endian: Endian,
    order: Order,
    random: &mut Random,
) {
    let bits = number_type.bits;
    for size in [
        Size::Whole,
        Size::Bits(bits),
        Size::Bits(bits.saturating_add(1)),
    ] {
        let layout = Layout {
            endian,
            order,
            size,
        };
        let everywhere = size == Size::Whole;
        sweep_field(rt, alloc, Kind::Of(number_type), layout, random, everywhere);
    }
}

// A field of the type under the layout, with values at the edges and others: each in each place, or
// in one.
fn sweep_field(
    rt: &impl Abort,
    alloc: Global,
    kind: Kind,
    layout: Layout,
    random: &mut Random,
    everywhere: bool,
) {
    let number_type = kind.number_type();
    let width = match refused_to_read(number_type, layout) {
        None => width(number_type, layout.size).min(MOST),
        Some(_) => 0,
    };
    let weights = weights(layout.endian, layout.order, width);
    for pattern in patterns(width, &weights, random) {
        let bits = list_of(pattern, &weights);
        let (list, _) = bits.split_at(width);
        let row = row_of(kind, layout, pattern, list);
        let noise = random.next();
        if everywhere {
            sweep_places(rt, alloc, &row, list, noise);
        } else {
            expect_place(rt, alloc, &row, list, noise, noise as usize % 8);
        }
    }
}

// Numbers at the edges of a width, with a sign and without, and some that look like chance.
fn patterns(width: usize, weights: &[u128; MOST], random: &mut Random) -> [u128; 16] {
    let ones = two_to(width).wrapping_sub(1);
    let half = ones / 2;
    let all = weights
        .iter()
        .fold(0u128, |sum, weight| sum.wrapping_add(*weight));
    [
        0,
        1,
        u128::MAX,
        ones,
        ones.wrapping_add(1),
        half,
        half.wrapping_add(1),
        !half,
        (!half).wrapping_sub(1),
        all,
        IN_TURN & ones,
        !IN_TURN & ones,
        random.next_wide(),
        random.next_wide() & ones,
        random.next_wide() & half,
        !(random.next_wide() & half),
    ]
}

// What the slow functions say of a field and a value. It fits if the list of its bits has this
// value.
fn row_of(kind: Kind, layout: Layout, pattern: u128, list: &[bool]) -> Row {
    let number_type = kind.number_type();
    let worth = worth(number_type.signed, layout.endian, layout.order, list);
    let read = match refused_to_read(number_type, layout) {
        Some(refusal) => Err(refusal),
        None => Ok(value_of(number_type, worth)),
    };
    let written = match refused_to_write(number_type, layout) {
        Some(refusal) => Err(refusal),
        None if worth == pattern => Ok(()),
        None => Err(MISFIT),
    };
    Row {
        kind,
        layout,
        value: value_of(number_type, pattern),
        read,
        written,
    }
}

// The value whose number modulo two to the power of 128 this is.
fn value_of(number_type: NumberType, pattern: u128) -> Value {
    if number_type.signed {
        Value::Signed(pattern.cast_signed())
    } else {
        Value::Unsigned(pattern)
    }
}

// The field from each bit of a byte on, and from its first one also after a look for the end. A
// value that does not fit is refused in one place, and what its list is worth is written in each.
fn sweep_places(rt: &impl Abort, alloc: Global, row: &Row, list: &[bool], noise: u64) {
    expect_read(rt, alloc, row, &[], true, list, noise % 2 == 1);
    let mut row = *row;
    if let (Ok(value), Err(_)) = (row.read, row.written) {
        expect_place(rt, alloc, &row, list, noise, noise as usize % 8);
        row.value = value;
        row.written = Ok(());
    }
    for offset in 0..8 {
        expect_place(rt, alloc, &row, list, noise, offset);
    }
}

// The field is read and written from this bit of a byte on, after other bits of it.
fn expect_place(
    rt: &impl Abort,
    alloc: Global,
    row: &Row,
    list: &[bool],
    noise: u64,
    offset: usize,
) {
    let mut bits = [false; 8];
    for i in 0..8 {
        bits[i] = (noise >> i) % 2 == 1;
    }
    assert!(rt; offset < bits.len());
    let (front, _) = bits.split_at(offset);
    expect_read(rt, alloc, row, front, false, list, bits[7]);
    expect_written(rt, row, front, list);
}

// The field is read from the bytes of the front and the list as the row says, and no byte is
// fetched that was not needed.
fn expect_read(
    rt: &impl Abort,
    alloc: Global,
    row: &Row,
    front: &[bool],
    peeks: bool,
    list: &[bool],
    behind: bool,
) {
    let order = row.layout.order;
    let bytes = bytes_of(order, front, list, behind);
    let moved = if row.read.is_ok() { list.len() } else { 0 };
    let count = front.len().saturating_add(moved);
    let want = Reading {
        front: shown(order, front),
        answer: row.read,
        bits_read: count,
        fetched: count.div_ceil(8).max(peeks as usize) as u64,
    };
    let seen = read_field(rt, alloc, row, front.len(), peeks, &bytes);
    assert!(rt; seen == want, "{row:?} behind {front:?}: {seen:?}");
}

// What is seen when the field is read.
fn read_field(
    rt: &impl Abort,
    alloc: Global,
    row: &Row,
    offset: usize,
    peeks: bool,
    bytes: &[u8],
) -> Reading {
    let source = Cursor::new(bytes);
    let (front, answer, bits_read, source) = read_from(rt, alloc, source, row, offset, peeks);
    Reading {
        front,
        answer,
        bits_read,
        fetched: source.position(),
    }
}

// The bits before it as they are shown, what the number's read returns, the bits counted, and the
// source then.
fn read_from<R: Source>(
    rt: &impl Abort,
    alloc: Global,
    source: R,
    row: &Row,
    offset: usize,
    peeks: bool,
) -> ([bool; 8], Result<Value, DekuError>, usize, R) {
    let mut reader = Reader::new(alloc, source);
    if peeks {
        assert!(rt; reader.end() == Ok(false), "{row:?}");
    }
    let mut front = [false; 8];
    assert!(rt; offset <= front.len());
    let read = reader.read_bits_into(&mut front[..offset], row.layout.order);
    assert!(rt; read.is_ok(), "{row:?}");
    let answer = read_value(rt, &mut reader, row.kind, row.layout);
    let count = reader.bits_read();
    (front, answer, count, reader.into_inner())
}

// The value is written as the row says: as the list, or as nothing at all.
fn expect_written(rt: &impl Abort, row: &Row, front: &[bool], list: &[bool]) {
    let order = row.layout.order;
    let moved: &[bool] = if row.written.is_ok() { list } else { &[] };
    let count = front.len().saturating_add(moved.len());
    let want = Writing {
        answer: row.written,
        bits_written: count.div_ceil(8).saturating_mul(8),
        page: bytes_of(order, front, moved, false),
    };
    let seen = write_field(rt, row, front);
    assert!(rt; seen == want, "{row:?} behind {front:?}: {seen:?}");
}

// What is seen when the value is written and padded.
fn write_field(rt: &impl Abort, row: &Row, front: &[bool]) -> Writing {
    let mut page = [0; PAGE];
    let (answer, bits_written) = write_onto(rt, Cursor::new(page.as_mut_slice()), row, front);
    Writing {
        answer,
        bits_written,
        page,
    }
}

// What the number's write returns, and the bits counted.
fn write_onto<W: Sink + Drop>(
    rt: &impl Abort,
    sink: W,
    row: &Row,
    front: &[bool],
) -> (Result<(), DekuError>, usize) {
    let mut writer = Writer::new(sink);
    let bits = shown(row.layout.order, front);
    assert!(rt; front.len() <= bits.len());
    let begun = writer.write_bits_order(&bits[..front.len()], row.layout.order);
    assert!(rt; begun.is_ok(), "{row:?}");
    let answer = write_value(rt, &mut writer, row.kind, row.value, row.layout);
    let ended = writer.finalize();
    assert!(rt; ended.is_ok(), "{row:?}");
    (answer, writer.bits_written())
}
