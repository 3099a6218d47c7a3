//! Tuples whose items are cut from one number if their bits are in memory: each item is what it is
//! by itself, from each bit of a byte on, with bytes in memory and without, and up to where the
//! bytes end. They are written as the bits that they were read from, with room in memory and
//! without.

use deku::Word;
use deku::ctx::Endian::{Big, Little};
use deku::ctx::Order::{Lsb0, Msb0};
use deku::ctx::{BitSize, Endian, Order};
use deku::device::{Sink, Source};
use deku::prelude::{DekuError, DekuReader, DekuWriter, NeedSize, Reader, Writer};
use deku::probe::{FailAt, Trickle};
use deku_symmetry::{Be, Le, Lsb, LsbBe, Msb, MsbLe};
use deku_testing::bits::{Slow, samples};
use deku_testing::numbers::worth;
use deku_testing::same::same;
use deku_testing_values::expecting::{next, put, reader_of};
use std::alloc::Global;
use std::io::Cursor;
use std::net::Ipv4Addr;
use std::test::Fail;

// The most items of a tuple.
pub(crate) const MOST: usize = 11;

// A tuple of numbers.
pub(crate) trait Numbers: DekuReader<()> + DekuWriter<()> {
    // The order of its bits.
    fn order() -> Order {
        Msb0
    }

    // Whether its items have a sign.
    fn signed() -> bool {
        false
    }

    // How many bits each item has, and its endian. After the last one they are 0.
    fn items() -> [(usize, Endian); MOST];

    // The items' numbers, and zeros after them.
    fn numbers(&self) -> [i128; MOST];
}

// The numbers in front of zeros.
pub(crate) fn and_zeros(front: &[i128]) -> [i128; MOST] {
    let mut numbers = [0; MOST];
    for (number, item) in numbers.iter_mut().zip(front) {
        *number = *item;
    }
    numbers
}

// The widths in front of zeros.
pub(crate) fn and_none(front: &[(usize, Endian)]) -> [(usize, Endian); MOST] {
    let mut items = [(0, Big); MOST];
    for (item, width) in items.iter_mut().zip(front) {
        *item = *width;
    }
    items
}

// The most items that a tuple has, in one number.
type Header = (
    Msb<u8, 4>,
    Msb<u8, 4>,
    Msb<u8, 6>,
    Msb<u8, 2>,
    Be<u16>,
    Msb<bool, 1>,
    Msb<bool, 1>,
    Msb<bool, 1>,
    Msb<u16, 13>,
    u8,
    MsbLe<u8, 5>,
);

impl Numbers for Header {
    fn items() -> [(usize, Endian); MOST] {
        [
            (4, Big),
            (4, Big),
            (6, Big),
            (2, Big),
            (16, Big),
            (1, Big),
            (1, Big),
            (1, Big),
            (13, Big),
            (8, Big),
            (5, Little),
        ]
    }

    fn numbers(&self) -> [i128; MOST] {
        [
            self.0.0 as i128,
            self.1.0 as i128,
            self.2.0 as i128,
            self.3.0 as i128,
            self.4.0 as i128,
            self.5.0 as i128,
            self.6.0 as i128,
            self.7.0 as i128,
            self.8.0 as i128,
            self.9 as i128,
            self.10.0 as i128,
        ]
    }
}

// As many bits as one number has.
type Long = (Msb<u64, 33>, Msb<u32, 31>);

impl Numbers for Long {
    fn items() -> [(usize, Endian); MOST] {
        and_none(&[(33, Big), (31, Big)])
    }

    fn numbers(&self) -> [i128; MOST] {
        and_zeros(&[self.0.0 as i128, self.1.0 as i128])
    }
}

// One bit more, so it is no number.
type TooLong = (Msb<u64, 33>, Msb<u32, 32>);

impl Numbers for TooLong {
    fn items() -> [(usize, Endian); MOST] {
        and_none(&[(33, Big), (32, Big)])
    }

    fn numbers(&self) -> [i128; MOST] {
        and_zeros(&[self.0.0 as i128, self.1.0 as i128])
    }
}

// Two groups that are numbers, and one between them that is none.
type Groups = (
    (Be<u16>, Be<Ipv4Addr>),
    (Le<u16>, Msb<u8, 3>),
    (Msb<u32, 29>, Msb<u8, 7>),
);

impl Numbers for Groups {
    fn items() -> [(usize, Endian); MOST] {
        and_none(&[
            (16, Big),
            (32, Big),
            (16, Little),
            (3, Big),
            (29, Big),
            (7, Big),
        ])
    }

    fn numbers(&self) -> [i128; MOST] {
        let address = self.0.1.0.to_bits();
        and_zeros(&[
            self.0.0.0 as i128,
            address as i128,
            self.1.0.0 as i128,
            self.1.1.0 as i128,
            self.2.0.0 as i128,
            self.2.1.0 as i128,
        ])
    }
}

// Numbers of low bits, and an item of bytes in reverse.
type Low = (
    Lsb<u8, 4>,
    Lsb<u16, 12>,
    LsbBe<u32, 24>,
    Lsb<bool, 1>,
    Lsb<u32, 18>,
);

impl Numbers for Low {
    fn order() -> Order {
        Lsb0
    }

    fn items() -> [(usize, Endian); MOST] {
        and_none(&[
            (4, Little),
            (12, Little),
            (24, Big),
            (1, Little),
            (18, Little),
        ])
    }

    fn numbers(&self) -> [i128; MOST] {
        and_zeros(&[
            self.0.0 as i128,
            self.1.0 as i128,
            self.2.0 as i128,
            self.3.0 as i128,
            self.4.0 as i128,
        ])
    }
}

// Numbers of low bits with a sign.
type Signs = (Lsb<i8, 3>, Lsb<i16, 13>, LsbBe<i16, 16>, Lsb<i64, 32>);

impl Numbers for Signs {
    fn order() -> Order {
        Lsb0
    }

    fn signed() -> bool {
        true
    }

    fn items() -> [(usize, Endian); MOST] {
        and_none(&[(3, Little), (13, Little), (16, Big), (32, Little)])
    }

    fn numbers(&self) -> [i128; MOST] {
        and_zeros(&[
            self.0.0 as i128,
            self.1.0 as i128,
            self.2.0 as i128,
            self.3.0 as i128,
        ])
    }
}

// Whole numbers with a sign, of both endians.
type Bytes = (Le<i16>, Be<i32>, i8, MsbLe<i8, 8>);

impl Numbers for Bytes {
    fn signed() -> bool {
        true
    }

    fn items() -> [(usize, Endian); MOST] {
        and_none(&[(16, Little), (32, Big), (8, Little), (8, Little)])
    }

    fn numbers(&self) -> [i128; MOST] {
        and_zeros(&[
            self.0.0 as i128,
            self.1.0 as i128,
            self.2 as i128,
            self.3.0 as i128,
        ])
    }
}

// What is seen of a read: what it returns, the bits counted, and the three bits after it.
#[derive(Debug, Clone, Copy, PartialEq, Eq)]
struct Reading {
    answer: Result<[i128; MOST], DekuError>,
    bits_read: usize,
    after: Result<i128, DekuError>,
}

// The slow reader, how many bits it has taken, and how many there are.
#[derive(Drop)]
struct Items<'b> {
    slow: Slow<'b>,
    order: Order,
    signed: bool,
    taken: usize,
    all: usize,
}

impl<'b> Items<'b> {
    // The value of the next bits, of at most 64, or the end of the bytes.
    fn next(
        &mut self,
        width: usize,
        endian: Endian,
        signed: bool,
    ) -> Result<Result<i128, DekuError>, Fail> {
        let mut bits = [false; 64];
        let met = &mut bits[..width.min(64)];
        let taken = self.taken.saturating_add(width);
        if taken > self.all {
            return Ok(Err(DekuError::Incomplete(NeedSize::new(width))));
        }
        self.slow.take(self.order, met)?;
        self.taken = taken;
        Ok(Ok(worth(signed, endian, self.order, met).cast_signed()))
    }

    // The numbers of the items, each by itself.
    fn each(
        &mut self,
        items: &[(usize, Endian); MOST],
    ) -> Result<Result<[i128; MOST], DekuError>, Fail> {
        let mut numbers = [0; MOST];
        for (number, (width, endian)) in numbers.iter_mut().zip(items) {
            match self.next(*width, *endian, self.signed)? {
                Ok(value) => *number = value,
                Err(error) => return Ok(Err(error)),
            }
        }
        Ok(Ok(numbers))
    }
}

// The items by themselves, after so many bits.
fn one_by_one<T: Numbers>(bytes: &[u8], start: usize) -> Result<Reading, Fail> {
    let mut items = Items {
        slow: Slow::new(bytes),
        order: T::order(),
        signed: T::signed(),
        taken: 0,
        all: bytes.len().saturating_mul(8),
    };
    let _front = items.next(start, Big, false)?;
    let answer = items.each(&T::items())?;
    let bits_read = items.taken;
    let mut after = answer.map(|_| 0);
    if after.is_ok() {
        after = items.next(3, Big, true)?;
    }
    Ok(Reading {
        answer,
        bits_read,
        after,
    })
}

// The tuple, after so many bits.
fn tuple<T: Numbers, R: Source>(reader: &mut Reader<R>, start: usize) -> Reading
    requires { T.DekuReader.accepts tt }
{
    let order = T::order();
    let _front: Result<u8, DekuError> = next(reader, (Big, BitSize(start), order));
    let answer = next::<T, _, _>(reader, ()).map(|items| items.numbers());
    let bits_read = reader.bits_read();
    Reading {
        answer,
        bits_read,
        after: next(reader, (Big, BitSize(3), order)),
    }
}

// From bytes in memory, and from a source without.
fn expect_tuple<T: Numbers>(alloc: Global, bytes: &[u8], start: usize) -> Result<(), Fail>
    requires { T.DekuReader.accepts tt }
{
    let want = one_by_one::<T>(bytes, start)?;
    let row = (bytes, start);
    same(
        &row,
        &tuple::<T, _>(&mut reader_of(alloc, bytes), start),
        &want,
    )?;
    let mut slow = Reader::new(alloc, Trickle::new(bytes));
    same(&row, &tuple::<T, _>(&mut slow, start), &want)
}

// The bits that a read of a tuple takes after so many.
fn bits_taken<T: Numbers>(start: usize) -> usize {
    let mut bits = start;
    for (width, _) in T::items().iter() {
        bits = bits.saturating_add(*width);
    }
    bits
}

// The bytes of so many bits of these bytes, with zeros after the last.
fn front_of(bytes: &[u8; 17], bits: usize, order: Order) -> [u8; 17] {
    let mut front = [0; 17];
    for (i, byte) in front.iter_mut().enumerate() {
        let left = bits.saturating_sub(i.saturating_mul(8)).min(8);
        let kept = match order {
            Msb0 => !(0xFFu16 >> left),
            Lsb0 => (1u16 << left) - 1,
        };
        *byte = bytes[i.min(16)] & (kept % 256) as u8;
    }
    front
}

// Writes what is read, and pads it.
fn write_back<T: Numbers, W: Sink + Drop>(
    front: u8,
    start: usize,
    items: &T,
    sink: W,
) -> Result<(), DekuError>
    requires { T.DekuWriter.accepts tt }
{
    let mut writer = Writer::new(sink);
    put(&mut writer, &front, (Big, BitSize(start), T::order()))?;
    put(&mut writer, items, ())?;
    writer.finalize()
}

// What is read after so many bits is written as the bits that were taken, into a slice and into a
// sink that is asked at each write.
fn expect_back<T: Numbers>(alloc: Global, bytes: &[u8; 17], start: usize) -> Result<(), Fail>
    requires reads { T.DekuReader.accepts tt }
    requires writes { T.DekuWriter.accepts tt }
{
    let mut reader = reader_of(alloc, bytes.as_slice());
    let front: u8 = next(&mut reader, (Big, BitSize(start), T::order()))?;
    let items: T = next(&mut reader, ())?;
    let want = front_of(bytes, bits_taken::<T>(start), T::order());
    let row = (bytes, start);
    let mut out = [0; 17];
    write_back(front, start, &items, Cursor::new(out.as_mut_slice()))?;
    same(&row, &out, &want)?;
    let mut asked = [0; 17];
    let sink = FailAt::new(Cursor::new(asked.as_mut_slice()), 100);
    write_back(front, start, &items, sink)?;
    same(&row, &asked, &want)
}

fn expect_backs<T: Numbers>(alloc: Global, bytes: &[u8; 17]) -> Result<(), Fail>
    requires reads { T.DekuReader.accepts tt }
    requires writes { T.DekuWriter.accepts tt }
{
    for start in 0..8 {
        expect_back::<T>(alloc, bytes, start)?;
    }
    Ok(())
}

// From each bit of a byte on.
fn expect_starts<T: Numbers>(alloc: Global, bytes: &[u8]) -> Result<(), Fail>
    requires { T.DekuReader.accepts tt }
{
    for start in 0..8 {
        expect_tuple::<T>(alloc, bytes, start)?;
    }
    Ok(())
}

// With each number of bytes.
fn expect_lengths<T: Numbers>(alloc: Global, bytes: &[u8; 17]) -> Result<(), Fail>
    requires { T.DekuReader.accepts tt }
{
    for len in 1..18 {
        expect_starts::<T>(alloc, &bytes[..len])?;
    }
    Ok(())
}

pub(crate) fn expect_samples<T: Numbers>(alloc: Global) -> Result<(), Fail>
    requires reads { T.DekuReader.accepts tt }
    requires writes { T.DekuWriter.accepts tt }
{
    for bytes in samples().iter() {
        expect_lengths::<T>(alloc, bytes)?;
        expect_backs::<T>(alloc, bytes)?;
    }
    Ok(())
}

#[test]
fn of_the_most_items(rt: HostRuntime) -> Result<(), Fail> {
    expect_samples::<Header>(rt.alloc())
}

#[test]
fn of_as_many_bits_as_a_number_has(rt: HostRuntime) -> Result<(), Fail> {
    expect_samples::<Long>(rt.alloc())
}

#[test]
fn of_one_bit_more(rt: HostRuntime) -> Result<(), Fail> {
    expect_samples::<TooLong>(rt.alloc())
}

#[test]
fn in_groups(rt: HostRuntime) -> Result<(), Fail> {
    expect_samples::<Groups>(rt.alloc())
}

#[test]
fn of_low_bits(rt: HostRuntime) -> Result<(), Fail> {
    expect_samples::<Low>(rt.alloc())
}

#[test]
fn of_low_bits_with_a_sign(rt: HostRuntime) -> Result<(), Fail> {
    expect_samples::<Signs>(rt.alloc())
}

#[test]
fn of_bytes_with_a_sign(rt: HostRuntime) -> Result<(), Fail> {
    expect_samples::<Bytes>(rt.alloc())
}

#[test]
fn words_make_values() -> Result<(), Fail> {
    same(
        &"four bits",
        &u8::from_word(0x69C, 12, Msb0, &BitSize(4)),
        &Some((6, 4)),
    )?;
    let wide = (Big, BitSize(13));
    same(
        &"all bits",
        &u16::from_word(0x1ABC, 13, Msb0, &wide),
        &Some((0x1ABC, 13)),
    )?;
    same(
        &"a bit less",
        &u16::from_word(0xABC, 12, Msb0, &wide),
        &None,
    )?;
    let address = Ipv4Addr::new(10, 0, 0, 1);
    same(
        &"an address",
        &Ipv4Addr::from_word(0xA00_0001_FF, 40, Msb0, &Big),
        &Some((address, 32)),
    )?;
    same(
        &"one bit",
        &bool::from_word(2, 2, Msb0, &BitSize(1)),
        &Some((true, 1)),
    )?;
    same(&"a whole bool", &bool::from_word(1, 8, Msb0, &Big), &None)
}

#[test]
fn words_make_values_of_low_bits_and_bytes() -> Result<(), Fail> {
    let low = (Little, BitSize(4), Lsb0);
    same(
        &"four bits",
        &u8::from_word(0x69C, 12, Lsb0, &low),
        &Some((0xC, 4)),
    )?;
    same(
        &"in the other order",
        &u8::from_word(0x69C, 12, Msb0, &low),
        &None,
    )?;
    same(
        &"bytes in reverse",
        &u16::from_word(0xABCD, 16, Msb0, &Little),
        &Some((0xCDAB, 16)),
    )?;
    let reversed = (Big, BitSize(24), Lsb0);
    same(
        &"low bits, and bytes in reverse",
        &u32::from_word(0xFF_ABCDEF, 32, Lsb0, &reversed),
        &Some((0xEF_CDAB, 24)),
    )?;
    let uneven = (Little, BitSize(12));
    same(
        &"in reverse, and no whole bytes",
        &u16::from_word(0xABC, 12, Msb0, &uneven),
        &None,
    )
}

#[test]
fn words_make_values_with_a_sign() -> Result<(), Fail> {
    same(
        &"below zero",
        &i8::from_word(0xFF, 8, Msb0, &Big),
        &Some((-1, 8)),
    )?;
    let twelve = (Little, BitSize(12), Lsb0);
    same(
        &"the least",
        &i16::from_word(0x5800, 16, Lsb0, &twelve),
        &Some((-2048, 12)),
    )?;
    same(
        &"the most",
        &i16::from_word(0x57FF, 16, Lsb0, &twelve),
        &Some((2047, 12)),
    )?;
    same(
        &"bytes in reverse",
        &i32::from_word(0xFE_FFFF_FF, 32, Msb0, &Little),
        &Some((-2, 32)),
    )?;
    same(
        &"of 64 bits",
        &i64::from_word(1 << 63, 64, Msb0, &Big),
        &Some((i64::MIN, 64)),
    )
}

#[test]
fn values_make_words() -> Result<(), Fail> {
    let word = |number: u64, bits: usize, fits: bool| Some(Word { number, bits, fits });
    same(
        &"four bits",
        &6u8.to_word(Msb0, &BitSize(4)),
        &word(6, 4, true),
    )?;
    same(
        &"bytes in reverse",
        &0xC0FEu16.to_word(Msb0, &Little),
        &word(0xFEC0, 16, true),
    )?;
    let twelve = (Little, BitSize(12), Lsb0);
    same(
        &"below zero",
        &(-2048i16).to_word(Lsb0, &twelve),
        &word(0x800, 12, true),
    )?;
    same(
        &"too long",
        &u16::to_word(&0x1000, Lsb0, &twelve),
        &word(0, 12, false),
    )?;
    same(&"in the other order", &1u16.to_word(Msb0, &twelve), &None)?;
    let pair = (Msb::<u8, 4>(6), Be::<u16>(0xC0FE));
    same(
        &"of two items",
        &pair.to_word(Msb0, &()),
        &word(0x6C0FE, 20, true),
    )?;
    same(&"of 128 bits", &1u128.to_word(Msb0, &Big), &None)
}
