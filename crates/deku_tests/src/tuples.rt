//! Nothing, and tuples.

ghost use Rattle.deku.specs.declared.ctx.Order.TheVariants as order;

use super::expecting::{
    expect_bytes, expect_denied, expect_whole, expect_written, next_byte, same,
};
use deku::ctx::Endian::{Big, Little};
use deku::ctx::Order::Lsb0;
use deku::ctx::{BitSize, ByteSize, Order};
use deku::device::Sink;
use deku::prelude::{DekuError, DekuWriter, NeedSize, Writer};
use deku_testing_values::expecting::{MISFIT, next, put, reader_of, writer_in};
use std::io::Cursor;
use std::test::Fail;

// It moves nothing, whatever its context, also if the reader has stopped.
#[test]
fn nothing(rt: HostRuntime) {
    let alloc = rt.alloc();
    expect_whole(&rt, alloc, (), &[], ());
    expect_whole(&rt, alloc, (Big, BitSize(3)), &[], ());
    expect_whole(&rt, alloc, "any context", &[], ());
    let ended = DekuError::Incomplete(NeedSize::new(8));
    let mut reader = reader_of(alloc, &[]);
    for turn in [1, 2] {
        let byte = next_byte(&mut reader);
        let seen = (byte, next::<(), (), _>(&mut reader, ()));
        same(&rt, &turn, &seen, &(Err(ended), Ok(())));
    }
}

#[test]
fn of_one_to_six(rt: HostRuntime) {
    let alloc = rt.alloc();
    expect_whole(&rt, alloc, (), &[1], (1u8,));
    expect_whole(&rt, alloc, (), &[1, 2], (1u8, 2u8));
    expect_whole(&rt, alloc, (), &[1, 2, 3], (1u8, 2u8, 3u8));
    expect_whole(&rt, alloc, (), &[1, 2, 3, 4], (1u8, 2u8, 3u8, 4u8));
    expect_whole(&rt, alloc, (), &[1, 2, 3, 4, 5], (1u8, 2u8, 3u8, 4u8, 5u8));
    expect_whole(
        &rt,
        alloc,
        (),
        &[1, 2, 3, 4, 5, 6],
        (1u8, 2u8, 3u8, 4u8, 5u8, 6u8),
    )
}

// Three bits, the high one first: 101.
#[derive(Drop)]
struct High;

impl DekuWriter<()> for High {
    ghost meaning = { λ v _. ⟦<u8 as DekuWriter<BitSize>>⟧.meaning 5 (record { 0 = 3 }) };

    fn to_writer<W: Sink>(&self, writer: &mut Writer<W>, _ctx: ()) -> Result<(), DekuError> {
        5u8.to_writer(writer, BitSize(3))
    }
}

// Nine bits, the low one first: 100000001.
#[derive(Drop)]
struct Low;

impl DekuWriter<()> for Low {
    ghost meaning = { λ v _. ⟦<u16 as DekuWriter<(BitSize, Order)>>⟧.meaning 257
        (record { 0 = 9 }, order.Lsb0) };

    fn to_writer<W: Sink>(&self, writer: &mut Writer<W>, _ctx: ()) -> Result<(), DekuError> {
        0x101u16.to_writer(writer, (BitSize(9), Lsb0))
    }
}

#[test]
fn of_records_in_two_orders(rt: HostRuntime) -> Result<(), Fail> {
    let mut writer = writer_in(rt.alloc());
    put(&mut writer, &(High, Low), ())?;
    expect_bytes(&rt, &"two orders", writer, &[0xB0, 0x01]);
    Ok(())
}

const SEVEN: (u8, u8, u8, u8, u8, u8, u8) = (1, 2, 3, 4, 5, 6, 7);

const EIGHT: (u8, u8, u8, u8, u8, u8, u8, u8) = (1, 2, 3, 4, 5, 6, 7, 8);

const NINE: (u8, u8, u8, u8, u8, u8, u8, u8, u8) = (1, 2, 3, 4, 5, 6, 7, 8, 9);

const TEN: (u8, u8, u8, u8, u8, u8, u8, u8, u8, u8) = (1, 2, 3, 4, 5, 6, 7, 8, 9, 10);

const ELEVEN: (u8, u8, u8, u8, u8, u8, u8, u8, u8, u8, u8) = (1, 2, 3, 4, 5, 6, 7, 8, 9, 10, 11);

#[test]
fn of_seven_to_eleven(rt: HostRuntime) {
    let alloc = rt.alloc();
    expect_whole(&rt, alloc, (), &[1, 2, 3, 4, 5, 6, 7], SEVEN);
    expect_whole(&rt, alloc, (), &[1, 2, 3, 4, 5, 6, 7, 8], EIGHT);
    expect_whole(&rt, alloc, (), &[1, 2, 3, 4, 5, 6, 7, 8, 9], NINE);
    expect_whole(&rt, alloc, (), &[1, 2, 3, 4, 5, 6, 7, 8, 9, 10], TEN);
    expect_whole(&rt, alloc, (), &[1, 2, 3, 4, 5, 6, 7, 8, 9, 10, 11], ELEVEN);
}

// Items of several types, and tuples in tuples, all under the context of the whole.
#[test]
fn of_several_types(rt: HostRuntime) {
    let alloc = rt.alloc();
    expect_whole(
        &rt,
        alloc,
        (),
        &[0x01, 0x24, 0x98, 0x82, 0x00],
        (true, 0x829824u32),
    );
    expect_whole(
        &rt,
        alloc,
        Big,
        &[0x01, 0x00, 0x82, 0x98, 0x24],
        (true, 0x829824u32),
    );
    expect_whole(
        &rt,
        alloc,
        Big,
        &[0x69, 0xBE, 0xEF, 0xFF, 0xFE],
        (0x69u8, (0xBEEFu16, -2i16)),
    );
    expect_whole(
        &rt,
        alloc,
        Big,
        &[0x69, 0xBE, 0xEF, 0x01],
        ((0x69u8, 0xBEEFu16), ((true,),)),
    );
}

// So under the contexts that have a size.
#[test]
fn of_several_sizes(rt: HostRuntime) {
    let alloc = rt.alloc();
    expect_whole(
        &rt,
        alloc,
        ByteSize(1),
        &[1, 2, 3, 4],
        (1u16, (), (2u32, 3u64, 4u128)),
    );
    expect_whole(
        &rt,
        alloc,
        (Little, BitSize(2)),
        &[0x1B],
        (0u8, 1u16, 2u32, 3u64),
    );
    expect_whole(
        &rt,
        alloc,
        (BitSize(2), Lsb0),
        &[0xE4],
        (0u8, (1u16, (2u32, 3u64))),
    );
}

// What comes before a refused item stays moved.
#[test]
fn part_of_a_tuple(rt: HostRuntime) {
    let alloc = rt.alloc();
    let untrue = DekuError::Parse("cannot parse bool value");
    expect_denied::<(u8, bool, u8), ()>(&rt, alloc, (), &[1, 2, 3], (untrue, 16, 3));
    let mut slice = [0; 2];
    let mut writer = Writer::new(Cursor::new(slice.as_mut_slice()));
    let four = BitSize(4);
    let answer = (5u8, 6u8, 16u8, 7u8).to_writer(&mut writer, four);
    same(
        &rt,
        &"misfit",
        &(answer, writer.bits_written()),
        &(Err(MISFIT), 8),
    );
    expect_written(&rt, alloc, four, &(5u8, 6u8, 7u8), &[0x56, 0x70]);
}
