//! Values packed and unpacked: each kind of type that is symmetric.

use deku::cstring::CString;
use deku::ctx::{BitSize, ByteSize, Endian, Order};
use deku::prelude::DekuError;
use deku_symmetry::{Be, Msb, Symmetric};
use deku_testing_values::expecting::{MISFIT, same};
use std::alloc::Global;
use std::fmt::Debug;
use std::net::{Ipv4Addr, Ipv6Addr};
use std::num::{NonZeroI8, NonZeroU16};
use std::test::Fail;

const BIG: Endian = Endian::Big;

const LITTLE: Endian = Endian::Little;

type Header = (Msb<u8, 4>, Msb<u8, 4>, Be<u16>);

// A header as bytes, and what is read from them: how many bits, and the header.
fn header_again(alloc: Global) -> Result<(usize, Header), DekuError> {
    let header: Header = (Msb(6), Msb(9), Be(0xC0FE));
    let bytes = header.pack(alloc, ())?; // 69 C0 FE
    let (bits, again) = Header::unpack(alloc, bytes.as_slice(), ())?; // 24, and the same header
    Ok((bits, again))
}

// The value is packed as these bytes, and unpacked from them and what follows, with so many bits
// counted.
fn expect_packed<T: Symmetric<C> + PartialEq + Debug, C: Copy>(
    alloc: Global,
    ctx: C,
    value: &T,
    bits: usize,
    bytes: &[u8],
) -> Result<(), Fail>
    requires reads { T.DekuReader.accepts ctx }
    requires writes { T.DekuWriter.accepts ctx }
{
    let packed = value.pack(alloc, ctx);
    let mut more = bytes.to_vec(alloc)?;
    more.push(0xF2)?;
    let read = T::unpack(alloc, more.as_slice(), ctx);
    match (&packed, &read) {
        (Ok(packed), Ok((count, read)))
            if packed.as_slice() == bytes && *count == bits && *read == *value => { Ok(()) }
        _ => Err(Fail::new(format_args!(
            "{value:?}: packed as {packed:?}, and unpacked as {read:?}, not as {bits} bits"
        ))),
    }
}

#[test]
fn a_header_of_three_numbers(rt: HostRuntime) -> Result<(), Fail> {
    let alloc = rt.alloc();
    let header: Header = (Msb(6), Msb(9), Be(0xC0FE));
    expect_packed(alloc, (), &header, 24, &[0x69, 0xC0, 0xFE])?;
    same(&"again", &header_again(alloc)?, &(24, header))
}

#[test]
fn numbers(rt: HostRuntime) -> Result<(), Fail> {
    let alloc = rt.alloc();
    expect_packed(alloc, (), &0xABu8, 8, &[0xAB])?;
    expect_packed(alloc, BIG, &0xBEEFu16, 16, &[0xBE, 0xEF])?;
    expect_packed(alloc, (LITTLE, BitSize(10)), &0x3ABu16, 10, &[0xAB, 0xC0])?;
    expect_packed(alloc, (LITTLE, ByteSize(3)), &0x030201u32, 24, &[1, 2, 3])?;
    expect_packed(alloc, (BIG, ByteSize(2)), &-2i32, 16, &[0xFF, 0xFE])
}

#[test]
fn numbers_of_bits(rt: HostRuntime) -> Result<(), Fail> {
    let alloc = rt.alloc();
    let low = (BIG, BitSize(13), Order::Lsb0);
    expect_packed(alloc, low, &0x1001u32, 13, &[0x10, 0x01])?;
    expect_packed(alloc, BitSize(0), &0u64, 0, &[])?;
    same(&"wide", &0x400u16.pack(alloc, BitSize(10)), &Err(MISFIT))
}

#[test]
fn what_stands_for_numbers(rt: HostRuntime) -> Result<(), Fail> {
    let alloc = rt.alloc();
    expect_packed(alloc, (BIG, BitSize(2)), &true, 2, &[0x40])?;
    expect_packed(alloc, BIG, &NonZeroU16::new(0xBEEF), 16, &[0xBE, 0xEF])?;
    expect_packed(alloc, (), &NonZeroI8::new(-1), 8, &[0xFF])?;
    let two: &[u8] = &[2];
    let refusal = DekuError::Parse("cannot parse bool value");
    same(&two, &bool::unpack(alloc, two, ()), &Err(refusal))
}

#[test]
fn addresses(rt: HostRuntime) -> Result<(), Fail> {
    let alloc = rt.alloc();
    let address = Ipv4Addr::new(145, 254, 160, 237);
    expect_packed(alloc, LITTLE, &address, 32, &[0xED, 0xA0, 0xFE, 0x91])?;
    let local = Ipv6Addr::new(0, 0, 0, 0, 0, 0, 0, 1);
    expect_packed(alloc, (BIG, BitSize(1)), &local, 1, &[0x80])
}

#[test]
fn composites(rt: HostRuntime) -> Result<(), Fail> {
    let alloc = rt.alloc();
    let low = (BIG, BitSize(4), Order::Lsb0);
    expect_packed(alloc, low, &(5u8, [1u16, 2]), 12, &[0x15, 0x02])?;
    expect_packed(alloc, (), &(), 0, &[])?;
    expect_packed(alloc, (), &(7u8,), 8, &[7])?;
    expect_packed(
        alloc,
        (),
        &(true, 0x829824u32),
        40,
        &[0x01, 0x24, 0x98, 0x82, 0x00],
    )?;
    expect_packed(alloc, BitSize(4), &(1u8, 2u8, 3u8), 12, &[0x12, 0x30])
}

#[test]
fn boxes_and_options(rt: HostRuntime) -> Result<(), Fail> {
    let alloc = rt.alloc();
    expect_packed(alloc, (), &Some(0xBEEFu16), 16, &[0xEF, 0xBE])?;
    expect_packed(alloc, (), &Box::new(alloc, 0xBEEFu16)?, 16, &[0xEF, 0xBE])?;
    let none: Option<u8> = None;
    same(&none, &none.pack(alloc, ())?.len(), &0)
}

#[test]
fn long_tuples(rt: HostRuntime) -> Result<(), Fail> {
    let alloc = rt.alloc();
    let four = (1u8, 2u8, 3u8, 4u8);
    expect_packed(alloc, (), &four, 32, &[1, 2, 3, 4])?;
    let five = (1u8, 2u8, 3u8, 4u8, 5u8);
    expect_packed(alloc, (), &five, 40, &[1, 2, 3, 4, 5])?;
    let six = (1u8, 2u8, 3u8, 4u8, 5u8, 6u8);
    expect_packed(alloc, (), &six, 48, &[1, 2, 3, 4, 5, 6])
}

#[test]
fn the_longest_tuples(rt: HostRuntime) -> Result<(), Fail> {
    let alloc = rt.alloc();
    let bytes: &[u8] = &[0x12, 0x34, 0x56, 0x78, 0x9A, 0xB0];
    let ten = (1u8, 2u8, 3u8, 4u8, 5u8, 6u8, 7u8, 8u8, 9u8, 10u8);
    expect_packed(alloc, BitSize(4), &ten, 40, &bytes[..5])?;
    let eleven = (1u8, 2u8, 3u8, 4u8, 5u8, 6u8, 7u8, 8u8, 9u8, 10u8, 11u8);
    expect_packed(alloc, BitSize(4), &eleven, 44, bytes)
}

#[test]
fn texts(rt: HostRuntime) -> Result<(), Fail> {
    let alloc = rt.alloc();
    let bytes: &[u8] = &[0x61, 0x62, 0x00, 0x63];
    let (count, text) = CString::unpack(alloc, bytes, ())?;
    same(&"read", &(count, text.as_bytes()), &(24, &bytes[..2]))?;
    same(&"packed", &text.pack(alloc, ())?.as_slice(), &&bytes[..3])
}

// Bits that were not read are zero when the value is packed again.
#[test]
fn unread_bits(rt: HostRuntime) -> Result<(), Fail> {
    let ctx = (BIG, BitSize(4), Order::Lsb0);
    let bytes: &[u8] = &[0x15, 0xF2];
    let (count, value) = <(u8, [u16; 2])>::unpack(rt.alloc(), bytes, ctx)?;
    let again = value.pack(rt.alloc(), ctx)?;
    let seen = (count, value, again.as_slice());
    same(&bytes, &seen, &(12, (5, [1, 2]), &[0x15, 0x02]))
}
