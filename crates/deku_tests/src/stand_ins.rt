//! Truth values, numbers other than 0 and addresses, which are read and written as numbers.

use super::expecting::{expect_bytes, expect_denied, expect_whole, expect_written, same};
use deku::ctx::Endian::{Big, Little};
use deku::ctx::Order::Lsb0;
use deku::ctx::{BitSize, ByteSize};
use deku::prelude::DekuError;
use deku_testing_values::expecting::{MISFIT, put, writer_in};
use std::net::{IpAddr, Ipv4Addr, Ipv6Addr};
use std::num::{
    NonZeroI8, NonZeroI16, NonZeroI32, NonZeroI64, NonZeroI128, NonZeroIsize, NonZeroU8,
    NonZeroU16, NonZeroU32, NonZeroU64, NonZeroU128, NonZeroUsize,
};
use std::test::Fail;

const UNTRUE: DekuError = DekuError::Parse("cannot parse bool value");

const ZERO: DekuError = DekuError::Parse("NonZero assertion");

#[test]
fn truth_values(rt: HostRuntime) {
    let alloc = rt.alloc();
    expect_whole(&rt, alloc, (), &[0x01], true);
    expect_whole(&rt, alloc, (), &[0x00], false);
    expect_whole(&rt, alloc, (Big, BitSize(2)), &[0x40], true);
    expect_whole(&rt, alloc, (BitSize(2), Lsb0), &[0x01], true);
    expect_whole(&rt, alloc, BitSize(1), &[0x80], true);
    expect_whole(&rt, alloc, ByteSize(4), &[0x01], true);
    expect_whole(&rt, alloc, BitSize(0), &[], false);
    expect_denied::<bool, ()>(&rt, alloc, (), &[0x02, 0x69], (UNTRUE, 8, 0x69));
    expect_denied::<bool, ()>(&rt, alloc, (), &[0xFF, 0x69], (UNTRUE, 8, 0x69));
    expect_denied::<bool, BitSize>(&rt, alloc, BitSize(2), &[0x9A, 0x40], (UNTRUE, 2, 0x69));
}

#[test]
fn unsigned_other_than_0(rt: HostRuntime) {
    let alloc = rt.alloc();
    expect_whole(&rt, alloc, (), &[0xFF], NonZeroU8::new(0xFF));
    expect_whole(&rt, alloc, Big, &[0xBE, 0xEF], NonZeroU16::new(0xBEEF));
    expect_whole(&rt, alloc, Little, &[1, 2, 3, 0], NonZeroU32::new(0x030201));
    expect_whole(
        &rt,
        alloc,
        (Big, ByteSize(3)),
        &[1, 2, 3],
        NonZeroU64::new(0x010203),
    );
    expect_whole(&rt, alloc, BitSize(3), &[0xA0], NonZeroU128::new(5));
    expect_whole(
        &rt,
        alloc,
        (BitSize(3), Lsb0),
        &[0x05],
        NonZeroUsize::new(5),
    );
    expect_denied::<NonZeroU8, ()>(&rt, alloc, (), &[0, 0x69], (ZERO, 8, 0x69));
    expect_denied::<NonZeroU16, ()>(&rt, alloc, (), &[0, 0, 0x69], (ZERO, 16, 0x69));
    expect_denied::<NonZeroU32, BitSize>(&rt, alloc, BitSize(0), &[0x69], (ZERO, 0, 0x69));
    expect_denied::<NonZeroU64, ByteSize>(&rt, alloc, ByteSize(1), &[0, 0x69], (ZERO, 8, 0x69));
    expect_denied::<NonZeroU128, BitSize>(
        &rt,
        alloc,
        BitSize(9),
        &[0, 0x34, 0x80],
        (ZERO, 9, 0x69),
    );
    expect_denied::<NonZeroUsize, BitSize>(&rt, alloc, BitSize(1), &[0x34, 0x80], (ZERO, 1, 0x69));
}

#[test]
fn signed_other_than_0(rt: HostRuntime) {
    let alloc = rt.alloc();
    expect_whole(&rt, alloc, (), &[0xFF], NonZeroI8::new(-1));
    expect_whole(&rt, alloc, Big, &[0x80, 0x00], NonZeroI16::new(-0x8000));
    expect_whole(&rt, alloc, Little, &[1, 2, 3, 0], NonZeroI32::new(0x030201));
    expect_whole(
        &rt,
        alloc,
        (Big, ByteSize(3)),
        &[0xFF, 0xFF, 0xFE],
        NonZeroI64::new(-2),
    );
    expect_whole(&rt, alloc, BitSize(3), &[0xA0], NonZeroI128::new(-3));
    expect_whole(
        &rt,
        alloc,
        (BitSize(3), Lsb0),
        &[0x05],
        NonZeroIsize::new(-3),
    );
    expect_denied::<NonZeroI8, ()>(&rt, alloc, (), &[0, 0x69], (ZERO, 8, 0x69));
    expect_denied::<NonZeroI16, ()>(&rt, alloc, (), &[0, 0, 0x69], (ZERO, 16, 0x69));
    expect_denied::<NonZeroI32, BitSize>(&rt, alloc, BitSize(0), &[0x69], (ZERO, 0, 0x69));
    expect_denied::<NonZeroI64, ByteSize>(&rt, alloc, ByteSize(1), &[0, 0x69], (ZERO, 8, 0x69));
    expect_denied::<NonZeroI128, BitSize>(
        &rt,
        alloc,
        BitSize(9),
        &[0, 0x34, 0x80],
        (ZERO, 9, 0x69),
    );
    expect_denied::<NonZeroIsize, BitSize>(&rt, alloc, BitSize(1), &[0x34, 0x80], (ZERO, 1, 0x69));
}

#[test]
fn addresses(rt: HostRuntime) {
    let alloc = rt.alloc();
    let four = Ipv4Addr::new(145, 254, 160, 237);
    let six = Ipv6Addr::new(0x2001, 0xDB8, 0, 0, 0, 0, 0, 1);
    let octets = [0x20, 0x01, 0x0D, 0xB8, 0, 0, 0, 0, 0, 0, 0, 0, 0, 0, 0, 1];
    let turned = [1, 0, 0, 0, 0, 0, 0, 0, 0, 0, 0, 0, 0xB8, 0x0D, 0x01, 0x20];
    expect_whole(&rt, alloc, Little, &[0xED, 0xA0, 0xFE, 0x91], four);
    expect_whole(&rt, alloc, Big, &[145, 254, 160, 237], four);
    expect_whole(&rt, alloc, Big, &octets, six);
    expect_whole(&rt, alloc, Little, &turned, six);
    expect_whole(
        &rt,
        alloc,
        (Big, ByteSize(1)),
        &[7],
        Ipv4Addr::new(0, 0, 0, 7),
    );
    let two = (Big, ByteSize(2));
    expect_whole(&rt, alloc, two, &[1, 2], Ipv4Addr::new(0, 0, 1, 2));
    let mut writer = writer_in(alloc);
    let answer = put(&mut writer, &Ipv4Addr::new(1, 0, 0, 0), two);
    same(&rt, &"a long address", &answer, &Err(MISFIT));
    expect_bytes(&rt, &"a long address", writer, &[]);
    expect_written(&rt, alloc, Big, &IpAddr::V4(four), &[145, 254, 160, 237]);
    expect_written(&rt, alloc, Big, &IpAddr::V6(six), &octets);
}
