//! Parts that are counted as one.

use crate::steps::OnePart;
use deku::DekuReader;
use deku::cstring::CString;
use deku::ctx::{BitSize, Endian, Order};
use deku_symmetry::{
    Be, Constant, Counted, Enum, Id, ItemCount, Kinds, Last, Le, Lsb, LsbBe, Magic, Msb, MsbLe,
    Prefixed, Rest, Until,
};
use std::net::{Ipv4Addr, Ipv6Addr};

impl OnePart for u8 {}

impl OnePart for i8 {}

impl OnePart for bool {}

impl OnePart for Ipv4Addr {}

impl OnePart for Ipv6Addr {}

impl OnePart for CString {}

impl<T: DekuReader<(Endian, BitSize)>, const N: usize> OnePart for Msb<T, N> {}

impl<T: DekuReader<(Endian, BitSize, Order)>, const N: usize> OnePart for Lsb<T, N> {}

impl<T: DekuReader<(Endian, BitSize)>, const N: usize> OnePart for MsbLe<T, N> {}

impl<T: DekuReader<(Endian, BitSize, Order)>, const N: usize> OnePart for LsbBe<T, N> {}

impl<T: DekuReader<Endian>> OnePart for Be<T> {}

impl<T: DekuReader<Endian>> OnePart for Le<T> {}

impl<T: DekuReader<()>, const N: usize> OnePart for [T; N] {}

impl<T: DekuReader<()>> OnePart for Box<T> {}

impl<P: DekuReader<()>, C: Constant<P>> OnePart for Magic<P, C> {}

impl<I: Id + DekuReader<()>, K: Kinds> OnePart for Enum<I, K> {}

impl<H: ItemCount + DekuReader<()>, T: DekuReader<()>> OnePart for Counted<H, T> {}

impl<I: Id + DekuReader<()>, T: DekuReader<()>> OnePart for Prefixed<I, T> {}

impl<T: DekuReader<()>, C: Last<T>> OnePart for Until<T, C> {}

impl<T: DekuReader<()>> OnePart for Rest<T> {}
