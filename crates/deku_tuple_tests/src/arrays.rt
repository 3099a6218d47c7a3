//! Arrays that are read as one number if their bits are in memory, alone and beside numbers: each
//! item is what it is by itself. They are written as one word.

use crate::joined::{MOST, Numbers, and_none, and_zeros, expect_samples};
use deku::Word;
use deku::ctx::Endian::{Big, Little};
use deku::ctx::Order::{Lsb0, Msb0};
use deku::ctx::{BitSize, Endian, Order};
use deku::prelude::{DekuReader, DekuWriter};
use deku_symmetry::{Be, Le, Lsb, LsbBe, Msb, ZeroBytes};
use deku_testing::same::same;
use std::test::Fail;

// The numbers of bytes.
fn of_bytes(bytes: &[u8]) -> [i128; MOST] {
    let mut numbers = [0; MOST];
    for (number, byte) in numbers.iter_mut().zip(bytes) {
        *number = *byte as i128;
    }
    numbers
}

// An array that is a number by itself.
type Four = [u8; 4];

impl Numbers for Four {
    fn items() -> [(usize, Endian); MOST] {
        and_none(&[(8, Big); 4])
    }

    fn numbers(&self) -> [i128; MOST] {
        of_bytes(self)
    }
}

// An array of as many bits as one number has.
type Eight = [u8; 8];

impl Numbers for Eight {
    fn items() -> [(usize, Endian); MOST] {
        and_none(&[(8, Big); 8])
    }

    fn numbers(&self) -> [i128; MOST] {
        of_bytes(self)
    }
}

// One byte more, so it is no number.
type Nine = [u8; 9];

impl Numbers for Nine {
    fn items() -> [(usize, Endian); MOST] {
        and_none(&[(8, Big); 9])
    }

    fn numbers(&self) -> [i128; MOST] {
        of_bytes(self)
    }
}

// One item of all bits.
type One = [Lsb<u64, 64>; 1];

impl Numbers for One {
    fn order() -> Order {
        Lsb0
    }

    fn items() -> [(usize, Endian); MOST] {
        and_none(&[(64, Little)])
    }

    fn numbers(&self) -> [i128; MOST] {
        and_zeros(&[self[0].0 as i128])
    }
}

// Arrays between numbers: of bytes, and of arrays.
type Arrays = (
    [u8; 2],
    Msb<u8, 3>,
    [[Msb<u8, 5>; 2]; 2],
    Le<u16>,
    [Be<u8>; 1],
);

impl Numbers for Arrays {
    fn items() -> [(usize, Endian); MOST] {
        and_none(&[
            (8, Big),
            (8, Big),
            (3, Big),
            (5, Big),
            (5, Big),
            (5, Big),
            (5, Big),
            (16, Little),
            (8, Big),
        ])
    }

    fn numbers(&self) -> [i128; MOST] {
        let [[c, d], [e, f]] = &self.2;
        and_zeros(&[
            self.0[0] as i128,
            self.0[1] as i128,
            self.1.0 as i128,
            c.0 as i128,
            d.0 as i128,
            e.0 as i128,
            f.0 as i128,
            self.3.0 as i128,
            self.4[0].0 as i128,
        ])
    }
}

// An array without items, which is no number, and one before a number.
type Empty = ([u8; 0], [Msb<u8, 7>; 3], Msb<u16, 9>);

impl Numbers for Empty {
    fn items() -> [(usize, Endian); MOST] {
        and_none(&[(7, Big), (7, Big), (7, Big), (9, Big)])
    }

    fn numbers(&self) -> [i128; MOST] {
        let [a, b, c] = &self.1;
        and_zeros(&[a.0 as i128, b.0 as i128, c.0 as i128, self.2.0 as i128])
    }
}

// Arrays of low bits with a sign, and of bytes in reverse.
type LowArrays = (
    [Lsb<i16, 12>; 3],
    Lsb<i8, 4>,
    [LsbBe<i16, 16>; 1],
    [Lsb<i8, 1>; 4],
);

impl Numbers for LowArrays {
    fn order() -> Order {
        Lsb0
    }

    fn signed() -> bool {
        true
    }

    fn items() -> [(usize, Endian); MOST] {
        and_none(&[
            (12, Little),
            (12, Little),
            (12, Little),
            (4, Little),
            (16, Big),
            (1, Little),
            (1, Little),
            (1, Little),
            (1, Little),
        ])
    }

    fn numbers(&self) -> [i128; MOST] {
        let [a, b, c] = &self.0;
        let [f, g, h, i] = &self.3;
        and_zeros(&[
            a.0 as i128,
            b.0 as i128,
            c.0 as i128,
            self.1.0 as i128,
            self.2[0].0 as i128,
            f.0 as i128,
            g.0 as i128,
            h.0 as i128,
            i.0 as i128,
        ])
    }
}

#[test]
fn of_arrays_of_bytes(rt: HostRuntime) -> Result<(), Fail> {
    expect_samples::<Four>(rt.alloc())?;
    expect_samples::<Eight>(rt.alloc())?;
    expect_samples::<Nine>(rt.alloc())
}

#[test]
fn of_arrays_and_numbers(rt: HostRuntime) -> Result<(), Fail> {
    expect_samples::<Arrays>(rt.alloc())?;
    expect_samples::<Empty>(rt.alloc())
}

#[test]
fn of_arrays_of_low_bits(rt: HostRuntime) -> Result<(), Fail> {
    expect_samples::<One>(rt.alloc())?;
    expect_samples::<LowArrays>(rt.alloc())
}

#[test]
fn words_make_arrays() -> Result<(), Fail> {
    same(
        &"three bytes of four",
        &<[u8; 3]>::from_word(0x0102_0304, 32, Msb0, &Big),
        &Some(([1, 2, 3], 24)),
    )?;
    let low = (Little, BitSize(12), Lsb0);
    same(
        &"low bits",
        &<[u16; 2]>::from_word(0xABC_123, 24, Lsb0, &low),
        &Some(([0x123, 0xABC], 24)),
    )?;
    same(
        &"a bit less",
        &<[u16; 2]>::from_word(0x3BC_123, 23, Lsb0, &low),
        &None,
    )?;
    same(
        &"in the other order",
        &<[u16; 2]>::from_word(0xABC_123, 24, Msb0, &low),
        &None,
    )?;
    same(
        &"all low bits",
        &<[u64; 1]>::from_word(u64::MAX, 64, Lsb0, &(Little, Lsb0)),
        &Some(([u64::MAX], 64)),
    )?;
    same(
        &"nine bytes",
        &<[u8; 9]>::from_word(0, 64, Msb0, &Big),
        &None,
    )?;
    same(&"no bytes", &<[u8; 0]>::from_word(0, 64, Msb0, &Big), &None)
}

#[test]
fn arrays_make_words() -> Result<(), Fail> {
    let word = |number: u64, bits: usize, fits: bool| Some(Word { number, bits, fits });
    same(
        &"three bytes",
        &[1u8, 2, 3].to_word(Msb0, &Big),
        &word(0x01_0203, 24, true),
    )?;
    let low = (Little, BitSize(12), Lsb0);
    same(
        &"low bits",
        &[0x123u16, 0xABC].to_word(Lsb0, &low),
        &word(0xABC_123, 24, true),
    )?;
    same(
        &"too long",
        &[1u16, 0x1002].to_word(Lsb0, &low),
        &word(0x2001, 24, false),
    )?;
    same(&"in the other order", &[1u16, 2].to_word(Msb0, &low), &None)?;
    same(
        &"eight bytes",
        &[0xFFu8; 8].to_word(Msb0, &Big),
        &word(u64::MAX, 64, true),
    )?;
    same(&"nine bytes", &[0u8; 9].to_word(Msb0, &Big), &None)?;
    let none: [u8; 0] = [];
    same(&"no bytes", &none.to_word(Msb0, &Big), &None)?;
    let constant = (Be(0xC0FEu16), ZeroBytes::<2>::new(), Msb::<u8, 4>(6));
    same(
        &"constant bytes between numbers",
        &constant.to_word(Msb0, &()),
        &word(0xC_0FE0_0006, 36, true),
    )
}
