//! Words, by worked rows.

use crate::taken::{Case, Left, Step, take_tables};
use deku_bits::ctx::Order::{Lsb0, Msb0};
use std::test::Fail;

const WORKED: [Case; 2] = [
    (
        &[0xAB, 0xCD],
        &[
            Step::Word(12, Msb0, Ok(0xCAB)),
            Step::Count(12),
            Step::Left(Left::Bits(4, 0xD0)),
        ],
        2,
    ),
    (
        &[0xA1, 0x34, 0x12],
        &[
            Step::Word(5, Lsb0, Ok(0x01)),
            Step::Word(16, Lsb0, Ok(0x91A5)),
            Step::Word(3, Lsb0, Ok(0x0)),
            Step::End(Ok(true)),
            Step::Count(24),
        ],
        3,
    ),
];

#[test]
fn reads_the_worked_words(rt: HostRuntime) -> Result<(), Fail> {
    take_tables(&rt, rt.alloc(), &[&WORKED])
}
