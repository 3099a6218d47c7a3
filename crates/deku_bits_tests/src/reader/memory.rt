//! Reads that may run out of memory: each returns its value, or that there is no memory, and then
//! nothing has moved.

use crate::taken::{Case, Left, Step, take_tables};
use deku_bits::ctx::Order::{Lsb0, Msb0};
use deku_testing::refusals::{NO_MEMORY, Refusal};
use std::test::Fail;

// More bits than memory is found for.
const TOO_MANY: usize = 1 << 60;

const WANTS: [Case; 1] = [(
    &[0x6D, 0xBE, 0xEF],
    &[
        Step::Rest(""),
        Step::Bits(4, Msb0, Ok("0110")),
        Step::Count(4),
        Step::Rest("1101"),
        Step::Bits(2, Msb0, Ok("11")),
        Step::Count(6),
        Step::Rest("01"),
        Step::Bits(5, Lsb0, Ok("11001")),
        Step::Count(11),
        Step::Rest("10111"),
        Step::Bits(13, Msb0, Ok("1011111101111")),
        Step::Count(24),
        Step::Rest(""),
        Step::Left(Left::Nothing),
    ],
    3,
)];

// More bytes than memory is found for; the count has room for their bits.
const TOO_MANY_BYTES: usize = 1 << 59;

// A kept fault comes first, then the count, then memory, and the transfer last.
const REFUSED: [Case; 1] = [(
    &[0x6D, 0xBE],
    &[
        Step::Bits(TOO_MANY, Msb0, Err(NO_MEMORY)),
        Step::Count(0),
        Step::Bits(4, Msb0, Ok("0110")),
        Step::Bits(TOO_MANY, Lsb0, Err(NO_MEMORY)),
        Step::Vector(TOO_MANY_BYTES, Lsb0, Err(NO_MEMORY)),
        Step::Count(4),
        Step::Rest("1101"),
        Step::Bits(usize::MAX, Msb0, Err(Refusal::Past)),
        Step::Vector(1 << 61, Msb0, Err(Refusal::Past)),
        Step::Bits(5, Msb0, Ok("11011")),
        Step::Count(9),
        Step::Into(16, Msb0, Err(Refusal::Until(16))),
        Step::Bits(TOO_MANY, Msb0, Err(Refusal::Until(16))),
        Step::Vector(TOO_MANY_BYTES, Msb0, Err(Refusal::Until(16))),
        Step::Count(9),
    ],
    2,
)];

#[test]
fn reads_or_wants_memory(rt: HostRuntime) -> Result<(), Fail> {
    take_tables(&rt, rt.alloc(), &[&WANTS, &REFUSED])
}
