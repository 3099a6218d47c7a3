//! The count of bits read at its largest.

use crate::taken::{Case, Left, Step, take_tables};
use deku_bits::ctx::Order::Msb0;
use deku_testing::refusals::Refusal;
use std::io::{ErrorKind, SeekFrom};
use std::test::Fail;

// The last place whose bits a `usize` counts.
const LAST: u64 = 2305843009213693951;

const TO_THE_END: [Case; 1] = [(
    &[0x01, 0x02],
    &[
        Step::Seek(SeekFrom::Start(LAST), Ok(LAST)),
        Step::Count(18446744073709551608),
        Step::Seek(SeekFrom::Start(0), Ok(0)),
        Step::Count(18446744073709551608),
        Step::Fill(1, Msb0, Err(Refusal::Past)),
        Step::Count(18446744073709551608),
        Step::Left(Left::Nothing),
        Step::Into(7, Msb0, Ok("0000000")),
        Step::Count(usize::MAX),
        Step::Into(1, Msb0, Err(Refusal::Past)),
        Step::Skip(1, Msb0, Err(Refusal::Past)),
        Step::Word(1, Msb0, Err(Refusal::Past)),
        Step::Into(0, Msb0, Ok("")),
        Step::Rest("1"),
        Step::Count(usize::MAX),
    ],
    1,
)];

// One place further is refused, and nothing changes.
const PAST_THE_LAST: [Case; 1] = [(
    &[0x01, 0x02],
    &[
        Step::Into(4, Msb0, Ok("0000")),
        Step::Seek(SeekFrom::Start(LAST + 1), Err(ErrorKind::InvalidInput)),
        Step::Count(4),
        Step::Seek(SeekFrom::Start(u64::MAX), Err(ErrorKind::InvalidInput)),
        Step::Count(4),
        Step::Seek(
            SeekFrom::Current(LAST as i64 + 1),
            Err(ErrorKind::InvalidInput),
        ),
        Step::Count(4),
        Step::Seek(SeekFrom::Current(i64::MAX), Err(ErrorKind::InvalidInput)),
        Step::Count(4),
        Step::Fill(1, Msb0, Ok(&[0x10])),
    ],
    2,
)];

#[test]
fn counts_to_the_end_of_its_type_and_no_further(rt: HostRuntime) -> Result<(), Fail> {
    take_tables(&rt, rt.alloc(), &[&TO_THE_END, &PAST_THE_LAST])
}
