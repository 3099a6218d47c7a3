//! Rows of one type, in one call: the prover writes out a type, and all that it is, at each call
//! that is generic over it.

use deku::padded_bytes;
use deku::prelude::{DekuContainerRead, DekuContainerWrite, DekuError, DekuReader, DekuWriter};
use deku_testing_values::expecting::same;
use deku_testing_values::records::{expect_both_ways, expect_record, expect_refusal};
use std::alloc::Global;
use std::fmt::Debug;
use std::test::Fail;

/// What is expected of a value, or of bytes.
#[derive(Drop)]
pub enum Row<'b, T> {
    /// The value is written as these bytes, and read from them, with so many bits counted.
    Written(T, usize, &'b [u8]),
    /// The bytes are refused so, after so many bits of them.
    Refused(&'b [u8], DekuError, usize),
    /// The value is refused so when it is written.
    Unfit(T, DekuError),
}

fn expect_row<T: DekuReader<()> + DekuWriter<()> + PartialEq + Debug + Drop>(
    alloc: Global,
    row: &Row<'_, T>,
) -> Result<(), Fail>
    requires reads { T.DekuReader.accepts tt }
    requires writes { T.DekuWriter.accepts tt }
{
    match row {
        Row::Written(value, bits, bytes) => expect_both_ways(alloc, (), value, *bits, *bytes),
        Row::Refused(bytes, why, bits) => expect_refusal::<T>(alloc, *bytes, *why, *bits),
        Row::Unfit(value, why) => same(value, &padded_bytes(value, alloc, ()), &Err(*why)),
    }
}

/// Each row is as it says.
pub fn expect_rows<T: DekuReader<()> + DekuWriter<()> + PartialEq + Debug + Drop>(
    alloc: Global,
    rows: &[Row<'_, T>],
) -> Result<(), Fail>
    requires reads { T.DekuReader.accepts tt }
    requires writes { T.DekuWriter.accepts tt }
{
    for row in rows {
        expect_row(alloc, row)?;
    }
    Ok(())
}

/// Each value is written as its bytes and read from them, whichever call does it.
pub fn expect_records<T: DekuContainerRead + DekuContainerWrite + PartialEq + Debug + Drop>(
    alloc: Global,
    records: &[(T, &[u8])],
) -> Result<(), Fail>
    requires reads { T.DekuReader.accepts tt }
    requires writes { T.DekuWriter.accepts tt }
{
    for (value, bytes) in records {
        expect_record(alloc, value, *bytes)?;
    }
    Ok(())
}
