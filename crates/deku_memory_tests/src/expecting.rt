//! What is expected of calls that take memory.

use deku::prelude::{DekuError, DekuReader, Reader};
use deku_testing_values::expecting::{NO_MEMORY, reader_of, same};
use std::alloc::Global;
use std::fmt::Debug;
use std::io::Cursor;
use std::test::Fail;

// A call returns these items, or it is out of memory for them.
pub fn expect_items<T: PartialEq + Debug + Drop>(
    row: &str,
    answer: Result<Vec<T>, DekuError>,
    wanted: &[T],
) -> Result<(), Fail> {
    match answer {
        Ok(items) => same(&row, &items.as_slice(), &wanted),
        Err(refusal) => same(&row, &refusal, &NO_MEMORY),
    }
}

// What is read first of these bytes, each worth its place, under this context. Or it is out of
// memory, after a whole number of items of so many bytes, of which one was read and no more than
// these; and the next byte is the one after them.
pub fn read_first<T: DekuReader<C>, C>(
    alloc: Global,
    bytes: &[u8],
    ctx: C,
    size: usize,
    most: usize,
) -> Result<Option<T>, Fail>
    requires { T.accepts ctx }
{
    let mut reader = reader_of(alloc, bytes);
    match T::from_reader_with_ctx(&mut reader, ctx) {
        Ok(value) => Ok(Some(value)),
        Err(refusal) => {
            expect_after_items(&mut reader, refusal, size, most)?;
            Ok(None)
        }
    }
}

// The reader is out of memory so, after items of so many bytes.
fn expect_after_items(
    reader: &mut Reader<Cursor<&[u8]>>,
    refusal: DekuError,
    size: usize,
    most: usize,
) -> Result<(), Fail> {
    let read = reader.bits_read() / 8;
    let whole = size > 0 && read % size == 0 && size <= read && read <= most;
    let next = u8::from_reader_with_ctx(reader, ())?;
    let seen = (refusal, whole, usize::from(next));
    same(
        &(size, read),
        &seen,
        &(NO_MEMORY, true, read.saturating_add(1)),
    )
}
