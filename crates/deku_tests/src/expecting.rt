//! What values and their bytes are expected to be to one another.

use deku::prelude::{DekuError, DekuReader, DekuWriter, NeedSize, Reader, Writer};
use deku_testing_values::expecting::{next, put, reader_of, writer_in};
use std::alloc::Global;
use std::fmt::Debug;
use std::io::Cursor;
use std::process::Abort;

// A refusal in a table: the end of input, when so many bits were asked for, or another one.
#[derive(Clone, Copy)]
pub enum Refusal {
    Until(usize),
    Said(DekuError),
}

impl Refusal {
    pub fn error(self) -> DekuError {
        match self {
            Refusal::Until(bits) => DekuError::Incomplete(NeedSize::new(bits)),
            Refusal::Said(error) => error,
        }
    }
}

// What a call that takes memory returns, in a table.
pub type Answer<T> = Result<&'static [T], Refusal>;

// What was got is what was wanted, in the row of this name.
pub fn same<T: PartialEq + Debug>(rt: &impl Abort, row: &impl Debug, got: &T, want: &T) {
    assert!(rt; *got == *want, "{row:?}: {got:?}, and not {want:?}");
}

// So of a step of a run.
pub fn same_at<T: PartialEq + Debug>(
    rt: &impl Abort,
    run: &str,
    step: &impl Debug,
    got: &T,
    want: &T,
) {
    assert!(rt; *got == *want, "{run}: {step:?}: {got:?}, and not {want:?}");
}

// The next byte.
pub fn next_byte(reader: &mut Reader<Cursor<&[u8]>>) -> Result<u8, DekuError> {
    next(reader, ())
}

// The bits that are left of the last byte.
pub fn rest_of(reader: &Reader<Cursor<&[u8]>>) -> Result<Vec<bool>, DekuError> {
    reader.rest()
}

// The bytes of the value, under this context.
pub fn written<T: DekuWriter<C>, C>(alloc: Global, value: &T, ctx: C) -> Result<Vec<u8>, DekuError>
    requires { T.accepts ctx }
{
    let mut writer = writer_in(alloc);
    put(&mut writer, value, ctx)?;
    Ok(writer.into_inner().into_inner())
}

// What the writer wrote, with the last byte filled, are these bytes.
pub fn expect_bytes(
    rt: &impl Abort,
    row: &impl Debug,
    mut writer: Writer<Cursor<Vec<u8>>>,
    want: &[u8],
) {
    let answer = writer.finalize();
    let bytes = writer.into_inner().into_inner();
    same(rt, row, &(answer, bytes.as_slice()), &(Ok(()), want));
}

// The value is written as these bytes, with the last one filled.
pub fn expect_written<T: DekuWriter<C> + Debug, C>(
    rt: &impl Abort,
    alloc: Global,
    ctx: C,
    value: &T,
    want: &[u8],
)
    requires { T.accepts ctx }
{
    let mut writer = writer_in(alloc);
    let answer = put(&mut writer, value, ctx);
    same(rt, value, &answer, &Ok(()));
    expect_bytes(rt, value, writer, want);
}

// The next value, under this context, is this one, and then so many bits are read.
pub fn expect_next<T: DekuReader<C> + PartialEq + Debug, C>(
    rt: &impl Abort,
    reader: &mut Reader<Cursor<&[u8]>>,
    ctx: C,
    want: T,
    bits: usize,
)
    requires { T.accepts ctx }
{
    let value = next::<T, C, _>(reader, ctx);
    same(rt, &bits, &(value, reader.bits_read()), &(Ok(want), bits));
}

// The bytes are read as the value, to the last byte, and it is written as them.
pub fn expect_whole<T: DekuReader<C> + DekuWriter<C> + PartialEq + Debug, C: Copy>(
    rt: &impl Abort,
    alloc: Global,
    ctx: C,
    bytes: &[u8],
    want: T,
)
    requires reads { T.DekuReader.accepts ctx }
    requires writes { T.DekuWriter.accepts ctx }
{
    let mut reader = reader_of(alloc, bytes);
    let answer = next::<T, C, _>(&mut reader, ctx);
    let read = reader.bits_read().div_ceil(8);
    expect_written(rt, alloc, ctx, &want, bytes);
    same(rt, &bytes, &(answer, read), &(Ok(want), bytes.len()));
}

// The bytes are refused with this text after so many bits, and the byte after them is read then.
pub fn expect_denied<T: DekuReader<C> + PartialEq + Debug, C: Copy>(
    rt: &impl Abort,
    alloc: Global,
    ctx: C,
    bytes: &[u8],
    want: (DekuError, usize, u8),
)
    requires { T.accepts ctx }
{
    let mut reader = reader_of(alloc, bytes);
    let answer = next::<T, C, _>(&mut reader, ctx);
    let read = reader.bits_read();
    let seen = (answer, read, next_byte(&mut reader));
    same(rt, &bytes, &seen, &(Err(want.0), want.1, Ok(want.2)));
}

// A call that takes memory returns these items or this refusal.
pub fn expect_answer<T: PartialEq + Debug + Drop>(
    rt: &impl Abort,
    run: &str,
    step: &impl Debug,
    answer: Result<Vec<T>, DekuError>,
    want: &Result<&[T], Refusal>,
) {
    match (answer, want) {
        (Ok(items), Ok(want)) => same_at(rt, run, step, &items.as_slice(), want),
        (Ok(items), Err(_)) => assert!(rt; false, "{run}: {step:?} answers {items:?}"),
        (Err(refusal), want) => expect_refusal(rt, run, step, refusal, want.as_ref().err()),
    }
}

// This is the refusal that is wanted.
pub fn expect_refusal(
    rt: &impl Abort,
    run: &str,
    step: &impl Debug,
    refusal: DekuError,
    want: Option<&Refusal>,
) {
    let want = match want {
        Some(want) => Some(want.error()),
        None => None,
    };
    same_at(rt, run, step, &Some(refusal), &want);
}
