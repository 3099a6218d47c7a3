//! Items that are read one after the other, up to a limit, and put into a collection.

ghost use Rattle.std.specs.Prelude.{◌≡◌, OnOk};
ghost use Rattle.std.specs.List.{FoldsTo};
ghost use Rattle.deku_bits.specs.ReaderCalls.{Reads};
ghost use Rattle.deku_reading.specs.Early.{NoReadAhead};
ghost use Rattle.deku_reading.specs.Limits.{ReadsCount, ReadsUntil, ReadsBitsOf, ReadsToEnd};
ghost use Rattle.deku_reading.specs.Limits.{ReadsUnder, AsksAll, EndsItself, MappedBy};

use crate::traits::DekuReader;
use deku_bits::device::Source;
use deku_bits::error::DekuError;
use deku_bits::reader::Reader;
use deku_meanings::ctx::{BitSize, ByteSize, Limit, Predicate};
use deku_meanings::{Gather, is_past_by, keep};

// Reads exactly this many items.
fn gather_count<B: Gather<T>, T: DekuReader<C>, C: Copy, R: Source>(
    mut into: B,
    reader: &mut Reader<R>,
    count: usize,
    ctx: C,
) -> Result<B, DekuError>
    requires { T.accepts ctx }
    ensures reads { Reads R.known (MappedBy (λ xs b. FoldsTo B.puts into xs b)
        (ReadsCount count (T.meaning ctx))) reader.old result reader.new }
    ensures early { OnOk result (T.no_read_ahead ctx → NoReadAhead R.known reader.old reader.new) }
{
    for _ in 0..count {
        let item = T::from_reader_with_ctx(reader, ctx)?;
        into.put(item)?;
    }
    Ok(into)
}

// Items up to and including the first of which the predicate is true. The predicate is left as it
// is after the last item.
fn gather_until<B: Gather<T>, T: DekuReader<C>, C: Copy, R: Source, P: Predicate<T>>(
    mut into: B,
    reader: &mut Reader<R>,
    predicate: &mut P,
    ctx: C,
) -> Result<B, DekuError>
    requires readable { T.accepts ctx }
    requires askable { P.asks_all predicate.old }
    ensures reads { Reads R.known (MappedBy (λ xs b. FoldsTo B.puts into xs b)
        (ReadsUntil P.answers (λ p. p ≡ predicate.new) predicate.old (T.meaning ctx))) reader.old
        result reader.new }
    ensures early { OnOk result (T.no_read_ahead ctx → NoReadAhead R.known reader.old reader.new) }
{
    loop {
        let before = reader.bits_read();
        let item = T::from_reader_with_ctx(reader, ctx)?;
        let ends = predicate.test(&item);
        keep(&mut into, item, ends, before, reader.bits_read())?;
        if ends {
            return Ok(into);
        }
    }
}

// Reads items up to and including the one with which exactly this many bits are read.
fn gather_bits<B: Gather<T>, T: DekuReader<C>, C: Copy, R: Source>(
    mut into: B,
    reader: &mut Reader<R>,
    bits: usize,
    ctx: C,
) -> Result<B, DekuError>
    requires { T.accepts ctx }
    ensures reads { Reads R.known (MappedBy (λ xs b. FoldsTo B.puts into xs b)
        (ReadsBitsOf bits (T.meaning ctx))) reader.old result reader.new }
    ensures early { OnOk result (T.no_read_ahead ctx → NoReadAhead R.known reader.old reader.new) }
{
    if bits == 0 {
        return Ok(into);
    }
    let start = reader.bits_read();
    loop {
        let before = reader.bits_read();
        let item = T::from_reader_with_ctx(reader, ctx)?;
        let after = reader.bits_read();
        let ends = is_past_by(start, after, bits);
        keep(&mut into, item, ends, before, after)?;
        if ends {
            return Ok(into);
        }
    }
}

// Reads items as long as there is a bit before the next one.
fn gather_to_end<B: Gather<T>, T: DekuReader<C>, C: Copy, R: Source>(
    mut into: B,
    reader: &mut Reader<R>,
    ctx: C,
) -> Result<B, DekuError>
    requires { T.accepts ctx }
    ensures { Reads R.known (MappedBy (λ xs b. FoldsTo B.puts into xs b)
        (ReadsToEnd (T.meaning ctx))) reader.old result reader.new }
{
    while !reader.end()? {
        let before = reader.bits_read();
        let item = T::from_reader_with_ctx(reader, ctx)?;
        keep(&mut into, item, false, before, reader.bits_read())?;
    }
    Ok(into)
}

/// Reads items up to the limit, and puts each into the collection as soon as it is read.
///
/// The caller's conditions: the items may be read under the context, and the limit's predicate, if
/// it has one, may be asked about every item.
pub fn gather_under<B: Gather<T>, T: DekuReader<C>, C: Copy, R: Source, P: Predicate<T>>(
    into: B,
    reader: &mut Reader<R>,
    limit: Limit<T, P>,
    ctx: C,
) -> Result<B, DekuError>
    requires readable { T.accepts ctx }
    requires askable { AsksAll P.asks_all limit }
    ensures reads { Reads R.known (MappedBy (λ xs b. FoldsTo B.puts into xs b)
        (ReadsUnder P.answers P.ended limit (T.meaning ctx))) reader.old result reader.new }
    ensures early { OnOk result (T.no_read_ahead ctx → EndsItself limit
        → NoReadAhead R.known reader.old reader.new) }
{
    match limit {
        Limit::Count(count) => gather_count(into, reader, count, ctx),
        Limit::Until(mut predicate, _) => {
            let gathered = gather_until(into, reader, &mut predicate, ctx);
            predicate.finish();
            gathered
        }
        Limit::ByteSize(ByteSize(bytes)) => match bytes.checked_mul(8) {
            Some(bits) => gather_bits(into, reader, bits, ctx),
            None => Err(DekuError::InvalidParam("count past usize")),
        },
        Limit::BitSize(BitSize(bits)) => gather_bits(into, reader, bits, ctx),
        Limit::End => gather_to_end(into, reader, ctx),
    }
}
