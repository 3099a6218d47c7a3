//! Vectors: items up to a limit.

ghost use Rattle.std.specs.Prelude.{◌≡◌, ◌*◌};
ghost use Rattle.deku_reading.specs.Limits.{ReadsUnder, AsksAll, EndsItself, MappedBy};
ghost use Rattle.deku_bits.specs.declared.ctx.Order.TheVariants.{Lsb0};
ghost use Rattle.deku_bits.specs.Bits.{bytes_of};
ghost use Rattle.deku_bits.specs.Outcomes.{Mapped};
ghost use Rattle.deku_bits.specs.ReaderCalls.{ReadsVec};
ghost use Rattle.deku_reading.specs.Lists.{Seen};

use crate::impls::counted::read_counted;
use crate::impls::gather::gather_under;
use crate::traits::DekuReader;
use deku_bits::device::Source;
use deku_bits::error::DekuError;
use deku_bits::reader::Reader;
use deku_meanings::ctx::{Limit, Order, Predicate, ReadExact};
use std::alloc::Global;

/// The items up to the limit, each under the items' context.
///
/// It fails with
///
/// - `Parse("item without width")` if an item does not raise the count of bits read and does not
///   end the list, unless the limit is a count;
/// - `Io(OutOfMemory)` if there is no memory for an item; the reader is then after that item;
/// - `InvalidParam("count past usize")` if a size in bytes has more bits than a `usize` can count;
///   then nothing is read;
/// - otherwise, the error of the first item that fails; what was read before is consumed.
///
/// Nothing is allocated before the first item is read, except room for at most 64 bytes if the
/// items are bytes, so a count that is larger than the input costs nothing.
///
/// ```text
/// let limit = Limit::new_count(2);                         // from 69 E9
/// Vec::<u8>::from_reader_with_ctx(&mut reader, (limit, BitSize(6)))?; // 0x1A, 0x1E
/// ```
impl<T: DekuReader<Ctx>, P: Predicate<T>, Ctx: Copy> DekuReader<(Limit<T, P>, Ctx)> for Vec<T> {
    ghost accepts = { λ c. T.accepts c.1 × AsksAll P.asks_all c.0 };

    ghost no_read_ahead = { λ c. T.no_read_ahead c.1 × EndsItself c.0 };

    ghost meaning = { λ c. MappedBy (λ xs v. v.items ≡ xs)
        (ReadsUnder P.answers P.ended c.0 (T.meaning c.1)) };

    fn from_reader_with_ctx<R: Source>(
        reader: &mut Reader<R>,
        ctx: (Limit<T, P>, Ctx),
    ) -> Result<Self, DekuError> {
        let (limit, items) = ctx;
        match limit {
            Limit::Count(count) => read_counted(reader, count, items),
            limit => gather_under(Vec::new(reader.alloc()), reader, limit, items),
        }
    }
}

/// The items up to the limit, each under `()`.
impl<T: DekuReader<()>, P: Predicate<T>> DekuReader<Limit<T, P>> for Vec<T> {
    ghost accepts = { λ c. ⟦<Vec<T> as DekuReader<(Limit<T, P>, ())>>⟧.accepts (c, tt) };

    ghost no_read_ahead = { λ c. ⟦<Vec<T> as DekuReader<(Limit<T, P>, ())>>⟧.no_read_ahead
        (c, tt) };

    ghost meaning = { λ c. ⟦<Vec<T> as DekuReader<(Limit<T, P>, ())>>⟧.meaning (c, tt) };

    fn from_reader_with_ctx<R: Source>(
        reader: &mut Reader<R>,
        ctx: Limit<T, P>,
    ) -> Result<Self, DekuError> {
        <Vec<T> as DekuReader<(Limit<T, P>, ())>>::from_reader_with_ctx(reader, (ctx, ()))
    }
}

/// This many bytes at once, as `Reader::read_bytes` reads them in `Lsb0`. The memory for them is
/// allocated first.
///
/// It fails, in this order, with the error that stopped the reader; with
/// `InvalidParam("count past usize")`; with `Io(OutOfMemory)`, and nothing changes; or as
/// `Reader::read_bytes` does.
impl DekuReader<ReadExact> for Vec<u8> {
    ghost meaning = { λ c. Seen (λ v. v.items) (Mapped bytes_of (ReadsVec Lsb0 (8 * c.0))) };

    fn from_reader_with_ctx<R: Source>(
        reader: &mut Reader<R>,
        ctx: ReadExact,
    ) -> Result<Self, DekuError> {
        let ReadExact(count) = ctx;
        reader.read_bytes_vec(count, Order::Lsb0)
    }
}
