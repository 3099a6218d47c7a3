//! Items on the heap.

ghost use Rattle.std.specs.Prelude.{◌≡◌};
ghost use Rattle.std.specs.Box.{boxed_slice_items};
ghost use Rattle.deku_num.specs.NumberCalls.{Checked};
ghost use Rattle.deku_meanings.specs.Composing.{Then};
ghost use Rattle.deku_meanings.specs.Shapes.{Shows, LacksMemory};
ghost use Rattle.deku_reading.specs.Limits.{ReadsUnder, AsksAll, EndsItself, MappedBy};

use crate::traits::DekuReader;
use deku_bits::device::Source;
use deku_bits::error::DekuError;
use deku_bits::reader::Reader;
use deku_meanings::ctx::{Limit, Predicate};
use std::boxed::BoxedSlice;
use std::io::ErrorKind;

/// The item is read, and then memory is allocated by the reader's allocator. It fails as the item
/// does, or with `Io(OutOfMemory)` if there is no memory; the reader is then after the item.
impl<Ctx: Copy, T: DekuReader<Ctx>> DekuReader<Ctx> for Box<T> {
    ghost accepts = { T.accepts };

    ghost no_read_ahead = { T.no_read_ahead };

    ghost meaning = { λ c. Then (T.meaning c) (λ v. Checked LacksMemory (Shows (λ b. b.value) v)) };

    fn from_reader_with_ctx<R: Source>(
        reader: &mut Reader<R>,
        ctx: Ctx,
    ) -> Result<Self, DekuError> {
        let value = T::from_reader_with_ctx(reader, ctx)?;
        match Box::new(reader.alloc(), value) {
            Ok(held) => Ok(held),
            Err(_) => Err(DekuError::Io(ErrorKind::OutOfMemory)),
        }
    }
}

/// The items up to the limit, read as a vector of them is, in memory of the reader's allocator.
impl<T: DekuReader<Ctx>, P: Predicate<T>, Ctx: Copy> DekuReader<(Limit<T, P>, Ctx)>
    for BoxedSlice<T> {
    ghost accepts = { λ c. T.accepts c.1 × AsksAll P.asks_all c.0 };

    ghost no_read_ahead = { λ c. T.no_read_ahead c.1 × EndsItself c.0 };

    ghost meaning = { λ c. MappedBy (λ xs b. boxed_slice_items b ≡ xs)
        (ReadsUnder P.answers P.ended c.0 (T.meaning c.1)) };

    fn from_reader_with_ctx<R: Source>(
        reader: &mut Reader<R>,
        ctx: (Limit<T, P>, Ctx),
    ) -> Result<Self, DekuError> {
        let items = <Vec<T> as DekuReader<(Limit<T, P>, Ctx)>>::from_reader_with_ctx(reader, ctx)?;
        Ok(items.into_boxed_slice())
    }
}

/// The items up to the limit, each under `()`.
impl<T: DekuReader<()>, P: Predicate<T>> DekuReader<Limit<T, P>> for BoxedSlice<T> {
    ghost accepts = { λ c. ⟦<BoxedSlice<T> as DekuReader<(Limit<T, P>, ())>>⟧.accepts (c, tt) };

    ghost no_read_ahead = { λ c. ⟦<BoxedSlice<T> as DekuReader<(Limit<T, P>, ())>>⟧.no_read_ahead
        (c, tt) };

    ghost meaning = { λ c. ⟦<BoxedSlice<T> as DekuReader<(Limit<T, P>, ())>>⟧.meaning (c, tt) };

    fn from_reader_with_ctx<R: Source>(
        reader: &mut Reader<R>,
        ctx: Limit<T, P>,
    ) -> Result<Self, DekuError> {
        <BoxedSlice<T> as DekuReader<(Limit<T, P>, ())>>::from_reader_with_ctx(reader, (ctx, ()))
    }
}
