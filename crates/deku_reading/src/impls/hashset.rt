//! Sets: items up to a limit, each kept once.

ghost use Rattle.std.specs.HashSet.{hasher_of, IsFromIterResult};
ghost use Rattle.deku_meanings.specs.Collected.{IsSetOf};
ghost use Rattle.deku_reading.specs.Limits.{ReadsUnder, AsksAll, EndsItself, MappedBy};

use crate::impls::gather::gather_under;
use crate::traits::DekuReader;
use deku_bits::device::Source;
use deku_bits::error::DekuError;
use deku_bits::reader::Reader;
use deku_meanings::ctx::{Limit, Predicate};
use std::collections::HashSet;
use std::hash::{BuildHasher, Hash};

/// The items up to the limit, each under the items' context.
///
/// The limit counts the items that are read, not those that the set has in the end. Each item is
/// kept once: of equal items the first. The set has the hasher that `S: Default` gives.
///
/// The errors, and what is left after them, are those of a vector.
///
/// ```text
/// HashSet::<u8, S>::from_reader_with_ctx(&mut reader, Limit::new_count(3))?;
/// // from 07 07 08: 7 and 8
/// ```
impl<
    T: DekuReader<Ctx> + Eq + Hash,
    S: BuildHasher + Default + Drop,
    P: Predicate<T>,
    Ctx: Copy,
> DekuReader<(Limit<T, P>, Ctx)> for HashSet<T, S> {
    ghost accepts = { λ c. T.accepts c.1 × AsksAll P.asks_all c.0 };

    ghost no_read_ahead = { λ c. T.no_read_ahead c.1 × EndsItself c.0 };

    ghost meaning = { λ c. MappedBy (λ xs m. IsFromIterResult T.eq xs m × IsSetOf T.eq xs m
        × S.is_default (hasher_of m)) (ReadsUnder P.answers P.ended c.0 (T.meaning c.1)) };

    fn from_reader_with_ctx<R: Source>(
        reader: &mut Reader<R>,
        ctx: (Limit<T, P>, Ctx),
    ) -> Result<Self, DekuError> {
        let (limit, items) = ctx;
        let empty = HashSet::with_hasher(reader.alloc(), S::default());
        gather_under(empty, reader, limit, items)
    }
}

/// The items up to the limit, each under `()`.
impl<T: DekuReader<()> + Eq + Hash, S: BuildHasher + Default + Drop, P: Predicate<T>> DekuReader<
    Limit<T, P>,
> for HashSet<T, S> {
    ghost accepts = { λ c. ⟦<HashSet<T, S> as DekuReader<(Limit<T, P>, ())>>⟧.accepts (c, tt) };

    ghost no_read_ahead = { λ c. ⟦<HashSet<T, S> as DekuReader<(Limit<T, P>, ())>>⟧.no_read_ahead
        (c, tt) };

    ghost meaning = { λ c. ⟦<HashSet<T, S> as DekuReader<(Limit<T, P>, ())>>⟧.meaning (c, tt) };

    fn from_reader_with_ctx<R: Source>(
        reader: &mut Reader<R>,
        ctx: Limit<T, P>,
    ) -> Result<Self, DekuError> {
        <HashSet<T, S> as DekuReader<(Limit<T, P>, ())>>::from_reader_with_ctx(reader, (ctx, ()))
    }
}
