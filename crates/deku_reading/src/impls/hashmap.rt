//! Maps: pairs of a key and a value, up to a limit.

ghost use Rattle.std.specs.HashMap.{hasher_of, IsFromIterResult};
ghost use Rattle.deku_meanings.specs.Collected.{IsMapOf};
ghost use Rattle.deku_reading.specs.Limits.{ReadsUnder, AsksAll, EndsItself, MappedBy};

use crate::impls::gather::gather_under;
use crate::traits::DekuReader;
use deku_bits::device::Source;
use deku_bits::error::DekuError;
use deku_bits::reader::Reader;
use deku_meanings::ctx::{Limit, Predicate};
use std::collections::HashMap;
use std::hash::{BuildHasher, Hash};

/// The pairs up to the limit, each a key and then its value, under the items' context.
///
/// The limit counts the pairs that are read, not the entries of the map. A later value of a key
/// replaces an earlier one, and of equal keys the first is kept. The map has the hasher that
/// `S: Default` gives.
///
/// The errors, and what is left after them, are those of a vector of pairs.
///
/// ```text
/// HashMap::<u8, u8, S>::from_reader_with_ctx(&mut reader, Limit::new_count(2))?;
/// // from 01 AA 01 BB: 1 to 0xBB
/// ```
impl<
    K: DekuReader<Ctx> + Eq + Hash,
    V: DekuReader<Ctx>,
    S: BuildHasher + Default + Drop,
    P: Predicate<(K, V)>,
    Ctx: Copy,
> DekuReader<(Limit<(K, V), P>, Ctx)> for HashMap<K, V, S> {
    ghost accepts = { λ c. ⟦<(K, V) as DekuReader<Ctx>>⟧.accepts c.1 × AsksAll P.asks_all c.0 };

    ghost no_read_ahead = { λ c. ⟦<(K, V) as DekuReader<Ctx>>⟧.no_read_ahead c.1 × EndsItself c.0 };

    ghost meaning = { λ c. MappedBy (λ xs m. IsFromIterResult K.eq xs m × IsMapOf K.eq xs m
        × S.is_default (hasher_of m)) (ReadsUnder P.answers P.ended c.0
        (⟦<(K, V) as DekuReader<Ctx>>⟧.meaning c.1)) };

    fn from_reader_with_ctx<R: Source>(
        reader: &mut Reader<R>,
        ctx: (Limit<(K, V), P>, Ctx),
    ) -> Result<Self, DekuError> {
        let (limit, items) = ctx;
        let empty = HashMap::with_hasher(reader.alloc(), S::default());
        gather_under(empty, reader, limit, items)
    }
}

/// The pairs up to the limit, each under `()`.
impl<
    K: DekuReader<()> + Eq + Hash,
    V: DekuReader<()>,
    S: BuildHasher + Default + Drop,
    P: Predicate<(K, V)>,
> DekuReader<Limit<(K, V), P>> for HashMap<K, V, S> {
    ghost accepts = { λ c. ⟦<HashMap<K, V, S> as DekuReader<(Limit<(K, V), P>, ())>>⟧.accepts
        (c, tt) };

    ghost no_read_ahead = { λ c.
        ⟦<HashMap<K, V, S> as DekuReader<(Limit<(K, V), P>, ())>>⟧.no_read_ahead (c, tt) };

    ghost meaning = { λ c. ⟦<HashMap<K, V, S> as DekuReader<(Limit<(K, V), P>, ())>>⟧.meaning
        (c, tt) };

    fn from_reader_with_ctx<R: Source>(
        reader: &mut Reader<R>,
        ctx: Limit<(K, V), P>,
    ) -> Result<Self, DekuError> {
        <HashMap<K, V, S> as DekuReader<(Limit<(K, V), P>, ())>>::from_reader_with_ctx(
            reader,
            (ctx, ()),
        )
    }
}
