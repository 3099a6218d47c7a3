//! Maps and sets with a count.

ghost use Rattle.std.specs.Prelude.{◌≡◌, ◌*◌, ◌<◌, ◌^◌, ◌∷◌, [], length};
ghost use Rattle.std.specs.Prelude.{nat_eq, MatchResult};
ghost use Rattle.std.specs.Set.{is_member, distinct_count};
ghost use Rattle.std.specs.declared.io.ErrorKind.TheVariants.{OutOfMemory};
ghost use Rattle.deku.specs.declared.error.DekuError.TheVariants.{Io};
ghost use Rattle.deku_callers.specs.LastValues.{last_value};

use deku::ctx::{Endian, Limit, Never};
use deku::error::DekuError;
use deku::padded_bytes;
use deku_bits::laws::length_law;
use deku_pieces::read_whole;
use deku_symmetry::laws::counted_law;
use std::alloc::Global;
use std::collections::{HashMap, HashSet};
use std::hash::{BuildHasherDefault, FoldHasher};

/// A map of numbers by bytes.
pub type Map = HashMap<u8, u16, BuildHasherDefault<FoldHasher>>;

/// A set of bytes.
pub type Set = HashSet<u8, BuildHasherDefault<FoldHasher>>;

/// Writes three pairs of a key and a value as bytes, reads them as a map with a count of three, and
/// looks up a key. The result is the value of the last pair that has the key, or `None` if no pair
/// has it; or out of memory.
pub fn value_at(
    alloc: Global,
    first: (u8, u16),
    second: (u8, u16),
    third: (u8, u16),
    key: u8,
) -> Result<Option<u16>, DekuError>
    ensures { MatchResult result (λ v. v ≡ last_value key (first ∷ second ∷ third ∷ []))
        (λ e. e ≡ Io OutOfMemory) }
{
    counted_law::<Endian, (u8, u16)>();
    length_law();
    let bytes = padded_bytes(&[first, second, third], alloc, Endian::Big)?;
    let (_bits, map) = read_whole::<(Limit<(u8, u16), Never>, Endian), Map>(
        alloc,
        bytes.as_slice(),
        (Limit::new_count(3), Endian::Big),
    )?;
    Ok(map.get(&key).copied())
}

/// Writes a key with two values, and a pair between them, as bytes, and reads them as a map. The
/// map has the last value at the key, whatever the pair is; or memory runs out.
pub fn last_of_two(
    alloc: Global,
    key: u8,
    value: u16,
    between: (u8, u16),
    last: u16,
) -> Result<Option<u16>, DekuError>
    ensures { MatchResult result (λ v. v ≡ Some last) (λ e. e ≡ Io OutOfMemory) }
{
    value_at(alloc, (key, value), between, (key, last), key)
}

/// Writes bytes one after the other, and reads them as a set with their number as the count.
/// Returns whether the set has a byte, and how many bytes it has. It has those that were written,
/// and of equal ones one; or memory runs out.
///
/// The caller's condition: the bits of the bytes can be counted.
pub fn kept_once(alloc: Global, items: &Vec<u8>, byte: u8) -> Result<(bool, usize), DekuError>
    requires { 8 * length items.now.items < 2 ^ 64 }
    ensures { MatchResult result (λ v. (v.0 ≡ is_member nat_eq items.now.items byte)
        × (v.1 ≡ distinct_count nat_eq items.now.items)) (λ e. e ≡ Io OutOfMemory) }
{
    counted_law::<Endian, u8>();
    length_law();
    let bytes = padded_bytes(items, alloc, Endian::Big)?;
    let (_bits, set) = read_whole::<(Limit<u8, Never>, Endian), Set>(
        alloc,
        bytes.as_slice(),
        (Limit::new_count(items.len()), Endian::Big),
    )?;
    Ok((set.contains(&byte), set.len()))
}
