//! Numbers with a count of them, and after a byte that counts them.

ghost use Rattle.std.specs.Prelude.{◌≡◌, ◌*◌, ◌<◌, ◌^◌, ◌∷◌, length};
ghost use Rattle.std.specs.Prelude.{MatchResult};
ghost use Rattle.std.specs.declared.io.ErrorKind.TheVariants.{OutOfMemory};
ghost use Rattle.deku.specs.declared.error.DekuError.TheVariants.{Io};
ghost use Rattle.deku_callers.specs.CountedNumbers.{IsRecordOf, ReadsRecord};

use deku::ctx::{Endian, Limit, Never};
use deku::error::{DekuError, NeedSize};
use deku::padded_bytes;
use deku_bits::laws::length_law;
use deku_pieces::read_whole;
use deku_symmetry::laws::counted_law;
use std::alloc::Global;
use std::io::ErrorKind;

/// Writes numbers as bytes, the high byte of each first, and reads them back with their number as
/// the count. The result is the same numbers, or out of memory.
///
/// The caller's condition: the bits of the numbers can be counted.
pub fn there_and_back(alloc: Global, numbers: &Vec<u16>) -> Result<Vec<u16>, DekuError>
    requires { 16 * length numbers.now.items < 2 ^ 64 }
    ensures { MatchResult result (λ v. v.items ≡ numbers.now.items) (λ e. e ≡ Io OutOfMemory) }
{
    counted_law::<Endian, u16>();
    length_law();
    let bytes = padded_bytes(numbers, alloc, Endian::Big)?;
    let (_bits, read) = read_whole::<(Limit<u16, Never>, Endian), Vec<u16>>(
        alloc,
        bytes.as_slice(),
        (Limit::new_count(numbers.len()), Endian::Big),
    )?;
    Ok(read)
}

/// A byte that counts numbers, and the bytes of the numbers after it, the high byte of each first.
///
/// The caller's condition: a byte can count the numbers. It fails with `Io` if there is no memory.
///
/// ```text
/// record_of(alloc, &numbers)?                         // 02 C0 FE 00 01, of the numbers C0FE and 1
/// ```
pub fn record_of(alloc: Global, numbers: &Vec<u16>) -> Result<Vec<u8>, DekuError>
    requires { length numbers.now.items < 256 }
    ensures { MatchResult result (λ v. IsRecordOf numbers.now.items v.items)
        (λ e. e ≡ Io OutOfMemory) }
{
    counted_law::<Endian, u16>();
    length_law();
    let bytes = padded_bytes(numbers, alloc, Endian::Big)?;
    behind(alloc, numbers.len() as u8, bytes.as_slice())
}

// A byte, and others after it.
fn behind(alloc: Global, first: u8, bytes: &[u8]) -> Result<Vec<u8>, DekuError>
    ensures { MatchResult result (λ v. v.items ≡ first ∷ bytes.now) (λ e. e ≡ Io OutOfMemory) }
{
    let mut all = Vec::new(alloc);
    if all.push(first).is_err() {
        return Err(DekuError::Io(ErrorKind::OutOfMemory));
    }
    if all.extend_from_slice(bytes).is_err() {
        return Err(DekuError::Io(ErrorKind::OutOfMemory));
    }
    Ok(all)
}

/// The numbers after a byte that counts them. They are read with a count of that byte.
///
/// It fails with `Incomplete` if the bytes end before the last of the numbers, and with `Io` if
/// there is no memory.
pub fn numbers_of(alloc: Global, bytes: &[u8]) -> Result<Vec<u16>, DekuError>
    ensures { ReadsRecord bytes.now result }
{
    counted_law::<Endian, u16>();
    length_law();
    let Some((first, rest)) = bytes.split_first_chunk::<1>() else {
        return Err(DekuError::Incomplete(NeedSize::new(8)));
    };
    let count = first[0] as usize;
    let (_bits, numbers) = read_whole::<(Limit<u16, Never>, Endian), Vec<u16>>(
        alloc,
        rest,
        (Limit::new_count(count), Endian::Big),
    )?;
    Ok(numbers)
}

/// Writes numbers as their record, and reads them back. The result is the same numbers, or out of
/// memory.
///
/// The caller's condition: a byte can count the numbers.
pub fn record_there_and_back(alloc: Global, numbers: &Vec<u16>) -> Result<Vec<u16>, DekuError>
    requires { length numbers.now.items < 256 }
    ensures { MatchResult result (λ v. v.items ≡ numbers.now.items) (λ e. e ≡ Io OutOfMemory) }
{
    let record = record_of(alloc, numbers)?;
    numbers_of(alloc, record.as_slice())
}
