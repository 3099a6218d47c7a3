//! Items that a count ends, read into a vector.

ghost use Rattle.std.specs.Prelude.{◌≡◌, ◌++◌, ◌∷◌, [], OnOk};
ghost use Rattle.deku_bits.specs.ReaderCalls.{Reads};
ghost use Rattle.deku_reading.specs.Early.{NoReadAhead};
ghost use Rattle.deku_reading.specs.Limits.{ReadsCount, MappedBy};

use crate::traits::DekuReader;
use deku_bits::device::Source;
use deku_bits::error::DekuError;
use deku_bits::reader::Reader;
use std::alloc::AllocFailed;
use std::io::ErrorKind;

// For how many items the first one makes room.
const ROOM: usize = 8;

/// Reads exactly this many items into a new vector. Those that are in memory may be read at once.
///
/// The caller's condition: the items may be read under the context.
///
/// It fails as the first item that fails, or with `Io(OutOfMemory)` if there is no memory for an
/// item; the reader is then after that item.
pub fn read_counted<T: DekuReader<C>, C: Copy, R: Source>(
    reader: &mut Reader<R>,
    count: usize,
    ctx: C,
) -> Result<Vec<T>, DekuError>
    requires { T.accepts ctx }
    ensures reads { Reads R.known (MappedBy (λ xs v. v.items ≡ xs) (ReadsCount count
        (T.meaning ctx))) reader.old result reader.new }
    ensures early { OnOk result (T.no_read_ahead ctx → NoReadAhead R.known reader.old reader.new) }
{
    let mut items = Vec::new(reader.alloc());
    let mut left = count;
    while left > 0 {
        left -= T::try_read_onto(reader, &mut items, left, &ctx);
        if left > 0 {
            let item = T::from_reader_with_ctx(reader, ctx)?;
            let Ok(()) = push_item(&mut items, item, left) else {
                return Err(DekuError::Io(ErrorKind::OutOfMemory));
            };
            left -= 1;
        }
    }
    Ok(items)
}

// Appends an item, with which this many are left. The first one makes room for a few of them, so
// that a short vector is not moved.
#[inline]
fn push_item<T: Drop>(items: &mut Vec<T>, item: T, left: usize) -> Result<(), AllocFailed<T>>
    ensures { OnOk result (items.new.items ≡ items.old.items ++ item ∷ []) }
{
    if items.is_empty() {
        let _room = items.reserve(left.min(ROOM));
    }
    items.push(item)
}
