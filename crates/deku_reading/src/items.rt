//! Items that are read one after the other, or cut from one word, if all of them can be and their
//! bits are in memory.

ghost use Rattle.std.specs.Prelude.{◌≡◌, ◌<◌, ◌≤◌, ◌^◌, Option, OnOk, IfSome};
ghost use Rattle.std.specs.Prelude.{IsNone};
ghost use Rattle.deku_bits.specs.Outcomes.{Meaning, Mapped};
ghost use Rattle.deku_bits.specs.ReaderCalls.{Reads};
ghost use Rattle.deku_bits.specs.Streams.{Stream};
ghost use Rattle.deku_meanings.specs.Composing.{JoinedBy};
ghost use Rattle.deku_reading.specs.Cutting.{IsReadOf, IsOfNumber, IsCutFrom};
ghost use Rattle.deku_reading.specs.Early.{NoReadAhead};

use crate::traits::DekuReader;
use deku_bits::ctx::Order;
use deku_bits::device::Source;
use deku_bits::error::DekuError;
use deku_bits::reader::Reader;
use deku_num::cutting::word_bytes;
use std::alloc::Global;
use std::io::Cursor;

/// Items that are read one after the other.
pub(crate) trait Items<Ctx: Copy>: Drop {
    // The contexts under which they may be read.
    ghost accepts: { Ctx → Type 0 };

    // The contexts under which they fetch no byte too early.
    ghost no_read_ahead: { Ctx → Type 0 };

    // What reading returns and leaves.
    ghost meaning: { Ctx → Meaning (Option Stream) Self };

    /// The items that the first bits of a word in this order make, and how many bits these are.
    fn from_word(word: u64, room: usize, order: Order, ctx: &Ctx) -> Option<(Self, usize)>
    where
        Self: Sized,
        requires few { room ≤ 64 }
        requires below { word < 2 ^ room }
        ensures { IfSome result (λ r. IsCutFrom (meaning ctx.now) order word room r.0 r.1) };

    /// Reads each of them.
    fn each<R: Source>(reader: &mut Reader<R>, ctx: Ctx) -> Result<Self, DekuError>
    where
        Self: Sized,
        requires { accepts ctx }
        ensures reads { Reads R.known (meaning ctx) reader.old result reader.new }
        ensures early { OnOk result (no_read_ahead ctx → NoReadAhead R.known reader.old
            reader.new) };
}

/// The last item.
#[derive(Drop)]
pub(crate) struct Last<A>(pub(crate) A);

impl<Ctx: Copy, A: DekuReader<Ctx>> Items<Ctx> for Last<A> {
    ghost accepts = { A.accepts };

    ghost no_read_ahead = { A.no_read_ahead };

    ghost meaning = { λ c. Mapped (λ a. record { 0 = a }) (A.meaning c) };

    #[inline]
    fn from_word(word: u64, room: usize, order: Order, ctx: &Ctx) -> Option<(Self, usize)> {
        let (item, bits) = A::from_word(word, room, order, ctx)?;
        Some((Last(item), bits))
    }

    fn each<R: Source>(reader: &mut Reader<R>, ctx: Ctx) -> Result<Self, DekuError> {
        let item = A::from_reader_with_ctx(reader, ctx)?;
        Ok(Last(item))
    }
}

/// An item, and those after it.
#[derive(Drop)]
pub(crate) struct Chain<A, B>(pub(crate) A, pub(crate) B);

impl<Ctx: Copy, A: DekuReader<Ctx>, B: Items<Ctx>> Items<Ctx> for Chain<A, B> {
    ghost accepts = { λ c. A.accepts c × B.accepts c };

    ghost no_read_ahead = { λ c. A.no_read_ahead c × B.no_read_ahead c };

    ghost meaning = { λ c. JoinedBy (λ a b. record { 0 = a; 1 = b }) (A.meaning c)
        (B.meaning c) };

    #[inline]
    fn from_word(word: u64, room: usize, order: Order, ctx: &Ctx) -> Option<(Self, usize)> {
        let (item, bits) = A::from_word(word, room, order, ctx)?;
        let left = room - bits;
        if left == 0 {
            return None;
        }
        let others = match order {
            Order::Msb0 => word % (1 << left),
            Order::Lsb0 => word >> bits,
        };
        let (rest, more) = B::from_word(others, left, order, ctx)?;
        Some((Chain(item, rest), bits + more))
    }

    fn each<R: Source>(reader: &mut Reader<R>, ctx: Ctx) -> Result<Self, DekuError> {
        let item = A::from_reader_with_ctx(reader, ctx)?;
        let rest = B::each(reader, ctx)?;
        Ok(Chain(item, rest))
    }
}

/// Reads items, if all of them can be cut from one word: from that, if its bits are in memory, and
/// otherwise one after the other. `None` if they cannot be cut so; then nothing moves.
#[inline(always)]
pub(crate) fn try_items<Ctx: Copy, T: Items<Ctx>, R: Source>(
    reader: &mut Reader<R>,
    ctx: Ctx,
) -> Option<Result<T, DekuError>>
    requires { T.accepts ctx }
    ensures reads { IfSome result (λ r. Reads R.known (T.meaning ctx) reader.old r reader.new) }
    ensures early { IfSome result (λ r. OnOk r (T.no_read_ahead ctx → NoReadAhead R.known reader.old
        reader.new)) }
    ensures stays { IsNone result → reader.new ≡ reader.old }
{
    // Neither the order of the word nor how many bits it has depends on its value.
    let order = match T::from_word(0, 64, Order::Msb0, &ctx) {
        Some(_) => Order::Msb0,
        None => Order::Lsb0,
    };
    let (_, bits) = T::from_word(0, 64, order, &ctx)?;
    let Some(word) = reader.try_read_number(bits, order) else {
        return Some(read_apart(reader, ctx));
    };
    match T::from_word(word, bits, order, &ctx) {
        Some((items, all)) if all == bits => Some(Ok(items)),
        _ => Some(Ok(each_of(reader.alloc(), word, bits, order, ctx))),
    }
}

/// Reads an item as `from_reader_with_ctx` does, and fails as that does. An item that can be cut
/// from a word is read as one if its bits are in memory, so that what is inlined is short.
///
/// The caller's condition: the type may be read under the context.
///
/// ```text
/// let part: Be<u16> = read_item(&mut reader, ())?;            // 0xC0FE from C0 FE
/// ```
#[inline(always)]
pub fn read_item<Ctx: Copy, T: DekuReader<Ctx>, R: Source>(
    reader: &mut Reader<R>,
    ctx: Ctx,
) -> Result<T, DekuError>
    requires { T.accepts ctx }
    ensures reads { Reads R.known (T.meaning ctx) reader.old result reader.new }
    ensures early { OnOk result (T.no_read_ahead ctx → NoReadAhead R.known reader.old reader.new) }
{
    let Last(item) = match try_items(reader, ctx) {
        Some(items) => items?,
        None => Last::each(reader, ctx)?,
    };
    Ok(item)
}

// Reads each of the items, by a call.
#[cold]
#[inline(never)]
fn read_apart<Ctx: Copy, T: Items<Ctx>, R: Source>(
    reader: &mut Reader<R>,
    ctx: Ctx,
) -> Result<T, DekuError>
    requires { T.accepts ctx }
    ensures reads { Reads R.known (T.meaning ctx) reader.old result reader.new }
    ensures early { OnOk result (T.no_read_ahead ctx → NoReadAhead R.known reader.old reader.new) }
{
    T::each(reader, ctx)
}

// The items that all bits of a word make, read one after the other.
#[cold]
#[inline(never)]
fn each_of<Ctx: Copy, T: Items<Ctx>>(
    alloc: Global,
    word: u64,
    bits: usize,
    order: Order,
    ctx: Ctx,
) -> T
    requires readable { T.accepts ctx }
    requires some { 0 < bits }
    requires few { bits ≤ 64 }
    requires below { word < 2 ^ bits }
    requires number { IsOfNumber (T.meaning ctx) order bits }
    ensures { IsReadOf (T.meaning ctx) order bits word result }
{
    let eight = word_bytes(word, bits, order);
    let mut reader = Reader::new(alloc, Cursor::new(&eight[..]));
    match T::each(&mut reader, ctx) {
        Ok(items) => items,
        Err(_) => unreachable!(),
    }
}
