//! Arrays: a fixed number of items, in order. If a few items are all made from words, and their
//! bits are in memory, they are cut from one number.

ghost use Rattle.std.specs.Prelude.{◌≡◌, ◌<◌, ◌≤◌, ◌^◌, ℕ, List, Option};
ghost use Rattle.std.specs.Prelude.{Some, map, length, OnOk, IfOk, IfSome};
ghost use Rattle.deku_bits.specs.Outcomes.{Mapped};
ghost use Rattle.deku_bits.specs.ReaderCalls.{Reads, filling};
ghost use Rattle.deku_reading.specs.Cutting.{IsCutFrom};
ghost use Rattle.deku_reading.specs.Early.{NoReadAhead};
ghost use Rattle.deku_reading.specs.Lists.{ReadsTimes, Seen};

use crate::items::{Items, try_items};
use crate::traits::DekuReader;
use deku_bits::ctx::Order;
use deku_bits::device::Source;
use deku_bits::error::DekuError;
use deku_bits::reader::Reader;
use deku_meanings::turned_slots;
use std::array;

/// A type that is read as a fixed number of elements, with a slot for each of them.
pub trait ArrayLike: Drop {
    /// An element.
    type Element: Drop;

    /// A slot for each element.
    type Slots: Drop;

    ghost count: { ℕ };

    ghost slots_of: { Self.Slots → List (Option Self.Element) };

    ghost elements_of: { Self → List Self.Element };

    /// How many elements there are.
    fn len() -> usize
        ensures { result ≡ count };

    /// Makes slots without elements.
    fn empty() -> Self::Slots
        ensures { length (slots_of result) ≡ count };

    /// Reads an element into each slot.
    fn fill<C: Copy, R: Source>(
        slots: &mut Self::Slots,
        reader: &mut Reader<R>,
        ctx: C,
    ) -> Result<(), DekuError>
    where
        Self: Sized,
        Self::Element: DekuReader<C>,
        requires readable { Self.Element.DekuReader.accepts ctx }
        requires slots { length (slots_of slots.old) ≡ count }
        ensures reads { (xs : List Self.Element)
            × Reads R.known (ReadsTimes count (Self.Element.DekuReader.meaning ctx)) reader.old
            (filling result xs) reader.new
            × IfOk result (λ _. (length xs ≡ count) × (slots_of slots.new ≡ map Some xs)) }
        ensures early { OnOk result (Self.Element.DekuReader.no_read_ahead ctx
            → NoReadAhead R.known reader.old reader.new) };

    /// Cuts an element for each slot from the first bits of a word. Returns how many bits that is.
    ///
    /// `None` if the bits are more, if there are no elements, or more than 16, and if elements are
    /// not made from words in this order and under this context. What is then in the slots is not
    /// stated.
    fn cut<C: Copy>(
        slots: &mut Self::Slots,
        word: u64,
        room: usize,
        order: Order,
        ctx: &C,
    ) -> Option<usize>
    where
        Self: Sized,
        Self::Element: DekuReader<C>,
        requires few { room ≤ 64 }
        requires below { word < 2 ^ room }
        requires slots { length (slots_of slots.old) ≡ count }
        ensures { IfSome result (λ n. (xs : List Self.Element)
            × IsCutFrom (ReadsTimes count (Self.Element.DekuReader.meaning ctx.now)) order word
            room xs n
            × (length xs ≡ count) × (slots_of slots.new ≡ map Some xs)) };

    /// The elements of slots that are all full.
    fn turned(slots: Self::Slots) -> Self
    where
        Self: Sized,
        requires { (xs : List Self.Element) × (length xs ≡ count) × (slots_of slots ≡ map Some xs) }
        ensures { slots_of slots ≡ map Some (elements_of result) };
}

/// The elements in order, under the elements' context. It fails as the first element that fails,
/// and what was read before is consumed.
impl<C: Copy, X: ArrayLike> DekuReader<C> for X
where
    X::Element: DekuReader<C>,
{
    ghost accepts = { X.Element.accepts };

    ghost no_read_ahead = { X.Element.no_read_ahead };

    ghost meaning = { λ c. Seen X.elements_of (ReadsTimes X.count (X.Element.meaning c)) };

    #[inline(always)]
    fn from_reader_with_ctx<R: Source>(reader: &mut Reader<R>, ctx: C) -> Result<X, DekuError> {
        if X::len() <= 16 {
            return read_short(reader, ctx);
        }
        read_slots(reader, ctx)
    }

    #[inline]
    fn from_word(word: u64, room: usize, order: Order, ctx: &C) -> Option<(X, usize)> {
        if X::len() > 16 {
            return None;
        }
        let mut slots = X::empty();
        let bits = X::cut(&mut slots, word, room, order, ctx)?;
        Some((X::turned(slots), bits))
    }
}

// An array, as one item.
#[derive(Drop)]
pub(crate) struct Row<X>(pub(crate) X);

impl<C: Copy, X: ArrayLike> Items<C> for Row<X>
where
    X::Element: DekuReader<C>,
{
    ghost accepts = { λ c. X.Element.accepts c };

    ghost no_read_ahead = { λ c. X.Element.no_read_ahead c };

    ghost meaning = { λ c. Mapped (λ a. record { 0 = a })
        (Seen X.elements_of (ReadsTimes X.count (X.Element.meaning c))) };

    #[inline]
    fn from_word(word: u64, room: usize, order: Order, ctx: &C) -> Option<(Self, usize)> {
        let (items, bits) = X::from_word(word, room, order, ctx)?;
        Some((Row(items), bits))
    }

    fn each<R: Source>(reader: &mut Reader<R>, ctx: C) -> Result<Self, DekuError> {
        let items = read_slots(reader, ctx)?;
        Ok(Row(items))
    }
}

// Reads the elements from one word, or one by one. A long array does not get here, since its
// elements would be on the stack several times.
#[inline]
fn read_short<C: Copy, X: ArrayLike, R: Source>(
    reader: &mut Reader<R>,
    ctx: C,
) -> Result<X, DekuError>
where
    X::Element: DekuReader<C>,
    requires { X.Element.DekuReader.accepts ctx }
    ensures reads { Reads R.known (Seen X.elements_of (ReadsTimes X.count
        (X.Element.DekuReader.meaning ctx))) reader.old result reader.new }
    ensures early { OnOk result (X.Element.DekuReader.no_read_ahead ctx
        → NoReadAhead R.known reader.old reader.new) }
{
    if let Some(row) = try_items(reader, ctx) {
        let Row(items) = row?;
        return Ok(items);
    }
    read_slots(reader, ctx)
}

// Reads the elements one by one.
#[inline(always)]
fn read_slots<C: Copy, X: ArrayLike, R: Source>(
    reader: &mut Reader<R>,
    ctx: C,
) -> Result<X, DekuError>
where
    X::Element: DekuReader<C>,
    requires { X.Element.DekuReader.accepts ctx }
    ensures reads { Reads R.known (Seen X.elements_of (ReadsTimes X.count
        (X.Element.DekuReader.meaning ctx))) reader.old result reader.new }
    ensures early { OnOk result (X.Element.DekuReader.no_read_ahead ctx
        → NoReadAhead R.known reader.old reader.new) }
{
    let mut slots = X::empty();
    X::fill(&mut slots, reader, ctx)?;
    Ok(X::turned(slots))
}

impl<T: Drop, const N: usize> ArrayLike for [T; N] {
    type Element = T;

    type Slots = [Option<T>; N];

    ghost count = { N };

    ghost slots_of = { λ slots. slots };

    ghost elements_of = { λ items. items };

    #[inline(always)]
    fn len() -> usize {
        N
    }

    fn empty() -> [Option<T>; N] {
        array::from_fn(|_| None)
    }

    #[inline(always)]
    fn fill<C: Copy, R: Source>(
        slots: &mut [Option<T>; N],
        reader: &mut Reader<R>,
        ctx: C,
    ) -> Result<(), DekuError>
    where
        T: DekuReader<C>,
    {
        for place in 0..slots.len() {
            slots[place] = Some(T::from_reader_with_ctx(reader, ctx)?);
        }
        Ok(())
    }

    #[inline]
    fn cut<C: Copy>(
        slots: &mut [Option<T>; N],
        word: u64,
        room: usize,
        order: Order,
        ctx: &C,
    ) -> Option<usize>
    where
        T: DekuReader<C>,
    {
        // The compiler folds this for each type, and lays out the loop below for so few items.
        let (_, width) = T::from_word(word, room, order, ctx)?;
        let count = slots.len();
        if count == 0 || count > 16 || width > room / count {
            return None;
        }
        let (mut rest, mut left) = (word, room);
        for place in 0..count {
            let (item, bits) = T::from_word(rest, left, order, ctx)?;
            slots[place] = Some(item);
            left -= bits;
            rest = match order {
                Order::Msb0 => rest % (1 << left),
                Order::Lsb0 => (rest >> (bits - 1)) >> 1,
            };
        }
        Some(room - left)
    }

    fn turned(slots: [Option<T>; N]) -> [T; N] {
        turned_slots(slots)
    }
}
