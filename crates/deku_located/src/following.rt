//! Parts of which some say what follows them, and parts that are checked.

ghost use Rattle.std.specs.Prelude.{◌≡◌, ◌+◌, ◌<◌, ◌^◌};
ghost use Rattle.deku_bits.specs.ReaderCalls.{Reads};
ghost use Rattle.deku_bits.specs.declared.error.DekuError.TheVariants.{Parse};
ghost use Rattle.deku.specs.Limits.{ReadsBitsOf, MappedBy};
ghost use Rattle.deku_pieces.specs.Leading.{ReadsCounted};
ghost use Rattle.deku_pieces.specs.Sizes.{IfSized};
ghost use Rattle.deku_pieces.specs.Whether.{ReadsWhether};
ghost use Rattle.deku_located.specs.Placed.{Alone, Joined, Judged, Counts};

use crate::steps::{Place, Steps};
use deku::device::Source;
use deku::reader::Reader;
use deku::{DekuError, DekuReader};
use deku_pieces::counted::read_counted;
use deku_pieces::filled_by::read_filled;
use deku_symmetry::{
    Assert, Before, Check, ChosenBy, Condition, CountOf, CountedBy, FilledBy, IdOf, Kinds,
    Optional, SizeOf,
};

/// The parts in front, and then the list as one part.
impl<P: Steps, C: CountOf<P>, T: DekuReader<()>> Steps for CountedBy<P, C, T> {
    ghost steps = { P.steps + 1 };

    ghost placed = { Joined (λ h xs. record { head = h; items = xs; count = record {} }) P.placed
        (λ h. Alone (ReadsCounted (C.count_of h) (T.meaning tt))) };

    #[inline(always)]
    fn read_steps<R: Source>(reader: &mut Reader<R>, place: &mut Place) -> Result<Self, DekuError> {
        let head = P::read_steps(reader, place)?;
        let items = read_items::<T, R>(reader, place, C::count(&head))?;
        Ok(CountedBy::new(head, items))
    }
}

// Reads as many items as the count says, as one part.
#[inline(always)]
fn read_items<T: DekuReader<()>, R: Source>(
    reader: &mut Reader<R>,
    place: &mut Place,
    count: Option<usize>,
) -> Result<Vec<T>, DekuError>
    requires accepted { T.accepts tt }
    requires room { place.now.parts + 1 < 2 ^ 64 }
    ensures reads { Reads R.known (ReadsCounted count (T.meaning tt)) reader.old result reader.new }
    ensures placed { Reads R.known (Alone (ReadsCounted count (T.meaning tt)) place.old.parts
        place.new) reader.old result reader.new }
    ensures counted { Counts 1 place.old.parts place.new result }
{
    place.bit = reader.bits_read();
    let items = read_counted::<T, R>(reader, count)?;
    place.parts += 1;
    Ok(items)
}

/// The parts in front, and then the list as one part.
impl<P: Steps, C: SizeOf<P>, T: DekuReader<()>> Steps for FilledBy<P, C, T> {
    ghost steps = { P.steps + 1 };

    ghost placed = { Joined (λ h xs. record { head = h; items = xs; size = record {} }) P.placed
        (λ h. Alone (IfSized Parse (C.size_of h)
        (λ n. MappedBy (λ xs v. v.items ≡ xs) (ReadsBitsOf n (T.meaning tt))))) };

    #[inline(always)]
    fn read_steps<R: Source>(reader: &mut Reader<R>, place: &mut Place) -> Result<Self, DekuError> {
        let head = P::read_steps(reader, place)?;
        let items = fill_items::<T, R>(reader, place, C::size(&head))?;
        Ok(FilledBy::new(head, items))
    }
}

// Reads items that fill as many bits as the size says, as one part.
#[inline(always)]
fn fill_items<T: DekuReader<()>, R: Source>(
    reader: &mut Reader<R>,
    place: &mut Place,
    size: Option<usize>,
) -> Result<Vec<T>, DekuError>
    requires accepted { T.accepts tt }
    requires room { place.now.parts + 1 < 2 ^ 64 }
    ensures reads { Reads R.known (IfSized Parse size
        (λ n. MappedBy (λ xs v. v.items ≡ xs) (ReadsBitsOf n (T.meaning tt)))) reader.old result
        reader.new }
    ensures placed { Reads R.known (Alone (IfSized Parse size
        (λ n. MappedBy (λ xs v. v.items ≡ xs) (ReadsBitsOf n (T.meaning tt)))) place.old.parts
        place.new) reader.old result reader.new }
    ensures counted { Counts 1 place.old.parts place.new result }
{
    place.bit = reader.bits_read();
    let items = read_filled::<T, R>(reader, size)?;
    place.parts += 1;
    Ok(items)
}

/// The parts in front, and then the value that they choose as one part.
impl<P: Steps, C: IdOf<P>, K: Kinds> Steps for ChosenBy<P, C, K> {
    ghost steps = { P.steps + 1 };

    ghost placed = { Joined (λ h k. record { head = h; kind = k; id = record {} }) P.placed
        (λ h. Alone (K.reads (C.id_of h))) };

    #[inline(always)]
    fn read_steps<R: Source>(reader: &mut Reader<R>, place: &mut Place) -> Result<Self, DekuError> {
        let head = P::read_steps(reader, place)?;
        let kind = read_chosen::<K, R>(reader, place, C::id(&head))?;
        Ok(ChosenBy::new(head, kind))
    }
}

// Reads a value of the kind that the id says, as one part.
#[inline(always)]
fn read_chosen<K: Kinds, R: Source>(
    reader: &mut Reader<R>,
    place: &mut Place,
    id: u64,
) -> Result<K, DekuError>
    requires accepted { K.readable }
    requires room { place.now.parts + 1 < 2 ^ 64 }
    ensures reads { Reads R.known (K.reads id) reader.old result reader.new }
    ensures placed { Reads R.known (Alone (K.reads id) place.old.parts place.new) reader.old result
        reader.new }
    ensures counted { Counts 1 place.old.parts place.new result }
{
    place.bit = reader.bits_read();
    let kind = K::read_kind(reader, id)?;
    place.parts += 1;
    Ok(kind)
}

/// The parts in front, and then what is last.
impl<P: Steps, L: Steps> Steps for Before<P, L> {
    ghost steps = { P.steps + L.steps };

    ghost placed = { Joined (λ h x. record { head = h; rest = x }) P.placed (λ _. L.placed) };

    #[inline(always)]
    fn read_steps<R: Source>(reader: &mut Reader<R>, place: &mut Place) -> Result<Self, DekuError> {
        let head = P::read_steps(reader, place)?;
        let rest = L::read_steps(reader, place)?;
        Ok(Before { head, rest })
    }
}

/// The parts in front, and then the option as one part, which has no bits if nothing is there.
impl<P: Steps, C: Condition<P>, T: DekuReader<()>> Steps for Optional<P, C, T> {
    ghost steps = { P.steps + 1 };

    ghost placed = { Joined (λ h x. record { head = h; item = x; condition = record {} }) P.placed
        (λ h. Alone (ReadsWhether (C.shows h) (T.meaning tt))) };

    #[inline(always)]
    fn read_steps<R: Source>(reader: &mut Reader<R>, place: &mut Place) -> Result<Self, DekuError> {
        let head = P::read_steps(reader, place)?;
        let item = read_item::<T, R>(reader, place, C::shows(&head))?;
        Ok(Optional::new(head, item))
    }
}

// Reads an item as one part, if there has to be one.
#[inline(always)]
fn read_item<T: DekuReader<()>, R: Source>(
    reader: &mut Reader<R>,
    place: &mut Place,
    there: bool,
) -> Result<Option<T>, DekuError>
    requires accepted { T.accepts tt }
    requires room { place.now.parts + 1 < 2 ^ 64 }
    ensures reads { Reads R.known (ReadsWhether there (T.meaning tt)) reader.old result reader.new }
    ensures placed { Reads R.known (Alone (ReadsWhether there (T.meaning tt)) place.old.parts
        place.new) reader.old result reader.new }
    ensures counted { Counts 1 place.old.parts place.new result }
{
    place.bit = reader.bits_read();
    let item = read_whether::<T, R>(reader, there)?;
    place.parts += 1;
    Ok(item)
}

// Reads an item if there has to be one.
#[inline(always)]
fn read_whether<T: DekuReader<()>, R: Source>(
    reader: &mut Reader<R>,
    there: bool,
) -> Result<Option<T>, DekuError>
    requires { T.accepts tt }
    ensures { Reads R.known (ReadsWhether there (T.meaning tt)) reader.old result reader.new }
{
    if there {
        Option::from_reader_with_ctx(reader, ())
    } else {
        Ok(None)
    }
}

/// The parts that are checked. If they do not pass, the last of them is refused.
impl<P: Steps, C: Check<P>> Steps for Assert<P, C> {
    ghost steps = { P.steps };

    ghost placed = { Judged C.passes C.text P.placed };

    #[inline(always)]
    fn read_steps<R: Source>(reader: &mut Reader<R>, place: &mut Place) -> Result<Self, DekuError> {
        let part = P::read_steps(reader, place)?;
        if !C::passes(&part) {
            place.parts -= 1;
            return Err(DekuError::Assertion(C::text()));
        }
        Ok(Assert::new(part))
    }
}
