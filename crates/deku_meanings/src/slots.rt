//! Slots of an array that are filled one after the other.

ghost use Rattle.std.specs.Prelude.{◌≡◌, ℕ, ◌<◌, Some, None, map, length};
ghost use Rattle.std.specs.Prelude.{slice_index_or, slice_set, IsSome};

use std::array;

// Takes the item out of a slot.
fn take_at<T, const N: usize>(slots: &mut [Option<T>; N], place: usize) -> T
    requires in_bounds { place < length slots.old }
    requires filled { IsSome (slice_index_or slots.old place None) }
    ensures value { slice_index_or slots.old place None ≡ Some result }
    ensures after { slots.new ≡ slice_set slots.old place None }
{
    let slot = &mut slots[place];
    slot.take().unwrap()
}

/// The items of slots that are full.
///
/// The caller's condition: each slot is full.
pub fn turned_slots<T: Drop, const N: usize>(slots: [Option<T>; N]) -> [T; N]
    requires { (k : ℕ) → k < N → IsSome (slice_index_or slots k None) }
    ensures { slots ≡ map Some result }
{
    let mut slots = slots;
    let take = |place: usize| -> T
        requires { (place < length slots) × IsSome (slice_index_or slots place None) }
        ensures value { slice_index_or slots.entry place None ≡ Some result }
        ensures after { slots.exit ≡ slice_set slots.entry place None }
    { take_at(&mut slots, place) };
    array::from_fn(take)
}
