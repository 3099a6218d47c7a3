//! Collections into which items are put.

ghost use Rattle.std.specs.Prelude.{◌≡◌, ◌⊎◌, ◌↔◌, ◌+◌, ◌<◌, ◌≤◌};
ghost use Rattle.std.specs.Prelude.{true, false, OnOk, OnErr, IfErr, codes};
ghost use Rattle.deku_bits.specs.declared.error.DekuError.TheVariants.{Parse};
ghost use Rattle.deku_bits.specs.Faults.{Tells};

use deku_bits::error::DekuError;
use std::io::ErrorKind;

/// A collection into which items are put, one after the other.
pub trait Gather<T>: Drop {
    // What putting an item into the collection makes of it.
    ghost puts: { Self → T → Self → Type 0 };

    // Whether the item needs a place of its own. A set already has one for an item that it holds.
    ghost grows: { Self → T → Type 0 };

    /// Puts the item into the collection. It fails with `Io(OutOfMemory)` if the item needs a place
    /// of its own and there is no memory for it. What the collection holds then is unspecified.
    fn put(&mut self, item: T) -> Result<(), DekuError>
        ensures ok { OnOk result (puts self.old item self.new) }
        ensures err { IfErr result (λ e. e ≡ DekuError.Io ErrorKind.OutOfMemory) }
        ensures grows { OnErr result (grows self.old item) };
}

/// Puts an item into the collection if the item has width or ends the list. It has width if the
/// count of bits after it is larger than the count before it.
///
/// Any other item fails with `Parse("item without width")`. If the item needs a place of its own
/// and there is no memory for it, it fails with `Io(OutOfMemory)`. What the collection holds after
/// an error is unspecified.
///
/// ```text
/// keep(&mut items, item, false, 8, 8) // fails: no width, and not the end
/// ```
pub fn keep<B: Gather<T>, T: Drop>(
    collection: &mut B,
    item: T,
    ends: bool,
    before: usize,
    after: usize,
) -> Result<(), DekuError>
    ensures placed { OnOk result (B.puts collection.old item collection.new) }
    ensures kept { OnOk result ((ends ≡ true) ⊎ (before < after)) }
    ensures err { IfErr result (λ e. ((ends ≡ false) × (after ≤ before)
        × Tells Parse (codes "item without width") e)
        ⊎ (((ends ≡ true) ⊎ (before < after)) × (e ≡ DekuError.Io ErrorKind.OutOfMemory))) }
    ensures grows { IfErr result (λ e. e ≡ DekuError.Io ErrorKind.OutOfMemory
        → B.grows collection.old item) }
{
    if !ends && after <= before {
        return Err(DekuError::Parse("item without width"));
    }
    collection.put(item)
}

/// Whether `after` is exactly `bits` more than `start`.
///
/// ```text
/// is_past_by(8, 24, 16)                                      // true
/// ```
pub fn is_past_by(start: usize, after: usize, bits: usize) -> bool
    ensures { (result ≡ true) ↔ (after ≡ start + bits) }
{
    start <= after && after - start == bits
}
