//! Ways to go through a list of bits.

ghost use Rattle.std.specs.Prelude.{◌≡◌, ◌<◌, ◌+◌, ◌-◌, ◌*◌, ◌/◌};
ghost use Rattle.std.specs.Prelude.{◌%◌, Bool, List, false, slice_index_or, length};
ghost use Rattle.deku_stream.specs.Bits.{shown};
ghost use Rattle.deku_writer.specs.Pushing.{along, IsFor};

use deku_stream::ctx::Order;

/// A way to go through a list of bits.
#[derive(Clone, Copy)]
pub enum Way {
    /// From the first bit on.
    Forward,
    /// From the last bit on.
    Backward,
    /// From the first byte on, each from its last bit on.
    TurnedBytes,
    /// From the last byte on, each from its first bit on.
    BytesBackward,
}

impl Way {
    /// The way to give out `n` bits as a read in this order shows them.
    #[tactic(auto, using(crate::proofs::Pushes::shown_ways))]
    pub fn shown(order: Order, n: usize) -> Way
        ensures whole { IsFor result n }
        ensures bits { (s : List Bool) → length s ≡ n → along result s ≡ shown order s }
    {
        match order {
            Order::Msb0 => Way::Forward,
            Order::Lsb0 => {
                if n % 8 == 0 {
                    Way::TurnedBytes
                } else {
                    Way::Backward
                }
            }
        }
    }

    /// The index in the list of the bit that comes at this index of the way through `n` bits.
    #[tactic(auto, using(crate::proofs::Pushes::ways))]
    pub fn place(self, n: usize, at: usize) -> usize
        requires whole { IsFor self n }
        requires inside { at < n }
        ensures within { result < n }
        ensures bit { (s : List Bool) → length s ≡ n
            → slice_index_or s result false ≡ slice_index_or (along self s)
            at false }
    {
        match self {
            Way::Forward => at,
            Way::Backward => n - 1 - at,
            Way::TurnedBytes => in_turned_byte(at),
            Way::BytesBackward => in_turned_byte(n - 1 - at),
        }
    }
}

// The place in its byte, counted from the other end of the byte.
fn in_turned_byte(at: usize) -> usize
    ensures { result ≡ at / 8 * 8 + (7 - at % 8) }
{
    at / 8 * 8 + (7 - at % 8)
}
