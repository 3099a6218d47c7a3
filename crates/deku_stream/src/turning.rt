//! Bits in the order in which they are taken, and as they are shown: the high bit first.

ghost use Rattle.std.specs.Prelude.{◌≡◌, ◌+◌, ◌≤◌, ◌++◌, length, take, drop};
ghost use Rattle.std.specs.Prelude.{reverse};
ghost use Rattle.deku_stream.specs.Bits.{shown};

use crate::ctx::Order;

/// Reverses bits that were taken in an order, so that the high bit comes first, and back. In `Msb0`
/// they stay. In `Lsb0` whole bytes are reversed each by itself, and any other number of bits as
/// one.
///
/// ```text
/// show(&mut bits, Order::Lsb0)                                   // 1, 0, 0 becomes 0, 0, 1
/// ```
#[tactic(auto, using(crate::proofs::Shown::shown_high))]
pub fn show(bits: &mut [bool], order: Order)
    ensures { bits.new ≡ shown order bits.old }
{
    match order {
        Order::Msb0 => {}
        Order::Lsb0 => turn(bits),
    }
}

// Shows bits that were taken in `Lsb0`: whole bytes byte by byte, and any other number of bits as
// one.
fn turn(bits: &mut [bool])
    ensures { bits.new ≡ shown Order.Lsb0 bits.old }
{
    if bits.len() % 8 != 0 {
        bits.reverse();
        return;
    }
    for group in 0..bits.len() / 8 {
        reverse_group(bits, 8 * group);
    }
}

// Reverses the eight bits from this place on.
fn reverse_group(bits: &mut [bool], at: usize)
    requires { at + 8 ≤ length bits.old }
    ensures { bits.new ≡ take at bits.old ++ (reverse (take 8 (drop at bits.old)) ++ drop (at + 8)
        bits.old) }
{
    bits[at..at + 8].reverse();
}
