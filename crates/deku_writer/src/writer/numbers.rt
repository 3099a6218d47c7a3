//! Numbers whose bits are given out in an order, if the sink has room in memory.

ghost use Rattle.std.specs.Prelude.{◌≡◌, ◌<◌, ◌≤◌, ◌%◌, ◌^◌, [], length};
ghost use Rattle.std.specs.Prelude.{IsTrue, IsFalse};
ghost use Rattle.deku_stream.specs.Bits.{bits_of, facing, shown};
ghost use Rattle.deku_stream.specs.Writers.{Meets, held as pending_in};
ghost use Rattle.deku_writer.specs.Pushing.{Pushed, PushedOnto};

use super::held::Held;
use super::words::is_behind;
use deku_device::device::Sink;
use deku_stream::ctx::Order;

/// Adds the bits of a number, in the order `to`, to the held bits of an order. It does so if they
/// follow the held bits unchanged, both are at most 64 bits together, and the sink has room in
/// memory for eight bytes. Returns whether it did so; if not, nothing changes.
#[inline(always)]
pub fn lay_number<W: Sink>(
    sink: &mut W,
    held: &mut Held,
    from: Order,
    to: Order,
    number: u64,
    n: usize,
) -> bool
    requires some { 0 < n }
    requires short { length held.old < 8 }
    requires most { n ≤ 64 }
    requires inside { number < 2 ^ n }
    ensures pushed { IsTrue result → PushedOnto (W.known sink.old) (W.known sink.new) from to
        held.old held.new (shown to (facing to (bits_of n number))) }
    ensures stays { IsFalse result → (sink.new ≡ sink.old) × (held.new ≡ held.old) }
    ensures order { IsTrue result → Meets to (pending_in from held.old) }
{
    if held.len() + n > 64 || !is_behind(held, from, to) {
        return false;
    }
    let left = (held.len() + n % 8) % 8;
    let mut next = held.copy();
    let (eight, count) = next.fill_number(to, number, n);
    let laid = sink.try_put(eight, count);
    if laid {
        held.follow(next, left);
    }
    laid
}
