//! Bits that are given to a sink through a byte that fills.

#![tactic(auto, using(deku_device::proofs::Wholes::onward_same))]

ghost use Rattle.std.specs.Prelude.{◌≡◌, ◌<◌, ◌≤◌, ◌+◌, ◌-◌, ◌/◌};
ghost use Rattle.std.specs.Prelude.{◌%◌, Bool, List, false, min, take, drop, slice_index_or};
ghost use Rattle.std.specs.Prelude.{◌++◌, ◌∷◌, [], length, OnOk, IfErr};
ghost use Rattle.std.specs.IoError.{error_kind};
ghost use Rattle.deku_stream.specs.declared.ctx.Order.TheVariants.{Msb0, Lsb0};
ghost use Rattle.deku_writer.specs.declared.writer.way.Way.TheVariants.{BytesBackward};
ghost use Rattle.deku_stream.specs.Bits.{shown};
ghost use Rattle.deku_device.specs.Devices.{Gave};
ghost use Rattle.deku_writer.specs.Pushing.{along, full_bytes, onto_bytes, IsFor, Pushed, GaveUp};
ghost use Rattle.deku_writer.specs.Pushing.{PushedOnto};

use super::held::Held;
use super::way::Way;
use deku_device::device::Sink;
use deku_stream::ctx::Order;
use std::io::{Error, ErrorKind};

/// Gives bytes to the sink at once.
#[inline(always)]
pub fn give_out<W: Sink>(sink: &mut W, bytes: &[u8]) -> Result<(), ErrorKind>
    requires { 0 < length bytes.now }
    ensures gave { OnOk result (Gave (W.known sink.old) (W.known sink.new) bytes.now) }
    ensures fault { IfErr result (GaveUp (W.known sink.old) (W.known sink.new) bytes.now) }
{
    match sink.give(bytes) {
        Ok(()) => Ok(()),
        Err(e) => Err(kind_of(e)),
    }
}

// The kind of a sink's error.
#[cold]
#[inline(never)]
fn kind_of(error: Error) -> ErrorKind
    ensures { result ≡ error_kind error }
{
    error.kind()
}

/// Gives bytes to the sink at once, if there are any.
#[inline(always)]
pub fn give_any<W: Sink>(sink: &mut W, bytes: &[u8]) -> Result<(), ErrorKind>
    ensures gave { OnOk result (Gave (W.known sink.old) (W.known sink.new) bytes.now) }
    ensures fault { IfErr result (GaveUp (W.known sink.old) (W.known sink.new) bytes.now) }
{
    if bytes.is_empty() {
        return Ok(());
    }
    give_out(sink, bytes)
}

// Adds one more bit. The byte is given out when it is full.
fn push_bit<W: Sink>(
    sink: &mut W,
    held: &mut Held,
    order: Order,
    bit: bool,
) -> Result<(), ErrorKind>
    requires { length held.old < 8 }
    ensures pushed { OnOk result (Pushed (W.known sink.old) (W.known sink.new) order held.old
        held.new (bit ∷ [])) }
    ensures fault { IfErr result (GaveUp (W.known sink.old) (W.known sink.new)
        (full_bytes order held.old (bit ∷ []))) }
{
    match held.push(order, u8::from(bit), 1) {
        None => Ok(()),
        Some(byte) => give_out(sink, &[byte]),
    }
}

// Adds the bits, on a way through them.
fn push_along<W: Sink>(
    sink: &mut W,
    held: &mut Held,
    order: Order,
    way: Way,
    bits: &[bool],
) -> Result<(), ErrorKind>
    requires short { length held.old < 8 }
    requires whole { IsFor way (length bits.now) }
    ensures pushed { OnOk result (Pushed (W.known sink.old) (W.known sink.new) order held.old
        held.new (along way bits.now)) }
    ensures fault { IfErr result (GaveUp (W.known sink.old) (W.known sink.new)
        (full_bytes order held.old (along way bits.now))) }
{
    let n = bits.len();
    for i in 0..n {
        push_bit(sink, held, order, bits[way.place(n, i)])?;
    }
    Ok(())
}

// Adds bits to bits of the same order.
fn push_same<W: Sink>(
    sink: &mut W,
    held: &mut Held,
    order: Order,
    bits: &[bool],
) -> Result<(), ErrorKind>
    requires { length held.old < 8 }
    ensures pushed { OnOk result (Pushed (W.known sink.old) (W.known sink.new) order held.old
        held.new (shown order bits.now)) }
    ensures fault { IfErr result (GaveUp (W.known sink.old) (W.known sink.new)
        (full_bytes order held.old (shown order bits.now))) }
{
    push_along(sink, held, order, Way::shown(order, bits.len()), bits)
}

// Adds three lists to an empty byte, the high bit first: the first on a way through it, and the
// others from their first bit on.
fn push_three<W: Sink>(
    sink: &mut W,
    held: &mut Held,
    way: Way,
    first: &[bool],
    second: &[bool],
    third: &[bool],
) -> Result<(), ErrorKind>
    requires empty { held.old ≡ [] }
    requires whole { IsFor way (length first.now) }
    ensures pushed { OnOk result (Pushed (W.known sink.old) (W.known sink.new) Msb0 [] held.new
        (along way first.now ++ second.now ++ third.now)) }
    ensures fault { IfErr result (GaveUp (W.known sink.old) (W.known sink.new)
        (full_bytes Msb0 [] (along way first.now ++ second.now ++ third.now))) }
{
    push_along(sink, held, Order::Msb0, way, first)?;
    push_along(sink, held, Order::Msb0, Way::Forward, second)?;
    push_along(sink, held, Order::Msb0, Way::Forward, third)
}

// Adds `Lsb0` bits into `Msb0` bits.
fn push_into<W: Sink>(sink: &mut W, held: &mut Held, bits: &[bool]) -> Result<(), ErrorKind>
    requires { length held.old < 8 }
    ensures pushed { OnOk result (Pushed (W.known sink.old) (W.known sink.new) Msb0 [] held.new
        (take (min (8 - length bits.now % 8) (length held.old)) held.old ++ bits.now ++ drop
        (min (8 - length bits.now % 8) (length held.old)) held.old)) }
    ensures fault { IfErr result (GaveUp (W.known sink.old) (W.known sink.new) (full_bytes Msb0 []
        (take (min (8 - length bits.now % 8) (length held.old)) held.old ++ bits.now ++ drop
        (min (8 - length bits.now % 8) (length held.old)) held.old))) }
{
    let pending = held.bits();
    let pending = &pending[..held.len()];
    *held = Held::new();
    let cut = (8 - bits.len() % 8).min(pending.len());
    push_three(
        sink,
        held,
        Way::Forward,
        &pending[..cut],
        bits,
        &pending[cut..],
    )
}

// Adds `Msb0` bits above `Lsb0` bits.
fn push_above<W: Sink>(sink: &mut W, held: &mut Held, bits: &[bool]) -> Result<(), ErrorKind>
    requires { length held.old < 8 }
    ensures pushed { OnOk result (Pushed (W.known sink.old) (W.known sink.new) Msb0 [] held.new
        (along BytesBackward (drop (length bits.now % 8) bits.now) ++ take (length bits.now % 8)
        bits.now ++ held.old)) }
    ensures fault { IfErr result (GaveUp (W.known sink.old) (W.known sink.new) (full_bytes Msb0 []
        (along BytesBackward (drop (length bits.now % 8) bits.now) ++ take (length bits.now % 8)
        bits.now ++ held.old))) }
{
    let pending = held.bits();
    let pending = &pending[..held.len()];
    *held = Held::new();
    let cut = bits.len() % 8;
    push_three(
        sink,
        held,
        Way::BytesBackward,
        &bits[cut..],
        &bits[..cut],
        pending,
    )
}

/// Adds bits to the held bits of an order.
#[tactic(auto, using(crate::proofs::Onto::onto, deku_device::proofs::Wholes::onward_same))]
pub fn push_onto<W: Sink>(
    sink: &mut W,
    held: &mut Held,
    from: Order,
    to: Order,
    bits: &[bool],
) -> Result<(), ErrorKind>
    requires short { length held.old < 8 }
    requires some { 0 < length bits.now }
    ensures pushed { OnOk result (PushedOnto (W.known sink.old) (W.known sink.new) from to held.old
        held.new bits.now) }
    ensures fault { IfErr result (GaveUp (W.known sink.old) (W.known sink.new)
        (onto_bytes from to held.old bits.now)) }
{
    if held.len() == 0 {
        return push_same(sink, held, to, bits);
    }
    match (from, to) {
        (Order::Msb0, Order::Lsb0) => push_into(sink, held, bits),
        (Order::Lsb0, Order::Msb0) => push_above(sink, held, bits),
        (Order::Msb0, Order::Msb0) | (Order::Lsb0, Order::Lsb0) => push_same(sink, held, to, bits),
    }
}
