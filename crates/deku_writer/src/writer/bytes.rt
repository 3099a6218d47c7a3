//! Whole bytes that are given out, through held bits or at once.

ghost use Rattle.std.specs.Prelude.{◌≡◌, ◌<◌, ◌≤◌, length, take, reverse, OnOk};
ghost use Rattle.std.specs.Prelude.{IfErr};
ghost use Rattle.deku_stream.specs.declared.ctx.Order.TheVariants.{Msb0};
ghost use Rattle.deku_stream.specs.Bits.{bits_in};
ghost use Rattle.deku_device.specs.Devices.{Gave};
ghost use Rattle.deku_writer.specs.Pushing.{full_bytes, onto_bytes, Fills, Pushed, GaveUp};
ghost use Rattle.deku_writer.specs.Pushing.{PushedOnto};

use super::held::Held;
use super::pushing::give_out;
use deku_device::device::Sink;
use deku_stream::ctx::Order;
use std::io::ErrorKind;

// How many bytes are given out at a time.
const RUN: usize = 64;

// Moves bytes through held bits, each with its high bit first: as many bytes go out as come in.
fn shift(out: &mut [u8], held: &mut Held, bytes: &[u8])
    requires short { length held.old < 8 }
    requires room { length bytes.now ≤ length out.old }
    ensures fills { Fills Msb0 held.old held.new (bits_in bytes.now)
        (take (length bytes.now) out.new) }
    ensures len { length out.new ≡ length out.old }
{
    for i in 0..bytes.len() {
        out[i] = held.pass(Order::Msb0, bytes[i]);
    }
}

// Adds the bytes, each with its high bit first, to held bits: one run that is given out at once.
fn push_run<W: Sink>(sink: &mut W, held: &mut Held, bytes: &[u8]) -> Result<(), ErrorKind>
    requires short { length held.old < 8 }
    requires some { 0 < length bytes.now }
    requires most { length bytes.now ≤ 64 }
    ensures pushed { OnOk result (Pushed (W.known sink.old) (W.known sink.new) Msb0 held.old
        held.new (bits_in bytes.now)) }
    ensures fault { IfErr result (GaveUp (W.known sink.old) (W.known sink.new)
        (full_bytes Msb0 held.old (bits_in bytes.now))) }
{
    let mut out = [0; RUN];
    shift(&mut out, held, bytes);
    give_out(sink, &out[..bytes.len()])
}

// Adds the bytes, each with its high bit first, to held bits, run by run.
fn push_bytes<W: Sink>(sink: &mut W, held: &mut Held, bytes: &[u8]) -> Result<(), ErrorKind>
    requires { length held.old < 8 }
    ensures pushed { OnOk result (Pushed (W.known sink.old) (W.known sink.new) Msb0 held.old
        held.new (bits_in bytes.now)) }
    ensures fault { IfErr result (GaveUp (W.known sink.old) (W.known sink.new)
        (full_bytes Msb0 held.old (bits_in bytes.now))) }
{
    for i in 0..bytes.len().div_ceil(RUN) {
        let begin = RUN * i;
        let end = begin + RUN.min(bytes.len() - begin);
        push_run(sink, held, &bytes[begin..end])?;
    }
    Ok(())
}

// Gives out the bytes, the last one first: one run at once.
fn give_turned<W: Sink>(sink: &mut W, bytes: &[u8]) -> Result<(), ErrorKind>
    requires some { 0 < length bytes.now }
    requires most { length bytes.now ≤ 64 }
    ensures gave { OnOk result (Gave (W.known sink.old) (W.known sink.new) (reverse bytes.now)) }
    ensures fault { IfErr result (GaveUp (W.known sink.old) (W.known sink.new)
        (reverse bytes.now)) }
{
    let mut out = [0; RUN];
    let run = &mut out[..bytes.len()];
    run.copy_from_slice(bytes);
    run.reverse();
    give_out(sink, run)
}

// Bytes above `Lsb0` bits: the last byte is given out first, and the bits stay held.
fn give_above<W: Sink>(sink: &mut W, bytes: &[u8]) -> Result<(), ErrorKind>
    ensures gave { OnOk result (Gave (W.known sink.old) (W.known sink.new) (reverse bytes.now)) }
    ensures fault { IfErr result (GaveUp (W.known sink.old) (W.known sink.new)
        (reverse bytes.now)) }
{
    for i in 0..bytes.len().div_ceil(RUN) {
        let end = bytes.len() - RUN * i;
        let begin = end - RUN.min(end);
        give_turned(sink, &bytes[begin..end])?;
    }
    Ok(())
}

/// Adds bytes to the held bits of an order.
pub fn push_bytes_onto<W: Sink>(
    sink: &mut W,
    held: &mut Held,
    from: Order,
    bytes: &[u8],
) -> Result<(), ErrorKind>
    requires short { length held.old < 8 }
    requires some { 0 < length bytes.now }
    ensures pushed { OnOk result (PushedOnto (W.known sink.old) (W.known sink.new) from Msb0
        held.old held.new (bits_in bytes.now)) }
    ensures fault { IfErr result (GaveUp (W.known sink.old) (W.known sink.new)
        (onto_bytes from Msb0 held.old (bits_in bytes.now))) }
{
    if held.len() == 0 {
        return give_out(sink, bytes);
    }
    match from {
        Order::Msb0 => push_bytes(sink, held, bytes),
        Order::Lsb0 => give_above(sink, bytes),
    }
}
