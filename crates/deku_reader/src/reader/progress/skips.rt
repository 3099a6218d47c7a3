//! Skipping bits, with a window and a source.

#![tactic(auto, using(deku_device::proofs::Wholes::onward_same))]

ghost use Rattle.std.specs.Prelude.{◌≡◌, ◌≢◌, ◌<◌, ◌≤◌, ◌^◌, ◌++◌};
ghost use Rattle.std.specs.Prelude.{Bool, List, length, OnOk, IfErr};
ghost use Rattle.std.specs.IoError.{error_kind};
ghost use Rattle.deku_stream.specs.Bits.{facing};
ghost use Rattle.deku_device.specs.Devices.{DeviceKept, DeviceFailed, Passes};
ghost use Rattle.deku_stream.specs.Moving.{Moves, FewerBits};

use super::bits::bits_into;
use deku_device::device::Source;
use deku_stream::ctx::Order;
use deku_stream::window::Window;
use std::io;
use std::io::ErrorKind;

/// Takes `count` bits of the window in this order, and drops them.
pub fn pop_bits(window: &mut Window, count: usize, order: Order)
    requires { count ≤ length window.old }
    ensures { (bits : List Bool) × (length bits ≡ count)
        × (facing order window.old ≡ bits ++ facing order window.new) }
{
    window.take(count, order);
}

/// Skips whole bytes. For no bytes the source is not called.
pub fn pass_bytes<R: Source>(source: &mut R, count: usize) -> io::Result<()>
    requires { count < 2 ^ 63 }
    ensures none { count ≡ 0 → source.new ≡ source.old }
    ensures bytes { OnOk result (Passes count (R.known source.old).remaining
        (R.known source.new).remaining) }
    ensures failed { IfErr result (λ e. DeviceFailed (R.known source.old).health
        (R.known source.new).health) }
    ensures kept { DeviceKept (R.known source.old).health (R.known source.new).health }
{
    if count == 0 {
        return Ok(());
    }
    source.pass(count as u64)
}

/// Takes fewer than eight bits in this order, and drops them.
pub fn drop_bits<R: Source>(
    source: &mut R,
    window: &mut Window,
    count: usize,
    order: Order,
) -> io::Result<()>
    requires window { length window.old ≤ 8 }
    requires few { count < 8 }
    ensures bound { OnOk result (length window.new ≤ 8) }
    ensures short { OnOk result (0 < count → length window.new < 8) }
    ensures none { OnOk result (count ≡ 0 → (window.new ≡ window.old)
        × ((R.known source.new).remaining ≡ (R.known source.old).remaining)) }
    ensures moved { OnOk result ((bits : List Bool) × (length bits ≡ count)
        × Moves order window.old (R.known source.old).remaining bits window.new
        (R.known source.new).remaining) }
    ensures wanted { IfErr result (λ e. 0 < count) }
    ensures ended { IfErr result (λ e. error_kind e ≡ ErrorKind.UnexpectedEof
        → FewerBits count window.old (R.known source.old).remaining) }
    ensures failed { IfErr result (λ e. error_kind e ≢ ErrorKind.UnexpectedEof
        → DeviceFailed (R.known source.old).health (R.known source.new).health) }
    ensures inside { count ≤ length window.old → source.new ≡ source.old }
    ensures kept { DeviceKept (R.known source.old).health (R.known source.new).health }
{
    let mut bits = [false; 8];
    bits_into(source, window, &mut bits[..count], order)
}
