//! Bits, from a window of unread bits and from bytes that are fetched in runs.

ghost use Rattle.std.specs.Prelude.{◌≡◌, ◌≢◌, ◌+◌, ◌*◌, ◌<◌, ◌≤◌};
ghost use Rattle.std.specs.Prelude.{◌++◌, [], length, OnOk, IfErr};
ghost use Rattle.std.specs.IoError.{error_kind};
ghost use Rattle.deku_stream.specs.Bits.{facing, groups};
ghost use Rattle.deku_device.specs.Devices.{DeviceKept, DeviceFailed};
ghost use Rattle.deku_stream.specs.Moving.{Moves, FewerBits};
ghost use Rattle.deku_stream.specs.Streams.{flow};

use super::fetching::fetch_bytes;
use deku_device::device::Source;
use deku_stream::ctx::Order;
use deku_stream::window::Window;
use std::io;
use std::io::ErrorKind;

/// Fills the buffer with the next bits in this order, 128 bits at a time.
pub fn bits_into<R: Source>(
    source: &mut R,
    window: &mut Window,
    dst: &mut [bool],
    order: Order,
) -> io::Result<()>
    requires { length window.old ≤ 8 }
    ensures bound { OnOk result (length window.new ≤ 8) }
    ensures short { OnOk result (0 < length dst.new → length window.new < 8) }
    ensures none { OnOk result (length dst.new ≡ 0 → (window.new ≡ window.old)
        × ((R.known source.new).remaining ≡ (R.known source.old).remaining)) }
    ensures moved { OnOk result (Moves order window.old (R.known source.old).remaining dst.new
        window.new (R.known source.new).remaining) }
    ensures wanted { IfErr result (λ e. 0 < length dst.old) }
    ensures ended { IfErr result (λ e. error_kind e ≡ ErrorKind.UnexpectedEof
        → FewerBits (length dst.old) window.old (R.known source.old).remaining) }
    ensures failed { IfErr result (λ e. error_kind e ≢ ErrorKind.UnexpectedEof
        → DeviceFailed (R.known source.old).health (R.known source.new).health) }
    ensures inside { length dst.old ≤ length window.old → source.new ≡ source.old }
    ensures kept { DeviceKept (R.known source.old).health (R.known source.new).health }
{
    for run in 0..dst.len().div_ceil(128) {
        let from = 128 * run;
        let to = dst.len().min(from + 128);
        run_into(source, window, &mut dst[from..to], order)?;
    }
    Ok(())
}

// Fills a buffer of at most 128 bits with the next bits in this order. The bytes that they need are
// fetched at once.
fn run_into<R: Source>(
    source: &mut R,
    window: &mut Window,
    dst: &mut [bool],
    order: Order,
) -> io::Result<()>
    requires bound { length window.old ≤ 8 }
    requires some { 0 < length dst.old }
    requires few { length dst.old ≤ 128 }
    ensures short { OnOk result (length window.new < 8) }
    ensures moved { OnOk result (Moves order window.old (R.known source.old).remaining dst.new
        window.new (R.known source.new).remaining) }
    ensures ended { IfErr result (λ e. error_kind e ≡ ErrorKind.UnexpectedEof
        → FewerBits (length dst.old) window.old (R.known source.old).remaining) }
    ensures failed { IfErr result (λ e. error_kind e ≢ ErrorKind.UnexpectedEof
        → DeviceFailed (R.known source.old).health (R.known source.new).health) }
    ensures inside { length dst.old ≤ length window.old → source.new ≡ source.old }
    ensures kept { DeviceKept (R.known source.old).health (R.known source.new).health }
{
    let inside = dst.len().min(window.len());
    hand_out(window, &mut dst[..inside], order);
    let mut room = [0; 16];
    let bytes = &mut room[..(dst.len() - inside).div_ceil(8)];
    fetch_bytes(source, bytes)?;
    hand_out_bytes(window, bytes, &mut dst[inside..], order);
    Ok(())
}

// Fills the buffer with the next bits of the window, in this order.
fn hand_out(window: &mut Window, dst: &mut [bool], order: Order)
    requires { length dst.old ≤ length window.old }
    ensures { facing order window.old ≡ dst.new ++ facing order window.new }
{
    for bit in dst.iter_mut() {
        *bit = window.pop(order);
    }
}

// Fills the buffer with the bits of the bytes, of which there are as many as it needs. If it needs
// any, the window has to be empty.
fn hand_out_bytes(window: &mut Window, bytes: &[u8], dst: &mut [bool], order: Order)
    requires empty { 0 < length dst.old → length window.old ≡ 0 }
    requires needed { length bytes.now ≡ groups (length dst.old) }
    ensures { facing order window.old ++ flow order bytes.now ≡ dst.new ++ facing order window.new }
{
    for i in 0..bytes.len() {
        let from = 8 * i;
        let to = dst.len().min(from + 8);
        *window = Window::of_byte(bytes[i]);
        hand_out(window, &mut dst[from..to], order);
    }
}
