//! Whole bytes from a source, in one transfer.

ghost use Rattle.std.specs.Prelude.{◌≡◌, ◌≢◌, ℕ, ◌+◌, ◌*◌, ◌%◌, ◌<◌};
ghost use Rattle.std.specs.Prelude.{◌≤◌, ◌++◌, [], length, All, OnOk, IfErr};
ghost use Rattle.std.specs.Io.KnownBytes.{Consumes};
ghost use Rattle.std.specs.IoError.{error_kind};
ghost use Rattle.deku_stream.specs.declared.ctx.Order.{Order as BitOrder};
ghost use Rattle.deku_stream.specs.Bits.{facing};
ghost use Rattle.deku_device.specs.Devices.{DeviceKept, DeviceFailed, FewerThan};
ghost use Rattle.deku_stream.specs.Moving.{Moves, FewerBits};
ghost use Rattle.deku_stream.specs.Streams.{flow};

use deku_device::device::Source;
use deku_stream::window::Window;
use std::io;
use std::io::ErrorKind;

/// Fills the buffer with the next bytes. For no bytes the source is not called.
#[inline(always)]
pub fn fetch_bytes<R: Source>(source: &mut R, dst: &mut [u8]) -> io::Result<()>
    ensures bytes { OnOk result (Consumes (R.known source.old).remaining
        (R.known source.new).remaining dst.new) }
    ensures none { length dst.old ≡ 0 → source.new ≡ source.old }
    ensures wanted { IfErr result (λ e. 0 < length dst.old) }
    ensures short { IfErr result (λ e. error_kind e ≡ ErrorKind.UnexpectedEof
        → FewerThan (length dst.old) (R.known source.old).remaining) }
    ensures failed { IfErr result (λ e. error_kind e ≢ ErrorKind.UnexpectedEof
        → DeviceFailed (R.known source.old).health (R.known source.new).health) }
    ensures kept { DeviceKept (R.known source.old).health (R.known source.new).health }
{
    if dst.is_empty() {
        return Ok(());
    }
    source.fetch(dst)
}

/// Fills the buffer with the bytes after fewer than eight unread bits. A window of eight bits is
/// put back, as the first of the bytes.
#[inline(always)]
pub fn fetch_behind<R: Source>(
    source: &mut R,
    window: &mut Window,
    dst: &mut [u8],
) -> io::Result<()>
    requires bound { length window.old ≤ 8 }
    requires some { 0 < length dst.old }
    ensures short { OnOk result (length window.new ≡ length window.old % 8) }
    ensures moved { OnOk result ((order : BitOrder) → Moves order window.old
        (R.known source.old).remaining (facing order window.new ++ flow order dst.new) []
        (R.known source.new).remaining) }
    ensures ended { IfErr result (λ e. error_kind e ≡ ErrorKind.UnexpectedEof → (n : ℕ)
        → length window.old % 8 + 8 * length dst.old < n + 8
        → FewerBits n window.old (R.known source.old).remaining) }
    ensures failed { IfErr result (λ e. error_kind e ≢ ErrorKind.UnexpectedEof
        → DeviceFailed (R.known source.old).health (R.known source.new).health) }
    ensures inside { 8 * length dst.old ≤ length window.old → source.new ≡ source.old }
    ensures kept { DeviceKept (R.known source.old).health (R.known source.new).health }
{
    let held = window.len() / 8;
    if held == 1 {
        dst[0] = window.byte();
        *window = Window::empty();
    }
    fetch_bytes(source, &mut dst[held..])
}
