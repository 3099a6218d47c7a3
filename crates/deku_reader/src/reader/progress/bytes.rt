//! Bytes, fetched into the caller's buffer and shifted in place.

ghost use Rattle.std.specs.Prelude.{◌≡◌, ◌≢◌, ◌*◌, ◌%◌, ◌<◌, ◌≤◌};
ghost use Rattle.std.specs.Prelude.{◌++◌, length, All, OnOk, IfErr};
ghost use Rattle.std.specs.Vec.{vec_len, vec_capacity};
ghost use Rattle.deku_stream.specs.Bits.{facing};
ghost use Rattle.deku_device.specs.Devices.{DeviceKept, DeviceFailed};
ghost use Rattle.deku_stream.specs.Moving.{Moves, FewerBits};
ghost use Rattle.deku_stream.specs.Streams.{flow};

use super::fetching::fetch_behind;
use deku_device::device::Source;
use deku_stream::ctx::Order;
use deku_stream::window::Window;
use std::io::ErrorKind;

/// Fills the buffer with the next bytes in this order, or returns the kind of the error. The bytes
/// are fetched into it at once, and shifted there if bits of a byte are unread.
#[inline(always)]
pub fn bytes_into<R: Source>(
    source: &mut R,
    window: &mut Window,
    dst: &mut [u8],
    order: Order,
) -> Result<(), ErrorKind>
    requires { length window.old ≤ 8 }
    ensures short { OnOk result (0 < length dst.new → length window.new < 8) }
    ensures none { OnOk result (length dst.new ≡ 0 → (window.new ≡ window.old)
        × ((R.known source.new).remaining ≡ (R.known source.old).remaining)) }
    ensures moved { OnOk result (Moves order window.old (R.known source.old).remaining
        (flow order dst.new) window.new (R.known source.new).remaining) }
    ensures bytes { OnOk result (All (λ b. b < 256) dst.new) }
    ensures ended { IfErr result (λ e. e ≡ ErrorKind.UnexpectedEof
        → FewerBits (8 * length dst.old) window.old (R.known source.old).remaining) }
    ensures failed { IfErr result (λ e. e ≢ ErrorKind.UnexpectedEof
        → DeviceFailed (R.known source.old).health (R.known source.new).health) }
    ensures inside { 8 * length dst.old ≤ length window.old → source.new ≡ source.old }
    ensures kept { DeviceKept (R.known source.old).health (R.known source.new).health }
{
    if dst.is_empty() {
        return Ok(());
    }
    match fetch_behind(source, window, dst) {
        Ok(()) => {
            exchange_all(window, dst, order);
            Ok(())
        }
        Err(error) => Err(error.kind()),
    }
}

/// Puts the next `amt` bytes, in this order, into an empty vector that has room for them, or
/// returns the kind of the error.
#[inline(always)]
pub fn bytes_onto<R: Source>(
    source: &mut R,
    window: &mut Window,
    bytes: &mut Vec<u8>,
    amt: usize,
    order: Order,
) -> Result<(), ErrorKind>
    requires bound { length window.old ≤ 8 }
    requires empty { vec_len bytes.old ≡ 0 }
    requires room { amt ≤ vec_capacity bytes.old }
    ensures count { OnOk result (length bytes.new.items ≡ amt) }
    ensures short { OnOk result (0 < amt → length window.new < 8) }
    ensures none { OnOk result (amt ≡ 0 → (window.new ≡ window.old)
        × ((R.known source.new).remaining ≡ (R.known source.old).remaining)) }
    ensures moved { OnOk result (Moves order window.old (R.known source.old).remaining
        (flow order bytes.new.items) window.new (R.known source.new).remaining) }
    ensures bytes { OnOk result (All (λ b. b < 256) bytes.new.items) }
    ensures ended { IfErr result (λ e. e ≡ ErrorKind.UnexpectedEof
        → FewerBits (8 * amt) window.old (R.known source.old).remaining) }
    ensures failed { IfErr result (λ e. e ≢ ErrorKind.UnexpectedEof
        → DeviceFailed (R.known source.old).health (R.known source.new).health) }
    ensures inside { 8 * amt ≤ length window.old → source.new ≡ source.old }
    ensures kept { DeviceKept (R.known source.old).health (R.known source.new).health }
{
    if amt == 0 {
        return Ok(());
    }
    if window.len() == 8 {
        return match bytes.resize(amt, 0) {
            Ok(()) => bytes_into(source, window, bytes.as_mut_slice(), order),
            Err(_) => unreachable!(),
        };
    }
    match source.fetch_onto(bytes, amt) {
        Ok(()) => {
            exchange_all(window, bytes.as_mut_slice(), order);
            Ok(())
        }
        Err(error) => Err(error.kind()),
    }
}

/// Turns bytes that come after the window into those that begin with its bits. The same number of
/// bits is unread then.
pub fn exchange_all(window: &mut Window, dst: &mut [u8], order: Order)
    ensures bits { facing order window.old ++ flow order dst.old ≡ flow order dst.new ++ facing
        order window.new }
    ensures bytes { All (λ b. b < 256) dst.new }
    ensures len { length window.new ≡ length window.old }
{
    if window.len() == 0 {
        return;
    }
    // Kept apart from the bytes, so that it stays in registers.
    let mut passing = window.copy();
    let (eights, last) = dst.split_at_mut(dst.len() / 8 * 8);
    exchange_eights(&mut passing, eights, order);
    exchange_each(&mut passing, last, order);
    *window = passing;
}

// Turns bytes as `exchange_all` does, eight at a time.
#[inline(always)]
fn exchange_eights(passing: &mut Window, dst: &mut [u8], order: Order)
    requires { length dst.old % 8 ≡ 0 }
    ensures bits { facing order passing.old ++ flow order dst.old ≡ flow order dst.new ++ facing
        order passing.new }
    ensures bytes { All (λ b. b < 256) dst.new }
    ensures len { length passing.new ≡ length passing.old }
{
    for i in 0..dst.len() / 8 {
        let begin = 8 * i;
        exchange_eight(passing, &mut dst[begin..begin + 8], order);
    }
}

// Turns eight bytes as `exchange_all` does.
#[inline(always)]
fn exchange_eight(passing: &mut Window, dst: &mut [u8], order: Order)
    requires { length dst.old ≡ 8 }
    ensures bits { facing order passing.old ++ flow order dst.old ≡ flow order dst.new ++ facing
        order passing.new }
    ensures bytes { All (λ b. b < 256) dst.new }
    ensures len { length passing.new ≡ length passing.old }
{
    let mut eight = [0; 8];
    eight.copy_from_slice(dst);
    dst.copy_from_slice(&passing.exchange_eight(&eight, order));
}

// Turns bytes as `exchange_all` does, one by one.
#[inline(always)]
fn exchange_each(passing: &mut Window, dst: &mut [u8], order: Order)
    ensures bits { facing order passing.old ++ flow order dst.old ≡ flow order dst.new ++ facing
        order passing.new }
    ensures bytes { All (λ b. b < 256) dst.new }
    ensures len { length passing.new ≡ length passing.old }
{
    for byte in dst.iter_mut() {
        *byte = passing.exchange(*byte, order);
    }
}
