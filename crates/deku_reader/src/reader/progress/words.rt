//! Words: at most 128 bits, each group of eight as a byte.

ghost use Rattle.std.specs.Prelude.{◌≡◌, ◌≢◌, ◌+◌, ◌-◌, ◌*◌, ◌^◌};
ghost use Rattle.std.specs.Prelude.{◌<◌, ◌≤◌, ◌⊎◌, ◌∷◌, []};
ghost use Rattle.std.specs.Prelude.{length, take, drop, OnOk, IfOk, IfErr, IfSome, IsNone};
ghost use Rattle.deku_stream.specs.declared.ctx.Order.TheVariants.{Msb0, Lsb0};
ghost use Rattle.deku_stream.specs.Bits.{bits_of, facing, groups};
ghost use Rattle.deku_device.specs.Devices.{DeviceKept, DeviceFailed};
ghost use Rattle.deku_stream.specs.Moving.{FewerBits, Moves, MovesWord, TakesGroups};

use super::bytes::exchange_all;
use super::fetching::fetch_behind;
use deku_device::device::Source;
use deku_stream::ctx::Order;
use deku_stream::window::{Window, word_of_front};
use std::io::ErrorKind;

/// Takes at most 128 bits in this order, and returns their word, or the kind of the error. The
/// bytes that they need are taken from memory if they are there, and are otherwise fetched at once.
#[inline(always)]
pub fn word_from<R: Source>(
    source: &mut R,
    window: &mut Window,
    count: usize,
    order: Order,
) -> Result<u128, ErrorKind>
    requires bound { length window.old ≤ 8 }
    requires few { count ≤ 128 }
    ensures short { OnOk result (0 < count → length window.new < 8) }
    ensures none { OnOk result (count ≡ 0 → (window.new ≡ window.old)
        × ((R.known source.new).remaining ≡ (R.known source.old).remaining)) }
    ensures moved { IfOk result (λ word. MovesWord order window.old (R.known source.old).remaining
        count word window.new (R.known source.new).remaining) }
    ensures wanted { IfErr result (λ e. 0 < count) }
    ensures ended { IfErr result (λ e. e ≡ ErrorKind.UnexpectedEof
        → FewerBits count window.old (R.known source.old).remaining) }
    ensures failed { IfErr result (λ e. e ≢ ErrorKind.UnexpectedEof
        → DeviceFailed (R.known source.old).health (R.known source.new).health) }
    ensures inside { count ≤ length window.old → source.new ≡ source.old }
    ensures kept { DeviceKept (R.known source.old).health (R.known source.new).health }
{
    if count > 64 {
        return wide_from(source, window, count, order);
    }
    short_word_from(source, window, count, order)
}

/// Takes at most 64 bits as `word_from` does. It is shorter, so that what it is inlined into stays
/// short too.
#[inline(always)]
pub fn short_word_from<R: Source>(
    source: &mut R,
    window: &mut Window,
    count: usize,
    order: Order,
) -> Result<u128, ErrorKind>
    requires bound { length window.old ≤ 8 }
    requires few { count ≤ 64 }
    ensures short { OnOk result (0 < count → length window.new < 8) }
    ensures none { OnOk result (count ≡ 0 → (window.new ≡ window.old)
        × ((R.known source.new).remaining ≡ (R.known source.old).remaining)) }
    ensures moved { IfOk result (λ word. MovesWord order window.old (R.known source.old).remaining
        count word window.new (R.known source.new).remaining) }
    ensures wanted { IfErr result (λ e. 0 < count) }
    ensures ended { IfErr result (λ e. e ≡ ErrorKind.UnexpectedEof
        → FewerBits count window.old (R.known source.old).remaining) }
    ensures failed { IfErr result (λ e. e ≢ ErrorKind.UnexpectedEof
        → DeviceFailed (R.known source.old).health (R.known source.new).health) }
    ensures inside { count ≤ length window.old → source.new ≡ source.old }
    ensures kept { DeviceKept (R.known source.old).health (R.known source.new).health }
{
    match try_word(source, window, count, order) {
        Some(word) => Ok(word),
        None => word_fetched(source, window, count, order),
    }
}

// Takes at most 64 bits in this order, if they are unread or in memory, and returns their word.
// Otherwise it returns `None`, and nothing moves.
#[inline(always)]
fn try_word<R: Source>(
    source: &mut R,
    window: &mut Window,
    count: usize,
    order: Order,
) -> Option<u128>
    requires bound { length window.old ≤ 8 }
    requires few { count ≤ 64 }
    ensures short { IfSome result (λ word. 0 < count → length window.new < 8) }
    ensures none { IfSome result (λ word. count ≡ 0 → (window.new ≡ window.old)
        × ((R.known source.new).remaining ≡ (R.known source.old).remaining)) }
    ensures still { count ≤ length window.old → source.new ≡ source.old }
    ensures moved { IfSome result (λ word. MovesWord order window.old
        (R.known source.old).remaining count word window.new (R.known source.new).remaining) }
    ensures stays { IsNone result → (window.new ≡ window.old) × (source.new ≡ source.old) }
    ensures more { IsNone result → length window.old < count }
    ensures kept { DeviceKept (R.known source.old).health (R.known source.new).health }
{
    if 0 < count && count % 8 == 0 && window.len() == 0 {
        let eight = source.try_take(count / 8)?;
        return Some(word_of_front(&eight, count) as u128);
    }
    if window.len() == 8 && 8 < count {
        return None;
    }
    try_across(source, window, count, order)
}

// Takes bits as `try_word` does, across bytes too. If eight bits are unread, it takes no bytes
// after them.
#[inline(always)]
fn try_across<R: Source>(
    source: &mut R,
    window: &mut Window,
    count: usize,
    order: Order,
) -> Option<u128>
    requires bound { length window.old ≤ 8 }
    requires few { count ≤ 64 }
    requires inside { (length window.old < 8) ⊎ (count ≤ 8) }
    ensures short { IfSome result (λ word. 0 < count → length window.new < 8) }
    ensures none { IfSome result (λ word. count ≡ 0 → (window.new ≡ window.old)
        × ((R.known source.new).remaining ≡ (R.known source.old).remaining)) }
    ensures still { count ≤ length window.old → source.new ≡ source.old }
    ensures moved { IfSome result (λ word. MovesWord order window.old
        (R.known source.old).remaining count word window.new (R.known source.new).remaining) }
    ensures stays { IsNone result → (window.new ≡ window.old) × (source.new ≡ source.old) }
    ensures more { IsNone result → length window.old < count }
    ensures kept { DeviceKept (R.known source.old).health (R.known source.new).health }
{
    if count <= window.len() {
        return Some(window.take(count, order) as u128);
    }
    let rest = count - window.len();
    let eight = source.try_take(rest.div_ceil(8))?;
    if count % 8 == 0 && window.len() == 0 {
        return Some(word_of_front(&eight, count) as u128);
    }
    Some(window.take_across(&eight, count, order) as u128)
}

/// Takes at most 64 bits in this order, if they are unread or in memory, and returns their number.
/// Their first bit is its highest in `Msb0`, and its lowest in `Lsb0`. Otherwise it returns `None`,
/// and nothing moves.
#[inline(always)]
pub fn try_read_number<R: Source>(
    source: &mut R,
    window: &mut Window,
    count: usize,
    order: Order,
) -> Option<u64>
    requires bound { length window.old ≤ 8 }
    requires few { count ≤ 64 }
    ensures short { IfSome result (λ number. 0 < count → length window.new < 8) }
    ensures none { IfSome result (λ number. count ≡ 0 → (window.new ≡ window.old)
        × ((R.known source.new).remaining ≡ (R.known source.old).remaining)) }
    ensures still { count ≤ length window.old → source.new ≡ source.old }
    ensures moved { IfSome result (λ number. Moves order window.old (R.known source.old).remaining
        (facing order (bits_of count number)) window.new (R.known source.new).remaining) }
    ensures below { IfSome result (λ number. number < 2 ^ count) }
    ensures stays { IsNone result → (window.new ≡ window.old) × (source.new ≡ source.old) }
    ensures kept { DeviceKept (R.known source.old).health (R.known source.new).health }
{
    if count <= window.len() {
        return Some(window.take(count, order) as u64);
    }
    if window.len() == 8 {
        return None;
    }
    let behind = count - window.len();
    let eight = source.try_take(behind.div_ceil(8))?;
    match order {
        Order::Msb0 => Some(window.take_high_across(&eight, count)),
        Order::Lsb0 => Some(window.take_low_across(&eight, count)),
    }
}

// Takes more than 64 bits. If eight bytes are in memory, it takes 64 bits through the window and
// then the others.
#[inline(always)]
fn wide_from<R: Source>(
    source: &mut R,
    window: &mut Window,
    count: usize,
    order: Order,
) -> Result<u128, ErrorKind>
    requires bound { length window.old ≤ 8 }
    requires wide { 64 < count }
    requires few { count ≤ 128 }
    ensures short { OnOk result (length window.new < 8) }
    ensures moved { IfOk result (λ word. MovesWord order window.old (R.known source.old).remaining
        count word window.new (R.known source.new).remaining) }
    ensures ended { IfErr result (λ e. e ≡ ErrorKind.UnexpectedEof
        → FewerBits count window.old (R.known source.old).remaining) }
    ensures failed { IfErr result (λ e. e ≢ ErrorKind.UnexpectedEof
        → DeviceFailed (R.known source.old).health (R.known source.new).health) }
    ensures kept { DeviceKept (R.known source.old).health (R.known source.new).health }
{
    if window.len() == 8 {
        return word_apart(source, window, count, order);
    }
    let Some(eight) = source.try_take(8) else {
        return word_apart(source, window, count, order);
    };
    let first = u64::from_le_bytes(window.exchange_eight(&eight, order));
    let behind = rest_from(source, window, count - 64, order)?;
    Ok((behind << 64) + first as u128)
}

// Takes at most 64 bits as `word_from` does, after 64 bits of the same word.
#[inline(always)]
fn rest_from<R: Source>(
    source: &mut R,
    window: &mut Window,
    count: usize,
    order: Order,
) -> Result<u128, ErrorKind>
    requires bound { length window.old < 8 }
    requires few { count ≤ 64 }
    ensures short { OnOk result (0 < count → length window.new < 8) }
    ensures none { OnOk result (count ≡ 0 → (window.new ≡ window.old)
        × ((R.known source.new).remaining ≡ (R.known source.old).remaining)) }
    ensures moved { IfOk result (λ word. MovesWord order window.old (R.known source.old).remaining
        count word window.new (R.known source.new).remaining) }
    ensures wanted { IfErr result (λ e. 0 < count) }
    ensures ended { IfErr result (λ e. e ≡ ErrorKind.UnexpectedEof
        → FewerBits count window.old (R.known source.old).remaining) }
    ensures failed { IfErr result (λ e. e ≢ ErrorKind.UnexpectedEof
        → DeviceFailed (R.known source.old).health (R.known source.new).health) }
    ensures inside { count ≤ length window.old → source.new ≡ source.old }
    ensures kept { DeviceKept (R.known source.old).health (R.known source.new).health }
{
    match try_across(source, window, count, order) {
        Some(word) => Ok(word),
        None => word_apart(source, window, count, order),
    }
}

// Takes more bits than the window has, by one transfer of the bytes that they need. It is inlined
// with the transfer, and what else it calls takes values only, so that a source in memory and the
// window stay in registers. How many bits are then unread is computed here, so that the compiler
// knows it if it knows the widths.
#[inline(always)]
fn word_fetched<R: Source>(
    source: &mut R,
    window: &mut Window,
    count: usize,
    order: Order,
) -> Result<u128, ErrorKind>
    requires bound { length window.old ≤ 8 }
    requires more { length window.old < count }
    requires few { count ≤ 128 }
    ensures short { OnOk result (length window.new < 8) }
    ensures moved { IfOk result (λ word. MovesWord order window.old (R.known source.old).remaining
        count word window.new (R.known source.new).remaining) }
    ensures ended { IfErr result (λ e. e ≡ ErrorKind.UnexpectedEof
        → FewerBits count window.old (R.known source.old).remaining) }
    ensures failed { IfErr result (λ e. e ≢ ErrorKind.UnexpectedEof
        → DeviceFailed (R.known source.old).health (R.known source.new).health) }
    ensures kept { DeviceKept (R.known source.old).health (R.known source.new).health }
{
    let mut room = [0; 16];
    let behind = count - window.len() % 8;
    let needed = behind.div_ceil(8);
    match fetch_behind(source, window, &mut room[..needed]) {
        Ok(()) => {
            let (bytes, rest) = gathered(room, window.copy(), count, order);
            *window = rest.counted(8 * needed - behind);
            Ok(u128::from_le_bytes(bytes))
        }
        Err(error) => Err(error.kind()),
    }
}

// Takes bits as `word_fetched` does, by a call.
#[cold]
#[inline(never)]
fn word_apart<R: Source>(
    source: &mut R,
    window: &mut Window,
    count: usize,
    order: Order,
) -> Result<u128, ErrorKind>
    requires bound { length window.old ≤ 8 }
    requires more { length window.old < count }
    requires few { count ≤ 128 }
    ensures short { OnOk result (length window.new < 8) }
    ensures moved { IfOk result (λ word. MovesWord order window.old (R.known source.old).remaining
        count word window.new (R.known source.new).remaining) }
    ensures ended { IfErr result (λ e. e ≡ ErrorKind.UnexpectedEof
        → FewerBits count window.old (R.known source.old).remaining) }
    ensures failed { IfErr result (λ e. e ≢ ErrorKind.UnexpectedEof
        → DeviceFailed (R.known source.old).health (R.known source.new).health) }
    ensures kept { DeviceKept (R.known source.old).health (R.known source.new).health }
{
    word_fetched(source, window, count, order)
}

// Makes the groups of `count` bits from these unread bits and the first bytes, in their place.
#[cold]
#[inline(never)]
fn gathered(bytes: [u8; 16], unread: Window, count: usize, order: Order) -> ([u8; 16], Window)
    requires short { length unread < 8 }
    requires wide { count ≤ 128 }
    ensures groups { TakesGroups order unread (take (groups (count - length unread))
        (take (groups count) bytes)) count (take (groups count) result.0) result.1 }
    ensures behind { drop (groups count) result.0 ≡ drop (groups count) bytes }
{
    let mut all = bytes;
    let mut window = unread;
    gather(&mut window, &mut all[..count.div_ceil(8)], count, order);
    (all, window)
}

// Makes the groups of `count` bits from the window and the bytes after it.
fn gather(window: &mut Window, dst: &mut [u8], count: usize, order: Order)
    requires short { length window.old < 8 }
    requires room { length dst.old ≡ groups count }
    requires wide { count ≤ 128 }
    ensures { TakesGroups order window.old (take (groups (count - length window.old)) dst.old) count
        dst.new window.new }
{
    let whole = count / 8;
    exchange_all(window, &mut dst[..whole], order);
    if count % 8 > 0 {
        dst[whole] = last_group(window, dst[whole], count % 8, order);
    }
}

// Takes fewer than eight bits: those of the window, and if it has too few, bits of the byte after
// it.
fn last_group(window: &mut Window, byte: u8, count: usize, order: Order) -> u8
    requires window { length window.old < 8 }
    requires some { 0 < count }
    requires few { count < 8 }
    ensures { TakesGroups order window.old (take (groups (count - length window.old)) (byte ∷ []))
        count (result ∷ []) window.new }
{
    let inside = count.min(window.len());
    let first = window.take(inside, order);
    if inside == count {
        return first;
    }
    *window = Window::of_byte(byte);
    let second = window.take(count - inside, order);
    joined(first, inside, second, count - inside, order)
}

// The number of a group from the numbers of its two parts, which have these widths.
fn joined(first: u8, inside: usize, second: u8, behind: usize, order: Order) -> u8
    requires few { inside + behind < 8 }
    requires first { first < 2 ^ inside }
    requires second { second < 2 ^ behind }
    ensures high { order ≡ Msb0 → result ≡ first * 2 ^ behind + second }
    ensures low { order ≡ Lsb0 → result ≡ first + second * 2 ^ inside }
{
    match order {
        Order::Msb0 => (first << behind) + second,
        Order::Lsb0 => first + (second << inside),
    }
}
