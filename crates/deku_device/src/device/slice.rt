//! A cursor over a slice, as a sink.

#![tactic(auto, using(crate::proofs::Wholes::onward_same, crate::proofs::Wholes::nowhere, crate::proofs::Wholes::slice_onward))]

ghost use Rattle.std.specs.Prelude.{◌≡◌, ◌<◌, ◌≤◌, ◌+◌, ◌-◌, ◌++◌, min};
ghost use Rattle.std.specs.Prelude.{length, take, drop, Some, OnOk, IfErr, IsTrue, IsFalse};
ghost use Rattle.std.specs.Prelude.{◌↔◌};
ghost use Rattle.std.specs.Io.KnownBytes.{Keeps};
ghost use Rattle.std.specs.Io.Cursor.{cursor_position, cursor_inner};
ghost use Rattle.std.specs.IoError.{error_kind};
ghost use Rattle.std.specs.Io.Seek.{SeekMoves};
ghost use Rattle.deku_device.specs.Devices.{Gave, Declined};
ghost use Rattle.deku_device.specs.Cursors.{known_slice, fitting_front};
ghost use Rattle.deku_device.specs.Overlays.{overlaid};
ghost use Rattle.deku_device.specs.Seeking.{Seeks, RefusedSeek, StandsAt};

use crate::device::Sink;
use std::io;
use std::io::{Cursor, Error, ErrorKind, Seek, SeekFrom};

// The bytes before the place of a cursor over a slice are taken, and those after it are its room.
impl Sink for Cursor<&mut [u8]> {
    ghost known = { λ c. known_slice c };

    #[inline(always)]
    fn give(&mut self, bytes: &[u8]) -> io::Result<()>
        ensures ok { OnOk result (Gave (known_slice self.old) (known_slice self.new) bytes.now) }
        ensures err { IfErr result (λ e. Declined (known_slice self.old) (known_slice self.new)
            bytes.now (error_kind e)) }
        // As many of the bytes as fit overwrite those after the place, even if it fails.
        ensures written { (cursor_inner self.new).now ≡ overlaid (cursor_inner self.old).now
            (cursor_position self.old) (fitting_front (cursor_inner self.old).now
            (cursor_position self.old) bytes.now) }
        ensures place { cursor_position self.new ≡ cursor_position self.old + length
            (fitting_front (cursor_inner self.old).now (cursor_position self.old) bytes.now) }
    {
        let place = self.position();
        let all = self.get_mut();
        let n = overwrite(all, place as usize, bytes);
        self.set_position(place + n as u64);
        if n < bytes.len() {
            return Err(Error::from(ErrorKind::WriteZero));
        }
        Ok(())
    }

    #[inline(always)]
    fn try_put(&mut self, eight: [u8; 8], n: usize) -> bool
        requires { n ≤ 8 }
        ensures gave { IsTrue result → Gave (known_slice self.old) (known_slice self.new)
            (take n eight) }
        ensures stays { IsFalse result → self.new ≡ self.old }
        // The bytes overwrite those after the place.
        ensures written { IsTrue result → (cursor_inner self.new).now ≡ overlaid
            (cursor_inner self.old).now (cursor_position self.old) (take n eight) }
        ensures place { IsTrue result → cursor_position self.new ≡ cursor_position self.old + n }
        ensures room { IsTrue result ↔ (cursor_position self.old + 8 ≤ length
            (cursor_inner self.old).now) }
    {
        let place = self.position();
        if !has_eight(self.get_ref().len(), place) {
            return false;
        }
        lay_over(self.get_mut(), place as usize, eight, n);
        self.set_position(place + n as u64);
        true
    }

    fn seek_to(&mut self, to: SeekFrom) -> io::Result<u64>
        ensures moves { SeekMoves (Some (cursor_position self.old))
            (Some (cursor_position self.new)) (Some (cursor_inner self.old).now) to result }
        ensures all { Keeps (Some (cursor_inner self.old).now) (Some (cursor_inner self.new).now) }
        ensures sought { Seeks (known_slice self.old).health (known_slice self.new).health to
            result }
        ensures refused { RefusedSeek (known_slice self.old).health (known_slice self.new).health to
            result }
        ensures stands { StandsAt (known_slice self.old).health.whole result
            (known_slice self.new) }
        ensures inner { cursor_inner self.new ≡ cursor_inner self.old }
    {
        self.seek(to)
    }
}

// Overwrites `all` from `place` on with as many of the bytes as fit, and returns how many. It takes
// slices only, so a cursor that gives through it stays in registers.
#[inline(never)]
pub(crate) fn overwrite(all: &mut [u8], place: usize, bytes: &[u8]) -> usize
    ensures count { result ≡ min (length bytes.now) (length all.old - place) }
    ensures written { place ≤ length all.old → all.new ≡ take place all.old ++ take result bytes.now
        ++ drop (place + result) all.old }
    ensures past { length all.old < place → all.new ≡ all.old }
{
    if place > all.len() {
        return 0;
    }
    let n = bytes.len().min(all.len() - place);
    all[place..place + n].copy_from_slice(&bytes[..n]);
    n
}

// Whether eight of `length` bytes follow a place.
#[inline(always)]
pub(crate) fn has_eight(length: usize, place: u64) -> bool
    ensures { IsTrue result ↔ (place + 8 ≤ length) }
{
    place < (length as u64).saturating_sub(7)
}

// Overwrites those from a place on with the first n of eight bytes. Each length has its own arm, so
// that each is one store or two.
#[inline(always)]
pub(crate) fn lay_over(all: &mut [u8], place: usize, eight: [u8; 8], n: usize)
    requires few { n ≤ 8 }
    requires room { place + 8 ≤ length all.old }
    ensures { all.new ≡ overlaid all.old place (take n eight) }
{
    match n {
        1 => lay_first(all, place, &eight, 1),
        2 => lay_first(all, place, &eight, 2),
        3 => lay_first(all, place, &eight, 3),
        4 => lay_first(all, place, &eight, 4),
        5 => lay_first(all, place, &eight, 5),
        6 => lay_first(all, place, &eight, 6),
        7 => lay_first(all, place, &eight, 7),
        8 => lay_first(all, place, &eight, 8),
        _ => {}
    }
}

// Overwrites the first n of eight bytes. Each length has its own arm, as in `lay_over`.
#[inline(always)]
pub(crate) fn lay_front(eight: &mut [u8; 8], bytes: &[u8], n: usize)
    requires few { n ≤ 8 }
    requires enough { n ≤ length bytes.now }
    ensures { eight.new ≡ take n bytes.now ++ drop n eight.old }
{
    match n {
        1 => lay_first(eight, 0, bytes, 1),
        2 => lay_first(eight, 0, bytes, 2),
        3 => lay_first(eight, 0, bytes, 3),
        4 => lay_first(eight, 0, bytes, 4),
        5 => lay_first(eight, 0, bytes, 5),
        6 => lay_first(eight, 0, bytes, 6),
        7 => lay_first(eight, 0, bytes, 7),
        8 => lay_first(eight, 0, bytes, 8),
        _ => {}
    }
}

// Overwrites those from a place on with the first n bytes.
#[inline(always)]
pub(crate) fn lay_first(all: &mut [u8], place: usize, bytes: &[u8], n: usize)
    requires few { n ≤ length bytes.now }
    requires room { place + n ≤ length all.old }
    ensures { all.new ≡ overlaid all.old place (take n bytes.now) }
{
    let first = &bytes[..n];
    all[place..place + n].copy_from_slice(first);
}
