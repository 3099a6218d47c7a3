//! A cursor over a vector, as a sink.

#![tactic(auto, using(crate::proofs::Wholes::onward_same, crate::proofs::Wholes::nowhere, crate::proofs::Wholes::vector_onward))]

ghost use Rattle.std.specs.Prelude.{◌≡◌, ◌^◌, ◌<◌, ◌≤◌, ◌+◌, ◌-◌};
ghost use Rattle.std.specs.Prelude.{◌++◌, min, length, take, Some, OnOk, OnErr, IfErr, IsTrue};
ghost use Rattle.std.specs.Prelude.{IsFalse, ◌↔◌};
ghost use Rattle.std.specs.Io.KnownBytes.{Keeps};
ghost use Rattle.std.specs.Io.Cursor.{cursor_position, cursor_inner};
ghost use Rattle.std.specs.IoError.{error_kind};
ghost use Rattle.std.specs.Vec.{vec_len, vec_capacity};
ghost use Rattle.std.specs.Io.Seek.{SeekMoves};
ghost use Rattle.deku_device.specs.Devices.{DeviceKept, Gave};
ghost use Rattle.deku_device.specs.Cursors.{known_vector, reaching, RoomForEight};
ghost use Rattle.deku_device.specs.Overlays.{overlaid};
ghost use Rattle.deku_device.specs.Seeking.{place_on, Seeks, RefusedSeek, StandsAt};

use crate::device::Sink;
use crate::device::slice::{has_eight, lay_over, overwrite};
use std::alloc::AllocError;
use std::io;
use std::io::{Cursor, ErrorKind, Seek, SeekFrom};

// The bytes before the place of a cursor over a vector are taken. Its room is not known, since the
// vector grows while there is memory. It first tries to grow by more than the bytes need.
impl Sink for Cursor<Vec<u8>> {
    ghost known = { λ c. known_vector c };

    fn give(&mut self, bytes: &[u8]) -> io::Result<()>
        ensures ok { OnOk result (Gave (known_vector self.old) (known_vector self.new) bytes.now) }
        ensures err { IfErr result (λ e. error_kind e ≡ ErrorKind.OutOfMemory) }
        // The bytes overwrite those after the place, after zeros if the place is past the end. The
        // bytes after them do not change.
        ensures written { OnOk result ((cursor_inner self.new).items ≡ overlaid
            (reaching (cursor_position self.old) (cursor_inner self.old).items)
            (cursor_position self.old) bytes.now) }
        ensures place { OnOk result (cursor_position self.new ≡ place_on (cursor_position self.old)
            (length bytes.now)) }
        ensures kept { DeviceKept (known_vector self.old).health (known_vector self.new).health }
        // It fails only if the vector has no capacity for them. Then it has the same bytes and the
        // same place.
        ensures full { OnErr result (vec_capacity (cursor_inner self.old) < cursor_position self.old
            + length bytes.now) }
        ensures stays { OnErr result (cursor_position self.new ≡ cursor_position self.old) }
        ensures holds { OnErr result ((cursor_inner self.new).items ≡
            (cursor_inner self.old).items) }
    {
        let place = self.position();
        let all = self.get_mut();
        put_over(all, place as usize, bytes)?;
        self.set_position(place.saturating_add(bytes.len() as u64));
        Ok(())
    }

    #[inline(always)]
    fn try_put(&mut self, eight: [u8; 8], n: usize) -> bool
        requires { n ≤ 8 }
        ensures gave { IsTrue result → Gave (known_vector self.old) (known_vector self.new)
            (take n eight) }
        ensures stays { IsFalse result → self.new ≡ self.old }
        // The bytes overwrite those after the place, or are added at the end.
        ensures written { IsTrue result → (cursor_inner self.new).items ≡ overlaid
            (cursor_inner self.old).items (cursor_position self.old) (take n eight) }
        ensures place { IsTrue result → cursor_position self.new ≡ cursor_position self.old + n }
        ensures room { IsTrue result ↔ RoomForEight (cursor_position self.old)
            (cursor_inner self.old) }
    {
        let at = self.position();
        if has_eight(self.get_ref().len(), at) {
            lay_over(self.get_mut().as_mut_slice(), at as usize, eight, n);
        } else if ends_with_room(self.get_ref(), at) {
            append_first(self.get_mut(), eight, n);
        } else {
            return false;
        }
        self.set_position(at + n as u64);
        true
    }

    fn seek_to(&mut self, to: SeekFrom) -> io::Result<u64>
        ensures moves { SeekMoves (Some (cursor_position self.old))
            (Some (cursor_position self.new)) (Some (cursor_inner self.old).items) to result }
        ensures all { Keeps (Some (cursor_inner self.old).items)
            (Some (cursor_inner self.new).items) }
        ensures sought { Seeks (known_vector self.old).health (known_vector self.new).health to
            result }
        ensures refused { RefusedSeek (known_vector self.old).health (known_vector self.new).health
            to result }
        ensures stands { StandsAt (known_vector self.old).health.whole result
            (known_vector self.new) }
        ensures inner { cursor_inner self.new ≡ cursor_inner self.old }
    {
        self.seek(to)
    }
}

// Overwrites those of a vector from a place on, after zeros if it is past the end, and adds the
// rest at the end. If there is no memory, the vector keeps its bytes.
fn put_over(all: &mut Vec<u8>, place: usize, bytes: &[u8]) -> Result<(), AllocError>
    ensures written { OnOk result (all.new.items ≡ overlaid (reaching place all.old.items) place
        bytes.now) }
    ensures fits { OnOk result (place + length bytes.now < 2 ^ 63) }
    ensures full { OnErr result (vec_capacity all.old < place + length bytes.now) }
    ensures holds { OnErr result (all.new.items ≡ all.old.items) }
{
    grow_ahead(all, place.saturating_add(bytes.len()));
    let held = all.len();
    if place > held {
        all.resize(place, 0)?;
    }
    let n = bytes.len().min(all.len() - place);
    match all.extend_from_slice(&bytes[n..]) {
        Ok(()) => {
            overwrite(all.as_mut_slice(), place, &bytes[..n]);
            Ok(())
        }
        Err(error) => {
            all.truncate(held);
            Err(error)
        }
    }
}

// Tries to make capacity for 64 bytes more than `length`, if there is not enough for `length`. If
// there is no memory, nothing changes.
fn grow_ahead(all: &mut Vec<u8>, length: usize)
    ensures items { all.new.items ≡ all.old.items }
    ensures capacity { vec_capacity all.old ≤ vec_capacity all.new }
{
    if length > all.capacity() {
        let _refused = all.reserve(length.saturating_add(64) - all.len());
    }
}

// Whether a place is the end of a vector that has capacity for eight more bytes.
#[inline(always)]
fn ends_with_room(all: &Vec<u8>, place: u64) -> bool
    ensures { IsTrue result ↔ ((place ≡ vec_len all.now) × (place + 8 ≤ vec_capacity all.now)) }
{
    place == all.len() as u64 && all.capacity() - all.len() >= 8
}

// Adds the first n of eight bytes to a vector that has capacity for eight. Each length has its own
// arm, as in `lay_over`.
#[inline(always)]
fn append_first(all: &mut Vec<u8>, eight: [u8; 8], n: usize)
    requires few { n ≤ 8 }
    requires room { vec_len all.old + 8 ≤ vec_capacity all.old }
    ensures { all.new.items ≡ all.old.items ++ take n eight }
{
    let _added = match n {
        1 => all.extend_from_slice(&eight[..1]),
        2 => all.extend_from_slice(&eight[..2]),
        3 => all.extend_from_slice(&eight[..3]),
        4 => all.extend_from_slice(&eight[..4]),
        5 => all.extend_from_slice(&eight[..5]),
        6 => all.extend_from_slice(&eight[..6]),
        7 => all.extend_from_slice(&eight[..7]),
        8 => all.extend_from_slice(&eight),
        _ => Ok(()),
    };
}
