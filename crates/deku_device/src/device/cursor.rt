//! A cursor over bytes in memory, as a source.

#![tactic(auto, using(crate::proofs::Wholes::onward_same, crate::proofs::Wholes::read_onward, crate::proofs::Wholes::nowhere))]

ghost use Rattle.std.specs.Prelude.{◌≡◌, ◌^◌, ◌<◌, ◌≤◌, ◌+◌, ◌-◌};
ghost use Rattle.std.specs.Prelude.{◌++◌, min, length, take, drop, replicate, Option, Some};
ghost use Rattle.std.specs.Prelude.{None, OnOk, OnErr, IsOk, IfErr, IfSome, IsNone, IsTrue};
ghost use Rattle.std.specs.Prelude.{IsFalse};
ghost use Rattle.std.specs.Io.KnownBytes.{Consumes, Keeps};
ghost use Rattle.std.specs.Io.Cursor.{cursor_position, cursor_inner, cursor_remaining};
ghost use Rattle.std.specs.IoError.{error_kind};
ghost use Rattle.std.specs.Vec.{vec_len, vec_capacity};
ghost use Rattle.std.specs.Io.Seek.{SeekMoves};
ghost use Rattle.deku_device.specs.Devices.{DeviceKept, FewerThan, Passes, BeginsThenZeros};
ghost use Rattle.deku_device.specs.Cursors.{cursor_known, cursor_source};
ghost use Rattle.deku_device.specs.Seeking.{place_on, Seeks, RefusedSeek, ComesFrom};

use crate::device::Source;
use crate::device::slice::lay_front;
use std::io;
use std::io::{AsBytes, Cursor, Error, ErrorKind, Read, Seek, SeekFrom};

// All the bytes of a cursor over memory are known, those from its place on are left, and it does
// not fail.
impl<T: AsBytes> Source for Cursor<T> {
    ghost known = { λ s. cursor_source T.bytes s };

    ghost known_by_place = { λ s at all. cursor_known T.bytes s at all };

    #[inline(always)]
    fn fetch(&mut self, buf: &mut [u8]) -> io::Result<()>
        ensures bytes { OnOk result (Consumes (cursor_remaining T.bytes self.old)
            (cursor_remaining T.bytes self.new) buf.new) }
        ensures short { IfErr result (λ e. (error_kind e ≡ ErrorKind.UnexpectedEof)
            × FewerThan (length buf.old) (cursor_remaining T.bytes self.old)) }
        ensures place { OnOk result (cursor_position self.new ≡ cursor_position self.old + length
            buf.new) }
        ensures inner { cursor_inner self.new ≡ cursor_inner self.old }
        ensures kept { DeviceKept (cursor_source T.bytes self.old).health
            (cursor_source T.bytes self.new).health }
        // If it fails, nothing moves.
        ensures stays { OnErr result (self.new ≡ self.old) }
    {
        let at = self.position();
        if !copy_at(self.get_ref().as_byte_slice(), at, buf) {
            return Err(Error::new(ErrorKind::UnexpectedEof, "failed to fill whole buffer"));
        }
        self.set_position(at + buf.len() as u64);
        Ok(())
    }

    fn pass(&mut self, n: u64) -> io::Result<()>
        requires { n < 2 ^ 63 }
        ensures bytes { Passes n (cursor_remaining T.bytes self.old)
            (cursor_remaining T.bytes self.new) }
        ensures ok { IsOk result }
        // It may skip past the end, as a seek does.
        ensures place { cursor_position self.new ≡ place_on (cursor_position self.old) n }
        ensures inner { cursor_inner self.new ≡ cursor_inner self.old }
        ensures kept { DeviceKept (cursor_source T.bytes self.old).health
            (cursor_source T.bytes self.new).health }
    {
        let at = self.position();
        let end = place_after(self.get_ref().as_byte_slice(), at, n);
        self.set_position(end);
        Ok(())
    }

    #[inline(always)]
    fn try_take(&mut self, n: usize) -> Option<[u8; 8]>
        requires { n ≤ 8 }
        ensures bytes { IfSome result (λ eight. Consumes (cursor_remaining T.bytes self.old)
            (cursor_remaining T.bytes self.new) (take n eight)) }
        ensures ahead { IfSome result (λ eight. BeginsThenZeros (drop n eight)
            (cursor_remaining T.bytes self.new)) }
        ensures none { IsNone result → self.new ≡ self.old }
        // It returns None only if fewer than n bytes are left.
        ensures short { IsNone result → FewerThan n (cursor_remaining T.bytes self.old) }
        ensures place { IfSome result (λ eight. cursor_position self.new ≡ cursor_position self.old
            + n) }
        ensures inner { cursor_inner self.new ≡ cursor_inner self.old }
        ensures kept { DeviceKept (cursor_source T.bytes self.old).health
            (cursor_source T.bytes self.new).health }
    {
        let at = self.position();
        let eight = eight_at(self.get_ref().as_byte_slice(), at, n)?;
        self.set_position(at + n as u64);
        Some(eight)
    }

    #[inline(always)]
    fn fetch_onto(&mut self, bytes: &mut Vec<u8>, n: usize) -> io::Result<()>
        requires { vec_len bytes.old + n ≤ vec_capacity bytes.old }
        ensures bytes { OnOk result (Consumes (cursor_remaining T.bytes self.old)
            (cursor_remaining T.bytes self.new) (drop (vec_len bytes.old) bytes.new.items)) }
        ensures held { OnOk result (take (vec_len bytes.old) bytes.new.items ≡ bytes.old.items) }
        ensures count { OnOk result (vec_len bytes.new ≡ vec_len bytes.old + n) }
        ensures short { IfErr result (λ e. (error_kind e ≡ ErrorKind.UnexpectedEof)
            × FewerThan n (cursor_remaining T.bytes self.old)) }
        ensures place { OnOk result (cursor_position self.new ≡ cursor_position self.old + n) }
        ensures inner { cursor_inner self.new ≡ cursor_inner self.old }
        ensures kept { DeviceKept (cursor_source T.bytes self.old).health
            (cursor_source T.bytes self.new).health }
        // If it fails, nothing moves, and the vector keeps its bytes.
        ensures stays { OnErr result (self.new ≡ self.old) }
        ensures same { OnErr result (bytes.new.items ≡ bytes.old.items) }
    {
        let at = self.position();
        if !append_at(self.get_ref().as_byte_slice(), at, bytes, n) {
            return Err(Error::new(ErrorKind::UnexpectedEof, "failed to fill whole buffer"));
        }
        self.set_position(at + n as u64);
        Ok(())
    }

    fn seek_to(&mut self, to: SeekFrom) -> io::Result<u64>
        ensures moves { SeekMoves (Some (cursor_position self.old))
            (Some (cursor_position self.new)) (T.bytes (cursor_inner self.old)) to result }
        ensures all { Keeps (T.bytes (cursor_inner self.old)) (T.bytes (cursor_inner self.new)) }
        ensures sought { Seeks (cursor_source T.bytes self.old).health
            (cursor_source T.bytes self.new).health to result }
        ensures refused { RefusedSeek (cursor_source T.bytes self.old).health
            (cursor_source T.bytes self.new).health to result }
        ensures remaining { ComesFrom (cursor_source T.bytes self.old).health.whole result
            (cursor_source T.bytes self.new) }
        ensures inner { cursor_inner self.new ≡ cursor_inner self.old }
    {
        self.seek(to)
    }
}

// The eight bytes from this place on, with zeros after the last one, if at least n are left.
#[inline(always)]
fn eight_at(all: &[u8], at: u64, n: usize) -> Option<[u8; 8]>
    requires { n ≤ 8 }
    ensures fits { IfSome result (λ eight. at + n < 2 ^ 64) }
    ensures bytes { IfSome result (λ eight. drop at all.now ≡ take n eight ++ drop (at + n)
        all.now) }
    ensures ahead { IfSome result (λ eight. BeginsThenZeros (drop n eight)
        (Some (drop (at + n) all.now))) }
    ensures short { IsNone result → FewerThan n (Some (drop at all.now)) }
{
    if let Some(rest) = all.get(at as usize..) {
        if let Some(eight) = rest.first_chunk::<8>() {
            return Some(*eight);
        }
        if n <= rest.len() {
            if let Some(end) = all.last_chunk::<8>() {
                return Some(end_of(*end, rest.len()));
            }
        }
    }
    // Not returned as it is, so that the other results stay in registers.
    let last = last_at(all, at, n)?;
    Some(last)
}

// What `eight_at` returns if fewer than n bytes are left, or fewer than eight in all.
#[cold]
#[inline(never)]
fn last_at(all: &[u8], at: u64, n: usize) -> Option<[u8; 8]>
    ensures fits { IfSome result (λ eight. at + n < 2 ^ 64) }
    ensures eight { IfSome result (λ eight. eight ≡ take 8 (drop at all.now ++ replicate 8 0)) }
    ensures enough { IfSome result (λ eight. n ≤ length (drop at all.now)) }
    ensures short { IsNone result → FewerThan n (Some (drop at all.now)) }
{
    let last = &all[all.len().min(at as usize)..];
    if last.len() < n {
        return None;
    }
    let count = last.len().min(8);
    let mut eight = [0; 8];
    lay_front(&mut eight, last, count);
    Some(eight)
}

// The last bytes of eight, fewer than eight, with zeros after them. A word is shifted, however many
// they are.
#[inline]
fn end_of(eight: [u8; 8], count: usize) -> [u8; 8]
    requires { count < 8 }
    ensures { result ≡ drop (8 - count) eight ++ replicate (8 - count) 0 }
{
    let word = u64::from_le_bytes(eight) >> (56 - 8 * count) >> 8;
    word.to_le_bytes()
}

// The place n bytes after this one, or the last place that there is.
fn place_after(all: &[u8], at: u64, n: u64) -> u64
    ensures place { result ≡ place_on at n }
    ensures behind { drop result all.now ≡ drop n (drop at all.now) }
{
    let _length = all.len();
    at.saturating_add(n)
}

// Fills the buffer from the bytes at this place, or returns false if they are too few.
#[inline(always)]
fn copy_at(all: &[u8], at: u64, buf: &mut [u8]) -> bool
    ensures fits { IsTrue result → at + length buf.old < 2 ^ 64 }
    ensures short { IsFalse result → FewerThan (length buf.old) (Some (drop at all.now)) }
    ensures bytes { IsTrue result → drop at all.now ≡ buf.new ++ drop (at + length buf.old)
        all.now }
{
    if buf.is_empty() {
        return true;
    }
    let at = at as usize;
    if all.len() < at || all.len() - at < buf.len() {
        return false;
    }
    buf.copy_from_slice(&all[at..at + buf.len()]);
    true
}

// Appends n bytes from this place on to the vector, which has capacity for them, or returns false
// if they are too few.
#[inline(always)]
fn append_at(all: &[u8], at: u64, bytes: &mut Vec<u8>, n: usize) -> bool
    requires { vec_len bytes.old + n ≤ vec_capacity bytes.old }
    ensures fits { IsTrue result → at + n < 2 ^ 64 }
    ensures short { IsFalse result → FewerThan n (Some (drop at all.now)) }
    ensures same { IsFalse result → bytes.new.items ≡ bytes.old.items }
    ensures bytes { IsTrue result → drop at all.now ≡ drop (vec_len bytes.old) bytes.new.items ++
        drop (at + n) all.now }
    ensures held { IsTrue result → take (vec_len bytes.old) bytes.new.items ≡ bytes.old.items }
    ensures count { IsTrue result → vec_len bytes.new ≡ vec_len bytes.old + n }
{
    if n == 0 {
        return true;
    }
    let at = at as usize;
    if all.len() < at || all.len() - at < n {
        return false;
    }
    bytes.extend_from_slice(&all[at..at + n]).is_ok()
}
