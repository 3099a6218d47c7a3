//! A list of bits in a fixed number of bytes.

ghost use Rattle.std.specs.Prelude.{◌≡◌, ◌↔◌, ℕ, ◌+◌, ◌-◌, ◌*◌, ◌^◌};
ghost use Rattle.std.specs.Prelude.{◌<◌, ◌≤◌, [], ◌∷◌, ◌++◌, length, take};
ghost use Rattle.std.specs.Prelude.{drop, replicate, false, IsTrue, slice_get, slice_set};
ghost use Rattle.std.specs.Prelude.{slice_index_or};
ghost use Rattle.deku_stream.specs.Bits.{byte_bits, bits_in};
ghost use Rattle.deku_device.specs.Overlays.{overlaid};

use std::marker::Model;

/// A list of at most `8 * N` bits, the high bit first, packed into `N` bytes. No call takes memory,
/// and none fails.
///
/// ```text
/// let mut bits: BoundedBitVec<2> = BoundedBitVec::from_bits(&[true, false, true]);
/// bits.push(true);                          // 1, 0, 1, 1
/// let rest = bits.split_off(1);             // 1 stays; 0, 1, 1 are split off
/// bits.as_raw_slice()                       // [0x80, 0x00]
/// ```
#[derive(Debug, Clone, Drop)]
pub struct BoundedBitVec<const N: usize> {
    bytes: [u8; N],
    len: usize,
}

impl<const N: usize> Model for BoundedBitVec<N> {
    ghost use Rattle.std.specs.Prelude.{List, Bool, take, drop, replicate, false, ◌≡◌, ◌≤◌, ◌<◌, ◌-◌, ◌*◌, ◌^◌};
    ghost use Rattle.deku_stream.specs.Bits.{bits_in};

    ghost Value = { List Bool };

    ghost view = { λ v. take v.len (bits_in v.bytes) };

    ghost invariant = { λ v. (v.len ≤ 8 * N) × (8 * N < 2 ^ 64)
        × (drop v.len (bits_in v.bytes) ≡ replicate (8 * N - v.len) false) };
}

impl<const N: usize> BoundedBitVec<N> {
    /// An empty list.
    ///
    /// The caller's condition: `8 * N` fits a `usize`.
    ///
    /// ```text
    /// let bits: BoundedBitVec<1> = BoundedBitVec::new();         // room for eight bits
    /// ```
    pub fn new() -> Self
        requires { 8 * N < 2 ^ 64 }
        ensures { result ≡ [] }
    {
        BoundedBitVec {
            bytes: [0; N],
            len: 0,
        }
    }

    /// A list of these bits.
    ///
    /// The caller's condition: they are at most `8 * N`, which fits a `usize`.
    ///
    /// ```text
    /// let bits: BoundedBitVec<1> = BoundedBitVec::from_bits(&[true, false, true]);
    /// bits.as_raw_slice()                                        // A0
    /// ```
    pub fn from_bits(bits: &[bool]) -> Self
        requires size { 8 * N < 2 ^ 64 }
        requires room { length bits.now ≤ 8 * N }
        ensures { result ≡ bits.now }
    {
        let mut bytes = [0; N];
        put_bits(&mut bytes, 0, bits);
        BoundedBitVec {
            bytes,
            len: bits.len(),
        }
    }

    /// A list of all bits of these bytes.
    ///
    /// The caller's condition: `8 * N` fits a `usize`.
    ///
    /// ```text
    /// let bits = BoundedBitVec::from_array([0xA0]);
    /// bits.len()                                                 // 8
    /// ```
    pub fn from_array(bytes: [u8; N]) -> Self
        requires { 8 * N < 2 ^ 64 }
        ensures { result ≡ bits_in bytes.entry }
    {
        let len = bit_count(&bytes);
        BoundedBitVec { bytes, len }
    }

    /// How many bits there are.
    ///
    /// ```text
    /// BoundedBitVec::from_array([0xA0, 0x01]).len()              // 16
    /// ```
    pub fn len(&self) -> usize
        ensures len { result ≡ length self.now }
        ensures room { result ≤ 8 * N }
    {
        self.len
    }

    /// Whether there are no bits.
    ///
    /// ```text
    /// BoundedBitVec::from_array([0xA0]).is_empty()               // false
    /// ```
    pub fn is_empty(&self) -> bool
        ensures { IsTrue result ↔ (length self.now ≡ 0) }
    {
        self.len == 0
    }

    /// Whether no bit can be added.
    ///
    /// ```text
    /// BoundedBitVec::from_array([0xA0]).is_full()                // true
    /// ```
    pub fn is_full(&self) -> bool
        ensures { IsTrue result ↔ (length self.now ≡ 8 * N) }
    {
        self.len == bit_count(&self.bytes)
    }

    /// How many bits there can be.
    ///
    /// ```text
    /// BoundedBitVec::from_array([0xA0, 0x01]).capacity()         // 16
    /// ```
    pub fn capacity(&self) -> usize
        ensures { result ≡ 8 * N }
    {
        bit_count(&self.bytes)
    }

    /// The bit at a place, if there is one.
    ///
    /// ```text
    /// BoundedBitVec::from_array([0xA0]).get(2)                   // Some(true); at 8 it is None
    /// ```
    pub fn get(&self, at: usize) -> Option<bool>
        ensures { result ≡ slice_get self.now at }
    {
        if at < self.len {
            Some(bit_at(&self.bytes, at))
        } else {
            None
        }
    }

    /// Appends a bit.
    ///
    /// The caller's condition: there is room.
    ///
    /// ```text
    /// bits.push(true);                                           // 1, 0 becomes 1, 0, 1
    /// ```
    pub fn push(&mut self, bit: bool)
        requires { length self.old < 8 * N }
        ensures { self.new ≡ self.old ++ bit ∷ [] }
    {
        put_bits(&mut self.bytes, self.len, &[bit]);
        self.len += 1;
    }

    /// Appends bits, one after the other.
    ///
    /// The caller's condition: there is room.
    ///
    /// ```text
    /// bits.extend(&[true, true]);                                // 1, 0 becomes 1, 0, 1, 1
    /// ```
    pub fn extend(&mut self, bits: &[bool])
        requires { length self.old + length bits.now ≤ 8 * N }
        ensures { self.new ≡ self.old ++ bits.now }
    {
        put_bits(&mut self.bytes, self.len, bits);
        self.len += bits.len();
    }

    /// Inserts a bit before the one at a place.
    ///
    /// The caller's conditions: there is a bit at the place, and there is room.
    ///
    /// ```text
    /// bits.insert(1, true);                                      // 1, 0 becomes 1, 1, 0
    /// ```
    pub fn insert(&mut self, at: usize, bit: bool)
        requires within { at < length self.old }
        requires room { length self.old < 8 * N }
        ensures { self.new ≡ take at self.old ++ bit ∷ drop at self.old }
    {
        insert_bit(&mut self.bytes, at, self.len, bit);
        self.len += 1;
    }

    /// Takes the bits from a place on, and leaves those before it.
    ///
    /// The caller's condition: there is a bit at the place.
    ///
    /// ```text
    /// let rest = bits.split_off(1);                       // 1, 0, 1 becomes 1, and rest is 0, 1
    /// ```
    pub fn split_off(&mut self, at: usize) -> Self
        requires { at < length self.old }
        ensures taken { result ≡ drop at self.old }
        ensures left { self.new ≡ take at self.old }
    {
        let len = self.len - at;
        let mut bytes = [0; N];
        copy_bits(&mut bytes, &self.bytes, at, len);
        clear_bits(&mut self.bytes, at, self.len);
        self.len = at;
        BoundedBitVec { bytes, len }
    }

    /// Removes all bits.
    ///
    /// ```text
    /// bits.clear();                                          // no bit is left, and the room stays
    /// ```
    pub fn clear(&mut self)
        ensures { self.new ≡ [] }
    {
        clear_bits(&mut self.bytes, 0, self.len);
        self.len = 0;
    }

    /// The `N` bytes: the bits, the high bit first, with zeros after them.
    ///
    /// ```text
    /// bits.as_raw_slice()                                        // of 1, 0, 1 in one byte: A0
    /// ```
    pub fn as_raw_slice(&self) -> &[u8]
        ensures count { length result.now ≡ N }
        ensures bits { bits_in result.now ≡ self.now ++ replicate (8 * N - length self.now) false }
    {
        &self.bytes
    }
}

// How many bits the bytes have.
fn bit_count<const N: usize>(bytes: &[u8; N]) -> usize
    requires { 8 * N < 2 ^ 64 }
    ensures bits { result ≡ 8 * N }
    ensures bytes { length bytes.now ≡ N }
{
    8 * bytes.len()
}

// The bit at a place of the bytes, the high bit first.
fn bit_at(bytes: &[u8], at: usize) -> bool
    requires { at < 8 * length bytes.now }
    ensures { result ≡ slice_index_or (bits_in bytes.now) at false }
{
    bit_of(bytes[at / 8], at % 8)
}

// Sets the bit at a place of the bytes, the high bit first.
fn put_bit(bytes: &mut [u8], at: usize, bit: bool)
    requires { at < 8 * length bytes.old }
    ensures len { length bytes.new ≡ length bytes.old }
    ensures bits { bits_in bytes.new ≡ slice_set (bits_in bytes.old) at bit }
{
    bytes[at / 8] = with_bit(bytes[at / 8], at % 8, bit);
}

// Overwrites the bits from a place on with these bits.
fn put_bits(bytes: &mut [u8], at: usize, bits: &[bool])
    requires room { at + length bits.now ≤ 8 * length bytes.old }
    requires fits { at + length bits.now < 2 ^ 64 }
    ensures len { length bytes.new ≡ length bytes.old }
    ensures bits { bits_in bytes.new ≡ overlaid (bits_in bytes.old) at bits.now }
{
    for (i, bit) in bits.iter().enumerate() {
        put_bit(bytes, at + i, *bit);
    }
}

// Overwrites the first bits with bits of other bytes, from a place of theirs on.
fn copy_bits(bytes: &mut [u8], source: &[u8], from: usize, count: usize)
    requires there { from + count ≤ 8 * length source.now }
    requires room { count ≤ 8 * length bytes.old }
    requires fits { from + count < 2 ^ 64 }
    ensures len { length bytes.new ≡ length bytes.old }
    ensures bits { bits_in bytes.new ≡ overlaid (bits_in bytes.old) 0
        (take count (drop from (bits_in source.now))) }
{
    for i in 0..count {
        put_bit(bytes, i, bit_at(source, from + i));
    }
}

// Overwrites the bits from one place to another with zeros.
fn clear_bits(bytes: &mut [u8], from: usize, to: usize)
    requires order { from ≤ to }
    requires room { to ≤ 8 * length bytes.old }
    ensures len { length bytes.new ≡ length bytes.old }
    ensures bits { bits_in bytes.new ≡ overlaid (bits_in bytes.old) from
        (replicate (to - from) false) }
{
    for i in 0..to - from {
        put_bit(bytes, from + i, false);
    }
}

// Overwrites the bit at a place with this one, and each bit from there on with the one before it,
// up to the place `len`.
fn insert_bit(bytes: &mut [u8], at: usize, len: usize, bit: bool)
    requires order { at ≤ len }
    requires room { len < 8 * length bytes.old }
    ensures len { length bytes.new ≡ length bytes.old }
    ensures bits { bits_in bytes.new ≡ overlaid (bits_in bytes.old) at
        (bit ∷ take (len - at) (drop at (bits_in bytes.old))) }
{
    let mut carried = bit;
    for i in 0..len - at {
        let next = bit_at(bytes, at + i);
        put_bit(bytes, at + i, carried);
        carried = next;
    }
    put_bit(bytes, len, carried);
}

// The weight of each bit of a byte, the high bit first.
const WEIGHTS: [u8; 8] = [128, 64, 32, 16, 8, 4, 2, 1];

// The bit at a place of a byte, the high bit first.
fn bit_of(byte: u8, place: usize) -> bool
    requires { place < 8 }
    ensures { result ≡ slice_index_or (byte_bits byte) place false }
{
    byte / WEIGHTS[place] % 2 == 1
}

// The byte with the bit at a place set, the high bit first.
fn with_bit(byte: u8, place: usize, bit: bool) -> u8
    requires { place < 8 }
    ensures { byte_bits result ≡ slice_set (byte_bits byte) place bit }
{
    if bit_of(byte, place) == bit {
        byte
    } else if bit {
        byte + WEIGHTS[place]
    } else {
        byte - WEIGHTS[place]
    }
}
