//! Types whose values all take the same number of bits.

ghost use Rattle.std.specs.Prelude.{◌≡◌, ℕ, Option, Some, refl};
ghost use Rattle.deku_num.specs.Sizes.{within_usize, eighth, bits_times};

mod shapes;

/// A type whose values all take the same number of bits, if this is known.
pub trait DekuSize {
    ghost bits: { Option ℕ };

    /// The number of bits that each value takes. `None` if it is not known or does not fit a
    /// `usize`.
    ///
    /// ```text
    /// <(u8, [u16; 3])>::size_bits()                              // Some(56)
    /// ```
    fn size_bits() -> Option<usize>
        ensures { result ≡ within_usize bits };

    /// The number of bytes that each value takes. `None` if the bits are not known, do not fit a
    /// `usize` or are not whole bytes.
    ///
    /// ```text
    /// <(u8, [u16; 3])>::size_bytes()                             // Some(7)
    /// ```
    final fn size_bytes() -> Option<usize>
        ensures { result ≡ eighth (within_usize bits) }
    {
        match Self::size_bits() {
            Some(bits) if bits % 8 == 0 => Some(bits / 8),
            _ => None,
        }
    }
}

/// A type whose size is a constant.
pub trait DekuSizeConst: DekuSize {
    ghost SIZE_BITS: { ℕ };

    ghost SIZE_BYTES: { Option ℕ };

    ghost bits_known: { within_usize Self.bits ≡ Some SIZE_BITS };

    ghost bytes_known: { eighth (within_usize Self.bits) ≡ SIZE_BYTES };

    /// The number of bits that each value takes.
    const SIZE_BITS: usize;

    /// The number of bytes that each value takes. `None` if the bits are not whole bytes.
    const SIZE_BYTES: Option<usize>;
}

impl DekuSize for u8 {
    ghost bits = { Some 8 };

    fn size_bits() -> Option<usize> {
        Some(u8::BITS as usize)
    }
}

impl DekuSizeConst for u8 {
    ghost SIZE_BITS = { 8 };

    ghost SIZE_BYTES = { Some 1 };

    ghost bits_known = { refl };

    ghost bytes_known = { refl };

    const SIZE_BITS: usize = 8;

    const SIZE_BYTES: Option<usize> = Some(1);
}

impl DekuSize for u16 {
    ghost bits = { Some 16 };

    fn size_bits() -> Option<usize> {
        Some(u16::BITS as usize)
    }
}

impl DekuSizeConst for u16 {
    ghost SIZE_BITS = { 16 };

    ghost SIZE_BYTES = { Some 2 };

    ghost bits_known = { refl };

    ghost bytes_known = { refl };

    const SIZE_BITS: usize = 16;

    const SIZE_BYTES: Option<usize> = Some(2);
}

impl DekuSize for u32 {
    ghost bits = { Some 32 };

    fn size_bits() -> Option<usize> {
        Some(u32::BITS as usize)
    }
}

impl DekuSizeConst for u32 {
    ghost SIZE_BITS = { 32 };

    ghost SIZE_BYTES = { Some 4 };

    ghost bits_known = { refl };

    ghost bytes_known = { refl };

    const SIZE_BITS: usize = 32;

    const SIZE_BYTES: Option<usize> = Some(4);
}

impl DekuSize for u64 {
    ghost bits = { Some 64 };

    fn size_bits() -> Option<usize> {
        Some(u64::BITS as usize)
    }
}

impl DekuSizeConst for u64 {
    ghost SIZE_BITS = { 64 };

    ghost SIZE_BYTES = { Some 8 };

    ghost bits_known = { refl };

    ghost bytes_known = { refl };

    const SIZE_BITS: usize = 64;

    const SIZE_BYTES: Option<usize> = Some(8);
}

impl DekuSize for u128 {
    ghost bits = { Some 128 };

    fn size_bits() -> Option<usize> {
        Some(u128::BITS as usize)
    }
}

impl DekuSizeConst for u128 {
    ghost SIZE_BITS = { 128 };

    ghost SIZE_BYTES = { Some 16 };

    ghost bits_known = { refl };

    ghost bytes_known = { refl };

    const SIZE_BITS: usize = 128;

    const SIZE_BYTES: Option<usize> = Some(16);
}

impl DekuSize for usize {
    ghost bits = { Some 64 };

    fn size_bits() -> Option<usize> {
        Some(usize::BITS as usize)
    }
}

impl DekuSizeConst for usize {
    ghost SIZE_BITS = { 64 };

    ghost SIZE_BYTES = { Some 8 };

    ghost bits_known = { refl };

    ghost bytes_known = { refl };

    const SIZE_BITS: usize = 64;

    const SIZE_BYTES: Option<usize> = Some(8);
}

impl DekuSize for i8 {
    ghost bits = { Some 8 };

    fn size_bits() -> Option<usize> {
        Some(i8::BITS as usize)
    }
}

impl DekuSizeConst for i8 {
    ghost SIZE_BITS = { 8 };

    ghost SIZE_BYTES = { Some 1 };

    ghost bits_known = { refl };

    ghost bytes_known = { refl };

    const SIZE_BITS: usize = 8;

    const SIZE_BYTES: Option<usize> = Some(1);
}

impl DekuSize for i16 {
    ghost bits = { Some 16 };

    fn size_bits() -> Option<usize> {
        Some(i16::BITS as usize)
    }
}

impl DekuSizeConst for i16 {
    ghost SIZE_BITS = { 16 };

    ghost SIZE_BYTES = { Some 2 };

    ghost bits_known = { refl };

    ghost bytes_known = { refl };

    const SIZE_BITS: usize = 16;

    const SIZE_BYTES: Option<usize> = Some(2);
}

impl DekuSize for i32 {
    ghost bits = { Some 32 };

    fn size_bits() -> Option<usize> {
        Some(i32::BITS as usize)
    }
}

impl DekuSizeConst for i32 {
    ghost SIZE_BITS = { 32 };

    ghost SIZE_BYTES = { Some 4 };

    ghost bits_known = { refl };

    ghost bytes_known = { refl };

    const SIZE_BITS: usize = 32;

    const SIZE_BYTES: Option<usize> = Some(4);
}

impl DekuSize for i64 {
    ghost bits = { Some 64 };

    fn size_bits() -> Option<usize> {
        Some(i64::BITS as usize)
    }
}

impl DekuSizeConst for i64 {
    ghost SIZE_BITS = { 64 };

    ghost SIZE_BYTES = { Some 8 };

    ghost bits_known = { refl };

    ghost bytes_known = { refl };

    const SIZE_BITS: usize = 64;

    const SIZE_BYTES: Option<usize> = Some(8);
}

impl DekuSize for i128 {
    ghost bits = { Some 128 };

    fn size_bits() -> Option<usize> {
        Some(i128::BITS as usize)
    }
}

impl DekuSizeConst for i128 {
    ghost SIZE_BITS = { 128 };

    ghost SIZE_BYTES = { Some 16 };

    ghost bits_known = { refl };

    ghost bytes_known = { refl };

    const SIZE_BITS: usize = 128;

    const SIZE_BYTES: Option<usize> = Some(16);
}

impl DekuSize for isize {
    ghost bits = { Some 64 };

    fn size_bits() -> Option<usize> {
        Some(isize::BITS as usize)
    }
}

impl DekuSizeConst for isize {
    ghost SIZE_BITS = { 64 };

    ghost SIZE_BYTES = { Some 8 };

    ghost bits_known = { refl };

    ghost bytes_known = { refl };

    const SIZE_BITS: usize = 64;

    const SIZE_BYTES: Option<usize> = Some(8);
}

/// The bits of an item, times the number of items. An array of no items takes no bits, even if
/// those of an item are not known.
impl<T: DekuSize, const N: usize> DekuSize for [T; N] {
    ghost bits = { bits_times N T.bits };

    fn size_bits() -> Option<usize> {
        if N == 0 {
            return Some(0);
        }
        match T::size_bits() {
            Some(bits) => bits.checked_mul(N),
            None => None,
        }
    }
}
