//! Signed numbers whose low bits are stored apart from their high bits, as in the immediates of
//! instruction words.

ghost use Rattle.std.specs.Prelude.{◌≡◌, ◌<◌, ◌≤◌, ◌^◌};
ghost use Rattle.deku_pieces.specs.Scattered.{low_of, high_of, joined_of};

/// The lowest bits of a number, in two's complement.
///
/// The caller's condition: at most 30 bits.
///
/// ```text
/// low_bits(-2, 5)                                             // 30
/// ```
pub fn low_bits(value: i32, bits: u32) -> u32
    requires { bits ≤ 30 }
    ensures { result ≡ low_of bits value }
{
    let unit = 1u32 << bits;
    if value >= 0 {
        value as u32 % unit
    } else {
        unit - 1 - (value.unsigned_abs() - 1) % unit
    }
}

/// The bits of a number above its lowest ones, as a signed number.
///
/// The caller's condition: at most 30 of the lowest bits are dropped.
///
/// ```text
/// high_bits(-2, 5)                                            // -1
/// ```
pub fn high_bits(value: i32, bits: u32) -> i32
    requires { bits ≤ 30 }
    ensures { result ≡ high_of bits value }
{
    let unit = 1u32 << bits;
    if value >= 0 {
        (value as u32 / unit) as i32
    } else {
        -(((value.unsigned_abs() - 1) / unit) as i32) - 1
    }
}
