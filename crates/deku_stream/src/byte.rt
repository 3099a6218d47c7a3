//! The bits of one byte, for the crates `deku_reader` and `deku_writer`.

ghost use Rattle.std.specs.Prelude.{◌≡◌};
ghost use Rattle.deku_stream.specs.Bits.{byte_bits};

/// The eight bits of a byte, the high bit first.
///
/// ```text
/// bits_of_byte(0xA0)                                             // 1, 0, 1, 0, 0, 0, 0, 0
/// ```
#[tactic(auto, unfolding(crate::specs::Bits::byte_bits, crate::specs::Bits::bits_of))]
pub fn bits_of_byte(byte: u8) -> [bool; 8]
    ensures { result ≡ byte_bits byte }
{
    [
        byte / 128 % 2 == 1,
        byte / 64 % 2 == 1,
        byte / 32 % 2 == 1,
        byte / 16 % 2 == 1,
        byte / 8 % 2 == 1,
        byte / 4 % 2 == 1,
        byte / 2 % 2 == 1,
        byte / 1 % 2 == 1,
    ]
}
