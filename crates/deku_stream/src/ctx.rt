//! The order of bits.

ghost use Rattle.std.specs.Prelude.{◌≡◌};
ghost use Rattle.deku_stream.specs.declared.ctx.Order.TheVariants.{Msb0};

/// The order in which the bits of a byte are taken: from the high bit down, or from the low bit up.
#[derive(Debug, Clone, Copy, PartialEq, Eq)]
pub enum Order {
    /// The most significant bit first.
    Msb0,
    /// The least significant bit first.
    Lsb0,
}

/// `Msb0`.
impl Default for Order {
    ghost is_default = { λ order. order ≡ Msb0 };

    fn default() -> Order {
        Order::Msb0
    }
}
