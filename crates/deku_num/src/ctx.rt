//! How a whole number is laid out in a stream: its byte order, its bit order and its size.

ghost use Rattle.std.specs.Prelude.{◌≡◌, ◌↔◌, IsTrue, option_map};
ghost use Rattle.deku_num.specs.Sizes.{within_usize};
ghost use Rattle.deku_num.specs.declared.ctx.Endian.TheVariants.{Little};
ghost use Rattle.deku_num.specs.Contexts.{IsEndianNamed};
ghost use Rattle.deku_num.specs.declared.ctx.Layout.{Layout};
ghost use Rattle.deku_bits.specs.declared.ctx.Order.TheVariants.{Msb0};
ghost use Rattle.deku_num.specs.declared.ctx.Size.TheVariants.{Whole, Bytes, Bits};

use crate::size::DekuSize;
pub use deku_bits::ctx::Order;
use std::str::FromStr;

/// The order of a number's groups of eight bits.
#[derive(Debug, Clone, Copy, PartialEq, Eq)]
pub enum Endian {
    /// The first group has the lowest bits.
    Little,
    /// The first group has the highest bits.
    Big,
}

impl Endian {
    /// Little, which is used if no endian is given.
    pub fn new() -> Endian
        ensures { result ≡ Endian.Little }
    {
        Endian::Little
    }

    /// Whether the first group has the lowest bits.
    ///
    /// ```text
    /// Endian::Little.is_le()                                     // true
    /// ```
    pub fn is_le(self) -> bool
        ensures { IsTrue result ↔ (self ≡ Endian.Little) }
    {
        matches!(self, Endian::Little)
    }

    /// Whether the first group has the highest bits.
    ///
    /// ```text
    /// Endian::Big.is_be()                                        // true
    /// ```
    pub fn is_be(self) -> bool
        ensures { IsTrue result ↔ (self ≡ Endian.Big) }
    {
        matches!(self, Endian::Big)
    }
}

/// Little.
impl Default for Endian {
    ghost is_default = { λ endian. endian ≡ Little };

    fn default() -> Endian {
        Endian::new()
    }
}

/// The error for a text that is neither `little` nor `big`.
#[derive(Debug, Clone, Copy, PartialEq, Eq)]
pub struct ParseEndianError {}

/// Parses `little` or `big`. Any other text fails with `ParseEndianError`.
impl FromStr for Endian {
    type Err = ParseEndianError;

    ghost from_str_gives = { IsEndianNamed };

    fn from_str(text: &str) -> Result<Endian, ParseEndianError> {
        match text {
            "little" => Ok(Endian::Little),
            "big" => Ok(Endian::Big),
            _ => Err(ParseEndianError {}),
        }
    }
}

/// How many bits a number takes. It is a context too.
#[derive(Debug, Clone, Copy, PartialEq, Eq)]
pub enum Size {
    /// All bits of its type.
    Whole,
    /// This many bits.
    Bits(usize),
    /// This many bytes. For `u8` any number of bytes means one.
    Bytes(usize),
}

/// How a number is laid out in a stream. It is a context too.
#[derive(Debug, Clone, Copy, PartialEq, Eq)]
pub struct Layout {
    /// The order of its groups of eight bits.
    pub endian: Endian,
    /// The order in which its bits are taken.
    pub order: Order,
    /// How many bits it takes.
    pub size: Size,
}

/// The size of a context: a number takes this many bytes.
#[derive(Debug, Clone, Copy, PartialEq, Eq, PartialOrd, Ord)]
pub struct ByteSize(pub usize);

/// The size of a context: a number takes this many bits.
#[derive(Debug, Clone, Copy, PartialEq, Eq, PartialOrd, Ord)]
pub struct BitSize(pub usize);

impl BitSize {
    /// The number of bits that each value of the type takes. `None` if it is not known or does not
    /// fit a `usize`.
    ///
    /// ```text
    /// BitSize::of::<(u8, [u16; 3])>()                            // Some(BitSize(56))
    /// ```
    pub fn of<T: DekuSize>() -> Option<BitSize>
        ensures { result ≡ option_map (λ n. record { 0 = n }) (within_usize T.bits) }
    {
        T::size_bits().map(BitSize)
    }
}

/// A context of a number that is read or written. It can have a byte order, a bit order and a size.
/// Without a byte order the number is little, without a bit order `Msb0`, and without a size it
/// takes all bits of its type.
pub trait NumberCtx: Copy {
    ghost layout_of: { Self → Layout };

    /// The layout that the context means.
    ///
    /// ```text
    /// (Endian::Big, BitSize(4)).parts()                          // big, `Msb0`, four bits
    /// ```
    fn parts(self) -> Layout
        ensures { result ≡ layout_of self };
}

/// The layout itself.
impl NumberCtx for Layout {
    ghost layout_of = { λ c. c };

    fn parts(self) -> Layout {
        Layout {
            endian: self.endian,
            order: self.order,
            size: self.size,
        }
    }
}

/// Little, `Msb0`, all bits.
impl NumberCtx for () {
    ghost layout_of = { λ _. record { endian = Little; order = Msb0; size = Whole } };

    fn parts(self) -> Layout {
        Endian::default().parts()
    }
}

/// `Msb0`, all bits.
impl NumberCtx for Endian {
    ghost layout_of = { λ c. record { endian = c; order = Msb0; size = Whole } };

    fn parts(self) -> Layout {
        Layout {
            endian: self,
            order: Order::Msb0,
            size: Size::Whole,
        }
    }
}

/// Little, all bits.
impl NumberCtx for Order {
    ghost layout_of = { λ c. record { endian = Little; order = c; size = Whole } };

    fn parts(self) -> Layout {
        Layout {
            endian: Endian::Little,
            order: self,
            size: Size::Whole,
        }
    }
}

/// Little, `Msb0`.
impl NumberCtx for Size {
    ghost layout_of = { λ c. record { endian = Little; order = Msb0; size = c } };

    fn parts(self) -> Layout {
        Layout {
            endian: Endian::Little,
            order: Order::Msb0,
            size: self,
        }
    }
}

/// Little, `Msb0`, this many bytes.
impl NumberCtx for ByteSize {
    ghost layout_of = { λ c. record { endian = Little; order = Msb0; size = Bytes c.0 } };

    fn parts(self) -> Layout {
        Layout {
            endian: Endian::Little,
            order: Order::Msb0,
            size: Size::Bytes(self.0),
        }
    }
}

/// Little, `Msb0`, this many bits.
impl NumberCtx for BitSize {
    ghost layout_of = { λ c. record { endian = Little; order = Msb0; size = Bits c.0 } };

    fn parts(self) -> Layout {
        Layout {
            endian: Endian::Little,
            order: Order::Msb0,
            size: Size::Bits(self.0),
        }
    }
}

/// All bits.
impl NumberCtx for (Endian, Order) {
    ghost layout_of = { λ c. record { endian = c.0; order = c.1; size = Whole } };

    fn parts(self) -> Layout {
        let (endian, order) = self;
        Layout {
            endian,
            order,
            size: Size::Whole,
        }
    }
}

/// `Msb0`, this many bytes.
impl NumberCtx for (Endian, ByteSize) {
    ghost layout_of = { λ c. record { endian = c.0; order = Msb0; size = Bytes c.1.0 } };

    fn parts(self) -> Layout {
        let (endian, ByteSize(bytes)) = self;
        Layout {
            endian,
            order: Order::Msb0,
            size: Size::Bytes(bytes),
        }
    }
}

/// `Msb0`, this many bits.
impl NumberCtx for (Endian, BitSize) {
    ghost layout_of = { λ c. record { endian = c.0; order = Msb0; size = Bits c.1.0 } };

    fn parts(self) -> Layout {
        let (endian, BitSize(bits)) = self;
        Layout {
            endian,
            order: Order::Msb0,
            size: Size::Bits(bits),
        }
    }
}

/// Little, this many bits.
impl NumberCtx for (BitSize, Order) {
    ghost layout_of = { λ c. record { endian = Little; order = c.1; size = Bits c.0.0 } };

    fn parts(self) -> Layout {
        let (BitSize(bits), order) = self;
        Layout {
            endian: Endian::Little,
            order,
            size: Size::Bits(bits),
        }
    }
}

/// This many bits.
impl NumberCtx for (Endian, BitSize, Order) {
    ghost layout_of = { λ c. record { endian = c.0; order = c.2; size = Bits c.1.0 } };

    fn parts(self) -> Layout {
        let (endian, BitSize(bits), order) = self;
        Layout {
            endian,
            order,
            size: Size::Bits(bits),
        }
    }
}

/// This many bytes.
impl NumberCtx for (Endian, ByteSize, Order) {
    ghost layout_of = { λ c. record { endian = c.0; order = c.2; size = Bytes c.1.0 } };

    fn parts(self) -> Layout {
        let (endian, ByteSize(bytes), order) = self;
        Layout {
            endian,
            order,
            size: Size::Bytes(bytes),
        }
    }
}
