//! The types of whole numbers.

ghost use Rattle.std.specs.Prelude.{◌≡◌};
ghost use Rattle.deku_num.specs.Numbers.{byte, unsigned, signed};

/// A type of whole numbers.
#[derive(Debug, Clone, Copy, PartialEq, Eq)]
pub struct NumberType {
    /// How many bits it has.
    pub bits: usize,
    /// Whether it is signed.
    pub signed: bool,
    /// Whether any byte size means one byte, as only for `u8`.
    pub one_byte: bool,
}

impl NumberType {
    /// The type `u8`.
    pub const U8: NumberType = NumberType {
        bits: 8,
        signed: false,
        one_byte: true,
    };

    /// The type `u16`.
    pub const U16: NumberType = NumberType {
        bits: 16,
        signed: false,
        one_byte: false,
    };

    /// The type `u32`.
    pub const U32: NumberType = NumberType {
        bits: 32,
        signed: false,
        one_byte: false,
    };

    /// The type `u64`.
    pub const U64: NumberType = NumberType {
        bits: 64,
        signed: false,
        one_byte: false,
    };

    /// The type `u128`.
    pub const U128: NumberType = NumberType {
        bits: 128,
        signed: false,
        one_byte: false,
    };

    /// The type `usize`, of 64 bits.
    pub const USIZE: NumberType = NumberType {
        bits: 64,
        signed: false,
        one_byte: false,
    };

    /// The type `i8`.
    pub const I8: NumberType = NumberType {
        bits: 8,
        signed: true,
        one_byte: false,
    };

    /// The type `i16`.
    pub const I16: NumberType = NumberType {
        bits: 16,
        signed: true,
        one_byte: false,
    };

    /// The type `i32`.
    pub const I32: NumberType = NumberType {
        bits: 32,
        signed: true,
        one_byte: false,
    };

    /// The type `i64`.
    pub const I64: NumberType = NumberType {
        bits: 64,
        signed: true,
        one_byte: false,
    };

    /// The type `i128`.
    pub const I128: NumberType = NumberType {
        bits: 128,
        signed: true,
        one_byte: false,
    };

    /// The type `isize`, of 64 bits.
    pub const ISIZE: NumberType = NumberType {
        bits: 64,
        signed: true,
        one_byte: false,
    };
}

/// Each constant is equal to the definition of its type.
pub fn type_words()
    ensures is_u8 { NumberType.U8 ≡ byte }
    ensures is_u16 { NumberType.U16 ≡ unsigned 16 }
    ensures is_u32 { NumberType.U32 ≡ unsigned 32 }
    ensures is_u64 { NumberType.U64 ≡ unsigned 64 }
    ensures is_u128 { NumberType.U128 ≡ unsigned 128 }
    ensures is_usize { NumberType.USIZE ≡ unsigned 64 }
    ensures is_i8 { NumberType.I8 ≡ signed 8 }
    ensures is_i16 { NumberType.I16 ≡ signed 16 }
    ensures is_i32 { NumberType.I32 ≡ signed 32 }
    ensures is_i64 { NumberType.I64 ≡ signed 64 }
    ensures is_i128 { NumberType.I128 ≡ signed 128 }
    ensures is_isize { NumberType.ISIZE ≡ signed 64 }
{}
