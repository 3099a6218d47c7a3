//! The numbers that C gets for what happened.

ghost use Rattle.std.specs.Prelude.{◌≡◌};
ghost use Rattle.deku_c.specs.Calls.{status_of as status_in};

use deku::error::DekuError;

/// All went well.
pub const OK: u32 = 0;
/// A field has a number that the header does not name.
pub const UNNAMED: u32 = 1;
/// There are not as many numbers as fields.
pub const MISCOUNTED: u32 = 2;
/// A field's size is beyond its kind, or its layout is rejected, or the bits cannot be counted.
pub const INVALID_PARAM: u32 = 5;

/// The number of an error.
pub fn status_of(error: DekuError) -> u32
    ensures { result ≡ status_in error }
{
    match error {
        DekuError::Incomplete(_) => 3,
        DekuError::Parse(_) => 4,
        DekuError::InvalidParam(_) => INVALID_PARAM,
        DekuError::Assertion(_) => 6,
        DekuError::IdVariantNotFound => 7,
        DekuError::Io(_) => 8,
    }
}
