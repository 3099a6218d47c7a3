//! The numbers that C gets for what happened.

ghost use Rattle.std.specs.Prelude.{◌≡◌};
ghost use Rattle.deku_c_records.specs.Statuses.{status_of as status_in};

use deku::error::DekuError;

/// All went well.
pub const OK: u32 = 0;

/// The number of an error.
///
/// ```text
/// status_of(DekuError::IdVariantNotFound)                     // 7
/// ```
pub fn status_of(error: DekuError) -> u32
    ensures { result ≡ status_in error }
{
    match error {
        DekuError::Incomplete(_) => 3,
        DekuError::Parse(_) => 4,
        DekuError::InvalidParam(_) => 5,
        DekuError::Assertion(_) => 6,
        DekuError::IdVariantNotFound => 7,
        DekuError::Io(_) => 8,
    }
}
