//! Records with dependent fields, and enums with ids.

ghost use Rattle.std.specs.Prelude.{Result};
ghost use Rattle.deku_bits.specs.declared.error.DekuError.{DekuError as Refusal};

use deku_bits::error::DekuError;

/// A record in which some parts follow from others, such as a field that counts the items of
/// another field.
pub trait DekuUpdate {
    // What an update of a value may return, and the value that it leaves.
    ghost updates: { Self → Result (Unit {0}) Refusal → Self → Type 0 };

    /// Updates the parts that follow from others. The type states when this fails, and what is left
    /// then.
    ///
    /// ```text
    /// record.payload.push(7)?;
    /// record.update()?;                                       // `record.length` is one more
    /// ```
    fn update(&mut self) -> Result<(), DekuError>
        ensures { updates self.old result self.new };
}

/// An enum whose variants have ids in the stream.
pub trait DekuEnumExt<T> {
    // The result for a value: its id, or why it has none.
    ghost has_id: { Self → Result T Refusal → Type 0 };

    /// The id of the variant. The type states when this fails.
    ///
    /// ```text
    /// Shape::Circle { radius: 3 }.deku_id()?                  // 1
    /// ```
    fn deku_id(&self) -> Result<T, DekuError>
        ensures { has_id self.now result };
}
