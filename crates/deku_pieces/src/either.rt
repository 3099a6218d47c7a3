//! Values that an id chooses: the parts of enums.

/// The value of the id `ID`. Under any other id reading fails with `IdVariantNotFound`, and nothing
/// moves.
///
/// ```text
/// type Stop = Kind<(), 3>;                                    // nothing under 3
/// ```
#[derive(Debug, PartialEq, Eq, Drop)]
pub struct Kind<A, const ID: u64>(pub A);

/// The value of any id from `LOW` to `HIGH`, which keeps the id. Under any other id reading fails
/// with `IdVariantNotFound`, and nothing moves.
///
/// ```text
/// type Private = InRange<Be<u32>, 0xF0, 0xFE>;                // a number under 240 to 254
/// ```
#[derive(Debug, PartialEq, Eq, Drop)]
pub struct InRange<A, const LOW: u64, const HIGH: u64> {
    /// The id.
    pub id: u64,
    /// The value.
    pub value: A,
}

/// The value of any id, which keeps the id. As the last of several kinds it catches the ids that no
/// kind before it has.
///
/// ```text
/// type Kinds = Either<Kind<Be<u16>, 1>, Otherwise<Be<u16>>>; // a number under 1, and under others
/// ```
pub type Otherwise<A> = InRange<A, 0, 0xFFFF_FFFF_FFFF_FFFF>;

/// One of two kinds of values. It is the first kind if that has the id, and otherwise the second.
/// Each of them may be a choice again.
///
/// ```text
/// type Kinds = Either<Kind<Be<u16>, 2>, Kind<(), 3>>;         // a number under 2, nothing under 3
/// ```
#[derive(Debug, PartialEq, Eq, Drop)]
pub enum Either<A, B> {
    /// A value of the first kind.
    This(A),
    /// A value of the second kind.
    Other(B),
}
