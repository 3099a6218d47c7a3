//! Laws of the numbers that fields hold. Each law is the postcondition of an empty function.

ghost use Rattle.deku_num.specs.NumberCalls.{SizeLaw};
ghost use Rattle.deku_num.specs.NumberLaws.{FieldLaw, TypeLaw, ByteLaw, SplitLaw, GroupLaw, BitLaw};
ghost use Rattle.deku_num.specs.NumberLaws.{ResidueLaw};
ghost use Rattle.deku_num.specs.Rows.{RecordRows, NumberRows, PartRows, FitRows};

/// The values that fit a field, whose layout is not rejected, are those in range. Each has exactly
/// one list of bits.
pub fn field_law()
    ensures { FieldLaw }
{}

/// What a field reads, under a layout that is not rejected, is a value of its type, if the type has
/// whole bytes.
pub fn type_law()
    ensures { TypeLaw }
{}

/// A value of a type of whole bytes is written under a layout of its whole size, such as `()`, as
/// exactly the bits of its type.
pub fn size_law()
    ensures { SizeLaw }
{}

/// In whole bytes, each number below two to the width has exactly one list of bits, in every endian
/// and order.
pub fn byte_law()
    ensures { ByteLaw }
{}

/// The number of whole groups of eight bits and the bits after them, from the numbers of both.
pub fn split_law()
    ensures { SplitLaw }
{}

/// The number of a single group is the group's own number.
pub fn group_law()
    ensures { GroupLaw }
{}

/// Each bit of the list is a bit of the number, at a known place.
pub fn bit_law()
    ensures { BitLaw }
{}

/// A value modulo two to a width is below two to the width, and differs from the value by a
/// multiple of it.
pub fn residue_law()
    ensures { ResidueLaw }
{}

/// Worked examples of records of several numbers, read and written.
pub fn record_rows()
    ensures { RecordRows }
{}

/// Worked examples of single numbers, read and written.
pub fn number_rows()
    ensures { NumberRows }
{}

/// Worked examples of numbers that leave unread bits, and of an order that changes inside a byte.
pub fn part_rows()
    ensures { PartRows }
{}

/// Worked examples of layouts that are rejected, and of values that do not fit.
pub fn fit_rows()
    ensures { FitRows }
{}
