//! Laws of lists of fields. Each law is the postcondition of an empty function.

ghost use Rattle.deku_fields.specs.Cutting.{CutLaw, CutItemsLaw};
ghost use Rattle.deku_fields.specs.Cuts.{WriteCutLaw, WriteCallsLaw, WritePartsLaw, ReadCutLaw};
ghost use Rattle.deku_fields.specs.Cuts.{ReadCallsLaw, LookLaw, ReadPartsLaw};
ghost use Rattle.deku_fields.specs.Headline.{PieceLaw, LayoutLaw, ThereLaw, BackLaw, CallsLaw};
ghost use Rattle.deku_fields.specs.Places.{PlaceLaw};
ghost use Rattle.deku_fields.specs.Promise.{PaddedLaw, ReadBackLaw};
ghost use Rattle.deku_fields.specs.Rows.{ListRows, PromiseRows, TurnedRows, MisfitRows, CutRows};

/// Fitting items have exactly one list of pieces.
pub fn piece_law()
    ensures { PieceLaw }
{}

/// Fitting items lay out exactly one list of bytes.
pub fn layout_law()
    ensures { LayoutLaw }
{}

/// Aligned fitting items are written as their layout. Reading the layout gives their values and
/// leaves the bytes after it.
pub fn there_law()
    ensures { ThereLaw }
{}

/// Items that are written by `write_list`, and padded once by `finalize`, give the sink exactly
/// what they lay out, if it has the room, or the memory.
pub fn padded_law()
    ensures { PaddedLaw }
{}

/// Fields that are read by `read_list` or `read_list_into`, in one call or in several, from bytes
/// that begin with what aligned fitting items lay out, give exactly the items' values.
pub fn read_back_law()
    ensures { ReadBackLaw }
{}

/// What aligned fields read from a byte boundary is written as the bytes that were taken, with the
/// unread bits zero.
pub fn back_law()
    ensures { BackLaw }
{}

/// Fields may be read in several calls.
pub fn calls_law()
    ensures { CallsLaw }
{}

/// Two lists of items, written one after the other, are written as one list of both.
pub fn write_cut_law()
    ensures { WriteCutLaw }
{}

/// Items may be written in two calls. What these do, including the first error, one call may do
/// too.
pub fn write_calls_law()
    ensures { WriteCallsLaw }
{}

/// Items may be written in any number of calls.
pub fn write_parts_law()
    ensures { WritePartsLaw }
{}

/// Two lists of fields, read one after the other, are read as one list of both, with their values
/// joined.
pub fn read_cut_law()
    ensures { ReadCutLaw }
{}

/// Fields may be read in two calls. What these do, including the first error, one call may do too.
pub fn read_calls_law()
    ensures { ReadCallsLaw }
{}

/// A check whether the end of the input is reached changes no later read of fields.
pub fn look_law()
    ensures { LookLaw }
{}

/// Fields may be read in any number of calls, with any number of checks between them whether the
/// end of the input is reached.
pub fn read_parts_law()
    ensures { ReadPartsLaw }
{}

/// There is exactly one result of truncating a number to its field. Its bits are the lowest bits of
/// the number, as which it was written when each size in bytes still truncated.
pub fn cut_law()
    ensures { CutLaw }
{}

/// Items whose values are truncated have the pieces, and so the bytes, that the items had when each
/// size in bytes still truncated.
pub fn cut_items_law()
    ensures { CutItemsLaw }
{}

/// Each bit that aligned fitting items lay out is the bit of its item's value, or zero if it
/// belongs to no item.
pub fn place_law()
    ensures { PlaceLaw }
{}

/// Worked examples of lists of fields, read and written.
pub fn list_rows()
    ensures { ListRows }
{}

/// Worked examples of what the promises of list calls require.
pub fn promise_rows()
    ensures { PromiseRows }
{}

/// A worked example of a list whose order changes inside a byte.
pub fn turned_rows()
    ensures { TurnedRows }
{}

/// Worked examples of items that do not fit.
pub fn misfit_rows()
    ensures { MisfitRows }
{}

/// Worked examples of numbers that are truncated to bytes.
pub fn cut_rows()
    ensures { CutRows }
{}
