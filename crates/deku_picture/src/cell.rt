//! Cells: runs of neighbouring places that belong together.

ghost use Rattle.std.specs.Prelude.{◌≡◌, ◌↔◌, ◌+◌, ◌∷◌, IsTrue, IfOk};
ghost use Rattle.deku_picture.specs.Cells.{Extends, AreCells, AreRows, places_in};

use deku_fields::Place;
use std::alloc::{AllocError, Global};

/// The most places of a row: four bytes.
pub const PLACES_IN_ROW: usize = 32;

/// A run of neighbouring places: padding, or bits of one field of which each counts half of the one
/// before it.
#[derive(Debug, Clone, Copy, PartialEq, Eq)]
pub struct Cell {
    /// The first place, which is the highest bit of the run. `None` for padding.
    pub first: Option<Place>,
    /// How many places it has, in bits.
    pub width: usize,
}

impl Cell {
    // Whether this run continues with a place.
    fn is_continued_by(&self, place: Option<Place>) -> bool
        ensures { IsTrue result ↔ Extends self.now.width self.now.first place }
    {
        match (self.first, place) {
            (None, None) => true,
            (Some(first), Some(next)) => is_lower(first, next, self.width),
            _ => false,
        }
    }
}

// Whether a bit is of the same field as another, and `by` bits lower.
fn is_lower(first: Place, next: Place, by: usize) -> bool
    ensures { IsTrue result ↔ ((first.field ≡ next.field) × (first.bit ≡ next.bit + by)) }
{
    if first.field != next.field || first.bit < next.bit {
        return false;
    }
    first.bit - next.bit == by
}

/// The cells of the places of a row, from left to right, each as long as possible. Put one after
/// the other they are these places again. It fails if there is no memory for them.
///
/// ```text
/// // twelve bits, little and `Msb0`, and four bits of padding
/// cells(alloc, &picture)?        // bits 7 to 0, bits 11 to 8, padding
/// ```
pub fn cells(alloc: Global, row: &[Option<Place>]) -> Result<Vec<Cell>, AllocError>
    ensures { IfOk result (λ v. AreCells row.now v.items) }
{
    match row.split_first() {
        Some((first, rest)) => joined(alloc, *first, rest),
        None => Ok(Vec::new(alloc)),
    }
}

// The cells of a place and of those after it.
fn joined(
    alloc: Global,
    first: Option<Place>,
    rest: &[Option<Place>],
) -> Result<Vec<Cell>, AllocError>
    ensures { IfOk result (λ v. AreCells (first ∷ rest.now) v.items) }
{
    let mut cells: Vec<Cell> = Vec::new(alloc);
    let mut run = Cell { first, width: 1 };
    for place in rest {
        if run.is_continued_by(*place) {
            run.width += 1;
        } else {
            cells.push(run)?;
            run = Cell {
                first: *place,
                width: 1,
            };
        }
    }
    cells.push(run)?;
    Ok(cells)
}

/// The places of a picture in rows of 32, each row as its cells. The last row may have fewer
/// places. It fails if there is no memory for them.
///
/// ```text
/// rows(alloc, &places(alloc, &fields)?)?     // of 40 bits: a row of four bytes, and one of a byte
/// ```
pub fn rows(alloc: Global, places: &[Option<Place>]) -> Result<Vec<Vec<Cell>>, AllocError>
    ensures rows { IfOk result (λ v. AreRows places.now v.items) }
    ensures laid { IfOk result (λ v. places_in v.items ≡ places.now) }
{
    let mut rows: Vec<Vec<Cell>> = Vec::new(alloc);
    let mut rest = places;
    while !rest.is_empty() {
        let (row, behind) = rest.split_at(PLACES_IN_ROW.min(rest.len()));
        rows.push(cells(alloc, row)?)?;
        rest = behind;
    }
    Ok(rows)
}
