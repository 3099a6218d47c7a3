//! Runs of places.

use deku_fields::Place;
use deku_picture::{Cell, cells};
use std::alloc::Global;
use std::process::Abort;
use std::test::Fail;

// A bit of a field as a place.
fn at(field: usize, bit: usize) -> Option<Place> {
    Some(Place { field, bit })
}

fn expect_cells(
    rt: &impl Abort,
    alloc: Global,
    row: &[Option<Place>],
    want: &[Cell],
) -> Result<(), Fail> {
    let seen = cells(alloc, row)?;
    assert!(rt; seen.as_slice() == want, "{row:?}: {seen:?}");
    Ok(())
}

// A run of so many places.
fn run_of(first: Option<Place>, width: usize) -> Cell {
    Cell { first, width }
}

#[test]
fn joins_places(rt: HostRuntime) -> Result<(), Fail> {
    let alloc = rt.alloc();
    expect_cells(&rt, alloc, &[], &[])?;
    expect_cells(&rt, alloc, &[None, None], &[run_of(None, 2)])?;
    expect_cells(
        &rt,
        alloc,
        &[at(0, 1), at(0, 0), at(1, 0), None],
        &[run_of(at(0, 1), 2), run_of(at(1, 0), 1), run_of(None, 1)],
    )?;
    expect_cells(
        &rt,
        alloc,
        &[at(0, 0), at(0, 1), at(0, 1), at(0, 0)],
        &[
            run_of(at(0, 0), 1),
            run_of(at(0, 1), 1),
            run_of(at(0, 1), 2),
        ],
    )?;
    expect_cells(
        &rt,
        alloc,
        &[at(2, 9), at(2, 7), at(3, 6)],
        &[
            run_of(at(2, 9), 1),
            run_of(at(2, 7), 1),
            run_of(at(3, 6), 1),
        ],
    )
}
