//! Pictures of layouts: the bits of fields as a table and as an SVG, and the program that draws
//! them.
#![tactic(auto)]

mod cell;
mod drawing;
mod label;
mod program;
mod svg;
mod table;
mod words;

pub use cell::{Cell, PLACES_IN_ROW, cells, rows};
pub use program::run;
pub use words::{Named, parse_named};
