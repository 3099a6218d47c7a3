//! Records in a row, read by a plan and printed a line each.
#![tactic(auto)]

mod columns;
mod feed;
mod line;
mod rows;

pub use columns::{Columns, NoColumns};
pub use rows::{Failure, Form, print_rows, tell};
