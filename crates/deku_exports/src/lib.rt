//! The functions that C calls for the records of a description, and their header.
#![tactic(auto)]

mod crossing;
mod exports;
mod header;
mod making;

pub use making::{Wanted, make_for_c};
