//! Records for C: what the functions call that `derive --c` prints. They read and write over the
//! caller's memory, and return a number for each error.
#![tactic(auto)]

mod records;
mod status;

pub use records::ForC;
pub use status::{OK, status_of};
