//! The parts of the fields of a record, with the types that say which of them there are.
#![tactic(auto)]

pub mod building;
mod choosing;
mod constants;
mod listing;
mod marked;
mod refusing;
mod said;
pub mod temporary;
pub mod updating;
mod widths;
