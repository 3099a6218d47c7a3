//! Structs as they are printed, and what enums share with them.
#![tactic(auto)]

mod choosing;
pub mod steps;
pub mod structs;
mod updates;
