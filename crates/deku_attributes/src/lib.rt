//! Descriptions of records checked: what deku's attributes say together, and what is wrong with it.
#![tactic(auto)]

mod checking;
mod fields;
pub mod given;
mod kinds;
pub mod model;
pub mod reading;
pub mod table;

pub use checking::check;
