//! The parts of records as they are printed, and where their fields are.
#![tactic(auto)]

pub mod chosen;
pub mod following;
pub mod part;
pub mod texts;
pub mod whole;
