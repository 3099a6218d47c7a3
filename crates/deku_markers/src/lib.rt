//! The types that say what counts, conditions, checks and ids compute.
#![tactic(auto)]

pub mod computing;
pub mod marker;
