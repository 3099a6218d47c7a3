//! What crates of tests of values share: what values and records and their bytes are expected to
//! be, and what is refused.
#![tactic(auto)]

pub mod expecting;
pub mod records;
