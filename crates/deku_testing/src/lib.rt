//! What crates of tests share: slow models, numbers without a pattern, refusals in tables, and runs
//! of programs.
#![tactic(auto)]

pub mod bits;
pub mod numbers;
pub mod random;
pub mod refusals;
pub mod runs;
pub mod same;
