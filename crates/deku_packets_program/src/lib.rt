//! The program `packets`: what is in each packet of a capture.
#![tactic(auto)]

mod answers;
mod capture;
mod failure;
mod json;
mod line;
mod members;
mod names;
mod program;
mod shown;
mod values;

pub use program::{Wanted, run};
