//! The program `formats`: the fields of records of real formats, from hexadecimal text and back.
#![tactic(auto)]

mod compared;
mod lines;
mod operands;
mod places;
mod program;
mod shown;
mod words;

pub use program::{Records, Told, ToldRecord, run};
