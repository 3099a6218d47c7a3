//! Whole numbers as fields of bits: their layouts, and the values of lists of bits.
#![tactic(auto)]

pub mod calls;
pub mod ctx;
pub mod cutting;
pub mod kernel;
pub mod kind;
pub mod laws;
pub mod size;
