//! The writer of bits.
#![tactic(auto)]

pub mod writer;
