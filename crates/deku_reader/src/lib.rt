//! The reader of bits.
#![tactic(auto)]

pub mod reader;
