//! Records of the crate `samples` for C.
#![tactic(auto)]

pub mod sample;
