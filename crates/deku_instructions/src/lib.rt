//! Instruction words, as records that are read as they are written.
#![tactic(auto)]

pub mod riscv;
