//! The program `derive`: from a description of records in Rust, with deku's attributes, to a module
//! whose both directions are proved.
#![tactic(auto)]

mod enums;
mod imports;
pub mod making;
pub mod printing;
