//! Descriptions of records, Rust with deku's attributes, as they are written: from tokens to
//! structs and enums.
#![tactic(auto)]

mod cursor;
pub mod formula;
mod parsing;
pub mod syntax;

pub use parsing::parse;
