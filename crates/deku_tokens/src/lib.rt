//! The tokens of Rust that descriptions of records are made of, their places in a text, and what is
//! wrong there.
#![tactic(auto)]

pub mod arena;
mod lexing;
pub mod literal;
pub mod place;
pub mod token;
