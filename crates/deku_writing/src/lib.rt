//! What can be written as bits: numbers, truth values, addresses, tuples, lists and types that hold
//! items.
#![tactic(auto)]

mod impls;
mod traits;
mod words;

pub use traits::DekuWriter;
pub use words::Word;
