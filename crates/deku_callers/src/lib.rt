//! What callers can conclude from the contracts of public calls only. Each function here is a small
//! program, and its postcondition is what its user wants to know.
#![tactic(auto)]

pub mod calls;
pub mod counted;
pub mod frame;
pub mod length;
pub mod list;
pub mod maps;
pub mod offset;
pub mod record;
pub mod source;
