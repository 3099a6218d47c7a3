//! What the programs share: an input of hexadecimal text, an output of text, and the lines of
//! errors.
#![tactic(auto)]

mod input;
mod output;
mod telling;

pub use input::read_hex_text;
pub use output::{give_parts, give_text};
pub use telling::tell_fault;
