//! What can be read from bits: numbers, truth values, addresses, tuples, types that hold one item,
//! and lists that end at a limit.
#![tactic(auto)]

mod impls;
mod items;
mod traits;

pub use items::read_item;
pub use traits::DekuReader;
