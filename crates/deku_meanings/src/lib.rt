//! What reading and writing share: contexts, how the meanings of items make those of composites,
//! and collections into which items are put.
#![tactic(auto)]

pub mod ctx;
mod impls;
mod slots;

pub use impls::gather::{Gather, is_past_by, keep};
pub use slots::turned_slots;
