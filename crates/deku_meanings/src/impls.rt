//! Collections into which items are put.

pub mod gather;
mod hashmap;
mod hashset;
mod vec;
