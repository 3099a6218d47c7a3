//! Lists of whole-number fields that are looked at once, and then read and written many times.
#![tactic(auto)]

mod at;
mod block;
mod cut;
mod join;
mod lay;
mod part;
mod plan;
mod step;

pub use at::{high_at, value_at};
pub use plan::{Plan, WrongWords};
