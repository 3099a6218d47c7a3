//! Errors of records that name the part that was refused, and the bit where it begins.
#![tactic(auto)]

mod following;
mod leaves;
mod located;
mod steps;
mod tuple;

pub use located::{Located, unpack_located, unpack_steps};
pub use steps::{OnePart, Place, Steps};
