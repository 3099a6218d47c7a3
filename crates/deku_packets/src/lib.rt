//! Packets of a capture, layer by layer: read, and written back.
#![tactic(auto)]

pub mod check;
pub mod fields;
pub mod layer;
mod layers;
pub mod messages;
pub mod name;
mod next;
mod options;
pub mod packet;
mod read;
pub mod reading;
mod walk;
