//! Sources and sinks of bytes, and what is known of them.
#![tactic(auto)]

pub mod device;
pub mod noseek;
