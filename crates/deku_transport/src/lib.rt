//! Records that bring data to their program: UDP datagrams, and TCP segments with their options.
#![tactic(auto)]

pub mod option;
pub mod tcp;
pub mod udp;
