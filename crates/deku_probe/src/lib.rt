//! Devices for tests of codecs.
#![tactic(auto)]

pub mod probe;
