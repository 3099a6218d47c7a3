//! Headers of real formats, each as a record that is read as it is written.
#![tactic(auto)]

pub mod can;
pub mod ccsds;
pub mod checksum;
pub mod png;
