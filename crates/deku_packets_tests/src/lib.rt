//! Tests of packets, and of the program that shows them.
#![tactic(auto)]

#[cfg(test)]
mod cut;
#[cfg(test)]
mod refused;
