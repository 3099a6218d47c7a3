//! Tests of each call that takes memory: it returns its value, or that no memory was found, and
//! then what its contract says is left. `tools/refuse-memory` refuses each request of each test in
//! turn.
#![tactic(auto)]

#[cfg(test)]
mod bits;
#[cfg(test)]
mod expecting;
#[cfg(test)]
mod fields;
#[cfg(test)]
mod programs;
#[cfg(test)]
mod rows;
#[cfg(test)]
mod symmetric;
#[cfg(test)]
mod texts;
#[cfg(test)]
mod values;
#[cfg(test)]
mod written;
