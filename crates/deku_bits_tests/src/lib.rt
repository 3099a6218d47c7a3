//! Tests of `deku_bits`, through its public calls: what is read.
#![tactic(auto)]

#[cfg(test)]
mod device;
#[cfg(test)]
mod noseek;
#[cfg(test)]
mod probe;
#[cfg(test)]
mod reader;
#[cfg(test)]
mod same;
#[cfg(test)]
mod streams;
#[cfg(test)]
mod taken;
#[cfg(test)]
mod words;
