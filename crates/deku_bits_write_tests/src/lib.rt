//! Tests of `deku_bits`, through its public calls: what is written, lists of bits, and what
//! refusals print.
#![tactic(auto)]

#[cfg(test)]
mod bounded;
#[cfg(test)]
mod device;
#[cfg(test)]
mod error;
#[cfg(test)]
mod given;
#[cfg(test)]
mod noseek;
#[cfg(test)]
mod probe;
#[cfg(test)]
mod streams;
#[cfg(test)]
mod words;
#[cfg(test)]
mod writer;

/// A case of a table, and a step of it. A case of several tables has the number of its table in
/// front, times a hundred.
#[cfg(test)]
type Row = (usize, usize);
