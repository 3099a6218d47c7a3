//! Tests of numbers of `deku` under each layout, by the paths that users name: tables, records of
//! several numbers, and a sweep.
#![tactic(auto)]

#[cfg(test)]
mod numbers;
#[cfg(test)]
mod records;
#[cfg(test)]
mod signed;
#[cfg(test)]
mod sweep;
#[cfg(test)]
mod unsigned;
#[cfg(test)]
mod values;
