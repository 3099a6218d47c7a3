//! Tests of `deku_plan`, through its public calls.
#![tactic(auto)]

#[cfg(test)]
mod agree;
#[cfg(test)]
mod plan;
#[cfg(test)]
mod rows;
#[cfg(test)]
mod table;
