//! Tests of the parts of `deku_symmetry` that depend on one another, and of records that are stated
//! by their parts, by the paths that users name.
#![tactic(auto)]

#[cfg(test)]
mod by_parts;
#[cfg(test)]
mod chosen_by;
#[cfg(test)]
mod constants;
#[cfg(test)]
mod counted_by;
#[cfg(test)]
mod enums;
#[cfg(test)]
mod filled_by;
#[cfg(test)]
mod optional;
#[cfg(test)]
mod prefixed;
#[cfg(test)]
mod rest;
#[cfg(test)]
mod rows;
#[cfg(test)]
mod sized_by;
#[cfg(test)]
mod under_head;
