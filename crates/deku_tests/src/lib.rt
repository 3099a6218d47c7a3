//! Tests of `deku`, by the paths that users name: lists, maps, texts, tuples and what holds them,
//! limits, sizes and refusals.
#![tactic(auto)]

#[cfg(test)]
mod expecting;
#[cfg(test)]
mod hashes;
#[cfg(test)]
mod holders;
#[cfg(test)]
mod limits;
#[cfg(test)]
mod lists;
#[cfg(test)]
mod refusals;
#[cfg(test)]
mod sizes;
#[cfg(test)]
mod stand_ins;
#[cfg(test)]
mod texts;
#[cfg(test)]
mod tuples;
