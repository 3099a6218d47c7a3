//! Tests of `deku_symmetry`, by the paths that users name: values packed and unpacked, and records
//! in a few lines; and of frames.
#![tactic(auto)]

#[cfg(test)]
mod frame;
#[cfg(test)]
mod made;
#[cfg(test)]
mod message;
#[cfg(test)]
mod packing;
#[cfg(test)]
mod parts;
#[cfg(test)]
mod records;
#[cfg(test)]
mod sample;
