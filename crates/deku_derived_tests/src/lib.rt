//! Records that `derive` prints from the descriptions in `records`, and their bytes. Those of
//! `descriptions` are printed and tested by `tools/derived`.
#![tactic(auto)]

#[cfg(test)]
mod between;
#[cfg(test)]
mod bytes;
#[cfg(test)]
mod gre;
#[cfg(test)]
mod padded;
#[cfg(test)]
mod places;
#[cfg(test)]
mod shape;
#[cfg(test)]
mod sized;
