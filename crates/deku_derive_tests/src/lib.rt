//! Tests of `deku_derive`: descriptions that are taken, what is said of those that are not, and
//! modules.
#![tactic(auto)]

#[cfg(test)]
mod choosing;
#[cfg(test)]
mod complaints;
#[cfg(test)]
mod descriptions;
#[cfg(test)]
mod literals;
#[cfg(test)]
mod modules;
#[cfg(test)]
mod words;
