//! Tests of `deku_picture`, through its public calls, and runs of the programs `fields`, `layout`
//! and `formats`.
#![tactic(auto)]

#[cfg(test)]
mod cells;
#[cfg(test)]
mod failing;
#[cfg(test)]
mod fields;
#[cfg(test)]
mod formats;
#[cfg(test)]
mod refused;
#[cfg(test)]
mod runs;
#[cfg(test)]
mod svg;
#[cfg(test)]
mod tables;
#[cfg(test)]
mod words;
#[cfg(test)]
mod worked;
