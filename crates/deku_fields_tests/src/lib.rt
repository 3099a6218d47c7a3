//! Tests of `deku_fields`, through its public calls.
#![tactic(auto)]

#[cfg(test)]
mod cut;
#[cfg(test)]
mod hostile;
#[cfg(test)]
mod items;
#[cfg(test)]
mod kinds;
#[cfg(test)]
mod list;
#[cfg(test)]
mod picture;
#[cfg(test)]
mod telling;
#[cfg(test)]
mod words;
