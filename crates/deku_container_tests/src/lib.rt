//! Tests of `deku`, by the paths that users name: whole records from bytes and as bytes.
#![tactic(auto)]

#[cfg(test)]
mod container;
#[cfg(test)]
mod examples;
#[cfg(test)]
mod files;
#[cfg(test)]
mod in_turn;
#[cfg(test)]
mod kept_in_step;
#[cfg(test)]
mod own_devices;
#[cfg(test)]
mod records;
#[cfg(test)]
mod sample;
