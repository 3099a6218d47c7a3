//! Tests of `deku_callers`: each function of it with values and bytes whose results were worked out
//! by hand.
#![tactic(auto)]

#[cfg(test)]
mod calls;
#[cfg(test)]
mod counted;
#[cfg(test)]
mod frame;
#[cfg(test)]
mod length;
#[cfg(test)]
mod list;
#[cfg(test)]
mod maps;
#[cfg(test)]
mod offset;
#[cfg(test)]
mod record;
#[cfg(test)]
mod same;
#[cfg(test)]
mod source;
