//! Tests of `deku_formats`, `deku_dns`, `deku_elf` and `deku_instructions`, and of the headers of
//! IPv4 and UDP, through their public calls: bytes that other tools made, and a packet of telemetry
//! that was worked out by hand from the standard, both ways, and what is refused.
#![tactic(auto)]

#[cfg(test)]
mod files;
#[cfg(test)]
mod instructions;
#[cfg(test)]
mod names;
#[cfg(test)]
mod objects;
#[cfg(test)]
mod packets;
#[cfg(test)]
mod signals;
