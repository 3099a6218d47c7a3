//! Records that bring a packet to its machine: frames, addresses, IPv4, IPv6 and their messages.
#![tactic(auto)]

pub mod arp;
pub mod ethernet;
pub mod icmp;
pub mod icmpv6;
pub mod ipv4;
pub mod ipv6;
mod lengths;
