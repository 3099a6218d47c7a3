//! Records of capture files: the header of a file, and the header of a packet in it.
#![tactic(auto)]

pub mod pcap;
