//! Records of messages between programs: names and addresses (DNS), time (NTP), sound and pictures
//! (RTP), and what is encrypted (TLS).
#![tactic(auto)]

pub mod dns;
pub mod name;
pub mod ntp;
pub mod question;
pub mod resource;
pub mod rtp;
pub mod tls;
