//! Questions of the domain name system, RFC 1035: a header, and a name of labels with what is asked
//! about it. Each is a record that is read as it is written.
#![tactic(auto)]

pub mod header;
pub mod label;
pub mod query;
pub mod question;
