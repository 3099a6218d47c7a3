//! A frame: an id and a version of four bits each, and the fields of that id after them. It shows
//! how to write a codec by hand with an enum in it.
#![tactic(auto)]

pub mod frame;
