//! The types that can be read and written.

pub mod cstring;
