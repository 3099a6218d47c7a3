//! Bits, streams of bits and the writing of bits: the base of a codec library.
#![tactic(auto)]

pub mod laws;

pub use deku_device::{device, noseek};
pub use deku_probe::probe;
pub use deku_reader::reader;
pub use deku_stream::{bounded, ctx, error};
pub use deku_writer::writer;
