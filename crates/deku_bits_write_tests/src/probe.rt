//! Writes over a sink that fails once, at each of their calls on it.

mod sinks;
