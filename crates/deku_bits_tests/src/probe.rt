//! Reads over a source that fails once, at each of their calls on it.

mod sources;
