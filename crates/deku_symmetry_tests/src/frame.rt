//! `deku_fields::frame`, by the paths that users name.

mod frames;
