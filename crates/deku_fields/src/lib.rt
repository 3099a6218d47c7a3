//! Lists of whole-number fields: what they lay out, how they are read and written, and the program
//! that uses them.
#![tactic(auto)]

mod cut;
pub mod laws;
mod list;
mod picture;
mod program;
mod read;
mod words;
mod write;

pub use cut::cut_to_bytes;
pub use deku_frame::frame;
pub use list::{Field, Item, Kind, Number};
pub use picture::{Place, places};
pub use program::run;
pub use read::{list_from_bytes, read_field, read_list, read_list_into};
pub use words::{parse_field, parse_item};
pub use write::{list_to_bytes, write_list};
