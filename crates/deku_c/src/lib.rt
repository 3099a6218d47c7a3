//! Lists of whole-number fields for C: functions that a static library exports, over the caller's
//! memory. None of them takes memory.
#![tactic(auto)]

mod codes;
mod exports;
mod read;
mod sizes;
mod status;
mod write;

pub use codes::{FieldCode, NumberCode};
pub use exports::{dishkaru_bits, dishkaru_read, dishkaru_write};
