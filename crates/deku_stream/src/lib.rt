//! Lists of bits, orders and errors, and the definitions of streams, of writing and of pieces.
#![tactic(auto)]

pub mod bounded;
pub mod byte;
pub mod ctx;
pub mod error;
pub mod turning;
pub mod window;
