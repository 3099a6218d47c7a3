//! When reading and writing of a type are symmetric: the definitions, the laws of what is made of
//! symmetric parts, and whole values that are read under a context.
#![tactic(auto)]

pub mod assertion;
pub mod constants;
pub mod counted;
pub mod either;
pub mod filled_by;
pub mod magic;
pub mod rest;
pub mod scattered;
pub mod sized_by;
pub mod under_head;
pub mod until;
mod whole;

pub use assertion::{Assert, Check};
pub use constants::{ByteConstant, Bytes, MagicBytes, ZeroBytes, Zeros};
pub use counted::{Counted, ItemCount, is_counted, read_counted, write_counted};
pub use either::{Either, InRange, Kind, Otherwise};
pub use filled_by::FilledBy;
pub use magic::{Constant, Magic};
pub use rest::{Before, Rest};
pub use scattered::{high_bits, low_bits};
pub use sized_by::{SizeOf, SizedBy};
pub use under_head::{ContextOf, UnderHead};
pub use whole::read_whole;
