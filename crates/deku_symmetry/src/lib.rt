//! Types that are read as they are written, and records made of them in a few lines.
#![tactic(auto)]

mod chosen_by;
mod constants;
mod counted_by;
mod either;
mod enums;
mod fields;
mod impls;
mod last;
pub mod laws;
mod made;
mod optional;
mod prefixed;
mod record;
mod sized;
mod traits;

pub use chosen_by::{ChosenBy, ChosenByRef, IdOf, IdOfLaw};
pub use constants::{Between, Is, ZeroBits};
pub use counted_by::{CountOf, CountOfLaw, CountedBy, CountedByRef};
pub use deku_pieces::assertion::{Assert, Check};
pub use deku_pieces::constants::{ByteConstant, Bytes, MagicBytes, ZeroBytes, Zeros};
pub use deku_pieces::counted::{Counted, ItemCount, write_counted};
pub use deku_pieces::either::{Either, InRange, Kind, Otherwise};
pub use deku_pieces::filled_by::FilledBy;
pub use deku_pieces::magic::{Constant, Magic};
pub use deku_pieces::rest::{Before, Rest};
pub use deku_pieces::scattered;
pub use deku_pieces::sized_by::{SizeOf, SizedBy};
pub use deku_pieces::under_head::{ContextOf, UnderHead};
pub use deku_pieces::until::{Last, Until, UntilRef};
pub use either::{KindIds, Kinds, KindsLaw, SymmetricKinds};
pub use enums::{Enum, Id, LsbBeEnum, LsbEnum, MsbEnum, MsbLeEnum, write_kind};
pub use fields::{Be, Le, Lsb, LsbBe, Msb, MsbLe};
pub use last::{PartLast, SymmetricLast};
pub use made::{CheckLaw, ConstantLaw, ItemCountLaw, LastLaw};
pub use optional::{Condition, ConditionLaw, Optional, OptionalRef};
pub use prefixed::{Prefixed, PrefixedRef};
pub use record::{FromParts, Record, RecordLast, ToParts, read_record, write_record};
pub use sized::{ContextOfLaw, SizeOfLaw};
pub use traits::{Part, Symmetric};
