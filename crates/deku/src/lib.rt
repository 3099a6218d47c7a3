//! Bit-level reading and writing of binary records.
//!
//! A record implements [`DekuReader`] and [`DekuWriter`] by hand, field by field, each under a
//! context that says how it is laid out. If that is `()`, it has the calls of
//! [`DekuContainerRead`] and [`DekuContainerWrite`] too, for whole values from bytes and as bytes.
//! Each implementation names its meaning, made of those of its fields; its contract is that of
//! its trait.
//!
//! ```text
//! /// Four bits, four bits and two bytes, all with their high bits first.
//! struct Head { halves: (u8, u8), number: u16 }
//!
//! impl DekuReader<()> for Head {
//!     ghost meaning = { λ _. JoinedBy (λ a b. record { halves = a; number = b })
//!         (⟦<(u8, u8) as DekuReader<(Endian, BitSize)>>⟧.meaning (Big, record { 0 = 4 }))
//!         (⟦<u16 as DekuReader<Endian>>⟧.meaning Big) };
//!
//!     fn from_reader_with_ctx<R: Source>(
//!         reader: &mut Reader<R>,
//!         _ctx: (),
//!     ) -> Result<Self, DekuError> {
//!         let halves = <(u8, u8)>::from_reader_with_ctx(reader, (Big, BitSize(4)))?;
//!         let number = u16::from_reader_with_ctx(reader, Big)?;
//!         Ok(Head { halves, number })
//!     }
//! }
//!
//! let ((rest, bits), head) = Head::from_bytes(alloc, (&[0x69, 0xBE, 0xEF, 0x01], 0))?;
//! // (6, 9), 0xBEEF; the rest is 01
//! ```
//!
//! The page `docs/BY-HAND.md` shows it in full, with its proof, which is one line for each field.
#![tactic(auto)]

mod container;
mod impls;
pub mod laws;
mod macros;
pub mod prelude;
mod traits;

pub use container::{DekuContainerRead, DekuContainerWrite, padded_bytes, room_ahead, taken_bytes};
pub use deku_bits::bounded::BoundedBitVec;
pub use deku_bits::error::DekuError;
pub use deku_bits::{bounded, device, error, noseek, probe, reader, writer};
pub use deku_meanings::ctx;
pub use deku_num::size::{DekuSize, DekuSizeConst};
pub use deku_num::{calls, kind, size};
pub use deku_reading::{DekuReader, read_item};
pub use deku_writing::{DekuWriter, Word};
pub use impls::cstring;
pub use traits::{DekuEnumExt, DekuUpdate};
