//! The names that a codec uses most: `use deku::prelude::{..}` or one by one.

pub use crate::container::{DekuContainerRead, DekuContainerWrite};
pub use crate::traits::{DekuEnumExt, DekuUpdate};
pub use deku_bits::error::{DekuError, NeedSize};
pub use deku_bits::reader::Reader;
pub use deku_bits::writer::Writer;
pub use deku_num::size::DekuSize;
pub use deku_reading::DekuReader;
pub use deku_writing::DekuWriter;
