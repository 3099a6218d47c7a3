//! The two lengths in the header of an IPv4 packet, set from its options.

ghost use Rattle.deku_network.specs.Ipv4.{Updates};

use crate::ipv4::Ipv4;
use deku::prelude::{DekuError, DekuUpdate};

/// Sets the length of the header to that of its options, and the total length to match. The payload
/// after the header keeps its length.
///
/// It fails for the first of these causes, and nothing changes,
///
/// - with `Parse("options of no whole words")` if the options are not at most ten words of four
///   bytes;
/// - with `Parse("total below header")` if the total was less than the header;
/// - with `Parse("packet too long")` if the new total does not fit 16 bits.
///
/// ```text
/// header.options.extend_from_slice(&[0x94, 0x04, 0x00, 0x00])?;
/// header.update()?;                                    // `words` is one more, `total` four
/// ```
impl DekuUpdate for Ipv4 {
    ghost updates = { Updates };

    fn update(&mut self) -> Result<(), DekuError> {
        let options = self.options.len();
        if options > 40 || options % 4 != 0 {
            return Err(DekuError::Parse("options of no whole words"));
        }
        let before = 4 * self.words as usize;
        let total = self.total as usize;
        if total < before {
            return Err(DekuError::Parse("total below header"));
        }
        let after = total - before + 20 + options;
        if after > 65535 {
            return Err(DekuError::Parse("packet too long"));
        }
        self.words = (5 + options / 4) as u8;
        self.total = after as u16;
        Ok(())
    }
}
