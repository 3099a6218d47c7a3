//! Records, written and read back.

ghost use Rattle.std.specs.Prelude.{◌≡◌, ◌≤◌, length, take, IfOk, MatchResult};
ghost use Rattle.std.specs.declared.io.ErrorKind.TheVariants.{OutOfMemory};
ghost use Rattle.deku.specs.declared.error.DekuError.TheVariants.{Io};

use deku::prelude::{DekuContainerRead, DekuContainerWrite, DekuError};
use deku_bits::laws::length_law;
use deku_symmetry::laws::{from_bytes_law, to_bytes_law, whole_bytes_law};
use deku_transport::udp::Udp;
use std::alloc::Global;

/// Writes any header of a datagram as bytes, and reads it back. The result is the header, or out of
/// memory.
///
/// ```text
/// there_and_back(alloc, header)?                             // the header
/// ```
pub fn there_and_back(alloc: Global, header: Udp) -> Result<Udp, DekuError>
    ensures { MatchResult result (λ h. h ≡ header) (λ e. e ≡ Io OutOfMemory) }
{
    to_bytes_law::<Udp>();
    from_bytes_law::<Udp>();
    length_law();
    let bytes = header.to_bytes(alloc)?;
    let (_rest, read) = Udp::from_bytes(alloc, (bytes.as_slice(), 0))?;
    Ok(read)
}

/// Reads a header from any bytes, and writes it as bytes again. They are the first eight of the
/// given bytes.
///
/// It fails with `Incomplete` if there are fewer than eight bytes, or with `Io(OutOfMemory)` if
/// there is no memory.
///
/// ```text
/// rewritten(alloc, &[0x9C, 0xBB, 0xD1, 0x1F, 0x00, 0x0A, 0xFE, 0x1D, 0x68])?
/// // without the last one
/// ```
pub fn rewritten(alloc: Global, bytes: &[u8]) -> Result<Vec<u8>, DekuError>
    ensures { IfOk result (λ v. (8 ≤ length bytes.now) × (v.items ≡ take 8 bytes.now)) }
{
    to_bytes_law::<Udp>();
    from_bytes_law::<Udp>();
    length_law();
    whole_bytes_law();
    let (_rest, header) = Udp::from_bytes(alloc, (bytes, 0))?;
    header.to_bytes(alloc)
}
