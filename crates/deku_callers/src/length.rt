//! A length that is written before what it counts, after that is written.

ghost use Rattle.std.specs.Prelude.{◌≡◌, ◌∷◌, ◌<◌, length, IfOk};

use deku_bits::error::DekuError;
use deku_bits::writer::Writer;
use std::alloc::Global;
use std::io::{Cursor, Seek, SeekFrom};

/// A payload of fewer than 256 bytes after its length, which is written last.
///
/// It fails with `Io` if there is no memory.
///
/// ```text
/// record_of(alloc, &[0xAA, 0xBB, 0xCC])?                     // 03 AA BB CC
/// ```
///
/// The caller's condition: the payload has fewer than 256 bytes.
pub fn record_of(alloc: Global, payload: &[u8]) -> Result<Vec<u8>, DekuError>
    requires { length payload.now < 256 }
    ensures { IfOk result (λ v. v.items ≡ length payload.now ∷ payload.now) }
{
    let mut writer = Writer::new(Cursor::new(Vec::new(alloc)));
    writer.write_bytes(&[0])?;
    writer.write_bytes(payload)?;
    writer.seek(SeekFrom::Start(0))?;
    writer.write_bytes(&[payload.len() as u8])?;
    Ok(writer.into_inner().into_inner())
}
