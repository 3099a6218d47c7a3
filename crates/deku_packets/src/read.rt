//! Reading one record.

ghost use Rattle.std.specs.Prelude.{IfOk};
ghost use Rattle.deku_packets.specs.Reading.{IsFirst, IsAt};

use crate::check::between;
use crate::layer::Fields;
use crate::packet::Refusal;
use deku::prelude::{DekuContainerRead, DekuError, DekuReader, Reader};
use std::alloc::Global;
use std::io::Cursor;

/// The record in the bytes of a packet that begins at this index and ends before the limit, and the
/// index after it. `fields` are those of the record: an error names them.
pub fn read_at<E: DekuContainerRead>(
    alloc: Global,
    bytes: &[u8],
    at: usize,
    limit: usize,
    fields: &Fields,
) -> Result<(E, usize), Refusal>
    requires { E.DekuReader.accepts tt }
    ensures { IfOk result (λ p. IsAt (IsFirst (E.DekuReader.meaning tt) p.0) bytes.now at p.1) }
{
    let (record, count) = first(alloc, between(bytes, at, limit), at, fields)?;
    Ok((record, at.saturating_add(count)))
}

// The record at the start of the bytes, and how many bytes it has. `at` is where the bytes are in
// the packet.
fn first<E: DekuContainerRead>(
    alloc: Global,
    bytes: &[u8],
    at: usize,
    fields: &Fields,
) -> Result<(E, usize), Refusal>
    requires { E.DekuReader.accepts tt }
    ensures { IfOk result (λ p. IsFirst (E.DekuReader.meaning tt) p.0 bytes.now p.1) }
{
    match E::from_bytes(alloc, (bytes, 0)) {
        Ok(((rest, _), record)) => Ok((record, bytes.len().saturating_sub(rest.len()))),
        Err(fault) => Err(refused::<E>(alloc, bytes, at, fields, fault)),
    }
}

// The refusal for this error of the bytes. They are read once more, to find how many bits are read
// before the error.
fn refused<E: DekuContainerRead>(
    alloc: Global,
    bytes: &[u8],
    at: usize,
    fields: &Fields,
    fault: DekuError,
) -> Refusal
    requires { E.DekuReader.accepts tt }
{
    let mut reader = Reader::new(alloc, Cursor::new(bytes));
    let _again = E::from_reader_with_ctx(&mut reader, ());
    let bits = reader.bits_read();
    let (field, bit) = match fault {
        DekuError::Assertion(_) | DekuError::IdVariantNotFound => {
            let last = bits.saturating_sub(1);
            (fields.name_at(last), last)
        }
        DekuError::Parse(_) => (fields.counting, fields.bit_of_counting().unwrap_or(bits)),
        _ => (fields.name_at(bits), bits),
    };
    Refusal {
        layer: fields.layer,
        field,
        at: at.saturating_add(bit / 8),
        fault,
    }
}
