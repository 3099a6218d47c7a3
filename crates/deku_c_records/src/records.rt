//! Records over the caller's memory.

ghost use Rattle.std.specs.Prelude.{ℕ, List};
ghost use Rattle.deku_c_records.specs.Exported.{ReadsFor, WritesFor};

use crate::status::{OK, status_of};
use deku::{DekuContainerWrite, DekuReader, DekuWriter};
use deku_symmetry::Symmetric;
use std::alloc::Global;

/// A record that C reads and writes: each that is copied and symmetric.
pub trait ForC: DekuReader<()> + DekuWriter<()> + Copy {
    // What a read from bytes does: the number that it returns, and the record in its place before
    // and after.
    ghost reads_for_c: { List ℕ → ℕ → Self → Self → Type 0 };

    // What a write of a record does: the bytes before, the number that it returns, and the bytes
    // after.
    ghost writes_for_c: { Self → List ℕ → ℕ → List ℕ → Type 0 };

    /// Reads a record from the first byte on, as `unpack` does, and puts it into its place. Returns
    /// `OK`; or the number of the error, and then the place stays as it was.
    ///
    /// The caller's condition: the record may be read.
    ///
    /// ```text
    /// Sample::read_for_c(alloc, &[0x69, 0xC0, 0xFE], &mut sample)    // 0, and the sample
    /// ```
    fn read_for_c(alloc: Global, bytes: &[u8], place: &mut Self) -> u32
    where
        Self: Sized,
        requires { Self.DekuReader.accepts tt }
        ensures { reads_for_c bytes.now result place.old place.new };

    /// Writes a record to the start of the bytes, as `to_slice` does: the last byte is filled with
    /// zeros, and the bytes after it stay. Returns `OK`, or the number of the error.
    ///
    /// The caller's condition: the record may be written.
    ///
    /// ```text
    /// sample.write_for_c(&mut bytes)                                 // 0, and 69 C0 FE in front
    /// ```
    fn write_for_c(&self, bytes: &mut [u8]) -> u32
        requires { Self.DekuWriter.accepts tt }
        ensures { writes_for_c self.now bytes.old result bytes.new };
}

/// It is read as `unpack` reads it, and written as `to_slice` writes it.
impl<E: Symmetric<()> + DekuContainerWrite + Copy> ForC for E {
    ghost reads_for_c = { λ bytes status old new. ReadsFor (E.DekuReader.meaning tt)
        (λ v. E.Part.pieces v tt) E.Part.same bytes status old new };

    ghost writes_for_c = { λ v old status new. WritesFor (E.DekuWriter.meaning v tt)
        (E.Part.pieces v tt) old status new };

    fn read_for_c(alloc: Global, bytes: &[u8], place: &mut E) -> u32 {
        match E::unpack(alloc, bytes, ()) {
            Ok((_bits, value)) => {
                *place = value;
                OK
            }
            Err(error) => status_of(error),
        }
    }

    fn write_for_c(&self, bytes: &mut [u8]) -> u32 {
        match self.to_slice(bytes) {
            Ok(_count) => OK,
            Err(error) => status_of(error),
        }
    }
}
