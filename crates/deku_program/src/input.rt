//! Reading bytes from an input of hexadecimal text.

ghost use Rattle.std.specs.Prelude.{OnOk, IfOk, IfErr, IfSome, IfNone};
ghost use Rattle.std.specs.Io.KnownBytes.{IsAtEnd};
ghost use Rattle.deku_program.specs.Hexadecimal.{IsHexText, IsNoHexText, IsOfInput, LosesNewline};

use deku::DekuError;
use hex::FromHexError;
use std::alloc::Global;
use std::io::{ErrorKind, Read};

/// The bytes of an input of hexadecimal text, in upper or lower case, without one newline at its
/// end. Returns `None` if the text is not the hexadecimal form of bytes.
///
/// The input is read to its end. It fails with `Io` as the input fails, or with `Io(OutOfMemory)`
/// if there is no memory; the input is then left after what was read.
///
/// ```text
/// read_hex_text(alloc, &mut input)?                         // on "69c0FE" and a newline: 69 C0 FE
/// ```
pub fn read_hex_text<R: Read>(alloc: Global, input: &mut R) -> Result<Option<Vec<u8>>, DekuError>
    ensures shown { IfOk result (λ o. IfSome o (λ bytes. IfSome (R.remaining input.old)
        (λ text. IsHexText text bytes.items))) }
    ensures none { IfOk result (λ o. IfNone o (IfSome (R.remaining input.old) IsNoHexText)) }
    ensures end { OnOk result (IsAtEnd (R.remaining input.new)) }
    ensures refused { IfErr result IsOfInput }
{
    let mut text: Vec<u8> = Vec::new(alloc);
    input.read_to_end(&mut text)?;
    match hex::decode(alloc, without_newline(text.as_slice())) {
        Ok(bytes) => Ok(Some(bytes)),
        Err(FromHexError::OutOfMemory) => Err(DekuError::Io(ErrorKind::OutOfMemory)),
        Err(_) => Ok(None),
    }
}

// The text without one newline at its end.
fn without_newline(text: &[u8]) -> &[u8]
    ensures { LosesNewline text.now result.now }
{
    match text {
        [inner @ .., b'\n'] => inner,
        _ => text,
    }
}
