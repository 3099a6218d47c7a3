//! Writing texts to an output.

ghost use Rattle.std.specs.Prelude.{◌≢◌, OnOk, OnErr, IfErr};
ghost use Rattle.std.specs.Io.KnownBytes.{Appends};
ghost use Rattle.std.specs.IoError.{error_kind};
ghost use Rattle.std.specs.declared.io.ErrorKind.TheVariants.{Interrupted};
ghost use Rattle.deku_program.specs.Outputs.{IsBegun, IsCutShort};
ghost use Rattle.deku_program.specs.Told.{joined_text};

use std::io;
use std::io::{ErrorKind, Write};

/// Writes the whole text to an output, which may take it in parts. An interrupted write is tried
/// again. It fails with the error of the output, or if the output takes no more; the text was then
/// not taken to its end.
///
/// ```text
/// give_text(&mut output, b"69c0fe\n")?
/// ```
pub fn give_text<W: Write>(output: &mut W, text: &[u8]) -> io::Result<()>
    ensures given { OnOk result (Appends (W.contents output.old) (W.contents output.new) text.now) }
    ensures cut { OnErr result (IsCutShort (W.contents output.old) (W.contents output.new)
        text.now) }
    ensures tried { IfErr result (λ e. error_kind e ≢ Interrupted) }
{
    let mut rest = text;
    let mut tries = u64::MAX;
    while !rest.is_empty() {
        if tries == 0 {
            return Err(io::Error::new(ErrorKind::TimedOut, "interrupted too often"));
        }
        tries -= 1;
        match output.write(rest) {
            Ok(0) => return Err(io::Error::new(ErrorKind::WriteZero, "no more is taken")),
            Ok(count) => rest = &rest[count..],
            Err(error) if error.kind() == ErrorKind::Interrupted => {}
            Err(error) => return Err(error),
        }
    }
    Ok(())
}

/// Writes texts one after the other to an output. It fails as `give_text` does; the output has then
/// taken a beginning of them.
///
/// ```text
/// give_parts(&mut output, &["bits ", "16", "\n"])?;
/// ```
pub fn give_parts<W: Write>(output: &mut W, parts: &[&str]) -> io::Result<()>
    ensures given { OnOk result (Appends (W.contents output.old) (W.contents output.new)
        (joined_text parts.now)) }
    ensures begun { IsBegun (W.contents output.old) (W.contents output.new)
        (joined_text parts.now) }
    ensures tried { IfErr result (λ e. error_kind e ≢ Interrupted) }
{
    for part in parts {
        give_text(output, part.as_bytes())?;
    }
    Ok(())
}
