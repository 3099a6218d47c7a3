//! Names of the domain name system, through their pointers.

ghost use Rattle.std.specs.Prelude.{◌≡◌, ℕ, ◌+◌, ◌-◌, ◌*◌, ◌<◌, ◌≤◌};
ghost use Rattle.std.specs.Prelude.{length, IfOk, IfErr, IfSome, IsNone, Some, slice_get};
ghost use Rattle.deku_packets.specs.Names.{Follows, IsStep, IsWrong};

use std::fmt;
use std::fmt::{Display, Formatter, Write};

// The most labels and pointers of a name: its text has at most 255 bytes.
const MOST_STEPS: usize = 256;

const PAST: &str = "name past the message";

const RESERVED: &str = "reserved kind of label";

const ONWARD: &str = "pointer that does not lead back";

const TOO_LONG: &str = "name too long";

// What is at a place of a message that is part of a name.
#[derive(Clone, Copy)]
enum Step<'a> {
    // A label, and where the next step is.
    Label(&'a [u8], usize),
    // The rest of the name is at an earlier place.
    Pointer(usize),
    // The name ends.
    End,
}

/// Why a name cannot be followed.
#[derive(Debug, Clone, Copy, PartialEq, Eq)]
pub struct Astray {
    /// The index in the message at which it goes wrong.
    pub at: usize,
    /// What is wrong.
    pub why: &'static str,
}

// The step at this place of a message. A pointer has to lead to a place before `start`, where the
// steps began that led here without a pointer.
fn next_step(message: &[u8], at: usize, start: usize) -> Result<Step<'_>, Astray>
    ensures step { IfOk result (λ s. IsStep message.now start at s) }
    ensures wrong { IfErr result (λ e. IsWrong message.now start at e) }
{
    let Some(first) = message.get(at) else {
        return Err(Astray { at, why: PAST });
    };
    match *first {
        0 => Ok(Step::End),
        1..=63 => match label_at(message, at, *first as usize) {
            Some((label, next)) => Ok(Step::Label(label, next)),
            None => Err(Astray { at, why: PAST }),
        },
        64..=191 => Err(Astray { at, why: RESERVED }),
        192.. => match place_at(message, at, *first as usize) {
            Some(to) if to < start => Ok(Step::Pointer(to)),
            Some(_) => Err(Astray { at, why: ONWARD }),
            None => Err(Astray { at, why: PAST }),
        },
    }
}

// The label of this many bytes at this place, and where the next step is.
fn label_at(message: &[u8], at: usize, count: usize) -> Option<(&[u8], usize)>
    requires { count < 64 }
    ensures next { IfSome result (λ r. r.1 ≡ at + count + 1) }
    ensures there { IfSome result (λ r. at + count < length message.now) }
    ensures none { IsNone result → length message.now ≤ at + count }
{
    let next = at.saturating_add(count + 1);
    if next > message.len() {
        return None;
    }
    Some((&message[at + 1..next], next))
}

// Where the pointer at this place leads, which begins with this byte.
fn place_at(message: &[u8], at: usize, high: usize) -> Option<usize>
    requires byte { high < 256 }
    requires marked { 192 ≤ high }
    ensures there { IfSome result (λ to. (low : ℕ) × (slice_get message.now (at + 1) ≡ Some low)
        × (to ≡ (high - 192) * 256 + low)) }
    ensures none { IsNone result → length message.now ≤ at + 1 }
{
    let low = message.get(at.saturating_add(1))?;
    Some((high - 192) * 256 + *low as usize)
}

/// Follows the name at this place of a message to its end. It fails where the name leaves the
/// message, where a label is of a reserved kind, where a pointer does not lead back, and after 256
/// labels and pointers.
///
/// ```text
/// follow(message, 12)                        // fails at 12 if a pointer to 12 is there: C0 0C
/// ```
pub fn follow(message: &[u8], at: usize) -> Result<(), Astray>
    ensures { Follows message.now at at 256 result }
{
    let (mut at, mut start) = (at, at);
    for _ in 0..MOST_STEPS {
        match next_step(message, at, start)? {
            Step::Label(_, next) => at = next,
            Step::Pointer(to) => (at, start) = (to, to),
            Step::End => return Ok(()),
        }
    }
    Err(Astray { at, why: TOO_LONG })
}

/// A name of a message as text: its labels, each with a point after it. Bytes that are no letters,
/// digits, `-` or `_` are three digits after a `\`.
#[derive(Clone, Copy)]
pub struct NameText<'a> {
    /// The message.
    pub message: &'a [u8],
    /// Where the name begins.
    pub at: usize,
}

impl Display for NameText<'_> {
    fn fmt<W: Write>(&self, f: &mut Formatter<W>) -> fmt::Result {
        let (mut at, mut start) = (self.at, self.at);
        if let Ok(Step::End) = next_step(self.message, at, start) {
            return f.write_str(".");
        }
        for _ in 0..MOST_STEPS {
            match next_step(self.message, at, start) {
                Ok(Step::Label(label, next)) => {
                    write_label(label, f)?;
                    at = next;
                }
                Ok(Step::Pointer(to)) => (at, start) = (to, to),
                Ok(Step::End) | Err(_) => return Ok(()),
            }
        }
        Ok(())
    }
}

// Prints a label and a point.
fn write_label<W: Write>(label: &[u8], f: &mut Formatter<W>) -> fmt::Result {
    for byte in label {
        if byte.is_ascii_alphanumeric() || *byte == b'-' || *byte == b'_' {
            f.write_char(char::from(*byte))?;
        } else {
            write!(f, "\\{byte:03}")?;
        }
    }
    f.write_str(".")
}
