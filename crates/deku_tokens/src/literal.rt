//! What literals are worth.

ghost use Rattle.std.specs.Prelude.{◌<◌, ◌≤◌, length, IfSome, vec_len, IfOk};

use std::alloc::{AllocError, Global};

const TYPES: [&str; 12] = [
    "u8", "u16", "u32", "u64", "u128", "usize", "i8", "i16", "i32", "i64", "i128", "isize",
];

/// The value of a whole number as Rust writes it, with its base, underscores and suffix. `None` if
/// it is no such number, or has more than 64 bits.
///
/// ```text
/// integer("0x08_00u16")    // Some(2048)
/// ```
pub fn integer(text: &str) -> Option<u64> {
    let suffix = text.find(['u', 'i']).unwrap_or(text.len());
    let kind = text.get(suffix..)?;
    if !kind.is_empty() && !TYPES.contains(&kind) {
        return None;
    }
    let digits = text.get(..suffix)?;
    if let Some(digits) = digits.strip_prefix("0x") {
        value(digits, 16)
    } else if let Some(digits) = digits.strip_prefix("0o") {
        value(digits, 8)
    } else if let Some(digits) = digits.strip_prefix("0b") {
        value(digits, 2)
    } else {
        value(digits, 10)
    }
}

// The value of digits under a base.
fn value(digits: &str, base: u64) -> Option<u64> {
    let mut value = None;
    for byte in digits.bytes() {
        if byte != b'_' {
            let digit = digit(byte)?;
            if digit >= base {
                return None;
            }
            let before = value.unwrap_or(0u64);
            value = Some(before.checked_mul(base)?.checked_add(digit)?);
        }
    }
    value
}

// The value of a digit in base 16.
fn digit(byte: u8) -> Option<u64>
    ensures { IfSome result (λ d. d < 16) }
{
    match byte {
        b'0'..=b'9' => Some(u64::from(byte - b'0')),
        b'a'..=b'f' => Some(u64::from(byte - b'a') + 10),
        b'A'..=b'F' => Some(u64::from(byte - b'A') + 10),
        _ => None,
    }
}

// What of an escape was read.
#[derive(Clone, Copy)]
enum Escape {
    None,
    Backslash,
    Hex,
    HexAfter(u8),
    NextLine,
}

/// The bytes of a literal of a byte or bytes, with its escapes. `None` if it is no such literal.
///
/// # Errors
///
/// `AllocError` if there is no memory.
///
/// ```text
/// bytes(alloc, r#"b"\x89PNG\n""#)?    // 89 50 4E 47 0A
/// ```
pub fn bytes(alloc: Global, text: &str) -> Result<Option<Vec<u8>>, AllocError> {
    let [b'b', b'"' | b'\'', inner @ .., _] = text.as_bytes() else {
        return Ok(None);
    };
    let mut bytes = Vec::new(alloc);
    let mut state = Escape::None;
    for byte in inner {
        match escaped(state, *byte) {
            Some((next, out)) => {
                state = next;
                if let Some(out) = out {
                    bytes.push(out)?;
                }
            }
            None => return Ok(None),
        }
    }
    Ok(Some(bytes))
}

// The state after one more byte, and the byte that is complete with it. `None` if no escape goes on
// so.
fn escaped(state: Escape, byte: u8) -> Option<(Escape, Option<u8>)> {
    match (state, byte) {
        (Escape::None, b'\\') => Some((Escape::Backslash, None)),
        (Escape::NextLine, b' ' | b'\t' | b'\r' | b'\n') => Some((Escape::NextLine, None)),
        (Escape::NextLine, b'\\') => Some((Escape::Backslash, None)),
        (Escape::None | Escape::NextLine, _) => Some((Escape::None, Some(byte))),
        (Escape::Backslash, b'x') => Some((Escape::Hex, None)),
        (Escape::Backslash, b'\n') => Some((Escape::NextLine, None)),
        (Escape::Backslash, _) => Some((Escape::None, Some(simple_escape(byte)?))),
        (Escape::Hex, _) => Some((Escape::HexAfter(hex(byte)?), None)),
        (Escape::HexAfter(high), _) => Some((Escape::None, Some(both(high, hex(byte)?)))),
    }
}

fn simple_escape(byte: u8) -> Option<u8> {
    match byte {
        b'n' => Some(b'\n'),
        b'r' => Some(b'\r'),
        b't' => Some(b'\t'),
        b'0' => Some(0),
        b'\\' | b'"' | b'\'' => Some(byte),
        _ => None,
    }
}

fn hex(byte: u8) -> Option<u8> {
    u8::try_from(digit(byte)?).ok()
}

// The byte of two digits in base 16.
fn both(high: u8, low: u8) -> u8 {
    (high << 4) | low
}
