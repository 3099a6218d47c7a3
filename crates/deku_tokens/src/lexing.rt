//! A text cut into tokens.

ghost use Rattle.std.specs.Prelude.{◌≡◌, ◌<◌, ◌≤◌, ◌+◌, length, IfSome};

use crate::token::Kind;

// What the first token is, and how many bytes it has.
pub(crate) fn first_token(rest: &[u8]) -> (Kind, usize)
    requires { 0 < length rest.now }
    ensures some { 0 < result.1 }
    ensures within { result.1 ≤ length rest.now }
{
    match rest[0] {
        b' ' | b'\t' | b'\r' | b'\n' => (Kind::Blank, run(rest, Class::Blank)),
        b'/' => slash(rest),
        b'"' => quoted(rest, Kind::Text),
        b'\'' => apostrophe(rest),
        b'0'..=b'9' => number(rest),
        b'b' => after_b(rest),
        b'r' => after_r(rest),
        first if is_word(first) => (Kind::Name, run(rest, Class::Word)),
        _ => mark(rest),
    }
}

// A set of bytes, to find a run of them.
#[derive(Clone, Copy)]
enum Class {
    Blank,
    Word,
    Line,
    Foreign,
}

impl Class {
    fn holds(self, byte: u8) -> bool {
        match self {
            Class::Blank => byte == b' ' || byte == b'\t' || byte == b'\r' || byte == b'\n',
            Class::Word => is_word(byte),
            Class::Line => byte != b'\n',
            Class::Foreign => byte >= 128 || byte < 32 || byte == 127,
        }
    }
}

fn is_word(byte: u8) -> bool {
    byte.is_ascii_alphanumeric() || byte == b'_'
}

// How many bytes at the front are of a class, or 1 if there is none.
fn run(rest: &[u8], class: Class) -> usize
    requires { 0 < length rest.now }
    ensures some { 0 < result }
    ensures within { result ≤ length rest.now }
{
    for (i, byte) in rest.iter().enumerate() {
        if !class.holds(*byte) {
            return i.max(1);
        }
    }
    rest.len()
}

// A comment, or a mark that begins with a slash.
fn slash(rest: &[u8]) -> (Kind, usize)
    requires { 0 < length rest.now }
    ensures some { 0 < result.1 }
    ensures within { result.1 ≤ length rest.now }
{
    match rest {
        [_, b'/', b'/', b'/', ..] => (Kind::Blank, run(rest, Class::Line)),
        [_, b'/', b'/', ..] => (Kind::Doc, run(rest, Class::Line)),
        [_, b'/', b'!', ..] => (Kind::InnerDoc, run(rest, Class::Line)),
        [_, b'/', ..] => (Kind::Blank, run(rest, Class::Line)),
        [_, b'*', ..] => comment(rest),
        _ => mark(rest),
    }
}

// A comment between marks, which may hold others.
fn comment(rest: &[u8]) -> (Kind, usize)
    requires { 0 < length rest.now }
    ensures some { 0 < result.1 }
    ensures within { result.1 ≤ length rest.now }
{
    let mut depth = 0usize;
    let mut last = 0;
    for (i, byte) in rest.iter().enumerate() {
        let pair = (last, *byte);
        last = *byte;
        if pair == (b'/', b'*') {
            depth = depth.saturating_add(1);
            last = 0;
        } else if pair == (b'*', b'/') {
            depth = depth.saturating_sub(1);
            last = 0;
            if depth == 0 {
                return (Kind::Blank, i + 1);
            }
        }
    }
    (Kind::Open, rest.len())
}

// What is between a quote at the front and the next one that no backslash hides.
fn quoted(rest: &[u8], kind: Kind) -> (Kind, usize)
    requires { 0 < length rest.now }
    ensures some { 0 < result.1 }
    ensures within { result.1 ≤ length rest.now }
{
    let quote = rest[0];
    let mut is_hidden = true;
    for (i, byte) in rest.iter().enumerate() {
        if is_hidden {
            is_hidden = false;
        } else if *byte == quote {
            return (kind, i + 1);
        } else {
            is_hidden = *byte == b'\\';
        }
    }
    (Kind::Open, rest.len())
}

// A lifetime or a character.
fn apostrophe(rest: &[u8]) -> (Kind, usize)
    requires { 0 < length rest.now }
    ensures some { 0 < result.1 }
    ensures within { result.1 ≤ length rest.now }
{
    match rest {
        [_, _, b'\'', ..] => (Kind::Character, 3),
        [_, first, ..] if is_word(*first) => (Kind::Lifetime, 1 + run(&rest[1..], Class::Word)),
        _ => quoted(rest, Kind::Character),
    }
}

// A byte, bytes, or a name that begins with b.
fn after_b(rest: &[u8]) -> (Kind, usize)
    requires { 0 < length rest.now }
    ensures some { 0 < result.1 }
    ensures within { result.1 ≤ length rest.now }
{
    let kind = match rest {
        [_, b'"', ..] => Kind::Bytes,
        [_, b'\'', ..] => Kind::Byte,
        _ => return (Kind::Name, run(rest, Class::Word)),
    };
    let (kind, len) = quoted(&rest[1..], kind);
    (kind, len + 1)
}

// A raw name, or a name that begins with r.
fn after_r(rest: &[u8]) -> (Kind, usize)
    requires { 0 < length rest.now }
    ensures some { 0 < result.1 }
    ensures within { result.1 ≤ length rest.now }
{
    match rest {
        [_, b'#', first, ..] if is_word(*first) => (Kind::Name, 2 + run(&rest[2..], Class::Word)),
        _ => (Kind::Name, run(rest, Class::Word)),
    }
}

// A number up to the end of its word, with a part after a point if a digit follows the point.
fn number(rest: &[u8]) -> (Kind, usize)
    requires { 0 < length rest.now }
    ensures some { 0 < result.1 }
    ensures within { result.1 ≤ length rest.now }
{
    let len = run(rest, Class::Word);
    match &rest[len..] {
        [b'.', digit, ..] if digit.is_ascii_digit() => {
            (Kind::Float, len + 1 + run(&rest[len + 1..], Class::Word))
        }
        _ => (Kind::Integer, len),
    }
}

// A mark: three characters of a range, two of an operator, or one. A shift is two marks, since `>>`
// also ends two lists of types.
fn mark(rest: &[u8]) -> (Kind, usize)
    requires { 0 < length rest.now }
    ensures some { 0 < result.1 }
    ensures within { result.1 ≤ length rest.now }
{
    match rest {
        [b'.', b'.', b'=', ..] => (Kind::Mark, 3),
        [b'.', b'.', ..]
        | [b':', b':', ..]
        | [b'-', b'>', ..]
        | [b'=', b'>', ..]
        | [b'=' | b'!' | b'<' | b'>', b'=', ..]
        | [b'&', b'&', ..]
        | [b'|', b'|', ..] => (Kind::Mark, 2),
        [first, ..] if first.is_ascii_punctuation() => (Kind::Mark, 1),
        _ => (Kind::Foreign, run(rest, Class::Foreign)),
    }
}
