//! Tables as texts: a line is a row, and its columns have bars between them.

use deku::error::DekuError;
use deku_fields::Number;
use std::io::ErrorKind;
use std::test::Fail;

/// The most numbers or words of a column.
pub const MOST: usize = 16;

/// The most bytes of a column.
pub const ROOM: usize = 48;

/// The columns of a line that has two, without the spaces around them.
pub fn two(line: &str) -> Option<(&str, &str)> {
    let (first, second) = line.split_once('|')?;
    if second.contains('|') {
        return None;
    }
    Some((first.trim_matches(' '), second.trim_matches(' ')))
}

/// The columns of a line that has three.
pub fn three(line: &str) -> Option<(&str, &str, &str)> {
    let (first, rest) = line.split_once('|')?;
    let (second, third) = two(rest)?;
    Some((first.trim_matches(' '), second, third))
}

/// The columns of a line that has four.
pub fn four(line: &str) -> Option<(&str, &str, &str, &str)> {
    let (first, rest) = line.split_once('|')?;
    let (second, third, last) = three(rest)?;
    Some((first.trim_matches(' '), second, third, last))
}

/// The columns of a line that has five.
pub fn five(line: &str) -> Option<(&str, &str, &str, &str, &str)> {
    let (first, rest) = line.split_once('|')?;
    let (second, third, fourth, last) = four(rest)?;
    Some((first.trim_matches(' '), second, third, fourth, last))
}

/// What a column says. If it says nothing, that is a failure of this line.
pub fn known<T>(line: &str, said: Option<T>) -> Result<T, Fail> {
    match said {
        Some(said) => Ok(said),
        None => Err(Fail::new(format_args!("no row: {line}"))),
    }
}

/// What a call of this line returned. An error is a failure.
pub fn done<T>(line: &str, answer: Result<T, DekuError>) -> Result<T, Fail> {
    match answer {
        Ok(value) => Ok(value),
        Err(error) => Err(Fail::new(format_args!("error: {error:?}, in {line}"))),
    }
}

// A number in hexadecimal digits, with an s in front of it if its type has a sign.
fn number(word: &str) -> Option<Number> {
    match word.strip_prefix('s') {
        Some(digits) => Some(Number::Signed(i128::from_str_radix(digits, 16).ok()?)),
        None => Some(Number::Unsigned(u128::from_str_radix(word, 16).ok()?)),
    }
}

/// The numbers of a column.
#[derive(Clone, Copy)]
pub struct Numbers {
    places: [Number; MOST],
    count: usize,
}

impl Numbers {
    /// Of a column that has no more than there are places.
    pub fn parse(column: &str) -> Option<Numbers> {
        let (mut places, mut count) = ([Number::Unsigned(0); MOST], 0usize);
        for word in column.split_whitespace() {
            *places.get_mut(count)? = number(word)?;
            count = count.wrapping_add(1);
        }
        Some(Numbers { places, count })
    }

    pub fn as_slice(&self) -> &[Number] {
        self.places.get(..self.count).unwrap_or(&[])
    }
}

/// The bytes of a column.
#[derive(Clone, Copy)]
pub struct Bytes {
    places: [u8; ROOM],
    count: usize,
}

impl Bytes {
    /// Of a column that has no more than there are places.
    pub fn parse(column: &str) -> Option<Bytes> {
        let (mut places, mut count) = ([0; ROOM], 0usize);
        for word in column.split_whitespace() {
            *places.get_mut(count)? = u8::from_str_radix(word, 16).ok()?;
            count = count.wrapping_add(1);
        }
        Some(Bytes { places, count })
    }

    pub fn as_slice(&self) -> &[u8] {
        self.places.get(..self.count).unwrap_or(&[])
    }
}

/// The words of a column, which are put into these places.
pub fn words<'p, 't>(column: &'t str, places: &'p mut [&'t str; MOST]) -> Option<&'p [&'t str]> {
    let mut count: usize = 0;
    for word in column.split_whitespace() {
        *places.get_mut(count)? = word;
        count = count.wrapping_add(1);
    }
    places.get(..count)
}

/// The result that a column says: a number in decimal digits, `full` for an output without room, or
/// the text of a wrong parameter.
pub fn result(column: &'static str) -> Result<usize, DekuError> {
    if let Ok(number) = column.parse() {
        return Ok(number);
    }
    match column {
        "full" => Err(DekuError::Io(ErrorKind::WriteZero)),
        text => Err(DekuError::InvalidParam(text)),
    }
}
