//! Values of fields, as they are printed.

use deku_packets::name::NameText;
use serde::{Described, Serialize, Serializer};
use std::fmt;
use std::fmt::{Display, Formatter, Write};
use std::net::{Ipv4Addr, Ipv6Addr};

/// The value of a field.
#[derive(Clone, Copy)]
pub enum Value<'a> {
    Number(u64),
    Signed(i64),
    Flag(bool),
    /// The address of a network card.
    Hardware([u8; 6]),
    V4(Ipv4Addr),
    V6(Ipv6Addr),
    /// Bytes without a meaning that is known here.
    Bytes(&'a [u8]),
    Name(NameText<'a>),
    Text(&'a str),
}

impl Described for Value<'_> {}

/// Numbers are numbers, and flags are truth values; all else is text.
impl Serialize for Value<'_> {
    fn serialize<S: Serializer>(&self, out: &mut S) -> Result<(), S::Error> {
        match self {
            Value::Number(number) => out.u64(*number),
            Value::Signed(number) => out.i64(*number),
            Value::Flag(flag) => out.bool(*flag),
            Value::Hardware(address) => out.collect_str(&Hardware(*address)),
            Value::V4(address) => out.collect_str(address),
            Value::V6(address) => out.collect_str(address),
            Value::Bytes(bytes) => out.collect_str(&Hexadecimal(bytes)),
            Value::Name(name) => out.collect_str(name),
            Value::Text(text) => out.str(text),
        }
    }
}

/// The address of a network card: two digits for each byte, with colons between them.
#[derive(Clone, Copy)]
pub struct Hardware(pub [u8; 6]);

impl Display for Hardware {
    fn fmt<W: Write>(&self, f: &mut Formatter<W>) -> fmt::Result {
        let [a, b, c, d, e, g] = self.0;
        write!(f, "{a:02x}:{b:02x}:{c:02x}:{d:02x}:{e:02x}:{g:02x}")
    }
}

/// Bytes, two digits for each.
#[derive(Clone, Copy)]
pub struct Hexadecimal<'a>(pub &'a [u8]);

impl Display for Hexadecimal<'_> {
    fn fmt<W: Write>(&self, f: &mut Formatter<W>) -> fmt::Result {
        for byte in self.0 {
            write!(f, "{byte:02x}")?;
        }
        Ok(())
    }
}
