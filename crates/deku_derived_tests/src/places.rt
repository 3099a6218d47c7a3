//! Records that are refused, and where.

use crate::gre::Gre;
use deku_located::{Located, unpack_located};
use deku_messages::ntp::Ntp;
use deku_transport::tcp::Tcp;
use std::alloc::{AllocError, Global};
use std::test::Fail;

// Records, their bytes, and what is said of these: nothing, if there is a record at their start.
const ROWS: &str = "ntp||Not enough data, need 2 bits (or 1 bytes), in leap, at bit 0
ntp|230206|Not enough data, need 8 bits (or 1 bytes), in precision, at bit 24
ntp|230206ec00|Not enough data, need 32 bits (or 4 bytes), in root_delay, at bit 32
gre|00000800|
gre|c0000800|padding, in padding, at bit 1
gre|900008001234|Not enough data, need 32 bits (or 4 bytes), in checksum, at bit 32
gre|3000080000000007|Not enough data, need 32 bits (or 4 bytes), in sequence, at bit 64
tcp|00000000000000000000000050000000000000000000|
tcp|0000000000000000000000004000000000000000|Parse error: head without a count, in options, at bit 160
tcp|000000000000000000000000600000000000000001|Not enough data, need 8 bits (or 1 bytes), in options, at bit 160";

#[test]
fn refusals_name_a_field(rt: HostRuntime) -> Result<(), Fail> {
    let alloc = rt.alloc();
    for row in ROWS.lines() {
        let (name, rest) = row.split_once('|').ok_or("a row without a bar")?;
        let (digits, wanted) = rest.split_once('|').ok_or("a row without a second bar")?;
        let bytes = hex::decode(alloc, digits)?;
        let said = said_of(alloc, name, bytes.as_slice())?;
        assert_eq!(rt; said.as_str(), wanted, "of {row}");
    }
    Ok(())
}

// What is said of the bytes of a record.
fn said_of(alloc: Global, name: &str, bytes: &[u8]) -> Result<String, AllocError> {
    match name {
        "ntp" => told(alloc, &unpack_located::<Ntp>(alloc, bytes, &Ntp::FIELDS)),
        "gre" => told(alloc, &unpack_located::<Gre>(alloc, bytes, &Gre::FIELDS)),
        _ => told(alloc, &unpack_located::<Tcp>(alloc, bytes, &Tcp::FIELDS)),
    }
}

fn told<T>(alloc: Global, read: &Result<T, Located>) -> Result<String, AllocError> {
    match read {
        Ok(_) => Ok(String::new(alloc)),
        Err(located) => format!(in alloc; "{located}"),
    }
}
