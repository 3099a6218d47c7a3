//! Contexts by their names, and what is meant if none is given.

use deku_num::ctx::{BitSize, ByteSize, Endian, Order, ParseEndianError};
use std::str::FromStr;

// Texts, and the endian that each names.
const NAMES: [(&str, Result<Endian, ParseEndianError>); 6] = [
    ("little", Ok(Endian::Little)),
    ("big", Ok(Endian::Big)),
    ("", Err(ParseEndianError {})),
    ("Big", Err(ParseEndianError {})),
    ("little ", Err(ParseEndianError {})),
    ("native", Err(ParseEndianError {})),
];

#[test]
fn endians_by_name(rt: HostRuntime) {
    for (text, want) in &NAMES {
        let named = Endian::from_str(text);
        assert!(rt; named == *want, "{text:?}: {named:?}");
    }
}

#[test]
fn where_none_is_given(rt: HostRuntime) {
    let seen = (Endian::new(), Endian::default(), Order::default());
    let want = (Endian::Little, Endian::Little, Order::Msb0);
    assert!(rt; seen == want, "{seen:?}");
}

// An endian, and whether it is big.
const ENDIANS: [(Endian, bool); 2] = [(Endian::Little, false), (Endian::Big, true)];

#[test]
fn endians_tell_which(rt: HostRuntime) {
    for (endian, big) in &ENDIANS {
        let seen = (endian.is_le(), endian.is_be());
        assert!(rt; seen == (!*big, *big), "{endian:?}: {seen:?}");
    }
}

// Sizes are ordered by their number.
#[test]
fn sizes_in_order(rt: HostRuntime) {
    let bits = (BitSize(3) < BitSize(4), BitSize(4) < BitSize(4));
    let bytes = (ByteSize(3) < ByteSize(4), ByteSize(4) < ByteSize(4));
    assert!(rt;
        bits == (true, false) && bytes == bits,
        "{bits:?}, {bytes:?}"
    );
}
