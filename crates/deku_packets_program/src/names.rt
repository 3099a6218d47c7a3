//! Names of numbers, as they are usually written.

/// A kind of resource, or `None` for one without a name here.
pub fn resource_name(kind: u16) -> Option<&'static str> {
    match kind {
        1 => Some("A"),
        2 => Some("NS"),
        5 => Some("CNAME"),
        6 => Some("SOA"),
        12 => Some("PTR"),
        15 => Some("MX"),
        16 => Some("TXT"),
        28 => Some("AAAA"),
        33 => Some("SRV"),
        41 => Some("OPT"),
        65 => Some("HTTPS"),
        255 => Some("ANY"),
        _ => None,
    }
}

/// Who sends a packet of network time.
pub fn mode_name(mode: u8) -> &'static str {
    match mode {
        1 => "active",
        2 => "passive",
        3 => "client",
        4 => "server",
        5 => "broadcast",
        _ => "other",
    }
}

/// What a record of TLS holds.
pub fn content_name(content: u8) -> &'static str {
    match content {
        20 => "change",
        21 => "alert",
        22 => "handshake",
        23 => "data",
        _ => "other",
    }
}
