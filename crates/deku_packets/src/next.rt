//! What follows a header, by the number that the header has for it.

/// What follows in a packet.
#[derive(Debug, Clone, Copy, PartialEq, Eq)]
pub enum Next {
    Ethernet,
    Tag,
    Arp,
    /// IPv4 or IPv6, as the version says.
    Ip,
    Ipv4,
    Ipv6,
    Options,
    Routing,
    Fragment,
    Icmp,
    Icmpv6,
    Udp,
    Tcp,
    Dns,
    Ntp,
    Rtp,
    Tls,
    /// Bytes that no record describes.
    Rest,
}

impl Next {
    /// By the network of a capture file.
    pub fn of_network(network: u32) -> Next {
        match network & 0xFFFF {
            1 => Next::Ethernet,
            101 | 228 | 229 => Next::Ip,
            _ => Next::Rest,
        }
    }

    /// By the kind of an Ethernet frame or of a tag.
    pub fn of_kind(kind: u16) -> Next {
        match kind {
            0x0800 => Next::Ipv4,
            0x0806 => Next::Arp,
            0x8100 | 0x88A8 => Next::Tag,
            0x86DD => Next::Ipv6,
            _ => Next::Rest,
        }
    }

    /// By the protocol of an IPv4 packet.
    pub fn of_protocol(protocol: u8) -> Next {
        match protocol {
            1 => Next::Icmp,
            4 => Next::Ipv4,
            6 => Next::Tcp,
            17 => Next::Udp,
            41 => Next::Ipv6,
            _ => Next::Rest,
        }
    }

    /// By the next header of IPv6.
    pub fn of_header(header: u8) -> Next {
        match header {
            0 | 60 => Next::Options,
            43 => Next::Routing,
            44 => Next::Fragment,
            58 => Next::Icmpv6,
            1 => Next::Rest,
            _ => Next::of_protocol(header),
        }
    }

    /// By a port of a datagram.
    pub fn of_port(port: u16) -> Option<Next> {
        match port {
            53 | 5353 => Some(Next::Dns),
            123 => Some(Next::Ntp),
            5004 => Some(Next::Rtp),
            _ => None,
        }
    }
}
