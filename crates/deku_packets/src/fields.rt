//! The names of the fields of each layer, and how many bits they have.

use crate::layer::Fields;

/// Of a packet as a whole.
pub const PACKET: Fields = Fields {
    layer: "packet",
    places: &[],
    counting: "headers",
    last: "bytes",
};

/// Of the header of an Ethernet frame.
pub const ETHERNET: Fields = Fields {
    layer: "ethernet",
    places: &[("destination", 48), ("source", 48), ("kind", 16)],
    counting: "kind",
    last: "kind",
};

/// Of the tag of a virtual network.
pub const TAG: Fields = Fields {
    layer: "tag",
    places: &[
        ("priority", 3),
        ("may_drop", 1),
        ("network", 12),
        ("kind", 16),
    ],
    counting: "kind",
    last: "kind",
};

/// Of a question for an address, and its answer.
pub const ARP: Fields = Fields {
    layer: "arp",
    places: &[
        ("hardware", 16),
        ("protocol", 16),
        ("hardware_length", 8),
        ("protocol_length", 8),
        ("operation", 16),
        ("sender_hardware", 48),
        ("sender", 32),
        ("target_hardware", 48),
        ("target", 32),
    ],
    counting: "protocol_length",
    last: "target",
};

/// Of the header of an IPv4 packet.
pub const IPV4: Fields = Fields {
    layer: "ipv4",
    places: &[
        ("version", 4),
        ("words", 4),
        ("service", 6),
        ("congestion", 2),
        ("total", 16),
        ("identification", 16),
        ("reserved", 1),
        ("keep_whole", 1),
        ("more", 1),
        ("offset", 13),
        ("hops", 8),
        ("protocol", 8),
        ("checksum", 16),
        ("source", 32),
        ("destination", 32),
    ],
    counting: "words",
    last: "options",
};

/// Of the header of an IPv6 packet.
pub const IPV6: Fields = Fields {
    layer: "ipv6",
    places: &[
        ("version", 4),
        ("class", 8),
        ("flow", 20),
        ("length", 16),
        ("next", 8),
        ("hops", 8),
        ("source", 128),
        ("destination", 128),
    ],
    counting: "length",
    last: "destination",
};

/// Of an extension header with options.
pub const OPTIONS: Fields = Fields {
    layer: "options",
    places: &[("next", 8), ("length", 8)],
    counting: "length",
    last: "options",
};

/// Of the extension header that lists routers.
pub const ROUTING: Fields = Fields {
    layer: "routing",
    places: &[("next", 8), ("length", 8), ("kind", 8), ("left", 8)],
    counting: "length",
    last: "route",
};

/// Of the extension header of a fragment.
pub const FRAGMENT: Fields = Fields {
    layer: "fragment",
    places: &[
        ("next", 8),
        ("reserved", 8),
        ("offset", 13),
        ("unused", 2),
        ("more", 1),
        ("identification", 32),
    ],
    counting: "next",
    last: "identification",
};

/// Of a message of ICMP.
pub const ICMP: Fields = Fields {
    layer: "icmp",
    places: &[("kind", 8), ("code", 8), ("checksum", 16)],
    counting: "kind",
    last: "message",
};

/// Of a message of ICMPv6.
pub const ICMPV6: Fields = Fields {
    layer: "icmpv6",
    places: &[("kind", 8), ("code", 8), ("checksum", 16)],
    counting: "kind",
    last: "message",
};

/// Of the header of a UDP datagram.
pub const UDP: Fields = Fields {
    layer: "udp",
    places: &[
        ("source", 16),
        ("destination", 16),
        ("length", 16),
        ("checksum", 16),
    ],
    counting: "length",
    last: "checksum",
};

/// Of the header of a TCP segment.
pub const TCP: Fields = Fields {
    layer: "tcp",
    places: &[
        ("source", 16),
        ("destination", 16),
        ("sequence", 32),
        ("acknowledgment", 32),
        ("words", 4),
        ("reserved", 4),
        ("cwr", 1),
        ("ece", 1),
        ("urg", 1),
        ("ack", 1),
        ("psh", 1),
        ("rst", 1),
        ("syn", 1),
        ("fin", 1),
        ("window", 16),
        ("checksum", 16),
        ("urgent", 16),
    ],
    counting: "words",
    last: "options",
};

/// Of an option of a TCP segment.
pub const TCP_OPTION: Fields = Fields {
    layer: "option",
    places: &[("kind", 8), ("length", 8)],
    counting: "length",
    last: "bytes",
};

/// Of the largest segment that the sender can take.
pub const LARGEST_SEGMENT: Fields = Fields {
    layer: "largest_segment",
    places: &[("size", 16)],
    counting: "size",
    last: "size",
};

/// Of the scale of the window.
pub const WINDOW_SCALE: Fields = Fields {
    layer: "window_scale",
    places: &[("shift", 8)],
    counting: "shift",
    last: "shift",
};

/// Of bytes that came out of order.
pub const BLOCK: Fields = Fields {
    layer: "block",
    places: &[("left", 32), ("right", 32)],
    counting: "left",
    last: "right",
};

/// Of the clocks of both sides.
pub const TIMES: Fields = Fields {
    layer: "times",
    places: &[("value", 32), ("echo", 32)],
    counting: "value",
    last: "echo",
};

/// Of the header of a message of the domain name system.
pub const DNS: Fields = Fields {
    layer: "dns",
    places: &[
        ("id", 16),
        ("is_answer", 1),
        ("opcode", 4),
        ("is_authoritative", 1),
        ("is_cut", 1),
        ("wants_recursion", 1),
        ("has_recursion", 1),
        ("reserved", 1),
        ("is_checked", 1),
        ("may_be_unchecked", 1),
        ("outcome", 4),
        ("questions", 16),
        ("answers", 16),
        ("authorities", 16),
        ("additionals", 16),
    ],
    counting: "questions",
    last: "additionals",
};

/// Of a question. Where its name ends is not known before it is read.
pub const QUESTION: Fields = Fields {
    layer: "question",
    places: &[],
    counting: "name",
    last: "name, kind or class",
};

/// Of a resource.
pub const RESOURCE: Fields = Fields {
    layer: "resource",
    places: &[],
    counting: "name",
    last: "name, kind, class, life, length or bytes",
};

/// Of a resource that is a name.
pub const TARGET: Fields = Fields {
    layer: "target",
    places: &[],
    counting: "name",
    last: "name",
};

/// Of a resource that is a server of mail.
pub const MAIL_SERVER: Fields = Fields {
    layer: "mail_server",
    places: &[("preference", 16)],
    counting: "name",
    last: "name",
};

/// Of a resource that says who is in charge.
pub const AUTHORITY: Fields = Fields {
    layer: "authority",
    places: &[],
    counting: "server or mailbox",
    last: "server, mailbox or numbers",
};

/// Of a text of a resource.
pub const TEXT: Fields = Fields {
    layer: "text",
    places: &[("length", 8)],
    counting: "length",
    last: "bytes",
};

/// Of the header of a packet of network time.
pub const NTP: Fields = Fields {
    layer: "ntp",
    places: &[
        ("leap", 2),
        ("version", 3),
        ("mode", 3),
        ("stratum", 8),
        ("poll", 8),
        ("precision", 8),
        ("root_delay", 32),
        ("root_dispersion", 32),
        ("reference_id", 32),
        ("reference", 64),
        ("origin", 64),
        ("receive", 64),
        ("transmit", 64),
    ],
    counting: "mode",
    last: "transmit",
};

/// Of the header of a packet of RTP.
pub const RTP: Fields = Fields {
    layer: "rtp",
    places: &[
        ("version", 2),
        ("padding", 1),
        ("extension", 1),
        ("source_count", 4),
        ("marker", 1),
        ("payload_type", 7),
        ("sequence", 16),
        ("timestamp", 32),
        ("source", 32),
    ],
    counting: "source_count",
    last: "contributing",
};

/// Of the header of a record of TLS.
pub const TLS: Fields = Fields {
    layer: "tls",
    places: &[("content", 8), ("version", 16), ("length", 16)],
    counting: "length",
    last: "length",
};

/// Of bytes that no record describes.
pub const REST: Fields = Fields {
    layer: "rest",
    places: &[],
    counting: "bytes",
    last: "bytes",
};
