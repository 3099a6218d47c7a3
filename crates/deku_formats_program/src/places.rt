//! The fields of records: their names, in order, and which of them has a bit.

/// The name of a field, and how many bits it has.
pub type Place = (&'static str, usize);

/// The fields of fixed places, in order, in the signals of a CAN data frame.
pub const CAN: [Place; 6] = [
    ("wheel", 12),
    ("gear", 4),
    ("torque", 16),
    ("flags", 3),
    ("padding", 5),
    ("yaw", 24),
];

/// The same in a space packet.
pub const CCSDS: [Place; 7] = [
    ("version", 3),
    ("kind", 1),
    ("secondary", 1),
    ("application", 11),
    ("grouping", 2),
    ("count", 14),
    ("length", 16),
];

/// The same in a sample of its telemetry.
pub const SAMPLE: [Place; 2] = [("voltage", 10), ("current", 12)];

/// The same in a message of the domain name system.
pub const DNS: [Place; 13] = [
    ("identification", 16),
    ("response", 1),
    ("opcode", 4),
    ("authoritative", 1),
    ("truncated", 1),
    ("recursion_desired", 1),
    ("recursion_available", 1),
    ("reserved", 3),
    ("response_code", 4),
    ("questions", 16),
    ("answers", 16),
    ("authorities", 16),
    ("additionals", 16),
];

/// The same in its question, after the name.
pub const QUESTION: [Place; 2] = [("kind", 16), ("class", 16)];

/// The same in the file header of an ELF64 file.
pub const ELF: [Place; 20] = [
    ("magic", 32),
    ("class", 8),
    ("endian", 8),
    ("identification", 8),
    ("abi", 8),
    ("abi_version", 8),
    ("padding", 56),
    ("kind", 16),
    ("machine", 16),
    ("version", 32),
    ("entry", 64),
    ("segments_at", 64),
    ("sections_at", 64),
    ("flags", 32),
    ("header_size", 16),
    ("segment_size", 16),
    ("segment_count", 16),
    ("section_size", 16),
    ("section_count", 16),
    ("section_names", 16),
];

/// The same in the header of an IPv4 packet.
pub const IPV4: [Place; 15] = [
    ("version", 4),
    ("words", 4),
    ("service", 6),
    ("congestion", 2),
    ("total", 16),
    ("identification", 16),
    ("reserved", 1),
    ("keep_whole", 1),
    ("more", 1),
    ("offset", 13),
    ("hops", 8),
    ("protocol", 8),
    ("checksum", 16),
    ("source", 32),
    ("destination", 32),
];

/// The same at the beginning of a PNG file.
pub const PNG: [Place; 11] = [
    ("signature", 64),
    ("length", 32),
    ("type", 32),
    ("width", 32),
    ("height", 32),
    ("depth", 8),
    ("colour", 8),
    ("compression", 8),
    ("filter", 8),
    ("interlace", 8),
    ("crc", 32),
];

/// The same in an instruction word. The layout of its operands depends on the code.
pub const RISCV: [Place; 1] = [("code", 7)];

/// The same in the header of a UDP datagram.
pub const UDP: [Place; 4] = [
    ("source", 16),
    ("destination", 16),
    ("length", 16),
    ("checksum", 16),
];

/// The name of the field that has this bit. After all of them, the name of what follows.
pub fn name_at(places: &[Place], bit: usize, last: &'static str) -> &'static str {
    let mut left = bit;
    for (name, bits) in places {
        if left < *bits {
            return *name;
        }
        left -= *bits;
    }
    last
}
