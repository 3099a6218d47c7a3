//! Packets that cannot be read: which layer and field say so, where, and why.

use deku_packets::packet::read_packet;
use std::alloc::Global;
use std::fmt::Write;
use std::test::Fail;

// The header of a frame that holds IPv4, and one that holds IPv6.
const FRAME_4: &str = "aabbcc000002aabbcc0000010800";

const FRAME_6: &str = "aabbcc000002aabbcc00000186dd";

// An IPv4 header after its length, before UDP and before TCP.
const UDP_4: &str = "0000000040110000c0000201c0000202";

const TCP_4: &str = "0000000040060000c0000201c0000202";

// The parts of a packet in hexadecimal, and its refusal: headers that are cut, and lengths, counts,
// options and names that cannot be.
const CASES: &[(&[&str], &str)] = &[
    (
        &["aabbcc000002aabb"],
        "ethernet, source, at 8: Not enough data, need 8 bits (or 1 bytes)",
    ),
    (
        &[FRAME_4, "55000014", UDP_4],
        "ipv4, version, at 14: version",
    ),
    (
        &[FRAME_4, "44000014", UDP_4],
        "ipv4, words, at 14: Parse error: head without a count",
    ),
    (
        &[FRAME_4, "4600001c", UDP_4, "0101"],
        "ipv4, options, at 36: Not enough data, need 8 bits (or 1 bytes)",
    ),
    (
        &[FRAME_4, "4500000a", UDP_4],
        "ipv4, total, at 16: Parse error: length below its header",
    ),
    (
        &[FRAME_4, "45000100", UDP_4],
        "ipv4, total, at 16: Parse error: length past the packet",
    ),
    (
        &[FRAME_4, "4500001c", UDP_4, "0fa0000900070000"],
        "udp, length, at 38: Parse error: length below its header",
    ),
    (
        &[FRAME_4, "4500001c", UDP_4, "0fa0000900090000"],
        "udp, length, at 38: Parse error: length past the packet",
    ),
    (
        &[FRAME_4, "45000018", UDP_4, "00010002"],
        "udp, length, at 38: Not enough data, need 16 bits (or 2 bytes)",
    ),
    (
        &[
            FRAME_6,
            "6000000000013b40",
            "0000000000000000000000000000000000000000000000000000000000000000",
        ],
        "ipv6, length, at 18: Parse error: length past the packet",
    ),
    (
        &[
            FRAME_4,
            "4500002c",
            TCP_4,
            "000100020000000000000000600200000000000002000101",
        ],
        "option, length, at 55: Parse error: head without a count",
    ),
    (
        &[
            FRAME_4,
            "4500002c",
            TCP_4,
            "000100020000000000000000600200000000000001020101",
        ],
        "option, length, at 56: Parse error: head without a count",
    ),
    (
        &[
            FRAME_4,
            "4500002c",
            TCP_4,
            "000100020000000000000000600200000000000001010207",
        ],
        "option, bytes, at 58: Not enough data, need 8 bits (or 1 bytes)",
    ),
    (
        &[
            FRAME_4,
            "45000028",
            TCP_4,
            "0001000200000000000000004002000000000000",
        ],
        "tcp, words, at 46: Parse error: head without a count",
    ),
    (
        &[
            FRAME_4,
            "4500002e",
            UDP_4,
            "0fa00035001a0000000101000001000000000000c00c00010001",
        ],
        "question, name, at 54: Parse error: pointer that does not lead back",
    ),
    (
        &[
            FRAME_4,
            "4500002e",
            UDP_4,
            "0fa00035001a0000000101000001000000000000c02000010001",
        ],
        "question, name, at 54: Parse error: pointer that does not lead back",
    ),
    (
        &[
            FRAME_4,
            "45000030",
            UDP_4,
            "0fa00035001c00000001010000010000000000000161c00c00010001",
        ],
        "question, name, at 56: Parse error: pointer that does not lead back",
    ),
    (
        &[
            FRAME_4,
            "4500002e",
            UDP_4,
            "0fa00035001a0000000101000001000000000000400000010001",
        ],
        "question, name, at 55: Parse error: head without a count",
    ),
    (
        &[
            FRAME_4,
            "4500002f",
            UDP_4,
            "0fa00035001b000000010100000200000000000001610000010001",
        ],
        "question, name, kind or class, at 61: Not enough data, need 8 bits (or 1 bytes)",
    ),
    (
        &[
            FRAME_4,
            "4500002f",
            UDP_4,
            "0fa00035001b000000010100ffff00000000000001610000010001",
        ],
        "question, name, kind or class, at 61: Not enough data, need 8 bits (or 1 bytes)",
    ),
    (
        &[
            FRAME_4,
            "4500003f",
            UDP_4,
            "0fa00035002b000000010100000100010000000001610000010001c00c0001000100000001000561626364",
        ],
        "resource, name, kind, class, life, length or bytes, at 77: Not enough data, need 8 bits (or 1 bytes)",
    ),
    (
        &[
            FRAME_4,
            "4500003d",
            UDP_4,
            "0fa000350029000000010100000100010000000001610000010001c00c00050001000000010002c01f",
        ],
        "target, name, at 73: Parse error: pointer that does not lead back",
    ),
    (
        &[
            "aabbcc000002aabbcc0000010806",
            "000208000604",
            "00000000000000000000000000000000000000000000",
        ],
        "arp, hardware, at 15: hardware",
    ),
];

// The bytes of parts in hexadecimal.
fn bytes_of(alloc: Global, parts: &[&str]) -> Result<Vec<u8>, Fail> {
    let mut bytes = Vec::new(alloc);
    for part in parts {
        bytes.extend_from_slice(hex::decode(alloc, part.as_bytes())?.as_slice())?;
    }
    Ok(bytes)
}

// The refusal of a packet, as a line.
fn told_of(alloc: Global, parts: &[&str]) -> Result<String, Fail> {
    let bytes = bytes_of(alloc, parts)?;
    let packet = read_packet(alloc, bytes.as_slice(), bytes.len(), 1);
    let Some(refusal) = packet.refusal else {
        return Ok(String::from_str(alloc, "none")?);
    };
    let (layer, field) = (refusal.layer, refusal.field);
    let (at, fault) = (refusal.at, refusal.fault);
    Ok(format!(in alloc; "{layer}, {field}, at {at}: {fault}")?)
}

#[test]
fn names_what_is_wrong(rt: HostRuntime) -> Result<(), Fail> {
    let (mut found, mut expected) = (String::new(rt.alloc()), String::new(rt.alloc()));
    for (parts, wanted) in CASES {
        let told = told_of(rt.alloc(), parts)?;
        writeln!(found, "{told}")?;
        writeln!(expected, "{wanted}")?;
    }
    assert_eq!(rt; found.as_str(), expected.as_str());
    Ok(())
}
