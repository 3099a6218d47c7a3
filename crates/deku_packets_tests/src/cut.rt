//! Captures that end too early, and headers one in another.

use deku::prelude::DekuError::Parse;
use deku_packets::packet::{Refusal, read_packet};
use deku_packets_program::{Wanted, run};
use std::alloc::{AllocError, Global};
use std::test::Fail;

// A capture that scapy wrote: a header of 24 bytes, a datagram over IPv4, and one over IPv6, of 45
// and 66 bytes, each after 16 bytes of its own.
const CAPTURE: &str = "4d3cb2a1020004000000000000000000ffff000001000000\
    00f15365000000002d0000002d000000\
    aabbcc000002aabbcc00000108004500001f000700004011f6c3c0000201c0000202\
    00010002000bb267626967\
    00f1536580b2e60e4200000042000000\
    aabbcc000002aabbcc00000186dd60000000000c114020010db8000000000000000000000001\
    20010db800000000000000000000000200010002000cc78d6e616e6f";

const LINES: &str = "\
1700000000.000000000 192.0.2.1:1 > 192.0.2.2:2 udp length 45 same
1700000000.250000000 [2001:db8::1]:1 > [2001:db8::2]:2 udp length 66 same
";

// The status of a run, what it prints and what it complains.
fn run_on(alloc: Global, bytes: &[u8]) -> Result<(u8, Vec<u8>, Vec<u8>), AllocError> {
    let wanted = Wanted {
        json: false,
        check: true,
    };
    let (mut output, mut errors) = (Vec::new(alloc), Vec::new(alloc));
    let mut input = bytes;
    let status = run(alloc, wanted, &mut input, &mut output, &mut errors);
    Ok((status, output, errors))
}

#[test]
fn whole(rt: HostRuntime) -> Result<(), Fail> {
    let capture = hex::decode(rt.alloc(), CAPTURE.as_bytes())?;
    let (status, output, errors) = run_on(rt.alloc(), capture.as_slice())?;
    assert_eq!(rt; status, 0);
    assert_eq!(rt; str::from_utf8(&output)?, LINES);
    assert_eq!(rt; errors.len(), 0);
    Ok(())
}

// A line for each packet that is whole, and one that says in what the file ends.
#[test]
fn cut_at_each_byte(rt: HostRuntime) -> Result<(), Fail> {
    let capture = hex::decode(rt.alloc(), CAPTURE.as_bytes())?;
    for length in 0..capture.len() {
        let cut = capture.get(..length).unwrap_or(&[]);
        let (status, output, errors) = run_on(rt.alloc(), cut)?;
        let (part, at, lines) = match length {
            0..24 => ("file header", 0, 0),
            24..40 => ("packet header", 24, 0),
            40..85 => ("packet", 40, 0),
            85..101 => ("packet header", 85, 1),
            _ => ("packet", 101, 1),
        };
        let is_end = length == 24 || length == 85;
        let told = format!(in rt.alloc();
            "error: Parse error: the file ends, in {part}, at byte {at}\n"
        )?;
        let wanted = if is_end { "" } else { told.as_str() };
        assert_eq!(rt; status, u8::from(!is_end));
        assert_eq!(rt; str::from_utf8(&errors)?, wanted);
        assert_eq!(rt; output.iter().filter(|byte| **byte == b'\n').count(), lines);
    }
    Ok(())
}

// The status, and the complaint, of captures that are none.
#[test]
fn no_capture(rt: HostRuntime) -> Result<(), Fail> {
    let mut capture = hex::decode(rt.alloc(), CAPTURE.as_bytes())?;
    if let Some(byte) = capture.get_mut(35) {
        *byte = 1;
    }
    let (status, _, errors) = run_on(rt.alloc(), capture.as_slice())?;
    assert_eq!(rt; status, 1);
    let told = "error: Parse error: more bytes than a capture keeps, in kept, at byte 32\n";
    assert_eq!(rt; str::from_utf8(&errors)?, told);
    if let Some(byte) = capture.get_mut(0) {
        *byte = 0;
    }
    let (status, _, errors) = run_on(rt.alloc(), capture.as_slice())?;
    assert_eq!(rt; status, 1);
    let told = "error: Parse error: not a pcap capture, in magic, at byte 0\n";
    assert_eq!(rt; str::from_utf8(&errors)?, told);
    Ok(())
}

// Headers, a header that is repeated after them, and its bytes: a tag of a virtual network, and
// options of IPv6.
const NESTS: &[(&str, &str, usize)] = &[
    ("aabbcc000002aabbcc0000018100", "00058100", 14 + 31 * 4),
    (
        "aabbcc000002aabbcc00000186dd\
         6000000006403c4020010db800000000000000000000000120010db8000000000000000000000002",
        "3c00010400000000",
        14 + 40 + 30 * 8,
    ),
    (
        "aabbcc000002aabbcc0000010800",
        "450000000000000040040000c0000201c0000202",
        14 + 31 * 20,
    ),
];

// 200 headers one in another are refused after 32 headers.
#[test]
fn one_in_another(rt: HostRuntime) -> Result<(), Fail> {
    for (first, header, at) in NESTS {
        let mut bytes = hex::decode(rt.alloc(), first.as_bytes())?;
        let again = hex::decode(rt.alloc(), header.as_bytes())?;
        for _ in 0..200 {
            bytes.extend_from_slice(again.as_slice())?;
        }
        let packet = read_packet(rt.alloc(), bytes.as_slice(), bytes.len(), 1);
        let wanted = Refusal {
            layer: "packet",
            field: "headers",
            at: *at,
            fault: Parse("too many headers"),
        };
        assert_eq!(rt; packet.refusal, Some(wanted));
        assert_eq!(rt; packet.layers.len(), 32);
    }
    Ok(())
}
