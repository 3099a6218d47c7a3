//! Headers of packets as Linux sent them over its loopback device, read from a raw socket: what was
//! asked for is known, and the kernel made the rest.

use deku::prelude::{DekuError, DekuUpdate, NeedSize};
use deku_formats::checksum::{is_intact, ones_sum};
use deku_network::ipv4::Ipv4;
use deku_testing_values::records::{expect_record, expect_refusal};
use deku_transport::udp::Udp;
use std::alloc::Global;
use std::net::Ipv4Addr;
use std::test::Fail;

// Source and destination, length and check sum, and the bytes: of a datagram of the two bytes "hi",
// from port 40123 to port 53535 of 127.0.0.1, and of a question from port 1161.
const DATAGRAMS: [([u16; 4], [u8; 8]); 2] = [
    (
        [40123, 53535, 10, 0xFE1D],
        [0x9C, 0xBB, 0xD1, 0x1F, 0x00, 0x0A, 0xFE, 0x1D],
    ),
    (
        [1161, 53, 44, 0xABB4],
        [0x04, 0x89, 0x00, 0x35, 0x00, 0x2C, 0xAB, 0xB4],
    ),
];

#[test]
fn datagrams(rt: HostRuntime) -> Result<(), Fail> {
    for ([source, destination, length, checksum], bytes) in DATAGRAMS {
        let header = Udp {
            source,
            destination,
            length,
            checksum,
        };
        expect_record(rt.alloc(), &header, &bytes)?;
    }
    Ok(())
}

// The header in front of it.
const HEADER: [u8; 20] = [
    0x45, 0x00, 0x00, 0x1E, 0x4F, 0x0B, 0x40, 0x00, 0x40, 0x11, 0xED, 0xC1, 0x7F, 0x00, 0x00, 0x01,
    0x7F, 0x00, 0x00, 0x01,
];

// What it says.
fn header(alloc: Global) -> Ipv4 {
    Ipv4 {
        version: 4,
        words: 5,
        service: 0,
        congestion: 0,
        total: 30,
        identification: 0x4F0B,
        reserved: false,
        keep_whole: true,
        more: false,
        offset: 0,
        hops: 64,
        protocol: 17,
        checksum: 0xEDC1,
        source: Ipv4Addr::new(127, 0, 0, 1),
        destination: Ipv4Addr::new(127, 0, 0, 1),
        options: Vec::new(alloc),
    }
}

// A segment of TCP between two addresses, as packets are shown by analysers.
const SEGMENT: [u8; 20] = [
    0x45, 0x00, 0x00, 0x3C, 0x1C, 0x46, 0x40, 0x00, 0x40, 0x06, 0xB1, 0xE6, 0xAC, 0x10, 0x0A, 0x63,
    0xAC, 0x10, 0x0A, 0x0C,
];

// What its header says.
fn segment_header(alloc: Global) -> Ipv4 {
    Ipv4 {
        total: 60,
        identification: 0x1C46,
        protocol: 6,
        checksum: 0xB1E6,
        source: Ipv4Addr::new(172, 16, 10, 99),
        destination: Ipv4Addr::new(172, 16, 10, 12),
        ..header(alloc)
    }
}

#[test]
fn headers(rt: HostRuntime) -> Result<(), Fail> {
    expect_record(rt.alloc(), &header(rt.alloc()), &HEADER)?;
    expect_record(rt.alloc(), &segment_header(rt.alloc()), &SEGMENT)
}

// A report of membership, with the option that routers look at it.
const REPORT: [u8; 24] = [
    0x46, 0xC0, 0x00, 0x28, 0x00, 0x00, 0x40, 0x00, 0x01, 0x02, 0x03, 0xFA, 0x00, 0x00, 0x00, 0x00,
    0xE0, 0x00, 0x00, 0x16, 0x94, 0x04, 0x00, 0x00,
];

#[test]
fn a_packet_with_an_option(rt: HostRuntime) -> Result<(), Fail> {
    let report = Ipv4 {
        words: 6,
        service: 48,
        total: 40,
        identification: 0,
        hops: 1,
        protocol: 2,
        checksum: 0x03FA,
        source: Ipv4Addr::new(0, 0, 0, 0),
        destination: Ipv4Addr::new(224, 0, 0, 22),
        options: [0x94u8, 0x04, 0x00, 0x00].to_vec(rt.alloc())?,
        ..header(rt.alloc())
    };
    expect_record(rt.alloc(), &report, &REPORT)
}

// What an update returns and leaves in the two lengths of the header, if its total is this one
// before and there are so many bytes of options: ten bytes are carried.
type Row = (u16, usize, Result<(), DekuError>, (u8, u16));

const ROWS: [Row; 7] = [
    (30, 0, Ok(()), (5, 30)),
    (30, 4, Ok(()), (6, 34)),
    (
        65535,
        40,
        Err(DekuError::Parse("packet too long")),
        (5, 65535),
    ),
    (65495, 40, Ok(()), (15, 65535)),
    (
        30,
        3,
        Err(DekuError::Parse("options of no whole words")),
        (5, 30),
    ),
    (
        60,
        44,
        Err(DekuError::Parse("options of no whole words")),
        (5, 60),
    ),
    (19, 0, Err(DekuError::Parse("total below header")), (5, 19)),
];

#[test]
fn updates(rt: HostRuntime) -> Result<(), Fail> {
    for (total, options, want, lengths) in ROWS {
        let mut header = Ipv4 {
            total,
            options: vec![in rt.alloc(); 0u8; options]?,
            ..header(rt.alloc())
        };
        let answer = header.update();
        assert!(rt; answer == want, "{total}, {options}: {answer:?}");
        assert_eq!(rt; (header.words, header.total), lengths);
    }
    Ok(())
}

// Bytes, and what is left of their sum: the example of RFC 1071, section 3, with and without its
// last byte, a carry that carries, none, and headers as they were sent.
#[test]
fn check_sums(rt: HostRuntime) {
    let rows: [(&[u8], u16); 8] = [
        (&[0x00, 0x01, 0xF2, 0x03, 0xF4, 0xF5, 0xF6, 0xF7], 0xDDF2),
        (&[0x00, 0x01, 0xF2, 0x03, 0xF4, 0xF5, 0xF6], 0xDCFB),
        (&[0xFF, 0xFF, 0x00, 0x01], 0x0001),
        (&[], 0x0000),
        (&[0x00, 0x00], 0x0000),
        (&HEADER, 0xFFFF),
        (&SEGMENT, 0xFFFF),
        (&REPORT, 0xFFFF),
    ];
    for (bytes, want) in rows {
        let sum = ones_sum(bytes);
        assert!(rt; sum == want, "{bytes:?}: {sum}");
        assert!(rt; is_intact(bytes) == (want == 0xFFFF), "{bytes:?}");
    }
}

#[test]
fn refusals(rt: HostRuntime) -> Result<(), Fail> {
    let short = DekuError::Incomplete(NeedSize::new(16));
    expect_refusal::<Udp>(rt.alloc(), &[0x9C, 0xBB, 0xD1], short, 16)?;
    let version = DekuError::Assertion("version");
    expect_refusal::<Ipv4>(rt.alloc(), &[0x65, 0x00], version, 4)?;
    let bytes = [
        0x44, 0x00, 0x00, 0x1E, 0x4F, 0x0B, 0x40, 0x00, 0x40, 0x11, 0xED, 0xC1, 0x7F, 0x00, 0x00,
        0x01, 0x7F, 0x00, 0x00, 0x01,
    ];
    let words = DekuError::Parse("head without a count");
    expect_refusal::<Ipv4>(rt.alloc(), &bytes, words, 160)
}
