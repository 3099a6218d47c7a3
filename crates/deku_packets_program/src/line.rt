//! A packet as a line.

use crate::capture::{Captured, Format};
use crate::names::{content_name, mode_name, resource_name};
use crate::shown::{Shown, Verdict, name_of};
use crate::values::Hardware;
use deku_messages::dns::Header;
use deku_messages::ntp::Ntp;
use deku_messages::rtp::Rtp;
use deku_messages::tls::Tls;
use deku_network::arp::Arp;
use deku_network::ethernet::Ethernet;
use deku_network::icmp::Icmp;
use deku_network::icmpv6::Icmpv6;
use deku_packets::layer::{Layer, Placed};
use deku_packets::packet::Refusal;
use deku_transport::tcp::Tcp;
use std::alloc::AllocError;
use std::fmt::Write;
use std::net::{Ipv4Addr, Ipv6Addr};

/// Adds a packet: its time, the words of each layer, and its length. The file holds the packet's
/// bytes from index `at` on.
pub fn add_packet(text: &mut String, shown: &Shown<'_>) -> Result<(), AllocError> {
    add_time(text, shown.format, shown.captured)?;
    let layers = shown.packet.layers.as_slice();
    for (index, placed) in layers.iter().enumerate() {
        let more = layers.get(index + 1..).unwrap_or(&[]);
        add_layer(text, shown, placed, more)?;
    }
    add_length(text, shown.captured)?;
    if let Some(verdict) = shown.verdict {
        add_verdict(text, verdict, shown.at)?;
    }
    match shown.packet.refusal {
        Some(refusal) => add_refusal(text, refusal, shown.at),
        None => Ok(()),
    }
}

// Adds whether the packet is written back as it was read. Its bytes begin at index `start` of the
// file.
fn add_verdict(text: &mut String, verdict: Verdict, start: u64) -> Result<(), AllocError> {
    match verdict {
        Verdict::Same => text.push_str(" same"),
        Verdict::Differs(index) => {
            let at = start.saturating_add(index as u64);
            write!(text, " differs at {at}")
        }
    }
}

// Adds the time of a packet, with the digits that the file has.
fn add_time(text: &mut String, format: Format, captured: Captured) -> Result<(), AllocError> {
    let (seconds, fraction) = (captured.seconds, captured.fraction);
    if format.is_nano {
        write!(text, "{seconds}.{fraction:09}")
    } else {
        write!(text, "{seconds}.{fraction:06}")
    }
}

// Adds how long a packet was, and how much of it is kept, if not all.
fn add_length(text: &mut String, captured: Captured) -> Result<(), AllocError> {
    let (whole, kept) = (captured.whole, captured.kept);
    if kept < whole {
        write!(text, " length {whole} kept {kept}")
    } else {
        write!(text, " length {whole}")
    }
}

// Adds what cannot be read. The packet's bytes begin at index `start` of the file.
fn add_refusal(text: &mut String, refusal: Refusal, start: u64) -> Result<(), AllocError> {
    let (layer, field, fault) = (refusal.layer, refusal.field, refusal.fault);
    let at = start.saturating_add(refusal.at as u64);
    write!(text, " refused: {layer}, {field}, at {at}: {fault}")
}

// Adds the words of a layer, after which these follow.
fn add_layer(
    text: &mut String,
    shown: &Shown<'_>,
    placed: &Placed,
    more: &[Placed],
) -> Result<(), AllocError> {
    match &placed.layer {
        Layer::Ethernet(frame) => add_frame(text, frame, more),
        Layer::Tag(tag) => {
            let network = tag.network;
            write!(text, " network {network}")
        }
        Layer::Arp(message) => add_arp(text, message),
        Layer::Ipv4(header) => add_v4(text, header.source, header.destination, more),
        Layer::Ipv6(header) => add_v6(text, header.source, header.destination, more),
        Layer::Options(_) => text.push_str(" options"),
        Layer::Routing(_) => text.push_str(" routing"),
        Layer::Fragment(part) => {
            let (offset, more) = (part.offset as u32 * 8, part.more);
            write!(text, " fragment {offset} more {more}")
        }
        Layer::Icmp(message) => add_icmp(text, message),
        Layer::Icmpv6(message) => add_icmpv6(text, message),
        Layer::Udp(_) => text.push_str(" udp"),
        Layer::Tcp(header) => add_tcp(text, header),
        _ => add_message(text, shown, placed),
    }
}

// Adds the words of a layer that programs send.
fn add_message(text: &mut String, shown: &Shown<'_>, placed: &Placed) -> Result<(), AllocError> {
    match &placed.layer {
        Layer::Dns(header) => add_dns(text, header),
        Layer::Question(question) => {
            let name = name_of(shown, placed, placed.start);
            add_kind(text, question.kind)?;
            write!(text, " {name}")
        }
        Layer::Ntp(header) => add_ntp(text, header),
        Layer::Rtp(header) => add_rtp(text, header),
        Layer::Tls(header) => add_tls(text, header),
        _ => Ok(()),
    }
}

// Adds the addresses of a frame, if no layer follows that has its own.
fn add_frame(text: &mut String, frame: &Ethernet, more: &[Placed]) -> Result<(), AllocError> {
    let plain = matches!(
        more,
        [] | [
            Placed {
                layer: Layer::Rest,
                ..
            },
            ..
        ]
    );
    if !plain {
        return Ok(());
    }
    let (source, destination) = (Hardware(frame.source), Hardware(frame.destination));
    let kind = frame.kind;
    write!(text, " {source} > {destination} kind {kind:04x}")
}

// The ports of a layer that follows.
fn ports_of(more: &[Placed]) -> Option<(u16, u16)> {
    more.iter().find_map(|placed| match &placed.layer {
        Layer::Udp(header) => Some((header.source, header.destination)),
        Layer::Tcp(header) => Some((header.source, header.destination)),
        _ => None,
    })
}

// Adds the addresses of an IPv4 packet, with ports if there are any.
fn add_v4(
    text: &mut String,
    source: Ipv4Addr,
    destination: Ipv4Addr,
    more: &[Placed],
) -> Result<(), AllocError> {
    match ports_of(more) {
        Some((from, to)) => write!(text, " {source}:{from} > {destination}:{to}"),
        None => write!(text, " {source} > {destination}"),
    }
}

// Adds the addresses of an IPv6 packet, with ports if there are any.
fn add_v6(
    text: &mut String,
    source: Ipv6Addr,
    destination: Ipv6Addr,
    more: &[Placed],
) -> Result<(), AllocError> {
    match ports_of(more) {
        Some((from, to)) => write!(text, " [{source}]:{from} > [{destination}]:{to}"),
        None => write!(text, " {source} > {destination}"),
    }
}

// Adds who asks for an address, or who has it.
fn add_arp(text: &mut String, message: &Arp) -> Result<(), AllocError> {
    let (sender, target) = (message.sender, message.target);
    let hardware = Hardware(message.sender_hardware);
    match message.operation {
        1 => write!(text, " arp who has {target}, tell {sender}"),
        2 => write!(text, " arp {sender} is at {hardware}"),
        operation => write!(text, " arp operation {operation}, {sender} > {target}"),
    }
}

// Adds a message of ICMP.
fn add_icmp(text: &mut String, message: &Icmp) -> Result<(), AllocError> {
    match *message {
        Icmp::EchoReply {
            identifier,
            sequence,
            ..
        } => add_echo(text, "icmp echo reply", identifier, sequence),
        Icmp::Echo {
            identifier,
            sequence,
            ..
        } => add_echo(text, "icmp echo", identifier, sequence),
        Icmp::Unreachable { code, .. } => write!(text, " icmp unreachable code {code}"),
        Icmp::TimeExceeded { code, .. } => write!(text, " icmp time exceeded code {code}"),
        Icmp::Other(kind, code, _) => write!(text, " icmp kind {kind} code {code}"),
    }
}

// Adds a message of ICMPv6.
fn add_icmpv6(text: &mut String, message: &Icmpv6) -> Result<(), AllocError> {
    match *message {
        Icmpv6::EchoReply {
            identifier,
            sequence,
            ..
        } => add_echo(text, "icmp6 echo reply", identifier, sequence),
        Icmpv6::Echo {
            identifier,
            sequence,
            ..
        } => add_echo(text, "icmp6 echo", identifier, sequence),
        Icmpv6::Unreachable { code, .. } => write!(text, " icmp6 unreachable code {code}"),
        Icmpv6::TimeExceeded { code, .. } => write!(text, " icmp6 time exceeded code {code}"),
        Icmpv6::Other(kind, code, _) => write!(text, " icmp6 kind {kind} code {code}"),
    }
}

// Adds an echo, or its answer.
fn add_echo(
    text: &mut String,
    name: &str,
    identifier: u16,
    sequence: u16,
) -> Result<(), AllocError> {
    write!(text, " {name} id {identifier} seq {sequence}")
}

// Adds the flags and the numbers of a segment.
fn add_tcp(text: &mut String, header: &Tcp) -> Result<(), AllocError> {
    text.push_str(" tcp ")?;
    add_flags(text, header)?;
    let (sequence, window) = (header.sequence, header.window);
    if header.ack {
        let acknowledgment = header.acknowledgment;
        write!(text, " seq {sequence} ack {acknowledgment} win {window}")
    } else {
        write!(text, " seq {sequence} win {window}")
    }
}

// Adds a letter for each flag that is set, as tcpdump has them.
fn add_flags(text: &mut String, header: &Tcp) -> Result<(), AllocError> {
    let flags = [
        (header.fin, "F"),
        (header.syn, "S"),
        (header.rst, "R"),
        (header.psh, "P"),
        (header.ack, "."),
        (header.urg, "U"),
        (header.ece, "E"),
        (header.cwr, "W"),
    ];
    for (is_set, letter) in flags {
        if is_set {
            text.push_str(letter)?;
        }
    }
    Ok(())
}

// Adds what a message of the domain name system is.
fn add_dns(text: &mut String, header: &Header) -> Result<(), AllocError> {
    let id = header.id;
    if header.is_answer {
        let (outcome, answers) = (header.outcome, header.answers);
        write!(text, " dns {id} answers {answers} outcome {outcome}")
    } else {
        write!(text, " dns {id}")
    }
}

// Adds the name of a kind of resource, or its number.
fn add_kind(text: &mut String, kind: u16) -> Result<(), AllocError> {
    match resource_name(kind) {
        Some(name) => write!(text, " {name}"),
        None => write!(text, " kind {kind}"),
    }
}

// Adds a packet of network time.
fn add_ntp(text: &mut String, header: &Ntp) -> Result<(), AllocError> {
    let (version, mode) = (header.version, mode_name(header.mode));
    let stratum = header.stratum;
    write!(text, " ntp version {version} {mode} stratum {stratum}")
}

// Adds a packet of RTP.
fn add_rtp(text: &mut String, header: &Rtp) -> Result<(), AllocError> {
    let (kind, sequence) = (header.payload_type, header.sequence);
    let (timestamp, source) = (header.timestamp, header.source);
    write!(
        text,
        " rtp type {kind} seq {sequence} time {timestamp} source {source}"
    )
}

// Adds a record of TLS.
fn add_tls(text: &mut String, header: &Tls) -> Result<(), AllocError> {
    let (content, version) = (content_name(header.content), header.version);
    let length = header.length;
    write!(text, " tls {content} version {version:04x} length {length}")
}
