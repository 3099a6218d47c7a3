//! The fields of each layer, as members of an object of JSON.

use crate::answers::message_members;
use crate::shown::Shown;
use crate::values::Value;
use crate::values::Value::{Bytes, Flag, Hardware, Number, V4, V6};
use deku_network::arp::Arp;
use deku_network::ethernet::{Ethernet, Tag};
use deku_network::icmp::Icmp;
use deku_network::icmpv6::Icmpv6;
use deku_network::ipv4::Ipv4;
use deku_network::ipv6::{Fragment, Ipv6, Options, Routing};
use deku_packets::fields::{
    ARP, ETHERNET, FRAGMENT, ICMP, ICMPV6, IPV4, IPV6, OPTIONS, ROUTING, TAG, TCP, UDP,
};
use deku_packets::layer::{Fields, Layer, Placed};
use deku_transport::tcp::Tcp;
use deku_transport::udp::Udp;
use serde::{Serialize, Serializer};

/// A member: its name and its value.
pub fn member<S: Serializer>(name: &str, value: Value<'_>, out: &mut S) -> Result<(), S::Error> {
    out.key(name)?;
    value.serialize(out)
}

/// The name of the layer, and a member for each of its fields of fixed places.
pub fn members<S: Serializer>(
    fields: &Fields,
    values: &[Value<'_>],
    out: &mut S,
) -> Result<(), S::Error> {
    member("layer", Value::Text(fields.layer), out)?;
    for ((name, _), value) in fields.places.iter().zip(values) {
        member(name, *value, out)?;
    }
    Ok(())
}

/// The name of a layer and its fields.
pub fn layer_members<S: Serializer>(
    shown: &Shown<'_>,
    placed: &Placed,
    out: &mut S,
) -> Result<(), S::Error> {
    match &placed.layer {
        Layer::Ethernet(x) => ethernet(x, out),
        Layer::Tag(x) => tag(x, out),
        Layer::Arp(x) => arp(x, out),
        Layer::Ipv4(x) => ipv4(x, out),
        Layer::Ipv6(x) => ipv6(x, out),
        Layer::Options(x) => options(x, out),
        Layer::Routing(x) => routing(x, out),
        Layer::Fragment(x) => fragment(x, out),
        Layer::Icmp(x) => icmp(x, out),
        Layer::Icmpv6(x) => icmpv6(x, out),
        Layer::Udp(x) => udp(x, out),
        Layer::Tcp(x) => tcp(x, out),
        _ => message_members(shown, placed, out),
    }
}

// The header of a frame.
fn ethernet<S: Serializer>(x: &Ethernet, out: &mut S) -> Result<(), S::Error> {
    members(
        &ETHERNET,
        &[
            Hardware(x.destination),
            Hardware(x.source),
            Number(x.kind as u64),
        ],
        out,
    )
}

// The tag of a virtual network.
fn tag<S: Serializer>(x: &Tag, out: &mut S) -> Result<(), S::Error> {
    members(
        &TAG,
        &[
            Number(x.priority as u64),
            Flag(x.may_drop),
            Number(x.network as u64),
            Number(x.kind as u64),
        ],
        out,
    )
}

// A question for an address, or its answer.
fn arp<S: Serializer>(x: &Arp, out: &mut S) -> Result<(), S::Error> {
    members(
        &ARP,
        &[
            Number(x.hardware as u64),
            Number(x.protocol as u64),
            Number(x.hardware_length as u64),
            Number(x.protocol_length as u64),
            Number(x.operation as u64),
            Hardware(x.sender_hardware),
            V4(x.sender),
            Hardware(x.target_hardware),
            V4(x.target),
        ],
        out,
    )
}

// The header of an IPv4 packet.
fn ipv4<S: Serializer>(x: &Ipv4, out: &mut S) -> Result<(), S::Error> {
    ipv4_places(x, out)?;
    member("options", Bytes(&x.options), out)
}

// Its fields of fixed places.
fn ipv4_places<S: Serializer>(x: &Ipv4, out: &mut S) -> Result<(), S::Error> {
    members(
        &IPV4,
        &[
            Number(x.version as u64),
            Number(x.words as u64),
            Number(x.service as u64),
            Number(x.congestion as u64),
            Number(x.total as u64),
            Number(x.identification as u64),
            Flag(x.reserved),
            Flag(x.keep_whole),
            Flag(x.more),
            Number(x.offset as u64),
            Number(x.hops as u64),
            Number(x.protocol as u64),
            Number(x.checksum as u64),
            V4(x.source),
            V4(x.destination),
        ],
        out,
    )
}

// The header of an IPv6 packet.
fn ipv6<S: Serializer>(x: &Ipv6, out: &mut S) -> Result<(), S::Error> {
    members(
        &IPV6,
        &[
            Number(x.version as u64),
            Number(x.class as u64),
            Number(x.flow as u64),
            Number(x.length as u64),
            Number(x.next as u64),
            Number(x.hops as u64),
            V6(x.source),
            V6(x.destination),
        ],
        out,
    )
}

// An extension header with options.
fn options<S: Serializer>(x: &Options, out: &mut S) -> Result<(), S::Error> {
    members(&OPTIONS, &[], out)?;
    member("next", Number(x.next as u64), out)?;
    member("length", Number(x.length as u64), out)?;
    member("options", Bytes(&x.options), out)
}

// The extension header that lists routers.
fn routing<S: Serializer>(x: &Routing, out: &mut S) -> Result<(), S::Error> {
    members(&ROUTING, &[], out)?;
    member("next", Number(x.next as u64), out)?;
    member("length", Number(x.length as u64), out)?;
    member("kind", Number(x.kind as u64), out)?;
    member("left", Number(x.left as u64), out)?;
    member("route", Bytes(&x.route), out)
}

// The extension header of a fragment.
fn fragment<S: Serializer>(x: &Fragment, out: &mut S) -> Result<(), S::Error> {
    members(
        &FRAGMENT,
        &[
            Number(x.next as u64),
            Number(x.reserved as u64),
            Number(x.offset as u64),
            Number(x.unused as u64),
            Flag(x.more),
            Number(x.identification as u64),
        ],
        out,
    )
}

// A message of ICMP.
fn icmp<S: Serializer>(x: &Icmp, out: &mut S) -> Result<(), S::Error> {
    match *x {
        Icmp::EchoReply {
            code,
            checksum,
            identifier,
            sequence,
        } => echo(&ICMP, 0, (code, checksum), identifier, sequence, out),
        Icmp::Unreachable {
            code,
            checksum,
            unused,
            next_mtu,
        } => {
            numbered(&ICMP, 3, code, checksum, out)?;
            member("unused", Number(unused as u64), out)?;
            member("next_mtu", Number(next_mtu as u64), out)
        }
        Icmp::Echo {
            code,
            checksum,
            identifier,
            sequence,
        } => echo(&ICMP, 8, (code, checksum), identifier, sequence, out),
        Icmp::TimeExceeded {
            code,
            checksum,
            unused,
        } => {
            numbered(&ICMP, 11, code, checksum, out)?;
            member("unused", Number(unused as u64), out)
        }
        Icmp::Other(kind, code, checksum) => numbered(&ICMP, kind, code, checksum, out),
    }
}

// A message of ICMPv6.
fn icmpv6<S: Serializer>(x: &Icmpv6, out: &mut S) -> Result<(), S::Error> {
    match *x {
        Icmpv6::Unreachable {
            code,
            checksum,
            unused,
        } => {
            numbered(&ICMPV6, 1, code, checksum, out)?;
            member("unused", Number(unused as u64), out)
        }
        Icmpv6::TimeExceeded {
            code,
            checksum,
            unused,
        } => {
            numbered(&ICMPV6, 3, code, checksum, out)?;
            member("unused", Number(unused as u64), out)
        }
        Icmpv6::Echo {
            code,
            checksum,
            identifier,
            sequence,
        } => echo(&ICMPV6, 128, (code, checksum), identifier, sequence, out),
        Icmpv6::EchoReply {
            code,
            checksum,
            identifier,
            sequence,
        } => echo(&ICMPV6, 129, (code, checksum), identifier, sequence, out),
        Icmpv6::Other(kind, code, checksum) => numbered(&ICMPV6, kind, code, checksum, out),
    }
}

// The kind, the code and the checksum of a message.
fn numbered<S: Serializer>(
    fields: &Fields,
    kind: u64,
    code: u8,
    checksum: u16,
    out: &mut S,
) -> Result<(), S::Error> {
    let values = [Number(kind), Number(code as u64), Number(checksum as u64)];
    members(fields, &values, out)
}

// The kind, the code, the checksum and the numbers of an echo.
fn echo<S: Serializer>(
    fields: &Fields,
    kind: u64,
    (code, checksum): (u8, u16),
    identifier: u16,
    sequence: u16,
    out: &mut S,
) -> Result<(), S::Error> {
    numbered(fields, kind, code, checksum, out)?;
    member("identifier", Number(identifier as u64), out)?;
    member("sequence", Number(sequence as u64), out)
}

// The header of a datagram.
fn udp<S: Serializer>(x: &Udp, out: &mut S) -> Result<(), S::Error> {
    members(
        &UDP,
        &[
            Number(x.source as u64),
            Number(x.destination as u64),
            Number(x.length as u64),
            Number(x.checksum as u64),
        ],
        out,
    )
}

// The header of a segment.
fn tcp<S: Serializer>(x: &Tcp, out: &mut S) -> Result<(), S::Error> {
    tcp_places(x, out)?;
    member("options", Bytes(&x.options), out)
}

// Its fields of fixed places.
fn tcp_places<S: Serializer>(x: &Tcp, out: &mut S) -> Result<(), S::Error> {
    members(
        &TCP,
        &[
            Number(x.source as u64),
            Number(x.destination as u64),
            Number(x.sequence as u64),
            Number(x.acknowledgment as u64),
            Number(x.words as u64),
            Number(x.reserved as u64),
            Flag(x.cwr),
            Flag(x.ece),
            Flag(x.urg),
            Flag(x.ack),
            Flag(x.psh),
            Flag(x.rst),
            Flag(x.syn),
            Flag(x.fin),
            Number(x.window as u64),
            Number(x.checksum as u64),
            Number(x.urgent as u64),
        ],
        out,
    )
}
