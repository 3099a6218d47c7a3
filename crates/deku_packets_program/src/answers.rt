//! The fields of options and of what programs send, as members of an object of JSON.

use crate::members::{member, members};
use crate::shown::{Shown, name_of};
use crate::values::Value::{Bytes, Flag, Name, Number, Signed, Text, V4, V6};
use deku_messages::dns;
use deku_messages::dns::Header;
use deku_messages::ntp::Ntp;
use deku_messages::question::Question;
use deku_messages::resource::{Authority, MailServer, Resource};
use deku_messages::rtp::Rtp;
use deku_messages::tls::Tls;
use deku_packets::fields::{
    AUTHORITY, BLOCK, DNS, LARGEST_SEGMENT, MAIL_SERVER, NTP, QUESTION, RESOURCE, REST, RTP,
    TARGET, TCP_OPTION, TEXT, TIMES, TLS, WINDOW_SCALE,
};
use deku_packets::layer::{Layer, Placed};
use deku_packets::messages::size_of_name;
use deku_symmetry::Be;
use deku_transport::option::TcpOption;
use serde::{Serialize, Serializer};
use std::net::{Ipv4Addr, Ipv6Addr};

/// The name of a layer and its fields, of an option or of what programs send.
pub fn message_members<S: Serializer>(
    shown: &Shown<'_>,
    placed: &Placed,
    out: &mut S,
) -> Result<(), S::Error> {
    match &placed.layer {
        Layer::TcpOption(x) => option(x, out),
        Layer::LargestSegment(x) => members(&LARGEST_SEGMENT, &[Number(x.size as u64)], out),
        Layer::WindowScale(x) => members(&WINDOW_SCALE, &[Number(x.shift as u64)], out),
        Layer::Block(x) => {
            let values = [Number(x.left as u64), Number(x.right as u64)];
            members(&BLOCK, &values, out)
        }
        Layer::Times(x) => {
            let values = [Number(x.value as u64), Number(x.echo as u64)];
            members(&TIMES, &values, out)
        }
        Layer::Dns(x) => header(x, out),
        Layer::Question(x) => question(shown, placed, x, out),
        Layer::Resource(x) => resource(shown, placed, x, out),
        Layer::Target(_) => {
            members(&TARGET, &[], out)?;
            member("name", Name(name_of(shown, placed, placed.start)), out)
        }
        Layer::MailServer(x) => mail_server(shown, placed, x, out),
        Layer::Authority(x) => authority(shown, placed, x, out),
        Layer::Text(x) => text(x, out),
        Layer::Ntp(x) => ntp(x, out),
        Layer::Rtp(x) => rtp(x, out),
        Layer::Tls(x) => tls(x, out),
        _ => rest(shown, placed, out),
    }
}

// Bytes that no record describes.
fn rest<S: Serializer>(shown: &Shown<'_>, placed: &Placed, out: &mut S) -> Result<(), S::Error> {
    members(&REST, &[], out)?;
    let bytes = shown.bytes.get(placed.start..placed.end).unwrap_or(&[]);
    member("bytes", Bytes(bytes), out)
}

// The header of a message of the domain name system.
fn header<S: Serializer>(x: &Header, out: &mut S) -> Result<(), S::Error> {
    members(
        &DNS,
        &[
            Number(x.id as u64),
            Flag(x.is_answer),
            Number(x.opcode as u64),
            Flag(x.is_authoritative),
            Flag(x.is_cut),
            Flag(x.wants_recursion),
            Flag(x.has_recursion),
            Flag(x.reserved),
            Flag(x.is_checked),
            Flag(x.may_be_unchecked),
            Number(x.outcome as u64),
            Number(x.questions as u64),
            Number(x.answers as u64),
            Number(x.authorities as u64),
            Number(x.additionals as u64),
        ],
        out,
    )
}

// The header of a packet of network time.
fn ntp<S: Serializer>(x: &Ntp, out: &mut S) -> Result<(), S::Error> {
    members(
        &NTP,
        &[
            Number(x.leap as u64),
            Number(x.version as u64),
            Number(x.mode as u64),
            Number(x.stratum as u64),
            Signed(x.poll as i64),
            Signed(x.precision as i64),
            Number(x.root_delay as u64),
            Number(x.root_dispersion as u64),
            Bytes(&x.reference_id),
            Number(x.reference as u64),
            Number(x.origin as u64),
            Number(x.receive as u64),
            Number(x.transmit as u64),
        ],
        out,
    )
}

// The header of a record of TLS.
fn tls<S: Serializer>(x: &Tls, out: &mut S) -> Result<(), S::Error> {
    members(
        &TLS,
        &[
            Number(x.content as u64),
            Number(x.version as u64),
            Number(x.length as u64),
        ],
        out,
    )
}

// A question.
fn question<S: Serializer>(
    shown: &Shown<'_>,
    placed: &Placed,
    x: &Question,
    out: &mut S,
) -> Result<(), S::Error> {
    members(&QUESTION, &[], out)?;
    member("name", Name(name_of(shown, placed, placed.start)), out)?;
    member("kind", Number(x.kind as u64), out)?;
    member("class", Number(x.class as u64), out)
}

// A resource. The address is that of its data, if it is one.
fn resource<S: Serializer>(
    shown: &Shown<'_>,
    placed: &Placed,
    x: &Resource,
    out: &mut S,
) -> Result<(), S::Error> {
    members(&RESOURCE, &[], out)?;
    member("name", Name(name_of(shown, placed, placed.start)), out)?;
    member("kind", Number(x.kind as u64), out)?;
    member("class", Number(x.class as u64), out)?;
    member("life", Number(x.life as u64), out)?;
    member("length", Number(x.length as u64), out)?;
    member("bytes", Bytes(&x.bytes), out)?;
    address(x.kind, &x.bytes, out)
}

// The address in the data of the kinds 1 and 28.
fn address<S: Serializer>(kind: u16, bytes: &[u8], out: &mut S) -> Result<(), S::Error> {
    if kind == 1
        && let Ok(octets) = <[u8; 4]>::try_from(bytes)
    {
        return member("address", V4(Ipv4Addr::from(octets)), out);
    }
    if kind == 28
        && let Ok(octets) = <[u8; 16]>::try_from(bytes)
    {
        return member("address", V6(Ipv6Addr::from(octets)), out);
    }
    Ok(())
}

// A server of mail.
fn mail_server<S: Serializer>(
    shown: &Shown<'_>,
    placed: &Placed,
    x: &MailServer,
    out: &mut S,
) -> Result<(), S::Error> {
    members(&MAIL_SERVER, &[], out)?;
    member("preference", Number(x.preference as u64), out)?;
    let at = placed.start.saturating_add(2);
    member("name", Name(name_of(shown, placed, at)), out)
}

// Who is in charge of a part of the names.
fn authority<S: Serializer>(
    shown: &Shown<'_>,
    placed: &Placed,
    x: &Authority,
    out: &mut S,
) -> Result<(), S::Error> {
    members(&AUTHORITY, &[], out)?;
    let second = placed.start.saturating_add(size_of_name(&x.server));
    member("server", Name(name_of(shown, placed, placed.start)), out)?;
    member("mailbox", Name(name_of(shown, placed, second)), out)?;
    member("serial", Number(x.serial as u64), out)?;
    member("refresh", Number(x.refresh as u64), out)?;
    member("retry", Number(x.retry as u64), out)?;
    member("expire", Number(x.expire as u64), out)?;
    member("minimum", Number(x.minimum as u64), out)
}

// A text of a resource.
fn text<S: Serializer>(x: &dns::Text, out: &mut S) -> Result<(), S::Error> {
    members(&TEXT, &[Number(x.length as u64)], out)?;
    match str::from_utf8(&x.bytes) {
        Ok(words) => member("text", Text(words), out),
        Err(_) => member("bytes", Bytes(&x.bytes), out),
    }
}

// The header of a packet of RTP.
fn rtp<S: Serializer>(x: &Rtp, out: &mut S) -> Result<(), S::Error> {
    members(
        &RTP,
        &[
            Number(x.version as u64),
            Flag(x.padding),
            Flag(x.extension),
            Number(x.source_count as u64),
            Flag(x.marker),
            Number(x.payload_type as u64),
            Number(x.sequence as u64),
            Number(x.timestamp as u64),
            Number(x.source as u64),
        ],
        out,
    )?;
    out.key("contributing")?;
    numbers(&x.contributing, out)
}

// A list of numbers.
fn numbers<S: Serializer>(items: &[Be<u32>], out: &mut S) -> Result<(), S::Error> {
    out.begin_seq(None)?;
    for Be(number) in items {
        number.serialize(out)?;
    }
    out.end_seq()
}

// An option of a segment.
fn option<S: Serializer>(x: &TcpOption, out: &mut S) -> Result<(), S::Error> {
    members(&TCP_OPTION, &[Number(x.kind as u64)], out)?;
    match &x.tail {
        None => Ok(()),
        Some(tail) => {
            member("length", Number(tail.length as u64), out)?;
            member("bytes", Bytes(&tail.bytes), out)
        }
    }
}
