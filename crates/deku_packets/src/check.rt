//! Layers written back.

ghost use Rattle.std.specs.Prelude.{◌≡◌, IfOk, IfErr, IfNone, IfSome, MatchOption, All};
ghost use Rattle.deku_packets.specs.declared.layer.Layer.TheVariants as kinds;
ghost use Rattle.deku_packets.specs.Back.{between, IsFirstDifference, IsBack, IsChanged};
ghost use Rattle.deku_packets.specs.Back.{IsFirstChange, IsUnwritten};
ghost use Rattle.deku_bits.specs.WriterCalls.{Finalizes};
ghost use Rattle.deku.specs.Composing.{Both};
ghost use Rattle.deku.specs.Wholes.{WritesOnce};

use crate::layer::{Layer, Placed};
use crate::packet::Packet;
use deku::device::Sink;
use deku::padded_bytes;
use deku::prelude::{DekuError, DekuWriter, Writer};
use deku_messages::dns::{Header, Text};
use deku_messages::ntp::Ntp;
use deku_messages::question::Question;
use deku_messages::resource::{Authority, MailServer, Resource, Target};
use deku_messages::rtp::Rtp;
use deku_messages::tls::Tls;
use deku_network::arp::Arp;
use deku_network::ethernet::{Ethernet, Tag};
use deku_network::icmp::Icmp;
use deku_network::icmpv6::Icmpv6;
use deku_network::ipv4::Ipv4;
use deku_network::ipv6::{Fragment, Ipv6, Options, Routing};
use deku_transport::option::{Block, LargestSegment, TcpOption, Times, WindowScale};
use deku_transport::tcp::Tcp;
use deku_transport::udp::Udp;
use std::alloc::Global;

/// A layer is written as its record. Bytes that no record describes are not written.
impl DekuWriter<()> for Layer {
    ghost meaning = { λ v _. elim v [
      | kinds.Ethernet x ↦ ⟦<Ethernet as DekuWriter<()>>⟧.meaning x tt
      | kinds.Tag x ↦ ⟦<Tag as DekuWriter<()>>⟧.meaning x tt
      | kinds.Arp x ↦ ⟦<Arp as DekuWriter<()>>⟧.meaning x tt
      | kinds.Ipv4 x ↦ ⟦<Ipv4 as DekuWriter<()>>⟧.meaning x tt
      | kinds.Ipv6 x ↦ ⟦<Ipv6 as DekuWriter<()>>⟧.meaning x tt
      | kinds.Options x ↦ ⟦<Options as DekuWriter<()>>⟧.meaning x tt
      | kinds.Routing x ↦ ⟦<Routing as DekuWriter<()>>⟧.meaning x tt
      | kinds.Fragment x ↦ ⟦<Fragment as DekuWriter<()>>⟧.meaning x tt
      | kinds.Icmp x ↦ ⟦<Icmp as DekuWriter<()>>⟧.meaning x tt
      | kinds.Icmpv6 x ↦ ⟦<Icmpv6 as DekuWriter<()>>⟧.meaning x tt
      | kinds.Udp x ↦ ⟦<Udp as DekuWriter<()>>⟧.meaning x tt
      | kinds.Tcp x ↦ ⟦<Tcp as DekuWriter<()>>⟧.meaning x tt
      | kinds.TcpOption x ↦ ⟦<TcpOption as DekuWriter<()>>⟧.meaning x tt
      | kinds.LargestSegment x ↦ ⟦<LargestSegment as DekuWriter<()>>⟧.meaning x tt
      | kinds.WindowScale x ↦ ⟦<WindowScale as DekuWriter<()>>⟧.meaning x tt
      | kinds.Block x ↦ ⟦<Block as DekuWriter<()>>⟧.meaning x tt
      | kinds.Times x ↦ ⟦<Times as DekuWriter<()>>⟧.meaning x tt
      | kinds.Dns x ↦ ⟦<Header as DekuWriter<()>>⟧.meaning x tt
      | kinds.Question x ↦ ⟦<Question as DekuWriter<()>>⟧.meaning x tt
      | kinds.Resource x ↦ ⟦<Resource as DekuWriter<()>>⟧.meaning x tt
      | kinds.Target x ↦ ⟦<Target as DekuWriter<()>>⟧.meaning x tt
      | kinds.MailServer x ↦ ⟦<MailServer as DekuWriter<()>>⟧.meaning x tt
      | kinds.Authority x ↦ ⟦<Authority as DekuWriter<()>>⟧.meaning x tt
      | kinds.Text x ↦ ⟦<Text as DekuWriter<()>>⟧.meaning x tt
      | kinds.Ntp x ↦ ⟦<Ntp as DekuWriter<()>>⟧.meaning x tt
      | kinds.Rtp x ↦ ⟦<Rtp as DekuWriter<()>>⟧.meaning x tt
      | kinds.Tls x ↦ ⟦<Tls as DekuWriter<()>>⟧.meaning x tt
      | kinds.Rest ↦ ⟦<() as DekuWriter<()>>⟧.meaning tt tt
    ] };

    fn to_writer<W: Sink>(&self, writer: &mut Writer<W>, _ctx: ()) -> Result<(), DekuError> {
        match self {
            Layer::Ethernet(x) => x.to_writer(writer, ()),
            Layer::Tag(x) => x.to_writer(writer, ()),
            Layer::Arp(x) => x.to_writer(writer, ()),
            Layer::Ipv4(x) => x.to_writer(writer, ()),
            Layer::Ipv6(x) => x.to_writer(writer, ()),
            Layer::Options(x) => x.to_writer(writer, ()),
            Layer::Routing(x) => x.to_writer(writer, ()),
            Layer::Fragment(x) => x.to_writer(writer, ()),
            Layer::Icmp(x) => x.to_writer(writer, ()),
            Layer::Icmpv6(x) => x.to_writer(writer, ()),
            Layer::Udp(x) => x.to_writer(writer, ()),
            Layer::Tcp(x) => x.to_writer(writer, ()),
            Layer::TcpOption(x) => x.to_writer(writer, ()),
            Layer::LargestSegment(x) => x.to_writer(writer, ()),
            Layer::WindowScale(x) => x.to_writer(writer, ()),
            Layer::Block(x) => x.to_writer(writer, ()),
            Layer::Times(x) => x.to_writer(writer, ()),
            Layer::Dns(x) => x.to_writer(writer, ()),
            Layer::Question(x) => x.to_writer(writer, ()),
            Layer::Resource(x) => x.to_writer(writer, ()),
            Layer::Target(x) => x.to_writer(writer, ()),
            Layer::MailServer(x) => x.to_writer(writer, ()),
            Layer::Authority(x) => x.to_writer(writer, ()),
            Layer::Text(x) => x.to_writer(writer, ()),
            Layer::Ntp(x) => x.to_writer(writer, ()),
            Layer::Rtp(x) => x.to_writer(writer, ()),
            Layer::Tls(x) => x.to_writer(writer, ()),
            Layer::Rest => ().to_writer(writer, ()),
        }
    }
}

/// Writes each layer of a packet, and compares it with the packet. Returns the index in the packet
/// of the first byte that differs, or that is missing or too many.
///
/// It fails as the layers do when they are written.
///
/// ```text
/// first_change(alloc, &bytes, &read_packet(alloc, &bytes, bytes.len(), 1))?        // None
/// ```
pub fn first_change(
    alloc: Global,
    bytes: &[u8],
    packet: &Packet,
) -> Result<Option<usize>, DekuError>
    ensures same { IfOk result (λ o. IfNone o
        (All (IsBack ⟦<Layer as DekuWriter<()>>⟧.meaning bytes.now) packet.now.layers.items)) }
    ensures changed { IfOk result (λ o. IfSome o (IsFirstChange
        ⟦<Layer as DekuWriter<()>>⟧.meaning bytes.now packet.now.layers.items)) }
    ensures refused { IfErr result (IsUnwritten ⟦<Layer as DekuWriter<()>>⟧.meaning
        bytes.now packet.now.layers.items) }
{
    for placed in &packet.layers {
        if let Some(index) = layer_change(alloc, bytes, placed)? {
            return Ok(Some(index));
        }
    }
    Ok(None)
}

// The first byte of a layer that is written otherwise.
fn layer_change(alloc: Global, bytes: &[u8], placed: &Placed) -> Result<Option<usize>, DekuError>
    ensures same { IfOk result (λ o. IfNone o
        (IsBack ⟦<Layer as DekuWriter<()>>⟧.meaning bytes.now placed.now)) }
    ensures changed { IfOk result (λ o. IfSome o
        (IsChanged ⟦<Layer as DekuWriter<()>>⟧.meaning bytes.now placed.now)) }
    ensures refused { IfErr result (λ e. WritesOnce
        (Both (⟦<Layer as DekuWriter<()>>⟧.meaning placed.now.layer tt) Finalizes) (Err e)) }
{
    if let Layer::Rest = placed.layer {
        return Ok(None);
    }
    let written = padded_bytes(&placed.layer, alloc, ())?;
    let read = between(bytes, placed.start, placed.end);
    match first_difference(read, written.as_slice()) {
        None => Ok(None),
        Some(index) => Ok(Some(placed.start.saturating_add(index))),
    }
}

/// The bytes from one index to another, or none if not all of them are there.
pub fn between(bytes: &[u8], start: usize, end: usize) -> &[u8]
    ensures { result.now ≡ between bytes.now start end }
{
    if start <= end && end <= bytes.len() {
        &bytes[start..end]
    } else {
        &[]
    }
}

// The index of the first byte in which the two differ, or the length of the shorter one if it is
// the beginning of the other. `None` if they are the same.
fn first_difference(read: &[u8], written: &[u8]) -> Option<usize>
    ensures { MatchOption result (read.now ≡ written.now) (IsFirstDifference read.now written.now) }
{
    let mut index = 0;
    while index < read.len() && index < written.len() {
        if read[index] != written[index] {
            return Some(index);
        }
        index += 1;
    }
    if read.len() == written.len() {
        None
    } else {
        Some(index)
    }
}
