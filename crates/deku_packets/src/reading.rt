//! How layers are read.

ghost use Rattle.std.specs.Prelude.{◌≤◌, ℕ, List, length};
ghost use Rattle.deku_packets.specs.declared.layer.Layer.{Layer as AnyLayer};
ghost use Rattle.deku_packets.specs.declared.layer.Layer.TheVariants as kinds;
ghost use Rattle.deku_packets.specs.Reading.{IsFirst};

use crate::layer::Layer;
use deku::prelude::DekuReader;
use deku_messages::dns::{Header, Text};
use deku_messages::ntp::Ntp;
use deku_messages::question::Question;
use deku_messages::resource::{Authority, MailServer, Resource, Target};
use deku_messages::rtp::Rtp;
use deku_messages::tls::Tls;
use deku_network::arp::Arp;
use deku_network::ethernet::{Ethernet, Tag};
use deku_network::icmp::Icmp;
use deku_network::icmpv6::Icmpv6;
use deku_network::ipv4::Ipv4;
use deku_network::ipv6::{Fragment, Ipv6, Options, Routing};
use deku_transport::option::{Block, LargestSegment, TcpOption, Times, WindowScale};
use deku_transport::tcp::Tcp;
use deku_transport::udp::Udp;

/// How layers are read.
pub trait ReadLayer {
    // Whether the layer is first in some bytes, and takes this many of them.
    ghost reads: { AnyLayer → List ℕ → ℕ → Type 0 };
}

/// A layer is read as its record. Bytes that no record describes are there.
impl ReadLayer for Layer {
    ghost reads = { λ v. elim v [
      | kinds.Ethernet x ↦ IsFirst (⟦<Ethernet as DekuReader<()>>⟧.meaning tt) x
      | kinds.Tag x ↦ IsFirst (⟦<Tag as DekuReader<()>>⟧.meaning tt) x
      | kinds.Arp x ↦ IsFirst (⟦<Arp as DekuReader<()>>⟧.meaning tt) x
      | kinds.Ipv4 x ↦ IsFirst (⟦<Ipv4 as DekuReader<()>>⟧.meaning tt) x
      | kinds.Ipv6 x ↦ IsFirst (⟦<Ipv6 as DekuReader<()>>⟧.meaning tt) x
      | kinds.Options x ↦ IsFirst (⟦<Options as DekuReader<()>>⟧.meaning tt) x
      | kinds.Routing x ↦ IsFirst (⟦<Routing as DekuReader<()>>⟧.meaning tt) x
      | kinds.Fragment x ↦ IsFirst (⟦<Fragment as DekuReader<()>>⟧.meaning tt) x
      | kinds.Icmp x ↦ IsFirst (⟦<Icmp as DekuReader<()>>⟧.meaning tt) x
      | kinds.Icmpv6 x ↦ IsFirst (⟦<Icmpv6 as DekuReader<()>>⟧.meaning tt) x
      | kinds.Udp x ↦ IsFirst (⟦<Udp as DekuReader<()>>⟧.meaning tt) x
      | kinds.Tcp x ↦ IsFirst (⟦<Tcp as DekuReader<()>>⟧.meaning tt) x
      | kinds.TcpOption x ↦ IsFirst (⟦<TcpOption as DekuReader<()>>⟧.meaning tt) x
      | kinds.LargestSegment x ↦ IsFirst (⟦<LargestSegment as DekuReader<()>>⟧.meaning tt) x
      | kinds.WindowScale x ↦ IsFirst (⟦<WindowScale as DekuReader<()>>⟧.meaning tt) x
      | kinds.Block x ↦ IsFirst (⟦<Block as DekuReader<()>>⟧.meaning tt) x
      | kinds.Times x ↦ IsFirst (⟦<Times as DekuReader<()>>⟧.meaning tt) x
      | kinds.Dns x ↦ IsFirst (⟦<Header as DekuReader<()>>⟧.meaning tt) x
      | kinds.Question x ↦ IsFirst (⟦<Question as DekuReader<()>>⟧.meaning tt) x
      | kinds.Resource x ↦ IsFirst (⟦<Resource as DekuReader<()>>⟧.meaning tt) x
      | kinds.Target x ↦ IsFirst (⟦<Target as DekuReader<()>>⟧.meaning tt) x
      | kinds.MailServer x ↦ IsFirst (⟦<MailServer as DekuReader<()>>⟧.meaning tt) x
      | kinds.Authority x ↦ IsFirst (⟦<Authority as DekuReader<()>>⟧.meaning tt) x
      | kinds.Text x ↦ IsFirst (⟦<Text as DekuReader<()>>⟧.meaning tt) x
      | kinds.Ntp x ↦ IsFirst (⟦<Ntp as DekuReader<()>>⟧.meaning tt) x
      | kinds.Rtp x ↦ IsFirst (⟦<Rtp as DekuReader<()>>⟧.meaning tt) x
      | kinds.Tls x ↦ IsFirst (⟦<Tls as DekuReader<()>>⟧.meaning tt) x
      | kinds.Rest ↦ λ bytes count. count ≤ length bytes
    ] };
}
