//! The layers of a packet, and where each is.

use deku_messages::dns::{Header, Text};
use deku_messages::ntp::Ntp;
use deku_messages::question::Question;
use deku_messages::resource::{Authority, MailServer, Resource, Target};
use deku_messages::rtp::Rtp;
use deku_messages::tls::Tls;
use deku_network::arp::Arp;
use deku_network::ethernet::{Ethernet, Tag};
use deku_network::icmp::Icmp;
use deku_network::icmpv6::Icmpv6;
use deku_network::ipv4::Ipv4;
use deku_network::ipv6::{Fragment, Ipv6, Options, Routing};
use deku_transport::option::{Block, LargestSegment, TcpOption, Times, WindowScale};
use deku_transport::tcp::Tcp;
use deku_transport::udp::Udp;

/// A record of a packet, as it was read, or bytes that are kept as they are.
#[derive(Debug, Drop)]
pub enum Layer {
    Ethernet(Ethernet),
    Tag(Tag),
    Arp(Arp),
    Ipv4(Ipv4),
    Ipv6(Ipv6),
    Options(Options),
    Routing(Routing),
    Fragment(Fragment),
    Icmp(Icmp),
    Icmpv6(Icmpv6),
    Udp(Udp),
    Tcp(Tcp),
    TcpOption(TcpOption),
    LargestSegment(LargestSegment),
    WindowScale(WindowScale),
    Block(Block),
    Times(Times),
    Dns(Header),
    Question(Question),
    Resource(Resource),
    Target(Target),
    MailServer(MailServer),
    Authority(Authority),
    Text(Text),
    Ntp(Ntp),
    Rtp(Rtp),
    Tls(Tls),
    /// Bytes that no record describes.
    Rest,
}

/// A layer, and the bytes of the packet that it was read from.
#[derive(Debug, Drop)]
pub struct Placed {
    /// The index of its first byte.
    pub start: usize,
    /// The index after its last byte.
    pub end: usize,
    /// What was read.
    pub layer: Layer,
}

/// The fields of a layer: their names, in order, and how many bits each has.
#[derive(Clone, Copy)]
pub struct Fields {
    /// The name of the layer.
    pub layer: &'static str,
    /// The fields of fixed places.
    pub places: &'static [(&'static str, usize)],
    /// The field that says how much or what follows.
    pub counting: &'static str,
    /// What follows the fields of fixed places.
    pub last: &'static str,
}

impl Fields {
    /// The name of the field that has this bit.
    ///
    /// ```text
    /// UDP.name_at(16)                                               // "destination"
    /// ```
    pub(crate) fn name_at(&self, bit: usize) -> &'static str {
        let mut left = bit;
        for (name, bits) in self.places {
            if left < *bits {
                return *name;
            }
            left -= *bits;
        }
        self.last
    }

    /// The first bit of the field that says how much or what follows, if it has a fixed place.
    ///
    /// ```text
    /// UDP.bit_of_counting()                                         // Some(32)
    /// ```
    pub(crate) fn bit_of_counting(&self) -> Option<usize> {
        let mut before = 0usize;
        for (name, bits) in self.places {
            if *name == self.counting {
                return Some(before);
            }
            before = before.saturating_add(*bits);
        }
        None
    }
}
