//! The layers that bring a packet from machine to machine and from program to program.

ghost use Rattle.std.specs.Prelude.{◌≡◌, IfOk, All, length, min};
ghost use Rattle.deku_packets.specs.Back.{between};
ghost use Rattle.deku_packets.specs.Reading.{IsFirst, IsAt, IsPlaced};

use crate::check::between;
use crate::fields::{
    ARP, ETHERNET, FRAGMENT, ICMP, ICMPV6, IPV4, IPV6, OPTIONS, PACKET, ROUTING, TAG, TCP, UDP,
};
use crate::layer::{Fields, Layer, Placed};
use crate::layers::Layers;
use crate::next::Next;
use crate::packet::{MOST_HEADERS, Refusal};
use crate::read::read_at;
use crate::reading::ReadLayer;
use deku::prelude::{DekuContainerRead, DekuError};
use deku_network::arp::Arp;
use deku_network::ethernet::{Ethernet, Tag};
use deku_network::icmp::Icmp;
use deku_network::icmpv6::Icmpv6;
use deku_network::ipv4::Ipv4;
use deku_network::ipv6::{Fragment, Ipv6, Options, Routing};
use deku_transport::tcp::Tcp;
use deku_transport::udp::Udp;
use std::alloc::Global;
use std::io::ErrorKind;

/// How far a packet is read.
#[derive(Drop)]
pub struct Walk<'a> {
    /// Where records take their memory.
    pub alloc: Global,
    /// The index of the next byte.
    pub at: usize,
    /// The index after the last byte, as the lengths say that were read.
    pub limit: usize,
    // Whether what is read is the first fragment of more.
    is_begun: bool,
    /// The layers that were read, and the bytes that there are.
    pub layers: Layers<'a>,
}

impl<'a> Walk<'a> {
    /// At the start of a packet, of which these are the first bytes of `whole`.
    pub fn new(alloc: Global, bytes: &'a [u8], whole: usize) -> Walk<'a>
        ensures { result.layers.bytes.now ≡ bytes.now }
    {
        Walk {
            alloc,
            at: 0,
            limit: whole.max(bytes.len()),
            is_begun: false,
            layers: Layers::new(alloc, bytes),
        }
    }

    /// The layers that were read.
    pub fn into_layers(self) -> Vec<Placed>
        ensures { ∥ All (IsPlaced ⟦<Layer as ReadLayer>⟧.reads self.entry.layers.bytes.now)
            result.items ∥₁ }
    {
        self.layers.into_items()
    }

    /// The bytes that are left.
    pub fn rest(&self) -> &'a [u8]
        ensures { result.now ≡ between self.now.layers.bytes.now self.now.at
            (min self.now.limit (length self.now.layers.bytes.now)) }
    {
        let end = self.limit.min(self.layers.bytes.len());
        between(self.layers.bytes, self.at, end)
    }

    /// Reads a record, of these fields.
    pub fn read<E: DekuContainerRead>(&mut self, fields: &Fields) -> Result<E, Refusal>
        requires { E.DekuReader.accepts tt }
        ensures same { self.new.layers.bytes.now ≡ self.old.layers.bytes.now }
        ensures read { IfOk result (λ x. IsAt (IsFirst (E.DekuReader.meaning tt) x)
            self.new.layers.bytes.now self.old.at self.new.at) }
    {
        let limit = self.limit.min(self.layers.bytes.len());
        let (record, end) = read_at(self.alloc, self.layers.bytes, self.at, limit, fields)?;
        self.at = end;
        Ok(record)
    }

    /// The record in what is read that begins at this index, and the index after it.
    pub fn within<E: DekuContainerRead>(
        &self,
        start: usize,
        fields: &Fields,
    ) -> Result<(E, usize), Refusal>
        requires { E.DekuReader.accepts tt }
        ensures { IfOk result (λ p. IsAt (IsFirst (E.DekuReader.meaning tt) p.0)
            self.now.layers.bytes.now start p.1) }
    {
        read_at(self.alloc, self.layers.bytes, start, self.at, fields)
    }

    /// Keeps a layer that began at `start`, and ends here.
    pub fn keep(&mut self, start: usize, layer: Layer) -> Result<(), Refusal>
        requires { IsAt (⟦<Layer as ReadLayer>⟧.reads layer) self.now.layers.bytes.now start
            self.now.at }
        ensures same { self.new.layers.bytes.now ≡ self.old.layers.bytes.now }
    {
        self.place(start, self.at, layer)
    }

    /// Keeps a layer that is there.
    pub fn place(&mut self, start: usize, end: usize, layer: Layer) -> Result<(), Refusal>
        requires { IsAt (⟦<Layer as ReadLayer>⟧.reads layer) self.now.layers.bytes.now start end }
        ensures same { self.new.layers.bytes.now ≡ self.old.layers.bytes.now }
    {
        if self.layers.push(start, end, layer) {
            Ok(())
        } else {
            let fault = DekuError::Io(ErrorKind::OutOfMemory);
            Err(refusal(&PACKET, "memory", start, fault))
        }
    }

    /// Reads headers, each as the one before it says.
    pub fn headers(&mut self, first: Next) -> Result<(), Refusal>
        ensures same { self.new.layers.bytes.now ≡ self.old.layers.bytes.now }
    {
        let mut next = Some(first);
        for _ in 0..MOST_HEADERS {
            match next {
                None => return Ok(()),
                Some(header) => next = self.header(header)?,
            }
        }
        match next {
            None => Ok(()),
            Some(_) => {
                let fault = DekuError::Parse("too many headers");
                Err(refusal(&PACKET, "headers", self.at, fault))
            }
        }
    }

    // Reads a header. Returns what follows it.
    fn header(&mut self, header: Next) -> Result<Option<Next>, Refusal>
        ensures same { self.new.layers.bytes.now ≡ self.old.layers.bytes.now }
    {
        match header {
            Next::Ethernet => self.ethernet(),
            Next::Tag => self.tag(),
            Next::Arp => self.arp(),
            Next::Ip => Ok(Some(self.ip())),
            Next::Ipv4 => self.ipv4(),
            Next::Ipv6 => self.ipv6(),
            Next::Options => self.options(),
            Next::Routing => self.routing(),
            Next::Fragment => self.fragment(),
            Next::Icmp => self.icmp(),
            Next::Icmpv6 => self.icmpv6(),
            Next::Udp => self.udp(),
            Next::Tcp => self.tcp(),
            Next::Dns => self.dns(),
            Next::Ntp => self.ntp(),
            Next::Rtp => self.rtp(),
            Next::Tls => self.tls(),
            Next::Rest => self.keep_rest(),
        }
    }

    /// Keeps the bytes that are left.
    pub fn keep_rest(&mut self) -> Result<Option<Next>, Refusal>
        ensures same { self.new.layers.bytes.now ≡ self.old.layers.bytes.now }
    {
        let start = self.at;
        let count = self.rest().len();
        if count > 0 {
            self.at = self.at.saturating_add(count);
            self.keep(start, Layer::Rest)?;
        }
        Ok(None)
    }

    // Nothing after `length` bytes from `start` on belongs to what is read. The length is in this
    // field, at this index.
    fn narrow(
        &mut self,
        start: usize,
        length: usize,
        fields: &Fields,
        field: &'static str,
        at: usize,
    ) -> Result<(), Refusal>
        ensures same { self.new.layers.bytes.now ≡ self.old.layers.bytes.now }
    {
        let limit = start.saturating_add(length);
        if limit < self.at {
            let fault = DekuError::Parse("length below its header");
            return Err(refusal(fields, field, at, fault));
        }
        if limit <= self.limit {
            self.limit = limit;
            Ok(())
        } else if self.is_begun {
            Ok(())
        } else {
            let fault = DekuError::Parse("length past the packet");
            Err(refusal(fields, field, at, fault))
        }
    }

    fn ethernet(&mut self) -> Result<Option<Next>, Refusal>
        ensures same { self.new.layers.bytes.now ≡ self.old.layers.bytes.now }
    {
        let start = self.at;
        let header: Ethernet = self.read(&ETHERNET)?;
        let next = Next::of_kind(header.kind);
        self.keep(start, Layer::Ethernet(header))?;
        Ok(Some(next))
    }

    fn tag(&mut self) -> Result<Option<Next>, Refusal>
        ensures same { self.new.layers.bytes.now ≡ self.old.layers.bytes.now }
    {
        let start = self.at;
        let tag: Tag = self.read(&TAG)?;
        let next = Next::of_kind(tag.kind);
        self.keep(start, Layer::Tag(tag))?;
        Ok(Some(next))
    }

    fn arp(&mut self) -> Result<Option<Next>, Refusal>
        ensures same { self.new.layers.bytes.now ≡ self.old.layers.bytes.now }
    {
        let start = self.at;
        let message: Arp = self.read(&ARP)?;
        self.keep(start, Layer::Arp(message))?;
        Ok(Some(Next::Rest))
    }

    // The version of IP, by the next byte.
    fn ip(&self) -> Next {
        match self.rest() {
            [0x60..=0x6F, ..] => Next::Ipv6,
            _ => Next::Ipv4,
        }
    }

    fn ipv4(&mut self) -> Result<Option<Next>, Refusal>
        ensures same { self.new.layers.bytes.now ≡ self.old.layers.bytes.now }
    {
        let start = self.at;
        let header: Ipv4 = self.read(&IPV4)?;
        let next = if header.offset == 0 {
            Next::of_protocol(header.protocol)
        } else {
            Next::Rest
        };
        let total = header.total as usize;
        let more = header.more;
        self.keep(start, Layer::Ipv4(header))?;
        if total != 0 {
            self.narrow(start, total, &IPV4, "total", start.saturating_add(2))?;
        }
        self.is_begun = self.is_begun || more;
        Ok(Some(next))
    }

    fn ipv6(&mut self) -> Result<Option<Next>, Refusal>
        ensures same { self.new.layers.bytes.now ≡ self.old.layers.bytes.now }
    {
        let start = self.at;
        let header: Ipv6 = self.read(&IPV6)?;
        let next = Next::of_header(header.next);
        let length = header.length as usize;
        self.keep(start, Layer::Ipv6(header))?;
        if length != 0 {
            self.narrow(self.at, length, &IPV6, "length", start.saturating_add(4))?;
        }
        Ok(Some(next))
    }

    fn options(&mut self) -> Result<Option<Next>, Refusal>
        ensures same { self.new.layers.bytes.now ≡ self.old.layers.bytes.now }
    {
        let start = self.at;
        let header: Options = self.read(&OPTIONS)?;
        let next = Next::of_header(header.next);
        self.keep(start, Layer::Options(header))?;
        Ok(Some(next))
    }

    fn routing(&mut self) -> Result<Option<Next>, Refusal>
        ensures same { self.new.layers.bytes.now ≡ self.old.layers.bytes.now }
    {
        let start = self.at;
        let header: Routing = self.read(&ROUTING)?;
        let next = Next::of_header(header.next);
        self.keep(start, Layer::Routing(header))?;
        Ok(Some(next))
    }

    fn fragment(&mut self) -> Result<Option<Next>, Refusal>
        ensures same { self.new.layers.bytes.now ≡ self.old.layers.bytes.now }
    {
        let start = self.at;
        let header: Fragment = self.read(&FRAGMENT)?;
        let next = if header.offset == 0 {
            Next::of_header(header.next)
        } else {
            Next::Rest
        };
        self.is_begun = self.is_begun || header.more;
        self.keep(start, Layer::Fragment(header))?;
        Ok(Some(next))
    }

    fn icmp(&mut self) -> Result<Option<Next>, Refusal>
        ensures same { self.new.layers.bytes.now ≡ self.old.layers.bytes.now }
    {
        let start = self.at;
        let message: Icmp = self.read(&ICMP)?;
        self.keep(start, Layer::Icmp(message))?;
        Ok(Some(Next::Rest))
    }

    fn icmpv6(&mut self) -> Result<Option<Next>, Refusal>
        ensures same { self.new.layers.bytes.now ≡ self.old.layers.bytes.now }
    {
        let start = self.at;
        let message: Icmpv6 = self.read(&ICMPV6)?;
        self.keep(start, Layer::Icmpv6(message))?;
        Ok(Some(Next::Rest))
    }

    fn udp(&mut self) -> Result<Option<Next>, Refusal>
        ensures same { self.new.layers.bytes.now ≡ self.old.layers.bytes.now }
    {
        let start = self.at;
        let header: Udp = self.read(&UDP)?;
        let (source, destination) = (header.source, header.destination);
        let length = header.length as usize;
        self.keep(start, Layer::Udp(header))?;
        self.narrow(start, length, &UDP, "length", start.saturating_add(4))?;
        Ok(Some(self.of_ports(source, destination)))
    }

    // What a datagram between these ports holds.
    fn of_ports(&self, source: u16, destination: u16) -> Next {
        let next = Next::of_port(destination).or(Next::of_port(source));
        match (next, self.rest()) {
            (None, _) | (_, []) => Next::Rest,
            (Some(Next::Rtp), [0..=127 | 192..=255, ..]) => Next::Rest,
            (Some(next), _) => next,
        }
    }

    fn tcp(&mut self) -> Result<Option<Next>, Refusal>
        ensures same { self.new.layers.bytes.now ≡ self.old.layers.bytes.now }
    {
        let start = self.at;
        let header: Tcp = self.read(&TCP)?;
        let is_secret = header.source == 443 || header.destination == 443;
        self.keep(start, Layer::Tcp(header))?;
        self.tcp_options(start.saturating_add(20))?;
        if is_secret && self.is_at_tls() {
            Ok(Some(Next::Tls))
        } else {
            Ok(Some(Next::Rest))
        }
    }
}

/// A refusal of this field, which is at this index.
pub fn refusal(fields: &Fields, field: &'static str, at: usize, fault: DekuError) -> Refusal {
    Refusal {
        layer: fields.layer,
        field,
        at,
        fault,
    }
}
