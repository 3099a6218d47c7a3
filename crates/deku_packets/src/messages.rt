//! The layers that programs send to each other.

ghost use Rattle.std.specs.Prelude.{◌≡◌, ◌-◌, ◌^◌, min};
ghost use Rattle.deku_packets.specs.Names.{size_of};

use crate::check::between;
use crate::fields::{AUTHORITY, DNS, MAIL_SERVER, NTP, QUESTION, RESOURCE, RTP, TARGET, TEXT, TLS};
use crate::layer::{Fields, Layer};
use crate::name::follow;
use crate::next::Next;
use crate::packet::Refusal;
use crate::walk::{Walk, refusal};
use deku::prelude::DekuError;
use deku_messages::dns::{Header, Text};
use deku_messages::name::Name;
use deku_messages::ntp::Ntp;
use deku_messages::question::Question;
use deku_messages::resource::{Authority, MailServer, Resource, Target};
use deku_messages::rtp::Rtp;
use deku_messages::tls::Tls;

// The most records of TLS in a segment, each of at least five bytes.
const MOST_RECORDS: usize = 13107;

// The most texts of a resource.
const MOST_TEXTS: usize = 65535;

impl<'a> Walk<'a> {
    /// Reads a packet of network time. What follows its header is kept.
    pub fn ntp(&mut self) -> Result<Option<Next>, Refusal>
        ensures same { self.new.layers.bytes.now ≡ self.old.layers.bytes.now }
    {
        let start = self.at;
        let header: Ntp = self.read(&NTP)?;
        self.keep(start, Layer::Ntp(header))?;
        Ok(Some(Next::Rest))
    }

    /// Reads the header of a packet of RTP.
    pub fn rtp(&mut self) -> Result<Option<Next>, Refusal>
        ensures same { self.new.layers.bytes.now ≡ self.old.layers.bytes.now }
    {
        let start = self.at;
        let header: Rtp = self.read(&RTP)?;
        self.keep(start, Layer::Rtp(header))?;
        Ok(Some(Next::Rest))
    }

    /// Whether the bytes that are left begin as a record of TLS does: with its kind and version.
    pub fn is_at_tls(&self) -> bool {
        matches!(self.rest(), [20..=24, 3, ..])
    }

    /// Reads records of TLS, each with the bytes that follow its header. The last one may go on in
    /// the next segment.
    pub fn tls(&mut self) -> Result<Option<Next>, Refusal>
        ensures same { self.new.layers.bytes.now ≡ self.old.layers.bytes.now }
    {
        for _ in 0..MOST_RECORDS {
            if !self.is_at_tls() {
                break;
            }
            self.tls_record()?;
        }
        Ok(Some(Next::Rest))
    }

    // Reads the header of a record, and keeps what follows.
    fn tls_record(&mut self) -> Result<(), Refusal>
        ensures same { self.new.layers.bytes.now ≡ self.old.layers.bytes.now }
    {
        let start = self.at;
        let header: Tls = self.read(&TLS)?;
        let length = header.length as usize;
        self.keep(start, Layer::Tls(header))?;
        let content = self.at;
        self.at = content.saturating_add(length.min(self.rest().len()));
        if self.at > content {
            self.keep(content, Layer::Rest)?;
        }
        Ok(())
    }

    /// Reads a message of the domain name system.
    pub fn dns(&mut self) -> Result<Option<Next>, Refusal>
        ensures same { self.new.layers.bytes.now ≡ self.old.layers.bytes.now }
    {
        let message = self.at;
        let header: Header = self.read(&DNS)?;
        let questions = header.questions;
        let (answers, authorities) = (header.answers, header.authorities);
        let additionals = header.additionals;
        self.keep(message, Layer::Dns(header))?;
        for _ in 0..questions {
            self.question(message)?;
        }
        self.resources(message, answers)?;
        self.resources(message, authorities)?;
        self.resources(message, additionals)?;
        Ok(Some(Next::Rest))
    }

    // Reads a question of the message that begins there.
    fn question(&mut self, message: usize) -> Result<(), Refusal>
        ensures same { self.new.layers.bytes.now ≡ self.old.layers.bytes.now }
    {
        let start = self.at;
        let question: Question = self.read(&QUESTION)?;
        self.follow(message, start, &QUESTION)?;
        self.keep(start, Layer::Question(question))
    }

    // Reads as many resources.
    fn resources(&mut self, message: usize, count: u16) -> Result<(), Refusal>
        ensures same { self.new.layers.bytes.now ≡ self.old.layers.bytes.now }
    {
        for _ in 0..count {
            self.resource(message)?;
        }
        Ok(())
    }

    // Reads a resource.
    fn resource(&mut self, message: usize) -> Result<(), Refusal>
        ensures same { self.new.layers.bytes.now ≡ self.old.layers.bytes.now }
    {
        let start = self.at;
        let resource: Resource = self.read(&RESOURCE)?;
        self.follow(message, start, &RESOURCE)?;
        let kind = resource.kind;
        let place = self.at.saturating_sub(resource.bytes.len());
        self.keep(start, Layer::Resource(resource))?;
        match kind {
            2 | 5 | 12 => self.target(message, place),
            6 => self.authority(message, place),
            15 => self.mail_server(message, place),
            16 => self.texts(place),
            _ => Ok(()),
        }
    }

    // The data of a resource that is a name.
    fn target(&mut self, message: usize, start: usize) -> Result<(), Refusal>
        ensures same { self.new.layers.bytes.now ≡ self.old.layers.bytes.now }
    {
        let (target, end): (Target, usize) = self.within(start, &TARGET)?;
        self.follow(message, start, &TARGET)?;
        self.place(start, end, Layer::Target(target))
    }

    // The data of a resource that is a server of mail.
    fn mail_server(&mut self, message: usize, start: usize) -> Result<(), Refusal>
        ensures same { self.new.layers.bytes.now ≡ self.old.layers.bytes.now }
    {
        let (server, end): (MailServer, usize) = self.within(start, &MAIL_SERVER)?;
        self.follow(message, start.saturating_add(2), &MAIL_SERVER)?;
        self.place(start, end, Layer::MailServer(server))
    }

    // The data of a resource that says who is in charge.
    fn authority(&mut self, message: usize, start: usize) -> Result<(), Refusal>
        ensures same { self.new.layers.bytes.now ≡ self.old.layers.bytes.now }
    {
        let (authority, end): (Authority, usize) = self.within(start, &AUTHORITY)?;
        self.follow(message, start, &AUTHORITY)?;
        let second = start.saturating_add(size_of_name(&authority.server));
        self.follow(message, second, &AUTHORITY)?;
        self.place(start, end, Layer::Authority(authority))
    }

    // The data of a resource that is texts.
    fn texts(&mut self, start: usize) -> Result<(), Refusal>
        ensures same { self.new.layers.bytes.now ≡ self.old.layers.bytes.now }
    {
        let mut start = start;
        for _ in 0..MOST_TEXTS {
            if between(self.layers.bytes, start, self.at).is_empty() {
                break;
            }
            let (text, end): (Text, usize) = self.within(start, &TEXT)?;
            self.place(start, end, Layer::Text(text))?;
            start = end;
        }
        Ok(())
    }

    // Follows the name at this index, which belongs to the message that begins at `message`.
    fn follow(&self, message: usize, at: usize, fields: &Fields) -> Result<(), Refusal> {
        let end = self.limit.min(self.layers.bytes.len());
        let bytes = between(self.layers.bytes, message, end);
        match follow(bytes, at.saturating_sub(message)) {
            Ok(()) => Ok(()),
            Err(astray) => {
                let at = message.saturating_add(astray.at);
                Err(refusal(fields, "name", at, DekuError::Parse(astray.why)))
            }
        }
    }
}

/// The bytes of a name as a message has it.
pub fn size_of_name(name: &Name) -> usize
    ensures { result ≡ min (size_of name.now.items.items) (2 ^ 64 - 1) }
{
    let mut size = 0usize;
    for label in &name.items {
        size = size.saturating_add(label.bytes.len().saturating_add(1));
    }
    size
}
