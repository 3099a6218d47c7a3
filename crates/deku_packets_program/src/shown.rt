//! A packet of a capture with what is known of it.

use crate::capture::{Captured, Format};
use deku_packets::layer::{Layer, Placed};
use deku_packets::name::NameText;
use deku_packets::packet::Packet;

/// Whether a packet is written back as it was read.
#[derive(Debug, Clone, Copy, PartialEq, Eq)]
pub enum Verdict {
    /// All layers are written as the bytes that they were read from.
    Same,
    /// This byte of the packet is the first that is not.
    Differs(usize),
}

/// A packet of a capture.
#[derive(Clone, Copy)]
pub struct Shown<'a> {
    /// What the file says of all packets.
    pub format: Format,
    /// The header of the packet.
    pub captured: Captured,
    /// The index of its first byte in the file.
    pub at: u64,
    /// Its bytes.
    pub bytes: &'a [u8],
    /// Its layers.
    pub packet: &'a Packet,
    /// Whether it is written back as it was read, if that is asked for.
    pub verdict: Option<Verdict>,
}

/// The name at this index of a packet, in the message that the layer belongs to.
pub fn name_of<'a>(shown: &Shown<'a>, placed: &Placed, at: usize) -> NameText<'a> {
    let start = message_before(shown.packet, placed.start);
    NameText {
        message: shown.bytes.get(start..).unwrap_or(&[]),
        at: at.saturating_sub(start),
    }
}

// Where the last message begins that is not after this index.
fn message_before(packet: &Packet, at: usize) -> usize {
    let mut start = 0;
    for placed in &packet.layers {
        if let Layer::Dns(_) = placed.layer
            && placed.start <= at
        {
            start = placed.start;
        }
    }
    start
}
