//! A packet, layer by layer.

ghost use Rattle.std.specs.Prelude.{All};
ghost use Rattle.deku_packets.specs.Reading.{IsPlaced};

use crate::layer::{Layer, Placed};
use crate::next::Next;
use crate::reading::ReadLayer;
use crate::walk::Walk;
use deku::DekuError;
use std::alloc::Global;

/// Why the rest of a packet cannot be read.
#[derive(Debug, Clone, Copy, PartialEq, Eq)]
pub struct Refusal {
    /// The layer that cannot be read.
    pub layer: &'static str,
    /// Its field.
    pub field: &'static str,
    /// The index in the packet of the byte at which reading stopped.
    pub at: usize,
    /// What is wrong.
    pub fault: DekuError,
}

/// A packet, as far as it can be read.
#[derive(Debug, Drop)]
pub struct Packet {
    /// The layers, from the outside.
    pub layers: Vec<Placed>,
    /// Why there are no more layers, if the packet cannot be read to its end.
    pub refusal: Option<Refusal>,
}

/// The most headers inside one another. A packet with more is refused after them.
pub const MOST_HEADERS: usize = 32;

/// Reads the layers of a packet. `network` says what its first layer is, as the file header of a
/// capture does: 1 for Ethernet, and 101, 228 or 229 for IP; the bytes of any other are kept as
/// they are. `whole` is how many bytes the packet had, of which `bytes` are the first ones.
///
/// Each layer is what reading its record gives at its place in the bytes. What cannot be read is
/// told by the packet's `refusal`; the layers before it are there.
///
/// ```text
/// let packet = read_packet(alloc, &bytes, bytes.len(), 1);      // Ethernet, IPv4, UDP, DNS, ..
/// ```
pub fn read_packet(alloc: Global, bytes: &[u8], whole: usize, network: u32) -> Packet
    ensures { ∥ All (IsPlaced ⟦<Layer as ReadLayer>⟧.reads bytes.now) result.layers.items ∥₁ }
{
    let mut walk = Walk::new(alloc, bytes, whole);
    let refusal = match walk.headers(Next::of_network(network)) {
        Ok(()) => None,
        Err(refusal) => Some(refusal),
    };
    Packet {
        layers: walk.into_layers(),
        refusal,
    }
}
