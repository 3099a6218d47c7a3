//! The layers of a packet, each with what is known of its place.

ghost use Rattle.std.specs.Prelude.{◌≡◌, All};
ghost use Rattle.deku_packets.specs.Reading.{IsAt, IsPlaced};

use crate::layer::{Layer, Placed};
use crate::reading::ReadLayer;
use std::alloc::Global;

/// The layers of a packet that were read so far.
#[derive(Drop)]
pub struct Layers<'a> {
    /// The bytes of the packet.
    pub bytes: &'a [u8],
    items: Vec<Placed>,
    ghost placed: { ∥ All (IsPlaced ⟦<Layer as ReadLayer>⟧.reads bytes.now) items.items ∥₁ },
}

impl<'a> Layers<'a> {
    /// None, of these bytes.
    pub fn new(alloc: Global, bytes: &'a [u8]) -> Layers<'a>
        ensures { result.bytes.now ≡ bytes.now }
    {
        Layers {
            bytes,
            items: Vec::new(alloc),
        }
    }

    /// Adds a layer that was read from this place. Returns whether there was memory for it.
    pub fn push(&mut self, start: usize, end: usize, layer: Layer) -> bool
        requires { IsAt (⟦<Layer as ReadLayer>⟧.reads layer) self.now.bytes.now start end }
        ensures { self.new.bytes.now ≡ self.old.bytes.now }
    {
        self.items.push(Placed { start, end, layer }).is_ok()
    }

    /// The layers.
    pub fn into_items(self) -> Vec<Placed>
        ensures { ∥ All (IsPlaced ⟦<Layer as ReadLayer>⟧.reads self.entry.bytes.now)
            result.items ∥₁ }
    {
        self.items
    }
}
