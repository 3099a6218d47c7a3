//! The options of a segment.

ghost use Rattle.std.specs.Prelude.{◌≡◌};

use crate::check::between;
use crate::fields::{BLOCK, LARGEST_SEGMENT, TCP_OPTION, TIMES, WINDOW_SCALE};
use crate::layer::Layer;
use crate::packet::Refusal;
use crate::read::read_at;
use crate::walk::Walk;
use deku_transport::option::{Block, LargestSegment, TcpOption, Times, WindowScale};

impl<'a> Walk<'a> {
    /// Reads the options from this index to the end of the header, and the data of those that are
    /// known. What follows the end of the options is not read.
    pub fn tcp_options(&mut self, start: usize) -> Result<(), Refusal>
        ensures same { self.new.layers.bytes.now ≡ self.old.layers.bytes.now }
    {
        let mut start = start;
        for _ in 0..40 {
            if between(self.layers.bytes, start, self.at).is_empty() {
                break;
            }
            let (option, end): (TcpOption, usize) = self.within(start, &TCP_OPTION)?;
            let kind = option.kind;
            self.place(start, end, Layer::TcpOption(option))?;
            self.option_data(kind, start.saturating_add(2), end)?;
            if kind == 0 {
                break;
            }
            start = end;
        }
        Ok(())
    }

    // Reads the data of an option of this kind, which is there, if the kind is known.
    fn option_data(&mut self, kind: u8, start: usize, end: usize) -> Result<(), Refusal>
        ensures same { self.new.layers.bytes.now ≡ self.old.layers.bytes.now }
    {
        let bytes = self.layers.bytes;
        match kind {
            2 => {
                let (data, after) = read_at::<LargestSegment>(
                    self.alloc,
                    bytes,
                    start,
                    end,
                    &LARGEST_SEGMENT,
                )?;
                self.place(start, after, Layer::LargestSegment(data))
            }
            3 => {
                let (data, after) = read_at::<WindowScale>(
                    self.alloc,
                    bytes,
                    start,
                    end,
                    &WINDOW_SCALE,
                )?;
                self.place(start, after, Layer::WindowScale(data))
            }
            5 => self.blocks(start, end),
            8 => {
                let (data, after) = read_at::<Times>(self.alloc, bytes, start, end, &TIMES)?;
                self.place(start, after, Layer::Times(data))
            }
            _ => Ok(()),
        }
    }

    // Reads the blocks that are there.
    fn blocks(&mut self, start: usize, end: usize) -> Result<(), Refusal>
        ensures same { self.new.layers.bytes.now ≡ self.old.layers.bytes.now }
    {
        let mut start = start;
        for _ in 0..5 {
            let bytes = self.layers.bytes;
            if between(bytes, start, end).is_empty() {
                break;
            }
            let (block, after) = read_at::<Block>(self.alloc, bytes, start, end, &BLOCK)?;
            self.place(start, after, Layer::Block(block))?;
            start = after;
        }
        Ok(())
    }
}
