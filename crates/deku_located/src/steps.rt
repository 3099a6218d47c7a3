//! Parts that are read one after the other.

ghost use Rattle.std.specs.Prelude.{◌+◌, ◌<◌, ◌^◌, ℕ};
ghost use Rattle.deku_bits.specs.ReaderCalls.{Reads};
ghost use Rattle.deku_located.specs.Placed.{Placed, Alone, Counts};

use deku::device::Source;
use deku::reader::Reader;
use deku::{DekuError, DekuReader};

/// How far the reading of parts has come.
#[derive(Debug, Clone, Copy, PartialEq, Eq)]
pub struct Place {
    /// How many parts were read.
    pub parts: usize,
    /// The bit where the part begins that was begun last.
    pub bit: usize,
}

/// Parts that say how far they were read.
///
/// The parts of a tuple, and of what follows a head, are counted one by one, those inside them too.
/// Everything else is one part: a number, a constant, padding, an array, a list, an option, an
/// enum, and a record in another one, if it is a `OnePart`. A check belongs to the last part that
/// it is about.
///
/// ```text
/// (Msb<u8, 4>, Msb<u8, 4>, Be<u16>)                           // three parts
/// CountedBy<(Be<u16>, u8), C, u8>                             // three: two in front, and the list
/// ```
pub trait Steps: DekuReader<()> {
    // How many parts they are.
    ghost steps: { ℕ };

    // What reading them returns and leaves, and the place then.
    ghost placed: { Placed Self };

    /// Reads them as `from_reader_with_ctx` does. The place is then after them; if one is refused,
    /// it is in front of that one: those before it are counted, and `bit` is where it begins.
    ///
    /// The caller's conditions: they may be read, and a `usize` can count them.
    fn read_steps<R: Source>(reader: &mut Reader<R>, place: &mut Place) -> Result<Self, DekuError>
    where
        Self: Sized,
        requires accepted { Self.DekuReader.accepts tt }
        requires room { place.now.parts + steps < 2 ^ 64 }
        ensures reads { Reads R.known (Self.DekuReader.meaning tt) reader.old result reader.new }
        ensures placed { Reads R.known (placed place.old.parts place.new) reader.old result
            reader.new }
        ensures counted { Counts steps place.old.parts place.new result };
}

/// A part that is counted as one. A record or an enum that is a part of another record has a line
/// that says so.
///
/// ```text
/// impl OnePart for Position {}
/// ```
pub trait OnePart: DekuReader<()> {}

/// The part alone.
impl<T: OnePart> Steps for T {
    ghost steps = { 1 };

    ghost placed = { Alone (T.DekuReader.meaning tt) };

    #[inline(always)]
    fn read_steps<R: Source>(reader: &mut Reader<R>, place: &mut Place) -> Result<T, DekuError> {
        place.bit = reader.bits_read();
        let part = T::from_reader_with_ctx(reader, ())?;
        place.parts += 1;
        Ok(part)
    }
}
