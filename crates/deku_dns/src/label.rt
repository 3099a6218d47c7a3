//! The labels of a name, as in RFC 1035, section 3.1.
//!
//! ```text
//! length  8 bits  0 to 63; 0 is the empty label, which ends the name
//! bytes   as many bytes
//! ```

ghost use Rattle.std.specs.Prelude.{refl, nat_lt, Some, None, nat_eq, if◌then◌else◌};
ghost use Rattle.deku.specs.Composing.{Then};
ghost use Rattle.deku.specs.Shapes.{Shows};

use deku::device::{Sink, Source};
use deku::prelude::{DekuError, DekuReader, DekuWriter, Reader, Writer};
use deku_symmetry::{
    Counted, FromParts, ItemCount, ItemCountLaw, Last, LastLaw, Record, ToParts, Until,
    read_record, write_counted, write_record,
};

/// A name: its labels, of which the empty one is the last.
pub type Name = Until<Label, NameLast>;

/// The length of a label: a byte. More than 63 is not a length, so a pointer to another name is
/// rejected.
#[derive(Debug, PartialEq, Eq, Drop)]
pub struct Length(pub u8);

impl FromParts for Length {
    type Parts = u8;

    ghost parts_of = { λ r. r.0 };

    ghost record_of = { λ p. record { 0 = p } };

    fn from_parts(parts: Self::Parts) -> Self {
        Length(parts)
    }

    ghost there = { λ r. refl };
}

impl ToParts for Length {
    fn parts(&self) -> Self::Parts {
        self.0
    }
}

/// As many bytes as the length says, if they are at most 63.
impl ItemCount for Length {
    ghost count_of = { λ l. if nat_lt l.0 64 then Some l.0 else None };

    fn count(&self) -> Option<usize> {
        if self.0 < 64 {
            Some(self.0 as usize)
        } else {
            None
        }
    }
}

impl ItemCountLaw for Length {
    ghost alike = { λ v w e. rw e refl };
}

impl Record<()> for Length {
    type Layout = u8;

    ghost reads = { λ c b s r u m. m };

    ghost writes = { λ c v b s r u m. m };
}

impl DekuReader<()> for Length {
    ghost no_read_ahead = { ⟦<u8 as DekuReader<()>>⟧.no_read_ahead };

    ghost meaning = { λ _. Then (⟦<u8 as DekuReader<()>>⟧.meaning tt)
        (Shows ⟦<Length as FromParts>⟧.parts_of) };

    fn from_reader_with_ctx<R: Source>(
        reader: &mut Reader<R>,
        _ctx: (),
    ) -> Result<Self, DekuError> {
        read_record(reader, ())
    }
}

impl DekuWriter<()> for Length {
    ghost meaning = { λ v _. ⟦<u8 as DekuWriter<()>>⟧.meaning
        (⟦<Length as FromParts>⟧.parts_of v) tt };

    fn to_writer<W: Sink>(&self, writer: &mut Writer<W>, _ctx: ()) -> Result<(), DekuError> {
        write_record(self, writer, ())
    }
}

/// A label: at most 63 bytes, and how many they are.
#[derive(Debug, PartialEq, Eq, Drop)]
pub struct Label {
    /// How many bytes there are, 0 to 63.
    pub length: u8,
    /// The bytes.
    pub bytes: Vec<u8>,
}

// The length, and as many bytes as it says.
type Parts = Counted<Length, u8>;

impl FromParts for Label {
    type Parts = Parts;

    ghost parts_of = { λ r. record { head = record { 0 = r.length }; items = r.bytes } };

    ghost record_of = { λ p. record { length = p.head.0; bytes = p.items } };

    fn from_parts(parts: Self::Parts) -> Self {
        Label {
            length: parts.head.0,
            bytes: parts.items,
        }
    }

    ghost there = { λ r. refl };
}

impl Record<()> for Label {
    type Layout = Parts;

    ghost reads = { λ c b s r u m. m };

    ghost writes = { λ c v b s r u m. m };
}

impl DekuReader<()> for Label {
    ghost no_read_ahead = { ⟦<Parts as DekuReader<()>>⟧.no_read_ahead };

    ghost meaning = { λ _. Then (⟦<Parts as DekuReader<()>>⟧.meaning tt)
        (Shows ⟦<Label as FromParts>⟧.parts_of) };

    fn from_reader_with_ctx<R: Source>(
        reader: &mut Reader<R>,
        _ctx: (),
    ) -> Result<Self, DekuError> {
        read_record(reader, ())
    }
}

impl DekuWriter<()> for Label {
    ghost meaning = { λ v _. ⟦<Parts as DekuWriter<()>>⟧.meaning
        (⟦<Label as FromParts>⟧.parts_of v) tt };

    fn to_writer<W: Sink>(&self, writer: &mut Writer<W>, _ctx: ()) -> Result<(), DekuError> {
        write_counted(&Length(self.length), &self.bytes, writer)
    }
}

/// The empty label ends a name.
#[derive(Debug, PartialEq, Eq, Drop)]
pub struct NameLast;

impl Last<Label> for NameLast {
    ghost last_of = { λ l. nat_eq l.length 0 };

    fn is_last(label: &Label) -> bool {
        label.length == 0
    }
}

impl LastLaw<Label> for NameLast {
    ghost alike = { λ v w e. rw e.0 refl };
}
