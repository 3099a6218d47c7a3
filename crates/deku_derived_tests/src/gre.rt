//! The header of generic routing, RFC 2890: fields that flags bring.
//!
//! Printed by `derive` from `gre.rs`.

ghost use Rattle.std.specs.Prelude.{codes, refl};
ghost use Rattle.deku.specs.Composing.{Then};
ghost use Rattle.deku.specs.Shapes.{Shows};
ghost use Rattle.deku_symmetry.specs.Fields.{be, msb};

use deku::device::{Sink, Source};
use deku::prelude::{DekuError, DekuReader, DekuWriter, Reader, Writer};
use deku_symmetry::{
    Be, Condition, ConditionLaw, Constant, ConstantLaw, FromParts, Magic, Msb, Optional,
    OptionalRef, Record, read_record,
};
use std::marker::PhantomData;

/// Padding.
#[derive(Debug, PartialEq, Eq, Drop)]
pub struct Zeros;

impl<const N: usize> Constant<Msb<u64, N>> for Zeros {
    ghost value = { record { 0 = 0 } };

    ghost text = { codes "padding" };

    fn value() -> Msb<u64, N> {
        Msb(0)
    }

    fn is_value(part: &Msb<u64, N>) -> bool {
        part.0 == 0
    }

    fn text() -> &'static str {
        "padding"
    }
}

impl<const N: usize> ConstantLaw<Msb<u64, N>> for Zeros {
    ghost alike = { λ v e. rw e refl };
}

/// The record `Gre`.
#[derive(Debug, PartialEq, Eq, Drop)]
pub struct Gre {
    pub has_checksum: bool,
    pub has_key: bool,
    pub has_sequence: bool,
    pub version: u8,
    pub protocol: u16,
    pub checksum: Option<Be<u32>>,
    pub key: Option<Be<u32>>,
    pub sequence: Option<Be<u32>>,
}

type GreChecksumHead = (
    Msb<bool, 1>,
    Magic<Msb<u64, 1>, Zeros>,
    (Msb<bool, 1>, Msb<bool, 1>),
    Magic<Msb<u64, 9>, Zeros>,
    (Msb<u8, 3>, Be<u16>),
);

/// Whether `checksum` is there: `has_checksum`.
#[derive(Debug, PartialEq, Eq, Drop)]
pub struct GreChecksumCondition;

impl Condition<GreChecksumHead> for GreChecksumCondition {
    ghost shows = { λ p. p.0.0 };

    fn shows(parts: &GreChecksumHead) -> bool {
        parts.0.0
    }
}

impl ConditionLaw<GreChecksumHead> for GreChecksumCondition {
    ghost alike = { λ v w e. rw e.0 refl };
}

type GreKeyHead = Optional<GreChecksumHead, GreChecksumCondition, Be<u32>>;

type GreKeyLent<'a> = OptionalRef<'a, GreChecksumHead, GreChecksumCondition, Be<u32>>;

/// Whether `key` is there: `has_key`.
#[derive(Debug, PartialEq, Eq, Drop)]
pub struct GreKeyCondition;

impl Condition<GreKeyHead> for GreKeyCondition {
    ghost shows = { λ p. p.head.2.0.0 };

    fn shows(parts: &GreKeyHead) -> bool {
        parts.head.2.0.0
    }
}

impl<'a> Condition<GreKeyLent<'a>> for GreKeyCondition {
    ghost shows = { λ p. p.head.2.0.0 };

    fn shows(parts: &GreKeyLent<'a>) -> bool {
        parts.head.2.0.0
    }
}

impl ConditionLaw<GreKeyHead> for GreKeyCondition {
    ghost alike = { λ v w e. rw e.0.1.1.0.0 refl };
}

type GreSequenceHead = Optional<GreKeyHead, GreKeyCondition, Be<u32>>;

type GreSequenceLent<'a> = OptionalRef<'a, GreKeyLent<'a>, GreKeyCondition, Be<u32>>;

/// Whether `sequence` is there: `has_sequence`.
#[derive(Debug, PartialEq, Eq, Drop)]
pub struct GreSequenceCondition;

impl Condition<GreSequenceHead> for GreSequenceCondition {
    ghost shows = { λ p. p.head.head.2.1.0 };

    fn shows(parts: &GreSequenceHead) -> bool {
        parts.head.head.2.1.0
    }
}

impl<'a> Condition<GreSequenceLent<'a>> for GreSequenceCondition {
    ghost shows = { λ p. p.head.head.2.1.0 };

    fn shows(parts: &GreSequenceLent<'a>) -> bool {
        parts.head.head.2.1.0
    }
}

impl ConditionLaw<GreSequenceHead> for GreSequenceCondition {
    ghost alike = { λ v w e. rw e.0.0.1.1.0.1 refl };
}

impl Gre {
    /// The names of its parts, in their order.
    pub const FIELDS: [&'static str; 10] = [
        "has_checksum",
        "padding",
        "has_key",
        "has_sequence",
        "padding",
        "version",
        "protocol",
        "checksum",
        "key",
        "sequence",
    ];
}

// The parts of Gre, in their order.
type GreParts = Optional<GreSequenceHead, GreSequenceCondition, Be<u32>>;

impl FromParts for Gre {
    type Parts = GreParts;

    ghost parts_of = { λ r. record {
      head = record {
        head = record {
          head = (
            msb r.has_checksum,
            record { part = record {}; constant = record {} },
            (msb r.has_key, msb r.has_sequence),
            record { part = record {}; constant = record {} },
            (msb r.version, be r.protocol),
          );
          item = r.checksum;
          condition = record {};
        };
        item = r.key;
        condition = record {};
      };
      item = r.sequence;
      condition = record {};
    } };

    ghost record_of = { λ p. record {
      has_checksum = p.head.head.head.0.0;
      has_key = p.head.head.head.2.0.0;
      has_sequence = p.head.head.head.2.1.0;
      version = p.head.head.head.4.0.0;
      protocol = p.head.head.head.4.1.0;
      checksum = p.head.head.item;
      key = p.head.item;
      sequence = p.item;
    } };

    fn from_parts(parts: Self::Parts) -> Self {
        let Optional {
            head: Optional {
                head: Optional {
                    head: (
                        Msb(has_checksum),
                        _,
                        (Msb(has_key), Msb(has_sequence)),
                        _,
                        (Msb(version), Be(protocol)),
                    ),
                    item: checksum,
                    ..
                },
                item: key,
                ..
            },
            item: sequence,
            ..
        } = parts;
        Gre {
            has_checksum,
            has_key,
            has_sequence,
            version,
            protocol,
            checksum,
            key,
            sequence,
        }
    }

    ghost there = { λ r. refl };
}

impl DekuReader<()> for Gre {
    ghost no_read_ahead = { ⟦<GreParts as DekuReader<()>>⟧.no_read_ahead };

    ghost meaning = { λ c. Then (⟦<GreParts as DekuReader<()>>⟧.meaning c)
        (Shows ⟦<Gre as FromParts>⟧.parts_of) };

    #[inline(always)]
    fn from_reader_with_ctx<R: Source>(reader: &mut Reader<R>, ctx: ()) -> Result<Self, DekuError> {
        read_record(reader, ctx)
    }
}

impl DekuWriter<()> for Gre {
    ghost meaning = { λ v. ⟦<GreParts as DekuWriter<()>>⟧.meaning
        (⟦<Gre as FromParts>⟧.parts_of v) };

    #[inline(always)]
    fn to_writer<W: Sink>(&self, writer: &mut Writer<W>, ctx: ()) -> Result<(), DekuError> {
        let parts = OptionalRef::<_, GreSequenceCondition, _> {
            head: OptionalRef::<_, GreKeyCondition, _> {
                head: OptionalRef::<_, GreChecksumCondition, _> {
                    head: (
                        Msb::<_, 1>(self.has_checksum),
                        Magic::<Msb<u64, 1>, Zeros> {
                            part: PhantomData,
                            constant: PhantomData,
                        },
                        (Msb::<_, 1>(self.has_key), Msb::<_, 1>(self.has_sequence)),
                        Magic::<Msb<u64, 9>, Zeros> {
                            part: PhantomData,
                            constant: PhantomData,
                        },
                        (Msb::<_, 3>(self.version), Be(self.protocol)),
                    ),
                    item: &self.checksum,
                    condition: PhantomData,
                },
                item: &self.key,
                condition: PhantomData,
            },
            item: &self.sequence,
            condition: PhantomData,
        };
        parts.to_writer(writer, ctx)
    }
}

impl Record<()> for Gre {
    type Layout = GreParts;

    ghost reads = { λ c b s r u m. m };

    ghost writes = { λ c v b s r u m. m };
}
