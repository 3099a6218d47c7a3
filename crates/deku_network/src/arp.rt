//! The address resolution protocol for IPv4 over Ethernet, RFC 826.
//!
//! ```text
//! hardware          16 bits   1: Ethernet
//! protocol          16 bits   0800: IPv4
//! hardware_length    8 bits   6 bytes
//! protocol_length    8 bits   4 bytes
//! operation         16 bits   1 a question, 2 its answer
//! sender_hardware   48 bits
//! sender            32 bits
//! target_hardware   48 bits   zero in a question
//! target            32 bits
//! ```
//!
//! Printed by `derive` from `arp.rs`.

ghost use Rattle.std.specs.Prelude.{nat_eq, codes, refl};
ghost use Rattle.deku.specs.Composing.{Then};
ghost use Rattle.deku.specs.Shapes.{Shows};
ghost use Rattle.deku_symmetry.specs.Fields.{be};

use deku::device::{Sink, Source};
use deku::prelude::{DekuError, DekuReader, DekuWriter, Reader, Writer};
use deku_symmetry::{
    Assert, Be, Check, CheckLaw, FromParts, Record, ToParts, read_record, write_record,
};
use std::net::Ipv4Addr;

/// A question who has an address, or the answer.
#[derive(Debug, Clone, Copy, PartialEq, Eq)]
pub struct Arp {
    /// The kind of hardware: 1, Ethernet.
    pub hardware: u16,
    /// The kind of address: 0x0800, IPv4.
    pub protocol: u16,
    /// The bytes of a hardware address: 6.
    pub hardware_length: u8,
    /// The bytes of an address: 4.
    pub protocol_length: u8,
    /// 1 is a question, 2 its answer.
    pub operation: u16,
    /// The hardware address of the sender.
    pub sender_hardware: [u8; 6],
    /// The address of the sender.
    pub sender: Ipv4Addr,
    /// The hardware address of the target, or zeros in a question.
    pub target_hardware: [u8; 6],
    /// The address that is asked for, or that of who asked.
    pub target: Ipv4Addr,
}

/// What `hardware` has to be: `hardware == 1`.
#[derive(Debug, PartialEq, Eq, Drop)]
pub struct ArpHardwareValue;

impl Check<Be<u16>> for ArpHardwareValue {
    ghost passes = { λ p. nat_eq p.0 1 };

    ghost text = { codes "hardware" };

    fn passes(parts: &Be<u16>) -> bool {
        let hardware = parts.0;
        hardware == 1
    }

    fn text() -> &'static str {
        "hardware"
    }
}

impl CheckLaw<Be<u16>> for ArpHardwareValue {
    ghost alike = { λ v w e. rw e refl };
}

/// What `protocol` has to be: `protocol == 2048`.
#[derive(Debug, PartialEq, Eq, Drop)]
pub struct ArpProtocolValue;

impl Check<Be<u16>> for ArpProtocolValue {
    ghost passes = { λ p. nat_eq p.0 2048 };

    ghost text = { codes "protocol" };

    fn passes(parts: &Be<u16>) -> bool {
        let protocol = parts.0;
        protocol == 2048
    }

    fn text() -> &'static str {
        "protocol"
    }
}

impl CheckLaw<Be<u16>> for ArpProtocolValue {
    ghost alike = { λ v w e. rw e refl };
}

/// What `hardware_length` has to be: `hardware_length == 6`.
#[derive(Debug, PartialEq, Eq, Drop)]
pub struct ArpHardwareLengthValue;

impl Check<u8> for ArpHardwareLengthValue {
    ghost passes = { λ p. nat_eq p 6 };

    ghost text = { codes "hardware_length" };

    fn passes(parts: &u8) -> bool {
        let hardware_length = *parts;
        hardware_length == 6
    }

    fn text() -> &'static str {
        "hardware_length"
    }
}

impl CheckLaw<u8> for ArpHardwareLengthValue {
    ghost alike = { λ v w e. rw e refl };
}

/// What `protocol_length` has to be: `protocol_length == 4`.
#[derive(Debug, PartialEq, Eq, Drop)]
pub struct ArpProtocolLengthValue;

impl Check<u8> for ArpProtocolLengthValue {
    ghost passes = { λ p. nat_eq p 4 };

    ghost text = { codes "protocol_length" };

    fn passes(parts: &u8) -> bool {
        let protocol_length = *parts;
        protocol_length == 4
    }

    fn text() -> &'static str {
        "protocol_length"
    }
}

impl CheckLaw<u8> for ArpProtocolLengthValue {
    ghost alike = { λ v w e. rw e refl };
}

impl Arp {
    /// The names of its parts, in their order.
    pub const FIELDS: [&'static str; 9] = [
        "hardware",
        "protocol",
        "hardware_length",
        "protocol_length",
        "operation",
        "sender_hardware",
        "sender",
        "target_hardware",
        "target",
    ];
}

// The parts of Arp, in their order.
type ArpParts = (
    (
        Assert<Be<u16>, ArpHardwareValue>,
        Assert<Be<u16>, ArpProtocolValue>,
        Assert<u8, ArpHardwareLengthValue>,
        Assert<u8, ArpProtocolLengthValue>,
        Be<u16>,
        [u8; 6],
        Be<Ipv4Addr>,
        [u8; 6],
    ),
    Be<Ipv4Addr>,
);

impl FromParts for Arp {
    type Parts = ArpParts;

    ghost parts_of = { λ r. (
      (
        record { part = be r.hardware; check = record {} },
        record { part = be r.protocol; check = record {} },
        record { part = r.hardware_length; check = record {} },
        record { part = r.protocol_length; check = record {} },
        be r.operation,
        r.sender_hardware,
        be r.sender,
        r.target_hardware,
      ),
      be r.target,
    ) };

    ghost record_of = { λ p. record {
      hardware = p.0.0.part.0;
      protocol = p.0.1.part.0;
      hardware_length = p.0.2.part;
      protocol_length = p.0.3.part;
      operation = p.0.4.0;
      sender_hardware = p.0.5;
      sender = p.0.6.0;
      target_hardware = p.0.7;
      target = p.1.0;
    } };

    fn from_parts(parts: Self::Parts) -> Self {
        let (
            (
                Assert {
                    part: Be(hardware),
                    ..
                },
                Assert {
                    part: Be(protocol),
                    ..
                },
                Assert {
                    part: hardware_length,
                    ..
                },
                Assert {
                    part: protocol_length,
                    ..
                },
                Be(operation),
                sender_hardware,
                Be(sender),
                target_hardware,
            ),
            Be(target),
        ) = parts;
        Arp {
            hardware,
            protocol,
            hardware_length,
            protocol_length,
            operation,
            sender_hardware,
            sender,
            target_hardware,
            target,
        }
    }

    ghost there = { λ r. refl };
}

impl ToParts for Arp {
    fn parts(&self) -> Self::Parts {
        (
            (
                Assert::new(Be(self.hardware)),
                Assert::new(Be(self.protocol)),
                Assert::new(self.hardware_length),
                Assert::new(self.protocol_length),
                Be(self.operation),
                self.sender_hardware,
                Be(self.sender),
                self.target_hardware,
            ),
            Be(self.target),
        )
    }
}

impl DekuReader<()> for Arp {
    ghost no_read_ahead = { ⟦<ArpParts as DekuReader<()>>⟧.no_read_ahead };

    ghost meaning = { λ c. Then (⟦<ArpParts as DekuReader<()>>⟧.meaning c)
        (Shows ⟦<Arp as FromParts>⟧.parts_of) };

    #[inline(always)]
    fn from_reader_with_ctx<R: Source>(reader: &mut Reader<R>, ctx: ()) -> Result<Self, DekuError> {
        read_record(reader, ctx)
    }
}

impl DekuWriter<()> for Arp {
    ghost meaning = { λ v. ⟦<ArpParts as DekuWriter<()>>⟧.meaning
        (⟦<Arp as FromParts>⟧.parts_of v) };

    #[inline(always)]
    fn to_writer<W: Sink>(&self, writer: &mut Writer<W>, ctx: ()) -> Result<(), DekuError> {
        write_record(self, writer, ctx)
    }
}

impl Record<()> for Arp {
    type Layout = ArpParts;

    ghost reads = { λ c b s r u m. m };

    ghost writes = { λ c v b s r u m. m };
}
