//! Records as bytes and back.

use crate::between::{Between, Body};
use crate::gre::Gre;
use crate::padded::{EndianOfId, Padded};
use crate::shape::Shape;
use crate::sized::{Alone, Sizing, Text, ToEnd, Two};
use deku::prelude::{DekuContainerWrite, DekuError, NeedSize};
use deku_messages::ntp::Ntp;
use deku_symmetry::{Be, SymmetricLast};
use deku_testing_values::expecting::same;
use deku_testing_values::records::{expect_both_ways, expect_refusal};
use deku_transport::tcp::Tcp;
use std::alloc::Global;
use std::test::Fail;

#[test]
fn signed_numbers_and_bits(rt: HostRuntime) -> Result<(), Fail> {
    let value = Ntp {
        leap: 0,
        version: 4,
        mode: 3,
        stratum: 2,
        poll: 6,
        precision: -20,
        root_delay: 0x0100,
        root_dispersion: 0x0203,
        reference_id: [0x4C, 0x4F, 0x43, 0x4C],
        reference: 1,
        origin: 0x0102_0304_0506_0708,
        receive: 0,
        transmit: 0xFF,
    };
    let bytes = [
        0x23, 0x02, 0x06, 0xEC, 0x00, 0x00, 0x01, 0x00, 0x00, 0x00, 0x02, 0x03, 0x4C, 0x4F, 0x43,
        0x4C, 0x00, 0x00, 0x00, 0x00, 0x00, 0x00, 0x00, 0x01, 0x01, 0x02, 0x03, 0x04, 0x05, 0x06,
        0x07, 0x08, 0x00, 0x00, 0x00, 0x00, 0x00, 0x00, 0x00, 0x00, 0x00, 0x00, 0x00, 0x00, 0x00,
        0x00, 0x00, 0xFF,
    ];
    expect_both_ways(rt.alloc(), (), &value, 384, &bytes)
}

fn tcp(alloc: Global, words: u8, options: &[u8]) -> Result<Tcp, Fail> {
    Ok(Tcp {
        source: 443,
        destination: 0xC93A,
        sequence: 0x0102_0304,
        acknowledgment: 0x0506_0708,
        words,
        reserved: 0,
        cwr: false,
        ece: false,
        urg: false,
        ack: true,
        psh: false,
        rst: false,
        syn: true,
        fin: false,
        window: 0x7210,
        checksum: 0xABCD,
        urgent: 0,
        options: options.to_vec(alloc)?,
    })
}

#[test]
fn items_that_a_field_counts(rt: HostRuntime) -> Result<(), Fail> {
    let alloc = rt.alloc();
    let options = [0x02, 0x04, 0x05, 0xB4];
    let bytes = [
        0x01, 0xBB, 0xC9, 0x3A, 0x01, 0x02, 0x03, 0x04, 0x05, 0x06, 0x07, 0x08, 0x60, 0x12, 0x72,
        0x10, 0xAB, 0xCD, 0x00, 0x00, 0x02, 0x04, 0x05, 0xB4,
    ];
    expect_both_ways(alloc, (), &tcp(alloc, 6, &options)?, 192, &bytes)?;
    let refusal = DekuError::Assertion("count out of step with items");
    same(&4, &tcp(alloc, 4, &options)?.to_bytes(alloc), &Err(refusal))
}

#[test]
fn fields_that_flags_bring(rt: HostRuntime) -> Result<(), Fail> {
    let alloc = rt.alloc();
    let value = Gre {
        has_checksum: true,
        has_key: false,
        has_sequence: true,
        version: 0,
        protocol: 0x0800,
        checksum: Some(Be(0x1234_0000)),
        key: None,
        sequence: Some(Be(7)),
    };
    let bytes = [
        0x90, 0x00, 0x08, 0x00, 0x12, 0x34, 0x00, 0x00, 0x00, 0x00, 0x00, 0x07,
    ];
    expect_both_ways(alloc, (), &value, 96, &bytes)?;
    let refusal = DekuError::Assertion("padding");
    expect_refusal::<Gre>(alloc, &[0xC0, 0x00, 0x08, 0x00], refusal, 2)
}

#[test]
fn kinds_under_an_id(rt: HostRuntime) -> Result<(), Fail> {
    let alloc = rt.alloc();
    let rectangle = Shape::Rectangle {
        flags: 5,
        width: 0x0102,
        height: 0x0304,
    };
    let rows: [(Shape, &[u8]); 4] = [
        (Shape::Circle(0x123), &[0x11, 0x23]),
        (rectangle, &[0x25, 0x01, 0x02, 0x03, 0x04]),
        (Shape::Empty(7), &[0x37]),
        (Shape::Unknown(9, 3), &[0x93]),
    ];
    for (shape, bytes) in &rows {
        expect_both_ways(alloc, (), shape, bytes.len() * 8, bytes)?;
    }
    let refusal = DekuError::Assertion("kind out of step with its id");
    same(&1, &Shape::Unknown(1, 3).to_bytes(alloc), &Err(refusal))?;
    let ended = DekuError::Incomplete(NeedSize::new(12));
    expect_refusal::<Shape>(alloc, &[0x11], ended, 4)
}

// The record, with its enum of this id.
fn between(alloc: Global, kind: u8) -> Result<Between, Fail> {
    let marks = [0x0A, 0x0B].to_vec(alloc)?;
    let rest = [0xFF].to_vec(alloc)?;
    Ok(Between {
        length: 2,
        marks,
        kind,
        body: Body::Number(0x0304),
        count: 1,
        rest,
    })
}

#[test]
fn an_enum_between_lists(rt: HostRuntime) -> Result<(), Fail> {
    let alloc = rt.alloc();
    let bytes = [0x02, 0x0A, 0x0B, 0x01, 0x03, 0x04, 0x01, 0xFF];
    expect_both_ways(alloc, (), &between(alloc, 1)?, 64, &bytes)?;
    let refusal = DekuError::Assertion("kind out of step with its id");
    same(&2, &between(alloc, 2)?.to_bytes(alloc), &Err(refusal))
}

#[test]
fn a_count_that_is_not_kept(rt: HostRuntime) -> Result<(), Fail> {
    let alloc = rt.alloc();
    let alone = Alone {
        items: vec![in alloc; Be(0xDEAD), Be(0xBEEF)]?,
    };
    expect_both_ways(alloc, (), &alone, 40, &[0x02, 0xDE, 0xAD, 0xBE, 0xEF])
}

fn twos(alloc: Global) -> Result<Vec<Two>, Fail> {
    let twos = [(0xAB, 0xBC), (0xDE, 0xEF)].map(|(first, second)| Two { first, second });
    Ok(twos.to_vec(alloc)?)
}

#[test]
fn lists_of_a_size(rt: HostRuntime) -> Result<(), Fail> {
    let alloc = rt.alloc();
    let sized = Sizing {
        bytes: 4,
        items: twos(alloc)?,
    };
    expect_both_ways(alloc, (), &sized, 40, &[0x04, 0xAB, 0xBC, 0xDE, 0xEF])?;
    let rest = ToEnd {
        items: twos(alloc)?,
    };
    let bytes = [0xAB, 0xBC, 0xDE, 0xEF];
    same(&2, &rest.pack_whole(alloc)?.as_slice(), &bytes.as_slice())?;
    same(&3, &ToEnd::unpack_whole(alloc, &bytes)?, &(32, rest))
}

// Bytes of a text that do not end with their only zero.
const TEXTS: [&[u8]; 4] = [&[], &[0x68], &[0x68, 0x00, 0x69, 0x00], &[0x00, 0x68]];

#[test]
fn texts_that_a_zero_ends(rt: HostRuntime) -> Result<(), Fail> {
    let alloc = rt.alloc();
    let mut text = Text {
        first: 0x0102,
        bytes: [0x68, 0x69, 0x00].to_vec(alloc)?,
        last: 0x0304,
    };
    let bytes = [0x01, 0x02, 0x68, 0x69, 0x00, 0x03, 0x04];
    expect_both_ways(alloc, (), &text, 56, &bytes)?;
    for wrong in TEXTS {
        text.bytes = wrong.to_vec(alloc)?;
        let refusal = DekuError::Assertion("items out of step with their end");
        same(&wrong, &text.to_bytes(alloc), &Err(refusal))?;
    }
    let ended = DekuError::Incomplete(NeedSize::new(8));
    expect_refusal::<Text>(alloc, &bytes[..4], ended, 32)
}

#[test]
fn padding_on_each_side(rt: HostRuntime) -> Result<(), Fail> {
    let alloc = rt.alloc();
    let padded = Padded {
        byte: 0xAA,
        first: 0b10,
        second: 0b1001,
    };
    expect_both_ways(alloc, (), &padded, 32, &[0, 0xAA, 0, 0b1000_1001])?;
    let refusal = DekuError::Assertion("padding");
    expect_refusal::<Padded>(alloc, &[0, 0xAA, 1, 0], refusal, 24)
}

#[test]
fn ids_in_an_endian_of_their_own(rt: HostRuntime) -> Result<(), Fail> {
    let alloc = rt.alloc();
    let endians = [
        (EndianOfId::Little(1), [0x00, 0x01, 0x01, 0x00]),
        (EndianOfId::Big { x: 256 }, [0x00, 0x02, 0x01, 0x00]),
    ];
    for (value, bytes) in &endians {
        expect_both_ways(alloc, (), value, 32, bytes)?;
    }
    Ok(())
}
