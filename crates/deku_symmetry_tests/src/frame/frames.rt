//! Frames as bytes and from bytes, and each refusal.

use deku::ctx::BitSize;
use deku::prelude::{
    DekuContainerRead, DekuContainerWrite, DekuEnumExt, DekuError, DekuReader, DekuUpdate,
    DekuWriter, NeedSize, Reader, Writer,
};
use deku_fields::frame::Frame;
use deku_testing_values::expecting::{MISFIT, expect_denied, same};
use deku_testing_values::records::expect_record;
use std::io::Cursor;
use std::test::Fail;

const FAILED: DekuError = DekuError::Assertion("Field failed assertion");

#[test]
fn are_written_and_read(rt: HostRuntime) -> Result<(), Fail> {
    let alloc = rt.alloc();
    let payload = [0xAA, 0xBB].to_vec(alloc)?;
    let rows: [(Frame, &[u8]); 4] = [
        (Frame::ping(0xBEEF), &[0x11, 0xBE, 0xEF]),
        (Frame::data(payload)?, &[0x21, 0x02, 0xAA, 0xBB]),
        (Frame::pair(5, 0x2A7)?, &[0x31, 0x2A, 0xA7]),
        (Frame::data(Vec::new(alloc))?, &[0x21, 0x00]),
    ];
    for (frame, bytes) in &rows {
        expect_record(alloc, frame, bytes)?;
    }
    Ok(())
}

// Bytes, their refusal, and the byte after the eight bits that are read then.
#[test]
fn bytes_are_refused(rt: HostRuntime) -> Result<(), Fail> {
    let rows: [(&[u8], DekuError, u8); 3] = [
        (&[0x41, 0x00], DekuError::IdVariantNotFound, 0x00),
        (&[0x12, 0xBE, 0xEF], FAILED, 0xBE),
        (&[0x42, 0x00], FAILED, 0x00),
    ];
    for (bytes, refusal, next) in rows {
        expect_denied::<Frame, ()>(rt.alloc(), (), bytes, (refusal, 8, next))?;
        let whole = Frame::from_bytes(rt.alloc(), (bytes, 0)).err();
        same(&bytes, &whole, &Some(refusal))?;
    }
    Ok(())
}

// The reader has failed, and says so again.
#[test]
fn short_input(rt: HostRuntime) -> Result<(), Fail> {
    let short = DekuError::Incomplete(NeedSize::new(8));
    let mut reader = Reader::new(rt.alloc(), Cursor::new([0x21u8, 0x02, 0xAA].as_slice()));
    let frame = Frame::from_reader_with_ctx(&mut reader, ()).err();
    let bit = u8::from_reader_with_ctx(&mut reader, BitSize(1)).err();
    same(&"short", &(frame, bit), &(Some(short), Some(short)))
}

#[test]
fn out_of_step(rt: HostRuntime) -> Result<(), Fail> {
    let payload = [0xAA, 0xBB].to_vec(rt.alloc())?;
    let frame = Frame::Data { length: 1, payload };
    let mut writer = Writer::new(Cursor::new(Vec::new(rt.alloc())));
    let written = frame.to_writer(&mut writer, ());
    let seen = (written, writer.bits_written());
    same(&"out of step", &seen, &(Err(FAILED), 0))?;
    same(&"bytes", &writer.into_inner().into_inner().len(), &0)
}

#[test]
fn in_step_again(rt: HostRuntime) -> Result<(), Fail> {
    let payload = [0xAA, 0xBB].to_vec(rt.alloc())?;
    let mut frame = Frame::Data { length: 1, payload };
    frame.update()?;
    expect_record(rt.alloc(), &frame, &[0x21, 0x02, 0xAA, 0xBB])
}

#[test]
fn constructors(rt: HostRuntime) -> Result<(), Fail> {
    for (left, right, refusal) in [
        (32, 0, Some(MISFIT)),
        (0, 2048, Some(MISFIT)),
        (31, 2047, None),
    ] {
        same(&(left, right), &Frame::pair(left, right).err(), &refusal)?;
    }
    let most = Frame::Pair {
        left: 31,
        right: 2047,
    };
    same(&"the widest", &Frame::pair(31, 2047)?, &most)
}

#[test]
fn the_most_data(rt: HostRuntime) -> Result<(), Fail> {
    let most = vec![in rt.alloc(); 7; 255]?;
    let bytes = Frame::data(most)?.to_bytes(rt.alloc())?;
    same(&"255 bytes", &bytes.len(), &257)
}

#[test]
fn more_data(rt: HostRuntime) -> Result<(), Fail> {
    let more = vec![in rt.alloc(); 7; 256]?;
    let refusal = DekuError::Parse("error parsing int");
    same(&"256 bytes", &Frame::data(more).err(), &Some(refusal))
}

#[test]
fn too_wide_to_write(rt: HostRuntime) -> Result<(), Fail> {
    let frame = Frame::Pair {
        left: 1,
        right: 2048,
    };
    let mut writer = Writer::new(Cursor::new(Vec::new(rt.alloc())));
    let written = frame.to_writer(&mut writer, ());
    let seen = (written, writer.bits_written());
    same(&"too wide", &seen, &(Err(MISFIT), 8))?;
    let rest = writer.rest(rt.alloc())?;
    let left: &[bool] = &[false, false, false, false, true];
    same(&"left", &rest.as_slice(), &left)
}

#[test]
fn ids(rt: HostRuntime) -> Result<(), Fail> {
    let data = Frame::data([0xAA, 0xBB].to_vec(rt.alloc())?)?;
    let rows = [
        (Frame::ping(0xBEEF), 1),
        (data, 2),
        (Frame::pair(5, 0x2A7)?, 3),
    ];
    for (frame, id) in &rows {
        same(frame, &frame.deku_id(), &Ok(*id))?;
    }
    Ok(())
}

#[test]
fn updates(rt: HostRuntime) -> Result<(), Fail> {
    let mut ping = Frame::ping(1);
    let updated = ping.update();
    same(
        &"ping",
        &(updated, ping),
        &(Ok(()), Frame::Ping { token: 1 }),
    )
}

#[test]
fn an_update_of_more_data(rt: HostRuntime) -> Result<(), Fail> {
    let mut long = Frame::Data {
        length: 3,
        payload: vec![in rt.alloc(); 0; 256]?,
    };
    let refusal = DekuError::Parse("error parsing int");
    same(&"256 bytes", &long.update(), &Err(refusal))?;
    assert!(rt; matches!(&long, Frame::Data { length: 3, .. }), "{long:?}");
    Ok(())
}
