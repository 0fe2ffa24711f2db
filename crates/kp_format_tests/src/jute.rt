//! The primitives, in the bytes of a create request, a connect request and a packet.

use kp_jute::{JuteFail, NoMemory, Reader, Writer};
use std::alloc::Global;

// A create request as ZooKeeper's clients send it: of /app, empty, for anyone, with no flags.
const CREATE: &[u8] =
    b"\0\0\0\x01\0\0\0\x01\0\0\0\x04/app\0\0\0\0\0\0\0\x01\0\0\0\x1f\0\0\0\x05world\0\0\0\x06anyone\0\0\0\0";

// The fields of a connect request behind its protocol version, with a null password.
const CONNECT: &[u8] = b"\0\0\0\0\0\0\0\x01\0\0\x75\x30\xff\xff\xff\xff\x01";

// Whether the next text is this one.
fn reads_text(alloc: Global, reader: &mut Reader<'_>, wanted: &str) -> Result<bool, JuteFail> {
    let text = reader.ustring(alloc)?;
    let same = text.as_deref() == Some(wanted);
    drop(text);
    Ok(same)
}

// Whether there is a buffer next without a byte.
fn reads_nothing(alloc: Global, reader: &mut Reader<'_>) -> Result<bool, JuteFail> {
    let bytes = reader.buffer(alloc)?;
    let same = bytes.as_deref() == Some(&[][..]);
    drop(bytes);
    Ok(same)
}

// Whether there is an access list next that gives everything to anyone.
fn reads_anyone(alloc: Global, reader: &mut Reader<'_>) -> Result<bool, JuteFail> {
    let rights = reader.count()? == Some(1) && reader.int()? == 31;
    Ok(rights && reads_text(alloc, reader, "world")? && reads_text(alloc, reader, "anyone")?)
}

fn reads_create(alloc: Global, reader: &mut Reader<'_>) -> Result<bool, JuteFail> {
    let head = reader.int()? == 1 && reader.int()? == 1;
    let node = reads_text(alloc, reader, "/app")? && reads_nothing(alloc, reader)?;
    let anyone = reads_anyone(alloc, reader)? && reader.place() == 47;
    Ok(head && node && anyone && reader.int()? == 0 && reader.is_at_end())
}

#[test]
fn reads_a_create_request(rt: HostRuntime) -> Result<(), JuteFail> {
    assert!(rt; reads_create(rt.alloc(), &mut Reader::new(CREATE))?);
    Ok(())
}

// Whether there is a null buffer next.
fn reads_null(alloc: Global, reader: &mut Reader<'_>) -> Result<bool, JuteFail> {
    let bytes = reader.buffer(alloc)?;
    let null = bytes.is_none();
    drop(bytes);
    Ok(null)
}

fn reads_connect(alloc: Global, reader: &mut Reader<'_>) -> Result<bool, JuteFail> {
    let head = reader.long()? == 1 && reader.int()? == 30_000;
    Ok(head && reads_null(alloc, reader)? && reader.boolean()?)
}

#[test]
fn reads_a_connect_request(rt: HostRuntime) -> Result<(), JuteFail> {
    assert!(rt; reads_connect(rt.alloc(), &mut Reader::new(CONNECT))?);
    Ok(())
}

fn write_create(writer: &mut Writer) -> Result<(), NoMemory> {
    writer.int(1)?;
    writer.int(1)?;
    writer.ustring(Some("/app"))?;
    writer.buffer(Some(&[]))?;
    writer.count(Some(1))?;
    writer.int(31)?;
    writer.ustring(Some("world"))?;
    writer.ustring(Some("anyone"))?;
    writer.int(0)
}

fn write_connect(writer: &mut Writer) -> Result<(), NoMemory> {
    writer.long(1)?;
    writer.int(30_000)?;
    writer.buffer(None)?;
    writer.boolean(true)
}

#[test]
fn writes_what_is_sent(rt: HostRuntime) -> Result<(), NoMemory> {
    let mut create = Writer::new(rt.alloc());
    let written = write_create(&mut create);
    let create = create.finish();
    let mut connect = Writer::new(rt.alloc());
    let ended = write_connect(&mut connect);
    let connect = connect.finish();
    let same = create.as_slice() == CREATE && connect.as_slice() == CONNECT;
    drop(create);
    drop(connect);
    written?;
    ended?;
    assert!(rt; same);
    Ok(())
}

// A packet of five bytes, and one byte behind it.
const PACKET: &[u8] = b"\0\0\0\x05\xff\xff\xff\xfe\x07\x09";

// Whether a number stands first in the packet, with something behind it.
fn reads_first(packet: &mut Reader<'_>) -> Result<bool, JuteFail> {
    let first = packet.unsigned_int()? == 0xffff_fffe && packet.place() == 8;
    Ok(first && matches!(packet.end(), Err(JuteFail::BadByte { at: 8 })))
}

// Whether one byte is last in the packet.
fn reads_last(packet: &mut Reader<'_>) -> Result<bool, JuteFail> {
    let last = packet.take(2).is_err() && packet.take(1)? == &[7][..];
    Ok(last && packet.end().is_ok())
}

// Whether one byte stands behind the packet.
fn ends_behind(reader: &mut Reader<'_>) -> Result<bool, JuteFail> {
    let behind = reader.rest() == &[9][..] && reader.take_rest() == &[9][..];
    Ok(behind && reader.end().is_ok())
}

#[test]
fn reads_a_packet_by_itself(rt: HostRuntime) -> Result<(), JuteFail> {
    let mut reader = Reader::new(PACKET);
    let mut packet = reader.packet()?;
    assert!(rt; packet.remaining() == 5 && reads_first(&mut packet)?);
    assert!(rt; reads_last(&mut packet)? && ends_behind(&mut reader)?);
    assert!(rt; Reader::new(&PACKET[1..]).unsigned_long()? == 0x05ff_ffff_fe07);
    Ok(())
}

// Whether a packet is written as it stands above.
fn is_packet(alloc: Global) -> Result<bool, NoMemory> {
    let mut writer = Writer::for_packet(alloc)?;
    writer.unsigned_int(0xffff_fffe)?;
    writer.raw(&[7])?;
    let packet = writer.finish_packet()?;
    let same = packet.as_slice() == &PACKET[..9];
    drop(packet);
    Ok(same)
}

fn is_long(alloc: Global) -> Result<bool, NoMemory> {
    let mut writer = Writer::new(alloc);
    writer.unsigned_long(0x0100_0000_0000_00ff)?;
    let bytes = writer.finish();
    let same = bytes.as_slice() == b"\x01\0\0\0\0\0\0\xff".as_slice();
    drop(bytes);
    Ok(same)
}

#[test]
fn writes_a_packet(rt: HostRuntime) -> Result<(), NoMemory> {
    assert!(rt; is_packet(rt.alloc())?);
    assert!(rt; is_long(rt.alloc())?);
    Ok(())
}
