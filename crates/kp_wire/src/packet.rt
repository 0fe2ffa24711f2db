//! What the server sends on a live connection: a packet of a header with an xid, a zxid and a code, and a body.

ghost use Rattle.std.specs.Prelude.{◌≡◌, Ok, IfOk, OnOk};
ghost use Rattle.std.specs.Int.{w64, cast_signed};
ghost use Rattle.kp_jute.specs.Form.{Gives, Answers, Wrote, whole};
ghost use Rattle.kp_wire.specs.Common.{Tells, Sends, refused_as};
ghost use Rattle.kp_wire.specs.Replies.{shape_of, HasShape};
ghost use Rattle.kp_wire.specs.ServerPackets.{server_packets, headers, answers, event_answers, reply_answers, is_event};

use crate::event::{read_event, write_event_body};
use crate::fail::{WireFail, told};
use crate::field::packet_of;
use crate::multi::fixed_int;
use crate::reply::{Shape, WireReply, read_reply, shape_from, write_answer};
use kp_jute::{JuteFail, NoMemory as Unwritten, Reader, Writer};
use kp_model::{Bytes, Event, NoMemory};
use std::alloc::{AllocError, Global};

/// What the server sends on a live connection.
#[derive(Drop)]
pub enum Packet {
    /// The answer to the request with that xid, and the index of the last entry that it shows. They aren't
    /// both -1.
    Reply {
        xid: i32,
        zxid: i64,
        reply: WireReply,
    },
    /// A watch fired.
    Event(Event),
}

/// Reads a packet of the server: its length and its record. `kind` is the type of the request whose reply is
/// awaited, and tells what a reply holds; an event may come in its place.
///
/// Answers `BadRecord` with the place of the first field that can't be read, or of the first byte that is left
/// over, exactly where the frame is no packet; `NoMemory` only where memory runs out.
pub fn read_packet(alloc: Global, kind: i32, frame: &[u8]) -> Result<Packet, WireFail>
    // What is read is spelled so.
    ensures found { IfOk result (λ v. (server_packets (shape_of kind)).Fits v × (frame.now ≡ (server_packets (shape_of kind)).spell v)) }
    // What is spelled so is read, unless memory runs out.
    ensures only { (v : Packet) → (server_packets (shape_of kind)).Fits v → frame.now ≡ (server_packets (shape_of kind)).spell v → Tells result (Ok v) }
    // Which refusal it is.
    ensures exact { Tells result (whole (server_packets (shape_of kind)) frame.now) }
{
    read_shaped(alloc, shape_from(kind), frame)
}

/// Writes the packet of a reply. `zxid` is the index of the last entry that it shows, and stands for a long in
/// two's complement.
///
/// Answers `NoMemory` also where the reply has no packet: an `Err` of 0, a `Failed` of none, a result that isn't
/// one of its operation's type, an xid and a zxid that are both -1, or what doesn't fit its length.
pub fn write_reply(alloc: Global, xid: i32, zxid: u64, reply: &WireReply) -> Result<Bytes, NoMemory>
    // The bytes are its packet, whatever the type of the request is that has such replies.
    ensures { IfOk result (λ b. (s : Shape) → HasShape s reply.now → Sends (answers s) (Packet.Reply xid (cast_signed w64 zxid) reply.now) b) }
{
    match reply_packet(alloc, numbered(xid, zxid), reply) {
        Ok(bytes) => Ok(bytes),
        Err(_) => Err(NoMemory),
    }
}

/// Writes the packet of an event. Answers `NoMemory` also where the event's path or the packet doesn't fit its
/// length.
pub fn write_event(alloc: Global, event: &Event) -> Result<Bytes, NoMemory>
    // The bytes are its packet, whatever request is awaited.
    ensures { IfOk result (λ b. (s : Shape) → Sends (answers s) (Packet.Event event.now) b) }
{
    match event_packet(alloc, event) {
        Ok(bytes) => Ok(bytes),
        Err(_) => Err(NoMemory),
    }
}

// Reads a packet where the replies have the shape.
fn read_shaped(alloc: Global, shape: Shape, frame: &[u8]) -> Result<Packet, WireFail>
    ensures found { IfOk result (λ v. (server_packets shape).Fits v × (frame.now ≡ (server_packets shape).spell v)) }
    ensures only { (v : Packet) → (server_packets shape).Fits v → frame.now ≡ (server_packets shape).spell v → Tells result (Ok v) }
    ensures exact { Tells result (whole (server_packets shape) frame.now) }
{
    told(read_whole(alloc, shape, frame))
}

fn read_whole(alloc: Global, shape: Shape, frame: &[u8]) -> Result<Packet, JuteFail>
    ensures { Answers (λ x. x) result (whole (server_packets shape) frame.now) }
{
    let mut reader = Reader::new(frame);
    let mut record = reader.packet()?;
    let packet = read_answer(alloc, &mut record, shape)?;
    record.end()?;
    reader.end()?;
    Ok(packet)
}

// The numbers before the code.
#[derive(Clone, Copy)]
struct Header {
    xid: i32,
    zxid: i64,
}

fn read_header(reader: &mut Reader<'_>) -> Result<Header, JuteFail>
    ensures { Gives (λ h. (h.xid, h.zxid)) result reader.new (headers.read reader.old) }
{
    let xid = reader.int()?;
    let zxid = reader.long()?;
    Ok(Header { xid, zxid })
}

fn fires(header: Header) -> bool
    ensures { result ≡ is_event header.xid header.zxid }
{
    header.xid == -1 && header.zxid == -1
}

// Reads the record of a packet.
fn read_answer(alloc: Global, reader: &mut Reader<'_>, shape: Shape) -> Result<Packet, JuteFail>
    ensures { Gives (λ x. x) result reader.new ((answers shape).read reader.old) }
{
    let header = read_header(reader)?;
    if fires(header) {
        return read_fired(alloc, reader);
    }
    read_asked(alloc, reader, shape, header)
}

// Reads an event behind its xid and zxid.
fn read_fired(alloc: Global, reader: &mut Reader<'_>) -> Result<Packet, JuteFail>
    ensures { Gives (λ x. x) result reader.new (event_answers reader.old) }
{
    fixed_int(reader, 0)?;
    let event = read_event(alloc, reader)?;
    Ok(Packet::Event(event))
}

// Reads a reply behind its xid and zxid.
fn read_asked(
    alloc: Global,
    reader: &mut Reader<'_>,
    shape: Shape,
    header: Header,
) -> Result<Packet, JuteFail>
    ensures { Gives (λ x. x) result reader.new (reply_answers shape header.xid header.zxid reader.old) }
{
    let reply = read_reply(alloc, reader, shape)?;
    Ok(Packet::Reply {
        xid: header.xid,
        zxid: header.zxid,
        reply,
    })
}

fn numbered(xid: i32, zxid: u64) -> Header
    ensures { result ≡ record { xid = xid; zxid = cast_signed w64 zxid } }
{
    Header {
        xid,
        zxid: zxid.cast_signed(),
    }
}

fn reply_packet(alloc: Global, header: Header, reply: &WireReply) -> Result<Bytes, Unwritten>
    ensures { IfOk result (λ b. (s : Shape) → HasShape s reply.now → Sends (answers s) (Packet.Reply header.xid header.zxid reply.now) b) }
{
    let mut writer = Writer::for_packet(alloc)?;
    write_asked(&mut writer, header, reply)?;
    packet_of(writer)
}

fn event_packet(alloc: Global, event: &Event) -> Result<Bytes, Unwritten>
    ensures { IfOk result (λ b. (s : Shape) → Sends (answers s) (Packet.Event event.now) b) }
{
    let mut writer = Writer::for_packet(alloc)?;
    write_fired(&mut writer, event)?;
    packet_of(writer)
}

// Writes the record of a reply.
fn write_asked(writer: &mut Writer, header: Header, reply: &WireReply) -> Result<(), Unwritten>
    ensures { OnOk result ((s : Shape) → HasShape s reply.now → Wrote (answers s) (Packet.Reply header.xid header.zxid reply.now) writer.old writer.new) }
{
    if fires(header) {
        return Err(AllocError);
    }
    write_header(writer, header)?;
    write_answer(writer, reply)?;
    Ok(())
}

fn write_header(writer: &mut Writer, header: Header) -> Result<(), Unwritten>
    ensures { OnOk result (Wrote headers (header.xid, header.zxid) writer.old writer.new) }
{
    writer.int(header.xid)?;
    writer.long(header.zxid)?;
    Ok(())
}

// Writes the record of an event.
#[tactic(auto, using(crate::proofs::PacketWrites::wrote_fired))]
fn write_fired(writer: &mut Writer, event: &Event) -> Result<(), Unwritten>
    ensures { OnOk result ((s : Shape) → Wrote (answers s) (Packet.Event event.now) writer.old writer.new) }
{
    writer.int(-1)?;
    writer.long(-1)?;
    writer.int(0)?;
    write_event_body(writer, event)?;
    Ok(())
}
