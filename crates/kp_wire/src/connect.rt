//! What a connection begins with: the connect request and the connect reply.

ghost use Rattle.std.specs.Prelude.{◌≡◌, ◌<◌, ◌^◌, Ok, IfOk, OnOk};
ghost use Rattle.kp_jute.specs.Form.{◌⊗◌, Gives, Answers, Wrote, if_any, whole};
ghost use Rattle.kp_jute.specs.Jute.{booleans, fixed_booleans};
ghost use Rattle.kp_wire.specs.Common.{Tells, Sends, refused_as};
ghost use Rattle.kp_wire.specs.Connects.{session_asks, secrets, connects, connect_packets, connect_answers, connect_answer_packets, passwords, flags};

use crate::fail::{WireFail, told};
use crate::field::packet_of;
use crate::multi::{fixed_boolean, fixed_int};
use crate::value::{read_bytes, write_bytes};
use kp_jute::{JuteFail, NoMemory as Unwritten, Reader, Writer};
use kp_model::{Bytes, NoMemory};
use std::alloc::Global;

/// The first packet of a client, with the fields as they are sent.
#[derive(Drop)]
pub struct ConnectRequest {
    pub protocol: i32,
    /// The zxid that the client saw last.
    pub zxid: i64,
    /// The timeout that it wishes, in milliseconds.
    pub timeout: i32,
    /// The session that it takes over, or 0.
    pub session: i64,
    /// The session's password, or null.
    pub passwd: Option<Bytes>,
    /// None where the packet ends before it.
    pub read_only: Option<bool>,
}

/// What a connect request is answered. `timeout` and `session` stand for an int and a long in two's complement.
#[derive(Clone, Copy)]
pub struct ConnectReply {
    /// The session's timeout in milliseconds; 0 where the connect is refused.
    pub timeout: u32,
    /// The session; 0 where the connect is refused.
    pub session: u64,
    pub passwd: [u8; 16],
    /// Whether the request had `readOnly`; then the reply ends with a boolean, which is 0.
    pub with_read_only: bool,
}

/// Reads a connect request's packet: its length and its record.
///
/// Answers `BadRecord` with the place of the first field that can't be read, or of the first byte that is left
/// over, exactly where the frame is no such packet; `NoMemory` only where memory runs out.
pub fn read_connect(alloc: Global, frame: &[u8]) -> Result<ConnectRequest, WireFail>
    // What is read is spelled so.
    ensures found { IfOk result (λ v. connect_packets.Fits v × (frame.now ≡ connect_packets.spell v)) }
    // What is spelled so is read, unless memory runs out.
    ensures only { (v : ConnectRequest) → connect_packets.Fits v → frame.now ≡ connect_packets.spell v → Tells result (Ok v) }
    // Which refusal it is.
    ensures exact { Tells result (whole connect_packets frame.now) }
{
    told(whole_request(alloc, frame))
}

/// Reads a connect reply's packet: its length and its record.
///
/// Answers `BadRecord` with the place of the first field that can't be read, or of the first byte that is left
/// over, exactly where the frame is no such packet: another first int than 0, a password that is not of 16 bytes
/// and a boolean of 1 are refused where they begin. Answers `NoMemory` only where memory runs out.
pub fn read_connect_reply(alloc: Global, frame: &[u8]) -> Result<ConnectReply, WireFail>
    // What is read is spelled so.
    ensures found { IfOk result (λ v. connect_answer_packets.Fits v × (frame.now ≡ connect_answer_packets.spell v)) }
    // What is spelled so is read, unless memory runs out.
    ensures only { (v : ConnectReply) → connect_answer_packets.Fits v → frame.now ≡ connect_answer_packets.spell v → Tells result (Ok v) }
    // Which refusal it is.
    ensures exact { Tells result (whole connect_answer_packets frame.now) }
{
    told(whole_reply(alloc, frame))
}

/// Writes the packet of a connect request: its length and its record. Answers `NoMemory` also where the request
/// has none, since it doesn't fit its length.
pub fn write_connect_request(alloc: Global, request: &ConnectRequest) -> Result<Bytes, NoMemory>
    ensures { IfOk result (λ b. Sends connects request.now b) }
{
    match request_packet(alloc, request) {
        Ok(bytes) => Ok(bytes),
        Err(_) => Err(NoMemory),
    }
}

/// Writes the packet of a connect reply: its length and its record. Answers `NoMemory` only where memory runs out.
pub fn write_connect(alloc: Global, reply: &ConnectReply) -> Result<Bytes, NoMemory>
    ensures { IfOk result (λ b. Sends connect_answers reply.now b) }
{
    match reply_packet(alloc, reply) {
        Ok(bytes) => Ok(bytes),
        Err(_) => Err(NoMemory),
    }
}

fn whole_request(alloc: Global, frame: &[u8]) -> Result<ConnectRequest, JuteFail>
    ensures { Answers (λ x. x) result (whole connect_packets frame.now) }
{
    let mut reader = Reader::new(frame);
    let mut record = reader.packet()?;
    let request = request_of(alloc, &mut record)?;
    record.end()?;
    reader.end()?;
    Ok(request)
}

fn whole_reply(alloc: Global, frame: &[u8]) -> Result<ConnectReply, JuteFail>
    ensures { Answers (λ x. x) result (whole connect_answer_packets frame.now) }
{
    let mut reader = Reader::new(frame);
    let mut record = reader.packet()?;
    let reply = reply_of(alloc, &mut record)?;
    record.end()?;
    reader.end()?;
    Ok(reply)
}

fn request_of(alloc: Global, reader: &mut Reader<'_>) -> Result<ConnectRequest, JuteFail>
    ensures { Gives (λ x. x) result reader.new (connects.read reader.old) }
{
    let protocol = reader.int()?;
    let zxid = reader.long()?;
    let timeout = reader.int()?;
    let session = reader.long()?;
    let passwd = read_bytes(alloc, reader)?;
    let read_only = optional_boolean(reader)?;
    Ok(ConnectRequest {
        protocol,
        zxid,
        timeout,
        session,
        passwd,
        read_only,
    })
}

// Reads a boolean where bytes are left.
fn optional_boolean(reader: &mut Reader<'_>) -> Result<Option<bool>, JuteFail>
    ensures { Gives (λ x. x) result reader.new ((if_any booleans).read reader.old) }
{
    if reader.is_at_end() {
        return Ok(None);
    }
    let value = reader.boolean()?;
    Ok(Some(value))
}

fn reply_of(alloc: Global, reader: &mut Reader<'_>) -> Result<ConnectReply, JuteFail>
    ensures { Gives (λ x. x) result reader.new (connect_answers.read reader.old) }
{
    fixed_int(reader, 0)?;
    let timeout = reader.unsigned_int()?;
    let session = reader.unsigned_long()?;
    let passwd = password(alloc, reader)?;
    let with_read_only = optional_zero(reader)?;
    Ok(ConnectReply {
        timeout,
        session,
        passwd,
        with_read_only,
    })
}

// Reads a buffer of 16 bytes; any other is refused.
fn password(alloc: Global, reader: &mut Reader<'_>) -> Result<[u8; 16], JuteFail>
    ensures { Gives (λ x. x) result reader.new (passwords.read reader.old) }
{
    let at = reader.place();
    match reader.buffer(alloc)? {
        None => Err(JuteFail::BadByte { at }),
        Some(bytes) => match <[u8; 16]>::try_from(bytes.as_slice()) {
            Err(_) => Err(JuteFail::BadByte { at }),
            Ok(passwd) => Ok(passwd),
        },
    }
}

// Reads the boolean 0 where bytes are left, and tells whether there were any.
fn optional_zero(reader: &mut Reader<'_>) -> Result<bool, JuteFail>
    ensures { Gives (λ x. x) result reader.new (flags.read reader.old) }
{
    if reader.is_at_end() {
        return Ok(false);
    }
    fixed_boolean(reader, false)?;
    Ok(true)
}

fn request_packet(alloc: Global, request: &ConnectRequest) -> Result<Bytes, Unwritten>
    ensures { IfOk result (λ b. Sends connects request.now b) }
{
    let mut writer = Writer::for_packet(alloc)?;
    write_request(&mut writer, request)?;
    packet_of(writer)
}

fn reply_packet(alloc: Global, reply: &ConnectReply) -> Result<Bytes, Unwritten>
    ensures { IfOk result (λ b. Sends connect_answers reply.now b) }
{
    let mut writer = Writer::for_packet(alloc)?;
    write_reply(&mut writer, reply)?;
    packet_of(writer)
}

fn write_request(writer: &mut Writer, request: &ConnectRequest) -> Result<(), Unwritten>
    ensures { OnOk result (Wrote connects request.now writer.old writer.new) }
{
    write_session(writer, request)?;
    write_secret(writer, request)?;
    Ok(())
}

// Writes the fields up to the session.
fn write_session(writer: &mut Writer, request: &ConnectRequest) -> Result<(), Unwritten>
    ensures { OnOk result (Wrote session_asks (request.now.protocol, (request.now.zxid, (request.now.timeout, request.now.session))) writer.old writer.new) }
{
    writer.int(request.protocol)?;
    writer.long(request.zxid)?;
    writer.int(request.timeout)?;
    writer.long(request.session)?;
    Ok(())
}

// Writes the password, and the boolean where there is one.
fn write_secret(writer: &mut Writer, request: &ConnectRequest) -> Result<(), Unwritten>
    ensures { OnOk result (Wrote secrets (request.now.passwd, request.now.read_only) writer.old writer.new) }
{
    write_bytes(writer, &request.passwd)?;
    write_optional(writer, request.read_only)?;
    Ok(())
}

fn write_optional(writer: &mut Writer, value: Option<bool>) -> Result<(), Unwritten>
    ensures { OnOk result (Wrote (if_any booleans) value writer.old writer.new) }
{
    match value {
        None => Ok(()),
        Some(value) => writer.boolean(value),
    }
}

fn write_reply(writer: &mut Writer, reply: &ConnectReply) -> Result<(), Unwritten>
    ensures { OnOk result (Wrote connect_answers reply.now writer.old writer.new) }
{
    writer.int(0)?;
    writer.unsigned_int(reply.timeout)?;
    writer.unsigned_long(reply.session)?;
    write_ending(writer, reply)?;
    Ok(())
}

// Writes the password, and the boolean 0 where the request had `readOnly`.
fn write_ending(writer: &mut Writer, reply: &ConnectReply) -> Result<(), Unwritten>
    ensures { OnOk result (Wrote (passwords ⊗ flags) (reply.now.passwd, reply.now.with_read_only) writer.old writer.new) }
{
    write_password(writer, &reply.passwd)?;
    write_flag(writer, reply.with_read_only)?;
    Ok(())
}

fn write_password(writer: &mut Writer, passwd: &[u8; 16]) -> Result<(), Unwritten>
    ensures { OnOk result (Wrote passwords passwd.now writer.old writer.new) }
{
    writer.buffer(Some(passwd.as_slice()))
}

fn write_flag(writer: &mut Writer, is_there: bool) -> Result<(), Unwritten>
    ensures { OnOk result (Wrote flags is_there writer.old writer.new) }
{
    if is_there {
        writer.boolean(false)
    } else {
        Ok(())
    }
}
