//! Packets as a server sends them on a live connection: each is the spelling of an answer, and is read again.

use kp_model::{Acls, Bytes, Event, Items, NoMemory, Paths, Text};
use kp_wire::{OpResult, Packet, Stat, WireReply, read_packet, write_event, write_reply};
use std::alloc::Global;
use std::test::Fail;

// Nodes are made, listed and removed, a watch fires, and the session ends.
const MADE: &[u8] = b"\0\0\0\x18\0\0\0\x01\0\0\0\0\0\0\0\x03\0\0\0\0\0\0\0\x04/app";

const MADE_LOCK: &[u8] =
    b"\0\0\0\x28\0\0\0\x02\0\0\0\0\0\0\0\x04\0\0\0\0\0\0\0\x14/app/lock-0000000000";

const MADE_LOCK_AGAIN: &[u8] =
    b"\0\0\0\x28\0\0\0\x03\0\0\0\0\0\0\0\x05\0\0\0\0\0\0\0\x14/app/lock-0000000001";

const LISTED: &[u8] =
    b"\0\0\0\x3a\0\0\0\x04\0\0\0\0\0\0\0\x05\0\0\0\0\0\0\0\x02\0\0\0\x0flock-0000000000\0\0\0\x0flock-0000000001";

const FIRED: &[u8] =
    b"\0\0\0\x20\xff\xff\xff\xff\xff\xff\xff\xff\xff\xff\xff\xff\0\0\0\0\0\0\0\x04\0\0\0\x03\0\0\0\x04/app";

const DELETED: &[u8] = b"\0\0\0\x10\0\0\0\x05\0\0\0\0\0\0\0\x06\0\0\0\0";

const PONG: &[u8] = b"\0\0\0\x10\xff\xff\xff\xfe\0\0\0\0\0\0\0\x06\0\0\0\0";

const CLOSED: &[u8] = b"\0\0\0\x10\0\0\0\x06\0\0\0\0\0\0\0\x07\0\0\0\0";

// Data is set and read.
const SET: &[u8] =
    b"\0\0\0\x54\0\0\0\x02\0\0\0\0\0\0\0\x04\0\0\0\0\0\0\0\0\0\0\0\x03\0\0\0\0\0\0\0\x04\0\0\0\0\0\0\x03\xe8\0\0\0\0\0\0\x03\xe8\0\0\0\x01\0\0\0\0\0\0\0\0\0\0\0\0\0\0\0\0\0\0\0\x01\0\0\0\0\0\0\0\0\0\0\0\x03";

const READ: &[u8] =
    b"\0\0\0\x59\0\0\0\x03\0\0\0\0\0\0\0\x04\0\0\0\0\0\0\0\x01x\0\0\0\0\0\0\0\x03\0\0\0\0\0\0\0\x04\0\0\0\0\0\0\x03\xe8\0\0\0\0\0\0\x03\xe8\0\0\0\x01\0\0\0\0\0\0\0\0\0\0\0\0\0\0\0\0\0\0\0\x01\0\0\0\0\0\0\0\0\0\0\0\x03";

// Writes of a term that is over.
const LOST: &[u8] = b"\0\0\0\x10\0\0\0\x01\0\0\0\0\0\0\0\x02\xff\xff\xff\xfc";

const LOST_TOO: &[u8] = b"\0\0\0\x10\0\0\0\x02\0\0\0\0\0\0\0\x02\xff\xff\xff\xfc";

// Results of a multi and of one that failed, and an access list.
const DONE_TWICE: &[u8] =
    b"\0\0\0\x31\0\0\0\x07\0\0\0\0\0\0\0\x08\0\0\0\0\0\0\0\x01\0\0\0\0\0\0\0\0\x02/a\0\0\0\x0d\0\0\0\0\0\xff\xff\xff\xff\x01\xff\xff\xff\xff";

const FAILED: &[u8] =
    b"\0\0\0\x33\0\0\0\x07\0\0\0\0\0\0\0\x08\0\0\0\0\xff\xff\xff\xff\0\0\0\0\0\0\0\0\0\xff\xff\xff\xff\0\xff\xff\xff\x9b\xff\xff\xff\x9b\xff\xff\xff\xff\x01\xff\xff\xff\xff";

const ACCESS: &[u8] =
    b"\0\0\0\x6f\0\0\0\x03\0\0\0\0\0\0\0\x04\0\0\0\0\0\0\0\x01\0\0\0\x1f\0\0\0\x05world\0\0\0\x06anyone\0\0\0\0\0\0\0\x03\0\0\0\0\0\0\0\x04\0\0\0\0\0\0\x03\xe8\0\0\0\0\0\0\x03\xe8\0\0\0\x01\0\0\0\0\0\0\0\0\0\0\0\0\0\0\0\0\0\0\0\x01\0\0\0\0\0\0\0\0\0\0\0\x03";

const STAT: Stat = Stat {
    czxid: 3,
    mzxid: 4,
    pzxid: 3,
    ctime: 1000,
    mtime: 1000,
    version: 1,
    cversion: 0,
    aversion: 0,
    owner: 0,
    len: 1,
    kids: 0,
};

fn path(alloc: Global, path: &str) -> Result<WireReply, NoMemory> {
    Ok(WireReply::Path(Text::from_str(alloc, path)?))
}

fn locks(alloc: Global) -> Result<WireReply, NoMemory> {
    let mut names = Paths::new(alloc);
    names.push(Text::from_str(alloc, "lock-0000000000")?)?;
    names.push(Text::from_str(alloc, "lock-0000000001")?)?;
    Ok(WireReply::Names(names))
}

fn data(alloc: Global) -> Result<WireReply, NoMemory> {
    let bytes = Bytes::from_vec(Vec::from_slice(alloc, b"x")?);
    Ok(WireReply::Data(bytes, STAT))
}

fn results(alloc: Global) -> Result<WireReply, NoMemory> {
    let mut list = Items::new(alloc);
    list.push((1, OpResult::Path(Text::from_str(alloc, "/a")?)))?;
    list.push((13, OpResult::Empty))?;
    Ok(WireReply::Multi(list))
}

fn failures(alloc: Global) -> Result<WireReply, NoMemory> {
    let mut codes = Items::new(alloc);
    codes.push(0)?;
    codes.push(-101)?;
    Ok(WireReply::Failed(codes))
}

// What the packets say, in their order.
fn reply(alloc: Global, row: usize) -> Result<WireReply, NoMemory> {
    match row {
        0 => path(alloc, "/app"),
        1 => path(alloc, "/app/lock-0000000000"),
        2 => path(alloc, "/app/lock-0000000001"),
        3 => locks(alloc),
        4 | 5 | 6 => Ok(WireReply::Empty),
        7 => Ok(WireReply::Stat(STAT)),
        8 => data(alloc),
        9 | 10 => Ok(WireReply::Err(-4)),
        11 => results(alloc),
        12 => failures(alloc),
        _ => Ok(WireReply::Acl(Acls::everyone(alloc)?, STAT)),
    }
}

// The type of the request, the packet, its xid and its zxid.
const ROWS: [(i32, &[u8], i32, u64); 14] = [
    (1, MADE, 1, 3),
    (1, MADE_LOCK, 2, 4),
    (1, MADE_LOCK_AGAIN, 3, 5),
    (8, LISTED, 4, 5),
    (2, DELETED, 5, 6),
    (11, PONG, -2, 6),
    (-11, CLOSED, 6, 7),
    (5, SET, 2, 4),
    (4, READ, 3, 4),
    (1, LOST, 1, 2),
    (14, LOST_TOO, 2, 2),
    (14, DONE_TWICE, 7, 8),
    (14, FAILED, 7, 8),
    (6, ACCESS, 3, 4),
];

// Whether the reply is written as the packet.
fn is_written(alloc: Global, xid: i32, zxid: u64, reply: &WireReply, packet: &[u8]) -> bool {
    match write_reply(alloc, xid, zxid, reply) {
        Err(_) => false,
        Ok(written) => {
            let same = written.as_slice() == packet;
            drop(written);
            same
        }
    }
}

fn is_fired(alloc: Global, event: &Event, packet: &[u8]) -> bool {
    match write_event(alloc, event) {
        Err(_) => false,
        Ok(written) => {
            let same = written.as_slice() == packet;
            drop(written);
            same
        }
    }
}

fn is_copied(alloc: Global, packet: &Packet) -> bool {
    match packet.copy(alloc) {
        Err(_) => false,
        Ok(copy) => {
            drop(copy);
            true
        }
    }
}

// Whether what was read is written as the packet and can be copied.
fn is_same(alloc: Global, found: &Packet, packet: &[u8]) -> bool {
    is_copied(alloc, found)
        && match found {
            Packet::Reply { xid, zxid, reply } => {
                is_written(alloc, *xid, zxid.cast_unsigned(), reply, packet)
            }
            Packet::Event(event) => is_fired(alloc, event, packet),
        }
}

// Whether the packet is read as the answer to a request of that type, or as an event.
pub(crate) fn is_read(alloc: Global, kind: i32, packet: &[u8]) -> bool {
    match read_packet(alloc, kind, packet) {
        Err(_) => false,
        Ok(found) => {
            let same = is_same(alloc, &found, packet);
            drop(found);
            same
        }
    }
}

// Whether the packet is the spelling of the reply.
fn shows(alloc: Global, packet: &[u8], xid: i32, zxid: u64, reply: WireReply) -> bool {
    let same = is_written(alloc, xid, zxid, &reply, packet);
    drop(reply);
    same
}

#[test]
fn the_packets_of_replies(rt: HostRuntime) -> Result<(), Fail> {
    let mut same = true;
    for (row, (kind, packet, xid, zxid)) in ROWS.iter().enumerate() {
        same = same
            && shows(rt.alloc(), packet, *xid, *zxid, reply(rt.alloc(), row)?)
            && is_read(rt.alloc(), *kind, packet);
    }
    assert!(rt; same);
    Ok(())
}

#[test]
fn the_packet_of_an_event(rt: HostRuntime) -> Result<(), Fail> {
    let event = Event::ChildrenChanged(Text::from_str(rt.alloc(), "/app")?);
    let same = is_fired(rt.alloc(), &event, FIRED);
    drop(event);
    assert!(rt; same && is_read(rt.alloc(), 2, FIRED));
    Ok(())
}
