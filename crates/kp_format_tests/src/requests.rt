//! Frames as a client sends them: each is the spelling of a request, and is read again.

use kp_model::{Bytes, Items, NoMemory, Text};
use kp_wire::{
    Request, WireAcl, WireAcls, WireAsk, WireOp, WireTexts, read_request, write_request,
};
use std::alloc::Global;
use std::test::Fail;

// A session: it makes a node and two locks under it, lists them, removes one, tells that it is there, and ends.
pub(crate) const CREATE: &[u8] =
    b"\0\0\03\0\0\0\x01\0\0\0\x01\0\0\0\x04/app\0\0\0\0\0\0\0\x01\0\0\0\x1f\0\0\0\x05world\0\0\0\x06anyone\0\0\0\0";

pub(crate) const CREATE_LOCK: &[u8] =
    b"\0\0\09\0\0\0\x02\0\0\0\x01\0\0\0\x0a/app/lock-\0\0\0\0\0\0\0\x01\0\0\0\x1f\0\0\0\x05world\0\0\0\x06anyone\0\0\0\x03";

const CREATE_LOCK_AGAIN: &[u8] =
    b"\0\0\09\0\0\0\x03\0\0\0\x01\0\0\0\x0a/app/lock-\0\0\0\0\0\0\0\x01\0\0\0\x1f\0\0\0\x05world\0\0\0\x06anyone\0\0\0\x03";

pub(crate) const GET_CHILDREN: &[u8] = b"\0\0\0\x11\0\0\0\x04\0\0\0\x08\0\0\0\x04/app\x01";

pub(crate) const DELETE: &[u8] =
    b"\0\0\0\x24\0\0\0\x05\0\0\0\x02\0\0\0\x14/app/lock-0000000000\xff\xff\xff\xff";

pub(crate) const PING: &[u8] = b"\0\0\0\x08\xff\xff\xff\xfe\0\0\0\x0b";

pub(crate) const CLOSE_SESSION: &[u8] = b"\0\0\0\x08\0\0\0\x06\xff\xff\xff\xf5";
// Data set and read.
const SET_DATA: &[u8] = b"\0\0\0\x19\0\0\0\x02\0\0\0\x05\0\0\0\x04/app\0\0\0\x01x\xff\xff\xff\xff";

const GET_DATA: &[u8] = b"\0\0\0\x11\0\0\0\x03\0\0\0\x04\0\0\0\x04/app\0";
// Two nodes made one after the other.
const CREATE_A: &[u8] =
    b"\0\0\01\0\0\0\x01\0\0\0\x01\0\0\0\x02/a\0\0\0\0\0\0\0\x01\0\0\0\x1f\0\0\0\x05world\0\0\0\x06anyone\0\0\0\0";

const CREATE_B: &[u8] =
    b"\0\0\01\0\0\0\x02\0\0\0\x01\0\0\0\x02/b\0\0\0\0\0\0\0\x01\0\0\0\x1f\0\0\0\x05world\0\0\0\x06anyone\0\0\0\0";
// Watches set anew.
const SET_WATCHES: &[u8] =
    b"\0\0\05\xff\xff\xff\xf8\0\0\0e\0\0\0\0\0\0\0\x02\0\0\0\x01\0\0\0\x04/app\0\0\0\x01\0\0\0\x04/app\0\0\0\x01\0\0\0\x05/none";
// The other types, with null fields, empty ones and high bits among them.
const CREATE2: &[u8] =
    b"\0\0\0\x1a\0\0\0\x01\0\0\0\x0f\0\0\0\x02/a\xff\xff\xff\xff\xff\xff\xff\xff\x80\0\0\x01";

const EXISTS: &[u8] = b"\0\0\0\x0d\0\0\0\x01\0\0\0\x03\xff\xff\xff\xff\x01";

const GET_ACL: &[u8] = b"\0\0\0\x0e\0\0\0\x01\0\0\0\x06\0\0\0\x02/a";

const SET_ACL: &[u8] =
    b"\0\0\0\x22\0\0\0\x01\0\0\0\x07\0\0\0\x02/a\0\0\0\x01\0\0\0\x01\xff\xff\xff\xff\0\0\0\0\0\0\0\x02";

const GET_CHILDREN2: &[u8] = b"\0\0\0\x0f\0\0\0\x01\0\0\0\x0c\0\0\0\x02/a\0";

const SYNC: &[u8] = b"\0\0\0\x0c\0\0\0\x01\0\0\0\x09\0\0\0\0";

const CHECK: &[u8] = b"\0\0\0\x12\0\0\0\x01\0\0\0\x0d\0\0\0\x02/a\0\0\0\x07";

const MULTI: &[u8] =
    b"\0\0\07\0\0\0\x07\0\0\0\x0e\0\0\0\x02\0\xff\xff\xff\xff\0\0\0\x02/a\xff\xff\xff\xff\0\0\0\x0d\0\xff\xff\xff\xff\0\0\0\x02/b\0\0\0\0\xff\xff\xff\xff\x01\xff\xff\xff\xff";

const AUTH: &[u8] = b"\0\0\0\x1d\xff\xff\xff\xfc\0\0\0d\0\0\0\0\0\0\0\x06digest\0\0\0\x03u:p";

const OTHER: &[u8] = b"\0\0\0\x0b\0\0\0\x01\0\0\0M\x01\x02\x03";

fn text(alloc: Global, text: &str) -> Result<Option<Text>, NoMemory> {
    Ok(Some(Text::from_str(alloc, text)?))
}

fn bytes(alloc: Global, bytes: &[u8]) -> Result<Option<Bytes>, NoMemory> {
    Ok(Some(Bytes::from_vec(Vec::from_slice(alloc, bytes)?)))
}

fn texts(alloc: Global, one: &str) -> Result<Option<WireTexts>, NoMemory> {
    let mut list = Items::new(alloc);
    list.push(text(alloc, one)?)?;
    Ok(Some(list))
}

// An access list of one line.
fn line(
    alloc: Global,
    perms: u32,
    scheme: Option<Text>,
    id: Option<Text>,
) -> Result<Option<WireAcls>, NoMemory> {
    let mut list = Items::new(alloc);
    list.push(WireAcl { perms, scheme, id })?;
    Ok(Some(list))
}

fn for_anyone(alloc: Global) -> Result<Option<WireAcls>, NoMemory> {
    line(alloc, 31, text(alloc, "world")?, text(alloc, "anyone")?)
}

// A node without data that is open to everyone.
fn create(alloc: Global, path: &str, flags: u32) -> Result<WireAsk, NoMemory> {
    Ok(WireAsk::Create {
        path: text(alloc, path)?,
        bytes: bytes(alloc, &[])?,
        acl: for_anyone(alloc)?,
        flags,
    })
}

fn delete(alloc: Global) -> Result<WireAsk, NoMemory> {
    Ok(WireAsk::Delete {
        path: text(alloc, "/app/lock-0000000000")?,
        version: u32::MAX,
    })
}

fn children(alloc: Global) -> Result<WireAsk, NoMemory> {
    Ok(WireAsk::GetChildren {
        path: text(alloc, "/app")?,
        watch: true,
    })
}

fn set_data(alloc: Global) -> Result<WireAsk, NoMemory> {
    Ok(WireAsk::SetData {
        path: text(alloc, "/app")?,
        bytes: bytes(alloc, b"x")?,
        version: u32::MAX,
    })
}

fn get_data(alloc: Global) -> Result<WireAsk, NoMemory> {
    Ok(WireAsk::GetData {
        path: text(alloc, "/app")?,
        watch: false,
    })
}

fn set_watches(alloc: Global) -> Result<WireAsk, NoMemory> {
    Ok(WireAsk::SetWatches {
        zxid: 2,
        contents: texts(alloc, "/app")?,
        exist: texts(alloc, "/app")?,
        child: texts(alloc, "/none")?,
    })
}

fn set_acl(alloc: Global) -> Result<WireAsk, NoMemory> {
    Ok(WireAsk::SetAcl {
        path: text(alloc, "/a")?,
        acl: line(alloc, 1, None, text(alloc, "")?)?,
        version: 2,
    })
}

fn multi(alloc: Global) -> Result<WireAsk, NoMemory> {
    let mut ops = Items::new(alloc);
    ops.push(WireOp::Delete {
        path: text(alloc, "/a")?,
        version: u32::MAX,
    })?;
    ops.push(WireOp::Check {
        path: text(alloc, "/b")?,
        version: 0,
    })?;
    Ok(WireAsk::Multi { ops })
}

fn auth(alloc: Global) -> Result<WireAsk, NoMemory> {
    Ok(WireAsk::Auth {
        kind: 0,
        scheme: text(alloc, "digest")?,
        auth: bytes(alloc, b"u:p")?,
    })
}

// What the frames of a session ask, in their order.
fn session_ask(alloc: Global, row: usize) -> Result<WireAsk, NoMemory> {
    match row {
        0 => create(alloc, "/app", 0),
        1 | 2 => create(alloc, "/app/lock-", 3),
        3 => children(alloc),
        4 => delete(alloc),
        5 => Ok(WireAsk::Ping),
        6 => Ok(WireAsk::CloseSession),
        7 => set_data(alloc),
        8 => get_data(alloc),
        9 => create(alloc, "/a", 0),
        _ => create(alloc, "/b", 0),
    }
}

// What the frames of the other types ask, in their order.
fn other_ask(alloc: Global, row: usize) -> Result<WireAsk, NoMemory> {
    match row {
        0 => set_watches(alloc),
        1 => Ok(WireAsk::Create2 {
            path: text(alloc, "/a")?,
            bytes: None,
            acl: None,
            flags: 0x8000_0001,
        }),
        2 => Ok(WireAsk::Exists {
            path: None,
            watch: true,
        }),
        3 => Ok(WireAsk::GetAcl {
            path: text(alloc, "/a")?,
        }),
        4 => set_acl(alloc),
        5 => Ok(WireAsk::GetChildren2 {
            path: text(alloc, "/a")?,
            watch: false,
        }),
        6 => Ok(WireAsk::Sync {
            path: text(alloc, "")?,
        }),
        7 => Ok(WireAsk::Check {
            path: text(alloc, "/a")?,
            version: 7,
        }),
        8 => multi(alloc),
        9 => auth(alloc),
        _ => Ok(WireAsk::Other {
            kind: 77,
            rest: Bytes::from_vec(Vec::from_slice(alloc, &[1, 2, 3])?),
        }),
    }
}

const SESSION: [(&[u8], i32); 11] = [
    (CREATE, 1),
    (CREATE_LOCK, 2),
    (CREATE_LOCK_AGAIN, 3),
    (GET_CHILDREN, 4),
    (DELETE, 5),
    (PING, -2),
    (CLOSE_SESSION, 6),
    (SET_DATA, 2),
    (GET_DATA, 3),
    (CREATE_A, 1),
    (CREATE_B, 2),
];

const OTHERS: [(&[u8], i32); 11] = [
    (SET_WATCHES, -8),
    (CREATE2, 1),
    (EXISTS, 1),
    (GET_ACL, 1),
    (SET_ACL, 1),
    (GET_CHILDREN2, 1),
    (SYNC, 1),
    (CHECK, 1),
    (MULTI, 7),
    (AUTH, -4),
    (OTHER, 1),
];

// Whether the request is written as the frame.
fn is_written(alloc: Global, request: &Request, frame: &[u8]) -> bool {
    match write_request(alloc, request) {
        Err(_) => false,
        Ok(written) => {
            let same = written.as_slice() == frame;
            drop(written);
            same
        }
    }
}

fn is_copied(alloc: Global, request: &Request) -> bool {
    match request.copy(alloc) {
        Err(_) => false,
        Ok(copy) => {
            drop(copy);
            true
        }
    }
}

// Whether the frame is read, and what is read is written as the frame and can be copied.
pub(crate) fn is_read(alloc: Global, frame: &[u8]) -> bool {
    match read_request(alloc, frame) {
        Err(_) => false,
        Ok(request) => {
            let same = is_written(alloc, &request, frame) && is_copied(alloc, &request);
            drop(request);
            same
        }
    }
}

// Whether the frame is the spelling of what is asked, and is read.
fn shows(alloc: Global, frame: &[u8], xid: i32, ask: WireAsk) -> bool {
    let request = Request { xid, ask };
    let same = is_written(alloc, &request, frame);
    drop(request);
    same && is_read(alloc, frame)
}

#[test]
fn the_frames_of_a_session(rt: HostRuntime) -> Result<(), Fail> {
    let mut same = true;
    for (row, (frame, xid)) in SESSION.iter().enumerate() {
        same = same && shows(rt.alloc(), frame, *xid, session_ask(rt.alloc(), row)?);
    }
    assert!(rt; same);
    Ok(())
}

#[test]
fn the_frames_of_the_other_types(rt: HostRuntime) -> Result<(), Fail> {
    let mut same = true;
    for (row, (frame, xid)) in OTHERS.iter().enumerate() {
        same = same && shows(rt.alloc(), frame, *xid, other_ask(rt.alloc(), row)?);
    }
    assert!(rt; same);
    Ok(())
}

// What has no spelling is not written.
#[test]
fn an_other_of_a_listed_type_is_not_written(rt: HostRuntime) {
    let rest = Bytes::new(rt.alloc());
    let ask = WireAsk::Other { kind: 3, rest };
    let request = Request { xid: 1, ask };
    let written = is_written(rt.alloc(), &request, &[]);
    let refused = write_request(rt.alloc(), &request).is_err();
    drop(request);
    assert!(rt; refused && !written);
}
