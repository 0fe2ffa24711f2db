//! What a connection begins with: each packet is the spelling of a request or a reply, and is read again.

use kp_model::{Bytes, NoMemory};
use kp_wire::{
    ConnectReply, ConnectRequest, read_connect, read_connect_reply, write_connect,
    write_connect_request,
};
use std::alloc::Global;
use std::test::Fail;

// A connection begins, and is refused.
const CONNECT: &[u8] =
    b"\0\0\0\x2d\0\0\0\0\0\0\0\0\0\0\0\0\0\0\x75\x30\0\0\0\0\0\0\0\0\0\0\0\x10\0\0\0\0\0\0\0\0\0\0\0\0\0\0\0\0\0";

const ATTACH: &[u8] =
    b"\0\0\0\x2d\0\0\0\0\0\0\0\0\0\0\0\0\0\0\x75\x30\0\0\0\0\0\0\0\x01\0\0\0\x10\0\0\0\0\0\0\0\0\0\0\0\0\0\0\0\0\0";

const CONNECT_EMPTY: &[u8] =
    b"\0\0\0\x1d\0\0\0\0\0\0\0\0\0\0\0\0\0\0\x75\x30\0\0\0\0\0\0\0\x01\0\0\0\0\0";

const CONNECTED: &[u8] =
    b"\0\0\0\x25\0\0\0\0\0\0\x75\x30\0\0\0\0\0\0\0\x01\0\0\0\x10\0\x01\x02\x03\x04\x05\x06\x07\x08\x09\x0a\x0b\x0c\x0d\x0e\x0f\0";

const CONNECTED_ZERO: &[u8] =
    b"\0\0\0\x25\0\0\0\0\0\0\x75\x30\0\0\0\0\0\0\0\x01\0\0\0\x10\0\0\0\0\0\0\0\0\0\0\0\0\0\0\0\0\0";

const REFUSED: &[u8] =
    b"\0\0\0\x25\0\0\0\0\0\0\0\0\0\0\0\0\0\0\0\0\0\0\0\x10\0\0\0\0\0\0\0\0\0\0\0\0\0\0\0\0\0";

// Whether the request is written as the packet.
fn is_asked(alloc: Global, request: &ConnectRequest, packet: &[u8]) -> bool {
    match write_connect_request(alloc, request) {
        Err(_) => false,
        Ok(written) => {
            let same = written.as_slice() == packet;
            drop(written);
            same
        }
    }
}

fn is_copied(alloc: Global, request: &ConnectRequest) -> bool {
    request.copy(alloc).is_ok()
}

// Whether the packet is read as a connect request, and what is read is written as the packet and can be copied.
pub(crate) fn is_request(alloc: Global, packet: &[u8]) -> bool {
    match read_connect(alloc, packet) {
        Err(_) => false,
        Ok(request) => {
            let same = is_asked(alloc, &request, packet) && is_copied(alloc, &request);
            drop(request);
            same
        }
    }
}

// Whether the reply is written as the packet.
fn is_granted(alloc: Global, reply: &ConnectReply, packet: &[u8]) -> bool {
    match write_connect(alloc, reply) {
        Err(_) => false,
        Ok(written) => {
            let same = written.as_slice() == packet;
            drop(written);
            same
        }
    }
}

// Whether the packet is read as a connect reply, and what is read is written as the packet.
pub(crate) fn is_reply(alloc: Global, packet: &[u8]) -> bool {
    match read_connect_reply(alloc, packet) {
        Err(_) => false,
        Ok(reply) => is_granted(alloc, &reply, packet),
    }
}

fn asking(alloc: Global, session: i64, passwd: &[u8]) -> Result<ConnectRequest, NoMemory> {
    Ok(ConnectRequest {
        protocol: 0,
        zxid: 0,
        timeout: 30_000,
        session,
        passwd: Some(Bytes::from_vec(Vec::from_slice(alloc, passwd)?)),
        read_only: Some(false),
    })
}

const ASKED: [(&[u8], i64, &[u8]); 3] = [
    (CONNECT, 0, &[0; 16]),
    (ATTACH, 1, &[0; 16]),
    (CONNECT_EMPTY, 1, &[]),
];

#[test]
fn connect_requests(rt: HostRuntime) -> Result<(), Fail> {
    let mut same = true;
    for (packet, session, passwd) in ASKED {
        let request = asking(rt.alloc(), session, passwd)?;
        same = same && is_asked(rt.alloc(), &request, packet) && is_request(rt.alloc(), packet);
        drop(request);
    }
    assert!(rt; same);
    Ok(())
}

const LIVE: ConnectReply = ConnectReply {
    timeout: 30_000,
    session: 1,
    passwd: [0, 1, 2, 3, 4, 5, 6, 7, 8, 9, 10, 11, 12, 13, 14, 15],
    with_read_only: true,
};

const LIVE_ZERO: ConnectReply = ConnectReply {
    timeout: 30_000,
    session: 1,
    passwd: [0; 16],
    with_read_only: true,
};

const NOT_LIVE: ConnectReply = ConnectReply {
    timeout: 0,
    session: 0,
    passwd: [0; 16],
    with_read_only: true,
};

#[test]
fn connect_replies(rt: HostRuntime) {
    let mut same = true;
    for (packet, reply) in [
        (CONNECTED, LIVE),
        (CONNECTED_ZERO, LIVE_ZERO),
        (REFUSED, NOT_LIVE),
    ] {
        same = same && is_granted(rt.alloc(), &reply, packet) && is_reply(rt.alloc(), packet);
    }
    assert!(rt; same);
}
