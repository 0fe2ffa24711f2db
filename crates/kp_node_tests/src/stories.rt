//! Stories of clients on a node that is a cluster of its own.

use crate::story::{Line, follows};
use kp_client_tests::frames::{
    AGAIN, CLOSE, CLOSED, CONNECT, CONNECTED, CREATED, CREATES, HEARD, LOOKED, LOOKS, MISSED, SET,
    SETS,
};
use kp_model::{Meta, NoMemory};
use kp_node::Node;
use std::alloc::Global;

/// A session of its own is taken up with a password that is none.
const TAKE_UP: &[u8] =
    b"\x00\x00\x00\x1d\x00\x00\x00\x00\x00\x00\x00\x00\x00\x00\x00\x00\x00\x00u0\x00\x00\x00\x00\x00\x00\x00\x01\x00\x00\x00\x00\x00";
/// It is refused.
const REFUSED: &[u8] =
    b"\x00\x00\x00%\x00\x00\x00\x00\x00\x00\x00\x00\x00\x00\x00\x00\x00\x00\x00\x00\x00\x00\x00\x10\x00\x00\x00\x00\x00\x00\x00\x00\x00\x00\x00\x00\x00\x00\x00\x00\x00";
/// Session 1 is taken up, with its password.
const ATTACH: &[u8] =
    b"\x00\x00\x00-\x00\x00\x00\x00\x00\x00\x00\x00\x00\x00\x00\x00\x00\x00u0\x00\x00\x00\x00\x00\x00\x00\x01\x00\x00\x00\x10\x00\x01\x02\x03\x04\x05\x06\x07\x08\x09\x0a\x0b\x0c\x0d\x0e\x0f\x00";
/// A request whose session was taken over, at the index 3.
const MOVED: &[u8] =
    b"\x00\x00\x00\x10\x00\x00\x00\x01\x00\x00\x00\x00\x00\x00\x00\x03\xff\xff\xff\x8a";
/// A connect request whose password has the length -2.
const NO_LENGTH: &[u8] =
    b"\x00\x00\x00\x1d\x00\x00\x00\x00\x00\x00\x00\x00\x00\x00\x00\x00\x00\x00u0\x00\x00\x00\x00\x00\x00\x00\x00\xff\xff\xff\xfe\x00";
/// `/app` is created.
const CREATE: &[u8] =
    b"\x00\x00\x003\x00\x00\x00\x01\x00\x00\x00\x01\x00\x00\x00\x04/app\x00\x00\x00\x00\x00\x00\x00\x01\x00\x00\x00\x1f\x00\x00\x00\x05world\x00\x00\x00\x06anyone\x00\x00\x00\x00";
/// Its path, at the index 3.
const CREATED_APP: &[u8] =
    b"\x00\x00\x00\x18\x00\x00\x00\x01\x00\x00\x00\x00\x00\x00\x00\x03\x00\x00\x00\x00\x00\x00\x00\x04/app";
/// A multi of nothing.
const MULTI: &[u8] =
    b"\x00\x00\x00\x11\x00\x00\x00\x04\x00\x00\x00\x0e\xff\xff\xff\xff\x01\xff\xff\xff\xff";
/// There is no such request, at the index 2.
const UNIMPLEMENTED: &[u8] =
    b"\x00\x00\x00\x10\x00\x00\x00\x07\x00\x00\x00\x00\x00\x00\x00\x02\xff\xff\xff\xfa";
/// Its session expired, at the index 6.
const EXPIRED: &[u8] =
    b"\x00\x00\x00\x10\x00\x00\x00\x04\x00\x00\x00\x00\x00\x00\x00\x06\xff\xff\xff\x90";

/// The node leads, and a client has a session.
const OPENED: [Line; 8] = [
    Line::Time(1_000),
    Line::Timeout,
    Line::Leads(1, 1, 1),
    Line::Commit(1),
    Line::Accept(1),
    Line::In(1, CONNECT),
    Line::Commit(2),
    Line::Out(1, CONNECTED),
];

/// It makes `/app` with two children.
const MADE: [Line; 5] = [
    Line::In(1, CREATES),
    Line::Commit(3),
    Line::Commit(4),
    Line::Commit(5),
    Line::Out(1, CREATED),
];

/// It looks, is told of a child's end that it waits for, with its ping behind it, and ends its session.
const LOCK: [Line; 11] = [
    Line::In(1, LOOKS),
    Line::Out(1, LOOKED),
    Line::Commit(6),
    Line::Out(1, HEARD),
    Line::In(1, CLOSE),
    Line::Commit(7),
    Line::End(1, CLOSED),
    Line::Gone(1),
    Line::Idle,
    Line::See("/app", APP),
    Line::Gone(2),
];

/// `/app` behind its children, of which the session's end took the last.
const APP: Meta = Meta {
    czxid: 3,
    mzxid: 3,
    pzxid: 7,
    ctime: 1_000,
    mtime: 1_000,
    version: 0,
    cversion: 4,
    aversion: 0,
    owner: 0,
    created: 2,
    len: 0,
    kids: 0,
};

/// A second connection takes the session over: what waits on the first is refused, and it ends.
const MOVES: [Line; 6] = [
    Line::Accept(2),
    Line::In(2, ATTACH),
    Line::In(1, CREATE),
    Line::Commit(3),
    Line::End(1, MOVED),
    Line::Out(2, CONNECTED),
];

/// Nobody leads: a connect request ends its connection without an answer.
const LEADERLESS: [Line; 3] = [Line::Accept(1), Line::In(1, CONNECT), Line::End(1, b"")];

/// It comes back, and its watches are set anew.
const WATCHES: [Line; 2] = [Line::In(1, AGAIN), Line::Out(1, MISSED)];

/// A set and a read in one piece: the read waits, and shows the set.
const PIPELINED: [Line; 7] = [
    Line::In(1, CREATE),
    Line::Commit(3),
    Line::Out(1, CREATED_APP),
    Line::In(1, SETS),
    Line::Out(1, b""),
    Line::Commit(4),
    Line::Out(1, SET),
];

/// The session ends at its deadline, while its multi waits.
const ENDED: [Line; 6] = [
    Line::Time(31_000),
    Line::Expire(1),
    Line::In(1, MULTI),
    Line::Commit(6),
    Line::End(1, EXPIRED),
    Line::Idle,
];

/// Not a millisecond earlier, and only once.
const NOT_YET: [Line; 5] = [
    Line::Time(30_999),
    Line::Expire(0),
    Line::Time(31_000),
    Line::Expire(1),
    Line::Expire(0),
];

/// The connect request in pieces of one byte; then the longest frame, whose request is unknown.
const PIECES: [Line; 8] = [
    Line::Timeout,
    Line::Commit(1),
    Line::Accept(1),
    Line::Bytewise(1, CONNECT),
    Line::Commit(2),
    Line::Out(1, CONNECTED),
    Line::Longest(1),
    Line::Out(1, UNIMPLEMENTED),
];

/// A connection that isn't a session's yet: a refusal, frames that are none, a word, and one that hangs up.
const STRANGERS: [Line; 22] = [
    Line::Timeout,
    Line::Commit(1),
    Line::Accept(1),
    Line::In(1, TAKE_UP),
    Line::End(1, REFUSED),
    Line::Accept(2),
    Line::Bad(2, b"\x00\x10\x00\x00", 0),
    Line::End(2, b""),
    Line::Accept(3),
    Line::Bad(3, NO_LENGTH, 0),
    Line::End(3, b""),
    Line::Accept(4),
    Line::In(4, b"ru"),
    Line::Out(4, b""),
    Line::In(4, b"ok"),
    Line::End(4, b"imok"),
    Line::Accept(5),
    Line::In(5, b"ruok"),
    Line::End(5, b"imok"),
    Line::Accept(6),
    Line::Hangup(6),
    Line::Gone(6),
];

// Whether a new node does what the lines say.
fn tells(alloc: Global, parts: &[&[Line]]) -> Result<bool, NoMemory> {
    let mut node = Node::blank(alloc, 1, 1)?;
    let told = tells_all(alloc, &mut node, parts);
    drop(node);
    told
}

fn tells_all(alloc: Global, node: &mut Node, parts: &[&[Line]]) -> Result<bool, NoMemory> {
    let mut now = 0;
    for part in parts {
        if !follows(alloc, node, &mut now, part)? {
            return Ok(false);
        }
    }
    Ok(true)
}

#[test]
fn a_lock_is_taken_and_given_up(rt: HostRuntime) -> Result<(), NoMemory> {
    assert!(rt; tells(rt.alloc(), &[&OPENED, &MADE, &LOCK])?);
    Ok(())
}

#[test]
fn a_client_that_came_back_is_told_what_it_missed(rt: HostRuntime) -> Result<(), NoMemory> {
    assert!(rt; tells(rt.alloc(), &[&OPENED, &MADE, &WATCHES])?);
    Ok(())
}

#[test]
fn a_read_shows_the_write_before_it(rt: HostRuntime) -> Result<(), NoMemory> {
    assert!(rt; tells(rt.alloc(), &[&OPENED, &PIPELINED])?);
    Ok(())
}

#[test]
fn a_session_ends_while_its_multi_waits(rt: HostRuntime) -> Result<(), NoMemory> {
    assert!(rt; tells(rt.alloc(), &[&OPENED, &MADE, &ENDED])?);
    Ok(())
}

#[test]
fn a_session_ends_at_its_deadline(rt: HostRuntime) -> Result<(), NoMemory> {
    assert!(rt; tells(rt.alloc(), &[&OPENED, &NOT_YET])?);
    Ok(())
}

#[test]
fn strangers_are_refused_or_told(rt: HostRuntime) -> Result<(), NoMemory> {
    assert!(rt; tells(rt.alloc(), &[&STRANGERS])?);
    Ok(())
}

#[test]
fn frames_come_in_pieces(rt: HostRuntime) -> Result<(), NoMemory> {
    assert!(rt; tells(rt.alloc(), &[&PIECES])?);
    Ok(())
}

#[test]
fn a_session_moves_to_another_connection(rt: HostRuntime) -> Result<(), NoMemory> {
    assert!(rt; tells(rt.alloc(), &[&OPENED, &MOVES])?);
    Ok(())
}

#[test]
fn a_node_without_a_leader_refuses_clients(rt: HostRuntime) -> Result<(), NoMemory> {
    assert!(rt; tells(rt.alloc(), &[&LEADERLESS])?);
    Ok(())
}
