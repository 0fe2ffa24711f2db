//! A client of a node that is a cluster of its own, served by a worker.
ghost use Rattle.std.specs.Prelude.{◌≡◌, IfOk, IfSome};
ghost use Rattle.kp_shared.specs.Sharing.{IsNodeSeatOf};

use kp_client_tests::frames::{CONNECT, CONNECTED, SET, SETS};
use kp_disks::FaultyDisk;
use kp_dispatch::{ConnEnd, Turned, accept, serve_connection, tick};
use kp_io::{Disk, Four, MemoryClock, MemoryDisk, MemorySink, MemoryStream, OpenGate};
use kp_served::{HomeNode, count_found};
use kp_shared::{Kept, NodeSeat, SharedNode};
use std::alloc::{AllocError, Global};
use std::sync::Wait;
use std::test::Fail;

/// What the password of a new session comes from.
pub(crate) const DRAW: [u8; 16] = [0, 1, 2, 3, 4, 5, 6, 7, 8, 9, 10, 11, 12, 13, 14, 15];

/// `/app` is created.
const CREATE: &[u8] =
    b"\x00\x00\x003\x00\x00\x00\x01\x00\x00\x00\x01\x00\x00\x00\x04/app\x00\x00\x00\x00\x00\x00\x00\x01\x00\x00\x00\x1f\x00\x00\x00\x05world\x00\x00\x00\x06anyone\x00\x00\x00\x00";

/// Its path, at the index 3.
const CREATED: &[u8] =
    b"\x00\x00\x00\x18\x00\x00\x00\x01\x00\x00\x00\x00\x00\x00\x00\x03\x00\x00\x00\x00\x00\x00\x00\x04/app";

/// The home of a node whose first journal's disk fails in this call alone.
pub(crate) fn failing(alloc: Global, call: u64) -> Result<Four<FaultyDisk>, AllocError> {
    let calls = Vec::from_slice(alloc, [call].as_slice())?;
    Ok(Four {
        j0: FaultyDisk::new(alloc, Vec::new(alloc), calls, u64::MAX)?,
        j1: FaultyDisk::new(alloc, Vec::new(alloc), Vec::new(alloc), u64::MAX)?,
        i0: FaultyDisk::new(alloc, Vec::new(alloc), Vec::new(alloc), u64::MAX)?,
        i1: FaultyDisk::new(alloc, Vec::new(alloc), Vec::new(alloc), u64::MAX)?,
        moments: 0,
    })
}

/// Shares the node of a cluster of its own over these disks. None where they can't be opened.
pub(crate) fn shared<H: Disk + Drop>(
    alloc: Global,
    disks: Four<H>,
) -> Result<Option<(SharedNode<HomeNode<H>>, NodeSeat<HomeNode<H>>)>, AllocError>
    ensures { IfOk result (λ o. IfSome o (λ t. IsNodeSeatOf (λ s. ⟦<HomeNode<H> as Kept>⟧.life s.kept) t.0 t.1)) }
{
    match kp_kept::Kept::open(alloc, disks, 1, 1, 1_000) {
        Ok(kept) => Ok(Some(SharedNode::new(alloc, HomeNode { kept })?)),
        Err((_, disks)) => {
            drop(disks);
            Ok(None)
        }
    }
}

/// Has a node lead. The answer is whether it could.
pub(crate) fn leads<R: Wait, K: Kept>(
    rt: &R,
    alloc: Global,
    node: &SharedNode<K>,
    seat: &mut NodeSeat<K>,
    clock: &MemoryClock,
) -> bool
    requires { IsNodeSeatOf (λ s. K.life s.kept) node.now seat.old }
    ensures { IsNodeSeatOf (λ s. K.life s.kept) node.now seat.new }
{
    matches!(
        tick(rt, alloc, seat, node, clock, true, false),
        Turned::Done(false)
    )
}

// These bytes, one behind the other.
fn joined(alloc: Global, frames: &[&[u8]]) -> Result<Vec<u8>, AllocError> {
    let mut bytes = Vec::new(alloc);
    for frame in frames {
        bytes.extend_from_slice(*frame)?;
    }
    Ok(bytes)
}

// Serves a client that asks for a session, creates a node, sets its data and reads it: how that ended, and what it was answered.
// None where the node doesn't lead or accepts nobody.
fn serves<R: Wait, K: Kept>(
    rt: &R,
    alloc: Global,
    node: &SharedNode<K>,
    seat: &mut NodeSeat<K>,
    asked: Vec<u8>,
) -> Option<(ConnEnd, Vec<u8>)>
    requires { IsNodeSeatOf (λ s. K.life s.kept) node.now seat.old }
{
    let clock = MemoryClock::new(1_000);
    if !leads(rt, alloc, node, seat, &clock) {
        return None;
    }
    let Ok(conn) = accept(rt, seat, node, &clock, DRAW) else {
        return None;
    };
    let mut input = MemoryStream::new(alloc, asked, CONNECT.len(), Vec::new(alloc));
    let mut output = MemorySink::new(alloc, 4_096);
    let end = serve_connection(
        rt,
        alloc,
        conn,
        seat,
        node,
        &mut input,
        &mut output,
        &OpenGate,
        &clock,
    );
    drop(input);
    Some((end, output.into_bytes()))
}

// Serves that client on a node over these disks. None where they can't be opened, too.
fn served<R: Wait, H: Disk + Drop>(
    rt: &R,
    alloc: Global,
    disks: Four<H>,
) -> Result<Option<(ConnEnd, Vec<u8>)>, AllocError> {
    let asked = joined(alloc, [CONNECT, CREATE, SETS].as_slice())?;
    match shared(alloc, disks)? {
        Some((node, seat)) => {
            let mut seat = seat;
            Ok(serves(rt, alloc, &node, &mut seat, asked))
        }
        None => Ok(None),
    }
}

// Whether the client was answered these bytes, and then its stream ended.
fn was_answered(served: &Option<(ConnEnd, Vec<u8>)>, answers: &[u8]) -> bool {
    match served {
        Some((ConnEnd::Ended, bytes)) => bytes.as_slice() == answers,
        _ => false,
    }
}

#[test]
fn a_client_is_answered(rt: HostRuntime) -> Result<(), Fail> {
    let alloc = rt.alloc();
    let answers = joined(alloc, [CONNECTED, CREATED, SET].as_slice())?;
    let served = served(&rt, alloc, Four::blank(alloc))?;
    assert!(rt; was_answered(&served, answers.as_slice()));
    Ok(())
}

// How many tasks a node was given that was only shared.
fn counted<H: Disk + Drop>(alloc: Global, disks: Four<H>) -> Result<Option<u64>, AllocError> {
    match shared(alloc, disks)? {
        Some((node, seat)) => {
            let mut seat = seat;
            Ok(Some(count_found(&node, &mut seat)))
        }
        None => Ok(None),
    }
}

#[test]
fn a_new_node_was_given_no_task(rt: HostRuntime) -> Result<(), Fail> {
    let count = counted(rt.alloc(), Four::blank(rt.alloc()))?;
    assert!(rt; count == Some(0));
    Ok(())
}

/// The length of the answer to a set, which stands before that to a read.
const SET_ALONE: usize = 88;

// Whether so many bytes are whole answers of the client's.
fn are_whole(count: usize) -> bool {
    let connected = CONNECTED.len();
    let created = connected + CREATED.len();
    [
        0,
        connected,
        created,
        created + SET_ALONE,
        created + SET.len(),
    ]
    .contains(&count)
}

// What came of a client whose node's disk fails: whether the disk failed while it was served. None where it was answered what it
// may not be.
fn judged(end: ConnEnd, bytes: &[u8], answers: &[u8]) -> Option<bool> {
    if !answers.starts_with(bytes) || !are_whole(bytes.len()) {
        return None;
    }
    match end {
        ConnEnd::Ended if bytes.len() == answers.len() => Some(false),
        ConnEnd::DiskFault if bytes.len() < answers.len() => Some(true),
        _ => None,
    }
}

// Serves a client on a node whose disk fails in this call: how many times it failed meanwhile. None where the client was answered
// what it may not be.
fn faults_of<R: Wait>(
    rt: &R,
    alloc: Global,
    call: u64,
    answers: &[u8],
) -> Result<Option<u64>, AllocError> {
    match served(rt, alloc, failing(alloc, call)?)? {
        Some((end, bytes)) => match judged(end, bytes.as_slice(), answers) {
            Some(true) => Ok(Some(1)),
            Some(false) => Ok(Some(0)),
            None => Ok(None),
        },
        None => Ok(Some(0)),
    }
}

#[test]
fn nothing_of_a_failed_flush_leaves(rt: HostRuntime) -> Result<(), Fail> {
    let alloc = rt.alloc();
    let answers = joined(alloc, [CONNECTED, CREATED, SET].as_slice())?;
    let mut faults = 0u64;
    for call in 1..40u64 {
        let count = faults_of(&rt, alloc, call, answers.as_slice())?;
        assert!(rt; count.is_some());
        faults = faults.saturating_add(count.unwrap_or(0));
    }
    assert!(rt; faults >= 6);
    Ok(())
}
