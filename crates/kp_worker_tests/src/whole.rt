use crate::{Always, Board, Happening, Message, OneMessage, Parrot, board_of, was_handed};
use kp_io::MemoryClock;
use kp_shared::SharedNode;
use kp_worker::{NodeEnd, serve_node};
use std::alloc::Global;
use std::sync::Wait;
use std::test::Fail;

// Serves a node whose disk fails at the flush behind so many, while these things happen outside.
fn serve<R: Wait>(
    rt: &R,
    alloc: Global,
    flushes: u64,
    list: &[Happening],
) -> Result<(Board, NodeEnd, u64), Fail> {
    let (node, mut seat) = SharedNode::new(alloc, Parrot::new(alloc, flushes))?;
    let mut board = board_of(alloc, Vec::from_slice(alloc, list)?);
    let mut inbox = OneMessage {
        message: Some(Message { feeds: true }),
    };
    let mut pace = Always {
        leaders: 0,
        thoughts: 0,
    };
    let end = serve_node(
        rt,
        alloc,
        &mut seat,
        &node,
        &mut board,
        &mut inbox,
        &MemoryClock::new(7),
        &mut pace,
    );
    Ok((board, end, pace.leaders))
}

// Three whose pieces come in turn: one byte by byte, one that reads nothing, and one that ends in the midst.
const THREE: [Happening; 8] = [
    Happening::Talker(b"abc", 1),
    Happening::Deaf(b"lost"),
    Happening::Talker(b"xy", 9),
    Happening::Ready(&[3, 1, 2]),
    Happening::Ready(&[1]),
    Happening::Ready(&[2, 3]),
    Happening::Ready(&[3, 1]),
    Happening::Ready(&[1]),
];

#[test]
fn three_connections_are_served(rt: HostRuntime) -> Result<(), Fail> {
    let (board, end, leaders) = serve(&rt, rt.alloc(), u64::MAX, THREE.as_slice())?;
    assert!(rt; matches!(end, NodeEnd::NetFault) && leaders == 1);
    assert!(rt; was_handed(&board, 1, b"abc".as_slice()) && was_handed(&board, 2, b"".as_slice()));
    assert!(rt; was_handed(&board, 3, b"xy".as_slice()));
    Ok(())
}

// A connection that is over, one whose frame is bad, and one that goes on.
const ENDS: [Happening; 5] = [
    Happening::Talker(b"qrst", 2),
    Happening::Talker(b"a!bc", 2),
    Happening::Talker(b"mnop", 2),
    Happening::Ready(&[1, 2, 3]),
    Happening::Ready(&[1, 2, 3]),
];

// One that breaks off while it is answered, and one that goes on.
const BREAKS: [Happening; 6] = [
    Happening::Brittle(b"abcdef", 3),
    Happening::Talker(b"mnop", 2),
    Happening::Ready(&[1, 2]),
    Happening::Ready(&[1, 2]),
    Happening::Ready(&[1, 2]),
    Happening::Ready(&[1, 2]),
];

// One that takes what was kept for it, and then goes on.
const FREES: [Happening; 4] = [
    Happening::Deaf(b"abcd"),
    Happening::Ready(&[1]),
    Happening::Frees(1),
    Happening::Ready(&[1]),
];

#[test]
fn one_connection_ends_alone(rt: HostRuntime) -> Result<(), Fail> {
    let (board, end, _) = serve(&rt, rt.alloc(), u64::MAX, ENDS.as_slice())?;
    assert!(rt; matches!(end, NodeEnd::NetFault));
    assert!(rt; was_handed(&board, 1, b"qr".as_slice()) && was_handed(&board, 2, b"".as_slice()));
    assert!(rt; was_handed(&board, 3, b"mnop".as_slice()));
    Ok(())
}

#[test]
fn one_connection_breaks_off_alone(rt: HostRuntime) -> Result<(), Fail> {
    let (board, end, _) = serve(&rt, rt.alloc(), u64::MAX, BREAKS.as_slice())?;
    assert!(rt; matches!(end, NodeEnd::NetFault));
    assert!(rt;
        was_handed(&board, 1, b"abc".as_slice()) && was_handed(&board, 2, b"mnop".as_slice())
    );
    Ok(())
}

#[test]
fn a_slow_reader_goes_on(rt: HostRuntime) -> Result<(), Fail> {
    let (board, end, _) = serve(&rt, rt.alloc(), u64::MAX, FREES.as_slice())?;
    assert!(rt; matches!(end, NodeEnd::NetFault) && was_handed(&board, 1, b"abcd".as_slice()));
    Ok(())
}

#[test]
fn nothing_of_a_failed_flush_leaves(rt: HostRuntime) -> Result<(), Fail> {
    let (board, end, _) = serve(&rt, rt.alloc(), 4, THREE.as_slice())?;
    assert!(rt; matches!(end, NodeEnd::DiskFault));
    assert!(rt; was_handed(&board, 1, b"a".as_slice()) && was_handed(&board, 3, b"xy".as_slice()));
    Ok(())
}

#[test]
fn a_worker_is_stopped(rt: HostRuntime) -> Result<(), Fail> {
    let alloc = rt.alloc();
    let (node, mut seat) = SharedNode::new(alloc, Parrot::new(alloc, 0))?;
    let mut board = board_of(alloc, Vec::new(alloc));
    let mut pace = Always {
        leaders: 0,
        thoughts: 0,
    };
    node.stop(&mut seat);
    let end = serve_node(
        &rt,
        alloc,
        &mut seat,
        &node,
        &mut board,
        &mut OneMessage { message: None },
        &MemoryClock::new(7),
        &mut pace,
    );
    assert!(rt; matches!(end, NodeEnd::Stopped) && pace.thoughts == 0);
    Ok(())
}
