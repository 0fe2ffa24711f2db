use crate::{Echo, Holds, Message, serve_two};
use kp_dispatch::{ConnEnd, Turned, accept, carry, tick};
use kp_io::{MemoryClock, MemorySink, MemoryStream};
use kp_links::Links;
use kp_shared::SharedNode;
use std::test::Fail;

#[test]
fn two_workers_serve_two_connections(rt: HostRuntime) -> Result<(), Fail> {
    let alloc = rt.alloc();
    let (node, mut one) = SharedNode::new(alloc, Echo::new(alloc))?;
    let mut two = node.split(&mut one);
    let bytes = Vec::from_slice(alloc, b"abc".as_slice())?;
    let mut first = MemoryStream::new(alloc, bytes, 1, Vec::from_slice(alloc, [2u64].as_slice())?);
    let bytes = Vec::from_slice(alloc, b"xyz".as_slice())?;
    let mut second = MemoryStream::new(alloc, bytes, 2, Vec::new(alloc));
    let mut out_one = MemorySink::new(alloc, 4);
    let mut out_two = MemorySink::new(alloc, 4);
    let ends = serve_two(
        &rt,
        alloc,
        &node,
        (&mut one, &mut two),
        (&mut first, &mut second),
        (&mut out_one, &mut out_two),
        &Holds::new(),
        &MemoryClock::new(7),
    );
    assert!(rt; matches!(ends, (ConnEnd::Ended, ConnEnd::Ended)));
    assert!(rt; out_one.bytes() == b"abc".as_slice() && out_two.bytes() == b"xyz".as_slice());
    Ok(())
}

#[test]
fn a_node_is_ticked_carried_to_and_stopped(rt: HostRuntime) -> Result<(), Fail> {
    let alloc = rt.alloc();
    let clock = MemoryClock::new(7);
    let (node, mut seat) = SharedNode::new(alloc, Echo::new(alloc))?;
    let (link, mut at) = Links::new(alloc)?;
    assert!(rt; matches!(accept(&rt, &mut seat, &node, &clock, [0; 16]), Ok(7)));
    assert!(rt;
        matches!(
            tick(&rt, alloc, &mut seat, &node, &clock, true, true),
            Turned::Done(false)
        )
    );
    assert!(rt;
        matches!(
            carry(&rt, alloc, &mut seat, &node, &link, &mut at, &clock),
            Turned::Empty
        )
    );
    assert!(rt; link.send(&rt, &mut at, Message { feeds: true }).is_ok());
    assert!(rt;
        matches!(
            carry(&rt, alloc, &mut seat, &node, &link, &mut at, &clock),
            Turned::Done(true)
        )
    );
    node.stop(&mut seat);
    Ok(())
}
