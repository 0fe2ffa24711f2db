// Two workers in two threads.
ghost use Rattle.kp_shared.specs.Sharing.{IsNodeSeatOf};

use kp_dispatch::{ConnEnd, serve_connection};
use kp_io::{Clock, Gate, Sink, Stream};
use kp_shared::{Kept, NodeSeat, SharedNode};
use std::alloc::Global;
use std::sync::Wait;
use std::thread;
use std::thread::Threads;

/// Serves the connections 1 and 2, each in a thread of its own.
pub fn serve_two<
    R: Threads + Wait + Sync,
    K: Kept + Send,
    S: Stream + Send,
    W: Sink + Send,
    G: Gate + Sync,
    C: Clock + Sync,
>(
    rt: &R,
    alloc: Global,
    node: &SharedNode<K>,
    seats: (&mut NodeSeat<K>, &mut NodeSeat<K>),
    inputs: (&mut S, &mut S),
    outputs: (&mut W, &mut W),
    gate: &G,
    clock: &C,
) -> (ConnEnd, ConnEnd)
where
    K::Mail: Send,
    requires one { IsNodeSeatOf (λ s. K.life s.kept) node.now seats.0.now }
    requires two { IsNodeSeatOf (λ s. K.life s.kept) node.now seats.1.now }
{
    let (one, two) = seats;
    let (first, second) = inputs;
    let (out_one, out_two) = outputs;
    thread::join(
        rt,
        || -> ConnEnd
            requires { IsNodeSeatOf (λ s. K.life s.kept) node.now one.now }
        { serve_connection(rt, alloc, 1, one, node, first, out_one, gate, clock) },
        || -> ConnEnd
            requires { IsNodeSeatOf (λ s. K.life s.kept) node.now two.now }
        { serve_connection(rt, alloc, 2, two, node, second, out_two, gate, clock) },
    )
}
