// The worker of a node.
ghost use Rattle.kp_shared.specs.Sharing.{IsNodeSeatOf};
ghost use Rattle.kp_worker.specs.Calls.{CallTells};

use crate::ends::NodeEnd;
use crate::inbox::Inbox;
use crate::lines::Lines;
use crate::pace::Pace;
use crate::turning::turn_over;
use kp_io::Clock;
use kp_shared::{Kept, NodeSeat, SharedNode};
use std::alloc::Global;
use std::sync::Wait;

/// Serves all connections of a node until the node stops.
///
/// In a loop it looks at the stop word and waits until something is ready, at most until something is due. Then it makes one turn
/// of the node: an Accept for each new connection, a Client event for each piece that came, a Hangup for each connection that
/// ended or failed, a Deliver for each message of the links, and what is due; commits until none is left; a Beat where it is worth
/// while; and a Drain of each connection that has something. It keeps them all by one flush, sends their mail, gives the new
/// connections their numbers, and hands out what was drained. A connection whose frame was bad, that is over, or for whose event
/// the node had no memory, answers End from then on.
pub fn serve_node<R: Wait, K: Kept, L: Lines, I: Inbox<K::Mail>, C: Clock, P: Pace>(
    rt: &R,
    alloc: Global,
    seat: &mut NodeSeat<K>,
    node: &SharedNode<K>,
    lines: &mut L,
    inbox: &mut I,
    clock: &C,
    pace: &mut P,
) -> NodeEnd
    requires { IsNodeSeatOf (λ s. K.life s.kept) node.now seat.old }
    ensures seat { IsNodeSeatOf (λ s. K.life s.kept) node.now seat.new }
    ensures tells { CallTells (L.sees lines.old) (L.sees lines.new) (I.taken inbox.old) (I.taken inbox.new) (C.may clock.now) seat.old seat.new result }
{
    for _ in rt.forever() {
        if node.stop.load(&mut seat.stop) {
            return NodeEnd::Stopped;
        }
        let most = pace.pause(clock.now());
        let woken = match lines.wait(rt, most) {
            Ok(woken) => woken,
            Err(_) => return NodeEnd::NetFault,
        };
        match turn_over(rt, alloc, seat, node, lines, inbox, clock, pace, &woken) {
            Ok(()) => {}
            Err(end) => return end,
        }
    }
    unreachable!()
}
