// One turn of a node's worker.
ghost use Rattle.std.specs.Prelude.{◌≡◌, ◌≤◌, [], length};
ghost use Rattle.kp_shared.specs.Sharing.{IsNodeSeatOf};
ghost use Rattle.kp_worker.specs.Calls.{LeaveTells, TurnTells};
ghost use Rattle.kp_worker.specs.Events.{drains, draws};

use crate::ends::{NodeEnd, end_of};
use crate::gathering::gather;
use crate::heard::Woken;
use crate::inbox::Inbox;
use crate::lines::Lines;
use crate::pace::Pace;
use crate::releasing::release;
use crate::thinking::think_turn;
use kp_event::NodeEventKind;
use kp_io::Clock;
use kp_shared::{Kept, NodeSeat, SharedNode};
use std::alloc::Global;
use std::sync::Wait;

// Thinks and keeps a turn that begins with these events, and lets leave what may.
fn think_and_leave<R: Wait, K: Kept, L: Lines, C: Clock, P: Pace>(
    rt: &R,
    alloc: Global,
    node: &SharedNode<K>,
    seat: &mut NodeSeat<K>,
    lines: &mut L,
    clock: &C,
    pace: &mut P,
    free: &[u64],
    kinds: Vec<NodeEventKind<K::Mail>>,
) -> Result<(), NodeEnd>
    requires seat { IsNodeSeatOf (λ s. K.life s.kept) node.now seat.old }
    requires waits { length (draws kinds.items) ≤ (L.sees lines.old).waits }
    requires undrained { drains kinds.items ≡ [] }
    ensures seat { IsNodeSeatOf (λ s. K.life s.kept) node.now seat.new }
    ensures tells { LeaveTells (L.sees lines.old) (L.sees lines.new) (C.may clock.now) seat.old seat.new kinds.items result }
{
    match think_turn(
        rt,
        alloc,
        &node.turn,
        &mut seat.turn,
        lines,
        clock,
        &mut seat.told,
        pace,
        free,
        kinds,
    ) {
        Ok(notes) => {
            release(rt, &node.links, &mut seat.links, lines, notes);
            Ok(())
        }
        Err(refusal) => Err(end_of(refusal)),
    }
}

/// One turn: what came is thought and kept by one flush, and then all leaves that may.
pub(crate) fn turn_over<R: Wait, K: Kept, L: Lines, I: Inbox<K::Mail>, C: Clock, P: Pace>(
    rt: &R,
    alloc: Global,
    seat: &mut NodeSeat<K>,
    node: &SharedNode<K>,
    lines: &mut L,
    inbox: &mut I,
    clock: &C,
    pace: &mut P,
    woken: &Woken,
) -> Result<(), NodeEnd>
    requires seat { IsNodeSeatOf (λ s. K.life s.kept) node.now seat.old }
    requires waits { length woken.now.draws.items ≤ (L.sees lines.old).waits }
    ensures seat { IsNodeSeatOf (λ s. K.life s.kept) node.now seat.new }
    ensures tells { TurnTells (L.sees lines.old) (L.sees lines.new) (I.taken inbox.old) (I.taken inbox.new) (C.may clock.now) seat.old seat.new result }
{
    let now = clock.now();
    let kinds = gather::<R, K, L, I, P>(rt, alloc, lines, inbox, pace, now, woken);
    think_and_leave(
        rt,
        alloc,
        node,
        seat,
        lines,
        clock,
        pace,
        woken.free.as_slice(),
        kinds,
    )
}
