// The calls of a node's ticker and of its link worker.
ghost use Rattle.std.specs.Prelude.{◌≡◌};
ghost use Rattle.kp_links.specs.LinkSeats.{IsLinkSeatOf, link_view, refused_of};
ghost use Rattle.kp_shared.specs.Sharing.{IsNodeSeatOf};
ghost use Rattle.kp_dispatch.specs.Ticks.{CarryTells, TickTells, WorkTells};

use crate::ends::{Turned, turned_of};
use crate::plans::{plan_carry, plan_tick};
use kp_event::KeptFail;
use kp_io::Clock;
use kp_links::{LinkSeat, Links};
use kp_shared::{Kept, NodeSeat, Refusal, SharedNode, Step, make_turn, post_all};
use std::alloc::{AllocError, Global};
use std::sync::Wait;

// Makes a turn of these steps and sends its mail.
fn work<R: Wait, K: Kept, C: Clock>(
    rt: &R,
    alloc: Global,
    seat: &mut NodeSeat<K>,
    node: &SharedNode<K>,
    clock: &C,
    plan: Vec<Step<K::Mail>>,
) -> Result<(), Refusal>
    requires { IsNodeSeatOf (λ s. K.life s.kept) node.now seat.old }
    ensures seat { IsNodeSeatOf (λ s. K.life s.kept) node.now seat.new }
    ensures tells { WorkTells (C.may clock.now) seat.old seat.new plan.items result }
{
    match make_turn(
        rt,
        alloc,
        &node.turn,
        &mut seat.turn,
        clock,
        &mut seat.told,
        plan,
    ) {
        Ok(thoughts) => {
            post_all(rt, &node.links, &mut seat.links, thoughts);
            Ok(())
        }
        Err(refusal) => Err(refusal),
    }
}

/// Makes one tick of a node: a Timeout where asked, a Beat, commits until none is left, an ExpireDue, and a Snapshot where asked,
/// in one turn. Then it sends their mail.
pub fn tick<R: Wait, K: Kept, C: Clock>(
    rt: &R,
    alloc: Global,
    seat: &mut NodeSeat<K>,
    node: &SharedNode<K>,
    clock: &C,
    timeout: bool,
    snapshot: bool,
) -> Turned
    requires { IsNodeSeatOf (λ s. K.life s.kept) node.now seat.old }
    ensures seat { IsNodeSeatOf (λ s. K.life s.kept) node.now seat.new }
    ensures tells { TickTells (C.may clock.now) seat.old seat.new timeout snapshot result }
{
    let Ok(plan) = plan_tick(alloc, timeout, snapshot) else {
        return Turned::Failed(KeptFail::NoMemory);
    };
    match work(rt, alloc, seat, node, clock, plan) {
        Ok(()) => Turned::Done(false),
        Err(refusal) => turned_of(refusal),
    }
}

/// Takes the first message of a link, where there is one, and delivers it to the node: a Deliver, commits until none is left, and
/// a Beat where it is worth while, in one turn. Then it sends their mail.
pub fn carry<R: Wait, K: Kept, C: Clock>(
    rt: &R,
    alloc: Global,
    seat: &mut NodeSeat<K>,
    node: &SharedNode<K>,
    link: &Links<K::Mail>,
    at: &mut LinkSeat<K::Mail>,
    clock: &C,
) -> Turned
    requires seat { IsNodeSeatOf (λ s. K.life s.kept) node.now seat.old }
    requires at { IsLinkSeatOf link.now at.old }
    ensures seat { IsNodeSeatOf (λ s. K.life s.kept) node.now seat.new }
    ensures at { IsLinkSeatOf link.now at.new × (refused_of at.new ≡ refused_of at.old) }
    ensures tells { CarryTells (C.may clock.now) seat.old seat.new K.feeds (link_view at.old) (link_view at.new) result }
{
    let Some(mail) = link.take(rt, at) else {
        return Turned::Empty;
    };
    let feeds = K::feeds_log(&mail);
    let Ok(plan) = plan_carry(alloc, mail) else {
        return Turned::Failed(KeptFail::NoMemory);
    };
    match work(rt, alloc, seat, node, clock, plan) {
        Ok(()) => Turned::Done(feeds),
        Err(refusal) => turned_of(refusal),
    }
}
