//! Two workers of a node whose steps wait for one flush.
ghost use Rattle.kp_shared.specs.Sharing.{IsNodeSeatOf};

use crate::serving::{DRAW, failing, leads, shared};
use kp_client_tests::frames::CONNECT;
use kp_dispatch::accept;
use kp_event::NodeEventKind;
use kp_io::MemoryClock;
use kp_model::Bytes;
use kp_shared::{Kept, NodeSeat, SharedNode, flush, think};
use std::alloc::{AllocError, Global};
use std::sync::Wait;
use std::test::Fail;

/// Where a disk failed: before, in the flush of two steps that waited, in that of one step behind them, or nowhere.
#[derive(Clone, Copy, Drop)]
enum Failing {
    Before,
    OfTwo,
    OfOne,
    Nowhere,
}

// Has a worker think that a client asks for a session: the number of the thought, or None where it was refused.
fn asks<R: Wait, K: Kept>(
    rt: &R,
    alloc: Global,
    node: &SharedNode<K>,
    seat: &mut NodeSeat<K>,
    clock: &MemoryClock,
    conn: u64,
) -> Result<Option<u64>, AllocError>
    requires { IsNodeSeatOf (λ s. K.life s.kept) node.now seat.old }
    ensures { IsNodeSeatOf (λ s. K.life s.kept) node.now seat.new }
{
    let bytes = Bytes::from_vec(Vec::from_slice(alloc, CONNECT)?);
    let kind = NodeEventKind::Client { conn, bytes };
    match think(rt, &node.turn, &mut seat.turn, clock, kind) {
        Ok(thought) => {
            let number = thought.number;
            drop(thought);
            Ok(Some(number))
        }
        Err(_) => Ok(None),
    }
}

// Has a worker keep all that was thought. The answer is whether that was kept up to this number.
fn is_kept<R: Wait, K: Kept>(
    rt: &R,
    node: &SharedNode<K>,
    seat: &mut NodeSeat<K>,
    number: Option<u64>,
) -> bool
    requires { IsNodeSeatOf (λ s. K.life s.kept) node.now seat.old }
    ensures { IsNodeSeatOf (λ s. K.life s.kept) node.now seat.new }
{
    match flush(rt, &node.turn, &mut seat.turn) {
        Ok(kept) => number == Some(kept),
        Err(_) => false,
    }
}

// Accepts a connection. The answer is whether it got this number.
fn is_accepted<R: Wait, K: Kept>(
    rt: &R,
    node: &SharedNode<K>,
    seat: &mut NodeSeat<K>,
    clock: &MemoryClock,
    conn: u64,
) -> bool
    requires { IsNodeSeatOf (λ s. K.life s.kept) node.now seat.old }
    ensures { IsNodeSeatOf (λ s. K.life s.kept) node.now seat.new }
{
    match accept(rt, seat, node, clock, DRAW) {
        Ok(number) => number == conn,
        Err(_) => false,
    }
}

// Has the node lead, and accepts three connections.
fn begins<R: Wait, K: Kept>(
    rt: &R,
    alloc: Global,
    node: &SharedNode<K>,
    seat: &mut NodeSeat<K>,
    clock: &MemoryClock,
) -> bool
    requires { IsNodeSeatOf (λ s. K.life s.kept) node.now seat.old }
    ensures { IsNodeSeatOf (λ s. K.life s.kept) node.now seat.new }
{
    leads(rt, alloc, node, seat, clock)
        && is_accepted(rt, node, seat, clock, 1)
        && is_accepted(rt, node, seat, clock, 2)
        && is_accepted(rt, node, seat, clock, 3)
}

// Has each of two workers think a step, and the one keep both; then the other thinks one step more and keeps it.
fn work<R: Wait, K: Kept>(
    rt: &R,
    alloc: Global,
    node: &SharedNode<K>,
    one: &mut NodeSeat<K>,
    two: &mut NodeSeat<K>,
) -> Result<Failing, AllocError>
    requires one { IsNodeSeatOf (λ s. K.life s.kept) node.now one.old }
    requires two { IsNodeSeatOf (λ s. K.life s.kept) node.now two.old }
{
    let clock = MemoryClock::new(1_000);
    if !begins(rt, alloc, node, one, &clock) {
        return Ok(Failing::Before);
    }
    let _ = asks(rt, alloc, node, one, &clock, 1)?;
    let waiting = asks(rt, alloc, node, two, &clock, 2)?;
    if !is_kept(rt, node, one, waiting) {
        return Ok(Failing::OfTwo);
    }
    let waiting = asks(rt, alloc, node, two, &clock, 3)?;
    if !is_kept(rt, node, two, waiting) {
        return Ok(Failing::OfOne);
    }
    Ok(Failing::Nowhere)
}

// Has two workers do that on a node whose disk fails in this call.
fn failing_at<R: Wait>(rt: &R, alloc: Global, call: u64) -> Result<Failing, AllocError> {
    match shared(alloc, failing(alloc, call)?)? {
        Some((node, one)) => {
            let mut one = one;
            let mut two = node.split(&mut one);
            work(rt, alloc, &node, &mut one, &mut two)
        }
        None => Ok(Failing::Before),
    }
}

// How often a disk failed in a flush of two steps, in one of one step, and in none.
#[derive(Clone, Copy, Drop)]
struct Counts {
    of_two: u64,
    of_one: u64,
    nowhere: u64,
}

// Counts one more.
fn counted(counts: Counts, failing: Failing) -> Counts {
    let Counts {
        of_two,
        of_one,
        nowhere,
    } = counts;
    match failing {
        Failing::Before => counts,
        Failing::OfTwo => Counts {
            of_two: of_two.saturating_add(1),
            of_one,
            nowhere,
        },
        Failing::OfOne => Counts {
            of_two,
            of_one: of_one.saturating_add(1),
            nowhere,
        },
        Failing::Nowhere => Counts {
            of_two,
            of_one,
            nowhere: nowhere.saturating_add(1),
        },
    }
}

#[test]
fn two_steps_cost_one_batch(rt: HostRuntime) -> Result<(), Fail> {
    let mut counts = Counts {
        of_two: 0,
        of_one: 0,
        nowhere: 0,
    };
    for call in 1..40u64 {
        counts = counted(counts, failing_at(&rt, rt.alloc(), call)?);
    }
    assert!(rt; counts.nowhere > 0 && counts.of_two > 0);
    assert!(rt; counts.of_two == counts.of_one);
    Ok(())
}
