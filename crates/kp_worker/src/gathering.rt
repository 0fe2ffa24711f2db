// The events of a turn that come from outside.
ghost use Rattle.std.specs.Prelude.{◌≡◌, ◌<◌, ◌≤◌, ◌++◌, ◌∷◌, [], ℕ, List, Option, true, length, vec_capacity};
ghost use Rattle.kp_event.specs.declared.event.NodeEventKind.TheVariants.{Deliver, Hangup};
ghost use Rattle.kp_worker.specs.Calls.{Adds, Gathers};
ghost use Rattle.kp_worker.specs.Outside.{Outside, Tells, is_there, shut};
ghost use Rattle.kp_worker.specs.Events.{IsOwn};

use crate::heard::{Heard, Woken};
use crate::inbox::Inbox;
use crate::lines::Lines;
use crate::pace::{Due, Pace};
use kp_event::NodeEventKind;
use kp_shared::Kept;
use std::alloc::Global;
use std::sync::Wait;

/// The most messages that are taken of the links in a turn.
const MESSAGES: u64 = 1_024;

// A Hangup of a connection, which is let go.
fn hang_up<L: Lines, M>(lines: &mut L, kinds: &mut Vec<NodeEventKind<M>>, conn: u64)
    requires room { length kinds.old.items < vec_capacity kinds.old }
    ensures kinds { kinds.new.items ≡ kinds.old.items ++ Hangup conn ∷ [] }
    ensures tells { Tells (L.sees lines.old) (L.sees lines.new) [] [] }
    ensures state { (c : ℕ) → (L.sees lines.new).state c ≡ shut c ((L.sees lines.old).state c) conn }
    ensures waits { (L.sees lines.new).waits ≡ (L.sees lines.old).waits }
    ensures faults { (L.sees lines.new).faults ≡ (L.sees lines.old).faults }
{
    lines.close(conn);
    kinds.push_reserved(NodeEventKind::Hangup { conn });
}

// What a connection asks for.
fn take_one<L: Lines, M>(lines: &mut L, kinds: &mut Vec<NodeEventKind<M>>, conn: u64)
where
    M: Drop,
    requires room { length kinds.old.items < vec_capacity kinds.old }
    requires there { is_there ((L.sees lines.old).state conn) ≡ true }
    ensures adds { (box : ℕ → Option (List M)) → Adds (L.sees lines.old) (L.sees lines.new) box box 0 kinds.old.items kinds.new.items }
{
    match lines.take(conn) {
        Heard::Bytes(bytes) => kinds.push_reserved(NodeEventKind::Client { conn, bytes }),
        Heard::Later => {}
        Heard::End => hang_up(lines, kinds, conn),
        Heard::Fault => hang_up(lines, kinds, conn),
    }
}

// What a connection asks for, where a piece may be taken of it.
fn take_ready<L: Lines, M>(lines: &mut L, kinds: &mut Vec<NodeEventKind<M>>, conn: u64)
where
    M: Drop,
    ensures adds { (box : ℕ → Option (List M)) → Adds (L.sees lines.old) (L.sees lines.new) box box 0 kinds.old.items kinds.new.items }
{
    if kinds.reserve(1).is_err() {
        return;
    }
    if lines.is_ready(conn) {
        take_one(lines, kinds, conn);
    }
}

// What these connections ask for.
fn take_all<L: Lines, M>(lines: &mut L, kinds: &mut Vec<NodeEventKind<M>>, ready: &[u64])
where
    M: Drop,
    ensures adds { (box : ℕ → Option (List M)) → Adds (L.sees lines.old) (L.sees lines.new) box box 0 kinds.old.items kinds.new.items }
{
    let mut at = 0;
    while at < ready.len() {
        take_ready(lines, kinds, ready[at]);
        at += 1;
    }
}

// An Accept of a new connection.
fn accept_one<M>(kinds: &mut Vec<NodeEventKind<M>>, draw: [u8; 16])
where
    M: Drop,
    ensures adds { (o : Outside) (box : ℕ → Option (List M)) → Adds o o box box 1 kinds.old.items kinds.new.items }
{
    if kinds.reserve(1).is_err() {
        return;
    }
    kinds.push_reserved(NodeEventKind::Accept { draw });
}

// An Accept for each of these draws.
fn accept_all<M>(kinds: &mut Vec<NodeEventKind<M>>, draws: &[[u8; 16]])
where
    M: Drop,
    ensures adds { (o : Outside) (box : ℕ → Option (List M)) → Adds o o box box (length draws.now) kinds.old.items kinds.new.items }
{
    let mut at = 0;
    while at < draws.len() {
        accept_one(kinds, draws[at]);
        at += 1;
    }
}

// Delivers a message.
fn deliver<K: Kept, P: Pace>(
    pace: &mut P,
    now: u64,
    kinds: &mut Vec<NodeEventKind<K::Mail>>,
    mail: K::Mail,
)
    requires room { length kinds.old.items < vec_capacity kinds.old }
    ensures kinds { kinds.new.items ≡ kinds.old.items ++ Deliver mail ∷ [] }
{
    if K::feeds_log(&mail) {
        pace.hears_leader(now);
    }
    kinds.push_reserved(NodeEventKind::Deliver(mail));
}

// Delivers the first message of a link. The answer is whether there was one.
fn deliver_one<R: Wait, K: Kept, I: Inbox<K::Mail>, P: Pace>(
    rt: &R,
    inbox: &mut I,
    pace: &mut P,
    now: u64,
    kinds: &mut Vec<NodeEventKind<K::Mail>>,
) -> bool
    ensures adds { (o : Outside) → Adds o o (I.taken inbox.old) (I.taken inbox.new) 0 kinds.old.items kinds.new.items }
{
    if kinds.reserve(1).is_err() {
        return false;
    }
    match inbox.take(rt) {
        Some(arrived) => {
            deliver::<K, P>(pace, now, kinds, arrived.mail);
            true
        }
        None => false,
    }
}

// Delivers the messages of the links.
fn deliver_all<R: Wait, K: Kept, I: Inbox<K::Mail>, P: Pace>(
    rt: &R,
    inbox: &mut I,
    pace: &mut P,
    now: u64,
    kinds: &mut Vec<NodeEventKind<K::Mail>>,
)
    ensures adds { (o : Outside) → Adds o o (I.taken inbox.old) (I.taken inbox.new) 0 kinds.old.items kinds.new.items }
{
    for _ in 0..MESSAGES {
        if !deliver_one::<R, K, I, P>(rt, inbox, pace, now, kinds) {
            return;
        }
    }
}

// An event that nobody asks for.
fn add_own<M>(kinds: &mut Vec<NodeEventKind<M>>, kind: NodeEventKind<M>)
where
    M: Drop,
    requires { IsOwn kind }
    ensures adds { (o : Outside) (box : ℕ → Option (List M)) → Adds o o box box 0 kinds.old.items kinds.new.items }
{
    if kinds.reserve(1).is_err() {
        drop(kind);
        return;
    }
    kinds.push_reserved(kind);
}

// An event that nobody asks for, where it is due.
fn add_where<M>(kinds: &mut Vec<NodeEventKind<M>>, due: bool, kind: NodeEventKind<M>)
where
    M: Drop,
    requires { IsOwn kind }
    ensures adds { (o : Outside) (box : ℕ → Option (List M)) → Adds o o box box 0 kinds.old.items kinds.new.items }
{
    if due {
        add_own(kinds, kind);
    } else {
        drop(kind);
    }
}

// What is due.
fn add_due<M>(kinds: &mut Vec<NodeEventKind<M>>, due: Due)
where
    M: Drop,
    ensures adds { (o : Outside) (box : ℕ → Option (List M)) → Adds o o box box 0 kinds.old.items kinds.new.items }
{
    add_where(kinds, due.timeout, NodeEventKind::Timeout);
    add_where(kinds, due.tick, NodeEventKind::Beat);
    add_where(kinds, due.tick, NodeEventKind::ExpireDue);
    add_where(kinds, due.snapshot, NodeEventKind::Snapshot);
}

/// The events that come from outside: of the connections that are ready, of the links, and what is due at this time.
pub(crate) fn gather<R: Wait, K: Kept, L: Lines, I: Inbox<K::Mail>, P: Pace>(
    rt: &R,
    alloc: Global,
    lines: &mut L,
    inbox: &mut I,
    pace: &mut P,
    now: u64,
    woken: &Woken,
) -> Vec<NodeEventKind<K::Mail>>
    ensures gathers { Gathers (L.sees lines.old) (L.sees lines.new) (I.taken inbox.old) (I.taken inbox.new) (length woken.now.draws.items) result.items }
{
    let mut kinds = Vec::new(alloc);
    take_all(lines, &mut kinds, woken.ready.as_slice());
    accept_all(&mut kinds, woken.draws.as_slice());
    deliver_all::<R, K, I, P>(rt, inbox, pace, now, &mut kinds);
    add_due(&mut kinds, pace.due(now));
    kinds
}
