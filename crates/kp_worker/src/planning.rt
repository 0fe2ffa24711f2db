// The events of a turn behind the commits: a Beat where it is worth while, and a Drain of each connection that has something.
ghost use Rattle.kp_worker.specs.Outside.{Outside};
ghost use Rattle.kp_worker.specs.Turns.{AddsHarmless, Harmless};

use crate::lines::Lines;
use crate::note::Note;
use kp_event::NodeEventKind;
use kp_shared::Told;
use std::alloc::Global;

// A Drain of a connection, where bytes may be handed to it.
fn drain_one<L: Lines, M>(lines: &L, kinds: &mut Vec<NodeEventKind<M>>, conn: u64)
where
    M: Drop,
    ensures adds { AddsHarmless (L.sees lines.now) kinds.old.items kinds.new.items }
{
    if kinds.reserve(1).is_err() {
        return;
    }
    if lines.is_ready(conn) {
        kinds.push_reserved(NodeEventKind::Drain { conn });
    }
}

// A Drain of each of these connections to which bytes may be handed.
fn drain_all<L: Lines, M>(lines: &L, kinds: &mut Vec<NodeEventKind<M>>, conns: &[u64])
where
    M: Drop,
    ensures adds { AddsHarmless (L.sees lines.now) kinds.old.items kinds.new.items }
{
    let mut at = 0;
    while at < conns.len() {
        drain_one(lines, kinds, conns[at]);
        at += 1;
    }
}

// A Drain of each connection for which a thought made something ready.
fn drain_named<L: Lines, M>(lines: &L, kinds: &mut Vec<NodeEventKind<M>>, note: &Note<M>)
where
    M: Drop,
    ensures adds { AddsHarmless (L.sees lines.now) kinds.old.items kinds.new.items }
{
    match &note.thought {
        Some(thought) => drain_all(lines, kinds, thought.ready.as_slice()),
        None => {}
    }
}

// A Drain of each connection for which one of these thoughts made something ready.
fn drain_notes<L: Lines, M>(lines: &L, kinds: &mut Vec<NodeEventKind<M>>, notes: &[Note<M>])
where
    M: Drop,
    ensures adds { AddsHarmless (L.sees lines.now) kinds.old.items kinds.new.items }
{
    let mut at = 0;
    while at < notes.len() {
        drain_named(lines, kinds, &notes[at]);
        at += 1;
    }
}

// A Beat, where the followers lack something.
fn add_beat<M>(kinds: &mut Vec<NodeEventKind<M>>, told: &Told)
where
    M: Drop,
    ensures adds { (o : Outside) → AddsHarmless o kinds.old.items kinds.new.items }
{
    if !told.wants_beat() {
        return;
    }
    if kinds.reserve(1).is_ok() {
        kinds.push_reserved(NodeEventKind::Beat);
    }
}

/// The events behind the commits, where these thoughts came before, and these connections can take something again.
pub(crate) fn plan_behind<L: Lines, M>(
    alloc: Global,
    lines: &L,
    told: &Told,
    notes: &[Note<M>],
    free: &[u64],
) -> Vec<NodeEventKind<M>>
where
    M: Drop,
    ensures { Harmless (L.sees lines.now) result.items }
{
    let mut kinds = Vec::new(alloc);
    add_beat(&mut kinds, told);
    drain_notes(lines, &mut kinds, notes);
    drain_all(lines, &mut kinds, free);
    kinds
}
