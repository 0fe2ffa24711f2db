// Thinking the events of a turn, and keeping them.
ghost use Rattle.std.specs.Prelude.{◌≡◌, []};
ghost use Rattle.kp_shared.specs.Nodes.{IsNodeTurn};
ghost use Rattle.kp_shared.specs.Turns.{KeepTells};
ghost use Rattle.kp_worker.specs.Outside.{Outside};
ghost use Rattle.kp_worker.specs.Turns.{AllTells, BehindTells, CommitTells, FrontTells, KeptTells, MoreTells, OneTells, OpenTells};

use crate::lines::Lines;
use crate::note::Note;
use crate::noting::{ends_commits, mark_at};
use crate::pace::Pace;
use crate::planning::plan_behind;
use kp_event::{KeptFail, NodeEventKind, Thought};
use kp_io::Clock;
use kp_shared::{Kept, Refusal, Served, Told, flush, think};
use kp_turn::{Turn, TurnSeat};
use std::alloc::Global;
use std::sync::Wait;

// Looks at a thought, to know when a Beat, a Timeout and a Snapshot are worth while.
fn look<M, P: Pace>(told: &mut Told, pace: &mut P, thought: &Thought<(u8, M)>, beat: bool) {
    told.sees(thought.standing, beat);
    pace.sees(&thought.said, thought.standing);
}

// Thinks an event. Where the node has no memory for it, it is left out.
fn think_one<R: Wait, K: Kept, C: Clock, P: Pace>(
    rt: &R,
    turn: &Turn<Served<K>>,
    seat: &mut TurnSeat<Served<K>>,
    clock: &C,
    told: &mut Told,
    pace: &mut P,
    kind: NodeEventKind<K::Mail>,
) -> Result<Note<K::Mail>, Refusal>
    requires { IsNodeTurn (λ s. K.life s.kept) turn.now seat.old }
    ensures seat { IsNodeTurn (λ s. K.life s.kept) turn.now seat.new }
    ensures tells { OneTells (C.may clock.now) seat.old seat.new kind result }
{
    let mark = mark_at(&kind);
    let beat = matches!(&kind, NodeEventKind::Beat);
    match think(rt, turn, seat, clock, kind) {
        Ok(thought) => {
            look(told, pace, &thought, beat);
            Ok(Note {
                mark,
                thought: Some(thought),
            })
        }
        Err(Refusal::Failed(KeptFail::NoMemory)) => Ok(Note {
            mark,
            thought: None,
        }),
        Err(refusal) => Err(refusal),
    }
}

// Thinks an event behind others. The answer is whether no commit comes behind it.
fn think_more<R: Wait, K: Kept, C: Clock, P: Pace>(
    rt: &R,
    turn: &Turn<Served<K>>,
    seat: &mut TurnSeat<Served<K>>,
    clock: &C,
    told: &mut Told,
    pace: &mut P,
    kind: NodeEventKind<K::Mail>,
    notes: &mut Vec<Note<K::Mail>>,
) -> Result<bool, Refusal>
    requires { IsNodeTurn (λ s. K.life s.kept) turn.now seat.old }
    ensures seat { IsNodeTurn (λ s. K.life s.kept) turn.now seat.new }
    ensures tells { MoreTells (C.may clock.now) seat.old seat.new notes.old.items notes.new.items kind result }
{
    if notes.reserve(1).is_err() {
        drop(kind);
        return Err(Refusal::Failed(KeptFail::NoMemory));
    }
    match think_one(rt, turn, seat, clock, told, pace, kind) {
        Ok(note) => {
            let ends = ends_commits(&note);
            notes.push_reserved(note);
            Ok(ends)
        }
        Err(refusal) => Err(refusal),
    }
}

// Thinks these events, one behind the other.
fn think_all<R: Wait, K: Kept, C: Clock, P: Pace>(
    rt: &R,
    turn: &Turn<Served<K>>,
    seat: &mut TurnSeat<Served<K>>,
    clock: &C,
    told: &mut Told,
    pace: &mut P,
    kinds: Vec<NodeEventKind<K::Mail>>,
    notes: &mut Vec<Note<K::Mail>>,
) -> Result<(), Refusal>
    requires { IsNodeTurn (λ s. K.life s.kept) turn.now seat.old }
    ensures seat { IsNodeTurn (λ s. K.life s.kept) turn.now seat.new }
    ensures tells { AllTells (C.may clock.now) seat.old seat.new notes.old.items notes.new.items kinds.items result }
{
    for kind in kinds {
        match think_more(rt, turn, seat, clock, told, pace, kind, notes) {
            Ok(_) => {}
            Err(refusal) => return Err(refusal),
        }
    }
    Ok(())
}

// Takes commits until none is left.
fn commit_all<R: Wait, K: Kept, C: Clock, P: Pace>(
    rt: &R,
    turn: &Turn<Served<K>>,
    seat: &mut TurnSeat<Served<K>>,
    clock: &C,
    told: &mut Told,
    pace: &mut P,
    notes: &mut Vec<Note<K::Mail>>,
) -> Result<(), Refusal>
    requires { IsNodeTurn (λ s. K.life s.kept) turn.now seat.old }
    ensures seat { IsNodeTurn (λ s. K.life s.kept) turn.now seat.new }
    ensures tells { CommitTells (C.may clock.now) seat.old seat.new notes.old.items notes.new.items result }
{
    for _ in rt.forever() {
        match think_more(
            rt,
            turn,
            seat,
            clock,
            told,
            pace,
            NodeEventKind::CommitOne,
            notes,
        ) {
            Ok(ends) => {
                if ends {
                    return Ok(());
                }
            }
            Err(refusal) => return Err(refusal),
        }
    }
    unreachable!()
}

// Thinks what came, and takes commits until none is left.
fn think_front<R: Wait, K: Kept, C: Clock, P: Pace>(
    rt: &R,
    turn: &Turn<Served<K>>,
    seat: &mut TurnSeat<Served<K>>,
    clock: &C,
    told: &mut Told,
    pace: &mut P,
    kinds: Vec<NodeEventKind<K::Mail>>,
    notes: &mut Vec<Note<K::Mail>>,
) -> Result<(), Refusal>
    requires turn { IsNodeTurn (λ s. K.life s.kept) turn.now seat.old }
    requires none { notes.old.items ≡ [] }
    ensures seat { IsNodeTurn (λ s. K.life s.kept) turn.now seat.new }
    ensures tells { (o : Outside) → FrontTells (C.may clock.now) seat.old seat.new o kinds.items notes.new.items result }
{
    match think_all(rt, turn, seat, clock, told, pace, kinds, notes) {
        Ok(()) => commit_all(rt, turn, seat, clock, told, pace, notes),
        Err(refusal) => Err(refusal),
    }
}

// Thinks a Beat where it is worth while, and drains the connections that have something.
fn think_behind<R: Wait, K: Kept, L: Lines, C: Clock, P: Pace>(
    rt: &R,
    alloc: Global,
    turn: &Turn<Served<K>>,
    seat: &mut TurnSeat<Served<K>>,
    lines: &L,
    clock: &C,
    told: &mut Told,
    pace: &mut P,
    free: &[u64],
    notes: &mut Vec<Note<K::Mail>>,
) -> Result<(), Refusal>
    requires { IsNodeTurn (λ s. K.life s.kept) turn.now seat.old }
    ensures seat { IsNodeTurn (λ s. K.life s.kept) turn.now seat.new }
    ensures tells { BehindTells (C.may clock.now) seat.old seat.new (L.sees lines.now) notes.old.items notes.new.items result }
{
    let kinds = plan_behind(alloc, lines, told, notes.as_slice(), free);
    think_all(rt, turn, seat, clock, told, pace, kinds, notes)
}

// Thinks all events of a turn.
fn think_open<R: Wait, K: Kept, L: Lines, C: Clock, P: Pace>(
    rt: &R,
    alloc: Global,
    turn: &Turn<Served<K>>,
    seat: &mut TurnSeat<Served<K>>,
    lines: &L,
    clock: &C,
    told: &mut Told,
    pace: &mut P,
    free: &[u64],
    kinds: Vec<NodeEventKind<K::Mail>>,
    notes: &mut Vec<Note<K::Mail>>,
) -> Result<(), Refusal>
    requires turn { IsNodeTurn (λ s. K.life s.kept) turn.now seat.old }
    requires none { notes.old.items ≡ [] }
    ensures seat { IsNodeTurn (λ s. K.life s.kept) turn.now seat.new }
    ensures tells { OpenTells (C.may clock.now) seat.old seat.new (L.sees lines.now) kinds.items notes.new.items result }
{
    match think_front(rt, turn, seat, clock, told, pace, kinds, notes) {
        Ok(()) => think_behind(rt, alloc, turn, seat, lines, clock, told, pace, free, notes),
        Err(refusal) => Err(refusal),
    }
}

// Keeps what was thought.
fn keep<R: Wait, K: Kept>(
    rt: &R,
    turn: &Turn<Served<K>>,
    seat: &mut TurnSeat<Served<K>>,
    notes: Vec<Note<K::Mail>>,
) -> Result<Vec<Note<K::Mail>>, Refusal>
    requires { IsNodeTurn (λ s. K.life s.kept) turn.now seat.old }
    ensures seat { IsNodeTurn (λ s. K.life s.kept) turn.now seat.new }
    ensures tells { KeepTells notes result seat.old seat.new }
{
    match flush(rt, turn, seat) {
        Ok(_) => Ok(notes),
        Err(refusal) => {
            drop(notes);
            Err(refusal)
        }
    }
}

/// Thinks a turn: what came, commits until none is left, a Beat where it is worth while, and a Drain of each connection that has
/// something; and keeps it all by one flush. The answer is what may leave.
pub(crate) fn think_turn<R: Wait, K: Kept, L: Lines, C: Clock, P: Pace>(
    rt: &R,
    alloc: Global,
    turn: &Turn<Served<K>>,
    seat: &mut TurnSeat<Served<K>>,
    lines: &L,
    clock: &C,
    told: &mut Told,
    pace: &mut P,
    free: &[u64],
    kinds: Vec<NodeEventKind<K::Mail>>,
) -> Result<Vec<Note<K::Mail>>, Refusal>
    requires { IsNodeTurn (λ s. K.life s.kept) turn.now seat.old }
    ensures seat { IsNodeTurn (λ s. K.life s.kept) turn.now seat.new }
    ensures tells { KeptTells (C.may clock.now) seat.old seat.new (λ v. v.items) (L.sees lines.now) kinds.items result }
{
    let mut notes = Vec::new(alloc);
    match think_open(
        rt, alloc, turn, seat, lines, clock, told, pace, free, kinds, &mut notes,
    ) {
        Ok(()) => keep(rt, turn, seat, notes),
        Err(refusal) => {
            drop(notes);
            Err(refusal)
        }
    }
}
