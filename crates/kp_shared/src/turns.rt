// A worker's turn: events that are thought one behind the other, and one flush behind them.
ghost use Rattle.std.specs.Prelude.{◌≡◌, MatchResult};
ghost use Rattle.kp_shared.specs.declared.plan.Step.TheVariants.{Commits, Event, MaybeBeat, MaybeCommits};
ghost use Rattle.kp_shared.specs.Nodes.{IsNodeTurn};
ghost use Rattle.kp_shared.specs.Tasks.{is_none_left};
ghost use Rattle.kp_shared.specs.Turns.{KeepTells, MoreTells, OneTells, PlanTells, StepTells, TurnBroken, TurnDone};

use crate::kept::{Kept, Served};
use crate::plan::Step;
use crate::refusal::Refusal;
use crate::thinking::{flush, think};
use crate::told::Told;
use kp_event::{KeptFail, NodeEventKind, Said, Standing, Thought};
use kp_io::Clock;
use kp_turn::{Turn, TurnSeat};
use std::alloc::Global;
use std::sync::Wait;

/// What a worker looks at of a thought before it is kept.
#[derive(Clone, Copy, Drop)]
pub struct Glance {
    /// Where the node stands.
    pub standing: Standing,

    /// Whether it was a CommitOne that found no further entry.
    pub none_left: bool,
}

// Whether a CommitOne found no further entry.
fn finds_none_left(said: &Said) -> bool
    ensures { result ≡ is_none_left said.now }
{
    match said {
        Said::Done(None) => true,
        _ => false,
    }
}

// Looks at a thought.
fn glance_at<M>(thought: &Thought<(u8, M)>) -> Glance
    ensures { result.none_left ≡ is_none_left thought.now.said }
{
    Glance {
        standing: thought.standing,
        none_left: finds_none_left(&thought.said),
    }
}

// Thinks one more event. Memory for it is found first.
fn think_more<R: Wait, K: Kept, C: Clock>(
    rt: &R,
    turn: &Turn<Served<K>>,
    seat: &mut TurnSeat<Served<K>>,
    clock: &C,
    kind: NodeEventKind<K::Mail>,
    batch: &mut Vec<Thought<(u8, K::Mail)>>,
) -> Result<Glance, Refusal>
    requires { IsNodeTurn (λ s. K.life s.kept) turn.now seat.old }
    ensures seat { IsNodeTurn (λ s. K.life s.kept) turn.now seat.new }
    ensures tells { MoreTells (C.may clock.now) batch.old.items batch.new.items seat.old seat.new kind result }
{
    if batch.reserve(1).is_err() {
        drop(kind);
        return Err(Refusal::Failed(KeptFail::NoMemory));
    }
    match think(rt, turn, seat, clock, kind) {
        Ok(thought) => {
            let glance = glance_at(&thought);
            batch.push_reserved(thought);
            Ok(glance)
        }
        Err(refusal) => Err(refusal),
    }
}

// Takes commits until none is left.
fn commit_more<R: Wait, K: Kept, C: Clock>(
    rt: &R,
    turn: &Turn<Served<K>>,
    seat: &mut TurnSeat<Served<K>>,
    clock: &C,
    batch: &mut Vec<Thought<(u8, K::Mail)>>,
) -> Result<Standing, Refusal>
    requires { IsNodeTurn (λ s. K.life s.kept) turn.now seat.old }
    ensures seat { IsNodeTurn (λ s. K.life s.kept) turn.now seat.new }
    ensures tells { StepTells (C.may clock.now) batch.old.items batch.new.items seat.old seat.new Commits result }
{
    for _ in rt.forever() {
        match think_more(rt, turn, seat, clock, NodeEventKind::CommitOne, batch) {
            Ok(glance) => {
                if glance.none_left {
                    return Ok(glance.standing);
                }
            }
            Err(refusal) => return Err(refusal),
        }
    }
    unreachable!()
}

// Takes a step of commits.
fn take_commits<R: Wait, K: Kept, C: Clock>(
    rt: &R,
    turn: &Turn<Served<K>>,
    seat: &mut TurnSeat<Served<K>>,
    clock: &C,
    told: &mut Told,
    batch: &mut Vec<Thought<(u8, K::Mail)>>,
) -> Result<(), Refusal>
    requires { IsNodeTurn (λ s. K.life s.kept) turn.now seat.old }
    ensures seat { IsNodeTurn (λ s. K.life s.kept) turn.now seat.new }
    ensures tells { StepTells (C.may clock.now) batch.old.items batch.new.items seat.old seat.new Commits result }
{
    match commit_more(rt, turn, seat, clock, batch) {
        Ok(standing) => {
            told.sees_applied(standing);
            Ok(())
        }
        Err(refusal) => Err(refusal),
    }
}

// Takes a step of one event.
fn take_event<R: Wait, K: Kept, C: Clock>(
    rt: &R,
    turn: &Turn<Served<K>>,
    seat: &mut TurnSeat<Served<K>>,
    clock: &C,
    told: &mut Told,
    kind: NodeEventKind<K::Mail>,
    batch: &mut Vec<Thought<(u8, K::Mail)>>,
) -> Result<(), Refusal>
    requires { IsNodeTurn (λ s. K.life s.kept) turn.now seat.old }
    ensures seat { IsNodeTurn (λ s. K.life s.kept) turn.now seat.new }
    ensures tells { StepTells (C.may clock.now) batch.old.items batch.new.items seat.old seat.new (Event kind) result }
{
    let beat = matches!(&kind, NodeEventKind::Beat);
    match think_more(rt, turn, seat, clock, kind, batch) {
        Ok(glance) => {
            told.sees(glance.standing, beat);
            Ok(())
        }
        Err(refusal) => Err(refusal),
    }
}

// Takes a step of commits where it is worth while.
fn maybe_commits<R: Wait, K: Kept, C: Clock>(
    rt: &R,
    turn: &Turn<Served<K>>,
    seat: &mut TurnSeat<Served<K>>,
    clock: &C,
    told: &mut Told,
    batch: &mut Vec<Thought<(u8, K::Mail)>>,
) -> Result<(), Refusal>
    requires { IsNodeTurn (λ s. K.life s.kept) turn.now seat.old }
    ensures seat { IsNodeTurn (λ s. K.life s.kept) turn.now seat.new }
    ensures tells { StepTells (C.may clock.now) batch.old.items batch.new.items seat.old seat.new MaybeCommits result }
{
    if told.wants_commits() {
        return take_commits(rt, turn, seat, clock, told, batch);
    }
    Ok(())
}

// Takes a Beat where it is worth while.
fn maybe_beat<R: Wait, K: Kept, C: Clock>(
    rt: &R,
    turn: &Turn<Served<K>>,
    seat: &mut TurnSeat<Served<K>>,
    clock: &C,
    told: &mut Told,
    batch: &mut Vec<Thought<(u8, K::Mail)>>,
) -> Result<(), Refusal>
    requires { IsNodeTurn (λ s. K.life s.kept) turn.now seat.old }
    ensures seat { IsNodeTurn (λ s. K.life s.kept) turn.now seat.new }
    ensures tells { StepTells (C.may clock.now) batch.old.items batch.new.items seat.old seat.new MaybeBeat result }
{
    if told.wants_beat() {
        return take_event(rt, turn, seat, clock, told, NodeEventKind::Beat, batch);
    }
    Ok(())
}

// Takes one step.
fn take_step<R: Wait, K: Kept, C: Clock>(
    rt: &R,
    turn: &Turn<Served<K>>,
    seat: &mut TurnSeat<Served<K>>,
    clock: &C,
    told: &mut Told,
    step: Step<K::Mail>,
    batch: &mut Vec<Thought<(u8, K::Mail)>>,
) -> Result<(), Refusal>
    requires { IsNodeTurn (λ s. K.life s.kept) turn.now seat.old }
    ensures seat { IsNodeTurn (λ s. K.life s.kept) turn.now seat.new }
    ensures tells { StepTells (C.may clock.now) batch.old.items batch.new.items seat.old seat.new step result }
{
    match step {
        Step::Event(kind) => take_event(rt, turn, seat, clock, told, kind, batch),
        Step::Commits => take_commits(rt, turn, seat, clock, told, batch),
        Step::MaybeCommits => maybe_commits(rt, turn, seat, clock, told, batch),
        Step::MaybeBeat => maybe_beat(rt, turn, seat, clock, told, batch),
    }
}

/// Takes these steps, one behind the other. Nothing of them may leave before a flush.
pub fn think_plan<R: Wait, K: Kept, C: Clock>(
    rt: &R,
    turn: &Turn<Served<K>>,
    seat: &mut TurnSeat<Served<K>>,
    clock: &C,
    told: &mut Told,
    plan: Vec<Step<K::Mail>>,
    batch: &mut Vec<Thought<(u8, K::Mail)>>,
) -> Result<(), Refusal>
    requires { IsNodeTurn (λ s. K.life s.kept) turn.now seat.old }
    ensures seat { IsNodeTurn (λ s. K.life s.kept) turn.now seat.new }
    ensures tells { PlanTells (C.may clock.now) batch.old.items batch.new.items seat.old seat.new plan.items result }
{
    for step in plan {
        match take_step(rt, turn, seat, clock, told, step, batch) {
            Ok(()) => {}
            Err(refusal) => return Err(refusal),
        }
    }
    Ok(())
}

// Keeps what was thought.
fn keep_batch<R: Wait, K: Kept>(
    rt: &R,
    turn: &Turn<Served<K>>,
    seat: &mut TurnSeat<Served<K>>,
    batch: Vec<Thought<(u8, K::Mail)>>,
) -> Result<Vec<Thought<(u8, K::Mail)>>, Refusal>
    requires { IsNodeTurn (λ s. K.life s.kept) turn.now seat.old }
    ensures seat { IsNodeTurn (λ s. K.life s.kept) turn.now seat.new }
    ensures tells { KeepTells batch result seat.old seat.new }
{
    match flush(rt, turn, seat) {
        Ok(_) => Ok(batch),
        Err(refusal) => {
            drop(batch);
            Err(refusal)
        }
    }
}

// Keeps a thought, with all that were thought before.
fn keep_one<R: Wait, K: Kept>(
    rt: &R,
    turn: &Turn<Served<K>>,
    seat: &mut TurnSeat<Served<K>>,
    thought: Thought<(u8, K::Mail)>,
) -> Result<Thought<(u8, K::Mail)>, Refusal>
    requires { IsNodeTurn (λ s. K.life s.kept) turn.now seat.old }
    ensures seat { IsNodeTurn (λ s. K.life s.kept) turn.now seat.new }
    ensures tells { KeepTells thought result seat.old seat.new }
{
    match flush(rt, turn, seat) {
        Ok(_) => Ok(thought),
        Err(refusal) => {
            drop(thought);
            Err(refusal)
        }
    }
}

/// Thinks one event, and keeps it with all that were thought before. The thought may leave.
pub fn think_kept<R: Wait, K: Kept, C: Clock>(
    rt: &R,
    turn: &Turn<Served<K>>,
    seat: &mut TurnSeat<Served<K>>,
    clock: &C,
    kind: NodeEventKind<K::Mail>,
) -> Result<Thought<(u8, K::Mail)>, Refusal>
    requires { IsNodeTurn (λ s. K.life s.kept) turn.now seat.old }
    ensures seat { IsNodeTurn (λ s. K.life s.kept) turn.now seat.new }
    ensures tells { OneTells (C.may clock.now) seat.old seat.new kind result }
{
    match think(rt, turn, seat, clock, kind) {
        Ok(thought) => keep_one(rt, turn, seat, thought),
        Err(refusal) => Err(refusal),
    }
}

/// Takes these steps, one behind the other, and keeps them all by one flush. The answer is their thoughts, which may leave.
pub fn make_turn<R: Wait, K: Kept, C: Clock>(
    rt: &R,
    alloc: Global,
    turn: &Turn<Served<K>>,
    seat: &mut TurnSeat<Served<K>>,
    clock: &C,
    told: &mut Told,
    plan: Vec<Step<K::Mail>>,
) -> Result<Vec<Thought<(u8, K::Mail)>>, Refusal>
    requires { IsNodeTurn (λ s. K.life s.kept) turn.now seat.old }
    ensures seat { IsNodeTurn (λ s. K.life s.kept) turn.now seat.new }
    ensures tells { MatchResult result (λ thoughts. TurnDone (C.may clock.now) seat.old seat.new plan.items thoughts.items) (λ refusal. TurnBroken (C.may clock.now) seat.old seat.new plan.items refusal) }
{
    let mut batch = Vec::new(alloc);
    match think_plan(rt, turn, seat, clock, told, plan, &mut batch) {
        Ok(()) => keep_batch(rt, turn, seat, batch),
        Err(refusal) => {
            drop(batch);
            Err(refusal)
        }
    }
}
