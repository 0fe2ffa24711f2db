//! What a multi does: all of its operations, each on the nodes behind those before it, or nothing where one fails.

ghost use Rattle.std.specs.Prelude.{◌≡◌, ◌-◌, ◌++◌, [], ℕ, Some, None, replicate, IfOk, OnOk, IsTrue, MatchResult};
ghost use Rattle.std.specs.List.{list_all};
ghost use Rattle.std.specs.FinMap as map;
ghost use Rattle.kp_model.specs.Good.{IsGood};
ghost use Rattle.kp_model.specs.Grammar.{fits_cmd, fits_op};
ghost use Rattle.kp_model.specs.State.{Nodes};
ghost use Rattle.kp_model.specs.Step.{error_of, op_reply, failure, with_seq};
ghost use Rattle.kp_model.specs.Step as step;
ghost use Rattle.kp_model.specs.Touched.{path_of_op, touched_at};
ghost use Rattle.kp_model.specs.declared.command.Cmd.TheVariants as cmd;
ghost use Rattle.kp_model.specs.declared.entry.Body.TheVariants as body;
ghost use Rattle.kp_draft.specs.Behind.{IsBehind, Tells};
ghost use Rattle.kp_act.specs.Effects.{IsFit};
ghost use Rattle.kp_act.specs.Looks.{HavePlaces};
ghost use Rattle.kp_draft.specs.Multis.{Adds, IsStep, IsEnd, multi_plan};
ghost use Rattle.kp_act.specs.Plans.{IsPlan, session_plan};
ghost use Rattle.kp_act.specs.Several.{effected_nodes_by};

use crate::behind::{add, look_behind};
use crate::draft::{Draft, blank};
use kp_act::{Act, Effects, Plan, Prepared, Stamp, act_on};
use kp_model::{Acls, Events, Items, NoMemory, Op, OpReply, Ops, Paths, Reply, Session, View};
use std::alloc::Global;
use std::collections::HashMap;

/// What the operations came to so far.
#[derive(Drop)]
pub struct Progress {
    pub draft: Draft,
    pub lists: HashMap<String, Option<Acls>>,
    pub answers: Items<OpReply>,
    pub events: Events,
}

/// What a multi of a session does, which has the number then, also where an operation fails.
pub fn multi<V: View>(
    alloc: Global,
    view: &V,
    stamp: Stamp,
    id: u64,
    session: &Session,
    seq: u64,
    ops: &Ops,
) -> Result<Plan, NoMemory>
    requires good { IsGood (V.state view.now) }
    requires fits { IsTrue (fits_cmd (cmd.Multi ops.now)) }
    requires live { Some session.now ≡ map.get (V.state view.now).sessions id }
    ensures { let s = V.state view.now in (epoch : ℕ) → IfOk result (IsPlan (touched_at s stamp.index stamp.time (body.Write id epoch seq (cmd.Multi ops.now))) s (step.act (record s { applied = stamp.index; sessions = map.insert s.sessions id (with_seq seq session.now) }) id session.now.ids stamp.index stamp.time (cmd.Multi ops.now))) }
{
    let mut progress = nothing(alloc);
    let ended = run(
        alloc,
        view,
        stamp,
        id,
        &session.ids,
        ops.as_slice(),
        &mut progress,
    );
    let Progress {
        draft,
        lists,
        answers,
        events,
    } = progress;
    let Draft { effects, kept } = draft;
    drop(kept);
    drop(lists);
    match ended {
        Err(refused) => Err(refused),
        Ok(end) => planned(
            alloc,
            id,
            session,
            seq,
            ops.len(),
            end,
            effects,
            answers,
            events,
        ),
    }
}

// No operation is done.
fn nothing(alloc: Global) -> Progress
    ensures effects { result.draft.effects ≡ [] }
    ensures answers { result.answers ≡ [] }
    ensures events { result.events ≡ [] }
    ensures behind { (nodes : Nodes) → IsBehind nodes result.draft.effects result.draft.kept.entries result.lists.entries }
{
    Progress {
        draft: blank(alloc),
        lists: HashMap::new(alloc),
        answers: Items::new(alloc),
        events: Events::new(alloc),
    }
}

// What a multi of so many operations does that came to this end.
fn planned(
    alloc: Global,
    id: u64,
    session: &Session,
    seq: u64,
    count: usize,
    end: Option<i32>,
    effects: Effects,
    answers: Items<OpReply>,
    events: Events,
) -> Result<Plan, NoMemory>
    ensures { IfOk result (λ p. p ≡ multi_plan id (with_seq seq session.now) count end effects answers events) }
{
    match end {
        None => all_done(alloc, id, session, seq, effects, answers, events),
        Some(code) => none_done(alloc, id, session, seq, count, answers.len(), code),
    }
}

// All operations are done, and had these answers, effects and events.
fn all_done(
    alloc: Global,
    id: u64,
    session: &Session,
    seq: u64,
    effects: Effects,
    answers: Items<OpReply>,
    events: Events,
) -> Result<Plan, NoMemory>
    ensures { IfOk result (λ p. p ≡ multi_plan id (with_seq seq session.now) 0 None effects answers events) }
{
    let session = raised(alloc, session, seq)?;
    Ok(Plan {
        prepared: Prepared {
            reply: Reply::Multi(answers),
            events,
        },
        session: Some((id, Some(session))),
        next: None,
        effects,
    })
}

// No operation is done, since one failed behind so many.
fn none_done(
    alloc: Global,
    id: u64,
    session: &Session,
    seq: u64,
    count: usize,
    before: usize,
    code: i32,
) -> Result<Plan, NoMemory>
    ensures { IfOk result (λ p. p ≡ session_plan id (with_seq seq session.now) (failure before code ((count - before) - 1))) }
{
    let behind = count.saturating_sub(before).saturating_sub(1);
    let reply = codes_of(alloc, before, code, behind)?;
    let kept = raised(alloc, session, seq)?;
    Ok(Plan {
        prepared: Prepared {
            reply,
            events: Events::new(alloc),
        },
        session: Some((id, Some(kept))),
        next: None,
        effects: Effects::new(alloc),
    })
}

// The session with its number raised.
fn raised(alloc: Global, session: &Session, seq: u64) -> Result<Session, NoMemory>
    ensures { IfOk result (λ x. x ≡ with_seq seq session.now) }
{
    let mut session = session.copy(alloc)?;
    session.seq = seq;
    Ok(session)
}

// Does the operations from left to right. The code of the first error ends it.
fn run<V: View>(
    alloc: Global,
    view: &V,
    stamp: Stamp,
    id: u64,
    ids: &Paths,
    ops: &[Op],
    progress: &mut Progress,
) -> Result<Option<i32>, NoMemory>
    requires places { HavePlaces (V.state view.now).nodes }
    requires fits { IsTrue (list_all fits_op ops.now) }
    requires behind { IsBehind (V.state view.now).nodes progress.old.draft.effects progress.old.draft.kept.entries progress.old.lists.entries }
    requires none { progress.old.draft.effects ≡ [] }
    requires unanswered { progress.old.answers ≡ [] }
    requires silent { progress.old.events ≡ [] }
    ensures { IfOk result (IsEnd (V.state view.now).nodes id ids.now stamp.index stamp.time ops.now progress.new.draft.effects progress.new.answers progress.new.events) }
{
    for op in ops {
        let end = step(alloc, view, stamp, id, ids, op, progress)?;
        if end.is_some() {
            return Ok(end);
        }
    }
    Ok(None)
}

// Does an operation on the nodes behind those before it, or tells the code of its error.
fn step<V: View>(
    alloc: Global,
    view: &V,
    stamp: Stamp,
    id: u64,
    ids: &Paths,
    op: &Op,
    progress: &mut Progress,
) -> Result<Option<i32>, NoMemory>
    requires places { HavePlaces (effected_nodes_by (V.state view.now).nodes progress.old.draft.effects) }
    requires fits { IsTrue (fits_op op.now) }
    requires behind { IsBehind (V.state view.now).nodes progress.old.draft.effects progress.old.draft.kept.entries progress.old.lists.entries }
    ensures behind { OnOk result (IsBehind (V.state view.now).nodes progress.new.draft.effects progress.new.draft.kept.entries progress.new.lists.entries) }
    ensures does { let nodes = effected_nodes_by (V.state view.now).nodes progress.old.draft.effects in IfOk result (IsStep (path_of_op nodes op.now) nodes (λ s. step.act_on s id ids.now stamp.index stamp.time op.now) progress.old.draft.effects progress.new.draft.effects progress.old.answers progress.new.answers progress.old.events progress.new.events) }
{
    let act = act_on(
        alloc,
        &look_behind(view, &progress.draft, &progress.lists),
        id,
        ids,
        stamp,
        op,
    )?;
    take(alloc, view, progress, act)
}

// Adds what an operation does, or tells the code of its error.
fn take<V: View>(
    alloc: Global,
    view: &V,
    progress: &mut Progress,
    act: Act,
) -> Result<Option<i32>, NoMemory>
    requires behind { IsBehind (V.state view.now).nodes progress.old.draft.effects progress.old.draft.kept.entries progress.old.lists.entries }
    requires tells { Tells (effected_nodes_by (V.state view.now).nodes progress.old.draft.effects) act.effect }
    requires fit { IsFit act.effect }
    ensures behind { OnOk result (IsBehind (V.state view.now).nodes progress.new.draft.effects progress.new.draft.kept.entries progress.new.lists.entries) }
    ensures error { IfOk result (λ o. error_of act.prepared.reply ≡ o) }
    ensures adds { IfOk result (Adds act progress.old.draft.effects progress.new.draft.effects progress.old.answers progress.new.answers progress.old.events progress.new.events) }
{
    let Act { prepared, effect } = act;
    let Prepared { reply, events } = prepared;
    match answer_of(reply) {
        Err(code) => Ok(Some(code)),
        Ok(answer) => {
            add(
                alloc,
                view,
                &mut progress.draft,
                &mut progress.lists,
                effect,
            )?;
            progress.answers.push(answer)?;
            append(&mut progress.events, events)?;
            Ok(None)
        }
    }
}

// What an operation is answered within a multi, or the code of its error.
fn answer_of(reply: Reply) -> Result<OpReply, i32>
    ensures { MatchResult result (λ answer. (error_of reply ≡ None) × (answer ≡ op_reply reply)) (λ code. error_of reply ≡ Some code) }
{
    match reply {
        Reply::Err(code) => Err(code),
        Reply::Path(path) => Ok(OpReply::Path(path)),
        Reply::PathStat(path, meta) => Ok(OpReply::PathStat(path, meta)),
        Reply::Stat(meta) => Ok(OpReply::Stat(meta)),
        Reply::Stale
        | Reply::Done
        | Reply::Session(_)
        | Reply::Epoch(_)
        | Reply::Multi(_)
        | Reply::Failed(_) => Ok(OpReply::Done),
    }
}

// Moves the events of an operation behind those before it.
fn append(events: &mut Events, more: Events) -> Result<(), NoMemory>
    ensures { OnOk result (events.new ≡ events.old ++ more) }
{
    for event in more.into_vec() {
        events.push(event)?;
    }
    Ok(())
}

// The codes of a multi of which an operation failed: 0 for each before it, its own, and -2 for each behind it.
fn codes_of(alloc: Global, before: usize, code: i32, behind: usize) -> Result<Reply, NoMemory>
    ensures { IfOk result (λ r. r ≡ failure before code behind) }
{
    let mut codes: Items<i32> = Items::new(alloc);
    push_times(&mut codes, 0, before)?;
    codes.push(code)?;
    push_times(&mut codes, -2, behind)?;
    Ok(Reply::Failed(codes))
}

// Adds a code so many times.
fn push_times(codes: &mut Items<i32>, code: i32, times: usize) -> Result<(), NoMemory>
    ensures { OnOk result (codes.new ≡ codes.old ++ replicate times code) }
{
    for done in 0..times {
        codes.push(code)?;
    }
    Ok(())
}
