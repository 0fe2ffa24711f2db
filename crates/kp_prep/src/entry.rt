//! What an entry does.

ghost use Rattle.std.specs.Prelude.{◌≡◌, ◌+◌, ◌==◌, ◌&&◌, ℕ, Some, IfOk, IsTrue};
ghost use Rattle.std.specs.FinMap as map;
ghost use Rattle.kp_model.specs.Grammar.{fits_cmd};
ghost use Rattle.kp_model.specs.Good.{IsGood};
ghost use Rattle.kp_model.specs.Step as step;
ghost use Rattle.kp_model.specs.Step.{apply, expired, written_by, with_seq};
ghost use Rattle.kp_model.specs.Touched.{touched, touched_by, touched_at};
ghost use Rattle.kp_model.specs.declared.entry.Body.TheVariants as body;
ghost use Rattle.kp_act.specs.Effects.{is_on_node};
ghost use Rattle.kp_act.specs.Plans.{IsPlan};
ghost use Rattle.kp_prep.specs.Entries.{acting_plan};

use kp_act::{Act, Effects, OfView, Plan, Stamp, act, answer, attach, open, show};
use kp_draft::{close, multi};
use kp_model::errors::SESSION_EXPIRED;
use kp_model::{Body, Cmd, Entry, NoMemory, Reply, Session, View};
use std::alloc::Global;

/// What an entry of this index does, on a state whose applied index is the one before.
pub(crate) fn plan<V: View>(
    alloc: Global,
    view: &V,
    index: u64,
    entry: &Entry,
) -> Result<Plan, NoMemory>
    requires good { IsGood (V.state view.now) }
    requires next { (V.state view.now).applied + 1 ≡ index }
    ensures { IfOk result (IsPlan (touched (V.state view.now) entry.now) (V.state view.now) (apply (V.state view.now) entry.now)) }
{
    let stamp = Stamp {
        index,
        time: entry.time,
    };
    match &entry.body {
        Body::Noop => Ok(answer(alloc, Reply::Done)),
        Body::OpenSession {
            timeout,
            passwd,
            origin,
        } => Ok(open(alloc, view, *timeout, *passwd, *origin)),
        Body::Write {
            session,
            epoch,
            seq,
            cmd,
        } => write(alloc, view, stamp, *session, *epoch, *seq, cmd),
        Body::Attach {
            session,
            passwd,
            origin,
        } => attach(alloc, view, *session, *passwd, *origin),
        Body::Expire { session } => expire(alloc, view, index, *session),
    }
}

// What the end of a session that wasn't heard does.
fn expire<V: View>(alloc: Global, view: &V, index: u64, id: u64) -> Result<Plan, NoMemory>
    requires good { IsGood (V.state view.now) }
    ensures { let s = V.state view.now in (applied : ℕ) → IfOk result (IsPlan (touched_by s (body.Expire id)) s (expired (map.get s.sessions id) (record s { applied = applied }) index id)) }
{
    match view.session(id) {
        None => Ok(answer(alloc, Reply::Stale)),
        Some(_) => close(alloc, view, index, id),
    }
}

// What a write of a session does.
fn write<V: View>(
    alloc: Global,
    view: &V,
    stamp: Stamp,
    id: u64,
    epoch: u64,
    seq: u64,
    cmd: &Cmd,
) -> Result<Plan, NoMemory>
    requires good { IsGood (V.state view.now) }
    requires fits { IsTrue (fits_cmd cmd.now) }
    ensures { let s = V.state view.now in IfOk result (IsPlan (touched_at s stamp.index stamp.time (body.Write id epoch seq cmd.now)) s (written_by (map.get s.sessions id) (record s { applied = stamp.index }) stamp.index stamp.time id epoch seq cmd.now)) }
{
    match view.session(id) {
        None => Ok(answer(alloc, Reply::Err(SESSION_EXPIRED))),
        Some(session) => write_of(alloc, view, stamp, id, session, epoch, seq, cmd),
    }
}

// What a write of this session does.
fn write_of<V: View>(
    alloc: Global,
    view: &V,
    stamp: Stamp,
    id: u64,
    session: &Session,
    epoch: u64,
    seq: u64,
    cmd: &Cmd,
) -> Result<Plan, NoMemory>
    requires good { IsGood (V.state view.now) }
    requires fits { IsTrue (fits_cmd cmd.now) }
    requires live { Some session.now ≡ map.get (V.state view.now).sessions id }
    ensures { let s = V.state view.now in IfOk result (IsPlan (touched_at s stamp.index stamp.time (body.Write id epoch seq cmd.now)) s (written_by (Some session.now) (record s { applied = stamp.index }) stamp.index stamp.time id epoch seq cmd.now)) }
{
    let due = is_due(session, epoch, seq);
    if due {
        acted(alloc, view, stamp, id, session, seq, cmd)
    } else {
        Ok(answer(alloc, Reply::Stale))
    }
}

// Whether a write is of the session's epoch and the next by its number.
fn is_due(session: &Session, epoch: u64, seq: u64) -> bool
    ensures { result ≡ (epoch == session.now.epoch && seq == session.now.seq + 1) }
{
    epoch == session.epoch && follows(session.seq, seq)
}

// Whether a number is one more than another.
fn follows(last: u64, seq: u64) -> bool
    ensures { result ≡ (seq == last + 1) }
{
    seq != 0 && seq - 1 == last
}

// The session has the number, and its command acts.
fn acted<V: View>(
    alloc: Global,
    view: &V,
    stamp: Stamp,
    id: u64,
    session: &Session,
    seq: u64,
    cmd: &Cmd,
) -> Result<Plan, NoMemory>
    requires good { IsGood (V.state view.now) }
    requires fits { IsTrue (fits_cmd cmd.now) }
    requires live { Some session.now ≡ map.get (V.state view.now).sessions id }
    ensures { let s = V.state view.now in (epoch : ℕ) → IfOk result (IsPlan (touched_at s stamp.index stamp.time (body.Write id epoch seq cmd.now)) s (step.act (record s { applied = stamp.index; sessions = map.insert s.sessions id (with_seq seq session.now) }) id session.now.ids stamp.index stamp.time cmd.now)) }
{
    match cmd {
        Cmd::Auth { scheme, auth } => show(alloc, id, session, seq, scheme, auth),
        Cmd::CloseSession => close(alloc, view, stamp.index, id),
        Cmd::Multi { ops } => multi(alloc, view, stamp, id, session, seq, ops),
        _ => acted_on_node(alloc, view, stamp, id, session, seq, cmd),
    }
}

// The same of a command that looks at one node.
fn acted_on_node<V: View>(
    alloc: Global,
    view: &V,
    stamp: Stamp,
    id: u64,
    session: &Session,
    seq: u64,
    cmd: &Cmd,
) -> Result<Plan, NoMemory>
    requires good { IsGood (V.state view.now) }
    requires fits { IsTrue (fits_cmd cmd.now) }
    requires node { IsTrue (is_on_node cmd.now) }
    ensures { let s = V.state view.now in (epoch : ℕ) → IfOk result (IsPlan (touched_at s stamp.index stamp.time (body.Write id epoch seq cmd.now)) s (step.act (record s { applied = stamp.index; sessions = map.insert s.sessions id (with_seq seq session.now) }) id session.now.ids stamp.index stamp.time cmd.now)) }
{
    match act(alloc, &OfView { view }, id, &session.ids, stamp, cmd) {
        Err(refused) => Err(refused),
        Ok(done) => done_by(alloc, id, session, seq, done),
    }
}

// An act of a session that has the number then.
fn done_by(alloc: Global, id: u64, session: &Session, seq: u64, done: Act) -> Result<Plan, NoMemory>
    ensures { IfOk result (λ p. p ≡ acting_plan id (with_seq seq session.now) done) }
{
    let mut session = session.copy(alloc)?;
    session.seq = seq;
    let Act { prepared, effect } = done;
    let mut effects = Effects::new(alloc);
    effects.push(effect)?;
    Ok(Plan {
        prepared,
        session: Some((id, Some(session))),
        next: None,
        effects,
    })
}
