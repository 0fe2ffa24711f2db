//! What is done with sessions: openings, takings over, and ids that are shown.

ghost use Rattle.std.specs.Prelude.{◌≡◌, ◌+◌, ◌||◌, ◌<◌, ℕ, List, nat_le, Some, IfOk, OnOk};
ghost use Rattle.kp_model.specs.Limits.{last_number};
ghost use Rattle.std.specs.List.{list_any};
ghost use Rattle.std.specs.Str.{bytes_eq};
ghost use Rattle.std.specs.FinMap as map;
ghost use Rattle.kp_model.specs.Errors.{auth_failed};
ghost use Rattle.kp_model.specs.State.{State, is_held};
ghost use Rattle.kp_model.specs.Step as step;
ghost use Rattle.kp_model.specs.Step.{opened, attached_to, joined, new_session, taken_over, with_seq, with_id, shown_id};
ghost use Rattle.kp_model.specs.Touched.{touched_by, touched_in};
ghost use Rattle.kp_model.specs.declared.command.Cmd.TheVariants as cmd;
ghost use Rattle.kp_model.specs.declared.entry.Body.TheVariants as body;
ghost use Rattle.kp_model.specs.declared.reply.Reply.TheVariants as reply;
ghost use Rattle.kp_act.specs.Plans.{IsPlan, answer_plan, opening_plan, session_plan};

use crate::plan::{Effects, Plan, Prepared};
use kp_acl::{AclFail, digest_id};
use kp_model::errors::{AUTH_FAILED, SESSION_EXPIRED};
use kp_model::limits::LAST_NUMBER;
use kp_model::{Bytes, Events, Items, NoMemory, Origin, Reply, Session, Text, View};
use std::alloc::Global;

/// An answer, and nothing that is done.
pub fn answer(alloc: Global, reply: Reply) -> Plan
    ensures { result ≡ answer_plan reply }
{
    Plan {
        prepared: Prepared {
            reply,
            events: Events::new(alloc),
        },
        session: None,
        next: None,
        effects: Effects::new(alloc),
    }
}

/// What opening a session does.
pub fn open<V: View>(
    alloc: Global,
    view: &V,
    timeout: u32,
    passwd: [u8; 16],
    origin: Origin,
) -> Plan
    ensures { let s = V.state view.now in (applied : ℕ) → IsPlan (touched_by s (body.OpenSession timeout passwd origin)) s (opened (record s { applied = applied }) timeout passwd origin) result }
{
    let late = is_late(view, &origin);
    if late {
        answer(alloc, Reply::Stale)
    } else {
        opening(alloc, view.next_session(), timeout, passwd, origin)
    }
}

// Whether no session is opened: the origin holds one, or no number is left.
fn is_late<V: View>(view: &V, origin: &Origin) -> bool
    ensures { result ≡ (is_held (V.state view.now).sessions origin.now || nat_le last_number (V.state view.now).next) }
{
    view.holds(origin) || view.next_session() >= LAST_NUMBER
}

// A session is opened under this number.
fn opening(alloc: Global, id: u64, timeout: u32, passwd: [u8; 16], origin: Origin) -> Plan
    requires { id < last_number }
    ensures { result ≡ opening_plan id (new_session timeout passwd origin) }
{
    Plan {
        prepared: Prepared {
            reply: Reply::Session(id),
            events: Events::new(alloc),
        },
        session: Some((
            id,
            Some(Session {
                timeout,
                passwd,
                epoch: 1,
                seq: 0,
                ids: Items::new(alloc),
                holder: origin,
            }),
        )),
        next: Some(id + 1),
        effects: Effects::new(alloc),
    }
}

/// What taking a session over does.
pub fn attach<V: View>(
    alloc: Global,
    view: &V,
    id: u64,
    passwd: [u8; 16],
    origin: Origin,
) -> Result<Plan, NoMemory>
    ensures { let s = V.state view.now in (applied : ℕ) → IfOk result (IsPlan (touched_by s (body.Attach id passwd origin)) s (attached_to (map.get s.sessions id) (record s { applied = applied }) id passwd origin)) }
{
    match view.session(id) {
        None => Ok(answer(alloc, Reply::Err(SESSION_EXPIRED))),
        Some(session) => attach_to(alloc, view, id, session, passwd, origin),
    }
}

// What taking this session over does.
fn attach_to<V: View>(
    alloc: Global,
    view: &V,
    id: u64,
    session: &Session,
    passwd: [u8; 16],
    origin: Origin,
) -> Result<Plan, NoMemory>
    ensures { let s = V.state view.now in (applied : ℕ) → IfOk result (IsPlan (touched_by s (body.Attach id passwd origin)) s (attached_to (Some session.now) (record s { applied = applied }) id passwd origin)) }
{
    let known = is_known(session, &passwd);
    if known {
        join(alloc, view, id, session, origin)
    } else {
        Ok(answer(alloc, Reply::Err(SESSION_EXPIRED)))
    }
}

// Whether the password is the session's.
fn is_known(session: &Session, passwd: &[u8; 16]) -> bool
    ensures { result ≡ bytes_eq session.now.passwd passwd.now }
{
    session.passwd.as_slice() == passwd.as_slice()
}

// What taking this session over does where its password was told.
fn join<V: View>(
    alloc: Global,
    view: &V,
    id: u64,
    session: &Session,
    origin: Origin,
) -> Result<Plan, NoMemory>
    ensures { let s = V.state view.now in (applied : ℕ) (passwd : List ℕ) → IfOk result (IsPlan (touched_by s (body.Attach id passwd origin)) s (joined session.now (record s { applied = applied }) id origin)) }
{
    let stale = is_stale(view, session, &origin);
    if stale {
        Ok(answer(alloc, Reply::Stale))
    } else {
        taken(alloc, id, session, origin)
    }
}

// Whether no session is taken over: the origin holds one, or no epoch is left.
fn is_stale<V: View>(view: &V, session: &Session, origin: &Origin) -> bool
    ensures { result ≡ (is_held (V.state view.now).sessions origin.now || nat_le last_number session.now.epoch) }
{
    view.holds(origin) || session.epoch >= LAST_NUMBER
}

// This origin takes the session over.
fn taken(alloc: Global, id: u64, session: &Session, origin: Origin) -> Result<Plan, NoMemory>
    requires { session.now.epoch < last_number }
    ensures { IfOk result (λ p. p ≡ session_plan id (taken_over origin session.now) (reply.Epoch (session.now.epoch + 1))) }
{
    let mut session = session.copy(alloc)?;
    session.epoch += 1;
    session.seq = 0;
    session.holder = origin;
    let reply = Reply::Epoch(session.epoch);
    Ok(renewed(alloc, id, session, reply))
}

// A session is set, and this is answered.
fn renewed(alloc: Global, id: u64, session: Session, reply: Reply) -> Plan
    ensures { result ≡ session_plan id session reply }
{
    Plan {
        prepared: Prepared {
            reply,
            events: Events::new(alloc),
        },
        session: Some((id, Some(session))),
        next: None,
        effects: Effects::new(alloc),
    }
}

/// What showing an id does: the session has the number, and the id where it is one.
pub fn show(
    alloc: Global,
    id: u64,
    session: &Session,
    seq: u64,
    scheme: &Text,
    auth: &Bytes,
) -> Result<Plan, NoMemory>
    ensures { (s : State) (i t : ℕ) → IfOk result (IsPlan (touched_in s id (cmd.Auth scheme.now auth.now)) s (step.act (record s { applied = i; sessions = map.insert s.sessions id (with_seq seq session.now) }) id session.now.ids i t (cmd.Auth scheme.now auth.now))) }
{
    match shown(alloc, scheme.as_str(), auth.as_slice()) {
        Err(refused) => Err(refused),
        Ok(None) => refuse(alloc, id, session, seq),
        Ok(Some(shown)) => accept(alloc, id, session, seq, shown),
    }
}

// The id that is shown, where it is one.
fn shown(alloc: Global, scheme: &str, auth: &[u8]) -> Result<Option<Text>, NoMemory>
    ensures { IfOk result (λ id. id ≡ shown_id scheme.now auth.now) }
{
    if scheme != "digest" {
        return Ok(None);
    }
    match digest_id(alloc, auth) {
        Ok(id) => Ok(Some(id)),
        Err(AclFail::AuthFailed) => Ok(None),
        Err(_) => Err(NoMemory),
    }
}

// The session has the number, and nothing was shown.
fn refuse(alloc: Global, id: u64, session: &Session, seq: u64) -> Result<Plan, NoMemory>
    ensures { IfOk result (λ p. p ≡ session_plan id (with_seq seq session.now) (reply.Err auth_failed)) }
{
    let mut session = session.copy(alloc)?;
    session.seq = seq;
    Ok(renewed(alloc, id, session, Reply::Err(AUTH_FAILED)))
}

// The session has the number and the id.
fn accept(
    alloc: Global,
    id: u64,
    session: &Session,
    seq: u64,
    shown: Text,
) -> Result<Plan, NoMemory>
    ensures { IfOk result (λ p. p ≡ session_plan id (with_id shown (with_seq seq session.now)) reply.Done) }
{
    let has = has_id(session, shown.as_str());
    let mut session = session.copy(alloc)?;
    session.seq = seq;
    if has {
        drop(shown);
    } else {
        session.ids.push(shown)?;
    }
    Ok(renewed(alloc, id, session, Reply::Done))
}

// Whether the session has shown the id.
fn has_id(session: &Session, id: &str) -> bool
    ensures { result ≡ list_any (bytes_eq id.now) session.now.ids }
{
    session.ids.as_slice().iter().any(|one| id == one.as_str())
}
