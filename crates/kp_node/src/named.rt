//! The sessions that a follower heard are heard at the leader.

ghost use Rattle.std.specs.Prelude.{◌≡◌, ◌++◌, ◌∷◌, [], cond, Some, IfOk, OnOk, OnErr};
ghost use Rattle.std.specs.FinMap as map;
ghost use Rattle.kp_entry.specs.Log.{last_index};
ghost use Rattle.kp_raft.specs.Numbers.{MAX};
ghost use Rattle.kp_raft.specs.Steps.{passes as passes_so};
ghost use Rattle.kp_step.specs.Committing.{hear as heard_with, hear_all as heard_with_all};
ghost use Rattle.kp_step.specs.Node.{heard_at};
ghost use Rattle.kp_node.specs.Named.{missing as missing_in, forgotten, IsAdmitted, AreKnown, IsKnown, TakesIn};
ghost use Rattle.kp_node.specs.Naming.{mail_of, bare as bare_of, named_by};

use crate::proposing::{is_peer, leads_in};
use kp_expiry::Expiry;
use kp_model::limits::LAST_NUMBER;
use kp_model::{Items, NoMemory, View};
use kp_raft::{Mail, Raft};
use kp_snapshot::Image;
use std::alloc::Global;

/// What a follower answers to an append.
#[derive(Drop)]
pub(crate) struct Answer {
    /// The follower's term.
    pub(crate) term: u64,
    /// The follower.
    pub(crate) from: u8,
    /// Whether its log is the leader's up to the last index.
    pub(crate) ok: bool,
    pub(crate) last: u64,
    /// The sessions that it heard.
    pub(crate) heard: Items<u64>,
}

/// The message of an answer, without the sessions that it names. Takes no memory.
pub(crate) fn bare(alloc: Global, answer: &Answer) -> Mail<Image>
    ensures { result ≡ bare_of answer.now }
{
    Mail::AppendRep {
        term: answer.term,
        from: answer.from,
        ok: answer.ok,
        last: answer.last,
        heard: Items::new(alloc),
    }
}

/// The sessions of an answer that are heard by it: all where this member leads in its term, and else none.
pub(crate) fn named<'a>(raft: &Raft<Image>, answer: &'a Answer) -> &'a [u64]
    ensures { result.now ≡ named_by raft.now answer.now }
{
    if passes(raft, answer) && leads_in(raft, answer.term) {
        answer.heard.as_slice()
    } else {
        &[]
    }
}

// Whether it is another member's, with numbers of a run.
fn passes(raft: &Raft<Image>, answer: &Answer) -> bool
    ensures { result ≡ passes_so raft.now.members raft.now.node (last_index raft.now.held.log) (mail_of answer.now) }
{
    is_peer(raft, answer.from)
        && answer.term <= LAST_NUMBER
        && answer.last <= reach(raft, answer.ok)
}

// The last index up to which a log may be the leader's, or else may end.
fn reach(raft: &Raft<Image>, ok: bool) -> u64
    ensures { result ≡ cond ok (last_index raft.now.held.log) MAX }
{
    if ok { raft.last() } else { LAST_NUMBER }
}

/// Those of the sessions that the state has are known from here on. Answers those that were not known before. After an
/// error nothing has changed.
pub(crate) fn admit<V: View>(
    alloc: Global,
    expiry: &mut Expiry,
    view: &V,
    now: u64,
    sessions: &[u64],
) -> Result<Vec<u64>, NoMemory>
    ensures ok { IfOk result (λ list. IsAdmitted (V.state view.now).sessions sessions.now expiry.old list.items expiry.new) }
    ensures err { OnErr result (expiry.new ≡ expiry.old) }
{
    let mut list = Vec::new(alloc);
    for session in sessions {
        match admit_one(expiry, &mut list, view, now, *session) {
            Ok(()) => {}
            Err(none) => {
                forget(expiry, &list);
                return Err(none);
            }
        }
    }
    Ok(list)
}

// A session of the state is known from here on. After an error nothing has changed.
fn admit_one<V: View>(
    expiry: &mut Expiry,
    list: &mut Vec<u64>,
    view: &V,
    now: u64,
    session: u64,
) -> Result<(), NoMemory>
    ensures ok { OnOk result (TakesIn session (missing_in (V.state view.now).sessions expiry.old session) expiry.old list.old.items expiry.new list.new.items) }
    ensures err { OnErr result (expiry.new ≡ expiry.old) }
    ensures err_list { OnErr result (list.new.items ≡ list.old.items) }
{
    match missing(expiry, view, session) {
        None => Ok(()),
        Some(timeout) => add(expiry, list, session, timeout, now),
    }
}

// The timeout of a session of the state that isn't known.
fn missing<V: View>(expiry: &Expiry, view: &V, session: u64) -> Option<u32>
    ensures { result ≡ missing_in (V.state view.now).sessions expiry.now session }
{
    if expiry.heard(session).is_some() {
        return None;
    }
    match view.session(session) {
        None => None,
        Some(found) => Some(found.timeout),
    }
}

// A session is known from here on. After an error nothing has changed.
fn add(
    expiry: &mut Expiry,
    list: &mut Vec<u64>,
    session: u64,
    timeout: u32,
    now: u64,
) -> Result<(), NoMemory>
    ensures ok { OnOk result (expiry.new ≡ map.insert expiry.old session (heard_at now session timeout)) }
    ensures listed { OnOk result (list.new.items ≡ list.old.items ++ session ∷ []) }
    ensures err { OnErr result (expiry.new ≡ expiry.old) }
    ensures err_list { OnErr result (list.new.items ≡ list.old.items) }
{
    list.push(session)?;
    if expiry.touch(session, timeout, now).is_err() {
        list.pop();
        return Err(NoMemory);
    }
    Ok(())
}

/// Nothing is known of these sessions any more.
pub(crate) fn forget(expiry: &mut Expiry, sessions: &[u64])
    ensures { expiry.new ≡ forgotten expiry.old sessions.now }
{
    for session in sessions {
        expiry.remove(*session);
    }
}

/// Those of the sessions that the state has, and which are known, are heard at this time, in milliseconds. It takes no
/// memory.
pub(crate) fn hear_known<V: View>(expiry: &mut Expiry, view: &V, now: u64, sessions: &[u64])
    requires { AreKnown (V.state view.now).sessions sessions.now expiry.old }
    ensures { expiry.new ≡ heard_with_all now (V.state view.now) expiry.old sessions.now }
{
    for session in sessions {
        hear_one(expiry, view, now, *session);
    }
}

// A session of the state that is known is heard.
fn hear_one<V: View>(expiry: &mut Expiry, view: &V, now: u64, session: u64)
    requires { IsKnown (V.state view.now).sessions session expiry.old }
    ensures { expiry.new ≡ heard_with now (V.state view.now) expiry.old session }
{
    let Some(found) = view.session(session) else {
        return;
    };
    match expiry.touch(session, found.timeout, now) {
        Ok(()) => {}
        Err(_) => unreachable!(),
    }
}
