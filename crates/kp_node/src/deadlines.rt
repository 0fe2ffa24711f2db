//! When each session was heard.

ghost use Rattle.std.specs.Prelude.{◌≡◌, ℕ, List, IfOk, OnOk, OnErr};
ghost use Rattle.std.specs.Ordering.{nat_cmp};
ghost use Rattle.std.specs.FinMap.{FinMap, get};
ghost use Rattle.kp_expiry.specs.declared.heard.Heard.{Heard};
ghost use Rattle.kp_step.specs.Committing.{hear as heard_with, hear_all as heard_with_all};
ghost use Rattle.kp_step.specs.Step.{all_heard as heard_of_all};
ghost use Rattle.kp_node.specs.Spoken.{IsNoted};

use crate::forgetting::put_back;
use crate::spoken::Spoken;
use kp_expiry::{Expiry, Heard};
use kp_model::{NoMemory, View};
use std::alloc::Global;

/// A session of the state is heard at this time, in milliseconds. Without memory nothing has changed.
pub(crate) fn hear<V: View>(
    expiry: &mut Expiry,
    view: &V,
    now: u64,
    session: u64,
) -> Result<(), NoMemory>
    ensures ok { OnOk result (expiry.new ≡ heard_with now (V.state view.now) expiry.old session) }
    ensures err { OnErr result (expiry.new ≡ expiry.old) }
{
    let Some(found) = view.session(session) else {
        return Ok(());
    };
    if expiry.touch(session, found.timeout, now).is_err() {
        return Err(NoMemory);
    }
    Ok(())
}

/// When a session was heard before it was heard again, and whether it is new among those that were.
#[derive(Clone, Copy)]
pub(crate) struct Silence {
    pub(crate) heard: Option<Heard>,
    pub(crate) fresh: bool,
}

/// A session of the state is heard at this time, in milliseconds, and is among those that were. Without memory nothing has
/// changed.
pub(crate) fn hear_client<V: View>(
    expiry: &mut Expiry,
    spoken: &mut Spoken,
    view: &V,
    now: u64,
    session: u64,
) -> Result<Silence, NoMemory>
    ensures before { IfOk result (λ s. s.heard ≡ get expiry.old session) }
    ensures heard { OnOk result (expiry.new ≡ heard_with now (V.state view.now) expiry.old session) }
    ensures spoken { IfOk result (λ s. IsNoted spoken.old session s.fresh spoken.new) }
    ensures err { OnErr result (expiry.new ≡ expiry.old) }
    ensures err_spoken { OnErr result (spoken.new ≡ spoken.old) }
{
    let heard = expiry.heard(session);
    let fresh = spoken.note(session)?;
    match hear(expiry, view, now, session) {
        Ok(()) => Ok(Silence { heard, fresh }),
        Err(none) => {
            spoken.unnote(session, fresh);
            Err(none)
        }
    }
}

/// Takes the hearing of a session back. Takes no memory.
pub(crate) fn unhear_client<V: View>(
    expiry: &mut Expiry,
    spoken: &mut Spoken,
    view: &V,
    session: u64,
    before: Silence,
)
    requires { (m : List ℕ) × IsNoted m session before.fresh spoken.old }
    ensures heard { (m : FinMap nat_cmp Heard) (now : ℕ) → expiry.old ≡ heard_with now (V.state view.now) m session → before.heard ≡ get m session → expiry.new ≡ m }
    ensures spoken { (m : List ℕ) → IsNoted m session before.fresh spoken.old → spoken.new ≡ m }
{
    unhear(expiry, view, session, before.heard);
    spoken.unnote(session, before.fresh);
}

// Takes the hearing of a session back, which was heard so before. Takes no memory.
fn unhear<V: View>(expiry: &mut Expiry, view: &V, session: u64, before: Option<Heard>)
    ensures { (m : FinMap nat_cmp Heard) (now : ℕ) → expiry.old ≡ heard_with now (V.state view.now) m session → before ≡ get m session → expiry.new ≡ m }
{
    if view.session(session).is_some() {
        put_back(expiry, session, before);
    }
}

/// Those of the sessions that the state has are heard at this time, in milliseconds. Without memory some of them are.
#[tactic(auto, unfolding(kp_step::specs::Committing::hear_all))]
pub(crate) fn hear_all<V: View>(
    expiry: &mut Expiry,
    view: &V,
    now: u64,
    sessions: &[u64],
) -> Result<(), NoMemory>
    ensures { OnOk result (expiry.new ≡ heard_with_all now (V.state view.now) expiry.old sessions.now) }
{
    for session in sessions {
        hear(expiry, view, now, *session)?;
    }
    Ok(())
}

/// All sessions of the state, and no others, were heard at this time, in milliseconds.
#[tactic(auto, using(crate::proofs::Told::all_are_heard))]
pub(crate) fn all_heard<V: View>(alloc: Global, view: &V, now: u64) -> Result<Expiry, NoMemory>
    ensures { IfOk result (λ e. e ≡ heard_of_all now (V.state view.now).sessions) }
{
    let sessions = view.sessions(alloc)?;
    let mut expiry = Expiry::new(alloc);
    match hear_all(&mut expiry, view, now, &sessions) {
        Ok(()) => Ok(expiry),
        Err(none) => {
            drop(expiry);
            Err(none)
        }
    }
}
