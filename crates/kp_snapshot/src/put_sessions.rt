//! Writing the sessions of a state.

ghost use Rattle.std.specs.Prelude.{◌≡◌, [], IfOk, IsTrue, OnOk, Some};
ghost use Rattle.std.specs.FinMap as map;
ghost use Rattle.kp_jute.specs.Form.{Wrote};
ghost use Rattle.kp_entry.specs.Fields.{limited, numbers, origins};
ghost use Rattle.kp_model.specs.declared.session.Session.{Session as Held};
ghost use Rattle.kp_snapshot.specs.Rules.{numbers_of, holders_of, may_be_number, is_new_holder};
ghost use Rattle.kp_snapshot.specs.Images.{claims, session_behind, sessions, spell_session};
ghost use Rattle.kp_snapshot.specs.Knowing.{knowing, knowing_more};
ghost use Rattle.kp_snapshot.specs.Written.{WroteRows};

use crate::known::Known;
use kp_entry::{put_list, put_number, put_origin, put_password, put_timeout, put_word};
use kp_model::limits::LONGEST_FIELD;
use kp_model::{NoMemory, Origin, Session, View};
use std::alloc::Global;

/// Writes the sessions of a state, behind their count, and answers what is known of them. Bytes to which they could not be
/// written are to be dropped.
pub(crate) fn put_sessions<V: View>(
    alloc: Global,
    out: &mut Vec<u8>,
    view: &V,
    next: u64,
) -> Result<Known, NoMemory>
    ensures { IfOk result (λ k. (k ≡ knowing next (map.entries (V.state view.now).sessions)) × Wrote (sessions next) (map.entries (V.state view.now).sessions) out.old.items out.new.items) }
{
    let ids = view.sessions(alloc)?;
    let mut known = Known::new(alloc, next);
    let put = put_counted(out, view, &mut known, ids.as_slice());
    drop(ids);
    match put {
        Ok(()) => Ok(known),
        Err(_) => {
            drop(known);
            Err(NoMemory)
        }
    }
}

// Writes the count of the sessions, and the sessions behind none.
fn put_counted<V: View>(
    out: &mut Vec<u8>,
    view: &V,
    known: &mut Known,
    ids: &[u64],
) -> Result<(), NoMemory>
    requires none { known.old ≡ knowing known.old.next [] }
    requires ids { ids.now ≡ map.keys (V.state view.now).sessions }
    ensures known { OnOk result (known.new ≡ knowing known.old.next (map.entries (V.state view.now).sessions)) }
    ensures put { OnOk result (Wrote (sessions known.old.next) (map.entries (V.state view.now).sessions) out.old.items out.new.items) }
{
    if ids.len() > LONGEST_FIELD {
        return Err(NoMemory);
    }
    put_word(out, ids.len() as u32)?;
    put_each(out, view, known, ids)
}

// Writes the sessions behind none, without their count.
fn put_each<V: View>(
    out: &mut Vec<u8>,
    view: &V,
    known: &mut Known,
    ids: &[u64],
) -> Result<(), NoMemory>
    requires none { known.old ≡ knowing known.old.next [] }
    requires ids { ids.now ≡ map.keys (V.state view.now).sessions }
    ensures known { OnOk result (known.new ≡ knowing known.old.next (map.entries (V.state view.now).sessions)) }
    ensures put { OnOk result (WroteRows spell_session (λ before. session_behind known.old.next (numbers_of before) (holders_of before)) (map.entries (V.state view.now).sessions) out.old.items out.new.items) }
{
    for id in ids {
        put_next(out, view, known, *id)?;
    }
    Ok(())
}

// Writes the session of this number behind those that are known. There always is one.
fn put_next<V: View>(
    out: &mut Vec<u8>,
    view: &V,
    known: &mut Known,
    id: u64,
) -> Result<(), NoMemory>
    ensures { (x : Held) → map.get (V.state view.now).sessions id ≡ Some x → OnOk result ((known.new ≡ knowing_more known.old (id, x)) × Wrote (session_behind known.old.next known.old.ids known.old.holders) (id, x) out.old.items out.new.items) }
{
    match view.session(id) {
        None => Err(NoMemory),
        Some(session) => put_session(out, known, id, session),
    }
}

// Writes a session behind those that are known: its number, what a client shows, its holder and its ids.
fn put_session(
    out: &mut Vec<u8>,
    known: &mut Known,
    id: u64,
    session: &Session,
) -> Result<(), NoMemory>
    ensures known { OnOk result (known.new ≡ knowing_more known.old (id, session.now)) }
    ensures put { OnOk result (Wrote (session_behind known.old.next known.old.ids known.old.holders) (id, session.now) out.old.items out.new.items) }
{
    put_id(out, known, id)?;
    put_claims(out, session)?;
    put_holder(out, known, session.holder)?;
    put_list(out, &session.ids)?;
    known.add(id, session.holder)
}

fn put_id(out: &mut Vec<u8>, known: &Known, id: u64) -> Result<(), NoMemory>
    ensures put { OnOk result (Wrote (limited (may_be_number known.now.next known.now.ids) numbers) id out.old.items out.new.items) }
    ensures may { OnOk result (IsTrue (may_be_number known.now.next known.now.ids id)) }
{
    if !known.may_be_number(id) {
        return Err(NoMemory);
    }
    put_number(out, id)
}

// Writes timeout, password, epoch and running number.
fn put_claims(out: &mut Vec<u8>, session: &Session) -> Result<(), NoMemory>
    ensures { OnOk result (Wrote claims (session.now.timeout, (session.now.passwd, (session.now.epoch, session.now.seq))) out.old.items out.new.items) }
{
    put_timeout(out, session.timeout)?;
    put_password(out, &session.passwd)?;
    put_number(out, session.epoch)?;
    put_number(out, session.seq)
}

fn put_holder(out: &mut Vec<u8>, known: &Known, holder: Origin) -> Result<(), NoMemory>
    ensures { OnOk result (Wrote (limited (is_new_holder known.now.holders) origins) holder out.old.items out.new.items) }
{
    if !known.is_new(&holder) {
        return Err(NoMemory);
    }
    put_origin(out, holder)
}
