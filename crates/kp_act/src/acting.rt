//! What a command on one node does.

ghost use Rattle.std.specs.Prelude.{◌≡◌, [], ◌∷◌, ◌-◌, Some, min, length, unwrap_or, IfOk, IsTrue};
ghost use Rattle.kp_model.specs.Limits.{last_count};
ghost use Rattle.std.specs.FinMap as map;
ghost use Rattle.kp_model.specs.Fixed.{fixed};
ghost use Rattle.kp_model.specs.Grammar.{is_length, fits_cmd, fits_op};
ghost use Rattle.kp_model.specs.Path.{parent, is_well_formed};
ghost use Rattle.kp_model.specs.Rights as right;
ghost use Rattle.kp_model.specs.State.{Nodes, meta_at, children};
ghost use Rattle.kp_model.specs.Step.{unless, deleted, set, synced, replies, delete_fails, version_fails, set_acl_fails, owner_fails, rises};
ghost use Rattle.kp_model.specs.Step as step;
ghost use Rattle.kp_model.specs.declared.reply.Reply.TheVariants as reply;
ghost use Rattle.kp_model.specs.Touched.{path_of_op};
ghost use Rattle.kp_act.specs.Effects.{DoesOn, IsChildPath, answered_act, gone_act, set_act, set_acl_act, path_of, is_on_node};
ghost use Rattle.kp_act.specs.Looks.{HavePlaces};

use crate::checks::{READ, WRITE, find, find_to_own, is_path, list_to_keep, may_remove};
use crate::creation::create;
use crate::look::Look;
use crate::plan::{Act, Effect, Found, Prepared, Stamp};
use kp_model::errors::{BAD_ARGUMENTS, INVALID_ACL};
use kp_model::limits::LAST_COUNT;
use kp_model::{Acls, Bytes, Cmd, Event, Events, Meta, NoMemory, Op, Paths, Reply, Text};
use std::alloc::Global;

/// What a command on one node does, of a session with these ids, at an index and a time.
#[tactic(auto, unfolding(kp_model::specs::Step::act))]
pub fn act<L: Look>(
    alloc: Global,
    look: &L,
    session: u64,
    ids: &Paths,
    stamp: Stamp,
    cmd: &Cmd,
) -> Result<Act, NoMemory>
    requires places { HavePlaces (L.nodes look.now) }
    requires fits { IsTrue (fits_cmd cmd.now) }
    requires node { IsTrue (is_on_node cmd.now) }
    ensures { let nodes = L.nodes look.now in IfOk result (DoesOn (path_of nodes cmd.now) nodes (λ s. step.act s session ids.now stamp.index stamp.time cmd.now)) }
{
    match cmd {
        Cmd::Create {
            path,
            bytes,
            acl,
            flags,
            stat,
        } => create(
            alloc, look, session, ids, stamp, path, bytes, acl, *flags, *stat,
        ),
        Cmd::Delete { path, version } => delete(alloc, look, ids, stamp, path, *version),
        Cmd::SetData {
            path,
            bytes,
            version,
        } => set_data(alloc, look, ids, stamp, path, bytes, *version),
        Cmd::SetAcl { path, acl, version } => set_acl(alloc, look, ids, path, acl, *version),
        Cmd::Check { path, version } => Ok(check(alloc, look, ids, path, *version)),
        Cmd::Sync { path } => sync(alloc, path),
        Cmd::Auth { .. } => unreachable!(),
        Cmd::Multi { .. } => unreachable!(),
        Cmd::CloseSession => unreachable!(),
    }
}

/// What an operation of a multi does, of a session with these ids, at an index and a time.
pub fn act_on<L: Look>(
    alloc: Global,
    look: &L,
    session: u64,
    ids: &Paths,
    stamp: Stamp,
    op: &Op,
) -> Result<Act, NoMemory>
    requires places { HavePlaces (L.nodes look.now) }
    requires fits { IsTrue (fits_op op.now) }
    ensures { let nodes = L.nodes look.now in IfOk result (DoesOn (path_of_op nodes op.now) nodes (λ s. step.act_on s session ids.now stamp.index stamp.time op.now)) }
{
    match op {
        Op::Create {
            path,
            bytes,
            acl,
            flags,
            stat,
        } => create(
            alloc, look, session, ids, stamp, path, bytes, acl, *flags, *stat,
        ),
        Op::Delete { path, version } => delete(alloc, look, ids, stamp, path, *version),
        Op::SetData {
            path,
            bytes,
            version,
        } => set_data(alloc, look, ids, stamp, path, bytes, *version),
        Op::Check { path, version } => Ok(check(alloc, look, ids, path, *version)),
    }
}

/// A reply, and nothing that is done.
pub(crate) fn answered(alloc: Global, reply: Reply) -> Act
    ensures { result ≡ answered_act reply }
{
    Act {
        prepared: Prepared {
            reply,
            events: Events::new(alloc),
        },
        effect: Effect::Nothing,
    }
}

/// The next value of a count that goes from its limit to 0.
pub fn rise(count: u32) -> u32
    ensures { result ≡ rises count }
{
    if count >= LAST_COUNT { 0 } else { count + 1 }
}

/// A list of two events.
pub(crate) fn two_events(alloc: Global, first: Event, second: Event) -> Result<Events, NoMemory>
    ensures { IfOk result (λ events. events ≡ first ∷ second ∷ []) }
{
    let mut events = Events::new(alloc);
    events.push(first)?;
    events.push(second)?;
    Ok(events)
}

/// The path of the parent; the root is its own.
pub fn parent_of(alloc: Global, path: &str) -> Result<Text, NoMemory>
    ensures { IfOk result (λ up. up ≡ parent path.now) }
{
    match kp_path::parent(path) {
        None => Text::from_str(alloc, "/"),
        Some(up) => Text::from_str(alloc, up),
    }
}

// What a removal does.
fn delete<L: Look>(
    alloc: Global,
    look: &L,
    ids: &Paths,
    stamp: Stamp,
    path: &Text,
    version: u32,
) -> Result<Act, NoMemory>
    requires places { HavePlaces (L.nodes look.now) }
    ensures { IfOk result (DoesOn path.now (L.nodes look.now) (λ s. unless (delete_fails s.nodes ids.now path.now version) s (deleted s stamp.index path.now))) }
{
    match may_remove(look, ids, path.as_str(), version) {
        Err(code) => Ok(answered(alloc, Reply::Err(code))),
        Ok(found) => remove(alloc, look, stamp, path, found),
    }
}

// A node is removed that shows these numbers, and its parent those.
fn remove<L: Look>(
    alloc: Global,
    look: &L,
    stamp: Stamp,
    path: &Text,
    found: Found,
) -> Result<Act, NoMemory>
    requires places { HavePlaces (L.nodes look.now) }
    requires up { meta_at (L.nodes look.now) (parent path.now) ≡ Some found.up }
    requires there { meta_at (L.nodes look.now) path.now ≡ Some found.meta }
    requires child { IsChildPath path.now }
    ensures { IfOk result (DoesOn path.now (L.nodes look.now) (λ s. deleted s stamp.index path.now)) }
{
    match kids_left(alloc, look, path.as_str(), found.up.kids) {
        Err(refused) => Err(refused),
        Ok(kids) => gone(alloc, stamp.index, path, found, kids),
    }
}

// How many children the parent of a node shows without it, where it shows so many with it. They are counted
// only where more than can be shown may be left.
fn kids_left<L: Look>(alloc: Global, look: &L, path: &str, kids: u32) -> Result<u32, NoMemory>
    requires child { IsChildPath path.now }
    requires shown { kids ≡ min (length (children (L.nodes look.now) (parent path.now))) last_count }
    ensures { IfOk result (λ left. left ≡ min (length (children (L.nodes look.now) (parent path.now)) - 1) last_count) }
{
    if kids < LAST_COUNT {
        return Ok(kids.saturating_sub(1));
    }
    let up = parent_of(alloc, path)?;
    let count = look.brood(alloc, up.as_str())?;
    Ok(count.saturating_sub(1).min(LAST_COUNT as u64) as u32)
}

// A node is removed, and its parent shows so many children then.
fn gone(alloc: Global, index: u64, path: &Text, found: Found, kids: u32) -> Result<Act, NoMemory>
    requires { IsChildPath path.now }
    ensures { IfOk result (λ a. a ≡ gone_act index path.now found kids) }
{
    let events = two_events(
        alloc,
        Event::Deleted(path.copy(alloc)?),
        Event::ChildrenChanged(parent_of(alloc, path.as_str())?),
    )?;
    let effect = Effect::Remove {
        path: path.copy(alloc)?,
        up: Meta {
            pzxid: index,
            cversion: rise(found.up.cversion),
            kids,
            ..found.up
        },
        owner: found.meta.owner,
    };
    Ok(Act {
        prepared: Prepared {
            reply: Reply::Done,
            events,
        },
        effect,
    })
}

// What setting data does.
fn set_data<L: Look>(
    alloc: Global,
    look: &L,
    ids: &Paths,
    stamp: Stamp,
    path: &Text,
    bytes: &Bytes,
    version: u32,
) -> Result<Act, NoMemory>
    requires fits { IsTrue (is_length (length bytes.now)) }
    ensures { IfOk result (DoesOn path.now (L.nodes look.now) (λ s. unless (version_fails s.nodes ids.now right.write path.now version) s (set s stamp.index stamp.time path.now bytes.now))) }
{
    match find(look, ids, WRITE, path.as_str(), version) {
        Err(code) => Ok(answered(alloc, Reply::Err(code))),
        Ok(meta) => changed(alloc, stamp, path, bytes, meta),
    }
}

// The data of a node is set, which showed these numbers.
fn changed(
    alloc: Global,
    stamp: Stamp,
    path: &Text,
    bytes: &Bytes,
    meta: Meta,
) -> Result<Act, NoMemory>
    requires fits { IsTrue (is_length (length bytes.now)) }
    ensures { IfOk result (λ a. a ≡ set_act stamp.index stamp.time path.now bytes.now meta) }
{
    let meta = Meta {
        version: rise(meta.version),
        mzxid: stamp.index,
        mtime: stamp.time,
        len: bytes.len() as u32,
        ..meta
    };
    let mut events = Events::new(alloc);
    events.push(Event::DataChanged(path.copy(alloc)?))?;
    let effect = Effect::Set {
        path: path.copy(alloc)?,
        bytes: bytes.copy(alloc)?,
        meta,
    };
    Ok(Act {
        prepared: Prepared {
            reply: Reply::Stat(meta),
            events,
        },
        effect,
    })
}

// What a check answers.
fn check<L: Look>(alloc: Global, look: &L, ids: &Paths, path: &Text, version: u32) -> Act
    ensures { DoesOn path.now (L.nodes look.now) (λ s. unless (version_fails s.nodes ids.now right.read path.now version) s (replies s reply.Done)) result }
{
    match find(look, ids, READ, path.as_str(), version) {
        Err(code) => answered(alloc, Reply::Err(code)),
        Ok(_) => answered(alloc, Reply::Done),
    }
}

// What setting an access list does.
fn set_acl<L: Look>(
    alloc: Global,
    look: &L,
    ids: &Paths,
    path: &Text,
    acl: &Acls,
    version: u32,
) -> Result<Act, NoMemory>
    ensures { IfOk result (DoesOn path.now (L.nodes look.now) (λ s. unless (set_acl_fails s.nodes ids.now path.now acl.now version) s (step.set_acl s path.now (unwrap_or (fixed ids.now acl.now) [])))) }
{
    let formed = is_path(path.as_str());
    if !formed {
        return Ok(answered(alloc, Reply::Err(BAD_ARGUMENTS)));
    }
    match list_to_keep(alloc, ids, acl)? {
        None => Ok(answered(alloc, Reply::Err(INVALID_ACL))),
        Some(kept) => keep_list(alloc, look, ids, path, kept, version),
    }
}

// What setting this list of a node does.
fn keep_list<L: Look>(
    alloc: Global,
    look: &L,
    ids: &Paths,
    path: &Text,
    acl: Acls,
    version: u32,
) -> Result<Act, NoMemory>
    requires { IsTrue (is_well_formed path.now) }
    ensures { IfOk result (DoesOn path.now (L.nodes look.now) (λ s. unless (owner_fails ids.now version (map.get s.nodes path.now)) s (step.set_acl s path.now acl))) }
{
    match find_to_own(look, ids, path.as_str(), version) {
        Err(code) => Ok(answered(alloc, Reply::Err(code))),
        Ok(meta) => listed(alloc, path, acl, meta),
    }
}

// The list of a node is set, which showed these numbers.
fn listed(alloc: Global, path: &Text, acl: Acls, meta: Meta) -> Result<Act, NoMemory>
    ensures { IfOk result (λ a. a ≡ set_acl_act path.now acl meta) }
{
    let meta = Meta {
        aversion: rise(meta.aversion),
        ..meta
    };
    let effect = Effect::SetAcl {
        path: path.copy(alloc)?,
        acl,
        meta,
    };
    Ok(Act {
        prepared: Prepared {
            reply: Reply::Stat(meta),
            events: Events::new(alloc),
        },
        effect,
    })
}

// What a sync answers.
fn sync(alloc: Global, path: &Text) -> Result<Act, NoMemory>
    ensures { (nodes : Nodes) → IfOk result (DoesOn path.now nodes (λ s. synced s path.now)) }
{
    let formed = is_path(path.as_str());
    if formed {
        Ok(answered(alloc, Reply::Path(path.copy(alloc)?)))
    } else {
        Ok(answered(alloc, Reply::Err(BAD_ARGUMENTS)))
    }
}
