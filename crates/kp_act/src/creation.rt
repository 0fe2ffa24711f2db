//! What the creation of a node does.

ghost use Rattle.std.specs.Prelude.{◌≡◌, length, IfOk, IsTrue};
ghost use Rattle.std.specs.FinMap as map;
ghost use Rattle.kp_model.specs.Grammar.{is_length};
ghost use Rattle.kp_model.specs.Path.{parent, is_well_formed};
ghost use Rattle.kp_model.specs.Sequenced.{sequenced};
ghost use Rattle.kp_model.specs.Step.{unless, made_path, ever_had, owner_of, is_sequential, created, place_fails};
ghost use Rattle.kp_model.specs.Step as step;
ghost use Rattle.kp_act.specs.Effects.{DoesOn, IsChildPath, with_child_shown, made_act};
ghost use Rattle.kp_act.specs.Looks.{HavePlaces};

use crate::acting::{answered, parent_of, rise, two_events};
use crate::checks::{is_creation, list_to_keep, may_create};
use crate::look::Look;
use crate::plan::{Act, Effect, Prepared, Stamp};
use kp_model::errors::{BAD_ARGUMENTS, INVALID_ACL};
use kp_model::limits::LAST_COUNT;
use kp_model::{Acls, Bytes, Event, Meta, NoMemory, Paths, Reply, Text};
use std::alloc::Global;

/// What a creation does, of a session with these ids, at an index and a time.
pub(crate) fn create<L: Look>(
    alloc: Global,
    look: &L,
    session: u64,
    ids: &Paths,
    stamp: Stamp,
    path: &Text,
    bytes: &Bytes,
    acl: &Acls,
    flags: u32,
    stat: bool,
) -> Result<Act, NoMemory>
    requires places { HavePlaces (L.nodes look.now) }
    requires fits { IsTrue (is_length (length bytes.now)) }
    ensures { let nodes = L.nodes look.now in IfOk result (DoesOn (made_path nodes path.now flags) nodes (λ s. step.made s session ids.now stamp.index stamp.time (made_path s.nodes path.now flags) bytes.now acl.now flags stat)) }
{
    let whole = whole_path(alloc, look, path, flags)?;
    create_at(
        alloc, look, session, ids, stamp, &whole, bytes, acl, flags, stat,
    )
}

// The path of a node that is made, with its running number where it is asked for.
#[tactic(auto, unfolding(kp_model::specs::Step::made_path))]
fn whole_path<L: Look>(alloc: Global, look: &L, path: &Text, flags: u32) -> Result<Text, NoMemory>
    ensures { IfOk result (λ whole. whole ≡ made_path (L.nodes look.now) path.now flags) }
{
    let numbered = is_numbered(flags);
    if numbered {
        with_number(alloc, look, path.as_str())
    } else {
        path.copy(alloc)
    }
}

// Whether flags ask for a running number.
fn is_numbered(flags: u32) -> bool
    ensures { result ≡ is_sequential flags }
{
    flags == 2 || flags == 3
}

// The path with the number of children that the parent ever had behind it.
fn with_number<L: Look>(alloc: Global, look: &L, path: &str) -> Result<Text, NoMemory>
    ensures { IfOk result (λ whole. whole ≡ sequenced path.now (ever_had (map.get (L.nodes look.now) (parent (sequenced path.now 0))))) }
{
    let number = children_made(look, kp_path::sequence_parent(path));
    kp_path::sequence_name(alloc, path, number)
}

// How many children a node ever had; 0 where there is none.
fn children_made<L: Look>(look: &L, path: &str) -> u32
    ensures { result ≡ ever_had (map.get (L.nodes look.now) path.now) }
{
    match look.meta(path) {
        None => 0,
        Some(meta) => meta.created,
    }
}

// What the creation of a node at this whole path does.
fn create_at<L: Look>(
    alloc: Global,
    look: &L,
    session: u64,
    ids: &Paths,
    stamp: Stamp,
    path: &Text,
    bytes: &Bytes,
    acl: &Acls,
    flags: u32,
    stat: bool,
) -> Result<Act, NoMemory>
    requires places { HavePlaces (L.nodes look.now) }
    requires fits { IsTrue (is_length (length bytes.now)) }
    ensures { IfOk result (DoesOn path.now (L.nodes look.now) (λ s. step.made s session ids.now stamp.index stamp.time path.now bytes.now acl.now flags stat)) }
{
    let creation = is_creation(path.as_str(), flags);
    if !creation {
        return Ok(answered(alloc, Reply::Err(BAD_ARGUMENTS)));
    }
    match list_to_keep(alloc, ids, acl)? {
        None => Ok(answered(alloc, Reply::Err(INVALID_ACL))),
        Some(kept) => place(
            alloc,
            look,
            ids,
            stamp,
            path,
            bytes,
            kept,
            owner(session, flags),
            stat,
        ),
    }
}

// The owner of a node that a session makes, 0 for a persistent one.
fn owner(session: u64, flags: u32) -> u64
    ensures { result ≡ owner_of session flags }
{
    if flags == 1 || flags == 3 { session } else { 0 }
}

// What the creation of a node with this list and this owner does.
fn place<L: Look>(
    alloc: Global,
    look: &L,
    ids: &Paths,
    stamp: Stamp,
    path: &Text,
    bytes: &Bytes,
    acl: Acls,
    owner: u64,
    stat: bool,
) -> Result<Act, NoMemory>
    requires places { HavePlaces (L.nodes look.now) }
    requires formed { IsTrue (is_well_formed path.now) }
    requires fits { IsTrue (is_length (length bytes.now)) }
    ensures { IfOk result (DoesOn path.now (L.nodes look.now) (λ s. unless (place_fails s.nodes ids.now path.now) s (created s stamp.index stamp.time path.now bytes.now acl owner stat))) }
{
    match may_create(look, ids, path.as_str()) {
        Err(code) => Ok(answered(alloc, Reply::Err(code))),
        Ok(up) => made(alloc, stamp, path, bytes, acl, owner, stat, up),
    }
}

// A node is made under a parent that showed these numbers.
fn made(
    alloc: Global,
    stamp: Stamp,
    path: &Text,
    bytes: &Bytes,
    acl: Acls,
    owner: u64,
    stat: bool,
    up: Meta,
) -> Result<Act, NoMemory>
    requires child { IsChildPath path.now }
    requires fits { IsTrue (is_length (length bytes.now)) }
    ensures { IfOk result (λ a. a ≡ made_act stamp.index stamp.time path.now bytes.now acl owner stat up) }
{
    let meta = new_meta(stamp, owner, bytes.len() as u32);
    let reply = if stat {
        Reply::PathStat(path.copy(alloc)?, meta)
    } else {
        Reply::Path(path.copy(alloc)?)
    };
    let events = two_events(
        alloc,
        Event::Created(path.copy(alloc)?),
        Event::ChildrenChanged(parent_of(alloc, path.as_str())?),
    )?;
    let effect = Effect::Make {
        path: path.copy(alloc)?,
        bytes: bytes.copy(alloc)?,
        acl,
        meta,
        up: with_child(stamp.index, up),
    };
    Ok(Act {
        prepared: Prepared { reply, events },
        effect,
    })
}

// The numbers of a new node with this owner and data of this length.
fn new_meta(stamp: Stamp, owner: u64, len: u32) -> Meta
    ensures { result ≡ record { czxid = stamp.index; mzxid = stamp.index; pzxid = stamp.index; ctime = stamp.time; mtime = stamp.time; version = 0; cversion = 0; aversion = 0; owner = owner; created = 0; len = len; kids = 0 } }
{
    Meta {
        czxid: stamp.index,
        mzxid: stamp.index,
        pzxid: stamp.index,
        ctime: stamp.time,
        mtime: stamp.time,
        version: 0,
        cversion: 0,
        aversion: 0,
        owner,
        created: 0,
        len,
        kids: 0,
    }
}

// The numbers of a parent with one child more.
fn with_child(index: u64, up: Meta) -> Meta
    ensures { result ≡ with_child_shown index up }
{
    Meta {
        pzxid: index,
        cversion: rise(up.cversion),
        created: rise(up.created),
        kids: up.kids.min(LAST_COUNT - 1) + 1,
        ..up
    }
}
