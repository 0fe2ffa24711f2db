//! The checks of the commands, in the order in which they are made.

ghost use Rattle.std.specs.Prelude.{◌≡◌, ◌&&◌, Some, IfOk, IsTrue, MatchResult, is_some, nat_le};
ghost use Rattle.std.specs.FinMap as map;
ghost use Rattle.kp_model.specs.Fixed.{fixed};
ghost use Rattle.kp_model.specs.Path.{parent, is_well_formed};
ghost use Rattle.kp_model.specs.Step.{place_fails, delete_fails, version_fails, owner_fails, is_version};
ghost use Rattle.kp_act.specs.Effects.{IsChildPath, MayCreate, MayRemove, IsFound, IsOwnerFound};
ghost use Rattle.kp_act.specs.Looks.{has_right, room_fails, leave_fails, change_fails};

use crate::look::Look;
use crate::plan::Found;
use kp_acl::{AclFail, allows, fix};
use kp_model::errors::{
    BAD_ARGUMENTS, BAD_VERSION, NO_AUTH, NO_CHILDREN_FOR_EPHEMERALS, NO_NODE, NODE_EXISTS,
    NOT_EMPTY,
};
use kp_model::limits::ANY_VERSION;
use kp_model::{Acls, Meta, NoMemory, Paths};
use std::alloc::Global;

pub(crate) const READ: u32 = 1;

pub(crate) const WRITE: u32 = 2;

const CREATE: u32 = 4;

const DELETE: u32 = 8;

const ADMIN: u32 = 16;

/// The greatest flags of a creation.
const MOST_FLAGS: u32 = 3;

// Whether a node of this version is one that was asked for.
fn is_asked(asked: u32, version: u32) -> bool
    ensures { result ≡ is_version asked version }
{
    asked == ANY_VERSION || asked == version
}

// Whether a node is there that gives the right to one who has these ids.
fn gives<L: Look>(look: &L, ids: &Paths, path: &str, perm: u32) -> bool
    ensures { result ≡ has_right (map.get (L.nodes look.now) path.now) ids.now perm }
{
    match look.acl(path) {
        None => false,
        Some(acl) => allows(ids, acl, perm),
    }
}

// Whether there is a node.
fn is_there<L: Look>(look: &L, path: &str) -> bool
    ensures { result ≡ is_some (map.get (L.nodes look.now) path.now) }
{
    match look.meta(path) {
        None => false,
        Some(_) => true,
    }
}

/// Whether a text is the path of a node.
pub(crate) fn is_path(path: &str) -> bool
    ensures { result ≡ is_well_formed path.now }
{
    match kp_path::check(path) {
        Err(_) => false,
        Ok(()) => true,
    }
}

/// Whether a creation has a path and flags that there are.
pub(crate) fn is_creation(path: &str, flags: u32) -> bool
    ensures { result ≡ (is_well_formed path.now && nat_le flags 3) }
{
    is_path(path) && flags <= MOST_FLAGS
}

/// The list that is kept where one who has these ids gives this one; None where it is refused.
pub(crate) fn list_to_keep(alloc: Global, ids: &Paths, acl: &Acls) -> Result<Option<Acls>, NoMemory>
    ensures { IfOk result (λ kept. kept ≡ fixed ids.now acl.now) }
{
    match fix(alloc, ids, acl) {
        Ok(kept) => Ok(Some(kept)),
        Err(fail) => match fail {
            AclFail::InvalidAcl => Ok(None),
            AclFail::AuthFailed => unreachable!(),
            AclFail::NoMemory => Err(NoMemory),
        },
    }
}

/// The parent's numbers where there is a place for a node, or else the error of the first check that fails.
pub(crate) fn may_create<L: Look>(look: &L, ids: &Paths, path: &str) -> Result<Meta, i32>
    requires { IsTrue (is_well_formed path.now) }
    ensures { MatchResult result (MayCreate (L.nodes look.now) ids.now path.now) (λ e. place_fails (L.nodes look.now) ids.now path.now ≡ Some e) }
{
    match kp_path::parent(path) {
        None => Err(NODE_EXISTS),
        Some(up) => may_create_under(look, ids, up, path),
    }
}

// The same below a parent.
fn may_create_under<L: Look>(look: &L, ids: &Paths, up: &str, path: &str) -> Result<Meta, i32>
    requires parent { up.now ≡ parent path.now }
    requires child { IsChildPath path.now }
    ensures { MatchResult result (MayCreate (L.nodes look.now) ids.now path.now) (λ e. place_fails (L.nodes look.now) ids.now path.now ≡ Some e) }
{
    match look.meta(up) {
        None => Err(NO_NODE),
        Some(meta) => match room_error(
            gives(look, ids, up, CREATE),
            meta.owner,
            is_there(look, path),
        ) {
            Some(code) => Err(code),
            None => Ok(*meta),
        },
    }
}

// The checks of a creation where the parent is there.
fn room_error(allowed: bool, owner: u64, taken: bool) -> Option<i32>
    ensures { result ≡ room_fails allowed owner taken }
{
    if !allowed {
        Some(NO_AUTH)
    } else if owner != 0 {
        Some(NO_CHILDREN_FOR_EPHEMERALS)
    } else if taken {
        Some(NODE_EXISTS)
    } else {
        None
    }
}

/// The numbers of a node and its parent where the node may be removed, or else the error of the first check that fails.
pub(crate) fn may_remove<L: Look>(
    look: &L,
    ids: &Paths,
    path: &str,
    version: u32,
) -> Result<Found, i32>
    ensures { MatchResult result (MayRemove (L.nodes look.now) ids.now path.now version) (λ e. delete_fails (L.nodes look.now) ids.now path.now version ≡ Some e) }
{
    match kp_path::check(path) {
        Err(_) => Err(BAD_ARGUMENTS),
        Ok(()) => match kp_path::parent(path) {
            None => Err(BAD_ARGUMENTS),
            Some(up) => may_remove_under(look, ids, up, path, version),
        },
    }
}

// The same below a parent.
fn may_remove_under<L: Look>(
    look: &L,
    ids: &Paths,
    up: &str,
    path: &str,
    version: u32,
) -> Result<Found, i32>
    requires parent { up.now ≡ parent path.now }
    requires child { IsChildPath path.now }
    ensures { MatchResult result (MayRemove (L.nodes look.now) ids.now path.now version) (λ e. delete_fails (L.nodes look.now) ids.now path.now version ≡ Some e) }
{
    match look.meta(path) {
        None => Err(NO_NODE),
        Some(meta) => match look.meta(up) {
            None => Err(NO_AUTH),
            Some(above) => match leave_error(
                gives(look, ids, up, DELETE),
                version,
                meta.version,
                meta.kids,
            ) {
                Some(code) => Err(code),
                None => Ok(Found {
                    up: *above,
                    meta: *meta,
                }),
            },
        },
    }
}

// The checks of a removal where the node is there.
fn leave_error(allowed: bool, asked: u32, version: u32, kids: u32) -> Option<i32>
    ensures { result ≡ leave_fails allowed asked version kids }
{
    if !allowed {
        Some(NO_AUTH)
    } else if !is_asked(asked, version) {
        Some(BAD_VERSION)
    } else if kids == 0 {
        None
    } else {
        Some(NOT_EMPTY)
    }
}

/// The numbers of a node that has the version and gives the right that are asked for, or else the error of the first check that fails.
pub(crate) fn find<L: Look>(
    look: &L,
    ids: &Paths,
    perm: u32,
    path: &str,
    version: u32,
) -> Result<Meta, i32>
    ensures { MatchResult result (IsFound (L.nodes look.now) ids.now perm path.now version) (λ e. version_fails (L.nodes look.now) ids.now perm path.now version ≡ Some e) }
{
    match kp_path::check(path) {
        Err(_) => Err(BAD_ARGUMENTS),
        Ok(()) => find_there(look, ids, perm, path, version),
    }
}

// The same at a path that is well formed.
fn find_there<L: Look>(
    look: &L,
    ids: &Paths,
    perm: u32,
    path: &str,
    version: u32,
) -> Result<Meta, i32>
    requires { IsTrue (is_well_formed path.now) }
    ensures { MatchResult result (IsFound (L.nodes look.now) ids.now perm path.now version) (λ e. version_fails (L.nodes look.now) ids.now perm path.now version ≡ Some e) }
{
    match look.meta(path) {
        None => Err(NO_NODE),
        Some(meta) => match change_error(gives(look, ids, path, perm), version, meta.version) {
            Some(code) => Err(code),
            None => Ok(*meta),
        },
    }
}

/// The numbers of a node whose list has the version that is asked for, where one who has these ids may set it, or else the error of the first check that fails.
pub(crate) fn find_to_own<L: Look>(
    look: &L,
    ids: &Paths,
    path: &str,
    version: u32,
) -> Result<Meta, i32>
    ensures { MatchResult result (IsOwnerFound (L.nodes look.now) ids.now path.now version) (λ e. owner_fails ids.now version (map.get (L.nodes look.now) path.now) ≡ Some e) }
{
    match look.meta(path) {
        None => Err(NO_NODE),
        Some(meta) => match change_error(gives(look, ids, path, ADMIN), version, meta.aversion) {
            Some(code) => Err(code),
            None => Ok(*meta),
        },
    }
}

// The checks of a change where the node is there.
fn change_error(allowed: bool, asked: u32, version: u32) -> Option<i32>
    ensures { result ≡ change_fails allowed asked version }
{
    if !allowed {
        Some(NO_AUTH)
    } else if !is_asked(asked, version) {
        Some(BAD_VERSION)
    } else {
        None
    }
}
