//! Shown ids give rights.
ghost use Rattle.std.specs.Prelude.{◌≤◌};

use crate::stories::{ALL, BOB, READ, Said, are, cut, data, is_at, keeps, list, open, write};
use kp_model::errors::{AUTH_FAILED, INVALID_ACL, NO_AUTH};
use kp_model::{Acl, Bytes, Cmd, Meta, NoMemory, Session, Text, View};
use kp_storage::Storage;
use std::alloc::Global;

// The first session shows bytes.
fn show(
    alloc: Global,
    storage: &mut Storage,
    seq: u64,
    scheme: &str,
    bytes: &[u8],
) -> Result<(), NoMemory>
    requires { seq ≤ 100 }
{
    let cmd = Cmd::Auth {
        scheme: Text::from_str(alloc, scheme)?,
        auth: data(alloc, bytes)?,
    };
    write(storage, 1, seq, cmd)
}

// The first session creates a node that those may read who have its own ids.
fn create_own(alloc: Global, storage: &mut Storage, seq: u64) -> Result<(), NoMemory>
    requires { seq ≤ 100 }
{
    let cmd = Cmd::Create {
        path: Text::from_str(alloc, "/o")?,
        bytes: Bytes::new(alloc),
        acl: list(alloc, ALL, "auth", "")?,
        flags: 0,
        stat: false,
    };
    write(storage, 1, seq, cmd)
}

// A session looks whether the node is in its first version.
fn check(alloc: Global, storage: &mut Storage, session: u64, seq: u64) -> Result<(), NoMemory>
    requires session { session ≤ 100 }
    requires seq { seq ≤ 100 }
{
    let cmd = Cmd::Check {
        path: Text::from_str(alloc, "/o")?,
        version: 0,
    };
    write(storage, session, seq, cmd)
}

// The first session lets everyone read the node.
fn share(alloc: Global, storage: &mut Storage, seq: u64) -> Result<(), NoMemory>
    requires { seq ≤ 100 }
{
    let cmd = Cmd::SetAcl {
        path: Text::from_str(alloc, "/o")?,
        acl: list(alloc, READ, "world", "anyone")?,
        version: 0,
    };
    write(storage, 1, seq, cmd)
}

// Whether the list is this line.
fn is_list(acl: Option<&[Acl]>, perms: u32, scheme: &str, id: &str) -> bool {
    match acl {
        Some([line]) => {
            line.perms == perms && line.scheme.as_str() == scheme && line.id.as_str() == id
        }
        _ => false,
    }
}

// Whether the session has shown these ids.
fn has_ids(session: Option<&Session>, ids: &[&str]) -> bool {
    match session {
        Some(session) => are(&session.ids, ids),
        None => false,
    }
}

fn show_ids(alloc: Global, storage: &mut Storage) -> Result<(), NoMemory> {
    open(storage, 1)?;
    create_own(alloc, storage, 1)?;
    show(alloc, storage, 2, "digest", b"bob")?;
    show(alloc, storage, 3, "ip", b"bob:x")?;
    show(alloc, storage, 4, "digest", b"bob:x")?;
    show(alloc, storage, 5, "digest", b"bob:x")
}

fn keeps_ids(storage: &Storage) -> bool {
    keeps(storage, 2, Said::Err(INVALID_ACL))
        && keeps(storage, 3, Said::Err(AUTH_FAILED))
        && keeps(storage, 4, Said::Err(AUTH_FAILED))
        && keeps(storage, 5, Said::Done)
        && keeps(storage, 6, Said::Done)
        && has_ids(storage.latest_session(1), &[BOB])
        && is_at(storage.latest_session(1), 1, 5, 1)
}

fn use_ids(alloc: Global, storage: &mut Storage) -> Result<(), NoMemory> {
    create_own(alloc, storage, 6)?;
    open(storage, 2)?;
    check(alloc, storage, 1, 7)?;
    check(alloc, storage, 2, 1)
}

// The node behind the setting of its access list.
const SHARED: Meta = Meta {
    czxid: 7,
    mzxid: 7,
    pzxid: 7,
    ctime: 70,
    mtime: 70,
    version: 0,
    cversion: 0,
    aversion: 1,
    owner: 0,
    created: 0,
    len: 0,
    kids: 0,
};

fn keeps_rights(storage: &Storage) -> bool {
    keeps(storage, 7, Said::Path("/o"))
        && keeps(storage, 8, Said::Session(2))
        && keeps(storage, 9, Said::Done)
        && keeps(storage, 10, Said::Err(NO_AUTH))
        && is_list(storage.latest().acl("/o"), ALL, "digest", BOB)
        && storage.committed().acl("/o").is_none()
        && is_list(storage.cells().latest_acl("/o"), ALL, "digest", BOB)
}

// Whether the node is shared, and a truncation takes that back.
fn shares(alloc: Global, storage: &mut Storage) -> Result<bool, NoMemory> {
    share(alloc, storage, 8)?;
    check(alloc, storage, 2, 2)?;
    let kept = keeps(storage, 11, Said::Stat(SHARED)) && keeps(storage, 12, Said::Done);
    let shared = is_list(storage.latest().acl("/o"), READ, "world", "anyone");
    let cut = cut(storage, 10) && is_list(storage.latest().acl("/o"), ALL, "digest", BOB);
    let empty = cut && has_ids(storage.latest_session(2), &[]);
    Ok(kept && shared && empty)
}

pub fn ids(alloc: Global, storage: &mut Storage) -> Result<bool, NoMemory> {
    show_ids(alloc, storage)?;
    let shown = keeps_ids(storage);
    use_ids(alloc, storage)?;
    let used = keeps_rights(storage);
    Ok(shares(alloc, storage)? && shown && used)
}
