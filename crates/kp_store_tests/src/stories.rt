//! With ample memory each call of the storage, on short stories whose n-th entry has the time 10 n.
ghost use Rattle.std.specs.Prelude.{◌≡◌, ◌≤◌, IsTrue};
ghost use Rattle.kp_model.specs.Grammar.{is_body};

use crate::ends::{attempts, ends};
use crate::ids::ids;
use crate::nodes::nodes;
use kp_model::{
    Acl, Acls, Body, Bytes, Cmd, Committed, Entry, Event, Meta, NoMemory, Origin, Paths, Reply,
    Session, Text, View,
};
use kp_storage::Storage;
use std::alloc::Global;
use std::test::Fail;

/// Above each index of these stories.
pub const MANY: u64 = 100;

/// The version that matches every version.
pub const ANY: u32 = 4_294_967_295;

pub const EPHEMERAL: u32 = 1;

pub const SEQUENTIAL: u32 = 2;

pub const READ: u32 = 1;

pub const ALL: u32 = 31;

/// The digest id of `bob:x`; from the SHA-1 and the base64 of Python.
pub const BOB: &str = "bob:ttt4KD2l/LR0Mpj5c6jU0hrwVdE=";

/// A connection.
pub fn origin(conn: u64) -> Origin
    ensures boot { result.boot ≡ 1 }
    ensures conn { result.conn ≡ conn }
{
    Origin {
        node: 1,
        boot: 1,
        conn,
    }
}

/// Adds an entry to a storage that has room for it.
pub fn put(storage: &mut Storage, entry: &Entry) -> Result<(), NoMemory> {
    if storage.last() < MANY {
        storage.preprocess(entry)?;
    }
    Ok(())
}

/// Adds an entry of this body.
pub fn enter(storage: &mut Storage, body: Body) -> Result<(), NoMemory>
    requires numbers { IsTrue (is_body body) }
{
    let index = storage.last().min(MANY) + 1;
    let entry = Entry::new(1, 10 * index, body)?;
    let added = put(storage, &entry);
    drop(entry);
    added
}

/// Opens a session from this connection.
pub fn open(storage: &mut Storage, conn: u64) -> Result<(), NoMemory>
    requires { conn ≤ 100 }
{
    enter(
        storage,
        Body::OpenSession {
            timeout: 30000,
            passwd: [7; 16],
            origin: origin(conn),
        },
    )
}

/// Takes a session over to this connection.
pub fn attach(
    storage: &mut Storage,
    session: u64,
    passwd: [u8; 16],
    conn: u64,
) -> Result<(), NoMemory>
    requires session { session ≤ 100 }
    requires conn { conn ≤ 100 }
{
    enter(
        storage,
        Body::Attach {
            session,
            passwd,
            origin: origin(conn),
        },
    )
}

/// Ends the first session as unheard.
pub fn expire(storage: &mut Storage) -> Result<(), NoMemory> {
    enter(storage, Body::Expire { session: 1 })
}

/// A command of a session in its first epoch.
pub fn write(storage: &mut Storage, session: u64, seq: u64, cmd: Cmd) -> Result<(), NoMemory>
    requires session { session ≤ 100 }
    requires seq { seq ≤ 100 }
{
    enter(
        storage,
        Body::Write {
            session,
            epoch: 1,
            seq,
            cmd,
        },
    )
}

/// An access list of one line.
pub fn list(alloc: Global, perms: u32, scheme: &str, id: &str) -> Result<Acls, NoMemory> {
    let mut acl = Acls::new(alloc);
    acl.push(Acl {
        perms,
        scheme: Text::from_str(alloc, scheme)?,
        id: Text::from_str(alloc, id)?,
    })?;
    Ok(acl)
}

pub fn data(alloc: Global, bytes: &[u8]) -> Result<Bytes, NoMemory> {
    Ok(Bytes::from_vec(Vec::from_slice(alloc, bytes)?))
}

/// The first session creates a node with the data `hi`, open to everyone.
pub fn create(
    alloc: Global,
    storage: &mut Storage,
    seq: u64,
    path: &str,
    flags: u32,
) -> Result<(), NoMemory>
    requires { seq ≤ 100 }
{
    let cmd = Cmd::Create {
        path: Text::from_str(alloc, path)?,
        bytes: data(alloc, b"hi")?,
        acl: list(alloc, ALL, "world", "anyone")?,
        flags,
        stat: false,
    };
    write(storage, 1, seq, cmd)
}

/// The first session sets the data of a node.
pub fn set(alloc: Global, storage: &mut Storage, seq: u64, path: &str) -> Result<(), NoMemory>
    requires { seq ≤ 100 }
{
    let cmd = Cmd::SetData {
        path: Text::from_str(alloc, path)?,
        bytes: data(alloc, &[1, 2, 3])?,
        version: 0,
    };
    write(storage, 1, seq, cmd)
}

/// The first session deletes a node of any version.
pub fn delete(alloc: Global, storage: &mut Storage, seq: u64, path: &str) -> Result<(), NoMemory>
    requires { seq ≤ 100 }
{
    let cmd = Cmd::Delete {
        path: Text::from_str(alloc, path)?,
        version: ANY,
    };
    write(storage, 1, seq, cmd)
}

/// Forgets the entries behind an index of the storage.
pub fn cut(storage: &mut Storage, last: u64) -> bool {
    if storage.applied() <= last && last <= storage.last() {
        storage.truncate(last);
    }
    storage.last() == last
}

/// What a reply tells, short of those of a multi and of a creation with its numbers.
#[derive(Clone, Copy, PartialEq, Eq)]
pub enum Said<'a> {
    Stale,
    Err(i32),
    Done,
    Session(u64),
    Epoch(u64),
    Path(&'a str),
    Stat(Meta),
    More,
}

/// What this reply tells.
pub fn told(reply: &Reply) -> Said<'_> {
    match reply {
        Reply::Stale => Said::Stale,
        Reply::Err(code) => Said::Err(*code),
        Reply::Done => Said::Done,
        Reply::Session(id) => Said::Session(*id),
        Reply::Epoch(epoch) => Said::Epoch(*epoch),
        Reply::Path(path) => Said::Path(path.as_str()),
        Reply::Stat(meta) => Said::Stat(*meta),
        _ => Said::More,
    }
}

/// Whether the entry of this index was answered so.
pub fn keeps(storage: &Storage, index: u64, expected: Said<'_>) -> bool {
    match storage.kept(index) {
        Some(reply) => told(reply) == expected,
        None => false,
    }
}

/// The kind of an event, and its path.
pub fn fired(event: &Event) -> (&str, &str) {
    match event {
        Event::Created(path) => ("created", path.as_str()),
        Event::Deleted(path) => ("deleted", path.as_str()),
        Event::DataChanged(path) => ("data", path.as_str()),
        Event::ChildrenChanged(path) => ("children", path.as_str()),
    }
}

/// Whether these are the events.
pub fn are_fired(events: &[Event], expected: &[(&str, &str)]) -> bool {
    events.len() == expected.len()
        && (0..expected.len()).all(|i| {
            let (kind, path) = fired(&events[i]);
            kind == expected[i].0 && path == expected[i].1
        })
}

/// Whether this is what a commit answers.
pub fn is_done(
    done: Option<&Committed>,
    index: u64,
    reply: Said<'_>,
    events: &[(&str, &str)],
) -> bool {
    match done {
        Some(done) => {
            done.index == index
                && told(&done.reply) == reply
                && are_fired(done.events.as_slice(), events)
        }
        None => false,
    }
}

/// Whether a commit answers so, and is lent as the upcoming one before.
pub fn commits(
    storage: &mut Storage,
    index: u64,
    reply: Said<'_>,
    events: &[(&str, &str)],
) -> bool {
    let upcoming = is_done(storage.upcoming(), index, reply, events);
    let done = storage.commit();
    let told = is_done(done.as_ref(), index, reply, events);
    drop(done);
    upcoming && told && storage.applied() == index
}

/// Whether there is nothing to commit.
pub fn has_none(storage: &mut Storage) -> bool {
    let applied = storage.applied();
    let upcoming = storage.upcoming().is_none();
    let done = storage.commit();
    let none = done.is_none();
    drop(done);
    upcoming && none && storage.applied() == applied
}

/// Whether the session has these numbers.
pub fn is_at(session: Option<&Session>, epoch: u64, seq: u64, conn: u64) -> bool {
    match session {
        Some(session) => {
            session.timeout == 30000
                && session.passwd == [7; 16]
                && session.epoch == epoch
                && session.seq == seq
                && session.holder == origin(conn)
        }
        None => false,
    }
}

/// Whether these are the texts.
pub fn are(texts: &Paths, expected: &[&str]) -> bool {
    let texts = texts.as_slice();
    texts.len() == expected.len() && (0..expected.len()).all(|i| texts[i].as_str() == expected[i])
}

/// Whether these are the children of the path, and the nodes of the first session.
pub fn lists<V: View>(
    alloc: Global,
    view: &V,
    path: &str,
    kids: &[&str],
    owned: &[&str],
) -> Result<bool, NoMemory> {
    Ok(are(&view.kids(alloc, path)?, kids) && are(&view.owned(alloc, 1)?, owned))
}

/// Whether these are the paths and the sessions.
pub fn has_all<V: View>(
    alloc: Global,
    view: &V,
    paths: &[&str],
    sessions: &[u64],
) -> Result<bool, NoMemory> {
    let found = view.sessions(alloc)?;
    Ok(are(&view.paths(alloc)?, paths) && found.as_slice() == sessions)
}

/// The stories.
#[derive(Clone, Copy)]
pub enum Story {
    /// Nodes are made, committed and taken back.
    Nodes,
    /// A session ends with its nodes.
    Ends,
    /// A session is taken over.
    Attempts,
    /// Shown ids give rights.
    Ids,
}

fn tell(alloc: Global, storage: &mut Storage, story: Story) -> Result<bool, NoMemory> {
    match story {
        Story::Nodes => nodes(alloc, storage),
        Story::Ends => ends(alloc, storage),
        Story::Attempts => attempts(alloc, storage),
        Story::Ids => ids(alloc, storage),
    }
}

// Whether a story goes as it must, on an empty storage.
fn goes(alloc: Global, story: Story) -> Result<bool, NoMemory> {
    let mut storage = Storage::new(alloc)?;
    let told = tell(alloc, &mut storage, story);
    drop(storage);
    told
}

#[test]
fn nodes_are_made_committed_and_taken_back(rt: HostRuntime) -> Result<(), Fail> {
    assert!(rt; goes(rt.alloc(), Story::Nodes)?);
    Ok(())
}

#[test]
fn a_session_ends_with_its_nodes(rt: HostRuntime) -> Result<(), Fail> {
    assert!(rt; goes(rt.alloc(), Story::Ends)?);
    Ok(())
}

#[test]
fn a_session_is_taken_over_by_its_password(rt: HostRuntime) -> Result<(), Fail> {
    assert!(rt; goes(rt.alloc(), Story::Attempts)?);
    Ok(())
}

#[test]
fn shown_ids_give_rights(rt: HostRuntime) -> Result<(), Fail> {
    assert!(rt; goes(rt.alloc(), Story::Ids)?);
    Ok(())
}
