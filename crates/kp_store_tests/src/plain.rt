//! The plain store, with ample memory.
ghost use Rattle.std.specs.Prelude.{◌≤◌, length, IsTrue, IfOk};
ghost use Rattle.kp_model.specs.Good.{IsSound};
ghost use Rattle.kp_model.specs.Grammar.{fits_cmd};

use kp_model::errors::NOT_EMPTY;
use kp_model::{Acls, Body, Bytes, Cmd, Entry, NoMemory, Origin, Reply, Seen, Text};
use kp_plain::PlainStore;
use std::alloc::Global;
use std::test::Fail;

// The opening of the first session.
fn open() -> Entry {
    Entry {
        term: 0,
        time: 0,
        body: Body::OpenSession {
            timeout: 30000,
            passwd: [0; 16],
            origin: Origin {
                node: 1,
                boot: 1,
                conn: 1,
            },
        },
    }
}

// A write of the first session.
fn write(seq: u64, cmd: Cmd) -> Entry
    requires number { seq ≤ 100 }
    requires fits { IsTrue (fits_cmd cmd) }
{
    Entry {
        term: 0,
        time: 0,
        body: Body::Write {
            session: 1,
            epoch: 1,
            seq,
            cmd,
        },
    }
}

// Adds an entry to a store that has room for it.
fn add(plain: &mut PlainStore, entry: &Entry) -> Result<(), NoMemory>
    requires sound { IsSound plain.old.state }
    ensures sound { IsSound plain.new.state }
{
    if plain.last() < 1 << 62 {
        plain.preprocess(entry)?;
    }
    Ok(())
}

// Opens the first session.
fn begin(plain: &mut PlainStore) -> Result<(), NoMemory>
    requires sound { IsSound plain.old.state }
    ensures sound { IsSound plain.new.state }
{
    let entry = open();
    let added = add(plain, &entry);
    drop(entry);
    added
}

// A command of the first session.
fn enter(plain: &mut PlainStore, seq: u64, cmd: Cmd) -> Result<(), NoMemory>
    requires number { seq ≤ 100 }
    requires fits { IsTrue (fits_cmd cmd) }
    requires sound { IsSound plain.old.state }
    ensures sound { IsSound plain.new.state }
{
    let entry = write(seq, cmd);
    let added = add(plain, &entry);
    drop(entry);
    added
}

// Creates a node that is open to everyone.
fn create(
    alloc: Global,
    plain: &mut PlainStore,
    seq: u64,
    path: &str,
    bytes: &[u8],
) -> Result<(), NoMemory>
    requires number { seq ≤ 100 }
    requires path { length path.now ≤ 100 }
    requires bytes { length bytes.now ≤ 100 }
    requires sound { IsSound plain.old.state }
    ensures sound { IsSound plain.new.state }
{
    let cmd = Cmd::Create {
        path: Text::from_str(alloc, path)?,
        bytes: Bytes::from_vec(Vec::from_slice(alloc, bytes)?),
        acl: Acls::everyone(alloc)?,
        flags: 0,
        stat: false,
    };
    enter(plain, seq, cmd)
}

// Sets the data of a node of any version.
fn set(
    alloc: Global,
    plain: &mut PlainStore,
    seq: u64,
    path: &str,
    bytes: &[u8],
) -> Result<(), NoMemory>
    requires number { seq ≤ 100 }
    requires path { length path.now ≤ 100 }
    requires bytes { length bytes.now ≤ 100 }
    requires sound { IsSound plain.old.state }
    ensures sound { IsSound plain.new.state }
{
    let cmd = Cmd::SetData {
        path: Text::from_str(alloc, path)?,
        bytes: Bytes::from_vec(Vec::from_slice(alloc, bytes)?),
        version: u32::MAX,
    };
    enter(plain, seq, cmd)
}

// Deletes a node of any version.
fn delete(alloc: Global, plain: &mut PlainStore, seq: u64, path: &str) -> Result<(), NoMemory>
    requires number { seq ≤ 100 }
    requires path { length path.now ≤ 100 }
    requires sound { IsSound plain.old.state }
    ensures sound { IsSound plain.new.state }
{
    let cmd = Cmd::Delete {
        path: Text::from_str(alloc, path)?,
        version: u32::MAX,
    };
    enter(plain, seq, cmd)
}

// Forgets the entries behind an index of the store.
fn cut(plain: &mut PlainStore, last: u64)
    requires sound { IsSound plain.old.state }
    ensures sound { IsSound plain.new.state }
{
    if plain.applied() <= last && last <= plain.last() {
        plain.truncate(last);
    }
}

// Whether a node is seen with this data, set by the entry of this index, in this version.
fn shows(seen: Option<Seen>, bytes: &[u8], index: u64, version: u32) -> bool {
    let shown = match &seen {
        None => false,
        Some(node) => {
            node.bytes.as_slice() == bytes
                && node.meta.mzxid == index
                && node.meta.version == version
        }
    };
    drop(seen);
    shown
}

// What a kept reply tells.
#[derive(Clone, Copy, PartialEq, Eq)]
enum Said {
    Session(u64),
    Done,
    Err(i32),
    More,
}

// Whether the entry of this index was answered so.
fn keeps(plain: &PlainStore, index: u64, expected: Said) -> Result<bool, NoMemory>
    requires sound { IsSound plain.now.state }
{
    let reply = plain.kept(index)?;
    let said = match &reply {
        Some(Reply::Session(id)) => Said::Session(*id),
        Some(Reply::Done) => Said::Done,
        Some(Reply::Err(code)) => Said::Err(*code),
        _ => Said::More,
    };
    drop(reply);
    Ok(said == expected)
}

// The index of the entry that is committed; None where there is none.
fn committed(plain: &mut PlainStore) -> Result<Option<u64>, NoMemory>
    requires sound { IsSound plain.old.state }
    ensures sound { IsSound plain.new.state }
{
    let done = plain.commit()?;
    let index = done.as_ref().map(|done| done.index);
    drop(done);
    Ok(index)
}

// Whether the first session has this running number.
fn has_written(plain: &PlainStore, seq: u64) -> Result<bool, NoMemory>
    requires sound { IsSound plain.now.state }
{
    let session = plain.who(1)?;
    let written = match &session {
        Some(session) => session.timeout == 30000 && session.seq == seq,
        None => false,
    };
    drop(session);
    Ok(written)
}

// Whether a creation is seen in the uncommitted state alone.
fn is_created(alloc: Global, plain: &mut PlainStore) -> Result<bool, NoMemory>
    requires sound { IsSound plain.old.state }
    ensures sound { IsSound plain.new.state }
{
    begin(plain)?;
    create(alloc, plain, 1, "/a", b"hi")?;
    let kept = keeps(plain, 1, Said::Session(1))?;
    let unseen = plain.see("/a")?.is_none();
    let seen = shows(plain.peek("/a")?, b"hi", 2, 0);
    Ok(kept && unseen && seen && has_written(plain, 1)?)
}

// Whether it is seen when it is committed.
fn is_committed(plain: &mut PlainStore) -> Result<bool, NoMemory>
    requires sound { IsSound plain.old.state }
    ensures sound { IsSound plain.new.state }
{
    let first = committed(plain)? == Some(1);
    let second = committed(plain)? == Some(2);
    let none = committed(plain)?.is_none();
    let seen = shows(plain.see("/a")?, b"hi", 2, 0);
    Ok(first && second && none && plain.applied() == 2 && seen)
}

fn creation(alloc: Global, plain: &mut PlainStore) -> Result<bool, NoMemory>
    requires sound { IsSound plain.old.state }
    ensures sound { IsSound plain.new.state }
{
    let created = is_created(alloc, plain)?;
    Ok(is_committed(plain)? && created)
}

// Whether a truncation takes the last data back.
fn data(alloc: Global, plain: &mut PlainStore) -> Result<bool, NoMemory>
    requires sound { IsSound plain.old.state }
    ensures sound { IsSound plain.new.state }
{
    begin(plain)?;
    create(alloc, plain, 1, "/a", b"")?;
    set(alloc, plain, 2, "/a", &[1])?;
    set(alloc, plain, 3, "/a", &[2])?;
    set(alloc, plain, 4, "/a", &[3])?;
    cut(plain, 4);
    Ok(plain.last() == 4 && shows(plain.peek("/a")?, &[2], 4, 2))
}

// A node and its child, which both go.
fn make_and_delete(alloc: Global, plain: &mut PlainStore) -> Result<(), NoMemory>
    requires sound { IsSound plain.old.state }
    ensures sound { IsSound plain.new.state }
{
    begin(plain)?;
    create(alloc, plain, 1, "/p", b"")?;
    create(alloc, plain, 2, "/p/c", b"")?;
    delete(alloc, plain, 3, "/p/c")?;
    delete(alloc, plain, 4, "/p")
}

// Whether a truncation takes deletions back, so that the node can't go.
fn deletions(alloc: Global, plain: &mut PlainStore) -> Result<bool, NoMemory>
    requires sound { IsSound plain.old.state }
    ensures sound { IsSound plain.new.state }
{
    make_and_delete(alloc, plain)?;
    let gone = keeps(plain, 5, Said::Done)?;
    cut(plain, 3);
    delete(alloc, plain, 3, "/p")?;
    Ok(gone && keeps(plain, 4, Said::Err(NOT_EMPTY))?)
}

// The stories.
#[derive(Clone, Copy)]
enum Story {
    Creation,
    Data,
    Deletions,
}

fn tell(alloc: Global, plain: &mut PlainStore, story: Story) -> Result<bool, NoMemory>
    requires sound { IsSound plain.old.state }
    ensures sound { IsSound plain.new.state }
{
    match story {
        Story::Creation => creation(alloc, plain),
        Story::Data => data(alloc, plain),
        Story::Deletions => deletions(alloc, plain),
    }
}

// Whether a story goes as it must, on an empty store.
fn goes(alloc: Global, story: Story) -> Result<bool, NoMemory> {
    let mut plain = PlainStore::new(alloc)?;
    let told = tell(alloc, &mut plain, story);
    drop(plain);
    told
}

#[test]
fn a_creation_is_seen_when_it_is_committed(rt: HostRuntime) -> Result<(), Fail> {
    assert!(rt; goes(rt.alloc(), Story::Creation)?);
    Ok(())
}

#[test]
fn a_truncation_takes_back_the_last_data(rt: HostRuntime) -> Result<(), Fail> {
    assert!(rt; goes(rt.alloc(), Story::Data)?);
    Ok(())
}

#[test]
fn a_truncation_takes_back_deletions(rt: HostRuntime) -> Result<(), Fail> {
    assert!(rt; goes(rt.alloc(), Story::Deletions)?);
    Ok(())
}
