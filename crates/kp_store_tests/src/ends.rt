//! A session ends with its nodes, or is taken over.
use crate::stories::{
    EPHEMERAL, Said, attach, commits, create, cut, expire, has_all, has_none, is_at, keeps, lists,
    open, origin, write,
};
use kp_model::errors::SESSION_EXPIRED;
use kp_model::{Cmd, Meta, NoMemory, View};
use kp_storage::Storage;
use std::alloc::Global;

// An ephemeral node that is committed, one that isn't, and a persistent one.
fn make_owned(alloc: Global, storage: &mut Storage) -> Result<bool, NoMemory> {
    open(storage, 1)?;
    create(alloc, storage, 1, "/c", EPHEMERAL)?;
    let events = [("created", "/c"), ("children", "/")];
    let done = commits(storage, 1, Said::Session(1), &[])
        && commits(storage, 2, Said::Path("/c"), &events);
    create(alloc, storage, 2, "/u", EPHEMERAL)?;
    create(alloc, storage, 3, "/k", 0)?;
    Ok(done)
}

// The root behind three children and the end of two of them by the fifth entry.
const LEFT_ROOT: Meta = Meta {
    czxid: 0,
    mzxid: 0,
    pzxid: 5,
    ctime: 0,
    mtime: 0,
    version: 0,
    cversion: 5,
    aversion: 0,
    owner: 0,
    created: 3,
    len: 0,
    kids: 1,
};

// Whether the session and its nodes are gone from the uncommitted state, and the persistent node isn't.
fn is_over(alloc: Global, storage: &Storage) -> Result<bool, NoMemory> {
    let view = storage.latest();
    let listed = lists(alloc, &view, "/", &["k"], &[])?;
    let sessions = view.sessions(alloc)?;
    let gone = storage.latest_meta("/c").is_none()
        && storage.latest_data("/u").is_none()
        && storage.latest_session(1).is_none()
        && storage.latest_meta("/").copied() == Some(LEFT_ROOT);
    Ok(listed && gone && sessions.is_empty() && !view.holds(&origin(1)))
}

// Whether the committed state has the session with its one node.
fn goes_on(alloc: Global, storage: &Storage) -> Result<bool, NoMemory> {
    let view = storage.committed();
    let listed = lists(alloc, &view, "/", &["c"], &["/c"])?;
    Ok(listed && view.holds(&origin(1)) && is_at(storage.committed_session(1), 1, 1, 1))
}

// Whether a truncation brings both nodes and the session back.
fn comes_back(alloc: Global, storage: &mut Storage) -> Result<bool, NoMemory> {
    let cut = cut(storage, 4);
    let view = storage.latest();
    let listed = lists(alloc, &view, "/", &["c", "k", "u"], &["/c", "/u"])?;
    Ok(cut && listed && view.holds(&origin(1)) && is_at(storage.latest_session(1), 1, 3, 1))
}

fn closes(alloc: Global, storage: &mut Storage) -> Result<bool, NoMemory> {
    write(storage, 1, 4, Cmd::CloseSession)?;
    let kept = keeps(storage, 5, Said::Done);
    let over = is_over(alloc, storage)? && goes_on(alloc, storage)?;
    Ok(comes_back(alloc, storage)? && kept && over)
}

// Whether the end of the session is committed with its events.
fn commits_end(storage: &mut Storage) -> bool {
    let second = commits(
        storage,
        3,
        Said::Path("/u"),
        &[("created", "/u"), ("children", "/")],
    );
    let third = commits(
        storage,
        4,
        Said::Path("/k"),
        &[("created", "/k"), ("children", "/")],
    );
    let end = commits(
        storage,
        5,
        Said::Done,
        &[
            ("deleted", "/c"),
            ("children", "/"),
            ("deleted", "/u"),
            ("children", "/"),
        ],
    );
    second && third && end
}

// Whether the session ends as unheard, and then neither writes nor ends again.
fn expires(alloc: Global, storage: &mut Storage) -> Result<bool, NoMemory> {
    expire(storage)?;
    expire(storage)?;
    create(alloc, storage, 4, "/d", 0)?;
    let over = is_over(alloc, storage)?;
    let done = commits_end(storage)
        && commits(storage, 6, Said::Stale, &[])
        && commits(storage, 7, Said::Err(SESSION_EXPIRED), &[]);
    Ok(over && done && has_none(storage))
}

// Whether the committed state has the persistent node alone.
fn is_left(alloc: Global, storage: &Storage) -> Result<bool, NoMemory> {
    let view = storage.committed();
    let listed = lists(alloc, &view, "/", &["k"], &[])?;
    let all = has_all(alloc, &view, &["/", "/k"], &[])?;
    let gone = storage.committed_session(1).is_none() && !view.holds(&origin(1));
    let root = storage.committed_meta("/").copied() == Some(LEFT_ROOT);
    Ok(listed && all && gone && root && view.next_session() == 2)
}

pub fn ends(alloc: Global, storage: &mut Storage) -> Result<bool, NoMemory> {
    let made = make_owned(alloc, storage)?;
    let closed = closes(alloc, storage)?;
    let expired = expires(alloc, storage)?;
    Ok(is_left(alloc, storage)? && made && closed && expired)
}

// A session that is taken over behind three attempts, whose old connection then writes and opens.
fn take_over(storage: &mut Storage) -> Result<(), NoMemory> {
    open(storage, 1)?;
    attach(storage, 1, [8; 16], 2)?;
    attach(storage, 9, [7; 16], 2)?;
    attach(storage, 1, [7; 16], 1)?;
    attach(storage, 1, [7; 16], 2)?;
    write(storage, 1, 1, Cmd::CloseSession)?;
    open(storage, 2)?;
    open(storage, 1)
}

fn keeps_attempts(storage: &Storage) -> bool {
    keeps(storage, 1, Said::Session(1))
        && keeps(storage, 2, Said::Err(SESSION_EXPIRED))
        && keeps(storage, 3, Said::Err(SESSION_EXPIRED))
        && keeps(storage, 4, Said::Stale)
        && keeps(storage, 5, Said::Epoch(2))
        && keeps(storage, 6, Said::Stale)
        && keeps(storage, 7, Said::Stale)
        && keeps(storage, 8, Said::Session(2))
}

// Whether the connection that took the session over holds it in the uncommitted state.
fn is_taken_over(alloc: Global, storage: &Storage) -> Result<bool, NoMemory> {
    let view = storage.latest();
    let all = has_all(alloc, &view, &["/"], &[1, 2])?;
    let held = view.holds(&origin(2)) && view.holds(&origin(1)) && !view.holds(&origin(3));
    let session = is_at(storage.latest_session(1), 2, 0, 2);
    let other = is_at(storage.latest_session(2), 1, 0, 1);
    Ok(all && held && session && other && view.next_session() == 3)
}

// Whether a truncation gives the session back to its first connection, and the attempts are committed.
fn is_given_back(storage: &mut Storage) -> bool {
    let cut = cut(storage, 4) && is_at(storage.latest_session(1), 1, 0, 1);
    let held = !storage.latest().holds(&origin(2)) && storage.latest().next_session() == 2;
    let done = commits(storage, 1, Said::Session(1), &[])
        && commits(storage, 2, Said::Err(SESSION_EXPIRED), &[])
        && commits(storage, 3, Said::Err(SESSION_EXPIRED), &[])
        && commits(storage, 4, Said::Stale, &[]);
    cut && held && done && is_at(storage.committed_session(1), 1, 0, 1)
}

pub fn attempts(alloc: Global, storage: &mut Storage) -> Result<bool, NoMemory> {
    take_over(storage)?;
    let kept = keeps_attempts(storage);
    let taken = is_taken_over(alloc, storage)?;
    Ok(is_given_back(storage) && kept && taken)
}
