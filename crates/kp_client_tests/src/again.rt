//! A client that came back sets its watches anew, and is told what it missed.
ghost use Rattle.std.specs.Prelude.{◌≤◌, IfOk, IsTrue};
ghost use Rattle.kp_model.specs.Grammar.{fits_acls, fits_cmd, is_body};

use crate::frames::{AGAIN, MISSED};
use kp_ask::{given_index, given_paths};
use kp_conn::{Conn, Fed, Waiting};
use kp_model::{Acl, Acls, Body, Bytes, Cmd, Entry, Event, NoMemory, Origin, Paths, Text};
use kp_storage::Storage;
use kp_watch::Watches;
use kp_wire::{WireAsk, WireReply};
use std::alloc::Global;

fn for_everyone(alloc: Global) -> Result<Acls, NoMemory>
    ensures { IfOk result (λ lines. IsTrue (fits_acls lines)) }
{
    let mut lines = Vec::new(alloc);
    lines.push(Acl {
        perms: 31,
        scheme: Text::from_str(alloc, "world")?,
        id: Text::from_str(alloc, "anyone")?,
    })?;
    Ok(Acls::from_vec(lines))
}

fn app(alloc: Global) -> Result<Cmd, NoMemory>
    ensures { IfOk result (λ cmd. IsTrue (fits_cmd cmd)) }
{
    Ok(Cmd::Create {
        path: Text::from_str(alloc, "/app")?,
        bytes: Bytes::from_vec(Vec::new(alloc)),
        acl: for_everyone(alloc)?,
        flags: 0,
        stat: false,
    })
}

// What the entry of an index says: nothing, a session, and that it creates `/app`.
fn body_of(alloc: Global, index: u64) -> Result<Body, NoMemory>
    ensures { IfOk result (λ body. IsTrue (is_body body)) }
{
    match index {
        1 => Ok(Body::Noop),
        2 => Ok(Body::OpenSession {
            timeout: 30_000,
            passwd: [0; 16],
            origin: Origin {
                node: 1,
                boot: 1,
                conn: 1,
            },
        }),
        _ => Ok(Body::Write {
            session: 1,
            epoch: 1,
            seq: 1,
            cmd: app(alloc)?,
        }),
    }
}

// Adds an entry and commits it.
fn enter(storage: &mut Storage, entry: &Entry) -> Result<(), NoMemory> {
    if storage.last() < 100 {
        storage.preprocess(entry)?;
    }
    drop(storage.commit());
    Ok(())
}

fn fill(alloc: Global, storage: &mut Storage) -> Result<(), NoMemory> {
    for index in 1..4 {
        let entry = Entry::new(1, 1_000, body_of(alloc, index)?)?;
        let entered = enter(storage, &entry);
        drop(entry);
        entered?;
    }
    Ok(())
}

// Sets the watches of three lists anew, and puts the events that are owed.
fn set_lists(
    conn: &mut Conn,
    watches: &mut Watches,
    storage: &Storage,
    since: u64,
    lists: &[Paths; 3],
) -> Result<(), NoMemory> {
    let view = storage.committed();
    let [contents, exist, child] = lists;
    let events = watches.set_watches(
        1,
        since,
        contents.as_slice(),
        exist.as_slice(),
        child.as_slice(),
        &view,
    )?;
    let put = put_events(conn, events.as_slice());
    drop(events);
    put
}

fn put_events(conn: &mut Conn, events: &[Event]) -> Result<(), NoMemory> {
    for event in events {
        conn.event(event)?;
    }
    Ok(())
}

// Sets the watches of a request anew.
fn set(
    alloc: Global,
    conn: &mut Conn,
    watches: &mut Watches,
    storage: &Storage,
    ask: &WireAsk,
) -> Result<(), NoMemory> {
    let WireAsk::SetWatches {
        zxid,
        contents,
        exist,
        child,
    } = ask
    else {
        return Ok(());
    };
    let lists = [
        given_paths(alloc, contents)?,
        given_paths(alloc, exist)?,
        given_paths(alloc, child)?,
    ];
    let done = set_lists(conn, watches, storage, given_index(*zxid), &lists);
    drop(lists);
    done
}

// All requests of a piece set their watches, and wait.
fn take(
    alloc: Global,
    conn: &mut Conn,
    watches: &mut Watches,
    storage: &Storage,
    fed: Fed,
) -> Result<(), NoMemory> {
    for request in fed.requests.into_vec() {
        set(alloc, conn, watches, storage, &request.ask)?;
        conn.join(Waiting {
            request,
            mark: None,
            reply: None,
        })?;
    }
    Ok(())
}

// Whether the client is told what it missed.
fn is_told(
    alloc: Global,
    conn: &mut Conn,
    watches: &mut Watches,
    storage: &Storage,
) -> Result<bool, NoMemory> {
    conn.serve(1, 1);
    let fed = conn.feed(AGAIN)?;
    take(alloc, conn, watches, storage, fed)?;
    if conn.front().is_some() {
        conn.answer(5, &WireReply::Empty)?;
    }
    let out = conn.drain();
    Ok(out.bytes.as_slice() == MISSED && watches.len() == 0)
}

fn tells(alloc: Global, storage: &mut Storage) -> Result<bool, NoMemory> {
    fill(alloc, storage)?;
    let mut conn = Conn::new(alloc);
    let mut watches = Watches::new(alloc);
    let told = is_told(alloc, &mut conn, &mut watches, storage);
    drop(conn);
    drop(watches);
    told
}

#[test]
fn a_client_that_came_back_is_told_what_it_missed(rt: HostRuntime) -> Result<(), NoMemory> {
    let mut storage = Storage::new(rt.alloc())?;
    let told = tells(rt.alloc(), &mut storage);
    drop(storage);
    assert!(rt; told?);
    Ok(())
}
