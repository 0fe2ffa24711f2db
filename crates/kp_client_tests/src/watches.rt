//! Watches: how they are set, fire and go.

use kp_model::{Event, Events, NoMemory, Text};
use kp_watch::{Fired, Kind, Watches};
use std::alloc::Global;

/// What happens at a path.
#[derive(Clone, Copy)]
enum Change {
    Comes,
    Set,
    Children,
    Goes,
}

/// The watches that are set, what happens then, which connection hears of which change, counted from 0, and how many
/// watches are left.
struct Row {
    set: &'static [(&'static str, Kind, u64)],
    changes: &'static [(Change, &'static str)],
    heard: &'static [(u64, usize)],
    left: usize,
}

const ROWS: [Row; 5] = [
    // that a node goes is heard once by a connection with both kinds of watch
    Row {
        set: &[
            ("/a", Kind::Data, 1),
            ("/a", Kind::Child, 1),
            ("/a", Kind::Child, 2),
            ("/a/b", Kind::Data, 2),
            ("/a", Kind::Data, 1),
        ],
        changes: &[(Change::Goes, "/a")],
        heard: &[(1, 0), (2, 0)],
        left: 1,
    },
    // a watch that fired is gone
    Row {
        set: &[],
        changes: &[(Change::Goes, "/a"), (Change::Comes, "/a/b")],
        heard: &[(2, 1)],
        left: 0,
    },
    // data and children are heard of apart
    Row {
        set: &[("/a", Kind::Data, 1), ("/a", Kind::Child, 2)],
        changes: &[(Change::Children, "/a"), (Change::Children, "/a")],
        heard: &[(2, 0)],
        left: 1,
    },
    Row {
        set: &[("/a", Kind::Child, 2)],
        changes: &[(Change::Set, "/a"), (Change::Comes, "/a")],
        heard: &[(1, 0)],
        left: 1,
    },
    // the watches of a path hear in the order in which they were set
    Row {
        set: &[
            ("/c", Kind::Data, 3),
            ("/c", Kind::Data, 2),
            ("/c", Kind::Data, 4),
        ],
        changes: &[(Change::Set, "/c")],
        heard: &[(3, 0), (2, 0), (4, 0)],
        left: 1,
    },
];

fn event_of(alloc: Global, change: Change, path: &str) -> Result<Event, NoMemory> {
    let path = Text::from_str(alloc, path)?;
    Ok(match change {
        Change::Comes => Event::Created(path),
        Change::Set => Event::DataChanged(path),
        Change::Children => Event::ChildrenChanged(path),
        Change::Goes => Event::Deleted(path),
    })
}

fn add_events(
    alloc: Global,
    events: &mut Events,
    changes: &[(Change, &str)],
) -> Result<(), NoMemory> {
    for (change, path) in changes {
        events.push(event_of(alloc, *change, path)?)?;
    }
    Ok(())
}

fn fire(
    alloc: Global,
    watches: &mut Watches,
    changes: &[(Change, &str)],
) -> Result<Vec<Fired>, NoMemory> {
    let mut events = Events::new(alloc);
    let added = add_events(alloc, &mut events, changes);
    let fired = match added {
        Ok(()) => watches.fire(events.as_slice()),
        Err(none) => Err(none),
    };
    drop(events);
    fired
}

fn are_heard(fired: &[Fired], heard: &[(u64, usize)]) -> bool {
    fired.len() == heard.len()
        && fired
            .iter()
            .zip(heard)
            .all(|(fired, heard)| (fired.conn, fired.at) == *heard)
}

// Whether a row shows what it should.
fn is_shown(alloc: Global, watches: &mut Watches, row: &Row) -> Result<bool, NoMemory> {
    for (path, kind, conn) in row.set {
        watches.add(path, *kind, *conn)?;
    }
    let fired = fire(alloc, watches, row.changes)?;
    Ok(are_heard(&fired, row.heard) && watches.len() == row.left)
}

fn are_shown(alloc: Global, watches: &mut Watches) -> Result<bool, NoMemory> {
    let mut all = true;
    for row in &ROWS {
        all = is_shown(alloc, watches, row)? && all;
    }
    Ok(all)
}

// Whether the watches stand in the order in which they were set, and those of a connection go.
fn go(alloc: Global, watches: &mut Watches) -> Result<bool, NoMemory> {
    watches.add("/d", Kind::Data, 5)?;
    let second = match watches.at(1) {
        None => false,
        Some(watch) => watch.path.as_str() == "/d" && watch.conn == 5,
    };
    let listed = watches.list(alloc)?.len() == 2;
    watches.drop_conn(2);
    let first = match watches.at(0) {
        None => false,
        Some(watch) => watch.conn == 5,
    };
    Ok(second && listed && first && watches.len() == 1 && watches.at(1).is_none())
}

#[test]
fn watches_fire_once(rt: HostRuntime) -> Result<(), NoMemory> {
    let mut watches = Watches::new(rt.alloc());
    let shown = are_shown(rt.alloc(), &mut watches);
    let gone = go(rt.alloc(), &mut watches);
    drop(watches);
    assert!(rt; shown? && gone?);
    Ok(())
}
