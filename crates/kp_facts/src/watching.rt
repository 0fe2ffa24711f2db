//! Who watches what: the watches by connection, and by path.
ghost use Rattle.std.specs.Prelude.{◌≡◌, length, map, IfOk};
ghost use Rattle.std.specs.Ordering.{nat_cmp};
ghost use Rattle.kp_model.specs.State.{path_cmp};
ghost use Rattle.kp_facts.specs.Groups.{Gathers, shown};
ghost use Rattle.kp_facts.specs.Watched.{conn_of, path_of, conns_of, paths_of, paths_each, conns_each};
ghost use Rattle.kp_facts.specs.Facts.{session_at as session_of, watchers_facts, watched_facts};

use crate::groups::{Groups, enter, listed};
use crate::seated::session_at;
use kp_model::{Items, NoMemory, Text};
use kp_seats::Seats;
use kp_step::Seat;
use kp_watch::Watches;
use kp_words::{SessionPaths, WatchedPath};
use std::alloc::Global;
use std::collections::BTreeMap;

// The paths that each connection watches.
fn paths_by_conn(alloc: Global, watches: &Watches) -> Result<Groups<u64, Text>, NoMemory>
    ensures { IfOk result (λ g. Gathers nat_cmp path_cmp conn_of path_of watches.now g.entries) }
{
    let mut groups = BTreeMap::new(alloc);
    let mut list = watches.list(alloc)?;
    'walk: while let Some(watch) = list.pop() {
        let path = Text::from_str(alloc, watch.path.as_str())?;
        enter(&mut groups, alloc, watch.conn, path)?;
    }
    Ok(groups)
}

// The connections that watch each path.
fn conns_by_path(alloc: Global, watches: &Watches) -> Result<Groups<Text, u64>, NoMemory>
    ensures { IfOk result (λ g. Gathers path_cmp nat_cmp path_of conn_of watches.now g.entries) }
{
    let mut groups = BTreeMap::new(alloc);
    let mut list = watches.list(alloc)?;
    'walk: while let Some(watch) = list.pop() {
        let path = Text::from_str(alloc, watch.path.as_str())?;
        enter(&mut groups, alloc, path, watch.conn)?;
    }
    Ok(groups)
}

// The connections with a watch, in the order of their numbers, each with the paths that it watches, ascending.
fn by_conn(alloc: Global, watches: &Watches) -> Result<Vec<(u64, Vec<Text>)>, NoMemory>
    ensures { IfOk result (λ list. shown (λ v. v.items) list.items ≡ paths_each watches.now) }
{
    listed(alloc, paths_by_conn(alloc, watches)?)
}

// The watched paths, ascending, each with the connections that watch it, in the order of their numbers.
fn by_path(alloc: Global, watches: &Watches) -> Result<Vec<(Text, Vec<u64>)>, NoMemory>
    ensures { IfOk result (λ list. shown (λ v. v.items) list.items ≡ conns_each watches.now) }
{
    listed(alloc, conns_by_path(alloc, watches)?)
}

/// What each connection with a watch watches, in the order of the connections' numbers.
pub fn watchers(
    alloc: Global,
    seats: &Seats<Seat>,
    watches: &Watches,
) -> Result<Items<SessionPaths>, NoMemory>
    ensures { IfOk result (λ list. list ≡ watchers_facts seats.now.seats watches.now) }
{
    let mut list = Vec::new(alloc);
    for (conn, paths) in by_conn(alloc, watches)? {
        list.push(SessionPaths {
            session: session_at(seats, conn),
            paths: Items::from_vec(paths),
        })?;
    }
    Ok(Items::from_vec(list))
}

// The sessions that the connections serve.
fn sessions_of(alloc: Global, seats: &Seats<Seat>, conns: &[u64]) -> Result<Items<u64>, NoMemory>
    ensures { IfOk result (λ list. list ≡ map (session_of seats.now.seats) conns.now) }
{
    let mut list = Vec::new(alloc);
    for conn in conns {
        list.push(session_at(seats, *conn))?;
    }
    Ok(Items::from_vec(list))
}

/// The paths that are watched, ascending, each with the sessions of the connections that watch it.
pub fn watched(
    alloc: Global,
    seats: &Seats<Seat>,
    watches: &Watches,
) -> Result<Items<WatchedPath>, NoMemory>
    ensures { IfOk result (λ list. list ≡ watched_facts seats.now.seats watches.now) }
{
    let mut list = Vec::new(alloc);
    for (path, conns) in by_path(alloc, watches)? {
        let sessions = sessions_of(alloc, seats, &conns)?;
        drop(conns);
        list.push(WatchedPath { path, sessions })?;
    }
    Ok(Items::from_vec(list))
}

/// How many connections have a watch, and how many paths are watched.
pub fn watch_counts(alloc: Global, watches: &Watches) -> Result<(u64, u64), NoMemory>
    ensures { IfOk result (λ n. n ≡ (length (conns_of watches.now), length (paths_of watches.now))) }
{
    let conns = by_conn(alloc, watches)?;
    let paths = by_path(alloc, watches)?;
    Ok((conns.len() as u64, paths.len() as u64))
}
