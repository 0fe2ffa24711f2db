//! All twelve words over one set of facts, as operators' tools read them.

ghost use Rattle.std.specs.Prelude.{◌<◌, ◌^◌};

use kp_model::{Items, NoMemory, Paths, Role, Text};
use kp_words::{ConnFacts, Counts, Facts, LogFacts, SessionPaths, WatchedPath, answer};
use std::alloc::Global;

/// A word, and its answer of a follower of three.
type Row = (&'static [u8; 4], Option<&'static str>);

const ROWS: [Row; 16] = [
    (b"ruok", Some("imok")),
    (b"isro", Some("rw")),
    (
        b"srvr",
        Some(
            "Keeper version: 1\nMode: follower\nZxid: 0x1f\nNode count: 5\nConnections: 2\nSessions: 3\nWatches: 4\n",
        ),
    ),
    (
        b"cons",
        Some(" 1 session=0xab waiting=12\n 4 session=0x0 waiting=0\n"),
    ),
    (
        b"stat",
        Some(
            "Clients:\n 1 session=0xab waiting=12\n 4 session=0x0 waiting=0\n\nKeeper version: 1\nMode: follower\nZxid: 0x1f\nNode count: 5\nConnections: 2\nSessions: 3\nWatches: 4\n",
        ),
    ),
    (
        b"mntr",
        Some(
            "zk_server_state\tfollower\nzk_znode_count\t5\nzk_ephemerals_count\t2\nzk_watch_count\t4\nzk_num_alive_connections\t2\nzk_approximate_data_size\t70\n",
        ),
    ),
    (
        b"wchs",
        Some("1 connections watching 2 paths\nTotal watches:4\n"),
    ),
    (b"wchc", Some("0xab\n\t/a\n\t/b\n")),
    (b"wchp", Some("/a\n\t0xab\n/b\n\t0xab\n\t0xcd\n")),
    (
        b"dump",
        Some("Sessions (3):\n0x1\n0xab\n0xcd\nEphemerals (1):\n0xcd\n\t/b\n\t/b/c\n"),
    ),
    (
        b"lgif",
        Some("first_log_idx\t11\nlast_log_idx\t33\nlast_log_term\t7\nlast_committed_log_idx\t32\n"),
    ),
    (b"csnp", Some("31")),
    // none of them
    (b"RUOK", None),
    (b"conf", None),
    (b"\x00\x00\x00\x2d", None),
    (b"ruo\n", None),
];

fn paths(alloc: Global, texts: &[&str]) -> Result<Paths, NoMemory> {
    let mut paths = Paths::new(alloc);
    for text in texts {
        paths.push(Text::from_str(alloc, text)?)?;
    }
    Ok(paths)
}

fn sessions(alloc: Global, ids: &[u64]) -> Result<Items<u64>, NoMemory> {
    let mut sessions = Items::new(alloc);
    for id in ids {
        sessions.push(*id)?;
    }
    Ok(sessions)
}

fn conns(alloc: Global) -> Result<Items<ConnFacts>, NoMemory> {
    let mut conns = Items::new(alloc);
    conns.push(ConnFacts {
        number: 1,
        session: 0xab,
        waiting: 12,
    })?;
    conns.push(ConnFacts {
        number: 4,
        session: 0,
        waiting: 0,
    })?;
    Ok(conns)
}

// A list of one session with its paths.
fn of_session(
    alloc: Global,
    session: u64,
    texts: &[&str],
) -> Result<Items<SessionPaths>, NoMemory> {
    let mut all = Items::new(alloc);
    let paths = paths(alloc, texts)?;
    all.push(SessionPaths { session, paths })?;
    Ok(all)
}

fn watched(alloc: Global) -> Result<Items<WatchedPath>, NoMemory> {
    let mut all = Items::new(alloc);
    let path = Text::from_str(alloc, "/a")?;
    let watching = sessions(alloc, &[0xab])?;
    all.push(WatchedPath {
        path,
        sessions: watching,
    })?;
    let path = Text::from_str(alloc, "/b")?;
    let watching = sessions(alloc, &[0xab, 0xcd])?;
    all.push(WatchedPath {
        path,
        sessions: watching,
    })?;
    Ok(all)
}

fn facts(alloc: Global, members: u8, role: Role) -> Result<Facts, NoMemory> {
    let log = LogFacts {
        base: 10,
        last: 33,
        last_term: 7,
        commit: 32,
        applied: 31,
    };
    let counts = Counts {
        nodes: 5,
        ephemerals: 2,
        size: 70,
        connections: 2,
        sessions: 3,
        watches: 4,
        watching: 1,
        watched: 2,
    };
    Ok(Facts {
        members,
        role,
        log,
        counts,
        conns: conns(alloc)?,
        watchers: of_session(alloc, 0xab, &["/a", "/b"])?,
        watched: watched(alloc)?,
        sessions: sessions(alloc, &[1, 0xab, 0xcd])?,
        owners: of_session(alloc, 0xcd, &["/b", "/b/c"])?,
    })
}

fn is_answered(alloc: Global, row: &Row, facts: &Facts) -> Result<bool, NoMemory>
    requires { facts.now.log.base < 2 ^ 63 }
{
    let answered = answer(alloc, *row.0, facts)?;
    Ok(match (&answered, row.1) {
        (None, None) => true,
        (Some(text), Some(wanted)) => text.as_slice() == wanted.as_bytes(),
        _ => false,
    })
}

#[test]
fn each_word_is_answered(rt: HostRuntime) -> Result<(), NoMemory> {
    let facts = facts(rt.alloc(), 3, Role::Follower)?;
    let mut all = facts.log.base < 100;
    for row in &ROWS {
        all = all && facts.log.base < 100 && is_answered(rt.alloc(), row, &facts)?;
    }
    drop(facts);
    assert!(rt; all);
    Ok(())
}

#[test]
fn a_cluster_of_one_is_standalone(rt: HostRuntime) -> Result<(), NoMemory> {
    let facts = facts(rt.alloc(), 1, Role::Leader)?;
    let row: Row = (
        b"mntr",
        Some(
            "zk_server_state\tstandalone\nzk_znode_count\t5\nzk_ephemerals_count\t2\nzk_watch_count\t4\nzk_num_alive_connections\t2\nzk_approximate_data_size\t70\n",
        ),
    );
    let same = facts.log.base < 100 && is_answered(rt.alloc(), &row, &facts)?;
    drop(facts);
    assert!(rt; same);
    Ok(())
}
