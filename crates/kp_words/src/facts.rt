use kp_model::{Items, Paths, Role, Text};

/// Where the log of a node begins and ends. Indexes and terms are below 2^63.
#[derive(Clone, Copy, Drop)]
pub struct LogFacts {
    /// The index up to which the log is an image.
    pub base: u64,

    /// The index of the last entry.
    pub last: u64,

    /// The term of the last entry.
    pub last_term: u64,

    /// The index up to which entries are known to be committed.
    pub commit: u64,

    /// The index up to which entries have been taken into the committed tree.
    pub applied: u64,
}

/// How much of everything a node has. They are counts of the committed tree and of what is open.
#[derive(Clone, Copy, Drop)]
pub struct Counts {
    /// Nodes of the tree, the root among them.
    pub nodes: u64,

    /// Nodes of the tree that a session owns.
    pub ephemerals: u64,

    /// The lengths of all paths and data, in bytes.
    pub size: u64,

    /// Connections, the one that asks and those that are closing among them.
    pub connections: u64,

    /// Sessions.
    pub sessions: u64,

    /// Watches. A path that a connection watches in both kinds has two.
    pub watches: u64,

    /// Connections that watch a path.
    pub watching: u64,

    /// Paths that are watched.
    pub watched: u64,
}

/// A connection.
#[derive(Clone, Copy, Drop)]
pub struct ConnFacts {
    /// Its number.
    pub number: u64,

    /// Its session; 0 where it has none, and where it is closing.
    pub session: u64,

    /// How many of its requests wait for an answer; 0 where it is closing.
    pub waiting: u64,
}

/// Paths that are a session's: those that it owns, or those that a connection of it watches.
#[derive(Drop)]
pub struct SessionPaths {
    /// The session; 0 for a connection that has none.
    pub session: u64,

    /// The paths, ascending.
    pub paths: Paths,
}

/// A path that is watched.
#[derive(Drop)]
pub struct WatchedPath {
    /// The path.
    pub path: Text,

    /// The sessions of the connections that watch it, in the order of the connections' numbers.
    pub sessions: Items<u64>,
}

/// What a node knows of itself. A list is looked at by the words alone that print it, and may be empty for the others.
#[derive(Drop)]
pub struct Facts {
    /// How many nodes the cluster has.
    pub members: u8,

    /// What the node is in the cluster.
    pub role: Role,

    /// Where its log begins and ends.
    pub log: LogFacts,

    /// How much of everything it has.
    pub counts: Counts,

    /// The connections, by their numbers. `cons` and `stat` print them.
    pub conns: Items<ConnFacts>,

    /// What each connection with a watch watches, in the order of the connections' numbers. `wchc` prints it.
    pub watchers: Items<SessionPaths>,

    /// The paths that are watched, ascending. `wchp` prints them.
    pub watched: Items<WatchedPath>,

    /// The sessions, ascending. `dump` prints them.
    pub sessions: Items<u64>,

    /// What each session that owns nodes owns, in the order of the sessions. `dump` prints it.
    pub owners: Items<SessionPaths>,
}
