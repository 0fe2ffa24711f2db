//! Which connection serves which session.
ghost use Rattle.std.specs.Prelude.{◌≡◌, ◌&&◌, true, false, OnOk, OnErr};
ghost use Rattle.std.specs.FinMap as map;
ghost use Rattle.kp_seats.specs.Serving.{IsServer, without};

use crate::NoMemory;
use crate::numbered::{make_room, put_reserved, take};
use std::alloc::Global;
use std::collections::HashMap;
use std::marker::Model;

/// The session that each connection serves, if it serves one. Each session is served by at most one connection. The
/// session of a connection and the connection of a session are found by one look-up, however many there are.
#[derive(Drop)]
pub struct Sessions {
    // the session of each connection
    sessions: HashMap<u64, u64>,
    // the connection of each session
    conns: HashMap<u64, u64>,
    // whether one more fits into both
    has_room: bool,
}

impl Model for Sessions {
    ghost use Rattle.kp_seats.specs.Serving.{Serving, serving_code};

    ghost Value = { Serving };

    ghost coded = { serving_code };

    ghost use Rattle.kp_seats.specs.Index.{base_of, AreTied, HasRoom};

    ghost view = { λ s. record { sessions = base_of s.sessions.entries; has_room = s.has_room } };

    ghost invariant = { λ s. AreTied s.sessions.entries s.conns.entries × HasRoom s.has_room s.sessions s.conns };
}

impl Sessions {
    /// No connection serves a session. The growth takes memory from `alloc`.
    pub fn new(alloc: Global) -> Self
        ensures { result ≡ record { sessions = map.empty; has_room = false } }
    {
        Sessions {
            sessions: HashMap::new(alloc),
            conns: HashMap::new(alloc),
            has_room: false,
        }
    }

    /// The session that the connection serves, if it serves one.
    pub fn session(&self, conn: u64) -> Option<u64>
        ensures { result ≡ map.get self.now.sessions conn }
    {
        self.sessions.get(&conn).copied()
    }

    /// The connection that serves the session, if one does.
    pub fn find(&self, session: u64) -> Option<u64>
        ensures { IsServer self.now.sessions session result }
    {
        self.conns.get(&session).copied()
    }

    /// Makes the room that the next `join` uses up. After an error nothing has changed.
    pub fn make_room(&mut self) -> Result<(), NoMemory>
        ensures ok { OnOk result (self.new ≡ record { sessions = self.old.sessions; has_room = true }) }
        ensures err { OnErr result (self.new ≡ self.old) }
    {
        make_room(&mut self.sessions)?;
        make_room(&mut self.conns)?;
        self.has_room = true;
        Ok(())
    }

    /// Whether there is room for the next `join`.
    pub fn has_room(&self) -> bool
        ensures { result ≡ self.now.has_room }
    {
        self.has_room
    }

    /// Keeps the room only where this says so: with what `has_room` was before, it takes `make_room` back. It takes no
    /// memory.
    pub fn keep_room(&mut self, kept: bool)
        ensures { self.new ≡ record { sessions = self.old.sessions; has_room = self.old.has_room && kept } }
    {
        self.has_room = self.has_room && kept;
    }

    /// The connection serves this session from now on, and no other one. No other connection serves it: the one that
    /// did is answered. It takes no memory, since `make_room` made the room, which is used up.
    pub fn join(&mut self, conn: u64, session: u64) -> Option<u64>
        requires { self.old.has_room ≡ true }
        ensures taken { IsServer self.old.sessions session result }
        ensures change { self.new ≡ record { sessions = map.insert (without self.old.sessions session) conn session; has_room = false } }
    {
        let before = self.end(session);
        self.leave(conn);
        put_reserved(&mut self.sessions, conn, session);
        put_reserved(&mut self.conns, session, conn);
        self.has_room = false;
        before
    }

    /// The connection serves no session any more. Answers the one that it served. It takes no memory.
    pub fn leave(&mut self, conn: u64) -> Option<u64>
        ensures session { result ≡ map.get self.old.sessions conn }
        ensures change { self.new ≡ record { sessions = map.remove self.old.sessions conn; has_room = self.old.has_room } }
    {
        let session = take(&mut self.sessions, conn)?;
        take(&mut self.conns, session);
        Some(session)
    }

    /// No connection serves the session any more. Answers the one that did. It takes no memory.
    pub fn end(&mut self, session: u64) -> Option<u64>
        ensures server { IsServer self.old.sessions session result }
        ensures change { self.new ≡ record { sessions = without self.old.sessions session; has_room = self.old.has_room } }
    {
        let conn = take(&mut self.conns, session)?;
        take(&mut self.sessions, conn);
        Some(conn)
    }
}
