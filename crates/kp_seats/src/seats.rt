//! The connections by their numbers.
ghost use Rattle.std.specs.Prelude.{◌≡◌, ◌<◌, true, None, IfOk, OnErr, IfSome, IsSome, OnOk};
ghost use Rattle.std.specs.Option.{option_copied, option_copied_mut};
ghost use Rattle.std.specs.FinMap as map;
ghost use Rattle.std.specs.Borrow.{sem};
ghost use Rattle.kp_seats.specs.Serving.{IsServer};
ghost use Rattle.kp_seats.specs.Seating.{nobody, accepted, removed, roomy, roomy_if, joined, left, ended, above, IsNext, Leads};
ghost use Rattle.kp_seats.specs.Lending.{LendsSeat};

use crate::NoMemory;
use crate::numbered::take;
use crate::order::{enter, next_above};
use crate::sessions::Sessions;
use std::alloc::{AllocError, Global};
use std::collections::{BTreeSet, HashMap};
use std::marker::Model;

/// The connections of a node. Each has a number, counted up from 1 and never given again, and holds a value of any
/// type. A connection serves at most one session, and a session is served by at most one connection.
///
/// A connection, its session, and the connection of a session are found by one look-up each, however many there are;
/// the next connection in the order of numbers is found in the logarithm of their number.
#[derive(Drop)]
pub struct Seats<S> {
    // the number of the next connection
    next: u64,
    seats: HashMap<u64, S>,
    // the numbers of the connections
    order: BTreeSet<u64>,
    sessions: Sessions,
}

impl<S> Model for Seats<S> {
    ghost use Rattle.kp_seats.specs.Seating.{Seating, seating_code};

    ghost Value = { Seating S };

    ghost coded = { seating_code S.code };

    ghost use Rattle.kp_seats.specs.Index.{base_of, AreSeated};

    ghost view = { λ t. record { next = t.next; seats = base_of t.seats.entries; sessions = t.sessions.sessions; has_room = t.sessions.has_room } };

    ghost invariant = { λ t. AreSeated t.next t.seats.entries t.order t.sessions.sessions };
}

impl<S> Seats<S> {
    /// No connections. Their growth takes memory from `alloc`.
    pub fn new(alloc: Global) -> Self
        ensures { result ≡ nobody }
    {
        Seats {
            next: 1,
            seats: HashMap::new(alloc),
            order: BTreeSet::new(alloc),
            sessions: Sessions::new(alloc),
        }
    }

    /// The number of the next connection.
    pub fn next(&self) -> u64
        ensures { result ≡ self.now.next }
    {
        self.next
    }

    /// How many connections there are.
    pub fn len(&self) -> usize
        ensures { result ≡ map.len self.now.seats }
    {
        self.seats.len()
    }

    /// Lends what the connection holds. None exactly where there is no such connection.
    pub fn get(&self, conn: u64) -> Option<&S>
        ensures { option_copied result ≡ map.get self.now.seats conn }
    {
        self.seats.get(&conn)
    }

    /// Lends what the connection holds, to be changed. None exactly where there is no such connection.
    pub fn get_mut(&mut self, conn: u64) -> Option<&mut S>
        ensures* writes_back { sem 𝓛 (LendsSeat S.row self.entry conn result) }
        ensures value { option_copied_mut result ≡ map.get self.old.seats conn }
    {
        self.seats.get_mut(&conn)
    }

    /// The session that the connection serves, if it serves one.
    pub fn session(&self, conn: u64) -> Option<u64>
        ensures session { result ≡ map.get self.now.sessions conn }
        ensures seated { IsSome result → IsSome (map.get self.now.seats conn) }
    {
        self.sessions.session(conn)
    }

    /// The connection that serves the session, if one does.
    pub fn find(&self, session: u64) -> Option<u64>
        ensures server { IsServer self.now.sessions session result }
        ensures seated { IfSome result (λ k. IsSome (map.get self.now.seats k)) }
    {
        self.sessions.find(session)
    }

    /// The connection with the least number above `conn`. None exactly where there is none.
    pub fn next_after(&self, conn: u64) -> Option<u64>
        ensures next { IsNext self.now.seats conn result }
        ensures below { IfSome result (λ k. k < self.now.next) }
        ensures list { Leads self.now.seats conn result }
        ensures all { above self.now.seats 0 ≡ map.keys self.now.seats }
        ensures none { map.get self.now.seats 0 ≡ None }
    {
        next_above(&self.order, conn)
    }

    /// A new connection, which serves no session, and holds this. Answers its number. After an error nothing has
    /// changed.
    pub fn accept(&mut self, seat: S) -> Result<u64, NoMemory>
    where
        S: Drop,
        ensures number { IfOk result (λ k. k ≡ self.old.next) }
        ensures fresh { map.get self.old.seats self.old.next ≡ None }
        ensures idle { map.get self.old.sessions self.old.next ≡ None }
        ensures ok { OnOk result (self.new ≡ accepted self.old seat) }
        ensures err { OnErr result (self.new ≡ self.old) }
    {
        let conn = self.next;
        if conn == u64::MAX {
            drop(seat);
            return Err(AllocError);
        }
        enter(&mut self.seats, &mut self.order, conn, seat)?;
        self.next = conn + 1;
        Ok(conn)
    }

    /// Takes the connection away, and answers what it held. It takes no memory.
    pub fn remove(&mut self, conn: u64) -> Option<S>
        ensures seat { result ≡ map.get self.old.seats conn }
        ensures change { self.new ≡ removed self.old conn }
    {
        self.sessions.leave(conn);
        self.order.remove(&conn);
        take(&mut self.seats, conn)
    }

    /// Makes the room that the next `join` uses up. After an error nothing has changed.
    pub fn make_room(&mut self) -> Result<(), NoMemory>
        ensures ok { OnOk result (self.new ≡ roomy self.old) }
        ensures err { OnErr result (self.new ≡ self.old) }
    {
        self.sessions.make_room()
    }

    /// Whether there is room for the next `join`.
    pub fn has_room(&self) -> bool
        ensures { result ≡ self.now.has_room }
    {
        self.sessions.has_room()
    }

    /// Keeps the room only where this says so: with what `has_room` was before, it takes `make_room` back. It takes no
    /// memory.
    pub fn keep_room(&mut self, kept: bool)
        ensures { self.new ≡ roomy_if self.old kept }
    {
        self.sessions.keep_room(kept);
    }

    /// The connection, which is there, serves this session from now on, and no other one. No other connection serves
    /// it: the one that did, which the caller then ends, is answered. It takes no memory, since `make_room` made the
    /// room, which is used up.
    pub fn join(&mut self, conn: u64, session: u64) -> Option<u64>
        requires room { self.old.has_room ≡ true }
        requires there { IsSome (map.get self.old.seats conn) }
        ensures taken { IsServer self.old.sessions session result }
        ensures change { self.new ≡ joined self.old conn session }
    {
        self.sessions.join(conn, session)
    }

    /// The connection serves no session any more. Answers the one that it served. It takes no memory.
    pub fn leave(&mut self, conn: u64) -> Option<u64>
        ensures session { result ≡ map.get self.old.sessions conn }
        ensures change { self.new ≡ left self.old conn }
    {
        self.sessions.leave(conn)
    }

    /// No connection serves the session any more. Answers the one that did. It takes no memory.
    pub fn end(&mut self, session: u64) -> Option<u64>
        ensures server { IsServer self.old.sessions session result }
        ensures change { self.new ≡ ended self.old session }
    {
        self.sessions.end(session)
    }
}
